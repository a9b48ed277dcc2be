// The office that acts in a step, and what a batch knows of its final block.
ghost use Rattle.std.specs.Prelude.{◌≡◌, ◌<◌, ◌^◌, eqb, ltb};
ghost use Rattle.words.specs.Tests.{choose};
ghost use Rattle.words.specs.Digits.{with_member};
ghost use Rattle.register.specs.Limits.{most_offices};
ghost use Rattle.register.specs.Settled.{actor_of, settled_base};

use crate::limits::OFFICES;
use crate::sorts::{Block, Office};
use crate::step::Step;
use crate::table::OfficeState;

// The acting office: its place in the table of offices, and a block whose chain is known to be notarised in its view.
// Actors are not compared.
#[derive(Clone, Copy)]
pub struct Actor {
    pub at: usize,
    pub base: Block,
}

// An office that is not there.
const NOBODY: Office = Office(32);

// The office whose state a step may change; one that is not there for a step that changes none. It is no `Option`, here as in `actor_of` of the
// specs: an office that is not there is in no set, so whoever is given it needs no case for it.
pub(crate) fn actor_of(step: Step) -> Office
    ensures { result ≡ actor_of step }
{
    match step {
        Step::Finalise(office, _) => office,
        _ => NOBODY,
    }
}

// The place of an office in the table of offices; that of office 0 for a number that has none.
pub(crate) fn place_of(office: Office) -> usize
    ensures { (result ≡ choose (ltb office.0 most_offices) office.0 0) × (result < most_offices) }
{
    let at = office.0 as usize;
    if at < OFFICES { at } else { 0 }
}

// The final block that the office holds, where a step of the batch made it final; else genesis, whose chain is notarised in every view. The set is a word of
// 32 bits, as a caller that has it from a loop learns here.
pub(crate) fn settled_base(state: OfficeState, settled: u32, office: Office) -> Block
    ensures { (result ≡ settled_base state settled office.0) × (settled < 2 ^ 32) }
{
    if words::has(settled, office.0) {
        state.finalised
    } else {
        Block(0)
    }
}

// The offices that a step of the batch made a block final for, after one more step of that office, which got that refusal, 0 where it was accepted:
// the number that the batch's answers have.
pub(crate) fn settled_after(settled: u32, office: Office, refusal: u8) -> u32
    ensures { result ≡ choose (eqb refusal 0) (with_member settled office.0) settled }
{
    if refusal != 0 {
        return settled;
    }
    words::with_member(settled, office.0)
}
