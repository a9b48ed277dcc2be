// Finalise: an office's final block becomes the parent of a block that meets the condition, unless its final chain would get shorter.
ghost use Rattle.std.specs.Prelude.{◌≡◌, true};
ghost use Rattle.refusals.specs.Numbers.{outcome};
ghost use Rattle.words.specs.Refusals.{first};
ghost use Rattle.tables.specs.Blocks.{epoch_in};
ghost use Rattle.tables.specs.Columns.{epochs_of};
ghost use Rattle.register.specs.Books.{book_of};
ghost use Rattle.register.specs.Tables.{trusted};
ghost use Rattle.register.specs.Types.{Step};
ghost use Rattle.register.specs.Refusals.{consecutive, finalises};
ghost use Rattle.register.specs.Steps.{finalise};
ghost use Rattle.register.specs.Counted.{Counted};
ghost use Rattle.register.specs.Changes.{change_by, told};
ghost use Rattle.register.specs.Settled.{Base};

use crate::change::Change;
use crate::sorts::{Block, Office};
use crate::table::{OfficeState, Register};
use refusals::Refusal;
use tables::Blocks;

// The blocks b, c and d are consecutive. Only the oldest, d, may be genesis, whose epoch is 0.
pub fn are_consecutive(blocks: &Blocks, b: Block, c: Block, d: Block) -> bool
    ensures { result ≡ consecutive (epoch_in (epochs_of blocks.now) blocks.now.last.0) b.0 c.0 d.0 }
{
    let newest = blocks.epoch(b).0 as u32;
    let middle = blocks.epoch(c).0 as u32;
    let oldest = blocks.epoch(d).0 as u32;
    (b.0 != 0) & (c.0 != 0) & (newest == oldest + 2) & (middle == oldest + 1)
}

// The condition for finalising, of a trusted office in whose view the base's chain is notarised. The messages are read only where the epochs
// are as they should be. What is known of the base comes from the batch, by `attempt`, and goes no further than here.
fn is_final(register: &Register, base: Block, office: Office, newest: Block) -> bool
    requires { Counted register.now
        × (trusted (book_of register.now) office.0 ≡ true)
        × Base (book_of register.now) office.0 base.0 }
    ensures { result ≡ finalises (book_of register.now) office.0 newest.0 }
{
    let c = register.blocks.parent(newest);
    let d = register.blocks.parent(c);
    if !are_consecutive(&register.blocks, newest, c, d) {
        return false;
    }
    tables::is_notarised_above(
        &register.blocks,
        &register.messages,
        register.n,
        office,
        newest,
        base,
    )
}

// What a finalise step is refused with. In the office's view the base's chain is notarised.
fn check_finalise(
    register: &Register,
    base: Block,
    office: Office,
    newest: Block,
) -> Result<(), Refusal>
    requires { Counted register.now × Base (book_of register.now) office.0 base.0 }
    ensures { outcome result ≡ first (finalise (book_of register.now) office newest).tests }
{
    if register.n <= office.0 {
        return Err(Refusal::NoOffice);
    }
    if register.blocks.last.0 < newest.0 {
        return Err(Refusal::NoBlock);
    }
    if !register.is_trusted(office) {
        return Err(Refusal::Barred);
    }
    if !is_final(register, base, office, newest) {
        return Err(Refusal::NotFinal);
    }
    let c = register.blocks.parent(newest);
    let state = register.offices[office.0 as usize];
    if register.blocks.is_shorter(c, state.finalised) {
        return Err(Refusal::Behind);
    }
    Ok(())
}

// The change that a finalise step makes. In the office's view the base's chain is notarised.
pub(crate) fn finalise(
    register: &Register,
    unchanged: Change,
    base: Block,
    office: Office,
    newest: Block,
) -> Result<Change, Refusal>
    requires { Counted register.now × Base (book_of register.now) office.0 base.0 }
    ensures { told unchanged result ≡ change_by unchanged (book_of register.now) (Step.Finalise office newest) }
{
    check_finalise(register, base, office, newest)?;
    let c = register.blocks.parent(newest);
    let state = OfficeState { finalised: c };
    Ok(unchanged.held(state).accepted(c.0 as u16))
}
