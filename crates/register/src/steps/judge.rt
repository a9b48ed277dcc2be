// Any step, as the change that it makes.
ghost use Rattle.std.specs.Prelude.{◌≡◌, true, ◌<◌};
ghost use Rattle.register.specs.Books.{book_of};
ghost use Rattle.register.specs.Limits.{most_offices};
ghost use Rattle.register.specs.Counted.{Counted};
ghost use Rattle.register.specs.Tables.{state_of};
ghost use Rattle.register.specs.Changes.{unchanged_of, change_by, change_of, told};
ghost use Rattle.register.specs.Settled.{Acts};

use crate::actor::Actor;
use crate::change::{Answer, BlockEntry, Change, Clock, MessageEntry, OfficeEntry, PlaceEntry};
use crate::step::Step;
use crate::steps::{advance, bad_send, deliver, draft, finalise, propose, register, vote};
use crate::table::Register;
use refusals::Refusal;
use tables::Header;

// The change that leaves a book as it is, for an actor at that place of the table of offices.
fn unchanged(register: &Register, at: usize) -> Change
    requires { at < most_offices }
    ensures { result ≡ unchanged_of (book_of register.now) at (state_of (book_of register.now) at) }
{
    let place = register.messages.places[0];
    Change {
        clock: Clock {
            epoch: register.epoch,
            acted: register.acted,
        },
        block: BlockEntry {
            last: register.blocks.last,
            at: 0,
            header: Header {
                parent: register.blocks.parents[0],
                epoch: register.blocks.epochs[0],
                payload: register.blocks.payloads[0],
            },
        },
        message: MessageEntry {
            count: register.messages.count,
            at: 0,
            kind: register.messages.kinds[0],
            signer: register.messages.signers[0],
            about: register.messages.about[0],
            place,
        },
        place: PlaceEntry { at: 0, place },
        office: OfficeEntry {
            at,
            state: register.offices[at],
        },
        answer: Answer {
            value: 0,
            refusal: 0,
        },
    }
}

// The change that a step makes of a book whose single numbers are in their ranges, or its refusal. The kinds of step are closed, and each function takes the
// fields of its own, which no table of functions and no `dyn` could give it.
fn attempt(register: &Register, same: Change, actor: Actor, step: Step) -> Result<Change, Refusal>
    requires { Counted register.now × Acts (book_of register.now) step actor }
    ensures { told same result ≡ change_by same (book_of register.now) step }
{
    match step {
        Step::Propose(office, parent, payload) => {
            propose::propose(register, same, office, parent, payload)
        }
        Step::Vote(office, message) => vote::vote(register, same, office, message),
        Step::Register(office, message) => register::register(register, same, office, message),
        Step::Finalise(office, newest) => {
            finalise::finalise(register, same, actor.base, office, newest)
        }
        Step::Deliver(message, office) => deliver::deliver(register, same, message, office),
        Step::BadSend(sender, kind, signer, b) => {
            bad_send::bad_send(register, same, sender, kind, signer, b)
        }
        Step::Draft(parent, epoch, payload) => draft::draft(register, same, parent, epoch, payload),
        Step::Advance => advance::advance(register, same),
    }
}

// The change that a step makes. Where the book is not fit, a step gets 5.
pub(crate) fn judge(fits: bool, register: &Register, actor: Actor, step: Step) -> Change
    requires { (fits ≡ true → Counted register.now) × Acts (book_of register.now) step actor }
    ensures { result ≡ change_of fits (book_of register.now) actor.at step }
{
    let same = unchanged(register, actor.at);
    if !fits {
        return same.refused(Refusal::UnfitRegister);
    }
    match attempt(register, same, actor, step) {
        Ok(change) => change,
        Err(refusal) => same.refused(refusal),
    }
}
