// Deliver: a message moves from transit to the inbox.
ghost use Rattle.std.specs.Prelude.{◌≡◌};
ghost use Rattle.refusals.specs.Numbers.{outcome};
ghost use Rattle.words.specs.Refusals.{first};
ghost use Rattle.register.specs.Books.{book_of};
ghost use Rattle.register.specs.Types.{Step};
ghost use Rattle.register.specs.Steps.{deliver};
ghost use Rattle.register.specs.Counted.{Counted};
ghost use Rattle.register.specs.Changes.{change_by, told};

use crate::change::Change;
use crate::sorts::{Message, Office, Stage};
use crate::steps::places::stage_of;
use crate::table::Register;
use refusals::Refusal;

// What a delivery is refused with.
fn check_deliver(register: &Register, message: Message, office: Office) -> Result<(), Refusal>
    requires { Counted register.now }
    ensures { outcome result ≡ first (deliver (book_of register.now) message office).tests }
{
    if register.n <= office.0 {
        return Err(Refusal::NoOffice);
    }
    if register.messages.count <= message.0 {
        return Err(Refusal::NoMessage);
    }
    if stage_of(register, office, message) != Stage::Transit {
        return Err(Refusal::NotSent);
    }
    Ok(())
}

// The change that a delivery makes.
pub(crate) fn deliver(
    register: &Register,
    unchanged: Change,
    message: Message,
    office: Office,
) -> Result<Change, Refusal>
    requires { Counted register.now }
    ensures { told unchanged result ≡ change_by unchanged (book_of register.now) (Step.Deliver message office) }
{
    check_deliver(register, message, office)?;
    let word = words::with_stage(
        register.messages.places[message.0 as usize],
        office.0,
        Stage::Inbox as u8,
    );
    Ok(unchanged.moved(message, word).accepted(message.0))
}
