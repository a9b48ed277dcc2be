// Register: a vote moves from the inbox to the view.
ghost use Rattle.std.specs.Prelude.{◌≡◌};
ghost use Rattle.refusals.specs.Numbers.{outcome};
ghost use Rattle.words.specs.Refusals.{first};
ghost use Rattle.register.specs.Books.{book_of};
ghost use Rattle.register.specs.Types.{Step};
ghost use Rattle.register.specs.Steps.{register as register_rule};
ghost use Rattle.register.specs.Counted.{Counted};
ghost use Rattle.register.specs.Changes.{change_by, told};

use crate::change::Change;
use crate::sorts::{Kind, Message, Office, Stage};
use crate::steps::places::{is_entered, stage_of};
use crate::table::Register;
use refusals::Refusal;

// What a register step is refused with.
fn check_register(register: &Register, office: Office, message: Message) -> Result<(), Refusal>
    requires { Counted register.now }
    ensures { outcome result ≡ first (register_rule (book_of register.now) office message).tests }
{
    if register.n <= office.0 {
        return Err(Refusal::NoOffice);
    }
    if register.messages.count <= message.0 {
        return Err(Refusal::NoMessage);
    }
    if !register.is_trusted(office) {
        return Err(Refusal::Barred);
    }
    if stage_of(register, office, message) != Stage::Inbox {
        return Err(Refusal::NotInHand);
    }
    if register.messages.kinds[message.0 as usize] != Kind::Vote {
        return Err(Refusal::Kind);
    }
    if is_entered(register, office, message) {
        return Err(Refusal::Entered);
    }
    Ok(())
}

// The change that a register step makes.
pub(crate) fn register(
    register: &Register,
    unchanged: Change,
    office: Office,
    message: Message,
) -> Result<Change, Refusal>
    requires { Counted register.now }
    ensures { told unchanged result ≡ change_by unchanged (book_of register.now) (Step.Register office message) }
{
    check_register(register, office, message)?;
    let word = words::with_stage(
        register.messages.places[message.0 as usize],
        office.0,
        Stage::View as u8,
    );
    Ok(unchanged.moved(message, word).accepted(message.0))
}
