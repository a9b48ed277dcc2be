// Advance: the next epoch, every trusted office ready.
ghost use Rattle.std.specs.Prelude.{◌≡◌};
ghost use Rattle.register.specs.Books.{book_of};
ghost use Rattle.register.specs.Types.{Step};
ghost use Rattle.register.specs.Counted.{Counted};
ghost use Rattle.register.specs.Changes.{change_by, told};

use crate::change::{Change, Clock};
use crate::sorts::Epoch;
use crate::table::Register;
use refusals::Refusal;

pub(crate) fn advance(register: &Register, unchanged: Change) -> Result<Change, Refusal>
    requires { Counted register.now }
    ensures { told unchanged result ≡ change_by unchanged (book_of register.now) Step.Advance }
{
    let epoch = register.epoch.0;
    if register.scheduled <= epoch {
        return Err(Refusal::Spent);
    }
    let clock = Clock {
        epoch: Epoch(epoch + 1),
        acted: 0,
    };
    Ok(unchanged.timed(clock).accepted(epoch + 1))
}
