// What a vote and a proposal have in common: the office acts, once an epoch, on a longest notarised chain.
ghost use Rattle.std.specs.Prelude.{◌≡◌, true, [], ◌∷◌, leb};
ghost use Rattle.refusals.specs.Numbers.{outcome};
ghost use Rattle.words.specs.Refusals.{◌⇒◌, first};
ghost use Rattle.register.specs.Books.{book_of};
ghost use Rattle.register.specs.Tables.{trusted, epoch_of};
ghost use Rattle.register.specs.Refusals.{leads, not_longest};
ghost use Rattle.register.specs.Counted.{Counted};

use crate::sorts::{Block, Epoch, Office};
use crate::table::Register;
use refusals::Refusal;

// The office is the leader of the current epoch.
pub(crate) fn leads(register: &Register, office: Office) -> bool
    requires { Counted register.now }
    ensures { result ≡ leads (book_of register.now) office.0 }
{
    register.leaders[register.epoch.0 as usize - 1] == office
}

// What a block of that epoch on that parent is refused with: the parent's chain is not longest in the view of the office, which is trusted, or
// the block's epoch is not above the parent's. That the office is trusted the step's own test, just before, has shown.
pub(crate) fn check_extending(
    register: &Register,
    office: Office,
    parent: Block,
    epoch: Epoch,
) -> Result<(), Refusal>
    requires { Counted register.now × (trusted (book_of register.now) office.0 ≡ true) }
    ensures { outcome result ≡ first
        ((not_longest (book_of register.now) office.0 parent.0 ⇒ 19)
        ∷ (leb epoch.0 (epoch_of (book_of register.now) parent.0) ⇒ 20)
        ∷ []) }
{
    let view = register.messages.view(office);
    if !tables::is_longest(&view, &register.blocks, register.n, parent) {
        return Err(Refusal::NotLongest);
    }
    if epoch.0 <= register.blocks.epoch(parent).0 {
        return Err(Refusal::Epochs);
    }
    Ok(())
}
