// Draft: names a block, sends nothing.
ghost use Rattle.std.specs.Prelude.{◌≡◌};
ghost use Rattle.register.specs.Books.{book_of};
ghost use Rattle.register.specs.Types.{Step};
ghost use Rattle.register.specs.Counted.{Counted};
ghost use Rattle.register.specs.Changes.{change_by, told};

use crate::change::Change;
use crate::limits::{MOST_BLOCKS, WIDEST_EPOCH};
use crate::sorts::{Block, Epoch};
use crate::table::Register;
use refusals::Refusal;
use tables::Header;

// The change that a draft makes.
pub(crate) fn draft(
    register: &Register,
    unchanged: Change,
    parent: Block,
    epoch: Epoch,
    payload: u16,
) -> Result<Change, Refusal>
    requires { Counted register.now }
    ensures { told unchanged result ≡ change_by unchanged (book_of register.now) (Step.Draft parent epoch payload) }
{
    if register.blocks.last.0 < parent.0 {
        return Err(Refusal::NoBlock);
    }
    if WIDEST_EPOCH < epoch.0 {
        return Err(Refusal::Wide);
    }
    let header = Header {
        parent,
        epoch,
        payload,
    };
    let b = register.blocks.name(header);
    if b > MOST_BLOCKS {
        return Err(Refusal::BlocksFull);
    }
    Ok(unchanged.named(Block(b as u8), header).accepted(b))
}
