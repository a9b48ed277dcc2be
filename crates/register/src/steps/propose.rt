// Propose: the leader names a block of the current epoch and sends its proposal.
ghost use Rattle.std.specs.Prelude.{◌≡◌};
ghost use Rattle.refusals.specs.Numbers.{outcome};
ghost use Rattle.words.specs.Refusals.{first, until};
ghost use Rattle.register.specs.Books.{book_of};
ghost use Rattle.register.specs.Types.{Step};
ghost use Rattle.register.specs.Steps.{propose};
ghost use Rattle.register.specs.Counted.{Counted};
ghost use Rattle.register.specs.Changes.{change_by, told};

use crate::change::Change;
use crate::limits::{MOST_BLOCKS, MOST_MESSAGES};
use crate::sorts::{Block, Kind, Message, Office};
use crate::steps::extending::{check_extending, leads};
use crate::steps::places::sent_place;
use crate::table::Register;
use refusals::Refusal;
use tables::Header;

// What a proposal is refused with by its tests up to 13: there is no such office or block, or the office is untrusted, has acted or does not lead.
fn check_leader(
    register: &Register,
    office: Office,
    parent: Block,
    payload: u16,
) -> Result<(), Refusal>
    requires { Counted register.now }
    ensures { outcome result ≡ first (until 19 (propose (book_of register.now) office parent payload).tests) }
{
    if register.n <= office.0 {
        return Err(Refusal::NoOffice);
    }
    if register.blocks.last.0 < parent.0 {
        return Err(Refusal::NoBlock);
    }
    if !register.is_trusted(office) {
        return Err(Refusal::Barred);
    }
    if words::has(register.acted, office.0) {
        return Err(Refusal::Acted);
    }
    if !leads(register, office) {
        return Err(Refusal::NotLeader);
    }
    Ok(())
}

// What it is refused with by its tests up to 20, which ask nothing of the block's name.
fn check_parent(
    register: &Register,
    office: Office,
    parent: Block,
    payload: u16,
) -> Result<(), Refusal>
    requires { Counted register.now }
    ensures { outcome result ≡ first (until 25 (propose (book_of register.now) office parent payload).tests) }
{
    check_leader(register, office, parent, payload)?;
    check_extending(register, office, parent, register.epoch)
}

// The change that a proposal makes.
pub(crate) fn propose(
    register: &Register,
    unchanged: Change,
    office: Office,
    parent: Block,
    payload: u16,
) -> Result<Change, Refusal>
    requires { Counted register.now }
    ensures { told unchanged result ≡ change_by unchanged (book_of register.now) (Step.Propose office parent payload) }
{
    check_parent(register, office, parent, payload)?;
    let header = Header {
        parent,
        epoch: register.epoch,
        payload,
    };
    let b = register.blocks.name(header);
    if b > MOST_BLOCKS {
        return Err(Refusal::BlocksFull);
    }
    if register.messages.count >= MOST_MESSAGES {
        return Err(Refusal::MessagesFull);
    }
    let block = Block(b as u8);
    let next = Message(register.messages.count);
    let word = sent_place(register, office);
    let sent = unchanged
        .named(block, header)
        .sent(next, Kind::Proposal, office, block, word);
    Ok(sent.acted(office).accepted(register.messages.count))
}
