// Vote: a proposal moves from the inbox to the view, and a vote for its block is sent.
ghost use Rattle.std.specs.Prelude.{◌≡◌, ◌<◌};
ghost use Rattle.refusals.specs.Numbers.{outcome};
ghost use Rattle.words.specs.Refusals.{first, until};
ghost use Rattle.register.specs.Books.{book_of};
ghost use Rattle.register.specs.Types.{Step};
ghost use Rattle.register.specs.Refusals.{off_epoch};
ghost use Rattle.register.specs.Steps.{vote};
ghost use Rattle.register.specs.Limits.{most_messages};
ghost use Rattle.register.specs.Counted.{Counted};
ghost use Rattle.register.specs.Changes.{change_by, told};

use crate::change::Change;
use crate::limits::MOST_MESSAGES;
use crate::sorts::{Kind, Message, Office, Stage};
use crate::steps::extending::{check_extending, leads};
use crate::steps::places::{is_entered, sent_place, stage_of};
use crate::table::Register;
use refusals::Refusal;

// The message is not signed by the leader, or its block is not of the current epoch.
fn is_off_epoch(register: &Register, message: Message) -> bool
    requires { Counted register.now × (message.0 < most_messages) }
    ensures { result ≡ off_epoch (book_of register.now) message.0 }
{
    let at = message.0 as usize;
    let led = leads(register, register.messages.signers[at]);
    let epoch = register.blocks.epoch(register.messages.about[at]);
    !led | (epoch != register.epoch)
}

// What a vote is refused with by its tests up to 17: the office may not vote, or the message is no proposal of the leader's for the current epoch in
// its inbox.
fn check_proposal(register: &Register, office: Office, message: Message) -> Result<(), Refusal>
    requires { Counted register.now }
    ensures { outcome result ≡ first (until 18 (vote (book_of register.now) office message).tests) }
{
    if register.n <= office.0 {
        return Err(Refusal::NoOffice);
    }
    if register.messages.count <= message.0 {
        return Err(Refusal::NoMessage);
    }
    if !register.is_trusted(office) {
        return Err(Refusal::Barred);
    }
    if words::has(register.acted, office.0) {
        return Err(Refusal::Acted);
    }
    if leads(register, office) {
        return Err(Refusal::LeaderVotes);
    }
    if stage_of(register, office, message) != Stage::Inbox {
        return Err(Refusal::NotInHand);
    }
    if register.messages.kinds[message.0 as usize] == Kind::Vote {
        return Err(Refusal::Kind);
    }
    if is_off_epoch(register, message) {
        return Err(Refusal::OffEpoch);
    }
    Ok(())
}

// What a vote is refused with.
fn check_vote(register: &Register, office: Office, message: Message) -> Result<(), Refusal>
    requires { Counted register.now }
    ensures { outcome result ≡ first (vote (book_of register.now) office message).tests }
{
    check_proposal(register, office, message)?;
    if is_entered(register, office, message) {
        return Err(Refusal::Entered);
    }
    let b = register.messages.about[message.0 as usize];
    let parent = register.blocks.parent(b);
    let epoch = register.blocks.epoch(b);
    check_extending(register, office, parent, epoch)?;
    if register.messages.count >= MOST_MESSAGES {
        return Err(Refusal::MessagesFull);
    }
    Ok(())
}

// The change that a vote makes.
pub(crate) fn vote(
    register: &Register,
    unchanged: Change,
    office: Office,
    message: Message,
) -> Result<Change, Refusal>
    requires { Counted register.now }
    ensures { told unchanged result ≡ change_by unchanged (book_of register.now) (Step.Vote office message) }
{
    check_vote(register, office, message)?;
    let at = message.0 as usize;
    let word = sent_place(register, office);
    let next = Message(register.messages.count);
    let b = register.messages.about[at];
    let entered = words::with_stage(register.messages.places[at], office.0, Stage::View as u8);
    let sent = unchanged
        .sent(next, Kind::Vote, office, b, word)
        .moved(message, entered);
    Ok(sent.acted(office).accepted(register.messages.count))
}
