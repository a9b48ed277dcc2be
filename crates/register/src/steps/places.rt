// Where a message stands for an office.
ghost use Rattle.std.specs.Prelude.{◌≡◌, true, ◌<◌, get_or};
ghost use Rattle.register.specs.Books.{book_of};
ghost use Rattle.register.specs.Tables.{trusted};
ghost use Rattle.register.specs.Views.{stage, stage_numbered};
ghost use Rattle.register.specs.Refusals.{entered};
ghost use Rattle.register.specs.Effects.{sent_place};
ghost use Rattle.register.specs.Limits.{most_messages};
ghost use Rattle.register.specs.Counted.{Counted};

use crate::limits::MESSAGES;
use crate::sorts::{Message, Office, Stage};
use crate::table::Register;
use tables::Messages;

// The word of a message's places; of a number past the table 0.
fn place_of(messages: &Messages, message: Message) -> u64
    ensures { result ≡ get_or messages.now.places message.0 0 }
{
    let m = message.0 as usize;
    if m < MESSAGES { messages.places[m] } else { 0 }
}

// The stage of that number; absent, of one that is none of the four, which a `From` would not say.
fn stage_numbered(number: u8) -> Stage
    ensures { result ≡ stage_numbered number }
{
    match number {
        1 => Stage::Transit,
        2 => Stage::Inbox,
        3 => Stage::View,
        _ => Stage::Absent,
    }
}

// The stage of a message for an office. For an office that is not trusted it is absent, and so is a message that was not sent.
pub(crate) fn stage_of(register: &Register, office: Office, message: Message) -> Stage
    ensures { result ≡ stage_numbered (stage (book_of register.now) office.0 message.0) }
{
    if !register.is_trusted(office) {
        return Stage::Absent;
    }
    if message.0 >= register.messages.count {
        return Stage::Absent;
    }
    stage_numbered(words::stage(place_of(&register.messages, message), office.0))
}

// The signature of a message's signer on the message's block is in the view of the office, which is trusted.
pub(crate) fn is_entered(register: &Register, office: Office, message: Message) -> bool
    requires { Counted register.now
        × (message.0 < most_messages)
        × (trusted (book_of register.now) office.0 ≡ true) }
    ensures { result ≡ entered (book_of register.now) office.0 message.0 }
{
    let at = message.0 as usize;
    let signer = register.messages.signers[at];
    register
        .messages
        .is_signed(office, signer, register.messages.about[at])
}

// The word of a message's places where that office sends it: in transit to the trusted offices, and in the office's own view where
// it is one of them.
pub(crate) fn sent_place(register: &Register, actor: Office) -> u64
    requires { Counted register.now }
    ensures { result ≡ sent_place (book_of register.now) actor.0 }
{
    let word = words::spread(register.trust, register.n);
    if !register.is_trusted(actor) {
        return word;
    }
    words::with_stage(word, actor.0, Stage::View as u8)
}
