// Bad send: an untrusted office sends what it likes, but for the signatures of trusted offices that they never sent.
ghost use Rattle.std.specs.Prelude.{◌≡◌};
ghost use Rattle.refusals.specs.Numbers.{outcome};
ghost use Rattle.words.specs.Refusals.{first};
ghost use Rattle.register.specs.Books.{book_of};
ghost use Rattle.register.specs.Types.{Step};
ghost use Rattle.register.specs.Refusals.{forged};
ghost use Rattle.register.specs.Steps.{bad_send};
ghost use Rattle.register.specs.Counted.{Counted};
ghost use Rattle.register.specs.Changes.{change_by, told};

use crate::change::Change;
use crate::limits::MOST_MESSAGES;
use crate::sorts::{Block, Kind, Message, Office};
use crate::steps::places::sent_place;
use crate::table::Register;
use refusals::Refusal;

// The signer is trusted and never sent such a message. The history is searched only where the signer is trusted.
fn is_forged(register: &Register, kind: Kind, signer: Office, b: Block) -> bool
    requires { Counted register.now }
    ensures { result ≡ forged (book_of register.now) kind signer.0 b.0 }
{
    if !register.is_trusted(signer) {
        return false;
    }
    !register.messages.in_history(kind, signer, b)
}

// What a bad send is refused with.
fn check_bad_send(
    register: &Register,
    sender: Office,
    kind: Kind,
    signer: Office,
    b: Block,
) -> Result<(), Refusal>
    requires { Counted register.now }
    ensures { outcome result ≡ first (bad_send (book_of register.now) sender kind signer b).tests }
{
    if (register.n <= sender.0) | (register.n <= signer.0) {
        return Err(Refusal::NoOffice);
    }
    if (b.0 == 0) | (register.blocks.last.0 < b.0) {
        return Err(Refusal::NoBlock);
    }
    if register.is_trusted(sender) {
        return Err(Refusal::TrustedSender);
    }
    if is_forged(register, kind, signer, b) {
        return Err(Refusal::Forged);
    }
    if register.messages.count >= MOST_MESSAGES {
        return Err(Refusal::MessagesFull);
    }
    Ok(())
}

// The change that a bad send makes.
pub(crate) fn bad_send(
    register: &Register,
    unchanged: Change,
    sender: Office,
    kind: Kind,
    signer: Office,
    b: Block,
) -> Result<Change, Refusal>
    requires { Counted register.now }
    ensures { told unchanged result ≡ change_by unchanged (book_of register.now) (Step.BadSend sender kind signer b) }
{
    check_bad_send(register, sender, kind, signer, b)?;
    let word = sent_place(register, sender);
    let next = Message(register.messages.count);
    Ok(
        unchanged
            .sent(next, kind, signer, b, word)
            .accepted(register.messages.count),
    )
}
