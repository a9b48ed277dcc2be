// What a step changes, as a small value: the answer, and one entry for each table with the numbers that stand beside the table. Where a step leaves a
// table alone the entry is one that the table has already, so that a change is written to the book without a branch. Nobody compares two changes.
ghost use Rattle.std.specs.Prelude.{◌≡◌, ◌≤◌};
ghost use Rattle.refusals.specs.Numbers.{number_of};
ghost use Rattle.register.specs.Limits.{most_messages};
ghost use Rattle.register.specs.Changes.{
  refusing,
  accepting,
  timing,
  acting,
  naming,
  sending,
  moving,
  holding,
};

use crate::sorts::{Block, Epoch, Kind, Message, Office};
use crate::table::OfficeState;
use refusals::Refusal;
use tables::Header;

// The current epoch, and the offices that have acted in it.
#[derive(Clone, Copy)]
pub struct Clock {
    pub epoch: Epoch,
    pub acted: u32,
}

// The last block, and an entry of the table of blocks.
#[derive(Clone, Copy)]
pub struct BlockEntry {
    pub last: Block,
    pub at: usize,
    pub header: Header,
}

// How many messages there are, and an entry of the table of messages, with the word of its places.
#[derive(Clone, Copy)]
pub struct MessageEntry {
    pub count: u16,
    pub at: usize,
    pub kind: Kind,
    pub signer: Office,
    pub about: Block,
    pub place: u64,
}

// The word of a message's places; it is written after the entry of the table of messages.
#[derive(Clone, Copy)]
pub struct PlaceEntry {
    pub at: usize,
    pub place: u64,
}

// What an office holds.
#[derive(Clone, Copy)]
pub struct OfficeEntry {
    pub at: usize,
    pub state: OfficeState,
}

// 0 or the refusal, and the value: the batch has a column for each, where both are put as they are.
#[derive(Clone, Copy)]
pub struct Answer {
    pub value: u16,
    pub refusal: u8,
}

// The answer, with its single byte, stands last: before a wider field it would share a word with padding, and a copy of that word would wait for the
// byte.
#[derive(Clone, Copy)]
pub struct Change {
    pub clock: Clock,
    pub block: BlockEntry,
    pub message: MessageEntry,
    pub place: PlaceEntry,
    pub office: OfficeEntry,
    pub answer: Answer,
}

impl Change {
    // A refused step: nothing but the answer.
    pub(crate) fn refused(mut self, refusal: Refusal) -> Change
        ensures { result ≡ refusing self (number_of refusal) }
    {
        self.answer = Answer {
            value: 0,
            refusal: refusal.number(),
        };
        self
    }

    // An accepted step, with its value.
    pub(crate) fn accepted(mut self, value: u16) -> Change
        ensures { result ≡ accepting self value }
    {
        self.answer = Answer { value, refusal: 0 };
        self
    }

    // Another epoch, or other marks.
    pub(crate) fn timed(mut self, clock: Clock) -> Change
        ensures { result ≡ timing self clock }
    {
        self.clock = clock;
        self
    }

    // The office has acted.
    pub(crate) fn acted(self, office: Office) -> Change
        ensures { result ≡ acting self office.0 }
    {
        let clock = Clock {
            epoch: self.clock.epoch,
            acted: words::with_member(self.clock.acted, office.0),
        };
        self.timed(clock)
    }

    // Block b is named: it is made, of that header, where it is the next.
    pub(crate) fn named(mut self, b: Block, header: Header) -> Change
        ensures { result ≡ naming self b.0 header }
    {
        if b.0 <= self.block.last.0 {
            return self;
        }
        self.block = BlockEntry {
            last: b,
            at: b.0 as usize,
            header,
        };
        self
    }

    // The message of that number is sent; the word says where it stands.
    pub(crate) fn sent(
        mut self,
        message: Message,
        kind: Kind,
        signer: Office,
        about: Block,
        word: u64,
    ) -> Change
        requires { message.0 ≤ most_messages }
        ensures { result ≡ sending self message.0 kind signer about word }
    {
        let at = message.0 as usize;
        self.message = MessageEntry {
            count: message.0 + 1,
            at,
            kind,
            signer,
            about,
            place: word,
        };
        self.place = PlaceEntry { at, place: word };
        self
    }

    // The word of a message's places becomes that word.
    pub(crate) fn moved(mut self, message: Message, word: u64) -> Change
        ensures { result ≡ moving self message.0 word }
    {
        self.place = PlaceEntry {
            at: message.0 as usize,
            place: word,
        };
        self
    }

    // The acting office holds that.
    pub(crate) fn held(mut self, state: OfficeState) -> Change
        ensures { result ≡ holding self state }
    {
        self.office = OfficeEntry {
            at: self.office.at,
            state,
        };
        self
    }
}
