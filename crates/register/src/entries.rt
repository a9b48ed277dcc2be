// What the tables of a register hold of one epoch, one block or one message, for whoever reads it. For what is not there each call answers by zeros.
ghost use Rattle.std.specs.Prelude.{◌≡◌};
ghost use Rattle.register.specs.Books.{book_of};
ghost use Rattle.register.specs.Tables.{scheduled_in, leader_for, header_for, sent_in, content_for};
ghost use Rattle.register.specs.Views.{stage, stage_numbered};

use crate::limits::{EPOCHS, MESSAGES};
use crate::sorts::{Block, Epoch, Kind, Message, Office, Stage};
use crate::steps::places::stage_of;
use crate::table::{Content, Register};
use tables::Header;

// The epoch is one of the schedule, and of the table of leaders.
fn is_scheduled(scheduled: u16, epoch: u16) -> bool
    ensures { result ≡ scheduled_in scheduled epoch }
{
    words::between(1, scheduled as usize, epoch as usize) & (epoch as usize <= EPOCHS)
}

// The message has been sent, and stands in the table.
fn is_sent(count: u16, m: u16) -> bool
    ensures { result ≡ sent_in count m }
{
    (m < count) & ((m as usize) < MESSAGES)
}

impl Register {
    // The leader of an epoch; office 0 for an epoch that is not in the schedule.
    pub fn leader(&self, epoch: Epoch) -> Office
        ensures { result ≡ leader_for (book_of self.now) epoch.0 }
    {
        if !is_scheduled(self.scheduled, epoch.0) {
            return Office(0);
        }
        self.leaders[epoch.0 as usize - 1]
    }

    // A block's parent, epoch and payload; zeros of genesis, and of a number above the last block's.
    pub fn header(&self, b: Block) -> Header
        ensures { result ≡ header_for (book_of self.now) b.0 }
    {
        if !self.blocks.is_made(b) {
            return Header {
                parent: Block(0),
                epoch: Epoch(0),
                payload: 0,
            };
        }
        let at = b.0 as usize;
        Header {
            parent: self.blocks.parent(b),
            epoch: self.blocks.epochs[at],
            payload: self.blocks.payloads[at],
        }
    }

    // A message's kind, signer and block; of a number that was not sent, a proposal of office 0 about genesis, as none of a fit
    // register is.
    pub fn content(&self, message: Message) -> Content
        ensures { result ≡ content_for (book_of self.now) message.0 }
    {
        if !is_sent(self.messages.count, message.0) {
            return Content {
                kind: Kind::Proposal,
                signer: Office(0),
                about: Block(0),
            };
        }
        let m = message.0 as usize;
        let kind = self.messages.kinds[m];
        let signer = self.messages.signers[m];
        let about = self.messages.about[m];
        Content {
            kind,
            signer,
            about,
        }
    }

    // Where a message is for an office. For an office that is not trusted it is absent, and so is a message that was not sent.
    pub fn stage(&self, office: Office, message: Message) -> Stage
        ensures { result ≡ stage_numbered (stage (book_of self.now) office.0 message.0) }
    {
        stage_of(self, office, message)
    }
}
