// The messages that were sent: what each says, where it is for each office, and searches for one.
ghost use Rattle.std.specs.Prelude.{◌≡◌, false, ◌+◌, ◌<◌, min, eqb, get_or};
ghost use Rattle.words.specs.Tests.{both, any};
ghost use Rattle.words.specs.Digits.{digit};
ghost use Rattle.tables.specs.Messages.{view, says_in, history_in};
ghost use Rattle.tables.specs.Columns.{is_vote, votes_of, signers_of, about_of, sent_of};
ghost use Rattle.tables.specs.Searches.{signed_in};

use crate::chunk::{CHUNK, Chunk, chunk_at};
use crate::limits::MESSAGES;
use crate::scan::some_pass;
use crate::sorts::{Block, Kind, Office};

// The messages, in a column for each part: a search that reads one part of many messages compares many entries of its column at once. Nobody
// compares two tables. An office, a signer and a block are three numbers wherever a message is looked for, as a step has them.
#[derive(Clone, Copy)]
pub struct Messages {
    // how many messages have been sent
    pub count: u16,
    // for each message, at its number: its kind, its signer, and the block that it is about
    pub kinds: [Kind; MESSAGES],
    pub signers: [Office; MESSAGES],
    pub about: [Block; MESSAGES],
    // for each message a word in base 4, whose digit q is the message's stage for office q
    pub places: [u64; MESSAGES],
}

impl Messages {
    // How many messages have been sent; of a count above 1,024 those that have an entry.
    pub(crate) fn sent(&self) -> usize
        ensures { result ≡ sent_of self.now }
    {
        (self.count as usize).min(MESSAGES)
    }

    // Message m has that signer and that block.
    fn says(&self, signer: Office, b: Block, m: usize) -> bool
        requires { m < 1024 }
        ensures { result ≡ says_in (signers_of self.now) (about_of self.now) signer.0 b.0 m }
    {
        (self.signers[m] == signer) & (self.about[m] == b)
    }

    // A message of that kind, signer and block has been sent.
    pub fn in_history(&self, kind: Kind, signer: Office, b: Block) -> bool
        ensures { result ≡ history_in (votes_of self.now) (signers_of self.now) (about_of self.now) (sent_of self.now) (is_vote kind)
            signer.0 b.0 }
    {
        some_pass(
            0,
            self.sent(),
            |m| (self.kinds[m] == kind) & self.says(signer, b, m),
        )
    }

    // One of the messages of the chunk is about block b.
    pub(crate) fn chunk_about(&self, chunk: Chunk, b: Block) -> bool
        ensures { result ≡ any 64 (λ i. eqb (get_or (about_of self.now) (chunk.from + i) 0) b.0) }
    {
        some_pass(chunk.from, CHUNK, |m| self.about[m] == b)
    }

    // One of the messages of the chunk has that signer and that block.
    fn chunk_says(&self, chunk: Chunk, signer: Office, b: Block) -> bool
        ensures { result ≡ any 64 (λ i. says_in (signers_of self.now) (about_of self.now) signer.0 b.0 (chunk.from + i)) }
    {
        some_pass(chunk.from, CHUNK, |m| self.says(signer, b, m))
    }

    // One of the messages of the chunk is in the office's view, the last stage.
    fn chunk_seen(&self, chunk: Chunk, office: Office) -> bool
        ensures { result ≡ any 64 (λ i. eqb (digit 4 (get_or self.now.places (chunk.from + i) 0) office.0) view) }
    {
        some_pass(
            chunk.from,
            CHUNK,
            |m| words::is_last_stage(self.places[m], office.0),
        )
    }

    // Message m has that signer and that block, and is in the office's view, the last stage. Few messages are about one block, and only of those
    // more is asked: which way the tests of a message go is then seldom a surprise.
    fn is_signature(&self, office: Office, signer: Office, b: Block, m: usize) -> bool
        requires { m < 1024 }
        ensures { result ≡ both (eqb (digit 4 (get_or self.now.places m 0) office.0) view)
            (says_in (signers_of self.now) (about_of self.now) signer.0 b.0 m) }
    {
        if self.about[m] != b {
            return false;
        }
        if self.signers[m] != signer {
            return false;
        }
        words::is_last_stage(self.places[m], office.0)
    }

    // A message in the office's view, before the chunk or in it, has that signer and that block, where none before the chunk has. The chunk is
    // looked at message by message, from the newest up to the first hit, only where it has a message of that signer about that block and one in
    // the view.
    fn chunk_signed(&self, chunk: Chunk, office: Office, signer: Office, b: Block) -> bool
        requires { signed_in self.now.places (signers_of self.now) (about_of self.now) chunk.from office.0 signer.0 b.0 ≡ false }
        ensures { result ≡ signed_in self.now.places (signers_of self.now) (about_of self.now) (chunk.from + chunk.size) office.0 signer.0 b.0 }
    {
        if !self.chunk_says(chunk, signer, b) {
            return false;
        }
        if !self.chunk_seen(chunk, office) {
            return false;
        }
        for i in (0..chunk.size).rev() {
            if self.is_signature(office, signer, b, chunk.from + i) {
                return true;
            }
        }
        false
    }

    // A message in the view of the office, which is trusted, has that signer and that block. The messages are looked at by chunks, up to the
    // first hit.
    pub fn is_signed(&self, office: Office, signer: Office, b: Block) -> bool
        ensures { result ≡ signed_in self.now.places (signers_of self.now) (about_of self.now) (sent_of self.now) office.0 signer.0 b.0 }
    {
        let sent = self.sent();
        let mut from = 0;
        while from < sent {
            let chunk = chunk_at(from, sent);
            if self.chunk_signed(chunk, office, signer, b) {
                return true;
            }
            from += chunk.size;
        }
        false
    }
}
