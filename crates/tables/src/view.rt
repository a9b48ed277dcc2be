// An office's view: who signed each block.
ghost use Rattle.std.specs.Prelude.{◌≡◌, ◌+◌, ◌<◌, eqb, get_or, set, MatchOption};
ghost use Rattle.words.specs.Tests.{choose, both};
ghost use Rattle.words.specs.Digits.{digit, with_member};
ghost use Rattle.tables.specs.Messages.{view};
ghost use Rattle.tables.specs.Columns.{signers_of, about_of, sent_of};
ghost use Rattle.tables.specs.Searches.{blocks, signers_in, view_in};

use crate::chunk::{Chunk, chunk_at};
use crate::messages::Messages;
use crate::sorts::{Block, Office};

// For each block the set of its signers in an office's view.
pub type View = [u32; 256];

// One message more: where it is in the office's view, the last stage, its signer is among the signers of its block. A signer from 32 up is no
// office, and no set has it. A block's number is below 256, which a caller that has it from a column learns here.
fn note(sets: &mut View, place: u64, office: Office, signer: Office, about: Block)
    ensures { (sets.new ≡ choose (eqb (digit 4 place office.0) view)
        (set sets.old about.0 (with_member (get_or sets.old about.0 0) signer.0)) sets.old) × (about.0 < blocks) }
{
    if words::is_last_stage(place, office.0) {
        let b = about.0 as usize;
        sets[b] = words::with_member(sets[b], signer.0);
    }
}

// The set with one more message's signer, where the message is about block b and in the office's view, the last stage; else the set as it is.
fn with_signer(set: u32, place: u64, office: Office, signer: Office, about: Block, b: Block) -> u32
    ensures { result ≡ choose (both (eqb about.0 b.0) (eqb (digit 4 place office.0) view)) (with_member set signer.0) set }
{
    if about != b {
        return set;
    }
    if !words::is_last_stage(place, office.0) {
        return set;
    }
    words::with_member(set, signer.0)
}

// So many chunks are read message by message for one block; where more are about it, the view of all blocks is cheaper.
const FEW: usize = 2;

impl Messages {
    // The office's view, by one pass over the messages from both ends: messages next to each other are often about one block, and its set would
    // be waited for. The two ends meet, and a `for` over one would reckon the other at each turn.
    pub fn view(&self, office: Office) -> View
        ensures { result ≡ view_in self.now.places (signers_of self.now) (about_of self.now) (sent_of self.now) office.0 }
    {
        let sent = self.sent();
        let mut sets = [0u32; 256];
        let mut low = 0;
        let mut high = sent;
        while low < high {
            high -= 1;
            note(
                &mut sets,
                self.places[low],
                office,
                self.signers[low],
                self.about[low],
            );
            note(
                &mut sets,
                self.places[high],
                office,
                self.signers[high],
                self.about[high],
            );
            low += 1;
        }
        sets
    }

    // Block b's signers by the messages before the chunk, with those by its messages.
    fn chunk_signers(&self, chunk: Chunk, office: Office, b: Block, set: u32) -> u32
        requires { set ≡ signers_in self.now.places (signers_of self.now) (about_of self.now) chunk.from office.0 b.0 }
        ensures { result ≡ signers_in self.now.places (signers_of self.now) (about_of self.now) (chunk.from + chunk.size) office.0 b.0 }
    {
        let mut all = set;
        for m in chunk.from..chunk.from + chunk.size {
            all = with_signer(
                all,
                self.places[m],
                office,
                self.signers[m],
                self.about[m],
                b,
            );
        }
        all
    }

    // The signers of block b in the office's view, unless too many chunks of messages have one about it. The other chunks are passed over. A
    // block's number is below 256, as a caller that has it from a loop learns here.
    pub(crate) fn block_signers(&self, office: Office, b: Block) -> Option<u32>
        ensures signers { MatchOption result Unit
            (λ set. set ≡ signers_in self.now.places (signers_of self.now) (about_of self.now) (sent_of self.now) office.0 b.0) }
        ensures within { b.0 < blocks }
    {
        let sent = self.sent();
        let mut set = 0;
        let mut read = 0;
        let mut from = 0;
        while from < sent {
            let chunk = chunk_at(from, sent);
            if self.chunk_about(chunk, b) {
                if read == FEW {
                    return None;
                }
                set = self.chunk_signers(chunk, office, b, set);
                read += 1;
            }
            from += chunk.size;
        }
        Some(set)
    }
}
