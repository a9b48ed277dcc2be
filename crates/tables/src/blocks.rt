// The blocks that were made: what each is made of, and the number of the one that is made of that.
ghost use Rattle.std.specs.Prelude.{◌≡◌, not, ◌+◌, ◌%◌, ◌<◌, eqb, get_or};
ghost use Rattle.words.specs.Tests.{both, either, any};
ghost use Rattle.tables.specs.Blocks.{made_in, parent_in, epoch_in, matches_in, named_in};
ghost use Rattle.tables.specs.Columns.{parents_of, epochs_of};

use crate::limits::BLOCKS;
use crate::scan::some_pass;
use crate::sorts::{Block, Epoch};

// So many blocks are looked at together.
const CHUNK: usize = 32;

// What a block is made of.
#[derive(Clone, Copy, Debug, PartialEq, Eq)]
pub struct Header {
    pub parent: Block,
    pub epoch: Epoch,
    pub payload: u16,
}

// The blocks, in a column for each part of a header: a search that reads one part of many blocks compares many entries of its column at once.
// The blocks are a tree by numbers, a parent before its children: the numbers are the rules' own, and there is no heap for boxes. Nobody compares two.
#[derive(Clone, Copy)]
pub struct Blocks {
    // the last block made, 0 where there is genesis alone
    pub last: Block,
    // each block's parent, epoch and payload, at the block's number; entry 0 counts for nothing
    pub parents: [Block; BLOCKS],
    pub epochs: [Epoch; BLOCKS],
    pub payloads: [u16; BLOCKS],
}

impl Blocks {
    // Block b has been made and is not genesis.
    pub fn is_made(&self, b: Block) -> bool
        ensures { result ≡ made_in self.now.last.0 b.0 }
    {
        (0 < b.0) & (b.0 <= self.last.0)
    }

    // The parent of block b; genesis where b has none, or where its entry names no smaller block.
    pub fn parent(&self, b: Block) -> Block
        ensures { result.0 ≡ parent_in (parents_of self.now) self.now.last.0 b.0 }
    {
        let parent = self.parents[b.0 as usize];
        if self.is_made(b) & (parent.0 < b.0) {
            return parent;
        }
        Block(0)
    }

    // The epoch of block b; genesis has epoch 0.
    pub fn epoch(&self, b: Block) -> Epoch
        ensures { result.0 ≡ epoch_in (epochs_of self.now) self.now.last.0 b.0 }
    {
        if self.is_made(b) {
            return self.epochs[b.0 as usize];
        }
        Epoch(0)
    }

    // The lowest block that has that header; the next number where there is none. Chunks in which no block has that epoch and payload are passed
    // over, so a turn goes on by one block or by 32, which no `for` does. The next number is no lack of an answer: it is the block's that gets the header.
    pub fn name(&self, header: Header) -> u16
        ensures { result ≡ named_in (parents_of self.now) (epochs_of self.now) self.now.payloads self.now.last.0
            header.parent.0 header.epoch.0 header.payload }
    {
        let last = self.last.0;
        let mut b = 0;
        while b <= last as usize {
            if !self.may_have(b, header.epoch, header.payload) {
                b += CHUNK;
                continue;
            }
            if (b > 0) & self.has(Block(b as u8), header) {
                return b as u16;
            }
            b += 1;
        }
        last as u16 + 1
    }

    // Block b has that header.
    fn has(&self, b: Block, header: Header) -> bool
        ensures { result ≡ matches_in (parents_of self.now) (epochs_of self.now) self.now.payloads self.now.last.0
            header.parent.0 header.epoch.0 header.payload b.0 }
    {
        let found = Header {
            parent: self.parent(b),
            epoch: self.epoch(b),
            payload: self.payloads[b.0 as usize],
        };
        found == header
    }

    // One of the 32 blocks from b on may have that epoch and payload: an entry says so, of a block that is made or not, or b is no multiple of
    // 32.
    fn may_have(&self, b: usize, epoch: Epoch, payload: u16) -> bool
        requires { b < 256 }
        ensures { result ≡ either (not (eqb (b % 32) 0))
            (any 32 (λ i. both (eqb (get_or (epochs_of self.now) (b + i) 0) epoch.0) (eqb (get_or self.now.payloads (b + i) 0) payload))) }
    {
        if b % CHUNK != 0 {
            return true;
        }
        some_pass(
            b,
            CHUNK,
            |x| (self.epochs[x] == epoch) & (self.payloads[x] == payload),
        )
    }
}
