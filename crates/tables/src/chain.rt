// Chains of blocks, and the search for a longer one.
ghost use Rattle.std.specs.Prelude.{◌≡◌, true, ◌+◌, ◌-◌, ◌≤◌, ◌<◌, min, eqb, ltb, length};
ghost use Rattle.words.specs.Tests.{choose, either};
ghost use Rattle.tables.specs.Blocks.{parent_in, epoch_in};
ghost use Rattle.tables.specs.Chains.{chain_by};
ghost use Rattle.tables.specs.Columns.{parents_of, epochs_of, signers_of, about_of, sent_of};
ghost use Rattle.tables.specs.Searches.{offices, view_in, enough_in, certified_by, certified_above, rank_above, PassedFrom, outranked, longest_in};

use crate::blocks::Blocks;
use crate::limits::office_count;
use crate::messages::Messages;
use crate::sorts::{Block, Office};
use crate::view::View;

impl Blocks {
    // The length of block b's chain, genesis not counted.
    pub fn chain_length(&self, b: Block) -> u8
        ensures { result ≡ length (chain_by (parent_in (parents_of self.now) self.now.last.0) b.0) }
    {
        let mut climbed = 0;
        let mut at = b;
        while at.0 > 0 {
            climbed += 1;
            at = self.parent(at);
        }
        climbed
    }

    // The chain of block b is shorter than that of another block. It is not where it has the other block, nor where it has as many blocks as the
    // other's number, which no chain is longer than: a climb as far as the other block tells. Else the lengths do.
    pub fn is_shorter(&self, b: Block, other: Block) -> bool
        ensures { result ≡ ltb
            (length (chain_by (parent_in (parents_of self.now) self.now.last.0) b.0))
            (length (chain_by (parent_in (parents_of self.now) self.now.last.0) other.0)) }
    {
        let mut climbed = 0u8;
        let mut at = b;
        while other.0 < at.0 {
            if other.0 <= climbed {
                return false;
            }
            climbed += 1;
            at = self.parent(at);
        }
        if at.0 == other.0 {
            return false;
        }
        self.chain_length(b) < self.chain_length(other)
    }
}

// So many blocks of a chain are tested one by one, before the signers of all blocks are gathered.
const TESTED_SINGLY: u8 = 2;

// Every office: enough signers, however many offices there are.
const EVERYONE: u32 = 0xFFFF_FFFF;

// Block b is certified, with that set of signers: its epoch is greater than its parent's, and its signers are enough. One set is known to be
// enough: the blocks of a chain often have the same signers, which are then not counted again.
fn is_certified(blocks: &Blocks, n: u8, b: Block, set: u32, known: u32) -> bool
    requires { enough_in known n ≡ true }
    ensures { result ≡ certified_by (parent_in (parents_of blocks.now) blocks.now.last.0) (epoch_in (epochs_of blocks.now) blocks.now.last.0)
        (λ _. enough_in set n) b.0 }
{
    let parent = blocks.parent(b);
    if blocks.epoch(b).0 <= blocks.epoch(parent).0 {
        return false;
    }
    if set == known {
        return true;
    }
    quorum::count_signers(set, n).enough
}

// The same of a block that a search comes to off the chain that is to beat. On full tables most of these have no signer, and nobody is not enough
// where there are offices.
fn is_certified_aside(blocks: &Blocks, n: u8, b: Block, set: u32, known: u32) -> bool
    requires { enough_in known n ≡ true }
    ensures { result ≡ certified_by (parent_in (parents_of blocks.now) blocks.now.last.0) (epoch_in (epochs_of blocks.now) blocks.now.last.0)
        (λ _. enough_in set n) b.0 }
{
    if (set == 0) & (0 < n) {
        return false;
    }
    is_certified(blocks, n, b, set, known)
}

// A climb ends at genesis, or at the block that it is not to go below.
fn is_foot(at: Block, base: Block) -> bool
    ensures { result ≡ either (eqb at.0 0) (eqb at.0 base.0) }
{
    (at.0 == 0) | (at == base)
}

// The rank of a chain that has `climbed` certified blocks above a block, where a chain of the other rank has `passed` certified blocks down to
// that block, which is counted with them; 0, no rank, where that one has none.
fn joined_rank(climbed: u8, rank: u8, passed: u8) -> u16
    requires { 0 < rank → passed ≤ rank }
    ensures { result ≡ choose (eqb rank 0) 0 (rank + 1 + climbed - passed) }
{
    if rank == 0 {
        return 0;
    }
    rank as u16 + 1 + climbed as u16 - passed as u16
}

// What is kept of each block that a climb has passed: where the climb started, and how many blocks it had passed with this one, 0 of any other.
// Both are plain numbers, as in the laws of a walk, and so is a block that a walk comes to. They are two columns and not one of pairs, since `PassedFrom` of
// the specs speaks of each. Climbs are not compared.
#[derive(Clone, Copy)]
struct Climbs {
    starts: [u8; 256],
    passed: [u8; 256],
}

// What tells which blocks are certified: the signers of each in a view, the blocks, and how many offices there are. It holds what is
// lent, and is not compared.
#[derive(Clone, Copy)]
struct Sight<'a> {
    view: &'a View,
    blocks: &'a Blocks,
    n: u8,
    ghost few: { n ≤ offices },
}

impl<'a> Sight<'a> {
    // The rank of block b's chain above the base: one more than the number of blocks that a climb passes down to the base, or to genesis where the
    // chain has no such block, if each of them is certified; else 0, which as in
    // `rank_above` of the specs is below every rank, so that a rank and none are compared with no look at which it is.
    fn rank(&self, b: Block, base: Block) -> u16
        ensures { result ≡ rank_above self.now.view.now (parents_of self.now.blocks.now) (epochs_of self.now.blocks.now)
            self.now.blocks.now.last.0 self.now.n b.0 base.0 }
    {
        let mut climbed = 0;
        let mut at = b;
        let mut known = EVERYONE;
        while !is_foot(at, base) {
            let set = self.view[at.0 as usize];
            if !is_certified(self.blocks, self.n, at, set, known) {
                return 0;
            }
            climbed += 1;
            known = set;
            at = self.blocks.parent(at);
        }
        climbed + 1
    }

    // The rank of block b's chain above genesis, by a climb that is kept. What is kept before holds already; at first that is nothing. One function
    // for this and `rank` would take a closure that keeps or does not, and its contract both ends and `PassedFrom`: longer than the two.
    fn first_climb(&self, b: Block, climbs: &mut Climbs) -> u16
        requires { PassedFrom self.now.view.now (parents_of self.now.blocks.now) (epochs_of self.now.blocks.now)
            self.now.blocks.now.last.0 self.now.n b.0 climbs.old.starts climbs.old.passed }
        ensures { (result ≡ rank_above self.now.view.now (parents_of self.now.blocks.now) (epochs_of self.now.blocks.now)
            self.now.blocks.now.last.0 self.now.n b.0 0)
            × PassedFrom self.now.view.now (parents_of self.now.blocks.now) (epochs_of self.now.blocks.now)
            self.now.blocks.now.last.0 self.now.n b.0 climbs.new.starts climbs.new.passed }
    {
        let mut climbed = 0;
        let mut at = b;
        let mut known = EVERYONE;
        while at.0 > 0 {
            let set = self.view[at.0 as usize];
            if !is_certified(self.blocks, self.n, at, set, known) {
                return 0;
            }
            climbed += 1;
            climbs.starts[at.0 as usize] = b.0;
            climbs.passed[at.0 as usize] = climbed;
            known = set;
            at = self.blocks.parent(at);
        }
        climbed as u16 + 1
    }

    // Some block's chain has a greater rank than block b's, which is the rank to beat. The walk starts at the first block whose number is great
    // enough for such a chain. A climb ends at a block that was settled before: at genesis, or where an earlier climb has passed, the first one
    // from block b or one of this walk. The climbs are kept, and of each block that one started from, its rank.
    fn is_outranked(&self, b: Block, beat: u8, climbs: &mut Climbs) -> bool
        requires { (0 < beat) × (beat ≡ rank_above self.now.view.now (parents_of self.now.blocks.now) (epochs_of self.now.blocks.now)
            self.now.blocks.now.last.0 self.now.n b.0 0)
            × PassedFrom self.now.view.now (parents_of self.now.blocks.now) (epochs_of self.now.blocks.now)
            self.now.blocks.now.last.0 self.now.n b.0 climbs.old.starts climbs.old.passed }
        ensures { result ≡ outranked self.now.view.now (parents_of self.now.blocks.now) (epochs_of self.now.blocks.now)
            self.now.blocks.now.last.0 self.now.n beat }
    {
        let last = self.blocks.last.0;
        let mut known = EVERYONE;
        let mut ranks = [0u8; 256];
        climbs.starts[0] = b.0;
        climbs.passed[0] = beat;
        ranks[b.0 as usize] = beat;
        'walk: for x in beat..=last {
            let mut climbed = 0;
            let mut at = Block(x);
            'climb: loop {
                let down = climbs.passed[at.0 as usize];
                if down > 0 {
                    let other = ranks[climbs.starts[at.0 as usize] as usize];
                    let rank = joined_rank(climbed, other, down);
                    if rank > beat as u16 {
                        return true;
                    }
                    ranks[x as usize] = rank as u8;
                    break 'climb;
                }
                let set = self.view[at.0 as usize];
                if !is_certified_aside(self.blocks, self.n, at, set, known) {
                    ranks[x as usize] = 0;
                    break 'climb;
                }
                climbed += 1;
                climbs.starts[at.0 as usize] = x;
                climbs.passed[at.0 as usize] = climbed;
                known = set;
                at = self.blocks.parent(at);
            }
        }
        false
    }
}

// The chain of block b is notarised in the view, and no notarised chain of that view is longer. A chain is no longer than its last block's number.
pub fn is_longest(view: &View, blocks: &Blocks, n: u8, b: Block) -> bool
    ensures { result ≡ longest_in view.now (parents_of blocks.now) (epochs_of blocks.now) blocks.now.last.0 (min n offices) b.0 }
{
    let sight = Sight {
        view,
        blocks,
        n: office_count(n),
    };
    let mut climbs = Climbs {
        starts: [0; 256],
        passed: [0; 256],
    };
    let rank = sight.first_climb(b, &mut climbs);
    if rank == 0 {
        return false;
    }
    if rank > blocks.last.0 as u16 {
        return true;
    }
    !sight.is_outranked(b, rank as u8, &mut climbs)
}

// Every block of block b's chain above block `base` is certified in an office's view; where `base` is genesis or not on the chain, every block of
// it. Where the base's chain is notarised there, this says whether b's is. The newest blocks are tested one by one: they are the likeliest to
// lack signers, and often all that there are above the base. Where many messages are about one of them, the whole view is gathered at once.
pub fn is_notarised_above(
    blocks: &Blocks,
    messages: &Messages,
    n: u8,
    office: Office,
    b: Block,
    base: Block,
) -> bool
    ensures { result ≡ certified_above (view_in messages.now.places (signers_of messages.now) (about_of messages.now) (sent_of messages.now) office.0)
        (parents_of blocks.now) (epochs_of blocks.now) blocks.now.last.0 (min n offices) b.0 base.0 }
{
    let few = office_count(n);
    let mut at = b;
    for _ in 0..TESTED_SINGLY {
        if is_foot(at, base) {
            return true;
        }
        let Some(set) = messages.block_signers(office, at) else {
            break;
        };
        if !is_certified(blocks, few, at, set, EVERYONE) {
            return false;
        }
        at = blocks.parent(at);
    }
    let view = messages.view(office);
    let sight = Sight {
        view: &view,
        blocks,
        n: few,
    };
    sight.rank(at, base) > 0
}
