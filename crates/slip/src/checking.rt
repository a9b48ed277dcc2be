// Checking a slip.
ghost use Rattle.std.specs.Prelude.{◌≡◌, true, not, [], ◌∷◌, ◌+◌, ◌*◌, ◌≤◌, ltb, length};
ghost use Rattle.refusals.specs.Numbers.{outcome};
ghost use Rattle.words.specs.Tests.{both, every};
ghost use Rattle.words.specs.Refusals.{◌⇒◌, first};
ghost use Rattle.tables.specs.Blocks.{parent_in, epoch_in};
ghost use Rattle.tables.specs.Chains.{chain_by};
ghost use Rattle.tables.specs.Columns.{parents_of, epochs_of};
ghost use Rattle.tables.specs.Searches.{enough_in};
ghost use Rattle.register.specs.Books.{book_of};
ghost use Rattle.register.specs.Chains.{chain};
ghost use Rattle.register.specs.Refusals.{finalises_by};
ghost use Rattle.register.specs.Fitness.{fit};
ghost use Rattle.register.specs.Promises.{Sizes};
ghost use Rattle.slip.specs.Slips.{bits_due};
ghost use Rattle.slip.specs.Checking.{truly, marked_enough, check_tests, checked};
ghost use Rattle.slip.specs.Rows.{truth_in, link_in};

use crate::form::{bits_due, block_in, is_formed};
use crate::rows::history_rows;
use refusals::Refusal;
use register::{Block, Blocks, Register};
use tables::View;

// What checking a slip gives: 0 and the parent of the block that it names, or the refusal and genesis. Makers get the one number of the table of refusals,
// as C does.
#[derive(Clone, Copy, PartialEq, Eq, Debug)]
pub struct Checked {
    pub refusal: u8,
    pub block: Block,
}

// A block that can stand on a notarised chain: its epoch is greater than its parent's, and the members of the row are enough signers.
fn is_link(blocks: &Blocks, n: u8, b: Block, row: u32) -> bool
    ensures { let parent = parent_in (parents_of blocks.now) blocks.now.last.0 in
        let epoch = epoch_in (epochs_of blocks.now) blocks.now.last.0 in
        result ≡ both (ltb (epoch (parent b.0)) (epoch b.0)) (enough_in row n) }
{
    let parent = blocks.parent(b);
    if blocks.epoch(b).0 <= blocks.epoch(parent).0 {
        return false;
    }
    quorum::count_signers(row, n).enough
}

// The refusal that the marks on the chain of block b bring: that of an unsigned mark where one is not in the history, that of a block that is not final
// where the three newest blocks are not consecutive or the chain is not notarised by the marks. The rows are read from the newest on, from the last bit
// that is due, which here and in `judge` is given, since whoever calls has reckoned it for the slip's form; a type of slip and bits would be made once and
// read once.
fn check_marks(
    slip: &[u8],
    history: &View,
    blocks: &Blocks,
    n: u8,
    b: Block,
    due: usize,
    three: bool,
) -> Result<(), Refusal>
    requires { let parent = parent_in (parents_of blocks.now) blocks.now.last.0 in
        (n ≤ 32) × (due ≡ 8 + n * length (chain_by parent b.0)) × (due ≤ 8 * length slip.now) × (length slip.now ≤ 65536) }
    ensures { let parent = parent_in (parents_of blocks.now) blocks.now.last.0 in
        let epoch = epoch_in (epochs_of blocks.now) blocks.now.last.0 in
        outcome result ≡ first
        ((not (every (truth_in slip.now history.now parent n) (chain_by parent b.0)) ⇒ 34)
        ∷ (not (both three (every (link_in slip.now parent epoch n) (chain_by parent b.0))) ⇒ 21)
        ∷ []) }
{
    let mut notarised = three;
    let mut end = due;
    let mut at = b;
    while at.0 > 0 {
        end -= n as usize;
        let row = packed_log::read_field(slip, end, n as usize);
        if !words::is_within(row, history[at.0 as usize]) {
            return Err(Refusal::UnsignedMark);
        }
        notarised = notarised & is_link(blocks, n, at, row);
        at = blocks.parent(at);
    }
    if notarised {
        Ok(())
    } else {
        Err(Refusal::NotFinal)
    }
}

// The same in the rules' terms, of a fit register and a slip that has the bits that are due.
fn judge(register: &Register, slip: &[u8], b: Block, due: usize) -> Result<(), Refusal>
    requires { let book = book_of register.now in
        (fit book ≡ true) × Sizes book × (due ≡ bits_due book b.0) × (due ≤ 8 * length slip.now) × (length slip.now ≤ 65536) }
    ensures { let book = book_of register.now in
        outcome result ≡ first
        ((not (every (truly book slip.now) (chain book b.0)) ⇒ 34)
        ∷ (not (finalises_by book (marked_enough book slip.now) b.0) ⇒ 21)
        ∷ []) }
{
    let blocks = &register.blocks;
    let c = blocks.parent(b);
    let d = blocks.parent(c);
    let three = register::are_consecutive(blocks, b, c, d);
    let history = history_rows(&register.messages, register.n);
    check_marks(slip, &history, blocks, register.n, b, due, three)
}

// What a slip that names block b is refused with.
fn check_named(register: &Register, slip: &[u8], b: Block) -> Result<(), Refusal>
    ensures { outcome result ≡ first (check_tests (book_of register.now) slip.now b.0) }
{
    if !register.is_fit() {
        return Err(Refusal::UnfitRegister);
    }
    if register.blocks.last.0 < b.0 {
        return Err(Refusal::NoBlock);
    }
    let due = bits_due(register.n, register.blocks.chain_length(b));
    if !is_formed(slip, due) {
        return Err(Refusal::SlipForm);
    }
    register.know_sizes();
    judge(register, slip, b, due)
}

// Checks a slip: whether every marked signature is in the history, and whether by the marks the finalise rule holds for the block that it names.
pub fn check_slip(register: Register, slip: &[u8]) -> Checked
    ensures { result ≡ checked (book_of register) slip.now }
{
    let b = block_in(slip);
    match check_named(&register, slip, b) {
        Ok(()) => {
            let parent = register.blocks.parent(b);
            Checked {
                refusal: 0,
                block: parent,
            }
        }
        Err(refusal) => Checked {
            refusal: refusal.number(),
            block: Block(0),
        },
    }
}
