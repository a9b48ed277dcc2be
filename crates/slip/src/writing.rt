// Writing a slip from a trusted office's view.
ghost use Rattle.std.specs.Prelude.{◌≡◌, ◌++◌, false, ◌+◌, ◌*◌, ◌-◌, ◌/◌, ◌≤◌, length, replicate};
ghost use Rattle.refusals.specs.Numbers.{number_of, outcome};
ghost use Rattle.words.specs.Refusals.{first};
ghost use Rattle.tables.specs.Blocks.{parent_in};
ghost use Rattle.tables.specs.Chains.{chain_by};
ghost use Rattle.tables.specs.Columns.{parents_of};
ghost use Rattle.register.specs.Books.{book_of};
ghost use Rattle.packed_log.specs.Bits.{to_bits, put};
ghost use Rattle.slip.specs.Writing.{rule_tests, written, buffer_after};
ghost use Rattle.slip.specs.Rows.{rows_in};

use crate::form::{BLOCK_WIDTH, bits_due, bytes_due};
use crate::rows::rows_of;
use refusals::Refusal;
use register::{Block, Blocks, Office, Register};
use tables::View;

// What writing a slip gives: 0 and its length in bytes, or the refusal and 0. Makers get the one number of the table of refusals, as C does.
#[derive(Clone, Copy, PartialEq, Eq, Debug)]
pub struct Written {
    pub refusal: u8,
    pub length: usize,
}

// A slip that is not written. Makers are given the number; `refused` of packed_log makes another type, with other fields.
fn refused(refusal: Refusal) -> Written
    ensures { result ≡ record { refusal = number_of refusal; length = 0 } }
{
    Written {
        refusal: refusal.number(),
        length: 0,
    }
}

// The refusal that comes before the buffer is looked at.
fn check_rule(register: &Register, office: Office, b: Block) -> Result<(), Refusal>
    ensures { outcome result ≡ first (rule_tests (book_of register.now) office.0 b.0) }
{
    if !register.is_fit() {
        return Err(Refusal::UnfitRegister);
    }
    if register.n <= office.0 {
        return Err(Refusal::NoOffice);
    }
    let blocks = &register.blocks;
    if blocks.last.0 < b.0 {
        return Err(Refusal::NoBlock);
    }
    if !register.is_trusted(office) {
        return Err(Refusal::Barred);
    }
    let c = blocks.parent(b);
    let d = blocks.parent(c);
    if !register::are_consecutive(blocks, b, c, d) {
        return Err(Refusal::NotFinal);
    }
    if !tables::is_notarised_above(blocks, &register.messages, register.n, office, b, Block(0)) {
        return Err(Refusal::NotFinal);
    }
    Ok(())
}

// Fills a slip about block b, of just the bytes that are due, with the rows of its chain: the pad, then the rows from the newest on, from the last bit that
// is due, and the block's number.
fn lay_slip(slip: &mut [u8], rows: &View, blocks: &Blocks, n: u8, b: Block, due: usize)
    requires { let parent = parent_in (parents_of blocks.now) blocks.now.last.0 in
        (n ≤ 32) × (due ≡ 8 + n * length (chain_by parent b.0)) × (length slip.old ≡ (due + 7) / 8) × (length slip.old ≤ 65536) }
    ensures { let parent = parent_in (parents_of blocks.now) blocks.now.last.0 in
        slip.new ≡ put slip.old 0
        (to_bits 8 b.0 ++ rows_in rows.now n (chain_by parent b.0) ++ replicate (8 * length slip.old - due) false) }
{
    let pad = 8 * slip.len() - due;
    packed_log::write_field(slip, due, pad, 0);
    let mut end = due;
    let mut at = b;
    while at.0 > 0 {
        end -= n as usize;
        packed_log::write_field(slip, end, n as usize, rows[at.0 as usize]);
        at = blocks.parent(at);
    }
    packed_log::write_field(slip, 0, BLOCK_WIDTH, b.0 as u32);
}

// Writes a slip about block b from the office's view, marking every signature there.
pub fn write_slip(register: Register, office: Office, b: Block, buf: &mut [u8]) -> Written
    ensures { (result ≡ written (book_of register) office.0 b.0 buf.old)
        × (buf.new ≡ buffer_after (book_of register) office.0 b.0 buf.old) × (result.length ≤ 1021) }
{
    if let Err(refusal) = check_rule(&register, office, b) {
        return refused(refusal);
    }
    register.know_sizes();
    let n = register.n;
    let due = bits_due(n, register.blocks.chain_length(b));
    let length = bytes_due(due);
    if buf.len() < length {
        return refused(Refusal::ShortBuffer);
    }
    let rows = rows_of(register.messages, n, office);
    lay_slip(&mut buf[0..length], &rows, &register.blocks, n, b, due);
    Written { refusal: 0, length }
}
