// Reading a log item by item. The log and the position stay two parameters, as in the public calls; the type of both is `Reader`, for whoever keeps them.
// What is asked to be there from a position on is another number of bits in each function.
ghost use Rattle.std.specs.Prelude.{◌≡◌, ◌+◌, ◌*◌, ◌^◌, ◌≤◌, ◌<◌, MatchResult, length};
ghost use Rattle.refusals.specs.declared.Refusal.TheVariants.{Cut};
ghost use Rattle.words.specs.Tests.{choose};
ghost use Rattle.packed_log.specs.Bits.{field};
ghost use Rattle.packed_log.specs.Widths.{kinds, due};
ghost use Rattle.packed_log.specs.Rows.{row_by};
ghost use Rattle.packed_log.specs.Items.{left, kind_at, row_at, padded, skipped, skipped_by, skipped_at, item_at, numbers, numbers_at};

use crate::bits::read_bits;
use crate::row::{Row, step_of};
use crate::widths::{COLUMNS, KIND_WIDTH, KINDS, due_of, width_of};
use refusals::Refusal;
use register::Step;

// The most bytes that a log may have.
pub(crate) const LONGEST: usize = 65536;

// What stands at a position of a log: a step with its fields, the end, or a refusal, by its number: a rule of the project, makers are given those.
#[derive(Clone, Copy, PartialEq, Eq, Debug)]
pub enum Item {
    Step(Step),
    End,
    Refused(u8),
}

// An item and the position behind it.
#[derive(Clone, Copy, PartialEq, Eq, Debug)]
pub struct Read {
    pub item: Item,
    pub next: usize,
}

// An item without a step's fields: its kind as the log has it, a number, 0 for the end, by which `read_item` reads the fields (see `Row`); and the position
// behind it.
#[derive(Clone, Copy, PartialEq, Eq, Debug)]
pub struct Skip {
    pub kind: u8,
    pub next: usize,
}

// How many bits are left from position `at` on; 0 at the log's end and past it.
pub(crate) fn left_of(log: &[u8], at: usize) -> usize
    requires { length log.now ≤ 65536 }
    ensures { result ≡ left log.now at }
{
    (8 * log.len()).saturating_sub(at)
}

// The number in the `width` bits from position `at` on, which are due there.
pub(crate) fn read_due(log: &[u8], at: usize, width: usize) -> Result<u16, Refusal>
    requires { (0 < width) × (width ≤ 16) × (length log.now ≤ 65536) }
    ensures { MatchResult result
        (λ number. (number ≡ field log.now at width) × (number < 2 ^ width) × (at + width ≤ 8 * length log.now))
        (λ refusal. (refusal ≡ Cut) × (left log.now at < width)) }
{
    if left_of(log, at) < width {
        return Err(Refusal::Cut);
    }
    Ok(read_bits(log, at, width))
}

// The row whose kind has been read, with its fields from position `at` on.
fn read_row(log: &[u8], kind: u8, at: usize) -> Row
    requires { (kind < kinds) × (at + due kind ≤ 8 * length log.now) × (length log.now ≤ 65536) }
    ensures { row_by result ≡ row_at log.now kind at }
{
    let mut fields = [0u16; COLUMNS];
    let mut next = at;
    for column in 0..COLUMNS {
        let width = width_of(kind, column);
        fields[column] = read_bits(log, next, width);
        next += width;
    }
    Row { kind, fields }
}

// From position `at` to the byte's end there are zero bits, and no byte stands behind.
#[tactic(auto, unfolding(crate::specs::Items::padded, words::specs::Tests::both))]
fn is_padded(log: &[u8], at: usize) -> bool
    requires { (at ≤ 8 * length log.now) × (length log.now ≤ 65536) }
    ensures { result ≡ padded log.now at }
{
    let rest = left_of(log, at);
    if rest < 8 {
        return read_bits(log, at, rest) == 0;
    }
    false
}

// The end, whose kind stands at position `at`: it takes the rest of the log, or is refused.
#[tactic(auto, unfolding(words::specs::Tests::choose))]
fn skip_end(log: &[u8], at: usize) -> Result<Skip, Refusal>
    requires { (at + 4 ≤ 8 * length log.now) × (length log.now ≤ 65536) }
    ensures { skipped_by result at ≡ choose (padded log.now (at + 4)) (skipped 0 0 (8 * length log.now)) (skipped 0 29 at) }
{
    if !is_padded(log, at + KIND_WIDTH) {
        return Err(Refusal::Ending);
    }
    Ok(Skip {
        kind: 0,
        next: 8 * log.len(),
    })
}

// The item at position `at`, but for a step's fields, where its kind has been read.
fn skip_kind(log: &[u8], kind: u8, at: usize) -> Result<Skip, Refusal>
    requires { (kind ≡ kind_at log.now at) × (at + 4 ≤ 8 * length log.now) × (length log.now ≤ 65536) }
    ensures { skipped_by result at ≡ skipped_at log.now at }
{
    if KINDS <= kind as usize {
        return Err(Refusal::NoSuchStep);
    }
    if kind == 0 {
        return skip_end(log, at);
    }
    let from = at + KIND_WIDTH;
    let size = due_of(kind);
    if left_of(log, from) < size {
        return Err(Refusal::Cut);
    }
    Ok(Skip {
        kind,
        next: from + size,
    })
}

// The item at position `at`, but for a step's fields; a refusal leaves the position.
pub fn skip_item(log: &[u8], at: usize) -> Result<Skip, Refusal>
    ensures { skipped_by result at ≡ skipped_at log.now at }
{
    if LONGEST < log.len() {
        return Err(Refusal::LongLog);
    }
    let kind = read_due(log, at, KIND_WIDTH)?;
    skip_kind(log, kind as u8, at)
}

// The item at position `at`. Makers are given the number of a refusal.
pub fn read_item(log: &[u8], at: usize) -> Read
    ensures { (result ≡ item_at log.now at) × (numbers result.item ≡ numbers_at log.now at) }
{
    match skip_item(log, at) {
        Err(refusal) => Read {
            item: Item::Refused(refusal.number()),
            next: at,
        },
        Ok(skip) if skip.kind == 0 => Read {
            item: Item::End,
            next: skip.next,
        },
        Ok(skip) => {
            let row = read_row(log, skip.kind, at + KIND_WIDTH);
            Read {
                item: Item::Step(step_of(row)),
                next: skip.next,
            }
        }
    }
}
