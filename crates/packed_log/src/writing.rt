// Writing a step or the end into a buffer, at a given position. Buffer and position stay two, as in the public calls, which makers know: each contract
// speaks of both, and a struct of them would be made anew in each public call.
ghost use Rattle.std.specs.Prelude.{◌≡◌, ◌+◌, ◌*◌, ◌-◌, ◌^◌, ◌≤◌, ◌<◌, leb, length};
ghost use Rattle.refusals.specs.Numbers.{outcome};
ghost use Rattle.packed_log.specs.Bits.{put};
ghost use Rattle.packed_log.specs.Rows.{row_by, Narrow};
ghost use Rattle.packed_log.specs.Widths.{kinds, due};
ghost use Rattle.packed_log.specs.Writing.{row_bits, step_bits, end_bits, wide, room, HasRoom};
ghost use Rattle.packed_log.specs.Writing.{no_room, row_refused, step_refused, end_refused, wrote, wrote_by, laid};

use crate::bits::write_bits;
use crate::row::{Row, row_of};
use crate::widths::{COLUMNS, KIND_WIDTH, due_of, width_of};
use refusals::Refusal;
use register::Step;

// What a call of the writer gives: 0 and the position behind what it wrote, or the refusal and the position that it was given. The refusal is
// a number by a rule of the project: makers are given the document's numbers.
#[derive(Clone, Copy, PartialEq, Eq, Debug)]
pub struct Wrote {
    pub refusal: u8,
    pub next: usize,
}

// What a call gives that was made at position `at`: the position behind what it wrote, or the number of its refusal. Makers are given numbers.
pub(crate) fn wrote_by(outcome_: Result<usize, Refusal>, at: usize) -> Wrote
    ensures { result ≡ wrote_by outcome_ at }
{
    match outcome_ {
        Ok(next) => Wrote { refusal: 0, next },
        Err(refusal) => Wrote {
            refusal: refusal.number(),
            next: at,
        },
    }
}

// The most bytes of which each bit has a position.
const MOST_BYTES: usize = 0x1FFF_FFFF_FFFF_FFFF;

// How many bits the buffer has left from position `at` on.
pub(crate) fn room_of(buf: &[u8], at: usize) -> usize
    ensures { result ≡ room buf.now at }
{
    (8 * buf.len().min(MOST_BYTES)).saturating_sub(at)
}

// The number has no room in so many bits.
fn is_over(number: u16, width: usize) -> bool
    requires { width ≤ 16 }
    ensures { result ≡ leb (2 ^ width) number }
{
    number as u32 >= 1 << width
}

// Some number of the row has no room in its column. Every column is asked: a loop that leaves at the first such number makes writing a step a sixth slower.
fn is_wide(r: Row) -> bool
    requires { r.kind < kinds }
    ensures { result ≡ wide (row_by r) }
{
    let mut over = false;
    for column in 0..COLUMNS {
        over |= is_over(r.fields[column], width_of(r.kind, column));
    }
    over
}

// A kind, by the log's number, and its first field, of that width, as one number.
fn head_of(kind: u8, first: u16, width: usize) -> u16
    requires { (kind < kinds) × (width ≤ 10) × (first < 2 ^ width) }
    ensures { (result ≡ kind * 2 ^ width + first) × (result < 2 ^ (4 + width)) }
{
    ((kind as u16) << width) + first
}

// Lays the kind and the fields of a row over the buffer from position `at` on, the kind together with the first field.
fn write_row(buf: &mut [u8], at: usize, r: Row)
    requires { (r.kind < kinds) × HasRoom buf.old at (4 + due r.kind) × Narrow (row_by r) }
    ensures { buf.new ≡ put buf.old at (row_bits (row_by r)) }
{
    let first = width_of(r.kind, 0);
    write_bits(
        buf,
        at,
        KIND_WIDTH + first,
        head_of(r.kind, r.fields[0], first),
    );
    let mut next = at + KIND_WIDTH + first;
    for column in 1..COLUMNS {
        let width = width_of(r.kind, column);
        write_bits(buf, next, width, r.fields[column]);
        next += width;
    }
}

// Whether the buffer has so many bits left from position `at` on.
pub(crate) fn check_room(buf: &[u8], at: usize, size: usize) -> Result<(), Refusal>
    ensures { outcome result ≡ no_room buf.now at size }
{
    if room_of(buf, at) < size {
        return Err(Refusal::ShortBuffer);
    }
    Ok(())
}

// Whether a row can be laid at position `at`.
fn check_row(buf: &[u8], at: usize, r: Row) -> Result<(), Refusal>
    requires { r.kind < kinds }
    ensures { outcome result ≡ row_refused buf.now at (row_by r) }
{
    if is_wide(r) {
        return Err(Refusal::Wide);
    }
    check_room(buf, at, KIND_WIDTH + due_of(r.kind))
}

// Writes a step at position `at`, where nothing refuses it, and gives the position behind it.
fn try_write_step(buf: &mut [u8], at: usize, step: Step) -> Result<usize, Refusal>
    ensures { (wrote_by result at ≡ wrote (step_refused buf.old at step) at (step_bits step))
        × (buf.new ≡ laid buf.old (step_refused buf.old at step) at (step_bits step)) }
{
    let row = row_of(step);
    check_row(buf, at, row)?;
    write_row(buf, at, row);
    Ok(at + KIND_WIDTH + due_of(row.kind))
}

// Writes a step at position `at`.
pub fn write_step(buf: &mut [u8], at: usize, step: Step) -> Wrote
    ensures { (result ≡ wrote (step_refused buf.old at step) at (step_bits step))
        × (buf.new ≡ laid buf.old (step_refused buf.old at step) at (step_bits step)) }
{
    wrote_by(try_write_step(buf, at, step), at)
}

// How many bits the end takes at position `at`: its kind, and zero bits to the byte's end.
fn end_width(at: usize) -> usize
    ensures { (result ≡ length (end_bits at)) × (result ≤ 11) }
{
    KIND_WIDTH + (12 - at % 8) % 8
}

// Writes the end at position `at`, with its zero pad, where it has room, and gives the position behind it.
fn try_write_end(buf: &mut [u8], at: usize) -> Result<usize, Refusal>
    ensures { (wrote_by result at ≡ wrote (end_refused buf.old at) at (end_bits at))
        × (buf.new ≡ laid buf.old (end_refused buf.old at) at (end_bits at)) }
{
    let size = end_width(at);
    check_room(buf, at, size)?;
    write_bits(buf, at, size, 0);
    Ok(at + size)
}

// Writes the end at position `at`, with its zero pad.
pub fn write_end(buf: &mut [u8], at: usize) -> Wrote
    ensures { (result ≡ wrote (end_refused buf.old at) at (end_bits at))
        × (buf.new ≡ laid buf.old (end_refused buf.old at) at (end_bits at)) }
{
    wrote_by(try_write_end(buf, at), at)
}
