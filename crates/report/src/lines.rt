// The lines of a report, many at a time.
ghost use Rattle.std.specs.Prelude.{◌+◌, ◌*◌, ◌^◌, ◌≤◌, ◌<◌};
ghost use Rattle.register.specs.Limits.{batch};
ghost use Rattle.report.specs.Text.{TextWritten, step_bytes, office_bytes};
ghost use Rattle.report.specs.Reports.{office_text, office_lines};
ghost use Rattle.report.specs.Batches.{batch_lines};

use crate::text::{write_office_line, write_step_line};
use register::limits::BATCH;
use register::{Office, Register};

// Writes the lines of the first `count` answers of a batch, whose places are counted on from `place`. Refusals and values are the two columns of `Answers`,
// which are whole whatever the count.
pub(crate) fn write_batch<'a>(
    report: &mut [u8],
    at: usize,
    place: usize,
    refusals: &'a [u8; BATCH],
    values: &'a [u16; BATCH],
    count: usize,
) -> usize
    requires { (count ≤ batch) × (place + count ≤ 131073) × (at ≤ 2 ^ 31) }
    ensures { TextWritten report.old at (batch_lines place refusals.now values.now count) result report.new
        × (result ≤ at + step_bytes * count) }
{
    let mut next = at;
    for i in 0..count {
        next = write_step_line(report, next, place + i, refusals[i], values[i]);
    }
    next
}

// Writes the line of a trusted office; nothing for any other.
fn write_office(report: &mut [u8], at: usize, register: &Register, q: u8) -> usize
    requires { (q < 32) × (at ≤ 2 ^ 31) }
    ensures { TextWritten report.old at (office_text register.now q) result report.new × (result ≤ at + office_bytes) }
{
    if !register.is_trusted(Office(q)) {
        return at;
    }
    let last = register.final_block(Office(q));
    let told = register.notarised(Office(q), last);
    let size = register.chain_length(last);
    write_office_line(report, at, q, last.0, size, told.signers)
}

// Writes the lines of the trusted offices, ascending.
pub(crate) fn write_offices(report: &mut [u8], at: usize, register: &Register) -> usize
    requires { at ≤ 2 ^ 30 }
    ensures { TextWritten report.old at (office_lines register.now 32) result report.new × (result ≤ at + 32 * office_bytes) }
{
    let mut next = at;
    for q in 0..32 {
        next = write_office(report, next, register, q);
    }
    next
}
