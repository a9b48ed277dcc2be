// The whole check: a log's bytes to the report's bytes.
ghost use Rattle.std.specs.Prelude.{◌≡◌, ◌≤◌, leb, length, replicate};
ghost use Rattle.words.specs.Tests.{choose};
ghost use Rattle.report.specs.Text.{TextWritten};
ghost use Rattle.report.specs.Reports.{report_of, report_bound, given_length, buffer_after};

use crate::run::write_run;
use crate::text::{write_empty_line, write_log_line};
use packed_log::read_opening;
use replay::body::fault_of;

// No report is longer than that of the longest log may be: 34 bytes for each of its 65,536 bytes, and 704 for the offices.
pub const LONGEST_REPORT: usize = 2228928;

// The report's length where it fits; else 0, and the buffer is all zero: so C is answered, and `check` too.
fn fitted(report: &mut [u8], size: usize) -> usize
    ensures { (result ≡ choose (leb size (length report.old)) size 0)
        × (report.new ≡ choose (leb size (length report.old)) report.old (replicate (length report.old) 0)) }
{
    if size <= report.len() {
        return size;
    }
    report.fill(0);
    0
}

// Writes the report of a log. It hands on the bound that `check` promises, as `write_run` does. A log of no bytes is told by its length, before a register is
// made for it.
fn write_report(report: &mut [u8], log: &[u8]) -> usize
    ensures { TextWritten report.old 0 (report_of log.now) result report.new
        × (result ≤ report_bound (length log.now)) }
{
    if log.len() == 0 {
        return write_empty_line(report, 0);
    }
    let mut opening = read_opening(log);
    let fault = fault_of(log, opening.refusal, opening.next);
    if fault != 0 {
        return write_log_line(report, 0, fault);
    }
    write_run(report, log, opening.next, &mut opening.register)
}

// Checks a log, writes the report into the buffer and gives its length. Where it does not fit, that is 0, as C gets it, and the buffer is all zero. The
// report of a log of n bytes has at most 34 × n + 704 bytes, and none more than LONGEST_REPORT.
pub fn check(log: &[u8], report: &mut [u8]) -> usize
    ensures { (result ≡ given_length log.now report.old)
        × (report.new ≡ buffer_after log.now report.old)
        × (length (report_of log.now) ≤ report_bound (length log.now)) }
{
    let size = write_report(report, log);
    fitted(report, size)
}
