// Running the steps of a log.
ghost use Rattle.std.specs.Prelude.{◌≤◌, length};
ghost use Rattle.report.specs.Text.{TextWritten};
ghost use Rattle.replay.specs.Bodies.{body_at};
ghost use Rattle.report.specs.Reports.{run_lines, report_bound};

use crate::lines::{write_batch, write_offices};
use register::Register;
use replay::body::read_part;

// Writes the lines of the steps that stand from position `from` on, run from that register, and then those of the offices. The register is lent, and changed
// in place: neither time nor stack goes into a second one.
pub(crate) fn write_run(
    report: &mut [u8],
    log: &[u8],
    from: usize,
    register: &mut Register,
) -> usize
    ensures { TextWritten report.old 0 (run_lines register.old 1 (body_at log.now from).steps) result report.new
        × (result ≤ report_bound (length log.now)) }
{
    let mut at = from;
    let mut place = 1;
    let mut next = 0;
    loop {
        let part = read_part(log, at);
        let count = part.count;
        if count == 0 {
            break;
        }
        let answers = register.run_on(part.steps, count);
        next = write_batch(
            report,
            next,
            place,
            &answers.refusals,
            &answers.values,
            count,
        );
        place += count;
        at = part.next;
    }
    write_offices(report, next, register)
}
