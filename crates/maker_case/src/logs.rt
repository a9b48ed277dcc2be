// A log: written and read, and its report.
ghost use Rattle.std.specs.Prelude.{◌≡◌};
ghost use Rattle.report.specs.Reports.{given_length, buffer_after};

use packed_log::{Read, Wrote, read_item, read_opening, write_end, write_opening, write_step};
use register::{Block, Message, Office, Step};
use report::check;

// Writes a log of two steps. Each call gives the next bit position; the log is the bytes before the last one.
pub fn write_log(buf: &mut [u8]) -> Wrote {
    let at = write_opening(buf, 0, 3, 7, b"\x00\x00\x00").next;
    let at = write_step(buf, at, Step::Propose(Office(0), Block(0), 7)).next;
    let at = write_step(buf, at, Step::Deliver(Message(0), Office(1))).next;
    write_end(buf, at)
}

// The item behind a log's opening: a step, the end or a refusal, and the position behind it.
pub fn first_item(log: &[u8]) -> Read {
    read_item(log, read_opening(log).next)
}

// The whole check, log bytes to report bytes.
pub fn whole_check(log: &[u8], report: &mut [u8]) -> usize
    ensures { (result ≡ given_length log.now report.old) × (report.new ≡ buffer_after log.now report.old) }
{
    check(log, report)
}
