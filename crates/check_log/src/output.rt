// What the program says: its report on standard output, and sentences on standard error.
ghost use Rattle.std.specs.Prelude.{◌≤◌, length};

use std::io;

// Says a sentence on standard error: whatever it is about, and what is wrong with it. Where that can't be written, nothing is left to say it with.
pub fn complain(rt: &HostRuntime, what: &[u8], fault: &[u8]) {
    let to = rt.stderr();
    let _ = to.write_all(b"check_log: ");
    let _ = to.write_all(what);
    let _ = to.write_all(fault);
}

// Writes the line of use. An error comes where not all of it was written.
fn write_usage(to: &impl Print) -> io::Result<()> {
    to.write_all(
        b"usage: check_log [FILE]   checks the log in FILE, or on standard input, and prints its report\n",
    )
}

// Prints the line of use.
pub fn print_usage(rt: &HostRuntime) {
    if write_usage(&rt.stdout()).is_err() {
        complain(rt, b"the line of use", b" can't be written\n");
    }
}

// Says the line of use on standard error, where nobody takes it for a report.
pub fn complain_of_usage(rt: &HostRuntime) {
    let _ = write_usage(&rt.stderr());
}

// Prints the report that stands in front in a buffer. A write that takes only a part is continued; where one fails, that is said.
pub fn print_report(rt: &HostRuntime, report: &[u8], size: usize)
    requires { size ≤ length report.now }
{
    if rt.stdout().write_all(&report[..size]).is_err() {
        complain(rt, b"the report", b" can't be written\n");
    }
}
