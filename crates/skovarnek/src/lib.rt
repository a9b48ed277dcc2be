// The check as a call for C: see include/skovarnek.h.
#![tactic(auto)]

ghost use Rattle.std.specs.Prelude.{◌≡◌, ◌≤◌, length};
ghost use Rattle.report.specs.Reports.{report_of, report_bound, given_length, buffer_after};

// Checks a log, writes the report and gives its length; where it does not fit, gives 0 and leaves a buffer of zeros. No report is longer than
// SKOVARNEK_REPORT_BOUND of the log's length.
#[unsafe(no_mangle)]
pub extern "C" fn skovarnek_check(log: &[u8], report: &mut [u8]) -> usize
    ensures { (result ≡ given_length log.now report.old)
        × (report.new ≡ buffer_after log.now report.old)
        × (length (report_of log.now) ≤ report_bound (length log.now)) }
{
    report::check(log, report)
}
