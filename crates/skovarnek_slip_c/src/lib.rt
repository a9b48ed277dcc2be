// Slips as calls for C, those of skovarnek_slip under its names: see include/skovarnek_slip.h. Each hands on what C gives, so the two stand twice.
#![tactic(auto)]

ghost use Rattle.std.specs.Prelude.{◌≡◌, ◌%◌, ◌≤◌};
ghost use Rattle.skovarnek_slip.specs.Answers.{slip_checked, slip_written, slip_after};

// Runs the log and checks the slip against the register behind its last step: the block that the slip proves final, or the refusal times 65,536.
#[unsafe(no_mangle)]
pub extern "C" fn skovarnek_slip_check(log: &[u8], slip: &[u8]) -> u32
    ensures { result ≡ slip_checked log.now slip.now }
{
    skovarnek_slip::skovarnek_slip_check(log, slip)
}

// Runs the log and writes a slip about that block from that office's view: the length of the slip, or the refusal times 65,536; then no byte is
// changed. No slip is longer than SKOVARNEK_LONGEST_SLIP.
#[unsafe(no_mangle)]
pub extern "C" fn skovarnek_slip_write(log: &[u8], office: u8, block: u8, slip: &mut [u8]) -> u32
    ensures { (result ≡ slip_written log.now office block slip.old)
        × (slip.new ≡ slip_after log.now office block slip.old)
        × (result % 65536 ≤ 1021) }
{
    skovarnek_slip::skovarnek_slip_write(log, office, block, slip)
}
