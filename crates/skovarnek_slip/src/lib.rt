// Slips about whole logs, as skovarnek_slip_c gives them to C: see include/skovarnek_slip.h.
#![tactic(auto)]

ghost use Rattle.std.specs.Prelude.{◌≡◌, ◌^◌, ◌%◌, ◌≤◌, ◌<◌};
ghost use Rattle.skovarnek_slip.specs.Answers.{answer_of, slip_checked, slip_written, slip_after};

use register::{Block, Office};
use replay::run_log;
use slip::{check_slip, write_slip};

// A refusal and a value in one number, since that is what C gets: the value in the lower 16 bits, the refusal in the 8 above them.
pub fn answer(refusal: u8, value: u16) -> u32
    ensures { (result ≡ answer_of refusal value) × (result < 2 ^ 24) }
{
    value as u32 + 65536 * refusal as u32
}

// Runs the log and checks the slip against the register behind its last step: the block that the slip proves final, or the refusal times 65,536.
pub fn skovarnek_slip_check(log: &[u8], slip: &[u8]) -> u32
    ensures { result ≡ slip_checked log.now slip.now }
{
    let end = run_log(log);
    if end.refusal != 0 {
        return answer(end.refusal, 0);
    }
    let checked = check_slip(end.register, slip);
    answer(checked.refusal, checked.block.0 as u16)
}

// Runs the log and writes a slip about that block from that office's view: the length of the slip, or the refusal times 65,536; then no byte is
// changed. No slip is longer than SKOVARNEK_LONGEST_SLIP.
pub fn skovarnek_slip_write(log: &[u8], office: u8, block: u8, slip: &mut [u8]) -> u32
    ensures { (result ≡ slip_written log.now office block slip.old)
        × (slip.new ≡ slip_after log.now office block slip.old)
        × (result % 65536 ≤ 1021) }
{
    let end = run_log(log);
    if end.refusal != 0 {
        return answer(end.refusal, 0);
    }
    let written = write_slip(end.register, Office(office), Block(block), slip);
    answer(written.refusal, written.length as u16)
}
