// For measuring only, from C, which gets one number as from skovarnek_slip: slips checked and written many times over, with the log read and run once. Of 1 to
// 2,147,483,647 turns the last answer, and what is then in the buffer, are proved to be those of a single call of skovarnek_slip; makers make that call.
#![tactic(auto)]

ghost use Rattle.std.specs.Prelude.{◌≡◌, ◌^◌, ◌<◌, ◌≤◌, length};
ghost use Rattle.replay.specs.Endings.{end_of};
ghost use Rattle.skovarnek_slip.specs.Answers.{answer_of, slip_checked, slip_written, slip_after};

use register::{Block, Office};
use replay::run_log;
use skovarnek_slip::answer;
use slip::{check_slip, write_slip};

// Where the slip of the next turn starts: at its first byte. Every answer is below 2^24, so that of up to 2,147,483,647 turns none has the answer that
// starts the next elsewhere; but a compiler knows neither the answer nor `times`, and so leaves no turn out.
fn start_of(last: u32, times: u32, size: usize) -> usize
    ensures { (result ≤ size) × (last < 2 ^ 24 → times ≤ 2147483647 → result ≡ 0) }
{
    if last == 0xFFFF_FFFF - times {
        return size;
    }
    0
}

// The turns of the two calls stand side by side: one function for both would take a closure that writes into the lent buffer, and its contract, which says of
// any turn what the buffer holds, would be longer than the two loops.

// Checks the slip so many times. The last answer, as skovarnek_slip_check gives it; of no turn 0. A log that does not read takes no turn and brings its
// refusal.
#[unsafe(no_mangle)]
pub extern "C" fn slip_timing_check(log: &[u8], slip: &[u8], times: u32) -> u32
    ensures { (times ≡ 0 → result ≡ answer_of (end_of log.now).refusal 0)
        × (0 < times → times ≤ 2147483647 → result ≡ slip_checked log.now slip.now) }
{
    let end = run_log(log);
    if end.refusal != 0 {
        return answer(end.refusal, 0);
    }
    let register = end.register;
    let mut last = 0;
    for _turn in 0..times {
        let start = start_of(last, times, slip.len());
        let checked = check_slip(register, &slip[start..]);
        last = answer(checked.refusal, checked.block.0 as u16);
    }
    last
}

// Writes the slip so many times. The last answer and the buffer, as skovarnek_slip_write gives them; of no turn 0 and the buffer as it was. A log that does not
// read takes no turn and brings its refusal.
#[unsafe(no_mangle)]
pub extern "C" fn slip_timing_write(
    log: &[u8],
    office: u8,
    block: u8,
    slip: &mut [u8],
    times: u32,
) -> u32
    ensures { (times ≡ 0 → (result ≡ answer_of (end_of log.now).refusal 0) × (slip.new ≡ slip.old))
        × (0 < times → times ≤ 2147483647 → (result ≡ slip_written log.now office block slip.old)
        × (slip.new ≡ slip_after log.now office block slip.old))
        × (length slip.new ≡ length slip.old) }
{
    let end = run_log(log);
    if end.refusal != 0 {
        return answer(end.refusal, 0);
    }
    let register = end.register;
    let mut last = 0;
    for _turn in 0..times {
        let start = start_of(last, times, slip.len());
        let written = write_slip(register, Office(office), Block(block), &mut slip[start..]);
        last = answer(written.refusal, written.length as u16);
    }
    last
}
