// Running a whole log, for whoever wants the register behind its last step.
ghost use Rattle.std.specs.Prelude.{◌≡◌};
ghost use Rattle.register.specs.Runs.{after_steps};
ghost use Rattle.replay.specs.Bodies.{body_at};
ghost use Rattle.replay.specs.Endings.{end_of};

use crate::body::{fault_of, read_part};
use packed_log::read_opening;
use register::Register;

// What running a log gives: the register behind its last step and 0; or, where the log does not read, a register without offices and the number
// that the log is refused with. It is a number, and a register in each case, by a rule of the project: makers are given the document's numbers. It has no
// equality, as `Register` has none.
#[derive(Clone, Copy)]
pub struct Ended {
    pub register: Register,
    pub refusal: u8,
}

// Runs the steps that stand from position `from` on, from that register.
fn run_from(log: &[u8], from: usize, register: Register) -> Register
    ensures { result ≡ after_steps register (body_at log.now from).steps }
{
    let mut current = register;
    let mut at = from;
    loop {
        let part = read_part(log, at);
        let count = part.count;
        if count == 0 {
            break;
        }
        current.run_on(part.steps, count);
        at = part.next;
    }
    current
}

// Runs a log.
pub fn run_log(log: &[u8]) -> Ended
    ensures { result ≡ end_of log.now }
{
    let opening = read_opening(log);
    let refusal = fault_of(log, opening.refusal, opening.next);
    if refusal != 0 {
        return Ended {
            register: register::opening::closed(),
            refusal,
        };
    }
    Ended {
        register: run_from(log, opening.next, opening.register),
        refusal,
    }
}
