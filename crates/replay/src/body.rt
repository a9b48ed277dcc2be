// What a log holds behind its opening: steps, up to the end or to a refusal.
ghost use Rattle.std.specs.Prelude.{◌≡◌, eqb};
ghost use Rattle.refusals.specs.Numbers.{outcome};
ghost use Rattle.words.specs.Tests.{choose};
ghost use Rattle.replay.specs.Bodies.{body_at};
ghost use Rattle.replay.specs.Parts.{steps_of, part_at};

use packed_log::item::skip_item;
use packed_log::{Item, read_item};
use refusals::Refusal;
use register::Step;
use register::limits::BATCH;
use register::run::Batch;

// What reading the log from position `at` on is refused with; nothing where it ends with the end.
fn check_from(log: &[u8], at: usize) -> Result<(), Refusal>
    ensures { outcome result ≡ (body_at log.now at).refusal }
{
    let mut next = at;
    loop {
        let skip = skip_item(log, next)?;
        if skip.kind == 0 {
            return Ok(());
        }
        next = skip.next;
    }
}

// The number that a log is refused with: that of its opening, else that of what stands behind it. It is given a
// number and gives one, 0 for none, as README says of it: makers are given the document's numbers.
pub fn fault_of(log: &[u8], opening: u8, next: usize) -> u8
    ensures { result ≡ choose (eqb opening 0) (body_at log.now next).refusal opening }
{
    if opening == 0 {
        return refusals::number_of(check_from(log, next));
    }
    opening
}

// A part of a log's steps: the first `count` of a batch, and the position behind them. A batch is an array with a count, as `run` takes it:
// there is no heap.
#[derive(Clone, Copy, PartialEq, Eq, Debug)]
pub struct Part {
    pub steps: Batch,
    pub count: usize,
    pub next: usize,
}

// The steps from position `at` on, up to a batch of them. Each item is read once.
pub fn read_part(log: &[u8], at: usize) -> Part
    ensures { result ≡ part_at log.now at }
{
    let mut steps = [Step::Advance; BATCH];
    let mut next = at;
    for count in 0..BATCH {
        let read = read_item(log, next);
        let Item::Step(step) = read.item else {
            return Part { steps, count, next };
        };
        steps[count] = step;
        next = read.next;
    }
    Part {
        steps,
        count: BATCH,
        next,
    }
}

// A place for one step, for makers who keep their steps so.
#[derive(Clone, Copy, PartialEq, Eq, Debug)]
pub struct Slot {
    pub step: Step,
}

// The steps in some slots, as a batch to run.
pub fn steps_of(slots: [Slot; BATCH]) -> Batch
    ensures { result ≡ steps_of slots }
{
    slots.map(|slot| slot.step)
}
