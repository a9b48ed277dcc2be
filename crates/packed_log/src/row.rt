// A step as a row of the log, and back.
ghost use Rattle.std.specs.Prelude.{◌≡◌, ◌<◌, get_or};
ghost use Rattle.packed_log.specs.Rows.{row, row_by, kind_numbered, row_of, step_of, Narrow};
ghost use Rattle.packed_log.specs.Widths.{kinds};

use crate::widths::COLUMNS;
use register::{Block, Epoch, Kind, Message, Office, Step};

// The number of a kind and the numbers of its fields, 0 in the columns that the kind has no field for. The kind is the log's own number, here and in all
// that is given a row's kind: its enum is `Step`, and a second one, without fields, would only stand between a step and that number.
#[derive(Clone, Copy, PartialEq, Eq, Debug)]
pub(crate) struct Row {
    pub kind: u8,
    pub fields: [u16; COLUMNS],
}

// The kind of a message with that number; 1 is the only one above 0 that its column holds. A `TryFrom` would be no plainer: it would refuse
// what no log can hold.
#[tactic(auto, unfolding(crate::specs::Rows::kind_numbered, words::specs::Tests::choose))]
fn kind_numbered(number: u16) -> Kind
    ensures { result ≡ kind_numbered number }
{
    if number == 0 {
        Kind::Proposal
    } else {
        Kind::Vote
    }
}

// A row of the numbers given.
fn filled(kind: u8, fields: [u16; COLUMNS]) -> Row
    ensures { row_by result ≡ row kind (get_or fields 0 0) (get_or fields 1 0) (get_or fields 2 0) (get_or fields 3 0) }
{
    Row { kind, fields }
}

// The row of a step. It is no `From`, since the way back can be none.
#[tactic(auto, using(crate::proofs::RowLaws::as_number), unfolding(crate::specs::Rows::row_of))]
pub(crate) fn row_of(step: Step) -> Row
    ensures { row_by result ≡ row_of step }
{
    match step {
        Step::Propose(o, p, w) => filled(1, [o.0 as u16, p.0 as u16, w, 0]),
        Step::Vote(o, m) => filled(2, [o.0 as u16, m.0, 0, 0]),
        Step::Register(o, m) => filled(3, [o.0 as u16, m.0, 0, 0]),
        Step::Finalise(o, b) => filled(4, [o.0 as u16, b.0 as u16, 0, 0]),
        Step::Deliver(m, o) => filled(5, [m.0, o.0 as u16, 0, 0]),
        Step::BadSend(o, k, s, b) => filled(6, [o.0 as u16, k as u16, s.0 as u16, b.0 as u16]),
        Step::Draft(p, e, w) => filled(7, [p.0 as u16, e.0, w, 0]),
        Step::Advance => filled(8, [0, 0, 0, 0]),
    }
}

// The step of a row. The kind that is left for the last arm is 8. It asks that the numbers are those of a step, which `From` can't; a `TryFrom` would
// refuse what no log can hold.
#[tactic(auto, unfolding(crate::specs::Rows::step_of, crate::specs::Rows::steps_of, crate::specs::Rows::pick, crate::specs::Widths::width, crate::specs::Widths::fields, words::specs::Tests::choose))]
pub(crate) fn step_of(r: Row) -> Step
    requires { (0 < r.kind) × (r.kind < kinds) × Narrow (row_by r) }
    ensures { result ≡ step_of (row_by r) }
{
    let [first, second, third, fourth] = r.fields;
    match r.kind {
        1 => Step::Propose(Office(first as u8), Block(second as u8), third),
        2 => Step::Vote(Office(first as u8), Message(second)),
        3 => Step::Register(Office(first as u8), Message(second)),
        4 => Step::Finalise(Office(first as u8), Block(second as u8)),
        5 => Step::Deliver(Message(first), Office(second as u8)),
        6 => Step::BadSend(
            Office(first as u8),
            kind_numbered(second),
            Office(third as u8),
            Block(fourth as u8),
        ),
        7 => Step::Draft(Block(first as u8), Epoch(second), third),
        _ => Step::Advance,
    }
}
