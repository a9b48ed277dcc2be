// Opening a register.
ghost use Rattle.std.specs.Prelude.{◌≡◌, ◌≤◌, map, length};
ghost use Rattle.register.specs.Limits.{most_epochs};
ghost use Rattle.register.specs.Books.{office, register_of};
ghost use Rattle.register.specs.Opening.{leader_table, blank, closed, fresh, opening};
ghost use Rattle.tables.specs.Columns.{office_number};

use crate::limits::{BLOCKS, EPOCHS, MESSAGES, OFFICES};
use crate::table::{OfficeState, Opened, Register};
use tables::{Block, Blocks, Epoch, Kind, Messages, Office};

// The table of leaders: the schedule, and office 0 past its end.
fn leader_table(schedule: &[u8]) -> [Office; EPOCHS]
    requires { length schedule.now ≤ most_epochs }
    ensures { result ≡ map office (leader_table schedule.now) }
{
    let mut leaders = [Office(0); EPOCHS];
    for i in 0..schedule.len() {
        leaders[i] = Office(schedule[i]);
    }
    leaders
}

// A register of that epoch with no blocks but genesis and no messages, in which all are ready.
fn blank(n: u8, trust: u32, scheduled: u16, epoch: Epoch, leaders: [Office; EPOCHS]) -> Register
    ensures { result ≡ register_of (blank n trust scheduled epoch.0 (map office_number leaders)) }
{
    Register {
        n,
        trust,
        scheduled,
        leaders,
        epoch,
        blocks: Blocks {
            last: Block(0),
            parents: [Block(0); BLOCKS],
            epochs: [Epoch(0); BLOCKS],
            payloads: [0; BLOCKS],
        },
        messages: Messages {
            count: 0,
            kinds: [Kind::Proposal; MESSAGES],
            signers: [Office(0); MESSAGES],
            about: [Block(0); MESSAGES],
            places: [0; MESSAGES],
        },
        acted: 0,
        offices: [OfficeState {
            finalised: Block(0),
        }; OFFICES],
    }
}

// The register of a refused opening: no offices, and every other field 0, empty or ready.
pub fn closed() -> Register
    ensures { result ≡ closed }
{
    blank(0, 0, 0, Epoch(0), [Office(0); EPOCHS])
}

// The register of an opening that is not refused; trust bits from n up are stored as 0.
fn fresh(n: u8, trust: u32, schedule: &[u8]) -> Register
    requires { length schedule.now ≤ most_epochs }
    ensures { result ≡ fresh n trust schedule.now }
{
    blank(
        n,
        words::below(trust, n),
        schedule.len() as u16,
        Epoch(1),
        leader_table(schedule),
    )
}

impl Register {
    // Opens a register for n offices, with a leader for each epoch of the schedule.
    pub fn open(n: u8, trust: u32, schedule: &[u8]) -> Opened
        ensures { result ≡ opening n trust schedule.now }
    {
        match quorum::check_opening(n, trust, schedule) {
            Ok(()) => Opened {
                register: fresh(n, trust, schedule),
                refusal: 0,
            },
            Err(refusal) => Opened {
                register: closed(),
                refusal: refusal.number(),
            },
        }
    }
}
