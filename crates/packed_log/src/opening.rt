// Reading the opening of a log.
ghost use Rattle.std.specs.Prelude.{◌≡◌, ◌+◌, ◌*◌, ◌≤◌, MatchResult, length, take};
ghost use Rattle.refusals.specs.Numbers.{number_of, outcome};
ghost use Rattle.words.specs.Refusals.{first};
ghost use Rattle.register.specs.Opening.{closed};
ghost use Rattle.packed_log.specs.Items.{left};
ghost use Rattle.packed_log.specs.Openings.{trust_in, leaders_at, there_in, front_in, front_refusal, led_tests, leader_tests, opened, opened_by, opening_in};

use crate::bits::read_bits;
use crate::item::{LONGEST, left_of, read_due};
use refusals::Refusal;
use register::Register;

// The widths of the fields of an opening; a trust bit takes one.
pub(crate) const COUNT_WIDTH: usize = 6;

pub(crate) const LENGTH_WIDTH: usize = 9;

pub(crate) const LEADER_WIDTH: usize = 5;

// What reading an opening gives: the fresh register, 0 and the position behind the last leader; or a register without offices, the refusal
// and position 0. Its refusal is a number by a rule of the project: makers are given the document's numbers, 0 for none, and a register
// in each case. It has no equality, as `Register` has none.
#[derive(Clone, Copy)]
pub struct Opening {
    pub register: Register,
    pub refusal: u8,
    pub next: usize,
}

// What stands in front of the leaders: n, and how many leaders there are to be.
#[derive(Clone, Copy, PartialEq, Eq, Debug)]
struct Front {
    n: u8,
    epochs: usize,
}

// A refused opening. Makers are given the number of the refusal.
fn refused(refusal: Refusal) -> Opening
    ensures { result ≡ opened closed (number_of refusal) 0 }
{
    Opening {
        register: register::opening::closed(),
        refusal: refusal.number(),
        next: 0,
    }
}

// Reads n and the schedule's length. The refusals up to there are 30, 27, 1, 27 and 2.
fn read_front(log: &[u8]) -> Result<Front, Refusal>
    ensures { MatchResult result
        (λ front. (front ≡ front_in log.now) × (front_refusal log.now ≡ 0))
        (λ refusal. number_of refusal ≡ front_refusal log.now) }
{
    if LONGEST < log.len() {
        return Err(Refusal::LongLog);
    }
    let n = read_due(log, 0, COUNT_WIDTH)? as u8;
    if !words::between(1, 32, n as usize) {
        return Err(Refusal::Count);
    }
    let epochs = read_due(log, COUNT_WIDTH + n as usize, LENGTH_WIDTH)? as usize;
    if !words::between(1, 256, epochs) {
        return Err(Refusal::Schedule);
    }
    Ok(Front { n, epochs })
}

// The trust word of n offices. It is no walk with `read_leaders`: bits are gathered into a word here, numbers into an array there.
fn read_trust(log: &[u8], n: u8) -> u32
    requires { (n ≤ 32) × (6 + n ≤ 8 * length log.now) × (length log.now ≤ 65536) }
    ensures { result ≡ trust_in log.now n }
{
    let mut trust = 0;
    for q in 0..n {
        trust += (read_bits(log, COUNT_WIDTH + q as usize, 1) as u32) << q;
    }
    trust
}

// So many leaders, from position `at` on, in an array of the most that there can be, since there is no heap.
fn read_leaders(log: &[u8], at: usize, count: usize) -> [u8; 256]
    requires { (count ≤ 256) × (at + 5 * count ≤ 8 * length log.now) × (length log.now ≤ 65536) }
    ensures { (length result ≡ 256) × (take count result ≡ leaders_at log.now at count) }
{
    let mut leaders = [0u8; 256];
    for i in 0..count {
        leaders[i] = read_bits(log, at + LEADER_WIDTH * i, LEADER_WIDTH) as u8;
    }
    leaders
}

// How many of the leaders are wholly there.
fn there_of(log: &[u8], front: Front) -> usize
    requires { length log.now ≤ 65536 }
    ensures { (result ≡ there_in log.now front.n front.epochs) × (result ≤ front.epochs)
        × (5 * result ≤ left log.now (15 + front.n)) }
{
    let rest = left_of(log, COUNT_WIDTH + LENGTH_WIDTH + front.n as usize);
    front.epochs.min(rest / LEADER_WIDTH)
}

// Whether a schedule that is to have k leaders, of which these are there, opens with n offices.
fn check_leaders(n: u8, trust: u32, schedule: &[u8], k: usize) -> Result<(), Refusal>
    requires { (1 ≤ n) × (n ≤ 32) × (1 ≤ k) × (length schedule.now ≤ 256) }
    ensures { outcome result ≡ first (led_tests n trust schedule.now k) }
{
    let opening = quorum::check_opening(n, trust, schedule);
    if schedule.len() < k && opening != Err(Refusal::StrayLeader) {
        return Err(Refusal::Cut);
    }
    opening
}

// The opening of a log with this front.
fn open_with(log: &[u8], front: Front) -> Opening
    requires { (1 ≤ front.n) × (front.n ≤ 32) × (1 ≤ front.epochs) × (front.epochs ≤ 256)
        × (15 + front.n ≤ 8 * length log.now) × (length log.now ≤ 65536) }
    ensures { result ≡ opened_by log.now front.n front.epochs (first (leader_tests log.now front.n front.epochs)) }
{
    let n = front.n;
    let from = COUNT_WIDTH + LENGTH_WIDTH + n as usize;
    let there = there_of(log, front);
    let table = read_leaders(log, from, there);
    let schedule = &table[..there];
    let trust = read_trust(log, n);
    match check_leaders(n, trust, schedule, front.epochs) {
        Ok(()) => Opening {
            register: Register::open(n, trust, schedule).register,
            refusal: 0,
            next: from + LEADER_WIDTH * front.epochs,
        },
        Err(refusal) => refused(refusal),
    }
}

// The opening of a log, read from bit 0.
pub fn read_opening(log: &[u8]) -> Opening
    ensures { result ≡ opening_in log.now }
{
    match read_front(log) {
        Ok(front) => open_with(log, front),
        Err(refusal) => refused(refusal),
    }
}
