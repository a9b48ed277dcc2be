// Writing the opening of a log, into a buffer at a position, of n offices with a trust word and a schedule, as the public call has them; `HasRoom` ties the
// two first to what is written, another size in each function.
ghost use Rattle.std.specs.Prelude.{◌≡◌, ◌+◌, ◌*◌, ◌≤◌, ◌<◌, length};
ghost use Rattle.packed_log.specs.Bits.{put};
ghost use Rattle.packed_log.specs.Writing.{office_bits, leader_bits, opening_bits, HasRoom, Led, opening_refused, wrote, wrote_by, laid};

use crate::bits::write_bits;
use crate::opening::{COUNT_WIDTH, LEADER_WIDTH, LENGTH_WIDTH};
use crate::writing::{Wrote, check_room, wrote_by};
use refusals::Refusal;

// Lays the trust bits of n offices over the buffer from position `at` on, office 0 first.
fn write_trust(buf: &mut [u8], at: usize, n: u8, trust: u32)
    requires { (n ≤ 32) × HasRoom buf.old at n }
    ensures { buf.new ≡ put buf.old at (office_bits n trust) }
{
    for q in 0..n {
        write_bits(buf, at + q as usize, 1, words::bit(trust, q) as u16);
    }
}

// Lays the leaders of a schedule over the buffer from position `at` on.
fn write_leaders(buf: &mut [u8], at: usize, schedule: &[u8])
    requires { Led schedule.now × HasRoom buf.old at (5 * length schedule.now) }
    ensures { buf.new ≡ put buf.old at (leader_bits schedule.now) }
{
    for (i, leader) in schedule.iter().enumerate() {
        write_bits(buf, at + LEADER_WIDTH * i, LEADER_WIDTH, *leader as u16);
    }
}

// Lays n, the trust bits, the schedule's length and its leaders over the buffer from position `at` on.
fn lay_opening(buf: &mut [u8], at: usize, n: u8, trust: u32, schedule: &[u8])
    requires { (n ≤ 32) × Led schedule.now × HasRoom buf.old at (15 + n + 5 * length schedule.now) }
    ensures { buf.new ≡ put buf.old at (opening_bits n trust schedule.now) }
{
    let after_count = at + COUNT_WIDTH;
    let after_trust = after_count + n as usize;
    write_bits(buf, at, COUNT_WIDTH, n as u16);
    write_trust(buf, after_count, n, trust);
    write_bits(buf, after_trust, LENGTH_WIDTH, schedule.len() as u16);
    write_leaders(buf, after_trust + LENGTH_WIDTH, schedule);
}

// Writes an opening at position `at`, where nothing refuses it, and gives the position behind it.
fn try_write_opening(
    buf: &mut [u8],
    at: usize,
    n: u8,
    trust: u32,
    schedule: &[u8],
) -> Result<usize, Refusal>
    ensures { (wrote_by result at ≡ wrote (opening_refused buf.old at n trust schedule.now) at (opening_bits n trust schedule.now))
        × (buf.new ≡ laid buf.old (opening_refused buf.old at n trust schedule.now) at
        (opening_bits n trust schedule.now)) }
{
    quorum::check_opening(n, trust, schedule)?;
    let size = COUNT_WIDTH + LENGTH_WIDTH + n as usize + LEADER_WIDTH * schedule.len();
    check_room(buf, at, size)?;
    lay_opening(buf, at, n, trust, schedule);
    Ok(at + size)
}

// Writes an opening at position `at`.
pub fn write_opening(buf: &mut [u8], at: usize, n: u8, trust: u32, schedule: &[u8]) -> Wrote
    ensures { (result ≡ wrote (opening_refused buf.old at n trust schedule.now) at (opening_bits n trust schedule.now))
        × (buf.new ≡ laid buf.old (opening_refused buf.old at n trust schedule.now) at
        (opening_bits n trust schedule.now)) }
{
    wrote_by(try_write_opening(buf, at, n, trust, schedule), at)
}
