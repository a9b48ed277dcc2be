// Fields of up to 32 bits at any position of some bytes, for whoever packs more than logs.
ghost use Rattle.std.specs.Prelude.{◌≡◌};
ghost use Rattle.packed_log.specs.Fields.{there, field_at, with_field};

use crate::bits::{part_of, read_bits, write_bits};
use crate::item::LONGEST;

// So many bits are read or written at once.
const AT_ONCE: usize = 16;

// The most bits that a field has.
const WIDEST: usize = 32;

// The `width` bits from position `at` on are there.
fn is_there(bytes: &[u8], at: usize, width: usize) -> bool
    ensures { result ≡ there bytes.now at width }
{
    if LONGEST < bytes.len() {
        return false;
    }
    let total = 8 * bytes.len();
    if total < at {
        return false;
    }
    (width <= WIDEST) & (width <= total - at)
}

// The number in the `width` bits from position `at` on; 0 where they are not there.
pub fn read_field(bytes: &[u8], at: usize, width: usize) -> u32
    ensures { result ≡ field_at bytes.now at width }
{
    if !is_there(bytes, at, width) {
        return 0;
    }
    let low = width.min(AT_ONCE);
    let high = width - low;
    ((read_bits(bytes, at, high) as u32) << low) + read_bits(bytes, at + high, low) as u32
}

// Writes the `width` lowest bits of the value at position `at`; all other bits stay, and all bits where these are not there.
pub fn write_field(buf: &mut [u8], at: usize, width: usize, value: u32)
    ensures { buf.new ≡ with_field buf.old at width value }
{
    if !is_there(buf, at, width) {
        return;
    }
    let low = width.min(AT_ONCE);
    let high = width - low;
    write_bits(buf, at, high, part_of(value, low, high));
    write_bits(buf, at + high, low, part_of(value, 0, low));
}
