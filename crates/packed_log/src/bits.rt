// Fields of a log, most significant bit first: reading one, and writing one into a buffer. What a call asks ties a width, a position and a value to each
// other and to the bytes; a struct of these would be made at each call only to be taken apart in it.
ghost use Rattle.std.specs.Prelude.{◌≡◌, ◌+◌, ◌*◌, ◌-◌, ◌/◌, ◌%◌, ◌^◌, ◌≤◌, ◌<◌, length, get_or, set};
ghost use Rattle.packed_log.specs.Bits.{to_bits, field, put};
ghost use Rattle.packed_log.specs.Windows.{window, over};

// Byte i of the log; 0 past its end.
fn byte_at(log: &[u8], i: usize) -> u32
    ensures { (result ≡ get_or log.now i 0) × (result < 256) }
{
    log.get(i).copied().unwrap_or(0) as u32
}

// The three bytes from byte i on, as one number of 24 bits. A field is at most 16 bits wide, so no field leaves the three bytes from its
// first one on.
fn window_at(log: &[u8], i: usize) -> u32
    requires { i ≤ 65536 }
    ensures { (result ≡ window log.now i) × (result < 2 ^ 24) }
{
    byte_at(log, i) * 65536 + byte_at(log, i + 1) * 256 + byte_at(log, i + 2)
}

// The `width` bits of a number that stand above its lowest `behind`.
pub(crate) fn part_of(number: u32, behind: usize, width: usize) -> u16
    requires { (behind < 32) × (width ≤ 16) }
    ensures { (result ≡ number / 2 ^ behind % 2 ^ width) × (result < 2 ^ width) }
{
    ((number >> behind) % (1 << width)) as u16
}

// The number in the `width` bits from position `at` on, 0 where the width is 0.
pub(crate) fn read_bits(log: &[u8], at: usize, width: usize) -> u16
    requires { (width ≤ 16) × (at + width ≤ 8 * length log.now) × (length log.now ≤ 65536) }
    ensures { (result ≡ field log.now at width) × (result < 2 ^ width) }
{
    if width == 0 {
        return 0;
    }
    part_of(window_at(log, at / 8), 24 - at % 8 - width, width)
}

// Byte i of the buffer becomes b; past its end no byte does. With `get_mut`, tried, the proof didn't close: an arm keeps no tie to the whole buffer.
fn store(buf: &mut [u8], i: usize, b: u32)
    requires { b < 256 }
    ensures { buf.new ≡ set buf.old i b }
{
    if i < buf.len() {
        buf[i] = b as u8;
    }
}

// The 24 bits with the `width` of them that stand above the lowest `behind` replaced by those of `value`.
fn laid_over(bits: u32, behind: usize, width: usize, value: u16) -> u32
    requires { (bits < 2 ^ 24) × (behind + width ≤ 24) × (value < 2 ^ width) }
    ensures { (result ≡ over bits behind width value) × (result < 2 ^ 24) }
{
    let above = behind + width;
    ((bits >> above) << above) + ((value as u32) << behind) + bits % (1 << behind)
}

// Writes a field that starts within the first byte of the buffer.
fn write_front(buf: &mut [u8], at: usize, width: usize, value: u16)
    requires { (at < 8) × (width ≤ 16) × (at + width ≤ 8 * length buf.old) × (value < 2 ^ width) }
    ensures { buf.new ≡ put buf.old at (to_bits width value) }
{
    let bits = laid_over(window_at(buf, 0), 24 - at - width, width, value);
    store(buf, 0, bits / 65536);
    store(buf, 1, bits / 256 % 256);
    store(buf, 2, bits % 256);
}

// Writes the `width` bits of `value` at position `at`; all other bits stay. What is lent on is the part of the buffer that starts at the
// first unfinished byte.
pub(crate) fn write_bits(buf: &mut [u8], at: usize, width: usize, value: u16)
    requires { (width ≤ 16) × (at + width ≤ 8 * length buf.old) × (value < 2 ^ width) }
    ensures { buf.new ≡ put buf.old at (to_bits width value) }
{
    if width == 0 {
        return;
    }
    let first = at / 8;
    write_front(&mut buf[first..], at % 8, width, value);
}
