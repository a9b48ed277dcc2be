// The form of a slip: the block that it names, how long it is, and its pad.
ghost use Rattle.std.specs.Prelude.{◌≡◌, ◌+◌, ◌*◌, ◌/◌, ◌≤◌, leb, length};
ghost use Rattle.words.specs.Tests.{both};
ghost use Rattle.packed_log.specs.Items.{padded};
ghost use Rattle.slip.specs.Slips.{block_in};

use register::Block;

// A block is named in so many bits.
pub(crate) const BLOCK_WIDTH: usize = 8;

// The block that the slip names; genesis where it has no byte.
pub(crate) fn block_in(slip: &[u8]) -> Block
    ensures { result.0 ≡ block_in slip.now }
{
    match slip.first() {
        Some(byte) => Block(*byte),
        None => Block(0),
    }
}

// How many bits a slip has before its pad, about a chain of that length.
pub(crate) fn bits_due(n: u8, length: u8) -> usize
    requires { n ≤ 32 }
    ensures { (result ≡ 8 + n * length) × (result ≤ 8168) }
{
    BLOCK_WIDTH + n as usize * length as usize
}

// How many bytes so many bits take.
pub(crate) fn bytes_due(bits: usize) -> usize
    requires { bits ≤ 8168 }
    ensures { result ≡ (bits + 7) / 8 }
{
    bits.div_ceil(8)
}

// The slip has so many bits, behind them zero bits to the byte's end, and no byte more.
pub(crate) fn is_formed(slip: &[u8], bits: usize) -> bool
    requires { bits ≤ 8168 }
    ensures { result ≡ both (leb bits (8 * length slip.now)) (padded slip.now bits) }
{
    if slip.len() != bytes_due(bits) {
        return false;
    }
    packed_log::read_field(slip, bits, 8 * slip.len() - bits) == 0
}
