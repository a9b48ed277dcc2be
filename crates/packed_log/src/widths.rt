// The widths of the fields, by kind, which is the log's number: see `Row`.
ghost use Rattle.std.specs.Prelude.{◌≡◌, ◌+◌, ◌*◌, ◌≤◌, ◌<◌};
ghost use Rattle.packed_log.specs.Widths.{kinds, width, due};

// A kind takes so many bits.
pub(crate) const KIND_WIDTH: usize = 4;

// So many kinds there are, the end being the first.
pub(crate) const KINDS: usize = 9;

// So many fields a kind has at most.
pub(crate) const COLUMNS: usize = 4;

// What the fields of each kind take: the bits of all of them, and below these the widths of the four columns, a byte for each, the first column
// highest; 00 where there is no field. They are one number, since a table of bytes for each kind, tried, was built on the stack at each look: 40 ns a step.
const WIDTHS: [u64; KINDS] = [
    // end
    0x00_00_00_00_00,
    // propose: office, parent, payload
    0x1D_05_08_10_00,
    // vote: office, message
    0x0F_05_0A_00_00,
    // register: office, message
    0x0F_05_0A_00_00,
    // finalise: office, block
    0x0D_05_08_00_00,
    // deliver: message, office
    0x0F_0A_05_00_00,
    // bad send: sender, kind, signer, block
    0x13_05_01_05_08,
    // draft: parent, epoch, payload
    0x21_08_09_10_00,
    // advance
    0x00_00_00_00_00,
];

// The entry of a kind. It goes by cases, so that each entry is a constant for the compiler: with `WIDTHS[kind as usize]`, tried, an advance takes 7.4 ns
// to read in place of 3.6, since the position of the next item waits for the look.
#[tactic(auto, unfolding(crate::specs::Widths::width, crate::specs::Widths::fields))]
fn entry_of(kind: u8) -> u64
    requires { kind < kinds }
    ensures { result ≡
        (((due kind * 256 + width kind 0) * 256 + width kind 1) * 256 + width kind 2) * 256 + width kind 3 }
{
    match kind {
        1 => WIDTHS[1],
        2 => WIDTHS[2],
        3 => WIDTHS[3],
        4 => WIDTHS[4],
        5 => WIDTHS[5],
        6 => WIDTHS[6],
        7 => WIDTHS[7],
        8 => WIDTHS[8],
        _ => WIDTHS[0],
    }
}

// The width of a kind's field in a column; 0 where there is no field.
pub(crate) fn width_of(kind: u8, column: usize) -> usize
    requires { (kind < kinds) × (column < 4) }
    ensures { (result ≡ width kind column) × (result ≤ 16) }
{
    ((entry_of(kind) >> (8 * (3 - column))) % 256) as usize
}

// How many bits the fields of a kind take.
pub(crate) fn due_of(kind: u8) -> usize
    requires { kind < kinds }
    ensures { (result ≡ due kind) × (result ≤ 64) }
{
    (entry_of(kind) >> 32) as usize
}
