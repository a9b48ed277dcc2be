// The numbers of refusal of a packed log, under which makers know them, a rule of the project; the others are the register's.
ghost use Rattle.std.specs.Prelude.{◌≡◌, [], ◌∷◌};

use refusals::Refusal;

pub const CUT: u8 = Refusal::Cut as u8;

pub const NO_SUCH_STEP: u8 = Refusal::NoSuchStep as u8;

pub const ENDING: u8 = Refusal::Ending as u8;

pub const LONG_LOG: u8 = Refusal::LongLog as u8;

pub const SHORT_BUFFER: u8 = Refusal::ShortBuffer as u8;

// All of them, in the order of their table.
pub fn numbers() -> [u8; 5]
    ensures { result ≡ 27 ∷ 28 ∷ 29 ∷ 30 ∷ 31 ∷ [] }
{
    [CUT, NO_SUCH_STEP, ENDING, LONG_LOG, SHORT_BUFFER]
}
