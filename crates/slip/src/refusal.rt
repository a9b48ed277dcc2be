// The numbers of refusal that slips bring, under which makers know them, a rule of the project; the others are those of the register and the packed log.
ghost use Rattle.std.specs.Prelude.{◌≡◌, [], ◌∷◌};

use refusals::Refusal;

pub const SLIP_FORM: u8 = Refusal::SlipForm as u8;

pub const UNSIGNED_MARK: u8 = Refusal::UnsignedMark as u8;

// Both, in the order of their table.
pub fn numbers() -> [u8; 2]
    ensures { result ≡ 33 ∷ 34 ∷ [] }
{
    [SLIP_FORM, UNSIGNED_MARK]
}
