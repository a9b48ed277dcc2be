// The rows of a slip as words. In a row the bit of office 0 comes first, so in the row's number that of the last office is the lowest. To stand beside
// rows, the signers of each block are gathered in that order.
ghost use Rattle.std.specs.Prelude.{◌≡◌, map};
ghost use Rattle.tables.specs.Columns.{office_number, signers_of, about_of, sent_of};
ghost use Rattle.tables.specs.Searches.{view_in};
ghost use Rattle.slip.specs.Rows.{mirror, everywhere};

use register::limits::MESSAGES;
use register::{Messages, Office};
use tables::View;

// The place of an office's bit in a row of n bits, from the lowest on; a number from n up keeps its own.
fn mirrored(n: u8, office: Office) -> Office
    ensures { result.0 ≡ mirror n office.0 }
{
    if office.0 < n {
        Office(n - 1 - office.0)
    } else {
        office
    }
}

// The places of some offices' bits.
fn mirrored_all(offices: [Office; MESSAGES], n: u8) -> [Office; MESSAGES]
    ensures { map office_number result ≡ map (mirror n) (map office_number offices) }
{
    let mut places = offices;
    for place in &mut places {
        *place = mirrored(n, *place);
    }
    places
}

// For each block the row of those who signed it, by the messages in the office's view.
pub(crate) fn rows_of(messages: Messages, n: u8, office: Office) -> View
    ensures { result ≡ view_in messages.places (map (mirror n) (signers_of messages)) (about_of messages) (sent_of messages) office.0 }
{
    let mut mirror = messages;
    mirror.signers = mirrored_all(messages.signers, n);
    mirror.view(office)
}

// A message that is in every office's view.
const EVERYWHERE: u64 = 0xFFFF_FFFF_FFFF_FFFF;

// For each block the row of those who signed it, by the history: by the view of an office that has every message.
pub(crate) fn history_rows(messages: &Messages, n: u8) -> View
    ensures { result ≡ view_in everywhere (map (mirror n) (signers_of messages.now)) (about_of messages.now) (sent_of messages.now) 0 }
{
    let mut all = *messages;
    all.places = [EVERYWHERE; MESSAGES];
    rows_of(all, n, Office(0))
}
