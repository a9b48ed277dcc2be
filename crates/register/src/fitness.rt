// Whether a register is fit: every number in it is in its range.
ghost use Rattle.std.specs.Prelude.{◌≡◌, ℕ, Bool, not, ◌+◌, ◌≤◌, ◌<◌, map, ltb, get_or};
ghost use Rattle.words.specs.Tests.{either, conj, all};
ghost use Rattle.tables.specs.Blocks.{trusted_in};
ghost use Rattle.tables.specs.Columns.{office_number, parents_of, epochs_of, signers_of, about_of};
ghost use Rattle.register.specs.Limits.{most_offices, most_epochs, most_messages};
ghost use Rattle.register.specs.Types.{Book};
ghost use Rattle.register.specs.Books.{book_of};
ghost use Rattle.register.specs.Tables.{state_in};
ghost use Rattle.register.specs.Fitness.{counts_fit, block_fits, message_fits, state_fits, tables_fit, fit};
ghost use Rattle.register.specs.Counted.{Counted};
ghost use Rattle.register.specs.Promises.{Sizes};

use crate::limits::{EPOCHS, MOST_BLOCKS, MOST_MESSAGES, OFFICES, WIDEST_EPOCH};
use crate::table::{OfficeState, Register};
use tables::{Block, Blocks, Epoch, Messages, Office};

// The single numbers of a book are in their ranges.
pub(crate) fn numbers_fit(n: u8, scheduled: u16, epoch: Epoch, last: Block, count: u16) -> bool
    ensures { (b : Book) → b.n ≡ n → b.scheduled ≡ scheduled → b.epoch ≡ epoch → b.last ≡ last → b.count ≡ count → result ≡ counts_fit b }
{
    let scheduled = scheduled as usize;
    words::between(1, OFFICES, n as usize)
        & words::between(1, EPOCHS, scheduled)
        & words::between(1, scheduled, epoch.0 as usize)
        & (last.0 as u16 <= MOST_BLOCKS)
        & (count <= MOST_MESSAGES)
}

// The single numbers of a register are in their ranges.
fn counts_fit(register: &Register) -> bool
    ensures { result ≡ counts_fit (book_of register.now) }
{
    numbers_fit(
        register.n,
        register.scheduled,
        register.epoch,
        register.blocks.last,
        register.messages.count,
    )
}

// Each number below `size` passes the test, where p says of each what the test does. The loop has no branch, so that many entries of a column are
// compared at once.
pub(crate) fn all_pass<F: Fn(usize) -> bool>(size: usize, test: F) -> bool
    requires { (i : ℕ) → i < size → F.pre test i }
    ensures { (p : ℕ → Bool) → ((i : ℕ) → i < size → (t : Bool) → F.post test i t → t ≡ p i) → result ≡ all size p }
{
    let mut fits = true;
    for i in 0..size {
        fits = fits & test(i);
    }
    fits
}

// Every leader of the schedule is an office.
fn leaders_fit(leaders: &[Office; EPOCHS], scheduled: usize, n: u8) -> bool
    requires { scheduled ≤ most_epochs }
    ensures { result ≡ all scheduled (λ i. ltb (get_or (map office_number leaders.now) i 0) n) }
{
    all_pass(scheduled, |i| leaders[i].0 < n)
}

// A block has a smaller parent, and an epoch up to 511.
pub(crate) fn block_fits(b: u8, parent: Block, epoch: Epoch) -> bool
    ensures { result ≡ block_fits b parent.0 epoch.0 }
{
    (parent.0 < b) & (epoch.0 <= WIDEST_EPOCH)
}

// Every block from 1 to the last fits.
fn blocks_fit(blocks: &Blocks) -> bool
    ensures { result ≡ all blocks.now.last.0
        (λ k. block_fits (k + 1) (get_or (parents_of blocks.now) (k + 1) 0) (get_or (epochs_of blocks.now) (k + 1) 0)) }
{
    all_pass(
        blocks.last.0 as usize,
        |k| block_fits(k as u8 + 1, blocks.parents[k + 1], blocks.epochs[k + 1]),
    )
}

// A message has an office for its signer and a block that has been made, genesis excepted.
pub(crate) fn message_fits(n: u8, last: Block, signer: Office, about: Block) -> bool
    ensures { result ≡ message_fits n last.0 signer.0 about.0 }
{
    (signer.0 < n) & ((1 <= about.0) & (about.0 <= last.0))
}

// Every message sent fits.
fn messages_fit(messages: &Messages, n: u8, last: Block) -> bool
    requires { messages.now.count ≤ most_messages }
    ensures { result ≡ all messages.now.count
        (λ m. message_fits n last.0 (get_or (signers_of messages.now) m 0) (get_or (about_of messages.now) m 0)) }
{
    all_pass(
        messages.count as usize,
        |m| message_fits(n, last, messages.signers[m], messages.about[m]),
    )
}

// What an office holds fits: its final block is genesis or has been made.
fn state_fits(last: Block, state: OfficeState) -> bool
    ensures { result ≡ state_fits last.0 state }
{
    state.finalised.0 <= last.0
}

// So does what every trusted office holds.
pub(crate) fn offices_fit(offices: &[OfficeState; OFFICES], n: u8, trust: u32, last: Block) -> bool
    requires { n ≤ most_offices }
    ensures { result ≡ all n (λ q. either (not (trusted_in n trust q)) (state_fits last.0 (state_in offices.now q))) }
{
    all_pass(
        n as usize,
        |q| !words::has(trust, q as u8) | state_fits(last, offices[q]),
    )
}

// Every number in the tables is in its range, where the single numbers are.
fn tables_fit(register: &Register) -> bool
    requires { Counted register.now }
    ensures { result ≡ conj (tables_fit (book_of register.now)) }
{
    let n = register.n;
    let last = register.blocks.last;
    leaders_fit(&register.leaders, register.scheduled as usize, n)
        & blocks_fit(&register.blocks)
        & messages_fit(&register.messages, n, last)
        & offices_fit(&register.offices, n, register.trust, last)
}

impl Register {
    // The columns have the sizes of their arrays. The call does nothing; a proof that has the register behind a reference learns it here.
    pub fn know_sizes(&self)
        ensures { Sizes (book_of self.now) }
    {
        self.blocks.know_sizes();
        self.messages.know_sizes();
    }

    // Every number of the register is in its range; payloads, places and kinds of messages are no matter. The counts come first, so that no table
    // is read past its end.
    pub fn is_fit(&self) -> bool
        ensures { result ≡ fit (book_of self.now) }
    {
        counts_fit(self) && tables_fit(self)
    }
}
