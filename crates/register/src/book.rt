// The book of a register: the same numbers, in columns of plain numbers and flags, for whoever has no use for the four sorts. The rules read a register so.
ghost use Rattle.std.specs.Prelude.{◌≡◌, ◌+◌, ◌≤◌, ltb, get_or};
ghost use Rattle.words.specs.Tests.{conj, all};
ghost use Rattle.register.specs.Limits.{most_epochs, most_messages};
ghost use Rattle.register.specs.Books.{book_of};
ghost use Rattle.register.specs.Fitness.{block_fits, message_fits, tables_fit, fit};
ghost use Rattle.register.specs.Counted.{CountedBook};
ghost use Rattle.register.specs.Promises.{Sizes};

use crate::fitness::{all_pass, block_fits, message_fits, numbers_fit, offices_fit};
use crate::limits::{BLOCKS, EPOCHS, MESSAGES, OFFICES};
use crate::sorts::{Block, Epoch, Kind, Office};
use crate::table::{OfficeState, Register};

// A register in plain numbers: its fields are those of the register and of its two tables. It has no equality, as a register has none: no rule
// compares two.
#[derive(Clone, Copy)]
pub struct Book {
    pub n: u8,
    pub trust: u32,
    pub scheduled: u16,
    pub leaders: [u8; EPOCHS],
    pub epoch: Epoch,
    pub last: Block,
    pub parents: [u8; BLOCKS],
    pub epochs: [u16; BLOCKS],
    pub payloads: [u16; BLOCKS],
    pub count: u16,
    pub votes: [bool; MESSAGES],
    pub signers: [u8; MESSAGES],
    pub about: [u8; MESSAGES],
    pub places: [u64; MESSAGES],
    pub acted: u32,
    pub offices: [OfficeState; OFFICES],
}

impl Register {
    // The register's book, whose columns have their sizes. Three columns are locals, since the checker takes no array straight from a field into a
    // literal.
    pub fn book(self) -> Book
        ensures { (result ≡ book_of self) × Sizes result }
    {
        let payloads = self.blocks.payloads;
        let places = self.messages.places;
        let offices = self.offices;
        Book {
            n: self.n,
            trust: self.trust,
            scheduled: self.scheduled,
            leaders: self.leaders.map(|q| q.0),
            epoch: self.epoch,
            last: self.blocks.last,
            parents: self.blocks.parents.map(|b| b.0),
            epochs: self.blocks.epochs.map(|e| e.0),
            payloads,
            count: self.messages.count,
            votes: self.messages.kinds.map(|kind| kind == Kind::Vote),
            signers: self.messages.signers.map(|q| q.0),
            about: self.messages.about.map(|b| b.0),
            places,
            acted: self.acted,
            offices,
        }
    }
}

// Every leader of the schedule is an office.
fn leaders_fit(leaders: &[u8; EPOCHS], scheduled: usize, n: u8) -> bool
    requires { scheduled ≤ most_epochs }
    ensures { result ≡ all scheduled (λ i. ltb (get_or leaders.now i 0) n) }
{
    all_pass(scheduled, |i| leaders[i] < n)
}

// Every block from 1 to the last fits.
fn blocks_fit(parents: &[u8; BLOCKS], epochs: &[u16; BLOCKS], last: u8) -> bool
    ensures { result ≡ all last
        (λ k. block_fits (k + 1) (get_or parents.now (k + 1) 0) (get_or epochs.now (k + 1) 0)) }
{
    all_pass(
        last as usize,
        |k| block_fits(k as u8 + 1, Block(parents[k + 1]), Epoch(epochs[k + 1])),
    )
}

// Every message sent fits.
fn messages_fit(
    signers: &[u8; MESSAGES],
    about: &[u8; MESSAGES],
    count: usize,
    n: u8,
    last: Block,
) -> bool
    requires { count ≤ most_messages }
    ensures { result ≡ all count
        (λ m. message_fits n last.0 (get_or signers.now m 0) (get_or about.now m 0)) }
{
    all_pass(
        count,
        |m| message_fits(n, last, Office(signers[m]), Block(about[m])),
    )
}

impl Book {
    // Every number in the tables is in its range, where the single numbers are.
    fn tables_fit(&self) -> bool
        requires { CountedBook self.now }
        ensures { result ≡ conj (tables_fit self.now) }
    {
        let n = self.n;
        let last = self.last;
        leaders_fit(&self.leaders, self.scheduled as usize, n)
            & blocks_fit(&self.parents, &self.epochs, last.0)
            & messages_fit(&self.signers, &self.about, self.count as usize, n, last)
            & offices_fit(&self.offices, n, self.trust, last)
    }

    // Every number of the book is in its range, as `Register::is_fit` says it of a register. The counts come first, so that no table is read past its
    // end. The book is lent, so that the test costs no copy of it.
    pub fn fits(&self) -> bool
        ensures { result ≡ fit self.now }
    {
        numbers_fit(self.n, self.scheduled, self.epoch, self.last, self.count) && self.tables_fit()
    }

    // The same of a book that is handed over.
    pub fn is_fit(self) -> bool
        ensures { result ≡ fit self }
    {
        self.fits()
    }
}
