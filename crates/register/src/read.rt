// What a register holds, for whoever reads it. An office and a block are two parameters, the numbers that makers have.
ghost use Rattle.std.specs.Prelude.{◌≡◌};
ghost use Rattle.words.specs.Tests.{both};
ghost use Rattle.tables.specs.Columns.{signers_of, about_of};
ghost use Rattle.tables.specs.Searches.{view_in};
ghost use Rattle.register.specs.Books.{block, book_of};
ghost use Rattle.register.specs.Tables.{trusted, final_for};
ghost use Rattle.register.specs.Views.{signer_set, notarised_test};
ghost use Rattle.register.specs.Chains.{longest, length_of};
ghost use Rattle.register.specs.Fitness.{fit};

use crate::limits::OFFICES;
use crate::table::{Notarised, Register};
use tables::{Block, Messages, Office, View};

// An office's view: the signers of each block. Of a count above the last entry of the columns those with an entry are all that can be in a view.
fn view_of(messages: &Messages, office: Office) -> View
    ensures { result ≡ view_in messages.now.places (signers_of messages.now) (about_of messages.now) messages.now.count office.0 }
{
    messages.know_sizes();
    messages.view(office)
}

impl Register {
    // The office is there and trusted.
    pub fn is_trusted(&self, office: Office) -> bool
        ensures { result ≡ trusted (book_of self.now) office.0 }
    {
        tables::is_trusted(self.n, self.trust, office)
    }

    // The final block of a trusted office; genesis for a number that is none.
    pub fn final_block(&self, office: Office) -> Block
        ensures { result ≡ block (final_for (book_of self.now) office.0) }
    {
        let q = office.0 as usize;
        if !self.is_trusted(office) {
            return Block(0);
        }
        if OFFICES <= q {
            return Block(0);
        }
        self.offices[q].finalised
    }

    // The length of a block's chain, genesis not counted; 0 for a number above the last block's.
    pub fn chain_length(&self, b: Block) -> u8
        ensures { result ≡ length_of (book_of self.now) b.0 }
    {
        if self.blocks.last.0 < b.0 {
            return 0;
        }
        self.blocks.chain_length(b)
    }

    // The signers of a block in an office's view: bit s is that of office s, and from n up no bit is set. The view of an office that is not
    // trusted is empty.
    pub fn signer_set(&self, office: Office, b: Block) -> u32
        ensures { result ≡ signer_set (book_of self.now) office.0 b.0 }
    {
        if !self.is_trusted(office) {
            return 0;
        }
        let view = view_of(&self.messages, office);
        words::below(view[b.0 as usize], self.n)
    }

    // The notarised test of a block in an office's view: whether it is notarised there, and how many different offices signed it, whether or not
    // they are enough. Genesis always is, and counts as signed by all n. A `From` of the count would be used here alone.
    pub fn notarised(&self, office: Office, b: Block) -> Notarised
        ensures { result ≡ notarised_test (book_of self.now) office.0 b.0 }
    {
        if b.0 == 0 {
            return Notarised {
                holds: true,
                signers: self.n,
            };
        }
        let count = quorum::count_signers(self.signer_set(office, b), self.n);
        Notarised {
            holds: count.enough,
            signers: count.signers,
        }
    }

    // The chain of a block is longest in an office's view: it is notarised there, and no notarised chain of that view is longer. In the view of an
    // office that is not trusted genesis alone is. Of a register that is not fit no chain is.
    pub fn is_longest(&self, office: Office, b: Block) -> bool
        ensures { result ≡ both (fit (book_of self.now)) (longest (book_of self.now) office.0 b.0) }
    {
        if !self.is_fit() {
            return false;
        }
        if !self.is_trusted(office) {
            return b.0 == 0;
        }
        let view = view_of(&self.messages, office);
        tables::is_longest(&view, &self.blocks, self.n, b)
    }
}
