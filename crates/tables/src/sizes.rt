// The sizes of the columns. They are those of the arrays; but a proof that has a table behind a reference, inside another value, learns them only by a
// call. These calls do nothing.
ghost use Rattle.std.specs.Prelude.{◌≡◌, length};
ghost use Rattle.tables.specs.Searches.{blocks, messages};

use crate::{Blocks, Messages};

impl Blocks {
    // Each column has an entry for each block.
    pub fn know_sizes(&self)
        ensures { (length self.now.parents ≡ blocks)
            × (length self.now.epochs ≡ blocks) }
    {}
}

impl Messages {
    // Each column has an entry for each message.
    pub fn know_sizes(&self)
        ensures { (length self.now.signers ≡ messages)
            × (length self.now.about ≡ messages)
            × (length self.now.places ≡ messages) }
    {}
}
