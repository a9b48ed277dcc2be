// The limits that document 01 sets, and the sizes of the tables that follow from them.

// There are 1 to 32 offices.
pub const OFFICES: usize = 32;

// A schedule has 1 to 256 epochs.
pub const EPOCHS: usize = 256;

// Genesis, and blocks 1 to 255.
pub const BLOCKS: usize = 256;

pub(crate) const MOST_BLOCKS: u16 = 255;

// Messages 0 to 1,023 are sent.
pub const MESSAGES: usize = 1024;

pub(crate) const MOST_MESSAGES: u16 = 1024;

// A block's epoch is from 0 to 511.
pub(crate) const WIDEST_EPOCH: u16 = 511;

// So many steps make a batch.
pub const BATCH: usize = 256;
