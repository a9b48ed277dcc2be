// Slips, for whoever holds no office: a slip names a block and says who signed each block of its chain, and whoever has the register can check it.
#![tactic(auto)]

mod checking;
mod form;
pub mod refusal;
mod rows;
mod writing;

pub use checking::{Checked, check_slip};
pub use writing::{Written, write_slip};
