// The packed log: its bits, its items, and the reading and writing of both.
#![tactic(auto)]

mod bits;
mod field;
pub mod item;
pub mod opening;
mod opening_writing;
pub mod reader;
pub mod refusal;
mod row;
mod widths;
pub mod writing;

pub use field::{read_field, write_field};
pub use item::{Item, Read, Skip, read_item};
pub use opening::{Opening, read_opening};
pub use opening_writing::write_opening;
pub use reader::Reader;
pub use writing::{Wrote, write_end, write_step};
