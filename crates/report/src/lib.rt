// The report of a log.
#![tactic(auto)]

mod checking;
mod lines;
mod run;
mod text;

pub use checking::{LONGEST_REPORT, check};
