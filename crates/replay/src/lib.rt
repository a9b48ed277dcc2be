// What a log reads as, and its run.
#![tactic(auto)]

pub mod body;
mod ending;

pub use ending::{Ended, run_log};
