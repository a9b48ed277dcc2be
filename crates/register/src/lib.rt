// The shared register of plots: the offices' numbers, the register, its opening and the steps that change it.
#![tactic(auto)]

mod actor;
mod book;
mod change;
mod entries;
mod fitness;
pub mod limits;
pub mod opening;
mod read;
pub mod refusal;
pub mod run;
pub mod sorts;
pub mod step;
mod steps;
pub mod table;

pub use book::Book;
pub use sorts::{Block, Epoch, Kind, Message, Office, Stage};
pub use step::Step;
pub use steps::are_consecutive;
pub use table::{Answers, Content, Notarised, OfficeState, Opened, Ran, Register, Stepped};
pub use tables::{Blocks, Header, Messages};
