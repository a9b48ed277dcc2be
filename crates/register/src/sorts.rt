// The four sorts of number, the kinds of message, and the stages that a message goes through, which the tables know already.
pub use tables::{Block, Epoch, Kind, Message, Office, Stage};
