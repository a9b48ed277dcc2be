// The register's blocks and messages, in columns, and what these say: of one office, block or message, of an office's view, and of chains. No
// function here knows the register. A count of more than 1,024 messages or 32 offices counts as that.
#![tactic(auto)]

mod blocks;
mod chain;
mod chunk;
mod limits;
mod messages;
mod scan;
mod sizes;
mod sorts;
mod view;

pub use blocks::{Blocks, Header};
pub use chain::{is_longest, is_notarised_above};
pub use messages::Messages;
pub use sorts::{Block, Epoch, Kind, Message, Office, Stage, is_trusted};
pub use view::View;
