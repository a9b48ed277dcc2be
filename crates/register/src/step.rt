use crate::sorts::{Block, Epoch, Kind, Message, Office};

// A step, with its fields in the order of the packed log.
#[derive(Clone, Copy, PartialEq, Eq, Debug)]
pub enum Step {
    // office, parent, payload
    Propose(Office, Block, u16),
    // office, message
    Vote(Office, Message),
    // office, message
    Register(Office, Message),
    // office, block
    Finalise(Office, Block),
    // message, office
    Deliver(Message, Office),
    // sender, kind, signer, block
    BadSend(Office, Kind, Office, Block),
    // parent, epoch, payload
    Draft(Block, Epoch, u16),
    Advance,
}
