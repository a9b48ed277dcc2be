use crate::limits::{BATCH, EPOCHS, OFFICES};
pub use tables::Header;
use tables::{Block, Blocks, Epoch, Kind, Messages, Office};

// What a message says.
#[derive(Clone, Copy, PartialEq, Eq, Debug)]
pub struct Content {
    pub kind: Kind,
    pub signer: Office,
    pub about: Block,
}

// What one office holds beside its view and its mark: its final block.
#[derive(Clone, Copy, PartialEq, Eq, Debug)]
pub struct OfficeState {
    pub finalised: Block,
}

// The register that the offices share. Any values make a register that each call takes, so it has no invariant. Its tables are arrays with a count beside
// them: there is no heap. It has no equality, since no rule compares two.
#[derive(Clone, Copy)]
pub struct Register {
    // how many offices there are
    pub n: u8,
    // the trusted offices: bit q for office q
    pub trust: u32,
    // how many epochs the schedule has
    pub scheduled: u16,
    // the leader of epoch e stands at e - 1
    pub leaders: [Office; EPOCHS],
    // the current epoch
    pub epoch: Epoch,
    // the blocks that were made
    pub blocks: Blocks,
    // the messages that were sent
    pub messages: Messages,
    // the offices that have acted in this epoch: bit q for office q
    pub acted: u32,
    // what each office holds, at its number
    pub offices: [OfficeState; OFFICES],
}

// What opening gives: the fresh register and 0, or a register without offices and the refusal. The refusal is a number here and in the next three by a rule
// of the project: makers are given the document's numbers, 0 for none, and a value in each case. None of the four is compared.
#[derive(Clone, Copy)]
pub struct Opened {
    pub register: Register,
    pub refusal: u8,
}

// What a step gives: the register after it, 0 or the refusal, and the value.
#[derive(Clone, Copy)]
pub struct Stepped {
    pub register: Register,
    pub refusal: u8,
    pub value: u16,
}

// What a batch of steps gives: the register after them, and the refusal and the value of each at its place, in two columns, of which `ran` of the specs
// speaks by these names.
#[derive(Clone, Copy)]
pub struct Ran {
    pub register: Register,
    pub refusals: [u8; BATCH],
    pub values: [u16; BATCH],
}

// What a batch of steps answers, where the register is changed in place: the refusal and the value of each step at its place. It is `Ran` without the
// register: a stack with little room is not to hold a second one.
#[derive(Clone, Copy)]
pub struct Answers {
    pub refusals: [u8; BATCH],
    pub values: [u16; BATCH],
}

// What the notarised test tells of a block in an office's view: whether it is notarised there, and how many different offices signed it.
// It is makers' own type beside `SignerCount` of `quorum`: see there.
#[derive(Clone, Copy, PartialEq, Eq, Debug)]
pub struct Notarised {
    pub holds: bool,
    pub signers: u8,
}
