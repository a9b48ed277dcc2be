// The four sorts of number, of which none passes for another, the kinds of message, and the stages that a message goes through.
ghost use Rattle.std.specs.Prelude.{◌≡◌};
ghost use Rattle.tables.specs.Blocks.{trusted_in};

// An office, from 0 up.
#[derive(Clone, Copy, Debug, PartialEq, Eq)]
pub struct Office(pub u8);

// An epoch, from 1 up; genesis has epoch 0.
#[derive(Clone, Copy, Debug, PartialEq, Eq)]
pub struct Epoch(pub u16);

// A block; block 0 is genesis.
#[derive(Clone, Copy, Debug, PartialEq, Eq)]
pub struct Block(pub u8);

// A message, numbered as sent, from 0 up.
#[derive(Clone, Copy, Debug, PartialEq, Eq)]
pub struct Message(pub u16);

#[derive(Clone, Copy, Debug, PartialEq, Eq)]
pub enum Kind {
    Proposal,
    Vote,
}

// Where a message is for an office.
#[derive(Clone, Copy, Debug, PartialEq, Eq)]
pub enum Stage {
    Absent = 0,
    Transit,
    Inbox,
    View,
}

// The office is one of n, and its bit in the trust word is 1.
pub fn is_trusted(n: u8, trust: u32, office: Office) -> bool
    ensures { result ≡ trusted_in n trust office.0 }
{
    (office.0 < n) & words::has(trust, office.0)
}
