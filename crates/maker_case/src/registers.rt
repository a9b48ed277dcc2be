// A register: opened, stepped and read.
use register::{Block, Kind, Message, Office, Register, Stage, Stepped};
use std::io;

// Three offices, all trusted, and three epochs led by office 0: it proposes a block on genesis, of payload 7.
pub fn first_step() -> Stepped {
    let opened = Register::open(3, 7, b"\x00\x00\x00");
    opened.register.propose(Office(0), Block(0), 7)
}

// A message waits in an office's inbox.
pub fn waits_for(register: &Register, office: Office, m: Message) -> bool {
    matches!(register.stage(office, m), Stage::Inbox)
}

// Prints what a message says, and who leads its block's epoch.
pub fn print_message(rt: &impl Print, register: &Register, m: Message) -> io::Result<()> {
    let content = register.content(m);
    let kind = match content.kind {
        Kind::Proposal => "proposal",
        Kind::Vote => "vote",
    };
    println!(rt; "{kind} of office {}", content.signer.0)?;
    let header = register.header(content.about);
    println!(rt; "leader {}", register.leader(header.epoch).0)
}

// Prints what a block is made of, and what an office sees of it.
pub fn print_block(
    rt: &impl Print,
    register: &Register,
    office: Office,
    b: Block,
) -> io::Result<()> {
    let header = register.header(b);
    println!(rt; "parent {}", header.parent.0)?;
    println!(rt; "epoch {}", header.epoch.0)?;
    println!(rt; "payload {}", header.payload)?;
    let told = register.notarised(office, b);
    println!(rt; "signers {}", told.signers)?;
    println!(rt; "notarised {}", told.holds as u8)?;
    println!(rt; "longest {}", register.is_longest(office, b) as u8)
}
