// Runs the worked case of the rules through the step methods and prints its report, and who and how many signed its blocks in whose view; then
// tries registers that are unfit in one way each, and an opening with trust bits from n up.
#![tactic(auto)]

use register::{Block, Epoch, Message, Office, OfficeState, Register, Stepped};
use std::io;

// Prints a step's line, its place, refusal and value, and hands the register on.
fn line(rt: &impl Print, place: u64, stepped: Stepped) -> io::Result<Register> {
    println!(rt; "{place} {} {}", stepped.refusal, stepped.value)?;
    Ok(stepped.register)
}

// Each step is a call of its own method, and no row of a table for `Register::step`: this program is there to run the methods.
fn first_epoch(rt: &impl Print, register: Register) -> io::Result<Register> {
    let r = line(rt, 1, register.propose(Office(0), Block(0), 7))?;
    let r = line(rt, 2, r.deliver(Message(0), Office(1)))?;
    let r = line(rt, 3, r.vote(Office(1), Message(0)))?;
    let r = line(rt, 4, r.finalise(Office(1), Block(1)))?;
    line(rt, 5, r.advance())
}

fn second_epoch(rt: &impl Print, register: Register) -> io::Result<Register> {
    let r = line(rt, 6, register.propose(Office(0), Block(1), 8))?;
    let r = line(rt, 7, r.register(Office(0), Message(1)))?;
    let r = line(rt, 8, r.deliver(Message(1), Office(0)))?;
    let r = line(rt, 9, r.register(Office(0), Message(1)))?;
    let r = line(rt, 10, r.propose(Office(0), Block(1), 8))?;
    let r = line(rt, 11, r.deliver(Message(2), Office(1)))?;
    let r = line(rt, 12, r.vote(Office(1), Message(2)))?;
    let r = line(rt, 13, r.deliver(Message(3), Office(0)))?;
    let r = line(rt, 14, r.register(Office(0), Message(3)))?;
    line(rt, 15, r.advance())
}

fn third_epoch(rt: &impl Print, register: Register) -> io::Result<Register> {
    let r = line(rt, 16, register.propose(Office(0), Block(2), 9))?;
    let r = line(rt, 17, r.deliver(Message(4), Office(1)))?;
    let r = line(rt, 18, r.vote(Office(1), Message(4)))?;
    line(rt, 19, r.finalise(Office(1), Block(3)))
}

// Prints each office's line: its number, its final block, the length of that block's chain, and how many signed it in the office's view.
fn office_lines(rt: &impl Print, register: &Register) -> io::Result<()> {
    for q in 0..register.n {
        let last = register.final_block(Office(q));
        let length = register.chain_length(last);
        let signers = register.notarised(Office(q), last).signers;
        println!(rt; "office {q} {} {length} {signers}", last.0)?;
    }
    Ok(())
}

// Prints the word of the signers of a block in an office's view, how many they are as the notarised test tells it, and its yes or no.
fn signers_line(rt: &impl Print, register: &Register, q: u8, b: u8) -> io::Result<()> {
    let word = register.signer_set(Office(q), Block(b));
    let told = register.notarised(Office(q), Block(b));
    let verdict = if told.holds { "notarised" } else { "too few" };
    println!(rt; "signers {q} {b} {word} {} {verdict}", told.signers)
}

// Whoever signed block 3, by the proposal of office 0 and the vote of office 1: office 0 has its own proposal, office 1 both. Of genesis, of a
// block past the last, and in the view of an office that has nothing or is none, there is nobody; yet genesis counts as signed by all.
fn signers_of_the_case(rt: &impl Print, register: &Register) -> io::Result<()> {
    for (q, b) in [(0, 3), (1, 3), (1, 0), (1, 4), (2, 3), (3, 3)] {
        signers_line(rt, register, q, b)?;
    }
    Ok(())
}

// A register that is not fit: message 0 is about block 1, in the view of office 0, and signed by an office past the last one; then of 32 offices
// the last has signed, and the count says more messages than there are; then office 0 is no longer trusted. Then there is one office, which signed,
// and then there are more offices than there can be.
fn signers_by_hand(rt: &impl Print, fresh: &Register) -> io::Result<()> {
    let mut r = *fresh;
    r.messages.count = 1;
    r.messages.about[0] = Block(1);
    r.messages.signers[0] = Office(31);
    r.messages.places[0] = 3;
    signers_line(rt, &r, 0, 1)?;
    r.n = 32;
    r.messages.count = 2000;
    signers_line(rt, &r, 0, 1)?;
    r.trust = 6;
    signers_line(rt, &r, 0, 1)?;
    r.n = 1;
    r.trust = 1;
    r.messages.signers[0] = Office(0);
    signers_line(rt, &r, 0, 1)?;
    r.n = 255;
    signers_line(rt, &r, 0, 1)?;
    signers_line(rt, &r, 0, 0)
}

// Prints what an advance of that register is refused with.
fn unfit(rt: &impl Print, name: &str, register: &Register) -> io::Result<()> {
    println!(rt; "{name} {}", register.advance().refusal)
}

// The fresh register with one single number out of its range.
fn unfit_counts(rt: &impl Print, fresh: &Register) -> io::Result<()> {
    unfit(rt, "no offices", &Register { n: 0, ..*fresh })?;
    unfit(rt, "33 offices", &Register { n: 33, ..*fresh })?;
    let r = Register {
        scheduled: 0,
        ..*fresh
    };
    unfit(rt, "no epochs", &r)?;
    let r = Register {
        scheduled: 257,
        ..*fresh
    };
    unfit(rt, "257 epochs", &r)?;
    let r = Register {
        epoch: Epoch(0),
        ..*fresh
    };
    unfit(rt, "epoch 0", &r)?;
    let r = Register {
        epoch: Epoch(4),
        ..*fresh
    };
    unfit(rt, "epoch past the schedule", &r)
}

fn unfit_tables(rt: &impl Print, fresh: &Register) -> io::Result<()> {
    let mut r = *fresh;
    r.leaders[2] = Office(3);
    unfit(rt, "leader past the offices", &r)?;
    r.leaders[2] = Office(0);
    r.blocks.last = Block(1);
    r.blocks.parents[1] = Block(1);
    unfit(rt, "parent not smaller", &r)?;
    r.blocks.parents[1] = Block(0);
    r.blocks.epochs[1] = Epoch(512);
    unfit(rt, "block of epoch 512", &r)?;
    r.blocks.epochs[1] = Epoch(1);
    r.offices[2] = OfficeState {
        finalised: Block(2),
    };
    unfit(rt, "final block past the last", &r)
}

fn unfit_messages(rt: &impl Print, fresh: &Register) -> io::Result<()> {
    let mut r = *fresh;
    r.messages.count = 1;
    unfit(rt, "message on genesis", &r)?;
    r.messages.about[0] = Block(1);
    unfit(rt, "message past the last block", &r)?;
    r.blocks.last = Block(1);
    r.blocks.epochs[1] = Epoch(1);
    r.messages.signers[0] = Office(3);
    unfit(rt, "signer past the offices", &r)?;
    r.messages.signers[0] = Office(2);
    unfit(rt, "all in range", &r)?;
    r.messages.count = 1025;
    unfit(rt, "1025 messages", &r)
}

// Prints the trust word that an opening of three offices stores of the given one.
fn trust_line(rt: &impl Print, trust: u32) -> io::Result<()> {
    let opened = Register::open(3, trust, b"\x00");
    println!(rt; "trust {}", opened.register.trust)
}

fn main(rt: HostRuntime) -> io::Result<()> {
    let rt = &rt;
    let fresh = Register::open(3, 7, b"\x00\x00\x00").register;
    let r = first_epoch(rt, fresh)?;
    let r = second_epoch(rt, r)?;
    let r = third_epoch(rt, r)?;
    office_lines(rt, &r)?;
    signers_of_the_case(rt, &r)?;
    signers_by_hand(rt, &fresh)?;
    unfit_counts(rt, &fresh)?;
    unfit_tables(rt, &fresh)?;
    unfit_messages(rt, &fresh)?;
    trust_line(rt, 0xFFFF_FFFF)
}
