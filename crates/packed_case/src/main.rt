// Writes logs, prints their bytes, reads them back and prints their items: an opening with no steps, and the worked case of the rules.
// Then it tries what the writer and the reader refuse.
#![tactic(auto)]

use packed_log::{Item, Wrote, read_item, read_opening, write_end, write_opening, write_step};
use register::{Block, Epoch, Kind, Message, Office, Step};
use std::io;

// Prints bytes in hexadecimal.
fn print_bytes(rt: &impl Print, bytes: &[u8]) -> io::Result<()> {
    for byte in bytes {
        print!(rt; "{byte:02X} ")?;
    }
    println!(rt;)
}

fn kind_word(kind: Kind) -> &'static str {
    match kind {
        Kind::Proposal => "proposal",
        Kind::Vote => "vote",
    }
}

// Prints a step by its word and its fields, in the order of the packed log. It is no Display: `Step` is another crate's, and a type around it is no
// plainer than this function.
fn print_step(rt: &impl Print, step: Step) -> io::Result<()> {
    match step {
        Step::Propose(Office(q), Block(p), w) => print!(rt; "propose {q} {p} {w}"),
        Step::Vote(Office(q), Message(m)) => print!(rt; "vote {q} {m}"),
        Step::Register(Office(q), Message(m)) => print!(rt; "register {q} {m}"),
        Step::Finalise(Office(q), Block(b)) => print!(rt; "finalise {q} {b}"),
        Step::Deliver(Message(m), Office(q)) => print!(rt; "deliver {m} {q}"),
        Step::BadSend(Office(q), kind, Office(s), Block(b)) => {
            print!(rt; "bad send {q} {} {s} {b}", kind_word(kind))
        }
        Step::Draft(Block(p), Epoch(e), w) => print!(rt; "draft {p} {e} {w}"),
        Step::Advance => print!(rt; "advance"),
    }
}

// Prints the item at a position and gives the position behind it.
fn print_item(rt: &impl Print, log: &[u8], at: usize) -> io::Result<usize> {
    let read = read_item(log, at);
    print!(rt; "{at}: ")?;
    match read.item {
        Item::Step(step) => print_step(rt, step)?,
        Item::End => print!(rt; "end")?,
        Item::Refused(number) => print!(rt; "refused {number}")?,
    }
    println!(rt; ", then {}", read.next)?;
    Ok(read.next)
}

// Prints a log's bytes, its opening and so many of its items.
fn print_log(rt: &impl Print, log: &[u8], items: usize) -> io::Result<()> {
    print_bytes(rt, log)?;
    let opening = read_opening(log);
    let register = &opening.register;
    print!(rt; "opening {}, offices {}", opening.refusal, register.n)?;
    println!(rt; ", epochs {}, then {}", register.scheduled, opening.next)?;
    let mut at = opening.next;
    for _ in 0..items {
        at = print_item(rt, log, at)?;
    }
    Ok(())
}

// The steps of the worked case.
const CASE: [Step; 19] = [
    Step::Propose(Office(0), Block(0), 7),
    Step::Deliver(Message(0), Office(1)),
    Step::Vote(Office(1), Message(0)),
    Step::Finalise(Office(1), Block(1)),
    Step::Advance,
    // the second epoch
    Step::Propose(Office(0), Block(1), 8),
    Step::Register(Office(0), Message(1)),
    Step::Deliver(Message(1), Office(0)),
    Step::Register(Office(0), Message(1)),
    // the second proposal, which is not refused, and its votes
    Step::Propose(Office(0), Block(1), 8),
    Step::Deliver(Message(2), Office(1)),
    Step::Vote(Office(1), Message(2)),
    Step::Deliver(Message(3), Office(0)),
    Step::Register(Office(0), Message(3)),
    Step::Advance,
    // the third epoch
    Step::Propose(Office(0), Block(2), 9),
    Step::Deliver(Message(4), Office(1)),
    Step::Vote(Office(1), Message(4)),
    Step::Finalise(Office(1), Block(3)),
];

// Writes the worked case from a position on, and gives the position behind it.
fn write_case(buf: &mut [u8], from: usize) -> usize {
    let mut at = from;
    for step in CASE {
        at = write_step(buf, at, step).next;
    }
    at
}

// Prints what the writer gave.
fn print_wrote(rt: &impl Print, name: &str, wrote: Wrote) -> io::Result<()> {
    println!(rt; "{name}: refused {}, then {}", wrote.refusal, wrote.next)
}

// Tries openings that the writer refuses.
fn print_refused_openings(rt: &impl Print, buf: &mut [u8; 4]) -> io::Result<()> {
    let cases: [(&str, u8, u32, &[u8]); 5] = [
        ("no offices", 0, 0, b"\x00"),
        ("no epochs", 1, 1, b""),
        ("stray leader", 1, 1, b"\x01"),
        ("a third untrusted", 3, 3, b"\x00"),
        ("no room for an opening", 1, 1, b"\x00\x00\x00"),
    ];
    for (name, n, trust, schedule) in cases {
        print_wrote(rt, name, write_opening(buf, 3, n, trust, schedule))?;
    }
    Ok(())
}

// Tries steps that the writer refuses, and an end, and shows that the buffer is as it was.
fn print_refused_steps(rt: &impl Print, buf: &mut [u8; 4]) -> io::Result<()> {
    let cases = [
        ("office 32", 3, Step::Vote(Office(32), Message(0))),
        (
            "message 1024, no room",
            30,
            Step::Deliver(Message(1024), Office(0)),
        ),
        ("epoch 512", 3, Step::Draft(Block(0), Epoch(512), 0)),
        ("no room for a step", 3, Step::Draft(Block(0), Epoch(0), 0)),
    ];
    for (name, at, step) in cases {
        print_wrote(rt, name, write_step(buf, at, step))?;
    }
    print_wrote(rt, "no room for the end", write_end(buf, 29))?;
    print_bytes(rt, buf)
}

// Writes an end and a step before it; reads the step, then at a position with too few bits left and at one past the log.
fn print_read_back(rt: &impl Print, buf: &mut [u8; 4]) -> io::Result<()> {
    print_wrote(rt, "room for the end", write_end(buf, 27))?;
    let step = Step::BadSend(Office(1), Kind::Vote, Office(2), Block(3));
    print_wrote(rt, "room for a bad send", write_step(buf, 3, step))?;
    print_bytes(rt, buf)?;
    for at in [3, 29, usize::MAX] {
        print_item(rt, buf, at)?;
    }
    Ok(())
}

// Prints the log that ends at a position of the buffer.
fn print_written(rt: &impl Print, buf: &[u8], end: usize, items: usize) -> io::Result<()> {
    match buf.get(..end / 8) {
        Some(log) => print_log(rt, log, items),
        None => Ok(()),
    }
}

fn main(rt: HostRuntime) -> io::Result<()> {
    let rt = &rt;
    let mut buf = [0xFFu8; 64];
    let at = write_opening(&mut buf, 0, 3, 7, b"\x00\x00\x00").next;
    let end = write_end(&mut buf, at).next;
    print_written(rt, &buf, end, 1)?;
    let at = write_case(&mut buf, at);
    let end = write_end(&mut buf, at).next;
    print_written(rt, &buf, end, 20)?;
    let mut small = [0xA5u8; 4];
    print_refused_openings(rt, &mut small)?;
    print_refused_steps(rt, &mut small)?;
    print_read_back(rt, &mut small)?;
    print_log(rt, b"", 1)
}
