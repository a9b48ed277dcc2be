// What README.md shows to makers in Rattle, run and printed: a register opened, stepped and read; a log written, read and run; its report; slips.
#![tactic(auto)]

mod logs;
mod registers;
mod slips;

use logs::{first_item, whole_check, write_log};
use packed_log::Item;
use register::{Block, Message, Office};
use registers::{first_step, print_block, print_message, waits_for};
use replay::run_log;
use slips::{check_deed, write_deed};
use std::io;

// The log of two steps has so many bytes.
const LOG_SIZE: usize = 12;

// A register: office 0 has proposed block 1. The proposal waits for office 1 once it is delivered, and not before.
fn show_register(rt: &impl Print) -> io::Result<()> {
    let stepped = first_step();
    println!(rt; "refusal {}", stepped.refusal)?;
    println!(rt; "message {}", stepped.value)?;
    let register = stepped.register;
    print_block(rt, &register, Office(0), Block(1))?;
    print_message(rt, &register, Message(0))?;
    let waits = waits_for(&register, Office(1), Message(0));
    println!(rt; "waits {}", waits as u8)?;
    let delivered = register.deliver(Message(0), Office(1));
    let waits = waits_for(&delivered.register, Office(1), Message(0));
    println!(rt; "waits {}", waits as u8)
}

// A log of the same two steps, which fills its buffer.
fn show_log(rt: &impl Print) -> io::Result<()> {
    let mut log = [0u8; LOG_SIZE];
    let wrote = write_log(&mut log);
    println!(rt; "refusal {}", wrote.refusal)?;
    println!(rt; "bits {}", wrote.next)?;
    let read = first_item(&log);
    match read.item {
        Item::Step(_) => println!(rt; "a step, then {}", read.next)?,
        Item::End => println!(rt; "the end, then {}", read.next)?,
        Item::Refused(number) => println!(rt; "refused {number}")?,
    }
    println!(rt; "messages {}", run_log(&log).register.messages.count)?;
    let mut report = [0u8; 1000];
    println!(rt; "report {}", whole_check(&log, &mut report))
}

// One office alone: its block of epoch 2 makes that of epoch 1 final, and a slip of two bytes says so.
fn show_slip(rt: &impl Print) -> io::Result<()> {
    let log = b"\x06\x02\x00\x04\x00\x00\x00\xF0\x20\x01\x00\x08\x00";
    let mut slip = [0u8; 2];
    let written = write_deed(log, Office(0), Block(2), &mut slip);
    println!(rt; "slip {}", written.length)?;
    let checked = check_deed(log, &slip);
    println!(rt; "refusal {}", checked.refusal)?;
    println!(rt; "final {}", checked.block.0)
}

fn main(rt: HostRuntime) -> io::Result<()> {
    show_register(&rt)?;
    show_log(&rt)?;
    show_slip(&rt)
}
