// Checks a log, from the file that its argument names or from standard input, and prints the report.
#![tactic(auto)]

mod input;
mod output;

ghost use Rattle.std.specs.Prelude.{◌≡◌, ◌≤◌, ◌<◌, length, take, replicate};
ghost use Rattle.report.specs.Reports.{report_of, longest_report, given_length, buffer_after};

use input::{asks_for_usage, read_input};
use output::{complain, complain_of_usage, print_report, print_usage};
use report::{LONGEST_REPORT, check};
use std::env::{Env, FillError};
use std::fs::File;
use std::io::Read;

// One byte more than a log may have: enough for a long log to be refused as such.
const LOG_ROOM: usize = 65537;

// As many bytes as the longest report can have.
const REPORT_ROOM: usize = LONGEST_REPORT;

// As many bytes as a file's name may have for the program to take it.
const NAME_ROOM: usize = 4096;

// Room for a log, all zero. Each room has a function, whose contract names its size, so that a room too small is refused there; a generic one would have the
// size from its caller.
fn log_buffer() -> [u8; LOG_ROOM]
    ensures { result ≡ replicate 65537 0 }
{
    [0; LOG_ROOM]
}

// Room for a report, all zero.
fn report_buffer() -> [u8; REPORT_ROOM]
    ensures { result ≡ replicate longest_report 0 }
{
    [0; REPORT_ROOM]
}

// Checks the first bytes of a buffer that has room for more than a log may have. The report fits, and it is what stands in front in its buffer then.
fn check_first(log: &[u8], size: usize, report: &mut [u8]) -> usize
    requires { (size ≤ length log.now) × (65536 < length log.now) × (longest_report ≤ length report.old) }
    ensures { (result ≡ given_length (take size log.now) report.old)
        × (report.new ≡ buffer_after (take size log.now) report.old)
        × (take result report.new ≡ report_of (take size log.now))
        × (result ≤ length report.new) }
{
    check(&log[..size], report)
}

// Checks the log in an open file and prints its report. Names are bytes here and below, as an argument is: it need not be UTF-8, and is printed as it is. A
// file that can't be read gives no report, but a sentence that names it.
fn check_open(rt: &HostRuntime, file: &mut impl Read, name: &[u8]) {
    let mut log = log_buffer();
    let mut report = report_buffer();
    match read_input(file, &mut log) {
        Ok(size) => {
            let length = check_first(&log, size, &mut report);
            print_report(rt, &report, length);
        }
        Err(_) => complain(rt, name, b" can't be read\n"),
    }
}

// Opens the file of that name, if it can be. A name that is no UTF-8 names no file that can be opened here.
fn open_named(rt: &HostRuntime, name: &[u8]) -> Option<File> {
    let path = str::from_utf8(name).ok()?;
    File::open(rt, path).ok()
}

// Checks the log in the file of that name.
fn check_named(rt: &HostRuntime, name: &[u8]) {
    match open_named(rt, name) {
        Some(mut file) => check_open(rt, &mut file, name),
        None => complain(rt, name, b" can't be opened\n"),
    }
}

// Does what an argument asks for: the line of use, or the check of the file that it names.
fn do_as_asked(rt: &HostRuntime, argument: &[u8]) {
    if asks_for_usage(argument) {
        print_usage(rt);
    } else {
        check_named(rt, argument);
    }
}

// Takes the one argument, if it is one that names something.
fn take_argument(rt: &HostRuntime) {
    let mut room = [0; NAME_ROOM];
    match rt.arg(1, &mut room) {
        Ok(0) => complain(rt, b"the file's name", b" is empty\n"),
        Ok(length) => do_as_asked(rt, &room[..length]),
        Err(_) => complain(rt, b"the file's name", b" is too long\n"),
    }
}

// Whether the program was given an argument at that place, behind its own name. One that is longer than the room for it here is given too.
fn is_given(rt: &HostRuntime, place: usize) -> bool {
    let mut room = [0; 1];
    !matches!(rt.arg(place, &mut room), Err(FillError::NotPresent))
}

// With no argument the log is on standard input; one argument is taken, and more are too many.
fn main(rt: HostRuntime) {
    if is_given(&rt, 2) {
        complain_of_usage(&rt);
    } else if is_given(&rt, 1) {
        take_argument(&rt);
    } else {
        check_open(&rt, &mut rt.stdin(), b"standard input");
    }
}
