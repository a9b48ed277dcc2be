// Reads whole logs through a reader, item by item, and prints how many steps each has: `count_steps` is there to copy from.
#![tactic(auto)]

ghost use Rattle.std.specs.Prelude.{◌≡◌};
ghost use Rattle.reader_case.specs.Counts.{count_of};

use packed_log::{Item, Reader};
use std::{fmt, io};

// How many steps have been read, and the number of the refusal that the reading ended with, if it did.
#[derive(Drop)]
struct Count {
    steps: usize,
    refusal: Option<u8>,
}

// Reads a whole log through a reader: how many steps it has, and the number that it is refused with, if it is.
fn count_steps(log: &[u8]) -> Count
    ensures { result ≡ count_of log.now }
{
    let mut reader = Reader::new(log);
    let opening = reader.open();
    if opening.refusal != 0 {
        return Count {
            steps: 0,
            refusal: Some(opening.refusal),
        };
    }
    let mut steps = 0;
    let refusal = loop {
        match reader.next() {
            Item::Step(_) => steps += 1,
            Item::End => break None,
            Item::Refused(number) => break Some(number),
        }
    };
    Count { steps, refusal }
}

// A count is printed with 0 where nothing is refused.
impl fmt::Display for Count {
    fn fmt<W: fmt::Write>(&self, f: &mut fmt::Formatter<W>) -> fmt::Result {
        let refusal = self.refusal.unwrap_or(0);
        write!(f, "steps {}, refused {refusal}", self.steps)
    }
}

fn main(rt: HostRuntime) -> io::Result<()> {
    let cases: [(&str, &[u8]); 7] = [
        ("no bytes", b""),
        ("no offices", b"\x00\x00"),
        ("no steps", b"\x0F\x80\xC0\x00\x00"),
        ("three steps", b"\x0F\x80\xC0\x00\x44\x40\x00"),
        ("no end", b"\x0F\x80\xC0\x00\x44\x40"),
        ("pad bit set", b"\x0F\x80\xC0\x00\x44\x40\x01"),
        ("no such step", b"\x0F\x80\xC0\x00\x44\x78"),
    ];
    for (name, log) in cases {
        println!(rt; "{name}: {}", count_steps(log))?;
    }
    Ok(())
}
