// Text written into a lent buffer from a position on, and the position behind it. A byte past the buffer's end is dropped, and the position
// is counted on all the same. Buffer and position stay two: a contract of a struct of both would still name each before and after, as `TextWritten` does, once
// for each text. A text is bytes, as the buffer is, and a refusal the number that the line has. A bound on the position keeps it from running over; it is
// another for each length of text.
ghost use Rattle.std.specs.Prelude.{◌≡◌, ◌+◌, ◌^◌, ◌≤◌, ◌<◌, ◌∷◌, [], length, set};
ghost use Rattle.report.specs.Text.{TextWritten, decimal, number_then, numbers, step_line, office_line, step_bytes, office_bytes, log_line, empty_line};

// Writes one byte.
fn put(report: &mut [u8], at: usize, byte: u8) -> usize
    requires { at + 1 < 2 ^ 64 }
    ensures { TextWritten report.old at (byte ∷ []) result report.new }
{
    if at < report.len() {
        report[at] = byte;
    }
    at + 1
}

// Writes a word.
fn write_word(report: &mut [u8], at: usize, word: &[u8]) -> usize
    requires { at + length word.now < 2 ^ 64 }
    ensures { TextWritten report.old at word.now result report.new }
{
    let mut next = at;
    for byte in word {
        next = put(report, next, *byte);
    }
    next
}

// How many digits a number has.
fn digits_of(n: usize) -> usize
    ensures { (result ≡ length (decimal n)) × (result ≤ 20) }
{
    if n == 0 {
        return 1;
    }
    n.ilog10() as usize + 1
}

// Puts one digit at its place.
fn put_digit(report: &mut [u8], at: usize, digit: usize)
    requires { (at + 1 < 2 ^ 64) × (digit < 10) }
    ensures { report.new ≡ set report.old at (48 + digit) }
{
    put(report, at, b'0' + digit as u8);
}

// Writes a number, from its last digit to its first.
fn write_decimal(report: &mut [u8], at: usize, n: usize) -> usize
    requires { at + 20 < 2 ^ 64 }
    ensures { TextWritten report.old at (decimal n) result report.new × (result ≤ at + 20) }
{
    let next = at + digits_of(n);
    let mut place = next;
    let mut rest = n;
    while rest >= 10 {
        place -= 1;
        put_digit(report, place, rest % 10);
        rest = rest / 10;
    }
    put_digit(report, at, rest);
    next
}

// Writes a number and one byte behind it.
fn write_number(report: &mut [u8], at: usize, n: usize, behind: u8) -> usize
    requires { at + 21 < 2 ^ 64 }
    ensures { TextWritten report.old at (number_then n behind) result report.new × (result ≤ at + 21) }
{
    let next = write_decimal(report, at, n);
    put(report, next, behind)
}

// Writes three numbers and the line's end.
fn write_three(report: &mut [u8], at: usize, first: usize, second: usize, third: usize) -> usize
    requires { at + 63 < 2 ^ 64 }
    ensures { TextWritten report.old at (numbers first (second ∷ third ∷ [])) result report.new }
{
    let after_first = write_number(report, at, first, b' ');
    let after_second = write_number(report, after_first, second, b' ');
    write_number(report, after_second, third, b'\n')
}

// Writes the line of a step: its place, its refusal, its value.
pub(crate) fn write_step_line(
    report: &mut [u8],
    at: usize,
    place: usize,
    refusal: u8,
    value: u16,
) -> usize
    requires { (at ≤ 2 ^ 32) × (place ≤ 131072) }
    ensures { TextWritten report.old at (step_line place refusal value) result report.new × (result ≤ at + step_bytes) }
{
    write_three(report, at, place, refusal as usize, value as usize)
}

// Writes the line of an office: its number, its final block, the length of its chain, how many signed it.
pub(crate) fn write_office_line(
    report: &mut [u8],
    at: usize,
    office: u8,
    last: u8,
    size: u8,
    signers: u8,
) -> usize
    requires { (at ≤ 2 ^ 32) × (office < 32) }
    ensures { TextWritten report.old at (office_line office last size signers) result report.new × (result ≤ at + office_bytes) }
{
    let after_word = write_word(report, at, b"office ");
    let after_office = write_number(report, after_word, office as usize, b' ');
    write_three(
        report,
        after_office,
        last as usize,
        size as usize,
        signers as usize,
    )
}

// Writes the line of a refused log: the number of the refusal.
pub(crate) fn write_log_line(report: &mut [u8], at: usize, number: u8) -> usize
    requires { at ≤ 2 ^ 32 }
    ensures { TextWritten report.old at (log_line number) result report.new × (result ≤ at + 25) }
{
    let next = write_word(report, at, b"log ");
    write_number(report, next, number as usize, b'\n')
}

// Writes the line of a log of no bytes.
pub(crate) fn write_empty_line(report: &mut [u8], at: usize) -> usize
    requires { at ≤ 2 ^ 32 }
    ensures { TextWritten report.old at empty_line result report.new × (result ≤ at + 6) }
{
    write_word(report, at, b"empty\n")
}
