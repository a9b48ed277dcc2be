// Words with one digit per office: a set of offices in base 2, the stages of a message in base 4; and the test of a range.
// No function asks anything of its caller: an office past the last digit of a word reads as 0, and setting it leaves the word as it is.
// The functions of a set and those of a row of stages stay two of each: a word of 32 bits and one of 64 differ in type, base and width, and a digit is set
// by `|` in the one and by a sum in the other; a generic function would need a trait with all of these for its two types.
#![tactic(auto)]

ghost use Rattle.std.specs.Prelude.{◌≡◌, ◌%◌, ◌^◌, min, eqb};
ghost use Rattle.words.specs.Tests.{between};
ghost use Rattle.words.specs.Digits.{digit, fill, in_set, with_member, within, with_stage};
ghost use Rattle.words.specs.Sums.{tally};

// The digit of office q in a set: 1 where it is in, else 0.
pub fn bit(set: u32, q: u8) -> u32
    ensures { result ≡ digit 2 set q }
{
    if q >= 32 {
        return 0;
    }
    (set >> q) % 2
}

// Office q is in the set.
pub fn has(set: u32, q: u8) -> bool
    ensures { result ≡ in_set set q }
{
    bit(set, q) == 1
}

// The stage of office q, as a digit: the enum of the stages is of `tables`, which stands above this crate.
pub fn stage(word: u64, q: u8) -> u8
    ensures { result ≡ digit 4 word q }
{
    if q >= 32 {
        return 0;
    }
    ((word >> (2 * q)) % 4) as u8
}

// Office q is at stage 3, the last. Both bits of the digit are looked at in place, which costs less than to move it down.
pub fn is_last_stage(word: u64, q: u8) -> bool
    ensures { result ≡ eqb (digit 4 word q) 3 }
{
    if q >= 32 {
        return false;
    }
    let last = 3 << (2 * q);
    word & last == last
}

// The set of office q alone; empty where a set has no such digit.
fn only_bit(q: u8) -> u32
    ensures { result ≡ 2 ^ q % 2 ^ 32 }
{
    if q >= 32 {
        return 0;
    }
    1 << q
}

// The word in which office q alone is at stage 1; 0 where a word has no such digit.
fn only_stage(q: u8) -> u64
    ensures { result ≡ 4 ^ q % 2 ^ 64 }
{
    if q >= 32 {
        return 0;
    }
    1 << (2 * q)
}

// The set with office q in it; where a set has no such digit, the set as it is.
pub fn with_member(set: u32, q: u8) -> u32
    ensures { result ≡ with_member set q }
{
    set | only_bit(q)
}

// Every office of the set is in the other set.
pub fn is_within(set: u32, other: u32) -> bool
    ensures { result ≡ within set other }
{
    set | other == other
}

// The word with that stage for office q; where a word has no such digit, the word as it is. It takes any number, as it always did: an enum would ask more.
pub fn with_stage(word: u64, q: u8, new: u8) -> u64
    ensures { result ≡ with_stage word q new }
{
    if q >= 32 {
        return word;
    }
    let unit = only_stage(q);
    let old = stage(word, q) as u64;
    word - old * unit + ((new % 4) as u64) * unit
}

// The offices of the set whose number is below n.
pub fn below(set: u32, n: u8) -> u32
    ensures { result ≡ fill 2 n (digit 2 set) }
{
    if n >= 32 {
        return set;
    }
    set % only_bit(n)
}

// How many offices of the set have a number below n.
pub fn members(set: u32, n: u8) -> u32
    ensures { result ≡ tally n (in_set set) }
{
    u32::count_ones(below(set, n))
}

// The word in which the offices of the set below n are at stage 1, and the others at 0.
pub fn spread(set: u32, n: u8) -> u64
    ensures { result ≡ fill 4 n (digit 2 set) }
{
    let mut word = 0;
    for q in 0..n.min(32) {
        word += (bit(set, q) as u64) * only_stage(q);
    }
    word
}

// low ≤ k ≤ high
pub fn between(low: usize, high: usize, k: usize) -> bool
    ensures { result ≡ between low high k }
{
    (low <= k) & (k <= high)
}
