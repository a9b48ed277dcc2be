// Which numbers of offices will do: signers that are enough, and openings that are not refused.
#![tactic(auto)]

ghost use Rattle.std.specs.Prelude.{◌≡◌};
ghost use Rattle.refusals.specs.Numbers.{outcome};
ghost use Rattle.words.specs.Sums.{tally};
ghost use Rattle.words.specs.Digits.{in_set};
ghost use Rattle.quorum.specs.Enough.{count_of};
ghost use Rattle.quorum.specs.Opening.{untrusted, stray, opening_refusal};

use refusals::Refusal;

// The count of a block's signers: whether they are enough, and how many they are in either case. `Notarised` of `register` says the same in makers'
// words: both are public, with fields of other names, and the specs speak of both (`count_of`, `notarised_test`).
#[derive(Clone, Copy, PartialEq, Eq, Debug)]
pub struct SignerCount {
    pub enough: bool,
    pub signers: u8,
}

// Counts the members of a set of signers, of n offices. They are enough where three times their number is at least twice n.
pub fn count_signers(set: u32, n: u8) -> SignerCount
    ensures { result ≡ count_of (tally n (in_set set)) n }
{
    let signers = words::members(set, n);
    SignerCount {
        enough: 2 * (n as u32) <= 3 * signers,
        signers: signers as u8,
    }
}

// How many of the n offices have the trust bit 0.
fn count_untrusted(n: u8, trust: u32) -> u32
    ensures { result ≡ untrusted n trust }
{
    n as u32 - words::members(trust, n)
}

// Some leader of the schedule is no office. The loop has no branch, so that many entries are compared at once. The rule goes by the numbers of the epochs, and
// so do the laws of such loops; `iter().any` would need laws of lists beside them, and would leave at the first hit.
fn has_stray(n: u8, schedule: &[u8]) -> bool
    ensures { result ≡ stray n schedule.now }
{
    let mut found = false;
    for leader in schedule {
        found = found | (*leader >= n);
    }
    found
}

// What the opening is refused with.
pub fn check_opening(n: u8, trust: u32, schedule: &[u8]) -> Result<(), Refusal>
    ensures { outcome result ≡ opening_refusal n trust schedule.now }
{
    if !words::between(1, 32, n as usize) {
        return Err(Refusal::Count);
    }
    if !words::between(1, 256, schedule.len()) {
        return Err(Refusal::Schedule);
    }
    if has_stray(n, schedule) {
        return Err(Refusal::StrayLeader);
    }
    if 3 * count_untrusted(n, trust) >= n as u32 {
        return Err(Refusal::Third);
    }
    Ok(())
}
