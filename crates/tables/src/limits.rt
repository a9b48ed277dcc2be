// The most that there can be of each: a count of more is taken for that many. `register` names its limits for makers, in numbers, beside the document's; its
// columns are these, so that no other size would compile.
ghost use Rattle.std.specs.Prelude.{◌≡◌, min};
ghost use Rattle.tables.specs.Searches.{offices};

// So many blocks the columns have room for, genesis included.
pub(crate) const BLOCKS: usize = 256;

// So many messages the columns have room for.
pub(crate) const MESSAGES: usize = 1024;

// So many offices a set has room for.
const OFFICES: u8 = 32;

// The number of offices, or the most.
pub(crate) fn office_count(n: u8) -> u8
    ensures { result ≡ min n offices }
{
    n.min(OFFICES)
}
