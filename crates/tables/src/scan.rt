// A walk over some entries of a column.
ghost use Rattle.std.specs.Prelude.{◌≡◌, ℕ, Bool, ◌+◌, ◌<◌};
ghost use Rattle.words.specs.Tests.{any};

// One of the `size` entries from `from` on passes the test, where p says of each what the test does. The loop has no branch, so that many
// entries are compared at once.
pub(crate) fn some_pass<F: Fn(usize) -> bool>(from: usize, size: usize, test: F) -> bool
    requires fits { from + size < 65536 }
    requires callable { (i : ℕ) → i < size → F.pre test (from + i) }
    ensures { (p : ℕ → Bool) → ((i : ℕ) → i < size → (t : Bool) → F.post test (from + i) t → t ≡ p i) → result ≡ any size p }
{
    let mut found = false;
    for i in 0..size {
        found = found | test(from + i);
    }
    found
}
