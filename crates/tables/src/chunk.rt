// Messages that stand next to each other, so many that a search looks at them together.
ghost use Rattle.std.specs.Prelude.{◌≡◌, ◌+◌, ◌≤◌, min};

// So many messages are looked at together.
pub(crate) const CHUNK: usize = 64;

// Up to 64 messages, from the one at `from` on. The columns have an entry for each of the 64, sent or not. Chunks are
// not compared.
#[derive(Clone, Copy)]
pub(crate) struct Chunk {
    pub from: usize,
    pub size: usize,
    ghost with_entries: { from ≤ 960 },
    ghost within: { size ≤ 64 },
}

// The chunk that starts at `from`: a whole chunk, or what is left of the count.
pub(crate) fn chunk_at(from: usize, count: usize) -> Chunk
    requires { (from ≤ 960) × (from ≤ count) }
    ensures starts { result.from ≡ from }
    ensures ends { from + result.size ≡ min (from + 64) count }
{
    let size = (count - from).min(CHUNK);
    Chunk { from, size }
}
