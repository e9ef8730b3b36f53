//! Chunks of 1024 items: their number, and where each begins and ends.

ghost use Rattle.std.specs.Prelude.{◌≡◌, ◌+◌, ◌*◌, ◌≤◌, length, min};
ghost use Rattle.fl_column.specs.Chunks.{chunk, chunk_count};

use fastlanes::FL_CHUNK_SIZE;

/// The number of chunks of this many items. The last one may be short.
pub fn chunk_count(len: usize) -> usize
    ensures { result ≡ chunk_count len }
{
    len.div_ceil(FL_CHUNK_SIZE)
}

/// Where chunk `k` of this many items begins, and where it ends.
pub fn chunk_bounds(k: usize, len: usize) -> (usize, usize)
    requires { 1024 * k ≤ len }
    ensures start { result.0 ≡ 1024 * k }
    ensures end { result.1 ≡ min (1024 * (k + 1)) len }
{
    let start = FL_CHUNK_SIZE * k;
    (start, start + (len - start).min(FL_CHUNK_SIZE))
}

/// The items of chunk `k`.
#[tactic(auto, using(crate::proofs::ChunkLaws::chunk_part))]
pub fn chunk_of<T>(items: &[T], k: usize) -> &[T]
    requires { 1024 * k ≤ length items.now }
    ensures items { result.now ≡ chunk k items.now }
    ensures few { length result.now ≤ 1024 }
{
    let (start, end) = chunk_bounds(k, items.len());
    &items[start..end]
}
