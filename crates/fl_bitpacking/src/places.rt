//! Places of blocks among items, of which the first and the last block may have a part.

ghost use Rattle.std.specs.Prelude.{◌≡◌, ◌+◌, ◌-◌, ◌*◌, ◌/◌, ◌<◌, ◌≤◌, ◌^◌, min};
ghost use Rattle.fl_column.specs.Chunks.{chunk_count};

use fastlanes::FL_CHUNK_SIZE;

/// Where the items of block `j` begin and end among `len` items from position `first` of the blocks on.
pub fn places_from(first: usize, len: usize, j: usize) -> (usize, usize)
    requires few { first + len < 2 ^ 64 }
    requires from { first / 1024 ≤ j }
    requires some { j < chunk_count (first + len) }
    ensures from { result.0 ≡ 1024 * j - first }
    ensures to { result.1 ≡ min (1024 * (j + 1)) (first + len) - first }
    ensures order { result.0 ≤ result.1 }
    ensures room { result.1 ≤ len }
{
    let start = FL_CHUNK_SIZE * j;
    let low = first.saturating_sub(start);
    let from = start.saturating_sub(first);
    (from, from + (len - from).min(FL_CHUNK_SIZE - low))
}
