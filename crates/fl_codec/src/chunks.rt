//! Chunks of 1024 items.

ghost use Rattle.std.specs.Prelude.{◌≡◌, ◌+◌, ◌*◌, ◌<◌, ◌≤◌, IsTrue, None, length, map, min, option_map, slice_index_or};
ghost use Rattle.fl_types.specs.Validities.{covers, items_of};
ghost use Rattle.fl_codec.specs.Chunks.{chunk, chunks_of};

use fastlanes::FL_CHUNK_SIZE;
use fl_column::item_at;
use fl_types::{NativePType, Validity};

/// How many chunks this many items have. The last one may be short.
pub(crate) fn chunk_count(len: usize) -> usize
    ensures { result ≡ chunks_of len }
{
    len.div_ceil(FL_CHUNK_SIZE)
}

/// Where chunk `k` of this many items ends.
pub(crate) fn chunk_end(k: usize, len: usize) -> usize
    requires { 1024 * k ≤ len }
    ensures { result ≡ min (1024 * (k + 1)) len }
{
    let start = FL_CHUNK_SIZE * k;
    start + (len - start).min(FL_CHUNK_SIZE)
}

/// Item `q` of chunk `k`, or `None` of a null and past the end.
pub(crate) fn item_in_chunk<T: NativePType>(
    items: &[T],
    validity: &Validity,
    k: usize,
    q: usize,
) -> Option<T>
    requires covers { IsTrue (covers validity.now (length items.now)) }
    requires chunk { 1024 * k ≤ length items.now }
    requires position { q < 1024 }
    ensures { option_map T.value result ≡ slice_index_or (chunk k (items_of validity.now (map T.value items.now))) q None }
{
    let start = FL_CHUNK_SIZE * k;
    if q < items.len() - start {
        item_at(items, validity, start + q)
    } else {
        None
    }
}
