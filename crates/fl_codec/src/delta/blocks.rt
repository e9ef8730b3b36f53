//! The bases and the deltas of a column, block by block, for those who keep none of them.

ghost use Rattle.std.specs.Prelude.{◌≡◌, ◌*◌, ◌+◌, ◌<◌, IfOk, OnOk, Ok, length, map};
ghost use Rattle.fl_types.specs.Integers.{read_as};
ghost use Rattle.fl_types.specs.Refusals.{Answers};
ghost use Rattle.fl_codec.specs.Chunks.{chunk, chunks_of};
ghost use Rattle.fl_codec.specs.ForwardFill.{carried_to};
ghost use Rattle.fl_codec.specs.Parts.{compress_deltas, items_of_primitive};

use crate::chunks::chunk_count;
use crate::delta::{encode_chunk, push_bases};
use crate::plain::non_nullable;
use fastlanes::{FL_CHUNK_SIZE, FastLanes};
use fl_column::patterns::push_values;
use fl_column::{PhysicalPType, PrimitiveArray};
use fl_types::{FastLanesError, match_each_integer_ptype};
use std::alloc::{AllocError, Global};

/// Makes the deltas of chunk `k` of a column, as `delta_compress` makes them, in `block`, and returns the chunk's last item,
/// with which the next chunk begins: for chunk 0 `last` is 0. What is in `stored` does not count, before or after.
pub fn write_delta_words<T: PhysicalPType>(
    array: &PrimitiveArray,
    k: usize,
    last: T,
    block: &mut [T::Physical; FL_CHUNK_SIZE],
    stored: &mut [T::Physical; FL_CHUNK_SIZE],
) -> T
    requires same { array.now.ptype ≡ T.PTYPE }
    requires chunk { k < chunks_of (length array.now.slots) }
    requires last { T.value last ≡ carried_to (items_of_primitive array.now) k }
    ensures last { T.value result ≡ carried_to (items_of_primitive array.now) (k + 1) }
    ensures deltas { map (λ w. read_as T.PTYPE (T.Physical.pattern w)) block.new ≡ chunk k (compress_deltas array.now).1.slots }
{
    let _validity = array.validity();
    encode_chunk(array, k, last, block, stored)
}

/// Replaces the items of `deltas` by the deltas of chunk `k` of a column, as `delta_compress` makes them, and returns the
/// chunk's last item, with which the next chunk begins: for chunk 0 `last` is 0. What is in `block` and `stored` does
/// not count, before or after. Nothing is allocated where `deltas` has room for 1024 items.
pub fn write_deltas<T: PhysicalPType>(
    array: &PrimitiveArray,
    k: usize,
    last: T,
    block: &mut [T::Physical; FL_CHUNK_SIZE],
    stored: &mut [T::Physical; FL_CHUNK_SIZE],
    deltas: &mut Vec<T>,
) -> Result<T, AllocError>
    requires same { array.now.ptype ≡ T.PTYPE }
    requires chunk { k < chunks_of (length array.now.slots) }
    requires last { T.value last ≡ carried_to (items_of_primitive array.now) k }
    ensures last { IfOk result (λ x. T.value x ≡ carried_to (items_of_primitive array.now) (k + 1)) }
    ensures deltas { OnOk result (map T.value deltas.new.items ≡ chunk k (compress_deltas array.now).1.slots) }
{
    let last = write_delta_words(array, k, last, block, stored);
    deltas.clear();
    push_values(&block[..], deltas)?;
    Ok(last)
}

fn bases_typed<T: PhysicalPType>(
    alloc: Global,
    array: &PrimitiveArray,
) -> Result<PrimitiveArray, FastLanesError>
    requires { array.now.ptype ≡ T.PTYPE }
    ensures { Answers (λ bases. bases) result (Ok (compress_deltas array.now).0) }
{
    let chunks = chunk_count(array.len());
    let mut bases = Vec::with_capacity(alloc, chunks.saturating_mul(T::Physical::LANES))?;
    let mut block = [T::Physical::zero(); FL_CHUNK_SIZE];
    let mut stored = [T::Physical::zero(); FL_CHUNK_SIZE];
    let mut last = T::zero();
    for k in 0..chunks {
        last = push_bases(array, k, last, &mut block, &mut stored, &mut bases)?;
    }
    Ok(non_nullable(bases))
}

/// The bases of a column's blocks alone, as `delta_compress` makes them.
pub fn delta_bases(alloc: Global, array: &PrimitiveArray) -> Result<PrimitiveArray, FastLanesError>
    ensures { Answers (λ bases. bases) result (Ok (compress_deltas array.now).0) }
{
    match_each_integer_ptype!(array.ptype(), bases_typed(alloc, array))
}
