//! The runs of a column, chunk by chunk, for those who keep no run indices.

ghost use Rattle.std.specs.Prelude.{◌≡◌, ◌*◌, ◌+◌, ◌<◌, ◌≤◌, ◌++◌, [], OnOk, Ok, length, map, pos};
ghost use Rattle.fl_types.specs.Integers.{read_as};
ghost use Rattle.fl_types.specs.Refusals.{Answers};
ghost use Rattle.fl_codec.specs.Chunks.{chunk, chunks_of};
ghost use Rattle.fl_codec.specs.Parts.{encode_runs, items_of_primitive};
ghost use Rattle.fl_codec.specs.Runs.{indices_to, offsets_to, values_to};

use crate::chunks::chunk_count;
use crate::fill_forward::fill_chunk;
use crate::plain::non_nullable;
use fastlanes::{FL_CHUNK_SIZE, FastLanes, rle_encode};
use fl_column::patterns::push_values;
use fl_column::{PhysicalPType, PrimitiveArray};
use fl_types::{FastLanesError, match_each_integer_ptype};
use std::alloc::{AllocError, Global};

/// Writes the run index of each position of chunk `k`, which starts new runs, and returns the patterns of its run values,
/// which stand at the front of `rle`.
pub(crate) fn write_runs<'a, T: PhysicalPType>(
    array: &PrimitiveArray,
    k: usize,
    block: &mut [T::Physical; FL_CHUNK_SIZE],
    rle: &'a mut [T::Physical; FL_CHUNK_SIZE],
    positions: &mut [u16; FL_CHUNK_SIZE],
) -> &'a [T::Physical]
    requires same { array.now.ptype ≡ T.PTYPE }
    requires chunk { 1024 * k ≤ length array.now.slots }
    ensures values { values_to (items_of_primitive array.now) k ++ map (λ w. read_as T.PTYPE (T.Physical.pattern w)) result.now ≡ values_to (items_of_primitive array.now) (k + 1) }
    ensures indices { indices_to (items_of_primitive array.now) k ++ positions.new ≡ indices_to (items_of_primitive array.now) (k + 1) }
    ensures whole { length positions.new ≡ 1024 }
{
    fill_chunk(array.as_slice::<T>(), array.validity(), k, T::zero(), block);
    let count = rle_encode(block, rle, positions);
    let words = &rle[..];
    &words[..count]
}

fn write_indices_typed<T: PhysicalPType>(
    array: &PrimitiveArray,
    k: usize,
    positions: &mut [u16; FL_CHUNK_SIZE],
)
    requires same { array.now.ptype ≡ T.PTYPE }
    requires chunk { k < chunks_of (length array.now.slots) }
    ensures { map (λ n. pos n) positions.new ≡ chunk k (encode_runs array.now).indices.slots }
{
    let mut block = [T::Physical::zero(); FL_CHUNK_SIZE];
    let mut rle = [T::Physical::zero(); FL_CHUNK_SIZE];
    let _values = write_runs::<T>(array, k, &mut block, &mut rle, positions);
}

/// Writes the run index of each position of chunk `k` of a column, as `encode` makes them, under nulls and in the padding
/// too. Nothing is allocated.
pub fn write_indices(array: &PrimitiveArray, k: usize, positions: &mut [u16; FL_CHUNK_SIZE])
    requires { k < chunks_of (length array.now.slots) }
    ensures { map (λ n. pos n) positions.new ≡ chunk k (encode_runs array.now).indices.slots }
{
    match_each_integer_ptype!(array.ptype(), write_indices_typed(array, k, positions))
}

/// Appends the run values of chunk `k`, which starts new runs, and writes the run index of each of its positions.
pub(crate) fn push_chunk<T: PhysicalPType>(
    array: &PrimitiveArray,
    k: usize,
    block: &mut [T::Physical; FL_CHUNK_SIZE],
    rle: &mut [T::Physical; FL_CHUNK_SIZE],
    positions: &mut [u16; FL_CHUNK_SIZE],
    values: &mut Vec<T>,
) -> Result<(), AllocError>
    requires same { array.now.ptype ≡ T.PTYPE }
    requires chunk { 1024 * k ≤ length array.now.slots }
    requires values { map T.value values.old.items ≡ values_to (items_of_primitive array.now) k }
    ensures values { OnOk result (map T.value values.new.items ≡ values_to (items_of_primitive array.now) (k + 1)) }
    ensures indices { indices_to (items_of_primitive array.now) k ++ positions.new ≡ indices_to (items_of_primitive array.now) (k + 1) }
{
    let words = write_runs::<T>(array, k, block, rle, positions);
    push_values(words, values)
}

/// Appends the run values and the run offsets of all chunks, whose runs are made in these blocks.
fn push_values_in<T: PhysicalPType>(
    array: &PrimitiveArray,
    chunks: usize,
    block: &mut [T::Physical; FL_CHUNK_SIZE],
    rle: &mut [T::Physical; FL_CHUNK_SIZE],
    positions: &mut [u16; FL_CHUNK_SIZE],
    values: &mut Vec<T>,
    offsets: &mut Vec<u64>,
) -> Result<(), AllocError>
    requires same { array.now.ptype ≡ T.PTYPE }
    requires chunks { chunks ≡ chunks_of (length array.now.slots) }
    requires no_values { values.old.items ≡ [] }
    requires no_offsets { offsets.old.items ≡ [] }
    ensures values { OnOk result (map T.value values.new.items ≡ values_to (items_of_primitive array.now) chunks) }
    ensures offsets { OnOk result (offsets.new.items ≡ offsets_to (items_of_primitive array.now) chunks) }
{
    for k in 0..chunks {
        offsets.push(values.len() as u64)?;
        push_chunk(array, k, block, rle, positions, values)?;
    }
    Ok(())
}

/// Appends the run values and the run offsets of all chunks.
fn push_values_of_chunks<T: PhysicalPType>(
    array: &PrimitiveArray,
    chunks: usize,
    values: &mut Vec<T>,
    offsets: &mut Vec<u64>,
) -> Result<(), AllocError>
    requires same { array.now.ptype ≡ T.PTYPE }
    requires chunks { chunks ≡ chunks_of (length array.now.slots) }
    requires no_values { values.old.items ≡ [] }
    requires no_offsets { offsets.old.items ≡ [] }
    ensures values { OnOk result (map T.value values.new.items ≡ values_to (items_of_primitive array.now) chunks) }
    ensures offsets { OnOk result (offsets.new.items ≡ offsets_to (items_of_primitive array.now) chunks) }
{
    let mut block = [T::Physical::zero(); FL_CHUNK_SIZE];
    let mut rle = [T::Physical::zero(); FL_CHUNK_SIZE];
    let mut positions = [0u16; FL_CHUNK_SIZE];
    push_values_in(
        array,
        chunks,
        &mut block,
        &mut rle,
        &mut positions,
        values,
        offsets,
    )
}

fn values_typed<T: PhysicalPType>(
    alloc: Global,
    array: &PrimitiveArray,
) -> Result<(PrimitiveArray, PrimitiveArray), FastLanesError>
    requires { array.now.ptype ≡ T.PTYPE }
    ensures { Answers (λ parts. parts) result (Ok ((encode_runs array.now).values, (encode_runs array.now).offsets)) }
{
    let chunks = chunk_count(array.len());
    let mut values = Vec::<T>::new(alloc);
    let mut offsets = Vec::with_capacity(alloc, chunks)?;
    push_values_of_chunks(array, chunks, &mut values, &mut offsets)?;
    Ok((non_nullable(values), non_nullable(offsets)))
}

/// The run values and the run offsets of a column's chunks, as `encode` makes them. No run index is kept.
pub fn run_values(
    alloc: Global,
    array: &PrimitiveArray,
) -> Result<(PrimitiveArray, PrimitiveArray), FastLanesError>
    ensures { Answers (λ parts. parts) result (Ok ((encode_runs array.now).values, (encode_runs array.now).offsets)) }
{
    match_each_integer_ptype!(array.ptype(), values_typed(alloc, array))
}
