//! Columns stored as runs: in each chunk of 1024 items the items that differ from the one
//! before, and for each position the number of its run.

pub mod blocks;
pub mod children;
mod decoding;
pub mod dictionary;
pub mod refusals;

ghost use Rattle.std.specs.Prelude.{◌≡◌, ◌+◌, ◌*◌, ◌<◌, ◌≤◌, ◌^◌, ℕ, [], pos, IsTrue, IfOk, OnOk, Ok, None, length, map, option_map, slice_index, slice_index_or, unsigned_abs, unwrap_or, ◌++◌, ◌-◌, replicate, false};
ghost use Rattle.std.specs.List.{list_all};
ghost use Rattle.fastlanes.specs.Layout.{pattern_at};
ghost use Rattle.fl_types.specs.Bits.{tabulate};
ghost use Rattle.fl_types.specs.Integers.{fits, is_unsigned, read_as};
ghost use Rattle.fl_types.specs.Values.{integer_of, ptype_of_value};
ghost use Rattle.fl_types.specs.Refusals.{Answers};
ghost use Rattle.fl_types.specs.Validities.{covers};
ghost use Rattle.fl_column.specs.Columns.{column_of_primitive, numbers_of};
ghost use Rattle.fl_codec.specs.Chunks.{chunks_of};
ghost use Rattle.fl_codec.specs.Parts.{encode_runs, items_of_primitive, run_parts};
ghost use Rattle.fl_codec.specs.RunColumns.{IsRunChunk, chunk_end, chunk_start, is_run_index, run_column, run_integer, runs_refusal};
ghost use Rattle.fl_codec.specs.Runs.{indices_to, offsets_to, run_validity, values_to};

use crate::chunks::chunk_count;
use crate::plain::{non_nullable, with_validity};
use crate::rle::blocks::push_chunk;
pub use crate::rle::decoding::{values_of_chunk, write_run_items};
use fastlanes::{FL_CHUNK_SIZE, FastLanes};
use fl_column::{PhysicalPType, PrimitiveArray};
use fl_types::{BitList, FastLanesError, PValue, Validity, match_each_integer_ptype};
use std::alloc::{AllocError, Global};

/// The runs of a column.
#[derive(Drop)]
pub struct Runs {
    /// The run values of the chunks, one chunk after another, none of which may be null.
    pub values: PrimitiveArray,
    /// The number of each position's run in its chunk, as `u16`; null where the column is. The
    /// padding is null where the column's validity has a bit for each item or none is valid.
    pub indices: PrimitiveArray,
    /// The number of run values before each chunk, as `u64`, none of which may be null.
    pub offsets: PrimitiveArray,
}

/// Appends the run values and the indices of chunk `k`, which starts new runs.
fn push_runs<T: PhysicalPType>(
    array: &PrimitiveArray,
    k: usize,
    block: &mut [T::Physical; FL_CHUNK_SIZE],
    rle: &mut [T::Physical; FL_CHUNK_SIZE],
    positions: &mut [u16; FL_CHUNK_SIZE],
    values: &mut Vec<T>,
    indices: &mut Vec<u16>,
) -> Result<(), AllocError>
    requires same { array.now.ptype ≡ T.PTYPE }
    requires chunk { 1024 * k ≤ length array.now.slots }
    requires values { map T.value values.old.items ≡ values_to (items_of_primitive array.now) k }
    requires indices { indices.old.items ≡ indices_to (items_of_primitive array.now) k }
    ensures values { OnOk result (map T.value values.new.items ≡ values_to (items_of_primitive array.now) (k + 1)) }
    ensures indices { OnOk result (indices.new.items ≡ indices_to (items_of_primitive array.now) (k + 1)) }
{
    push_chunk(array, k, block, rle, positions, values)?;
    indices.extend_from_slice(&positions[..])
}

/// These bits, and after them as many that are not set as make this many of them.
fn padded_bits(alloc: Global, bits: &BitList, total: usize) -> Result<BitList, FastLanesError>
    requires { length bits.now ≤ total }
    ensures { Answers (λ b. b) result (Ok (bits.now ++ replicate (total - length bits.now) false)) }
{
    let mut padded = bits.try_clone(alloc)?;
    let len = bits.len();
    for _i in len..total {
        padded.push(false)?;
    }
    Ok(padded)
}

/// The validity of this many indices of a column of `len` items: what the column's says of all items,
/// or its bits and, after the column's end, nulls.
pub(crate) fn padded_validity(
    alloc: Global,
    validity: &Validity,
    len: usize,
    total: usize,
) -> Result<Validity, FastLanesError>
    requires covers { IsTrue (covers validity.now len) }
    requires room { len ≤ total }
    ensures { Answers (λ v. v) result (Ok (run_validity validity.now len total)) }
{
    match validity {
        Validity::Array(bits) => {
            let padded = padded_bits(alloc, bits, total)?;
            Ok(Validity::Array(padded))
        }
        _ => validity.try_clone(alloc),
    }
}

/// Appends the run values, the indices and the offsets of all chunks.
fn push_chunks<T: PhysicalPType>(
    array: &PrimitiveArray,
    chunks: usize,
    values: &mut Vec<T>,
    indices: &mut Vec<u16>,
    offsets: &mut Vec<u64>,
) -> Result<(), AllocError>
    requires same { array.now.ptype ≡ T.PTYPE }
    requires chunks { chunks ≡ chunks_of (length array.now.slots) }
    requires no_values { values.old.items ≡ [] }
    requires no_indices { indices.old.items ≡ [] }
    requires no_offsets { offsets.old.items ≡ [] }
    ensures values { OnOk result (map T.value values.new.items ≡ values_to (items_of_primitive array.now) chunks) }
    ensures indices { OnOk result (indices.new.items ≡ indices_to (items_of_primitive array.now) chunks) }
    ensures offsets { OnOk result (offsets.new.items ≡ offsets_to (items_of_primitive array.now) chunks) }
{
    let mut block = [T::Physical::zero(); FL_CHUNK_SIZE];
    let mut rle = [T::Physical::zero(); FL_CHUNK_SIZE];
    let mut positions = [0u16; FL_CHUNK_SIZE];
    for k in 0..chunks {
        offsets.push(values.len() as u64)?;
        push_runs(
            array,
            k,
            &mut block,
            &mut rle,
            &mut positions,
            values,
            indices,
        )?;
    }
    Ok(())
}

fn encode_typed<T: PhysicalPType>(
    alloc: Global,
    array: &PrimitiveArray,
) -> Result<Runs, FastLanesError>
    requires { array.now.ptype ≡ T.PTYPE }
    ensures { Answers run_parts result (Ok (encode_runs array.now)) }
{
    let chunks = chunk_count(array.len());
    let mut values = Vec::<T>::new(alloc);
    let mut indices = Vec::with_capacity(alloc, chunks.saturating_mul(FL_CHUNK_SIZE))?;
    let mut offsets = Vec::with_capacity(alloc, chunks)?;
    push_chunks(array, chunks, &mut values, &mut indices, &mut offsets)?;
    let total = indices.as_slice().len();
    let validity = padded_validity(alloc, array.validity(), array.len(), total)?;
    Ok(Runs {
        values: non_nullable(values),
        indices: with_validity(indices, validity),
        offsets: non_nullable(offsets),
    })
}

/// The runs of a column's chunks. A null counts as the last item before it in its chunk, or as 0
/// where there is none; a short last chunk is padded with its last item.
pub fn encode(alloc: Global, array: &PrimitiveArray) -> Result<Runs, FastLanesError>
    ensures { Answers run_parts result (Ok (encode_runs array.now)) }
{
    match_each_integer_ptype!(array.ptype(), encode_typed(alloc, array))
}

/// The natural number that a value of an unsigned type is.
fn number_of(value: PValue) -> usize
    requires { IsTrue (is_unsigned (ptype_of_value value)) }
    ensures { result ≡ unsigned_abs (integer_of value) }
{
    match value {
        PValue::U8(x) => x as usize,
        PValue::U16(x) => x as usize,
        PValue::U32(x) => x as usize,
        PValue::U64(x) => x as usize,
        _ => unreachable!(),
    }
}

/// The number at an index of an array of an unsigned type, 0 of a null.
pub(crate) fn number_at(numbers: &PrimitiveArray, i: usize) -> usize
    requires range { i < length numbers.now.slots }
    requires unsigned { IsTrue (is_unsigned numbers.now.ptype) }
    ensures { result ≡ slice_index (numbers_of (column_of_primitive numbers.now)) i }
{
    let _len = numbers.len();
    match numbers.get(i) {
        Some(value) => number_of(value),
        None => 0,
    }
}

/// Where the run values of chunk `k` start.
pub(crate) fn start_of_chunk(offsets: &PrimitiveArray, k: usize) -> usize
    requires range { k < length offsets.now.slots }
    requires unsigned { IsTrue (is_unsigned offsets.now.ptype) }
    ensures { result ≡ chunk_start (numbers_of (column_of_primitive offsets.now)) k }
{
    number_at(offsets, k).saturating_sub(number_at(offsets, 0))
}

/// Where the run values of chunk `k`, one of `count` in all, end.
pub(crate) fn end_of_chunk(offsets: &PrimitiveArray, count: usize, k: usize) -> usize
    requires range { k < length offsets.now.slots }
    requires unsigned { IsTrue (is_unsigned offsets.now.ptype) }
    ensures { result ≡ chunk_end (numbers_of (column_of_primitive offsets.now)) count k }
{
    let chunks = offsets.len();
    if k + 1 < chunks {
        start_of_chunk(offsets, k + 1)
    } else {
        count
    }
}
