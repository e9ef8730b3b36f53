//! Whether run values, run indices and run offsets make a column.

ghost use Rattle.std.specs.Prelude.{◌≡◌, ◌*◌, ◌+◌, ◌<◌, ◌≤◌, IsTrue, length, option_map};
ghost use Rattle.std.specs.List.{list_all};
ghost use Rattle.fl_types.specs.Integers.{is_unsigned};
ghost use Rattle.fl_column.specs.Columns.{column_of_primitive, numbers_of};
ghost use Rattle.fl_codec.specs.Chunks.{chunk};
ghost use Rattle.fl_codec.specs.Parts.{items_of_primitive};
ghost use Rattle.fl_codec.specs.RunColumns.{are_run_indices, are_run_offsets, is_chunk_of_runs, is_run_index, run_count};
ghost use Rattle.fl_codec.specs.RunRefusals.{rle_numbers_refusal};

use crate::rle::{end_of_chunk, number_at, start_of_chunk};
use fastlanes::FL_CHUNK_SIZE;
use fl_column::{PrimitiveArray, item_at};
use fl_types::{FastLanesError, NativePType, match_each_integer_ptype};

/// Whether an index is null, or below the number of run values.
fn is_named<I: NativePType>(index: Option<I>, count: usize) -> bool
    ensures { result ≡ is_run_index count (option_map I.value index) }
{
    match index {
        Some(index) => index.as_i128().unsigned_abs() < count as u128,
        None => true,
    }
}

fn indices_in_range<I: NativePType>(indices: &PrimitiveArray, k: usize, count: usize) -> bool
    requires same { indices.now.ptype ≡ I.PTYPE }
    requires chunk { 1024 * (k + 1) ≤ length indices.now.slots }
    ensures { result ≡ list_all (is_run_index count) (chunk k (items_of_primitive indices.now)) }
{
    let (items, validity) = (indices.as_slice::<I>(), indices.validity());
    for q in 0..FL_CHUNK_SIZE {
        if !is_named(item_at(items, validity, FL_CHUNK_SIZE * k + q), count) {
            return false;
        }
    }
    true
}

/// Whether each index of chunk `k` is null, or below the number of run values.
fn are_named(indices: &PrimitiveArray, k: usize, count: usize) -> bool
    requires { 1024 * (k + 1) ≤ length indices.now.slots }
    ensures { result ≡ list_all (is_run_index count) (chunk k (items_of_primitive indices.now)) }
{
    match_each_integer_ptype!(indices.ptype(), indices_in_range(indices, k, count))
}

/// Whether chunk `k` does not start before the first one, and has from 1 to 1024 run values.
fn is_chunk(offsets: &PrimitiveArray, count: usize, k: usize) -> bool
    requires range { k < length offsets.now.slots }
    requires unsigned { IsTrue (is_unsigned offsets.now.ptype) }
    ensures { result ≡ is_chunk_of_runs (numbers_of (column_of_primitive offsets.now)) count k }
{
    let start = start_of_chunk(offsets, k);
    let end = end_of_chunk(offsets, count, k);
    number_at(offsets, 0) <= number_at(offsets, k) && start < end && end - start <= FL_CHUNK_SIZE
}

/// Whether each chunk does, and without a chunk there is no run value.
fn are_run_offsets(offsets: &PrimitiveArray, count: usize) -> bool
    requires { IsTrue (is_unsigned offsets.now.ptype) }
    ensures { result ≡ are_run_offsets (numbers_of (column_of_primitive offsets.now)) count }
{
    let _validity = offsets.validity();
    let chunks = offsets.len();
    for k in 0..chunks {
        if !is_chunk(offsets, count, k) {
            return false;
        }
    }
    chunks > 0 || count == 0
}

/// How many run values chunk `k` has.
fn count_in_chunk(offsets: &PrimitiveArray, count: usize, k: usize) -> usize
    requires range { k < length offsets.now.slots }
    requires unsigned { IsTrue (is_unsigned offsets.now.ptype) }
    ensures { result ≡ run_count (numbers_of (column_of_primitive offsets.now)) count k }
{
    end_of_chunk(offsets, count, k).saturating_sub(start_of_chunk(offsets, k))
}

/// Whether each index of each chunk is null, or below the number of the chunk's run values.
fn are_run_indices(indices: &PrimitiveArray, offsets: &PrimitiveArray, count: usize) -> bool
    requires unsigned { IsTrue (is_unsigned offsets.now.ptype) }
    requires whole { length indices.now.slots ≡ 1024 * length offsets.now.slots }
    ensures { result ≡ are_run_indices (items_of_primitive indices.now) (numbers_of (column_of_primitive offsets.now)) count }
{
    let _validity = offsets.validity();
    for k in 0..offsets.len() {
        if !are_named(indices, k, count_in_chunk(offsets, count, k)) {
            return false;
        }
    }
    true
}

/// Why run offsets or run indices do not fit this many run values: `RunOffsets` where an
/// offset is below the first one, or a chunk has no run value or more than 1024, or there are run values
/// without a chunk; then `RunIndex` where an index that is not null is not below its chunk's number of run
/// values.
///
/// The run offsets are unsigned, and for each there are 1024 run indices.
pub fn numbers_refusal(
    count: usize,
    indices: &PrimitiveArray,
    offsets: &PrimitiveArray,
) -> Option<FastLanesError>
    requires unsigned { IsTrue (is_unsigned offsets.now.ptype) }
    requires whole { length indices.now.slots ≡ 1024 * length offsets.now.slots }
    ensures { result ≡ rle_numbers_refusal count (items_of_primitive indices.now) (numbers_of (column_of_primitive offsets.now)) }
{
    if !are_run_offsets(offsets, count) {
        return Some(FastLanesError::RunOffsets);
    }
    if !are_run_indices(indices, offsets, count) {
        return Some(FastLanesError::RunIndex);
    }
    None
}
