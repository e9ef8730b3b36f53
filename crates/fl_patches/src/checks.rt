//! The checks of the parts of patches.

ghost use Rattle.std.specs.Prelude.{◌≡◌, ◌&&◌, ◌==◌, IsTrue, length, nat_lt};
ghost use Rattle.std.specs.List.{list_all};
ghost use Rattle.fl_types.specs.Types.{is_index_type};
ghost use Rattle.fl_column.specs.Chunks.{chunk_count};
ghost use Rattle.fl_column.specs.Columns.{column_of_primitive, option_all};
ghost use Rattle.fl_column.specs.Numbers.{numbers, numbers_by};
ghost use Rattle.fl_patches.specs.PatchMaps.{are_chunk_offsets, is_index_within, is_rising, patch_contents_fit, patch_lengths_fit, patch_types_fit, refusal_of};

use crate::indices::count_in;
use fl_column::{PrimitiveArray, chunk_count, number_at};
use fl_types::{FastLanesError, NativePType, match_each_integer_ptype};

/// Whether the types of indices and chunk offsets are those of positions.
fn types_fit(indices: &PrimitiveArray, chunk_offsets: &Option<PrimitiveArray>) -> bool
    ensures { result ≡ (is_index_type (column_of_primitive indices.now).dtype && option_all (λ c. is_index_type (column_of_primitive c).dtype) chunk_offsets.now) }
{
    indices.dtype().is_index_type()
        && match chunk_offsets {
            Some(offsets) => offsets.dtype().is_index_type(),
            None => true,
        }
}

/// Whether there is a patch, a value for each index, and a chunk offset for each chunk.
fn lengths_fit(
    array_len: usize,
    indices: &PrimitiveArray,
    values: &PrimitiveArray,
    chunk_offsets: &Option<PrimitiveArray>,
) -> bool
    ensures { result ≡ ((length indices.now.slots == length values.now.slots) && (nat_lt 0 (length indices.now.slots) && option_all (λ c. length c.slots == chunk_count array_len) chunk_offsets.now)) }
{
    indices.len() == values.len()
        && indices.len() > 0
        && match chunk_offsets {
            Some(offsets) => offsets.len() == chunk_count(array_len),
            None => true,
        }
}

/// Whether each index is below the next.
fn are_rising<I: NativePType>(indices: &[I]) -> bool
    ensures { result ≡ is_rising (numbers_by I.value indices.now) }
{
    for i in 1..indices.len() {
        if number_at(indices, i - 1) >= number_at(indices, i) {
            return false;
        }
    }
    true
}

/// Whether each index is that of a position of the array.
fn are_within<I: NativePType>(indices: &[I], offset: usize, array_len: usize) -> bool
    ensures { result ≡ list_all (is_index_within offset array_len) (numbers_by I.value indices.now) }
{
    let end = offset as u128 + array_len as u128;
    for i in 0..indices.len() {
        let index = number_at(indices, i) as u128;
        if index < offset as u128 || end <= index {
            return false;
        }
    }
    true
}

fn indices_fit_typed<I: NativePType>(
    indices: &PrimitiveArray,
    offset: usize,
    array_len: usize,
) -> bool
    requires { indices.now.ptype ≡ I.PTYPE }
    ensures { result ≡ (is_rising (numbers indices.now) && list_all (is_index_within offset array_len) (numbers indices.now)) }
{
    let indices = indices.as_slice::<I>();
    are_rising(indices) && are_within(indices, offset, array_len)
}

/// Whether the indices rise, and each is that of a position of the array.
fn indices_fit(indices: &PrimitiveArray, offset: usize, array_len: usize) -> bool
    ensures { result ≡ (is_rising (numbers indices.now) && list_all (is_index_within offset array_len) (numbers indices.now)) }
{
    match_each_integer_ptype!(
        indices.ptype(),
        indices_fit_typed(indices, offset, array_len)
    )
}

fn are_chunk_offsets_typed<C: NativePType>(
    indices: &PrimitiveArray,
    offsets: &PrimitiveArray,
) -> bool
    requires same { offsets.now.ptype ≡ C.PTYPE }
    requires rising { IsTrue (is_rising (numbers indices.now)) }
    ensures { result ≡ are_chunk_offsets (numbers indices.now) (numbers offsets.now) }
{
    let offsets = offsets.as_slice::<C>();
    for k in 0..offsets.len() {
        let count = count_in(indices, 1024 * k as u128);
        if number_at(offsets, k) != count {
            return false;
        }
    }
    true
}

/// Whether chunk offset `k` is the number of indices below `1024 * k`.
fn are_chunk_offsets(indices: &PrimitiveArray, offsets: &PrimitiveArray) -> bool
    requires { IsTrue (is_rising (numbers indices.now)) }
    ensures { result ≡ are_chunk_offsets (numbers indices.now) (numbers offsets.now) }
{
    match_each_integer_ptype!(offsets.ptype(), are_chunk_offsets_typed(indices, offsets))
}

/// Whether chunk offsets, if there are any, count the indices from 0.
fn chunk_offsets_fit(
    indices: &PrimitiveArray,
    offset: usize,
    chunk_offsets: &Option<PrimitiveArray>,
) -> bool
    requires { IsTrue (is_rising (numbers indices.now)) }
    ensures { result ≡ option_all (λ c. (offset == 0) && are_chunk_offsets (numbers indices.now) (numbers c)) chunk_offsets.now }
{
    match chunk_offsets {
        Some(offsets) => offset == 0 && are_chunk_offsets(indices, offsets),
        None => true,
    }
}

/// Why these parts are no patches, the first reason that holds.
pub(crate) fn first_refusal(
    array_len: usize,
    offset: usize,
    indices: &PrimitiveArray,
    values: &PrimitiveArray,
    chunk_offsets: &Option<PrimitiveArray>,
) -> Option<FastLanesError>
    ensures { result ≡ refusal_of (record { array_len = array_len; offset = offset; indices = indices.now; values = values.now; chunk_offsets = chunk_offsets.now }) }
{
    if !types_fit(indices, chunk_offsets) {
        return Some(FastLanesError::PatchType);
    }
    if !lengths_fit(array_len, indices, values, chunk_offsets) {
        return Some(FastLanesError::PatchLength);
    }
    if !indices_fit(indices, offset, array_len)
        || values.has_null()
        || !chunk_offsets_fit(indices, offset, chunk_offsets)
    {
        return Some(FastLanesError::PatchContent);
    }
    None
}
