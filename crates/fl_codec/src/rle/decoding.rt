//! The items of one chunk of runs.

ghost use Rattle.std.specs.Prelude.{◌≡◌, ◌+◌, ◌<◌, ◌≤◌, ℕ, IsTrue, length, map, pos, slice_index_or, true, unsigned_abs};
ghost use Rattle.fl_types.specs.Integers.{is_unsigned};
ghost use Rattle.fl_column.specs.Columns.{column_of_primitive, numbers_of};
ghost use Rattle.fl_codec.specs.RunColumns.{chunk_end, chunk_start, run_count};

use crate::rle::{end_of_chunk, start_of_chunk};
use fl_column::PrimitiveArray;
use fl_types::NativePType;

/// Writes the value that its index names at each place. No index ends the loop early, but as one might, LLVM leaves it
/// to scalar loads, which take less time than gathering them into vectors.
fn write_named<T: NativePType, I: NativePType>(values: &[T], indices: &[I], items: &mut [T])
    requires long { length indices.now ≡ length items.old }
    requires named { (i : ℕ) → i < length items.old → unsigned_abs (slice_index_or (map I.value indices.now) i (pos 0)) < length values.now }
    ensures { (i : ℕ) → i < length items.old → slice_index_or (map T.value items.new) i (pos 0) ≡ slice_index_or (map T.value values.now) (unsigned_abs (slice_index_or (map I.value indices.now) i (pos 0))) (pos 0) }
{
    for i in 0..items.len() {
        let index = indices[i].unsigned_abs() as usize;
        if index >= values.len() {
            return;
        }
        items[i] = values[index];
    }
}

/// Writes the value that its index names at each place, or the last value if there is none.
fn write_named_or_last<T: NativePType, I: NativePType>(values: &[T], indices: &[I], items: &mut [T])
    requires long { length indices.now ≡ length items.old }
    requires some { 0 < length values.now }
    ensures { (i : ℕ) → i < length items.old → unsigned_abs (slice_index_or (map I.value indices.now) i (pos 0)) < length values.now → slice_index_or (map T.value items.new) i (pos 0) ≡ slice_index_or (map T.value values.now) (unsigned_abs (slice_index_or (map I.value indices.now) i (pos 0))) (pos 0) }
{
    let last = values.len() - 1;
    for i in 0..items.len() {
        items[i] = values[(indices[i].unsigned_abs() as usize).min(last)];
    }
}

/// The run values of chunk `k`.
pub fn values_of_chunk<'a, T: NativePType>(
    values: &'a [T],
    offsets: &PrimitiveArray,
    k: usize,
) -> &'a [T]
    requires unsigned { IsTrue (is_unsigned offsets.now.ptype) }
    requires range { k < length offsets.now.slots }
    requires order { chunk_start (numbers_of (column_of_primitive offsets.now)) k ≤ chunk_end (numbers_of (column_of_primitive offsets.now)) (length values.now) k }
    requires within { chunk_end (numbers_of (column_of_primitive offsets.now)) (length values.now) k ≤ length values.now }
    ensures count { length result.now ≡ run_count (numbers_of (column_of_primitive offsets.now)) (length values.now) k }
    ensures values { (i : ℕ) → i < length result.now → slice_index_or (map T.value result.now) i (pos 0) ≡ slice_index_or (map T.value values.now) (chunk_start (numbers_of (column_of_primitive offsets.now)) k + i) (pos 0) }
{
    let start = start_of_chunk(offsets, k);
    let end = end_of_chunk(offsets, values.len(), k);
    &values[start..end]
}

/// Writes the value that its index names at each place, among the run values of one chunk, of which there is one at
/// least. Unless all indices name one, an index that names none writes any of them.
pub fn write_run_items<T: NativePType, I: NativePType>(
    values: &[T],
    indices: &[I],
    all_named: bool,
    items: &mut [T],
)
    requires long { length indices.now ≡ length items.old }
    requires some { 0 < length values.now }
    requires named { all_named ≡ true → (i : ℕ) → i < length items.old → unsigned_abs (slice_index_or (map I.value indices.now) i (pos 0)) < length values.now }
    ensures { (i : ℕ) → i < length items.old → unsigned_abs (slice_index_or (map I.value indices.now) i (pos 0)) < length values.now → slice_index_or (map T.value items.new) i (pos 0) ≡ slice_index_or (map T.value values.now) (unsigned_abs (slice_index_or (map I.value indices.now) i (pos 0))) (pos 0) }
{
    if all_named {
        write_named(values, indices, items)
    } else {
        write_named_or_last(values, indices, items)
    }
}
