//! Columns without nulls whose items do not fall: their dictionaries are their runs.

ghost use Rattle.std.specs.Prelude.{◌≡◌, ◌+◌, ◌<◌, ◌≤ℤ◌, ℕ, Ok, true, length, map, pos, slice_index_or};
ghost use Rattle.fl_types.specs.Refusals.{Answers};
ghost use Rattle.fl_codec.specs.Dictionaries.{encode_dictionaries};
ghost use Rattle.fl_codec.specs.Parts.{encode_runs, run_parts};

use crate::single_runs::are_runs_single;
use fl_codec::rle::{self, Runs, dictionary};
use fl_column::{FastLanesError, PrimitiveArray};
use fl_types::{NativePType, Validity, is_less, match_each_integer_ptype};
use std::alloc::Global;

/// Whether none of these integers is below the one before.
fn rise<T: NativePType>(items: &[T]) -> bool
    ensures { result ≡ true → (i : ℕ) → i + 1 < length items.now → slice_index_or (map T.value items.now) i (pos 0) ≤ℤ slice_index_or (map T.value items.now) (i + 1) (pos 0) }
{
    for i in 1..items.len() {
        if is_less(items[i], items[i - 1]) {
            return false;
        }
    }
    true
}

fn are_sorted_typed<T: NativePType>(array: &PrimitiveArray) -> bool
    requires { array.now.ptype ≡ T.PTYPE }
    ensures { result ≡ true → encode_dictionaries array.now ≡ encode_runs array.now }
{
    match array.validity() {
        Validity::NonNullable => rise(array.as_slice::<T>()),
        _ => false,
    }
}

/// Whether no item is null, and none is below the one before. The dictionaries are the runs then.
pub(crate) fn are_sorted(array: &PrimitiveArray) -> bool
    ensures { result ≡ true → encode_dictionaries array.now ≡ encode_runs array.now }
{
    match_each_integer_ptype!(array.ptype(), are_sorted_typed(array))
}

/// Whether each item is above the one before, and none is null. The distinct items are the array itself then.
pub(crate) fn are_items_distinct(array: &PrimitiveArray) -> bool
    ensures { result ≡ true → (encode_dictionaries array.now).values ≡ array.now }
{
    are_runs_single(array) && are_sorted(array)
}

/// A dictionary for each chunk, as `dictionary::encode` makes them. Of items that do not fall they are the runs, which cost
/// no search.
pub(crate) fn dictionaries_of(alloc: Global, array: &PrimitiveArray) -> Result<Runs, FastLanesError>
    ensures { Answers run_parts result (Ok (encode_dictionaries array.now)) }
{
    if are_sorted(array) {
        return rle::encode(alloc, array);
    }
    dictionary::encode(alloc, array)
}
