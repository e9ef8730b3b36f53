//! Whether each item of an array begins a run.

ghost use Rattle.std.specs.Prelude.{◌≡◌, ◌+◌, ◌<◌, ℕ, true, false, length, map, pos, slice_index_or};
ghost use Rattle.std.specs.Ordering.{int_eq};
ghost use Rattle.fl_codec.specs.Parts.{encode_runs};

use fl_column::PrimitiveArray;
use fl_types::{NativePType, Validity, is_equal, match_each_integer_ptype};

/// Whether each of these integers but the first differs from the one before.
fn differ<T: NativePType>(items: &[T]) -> bool
    ensures { result ≡ true → (i : ℕ) → i + 1 < length items.now → int_eq (slice_index_or (map T.value items.now) (i + 1) (pos 0)) (slice_index_or (map T.value items.now) i (pos 0)) ≡ false }
{
    for i in 1..items.len() {
        if is_equal(items[i], items[i - 1]) {
            return false;
        }
    }
    true
}

fn are_single_typed<T: NativePType>(array: &PrimitiveArray) -> bool
    requires { array.now.ptype ≡ T.PTYPE }
    ensures { result ≡ true → (encode_runs array.now).values ≡ array.now }
{
    match array.validity() {
        Validity::NonNullable => differ(array.as_slice::<T>()),
        _ => false,
    }
}

/// Whether each item begins a run, as no item is null and each differs from the one before. The run values are the
/// array itself then.
pub(crate) fn are_runs_single(array: &PrimitiveArray) -> bool
    ensures { result ≡ true → (encode_runs array.now).values ≡ array.now }
{
    match_each_integer_ptype!(array.ptype(), are_single_typed(array))
}
