//! Whether items rise. A FoR array of one reference asks its encoded array where that is a constant, or where it
//! is plain and no sum passes the type's end: there the items rise as the encoded ones do. Past the end the sums
//! wrap and may fall, so everything else is answered by the decoded column.

ghost use Rattle.std.specs.Prelude.{◌≡◌, ◌+ℤ◌, IfSome, IsTrue, Ok};
ghost use Rattle.std.specs.List.{list_all};
ghost use Rattle.fl_types.specs.Integers.{fits};
ghost use Rattle.fl_types.specs.Refusals.{Answers};
ghost use Rattle.fl_types.specs.Values.{integer_of, ptype_of_value, scalar_parts};
ghost use Rattle.fl_column.specs.Columns.{column_of_primitive};
ghost use Rattle.fl_column.specs.Queries.{is_sorted_column};
ghost use Rattle.fl_array.specs.FoRArrays.{GlobalReference, tree_of_for};
ghost use Rattle.fl_array.specs.Trees.{column};
ghost use Rattle.fl_ops.specs.Sums.{sum_fits};

use crate::plain_ops;
use crate::selection::as_global_for;
use fl_array::ArrayRef;
use fl_array::for_::FoRArray;
use fl_array::laws::for_is_well_formed;
use fl_column::{FastLanesError, NativePType, PValue, PrimitiveArray, Scalar};
use fl_types::match_each_integer_ptype;
use num_traits::CheckedAdd;
use std::alloc::Global;

/// Whether the sum of an integer and the reference does not pass the type's end.
fn sum_fits<T: NativePType + CheckedAdd>(item: T, reference: T) -> bool
    ensures { result ≡ fits T.PTYPE (T.value item +ℤ T.value reference) }
{
    item.checked_add(&reference).is_some()
}

/// Whether no sum of these integers and the reference passes the type's end.
fn all_sums_fit<T: NativePType + CheckedAdd>(items: &[T], reference: T) -> bool
    ensures { result ≡ list_all (λ x. sum_fits T.PTYPE (T.value reference) (T.value x)) items.now }
{
    for item in items {
        if !sum_fits(*item, reference) {
            return false;
        }
    }
    true
}

fn sums_fit_typed<T: NativePType + CheckedAdd>(array: &PrimitiveArray, reference: PValue) -> bool
    requires array { array.now.ptype ≡ T.PTYPE }
    requires reference { ptype_of_value reference ≡ T.PTYPE }
    ensures { result ≡ list_all (sum_fits array.now.ptype (integer_of reference)) array.now.slots }
{
    let reference = T::from_pvalue(reference).unwrap();
    all_sums_fit(array.as_slice::<T>(), reference)
}

/// Whether no sum of a stored integer and the reference passes the type's end.
fn sums_fit(array: &PrimitiveArray, reference: PValue) -> bool
    requires { ptype_of_value reference ≡ array.now.ptype }
    ensures { result ≡ list_all (sum_fits array.now.ptype (integer_of reference)) array.now.slots }
{
    match_each_integer_ptype!(array.ptype(), sums_fit_typed(array, reference))
}

/// Whether the items rise, where the encoded array is plain and no sum passes the type's end.
fn is_plain_sorted(
    array: &FoRArray,
    plain: &PrimitiveArray,
    reference: Scalar,
    strict: bool,
) -> Option<bool>
    requires same { GlobalReference (scalar_parts reference) ≡ array.now.references }
    requires encoded { column array.now.encoded ≡ column_of_primitive plain.now }
    ensures { IfSome result (λ sorted. is_sorted_column strict (column (tree_of_for array.now)) ≡ Ok sorted) }
{
    for_is_well_formed(array);
    let value = reference.as_pvalue()?;
    if sums_fit(plain, value) {
        Some(plain.is_sorted(strict))
    } else {
        None
    }
}

/// Whether the items rise, where the encoded array can tell.
fn is_encoded_sorted(array: &FoRArray, reference: Scalar, strict: bool) -> Option<bool>
    requires { GlobalReference (scalar_parts reference) ≡ array.now.references }
    ensures { IfSome result (λ sorted. is_sorted_column strict (column (tree_of_for array.now)) ≡ Ok sorted) }
{
    let encoded = array.encoded();
    if let Some(constant) = encoded.as_constant() {
        let _ptype = constant.ptype();
        return Some(constant.is_sorted(strict));
    }
    match encoded.as_primitive() {
        Some(plain) => is_plain_sorted(array, plain, reference, strict),
        None => None,
    }
}

/// Whether no item is above the next or, where `strict`, each is below the next.
pub(crate) fn is_sorted(
    alloc: Global,
    array: &ArrayRef,
    strict: bool,
) -> Result<bool, FastLanesError>
    ensures { Answers (λ b. b) result (is_sorted_column strict (column array.now)) }
{
    if let Some((encoded, reference)) = as_global_for(array) {
        if let Some(sorted) = is_encoded_sorted(encoded, reference, strict) {
            return Ok(sorted);
        }
    }
    plain_ops::is_sorted(alloc, array, strict)
}
