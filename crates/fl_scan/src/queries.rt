//! What is asked most of an array, however nested. Only a Bool array is refused, and the number of nulls of one is not.

ghost use Rattle.std.specs.Prelude.{◌≡◌, IfErr, IfOk, IfSome, IsTrue, Ok, option_map};
ghost use Rattle.fl_types.specs.Integers.{is_unsigned};
ghost use Rattle.fl_types.specs.Refusals.{Answers};
ghost use Rattle.fl_types.specs.Types.{has_ptype, is_integer};
ghost use Rattle.fl_types.specs.Values.{integer_of, ptype_of_value, scalar_parts};
ghost use Rattle.fl_column.specs.Columns.{column_of_primitive, ptype_of_column};
ghost use Rattle.fl_column.specs.Queries.{holds, is_between};
ghost use Rattle.fl_array.specs.Trees.{column};
ghost use Rattle.fl_scan.specs.Constants.{integer_in, is_comparable};
ghost use Rattle.fl_scan.specs.Sums.{integer_of_sum, is_unsigned_sum};
ghost use Rattle.fl_scan.specs.Totals.{count_of, filtered_by, greatest_item, least_item, null_count_of, of_integers, sum_of};

use crate::arrays::source_of;
use crate::sums::{Sum, sum_typed};
use crate::totals::{count_compared, count_in_range, extremes, filter_compared, filter_in_range};
use fl_array::ArrayRef;
use fl_array::laws::items_are_in_range;
use fl_column::{
    BetweenOptions, CompareOperator, DType, FastLanesError, PValue, PrimitiveArray, Scalar,
    Validity,
};
use fl_types::match_each_integer_ptype;
use std::alloc::Global;

/// The integer of a constant of the array's type.
pub(crate) fn integer_for(array: &ArrayRef, constant: &Scalar) -> PValue
    requires integers { IsTrue (is_integer (column array.now).dtype) }
    requires comparable { IsTrue (is_comparable (column array.now) (scalar_parts constant.now)) }
    ensures value { integer_of result ≡ integer_in (scalar_parts constant.now) }
    ensures typed { IsTrue (has_ptype (ptype_of_value result) (column array.now).dtype) }
{
    match constant.as_pvalue() {
        Some(value) => value,
        None => unreachable!(),
    }
}

/// How many items are null, also of a Bool array.
///
/// # Errors
/// Only `OutOfMemory`.
pub fn null_count(alloc: Global, array: &ArrayRef) -> Result<usize, FastLanesError>
    ensures { Answers (λ n. n) result (Ok (null_count_of (column array.now))) }
{
    let len = array.len();
    match array.validity(alloc)? {
        Validity::NonNullable | Validity::AllValid => Ok(0),
        Validity::AllInvalid => Ok(len),
        Validity::Array(bits) => Ok(len - bits.count_true()),
    }
}

/// How many items compare so with a constant of the array's type that is not null; a null does not.
///
/// # Errors
/// `NotInteger`.
pub fn count(
    alloc: Global,
    array: &ArrayRef,
    operator: CompareOperator,
    constant: &Scalar,
) -> Result<usize, FastLanesError>
    requires { IsTrue (is_comparable (column array.now) (scalar_parts constant.now)) }
    ensures { Answers (λ n. n) result (of_integers (column array.now) (count_of (holds operator (integer_in (scalar_parts constant.now))) (column array.now))) }
{
    let DType::Primitive(ptype, _) = array.dtype() else {
        return Err(FastLanesError::NotInteger);
    };
    let value = integer_for(array, constant);
    let source = source_of(alloc, array)?;
    let count = match_each_integer_ptype!(ptype, count_compared(&source, operator, value));
    Ok(count)
}

/// How many items lie between two bounds of the array's type that are not null; a null does not. If the lower bound is
/// greater than the upper one, no item does.
///
/// # Errors
/// `NotInteger`.
pub fn count_between(
    alloc: Global,
    array: &ArrayRef,
    lower: &Scalar,
    upper: &Scalar,
    options: &BetweenOptions,
) -> Result<usize, FastLanesError>
    requires lower { IsTrue (is_comparable (column array.now) (scalar_parts lower.now)) }
    requires upper { IsTrue (is_comparable (column array.now) (scalar_parts upper.now)) }
    ensures { Answers (λ n. n) result (of_integers (column array.now) (count_of (is_between options.now (integer_in (scalar_parts lower.now)) (integer_in (scalar_parts upper.now))) (column array.now))) }
{
    let DType::Primitive(ptype, _) = array.dtype() else {
        return Err(FastLanesError::NotInteger);
    };
    let (low, high) = (integer_for(array, lower), integer_for(array, upper));
    let source = source_of(alloc, array)?;
    let count = match_each_integer_ptype!(ptype, count_in_range(&source, low, high, *options));
    Ok(count)
}

/// The least and the greatest valid item, or `None` if no item is valid.
///
/// # Errors
/// `NotInteger`.
pub fn min_max(alloc: Global, array: &ArrayRef) -> Result<Option<(PValue, PValue)>, FastLanesError>
    ensures least { Answers (option_map (λ p. integer_of p.0)) result (of_integers (column array.now) (least_item (column array.now))) }
    ensures greatest { Answers (option_map (λ p. integer_of p.1)) result (of_integers (column array.now) (greatest_item (column array.now))) }
    ensures typed { IfOk result (λ o. IfSome o (λ p. IsTrue (has_ptype (ptype_of_value p.0) (column array.now).dtype) × IsTrue (has_ptype (ptype_of_value p.1) (column array.now).dtype))) }
{
    let DType::Primitive(ptype, _) = array.dtype() else {
        return Err(FastLanesError::NotInteger);
    };
    let source = source_of(alloc, array)?;
    match_each_integer_ptype!(ptype, extremes(&source))
}

/// The exact sum of the valid items, which is 0 if none is valid.
///
/// # Errors
/// `NotInteger`.
pub fn sum(alloc: Global, array: &ArrayRef) -> Result<Sum, FastLanesError>
    ensures sum { Answers integer_of_sum result (of_integers (column array.now) (sum_of (column array.now))) }
    ensures typed { IfOk result (λ s. is_unsigned_sum s ≡ is_unsigned (ptype_of_column (column array.now))) }
{
    let DType::Primitive(ptype, _) = array.dtype() else {
        return Err(FastLanesError::NotInteger);
    };
    items_are_in_range(array);
    let source = source_of(alloc, array)?;
    sum_typed(&source, ptype)
}

/// The items that compare so with a constant of the array's type that is not null, in order, without the nulls.
///
/// # Errors
/// `NotInteger`.
pub fn filter_by(
    alloc: Global,
    array: &ArrayRef,
    operator: CompareOperator,
    constant: &Scalar,
) -> Result<PrimitiveArray, FastLanesError>
    requires { IsTrue (is_comparable (column array.now) (scalar_parts constant.now)) }
    ensures { Answers column_of_primitive result (of_integers (column array.now) (filtered_by (holds operator (integer_in (scalar_parts constant.now))) (column array.now))) }
{
    let DType::Primitive(ptype, nullability) = array.dtype() else {
        return Err(FastLanesError::NotInteger);
    };
    let value = integer_for(array, constant);
    let source = source_of(alloc, array)?;
    match_each_integer_ptype!(
        ptype,
        filter_compared(alloc, &source, nullability, operator, value)
    )
}

/// The items that lie between two bounds of the array's type that are not null, in order, without the nulls.
///
/// # Errors
/// `NotInteger`.
pub fn filter_between(
    alloc: Global,
    array: &ArrayRef,
    lower: &Scalar,
    upper: &Scalar,
    options: &BetweenOptions,
) -> Result<PrimitiveArray, FastLanesError>
    requires lower { IsTrue (is_comparable (column array.now) (scalar_parts lower.now)) }
    requires upper { IsTrue (is_comparable (column array.now) (scalar_parts upper.now)) }
    ensures { Answers column_of_primitive result (of_integers (column array.now) (filtered_by (is_between options.now (integer_in (scalar_parts lower.now)) (integer_in (scalar_parts upper.now))) (column array.now))) }
{
    let DType::Primitive(ptype, nullability) = array.dtype() else {
        return Err(FastLanesError::NotInteger);
    };
    let range = (integer_for(array, lower), integer_for(array, upper));
    let source = source_of(alloc, array)?;
    match_each_integer_ptype!(
        ptype,
        filter_in_range(alloc, &source, nullability, range, *options)
    )
}
