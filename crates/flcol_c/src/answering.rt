//! Tests of items, answered by bitmaps.

ghost use Rattle.std.specs.Prelude.{◌≡◌, All, IfOk, IfSome, OnErr, OnOk, length, map};
ghost use Rattle.fl_types.specs.Values.{integer_of, ptype_of_value};
ghost use Rattle.fl_array.specs.Trees.{column};
ghost use Rattle.fl_column.specs.Queries.{holds, is_between};
ghost use Rattle.fl_scan.specs.Membership.{is_one_of};
ghost use Rattle.flcol_c.specs.Answering.{AreAnswers, compare_fault, operator_of, options_of, strictness_of, test_fault};
ghost use Rattle.fl_bitmaps.specs.Bitmaps.{IsClearFrom};
ghost use Rattle.flcol_c.specs.Reading.{nulls_fault};
ghost use Rattle.flcol_c.specs.Statuses.{GivesAfter};

use crate::booleans::write_booleans;
use crate::fault::Fault;
use crate::reading::is_of;
use fl_array::ArrayRef;
use fl_column::bitmaps::bitmap_len;
use fl_column::{
    BetweenOptions, CompareOperator, NativePType, Nullability, PValue, Scalar, StrictComparison,
};
use fl_ops::ArrayOps;
use std::alloc::{AllocError, Global};

/// The operator that a number names, if there is one.
pub(crate) fn operator_of(number: u8) -> Option<CompareOperator>
    ensures { result ≡ operator_of number }
{
    match number {
        0 => Some(CompareOperator::Eq),
        1 => Some(CompareOperator::NotEq),
        2 => Some(CompareOperator::Gt),
        3 => Some(CompareOperator::Gte),
        4 => Some(CompareOperator::Lt),
        5 => Some(CompareOperator::Lte),
        _ => None,
    }
}

/// A bound is left out where the number is not 0.
fn strictness_of(number: u8) -> StrictComparison
    ensures { result ≡ strictness_of number }
{
    if number == 0 {
        StrictComparison::NonStrict
    } else {
        StrictComparison::Strict
    }
}

/// How two bounds are meant, each left out where its number is not 0.
pub(crate) fn options_of(lower: u8, upper: u8) -> BetweenOptions
    ensures { result ≡ options_of lower upper }
{
    BetweenOptions {
        lower_strict: strictness_of(lower),
        upper_strict: strictness_of(upper),
    }
}

/// Writes how each item compares with a constant, and which items are valid. Bits after theirs are not set.
///
/// # Errors
/// `BadOperator`; `WrongType` where the array is not of integers of this type; `WrongLength` where the bytes of the
/// answers are not those of a bitmap, or the others neither those of one nor none; `ValidityLength` where there is
/// none and an item is null.
pub(crate) fn compare<T: NativePType>(
    alloc: Global,
    array: &ArrayRef,
    operator: u8,
    constant: T,
    bits: &mut [u8],
    validity: &mut [u8],
) -> Result<(), Fault>
    ensures compared { GivesAfter (compare_fault T.PTYPE operator (length bits.old) (column array.now)) (nulls_fault (length validity.old) (column array.now)) (λ _. IfSome (operator_of operator) (λ op. AreAnswers (holds op (T.value constant)) (column array.now) bits.new validity.new)) result }
    ensures clear { OnOk result (IsClearFrom (length (column array.now).items) bits.new) }
    ensures clear_valid { OnOk result (IsClearFrom (length (column array.now).items) validity.new) }
    ensures unwritten { OnErr result ((bits.new ≡ bits.old) × (validity.new ≡ validity.old)) }
{
    let Some(operator) = operator_of(operator) else {
        return Err(Fault::BadOperator);
    };
    if !is_of::<T>(array) {
        return Err(Fault::WrongType);
    }
    if bits.len() != bitmap_len(array.len()) {
        return Err(Fault::WrongLength);
    }
    let constant = Scalar::primitive(constant.into_pvalue(), Nullability::NonNullable);
    let answers = array.compare(alloc, operator, &constant)?;
    let _count = answers.len();
    write_booleans(&answers, bits, validity)
}

/// Writes whether each item lies between two bounds, each left out where its number is not 0, and which items are
/// valid. Bits after theirs are not set.
///
/// # Errors
/// As of `compare`, but for the operator.
pub(crate) fn between<T: NativePType>(
    alloc: Global,
    array: &ArrayRef,
    bounds: (T, T),
    strict: (u8, u8),
    bits: &mut [u8],
    validity: &mut [u8],
) -> Result<(), Fault>
    ensures tested { GivesAfter (test_fault T.PTYPE (length bits.old) (column array.now)) (nulls_fault (length validity.old) (column array.now)) (λ _. AreAnswers (is_between (options_of strict.0 strict.1) (T.value bounds.0) (T.value bounds.1)) (column array.now) bits.new validity.new) result }
    ensures clear { OnOk result (IsClearFrom (length (column array.now).items) bits.new) }
    ensures clear_valid { OnOk result (IsClearFrom (length (column array.now).items) validity.new) }
    ensures unwritten { OnErr result ((bits.new ≡ bits.old) × (validity.new ≡ validity.old)) }
{
    if !is_of::<T>(array) {
        return Err(Fault::WrongType);
    }
    if bits.len() != bitmap_len(array.len()) {
        return Err(Fault::WrongLength);
    }
    let lower = Scalar::primitive(bounds.0.into_pvalue(), Nullability::NonNullable);
    let upper = Scalar::primitive(bounds.1.into_pvalue(), Nullability::NonNullable);
    let options = options_of(strict.0, strict.1);
    let answers = array.between(alloc, &lower, &upper, &options)?;
    let _count = answers.len();
    write_booleans(&answers, bits, validity)
}

/// The values of a list.
///
/// # Errors
/// Only where memory runs out.
fn values_of<T: NativePType>(alloc: Global, list: &[T]) -> Result<Vec<PValue>, AllocError>
    ensures integers { IfOk result (λ values. map integer_of values.items ≡ map T.value list.now) }
    ensures typed { IfOk result (λ values. All (λ value. ptype_of_value value ≡ T.PTYPE) values.items) }
{
    let mut values = Vec::with_capacity(alloc, list.len())?;
    for value in list {
        values.push(value.into_pvalue())?;
    }
    Ok(values)
}

/// Writes whether each item is one of a list, and which items are valid. Bits after theirs are not set.
///
/// # Errors
/// As of `between`.
pub(crate) fn is_in<T: NativePType>(
    alloc: Global,
    array: &ArrayRef,
    list: &[T],
    bits: &mut [u8],
    validity: &mut [u8],
) -> Result<(), Fault>
    ensures tested { GivesAfter (test_fault T.PTYPE (length bits.old) (column array.now)) (nulls_fault (length validity.old) (column array.now)) (λ _. AreAnswers (is_one_of (map T.value list.now)) (column array.now) bits.new validity.new) result }
    ensures clear { OnOk result (IsClearFrom (length (column array.now).items) bits.new) }
    ensures clear_valid { OnOk result (IsClearFrom (length (column array.now).items) validity.new) }
    ensures unwritten { OnErr result ((bits.new ≡ bits.old) × (validity.new ≡ validity.old)) }
{
    if !is_of::<T>(array) {
        return Err(Fault::WrongType);
    }
    if bits.len() != bitmap_len(array.len()) {
        return Err(Fault::WrongLength);
    }
    let values = values_of(alloc, list)?;
    let answers = fl_scan::is_in(alloc, array, &values)?;
    let _count = answers.len();
    write_booleans(&answers, bits, validity)
}
