//! What is asked of the items of an array that a mask keeps. A block without one is not read.

ghost use Rattle.std.specs.Prelude.{◌≡◌, ℤ, Bool, IfErr, IfOk, IfSome, IsTrue, Ok, length, option_map};
ghost use Rattle.fl_types.specs.declared.error.FastLanesError.TheVariants.{OutOfMemory};
ghost use Rattle.fl_types.specs.Integers.{is_unsigned};
ghost use Rattle.fl_types.specs.Masks.{mask_bits, mask_len};
ghost use Rattle.fl_types.specs.Refusals.{Answers};
ghost use Rattle.fl_types.specs.Types.{has_ptype};
ghost use Rattle.fl_types.specs.Values.{integer_of, ptype_of_value, scalar_parts};
ghost use Rattle.fl_column.specs.Columns.{ptype_of_column};
ghost use Rattle.fl_column.specs.Operations.{filter_of};
ghost use Rattle.fl_column.specs.Queries.{holds, is_between};
ghost use Rattle.fl_bitpacking.specs.RangeTests.{IsTestOf, passes};
ghost use Rattle.fl_array.specs.Trees.{column};
ghost use Rattle.fl_scan.specs.Blocks.{Marks};
ghost use Rattle.fl_scan.specs.Constants.{integer_in, is_comparable};
ghost use Rattle.fl_scan.specs.Selections.{passed_under, passing_marks, under_mask};
ghost use Rattle.fl_scan.specs.Sources.{column_of_source};
ghost use Rattle.fl_scan.specs.Sums.{integer_of_sum, is_unsigned_sum};
ghost use Rattle.fl_scan.specs.Totals.{count_of, greatest_item, least_item, of_integers, of_kept, sum_of, valid_items};

use crate::blocks::MOST_ITEMS;
use crate::kept::Kept;
use crate::marks::marks_of;
use crate::passing::keep_passing;
use crate::queries::integer_for;
use crate::source::Source;
use crate::sums::{Sum, sum_typed};
use crate::totals::{count_compared, extremes};
use fl_array::laws::items_are_in_range;
use fl_array::{ArrayRef, Reader};
use fl_bitpacking::RangeTest;
use fl_bitpacking::unpack_iter::BitPacked;
use fl_column::{
    BetweenOptions, BitList, CompareOperator, DType, FastLanesError, Mask, PType, PValue,
    PhysicalPType, Scalar, Validity,
};
use fl_types::match_each_integer_ptype;
use num_traits::WrappingAdd;
use std::alloc::Global;

/// What is scanned of the items of an array that a mask keeps.
fn source_under<'a>(
    alloc: Global,
    array: &'a ArrayRef,
    mask: &Mask,
) -> Result<Source<'a>, FastLanesError>
    requires { mask_len mask.now ≡ length (column array.now).items }
    ensures items { Answers (λ s. valid_items (column_of_source s)) result (of_integers (column array.now) (valid_items (filter_of mask.now (column array.now)))) }
    ensures typed { IfOk result (λ s. (column_of_source s).dtype ≡ (column array.now).dtype) }
{
    if array.len() <= MOST_ITEMS {
        let kept = Kept::try_new(alloc, array, mask)?;
        return Ok(Source::Kept(kept));
    }
    let plain = array.to_primitive(alloc)?;
    Ok(Source::Decoded(plain.filter(alloc, mask)?))
}

/// How many valid items compare so with a constant.
fn count_typed(source: &Source, ptype: PType, operator: CompareOperator, constant: PValue) -> usize
    requires typed { IsTrue (has_ptype ptype (column_of_source source.now).dtype) }
    requires constant { ptype_of_value constant ≡ ptype }
    ensures { result ≡ count_of (holds operator (integer_of constant)) (column_of_source source.now) }
{
    match_each_integer_ptype!(ptype, count_compared(source, operator, constant))
}

/// The least and the greatest valid item, if one is valid.
fn extremes_typed(source: &Source, ptype: PType) -> Result<Option<(PValue, PValue)>, FastLanesError>
    requires { IsTrue (has_ptype ptype (column_of_source source.now).dtype) }
    ensures least { Answers (option_map (λ p. integer_of p.0)) result (Ok (least_item (column_of_source source.now))) }
    ensures greatest { Answers (option_map (λ p. integer_of p.1)) result (Ok (greatest_item (column_of_source source.now))) }
    ensures typed { IfOk result (λ o. IfSome o (λ p. (ptype_of_value p.0 ≡ ptype) × (ptype_of_value p.1 ≡ ptype))) }
{
    match_each_integer_ptype!(ptype, extremes(source))
}

/// The marks of the items of an array that a mask keeps and that are not null.
fn marks_under(alloc: Global, array: &ArrayRef, mask: &Mask) -> Result<Validity, FastLanesError>
    requires { mask_len mask.now ≡ length (column array.now).items }
    ensures marks { IfOk result (λ marks. Marks marks (column array.now)) }
    ensures passing { IfOk result (λ marks. (test : ℤ → Bool) → passing_marks test marks (column array.now) ≡ passed_under mask.now test (column array.now)) }
    ensures memory { IfErr result (λ e. e ≡ OutOfMemory) }
{
    let validity = array.validity(alloc)?;
    marks_of(alloc, mask, validity)
}

/// The marks of the items that lie in a range.
fn keep_in_range<T: BitPacked + PhysicalPType + WrappingAdd>(
    alloc: Global,
    reader: &Reader,
    marks: &Validity,
    range: RangeTest,
) -> Result<BitList, FastLanesError>
    requires typed { IsTrue (has_ptype T.PTYPE reader.now.column.dtype) }
    requires test { IsTestOf T.PTYPE range }
    requires marks { Marks marks.now reader.now.column }
    ensures marks { IfOk result (λ bits. bits ≡ passing_marks (passes range) marks.now reader.now.column) }
    ensures memory { IfErr result (λ e. e ≡ OutOfMemory) }
{
    keep_passing::<T, _>(alloc, reader, marks, range)
}

/// The same, by a column's integer type.
fn keep_typed(
    alloc: Global,
    reader: &Reader,
    marks: &Validity,
    ptype: PType,
    range: RangeTest,
) -> Result<BitList, FastLanesError>
    requires typed { IsTrue (has_ptype ptype reader.now.column.dtype) }
    requires test { IsTestOf ptype range }
    requires marks { Marks marks.now reader.now.column }
    ensures marks { IfOk result (λ bits. bits ≡ passing_marks (passes range) marks.now reader.now.column) }
    ensures memory { IfErr result (λ e. e ≡ OutOfMemory) }
{
    match_each_integer_ptype!(ptype, keep_in_range(alloc, reader, marks, range))
}

/// Which of the items that a mask keeps are not null and lie in a range.
fn passed(
    alloc: Global,
    array: &ArrayRef,
    mask: &Mask,
    ptype: PType,
    range: RangeTest,
) -> Result<Mask, FastLanesError>
    requires mask { mask_len mask.now ≡ length (column array.now).items }
    requires typed { IsTrue (has_ptype ptype (column array.now).dtype) }
    requires test { IsTestOf ptype range }
    ensures { Answers mask_bits result (Ok (passed_under mask.now (passes range) (column array.now))) }
{
    let marks = marks_under(alloc, array, mask)?;
    let reader = Reader::try_new(alloc, array)?;
    let bits = keep_typed(alloc, &reader, &marks, ptype, range)?;
    Ok(Mask::Values(bits))
}

/// Which of the items that a mask keeps compare so with a constant of the array's type that is not null; a null does
/// not. The answer is a mask, under which another array of as many items can be asked. A block of which the mask keeps
/// no item is not read.
///
/// # Errors
/// Those of `count_under`.
pub fn compare_under(
    alloc: Global,
    array: &ArrayRef,
    mask: &Mask,
    operator: CompareOperator,
    constant: &Scalar,
) -> Result<Mask, FastLanesError>
    requires { IsTrue (is_comparable (column array.now) (scalar_parts constant.now)) }
    ensures { Answers mask_bits result (under_mask mask.now (column array.now) (passed_under mask.now (holds operator (integer_in (scalar_parts constant.now))) (column array.now))) }
{
    if mask.len() != array.len() {
        return Err(FastLanesError::MaskLength);
    }
    let DType::Primitive(ptype, _) = array.dtype() else {
        return Err(FastLanesError::NotInteger);
    };
    let value = integer_for(array, constant);
    let range = RangeTest::comparing(operator, value);
    passed(alloc, array, mask, ptype, range)
}

/// Which of the items that a mask keeps lie between two bounds of the array's type that are not null; a null does not.
/// The answer is a mask, as that of `compare_under`.
///
/// # Errors
/// Those of `count_under`.
pub fn between_under(
    alloc: Global,
    array: &ArrayRef,
    mask: &Mask,
    lower: &Scalar,
    upper: &Scalar,
    options: &BetweenOptions,
) -> Result<Mask, FastLanesError>
    requires lower { IsTrue (is_comparable (column array.now) (scalar_parts lower.now)) }
    requires upper { IsTrue (is_comparable (column array.now) (scalar_parts upper.now)) }
    ensures { Answers mask_bits result (under_mask mask.now (column array.now) (passed_under mask.now (is_between options.now (integer_in (scalar_parts lower.now)) (integer_in (scalar_parts upper.now))) (column array.now))) }
{
    if mask.len() != array.len() {
        return Err(FastLanesError::MaskLength);
    }
    let DType::Primitive(ptype, _) = array.dtype() else {
        return Err(FastLanesError::NotInteger);
    };
    let (low, high) = (integer_for(array, lower), integer_for(array, upper));
    let range = RangeTest::between(low, high, *options);
    passed(alloc, array, mask, ptype, range)
}

/// How many of the items that a mask keeps compare so with a constant of the array's type that is not null; a null does
/// not.
///
/// # Errors
/// `MaskLength` if the mask is for another number of items, then `NotInteger`.
pub fn count_under(
    alloc: Global,
    array: &ArrayRef,
    mask: &Mask,
    operator: CompareOperator,
    constant: &Scalar,
) -> Result<usize, FastLanesError>
    requires { IsTrue (is_comparable (column array.now) (scalar_parts constant.now)) }
    ensures { Answers (λ n. n) result (of_kept mask.now (column array.now) (count_of (holds operator (integer_in (scalar_parts constant.now))))) }
{
    if mask.len() != array.len() {
        return Err(FastLanesError::MaskLength);
    }
    let DType::Primitive(ptype, _) = array.dtype() else {
        return Err(FastLanesError::NotInteger);
    };
    let value = integer_for(array, constant);
    let source = source_under(alloc, array, mask)?;
    Ok(count_typed(&source, ptype, operator, value))
}

/// The least and the greatest valid item that a mask keeps, or `None` if there is none.
///
/// # Errors
/// Those of `count_under`.
pub fn min_max_under(
    alloc: Global,
    array: &ArrayRef,
    mask: &Mask,
) -> Result<Option<(PValue, PValue)>, FastLanesError>
    ensures least { Answers (option_map (λ p. integer_of p.0)) result (of_kept mask.now (column array.now) least_item) }
    ensures greatest { Answers (option_map (λ p. integer_of p.1)) result (of_kept mask.now (column array.now) greatest_item) }
    ensures typed { IfOk result (λ o. IfSome o (λ p. IsTrue (has_ptype (ptype_of_value p.0) (column array.now).dtype) × IsTrue (has_ptype (ptype_of_value p.1) (column array.now).dtype))) }
{
    if mask.len() != array.len() {
        return Err(FastLanesError::MaskLength);
    }
    let DType::Primitive(ptype, _) = array.dtype() else {
        return Err(FastLanesError::NotInteger);
    };
    let source = source_under(alloc, array, mask)?;
    extremes_typed(&source, ptype)
}

/// The exact sum of the valid items that a mask keeps, which is 0 if there is none.
///
/// # Errors
/// Those of `count_under`.
pub fn sum_under(alloc: Global, array: &ArrayRef, mask: &Mask) -> Result<Sum, FastLanesError>
    ensures sum { Answers integer_of_sum result (of_kept mask.now (column array.now) sum_of) }
    ensures typed { IfOk result (λ s. is_unsigned_sum s ≡ is_unsigned (ptype_of_column (column array.now))) }
{
    if mask.len() != array.len() {
        return Err(FastLanesError::MaskLength);
    }
    let DType::Primitive(ptype, _) = array.dtype() else {
        return Err(FastLanesError::NotInteger);
    };
    items_are_in_range(array);
    let source = source_under(alloc, array, mask)?;
    sum_typed(&source, ptype)
}
