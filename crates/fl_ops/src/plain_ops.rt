//! Operations and queries of arrays whose kind has no faster way: block by block, or by the plain array of the same
//! column.

ghost use Rattle.std.specs.Prelude.{◌≡◌, IsTrue, Ok, length};
ghost use Rattle.fl_types.specs.declared.mask.Mask.TheVariants.{AllFalse, Values};
ghost use Rattle.fl_types.specs.Masks.{mask_len};
ghost use Rattle.fl_types.specs.Refusals.{Answers};
ghost use Rattle.fl_types.specs.Types.{is_integer};
ghost use Rattle.fl_column.specs.Columns.{column_of_bools, column_of_constant, column_of_primitive, ptype_of_column};
ghost use Rattle.fl_column.specs.Operations.{cast_column, filter_column, ranges_column, take_column};
ghost use Rattle.fl_column.specs.Queries.{is_constant_column, is_sorted_column, tested};
ghost use Rattle.fl_bitpacking.specs.RangeTests.{IsTestOf, passes};
ghost use Rattle.fl_array.specs.BitPackedArrays.{tree_of_bitpacked};
ghost use Rattle.fl_array.specs.Trees.{column};

use crate::by_blocks::ranges::are_read_singly;
use crate::by_blocks::{self, MOST_ITEMS, constancy, order, tests};
use crate::takes::items::take_items;
use crate::takes::{ranges_by_runs, take_ranges_packed};
use fastlanes::FL_CHUNK_SIZE;
use fl_array::ArrayRef;
use fl_array::bitpacking::BitPackedArray;
use fl_bitpacking::RangeTest;
use fl_bitpacking::compute::compare::primitive::test_primitive;
use fl_column::{
    BitList, BoolArray, ConstantArray, DType, FastLanesError, Mask, PrimitiveArray, ranges_total,
};
use std::alloc::Global;

/// The items that plain indices name. Of an encoding without a way of its own they are read one by one where the
/// indices are at most one for each chunk of the array, and else by blocks.
fn take_plain(
    alloc: Global,
    array: &ArrayRef,
    indices: &PrimitiveArray,
) -> Result<PrimitiveArray, FastLanesError>
    ensures { Answers column_of_primitive result (take_column (column_of_primitive indices.now) (column array.now)) }
{
    if let Some(plain) = array.as_primitive() {
        return plain.take(alloc, indices);
    }
    if let Some(constant_array) = array.as_constant() {
        return constant_array.take(alloc, indices);
    }
    if let Some(packed) = array.as_bitpacked() {
        return packed.take(alloc, indices);
    }
    if indices.len() <= array.len() / FL_CHUNK_SIZE {
        return take_items(alloc, array, indices);
    }
    by_blocks::take::take(alloc, array, indices)
}

/// The items that indices name.
pub(crate) fn take(
    alloc: Global,
    array: &ArrayRef,
    indices: &ArrayRef,
) -> Result<PrimitiveArray, FastLanesError>
    ensures { Answers column_of_primitive result (take_column (column indices.now) (column array.now)) }
{
    if let Some(indices) = indices.as_primitive() {
        return take_plain(alloc, array, indices);
    }
    let DType::Primitive(_, _) = indices.dtype() else {
        return Err(FastLanesError::NotInteger);
    };
    let indices = indices.to_primitive(alloc)?;
    take_plain(alloc, array, &indices)
}

/// The items of the ranges.
pub(crate) fn take_ranges(
    alloc: Global,
    array: &ArrayRef,
    ranges: &[(usize, usize)],
) -> Result<PrimitiveArray, FastLanesError>
    ensures { Answers column_of_primitive result (ranges_column ranges.now (column array.now)) }
{
    if let Some(plain) = array.as_primitive() {
        return plain.take_ranges(alloc, ranges);
    }
    if let Some(constant_array) = array.as_constant() {
        return constant_array.take_ranges(alloc, ranges);
    }
    let DType::Primitive(ptype, _) = array.dtype() else {
        return Err(FastLanesError::NotInteger);
    };
    let total = ranges_total(ranges, array.len())?;
    if let Some(packed) = ranges_by_runs(array, total) {
        return take_ranges_packed(alloc, packed, ranges, total);
    }
    if are_read_singly(array, ranges) {
        return by_blocks::ranges::read_ranges(alloc, array, ptype, ranges, total);
    }
    array.to_primitive(alloc)?.take_ranges(alloc, ranges)
}

/// No item of an array, for a mask that keeps none by its form.
#[tactic(auto, using(crate::proofs::Filters::none_kept))]
fn filter_none(
    alloc: Global,
    array: &ArrayRef,
    len: usize,
) -> Result<PrimitiveArray, FastLanesError>
    requires { len ≡ length (column array.now).items }
    ensures { Answers column_of_primitive result (filter_column (AllFalse len) (column array.now)) }
{
    match array.dtype() {
        DType::Primitive(ptype, nullability) => {
            Ok(PrimitiveArray::empty(alloc, ptype, nullability))
        }
        DType::Bool(_) => Err(FastLanesError::NotInteger),
    }
}

/// The items of a bit-packed array whose booleans are true.
fn filter_packed(
    alloc: Global,
    array: &BitPackedArray,
    bits: &BitList,
) -> Result<PrimitiveArray, FastLanesError>
    requires { length bits.now ≡ length (column (tree_of_bitpacked array.now)).items }
    ensures { Answers column_of_primitive result (filter_column (Values bits.now) (column (tree_of_bitpacked array.now))) }
{
    array.filter(alloc, bits)
}

/// The items at the mask's true places.
pub(crate) fn filter(
    alloc: Global,
    array: &ArrayRef,
    mask: &Mask,
) -> Result<PrimitiveArray, FastLanesError>
    requires { mask_len mask.now ≡ length (column array.now).items }
    ensures { Answers column_of_primitive result (filter_column mask.now (column array.now)) }
{
    if let Mask::AllFalse(len) = mask {
        return filter_none(alloc, array, *len);
    }
    if let Some(plain) = array.as_primitive() {
        return plain.filter(alloc, mask);
    }
    if let Some(constant_array) = array.as_constant() {
        return constant_array.filter(alloc, mask);
    }
    if let Mask::Values(bits) = mask {
        if let Some(packed) = array.as_bitpacked() {
            return filter_packed(alloc, packed, bits);
        }
        if array.len() <= MOST_ITEMS {
            return by_blocks::filter::filter(alloc, array, bits);
        }
    }
    array.to_primitive(alloc)?.filter(alloc, mask)
}

/// The same integers in another type.
pub(crate) fn cast(
    alloc: Global,
    array: &ArrayRef,
    target: DType,
) -> Result<PrimitiveArray, FastLanesError>
    ensures { Answers column_of_primitive result (cast_column target (column array.now)) }
{
    if let Some(plain) = array.as_primitive() {
        return plain.cast(alloc, target);
    }
    if let Some(constant_array) = array.as_constant() {
        return constant_array.cast(alloc, target);
    }
    by_blocks::cast::cast(alloc, array, target)
}

/// The answers of a test for the items.
pub(crate) fn test(
    alloc: Global,
    array: &ArrayRef,
    range: RangeTest,
) -> Result<BoolArray, FastLanesError>
    requires integers { IsTrue (is_integer (column array.now).dtype) }
    requires test { IsTestOf (ptype_of_column (column array.now)) range }
    ensures { Answers column_of_bools result (Ok (tested (passes range) (column array.now))) }
{
    if let Some(plain) = array.as_primitive() {
        return test_primitive(alloc, plain, range);
    }
    if array.len() <= MOST_ITEMS {
        return tests::test(alloc, array, range);
    }
    test_primitive(alloc, &array.to_primitive(alloc)?, range)
}

/// A Constant array is of integers. The call does nothing of use when it runs.
fn prove_integers(array: &ConstantArray)
    ensures { IsTrue (is_integer (column_of_constant array.now).dtype) }
{
    let _ptype = array.ptype();
}

/// Whether all items are equal.
pub(crate) fn is_constant(alloc: Global, array: &ArrayRef) -> Result<bool, FastLanesError>
    ensures { Answers (λ b. b) result (is_constant_column (column array.now)) }
{
    if let Some(plain) = array.as_primitive() {
        return Ok(plain.is_constant());
    }
    if let Some(constant_array) = array.as_constant() {
        prove_integers(constant_array);
        return Ok(constant_array.is_constant());
    }
    if array.len() <= MOST_ITEMS {
        return constancy::is_constant(alloc, array);
    }
    Ok(array.to_primitive(alloc)?.is_constant())
}

/// Whether no item is above the next or, where `strict`, each is below the next.
pub(crate) fn is_sorted(
    alloc: Global,
    array: &ArrayRef,
    strict: bool,
) -> Result<bool, FastLanesError>
    ensures { Answers (λ b. b) result (is_sorted_column strict (column array.now)) }
{
    if let Some(plain) = array.as_primitive() {
        return Ok(plain.is_sorted(strict));
    }
    if let Some(constant_array) = array.as_constant() {
        prove_integers(constant_array);
        return Ok(constant_array.is_sorted(strict));
    }
    if array.len() <= MOST_ITEMS {
        return order::is_sorted(alloc, array, strict);
    }
    Ok(array.to_primitive(alloc)?.is_sorted(strict))
}
