//! Selections from plain arrays: by indices, by ranges, by a mask.

pub(crate) mod filtered;
mod with_bits;
pub(crate) mod without_nulls;

ghost use Rattle.std.specs.Prelude.{◌≡◌, ◌<◌, ◌||◌, ◌+◌, ◌^◌, ◌++◌, IsTrue, is_some, map, length, Ok, OnOk, IfErr, IfOk, None, Some, option_map, slice_index_or, unsigned_abs};
ghost use Rattle.std.specs.List.{flat_map, list_all};
ghost use Rattle.fl_types.specs.Buffers.{integers_of, ptype_of};
ghost use Rattle.fl_types.specs.Bits.{between};
ghost use Rattle.fl_column.specs.Columns.{column_of_primitive};
ghost use Rattle.fl_types.specs.Validities.{covers, items_of, nullability_of};
ghost use Rattle.fl_column.specs.Operations.{filter_of, is_in_range, kept, range_fits, ranges_column, ranges_of, ranges_total, take_column, total_of};
ghost use Rattle.fl_types.specs.Masks.{mask_len};
ghost use Rattle.fl_column.specs.Selections.{are_below_length, is_below_length, item_at_position, items_at, positions_in};
ghost use Rattle.fl_types.specs.Types.{can_be_null};
ghost use Rattle.fl_types.specs.Refusals.{Answers};
ghost use Rattle.fl_types.specs.declared.dtype.DType.TheVariants.{Primitive};
ghost use Rattle.fl_types.specs.declared.error.FastLanesError.TheVariants.{OutOfMemory};

use crate::builder::PrimitiveBuilder;
use crate::primitive::PrimitiveArray;
use crate::selection::without_nulls::is_full;
use fl_types::{
    BitList, FastLanesError, Mask, NativePType, Nullability, PrimitiveBuffer, Validity,
    match_each_integer_ptype,
};
use std::alloc::Global;

/// The item at an index, or `None` for a null.
pub fn item_at<T: NativePType>(items: &[T], validity: &Validity, i: usize) -> Option<T>
    requires covers { IsTrue (covers validity.now (length items.now)) }
    requires range { i < length items.now }
    ensures { option_map T.value result ≡ slice_index_or (items_of validity.now (map T.value items.now)) i None }
{
    if validity.is_valid(i, items.len()) {
        Some(items[i])
    } else {
        None
    }
}

/// The item at a position, or `None` where there is no position or a null.
fn item_at_position<T: NativePType>(
    items: &[T],
    validity: &Validity,
    position: Option<usize>,
) -> Option<T>
    requires covers { IsTrue (covers validity.now (length items.now)) }
    requires below { IsTrue (is_below_length (length items.now) position) }
    ensures { option_map T.value result ≡ item_at_position (items_of validity.now (map T.value items.now)) position }
{
    match position {
        Some(i) => item_at(items, validity, i),
        None => None,
    }
}

/// The items at these positions, null where there is none.
pub(crate) fn take_typed<T: NativePType>(
    slots: &PrimitiveBuffer,
    alloc: Global,
    validity: &Validity,
    positions: &[Option<usize>],
    nullability: Nullability,
) -> Result<PrimitiveArray, FastLanesError>
    requires same { ptype_of slots.now ≡ T.PTYPE }
    requires covers { IsTrue (covers validity.now (length (integers_of slots.now))) }
    requires below { IsTrue (are_below_length (length (integers_of slots.now)) positions.now) }
    requires nulls { IsTrue (can_be_null nullability || list_all is_some (items_at (items_of validity.now (integers_of slots.now)) positions.now)) }
    ensures { Answers column_of_primitive result (Ok (record { dtype = Primitive (ptype_of slots.now) nullability; items = items_at (items_of validity.now (integers_of slots.now)) positions.now })) }
{
    let items = T::as_slice(slots);
    let mut taken = PrimitiveBuilder::with_capacity(alloc, positions.len())?;
    for position in positions {
        taken.push(alloc, item_at_position(items, validity, *position))?;
    }
    Ok(taken.finish(nullability))
}

/// Whether an index is null or names an item.
fn names_item<T: NativePType>(index: Option<T>, len: usize) -> bool
    ensures { result ≡ is_in_range len (option_map T.value index) }
{
    match index {
        Some(index) => {
            let index = index.as_i128();
            0 <= index && index < len as i128
        }
        None => true,
    }
}

/// The position that an index names.
fn position_of<T: NativePType>(index: Option<T>) -> Option<usize>
    requires { IsTrue (is_in_range (2 ^ 64) (option_map T.value index)) }
    ensures { result ≡ option_map unsigned_abs (option_map T.value index) }
{
    match index {
        Some(index) => Some(index.as_i128() as usize),
        None => None,
    }
}

/// The positions that indices name.
fn positions_typed<T: NativePType>(
    slots: &PrimitiveBuffer,
    alloc: Global,
    validity: &Validity,
    len: usize,
) -> Result<Vec<Option<usize>>, FastLanesError>
    requires same { ptype_of slots.now ≡ T.PTYPE }
    requires covers { IsTrue (covers validity.now (length (integers_of slots.now))) }
    ensures { Answers (λ v. v.items) result (positions_in len (items_of validity.now (integers_of slots.now))) }
{
    let indices = T::as_slice(slots);
    let mut positions = Vec::with_capacity(alloc, indices.len())?;
    for i in 0..indices.len() {
        let index = item_at(indices, validity, i);
        if !names_item(index, len) {
            return Err(FastLanesError::IndexOutOfBounds);
        }
        positions.push(position_of(index))?;
    }
    Ok(positions)
}

/// Adds the items from `start` to below `start + len`.
fn push_range<T: NativePType>(
    builder: &mut PrimitiveBuilder<T>,
    alloc: Global,
    items: &[T],
    validity: &Validity,
    start: usize,
    len: usize,
) -> Result<(), FastLanesError>
    requires covers { IsTrue (covers validity.now (length items.now)) }
    requires range { IsTrue (range_fits (length items.now) (start, len)) }
    ensures items { OnOk result (builder.new ≡ builder.old ++ between start (start + len) (items_of validity.now (map T.value items.now))) }
    ensures memory { IfErr result (λ e. e ≡ OutOfMemory) }
{
    for k in 0..len {
        builder.push(alloc, item_at(items, validity, start + k))?;
    }
    Ok(())
}

/// The items of the ranges, which lie in the array, one range after another.
fn ranges_typed<T: NativePType>(
    slots: &PrimitiveBuffer,
    alloc: Global,
    validity: &Validity,
    ranges: &[(usize, usize)],
    total: usize,
) -> Result<PrimitiveArray, FastLanesError>
    requires same { ptype_of slots.now ≡ T.PTYPE }
    requires covers { IsTrue (covers validity.now (length (integers_of slots.now))) }
    requires ranges { IsTrue (list_all (range_fits (length (integers_of slots.now))) ranges.now) }
    ensures { Answers column_of_primitive result (Ok (record { dtype = Primitive (ptype_of slots.now) (nullability_of validity.now); items = flat_map (λ range. between range.0 (range.0 + range.1) (items_of validity.now (integers_of slots.now))) ranges.now })) }
{
    let items = T::as_slice(slots);
    let mut taken = PrimitiveBuilder::with_capacity(alloc, total)?;
    for range in ranges {
        push_range(&mut taken, alloc, items, validity, range.0, range.1)?;
    }
    Ok(taken.finish(validity.nullability()))
}

/// The positions that the indices name.
pub(crate) fn positions(
    alloc: Global,
    indices: &PrimitiveArray,
    len: usize,
) -> Result<Vec<Option<usize>>, FastLanesError>
    ensures { Answers (λ v. v.items) result (positions_in len (column_of_primitive indices.now).items) }
{
    let (slots, validity) = (indices.slots(), indices.validity());
    match_each_integer_ptype!(slots.ptype(), positions_typed(slots, alloc, validity, len))
}

/// The items at these positions, null where there is none.
pub(crate) fn take_positions(
    alloc: Global,
    array: &PrimitiveArray,
    positions: &[Option<usize>],
    nullability: Nullability,
) -> Result<PrimitiveArray, FastLanesError>
    requires below { IsTrue (are_below_length (length (column_of_primitive array.now).items) positions.now) }
    requires nulls { IsTrue (can_be_null nullability || list_all is_some (items_at (column_of_primitive array.now).items positions.now)) }
    ensures { Answers column_of_primitive result (Ok (record { dtype = Primitive array.now.ptype nullability; items = items_at (column_of_primitive array.now).items positions.now })) }
{
    // For the proof: there are as many items as slots.
    let _len = array.len();
    let (slots, validity) = (array.slots(), array.validity());
    match_each_integer_ptype!(
        slots.ptype(),
        take_typed(slots, alloc, validity, positions, nullability)
    )
}

/// Whether every range lies among this many items. A range without items does wherever it starts.
fn ranges_fit(ranges: &[(usize, usize)], len: usize) -> bool
    ensures { result ≡ list_all (range_fits len) ranges.now }
{
    for (start, count) in ranges {
        if *count > 0 && (*start > len || *count > len - *start) {
            return false;
        }
    }
    true
}

/// How many items the ranges have, where a `usize` holds it.
fn total_len(ranges: &[(usize, usize)]) -> Option<usize>
    ensures { result ≡ total_of ranges.now }
{
    let mut total = 0usize;
    for range in ranges {
        total = total.checked_add(range.1)?;
    }
    Some(total)
}

/// The number of items of ranges, each a start and a length, in an array of `len` items.
///
/// # Errors
/// `RangeOutOfBounds` if a range with items reaches beyond `len`, and then `LengthOverflow` if the
/// lengths' sum is above `usize::MAX`.
pub fn ranges_total(ranges: &[(usize, usize)], len: usize) -> Result<usize, FastLanesError>
    ensures value { result ≡ ranges_total len ranges.now }
    ensures fit { OnOk result (IsTrue (list_all (range_fits len) ranges.now)) }
    ensures total { IfOk result (λ total. total_of ranges.now ≡ Some total) }
{
    if !ranges_fit(ranges, len) {
        return Err(FastLanesError::RangeOutOfBounds);
    }
    match total_len(ranges) {
        Some(total) => Ok(total),
        None => Err(FastLanesError::LengthOverflow),
    }
}

/// The items of the ranges, which lie in the array, one range after another.
fn take_fitting_ranges(
    alloc: Global,
    array: &PrimitiveArray,
    ranges: &[(usize, usize)],
    total: usize,
) -> Result<PrimitiveArray, FastLanesError>
    requires { IsTrue (list_all (range_fits (length (column_of_primitive array.now).items)) ranges.now) }
    ensures { Answers column_of_primitive result (Ok (ranges_of ranges.now (column_of_primitive array.now))) }
{
    // For the proof: there are as many items as slots.
    let _len = array.len();
    let (slots, validity) = (array.slots(), array.validity());
    if is_full(validity) {
        return without_nulls::take_ranges(alloc, array, ranges, total);
    }
    match_each_integer_ptype!(
        slots.ptype(),
        ranges_typed(slots, alloc, validity, ranges, total)
    )
}

/// The items at the set bits, in order.
fn filter_bits(
    alloc: Global,
    array: &PrimitiveArray,
    bits: &BitList,
) -> Result<PrimitiveArray, FastLanesError>
    requires { length bits.now ≡ length (column_of_primitive array.now).items }
    ensures { Answers column_of_primitive result (Ok (record { dtype = (column_of_primitive array.now).dtype; items = kept bits.now (column_of_primitive array.now).items })) }
{
    // For the proof: there are as many items as slots.
    let _len = array.len();
    let slots = filtered::filter_slots(array.slots(), alloc, bits)?;
    let validity = filtered::filter_validity(array.validity(), alloc, bits)?;
    Ok(PrimitiveArray::from_buffer(slots, validity))
}

/// The items that the indices name, null where an index is null.
fn take_between_nulls(
    alloc: Global,
    array: &PrimitiveArray,
    indices: &PrimitiveArray,
) -> Result<PrimitiveArray, FastLanesError>
    ensures { Answers column_of_primitive result (take_column (column_of_primitive indices.now) (column_of_primitive array.now)) }
{
    let positions = positions(alloc, indices, array.len())?;
    let nullability = array.nullability().or(indices.nullability());
    take_positions(alloc, array, &positions, nullability)
}

impl PrimitiveArray {
    /// The positions that the items name among `len` items, `None` for a null. The integer under a null
    /// is never read.
    ///
    /// # Errors
    /// `IndexOutOfBounds` if an item is negative or not below `len`.
    pub fn positions(&self, alloc: Global, len: usize) -> Result<Vec<Option<usize>>, FastLanesError>
        ensures { Answers (λ v. v.items) result (positions_in len (column_of_primitive self.now).items) }
    {
        positions(alloc, self, len)
    }

    /// The items that the indices name, null where an index is null. The integer under a null index
    /// is never read.
    ///
    /// # Errors
    /// `IndexOutOfBounds` if an index is negative or not below the length.
    pub fn take(
        &self,
        alloc: Global,
        indices: &PrimitiveArray,
    ) -> Result<PrimitiveArray, FastLanesError>
        ensures { Answers column_of_primitive result (take_column (column_of_primitive indices.now) (column_of_primitive self.now)) }
    {
        match self.validity() {
            validity if is_full(validity) && is_full(indices.validity()) => {
                without_nulls::take(alloc, self, indices)
            }
            Validity::Array(bits) if is_full(indices.validity()) => {
                with_bits::take(alloc, self, bits, indices)
            }
            _ => take_between_nulls(alloc, self, indices),
        }
    }

    /// The items of the ranges, each a start and a length, one range after another. A range without
    /// items is skipped, wherever it starts.
    ///
    /// # Errors
    /// `RangeOutOfBounds` if a range with items reaches beyond the length, and then
    /// `LengthOverflow` if the lengths' sum is above `usize::MAX`.
    pub fn take_ranges(
        &self,
        alloc: Global,
        ranges: &[(usize, usize)],
    ) -> Result<PrimitiveArray, FastLanesError>
        ensures { Answers column_of_primitive result (ranges_column ranges.now (column_of_primitive self.now)) }
    {
        let total = ranges_total(ranges, self.len())?;
        take_fitting_ranges(alloc, self, ranges, total)
    }

    /// The items whose bit of the mask is true, in order. The mask has the array's length.
    pub fn filter(&self, alloc: Global, mask: &Mask) -> Result<PrimitiveArray, FastLanesError>
        requires { mask_len mask.now ≡ length (column_of_primitive self.now).items }
        ensures { Answers column_of_primitive result (Ok (filter_of mask.now (column_of_primitive self.now))) }
    {
        // For the proof: there are as many items as slots.
        let _len = self.len();
        match mask {
            Mask::AllTrue(_) => self.try_clone(alloc),
            Mask::AllFalse(_) => self.slice(alloc, 0, 0),
            Mask::Values(bits) => filter_bits(alloc, self, bits),
        }
    }
}
