//! Takes of items and ranges without null items and null indices: loops over integers, without a bit or an `Option` for
//! each.

ghost use Rattle.std.specs.Prelude.{◌≡◌, ◌+◌, ◌++◌, IfErr, IfOk, IsTrue, None, Ok, OnOk, Some, length, map, unsigned_abs, if◌then◌else◌};
ghost use Rattle.std.specs.List.{flat_map, list_all};
ghost use Rattle.fl_types.specs.Bits.{between};
ghost use Rattle.fl_types.specs.Buffers.{integers_of, ptype_of};
ghost use Rattle.fl_types.specs.Refusals.{Answers};
ghost use Rattle.fl_types.specs.declared.error.FastLanesError.TheVariants.{OutOfMemory};
ghost use Rattle.fl_column.specs.Columns.{column_of_primitive};
ghost use Rattle.fl_column.specs.Operations.{is_in_range, range_fits, ranges_of, take_column};
ghost use Rattle.fl_column.specs.Selections.{is_full, slots_named};

use crate::primitive::PrimitiveArray;
use fl_types::{FastLanesError, NativePType, PrimitiveBuffer, Validity, match_each_integer_ptype};
use std::alloc::Global;

/// Whether all items are valid by the form of their validity.
pub fn is_full(validity: &Validity) -> bool
    ensures { result ≡ is_full validity.now }
{
    matches!(validity, Validity::NonNullable | Validity::AllValid)
}

/// The place that an index names among `len` items, if it names one.
fn place_of<I: NativePType>(index: I, len: usize) -> Option<usize>
    ensures { result ≡ (if is_in_range len (Some (I.value index)) then Some (unsigned_abs (I.value index)) else None) }
{
    let index = index.as_i128();
    if 0 <= index && index < len as i128 {
        Some(index as usize)
    } else {
        None
    }
}

/// The items that the indices name.
fn items_named<T: NativePType, I: NativePType>(
    alloc: Global,
    items: &[T],
    indices: &[I],
) -> Result<Vec<T>, FastLanesError>
    ensures { Answers (λ v. map T.value v.items) result (slots_named (map T.value items.now) (map I.value indices.now)) }
{
    let mut named = Vec::with_capacity(alloc, indices.len())?;
    for index in indices {
        let Some(place) = place_of(*index, items.len()) else {
            return Err(FastLanesError::IndexOutOfBounds);
        };
        named.push_reserved(items[place]);
    }
    Ok(named)
}

fn take_typed<T: NativePType, I: NativePType>(
    slots: &PrimitiveBuffer,
    alloc: Global,
    indices: &PrimitiveBuffer,
) -> Result<PrimitiveBuffer, FastLanesError>
    requires items { ptype_of slots.now ≡ T.PTYPE }
    requires indices { ptype_of indices.now ≡ I.PTYPE }
    ensures typed { IfOk result (λ s. ptype_of s ≡ ptype_of slots.now) }
    ensures slots { Answers integers_of result (slots_named (integers_of slots.now) (integers_of indices.now)) }
{
    let named = items_named(alloc, T::as_slice(slots), I::as_slice(indices))?;
    Ok(T::into_buffer(named))
}

fn take_from<T: NativePType>(
    slots: &PrimitiveBuffer,
    alloc: Global,
    indices: &PrimitiveBuffer,
) -> Result<PrimitiveBuffer, FastLanesError>
    requires { ptype_of slots.now ≡ T.PTYPE }
    ensures typed { IfOk result (λ s. ptype_of s ≡ ptype_of slots.now) }
    ensures slots { Answers integers_of result (slots_named (integers_of slots.now) (integers_of indices.now)) }
{
    match_each_integer_ptype!(indices.ptype(), take_typed::<T>(slots, alloc, indices))
}

/// The slots that the indices name.
pub(crate) fn take_slots(
    slots: &PrimitiveBuffer,
    alloc: Global,
    indices: &PrimitiveBuffer,
) -> Result<PrimitiveBuffer, FastLanesError>
    ensures typed { IfOk result (λ s. ptype_of s ≡ ptype_of slots.now) }
    ensures slots { Answers integers_of result (slots_named (integers_of slots.now) (integers_of indices.now)) }
{
    match_each_integer_ptype!(slots.ptype(), take_from(slots, alloc, indices))
}

/// The items that the indices name, where no item and no index is null.
pub(crate) fn take(
    alloc: Global,
    array: &PrimitiveArray,
    indices: &PrimitiveArray,
) -> Result<PrimitiveArray, FastLanesError>
    requires items { IsTrue (is_full array.now.validity) }
    requires indices { IsTrue (is_full indices.now.validity) }
    ensures { Answers column_of_primitive result (take_column (column_of_primitive indices.now) (column_of_primitive array.now)) }
{
    let nullability = array.nullability().or(indices.nullability());
    let slots = take_slots(array.slots(), alloc, indices.slots())?;
    Ok(PrimitiveArray::from_buffer(slots, Validity::from(nullability)))
}

/// Adds the items of a range, which lies among them if it has any.
fn push_range<T: NativePType>(
    taken: &mut Vec<T>,
    items: &[T],
    start: usize,
    len: usize,
) -> Result<(), FastLanesError>
    requires { IsTrue (range_fits (length items.now) (start, len)) }
    ensures items { OnOk result (taken.new.items ≡ taken.old.items ++ between start (start + len) items.now) }
    ensures memory { IfErr result (λ e. e ≡ OutOfMemory) }
{
    if len > 0 {
        taken.extend_from_slice(&items[start..start + len])?;
    }
    Ok(())
}

/// The items of the ranges, which lie among them, one range after another.
fn items_in_ranges<T: NativePType>(
    alloc: Global,
    items: &[T],
    ranges: &[(usize, usize)],
    total: usize,
) -> Result<Vec<T>, FastLanesError>
    requires { IsTrue (list_all (range_fits (length items.now)) ranges.now) }
    ensures { Answers (λ v. v.items) result (Ok (flat_map (λ range. between range.0 (range.0 + range.1) items.now) ranges.now)) }
{
    let mut taken = Vec::with_capacity(alloc, total)?;
    for range in ranges {
        push_range(&mut taken, items, range.0, range.1)?;
    }
    Ok(taken)
}

fn ranges_typed<T: NativePType>(
    slots: &PrimitiveBuffer,
    alloc: Global,
    ranges: &[(usize, usize)],
    total: usize,
) -> Result<PrimitiveBuffer, FastLanesError>
    requires same { ptype_of slots.now ≡ T.PTYPE }
    requires ranges { IsTrue (list_all (range_fits (length (integers_of slots.now))) ranges.now) }
    ensures typed { IfOk result (λ s. ptype_of s ≡ ptype_of slots.now) }
    ensures slots { Answers integers_of result (Ok (flat_map (λ range. between range.0 (range.0 + range.1) (integers_of slots.now)) ranges.now)) }
{
    let taken = items_in_ranges(alloc, T::as_slice(slots), ranges, total)?;
    Ok(T::into_buffer(taken))
}

/// The slots of the ranges.
fn slots_in_ranges(
    slots: &PrimitiveBuffer,
    alloc: Global,
    ranges: &[(usize, usize)],
    total: usize,
) -> Result<PrimitiveBuffer, FastLanesError>
    requires { IsTrue (list_all (range_fits (length (integers_of slots.now))) ranges.now) }
    ensures typed { IfOk result (λ s. ptype_of s ≡ ptype_of slots.now) }
    ensures slots { Answers integers_of result (Ok (flat_map (λ range. between range.0 (range.0 + range.1) (integers_of slots.now)) ranges.now)) }
{
    match_each_integer_ptype!(slots.ptype(), ranges_typed(slots, alloc, ranges, total))
}

/// The items of the ranges, which lie in the array, one range after another, where no item is null.
pub(crate) fn take_ranges(
    alloc: Global,
    array: &PrimitiveArray,
    ranges: &[(usize, usize)],
    total: usize,
) -> Result<PrimitiveArray, FastLanesError>
    requires items { IsTrue (is_full array.now.validity) }
    requires ranges { IsTrue (list_all (range_fits (length array.now.slots)) ranges.now) }
    ensures { Answers column_of_primitive result (Ok (ranges_of ranges.now (column_of_primitive array.now))) }
{
    let nullability = array.nullability();
    let slots = slots_in_ranges(array.slots(), alloc, ranges, total)?;
    Ok(PrimitiveArray::from_buffer(slots, Validity::from(nullability)))
}
