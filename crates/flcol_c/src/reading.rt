//! Items that are read into memory of C.

ghost use Rattle.std.specs.Prelude.{◌≡◌, IsTrue, None, OnErr, OnOk, length, map, option_map, slice_index_or};
ghost use Rattle.fl_types.specs.Types.{has_ptype};
ghost use Rattle.fl_array.specs.Trees.{column};
ghost use Rattle.fl_column.specs.Columns.{column_of_primitive};
ghost use Rattle.fl_bitmaps.specs.Bitmaps.{IsClearFrom, items_in};
ghost use Rattle.flcol_c.specs.Reading.{IsItem, get_fault, nulls_fault, read_fault};
ghost use Rattle.flcol_c.specs.Statuses.{Gives, GivesAfter, fault_in};

use crate::fault::Fault;
use crate::validities::{room_fault, write_validity};
use crate::values::write_plain;
use fl_array::ArrayRef;
use fl_bitpacking::unpack_iter::BitPacked;
use fl_column::{DType, FastLanesError, NativePType, PhysicalPType, PrimitiveArray};
use num_traits::WrappingAdd;
use std::alloc::Global;

/// Whether the array is of integers of this type.
pub(crate) fn is_of<T: NativePType>(array: &ArrayRef) -> bool
    ensures { result ≡ has_ptype T.PTYPE (column array.now).dtype }
{
    match array.dtype() {
        DType::Primitive(ptype, _) => ptype == T::PTYPE,
        DType::Bool(_) => false,
    }
}

/// Writes the values of a plain array, and which of them are valid, where there is room for the bitmap.
///
/// # Errors
/// `WrongLength` where the bytes are neither those of a bitmap nor none, `ValidityLength` where there is none and
/// an item is null.
fn read_plain<T: NativePType>(
    plain: &PrimitiveArray,
    values: &mut [T],
    validity: &mut [u8],
) -> Result<(), Fault>
    requires typed { plain.now.ptype ≡ T.PTYPE }
    requires long { length values.old ≡ length (column_of_primitive plain.now).items }
    ensures fault { fault_in result ≡ nulls_fault (length validity.old) (column_of_primitive plain.now) }
    ensures items { OnOk result ((column_of_primitive plain.now).items ≡ items_in (map T.value values.new) validity.new) }
    ensures clear { OnOk result (IsClearFrom (length values.new) validity.new) }
    ensures unread { OnErr result ((values.new ≡ values.old) × (validity.new ≡ validity.old)) }
{
    let (len, valid) = (plain.len(), plain.validity());
    if let Some(fault) = room_fault(validity.len(), valid, len) {
        return Err(fault);
    }
    write_plain(plain, values, validity);
    Ok(())
}

/// Writes the values of an array, decoded straight into their places, and which of them are valid, if there is room
/// for the bitmap. All that may fail comes before the first write.
///
/// # Errors
/// `WrongLength` if the bytes are neither those of a bitmap nor none, `ValidityLength` if there is none and an item
/// is null.
fn read_encoded<T: BitPacked + PhysicalPType + WrappingAdd>(
    alloc: Global,
    array: &ArrayRef,
    values: &mut [T],
    validity: &mut [u8],
) -> Result<(), Fault>
    requires typed { IsTrue (has_ptype T.PTYPE (column array.now).dtype) }
    requires long { length values.old ≡ length (column array.now).items }
    ensures read { Gives (nulls_fault (length validity.old) (column array.now)) (λ _. (column array.now).items ≡ items_in (map T.value values.new) validity.new) result }
    ensures clear { OnOk result (IsClearFrom (length values.new) validity.new) }
    ensures unread { OnErr result ((values.new ≡ values.old) × (validity.new ≡ validity.old)) }
{
    let len = values.len();
    let valid = array.validity(alloc)?;
    if let Some(fault) = room_fault(validity.len(), &valid, len) {
        return Err(fault);
    }
    array.decode_into(alloc, values)?;
    write_validity(validity, &valid, len);
    Ok(())
}

/// Writes the values of an array, and which of them are valid. Bits after theirs are not set.
///
/// # Errors
/// `WrongType` if the array is not of integers of this type; `WrongLength` if there are more or fewer values than
/// items, or the bytes are neither those of a bitmap nor none; `ValidityLength` if there is none and an item is null.
pub(crate) fn read<T: BitPacked + PhysicalPType + WrappingAdd>(
    alloc: Global,
    array: &ArrayRef,
    values: &mut [T],
    validity: &mut [u8],
) -> Result<(), Fault>
    ensures read { GivesAfter (read_fault T.PTYPE (length values.old) (column array.now)) (nulls_fault (length validity.old) (column array.now)) (λ _. (column array.now).items ≡ items_in (map T.value values.new) validity.new) result }
    ensures clear { OnOk result (IsClearFrom (length values.new) validity.new) }
    ensures unread { OnErr result ((values.new ≡ values.old) × (validity.new ≡ validity.old)) }
{
    if !is_of::<T>(array) {
        return Err(Fault::WrongType);
    }
    if values.len() != array.len() {
        return Err(Fault::WrongLength);
    }
    match array.as_primitive() {
        Some(plain) => read_plain(plain, values, validity),
        None => read_encoded(alloc, array, values, validity),
    }
}

/// The item at an index, or `None` of a null.
///
/// # Errors
/// `WrongType` where the array is not of integers of this type, then `IndexOutOfBounds`.
#[inline(always)]
pub(crate) fn get<T: PhysicalPType + WrappingAdd>(
    alloc: Global,
    array: &ArrayRef,
    index: usize,
) -> Result<Option<T>, Fault>
    ensures { GivesAfter (get_fault T.PTYPE index (column array.now)) None (λ item. option_map T.value item ≡ slice_index_or (column array.now).items index None) result }
{
    if !is_of::<T>(array) {
        return Err(Fault::WrongType);
    }
    if index >= array.len() {
        return Err(Fault::Refused(FastLanesError::IndexOutOfBounds));
    }
    Ok(array.get(alloc, index)?)
}

/// Writes the item at an index, or 0 for a null, and 1 where it is null, else 0.
///
/// # Errors
/// `WrongType` where the array is not of integers of this type, then `IndexOutOfBounds`.
#[inline(always)]
pub(crate) fn get_into<T: PhysicalPType + WrappingAdd>(
    alloc: Global,
    array: &ArrayRef,
    index: usize,
    value: &mut T,
    is_null: &mut u8,
) -> Result<(), Fault>
    ensures got { GivesAfter (get_fault T.PTYPE index (column array.now)) None (λ _. IsItem (slice_index_or (column array.now).items index None) (T.value value.new) is_null.new) result }
    ensures ungot { OnErr result ((value.new ≡ value.old) × (is_null.new ≡ is_null.old)) }
{
    match get(alloc, array, index)? {
        Some(item) => {
            *value = item;
            *is_null = 0;
        }
        None => {
            *value = T::zero();
            *is_null = 1;
        }
    }
    Ok(())
}
