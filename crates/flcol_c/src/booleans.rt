//! Plain arrays of booleans, as bits and a bitmap.

ghost use Rattle.std.specs.Prelude.{◌≡◌, None, OnErr, OnOk, count_by, is_none, length};
ghost use Rattle.fl_column.specs.Bitmaps.{bitmap_len, bits_in};
ghost use Rattle.fl_column.specs.Columns.{bools};
ghost use Rattle.fl_array.specs.Trees.{Bool, column};
ghost use Rattle.fl_bitmaps.specs.Bitmaps.{IsClearFrom, items_in};
ghost use Rattle.flcol_c.specs.Bitmaps.{room_fault};
ghost use Rattle.flcol_c.specs.Booleans.{AreBooleans, bits_fault, booleans_fault, booleans_in};
ghost use Rattle.flcol_c.specs.Statuses.{GivesAfter, fault_in};

use crate::bitmaps::{short_fault, validity_of};
use crate::fault::Fault;
use crate::validities::room_fault;
use crate::values::write_answers;
use fl_array::laws::array_is_well_formed;
use fl_array::{ArrayRef, IntoArray};
use fl_column::BoolArray;
use fl_column::bitmaps::{bitmap_len, bits_of};
use std::alloc::Global;

/// Why there is no array of `len` booleans in these bits, if there is none.
fn bits_fault(bits: &[u8], len: usize, validity: &[u8]) -> Option<Fault>
    ensures { result ≡ bits_fault bits.now len validity.now }
{
    if bits.len() < bitmap_len(len) {
        return Some(Fault::WrongLength);
    }
    short_fault(validity, len)
}

/// The plain array of the first `len` bits, of which those are valid whose bits are set; of no nullable type where
/// there is no byte.
///
/// # Errors
/// `WrongLength` where there are fewer bits; then `ValidityLength` where there are bytes, but fewer bits than booleans.
pub(crate) fn from_bits(
    alloc: Global,
    bits: &[u8],
    len: usize,
    validity: &[u8],
) -> Result<ArrayRef, Fault>
    ensures { GivesAfter (bits_fault bits.now len validity.now) None (λ t. t ≡ Bool (booleans_in bits.now len validity.now)) result }
{
    if let Some(fault) = bits_fault(bits, len, validity) {
        return Err(fault);
    }
    let valid = validity_of(alloc, validity, len)?;
    let booleans = bits_of(alloc, bits, len)?;
    Ok(BoolArray::new(booleans, valid)?.into_array())
}

/// Writes booleans, and which of them are valid, where there is room for that bitmap.
///
/// # Errors
/// `WrongLength` where the bytes are neither those of a bitmap nor none, `ValidityLength` where there is none and
/// one is null.
pub(crate) fn write_booleans(
    booleans: &BoolArray,
    bits: &mut [u8],
    validity: &mut [u8],
) -> Result<(), Fault>
    requires { length bits.old ≡ bitmap_len (length booleans.now.bits) }
    ensures fault { fault_in result ≡ room_fault (length validity.old) (length booleans.now.bits) (count_by is_none (bools booleans.now)) }
    ensures items { OnOk result (bools booleans.now ≡ items_in (bits_in bits.new (length booleans.now.bits)) validity.new) }
    ensures clear { OnOk result (IsClearFrom (length booleans.now.bits) bits.new) }
    ensures clear_valid { OnOk result (IsClearFrom (length booleans.now.bits) validity.new) }
    ensures unwritten { OnErr result ((bits.new ≡ bits.old) × (validity.new ≡ validity.old)) }
{
    let (len, valid) = (booleans.len(), booleans.validity());
    if let Some(fault) = room_fault(validity.len(), valid, len) {
        return Err(fault);
    }
    write_answers(booleans, bits, validity);
    Ok(())
}

/// Writes the bits of an array of booleans, and which of them are valid. Bits after theirs are not set.
///
/// # Errors
/// `WrongType` where the array is of integers; `WrongLength` where the bytes of the bits are not those of a bitmap, or
/// the others neither those of one nor none; `ValidityLength` where there is none and an item is null.
pub(crate) fn read(array: &ArrayRef, bits: &mut [u8], validity: &mut [u8]) -> Result<(), Fault>
    ensures fault { fault_in result ≡ booleans_fault (length bits.old) (length validity.old) (column array.now) }
    ensures items { OnOk result (AreBooleans (column array.now) bits.new validity.new) }
    ensures clear { OnOk result (IsClearFrom (length (column array.now).items) bits.new) }
    ensures clear_valid { OnOk result (IsClearFrom (length (column array.now).items) validity.new) }
    ensures unread { OnErr result ((bits.new ≡ bits.old) × (validity.new ≡ validity.old)) }
{
    array_is_well_formed(array);
    let Some(booleans) = array.as_bool() else {
        return Err(Fault::WrongType);
    };
    if bits.len() != bitmap_len(booleans.len()) {
        return Err(Fault::WrongLength);
    }
    write_booleans(booleans, bits, validity)
}
