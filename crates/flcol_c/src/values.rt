//! Values that C hands in, and values and answers that are written for it.

ghost use Rattle.std.specs.Prelude.{◌≡◌, None, Ok, false, length, map};
ghost use Rattle.fl_types.specs.Refusals.{Answers};
ghost use Rattle.fl_column.specs.Columns.{bools, column_of_primitive};
ghost use Rattle.fl_column.specs.Bitmaps.{bitmap_len, bits_in};
ghost use Rattle.fl_bitmaps.specs.Bitmaps.{IsClearFrom, items_in};
ghost use Rattle.flcol_c.specs.Bitmaps.{is_short, null_total, room_fault};
ghost use Rattle.flcol_c.specs.Values.{plain_in};

use crate::bitmaps::validity_of;
use crate::validities::write_validity;
use fl_column::bitmaps::write_bits;
use fl_column::{BoolArray, FastLanesError, NativePType, PrimitiveArray};
use std::alloc::Global;

/// The plain array of these values, of which those are valid whose bits are set; of no nullable type where
/// there is no byte.
///
/// # Errors
/// Only `OutOfMemory`.
#[tactic(auto, using(crate::proofs::ValueLaws::bitmap_covered))]
pub(crate) fn plain_of<T: NativePType>(
    alloc: Global,
    values: &[T],
    validity: &[u8],
) -> Result<PrimitiveArray, FastLanesError>
    requires { is_short validity.now (length values.now) ≡ false }
    ensures { Answers (λ a. a) result (Ok (plain_in T.PTYPE (map T.value values.now) validity.now)) }
{
    let validity = validity_of(alloc, validity, values.len())?;
    let slots = Vec::from_slice(alloc, values)?;
    Ok(PrimitiveArray::new_unchecked(slots, validity))
}

/// Writes the values of a plain array, and which of them are valid.
pub(crate) fn write_plain<T: NativePType>(
    plain: &PrimitiveArray,
    values: &mut [T],
    validity: &mut [u8],
)
    requires typed { plain.now.ptype ≡ T.PTYPE }
    requires long { length values.old ≡ length plain.now.slots }
    requires room { room_fault (length validity.old) (length plain.now.slots) (null_total plain.now.validity (length plain.now.slots)) ≡ None }
    ensures items { (column_of_primitive plain.now).items ≡ items_in (map T.value values.new) validity.new }
    ensures clear { IsClearFrom (length values.new) validity.new }
{
    let len = values.len();
    let valid = plain.validity();
    values.copy_from_slice(plain.as_slice::<T>());
    write_validity(validity, valid, len);
}

/// Writes the booleans of a plain array, and which of them are valid.
pub(crate) fn write_answers(answers: &BoolArray, bits: &mut [u8], validity: &mut [u8])
    requires bits { length bits.old ≡ bitmap_len (length answers.now.bits) }
    requires room { room_fault (length validity.old) (length answers.now.bits) (null_total answers.now.validity (length answers.now.bits)) ≡ None }
    ensures items { bools answers.now ≡ items_in (bits_in bits.new (length answers.now.bits)) validity.new }
    ensures clear { IsClearFrom (length answers.now.bits) bits.new }
    ensures clear_valid { IsClearFrom (length answers.now.bits) validity.new }
{
    let list = answers.bits();
    let valid = answers.validity();
    write_bits(bits, list);
    write_validity(validity, valid, list.len());
}
