//! Takes without null indices from items with a validity bit each: a loop over integers, and one over
//! bits.

ghost use Rattle.std.specs.Prelude.{◌≡◌, ◌<◌, IsTrue, Ok, Some, length, map, pos, slice_index_or};
ghost use Rattle.std.specs.List.{list_all};
ghost use Rattle.fl_types.specs.Buffers.{integers_of, ptype_of};
ghost use Rattle.fl_types.specs.Refusals.{Answers};
ghost use Rattle.fl_types.specs.declared.validity.Validity.TheVariants.{Array};
ghost use Rattle.fl_column.specs.Columns.{column_of_primitive};
ghost use Rattle.fl_column.specs.Operations.{is_in_range, take_column};
ghost use Rattle.fl_column.specs.Selections.{bit_named, is_full, validity_of_bits};

use crate::casting::has_unset;
use crate::primitive::PrimitiveArray;
use crate::selection::without_nulls::take_slots;
use fl_types::{
    BitList, FastLanesError, NativePType, PrimitiveBuffer, Validity, match_each_integer_ptype,
};
use std::alloc::Global;

/// The bit that an index names.
fn bit_at<I: NativePType>(bits: &BitList, indices: &[I], i: usize) -> bool
    requires within { i < length indices.now }
    requires range { IsTrue (list_all (λ index. is_in_range (length bits.now) (Some index)) (map I.value indices.now)) }
    ensures { result ≡ bit_named bits.now (slice_index_or (map I.value indices.now) i (pos 0)) }
{
    bits.get(indices[i].unsigned_abs() as usize)
}

fn take_bits_typed<I: NativePType>(
    indices: &PrimitiveBuffer,
    alloc: Global,
    bits: &BitList,
) -> Result<BitList, FastLanesError>
    requires typed { ptype_of indices.now ≡ I.PTYPE }
    requires range { IsTrue (list_all (λ index. is_in_range (length bits.now) (Some index)) (integers_of indices.now)) }
    ensures { Answers (λ b. b) result (Ok (map (bit_named bits.now) (integers_of indices.now))) }
{
    let indices = I::as_slice(indices);
    BitList::from_fn(alloc, indices.len(), |i| bit_at(bits, indices, i))
}

/// The bits that the indices name, which lie among them.
fn take_bits(
    indices: &PrimitiveBuffer,
    alloc: Global,
    bits: &BitList,
) -> Result<BitList, FastLanesError>
    requires { IsTrue (list_all (λ index. is_in_range (length bits.now) (Some index)) (integers_of indices.now)) }
    ensures { Answers (λ b. b) result (Ok (map (bit_named bits.now) (integers_of indices.now))) }
{
    match_each_integer_ptype!(indices.ptype(), take_bits_typed(indices, alloc, bits))
}

/// The validity of items with these bits, without them where no item is null.
pub(crate) fn validity_of(bits: BitList) -> Validity
    ensures { result ≡ validity_of_bits bits }
{
    if has_unset(&bits) {
        Validity::Array(bits)
    } else {
        Validity::AllValid
    }
}

/// The items that the indices name, where no index is null and each item has a bit.
pub(crate) fn take(
    alloc: Global,
    array: &PrimitiveArray,
    bits: &BitList,
    indices: &PrimitiveArray,
) -> Result<PrimitiveArray, FastLanesError>
    requires items { array.now.validity ≡ Array bits.now }
    requires each { length bits.now ≡ length array.now.slots }
    requires indices { IsTrue (is_full indices.now.validity) }
    ensures { Answers column_of_primitive result (take_column (column_of_primitive indices.now) (column_of_primitive array.now)) }
{
    let slots = take_slots(array.slots(), alloc, indices.slots())?;
    let named = take_bits(indices.slots(), alloc, bits)?;
    Ok(PrimitiveArray::from_buffer(slots, validity_of(named)))
}
