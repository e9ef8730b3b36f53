//! FoR encoding of primitive arrays.

ghost use Rattle.std.specs.Prelude.{◌≡◌, ◌<◌, ◌^◌, IfOk, Ok, length};
ghost use Rattle.fl_types.specs.Refusals.{Answers};
ghost use Rattle.fl_column.specs.Columns.{column_of_primitive};
ghost use Rattle.fl_array.specs.EncodedFoR.{encoded_for_by, encoded_for_chunked_by};
ghost use Rattle.fl_array.specs.FoRArrays.{tree_of_for};
ghost use Rattle.fl_array.specs.Trees.{column};

use crate::array::IntoArray;
use crate::for_::FoRArray;
use fl_codec::for_::{EncodedFoR, GlobalFoR, ItemOrder, encode_by, encode_chunked_by};
use fl_codec::laws::{chunked_for_by_and_back, global_for_by_and_back};
use fl_column::{FastLanesError, PType, PrimitiveArray};
use std::alloc::Global;

/// The integers of an array are in memory, so there are fewer than 2 to the 63.
fn prove_few(array: &PrimitiveArray)
    ensures { length array.now.slots < 2 ^ 63 }
{
    let _len = match array.ptype() {
        PType::U8 => array.as_slice::<u8>().len(),
        PType::U16 => array.as_slice::<u16>().len(),
        PType::U32 => array.as_slice::<u32>().len(),
        PType::U64 => array.as_slice::<u64>().len(),
        PType::I8 => array.as_slice::<i8>().len(),
        PType::I16 => array.as_slice::<i16>().len(),
        PType::I32 => array.as_slice::<i32>().len(),
        PType::I64 => array.as_slice::<i64>().len(),
    };
}

/// The FoR array of a primitive one, with the minimum of its valid items by an order as the one reference: the differences,
/// modulo 2 to the type's bits and 0 under a null, are a primitive array of the same validity.
///
/// # Errors
/// `NoMinimum` if no item is valid.
pub(crate) fn for_encode(
    alloc: Global,
    array: &PrimitiveArray,
    order: ItemOrder,
) -> Result<FoRArray, FastLanesError>
    ensures parts { Answers (λ a. a) result (encoded_for_by order array.now) }
    ensures column { IfOk result (λ a. column (tree_of_for a) ≡ column_of_primitive array.now) }
{
    global_for_by_and_back(array, order);
    let GlobalFoR { child, reference } = encode_by(alloc, array, order)?;
    FoRArray::from_global(alloc, child.into_array(), reference)
}

/// The FoR array of a primitive one, with the minimum of the valid items of each chunk of 1024, by an order, as its
/// reference. A chunk of nulls repeats the reference before it, and the leading ones take that of the first chunk
/// that has a valid item. If all chunks have the same reference, as in a column of one chunk, it is stored as the one
/// reference, which is 0 in an empty column. A column that has items, all of them null, becomes a constant array of a null with the
/// reference 0.
pub(crate) fn for_encode_chunked(
    alloc: Global,
    array: &PrimitiveArray,
    order: ItemOrder,
) -> Result<FoRArray, FastLanesError>
    ensures parts { Answers (λ a. a) result (Ok (encoded_for_chunked_by order array.now)) }
    ensures column { IfOk result (λ a. column (tree_of_for a) ≡ column_of_primitive array.now) }
{
    chunked_for_by_and_back(array, order);
    prove_few(array);
    let (_len, _validity) = (array.len(), array.validity());
    match encode_chunked_by(alloc, array, order)? {
        EncodedFoR::Global(GlobalFoR { child, reference }) => {
            FoRArray::from_global(alloc, child.into_array(), reference)
        }
        EncodedFoR::Chunked(child, references) => {
            FoRArray::from_chunked(alloc, child.into_array(), references.into_array(), 0)
        }
        EncodedFoR::Nulls(child, reference) => {
            FoRArray::from_global(alloc, child.into_array(), reference)
        }
    }
}
