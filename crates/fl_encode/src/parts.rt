//! Arrays of one level: of a primitive array without children, or of children that are encoded.

ghost use Rattle.std.specs.Prelude.{◌≡◌, ◌<◌, ◌^◌, None, Ok, Some, length, pos};
ghost use Rattle.fl_types.specs.Refusals.{Answers};
ghost use Rattle.fl_types.specs.Values.{integer_of, ptype_of_value, scalar_parts};
ghost use Rattle.fl_column.specs.Columns.{column_of_constant, column_of_primitive};
ghost use Rattle.fl_codec.specs.DeltaRefusals.{delta_refusal};
ghost use Rattle.fl_codec.specs.RunRefusals.{rle_refusal};
ghost use Rattle.fl_array.specs.FoRArrays.{ChunkReferences, for_refusal, reference_refusal};
ghost use Rattle.fl_array.specs.Reads.{constant_in};
ghost use Rattle.fl_array.specs.Trees.{Constant, FoRChunked, FoRGlobal, column};
ghost use Rattle.fl_array.specs.Trees as tree;
ghost use Rattle.fl_encode.specs.Encodings.{Makes};
ghost use Rattle.fl_encode.specs.Packings.{IsPackedAs, constant_of, constant_refusal, packing_refusal, repeated};

use crate::scheme::Packing;
use fl_array::bitpacking::bitpack_compress::{
    bitpack_blocked_to_best_bit_widths, bitpack_encode, bitpack_to_best_bit_width,
};
use fl_array::delta::Delta;
use fl_array::for_::FoR;
use fl_array::rle::RLE;
use fl_array::{ArrayRef, IntoArray};
use fl_column::{ConstantArray, FastLanesError, PType, PValue, PrimitiveArray, Scalar, Validity};
use std::alloc::Global;

/// The array, packed.
///
/// # Errors
/// The first of `NegativeValue`, `WidthTooLarge` and `AllBlocksNative` that holds.
pub(crate) fn pack(
    alloc: Global,
    array: &PrimitiveArray,
    packing: Packing,
) -> Result<ArrayRef, FastLanesError>
    ensures { Makes (packing_refusal packing array.now) (IsPackedAs packing array.now) (column_of_primitive array.now) result }
{
    let packed = match packing {
        Packing::BestWidth => bitpack_to_best_bit_width(alloc, array)?,
        Packing::Width(width) => bitpack_encode(alloc, array, width, None)?,
        Packing::BestWidths => bitpack_blocked_to_best_bit_widths(alloc, array)?,
    };
    Ok(packed.into_array())
}

/// The 0 of a type.
fn zero_of(ptype: PType) -> PValue
    ensures typed { ptype_of_value result ≡ ptype }
    ensures zero { integer_of result ≡ pos 0 }
{
    match ptype {
        PType::U8 => PValue::U8(0),
        PType::U16 => PValue::U16(0),
        PType::U32 => PValue::U32(0),
        PType::U64 => PValue::U64(0),
        PType::I8 => PValue::I8(0),
        PType::I16 => PValue::I16(0),
        PType::I32 => PValue::I32(0),
        PType::I64 => PValue::I64(0),
    }
}

/// The first item, 0 of an empty array.
fn first_item(array: &PrimitiveArray) -> Scalar
    ensures { scalar_parts result ≡ (constant_of array.now).scalar }
{
    if array.len() == 0 {
        return Scalar::primitive(zero_of(array.ptype()), array.nullability());
    }
    array.scalar_at(0)
}

/// The constant array of an array's items, all of which are equal; an empty one repeats 0.
///
/// # Errors
/// `CastOutOfRange` where two items differ.
pub(crate) fn repeat(array: &PrimitiveArray) -> Result<ArrayRef, FastLanesError>
    ensures exact { result ≡ repeated array.now }
    ensures made { Makes (constant_refusal array.now) (λ t. t ≡ Constant (constant_of array.now)) (column_of_primitive array.now) result }
{
    let (len, _validity) = (array.len(), array.validity());
    if !array.is_constant() {
        return Err(FastLanesError::CastOutOfRange);
    }
    let constant = ConstantArray::new(first_item(array), len)?;
    Ok(constant.into_array())
}

/// The FoR array of an encoded child and its one reference.
pub(crate) fn over_reference(
    alloc: Global,
    encoded: ArrayRef,
    reference: Scalar,
) -> Result<ArrayRef, FastLanesError>
    requires { reference_refusal (column encoded).dtype (scalar_parts reference) ≡ None }
    ensures { Answers (λ t. t) result (Ok (FoRGlobal encoded (scalar_parts reference))) }
{
    let array = FoR::try_new(alloc, encoded, reference)?;
    Ok(array.into_array())
}

/// The FoR array of an encoded child and the references of its chunks, which are no constant array.
pub(crate) fn over_references(
    alloc: Global,
    encoded: ArrayRef,
    references: ArrayRef,
) -> Result<ArrayRef, FastLanesError>
    requires sound { for_refusal (column encoded) (ChunkReferences references 0) ≡ None }
    requires chunked { constant_in references ≡ None }
    ensures { Answers (λ t. t) result (Ok (FoRChunked encoded references 0)) }
{
    let array = FoR::try_new_chunked(alloc, encoded, references, 0)?;
    Ok(array.into_array())
}

/// The FoR array of a constant child and its reference.
pub(crate) fn over_nulls(
    alloc: Global,
    child: ConstantArray,
    reference: Scalar,
) -> Result<ArrayRef, FastLanesError>
    requires { reference_refusal (column_of_constant child).dtype (scalar_parts reference) ≡ None }
    ensures { Answers (λ t. t) result (Ok (FoRGlobal (Constant child) (scalar_parts reference))) }
{
    let array = FoR::try_new(alloc, child.into_array(), reference)?;
    Ok(array.into_array())
}

/// The delta array of `len` items of these encoded bases and deltas.
pub(crate) fn over_deltas(
    alloc: Global,
    bases: ArrayRef,
    deltas: ArrayRef,
    validity: Validity,
    len: usize,
) -> Result<ArrayRef, FastLanesError>
    requires { delta_refusal (column bases) (column deltas) validity 0 len ≡ None }
    ensures { Answers (λ t. t) result (Ok (tree.Delta bases deltas (record { validity = validity; offset = 0; len = len }))) }
{
    let array = Delta::try_new(alloc, bases, deltas, validity, 0, len)?;
    Ok(array.into_array())
}

/// The run-length encoded array of `len` items of these encoded run values, run indices and run offsets.
pub(crate) fn over_runs(
    alloc: Global,
    values: ArrayRef,
    indices: ArrayRef,
    offsets: ArrayRef,
    len: usize,
) -> Result<ArrayRef, FastLanesError>
    requires { rle_refusal (column values) (column indices) (column offsets) 0 len ≡ None }
    ensures { Answers (λ t. t) result (Ok (tree.RLE values indices offsets (record { offset = 0; len = len }))) }
{
    let array = RLE::new_unchecked(alloc, values, indices, offsets, 0, len)?;
    Ok(array.into_array())
}

/// The integers of an array lie in memory, so there are fewer than 2 to the 63.
pub(crate) fn prove_few(array: &PrimitiveArray)
    ensures { length array.now.slots < 2 ^ 63 }
{
    let _len = match array.ptype() {
        PType::U8 => array.as_slice::<u8>().len(),
        PType::U16 => array.as_slice::<u16>().len(),
        PType::U32 => array.as_slice::<u32>().len(),
        PType::U64 => array.as_slice::<u64>().len(),
        PType::I8 => array.as_slice::<i8>().len(),
        PType::I16 => array.as_slice::<i16>().len(),
        PType::I32 => array.as_slice::<i32>().len(),
        PType::I64 => array.as_slice::<i64>().len(),
    };
}
