//! Arrays of slices in each encoding, which are encoded or asked again and again.
#![tactic(auto)]

ghost use Rattle.std.specs.Prelude.{◌≡◌, IfOk};
ghost use Rattle.fl_column.specs.Columns.{column_of_primitive};
ghost use Rattle.fl_array.specs.Trees.{column};

use crate::questions::{Question, ask};
use fl_array::bitpacking::bitpack_compress::{
    bitpack_blocked_to_best_bit_widths, bitpack_encode, bitpack_to_best_bit_width,
};
use fl_array::delta::Delta;
use fl_array::for_::{FoR, FoRReferences};
use fl_array::rle::RLE;
use fl_array::{ArrayRef, IntoArray};
use fl_column::PrimitiveArray;
use fl_types::{BitList, FastLanesError, NativePType, Validity};
use std::alloc::Global;

/// How an array keeps its items. Its number is its place here, from 0.
#[derive(Clone, Copy)]
enum Encoding {
    Primitive,
    /// Bit-packed at a width, with patches.
    BitPacked,
    /// Bit-packed at the width of least cost.
    BestWidth,
    /// Bit-packed at a width of least cost for each block.
    BestWidths,
    FoR,
    /// FoR over bit-packed at a width.
    PackedFoR,
    /// FoR with a reference for each chunk.
    ChunkedFoR,
    Delta,
    RLE,
    /// Delta over deltas that are bit-packed at the width of least cost.
    PackedDelta,
    /// Run-length encoded over run indices that are bit-packed at the width of least cost.
    PackedRLE,
}

impl Encoding {
    /// The encoding with this number, if there is one.
    fn of(number: usize) -> Option<Encoding> {
        match number {
            0 => Some(Encoding::Primitive),
            1 => Some(Encoding::BitPacked),
            2 => Some(Encoding::BestWidth),
            3 => Some(Encoding::BestWidths),
            4 => Some(Encoding::FoR),
            5 => Some(Encoding::PackedFoR),
            6 => Some(Encoding::ChunkedFoR),
            7 => Some(Encoding::Delta),
            8 => Some(Encoding::RLE),
            9 => Some(Encoding::PackedDelta),
            10 => Some(Encoding::PackedRLE),
            _ => None,
        }
    }
}

/// A bit for each of `len` items, not set at the multiples of `null_every`; no validity where that is 0.
fn validity_of(alloc: Global, len: usize, null_every: usize) -> Result<Validity, FastLanesError> {
    if null_every == 0 {
        return Ok(Validity::NonNullable);
    }
    let bits = BitList::from_fn(alloc, len, |i| match i.checked_rem(null_every) {
        Some(rest) => rest != 0,
        None => true,
    })?;
    Ok(Validity::Array(bits))
}

/// The plain array of these items, of which those at the multiples of `null_every` are null, none where that
/// is 0.
fn primitive<T: NativePType>(
    alloc: Global,
    items: &[T],
    null_every: usize,
) -> Result<PrimitiveArray, FastLanesError> {
    let slots = Vec::from_slice(alloc, items)?;
    PrimitiveArray::new(slots, validity_of(alloc, items.len(), null_every)?)
}

/// The FoR array of one reference over the differences packed at a width.
fn packed_for(alloc: Global, array: &PrimitiveArray, width: u8) -> Result<ArrayRef, FastLanesError>
    ensures { IfOk result (λ a. column a ≡ column_of_primitive array.now) }
{
    let plain = FoR::encode(alloc, array)?;
    let FoRReferences::Global(reference) = plain.references() else {
        return Err(FastLanesError::NotGlobal);
    };
    let differences = plain.encoded().to_primitive(alloc)?;
    let packed = bitpack_encode(alloc, &differences, width, None)?;
    Ok(FoR::try_new(alloc, packed.into_array(), *reference)?.into_array())
}

/// The delta array whose deltas are packed at the width of least cost.
fn packed_delta(alloc: Global, array: &PrimitiveArray) -> Result<ArrayRef, FastLanesError>
    ensures { IfOk result (λ a. column a ≡ column_of_primitive array.now) }
{
    let plain = Delta::try_from_primitive_array(alloc, array)?;
    let bases = plain.bases().try_clone(alloc)?;
    let deltas = bitpack_to_best_bit_width(alloc, &plain.deltas().to_primitive(alloc)?)?;
    let validity = plain.validity().try_clone(alloc)?;
    let packed = Delta::try_new(
        alloc,
        bases,
        deltas.into_array(),
        validity,
        plain.offset(),
        plain.len(),
    )?;
    Ok(packed.into_array())
}

/// The run-length encoded array whose run indices are packed at the width of least cost.
fn packed_rle(alloc: Global, array: &PrimitiveArray) -> Result<ArrayRef, FastLanesError>
    ensures { IfOk result (λ a. column a ≡ column_of_primitive array.now) }
{
    let plain = RLE::encode(alloc, array)?;
    let values = plain.values().try_clone(alloc)?;
    let indices = bitpack_to_best_bit_width(alloc, &plain.indices().to_primitive(alloc)?)?;
    let offsets = plain.offsets().try_clone(alloc)?;
    let packed = RLE::try_new(
        alloc,
        values,
        indices.into_array(),
        offsets,
        plain.offset(),
        plain.len(),
    )?;
    Ok(packed.into_array())
}

/// The array in an encoding. Only those that are packed at a width look at it.
fn encode(
    alloc: Global,
    array: &PrimitiveArray,
    encoding: Encoding,
    width: u8,
) -> Result<ArrayRef, FastLanesError>
    ensures { IfOk result (λ a. column a ≡ column_of_primitive array.now) }
{
    match encoding {
        Encoding::Primitive => Ok(array.try_clone(alloc)?.into_array()),
        Encoding::BitPacked => Ok(bitpack_encode(alloc, array, width, None)?.into_array()),
        Encoding::BestWidth => Ok(bitpack_to_best_bit_width(alloc, array)?.into_array()),
        Encoding::BestWidths => Ok(bitpack_blocked_to_best_bit_widths(alloc, array)?.into_array()),
        Encoding::FoR => Ok(FoR::encode(alloc, array)?.into_array()),
        Encoding::PackedFoR => packed_for(alloc, array, width),
        Encoding::ChunkedFoR => Ok(FoR::encode_chunked(alloc, array)?.into_array()),
        Encoding::Delta => Ok(Delta::try_from_primitive_array(alloc, array)?.into_array()),
        Encoding::RLE => Ok(RLE::encode(alloc, array)?.into_array()),
        Encoding::PackedDelta => packed_delta(alloc, array),
        Encoding::PackedRLE => packed_rle(alloc, array),
    }
}

/// Encodes the items this many times. The answer is how many items the last array has.
///
/// # Errors
/// `UnknownId` where no encoding has this number, and the encoder's.
pub(crate) fn encode_again<T: NativePType>(
    alloc: Global,
    rounds: usize,
    encoding: usize,
    width: u8,
    null_every: usize,
    items: &[T],
) -> Result<usize, FastLanesError> {
    let Some(encoding) = Encoding::of(encoding) else {
        return Err(FastLanesError::UnknownId);
    };
    let plain = primitive(alloc, items, null_every)?;
    let mut len = 0;
    for _ in 0..rounds {
        let array = encode(alloc, &plain, encoding, width)?;
        len = array.len();
    }
    Ok(len)
}

/// Encodes the items and asks the array this many times, as `questions::ask` says.
///
/// # Errors
/// `UnknownId` where no encoding or no question has this number, the encoder's and the question's.
pub(crate) fn ask_again<T: NativePType>(
    alloc: Global,
    rounds: usize,
    encoding: usize,
    width: u8,
    null_every: usize,
    items: &[T],
    question: usize,
    numbers: &[u64],
    answers: &mut [u64],
) -> Result<usize, FastLanesError> {
    let Some(encoding) = Encoding::of(encoding) else {
        return Err(FastLanesError::UnknownId);
    };
    let plain = primitive(alloc, items, null_every)?;
    let array = encode(alloc, &plain, encoding, width)?;
    let question = Question::new(alloc, question, numbers, &array)?;
    ask(alloc, rounds, &array, &question, answers)
}
