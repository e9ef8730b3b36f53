//! Calls on bit-packed arrays, on the other encodings' arrays, and on patches.

ghost use Rattle.std.specs.Prelude.{◌≡◌};

use crate::inputs::Inputs;
use crate::reader_calls::{self, packed_slice};
use crate::{came, came_array, came_patches};
use fl_array::bitpacking::bitpack_decompress::{
    unpack_array, unpack_array_blocked, unpack_primitive_array, unpack_single,
    unpack_single_blocked,
};
use fl_array::bitpacking::{BitPacked, BitPackedArray, BitWidths};
use fl_array::delta::delta_decompress;
use fl_array::for_::decompress;
use fl_array::laws::rle_is_well_formed;
use fl_array::rle::{RLE, RLEArray, RLEArrayExt, RleProbeState, rle_decompress};
use fl_array::{ArrayRef, IntoArray};
use fl_ops::Op;
use fl_patches::Patches;
use fl_types::{FastLanesError, NativePType, Scalar, match_each_integer_ptype};
use row_reader::asked::Asked;
use row_reader::column_rows::patches::Selected;
use row_reader::columns::Made;
use row_reader::names::named;
use row_reader::text::Text;
use std::alloc::Global;

/// The patches that the operation of the row selects.
fn select(asked: Asked, patches: &Patches, inputs: &Inputs) -> Selected {
    let (alloc, len) = (asked.alloc, patches.array_len());
    match inputs.ops.first() {
        Some(Op::Slice(range)) if range.start <= range.end && range.end <= len => {
            patches.slice(alloc, range.start..range.end)
        }
        Some(Op::Filter(mask)) if mask.len() == len => patches.filter(alloc, mask),
        Some(Op::Take(_)) => patches.take(alloc, asked.column(1)),
        _ => Ok(Some(patches.try_clone(alloc)?)),
    }
}

/// What the operation of the row selects of an array's patches.
fn select_in(asked: Asked, array: &BitPackedArray, inputs: &Inputs) -> Selected {
    match array.packed_data().patches() {
        Some(patches) => select(asked, patches, inputs),
        None => Ok(None),
    }
}

/// Decodes, by the call that fits the array's widths.
fn unpack(alloc: Global, array: &BitPackedArray) -> Made {
    if array.bit_widths().is_global() {
        unpack_array(alloc, array)
    } else {
        unpack_array_blocked(alloc, array)
    }
}

fn unpack_typed<T: NativePType>(alloc: Global, array: &BitPackedArray) -> Made
    requires { array.now.parts.ptype ≡ T.PTYPE }
{
    unpack_primitive_array::<T>(alloc, array)
}

/// Decodes, by the call for arrays of one width and of a type, which looks at the widths itself.
fn unpack_primitive(alloc: Global, array: &BitPackedArray) -> Made {
    let ptype = array.packed_data().ptype();
    match_each_integer_ptype!(ptype, unpack_typed(alloc, array))
}

/// An item as it is stored, by the call for arrays of one width, which looks at the widths itself.
fn single_global(array: &BitPackedArray, i: usize) -> Result<Scalar, FastLanesError> {
    if i >= array.len() {
        return Err(FastLanesError::IndexOutOfBounds);
    }
    unpack_single(array, i)
}

/// An item as it is stored, by the call that fits the array's widths.
fn single(alloc: Global, array: &BitPackedArray, i: usize) -> Result<Scalar, FastLanesError> {
    if i >= array.len() {
        return Err(FastLanesError::IndexOutOfBounds);
    }
    if array.bit_widths().is_global() {
        unpack_single(array, i)
    } else {
        unpack_single_blocked(alloc, array, i)
    }
}

fn counted(alloc: Global, array: &BitPackedArray, i: usize) -> Result<Scalar, FastLanesError> {
    if i >= array.len() {
        return Err(FastLanesError::IndexOutOfBounds);
    }
    let (item, _) = array.scalar_at_counted(alloc, i)?;
    Ok(item)
}

/// Copies the widths: one, or the boundaries.
fn widths(alloc: Global, array: &BitPackedArray, answer: &mut Text) {
    match BitWidths::try_from_view(alloc, array.bit_widths()) {
        Ok(BitWidths::Global(width)) => came(answer, Ok(width)),
        Ok(BitWidths::Blocked(boundaries)) => came_array(answer, Ok(boundaries)),
        Err(refusal) => came::<bool>(answer, Err(refusal)),
    }
}

/// The array with a boundary for each block.
fn to_blocked(alloc: Global, array: &BitPackedArray) -> Result<ArrayRef, FastLanesError> {
    Ok(BitPacked::to_blocked(alloc, array)?.into_array())
}

/// The packed bytes as words, by the array or by its data.
fn packed_words(alloc: Global, array: &BitPackedArray, of_data: bool) -> Made {
    let ptype = array.packed_data().ptype();
    match_each_integer_ptype!(ptype, packed_slice(alloc, array, of_data))
}

/// A call on a bit-packed array.
#[derive(Clone, Copy)]
enum PackedCall {
    Patches,
    Unpack,
    UnpackGlobal,
    UnpackPrimitive,
    Single,
    SingleGlobal,
    Counted,
    Widths,
    Slice,
    SliceOfData,
    Read,
    Lent,
    LentWhole,
    StoredItem,
    Data,
    ToBlocked,
}

const PACKED_CALLS: &[(&str, PackedCall)] = &[
    ("patches_op", PackedCall::Patches),
    ("unpack", PackedCall::Unpack),
    ("unpack_global", PackedCall::UnpackGlobal),
    ("unpack_primitive", PackedCall::UnpackPrimitive),
    ("single", PackedCall::Single),
    ("single_global", PackedCall::SingleGlobal),
    ("counted", PackedCall::Counted),
    ("widths", PackedCall::Widths),
    ("packed_slice", PackedCall::Slice),
    ("packed_slice_of_data", PackedCall::SliceOfData),
    ("read", PackedCall::Read),
    ("lent", PackedCall::Lent),
    ("lent_whole", PackedCall::LentWhole),
    ("stored_item", PackedCall::StoredItem),
    ("data", PackedCall::Data),
    ("own_to_blocked", PackedCall::ToBlocked),
];

fn on_packed(
    asked: Asked,
    call: PackedCall,
    array: &BitPackedArray,
    inputs: &Inputs,
    answer: &mut Text,
) {
    let (alloc, i) = (asked.alloc, asked.count(1));
    match call {
        PackedCall::Patches => came_patches(answer, select_in(asked, array, inputs)),
        PackedCall::Unpack => came(answer, unpack(alloc, array)),
        PackedCall::UnpackGlobal => came(answer, unpack_array(alloc, array)),
        PackedCall::UnpackPrimitive => came(answer, unpack_primitive(alloc, array)),
        PackedCall::Single => came(answer, single(alloc, array, i)),
        PackedCall::SingleGlobal => came(answer, single_global(array, i)),
        PackedCall::Counted => came(answer, counted(alloc, array, i)),
        PackedCall::Widths => widths(alloc, array, answer),
        PackedCall::Slice => came(answer, packed_words(alloc, array, false)),
        PackedCall::SliceOfData => came(answer, packed_words(alloc, array, true)),
        PackedCall::Read => came(answer, reader_calls::read_blocks(array)),
        PackedCall::Lent => came(answer, reader_calls::lent(array)),
        PackedCall::LentWhole => came(answer, reader_calls::lent_whole(array)),
        PackedCall::StoredItem => came(answer, reader_calls::stored_item(array, i)),
        PackedCall::Data => came(answer, reader_calls::data_with(array, i, asked.count(2))),
        PackedCall::ToBlocked => came_array(answer, to_blocked(alloc, array)),
    }
}

/// Reads two items by one state.
fn probe(alloc: Global, array: &RLEArray, i: usize) -> Result<Scalar, FastLanesError> {
    if i >= array.len() {
        return Err(FastLanesError::IndexOutOfBounds);
    }
    let mut state = RleProbeState::new(array);
    let _first = state.scalar_at(alloc, 0)?;
    state.scalar_at(alloc, i)
}

/// The array of copies of another one's parts, which nothing is refused of.
fn runs_again(alloc: Global, array: &RLEArray) -> Result<ArrayRef, FastLanesError> {
    rle_is_well_formed(array);
    let (offset, len) = (array.offset(), array.len());
    let values = array.values().try_clone(alloc)?;
    let indices = array.indices().try_clone(alloc)?;
    let offsets = array.offsets().try_clone(alloc)?;
    let again = RLE::new_unchecked(alloc, values, indices, offsets, offset, len)?;
    Ok(again.into_array())
}

/// Where the run values of a chunk start.
fn chunk_start(alloc: Global, array: &RLEArray, chunk: usize) -> Result<usize, FastLanesError> {
    if chunk >= array.offsets().len() {
        return Err(FastLanesError::IndexOutOfBounds);
    }
    array.values_idx_offset(alloc, chunk)
}

/// A call on an array of another encoding.
#[derive(Clone, Copy)]
enum EncodedCall {
    Decompress,
    Probe,
    Unchecked,
    ChunkStart,
}

const ENCODED_CALLS: &[(&str, EncodedCall)] = &[
    ("decompress", EncodedCall::Decompress),
    ("probe", EncodedCall::Probe),
    ("unchecked", EncodedCall::Unchecked),
    ("chunk_start", EncodedCall::ChunkStart),
];

fn on_runs(asked: Asked, call: EncodedCall, array: &RLEArray, answer: &mut Text) {
    let (alloc, i) = (asked.alloc, asked.count(1));
    match call {
        EncodedCall::Decompress => came(answer, rle_decompress(alloc, array)),
        EncodedCall::Probe => came(answer, probe(alloc, array, i)),
        EncodedCall::Unchecked => came_array(answer, runs_again(alloc, array)),
        EncodedCall::ChunkStart => came(answer, chunk_start(alloc, array, i)),
    }
}

fn on_encoded(asked: Asked, call: EncodedCall, array: &ArrayRef, answer: &mut Text) {
    if let Some(array) = array.as_rle() {
        on_runs(asked, call, array, answer);
    } else if let Some(array) = array.as_for() {
        came(answer, decompress(asked.alloc, array));
    } else if let Some(array) = array.as_delta() {
        came(answer, delta_decompress(asked.alloc, array));
    } else {
        answer.word("no such call");
    }
}

pub(crate) fn make(asked: Asked, inputs: &Inputs, answer: &mut Text) -> bool {
    if let Some(call) = named(ENCODED_CALLS, asked.word(0)) {
        on_encoded(asked, call, &inputs.array, answer);
        return true;
    }
    match (
        named(PACKED_CALLS, asked.word(0)),
        inputs.array.as_bitpacked(),
    ) {
        (Some(call), Some(array)) => {
            on_packed(asked, call, array, inputs, answer);
            true
        }
        _ => false,
    }
}
