//! Encoding by a scheme: the functions of one recursion.

ghost use Rattle.std.specs.Prelude.{◌≡◌, None, false};
ghost use Rattle.fl_types.specs.Values.{scalar_parts};
ghost use Rattle.fl_column.specs.Columns.{column_of_primitive};
ghost use Rattle.fl_column.specs.Queries.{are_constant};
ghost use Rattle.fl_codec.specs.Parts.{run_parts};
ghost use Rattle.fl_codec.specs.RunRefusals.{rle_refusal};
ghost use Rattle.fl_array.specs.FoRArrays.{ChunkReferences, for_refusal, reference_refusal};
ghost use Rattle.fl_array.specs.Trees.{FoRChunked, FoRGlobal, Primitive, column};
ghost use Rattle.fl_array.specs.Trees as tree;
ghost use Rattle.fl_encode.specs.Encodings.{EncodesAs, HasChunkReferences, HasOneReference, HasRuns, IsEncodedAs, Makes, encode_refusal, run_children_refusal};
ghost use Rattle.fl_bitpacking.specs.Refusals.{otherwise};
ghost use Rattle.fl_encode.specs.SchemeShapes.{shape};
ghost use Rattle.fl_encode.specs.Shapes as shapes;

use crate::parts::{
    over_deltas, over_nulls, over_reference, over_references, over_runs, pack, prove_few, repeat,
};
use crate::scheme::{Child, Scheme};
use fl_array::{ArrayRef, IntoArray};
use fl_codec::for_::{EncodedFoR, GlobalFoR, ItemOrder, encode_by, encode_chunked_by};
use fl_codec::laws::{
    chunked_for_by_and_back, deltas_and_back, dictionaries_and_back, global_for_by_and_back,
    runs_and_back,
};
use fl_codec::rle::{Runs, dictionary};
use fl_codec::{delta, rle};
use fl_column::{FastLanesError, PrimitiveArray, Scalar};
use std::alloc::Global;

/// The child of an encoded array by its scheme, plain without one.
#[cycle(encode)]
fn encode_child(
    alloc: Global,
    child: PrimitiveArray,
    scheme: &Child,
) -> Result<ArrayRef, FastLanesError>
    ensures { EncodesAs scheme.now child result }
{
    match scheme.scheme() {
        None => Ok(child.into_array()),
        Some(scheme) => encode(alloc, &child, scheme),
    }
}

/// The FoR array of a child, encoded by its scheme, and its one reference.
#[cycle(encode)]
fn encode_over_reference(
    alloc: Global,
    child: PrimitiveArray,
    reference: Scalar,
    scheme: &Child,
) -> Result<ArrayRef, FastLanesError>
    requires { reference_refusal (column_of_primitive child).dtype (scalar_parts reference) ≡ None }
    ensures { Makes (encode_refusal scheme.now child) (HasOneReference (IsEncodedAs scheme.now) (record { child = child; reference = scalar_parts reference })) (column (FoRGlobal (Primitive child) (scalar_parts reference))) result }
{
    let encoded = encode_child(alloc, child, scheme)?;
    over_reference(alloc, encoded, reference)
}

/// The FoR array of a child and the references of its chunks, which are not all equal, each encoded by its scheme.
#[cycle(encode)]
fn encode_over_references(
    alloc: Global,
    child: PrimitiveArray,
    others: PrimitiveArray,
    encoded: &Child,
    references: &Child,
) -> Result<ArrayRef, FastLanesError>
    requires sound { for_refusal (column_of_primitive child) (ChunkReferences (Primitive others) 0) ≡ None }
    requires differ { are_constant (column_of_primitive others).items ≡ false }
    ensures { Makes (otherwise (encode_refusal encoded.now child) (encode_refusal references.now others)) (HasChunkReferences (IsEncodedAs encoded.now) (IsEncodedAs references.now) child others) (column (FoRChunked (Primitive child) (Primitive others) 0)) result }
{
    let encoded = encode_child(alloc, child, encoded)?;
    let references = encode_child(alloc, others, references)?;
    over_references(alloc, encoded, references)
}

/// The FoR array of a primitive one, with its least valid item by an order as the one reference.
///
/// # Errors
/// `NoMinimum` where no item is valid, else those of the child.
#[cycle(encode)]
fn encode_for(
    alloc: Global,
    array: &PrimitiveArray,
    order: ItemOrder,
    scheme: &Child,
) -> Result<ArrayRef, FastLanesError>
    ensures { EncodesAs (shapes.FoR order scheme.now) array.now result }
{
    global_for_by_and_back(array, order);
    let GlobalFoR { child, reference } = encode_by(alloc, array, order)?;
    encode_over_reference(alloc, child, reference, scheme)
}

/// The FoR array of a primitive one, with the least valid item of each chunk, by an order, as its reference, or one
/// reference where all of these are equal. Nothing but nulls become a constant child, which isn't encoded.
///
/// # Errors
/// Those of the child, and then those of the references.
#[cycle(encode)]
fn encode_chunked_for(
    alloc: Global,
    array: &PrimitiveArray,
    order: ItemOrder,
    encoded: &Child,
    references: &Child,
) -> Result<ArrayRef, FastLanesError>
    ensures { EncodesAs (shapes.FoRChunked order encoded.now references.now) array.now result }
{
    chunked_for_by_and_back(array, order);
    prove_few(array);
    let _validity = array.validity();
    match encode_chunked_by(alloc, array, order)? {
        EncodedFoR::Global(GlobalFoR { child, reference }) => {
            encode_over_reference(alloc, child, reference, encoded)
        }
        EncodedFoR::Chunked(child, others) => {
            encode_over_references(alloc, child, others, encoded, references)
        }
        EncodedFoR::Nulls(child, reference) => over_nulls(alloc, child, reference),
    }
}

/// The delta array of a primitive one.
///
/// # Errors
/// Those of the bases, and then those of the deltas.
#[cycle(encode)]
fn encode_delta(
    alloc: Global,
    array: &PrimitiveArray,
    bases: &Child,
    deltas: &Child,
) -> Result<ArrayRef, FastLanesError>
    ensures { EncodesAs (shapes.Delta bases.now deltas.now) array.now result }
{
    deltas_and_back(array);
    let len = array.len();
    let validity = array.validity().try_clone(alloc)?;
    let (plain_bases, plain_deltas) = delta::delta_compress(alloc, array)?;
    let bases = encode_child(alloc, plain_bases, bases)?;
    let deltas = encode_child(alloc, plain_deltas, deltas)?;
    over_deltas(alloc, bases, deltas, validity, len)
}

/// The run-length encoded array of `len` items of these run values, run indices and run offsets, each encoded by its scheme.
///
/// # Errors
/// Those of the run values, then those of the run indices, and then those of the run offsets.
#[cycle(encode)]
fn encode_runs(
    alloc: Global,
    runs: Runs,
    len: usize,
    values: &Child,
    indices: &Child,
    offsets: &Child,
) -> Result<ArrayRef, FastLanesError>
    requires { rle_refusal (column_of_primitive runs.values) (column_of_primitive runs.indices) (column_of_primitive runs.offsets) 0 len ≡ None }
    ensures { Makes (run_children_refusal (encode_refusal values.now) (encode_refusal indices.now) (encode_refusal offsets.now) (run_parts runs)) (HasRuns (IsEncodedAs values.now) (IsEncodedAs indices.now) (IsEncodedAs offsets.now) (run_parts runs) (record { offset = 0; len = len })) (column (tree.RLE (Primitive runs.values) (Primitive runs.indices) (Primitive runs.offsets) (record { offset = 0; len = len }))) result }
{
    let Runs {
        values: plain_values,
        indices: plain_indices,
        offsets: plain_offsets,
    } = runs;
    let values = encode_child(alloc, plain_values, values)?;
    let indices = encode_child(alloc, plain_indices, indices)?;
    let offsets = encode_child(alloc, plain_offsets, offsets)?;
    over_runs(alloc, values, indices, offsets, len)
}

/// The run-length encoded array of a primitive one.
///
/// # Errors
/// Those of the run values, then those of the run indices, and then those of the run offsets.
#[cycle(encode)]
fn encode_rle(
    alloc: Global,
    array: &PrimitiveArray,
    values: &Child,
    indices: &Child,
    offsets: &Child,
) -> Result<ArrayRef, FastLanesError>
    ensures { EncodesAs (shapes.RLE shapes.Runs values.now indices.now offsets.now) array.now result }
{
    runs_and_back(array);
    let len = array.len();
    let runs = rle::encode(alloc, array)?;
    let (_values, _indices, _offsets) = (
        runs.values.validity(),
        runs.indices.validity(),
        runs.offsets.validity(),
    );
    encode_runs(alloc, runs, len, values, indices, offsets)
}

/// The run-length encoded array of a primitive one that has a dictionary for each chunk.
///
/// # Errors
/// Those of the distinct items, then those of their indices, and then those of the offsets.
#[cycle(encode)]
fn encode_dict(
    alloc: Global,
    array: &PrimitiveArray,
    values: &Child,
    indices: &Child,
    offsets: &Child,
) -> Result<ArrayRef, FastLanesError>
    ensures { EncodesAs (shapes.RLE shapes.Dictionary values.now indices.now offsets.now) array.now result }
{
    dictionaries_and_back(array);
    let len = array.len();
    let runs = dictionary::encode(alloc, array)?;
    let (_values, _indices, _offsets) = (
        runs.values.validity(),
        runs.indices.validity(),
        runs.offsets.validity(),
    );
    encode_runs(alloc, runs, len, values, indices, offsets)
}

/// Encodes an array by a scheme. Each child is encoded by its own scheme, and stored plain if it has none.
///
/// # Errors
/// The first that applies, from the outer encoding to its children in the order of their slots:
/// - `Constant`: `CastOutOfRange` if two items differ.
/// - `BitPacked`: the first of `NegativeValue`, `WidthTooLarge` and `AllBlocksNative` that applies.
/// - `FoR`: `NoMinimum` if all items are null.
///
/// `FoRChunked` makes one reference if all are equal, and a constant child if all items are null. The schemes of children
/// that the array then does not have are not used. `RLE` and `Dict` make run-length encoded arrays, which differ in the run
/// values of their chunks.
#[cycle(encode)]
pub fn encode(
    alloc: Global,
    array: &PrimitiveArray,
    scheme: &Scheme,
) -> Result<ArrayRef, FastLanesError>
    ensures { EncodesAs (shape scheme.now) array.now result }
{
    match scheme {
        Scheme::Primitive => Ok(array.try_clone(alloc)?.into_array()),
        Scheme::Constant => repeat(array),
        Scheme::BitPacked(packing) => pack(alloc, array, *packing),
        Scheme::FoR { order, encoded } => encode_for(alloc, array, *order, encoded),
        Scheme::FoRChunked {
            order,
            encoded,
            references,
        } => encode_chunked_for(alloc, array, *order, encoded, references),
        Scheme::Delta { bases, deltas } => encode_delta(alloc, array, bases, deltas),
        Scheme::RLE {
            values,
            indices,
            offsets,
        } => encode_rle(alloc, array, values, indices, offsets),
        Scheme::Dict {
            values,
            indices,
            offsets,
        } => encode_dict(alloc, array, values, indices, offsets),
    }
}
