//! Facts that are proved of each array that is written, and have no effect: an array is read as it was written.

ghost use Rattle.std.specs.Prelude.{◌≡◌, ◌<◌, ◌^◌, IfSome, IsTrue, length, option_map};
ghost use Rattle.std.specs.Option.{option_copied};
ghost use Rattle.std.specs.List.{list_all};
ghost use Rattle.fl_types.specs.Integers.{FitsIn, fits};
ghost use Rattle.fl_column.specs.Columns.{option_all};
ghost use Rattle.fl_types.specs.Values.{integer_of, ptype_of_value, scalar_parts};
ghost use Rattle.fl_metadata.specs.Fits.{PatchesFit};
ghost use Rattle.fl_array.specs.Trees.{column};
ghost use Rattle.fl_array.specs.Trees as tree;
ghost use Rattle.fl_array.specs.BitPackedArrays.{BlockBoundaries, GlobalWidth, tree_of_bitpacked};
ghost use Rattle.fl_array.specs.DeltaArrays.{tree_of_delta};
ghost use Rattle.fl_array.specs.FoRArrays.{ChunkReferences, GlobalReference, offset_of_references, tree_of_for};
ghost use Rattle.fl_array.specs.RLEArrays.{tree_of_rle};
ghost use Rattle.fl_serde.specs.RoundTrip.{ArePatchesOfTypes, HasFittingInteger, IsReadBack};
ghost use Rattle.fl_serde.specs.Writing.{patches_message};

use crate::nodes::patches_message;
use fl_array::bitpacking::{BitPackedArray, BitWidthsView};
use fl_array::delta::DeltaArray;
use fl_array::for_::{FoRArray, FoRReferences};
use fl_array::laws::{
    bitpacked_is_well_formed, delta_is_well_formed, for_is_well_formed, rle_is_well_formed,
};
use fl_array::rle::RLEArray;
use fl_array::{ArrayRef, Node};
use fl_bitpacking::laws::parts_are_consistent;
use fl_column::laws::stored_integers_are_in_range;
use fl_column::{BoolArray, ConstantArray, PValue, PrimitiveArray, Scalar};
use fl_metadata::{PatchesMetadata, written_is_read};
use fl_patches::Patches;

/// A value is in the range of its type.
pub(crate) fn prove_in_range(value: PValue)
    ensures { FitsIn (ptype_of_value value) (integer_of value) }
{
    match value {
        PValue::U8(_) | PValue::U16(_) | PValue::U32(_) | PValue::U64(_) => {}
        PValue::I8(_) | PValue::I16(_) | PValue::I32(_) | PValue::I64(_) => {}
    }
}

/// The items of an array can be counted.
fn prove_few(array: &ArrayRef)
    ensures { length (column array.now).items < 2 ^ 64 }
{
    let _len = array.len();
}

/// The integer of a scalar is one of its type.
fn prove_scalar_fits(scalar: Scalar)
    ensures { HasFittingInteger (scalar_parts scalar) }
{
    match scalar {
        Scalar::Integer(value, _) => prove_in_range(value),
        _ => {}
    }
}

/// A primitive array is read as it was written.
fn prove_primitive(array: &PrimitiveArray)
    ensures { IsReadBack (tree.Primitive array.now) }
{
    stored_integers_are_in_range(array);
    let _validity = array.validity();
}

/// A boolean array is read as it was written.
fn prove_bools(array: &BoolArray)
    ensures { IsReadBack (tree.Bool array.now) }
{
    let _validity = array.validity();
}

/// A constant array of a scalar is read as it was written.
fn prove_constant_of(scalar: Scalar, array: &ConstantArray)
    requires { scalar_parts scalar ≡ array.now.scalar }
    ensures { IsReadBack (tree.Constant array.now) }
{
    let _ptype = array.ptype();
    written_is_read();
    match scalar {
        Scalar::Integer(value, _) => prove_in_range(value),
        Scalar::NullInteger(_) => {}
        _ => unreachable!(),
    }
}

/// A constant array is read as it was written.
fn prove_constant(array: &ConstantArray)
    ensures { IsReadBack (tree.Constant array.now) }
{
    prove_constant_of(array.scalar(), array);
}

/// The message of patches has fields of their types.
fn prove_message_fits(message: Option<PatchesMetadata>)
    ensures { IfSome message PatchesFit }
{}

/// The chunk offsets of patches are integers of their type.
fn prove_offsets_in_range(offsets: Option<&PrimitiveArray>)
    ensures { IsTrue (option_all (λ o. list_all (fits o.ptype) o.slots) (option_copied offsets.entry)) }
{
    if let Some(offsets) = offsets {
        stored_integers_are_in_range(offsets);
    }
}

/// Patches are of integers of their types.
fn prove_patches_in_range(patches: &Patches)
    ensures { ArePatchesOfTypes patches.now }
{
    stored_integers_are_in_range(patches.indices());
    stored_integers_are_in_range(patches.values());
    prove_offsets_in_range(patches.chunk_offsets());
}

/// Patches are of integers of their types, and their message has fields of their types.
fn prove_patches(patches: Option<&Patches>)
    ensures patches { IfSome (option_copied patches.entry) ArePatchesOfTypes }
    ensures message { IfSome (option_map patches_message (option_copied patches.entry)) PatchesFit }
{
    prove_message_fits(patches_message(patches));
    if let Some(patches) = patches {
        prove_patches_in_range(patches);
    }
}

/// A bit-packed array of one width is read as it was written.
fn prove_global(array: &BitPackedArray, width: u8)
    requires { GlobalWidth width ≡ array.now.widths }
    ensures { IsReadBack (tree_of_bitpacked array.now) }
{
    written_is_read();
    bitpacked_is_well_formed(array);
    parts_are_consistent(array.packed_data());
    prove_patches(array.packed_data().patches());
}

/// A bit-packed array between boundaries is read as it was written, as these are.
fn prove_blocked(array: &BitPackedArray, boundaries: &ArrayRef)
    requires same { BlockBoundaries boundaries.now ≡ array.now.widths }
    requires boundaries { IsReadBack boundaries.now }
    ensures { IsReadBack (tree_of_bitpacked array.now) }
{
    written_is_read();
    bitpacked_is_well_formed(array);
    parts_are_consistent(array.packed_data());
    prove_patches(array.packed_data().patches());
}

/// A FoR array of one reference is read as it was written, as its encoded items are.
fn prove_for(array: &FoRArray, reference: &Scalar)
    requires same { GlobalReference (scalar_parts reference.now) ≡ array.now.references }
    requires encoded { IsReadBack array.now.encoded }
    ensures { IsReadBack (tree_of_for array.now) }
{
    written_is_read();
    for_is_well_formed(array);
    prove_scalar_fits(*reference);
}

/// A FoR array of a reference for each chunk is read as it was written, as its encoded items and its references are.
fn prove_for_chunked(array: &FoRArray, references: &ArrayRef)
    requires same { ChunkReferences references.now (offset_of_references array.now.references) ≡ array.now.references }
    requires encoded { IsReadBack array.now.encoded }
    requires references { IsReadBack references.now }
    ensures { IsReadBack (tree_of_for array.now) }
{
    written_is_read();
    for_is_well_formed(array);
}

/// A delta array is read as it was written, as its bases and its deltas are.
fn prove_delta(array: &DeltaArray)
    requires bases { IsReadBack array.now.bases }
    requires deltas { IsReadBack array.now.deltas }
    ensures { IsReadBack (tree_of_delta array.now) }
{
    written_is_read();
    delta_is_well_formed(array);
    prove_few(array.deltas());
}

/// A run-length encoded array is read as it was written, as the arrays in it are.
fn prove_rle(array: &RLEArray)
    requires values { IsReadBack array.now.values }
    requires indices { IsReadBack array.now.indices }
    requires offsets { IsReadBack array.now.offsets }
    ensures { IsReadBack (tree_of_rle array.now) }
{
    written_is_read();
    rle_is_well_formed(array);
    let (values, indices, offsets) = (array.values(), array.indices(), array.offsets());
    prove_few(values);
    prove_few(indices);
    prove_few(offsets);
}

/// An array is read as it was written.
pub(crate) fn prove_read_back(array: &ArrayRef)
    ensures { IsReadBack array.now }
{
    match array.node() {
        Node::Primitive(a) => prove_primitive(a),
        Node::Constant(a) => prove_constant(a),
        Node::Bool(a) => prove_bools(a),
        Node::BitPacked(a) => match a.bit_widths() {
            BitWidthsView::Global(width) => prove_global(a, width),
            BitWidthsView::Blocked(boundaries) => {
                prove_read_back(boundaries);
                prove_blocked(a, boundaries);
            }
        },
        Node::FoR(a) => {
            prove_read_back(a.encoded());
            match a.references() {
                FoRReferences::Global(reference) => prove_for(a, reference),
                FoRReferences::Blocked(references) => {
                    prove_read_back(references);
                    prove_for_chunked(a, references);
                }
            }
        }
        Node::Delta(a) => {
            prove_read_back(a.bases());
            prove_read_back(a.deltas());
            prove_delta(a);
        }
        Node::RLE(a) => {
            prove_read_back(a.values());
            prove_read_back(a.indices());
            prove_read_back(a.offsets());
            prove_rle(a);
        }
    }
}
