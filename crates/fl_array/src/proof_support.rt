//! What the invariants of the types imply for a whole array. These functions have no effect.

ghost use Rattle.std.specs.Prelude.{◌≡◌, IsTrue};
ghost use Rattle.fl_types.specs.Values.{scalar_parts};
ghost use Rattle.fl_column.specs.Columns.{option_all};
ghost use Rattle.fl_array.specs.BitPackedArrays.{BlockBoundaries, GlobalWidth, tree_of_bitpacked};
ghost use Rattle.fl_array.specs.DeltaArrays.{tree_of_delta};
ghost use Rattle.fl_array.specs.FoRArrays.{ChunkReferences, GlobalReference, offset_of_references, tree_of_for};
ghost use Rattle.fl_array.specs.RLEArrays.{tree_of_rle};
ghost use Rattle.fl_array.specs.Trees as tree;
ghost use Rattle.fl_array.specs.WellFormed.{is_patches, is_primitive, is_scalar, is_well_formed};

use crate::array::ArrayRef;
use crate::bitpacking::BitPackedArray;
use crate::delta::DeltaArray;
use crate::for_::FoRArray;
use crate::rle::RLEArray;
use fl_bitpacking::packed_data::PackedData;
use fl_column::laws::stored_integers_are_in_range;
use fl_column::{BoolArray, ConstantArray, PrimitiveArray, Scalar};
use fl_patches::Patches;
use fl_types::laws::value_is_in_range;

/// The value of a scalar is one of its type, and a null stands where one may.
fn prove_scalar(scalar: Scalar)
    ensures { IsTrue (is_scalar (scalar_parts scalar)) }
{
    match scalar {
        Scalar::Integer(value, _) => value_is_in_range(value),
        _ => {}
    }
}

/// The stored integers are those of the type.
pub(crate) fn prove_primitive(array: &PrimitiveArray)
    ensures { IsTrue (is_primitive array.now) }
{
    stored_integers_are_in_range(array);
    let (_len, _validity) = (array.len(), array.validity());
}

/// The scalar is an integer of its type or a null.
pub(crate) fn prove_constant(array: &ConstantArray)
    ensures { IsTrue (is_well_formed (tree.Constant array.now)) }
{
    prove_scalar(array.scalar());
    let (_len, _ptype) = (array.len(), array.ptype());
}

/// The validity covers the booleans.
pub(crate) fn prove_bools(array: &BoolArray)
    ensures { IsTrue (is_well_formed (tree.Bool array.now)) }
{
    let (_len, _validity) = (array.len(), array.validity());
}

fn prove_chunk_offsets(patches: &Patches)
    ensures { IsTrue (option_all is_primitive patches.now.chunk_offsets) }
{
    if let Some(chunk_offsets) = patches.chunk_offsets() {
        prove_primitive(chunk_offsets);
    }
}

fn prove_patches(patches: &Patches)
    ensures { IsTrue (is_patches patches.now) }
{
    prove_primitive(patches.indices());
    prove_primitive(patches.values());
    prove_chunk_offsets(patches);
    let _offset = patches.offset();
}

fn prove_packed(data: &PackedData)
    ensures { IsTrue (option_all is_patches data.now.patches) }
{
    if let Some(patches) = data.patches() {
        prove_patches(patches);
    }
}

impl BitPackedArray {
    /// The array is one that its constructor makes, where all blocks have this width.
    pub(crate) fn prove_at_width(&self, width: u8)
        requires { GlobalWidth width ≡ self.now.widths }
        ensures { IsTrue (is_well_formed (tree_of_bitpacked self.now)) }
    {
        self.prove_well_formed();
        prove_packed(self.packed_data());
    }

    /// The array is one that its constructor makes, where the blocks lie between these boundaries.
    pub(crate) fn prove_between(&self, boundaries: &ArrayRef)
        requires same { BlockBoundaries boundaries.now ≡ self.now.widths }
        requires boundaries { IsTrue (is_well_formed boundaries.now) }
        ensures { IsTrue (is_well_formed (tree_of_bitpacked self.now)) }
    {
        self.prove_well_formed();
        prove_packed(self.packed_data());
    }
}

impl FoRArray {
    /// The array is one that its constructor makes, if there is one reference.
    pub(crate) fn prove_over_reference(&self, reference: &Scalar)
        requires same { GlobalReference (scalar_parts reference.now) ≡ self.now.references }
        requires encoded { IsTrue (is_well_formed self.now.encoded) }
        ensures { IsTrue (is_well_formed (tree_of_for self.now)) }
    {
        self.prove_well_formed();
        prove_scalar(*reference);
    }

    /// The array is one that its constructor makes, where each chunk has one of these references.
    pub(crate) fn prove_over_references(&self, references: &ArrayRef)
        requires same { ChunkReferences references.now (offset_of_references self.now.references) ≡ self.now.references }
        requires encoded { IsTrue (is_well_formed self.now.encoded) }
        requires references { IsTrue (is_well_formed references.now) }
        ensures { IsTrue (is_well_formed (tree_of_for self.now)) }
    {
        self.prove_well_formed();
        self.prove_no_constant();
    }
}

impl DeltaArray {
    /// The array is one that its constructor makes.
    pub(crate) fn prove_over_blocks(&self)
        requires bases { IsTrue (is_well_formed self.now.bases) }
        requires deltas { IsTrue (is_well_formed self.now.deltas) }
        ensures { IsTrue (is_well_formed (tree_of_delta self.now)) }
    {
        self.prove_well_formed();
        let _len = self.len();
    }
}

impl RLEArray {
    /// The array is one that its constructor makes.
    pub(crate) fn prove_over_runs(&self)
        requires values { IsTrue (is_well_formed self.now.values) }
        requires indices { IsTrue (is_well_formed self.now.indices) }
        requires offsets { IsTrue (is_well_formed self.now.offsets) }
        ensures { IsTrue (is_well_formed (tree_of_rle self.now)) }
    {
        self.prove_well_formed();
        let _len = self.len();
    }
}
