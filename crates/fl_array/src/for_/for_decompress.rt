//! Decoding of FoR arrays.

ghost use Rattle.std.specs.Prelude.{◌≡◌, ◌≤◌, IfSome, Ok, length};
ghost use Rattle.std.specs.Option.{option_copied};
ghost use Rattle.fl_types.specs.Refusals.{Answers};
ghost use Rattle.fl_types.specs.Values.{scalar_parts};
ghost use Rattle.fl_column.specs.Columns.{column_of_primitive, integers_in};
ghost use Rattle.fl_bitpacking.specs.Columns.{block_count};
ghost use Rattle.fl_codec.specs.FoRColumns.{chunked_for, global_for};
ghost use Rattle.fl_types.specs.Values.{integer_of, ptype_of_value};
ghost use Rattle.fl_array.specs.BitPackedArrays.{tree_of_bitpacked};
ghost use Rattle.fl_array.specs.FoRArrays.{ChunkReferences, GlobalReference, offset_of_references, packed_in_chunks, tree_of_for};
ghost use Rattle.fl_array.specs.Reads.{integer_column};
ghost use Rattle.fl_array.specs.Trees.{column};

use crate::array::ArrayRef;
use crate::bitpacking::BitPackedArray;
use crate::for_::{FoRArray, FoRReferences};
use crate::reader::Reader;
use crate::reader::direct::DirectReader;
use fl_column::{FastLanesError, PValue, PrimitiveArray, Scalar};
use std::alloc::Global;

/// The column of a FoR array in a primitive array.
///
/// The blocks of a bit-packed child are unpacked with the reference added in the same pass, if there is one
/// reference, or if the blocks of the child are the chunks of the references. Any other child is decoded, and
/// the references are added to its items.
///
/// # Errors
/// Only `OutOfMemory`.
pub fn decompress(alloc: Global, array: &FoRArray) -> Result<PrimitiveArray, FastLanesError>
    ensures { Answers column_of_primitive result (Ok (column (tree_of_for array.now))) }
{
    array.to_primitive(alloc)
}

impl FoRArray {
    /// The bit-packed child, if the blocks of one are the chunks of the references.
    pub fn packed_in_chunks(&self) -> Option<&BitPackedArray>
        ensures parts { option_copied result ≡ packed_in_chunks self.now }
        ensures tree { IfSome result (λ p. tree_of_bitpacked p.now ≡ self.now.encoded) }
        ensures offset { IfSome result (λ p. p.now.parts.offset ≡ offset_of_references self.now.references) }
    {
        match self.encoded().as_bitpacked() {
            Some(packed) if packed.packed_data().offset() == self.offset() => Some(packed),
            _ => None,
        }
    }

    /// The one reference, which is an integer of a bit-packed child's type.
    pub(crate) fn reference_of_packed(&self, packed: &BitPackedArray, reference: &Scalar) -> PValue
        requires same { GlobalReference (scalar_parts reference.now) ≡ self.now.references }
        requires packed { tree_of_bitpacked packed.now ≡ self.now.encoded }
        ensures typed { ptype_of_value result ≡ packed.now.parts.ptype }
        ensures sums { global_for (integer_of result) (column (tree_of_bitpacked packed.now)) ≡ column (tree_of_for self.now) }
    {
        self.prove_well_formed();
        match reference.as_pvalue() {
            Some(value) => value,
            None => unreachable!(),
        }
    }

    /// The decoded references, which are integers of a bit-packed child's type, are those of its blocks.
    pub(crate) fn prove_references_of_blocks(
        &self,
        packed: &BitPackedArray,
        references: &ArrayRef,
        plain: &PrimitiveArray,
    )
        requires same { ChunkReferences references.now (offset_of_references self.now.references) ≡ self.now.references }
        requires packed { tree_of_bitpacked packed.now ≡ self.now.encoded }
        requires offset { packed.now.parts.offset ≡ offset_of_references self.now.references }
        requires plain { Ok (column_of_primitive plain.now) ≡ integer_column (column references.now) }
        ensures typed { plain.now.ptype ≡ packed.now.parts.ptype }
        ensures same { plain.now.slots ≡ integers_in (column references.now) }
        ensures enough { block_count packed.now.parts ≤ length plain.now.slots }
        ensures sums { chunked_for plain.now.slots packed.now.parts.offset (column (tree_of_bitpacked packed.now)) ≡ column (tree_of_for self.now) }
    {
        self.prove_well_formed();
        let _count = plain.len();
    }

    /// The column in a primitive array.
    pub(crate) fn to_primitive(&self, alloc: Global) -> Result<PrimitiveArray, FastLanesError>
        ensures { Answers column_of_primitive result (Ok (column (tree_of_for self.now))) }
    {
        self.prove_integers();
        let reader = Reader::direct(DirectReader::of_for(alloc, self)?);
        let validity = self.column_validity(self.encoded().validity(alloc)?);
        let dtype = self.dtype_from(self.encoded().dtype());
        reader.to_primitive(alloc, dtype, validity)
    }
}
