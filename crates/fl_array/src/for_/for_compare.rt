//! Tests of FoR arrays over bit-packed items, on the packed blocks.

ghost use Rattle.std.specs.Prelude.{◌≡◌, IfOk, Ok};
ghost use Rattle.fl_types.specs.Refusals.{Answers};
ghost use Rattle.fl_column.specs.Columns.{column_of_bools, integers_in, ptype_of_column};
ghost use Rattle.fl_column.specs.Queries.{tested};
ghost use Rattle.fl_bitpacking.specs.RangeTests.{IsTestOf, passes};
ghost use Rattle.fl_array.specs.BitPackedArrays.{tree_of_bitpacked};
ghost use Rattle.fl_array.specs.FoRArrays.{ChunkReferences, offset_of_references, tree_of_for};
ghost use Rattle.fl_array.specs.Trees.{column};
ghost use Rattle.fl_array.specs.UnpackedBlocks.{IsComparisonOfSums};

use crate::array::ArrayRef;
use crate::bitpacking::BitPackedArray;
use crate::for_::FoRArray;
use fastlanes::Work;
use fl_bitpacking::RangeTest;
use fl_column::{BoolArray, FastLanesError};
use std::alloc::Global;

impl FoRArray {
    /// The answers of a test for the items, if the blocks of a bit-packed child are the chunks of these references, and
    /// the work of unpacking them; nulls stay null. Each block is tested with its reference: it is unpacked once if its own width
    /// does not decide the test of its sums. A reference of the test is an integer of the array's type.
    ///
    /// # Errors
    /// Only `OutOfMemory`.
    pub fn test_packed_counted(
        &self,
        alloc: Global,
        packed: &BitPackedArray,
        references: &ArrayRef,
        range: RangeTest,
    ) -> Result<(BoolArray, Work), FastLanesError>
        requires same { ChunkReferences references.now (offset_of_references self.now.references) ≡ self.now.references }
        requires packed { tree_of_bitpacked packed.now ≡ self.now.encoded }
        requires offset { packed.now.parts.offset ≡ offset_of_references self.now.references }
        requires test { IsTestOf (ptype_of_column (column self.now.encoded)) range }
        ensures answer { Answers (λ r. column_of_bools r.0) result (Ok (tested (passes range) (column (tree_of_for self.now)))) }
        ensures work { IfOk result (λ r. IsComparisonOfSums packed.now (integers_in (column references.now)) (passes range) r.1) }
    {
        self.prove_references_are_integers(references);
        let plain = references.to_primitive(alloc)?;
        self.prove_references_of_blocks(packed, references, &plain);
        packed.test_sums_counted(alloc, &plain, range)
    }
}
