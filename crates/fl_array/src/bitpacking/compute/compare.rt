//! Comparisons of bit-packed arrays on their packed blocks, with a count of the blocks that they unpack.

ghost use Rattle.std.specs.Prelude.{◌≡◌, ◌+◌, ◌≤◌, IfOk, Ok, OnOk, length, min};
ghost use Rattle.fl_types.specs.Refusals.{Answers};
ghost use Rattle.fl_types.specs.Values.{integer_of};
ghost use Rattle.fl_column.specs.Columns.{column_of_bools};
ghost use Rattle.fl_column.specs.Queries.{holds, is_between, tested};
ghost use Rattle.fl_codec.specs.FoRColumns.{chunked_for};
ghost use Rattle.fl_bitpacking.specs.Columns.{block_count};
ghost use Rattle.fl_bitpacking.specs.Decided.{undecided_by_block};
ghost use Rattle.fl_bitpacking.specs.RangeTests.{IsTestOf, passes};
ghost use Rattle.fl_bitpacking.specs.References.{AreReferencesOf, of_sums, plus_references};
ghost use Rattle.fl_array.specs.BitPackedArrays.{blocks_of_widths, tree_of_bitpacked};
ghost use Rattle.fl_array.specs.Trees.{column};
ghost use Rattle.fl_array.specs.UnpackedBlocks.{IsComparisonOf, IsComparisonOfSums};

use crate::bitpacking::BitPackedArray;
use fastlanes::Work;
use fl_bitpacking::RangeTest;
use fl_bitpacking::laws::parts_are_consistent;
use fl_bitpacking::references::References;
use fl_column::{
    BetweenOptions, BoolArray, CompareOperator, FastLanesError, PValue, PrimitiveArray,
};
use std::alloc::Global;

impl BitPackedArray {
    /// The answers of a test for the items or, if there are references, for the sums of the items and the references; nulls
    /// stay null.
    fn test(
        &self,
        alloc: Global,
        references: References,
        range: RangeTest,
        work: &mut Work,
    ) -> Result<BoolArray, FastLanesError>
        requires test { IsTestOf self.now.parts.ptype range }
        requires references { AreReferencesOf self.now.parts.ptype (block_count self.now.parts) references }
        ensures column { Answers column_of_bools result (Ok (tested (passes range) (plus_references references.entry self.now.parts.offset (column (tree_of_bitpacked self.now))))) }
        ensures blocks { OnOk result (work.new.blocks ≡ min (work.old.blocks + undecided_by_block self.now.parts (blocks_of_widths self.now.widths) (of_sums self.now.parts.ptype references.entry (passes range))) u64.MAX) }
        ensures words { work.new.words ≡ work.old.words }
    {
        let widths = self.widths(alloc)?;
        self.packed_data()
            .test(alloc, widths.view(), references, range, work)
    }

    /// The answers of a test for the items, and what was unpacked of the packed bytes for it; nulls stay null. An array of one
    /// width unpacks each block once, or none where there is no item or the width decides the test. An array of a width for each
    /// block unpacks those whose own width does not decide it. A reference of the test is an integer of the array's type.
    ///
    /// # Errors
    /// Only `OutOfMemory`.
    pub fn test_counted(
        &self,
        alloc: Global,
        range: RangeTest,
    ) -> Result<(BoolArray, Work), FastLanesError>
        requires { IsTestOf self.now.parts.ptype range }
        ensures answer { Answers (λ r. column_of_bools r.0) result (Ok (tested (passes range) (column (tree_of_bitpacked self.now)))) }
        ensures work { IfOk result (λ r. IsComparisonOf self.now (passes range) r.1) }
    {
        parts_are_consistent(self.packed_data());
        let mut work = Work::new();
        let answers = self.test(alloc, References::None, range, &mut work)?;
        Ok((answers, work))
    }

    /// The answers of a test for the sums of the items and the references of their blocks, modulo 2 to the type's bits, and what
    /// was unpacked of the packed bytes for it; nulls stay null. There is a reference of the array's type for each block. A
    /// block is unpacked once if its own width does not decide the test of its sums.
    ///
    /// # Errors
    /// Only `OutOfMemory`.
    pub fn test_sums_counted(
        &self,
        alloc: Global,
        references: &PrimitiveArray,
        range: RangeTest,
    ) -> Result<(BoolArray, Work), FastLanesError>
        requires test { IsTestOf self.now.parts.ptype range }
        requires typed { references.now.ptype ≡ self.now.parts.ptype }
        requires enough { block_count self.now.parts ≤ length references.now.slots }
        ensures answer { Answers (λ r. column_of_bools r.0) result (Ok (tested (passes range) (chunked_for references.now.slots self.now.parts.offset (column (tree_of_bitpacked self.now))))) }
        ensures work { IfOk result (λ r. IsComparisonOfSums self.now references.now.slots (passes range) r.1) }
    {
        parts_are_consistent(self.packed_data());
        let mut work = Work::new();
        let answers = self.test(alloc, References::PerBlock(references), range, &mut work)?;
        Ok((answers, work))
    }

    /// How each item compares with a constant, and what was unpacked of the packed bytes for it, as by `test_counted`; a null
    /// stays a null.
    ///
    /// # Errors
    /// Only `OutOfMemory`.
    pub fn compare_counted(
        &self,
        alloc: Global,
        operator: CompareOperator,
        constant: PValue,
    ) -> Result<(BoolArray, Work), FastLanesError>
        ensures answer { Answers (λ r. column_of_bools r.0) result (Ok (tested (holds operator (integer_of constant)) (column (tree_of_bitpacked self.now)))) }
        ensures work { IfOk result (λ r. IsComparisonOf self.now (holds operator (integer_of constant)) r.1) }
    {
        self.test_counted(alloc, RangeTest::comparing(operator, constant))
    }

    /// Whether each item is between two bounds, and what was unpacked of the packed bytes for it, as by `test_counted`.
    /// No item is between bounds of which the lower is greater than the upper.
    ///
    /// # Errors
    /// Only `OutOfMemory`.
    pub fn between_counted(
        &self,
        alloc: Global,
        lower: PValue,
        upper: PValue,
        options: BetweenOptions,
    ) -> Result<(BoolArray, Work), FastLanesError>
        ensures answer { Answers (λ r. column_of_bools r.0) result (Ok (tested (is_between options (integer_of lower) (integer_of upper)) (column (tree_of_bitpacked self.now)))) }
        ensures work { IfOk result (λ r. IsComparisonOf self.now (is_between options (integer_of lower) (integer_of upper)) r.1) }
    {
        self.test_counted(alloc, RangeTest::between(lower, upper, options))
    }
}
