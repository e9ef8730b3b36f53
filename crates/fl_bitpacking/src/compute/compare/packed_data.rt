//! Tests of a range on bit-packed parts.

ghost use Rattle.std.specs.Prelude.{◌≡◌, ◌+◌, ◌≤◌, Ok, OnOk, min};
ghost use Rattle.fl_types.specs.Refusals.{Answers};
ghost use Rattle.fl_column.specs.Columns.{column_of_bools};
ghost use Rattle.fl_column.specs.Queries.{tested};
ghost use Rattle.fl_bitpacking.specs.Blocks.{blocks_of};
ghost use Rattle.fl_bitpacking.specs.Columns.{block_count, column_of_packed};
ghost use Rattle.fl_bitpacking.specs.Decided.{undecided_by_block};
ghost use Rattle.fl_bitpacking.specs.ReadWidths.{AreWidthsOf};
ghost use Rattle.fl_bitpacking.specs.RangeTests.{IsTestOf, passes};
ghost use Rattle.fl_bitpacking.specs.References.{AreReferencesOf, of_sums, plus_references};

use crate::compute::compare::test_column;
use crate::compute::range_test::RangeTest;
use crate::packed_data::PackedData;
use crate::references::References;
use fastlanes::Work;
use fl_column::BoolArray;
use fl_patches::Widths;
use fl_types::FastLanesError;
use std::alloc::Global;

impl PackedData {
    /// The answers of a test for the items, whose blocks have these widths, or for the sums of the items and the
    /// references, if there are any; nulls stay null. Each block whose own width does not decide its test is unpacked once, and none if there is
    /// no item.
    pub fn test(
        &self,
        alloc: Global,
        widths: Widths,
        references: References,
        range: RangeTest,
        work: &mut Work,
    ) -> Result<BoolArray, FastLanesError>
        requires test { IsTestOf self.now.ptype range }
        requires references { AreReferencesOf self.now.ptype (block_count self.now) references }
        requires widths { AreWidthsOf self.now widths }
        ensures column { Answers column_of_bools result (Ok (tested (passes range) (plus_references references.entry self.now.offset (column_of_packed self.now (blocks_of widths.entry))))) }
        ensures blocks { OnOk result (work.new.blocks ≡ min (work.old.blocks + undecided_by_block self.now (blocks_of widths.entry) (of_sums self.now.ptype references.entry (passes range))) u64.MAX) }
        ensures most { work.new.blocks ≤ work.old.blocks + undecided_by_block self.now (blocks_of widths.entry) (of_sums self.now.ptype references.entry (passes range)) }
        ensures words { work.new.words ≡ work.old.words }
    {
        test_column(alloc, &self.column(), widths, references, range, work)
    }
}
