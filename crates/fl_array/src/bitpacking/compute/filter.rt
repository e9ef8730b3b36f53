//! Filters of bit-packed arrays, block by block.

ghost use Rattle.std.specs.Prelude.{◌≡◌, ◌≤◌, IfOk, Ok, length};
ghost use Rattle.fl_types.specs.declared.mask.Mask.TheVariants.{Values};
ghost use Rattle.fl_types.specs.Refusals.{Answers};
ghost use Rattle.fl_column.specs.Columns.{column_of_primitive};
ghost use Rattle.fl_column.specs.Operations.{filter_of};
ghost use Rattle.fl_bitpacking.specs.Columns.{block_count};
ghost use Rattle.fl_array.specs.BitPackedArrays.{tree_of_bitpacked};
ghost use Rattle.fl_array.specs.Trees.{column};

use crate::bitpacking::BitPackedArray;
use fastlanes::Work;
use fl_column::{BitList, FastLanesError, PrimitiveArray};
use std::alloc::Global;

impl BitPackedArray {
    /// The items whose booleans are true, in order, and what was read of the packed bytes for them; there is a boolean for
    /// each item. A block is unpacked at most once, and only for more than sixteen of its items.
    ///
    /// # Errors
    /// Only `OutOfMemory`.
    pub fn filter_counted(
        &self,
        alloc: Global,
        bits: &BitList,
    ) -> Result<(PrimitiveArray, Work), FastLanesError>
        requires { length bits.now ≡ length (column (tree_of_bitpacked self.now)).items }
        ensures column { Answers (λ r. column_of_primitive r.0) result (Ok (filter_of (Values bits.now) (column (tree_of_bitpacked self.now)))) }
        ensures blocks { IfOk result (λ r. r.1.blocks ≤ block_count self.now.parts) }
    {
        // For the proof: the column has as many items as the parts say.
        let _len = self.len();
        let mut work = Work::new();
        let widths = self.widths(alloc)?;
        let kept = self
            .packed_data()
            .filter(alloc, widths.view(), bits, &mut work)?;
        Ok((kept, work))
    }

    /// The items whose booleans are true, in order; there is a boolean for each item.
    ///
    /// # Errors
    /// Only `OutOfMemory`.
    pub fn filter(&self, alloc: Global, bits: &BitList) -> Result<PrimitiveArray, FastLanesError>
        requires { length bits.now ≡ length (column (tree_of_bitpacked self.now)).items }
        ensures { Answers column_of_primitive result (Ok (filter_of (Values bits.now) (column (tree_of_bitpacked self.now)))) }
    {
        let (kept, _work) = self.filter_counted(alloc, bits)?;
        Ok(kept)
    }
}
