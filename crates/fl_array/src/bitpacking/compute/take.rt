//! Takes of bit-packed arrays that count what they read of the packed bytes.

ghost use Rattle.std.specs.Prelude.{◌≡◌, ◌*◌, ◌≤◌, false, IfOk, length};
ghost use Rattle.fl_types.specs.Refusals.{Answers};
ghost use Rattle.fl_column.specs.Columns.{column_of_primitive};
ghost use Rattle.fl_column.specs.Operations.{take_column};
ghost use Rattle.fl_array.specs.BitPackedArrays.{is_global, tree_of_bitpacked};
ghost use Rattle.fl_array.specs.Trees.{column};

use crate::bitpacking::BitPackedArray;
use fastlanes::Work;
use fl_column::{FastLanesError, PrimitiveArray};
use std::alloc::Global;

impl BitPackedArray {
    /// The items that indices name, null where an index is null, and what was read of the packed bytes for them. The
    /// integer under a null index is never read. Where each block has a width of its own, a block is unpacked
    /// for seventeen indices at least, and at most two words are read for an index.
    ///
    /// # Errors
    /// `IndexOutOfBounds` if an index is negative or not below the length.
    pub fn take_counted(
        &self,
        alloc: Global,
        indices: &PrimitiveArray,
    ) -> Result<(PrimitiveArray, Work), FastLanesError>
        ensures column { Answers (λ r. column_of_primitive r.0) result (take_column (column_of_primitive indices.now) (column (tree_of_bitpacked self.now))) }
        ensures blocks { is_global self.now.widths ≡ false → IfOk result (λ r. 17 * r.1.blocks ≤ length (column_of_primitive indices.now).items) }
        ensures words { is_global self.now.widths ≡ false → IfOk result (λ r. r.1.words ≤ 2 * length (column_of_primitive indices.now).items) }
    {
        let mut work = Work::new();
        let widths = self.widths(alloc)?;
        let taken = self
            .packed_data()
            .take(alloc, widths.view(), indices, &mut work)?;
        Ok((taken, work))
    }

    /// The items that indices name, null where an index is null. The integer under a null index is never looked
    /// at.
    ///
    /// # Errors
    /// `IndexOutOfBounds` if an index is negative or not below the length.
    pub fn take(
        &self,
        alloc: Global,
        indices: &PrimitiveArray,
    ) -> Result<PrimitiveArray, FastLanesError>
        ensures { Answers column_of_primitive result (take_column (column_of_primitive indices.now) (column (tree_of_bitpacked self.now))) }
    {
        let (taken, _work) = self.take_counted(alloc, indices)?;
        Ok(taken)
    }
}
