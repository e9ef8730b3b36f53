//! Run-length encoded arrays over run values and run indices in other types.

ghost use Rattle.std.specs.Prelude.{◌≡◌, IsTrue, Ok, false};
ghost use Rattle.fl_types.specs.Refusals.{Answers};
ghost use Rattle.fl_types.specs.Types.{integer_type, is_integer, is_nullable};
ghost use Rattle.fl_array.specs.Trees.{column};

use crate::array::ArrayRef;
use crate::rle::{RLE, RLEArray};
use fl_column::FastLanesError;
use std::alloc::Global;

impl RLEArray {
    /// Copies of the run offsets over the same run values in another type, and the same run indices with another
    /// nullability.
    ///
    /// # Errors
    /// Only `OutOfMemory`.
    pub fn over(
        &self,
        alloc: Global,
        values: ArrayRef,
        indices: ArrayRef,
    ) -> Result<RLEArray, FastLanesError>
        requires values { (column values).items ≡ (column self.now.values).items }
        requires value_type { IsTrue (is_integer (column values).dtype) }
        requires non_nullable { is_nullable (column values).dtype ≡ false }
        requires indices { (column indices).items ≡ (column self.now.indices).items }
        requires index_type { integer_type (column indices).dtype ≡ integer_type (column self.now.indices).dtype }
        ensures { Answers (λ a. a) result (Ok (record { values = values; indices = indices; offsets = self.now.offsets; window = self.now.window })) }
    {
        self.prove_well_formed();
        let offsets = self.offsets().try_clone(alloc)?;
        let (offset, len) = (self.offset(), self.len());
        RLE::new_unchecked(alloc, values, indices, offsets, offset, len)
    }
}
