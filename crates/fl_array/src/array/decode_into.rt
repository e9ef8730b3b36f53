//! Arrays that are decoded into a slice of the caller.

ghost use Rattle.std.specs.Prelude.{◌≡◌, IsTrue, Ok, OnErr, OnOk, length, map};
ghost use Rattle.fl_types.specs.Refusals.{Answers};
ghost use Rattle.fl_types.specs.Types.{has_ptype};
ghost use Rattle.fl_array.specs.Reads.{AreItemsOf};
ghost use Rattle.fl_array.specs.Trees.{column};

use crate::array::ArrayRef;
use crate::reader::Reader;
use fl_bitpacking::unpack_iter::BitPacked;
use fl_column::{FastLanesError, PhysicalPType};
use num_traits::WrappingAdd;
use std::alloc::Global;

impl ArrayRef {
    /// Writes the items into a slice of as many integers of the column's type. What a null leaves at its index is
    /// not specified; `validity` says which items are null.
    ///
    /// The items are read straight into the slice, block by block. The memory that is allocated is that of boundaries,
    /// references, bases, run values and run offsets that are not primitive, and of the items of run-length encoded
    /// arrays inside of the array.
    ///
    /// # Errors
    /// Only `OutOfMemory`, after which the slice is unchanged.
    #[tactic(auto, using(crate::proofs::ReadLaws::integers_of_type))]
    pub fn decode_into<T: BitPacked + PhysicalPType + WrappingAdd>(
        &self,
        alloc: Global,
        values: &mut [T],
    ) -> Result<(), FastLanesError>
        requires typed { IsTrue (has_ptype T.PTYPE (column self.now).dtype) }
        requires long { length values.old ≡ length (column self.now).items }
        ensures answer { Answers (λ u. u) result (Ok tt) }
        ensures items { OnOk result (AreItemsOf (map T.value values.new) (column self.now)) }
        ensures unwritten { OnErr result (values.new ≡ values.old) }
    {
        let reader = Reader::try_new(alloc, self)?;
        reader.decode_into(values);
        Ok(())
    }
}
