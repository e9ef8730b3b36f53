//! Decoding of delta arrays.

ghost use Rattle.std.specs.Prelude.{Ok};
ghost use Rattle.fl_types.specs.Refusals.{Answers};
ghost use Rattle.fl_column.specs.Columns.{column_of_primitive};
ghost use Rattle.fl_array.specs.DeltaArrays.{tree_of_delta};
ghost use Rattle.fl_array.specs.Trees.{column};

use crate::delta::DeltaArray;
use crate::reader::Reader;
use crate::reader::direct::DirectReader;
use fl_column::{FastLanesError, PrimitiveArray};
use std::alloc::Global;

/// The column of a delta array in a primitive array.
///
/// # Errors
/// Only `OutOfMemory`.
pub fn delta_decompress(alloc: Global, array: &DeltaArray) -> Result<PrimitiveArray, FastLanesError>
    ensures { Answers column_of_primitive result (Ok (column (tree_of_delta array.now))) }
{
    array.to_primitive(alloc)
}

impl DeltaArray {
    /// The column in a primitive array.
    pub(crate) fn to_primitive(&self, alloc: Global) -> Result<PrimitiveArray, FastLanesError>
        ensures { Answers column_of_primitive result (Ok (column (tree_of_delta self.now))) }
    {
        self.prove_integers();
        let reader = Reader::direct(DirectReader::of_deltas(alloc, self)?);
        let validity = self.column_validity(alloc)?;
        let dtype = self.dtype_from(self.bases().dtype());
        reader.to_primitive(alloc, dtype, validity)
    }
}
