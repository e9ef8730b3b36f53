//! Decoding of run-length encoded arrays.

ghost use Rattle.std.specs.Prelude.{◌≡◌, IfErr, IfOk, Ok};
ghost use Rattle.fl_types.specs.declared.error.FastLanesError.TheVariants.{OutOfMemory};
ghost use Rattle.fl_types.specs.Refusals.{Answers};
ghost use Rattle.fl_column.specs.Columns.{column_of_primitive};
ghost use Rattle.fl_array.specs.Reads.{IsValidityOf};
ghost use Rattle.fl_array.specs.RLEArrays.{tree_of_rle};
ghost use Rattle.fl_array.specs.Trees.{column};

use crate::reader::Reader;
use crate::rle::RLEArray;
use fl_column::{FastLanesError, PrimitiveArray, Validity};
use std::alloc::Global;

/// The column of a run-length encoded array in a primitive array.
///
/// # Errors
/// Only `OutOfMemory`.
pub fn rle_decompress(alloc: Global, array: &RLEArray) -> Result<PrimitiveArray, FastLanesError>
    ensures { Answers column_of_primitive result (Ok (column (tree_of_rle array.now))) }
{
    array.to_primitive(alloc)
}

impl RLEArray {
    /// Which items are null.
    fn validity(&self, alloc: Global) -> Result<Validity, FastLanesError>
        ensures validity { IfOk result (λ v. IsValidityOf v (column (tree_of_rle self.now))) }
        ensures memory { IfErr result (λ e. e ≡ OutOfMemory) }
    {
        let validity = self.indices().validity(alloc)?;
        self.column_validity(alloc, validity, self.indices().len())
    }

    /// The column in a primitive array, by a reader of it.
    pub(crate) fn read_all(
        &self,
        alloc: Global,
        reader: &Reader,
    ) -> Result<PrimitiveArray, FastLanesError>
        requires { reader.now.column ≡ column (tree_of_rle self.now) }
        ensures { Answers column_of_primitive result (Ok (column (tree_of_rle self.now))) }
    {
        self.prove_integers();
        let validity = self.validity(alloc)?;
        let dtype = self.dtype_from(self.values().dtype(), self.indices().dtype());
        reader.to_primitive(alloc, dtype, validity)
    }

    /// The column in a primitive array.
    pub(crate) fn to_primitive(&self, alloc: Global) -> Result<PrimitiveArray, FastLanesError>
        ensures { Answers column_of_primitive result (Ok (column (tree_of_rle self.now))) }
    {
        let reader = Reader::of_runs(alloc, self)?;
        self.read_all(alloc, &reader)
    }
}
