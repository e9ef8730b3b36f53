//! Point reads of bit-packed arrays that count the packed words that they read.

ghost use Rattle.std.specs.Prelude.{◌≡◌, ◌<◌, ◌≤◌, IfErr, IfOk, IsTrue, Ok, length};
ghost use Rattle.fl_types.specs.Refusals.{Answers};
ghost use Rattle.fl_types.specs.Values.{scalar_parts};
ghost use Rattle.fl_column.specs.Queries.{scalar_in};
ghost use Rattle.fl_array.specs.BitPackedArrays.{tree_of_bitpacked};
ghost use Rattle.fl_array.specs.Kinds.{has_delta, kind};
ghost use Rattle.fl_array.specs.Trees.{column};

use crate::bitpacking::BitPackedArray;
use fastlanes::Work;
use fl_column::{FastLanesError, Scalar};
use std::alloc::Global;

impl BitPackedArray {
    /// The item at an index, with the column's type, and what was read of the packed bytes for it: no block is
    /// unpacked, and at most two words are read. It allocates nothing unless the boundaries are or hold a delta
    /// array.
    ///
    /// # Errors
    /// Only `OutOfMemory`.
    pub fn scalar_at_counted(
        &self,
        alloc: Global,
        i: usize,
    ) -> Result<(Scalar, Work), FastLanesError>
        requires { i < length (column (tree_of_bitpacked self.now)).items }
        ensures item { Answers (λ r. scalar_parts r.0) result (Ok (scalar_in (column (tree_of_bitpacked self.now)) i)) }
        ensures blocks { IfOk result (λ r. r.1.blocks ≡ 0) }
        ensures words { IfOk result (λ r. r.1.words ≤ 2) }
        ensures memory { IfErr result (λ e. IsTrue (has_delta (kind (tree_of_bitpacked self.now)))) }
    {
        let mut work = Work::new();
        let item = self.scalar_at(alloc, i, &mut work)?;
        Ok((item, work))
    }
}
