//! Columns that are kept in chunks.

ghost use Rattle.std.specs.Prelude.{◌≡◌, ◌<◌, ◌∷◌, [], IfOk, ℕ, List, Ok, Some, Option, length, slice_get};
ghost use Rattle.fl_types.specs.declared.dtype.DType.TheVariants.{Primitive};
ghost use Rattle.fl_column.specs.Columns.{Column};
ghost use Rattle.fl_file.specs.Ends.{Place};
ghost use Rattle.fl_file.specs.declared.statistics.ChunkStatistics.{ChunkStatistics};
ghost use Rattle.fl_array.specs.Trees.{column};
ghost use Rattle.flcol_file.specs.Chunked.{AreFactsOf, ChunkFacts, HasRead};
ghost use Rattle.flcol_file.specs.Outcomes.{AnswersFrom};

use crate::error::ColumnFileError;
use fl_array::ArrayRef;
use fl_column::{Nullability, PType};
use fl_file::ChunkStatistics;
use std::alloc::Global;

/// A column of integers in chunks, each an array whose statistics are known.
pub trait ColumnChunks {
    /// What is known of the chunks before one is read.
    ghost facts: { Self → ChunkFacts };

    /// These are the columns of the chunks.
    ghost holds: { Self → List Column → Type 0 };

    /// The reads so far, where they are logged.
    ghost reads: { Self → Option (List Place) };

    /// What is known of the chunks is so of their columns.
    ghost facts_hold: { (chunks : Self) (columns : List Column) → holds chunks columns → AreFactsOf (facts chunks) columns };

    /// The type of the items.
    fn ptype(&self) -> PType
        ensures { result ≡ (facts self.now).ptype };

    /// Whether items may be null.
    fn nullability(&self) -> Nullability
        ensures { result ≡ (facts self.now).nullability };

    /// How many chunks there are.
    fn chunk_count(&self) -> usize
        ensures { result ≡ length (facts self.now).statistics };

    /// The statistics of chunk `k`, which is not read.
    fn statistics(&self, k: usize) -> ChunkStatistics
        requires { k < length (facts self.now).statistics }
        ensures { slice_get (facts self.now).statistics k ≡ Some result };

    /// The array of chunk `k`, which is read: of the type and the length that are known.
    ///
    /// # Errors
    /// `OutOfMemory`, or `ReadFault` where a read fails; others only where what is known of the chunk is not so.
    fn array(&mut self, alloc: Global, k: usize) -> Result<ArrayRef, ColumnFileError>
        requires { k < length (facts self.old).statistics }
        ensures array { (columns : List Column) (c : Column) → holds self.old columns → slice_get columns k ≡ Some c → AnswersFrom (facts self.old).can_fail column result (Ok c) }
        ensures typed { IfOk result (λ a. (column a).dtype ≡ Primitive (facts self.old).ptype (facts self.old).nullability) }
        ensures counted { (s : ChunkStatistics) → slice_get (facts self.old).statistics k ≡ Some s → IfOk result (λ a. length (column a).items ≡ s.len) }
        ensures read { HasRead result (facts self.old) (reads self.old) (reads self.new) (k ∷ []) }
        ensures facts { facts self.new ≡ facts self.old }
        ensures holds { (columns : List Column) → holds self.old columns → holds self.new columns };
}
