//! An array as a column in one chunk, as a container is a file of one.

ghost use Rattle.std.specs.Prelude.{◌≡◌, ◌⊎◌, ◌∷◌, [], false, IfErr, IfOk};
ghost use Rattle.fl_types.specs.Types.{is_integer};
ghost use Rattle.fl_types.specs.declared.error.FastLanesError.TheVariants.{NotInteger, OutOfMemory};
ghost use Rattle.fl_array.specs.Trees.{column};
ghost use Rattle.flcol_file.specs.OneChunk.{HoldsArray, facts_of_chunk};

use crate::column_chunks::ColumnChunks;
use crate::error::ColumnFileError;
use crate::files::fitting;
use fl_array::ArrayRef;
use fl_column::{DType, FastLanesError, Nullability, PType};
use fl_file::ChunkStatistics;
use std::alloc::Global;

/// An array as a column in one chunk. So what is asked of a file is asked of the array of a container: its statistics are computed
/// when it is made, and it is copied when it is read.
#[derive(Drop)]
pub struct OneChunk {
    array: ArrayRef,
    ptype: PType,
    nullability: Nullability,
    statistics: ChunkStatistics,
}

impl OneChunk {
    /// The array as one chunk, with the statistics of its items.
    ///
    /// # Errors
    /// `NotInteger` if it is of booleans; else only `OutOfMemory`.
    pub fn try_new(alloc: Global, array: ArrayRef) -> Result<OneChunk, FastLanesError>
        ensures holds { IfOk result (λ chunks. HoldsArray chunks (column array ∷ [])) }
        ensures refused { IfErr result (λ e. (e ≡ OutOfMemory) ⊎ ((e ≡ NotInteger) × (is_integer (column array).dtype ≡ false))) }
    {
        let plain = array.to_primitive(alloc)?;
        Ok(OneChunk {
            statistics: ChunkStatistics::of(&plain),
            ptype: plain.ptype(),
            nullability: plain.nullability(),
            array,
        })
    }
}

impl ColumnChunks for OneChunk {
    ghost use Rattle.std.specs.Prelude.{None};
    ghost use Rattle.flcol_file.specs.OneChunk.{HoldsArray, facts_of_chunk, one_fact};

    ghost facts = { λ s. facts_of_chunk s };

    ghost holds = { λ s columns. HoldsArray s columns };

    ghost reads = { λ s. None };

    ghost facts_hold = { λ s columns h. one_fact s columns h };

    fn ptype(&self) -> PType {
        self.ptype
    }

    fn nullability(&self) -> Nullability {
        self.nullability
    }

    fn chunk_count(&self) -> usize {
        1
    }

    fn statistics(&self, _k: usize) -> ChunkStatistics {
        self.statistics
    }

    fn array(&mut self, alloc: Global, _k: usize) -> Result<ArrayRef, ColumnFileError> {
        let dtype = DType::Primitive(self.ptype, self.nullability);
        fitting(self.array.try_clone(alloc)?, dtype, self.statistics.len)
    }
}
