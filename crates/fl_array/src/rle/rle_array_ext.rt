//! Accessors of run-length encoded arrays.

ghost use Rattle.std.specs.Prelude.{◌≡◌, ◌<◌, IfErr, IsTrue, Ok, length};
ghost use Rattle.fl_types.specs.Refusals.{Answers};
ghost use Rattle.fl_column.specs.Columns.{numbers_of};
ghost use Rattle.fl_codec.specs.RunColumns.{chunk_start};
ghost use Rattle.fl_array.specs.Kinds.{has_delta, kind};
ghost use Rattle.fl_array.specs.RLEArrays.{RLEArrayParts, tree_of_rle};
ghost use Rattle.fl_array.specs.Trees.{column};

use crate::array::ArrayRef;
use crate::rle::RLEArray;
use crate::rle::rle_data::RLEData;
use fl_column::{DType, FastLanesError};
use std::alloc::Global;

/// The children of a run-length encoded array.
#[derive(Clone, Copy)]
pub struct RLESlots<'a> {
    /// The run values.
    pub values: &'a ArrayRef,
    /// The run indices: for each position the index of its run value in its chunk.
    pub indices: &'a ArrayRef,
    /// The run offsets: where the run values of each chunk start.
    pub values_idx_offsets: &'a ArrayRef,
}

/// Accessors of run-length encoded arrays.
pub trait RLEArrayExt {
    /// The parts of the array.
    ghost parts: { Self → RLEArrayParts };

    /// Where the run values of a chunk start: its run offset, counted from the first one. It allocates nothing where
    /// the array holds no delta array.
    fn values_idx_offset(&self, alloc: Global, chunk: usize) -> Result<usize, FastLanesError>
        requires { chunk < length (column (parts self.now).offsets).items }
        ensures start { Answers (λ n. n) result (Ok (chunk_start (numbers_of (column (parts self.now).offsets)) chunk)) }
        ensures memory { IfErr result (λ e. IsTrue (has_delta (kind (tree_of_rle (parts self.now))))) };

    /// The position of the first item in the first chunk, below 1024.
    fn offset(&self) -> usize
        ensures { result ≡ (parts self.now).window.offset };

    /// The arrays inside.
    fn slots(&self) -> RLESlots<'_>
        ensures values { result.values.now ≡ (parts self.now).values }
        ensures indices { result.indices.now ≡ (parts self.now).indices }
        ensures values_idx_offsets { result.values_idx_offsets.now ≡ (parts self.now).offsets };

    /// What the array keeps beside the arrays inside.
    fn data(&self) -> RLEData
        ensures { result ≡ (parts self.now).window.offset };

    /// The number of items.
    fn len(&self) -> usize
        ensures { result ≡ length (column (tree_of_rle (parts self.now))).items };

    /// The type of the column.
    fn dtype(&self) -> DType
        ensures { result ≡ (column (tree_of_rle (parts self.now))).dtype };
}

impl RLEArrayExt for RLEArray {
    ghost parts = { λ a. a };

    fn values_idx_offset(&self, alloc: Global, chunk: usize) -> Result<usize, FastLanesError> {
        self.start_of_chunk(alloc, chunk)
    }

    fn offset(&self) -> usize {
        RLEArray::offset(self)
    }

    fn slots(&self) -> RLESlots<'_> {
        RLESlots {
            values: self.values(),
            indices: self.indices(),
            values_idx_offsets: self.offsets(),
        }
    }

    fn data(&self) -> RLEData {
        self.prove_low();
        RLEData::new_unchecked(RLEArray::offset(self))
    }

    fn len(&self) -> usize {
        RLEArray::len(self)
    }

    fn dtype(&self) -> DType {
        self.dtype_from(self.values().dtype(), self.indices().dtype())
    }
}
