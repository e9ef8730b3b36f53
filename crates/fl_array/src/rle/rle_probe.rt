//! Reads of single items of a run-length encoded array, one after another.

ghost use Rattle.std.specs.Prelude.{◌≡◌, ◌<◌, ◌/◌, IfErr, IsTrue, Ok, length};
ghost use Rattle.fl_types.specs.Refusals.{Answers};
ghost use Rattle.fl_types.specs.Values.{scalar_parts};
ghost use Rattle.fl_column.specs.Columns.{numbers_of};
ghost use Rattle.fl_column.specs.Queries.{scalar_in};
ghost use Rattle.fl_codec.specs.RunColumns.{chunk_start};
ghost use Rattle.fl_array.specs.Kinds.{has_delta, kind};
ghost use Rattle.fl_array.specs.RLEArrays.{tree_of_rle};
ghost use Rattle.fl_array.specs.Trees.{column};

use crate::rle::RLEArray;
use fastlanes::FL_CHUNK_SIZE;
use fl_column::{FastLanesError, Scalar};
use std::alloc::Global;
use std::marker::Model;

/// Reads single items of a run-length encoded array, one after another. It keeps the bounds of the last chunk,
/// so that further reads in that chunk read no run offset.
#[derive(Drop)]
pub struct RleProbeState<'a> {
    array: &'a RLEArray,
    last: Option<LastChunk>,
}

/// A chunk that was read: its positions, from `start` to below `end`, and where its run values start.
#[derive(Clone, Copy)]
struct LastChunk {
    start: usize,
    end: usize,
    values_start: usize,
}

impl<'a> Model for RleProbeState<'a> {
    ghost use Rattle.std.specs.Prelude.{IfSome};
    ghost use Rattle.fl_array.specs.RLEArrays.{RLEArrayParts};
    ghost use Rattle.fl_array.specs.ArrayCodes.{coded_rle};
    ghost use Rattle.fl_array.specs.ProbeStates.{IsChunkOf};

    ghost Value = { RLEArrayParts };

    ghost coded = { coded_rle };

    ghost view = { λ s. s.array.now };

    ghost invariant = { λ s. IfSome s.last (λ c. IsChunkOf s.array.now c.start c.end c.values_start) };
}

impl<'a> RleProbeState<'a> {
    /// A state without a chunk.
    pub fn new(array: &'a RLEArray) -> RleProbeState<'a>
        ensures { result ≡ array.now }
    {
        RleProbeState { array, last: None }
    }

    /// The item at an index, with the column's type, as by the array's own `scalar_at`.
    ///
    /// # Errors
    /// Only `OutOfMemory`, and only if the array holds a delta array.
    pub fn scalar_at(&mut self, alloc: Global, i: usize) -> Result<Scalar, FastLanesError>
        requires { i < length (column (tree_of_rle self.old)).items }
        ensures item { Answers scalar_parts result (Ok (scalar_in (column (tree_of_rle self.old)) i)) }
        ensures memory { IfErr result (λ e. IsTrue (has_delta (kind (tree_of_rle self.old)))) }
        ensures array { self.new ≡ self.old }
    {
        let array = self.array;
        let (position, _) = array.position(i);
        let index = array.indices().scalar_at(alloc, position)?;
        let start = self.values_start(alloc, position)?;
        let place = array.value_place(index, start, i);
        let value = array.values().scalar_at(alloc, place)?;
        Ok(array.item_from(index, value, i))
    }

    /// Where the run values of the chunk of a position start.
    fn values_start(&mut self, alloc: Global, position: usize) -> Result<usize, FastLanesError>
        requires { position / 1024 < length (column self.old.offsets).items }
        ensures start { Answers (λ n. n) result (Ok (chunk_start (numbers_of (column self.old.offsets)) (position / 1024))) }
        ensures memory { IfErr result (λ e. IsTrue (has_delta (kind (tree_of_rle self.old)))) }
        ensures array { self.new ≡ self.old }
    {
        if let Some(last) = self.last {
            if last.start <= position && position < last.end {
                return Ok(last.values_start);
            }
        }
        let values_start = self.array.start_of_chunk(alloc, position / FL_CHUNK_SIZE)?;
        let (start, end) = self.array.chunk_positions(position);
        self.last = Some(LastChunk {
            start,
            end,
            values_start,
        });
        Ok(values_start)
    }
}
