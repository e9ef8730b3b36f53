//! One way in which items leave an array: a reader that is prepared once, and then writes any items into a slice of
//! the caller, without an allocation and without an error.

mod block_tests;
mod deltas;
pub(crate) mod direct;
mod leaves;
mod packed;
mod preparing;
mod references;
mod run_tests;
mod runs;
mod to_primitive;

ghost use Rattle.std.specs.Prelude.{◌≡◌, ◌+◌, ◌-◌, ◌*◌, ◌^◌, ◌≤◌, ◌<◌, IsTrue, length, map, min};
ghost use Rattle.fl_types.specs.Types.{has_ptype};
ghost use Rattle.fl_column.specs.Chunks.{chunk_count};
ghost use Rattle.fl_bitpacking.specs.Blocks.{value_at};
ghost use Rattle.fl_array.specs.Readers.{AreItemsFrom, Prepared};
ghost use Rattle.fl_array.specs.Reads.{AreItemsOf};

use crate::reader::direct::DirectReader;
use crate::reader::runs::RunReader;
use fastlanes::{FL_CHUNK_SIZE, Work};
use fl_bitpacking::unpack_iter::BitPacked;
use fl_column::{PhysicalPType, chunk_count};
use num_traits::WrappingAdd;
use std::marker::Model;

/// A reader of an array: what its encodings need beside the stored items is decoded, once. Contracts see the
/// column, the position of its first item in its block, and how deep the reader is.
#[derive(Drop)]
pub struct Reader<'a> {
    source: Source<'a>,
}

#[derive(Drop)]
enum Source<'a> {
    /// An array of any kind but run-length encoding.
    Direct(DirectReader<'a>),
    /// A run-length encoded array.
    RLE(RunReader<'a>),
}

impl<'a> Model for Reader<'a> {
    ghost use Rattle.fl_array.specs.Readers.{Prepared};

    ghost Value = { Prepared };

    ghost use Rattle.fl_array.specs.ReaderSources.{IsSource, prepared_source};

    ghost view = { λ r. prepared_source r.source };

    ghost invariant = { λ r. IsSource r.source };
}

impl Reader<'_> {
    /// The number of items.
    pub fn len(&self) -> usize
        ensures { result ≡ length self.now.column.items }
    {
        match &self.source {
            Source::Direct(reader) => reader.len(),
            Source::RLE(runs) => runs.len(),
        }
    }

    /// The position of the first item in its block of 1024.
    pub fn offset(&self) -> usize
        ensures offset { result ≡ self.now.offset }
        ensures low { result < 1024 }
        ensures few { result + length self.now.column.items < 2 ^ 64 }
    {
        match &self.source {
            Source::Direct(reader) => reader.offset(),
            Source::RLE(runs) => runs.offset(),
        }
    }

    /// The number of blocks that the items lie in. The first one may begin before the first item, and the last one end
    /// behind the last item.
    pub fn blocks(&self) -> usize
        ensures { result ≡ chunk_count (self.now.offset + length self.now.column.items) }
    {
        chunk_count(self.offset() + self.len())
    }

    /// Where the items of block `j` begin and where they end.
    pub fn places(&self, j: usize) -> (usize, usize)
        requires { j < chunk_count (self.now.offset + length self.now.column.items) }
        ensures start { result.0 ≡ 1024 * j - self.now.offset }
        ensures end { result.1 ≡ min (1024 * (j + 1) - self.now.offset) (length self.now.column.items) }
        ensures order { result.0 ≤ result.1 }
        ensures few { result.1 ≤ result.0 + 1024 }
    {
        let (offset, len) = (self.offset(), self.len());
        let start = FL_CHUNK_SIZE * j;
        let low = offset.saturating_sub(start);
        let from = start.saturating_sub(offset);
        (from, from + (len - from).min(FL_CHUNK_SIZE - low))
    }

    /// Writes the items from an index on, as many as the slice has.
    fn read_items<T: BitPacked + PhysicalPType + WrappingAdd>(
        &self,
        start: usize,
        items: &mut [T],
        work: &mut Work,
    )
        requires typed { IsTrue (has_ptype T.PTYPE self.now.column.dtype) }
        requires range { start + length items.old ≤ length self.now.column.items }
        ensures { AreItemsFrom start (length items.old) (value_at T.value items.new) self.now.column }
    {
        match &self.source {
            Source::Direct(reader) => reader.read_items(start, items, work),
            Source::RLE(runs) => runs.read_items(start, items, work),
        }
    }

    /// Writes the items from an index on, as many as the slice has: at each index where the column has a null any
    /// integer. Nothing is allocated. Items of one block are read in one step, and no block is read twice.
    pub fn read<T: BitPacked + PhysicalPType + WrappingAdd>(&self, start: usize, items: &mut [T])
        requires typed { IsTrue (has_ptype T.PTYPE self.now.column.dtype) }
        requires range { start + length items.old ≤ length self.now.column.items }
        ensures { AreItemsFrom start (length items.old) (value_at T.value items.new) self.now.column }
    {
        self.read_items(start, items, &mut Work::new());
    }

    /// Writes all items, each block once: at each index where the column has a null any integer. Nothing is allocated.
    #[tactic(auto, using(crate::proofs::ReadLaws::all_shown))]
    pub(crate) fn decode_into<T: BitPacked + PhysicalPType + WrappingAdd>(&self, values: &mut [T])
        requires typed { IsTrue (has_ptype T.PTYPE self.now.column.dtype) }
        requires long { length values.old ≡ length self.now.column.items }
        ensures { AreItemsOf (map T.value values.new) self.now.column }
    {
        self.read(0, values);
    }
}
