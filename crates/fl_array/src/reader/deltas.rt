//! Items of delta arrays, block by block.

ghost use Rattle.std.specs.Prelude.{◌≡◌, ◌+◌, ◌≤◌, ◌<◌, ◌^◌, IsTrue, length};
ghost use Rattle.fl_types.specs.Types.{has_ptype};
ghost use Rattle.fl_bitpacking.specs.Blocks.{value_at};
ghost use Rattle.fl_array.specs.DeltaArrays.{tree_of_delta};
ghost use Rattle.fl_array.specs.ReaderParts.{AreDeltaParts};
ghost use Rattle.fl_array.specs.Readers.{AreItemsFrom};
ghost use Rattle.fl_array.specs.Trees.{column};

use crate::delta::DeltaArray;
use crate::reader::direct::DirectReader;
use fastlanes::{FL_CHUNK_SIZE, FastLanes, Work};
use fl_bitpacking::places::places_from;
use fl_bitpacking::unpack_iter::BitPacked;
use fl_codec::delta::block_sums::sum_block;
use fl_column::{PhysicalPType, PrimitiveArray, chunk_count};
use num_traits::WrappingAdd;

/// The position of the first item in its block.
pub(crate) fn offset_of_deltas(array: &DeltaArray) -> usize
    ensures offset { result ≡ array.now.parts.offset }
    ensures low { result < 1024 }
    ensures few { result + length (column (tree_of_delta array.now)).items < 2 ^ 64 }
{
    array.prove_well_formed();
    // For the proof: the items end below 2 ^ 64.
    let (_total, _len) = (array.deltas().len(), array.len());
    array.offset()
}

/// Writes the items of a delta array from an index on: the deltas of each block are read into a scratch block, and
/// summed from its bases.
#[cycle(reads)]
pub(crate) fn read_deltas<T: BitPacked + PhysicalPType + WrappingAdd>(
    array: &DeltaArray,
    bases: &PrimitiveArray,
    deltas: &DirectReader,
    start: usize,
    items: &mut [T],
    work: &mut Work,
)
    requires parts { AreDeltaParts array.now bases.now deltas.now.column }
    requires typed { IsTrue (has_ptype T.PTYPE (column (tree_of_delta array.now)).dtype) }
    requires range { start + length items.old ≤ length (column (tree_of_delta array.now)).items }
    ensures { AreItemsFrom start (length items.old) (value_at T.value items.new) (column (tree_of_delta array.now)) }
{
    array.prove_well_formed();
    // For the proof: there are enough bases and deltas.
    let (_count, _total, _len) = (bases.len(), deltas.len(), array.len());
    let bases = bases.as_slice::<T>();
    let lanes = T::Physical::LANES;
    let (first, len) = (offset_of_deltas(array) + start, items.len());
    let mut differences = [T::zero(); FL_CHUNK_SIZE];
    let mut row = [T::Physical::zero(); FL_CHUNK_SIZE];
    let mut words = [T::Physical::zero(); FL_CHUNK_SIZE];
    let mut block = [T::Physical::zero(); FL_CHUNK_SIZE];
    for j in first / FL_CHUNK_SIZE..chunk_count(first + len) {
        let (from, to) = places_from(first, len, j);
        let low = first.saturating_sub(FL_CHUNK_SIZE * j);
        deltas.read_items(FL_CHUNK_SIZE * j, &mut differences, work);
        let own = &bases[lanes * j..lanes * j + lanes];
        let part = &mut items[from..to];
        sum_block(
            own,
            &differences,
            &mut row,
            &mut words,
            &mut block,
            low,
            part,
        );
    }
}
