//! Tests of a range on the items of one block. Packed items and the sums of deltas are tested in their lanes, and not put in
//! the order of the items; of run-length encoded arrays the run values are tested, and the run indices say which items have
//! them.

ghost use Rattle.std.specs.Prelude.{◌≡◌, ◌+◌, ◌/◌, ◌%◌, ◌<◌, ℕ, ℤ, IsTrue, None, Some, length, slice_index_or, true};
ghost use Rattle.fl_types.specs.Types.{has_ptype};
ghost use Rattle.fl_column.specs.Chunks.{chunk_count};
ghost use Rattle.fl_bitpacking.specs.Blocks.{value_at};
ghost use Rattle.fl_bitpacking.specs.RangeTests.{IsTestOf, passes};
ghost use Rattle.fl_array.specs.BlockAnswers.{AreBlockAnswers};
ghost use Rattle.fl_array.specs.DeltaArrays.{tree_of_delta};
ghost use Rattle.fl_array.specs.ReaderParts.{AreDeltaParts};
ghost use Rattle.fl_array.specs.Trees.{column};

use crate::delta::DeltaArray;
use crate::reader::direct::{DirectReader, Part};
use crate::reader::packed::test_packed;
use crate::reader::{Reader, Source};
use fastlanes::{FL_CHUNK_SIZE, FastLanes, Work};
use fl_bitpacking::RangeTest;
use fl_bitpacking::compute::compare::blocks::{test_deltas, test_items};
use fl_bitpacking::unpack_iter::BitPacked;
use fl_column::{PhysicalPType, PrimitiveArray};
use num_traits::WrappingAdd;

/// The answers of a test for the items of block `j` of a delta array, whose deltas are read into a scratch block.
#[tactic(auto, using(crate::proofs::ItemTypes::delta_typed))]
fn test_delta_block<T: BitPacked + PhysicalPType + WrappingAdd>(
    array: &DeltaArray,
    bases: &PrimitiveArray,
    deltas: &DirectReader,
    j: usize,
    range: RangeTest,
    scratch: &mut [T; FL_CHUNK_SIZE],
    bits: &mut [u64; 16],
    work: &mut Work,
)
    requires parts { AreDeltaParts array.now bases.now deltas.now.column }
    requires typed { IsTrue (has_ptype T.PTYPE (column (tree_of_delta array.now)).dtype) }
    requires test { IsTestOf T.PTYPE range }
    requires block { j < chunk_count (array.now.parts.offset + length (column (tree_of_delta array.now)).items) }
    ensures answers { AreBlockAnswers (passes range) bits.new j array.now.parts.offset (column (tree_of_delta array.now)) }
    ensures whole { length bits.new ≡ 16 }
{
    array.prove_well_formed();
    // For the proof: there are enough bases and deltas.
    let (_count, _total, _len) = (bases.len(), deltas.len(), array.len());
    let bases = bases.as_slice::<T>();
    let lanes = T::Physical::LANES;
    let mut row = [T::Physical::zero(); FL_CHUNK_SIZE];
    let mut words = [T::Physical::zero(); FL_CHUNK_SIZE];
    deltas.read_items(FL_CHUNK_SIZE * j, scratch, work);
    let own = &bases[lanes * j..lanes * j + lanes];
    test_deltas(range, own, scratch, &mut row, &mut words, bits);
}

impl DirectReader<'_> {
    /// The answers of a test for the items of block `j` of a bit-packed array, with or without references; `false`, and no
    /// answers, if the array is of another kind.
    pub(crate) fn test_packed<T: PhysicalPType>(
        &self,
        j: usize,
        range: RangeTest,
        bits: &mut [u64; 16],
        work: &mut Work,
    ) -> bool
        requires typed { IsTrue (has_ptype T.PTYPE self.now.column.dtype) }
        requires test { IsTestOf T.PTYPE range }
        requires block { j < chunk_count (self.now.offset + length self.now.column.items) }
        ensures answers { result ≡ true → AreBlockAnswers (passes range) bits.new j self.now.offset self.now.column }
        ensures whole { length bits.new ≡ 16 }
    {
        match &self.part {
            Part::Packed(packed) => {
                test_packed::<T>(packed, j, range, bits, work);
                true
            }
            _ => false,
        }
    }

    /// The answers of a test for the items of block `j` of a delta array; `false`, and no answers, if the array is of another
    /// kind.
    fn test_deltas<T: BitPacked + PhysicalPType + WrappingAdd>(
        &self,
        j: usize,
        range: RangeTest,
        scratch: &mut [T; FL_CHUNK_SIZE],
        bits: &mut [u64; 16],
        work: &mut Work,
    ) -> bool
        requires typed { IsTrue (has_ptype T.PTYPE self.now.column.dtype) }
        requires test { IsTestOf T.PTYPE range }
        requires block { j < chunk_count (self.now.offset + length self.now.column.items) }
        ensures answers { result ≡ true → AreBlockAnswers (passes range) bits.new j self.now.offset self.now.column }
        ensures whole { length bits.new ≡ 16 }
    {
        match &self.part {
            Part::Delta(array, bases, deltas) => {
                test_delta_block(array, bases.array(), deltas, j, range, scratch, bits, work);
                true
            }
            _ => false,
        }
    }
}

impl Reader<'_> {
    /// Writes the items of block `j` at their positions in it.
    fn read_positions<T: BitPacked + PhysicalPType + WrappingAdd>(
        &self,
        j: usize,
        block: &mut [T],
        work: &mut Work,
    )
        requires typed { IsTrue (has_ptype T.PTYPE self.now.column.dtype) }
        requires block { j < chunk_count (self.now.offset + length self.now.column.items) }
        requires long { length block.old ≡ 1024 }
        ensures { (i : ℕ) → (z : ℤ) → i < length self.now.column.items → (self.now.offset + i) / 1024 ≡ j → slice_index_or self.now.column.items i None ≡ Some z → value_at T.value block.new ((self.now.offset + i) % 1024) ≡ z }
    {
        let (from, to) = self.places(j);
        let low = self.offset().saturating_sub(FL_CHUNK_SIZE * j);
        let items = &mut block[low..low + (to - from)];
        self.read_items(from, items, work);
    }

    /// Writes the items of block `j` at their positions in it: at the position of a null, and where the block has no item of the
    /// array, any integer. Nothing is allocated.
    pub fn read_block<T: BitPacked + PhysicalPType + WrappingAdd>(
        &self,
        j: usize,
        block: &mut [T; FL_CHUNK_SIZE],
    )
        requires typed { IsTrue (has_ptype T.PTYPE self.now.column.dtype) }
        requires block { j < chunk_count (self.now.offset + length self.now.column.items) }
        ensures { (i : ℕ) → (z : ℤ) → i < length self.now.column.items → (self.now.offset + i) / 1024 ≡ j → slice_index_or self.now.column.items i None ≡ Some z → value_at T.value block.new ((self.now.offset + i) % 1024) ≡ z }
    {
        self.read_positions(j, block, &mut Work::new());
    }

    /// The answers of a test for the items of block `j`, each item read into a scratch block.
    fn test_read<T: BitPacked + PhysicalPType + WrappingAdd>(
        &self,
        j: usize,
        range: RangeTest,
        scratch: &mut [T; FL_CHUNK_SIZE],
        bits: &mut [u64; 16],
        work: &mut Work,
    )
        requires typed { IsTrue (has_ptype T.PTYPE self.now.column.dtype) }
        requires test { IsTestOf T.PTYPE range }
        requires block { j < chunk_count (self.now.offset + length self.now.column.items) }
        ensures answers { AreBlockAnswers (passes range) bits.new j self.now.offset self.now.column }
        ensures whole { length bits.new ≡ 16 }
    {
        self.read_positions(j, scratch, work);
        test_items(range, scratch, bits);
    }

    /// The answers of a test for the items of block `j`, where they need not be read for them; `false`, and no answers, elsewhere.
    fn test_unread<T: BitPacked + PhysicalPType + WrappingAdd>(
        &self,
        j: usize,
        range: RangeTest,
        scratch: &mut [T; FL_CHUNK_SIZE],
        bits: &mut [u64; 16],
        work: &mut Work,
    ) -> bool
        requires typed { IsTrue (has_ptype T.PTYPE self.now.column.dtype) }
        requires test { IsTestOf T.PTYPE range }
        requires block { j < chunk_count (self.now.offset + length self.now.column.items) }
        ensures answers { result ≡ true → AreBlockAnswers (passes range) bits.new j self.now.offset self.now.column }
        ensures whole { length bits.new ≡ 16 }
    {
        match &self.source {
            Source::Direct(reader) => {
                reader.test_packed::<T>(j, range, bits, work)
                    || reader.test_deltas(j, range, scratch, bits, work)
            }
            Source::RLE(runs) => {
                runs.test_block(j, range, scratch, bits, work);
                true
            }
        }
    }

    /// Sets bit `q` where the item at position `q` of block `j` passes a test, and no bit of another item: at the position of a
    /// null, and where the block has no item of the array, any bit may be set. What is in `scratch` does not count, before or
    /// after. Nothing is allocated. A reference of the test is an integer of the items' type.
    pub fn test_block<T: BitPacked + PhysicalPType + WrappingAdd>(
        &self,
        j: usize,
        range: RangeTest,
        scratch: &mut [T; FL_CHUNK_SIZE],
        bits: &mut [u64; 16],
    )
        requires typed { IsTrue (has_ptype T.PTYPE self.now.column.dtype) }
        requires test { IsTestOf T.PTYPE range }
        requires block { j < chunk_count (self.now.offset + length self.now.column.items) }
        ensures answers { AreBlockAnswers (passes range) bits.new j self.now.offset self.now.column }
        ensures whole { length bits.new ≡ 16 }
    {
        let mut work = Work::new();
        if !self.test_unread(j, range, scratch, bits, &mut work) {
            self.test_read(j, range, scratch, bits, &mut work);
        }
    }
}
