//! Tests of a range on the items of a chunk of a run-length encoded array: each of its run values is tested once, and the run
//! indices say which items have it.

ghost use Rattle.std.specs.Prelude.{◌≡◌, ◌+◌, ◌*◌, ◌≤◌, ◌<◌, ℕ, IsTrue, length, map, pos, slice_index_or};
ghost use Rattle.fastlanes.specs.Compared.{has_bit};
ghost use Rattle.fl_types.specs.Types.{has_ptype};
ghost use Rattle.fl_column.specs.Chunks.{chunk_count};
ghost use Rattle.fl_bitpacking.specs.RangeTests.{IsTestOf, passes};
ghost use Rattle.fl_bitpacking.specs.ValueAnswers.{named_answer};
ghost use Rattle.fl_array.specs.BlockAnswers.{AreBlockAnswers};
ghost use Rattle.fl_array.specs.ReaderSources.{AreRunParts};
ghost use Rattle.fl_array.specs.RLEArrays.{tree_of_rle};
ghost use Rattle.fl_array.specs.Trees.{column};

use crate::reader::direct::DirectReader;
use crate::reader::runs::RunReader;
use fastlanes::{FL_CHUNK_SIZE, Work};
use fl_bitpacking::RangeTest;
use fl_bitpacking::compute::compare::blocks::test_items;
use fl_bitpacking::compute::compare::fill;
use fl_bitpacking::compute::compare::values::{ValueAnswers, look_up, test_values};
use fl_bitpacking::unpack_iter::BitPacked;
use fl_column::{DType, PType, PhysicalPType};
use num_traits::WrappingAdd;

impl DirectReader<'_> {
    /// The answers of a test for the items of block `j`, counted from the first item.
    fn test_names<I: BitPacked + PhysicalPType + WrappingAdd>(
        &self,
        j: usize,
        range: RangeTest,
        bits: &mut [u64; 16],
        work: &mut Work,
    )
        requires typed { IsTrue (has_ptype I.PTYPE self.now.column.dtype) }
        requires test { IsTestOf I.PTYPE range }
        requires block { 1024 * j + 1024 ≤ length self.now.column.items }
        ensures answers { AreBlockAnswers (passes range) bits.new j 0 self.now.column }
        ensures whole { length bits.new ≡ 16 }
    {
        if self.offset() == 0 {
            if self.test_packed::<I>(j, range, bits, work) {
                return;
            }
        }
        let mut names = [I::zero(); FL_CHUNK_SIZE];
        self.read_items(FL_CHUNK_SIZE * j, &mut names, work);
        test_items(range, &names, bits);
    }

    /// For the items of block `j`, counted from the first item, the bits that they name.
    fn look_up_names<I: BitPacked + PhysicalPType + WrappingAdd>(
        &self,
        j: usize,
        answers: &[u64; 16],
        bits: &mut [u64; 16],
        work: &mut Work,
    )
        requires typed { IsTrue (has_ptype I.PTYPE self.now.column.dtype) }
        requires block { 1024 * j + 1024 ≤ length self.now.column.items }
        ensures answers { AreBlockAnswers (named_answer answers.now) bits.new j 0 self.now.column }
        ensures whole { length bits.new ≡ 16 }
    {
        // For the proof: the items end below 2 ^ 64.
        let _len = self.len();
        let mut names = [I::zero(); FL_CHUNK_SIZE];
        self.read_items(FL_CHUNK_SIZE * j, &mut names, work);
        look_up(answers, &names, bits);
    }
}

/// The answers of a test for values, of which there are at most 1024: bit `i` for value `i`.
fn test_each<T: PhysicalPType>(
    range: RangeTest,
    values: &[T],
    scratch: &mut [T; FL_CHUNK_SIZE],
    answers: &mut [u64; 16],
)
    requires test { IsTestOf T.PTYPE range }
    requires few { length values.now ≤ 1024 }
    ensures answers { (i : ℕ) → i < length values.now → has_bit answers.new i ≡ passes range (slice_index_or (map T.value values.now) i (pos 0)) }
    ensures whole { length answers.new ≡ 16 }
{
    let own = &mut scratch[..values.len()];
    own.copy_from_slice(values);
    test_items(range, scratch, answers);
}

/// The answers of a test for the items of chunk `j`.
fn test_chunk<
    T: BitPacked + PhysicalPType + WrappingAdd,
    I: BitPacked + PhysicalPType + WrappingAdd,
>(
    runs: &RunReader,
    j: usize,
    range: RangeTest,
    scratch: &mut [T; FL_CHUNK_SIZE],
    bits: &mut [u64; 16],
    work: &mut Work,
)
    requires parts { AreRunParts runs.now }
    requires typed { IsTrue (has_ptype T.PTYPE (column (tree_of_rle runs.now.array.now)).dtype) }
    requires index_type { IsTrue (has_ptype I.PTYPE runs.now.indices.column.dtype) }
    requires test { IsTestOf T.PTYPE range }
    requires block { j < chunk_count (runs.now.array.now.window.offset + length (column (tree_of_rle runs.now.array.now)).items) }
    ensures answers { AreBlockAnswers (passes range) bits.new j runs.now.array.now.window.offset (column (tree_of_rle runs.now.array.now)) }
    ensures whole { length bits.new ≡ 16 }
{
    runs.array.prove_well_formed();
    runs.array.indices().prove_in_range();
    let own = runs.values_of_chunk::<T>(j);
    match test_values(range, own) {
        ValueAnswers::Same(passing) => fill(bits, passing),
        ValueAnswers::Places(places) => runs.indices.test_names::<I>(j, places, bits, work),
        ValueAnswers::Mixed => {
            let mut answers = [0u64; 16];
            test_each(range, own, scratch, &mut answers);
            runs.indices.look_up_names::<I>(j, &answers, bits, work);
        }
    }
}

impl RunReader<'_> {
    /// The answers of a test for the items of chunk `j`. What is in `scratch` does not count, before or after.
    pub(crate) fn test_block<T: BitPacked + PhysicalPType + WrappingAdd>(
        &self,
        j: usize,
        range: RangeTest,
        scratch: &mut [T; FL_CHUNK_SIZE],
        bits: &mut [u64; 16],
        work: &mut Work,
    )
        requires parts { AreRunParts self.now }
        requires typed { IsTrue (has_ptype T.PTYPE (column (tree_of_rle self.now.array.now)).dtype) }
        requires test { IsTestOf T.PTYPE range }
        requires block { j < chunk_count (self.now.array.now.window.offset + length (column (tree_of_rle self.now.array.now)).items) }
        ensures answers { AreBlockAnswers (passes range) bits.new j self.now.array.now.window.offset (column (tree_of_rle self.now.array.now)) }
        ensures whole { length bits.new ≡ 16 }
    {
        self.array.prove_well_formed();
        match self.index_type {
            DType::Primitive(PType::U8, _) => {
                test_chunk::<T, u8>(self, j, range, scratch, bits, work)
            }
            DType::Primitive(PType::U16, _) => {
                test_chunk::<T, u16>(self, j, range, scratch, bits, work)
            }
            _ => unreachable!(),
        }
    }
}
