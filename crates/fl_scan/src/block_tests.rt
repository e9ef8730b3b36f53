//! Tests of the items of blocks, whose answers are bits of words.

ghost use Rattle.std.specs.Prelude.{◌≡◌, ◌+◌, ◌<◌, ℤ, Bool, IsTrue, length};
ghost use Rattle.fl_types.specs.Types.{has_ptype};
ghost use Rattle.fl_column.specs.Chunks.{chunk_count};
ghost use Rattle.fl_bitpacking.specs.RangeTests.{IsTestOf, passes};
ghost use Rattle.fl_array.specs.BlockAnswers.{AreBlockAnswers};

use fastlanes::FL_CHUNK_SIZE;
use fl_array::Reader;
use fl_bitpacking::RangeTest;
use fl_bitpacking::unpack_iter::BitPacked;
use fl_column::PhysicalPType;
use num_traits::WrappingAdd;

/// A test of the items of blocks.
pub(crate) trait BlockTest<T: BitPacked + PhysicalPType + WrappingAdd>: Copy {
    /// Whether an integer passes.
    ghost passing: { Self → ℤ → Bool };

    /// What holds of the test itself.
    ghost IsSound: { Self → Type 0 };

    /// Sets bit `q` where the item at position `q` of block `j` passes, and no bit of another item: at the position of a null, and
    /// where the block has no item of the array, any bit may be set. What is in `scratch` does not count, before or after.
    fn test_block(
        &self,
        reader: &Reader,
        j: usize,
        scratch: &mut [T; FL_CHUNK_SIZE],
        bits: &mut [u64; 16],
    )
        requires typed { IsTrue (has_ptype T.PTYPE reader.now.column.dtype) }
        requires sound { IsSound self.now }
        requires block { j < chunk_count (reader.now.offset + length reader.now.column.items) }
        ensures answers { AreBlockAnswers (passing self.now) bits.new j reader.now.offset reader.now.column }
        ensures whole { length bits.new ≡ 16 };
}

impl<T: BitPacked + PhysicalPType + WrappingAdd> BlockTest<T> for RangeTest {
    ghost passing = { λ s z. passes s z };

    ghost IsSound = { λ s. IsTestOf T.PTYPE s };

    fn test_block(
        &self,
        reader: &Reader,
        j: usize,
        scratch: &mut [T; FL_CHUNK_SIZE],
        bits: &mut [u64; 16],
    ) {
        reader.test_block(j, *self, scratch, bits);
    }
}
