//! Whether items are one of a list.

ghost use Rattle.std.specs.Prelude.{◌≡◌, ◌||◌, ◌+◌, ◌<◌, ℕ, IsSortedByKey, IsTrue, length, map, pos, slice_index_or};
ghost use Rattle.std.specs.Ordering.{int_cmp};
ghost use Rattle.fastlanes.specs.Compared.{has_bit, is_bit_set};
ghost use Rattle.fl_types.specs.Types.{has_ptype};
ghost use Rattle.fl_column.specs.Chunks.{chunk_count};
ghost use Rattle.fl_array.specs.BlockAnswers.{AreBlockAnswers};
ghost use Rattle.fl_scan.specs.Membership.{is_one_of};

use crate::block_tests::BlockTest;
use fastlanes::FL_CHUNK_SIZE;
use fl_array::Reader;
use fl_bitpacking::RangeTest;
use fl_bitpacking::compute::compare::fill;
use fl_bitpacking::unpack_iter::BitPacked;
use fl_column::{CompareOperator, NativePType, PhysicalPType, is_equal, is_less};
use fl_types::bits::word_of;
use num_traits::WrappingAdd;

/// The most integers with which each block is compared one after another. In a longer list each item is searched.
const MOST_COMPARED: usize = 8;

/// A sorted list of integers.
#[derive(Clone, Copy)]
pub(crate) struct OneOf<'a, T> {
    /// What an item is compared with.
    pub(crate) list: &'a [T],
}

/// The word whose bits are set in one of two words.
#[tactic(auto, using(crate::proofs::ListLaws::of_or))]
fn either(word: u64, other: u64) -> u64
    ensures { (j : ℕ) → j < 64 → is_bit_set result j ≡ (is_bit_set word j || is_bit_set other j) }
{
    word | other
}

/// Sets each bit that is set in another block of answers.
fn join(bits: &mut [u64; 16], other: &[u64; 16])
    ensures bits { (i : ℕ) → i < 1024 → has_bit bits.new i ≡ (has_bit bits.old i || has_bit other.now i) }
    ensures whole { length bits.new ≡ 16 }
{
    for k in 0..16usize {
        bits[k] = either(bits[k], other[k]);
    }
}

/// The answers for the items of block `j`, which is compared with each integer of the list.
fn compare_each<T: BitPacked + PhysicalPType + WrappingAdd>(
    reader: &Reader,
    j: usize,
    list: &[T],
    scratch: &mut [T; FL_CHUNK_SIZE],
    bits: &mut [u64; 16],
)
    requires typed { IsTrue (has_ptype T.PTYPE reader.now.column.dtype) }
    requires block { j < chunk_count (reader.now.offset + length reader.now.column.items) }
    ensures answers { AreBlockAnswers (is_one_of (map T.value list.now)) bits.new j reader.now.offset reader.now.column }
    ensures whole { length bits.new ≡ 16 }
{
    fill(bits, false);
    let mut answers = [0u64; 16];
    for constant in list {
        let test = RangeTest::comparing(CompareOperator::Eq, constant.into_pvalue());
        reader.test_block(j, test, scratch, &mut answers);
        join(bits, &answers);
    }
}

/// Whether an integer is one of a sorted list.
#[tactic(auto, using(crate::proofs::ListLaws::searched_none, crate::proofs::ListLaws::searched_above, crate::proofs::ListLaws::searched_below, crate::proofs::ListLaws::found_none, crate::proofs::ListLaws::found_here))]
fn is_found<T: NativePType>(list: &[T], item: T) -> bool
    requires { IsSortedByKey T.value int_cmp list.now }
    ensures { result ≡ is_one_of (map T.value list.now) (T.value item) }
{
    let (mut low, mut high) = (0, list.len());
    while low < high {
        let middle = low + (high - low) / 2;
        if is_less(list[middle], item) {
            low = middle + 1;
        } else {
            high = middle;
        }
    }
    low < list.len() && is_equal(item, list[low])
}

/// Whether the item at an index is one of a sorted list.
fn is_found_at<T: NativePType>(list: &[T], items: &[T], i: usize) -> bool
    requires sorted { IsSortedByKey T.value int_cmp list.now }
    requires within { i < length items.now }
    ensures { result ≡ is_one_of (map T.value list.now) (slice_index_or (map T.value items.now) i (pos 0)) }
{
    is_found(list, items[i])
}

/// Sets bit `i` where item `i` of a block is one of a sorted list, and no other bit.
fn find_each<T: NativePType>(list: &[T], items: &[T; FL_CHUNK_SIZE], bits: &mut [u64; 16])
    requires { IsSortedByKey T.value int_cmp list.now }
    ensures bits { (i : ℕ) → i < 1024 → has_bit bits.new i ≡ is_one_of (map T.value list.now) (slice_index_or (map T.value items.now) i (pos 0)) }
    ensures whole { length bits.new ≡ 16 }
{
    let bit = |i: usize|
        requires sorted { IsSortedByKey T.value int_cmp list.now }
        requires within { i < length items.now }
        ensures { result ≡ is_one_of (map T.value list.entry.now) (slice_index_or (map T.value items.entry.now) i (pos 0)) }
    { is_found_at(list, items, i) };
    for k in 0..16usize {
        bits[k] = word_of(64 * k, 64, &bit);
    }
}

impl<T: BitPacked + PhysicalPType + WrappingAdd> BlockTest<T> for OneOf<'_, T> {
    ghost passing = { λ s z. is_one_of (map T.value s.list.now) z };

    ghost IsSound = { λ s. IsSortedByKey T.value int_cmp s.list.now };

    fn test_block(
        &self,
        reader: &Reader,
        j: usize,
        scratch: &mut [T; FL_CHUNK_SIZE],
        bits: &mut [u64; 16],
    ) {
        if self.list.len() <= MOST_COMPARED {
            compare_each(reader, j, self.list, scratch, bits);
        } else {
            reader.read_block(j, scratch);
            find_each(self.list, scratch, bits);
        }
    }
}
