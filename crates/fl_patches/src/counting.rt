//! Counting items by their bits.
//!
//! Items that stand near each other often have as many bits. Where one list of entries counts them all, each has to
//! wait until the one before is written, so four lists count a quarter of the items each.

ghost use Rattle.std.specs.Prelude.{◌≡◌, ◌+◌, ◌*◌, ◌<◌, ◌≤◌, ◌^◌, [], ℕ, ℤ, List, Option, None, Some, length, map, slice_index_or};
ghost use Rattle.fl_types.specs.declared.dtype.PType.{PType};
ghost use Rattle.fl_types.specs.Bits.{between};
ghost use Rattle.fl_types.specs.Integers.{read_as};
ghost use Rattle.fl_types.specs.Validities.{masked};
ghost use Rattle.fl_patches.specs.Exceptions.{bits_of_item, histogram_of};

use crate::patterns::{bit_count, bits_of};
use fastlanes::FastLanes;
use fl_column::PhysicalPType;
use fl_types::BitList;

/// Items whose bits are counted.
pub(crate) trait CountedItems {
    ghost PTYPE: { PType };

    ghost items: { Self → List (Option ℤ) };

    /// The bits of an item, 0 of a null.
    fn bits_at(&self, i: usize) -> usize
        requires { i < length (Self.items self.now) }
        ensures { result ≡ bits_of_item Self.PTYPE (slice_index_or (Self.items self.now) i None) };

    /// There are fewer items than 2 to the 64.
    fn prove_few(&self)
        ensures { length (Self.items self.now) < 2 ^ 64 };
}

/// Items none of which is null.
#[derive(Drop)]
pub(crate) struct PresentItems<'a, T> {
    pub(crate) items: &'a [T],
}

impl<T: PhysicalPType> CountedItems for PresentItems<'_, T> {
    ghost PTYPE = { T.PTYPE };

    ghost items = { λ p. map (λ z. Some z) (map T.value p.items.now) };

    fn bits_at(&self, i: usize) -> usize {
        bits_of(self.items[i])
    }

    fn prove_few(&self) {
        let _len = self.items.len();
    }
}

/// The words of items none of which is null.
#[derive(Drop)]
pub(crate) struct Words<'a, T: PhysicalPType> {
    pub(crate) words: &'a [T::Physical],
}

impl<T: PhysicalPType> CountedItems for Words<'_, T> {
    ghost PTYPE = { T.PTYPE };

    ghost items = { λ p. map (λ z. Some z) (map (λ w. read_as T.PTYPE (T.Physical.pattern w)) p.words.now) };

    fn bits_at(&self, i: usize) -> usize {
        bit_count(self.words[i].to_u64())
    }

    fn prove_few(&self) {
        let _len = self.words.len();
    }
}

/// Items of which those are null whose bit isn't set.
#[derive(Drop)]
pub(crate) struct MaskedItems<'a, T> {
    pub(crate) items: &'a [T],
    pub(crate) bits: &'a BitList,
    ghost even: { length bits.now ≡ length items.now },
}

impl<T: PhysicalPType> CountedItems for MaskedItems<'_, T> {
    ghost PTYPE = { T.PTYPE };

    ghost items = { λ p. masked p.bits.now (map T.value p.items.now) };

    fn bits_at(&self, i: usize) -> usize {
        let item = self.items[i];
        if self.bits.get(i) { bits_of(item) } else { 0 }
    }

    fn prove_few(&self) {
        let _len = self.items.len();
    }
}

/// Counts an item, where those from a start to below it are counted.
fn count_at<S: CountedItems>(items: &S, _start: usize, i: usize, entries: &mut [usize])
    requires order { _start ≤ i }
    requires range { i < length (S.items items.now) }
    requires counted { entries.old ≡ histogram_of S.PTYPE (between _start i (S.items items.now)) }
    ensures { entries.new ≡ histogram_of S.PTYPE (between _start (i + 1) (S.items items.now)) }
{
    items.prove_few();
    let bits = items.bits_at(i);
    entries[bits] += 1;
}

/// Counts four runs of as many items, the first from `start` on and each other after the one before. All
/// entries are 0 before.
fn count_runs<S: CountedItems>(
    items: &S,
    start: usize,
    count: usize,
    first: &mut [usize],
    second: &mut [usize],
    third: &mut [usize],
    fourth: &mut [usize],
)
    requires range { start + 4 * count ≤ length (S.items items.now) }
    requires first { first.old ≡ histogram_of S.PTYPE [] }
    requires second { second.old ≡ histogram_of S.PTYPE [] }
    requires third { third.old ≡ histogram_of S.PTYPE [] }
    requires fourth { fourth.old ≡ histogram_of S.PTYPE [] }
    ensures first { first.new ≡ histogram_of S.PTYPE (between start (start + count) (S.items items.now)) }
    ensures second { second.new ≡ histogram_of S.PTYPE (between (start + count) (start + 2 * count) (S.items items.now)) }
    ensures third { third.new ≡ histogram_of S.PTYPE (between (start + 2 * count) (start + 3 * count) (S.items items.now)) }
    ensures fourth { fourth.new ≡ histogram_of S.PTYPE (between (start + 3 * count) (start + 4 * count) (S.items items.now)) }
{
    items.prove_few();
    let (at_second, at_third, at_fourth) = (start + count, start + 2 * count, start + 3 * count);
    for i in 0..count {
        count_at(items, start, start + i, first);
        count_at(items, at_second, at_second + i, second);
        count_at(items, at_third, at_third + i, third);
        count_at(items, at_fourth, at_fourth + i, fourth);
    }
}

/// Adds the entries of three more histograms.
fn add_entries(entries: &mut [usize], second: &[usize], third: &[usize], fourth: &[usize])
    requires second { length second.now ≡ length entries.old }
    requires third { length third.now ≡ length entries.old }
    requires fourth { length fourth.now ≡ length entries.old }
    requires few { (b : ℕ) → slice_index_or entries.old b 0 + slice_index_or second.now b 0 + slice_index_or third.now b 0 + slice_index_or fourth.now b 0 < 2 ^ 64 }
    ensures long { length entries.new ≡ length entries.old }
    ensures sums { (b : ℕ) → slice_index_or entries.new b 0 ≡ slice_index_or entries.old b 0 + slice_index_or second.now b 0 + slice_index_or third.now b 0 + slice_index_or fourth.now b 0 }
{
    for b in 0..entries.len() {
        let sum = entries[b] + second[b] + third[b] + fourth[b];
        entries[b] = sum;
    }
}

/// Counts the items from `start` to below `end` by their bits. All entries are 0 before.
pub(crate) fn count_all<S: CountedItems>(items: &S, start: usize, end: usize, entries: &mut [usize])
    requires order { start ≤ end }
    requires range { end ≤ length (S.items items.now) }
    requires empty { entries.old ≡ histogram_of S.PTYPE [] }
    ensures { entries.new ≡ histogram_of S.PTYPE (between start end (S.items items.now)) }
{
    let bits = entries.len();
    // No type here has more than 64 bits.
    let (mut second, mut third, mut fourth) = ([0; 65], [0; 65], [0; 65]);
    let second = &mut second[..bits];
    let third = &mut third[..bits];
    let fourth = &mut fourth[..bits];
    let count = (end - start) / 4;
    count_runs(items, start, count, entries, second, third, fourth);
    add_entries(entries, second, third, fourth);
    for i in start + 4 * count..end {
        count_at(items, start, i, entries);
    }
}
