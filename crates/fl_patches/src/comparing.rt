//! Counting small items by their bits through comparisons.
//!
//! A vector holds many items of 8 bits, and compares all of them with a power of two at once. So eight comparisons of
//! each item take less time than to look up its bits and to write their entry, item by item.

ghost use Rattle.std.specs.Prelude.{◌≡◌, ◌+◌, ◌<◌, ◌≤◌, ◌^◌, [], ℕ, Some, length, map, nat_lt, slice_index_or};
ghost use Rattle.std.specs.List.{count_by};
ghost use Rattle.fl_types.specs.Bits.{between};
ghost use Rattle.fl_types.specs.Integers.{bits_of_type, pattern_of};
ghost use Rattle.fl_patches.specs.Exceptions.{bit_count, bits_of_item, count_with_bits, histogram_of};

use fastlanes::FastLanes;
use fl_column::PhysicalPType;

/// How many items are compared at a time. A byte holds how many of them are wider.
const GROUP: usize = 128;

/// Whether an item has more bits than a width, by 2 to that width.
fn is_wider<T: PhysicalPType>(item: T, bound: T::Physical, _width: usize) -> bool
    requires bound { T.Physical.pattern bound ≡ 2 ^ _width }
    requires narrow { _width < 64 }
    ensures { result ≡ nat_lt _width (bit_count (pattern_of T.PTYPE (T.value item))) }
{
    bound.at_most(item.to_physical())
}

/// How many of at most 255 items have more bits than a width.
fn count_wider<T: PhysicalPType>(items: &[T], width: usize) -> usize
    requires few { length items.now ≤ 255 }
    requires narrow { width < bits_of_type T.PTYPE }
    ensures { result ≡ count_by (λ item. nat_lt width (bits_of_item T.PTYPE item)) (map (λ z. Some z) (map T.value items.now)) }
{
    let bound = T::Physical::from_u64(1 << width);
    let mut count = 0u8;
    for i in 0..items.len() {
        count += u8::from(is_wider(items[i], bound, width));
    }
    usize::from(count)
}

/// Adds how many of at most 128 items have as many bits to each entry.
pub(crate) fn count_bits<T: PhysicalPType>(group: &[T], entries: &mut [usize])
    requires few { length group.now ≤ 128 }
    requires long { length entries.old ≡ bits_of_type T.PTYPE + 1 }
    requires room { (b : ℕ) → slice_index_or entries.old b 0 + length group.now < 2 ^ 64 }
    ensures long { length entries.new ≡ length entries.old }
    ensures counts { (b : ℕ) → b < length entries.old → slice_index_or entries.new b 0 ≡ slice_index_or entries.old b 0 + count_with_bits T.PTYPE (map (λ z. Some z) (map T.value group.now)) b }
{
    let bits = T::PTYPE.bit_width();
    let mut rest = group.len();
    for width in 0..bits {
        let wider = count_wider(group, width);
        entries[width] += rest - wider;
        rest = wider;
    }
    entries[bits] += rest;
}

/// Counts the items of a group, those from `from` to below `to`, where those from a start to below it are counted.
fn count_group<T: PhysicalPType>(
    items: &[T],
    _start: usize,
    from: usize,
    to: usize,
    entries: &mut [usize],
)
    requires start { _start ≤ from }
    requires order { from ≤ to }
    requires few { to ≤ from + 128 }
    requires range { to ≤ length items.now }
    requires counted { entries.old ≡ histogram_of T.PTYPE (between _start from (map (λ z. Some z) (map T.value items.now))) }
    ensures { entries.new ≡ histogram_of T.PTYPE (between _start to (map (λ z. Some z) (map T.value items.now))) }
{
    // For the proof: there are fewer than 2 to the 64 items.
    let _len = items.len();
    count_bits(&items[from..to], entries);
}

/// Counts the items from `start` to below `end` by their bits. All entries are 0 before.
pub(crate) fn count_all<T: PhysicalPType>(
    items: &[T],
    start: usize,
    end: usize,
    entries: &mut [usize],
)
    requires order { start ≤ end }
    requires range { end ≤ length items.now }
    requires empty { entries.old ≡ histogram_of T.PTYPE [] }
    ensures { entries.new ≡ histogram_of T.PTYPE (between start end (map (λ z. Some z) (map T.value items.now))) }
{
    for k in 0..(end - start).div_ceil(GROUP) {
        let from = start + GROUP * k;
        let to = from + (end - from).min(GROUP);
        count_group(items, start, from, to, entries);
    }
}
