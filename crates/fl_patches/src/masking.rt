//! Counting items of 8 bits through comparisons, under a bit for each.
//!
//! A 0 has as few bits as a null. So the nulls of a group become 0, and then all of its items are compared at once. A group
//! without nulls is compared where it stands.

ghost use Rattle.std.specs.Prelude.{◌≡◌, ◌+◌, ◌%◌, ◌<◌, ◌≤◌, [], ℕ, pos, length, map, slice_index_or, if◌then◌else◌};
ghost use Rattle.fl_types.specs.Bits.{between, bit_of_word};
ghost use Rattle.fl_types.specs.Integers.{bits_of_type, pattern_of};
ghost use Rattle.fl_types.specs.Validities.{masked};
ghost use Rattle.fl_patches.specs.Exceptions.{histogram_of};

use crate::comparing::count_bits;
use fl_column::PhysicalPType;
use fl_types::BitList;

/// How many items have their bits in a word.
const WORD: usize = 64;

/// Whether bit `j` of a word is set.
#[tactic(auto, unfolding(fl_types::specs::Bits::bit_of_word))]
fn has_bit(word: u64, j: usize) -> bool
    requires { j < 64 }
    ensures { result ≡ bit_of_word word j }
{
    word >> j & 1 == 1
}

/// The pattern of an item where it is valid, 0 where it is null.
fn valid_pattern<T: PhysicalPType>(item: T, is_valid: bool) -> u8
    requires { bits_of_type T.PTYPE ≡ 8 }
    ensures { result ≡ (if is_valid then pattern_of T.PTYPE (T.value item) else 0) }
{
    let pattern = item.pattern() as u8;
    if is_valid { pattern } else { 0 }
}

/// Writes the patterns of at most 64 items, with 0 in the place of a null. The valid ones are those whose bits are set.
fn write_items<T: PhysicalPType>(items: &[T], word: u64, group: &mut [u8])
    requires small { bits_of_type T.PTYPE ≡ 8 }
    requires few { length items.now ≤ 64 }
    requires even { length group.old ≡ length items.now }
    ensures long { length group.new ≡ length items.now }
    ensures patterns { (j : ℕ) → j < length items.now → slice_index_or group.new j 0 ≡ (if bit_of_word word j then pattern_of T.PTYPE (slice_index_or (map T.value items.now) j (pos 0)) else 0) }
{
    for j in 0..items.len() {
        group[j] = valid_pattern(items[j], has_bit(word, j));
    }
}

/// The same as `write_items` writes. Of 64 items the compiler works on more at once, since it knows that there are so many.
fn write_word<T: PhysicalPType>(items: &[T], word: u64, group: &mut [u8])
    requires small { bits_of_type T.PTYPE ≡ 8 }
    requires few { length items.now ≤ 64 }
    requires even { length group.old ≡ length items.now }
    ensures long { length group.new ≡ length items.now }
    ensures patterns { (j : ℕ) → j < length items.now → slice_index_or group.new j 0 ≡ (if bit_of_word word j then pattern_of T.PTYPE (slice_index_or (map T.value items.now) j (pos 0)) else 0) }
{
    if items.len() == WORD {
        write_items(&items[..WORD], word, group);
    } else {
        write_items(items, word, group);
    }
}

/// Counts the items of a word, those from `from` to below `to`, where those from a start to below it are counted.
fn count_word<T: PhysicalPType>(
    items: &[T],
    bits: &BitList,
    _start: usize,
    from: usize,
    to: usize,
    entries: &mut [usize],
)
    requires small { bits_of_type T.PTYPE ≡ 8 }
    requires even { length bits.now ≡ length items.now }
    requires aligned { from % 64 ≡ 0 }
    requires start { _start ≤ from }
    requires order { from < to }
    requires few { to ≤ from + 64 }
    requires range { to ≤ length items.now }
    requires counted { entries.old ≡ histogram_of T.PTYPE (between _start from (masked bits.now (map T.value items.now))) }
    ensures { entries.new ≡ histogram_of T.PTYPE (between _start to (masked bits.now (map T.value items.now))) }
{
    // For the proof: there are fewer than 2 to the 64 items.
    let _len = items.len();
    let word = bits.word(from / WORD);
    if word == u64::MAX {
        count_bits(&items[from..to], entries);
    } else {
        let mut group = [0u8; WORD];
        let group = &mut group[..to - from];
        write_word(&items[from..to], word, group);
        count_bits(group, entries);
    }
}

/// Counts the items from `start` to below `end` by their bits, of which those are null whose bit isn't set. All entries are
/// 0 before.
pub(crate) fn count_all<T: PhysicalPType>(
    items: &[T],
    bits: &BitList,
    start: usize,
    end: usize,
    entries: &mut [usize],
)
    requires small { bits_of_type T.PTYPE ≡ 8 }
    requires even { length bits.now ≡ length items.now }
    requires aligned { start % 64 ≡ 0 }
    requires order { start ≤ end }
    requires range { end ≤ length items.now }
    requires empty { entries.old ≡ histogram_of T.PTYPE [] }
    ensures { entries.new ≡ histogram_of T.PTYPE (between start end (masked bits.now (map T.value items.now))) }
{
    for k in 0..(end - start).div_ceil(WORD) {
        let from = start + WORD * k;
        let to = from + (end - from).min(WORD);
        count_word(items, bits, start, from, to, entries);
    }
}
