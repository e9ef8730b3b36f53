//! Items that are kept by the words of a mask.

ghost use Rattle.std.specs.Prelude.{◌≡◌, ◌+◌, ◌++◌, ◌<◌, ◌≤◌, ℕ, OnOk, drop, length, true, vec_capacity, vec_len};
ghost use Rattle.fl_types.specs.Bits.{between, bit_of_word, tabulate, true_count};
ghost use Rattle.fl_column.specs.Operations.{kept};

use fl_types::{BitList, NativePType};
use std::alloc::AllocError;

/// How many of the `count` booleans from `from` on are true.
pub fn count_between(bits: &BitList, from: usize, count: usize) -> usize
    requires { from + count ≤ length bits.now }
    ensures { result ≡ true_count (between from (from + count) bits.now) }
{
    // For the proof: a `usize` holds the length.
    let _len = bits.len();
    let mut set = 0;
    for k in 0..count.div_ceil(64) {
        let at = 64 * k;
        let word = bits.word_from(from + at, (count - at).min(64));
        set += word.count_ones() as usize;
    }
    set
}

/// Appends the items at the set bits of a word, for which there is room.
fn push_set<T: NativePType>(taken: &mut Vec<T>, items: &[T], word: u64)
    requires items { (j : ℕ) → bit_of_word word j ≡ true → j < length items.now }
    requires room { vec_len taken.old + length (kept (tabulate (bit_of_word word) 64) items.now) ≤ vec_capacity taken.old }
    ensures { taken.new.items ≡ taken.old.items ++ kept (tabulate (bit_of_word word) 64) items.now }
{
    let mut rest = word;
    while rest != 0 {
        taken.push_reserved(items[rest.trailing_zeros() as usize]);
        rest &= rest - 1;
    }
}

/// Appends the items at the set bits of a word: all of them at once where each bit is set.
fn push_word<T: NativePType>(taken: &mut Vec<T>, items: &[T], word: u64) -> Result<(), AllocError>
    requires items { (j : ℕ) → bit_of_word word j ≡ true → j < length items.now }
    requires count { length items.now ≤ 64 }
    ensures { OnOk result (taken.new.items ≡ taken.old.items ++ kept (tabulate (bit_of_word word) 64) items.now) }
{
    if word == u64::MAX {
        return taken.extend_from_slice(items);
    }
    taken.reserve(word.count_ones() as usize)?;
    push_set(taken, items, word);
    Ok(())
}

/// Appends the items whose booleans are true, of which the first is that at `from`.
pub fn push_kept<T: NativePType>(
    taken: &mut Vec<T>,
    items: &[T],
    bits: &BitList,
    from: usize,
) -> Result<(), AllocError>
    requires { from + length items.now ≤ length bits.now }
    ensures { OnOk result (taken.new.items ≡ taken.old.items ++ kept (drop from bits.now) items.now) }
{
    // For the proof: a `usize` holds the length.
    let _len = bits.len();
    for k in 0..items.len().div_ceil(64) {
        let at = 64 * k;
        let count = (items.len() - at).min(64);
        let word = bits.word_from(from + at, count);
        push_word(taken, &items[at..at + count], word)?;
    }
    Ok(())
}
