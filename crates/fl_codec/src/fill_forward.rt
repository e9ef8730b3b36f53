//! Columns whose nulls are filled with the last item before them.

ghost use Rattle.std.specs.Prelude.{◌≡◌, ◌+◌, ◌*◌, ◌<◌, ◌≤◌, ℕ, ℤ, IsTrue, Some, None, if◌then◌else◌, length, map, option_map, slice_index_or, take, unwrap_or, false, true};
ghost use Rattle.fastlanes.specs.Layout.{pattern_at};
ghost use Rattle.fl_types.specs.Bits.{bit_of_word};
ghost use Rattle.fl_types.specs.Integers.{fits, pattern_of};
ghost use Rattle.fl_types.specs.Validities.{covers, items_of};
ghost use Rattle.fl_types.specs.declared.validity.Validity.TheVariants.{Array};
ghost use Rattle.fl_codec.specs.Chunks.{chunk};
ghost use Rattle.fl_codec.specs.ForwardFill.{filled_from, last_some};

use crate::chunks::item_in_chunk;
use fastlanes::FL_CHUNK_SIZE;
use fl_column::PhysicalPType;
use fl_types::laws::integer_is_in_range;
use fl_types::{BitList, NativePType, Validity};

/// Writes the patterns of chunk `k`, which has 1024 items none of which is null, and returns its last item.
fn fill_whole_chunk<T: PhysicalPType>(
    items: &[T],
    k: usize,
    before: T,
    block: &mut [T::Physical; FL_CHUNK_SIZE],
) -> T
    requires { 1024 * (k + 1) ≤ length items.now }
    ensures block { (q : ℕ) → q < 1024 → pattern_at T.Physical.pattern block.new q ≡ pattern_of T.PTYPE (filled_from (T.value before) (chunk k (map (λ z. Some z) (map T.value items.now))) q) }
    ensures fits { (q : ℕ) → q < 1024 → IsTrue (fits T.PTYPE (filled_from (T.value before) (chunk k (map (λ z. Some z) (map T.value items.now))) q)) }
    ensures last { T.value result ≡ unwrap_or (last_some (chunk k (map (λ z. Some z) (map T.value items.now)))) (T.value before) }
    ensures whole { length block.new ≡ 1024 }
{
    let start = FL_CHUNK_SIZE * k;
    let mut last = before;
    for q in 0..FL_CHUNK_SIZE {
        last = items[start + q];
        integer_is_in_range(last);
        block[q] = last.to_physical();
    }
    last
}

/// Writes the patterns of chunk `k`, whose items may be null or end in it, and returns its last item.
fn fill_any_chunk<T: PhysicalPType>(
    items: &[T],
    validity: &Validity,
    k: usize,
    before: T,
    block: &mut [T::Physical; FL_CHUNK_SIZE],
) -> T
    requires covers { IsTrue (covers validity.now (length items.now)) }
    requires chunk { 1024 * k ≤ length items.now }
    ensures block { (q : ℕ) → q < 1024 → pattern_at T.Physical.pattern block.new q ≡ pattern_of T.PTYPE (filled_from (T.value before) (chunk k (items_of validity.now (map T.value items.now))) q) }
    ensures fits { (q : ℕ) → q < 1024 → IsTrue (fits T.PTYPE (filled_from (T.value before) (chunk k (items_of validity.now (map T.value items.now))) q)) }
    ensures last { T.value result ≡ unwrap_or (last_some (chunk k (items_of validity.now (map T.value items.now)))) (T.value before) }
    ensures whole { length block.new ≡ 1024 }
{
    let mut last = before;
    for q in 0..FL_CHUNK_SIZE {
        last = item_in_chunk(items, validity, k, q).unwrap_or(last);
        integer_is_in_range(last);
        block[q] = last.to_physical();
    }
    last
}

/// The item, or `None` where bit `j` of a word of validity is not set.
#[tactic(auto, unfolding(fl_types::specs::Bits::bit_of_word))]
fn item_by_bit<T: NativePType>(item: T, word: u64, j: usize) -> Option<T>
    requires { j < 64 }
    ensures { option_map T.value result ≡ (if bit_of_word word j then Some (T.value item) else None) }
{
    if word >> j & 1 == 1 { Some(item) } else { None }
}

/// Writes the patterns of the 64 items of part `j` of chunk `k`, and returns the last one. A null repeats the item before it, the
/// first of them `before`.
fn fill_part<T: PhysicalPType>(
    items: &[T],
    bits: &BitList,
    k: usize,
    j: usize,
    before: T,
    block: &mut [T::Physical; FL_CHUNK_SIZE],
) -> T
    requires covers { IsTrue (covers (Array bits.now) (length items.now)) }
    requires chunk { 1024 * (k + 1) ≤ length items.now }
    requires part { j < 16 }
    ensures last { (first : ℤ) → T.value before ≡ unwrap_or (last_some (take (64 * j) (chunk k (items_of (Array bits.now) (map T.value items.now))))) first → T.value result ≡ unwrap_or (last_some (take (64 * j + 64) (chunk k (items_of (Array bits.now) (map T.value items.now))))) first }
    ensures block { (first : ℤ) → T.value before ≡ unwrap_or (last_some (take (64 * j) (chunk k (items_of (Array bits.now) (map T.value items.now))))) first → (q : ℕ) → 64 * j ≤ q → q < 64 * j + 64 → pattern_at T.Physical.pattern block.new q ≡ pattern_of T.PTYPE (filled_from first (chunk k (items_of (Array bits.now) (map T.value items.now))) q) }
    ensures fits { (first : ℤ) → T.value before ≡ unwrap_or (last_some (take (64 * j) (chunk k (items_of (Array bits.now) (map T.value items.now))))) first → (q : ℕ) → 64 * j ≤ q → q < 64 * j + 64 → IsTrue (fits T.PTYPE (filled_from first (chunk k (items_of (Array bits.now) (map T.value items.now))) q)) }
    ensures others { (q : ℕ) → q < 64 * j → pattern_at T.Physical.pattern block.new q ≡ pattern_at T.Physical.pattern block.old q }
    ensures whole { length block.new ≡ 1024 }
{
    let word = bits.word(16 * k + j);
    let mut last = before;
    for i in 0..64usize {
        let q = 64 * j + i;
        last = item_by_bit(items[FL_CHUNK_SIZE * k + q], word, i).unwrap_or(last);
        integer_is_in_range(last);
        block[q] = last.to_physical();
    }
    last
}

/// Whether the 1024 bits of chunk `k` are all set.
fn are_all_set(bits: &BitList, k: usize) -> bool
    requires { 1024 * (k + 1) ≤ length bits.now }
    ensures { IsTrue result → (i : ℕ) → 1024 * k ≤ i → i < 1024 * (k + 1) → slice_index_or bits.now i false ≡ true }
{
    let _len = bits.len();
    for j in 0..16usize {
        if bits.word(16 * k + j) != u64::MAX {
            return false;
        }
    }
    true
}

/// Writes the patterns of chunk `k`, which has 1024 items with a bit of validity each, and returns its last item.
fn fill_chunk_by_words<T: PhysicalPType>(
    items: &[T],
    bits: &BitList,
    k: usize,
    before: T,
    block: &mut [T::Physical; FL_CHUNK_SIZE],
) -> T
    requires covers { IsTrue (covers (Array bits.now) (length items.now)) }
    requires chunk { 1024 * (k + 1) ≤ length items.now }
    ensures block { (q : ℕ) → q < 1024 → pattern_at T.Physical.pattern block.new q ≡ pattern_of T.PTYPE (filled_from (T.value before) (chunk k (items_of (Array bits.now) (map T.value items.now))) q) }
    ensures fits { (q : ℕ) → q < 1024 → IsTrue (fits T.PTYPE (filled_from (T.value before) (chunk k (items_of (Array bits.now) (map T.value items.now))) q)) }
    ensures last { T.value result ≡ unwrap_or (last_some (chunk k (items_of (Array bits.now) (map T.value items.now)))) (T.value before) }
    ensures whole { length block.new ≡ 1024 }
{
    if are_all_set(bits, k) {
        return fill_whole_chunk(items, k, before, block);
    }
    let mut last = before;
    for j in 0..16usize {
        last = fill_part(items, bits, k, j, last, block);
    }
    last
}

/// Writes the patterns of chunk `k` of a column to `block`, and returns its last item. A null, and
/// each position past the end of a short chunk, repeats the item before it, the first of them
/// `before`.
pub fn fill_chunk<T: PhysicalPType>(
    items: &[T],
    validity: &Validity,
    k: usize,
    before: T,
    block: &mut [T::Physical; FL_CHUNK_SIZE],
) -> T
    requires covers { IsTrue (covers validity.now (length items.now)) }
    requires chunk { 1024 * k ≤ length items.now }
    ensures block { (q : ℕ) → q < 1024 → pattern_at T.Physical.pattern block.new q ≡ pattern_of T.PTYPE (filled_from (T.value before) (chunk k (items_of validity.now (map T.value items.now))) q) }
    ensures fits { (q : ℕ) → q < 1024 → IsTrue (fits T.PTYPE (filled_from (T.value before) (chunk k (items_of validity.now (map T.value items.now))) q)) }
    ensures last { T.value result ≡ unwrap_or (last_some (chunk k (items_of validity.now (map T.value items.now)))) (T.value before) }
    ensures whole { length block.new ≡ 1024 }
{
    match validity {
        Validity::NonNullable | Validity::AllValid
            if items.len() - FL_CHUNK_SIZE * k >= FL_CHUNK_SIZE => {
            fill_whole_chunk(items, k, before, block)
        }
        Validity::Array(bits) if items.len() - FL_CHUNK_SIZE * k >= FL_CHUNK_SIZE => {
            fill_chunk_by_words(items, bits, k, before, block)
        }
        _ => fill_any_chunk(items, validity, k, before, block),
    }
}
