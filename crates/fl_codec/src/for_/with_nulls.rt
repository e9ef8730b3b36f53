//! Frames of reference of items that may be null: loops over the items of a word of validity, in which the compiler
//! works on several at once. The slots of a chunk of 1024 items are written while the memory that is made for them
//! is in the cache.

ghost use Rattle.std.specs.Prelude.{◌≡◌, ◌<◌, ◌≤◌, ◌+◌, ◌*◌, ◌/◌, ◌%◌, ◌^◌, ◌∷◌, ℕ, ℤ, pos, min, Some, None, IsTrue, IfOk, OnOk, length, map, option_map, slice_index_or, if◌then◌else◌};
ghost use Rattle.fl_types.specs.Bits.{between, bit_of_word, tabulate};
ghost use Rattle.fl_types.specs.Validities.{covers, is_valid_at, items_of};
ghost use Rattle.fl_codec.specs.FoRColumns.{least_valid, min_valid, minus_reference, turned};

use crate::chunks::{chunk_count, chunk_end};
use crate::for_::without_nulls;
use crate::for_::without_nulls::{least_of, less, minus};
use fl_types::{NativePType, Validity};
use num_traits::WrappingSub;
use std::alloc::{AllocError, Global};

/// How many items a word of validity covers.
const WORD: usize = 64;

/// The word of items none of which is null.
const ALL_VALID: u64 = u64::MAX;

/// The validity of the items from `64 * k` on, the first one in the lowest bit.
fn validity_word(validity: &Validity, k: usize, _len: usize) -> u64
    requires covers { IsTrue (covers validity.now _len) }
    requires range { 64 * k < _len }
    ensures { (j : ℕ) → j < 64 → 64 * k + j < _len → bit_of_word result j ≡ is_valid_at validity.now (64 * k + j) }
{
    match validity {
        Validity::NonNullable | Validity::AllValid => ALL_VALID,
        Validity::AllInvalid => 0,
        Validity::Array(bits) => bits.word(k),
    }
}

/// How many words cover this many items.
fn word_count(len: usize) -> usize
    ensures { result ≡ (len + 63) / 64 }
{
    len / WORD + usize::from(len % WORD != 0)
}

/// Where the items of a word that begin at `from` end.
fn word_end(from: usize, len: usize) -> usize
    requires { from ≤ len }
    ensures { result ≡ min (from + 64) len }
{
    from + (len - from).min(WORD)
}

/// Whether bit `j` of a word is set.
#[tactic(auto, unfolding(fl_types::specs::Bits::bit_of_word))]
fn has_bit(word: u64, j: usize) -> bool
    requires { j < 64 }
    ensures { result ≡ bit_of_word word j }
{
    word >> j & 1 == 1
}

/// An item where it is valid, another one where it is null.
fn valid_or<T: NativePType>(item: T, is_valid: bool, other: T) -> T
    ensures { T.value result ≡ (if is_valid then T.value item else T.value other) }
{
    if is_valid { item } else { other }
}

/// The minimum of an integer and of the valid ones among at most 64 items, each minus an origin. The valid ones are those whose
/// bits are set.
fn least_of_items<T: NativePType + WrappingSub>(items: &[T], word: u64, origin: T, seed: T) -> T
    requires { length items.now ≤ 64 }
    ensures { Some (T.value result) ≡ least_valid (Some (T.value seed) ∷ tabulate (λ j. option_map (turned T.PTYPE (T.value origin)) (if bit_of_word word j then Some (slice_index_or (map T.value items.now) j (pos 0)) else None)) (length items.now)) }
{
    let mut least = seed;
    for j in 0..items.len() {
        let item = valid_or(minus(items[j], origin), has_bit(word, j), seed);
        least = less(least, item);
    }
    least
}

/// The minimum of an integer and of these, each minus an origin.
fn least_of_valid<T: NativePType + WrappingSub>(items: &[T], origin: T, seed: T) -> T
    ensures { Some (T.value result) ≡ min_valid (Some (T.value seed)) (least_valid (map (λ z. Some z) (map (λ x. turned T.PTYPE (T.value origin) (T.value x)) items.now))) }
{
    match least_of(items, origin) {
        Some(least) => less(seed, least),
        None => seed,
    }
}

/// The same as `least_of_items` returns. Items that are all valid need no bits, and of 64 the compiler works on more at
/// once, since it knows that there are so many.
fn least_with_word<T: NativePType + WrappingSub>(items: &[T], word: u64, origin: T, seed: T) -> T
    requires { length items.now ≤ 64 }
    ensures { Some (T.value result) ≡ least_valid (Some (T.value seed) ∷ tabulate (λ j. option_map (turned T.PTYPE (T.value origin)) (if bit_of_word word j then Some (slice_index_or (map T.value items.now) j (pos 0)) else None)) (length items.now)) }
{
    if word == ALL_VALID {
        least_of_valid(items, origin, seed)
    } else if items.len() == WORD {
        least_of_items(&items[..WORD], word, origin, seed)
    } else {
        least_of_items(items, word, origin, seed)
    }
}

/// The first valid one among at most 64 items, minus an origin.
fn first_of_word<T: NativePType + WrappingSub>(items: &[T], word: u64, origin: T) -> Option<T>
    requires { length items.now ≤ 64 }
    ensures one { least_valid (option_map T.value result ∷ tabulate (λ j. option_map (turned T.PTYPE (T.value origin)) (if bit_of_word word j then Some (slice_index_or (map T.value items.now) j (pos 0)) else None)) (length items.now)) ≡ least_valid (tabulate (λ j. option_map (turned T.PTYPE (T.value origin)) (if bit_of_word word j then Some (slice_index_or (map T.value items.now) j (pos 0)) else None)) (length items.now)) }
    ensures none { result ≡ None → least_valid (tabulate (λ j. option_map (turned T.PTYPE (T.value origin)) (if bit_of_word word j then Some (slice_index_or (map T.value items.now) j (pos 0)) else None)) (length items.now)) ≡ None }
{
    for j in 0..items.len() {
        if has_bit(word, j) {
            return Some(minus(items[j], origin));
        }
    }
    None
}

/// The minimum so far, else the first valid one among at most 64 more, minus an origin.
fn seed_of_word<T: NativePType + WrappingSub>(
    items: &[T],
    word: u64,
    origin: T,
    least: Option<T>,
) -> Option<T>
    requires { length items.now ≤ 64 }
    ensures one { least_valid (option_map T.value result ∷ tabulate (λ j. option_map (turned T.PTYPE (T.value origin)) (if bit_of_word word j then Some (slice_index_or (map T.value items.now) j (pos 0)) else None)) (length items.now)) ≡ least_valid (option_map T.value least ∷ tabulate (λ j. option_map (turned T.PTYPE (T.value origin)) (if bit_of_word word j then Some (slice_index_or (map T.value items.now) j (pos 0)) else None)) (length items.now)) }
    ensures none { result ≡ None → least_valid (option_map T.value least ∷ tabulate (λ j. option_map (turned T.PTYPE (T.value origin)) (if bit_of_word word j then Some (slice_index_or (map T.value items.now) j (pos 0)) else None)) (length items.now)) ≡ None }
{
    match least {
        Some(seed) => Some(seed),
        None => first_of_word(items, word, origin),
    }
}

/// The minimum so far and of the valid ones among at most 64 more, each minus an origin.
fn least_after_word<T: NativePType + WrappingSub>(
    items: &[T],
    word: u64,
    origin: T,
    least: Option<T>,
) -> Option<T>
    requires { length items.now ≤ 64 }
    ensures { option_map T.value result ≡ least_valid (option_map T.value least ∷ tabulate (λ j. option_map (turned T.PTYPE (T.value origin)) (if bit_of_word word j then Some (slice_index_or (map T.value items.now) j (pos 0)) else None)) (length items.now)) }
{
    match seed_of_word(items, word, origin, least) {
        Some(seed) => Some(least_with_word(items, word, origin, seed)),
        None => None,
    }
}

/// The minimum of the valid items from `start` to below `end`, each minus an origin.
pub(crate) fn least_between<T: NativePType + WrappingSub>(
    items: &[T],
    validity: &Validity,
    start: usize,
    end: usize,
    origin: T,
) -> Option<T>
    requires covers { IsTrue (covers validity.now (length items.now)) }
    requires aligned { start % 64 ≡ 0 }
    requires order { start ≤ end }
    requires range { end ≤ length items.now }
    ensures { option_map T.value result ≡ least_valid (map (option_map (turned T.PTYPE (T.value origin))) (between start end (items_of validity.now (map T.value items.now)))) }
{
    let mut least = None;
    for k in start / WORD..word_count(end) {
        let from = WORD * k;
        let to = word_end(from, end);
        let word = validity_word(validity, k, items.len());
        least = least_after_word(&items[from..to], word, origin, least);
    }
    least
}

/// An integer minus a reference where it is valid, 0 where it is null.
fn difference<T: NativePType + WrappingSub>(item: T, is_valid: bool, reference: T) -> T
    ensures { T.value result ≡ minus_reference T.PTYPE (T.value reference) (if is_valid then Some (T.value item) else None) }
{
    let difference = minus(item, reference);
    if is_valid { difference } else { T::zero() }
}

/// Writes the slots of at most 64 items, minus a reference. The valid ones are those whose bits are set.
fn subtract_items<T: NativePType + WrappingSub>(
    items: &[T],
    word: u64,
    reference: T,
    slots: &mut [T],
)
    requires few { length items.now ≤ 64 }
    requires slots { length slots.old ≡ length items.now }
    ensures { (j : ℕ) → j < length items.now → slice_index_or (map T.value slots.new) j (pos 0) ≡ minus_reference T.PTYPE (T.value reference) (if bit_of_word word j then Some (slice_index_or (map T.value items.now) j (pos 0)) else None) }
{
    for j in 0..items.len() {
        slots[j] = difference(items[j], has_bit(word, j), reference);
    }
}

/// The same as `subtract_items` writes. Items that are all valid need no bits, and of 64 the compiler works on more at once,
/// since it knows that there are so many.
fn subtract_word<T: NativePType + WrappingSub>(
    items: &[T],
    word: u64,
    reference: T,
    slots: &mut [T],
)
    requires few { length items.now ≤ 64 }
    requires slots { length slots.old ≡ length items.now }
    ensures { (j : ℕ) → j < length items.now → slice_index_or (map T.value slots.new) j (pos 0) ≡ minus_reference T.PTYPE (T.value reference) (if bit_of_word word j then Some (slice_index_or (map T.value items.now) j (pos 0)) else None) }
{
    if word == ALL_VALID {
        without_nulls::subtract(items, reference, slots);
    } else if items.len() == WORD {
        subtract_items(&items[..WORD], word, reference, slots);
    } else {
        subtract_items(items, word, reference, slots);
    }
}

/// Writes the slots of the items from `start` on, minus a reference.
fn subtract<T: NativePType + WrappingSub>(
    items: &[T],
    validity: &Validity,
    start: usize,
    reference: T,
    slots: &mut [T],
)
    requires covers { IsTrue (covers validity.now (length items.now)) }
    requires aligned { start % 64 ≡ 0 }
    requires range { start + length slots.old ≤ length items.now }
    ensures { map T.value slots.new ≡ tabulate (λ j. minus_reference T.PTYPE (T.value reference) (slice_index_or (items_of validity.now (map T.value items.now)) (start + j) None)) (length slots.old) }
{
    let len = slots.len();
    for k in 0..word_count(len) {
        let from = WORD * k;
        let to = word_end(from, len);
        let word = validity_word(validity, start / WORD + k, items.len());
        let part = &mut slots[from..to];
        subtract_word(&items[start + from..start + to], word, reference, part);
    }
}

/// Appends the slots of the items after those that have one, up to below `end`, minus a reference.
pub(crate) fn push_differences<T: NativePType + WrappingSub>(
    items: &[T],
    validity: &Validity,
    end: usize,
    reference: T,
    slots: &mut Vec<T>,
) -> Result<(), AllocError>
    requires covers { IsTrue (covers validity.now (length items.now)) }
    requires aligned { length slots.old.items % 64 ≡ 0 }
    requires order { length slots.old.items ≤ end }
    requires range { end ≤ length items.now }
    ensures { OnOk result ((slot : ℕ → ℤ) → ((i : ℕ) → length slots.old.items ≤ i → i < end → slot i ≡ minus_reference T.PTYPE (T.value reference) (slice_index_or (items_of validity.now (map T.value items.now)) i None)) → map T.value slots.old.items ≡ tabulate slot (length slots.old.items) → map T.value slots.new.items ≡ tabulate slot end) }
{
    let start = slots.len();
    slots.resize(end, T::zero())?;
    let part = &mut slots[start..end];
    subtract(items, validity, start, reference, part);
    Ok(())
}

/// The slots of the items minus a reference.
pub(crate) fn differences<T: NativePType + WrappingSub>(
    alloc: Global,
    items: &[T],
    validity: &Validity,
    reference: T,
) -> Result<Vec<T>, AllocError>
    requires { IsTrue (covers validity.now (length items.now)) }
    ensures long { IfOk result (λ v. length v.items ≡ length items.now) }
    ensures slots { IfOk result (λ v. map T.value v.items ≡ map (minus_reference T.PTYPE (T.value reference)) (items_of validity.now (map T.value items.now))) }
{
    let len = items.len();
    let mut slots = Vec::with_capacity(alloc, len)?;
    for k in 0..chunk_count(len) {
        push_differences(items, validity, chunk_end(k, len), reference, &mut slots)?;
    }
    Ok(slots)
}
