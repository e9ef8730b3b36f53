//! Tests of a range on the items of one block, whose answers are the bits of sixteen words.

ghost use Rattle.std.specs.Prelude.{◌≡◌, ◌<◌, ◌^◌, ℕ, IsTrue, length, map, pos, slice_index_or};
ghost use Rattle.fastlanes.specs.Compared.{has_bit};
ghost use Rattle.fl_types.specs.Integers.{fits, lanes_of_type, pattern_of};
ghost use Rattle.fl_codec.specs.Deltas.{block_integer};
ghost use Rattle.fl_bitpacking.specs.RangeTests.{IsTestOf, answer_of, in_range, passes};

use crate::compute::compare::{is_in_range, negate};
use crate::compute::range_test::{PatternTest, RangeTest};
use fastlanes::{FL_CHUNK_SIZE, FastLanes};
use fl_codec::delta::block_comparisons::compare_sums;
use fl_column::PhysicalPType;
use fl_types::bits::word_of;
use fl_types::laws::integer_is_in_range;

/// Whether the pattern of the item at an index minus `low`, modulo 2 to the type's bits, is at most `span`.
fn is_in_range_at<T: PhysicalPType>(
    items: &[T],
    i: usize,
    low: T::Physical,
    span: T::Physical,
) -> bool
    requires { i < length items.now }
    ensures inside { result ≡ in_range T.Physical.T (T.Physical.pattern low) (T.Physical.pattern span) (pattern_of T.PTYPE (slice_index_or (map T.value items.now) i (pos 0))) }
    ensures fit { IsTrue (fits T.PTYPE (slice_index_or (map T.value items.now) i (pos 0))) }
{
    let item = items[i];
    integer_is_in_range(item);
    is_in_range(item.to_physical(), low, span)
}

/// Sets bit `i` where the pattern of item `i` of a block minus `low`, modulo 2 to the type's bits, is at most `span`, and no
/// other bit. Words of the type's bits are compared, so that the compiler makes vectors of them.
fn compare_items<T: PhysicalPType>(
    items: &[T],
    low: T::Physical,
    span: T::Physical,
    bits: &mut [u64; 16],
)
    requires block { length items.now ≡ 1024 }
    ensures bits { (i : ℕ) → i < 1024 → has_bit bits.new i ≡ in_range T.Physical.T (T.Physical.pattern low) (T.Physical.pattern span) (pattern_of T.PTYPE (slice_index_or (map T.value items.now) i (pos 0))) }
    ensures fit { (i : ℕ) → i < 1024 → IsTrue (fits T.PTYPE (slice_index_or (map T.value items.now) i (pos 0))) }
    ensures whole { length bits.new ≡ 16 }
{
    let bit = |i| is_in_range_at(items, i, low, span);
    for k in 0..16usize {
        bits[k] = word_of(64 * k, 64, &bit);
    }
}

/// Sets bit `i` where the pattern of item `i` of a block passes a test, and no other bit.
fn test_patterns<T: PhysicalPType>(test: PatternTest, items: &[T], bits: &mut [u64; 16])
    requires low { test.low < 2 ^ T.Physical.T }
    requires span { test.span < 2 ^ T.Physical.T }
    requires block { length items.now ≡ 1024 }
    ensures bits { (i : ℕ) → i < 1024 → has_bit bits.new i ≡ answer_of test.negated (in_range T.Physical.T test.low test.span (pattern_of T.PTYPE (slice_index_or (map T.value items.now) i (pos 0)))) }
    ensures fit { (i : ℕ) → i < 1024 → IsTrue (fits T.PTYPE (slice_index_or (map T.value items.now) i (pos 0))) }
    ensures whole { length bits.new ≡ 16 }
{
    let low = T::Physical::from_u64(test.low);
    let span = T::Physical::from_u64(test.span);
    compare_items(items, low, span, bits);
    if test.negated {
        negate(bits);
    }
}

/// Sets bit `i` where item `i` of a block passes a test, and no other bit. A reference of the test is an integer of the items'
/// type.
pub fn test_items<T: PhysicalPType>(range: RangeTest, items: &[T], bits: &mut [u64; 16])
    requires test { IsTestOf T.PTYPE range }
    requires block { length items.now ≡ 1024 }
    ensures bits { (i : ℕ) → i < 1024 → has_bit bits.new i ≡ passes range (slice_index_or (map T.value items.now) i (pos 0)) }
    ensures whole { length bits.new ≡ 16 }
{
    let test = range.on_patterns(T::PTYPE);
    test_patterns(test, items, bits);
}

/// Sets bit `i` where the pattern of item `i` of a delta block minus `low`, modulo 2 to the type's bits, is at most `span`, and
/// no other bit.
fn compare_deltas<T: PhysicalPType>(
    bases: &[T],
    deltas: &[T],
    low: T::Physical,
    span: T::Physical,
    row: &mut [T::Physical; FL_CHUNK_SIZE],
    differences: &mut [T::Physical; FL_CHUNK_SIZE],
    bits: &mut [u64; 16],
)
    requires bases { length bases.now ≡ lanes_of_type T.PTYPE }
    requires deltas { length deltas.now ≡ 1024 }
    ensures bits { (i : ℕ) → i < 1024 → has_bit bits.new i ≡ in_range T.Physical.T (T.Physical.pattern low) (T.Physical.pattern span) (pattern_of T.PTYPE (block_integer T.PTYPE (λ k. slice_index_or (map T.value bases.now) k (pos 0)) (λ k. slice_index_or (map T.value deltas.now) k (pos 0)) 0 i)) }
    ensures whole { length bits.new ≡ 16 }
{
    compare_sums(
        bases,
        deltas,
        row,
        differences,
        |item, low| is_in_range(item, low, span),
        low,
        bits,
    );
}

/// Sets bit `i` where the pattern of item `i` of a delta block passes a test, and no other bit.
fn test_delta_patterns<T: PhysicalPType>(
    test: PatternTest,
    bases: &[T],
    deltas: &[T],
    row: &mut [T::Physical; FL_CHUNK_SIZE],
    differences: &mut [T::Physical; FL_CHUNK_SIZE],
    bits: &mut [u64; 16],
)
    requires low { test.low < 2 ^ T.Physical.T }
    requires span { test.span < 2 ^ T.Physical.T }
    requires bases { length bases.now ≡ lanes_of_type T.PTYPE }
    requires deltas { length deltas.now ≡ 1024 }
    ensures bits { (i : ℕ) → i < 1024 → has_bit bits.new i ≡ answer_of test.negated (in_range T.Physical.T test.low test.span (pattern_of T.PTYPE (block_integer T.PTYPE (λ k. slice_index_or (map T.value bases.now) k (pos 0)) (λ k. slice_index_or (map T.value deltas.now) k (pos 0)) 0 i))) }
    ensures whole { length bits.new ≡ 16 }
{
    let low = T::Physical::from_u64(test.low);
    let span = T::Physical::from_u64(test.span);
    compare_deltas(bases, deltas, low, span, row, differences, bits);
    if test.negated {
        negate(bits);
    }
}

/// Sets bit `i` where item `i` of a delta block passes a test, and no other bit: the item is its lane's base and the deltas
/// of the rows up to its own, modulo 2 to the type's bits. There are a base for each lane and 1024 deltas. A reference of the
/// test is an integer of their type. What is in `row` and `differences` does not count, before or after.
pub fn test_deltas<T: PhysicalPType>(
    range: RangeTest,
    bases: &[T],
    deltas: &[T],
    row: &mut [T::Physical; FL_CHUNK_SIZE],
    differences: &mut [T::Physical; FL_CHUNK_SIZE],
    bits: &mut [u64; 16],
)
    requires test { IsTestOf T.PTYPE range }
    requires bases { length bases.now ≡ lanes_of_type T.PTYPE }
    requires deltas { length deltas.now ≡ 1024 }
    ensures bits { (i : ℕ) → i < 1024 → has_bit bits.new i ≡ passes range (block_integer T.PTYPE (λ k. slice_index_or (map T.value bases.now) k (pos 0)) (λ k. slice_index_or (map T.value deltas.now) k (pos 0)) 0 i) }
    ensures whole { length bits.new ≡ 16 }
{
    let test = range.on_patterns(T::PTYPE);
    test_delta_patterns(test, bases, deltas, row, differences, bits);
}
