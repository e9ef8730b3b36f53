//! Tests of values that items name by their places: each value is tested once, and then the places are tested.

ghost use Rattle.std.specs.Prelude.{◌≡◌, ◌≤◌, ◌<◌, ℕ, length, map, not, pos, slice_index_or};
ghost use Rattle.fastlanes.specs.Compared.{has_bit};
ghost use Rattle.fl_bitpacking.specs.Compared.{IsPackedTest};
ghost use Rattle.fl_bitpacking.specs.RangeTests.{IsTestOf, passes};
ghost use Rattle.fl_bitpacking.specs.ValueAnswers.{AreValueAnswers, named_answer};

use crate::compute::compare::{PackedTest, passes_at};
use crate::compute::range_test::RangeTest;
use fastlanes::FL_CHUNK_SIZE;
use fl_column::PhysicalPType;
use fl_types::NativePType;
use fl_types::bits::word_of;

/// How values answer a test, by their places.
#[derive(Clone, Copy)]
pub enum ValueAnswers {
    /// Each value passes, or none does.
    Same(bool),
    /// A value passes where its place passes this test.
    Places(RangeTest),
    /// The values in the test's range are not neighbours.
    Mixed,
}

/// The first place from `from` on of a value that passes a test, or of one that does not; where there is none, the number of
/// values.
fn first_place<T: PhysicalPType>(
    test: PackedTest,
    values: &[T],
    from: usize,
    passing: bool,
) -> usize
    requires test { IsPackedTest test }
    requires typed { test.ptype ≡ T.PTYPE }
    requires from { from ≤ length values.now }
    ensures start { from ≤ result }
    ensures end { result ≤ length values.now }
    ensures before { (k : ℕ) → from ≤ k → k < result → passes test.range (slice_index_or (map T.value values.now) k (pos 0)) ≡ not passing }
    ensures found { result < length values.now → passes test.range (slice_index_or (map T.value values.now) result (pos 0)) ≡ passing }
{
    for k in from..values.len() {
        if passes_at(test, values, k) == passing {
            return k;
        }
    }
    values.len()
}

/// How values answer a test. A reference of the test is an integer of the values' type.
pub fn test_values<T: PhysicalPType>(range: RangeTest, values: &[T]) -> ValueAnswers
    requires { IsTestOf T.PTYPE range }
    ensures { AreValueAnswers range (map T.value values.now) result }
{
    let test = PackedTest::new(range.inside(), T::PTYPE);
    let start = first_place(test, values, 0, true);
    let end = first_place(test, values, start, false);
    if first_place(test, values, end, true) < values.len() {
        return ValueAnswers::Mixed;
    }
    if start == end {
        return ValueAnswers::Same(range.negated);
    }
    if end - start == values.len() {
        return ValueAnswers::Same(!range.negated);
    }
    ValueAnswers::Places(RangeTest::of_places(start, end, range.negated))
}

/// Whether the bit is set that the index at `i` names, modulo 1024.
#[tactic(auto, unfolding(crate::specs::ValueAnswers::named_answer, fastlanes::specs::Compared::has_bit, fastlanes::specs::Compared::is_bit_set))]
fn answer_at<I: NativePType>(answers: &[u64; 16], indices: &[I], i: usize) -> bool
    requires { i < length indices.now }
    ensures { result ≡ named_answer answers.now (slice_index_or (map I.value indices.now) i (pos 0)) }
{
    let place = indices[i].unsigned_abs() as usize % FL_CHUNK_SIZE;
    answers[place / 64] >> (place % 64) & 1 == 1
}

/// Sets bit `i` where the bit of `answers` is set that index `i` names, modulo 1024, and no other bit.
pub fn look_up<I: NativePType>(answers: &[u64; 16], indices: &[I], bits: &mut [u64; 16])
    requires block { length indices.now ≡ 1024 }
    ensures bits { (i : ℕ) → i < 1024 → has_bit bits.new i ≡ named_answer answers.now (slice_index_or (map I.value indices.now) i (pos 0)) }
    ensures whole { length bits.new ≡ 16 }
{
    let bit = |i| answer_at(answers, indices, i);
    for k in 0..16usize {
        bits[k] = word_of(64 * k, 64, &bit);
    }
}
