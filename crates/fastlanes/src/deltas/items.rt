//! Delta blocks decoded into the order of the items in one step: four rows at a time are summed, and the four items of each
//! lane go next to each other, as its segment has them.
#![tactic(auto)]

ghost use Rattle.std.specs.Prelude.{◌≡◌, ◌⊎◌, ℕ, ◌+◌, ◌-◌, ◌*◌, ◌/◌, ◌%◌, ◌^◌, ◌<◌, ◌≤◌, length};
ghost use Rattle.fastlanes.specs.Layout.{pattern_at};
ghost use Rattle.fastlanes.specs.Delta.{delta_item, item_place, summed_before, summed_item};
ghost use Rattle.fastlanes.specs.Rows.{WritesRows};

use crate::deltas::{bases_of, sum_row};
use crate::layout::{FL_CHUNK_SIZE, seg};
use crate::proof_support::prove_whole_block;
use crate::widths::{bits, lanes};
use crate::words::FastLanes;
use std::simd::Simd;

/// The words of four rows of sixteen lanes.
const FOUR_ROWS: usize = 64;

/// Writes the words of the two halves of four rows in turn.
#[inline(always)]
fn interleave_rows<W: FastLanes>(rows: &[W; FOUR_ROWS], target: &mut [W; FOUR_ROWS])
    ensures { (i : ℕ) → i < 64 → pattern_at W.pattern target.new i ≡ pattern_at W.pattern rows.now (i / 2 + 32 * (i % 2)) }
{
    W::interleave(rows, 0, 32, target, 0);
    W::interleave(rows, 16, 48, target, 32);
}

/// Turns four rows of sixteen lanes, so that the four words of each lane are next to each other.
#[inline(always)]
fn turn_rows<W: FastLanes>(rows: &mut [W; FOUR_ROWS])
    ensures { (i : ℕ) → i < 64 → pattern_at W.pattern rows.new i ≡ pattern_at W.pattern rows.old (i / 4 + 16 * (i % 4)) }
{
    let mut scratch = [W::zero(); FOUR_ROWS];
    interleave_rows(rows, &mut scratch);
    interleave_rows(&scratch, rows);
}

/// Writes the items at the four rows from `r` on of the lanes of group `g`, row after row, and returns the last row's.
#[inline(always)]
fn sum_four<W: FastLanes>(
    deltas: &[W; FL_CHUNK_SIZE],
    bases: &[W],
    before: Simd<W, 16>,
    r: usize,
    g: usize,
    rows: &mut [W; FOUR_ROWS],
) -> Simd<W, 16>
    requires row { r + 4 ≤ W.T }
    requires group { 16 * g + 16 ≤ W.LANES }
    requires before { (j : ℕ) → j < 16 → W.lane before j ≡ summed_before W.T (pattern_at W.pattern bases.now) (pattern_at W.pattern deltas.now) r (16 * g + j) }
    ensures sums { (j : ℕ) → j < 16 → W.lane result j ≡ summed_before W.T (pattern_at W.pattern bases.now) (pattern_at W.pattern deltas.now) (r + 4) (16 * g + j) }
    ensures rows { (i : ℕ) → i < 64 → pattern_at W.pattern rows.new i ≡ summed_item W.T (pattern_at W.pattern bases.now) (pattern_at W.pattern deltas.now) (r + i / 16) (16 * g + i % 16) }
{
    let mut sums = before;
    for k in 0..4usize {
        sums = sum_row(deltas, bases, sums, r + k, g);
        W::store(sums, rows, 16 * k);
    }
    sums
}

/// Writes the four words of a lane's rows to the four places from `at` on.
#[inline(always)]
fn store_run<W: FastLanes>(
    turned: &[W; FOUR_ROWS],
    j: usize,
    items: &mut [W; FL_CHUNK_SIZE],
    at: usize,
)
    requires lane { j < 16 }
    requires room { at + 4 ≤ 1024 }
    ensures run { (k : ℕ) → k < 4 → pattern_at W.pattern items.new (at + k) ≡ pattern_at W.pattern turned.now (4 * j + k) }
    ensures others { (i : ℕ) → (i < at) ⊎ (at + 4 ≤ i) → pattern_at W.pattern items.new i ≡ pattern_at W.pattern items.old i }
{
    let (words, places) = (&turned[..], &mut items[..]);
    places[at..at + 4].copy_from_slice(&words[4 * j..4 * j + 4]);
}

/// Writes the sixteen runs of four words to places that are 64 apart, from `at` on.
#[inline(always)]
fn store_runs<W: FastLanes>(turned: &[W; FOUR_ROWS], items: &mut [W; FL_CHUNK_SIZE], at: usize)
    requires { at ≤ 60 }
    ensures runs { (j k : ℕ) → j < 16 → k < 4 → pattern_at W.pattern items.new (64 * j + at + k) ≡ pattern_at W.pattern turned.now (4 * j + k) }
    ensures others { (i : ℕ) → (i % 64 < at) ⊎ (at + 4 ≤ i % 64) → pattern_at W.pattern items.new i ≡ pattern_at W.pattern items.old i }
{
    for j in 0..16usize {
        store_run(turned, j, items, 64 * j + at);
    }
}

/// Writes the words of four rows to the places of their lanes, by vectors that are turned.
#[inline(always)]
fn store_turned<W: FastLanes>(rows: &mut [W; FOUR_ROWS], items: &mut [W; FL_CHUNK_SIZE], at: usize)
    requires { at ≤ 60 }
    ensures lanes { (j k : ℕ) → j < 16 → k < 4 → pattern_at W.pattern items.new (64 * j + at + k) ≡ pattern_at W.pattern rows.old (16 * k + j) }
    ensures others { (i : ℕ) → (i % 64 < at) ⊎ (at + 4 ≤ i % 64) → pattern_at W.pattern items.new i ≡ pattern_at W.pattern items.old i }
{
    turn_rows(rows);
    store_runs(rows, items, at);
}

/// The word of lane `j` at row `k` of these four.
#[inline(always)]
#[tactic(auto, using(crate::proofs::Patterns::pattern_at_read))]
fn word_of_lane<W: FastLanes>(rows: &[W; FOUR_ROWS], j: usize, k: usize) -> W
    requires lane { j < 16 }
    requires row { k < 4 }
    ensures { W.pattern result ≡ pattern_at W.pattern rows.now (16 * k + j) }
{
    rows[16 * k + j]
}

/// Writes the four words of lane `j` to the four places from `at` on.
#[inline(always)]
fn store_lane<W: FastLanes>(
    rows: &[W; FOUR_ROWS],
    j: usize,
    items: &mut [W; FL_CHUNK_SIZE],
    at: usize,
)
    requires lane { j < 16 }
    requires room { at + 4 ≤ 1024 }
    ensures lane { (k : ℕ) → k < 4 → pattern_at W.pattern items.new (at + k) ≡ pattern_at W.pattern rows.now (16 * k + j) }
    ensures others { (i : ℕ) → (i < at) ⊎ (at + 4 ≤ i) → pattern_at W.pattern items.new i ≡ pattern_at W.pattern items.old i }
{
    for k in 0..4usize {
        items[at + k] = word_of_lane(rows, j, k);
    }
}

/// Writes the words of four rows to the places of their lanes, one by one.
#[inline(always)]
fn store_lanes<W: FastLanes>(rows: &[W; FOUR_ROWS], items: &mut [W; FL_CHUNK_SIZE], at: usize)
    requires { at ≤ 60 }
    ensures lanes { (j k : ℕ) → j < 16 → k < 4 → pattern_at W.pattern items.new (64 * j + at + k) ≡ pattern_at W.pattern rows.now (16 * k + j) }
    ensures others { (i : ℕ) → (i % 64 < at) ⊎ (at + 4 ≤ i % 64) → pattern_at W.pattern items.new i ≡ pattern_at W.pattern items.old i }
{
    for j in 0..16usize {
        store_lane(rows, j, items, 64 * j + at);
    }
}

/// Writes the words of four rows to the places of their lanes, which are 64 apart: those of the first lane from `at` on.
#[inline(always)]
fn store_rows<W: FastLanes>(rows: &mut [W; FOUR_ROWS], items: &mut [W; FL_CHUNK_SIZE], at: usize)
    requires { at ≤ 60 }
    ensures lanes { (j k : ℕ) → j < 16 → k < 4 → pattern_at W.pattern items.new (64 * j + at + k) ≡ pattern_at W.pattern rows.old (16 * k + j) }
    ensures others { (i : ℕ) → (i % 64 < at) ⊎ (at + 4 ≤ i % 64) → pattern_at W.pattern items.new i ≡ pattern_at W.pattern items.old i }
{
    // Vectors of wider words take longer than single words do.
    if bits::<W>() <= 16 {
        store_turned(rows, items, at);
    } else {
        store_lanes(rows, items, at);
    }
}

/// Writes the items at the four rows from `r` on of the lanes of group `g` to their places, and returns the last row's.
#[inline(always)]
fn undelta_four<W: FastLanes>(
    deltas: &[W; FL_CHUNK_SIZE],
    bases: &[W],
    sums: Simd<W, 16>,
    r: usize,
    g: usize,
    items: &mut [W; FL_CHUNK_SIZE],
) -> Simd<W, 16>
    requires row { r + 4 ≤ W.T }
    requires group { 16 * g + 16 ≤ W.LANES }
    requires sums { (j : ℕ) → j < 16 → W.lane sums j ≡ summed_before W.T (pattern_at W.pattern bases.now) (pattern_at W.pattern deltas.now) r (16 * g + j) }
    ensures sums { (j : ℕ) → j < 16 → W.lane result j ≡ summed_before W.T (pattern_at W.pattern bases.now) (pattern_at W.pattern deltas.now) (r + 4) (16 * g + j) }
    ensures written { WritesRows W.T W.LANES item_place (summed_item W.T (pattern_at W.pattern bases.now) (pattern_at W.pattern deltas.now)) g r (r + 4) (pattern_at W.pattern items.old) (pattern_at W.pattern items.new) }
{
    let mut rows = [W::zero(); FOUR_ROWS];
    let sums = sum_four(deltas, bases, sums, r, g, &mut rows);
    store_rows(&mut rows, items, seg(16 * g) + r);
    sums
}

/// Writes the items of the lanes of group `g` to their places.
#[inline(always)]
fn undelta_group<W: FastLanes>(
    deltas: &[W; FL_CHUNK_SIZE],
    bases: &[W],
    g: usize,
    items: &mut [W; FL_CHUNK_SIZE],
)
    requires bases { length bases.now ≡ W.LANES }
    requires group { 16 * g + 16 ≤ W.LANES }
    ensures { WritesRows W.T W.LANES item_place (summed_item W.T (pattern_at W.pattern bases.now) (pattern_at W.pattern deltas.now)) g 0 W.T (pattern_at W.pattern items.old) (pattern_at W.pattern items.new) }
{
    let mut sums = bases_of(bases, g);
    for q in 0..bits::<W>() / 4 {
        sums = undelta_four(deltas, bases, sums, 4 * q, g, items);
    }
}

/// Writes the items of a block's deltas in their order: at each place of a lane's segment, its base plus the deltas of the
/// rows up to this one, modulo 2 to the number of bits. This is what `undelta` and then `untranspose` write.
pub fn undelta_to_items<W: FastLanes>(
    deltas: &[W; FL_CHUNK_SIZE],
    bases: &[W],
    items: &mut [W; FL_CHUNK_SIZE],
)
    requires { length bases.now ≡ W.LANES }
    ensures items { (i : ℕ) → i < 1024 → pattern_at W.pattern items.new i ≡ delta_item W.T (pattern_at W.pattern bases.now) (pattern_at W.pattern deltas.now) i }
    ensures whole { length items.new ≡ 1024 }
{
    for g in 0..lanes::<W>() / 16 {
        undelta_group(deltas, bases, g, items);
    }
    prove_whole_block(items);
}
