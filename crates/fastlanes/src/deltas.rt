//! Differences along rows, and their sums, sixteen lanes at a time.
#![tactic(auto)]

pub mod compare;
pub mod items;

ghost use Rattle.std.specs.Prelude.{◌≡◌, ℕ, ◌+◌, ◌*◌, ◌/◌, ◌%◌, ◌^◌, ◌<◌, ◌≤◌, length};
ghost use Rattle.fastlanes.specs.Layout.{place, pattern_at};
ghost use Rattle.fastlanes.specs.Delta.{item_before, item_delta, summed_before, summed_item};
ghost use Rattle.fastlanes.specs.Rows.{WritesRows};

use crate::layout::{FL_CHUNK_SIZE, pos};
use crate::proof_support::prove_whole_block;
use crate::widths::{bits, lanes};
use crate::words::FastLanes;
use std::simd::Simd;

/// Writes the deltas at row `r` of the lanes of group `g`, and returns the row's items.
#[inline(always)]
#[tactic(auto, using(crate::proofs::RowBits::row_room))]
fn delta_row<W: FastLanes>(
    items: &[W; FL_CHUNK_SIZE],
    bases: &[W],
    before: Simd<W, 16>,
    r: usize,
    g: usize,
    deltas: &mut [W; FL_CHUNK_SIZE],
) -> Simd<W, 16>
    requires row { r < W.T }
    requires group { 16 * g + 16 ≤ W.LANES }
    requires before { (j : ℕ) → j < 16 → W.lane before j ≡ item_before (pattern_at W.pattern bases.now) (pattern_at W.pattern items.now) r (16 * g + j) }
    ensures before { (j : ℕ) → j < 16 → W.lane result j ≡ item_before (pattern_at W.pattern bases.now) (pattern_at W.pattern items.now) (r + 1) (16 * g + j) }
    ensures written { WritesRows W.T W.LANES place (item_delta W.T (pattern_at W.pattern bases.now) (pattern_at W.pattern items.now)) g r (r + 1) (pattern_at W.pattern deltas.old) (pattern_at W.pattern deltas.new) }
{
    let at = pos(r, 16 * g);
    let row = W::load(items, at);
    W::store(W::sub(row, before), deltas, at);
    row
}

/// Writes the deltas at the eight rows from `r` on of the lanes of group `g`, and returns the last row's items.
#[inline(always)]
fn delta_8<W: FastLanes>(
    items: &[W; FL_CHUNK_SIZE],
    bases: &[W],
    before: Simd<W, 16>,
    r: usize,
    g: usize,
    deltas: &mut [W; FL_CHUNK_SIZE],
) -> Simd<W, 16>
    requires row { r + 8 ≤ W.T }
    requires group { 16 * g + 16 ≤ W.LANES }
    requires before { (j : ℕ) → j < 16 → W.lane before j ≡ item_before (pattern_at W.pattern bases.now) (pattern_at W.pattern items.now) r (16 * g + j) }
    ensures before { (j : ℕ) → j < 16 → W.lane result j ≡ item_before (pattern_at W.pattern bases.now) (pattern_at W.pattern items.now) (r + 8) (16 * g + j) }
    ensures written { WritesRows W.T W.LANES place (item_delta W.T (pattern_at W.pattern bases.now) (pattern_at W.pattern items.now)) g r (r + 8) (pattern_at W.pattern deltas.old) (pattern_at W.pattern deltas.new) }
{
    let before = delta_row(items, bases, before, r, g, deltas);
    let before = delta_row(items, bases, before, r + 1, g, deltas);
    let before = delta_row(items, bases, before, r + 2, g, deltas);
    let before = delta_row(items, bases, before, r + 3, g, deltas);
    let before = delta_row(items, bases, before, r + 4, g, deltas);
    let before = delta_row(items, bases, before, r + 5, g, deltas);
    let before = delta_row(items, bases, before, r + 6, g, deltas);
    delta_row(items, bases, before, r + 7, g, deltas)
}

/// The bases of the lanes of group `g`.
#[inline(always)]
pub(crate) fn bases_of<W: FastLanes>(bases: &[W], g: usize) -> Simd<W, 16>
    requires bases { length bases.now ≡ W.LANES }
    requires group { 16 * g + 16 ≤ W.LANES }
    ensures lanes { (j : ℕ) → j < 16 → W.lane result j ≡ pattern_at W.pattern bases.now (16 * g + j) }
    ensures small { (j : ℕ) → j < 16 → W.lane result j < 2 ^ W.T }
{
    W::load(bases, 16 * g)
}

/// Writes the deltas of the lanes of group `g`.
#[inline(always)]
#[tactic(auto, using(crate::proofs::RowWrites::whole_eights))]
fn delta_group<W: FastLanes>(
    items: &[W; FL_CHUNK_SIZE],
    bases: &[W],
    g: usize,
    deltas: &mut [W; FL_CHUNK_SIZE],
)
    requires bases { length bases.now ≡ W.LANES }
    requires group { 16 * g + 16 ≤ W.LANES }
    ensures written { WritesRows W.T W.LANES place (item_delta W.T (pattern_at W.pattern bases.now) (pattern_at W.pattern items.now)) g 0 W.T (pattern_at W.pattern deltas.old) (pattern_at W.pattern deltas.new) }
{
    let mut before = bases_of(bases, g);
    for q in 0..bits::<W>() / 8 {
        before = delta_8(items, bases, before, 8 * q, g, deltas);
    }
}

/// Writes the deltas of a block's items: row 0 minus the bases, each further row minus the one before, modulo 2 to the number of bits.
pub fn delta<W: FastLanes>(items: &[W; FL_CHUNK_SIZE], bases: &[W], deltas: &mut [W; FL_CHUNK_SIZE])
    requires { length bases.now ≡ W.LANES }
    ensures deltas { (r l : ℕ) → r < W.T → l < W.LANES → pattern_at W.pattern deltas.new (place r l) ≡ item_delta W.T (pattern_at W.pattern bases.now) (pattern_at W.pattern items.now) r l }
    ensures whole { length deltas.new ≡ 1024 }
{
    for g in 0..lanes::<W>() / 16 {
        delta_group(items, bases, g, deltas);
    }
    prove_whole_block(deltas);
}

/// The sums of the lanes of group `g` with the deltas at row `r`.
#[inline(always)]
#[tactic(auto, using(crate::proofs::RowBits::row_room))]
pub(crate) fn sum_row<W: FastLanes>(
    deltas: &[W; FL_CHUNK_SIZE],
    bases: &[W],
    sums: Simd<W, 16>,
    r: usize,
    g: usize,
) -> Simd<W, 16>
    requires row { r < W.T }
    requires group { 16 * g + 16 ≤ W.LANES }
    requires sums { (j : ℕ) → j < 16 → W.lane sums j ≡ summed_before W.T (pattern_at W.pattern bases.now) (pattern_at W.pattern deltas.now) r (16 * g + j) }
    ensures { (j : ℕ) → j < 16 → W.lane result j ≡ summed_before W.T (pattern_at W.pattern bases.now) (pattern_at W.pattern deltas.now) (r + 1) (16 * g + j) }
{
    W::add(sums, W::load(deltas, pos(r, 16 * g)))
}

/// Adds the deltas at row `r` of the lanes of group `g` to the sums, writes the sums and returns them.
#[inline(always)]
fn undelta_row<W: FastLanes>(
    deltas: &[W; FL_CHUNK_SIZE],
    bases: &[W],
    sums: Simd<W, 16>,
    r: usize,
    g: usize,
    items: &mut [W; FL_CHUNK_SIZE],
) -> Simd<W, 16>
    requires row { r < W.T }
    requires group { 16 * g + 16 ≤ W.LANES }
    requires sums { (j : ℕ) → j < 16 → W.lane sums j ≡ summed_before W.T (pattern_at W.pattern bases.now) (pattern_at W.pattern deltas.now) r (16 * g + j) }
    ensures sums { (j : ℕ) → j < 16 → W.lane result j ≡ summed_before W.T (pattern_at W.pattern bases.now) (pattern_at W.pattern deltas.now) (r + 1) (16 * g + j) }
    ensures written { WritesRows W.T W.LANES place (summed_item W.T (pattern_at W.pattern bases.now) (pattern_at W.pattern deltas.now)) g r (r + 1) (pattern_at W.pattern items.old) (pattern_at W.pattern items.new) }
{
    let row = sum_row(deltas, bases, sums, r, g);
    W::store(row, items, pos(r, 16 * g));
    row
}

/// Writes the items at the eight rows from `r` on of the lanes of group `g`, and returns the last row's items.
#[inline(always)]
fn undelta_8<W: FastLanes>(
    deltas: &[W; FL_CHUNK_SIZE],
    bases: &[W],
    sums: Simd<W, 16>,
    r: usize,
    g: usize,
    items: &mut [W; FL_CHUNK_SIZE],
) -> Simd<W, 16>
    requires row { r + 8 ≤ W.T }
    requires group { 16 * g + 16 ≤ W.LANES }
    requires sums { (j : ℕ) → j < 16 → W.lane sums j ≡ summed_before W.T (pattern_at W.pattern bases.now) (pattern_at W.pattern deltas.now) r (16 * g + j) }
    ensures sums { (j : ℕ) → j < 16 → W.lane result j ≡ summed_before W.T (pattern_at W.pattern bases.now) (pattern_at W.pattern deltas.now) (r + 8) (16 * g + j) }
    ensures written { WritesRows W.T W.LANES place (summed_item W.T (pattern_at W.pattern bases.now) (pattern_at W.pattern deltas.now)) g r (r + 8) (pattern_at W.pattern items.old) (pattern_at W.pattern items.new) }
{
    let sums = undelta_row(deltas, bases, sums, r, g, items);
    let sums = undelta_row(deltas, bases, sums, r + 1, g, items);
    let sums = undelta_row(deltas, bases, sums, r + 2, g, items);
    let sums = undelta_row(deltas, bases, sums, r + 3, g, items);
    let sums = undelta_row(deltas, bases, sums, r + 4, g, items);
    let sums = undelta_row(deltas, bases, sums, r + 5, g, items);
    let sums = undelta_row(deltas, bases, sums, r + 6, g, items);
    undelta_row(deltas, bases, sums, r + 7, g, items)
}

/// Writes the items of the lanes of group `g`.
#[inline(always)]
#[tactic(auto, using(crate::proofs::RowWrites::whole_eights))]
fn undelta_group<W: FastLanes>(
    deltas: &[W; FL_CHUNK_SIZE],
    bases: &[W],
    g: usize,
    items: &mut [W; FL_CHUNK_SIZE],
)
    requires bases { length bases.now ≡ W.LANES }
    requires group { 16 * g + 16 ≤ W.LANES }
    ensures written { WritesRows W.T W.LANES place (summed_item W.T (pattern_at W.pattern bases.now) (pattern_at W.pattern deltas.now)) g 0 W.T (pattern_at W.pattern items.old) (pattern_at W.pattern items.new) }
{
    let mut sums = bases_of(bases, g);
    for q in 0..bits::<W>() / 8 {
        sums = undelta_8(deltas, bases, sums, 8 * q, g, items);
    }
}

/// Writes the items of a block's deltas: at each row of a lane, its base plus the deltas of the rows up to this one, modulo 2 to the number of bits.
pub fn undelta<W: FastLanes>(
    deltas: &[W; FL_CHUNK_SIZE],
    bases: &[W],
    items: &mut [W; FL_CHUNK_SIZE],
)
    requires { length bases.now ≡ W.LANES }
    ensures items { (r l : ℕ) → r < W.T → l < W.LANES → pattern_at W.pattern items.new (place r l) ≡ summed_item W.T (pattern_at W.pattern bases.now) (pattern_at W.pattern deltas.now) r l }
    ensures whole { length items.new ≡ 1024 }
{
    for g in 0..lanes::<W>() / 16 {
        undelta_group(deltas, bases, g, items);
    }
    prove_whole_block(items);
}
