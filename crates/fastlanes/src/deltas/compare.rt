//! Comparing the items of a delta block, sixteen lanes at a time. The answers are in the order of the items at once, as each
//! lane has consecutive ones, and nothing is moved.
#![tactic(auto)]

ghost use Rattle.std.specs.Prelude.{◌≡◌, ℕ, ◌+◌, ◌*◌, ◌/◌, ◌%◌, ◌^◌, ◌<◌, ◌≤◌, length};
ghost use Rattle.fastlanes.specs.Layout.{segment, pattern_at, word_at};
ghost use Rattle.fastlanes.specs.Delta.{delta_item, summed_item};
ghost use Rattle.fastlanes.specs.Compared.{is_bit_set, has_bit, IsAnswer, Compares, Scans};

use crate::compare::{compare_lanes, no_answers, words_of_bytes};
use crate::deltas::{bases_of, sum_row};
use crate::layout::{FL_CHUNK_SIZE, seg};
use crate::proof_support::prove_bytes_fit;
use crate::widths::{bits, lanes};
use crate::words::FastLanes;
use std::simd::Simd;

/// The sums and the answers of the lanes of group `g` with row `r`.
#[inline(always)]
fn scan_row<W: FastLanes, F: Fn(W, W) -> bool>(
    deltas: &[W; FL_CHUNK_SIZE],
    bases: &[W],
    cmp: &F,
    rhs: W,
    r: usize,
    g: usize,
    before: (Simd<W, 16>, Simd<W, 16>),
) -> (Simd<W, 16>, Simd<W, 16>)
    requires row { r < W.T }
    requires group { 16 * g + 16 ≤ W.LANES }
    requires callable { F.IsAlwaysCallable cmp.now }
    requires before { Scans W.T W.pattern (F.post cmp.now) rhs (pattern_at W.pattern bases.now) (pattern_at W.pattern deltas.now) g r (W.lane before.0) (W.lane before.1) }
    ensures { Scans W.T W.pattern (F.post cmp.now) rhs (pattern_at W.pattern bases.now) (pattern_at W.pattern deltas.now) g (r + 1) (W.lane result.0) (W.lane result.1) }
{
    let sums = sum_row(deltas, bases, before.0, r, g);
    (sums, W::or(before.1, compare_lanes(sums, cmp, rhs, r)))
}

/// The sums and the answers of the lanes of group `g` with the eight rows from `r` on.
#[inline(always)]
fn scan_8<W: FastLanes, F: Fn(W, W) -> bool>(
    deltas: &[W; FL_CHUNK_SIZE],
    bases: &[W],
    cmp: &F,
    rhs: W,
    r: usize,
    g: usize,
    before: (Simd<W, 16>, Simd<W, 16>),
) -> (Simd<W, 16>, Simd<W, 16>)
    requires row { r + 8 ≤ W.T }
    requires group { 16 * g + 16 ≤ W.LANES }
    requires callable { F.IsAlwaysCallable cmp.now }
    requires before { Scans W.T W.pattern (F.post cmp.now) rhs (pattern_at W.pattern bases.now) (pattern_at W.pattern deltas.now) g r (W.lane before.0) (W.lane before.1) }
    ensures { Scans W.T W.pattern (F.post cmp.now) rhs (pattern_at W.pattern bases.now) (pattern_at W.pattern deltas.now) g (r + 8) (W.lane result.0) (W.lane result.1) }
{
    let scan = scan_row(deltas, bases, cmp, rhs, r, g, before);
    let scan = scan_row(deltas, bases, cmp, rhs, r + 1, g, scan);
    let scan = scan_row(deltas, bases, cmp, rhs, r + 2, g, scan);
    let scan = scan_row(deltas, bases, cmp, rhs, r + 3, g, scan);
    let scan = scan_row(deltas, bases, cmp, rhs, r + 4, g, scan);
    let scan = scan_row(deltas, bases, cmp, rhs, r + 5, g, scan);
    let scan = scan_row(deltas, bases, cmp, rhs, r + 6, g, scan);
    scan_row(deltas, bases, cmp, rhs, r + 7, g, scan)
}

/// The answers for all rows of the lanes of group `g`.
#[inline(always)]
#[tactic(auto, using(crate::proofs::RowWrites::whole_eights))]
fn scan_group<W: FastLanes, F: Fn(W, W) -> bool>(
    deltas: &[W; FL_CHUNK_SIZE],
    bases: &[W],
    cmp: &F,
    rhs: W,
    g: usize,
) -> Simd<W, 16>
    requires bases { length bases.now ≡ W.LANES }
    requires group { 16 * g + 16 ≤ W.LANES }
    requires callable { F.IsAlwaysCallable cmp.now }
    ensures { Compares W.pattern (F.post cmp.now) rhs (summed_item W.T (pattern_at W.pattern bases.now) (pattern_at W.pattern deltas.now)) g W.T (W.lane result) }
{
    let mut scan = (bases_of(bases, g), no_answers::<W>());
    for q in 0..bits::<W>() / 8 {
        scan = scan_8(deltas, bases, cmp, rhs, 8 * q, g, scan);
    }
    scan.1
}

/// Which word of T bits has the answers for the segment of lane `l`.
#[inline(always)]
fn word_of_segment<W: FastLanes>(l: usize) -> usize
    requires { l < W.LANES }
    ensures word { result ≡ segment l / W.T }
    ensures room { (result + 1) * (W.T / 8) ≤ 128 }
{
    seg(l) / bits::<W>()
}

/// Writes the answers for the lanes of group `g` as the words of their segments, the low byte first.
#[inline(always)]
fn write_segments<W: FastLanes>(answers: Simd<W, 16>, g: usize, bytes: &mut [u8; 128])
    requires group { 16 * g + 16 ≤ W.LANES }
    ensures put { (j : ℕ) → j < 16 → word_at W.T bytes.new (segment (16 * g + j) / W.T) ≡ W.lane answers j }
    ensures others { (l : ℕ) → l < 16 * g → word_at W.T bytes.new (segment l / W.T) ≡ word_at W.T bytes.old (segment l / W.T) }
{
    let words = W::to_words(answers);
    for j in 0..16usize {
        words[j].put_word(bytes, word_of_segment::<W>(16 * g + j));
    }
}

/// Sets bit `r` of the word of lane `l`'s segment where `cmp` holds of the item at row `r` of lane `l` and `rhs`.
fn scan_groups<W: FastLanes, F: Fn(W, W) -> bool>(
    deltas: &[W; FL_CHUNK_SIZE],
    bases: &[W],
    cmp: &F,
    rhs: W,
    bytes: &mut [u8; 128],
)
    requires bases { length bases.now ≡ W.LANES }
    requires callable { F.IsAlwaysCallable cmp.now }
    ensures { (r l : ℕ) → r < W.T → l < W.LANES → IsAnswer W.pattern (F.post cmp.now) rhs (summed_item W.T (pattern_at W.pattern bases.now) (pattern_at W.pattern deltas.now) r l) (is_bit_set (word_at W.T bytes.new (segment l / W.T)) r) }
{
    for g in 0..lanes::<W>() / 16 {
        write_segments::<W>(scan_group(deltas, bases, cmp, rhs, g), g, bytes);
    }
}

/// Compares each item of a delta block with `rhs`: bit `i` of the output is the answer of `cmp` for item `i` of the block.
pub fn undelta_cmp<W: FastLanes, F: Fn(W, W) -> bool + Drop>(
    deltas: &[W; FL_CHUNK_SIZE],
    bases: &[W],
    bits: &mut [u64; 16],
    cmp: F,
    rhs: W,
)
    requires bases { length bases.now ≡ W.LANES }
    requires callable { F.IsAlwaysCallable cmp }
    ensures bits { (i : ℕ) → i < 1024 → IsAnswer W.pattern (F.post cmp) rhs (delta_item W.T (pattern_at W.pattern bases.now) (pattern_at W.pattern deltas.now) i) (has_bit bits.new i) }
    ensures whole { length bits.new ≡ 16 }
{
    let mut bytes = [0u8; 128];
    scan_groups(deltas, bases, &cmp, rhs, &mut bytes);
    prove_bytes_fit(&bytes);
    words_of_bytes(&bytes, bits);
}
