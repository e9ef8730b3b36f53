//! Packing a block, sixteen lanes at a time.
#![tactic(auto)]

ghost use Rattle.std.specs.Prelude.{◌≡◌, ℕ, ◌+◌, ◌-◌, ◌*◌, ◌/◌, ◌%◌, ◌^◌, ◌<◌, ◌≤◌, length};
ghost use Rattle.fastlanes.specs.Layout.{place, Packed, pattern_at, word_at};
ghost use Rattle.fastlanes.specs.Rows.{WritesRows, IsGroup, packed_word, word_index, begun_word};

use crate::layout::{FL_CHUNK_SIZE, pos};
use crate::storage::{AsBytes, AsWords, Storage};
use crate::widths::{at_eight, bits, group_start, lanes, row_start};
use crate::words::FastLanes;
use std::simd::Simd;

/// Adds the items at row `r` of the lanes of group `g` to the words in progress, writes those that are complete, and returns the words in progress.
#[inline(always)]
fn pack_row<W: FastLanes, S: Storage<W>>(
    width: usize,
    items: &[W; FL_CHUNK_SIZE],
    r: usize,
    g: usize,
    begun: Simd<W, 16>,
    packed: &mut [S::Unit],
) -> Simd<W, 16>
    requires some { 0 < width }
    requires row { r < W.T }
    requires group { IsGroup W.T W.LANES width (S.count (length packed.old)) g }
    requires begun { (j : ℕ) → j < 16 → W.lane begun j ≡ begun_word W.T width (pattern_at W.pattern items.now) (r * width) (16 * g + j) }
    ensures begun { (j : ℕ) → j < 16 → W.lane result j ≡ begun_word W.T width (pattern_at W.pattern items.now) ((r + 1) * width) (16 * g + j) }
    ensures words { WritesRows width W.LANES (word_index W.LANES) (packed_word W.T width (pattern_at W.pattern items.now)) g (r * width / W.T) ((r + 1) * width / W.T) (S.word packed.old) (S.word packed.new) }
{
    let (k, shift) = row_start::<W>(width, r);
    let t = bits::<W>();
    let row = W::and(W::load(items, pos(r, 16 * g)), W::low_mask(width));
    let both = W::or(begun, W::shift_left(row, shift));
    if shift + width < t {
        return both;
    }
    S::store(both, packed, group_start::<W>(width, k, g));
    if shift + width == t {
        W::splat(W::zero())
    } else {
        W::shift_right(row, t - shift)
    }
}

/// Adds the items at the four rows from `r` on to the words in progress.
#[inline(always)]
fn pack_4<W: FastLanes, S: Storage<W>>(
    width: usize,
    items: &[W; FL_CHUNK_SIZE],
    r: usize,
    g: usize,
    begun: Simd<W, 16>,
    packed: &mut [S::Unit],
) -> Simd<W, 16>
    requires some { 0 < width }
    requires row { r + 4 ≤ W.T }
    requires group { IsGroup W.T W.LANES width (S.count (length packed.old)) g }
    requires begun { (j : ℕ) → j < 16 → W.lane begun j ≡ begun_word W.T width (pattern_at W.pattern items.now) (r * width) (16 * g + j) }
    ensures begun { (j : ℕ) → j < 16 → W.lane result j ≡ begun_word W.T width (pattern_at W.pattern items.now) ((r + 4) * width) (16 * g + j) }
    ensures words { WritesRows width W.LANES (word_index W.LANES) (packed_word W.T width (pattern_at W.pattern items.now)) g (r * width / W.T) ((r + 4) * width / W.T) (S.word packed.old) (S.word packed.new) }
{
    let begun = pack_row::<W, S>(width, items, r, g, begun, packed);
    let begun = pack_row::<W, S>(width, items, r + 1, g, begun, packed);
    let begun = pack_row::<W, S>(width, items, r + 2, g, begun, packed);
    pack_row::<W, S>(width, items, r + 3, g, begun, packed)
}

/// Adds the items at the eight rows from `r` on to the words in progress.
#[inline(always)]
fn pack_8<W: FastLanes, S: Storage<W>>(
    width: usize,
    items: &[W; FL_CHUNK_SIZE],
    r: usize,
    g: usize,
    begun: Simd<W, 16>,
    packed: &mut [S::Unit],
) -> Simd<W, 16>
    requires some { 0 < width }
    requires row { r + 8 ≤ W.T }
    requires group { IsGroup W.T W.LANES width (S.count (length packed.old)) g }
    requires begun { (j : ℕ) → j < 16 → W.lane begun j ≡ begun_word W.T width (pattern_at W.pattern items.now) (r * width) (16 * g + j) }
    ensures begun { (j : ℕ) → j < 16 → W.lane result j ≡ begun_word W.T width (pattern_at W.pattern items.now) ((r + 8) * width) (16 * g + j) }
    ensures words { WritesRows width W.LANES (word_index W.LANES) (packed_word W.T width (pattern_at W.pattern items.now)) g (r * width / W.T) ((r + 8) * width / W.T) (S.word packed.old) (S.word packed.new) }
{
    let begun = pack_4::<W, S>(width, items, r, g, begun, packed);
    pack_4::<W, S>(width, items, r + 4, g, begun, packed)
}

/// Adds the items at the sixteen rows from `FROM` on to the words in progress.
fn pack_16<
    W: FastLanes,
    S: Storage<W>,
    const WIDTH_BASE: usize,
    const WIDTH_STEP: usize,
    const FROM: usize,
>(
    width: usize,
    items: &[W; FL_CHUNK_SIZE],
    g: usize,
    begun: Simd<W, 16>,
    packed: &mut [S::Unit],
) -> Simd<W, 16>
    requires some { 0 < width }
    requires row { FROM + 16 ≤ W.T }
    requires group { IsGroup W.T W.LANES width (S.count (length packed.old)) g }
    requires begun { (j : ℕ) → j < 16 → W.lane begun j ≡ begun_word W.T width (pattern_at W.pattern items.now) (FROM * width) (16 * g + j) }
    ensures begun { (j : ℕ) → j < 16 → W.lane result j ≡ begun_word W.T width (pattern_at W.pattern items.now) ((FROM + 16) * width) (16 * g + j) }
    ensures words { WritesRows width W.LANES (word_index W.LANES) (packed_word W.T width (pattern_at W.pattern items.now)) g (FROM * width / W.T) ((FROM + 16) * width / W.T) (S.word packed.old) (S.word packed.new) }
{
    let begun = pack_8::<W, S>(width, items, FROM, g, begun, packed);
    pack_8::<W, S>(width, items, FROM + 8, g, begun, packed)
}

/// Adds the items at the 32 rows to the words in progress.
fn pack_32<W: FastLanes, S: Storage<W>, const WIDTH_BASE: usize, const WIDTH_STEP: usize>(
    width: usize,
    items: &[W; FL_CHUNK_SIZE],
    g: usize,
    begun: Simd<W, 16>,
    packed: &mut [S::Unit],
) -> Simd<W, 16>
    requires some { 0 < width }
    requires row { 32 ≤ W.T }
    requires group { IsGroup W.T W.LANES width (S.count (length packed.old)) g }
    requires begun { (j : ℕ) → j < 16 → W.lane begun j ≡ begun_word W.T width (pattern_at W.pattern items.now) (0 * width) (16 * g + j) }
    ensures begun { (j : ℕ) → j < 16 → W.lane result j ≡ begun_word W.T width (pattern_at W.pattern items.now) (32 * width) (16 * g + j) }
    ensures words { WritesRows width W.LANES (word_index W.LANES) (packed_word W.T width (pattern_at W.pattern items.now)) g (0 * width / W.T) (32 * width / W.T) (S.word packed.old) (S.word packed.new) }
{
    let begun = pack_16::<W, S, WIDTH_BASE, WIDTH_STEP, 0>(width, items, g, begun, packed);
    pack_16::<W, S, WIDTH_BASE, WIDTH_STEP, 16>(width, items, g, begun, packed)
}

/// Adds the items at the 64 rows to the words in progress.
fn pack_64<W: FastLanes, S: Storage<W>, const WIDTH_BASE: usize, const WIDTH_STEP: usize>(
    width: usize,
    items: &[W; FL_CHUNK_SIZE],
    g: usize,
    begun: Simd<W, 16>,
    packed: &mut [S::Unit],
) -> Simd<W, 16>
    requires some { 0 < width }
    requires row { 64 ≤ W.T }
    requires group { IsGroup W.T W.LANES width (S.count (length packed.old)) g }
    requires begun { (j : ℕ) → j < 16 → W.lane begun j ≡ begun_word W.T width (pattern_at W.pattern items.now) (0 * width) (16 * g + j) }
    ensures begun { (j : ℕ) → j < 16 → W.lane result j ≡ begun_word W.T width (pattern_at W.pattern items.now) (64 * width) (16 * g + j) }
    ensures words { WritesRows width W.LANES (word_index W.LANES) (packed_word W.T width (pattern_at W.pattern items.now)) g (0 * width / W.T) (64 * width / W.T) (S.word packed.old) (S.word packed.new) }
{
    let begun = pack_16::<W, S, WIDTH_BASE, WIDTH_STEP, 0>(width, items, g, begun, packed);
    let begun = pack_16::<W, S, WIDTH_BASE, WIDTH_STEP, 16>(width, items, g, begun, packed);
    let begun = pack_16::<W, S, WIDTH_BASE, WIDTH_STEP, 32>(width, items, g, begun, packed);
    pack_16::<W, S, WIDTH_BASE, WIDTH_STEP, 48>(width, items, g, begun, packed)
}

/// The words in progress before row 0: they have no bits yet.
#[inline(always)]
fn nothing_begun<W: FastLanes>(width: usize, items: &[W; FL_CHUNK_SIZE], g: usize) -> Simd<W, 16>
    ensures begun { (j : ℕ) → j < 16 → W.lane result j ≡ begun_word W.T width (pattern_at W.pattern items.now) (0 * width) (16 * g + j) }
{
    W::splat(W::zero())
}

/// Packs the items of the lanes of group `g`.
#[inline(always)]
#[tactic(auto, using(crate::proofs::RowWrites::has_64_rows))]
fn pack_group<W: FastLanes, S: Storage<W>, const WIDTH_BASE: usize, const WIDTH_STEP: usize>(
    width: usize,
    items: &[W; FL_CHUNK_SIZE],
    g: usize,
    packed: &mut [S::Unit],
)
    requires some { 0 < width }
    requires group { IsGroup W.T W.LANES width (S.count (length packed.old)) g }
    ensures words { WritesRows width W.LANES (word_index W.LANES) (packed_word W.T width (pattern_at W.pattern items.now)) g 0 width (S.word packed.old) (S.word packed.new) }
{
    let begun = nothing_begun(width, items, g);
    let t = bits::<W>();
    if t == 8 {
        pack_8::<W, S>(width, items, 0, g, begun, packed);
    } else if t == 16 {
        pack_16::<W, S, WIDTH_BASE, WIDTH_STEP, 0>(width, items, g, begun, packed);
    } else if t == 32 {
        pack_32::<W, S, WIDTH_BASE, WIDTH_STEP>(width, items, g, begun, packed);
    } else {
        pack_64::<W, S, WIDTH_BASE, WIDTH_STEP>(width, items, g, begun, packed);
    }
}

/// Packs at the width of a byte, where each item is a word.
#[inline(always)]
fn copy_items<W: FastLanes, S: Storage<W>>(items: &[W; FL_CHUNK_SIZE], packed: &mut [S::Unit])
    requires { S.count (length packed.old) ≡ 1024 }
    ensures { (i : ℕ) → i < 1024 → S.word packed.new i ≡ pattern_at W.pattern items.now i }
{
    for m in 0..64usize {
        S::store(W::load(items, 16 * m), packed, 16 * m);
    }
}

/// Packs the low `width` bits of the items of a block.
///
/// `WIDTH_BASE` and `WIDTH_STEP` give each width a function of its own, in which the compiler knows it.
fn pack_groups<W: FastLanes, S: Storage<W>, const WIDTH_BASE: usize, const WIDTH_STEP: usize>(
    width: usize,
    items: &[W; FL_CHUNK_SIZE],
    packed: &mut [S::Unit],
)
    requires width { width ≤ W.T }
    requires room { S.count (length packed.old) ≡ width * W.LANES }
    ensures { Packed W.T W.LANES width (pattern_at W.pattern items.now) (S.word packed.new) }
{
    if width == 0 {
        return;
    }
    if width == 8 && bits::<W>() == 8 {
        copy_items::<W, S>(items, packed);
        return;
    }
    for g in 0..lanes::<W>() / 16 {
        pack_group::<W, S, WIDTH_BASE, WIDTH_STEP>(width, items, g, packed);
    }
}

/// Packs at a width that is a constant: `WIDTH_BASE` bits and `WIDTH_STEP`.
#[inline(never)]
fn pack_at<W: FastLanes, S: Storage<W>, const WIDTH_BASE: usize, const WIDTH_STEP: usize>(
    items: &[W; FL_CHUNK_SIZE],
    packed: &mut [S::Unit],
)
    requires width { WIDTH_BASE + WIDTH_STEP ≤ W.T }
    requires room { S.count (length packed.old) ≡ (WIDTH_BASE + WIDTH_STEP) * W.LANES }
    ensures { Packed W.T W.LANES (WIDTH_BASE + WIDTH_STEP) (pattern_at W.pattern items.now) (S.word packed.new) }
{
    pack_groups::<W, S, WIDTH_BASE, WIDTH_STEP>(WIDTH_BASE + WIDTH_STEP, items, packed);
}

/// Packs at one of the eight widths from `WIDTH_BASE` on.
fn pack_eight<W: FastLanes, S: Storage<W>, const WIDTH_BASE: usize>(
    width: usize,
    items: &[W; FL_CHUNK_SIZE],
    packed: &mut [S::Unit],
)
    requires first { WIDTH_BASE ≤ width }
    requires below { width < WIDTH_BASE + 8 }
    requires width { width ≤ W.T }
    requires room { S.count (length packed.old) ≡ width * W.LANES }
    ensures { Packed W.T W.LANES width (pattern_at W.pattern items.now) (S.word packed.new) }
{
    at_eight!(
        width - WIDTH_BASE,
        pack_at,
        [W, S, WIDTH_BASE],
        (items, packed)
    )
}

/// Packs at a width below 32 bits.
fn pack_below_32<W: FastLanes, S: Storage<W>>(
    width: usize,
    items: &[W; FL_CHUNK_SIZE],
    packed: &mut [S::Unit],
)
    requires below { width < 32 }
    requires width { width < W.T }
    requires room { S.count (length packed.old) ≡ width * W.LANES }
    ensures { Packed W.T W.LANES width (pattern_at W.pattern items.now) (S.word packed.new) }
{
    let t = bits::<W>();
    if t == 8 || width < 8 {
        pack_eight::<W, S, 0>(width, items, packed);
    } else if t == 16 || width < 16 {
        pack_eight::<W, S, 8>(width, items, packed);
    } else if width < 24 {
        pack_eight::<W, S, 16>(width, items, packed);
    } else {
        pack_eight::<W, S, 24>(width, items, packed);
    }
}

/// Packs at a width of 32 to 63 bits.
fn pack_from_32<W: FastLanes, S: Storage<W>>(
    width: usize,
    items: &[W; FL_CHUNK_SIZE],
    packed: &mut [S::Unit],
)
    requires from { 32 ≤ width }
    requires below { width < 64 }
    requires width { width < W.T }
    requires room { S.count (length packed.old) ≡ width * W.LANES }
    ensures { Packed W.T W.LANES width (pattern_at W.pattern items.now) (S.word packed.new) }
{
    if width < 40 {
        pack_eight::<W, S, 32>(width, items, packed);
    } else if width < 48 {
        pack_eight::<W, S, 40>(width, items, packed);
    } else if width < 56 {
        pack_eight::<W, S, 48>(width, items, packed);
    } else {
        pack_eight::<W, S, 56>(width, items, packed);
    }
}

/// Packs at the width of a whole word.
#[inline(never)]
fn pack_whole<W: FastLanes, S: Storage<W>>(items: &[W; FL_CHUNK_SIZE], packed: &mut [S::Unit])
    requires room { S.count (length packed.old) ≡ W.T * W.LANES }
    ensures { Packed W.T W.LANES W.T (pattern_at W.pattern items.now) (S.word packed.new) }
{
    pack_groups::<W, S, 64, 0>(bits::<W>(), items, packed);
}

/// Packs the low `width` bits of the items of a block at any width.
fn pack_block<W: FastLanes, S: Storage<W>>(
    width: usize,
    items: &[W; FL_CHUNK_SIZE],
    packed: &mut [S::Unit],
)
    requires width { width ≤ W.T }
    requires room { S.count (length packed.old) ≡ width * W.LANES }
    ensures { Packed W.T W.LANES width (pattern_at W.pattern items.now) (S.word packed.new) }
{
    let t = bits::<W>();
    if width == t {
        pack_whole::<W, S>(items, packed);
    } else if t <= 32 || width < 32 {
        pack_below_32::<W, S>(width, items, packed);
    } else {
        pack_from_32::<W, S>(width, items, packed);
    }
}

/// Packs the low `width` bits of the items of a block into its `width * LANES` words.
///
/// Bit `b` of the item at row `r` of lane `l` becomes bit `r * width + b` of the lane's stream.
pub fn pack<W: FastLanes>(width: usize, items: &[W; FL_CHUNK_SIZE], packed: &mut [W])
    requires width { width ≤ W.T }
    requires room { length packed.old ≡ width * W.LANES }
    ensures { Packed W.T W.LANES width (pattern_at W.pattern items.now) (pattern_at W.pattern packed.new) }
{
    pack_block::<W, AsWords>(width, items, packed);
}

/// Packs the low `width` bits of the items of a block into its `128 * width` bytes.
///
/// The bytes are those of the block's words, the low byte of each first.
pub fn pack_bytes<W: FastLanes>(width: usize, items: &[W; FL_CHUNK_SIZE], bytes: &mut [u8])
    requires width { width ≤ W.T }
    requires room { length bytes.old ≡ 128 * width }
    ensures { Packed W.T W.LANES width (pattern_at W.pattern items.now) (word_at W.T bytes.new) }
{
    pack_block::<W, AsBytes>(width, items, bytes);
}
