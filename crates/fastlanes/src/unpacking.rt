//! Unpacking a block, sixteen lanes at a time.
#![tactic(auto)]

ghost use Rattle.std.specs.Prelude.{◌≡◌, ℕ, ◌+◌, ◌*◌, ◌/◌, ◌%◌, ◌^◌, ◌<◌, ◌≤◌, Bool, true, false, min, length};
ghost use Rattle.fastlanes.specs.Layout.{place, pattern_at, unpacked_item, word_at};
ghost use Rattle.fastlanes.specs.Rows.{WritesRows, IsGroup, IsReference, item_of_row, item_with_reference};

use crate::counts::Work;
use crate::laws::word_is_in_range;
use crate::layout::{FL_CHUNK_SIZE, pos};
use crate::proof_support::prove_whole_block;
use crate::storage::{AsBytes, AsWords, Storage};
use crate::widths::{at_eight, bits, group_start, lanes, row_start};
use crate::words::FastLanes;
use std::simd::Simd;

/// The items at row `r` of the lanes of group `g`.
#[inline(always)]
pub(crate) fn items_of_row<W: FastLanes, S: Storage<W>>(
    width: usize,
    words: &[S::Unit],
    r: usize,
    g: usize,
) -> Simd<W, 16>
    requires row { r < W.T }
    requires group { IsGroup W.T W.LANES width (S.count (length words.now)) g }
    ensures items { (j : ℕ) → j < 16 → W.lane result j ≡ item_of_row W.T W.LANES width (S.word words.now) r (16 * g + j) }
{
    if width == 0 {
        return W::splat(W::zero());
    }
    let (k, shift) = row_start::<W>(width, r);
    let begun = W::shift_right(S::load(words, group_start::<W>(width, k, g)), shift);
    let t = bits::<W>();
    if shift + width <= t {
        W::and(begun, W::low_mask(width))
    } else {
        let rest = W::shift_left(S::load(words, group_start::<W>(width, k + 1, g)), t - shift);
        W::and(W::or(begun, rest), W::low_mask(width))
    }
}

/// Each lane of the row plus that of the reference, which is 0 where none is added.
#[inline(always)]
fn add_reference<W: FastLanes, const ADDS_REFERENCE: bool>(
    row: Simd<W, 16>,
    reference: Simd<W, 16>,
) -> Simd<W, 16>
    requires reference { IsReference ADDS_REFERENCE (W.lane reference) }
    requires small { (j : ℕ) → j < 16 → W.lane row j < 2 ^ W.T }
    ensures lanes { (j : ℕ) → j < 16 → W.lane result j ≡ (W.lane row j + W.lane reference j) % 2 ^ W.T }
{
    if ADDS_REFERENCE {
        W::add(row, reference)
    } else {
        row
    }
}

/// Writes the items at row `r` of the lanes of group `g`, plus the reference.
#[inline(always)]
fn unpack_row<W: FastLanes, S: Storage<W>, const ADDS_REFERENCE: bool>(
    width: usize,
    words: &[S::Unit],
    reference: Simd<W, 16>,
    r: usize,
    g: usize,
    items: &mut [W; FL_CHUNK_SIZE],
)
    requires reference { IsReference ADDS_REFERENCE (W.lane reference) }
    requires row { r < W.T }
    requires group { IsGroup W.T W.LANES width (S.count (length words.now)) g }
    ensures written { WritesRows W.T W.LANES place (item_with_reference W.T W.LANES width (S.word words.now) (W.lane reference)) g r (r + 1) (pattern_at W.pattern items.old) (pattern_at W.pattern items.new) }
{
    let row = add_reference::<W, ADDS_REFERENCE>(
        items_of_row::<W, S>(width, words, r, g),
        reference,
    );
    W::store(row, items, pos(r, 16 * g));
}

/// Writes the items at the eight rows from `r` on of the lanes of group `g`, plus the reference.
#[inline(always)]
fn unpack_8<W: FastLanes, S: Storage<W>, const ADDS_REFERENCE: bool>(
    width: usize,
    words: &[S::Unit],
    reference: Simd<W, 16>,
    r: usize,
    g: usize,
    items: &mut [W; FL_CHUNK_SIZE],
)
    requires reference { IsReference ADDS_REFERENCE (W.lane reference) }
    requires row { r + 8 ≤ W.T }
    requires group { IsGroup W.T W.LANES width (S.count (length words.now)) g }
    ensures written { WritesRows W.T W.LANES place (item_with_reference W.T W.LANES width (S.word words.now) (W.lane reference)) g r (r + 8) (pattern_at W.pattern items.old) (pattern_at W.pattern items.new) }
{
    unpack_row::<W, S, ADDS_REFERENCE>(width, words, reference, r, g, items);
    unpack_row::<W, S, ADDS_REFERENCE>(width, words, reference, r + 1, g, items);
    unpack_row::<W, S, ADDS_REFERENCE>(width, words, reference, r + 2, g, items);
    unpack_row::<W, S, ADDS_REFERENCE>(width, words, reference, r + 3, g, items);
    unpack_row::<W, S, ADDS_REFERENCE>(width, words, reference, r + 4, g, items);
    unpack_row::<W, S, ADDS_REFERENCE>(width, words, reference, r + 5, g, items);
    unpack_row::<W, S, ADDS_REFERENCE>(width, words, reference, r + 6, g, items);
    unpack_row::<W, S, ADDS_REFERENCE>(width, words, reference, r + 7, g, items);
}

/// Writes the items at the sixteen rows from `FROM` on of the lanes of group `g`, plus the reference.
fn unpack_16<
    W: FastLanes,
    S: Storage<W>,
    const ADDS_REFERENCE: bool,
    const WIDTH_BASE: usize,
    const WIDTH_STEP: usize,
    const FROM: usize,
>(width: usize, words: &[S::Unit], reference: Simd<W, 16>, g: usize, items: &mut [W; FL_CHUNK_SIZE])
    requires reference { IsReference ADDS_REFERENCE (W.lane reference) }
    requires row { FROM + 16 ≤ W.T }
    requires group { IsGroup W.T W.LANES width (S.count (length words.now)) g }
    ensures written { WritesRows W.T W.LANES place (item_with_reference W.T W.LANES width (S.word words.now) (W.lane reference)) g FROM (FROM + 16) (pattern_at W.pattern items.old) (pattern_at W.pattern items.new) }
{
    unpack_8::<W, S, ADDS_REFERENCE>(width, words, reference, FROM, g, items);
    unpack_8::<W, S, ADDS_REFERENCE>(width, words, reference, FROM + 8, g, items);
}

/// Writes the items at rows `16 * part` to `16 * part + 15` of the lanes of group `g`, plus the reference.
#[inline(always)]
#[tactic(auto, using(crate::proofs::RowWrites::has_four_parts))]
fn unpack_part<
    W: FastLanes,
    S: Storage<W>,
    const ADDS_REFERENCE: bool,
    const WIDTH_BASE: usize,
    const WIDTH_STEP: usize,
>(
    part: usize,
    width: usize,
    words: &[S::Unit],
    reference: Simd<W, 16>,
    g: usize,
    items: &mut [W; FL_CHUNK_SIZE],
)
    requires reference { IsReference ADDS_REFERENCE (W.lane reference) }
    requires rows { 16 * part + 16 ≤ W.T }
    requires group { IsGroup W.T W.LANES width (S.count (length words.now)) g }
    ensures written { WritesRows W.T W.LANES place (item_with_reference W.T W.LANES width (S.word words.now) (W.lane reference)) g (16 * part) (16 * (part + 1)) (pattern_at W.pattern items.old) (pattern_at W.pattern items.new) }
{
    match part {
        0 => unpack_16::<W, S, ADDS_REFERENCE, WIDTH_BASE, WIDTH_STEP, 0>(
            width, words, reference, g, items,
        ),
        1 => unpack_16::<W, S, ADDS_REFERENCE, WIDTH_BASE, WIDTH_STEP, 16>(
            width, words, reference, g, items,
        ),
        2 => unpack_16::<W, S, ADDS_REFERENCE, WIDTH_BASE, WIDTH_STEP, 32>(
            width, words, reference, g, items,
        ),
        _ => unpack_16::<W, S, ADDS_REFERENCE, WIDTH_BASE, WIDTH_STEP, 48>(
            width, words, reference, g, items,
        ),
    }
}

/// Writes the items at all rows of the lanes of group `g`, plus the reference.
///
/// The loop keeps sixteen rows apart from the next ones: the compiler takes longer for all of them in one piece.
#[inline(always)]
#[tactic(auto, using(crate::proofs::RowWrites::whole_parts))]
fn unpack_group<
    W: FastLanes,
    S: Storage<W>,
    const ADDS_REFERENCE: bool,
    const WIDTH_BASE: usize,
    const WIDTH_STEP: usize,
>(width: usize, words: &[S::Unit], reference: Simd<W, 16>, g: usize, items: &mut [W; FL_CHUNK_SIZE])
    requires reference { IsReference ADDS_REFERENCE (W.lane reference) }
    requires group { IsGroup W.T W.LANES width (S.count (length words.now)) g }
    ensures written { WritesRows W.T W.LANES place (item_with_reference W.T W.LANES width (S.word words.now) (W.lane reference)) g 0 W.T (pattern_at W.pattern items.old) (pattern_at W.pattern items.new) }
{
    if bits::<W>() == 8 {
        unpack_8::<W, S, ADDS_REFERENCE>(width, words, reference, 0, g, items);
        return;
    }
    for part in 0..bits::<W>() / 16 {
        unpack_part::<W, S, ADDS_REFERENCE, WIDTH_BASE, WIDTH_STEP>(
            part, width, words, reference, g, items,
        );
    }
}

/// A vector with the reference in each lane.
#[inline(always)]
fn splat_reference<W: FastLanes, const ADDS_REFERENCE: bool>(reference: W) -> Simd<W, 16>
    requires { ADDS_REFERENCE ≡ false → W.pattern reference ≡ 0 }
    ensures reference { IsReference ADDS_REFERENCE (W.lane result) }
    ensures lanes { (j : ℕ) → j < 16 → W.lane result j ≡ W.pattern reference }
{
    W::splat(reference)
}

/// Writes one word at every position of a block.
#[inline(always)]
#[tactic(auto, using(crate::proofs::Patterns::pattern_at_read))]
fn fill<W: FastLanes>(word: W, items: &mut [W; FL_CHUNK_SIZE])
    ensures items { (i : ℕ) → i < 1024 → pattern_at W.pattern items.new i ≡ W.pattern word }
    ensures whole { length items.new ≡ 1024 }
{
    for i in 0..FL_CHUNK_SIZE {
        items[i] = word;
    }
}

/// Unpacks at the width of a byte, where each word is an item.
#[inline(always)]
fn copy_words<W: FastLanes, S: Storage<W>>(words: &[S::Unit], items: &mut [W; FL_CHUNK_SIZE])
    requires { S.count (length words.now) ≡ 1024 }
    ensures items { (i : ℕ) → i < 1024 → pattern_at W.pattern items.new i ≡ S.word words.now i }
    ensures small { (i : ℕ) → i < 1024 → S.word words.now i < 2 ^ W.T }
    ensures whole { length items.new ≡ 1024 }
{
    for m in 0..64usize {
        W::store(S::load(words, 16 * m), items, 16 * m);
    }
}

/// Writes the items of a block, plus the reference.
///
/// `WIDTH_BASE` and `WIDTH_STEP` give each width a function of its own, in which the compiler knows it.
fn unpack_groups<
    W: FastLanes,
    S: Storage<W>,
    const ADDS_REFERENCE: bool,
    const WIDTH_BASE: usize,
    const WIDTH_STEP: usize,
>(width: usize, words: &[S::Unit], reference: W, items: &mut [W; FL_CHUNK_SIZE])
    requires width { width ≤ W.T }
    requires block { S.count (length words.now) ≡ width * W.LANES }
    requires reference { ADDS_REFERENCE ≡ false → W.pattern reference ≡ 0 }
    ensures items { (i : ℕ) → i < 1024 → pattern_at W.pattern items.new i ≡ (unpacked_item W.T W.LANES width (S.word words.now) i + W.pattern reference) % 2 ^ W.T }
{
    word_is_in_range(reference);
    if width == 0 {
        fill(reference, items);
        return;
    }
    if width == 8 && !ADDS_REFERENCE && bits::<W>() == 8 {
        copy_words::<W, S>(words, items);
        return;
    }
    let reference = splat_reference::<W, ADDS_REFERENCE>(reference);
    for g in 0..lanes::<W>() / 16 {
        unpack_group::<W, S, ADDS_REFERENCE, WIDTH_BASE, WIDTH_STEP>(
            width, words, reference, g, items,
        );
    }
}

/// Unpacks at a width that is a constant: `WIDTH_BASE` bits and `WIDTH_STEP`.
#[inline(never)]
fn unpack_at<
    W: FastLanes,
    S: Storage<W>,
    const ADDS_REFERENCE: bool,
    const WIDTH_BASE: usize,
    const WIDTH_STEP: usize,
>(words: &[S::Unit], reference: W, items: &mut [W; FL_CHUNK_SIZE])
    requires width { WIDTH_BASE + WIDTH_STEP ≤ W.T }
    requires block { S.count (length words.now) ≡ (WIDTH_BASE + WIDTH_STEP) * W.LANES }
    requires reference { ADDS_REFERENCE ≡ false → W.pattern reference ≡ 0 }
    ensures items { (i : ℕ) → i < 1024 → pattern_at W.pattern items.new i ≡ (unpacked_item W.T W.LANES (WIDTH_BASE + WIDTH_STEP) (S.word words.now) i + W.pattern reference) % 2 ^ W.T }
{
    unpack_groups::<W, S, ADDS_REFERENCE, WIDTH_BASE, WIDTH_STEP>(
        WIDTH_BASE + WIDTH_STEP,
        words,
        reference,
        items,
    );
}

/// Unpacks at one of the eight widths from `WIDTH_BASE` on.
fn unpack_eight<W: FastLanes, S: Storage<W>, const ADDS_REFERENCE: bool, const WIDTH_BASE: usize>(
    width: usize,
    words: &[S::Unit],
    reference: W,
    items: &mut [W; FL_CHUNK_SIZE],
)
    requires first { WIDTH_BASE ≤ width }
    requires below { width < WIDTH_BASE + 8 }
    requires width { width ≤ W.T }
    requires block { S.count (length words.now) ≡ width * W.LANES }
    requires reference { ADDS_REFERENCE ≡ false → W.pattern reference ≡ 0 }
    ensures items { (i : ℕ) → i < 1024 → pattern_at W.pattern items.new i ≡ (unpacked_item W.T W.LANES width (S.word words.now) i + W.pattern reference) % 2 ^ W.T }
{
    at_eight!(
        width - WIDTH_BASE,
        unpack_at,
        [W, S, ADDS_REFERENCE, WIDTH_BASE],
        (words, reference, items)
    )
}

/// Unpacks at a width below 32 bits.
fn unpack_below_32<W: FastLanes, S: Storage<W>, const ADDS_REFERENCE: bool>(
    width: usize,
    words: &[S::Unit],
    reference: W,
    items: &mut [W; FL_CHUNK_SIZE],
)
    requires below { width < 32 }
    requires width { width < W.T }
    requires block { S.count (length words.now) ≡ width * W.LANES }
    requires reference { ADDS_REFERENCE ≡ false → W.pattern reference ≡ 0 }
    ensures items { (i : ℕ) → i < 1024 → pattern_at W.pattern items.new i ≡ (unpacked_item W.T W.LANES width (S.word words.now) i + W.pattern reference) % 2 ^ W.T }
{
    let t = bits::<W>();
    if t == 8 || width < 8 {
        unpack_eight::<W, S, ADDS_REFERENCE, 0>(width, words, reference, items);
    } else if t == 16 || width < 16 {
        unpack_eight::<W, S, ADDS_REFERENCE, 8>(width, words, reference, items);
    } else if width < 24 {
        unpack_eight::<W, S, ADDS_REFERENCE, 16>(width, words, reference, items);
    } else {
        unpack_eight::<W, S, ADDS_REFERENCE, 24>(width, words, reference, items);
    }
}

/// Unpacks at a width of 32 to 63 bits.
fn unpack_from_32<W: FastLanes, S: Storage<W>, const ADDS_REFERENCE: bool>(
    width: usize,
    words: &[S::Unit],
    reference: W,
    items: &mut [W; FL_CHUNK_SIZE],
)
    requires from { 32 ≤ width }
    requires below { width < 64 }
    requires width { width < W.T }
    requires block { S.count (length words.now) ≡ width * W.LANES }
    requires reference { ADDS_REFERENCE ≡ false → W.pattern reference ≡ 0 }
    ensures items { (i : ℕ) → i < 1024 → pattern_at W.pattern items.new i ≡ (unpacked_item W.T W.LANES width (S.word words.now) i + W.pattern reference) % 2 ^ W.T }
{
    if width < 40 {
        unpack_eight::<W, S, ADDS_REFERENCE, 32>(width, words, reference, items);
    } else if width < 48 {
        unpack_eight::<W, S, ADDS_REFERENCE, 40>(width, words, reference, items);
    } else if width < 56 {
        unpack_eight::<W, S, ADDS_REFERENCE, 48>(width, words, reference, items);
    } else {
        unpack_eight::<W, S, ADDS_REFERENCE, 56>(width, words, reference, items);
    }
}

/// Unpacks at the width of a whole word.
#[inline(never)]
fn unpack_whole<W: FastLanes, S: Storage<W>, const ADDS_REFERENCE: bool>(
    words: &[S::Unit],
    reference: W,
    items: &mut [W; FL_CHUNK_SIZE],
)
    requires block { S.count (length words.now) ≡ W.T * W.LANES }
    requires reference { ADDS_REFERENCE ≡ false → W.pattern reference ≡ 0 }
    ensures items { (i : ℕ) → i < 1024 → pattern_at W.pattern items.new i ≡ (unpacked_item W.T W.LANES W.T (S.word words.now) i + W.pattern reference) % 2 ^ W.T }
{
    unpack_groups::<W, S, ADDS_REFERENCE, 64, 0>(bits::<W>(), words, reference, items);
}

/// Writes the items of a block at any width, plus the reference.
pub(crate) fn unpack_block<W: FastLanes, S: Storage<W>, const ADDS_REFERENCE: bool>(
    width: usize,
    words: &[S::Unit],
    reference: W,
    items: &mut [W; FL_CHUNK_SIZE],
)
    requires width { width ≤ W.T }
    requires block { S.count (length words.now) ≡ width * W.LANES }
    requires reference { ADDS_REFERENCE ≡ false → W.pattern reference ≡ 0 }
    ensures items { (i : ℕ) → i < 1024 → pattern_at W.pattern items.new i ≡ (unpacked_item W.T W.LANES width (S.word words.now) i + W.pattern reference) % 2 ^ W.T }
    ensures whole { length items.new ≡ 1024 }
{
    let t = bits::<W>();
    if width == t {
        unpack_whole::<W, S, ADDS_REFERENCE>(words, reference, items);
    } else if t <= 32 || width < 32 {
        unpack_below_32::<W, S, ADDS_REFERENCE>(width, words, reference, items);
    } else {
        unpack_from_32::<W, S, ADDS_REFERENCE>(width, words, reference, items);
    }
    prove_whole_block(items);
}

/// Unpacks a block: writes the item at each position, with its bits from `width` on 0.
pub fn unpack<W: FastLanes>(
    width: usize,
    words: &[W],
    items: &mut [W; FL_CHUNK_SIZE],
    work: &mut Work,
)
    requires width { width ≤ W.T }
    requires block { length words.now ≡ width * W.LANES }
    ensures items { (i : ℕ) → i < 1024 → pattern_at W.pattern items.new i ≡ unpacked_item W.T W.LANES width (pattern_at W.pattern words.now) i }
    ensures whole { length items.new ≡ 1024 }
    ensures blocks { work.new.blocks ≡ min (work.old.blocks + 1) u64.MAX }
    ensures words { work.new.words ≡ work.old.words }
{
    work.add_block();
    unpack_block::<W, AsWords, false>(width, words, W::zero(), items);
}

/// Unpacks a block and adds the reference to each item, modulo 2 to the number of bits.
pub fn unfor_pack<W: FastLanes>(
    width: usize,
    words: &[W],
    reference: W,
    items: &mut [W; FL_CHUNK_SIZE],
    work: &mut Work,
)
    requires width { width ≤ W.T }
    requires block { length words.now ≡ width * W.LANES }
    ensures items { (i : ℕ) → i < 1024 → pattern_at W.pattern items.new i ≡ (unpacked_item W.T W.LANES width (pattern_at W.pattern words.now) i + W.pattern reference) % 2 ^ W.T }
    ensures whole { length items.new ≡ 1024 }
    ensures blocks { work.new.blocks ≡ min (work.old.blocks + 1) u64.MAX }
    ensures words { work.new.words ≡ work.old.words }
{
    work.add_block();
    unpack_block::<W, AsWords, true>(width, words, reference, items);
}

/// Unpacks a block of bytes: writes the item at each position, with its bits from `width` on 0.
///
/// The bytes are those of the block's words, the low byte of each first.
pub fn unpack_bytes<W: FastLanes>(
    width: usize,
    bytes: &[u8],
    items: &mut [W; FL_CHUNK_SIZE],
    work: &mut Work,
)
    requires width { width ≤ W.T }
    requires block { length bytes.now ≡ 128 * width }
    ensures items { (i : ℕ) → i < 1024 → pattern_at W.pattern items.new i ≡ unpacked_item W.T W.LANES width (word_at W.T bytes.now) i }
    ensures whole { length items.new ≡ 1024 }
    ensures blocks { work.new.blocks ≡ min (work.old.blocks + 1) u64.MAX }
    ensures words { work.new.words ≡ work.old.words }
{
    work.add_block();
    unpack_block::<W, AsBytes, false>(width, bytes, W::zero(), items);
}

/// Unpacks a block of bytes and adds the reference to each item, modulo 2 to the number of bits.
///
/// The bytes are those of the block's words, the low byte of each first.
pub fn unfor_pack_bytes<W: FastLanes>(
    width: usize,
    bytes: &[u8],
    reference: W,
    items: &mut [W; FL_CHUNK_SIZE],
    work: &mut Work,
)
    requires width { width ≤ W.T }
    requires block { length bytes.now ≡ 128 * width }
    ensures items { (i : ℕ) → i < 1024 → pattern_at W.pattern items.new i ≡ (unpacked_item W.T W.LANES width (word_at W.T bytes.now) i + W.pattern reference) % 2 ^ W.T }
    ensures whole { length items.new ≡ 1024 }
    ensures blocks { work.new.blocks ≡ min (work.old.blocks + 1) u64.MAX }
    ensures words { work.new.words ≡ work.old.words }
{
    work.add_block();
    unpack_block::<W, AsBytes, true>(width, bytes, reference, items);
}
