//! Comparing the items of a packed block, sixteen lanes at a time.
#![tactic(auto)]

ghost use Rattle.std.specs.Prelude.{◌≡◌, ℕ, ◌+◌, ◌-◌, ◌*◌, ◌/◌, ◌%◌, ◌^◌, ◌<◌, ◌≤◌, min, length, slice_index};
ghost use Rattle.fastlanes.specs.Layout.{place, pattern_at, word_at, bit_value};
ghost use Rattle.fastlanes.specs.Rows.{IsGroup, item_of_row};
ghost use Rattle.fastlanes.specs.Compared.{is_bit_set, has_bit, IsAnswer, Compares};

use crate::counts::Work;
use crate::proof_support::prove_bytes_fit;
use crate::storage::{AsBytes, AsWords, Storage};
use crate::unpacking::items_of_row;
use crate::widths::{at_eight, bits, lanes};
use crate::words::FastLanes;
use std::simd::Simd;

/// Sixteen words in which bit `r` is set where `cmp` holds of the lane's item and `rhs`, and no other bit.
#[inline(always)]
#[tactic(auto, using(crate::proofs::ComparedBits::zero_below), unfolding(crate::specs::Compared::IsAnswer))]
pub(crate) fn compare_lanes<W: FastLanes, F: Fn(W, W) -> bool>(
    row: Simd<W, 16>,
    cmp: &F,
    rhs: W,
    r: usize,
) -> Simd<W, 16>
    requires row { r < W.T }
    requires callable { F.IsAlwaysCallable cmp.now }
    ensures one { (j : ℕ) → j < 16 → W.lane result j ≡ bit_value (is_bit_set (W.lane result j) r) * 2 ^ r }
    ensures set { (j : ℕ) → j < 16 → IsAnswer W.pattern (F.post cmp.now) rhs (W.lane row j) (is_bit_set (W.lane result j) r) }
{
    let mut words = W::to_words(row);
    for j in 0..16usize {
        words[j] = W::zero().with_bit(r, cmp(words[j], rhs));
    }
    W::load(&words, 0)
}

/// Adds the answers for row `r` of the lanes of group `g` to those for the rows below.
#[inline(always)]
fn compare_row<W: FastLanes, S: Storage<W>, F: Fn(W, W) -> bool>(
    width: usize,
    words: &[S::Unit],
    cmp: &F,
    rhs: W,
    r: usize,
    g: usize,
    answers: Simd<W, 16>,
) -> Simd<W, 16>
    requires row { r < W.T }
    requires group { IsGroup W.T W.LANES width (S.count (length words.now)) g }
    requires callable { F.IsAlwaysCallable cmp.now }
    requires answers { Compares W.pattern (F.post cmp.now) rhs (item_of_row W.T W.LANES width (S.word words.now)) g r (W.lane answers) }
    ensures answers { Compares W.pattern (F.post cmp.now) rhs (item_of_row W.T W.LANES width (S.word words.now)) g (r + 1) (W.lane result) }
{
    let row = items_of_row::<W, S>(width, words, r, g);
    W::or(answers, compare_lanes(row, cmp, rhs, r))
}

/// Adds the answers for the four rows from `r` on of the lanes of group `g` to those for the rows below.
#[inline(always)]
fn compare_4<W: FastLanes, S: Storage<W>, F: Fn(W, W) -> bool>(
    width: usize,
    words: &[S::Unit],
    cmp: &F,
    rhs: W,
    r: usize,
    g: usize,
    answers: Simd<W, 16>,
) -> Simd<W, 16>
    requires row { r + 4 ≤ W.T }
    requires group { IsGroup W.T W.LANES width (S.count (length words.now)) g }
    requires callable { F.IsAlwaysCallable cmp.now }
    requires answers { Compares W.pattern (F.post cmp.now) rhs (item_of_row W.T W.LANES width (S.word words.now)) g r (W.lane answers) }
    ensures answers { Compares W.pattern (F.post cmp.now) rhs (item_of_row W.T W.LANES width (S.word words.now)) g (r + 4) (W.lane result) }
{
    let answers = compare_row::<W, S, F>(width, words, cmp, rhs, r, g, answers);
    let answers = compare_row::<W, S, F>(width, words, cmp, rhs, r + 1, g, answers);
    let answers = compare_row::<W, S, F>(width, words, cmp, rhs, r + 2, g, answers);
    compare_row::<W, S, F>(width, words, cmp, rhs, r + 3, g, answers)
}

/// Adds the answers for the eight rows from `r` on of the lanes of group `g` to those for the rows below.
#[inline(always)]
fn compare_8<W: FastLanes, S: Storage<W>, F: Fn(W, W) -> bool>(
    width: usize,
    words: &[S::Unit],
    cmp: &F,
    rhs: W,
    r: usize,
    g: usize,
    answers: Simd<W, 16>,
) -> Simd<W, 16>
    requires row { r + 8 ≤ W.T }
    requires group { IsGroup W.T W.LANES width (S.count (length words.now)) g }
    requires callable { F.IsAlwaysCallable cmp.now }
    requires answers { Compares W.pattern (F.post cmp.now) rhs (item_of_row W.T W.LANES width (S.word words.now)) g r (W.lane answers) }
    ensures answers { Compares W.pattern (F.post cmp.now) rhs (item_of_row W.T W.LANES width (S.word words.now)) g (r + 8) (W.lane result) }
{
    let answers = compare_4::<W, S, F>(width, words, cmp, rhs, r, g, answers);
    compare_4::<W, S, F>(width, words, cmp, rhs, r + 4, g, answers)
}

/// Adds the answers for the sixteen rows from `FROM` on of the lanes of group `g` to those for the rows below.
fn compare_16<
    W: FastLanes,
    S: Storage<W>,
    F: Fn(W, W) -> bool,
    const WIDTH_BASE: usize,
    const WIDTH_STEP: usize,
    const FROM: usize,
>(width: usize, words: &[S::Unit], cmp: &F, rhs: W, g: usize, answers: Simd<W, 16>) -> Simd<W, 16>
    requires row { FROM + 16 ≤ W.T }
    requires group { IsGroup W.T W.LANES width (S.count (length words.now)) g }
    requires callable { F.IsAlwaysCallable cmp.now }
    requires answers { Compares W.pattern (F.post cmp.now) rhs (item_of_row W.T W.LANES width (S.word words.now)) g FROM (W.lane answers) }
    ensures answers { Compares W.pattern (F.post cmp.now) rhs (item_of_row W.T W.LANES width (S.word words.now)) g (FROM + 16) (W.lane result) }
{
    let answers = compare_8::<W, S, F>(width, words, cmp, rhs, FROM, g, answers);
    compare_8::<W, S, F>(width, words, cmp, rhs, FROM + 8, g, answers)
}

/// Adds the answers for rows `16 * part` to `16 * part + 15` of the lanes of group `g` to those for the rows below.
#[inline(always)]
#[tactic(auto, using(crate::proofs::RowWrites::has_four_parts))]
fn compare_part<
    W: FastLanes,
    S: Storage<W>,
    F: Fn(W, W) -> bool,
    const WIDTH_BASE: usize,
    const WIDTH_STEP: usize,
>(
    part: usize,
    width: usize,
    words: &[S::Unit],
    cmp: &F,
    rhs: W,
    g: usize,
    answers: Simd<W, 16>,
) -> Simd<W, 16>
    requires rows { 16 * part + 16 ≤ W.T }
    requires group { IsGroup W.T W.LANES width (S.count (length words.now)) g }
    requires callable { F.IsAlwaysCallable cmp.now }
    requires answers { Compares W.pattern (F.post cmp.now) rhs (item_of_row W.T W.LANES width (S.word words.now)) g (16 * part) (W.lane answers) }
    ensures answers { Compares W.pattern (F.post cmp.now) rhs (item_of_row W.T W.LANES width (S.word words.now)) g (16 * (part + 1)) (W.lane result) }
{
    match part {
        0 => compare_16::<W, S, F, WIDTH_BASE, WIDTH_STEP, 0>(width, words, cmp, rhs, g, answers),
        1 => compare_16::<W, S, F, WIDTH_BASE, WIDTH_STEP, 16>(width, words, cmp, rhs, g, answers),
        2 => compare_16::<W, S, F, WIDTH_BASE, WIDTH_STEP, 32>(width, words, cmp, rhs, g, answers),
        _ => compare_16::<W, S, F, WIDTH_BASE, WIDTH_STEP, 48>(width, words, cmp, rhs, g, answers),
    }
}

/// No answer yet.
#[inline(always)]
pub(crate) fn no_answers<W: FastLanes>() -> Simd<W, 16>
    ensures lanes { (j : ℕ) → j < 16 → W.lane result j ≡ 0 }
{
    W::splat(W::zero())
}

/// The answers for all rows of the lanes of group `g`.
///
/// The loop keeps sixteen rows apart from the next ones: the compiler takes longer for all of them in one piece.
#[inline(always)]
#[tactic(auto, using(crate::proofs::ComparedBits::answers_none))]
fn compare_group<
    W: FastLanes,
    S: Storage<W>,
    F: Fn(W, W) -> bool,
    const WIDTH_BASE: usize,
    const WIDTH_STEP: usize,
>(width: usize, words: &[S::Unit], cmp: &F, rhs: W, g: usize) -> Simd<W, 16>
    requires group { IsGroup W.T W.LANES width (S.count (length words.now)) g }
    requires callable { F.IsAlwaysCallable cmp.now }
    ensures answers { Compares W.pattern (F.post cmp.now) rhs (item_of_row W.T W.LANES width (S.word words.now)) g W.T (W.lane result) }
{
    let mut answers = no_answers::<W>();
    if bits::<W>() == 8 {
        return compare_8::<W, S, F>(width, words, cmp, rhs, 0, g, answers);
    }
    for part in 0..bits::<W>() / 16 {
        answers = compare_part::<W, S, F, WIDTH_BASE, WIDTH_STEP>(
            part, width, words, cmp, rhs, g, answers,
        );
    }
    answers
}

/// Writes the words of the lanes of group `g`, the low byte first.
#[inline(always)]
#[tactic(auto, using(crate::proofs::Patterns::pattern_at_read, crate::proofs::Streams::word_in_bytes))]
fn write_group<W: FastLanes>(answers: Simd<W, 16>, g: usize, bytes: &mut [u8; 128])
    requires group { 16 * g + 16 ≤ W.LANES }
    ensures put { (j : ℕ) → j < 16 → word_at W.T bytes.new (16 * g + j) ≡ W.lane answers j }
    ensures others { (k : ℕ) → k < 16 * g → word_at W.T bytes.new k ≡ word_at W.T bytes.old k }
{
    let words = W::to_words(answers);
    for j in 0..16usize {
        words[j].put_word(bytes, 16 * g + j);
    }
}

/// Sets bit `r` of word `l` of these bytes where `cmp` holds of the item at row `r` of lane `l` and `rhs`.
///
/// `WIDTH_BASE` and `WIDTH_STEP` give each width a function of its own, in which the compiler knows it.
fn compare_groups<
    W: FastLanes,
    S: Storage<W>,
    F: Fn(W, W) -> bool,
    const WIDTH_BASE: usize,
    const WIDTH_STEP: usize,
>(width: usize, words: &[S::Unit], cmp: &F, rhs: W, bytes: &mut [u8; 128])
    requires width { width ≤ W.T }
    requires block { S.count (length words.now) ≡ width * W.LANES }
    requires callable { F.IsAlwaysCallable cmp.now }
    ensures set { (r l : ℕ) → r < W.T → l < W.LANES → IsAnswer W.pattern (F.post cmp.now) rhs (item_of_row W.T W.LANES width (S.word words.now) r l) (is_bit_set (word_at W.T bytes.new l) r) }
{
    for g in 0..lanes::<W>() / 16 {
        write_group::<W>(
            compare_group::<W, S, F, WIDTH_BASE, WIDTH_STEP>(width, words, cmp, rhs, g),
            g,
            bytes,
        );
    }
}

/// Compares at a width that is a constant: `WIDTH_BASE` bits and `WIDTH_STEP`.
#[inline(never)]
fn compare_at<
    W: FastLanes,
    S: Storage<W>,
    F: Fn(W, W) -> bool,
    const WIDTH_BASE: usize,
    const WIDTH_STEP: usize,
>(words: &[S::Unit], cmp: &F, rhs: W, bytes: &mut [u8; 128])
    requires width { WIDTH_BASE + WIDTH_STEP ≤ W.T }
    requires block { S.count (length words.now) ≡ (WIDTH_BASE + WIDTH_STEP) * W.LANES }
    requires callable { F.IsAlwaysCallable cmp.now }
    ensures set { (r l : ℕ) → r < W.T → l < W.LANES → IsAnswer W.pattern (F.post cmp.now) rhs (item_of_row W.T W.LANES (WIDTH_BASE + WIDTH_STEP) (S.word words.now) r l) (is_bit_set (word_at W.T bytes.new l) r) }
{
    compare_groups::<W, S, F, WIDTH_BASE, WIDTH_STEP>(
        WIDTH_BASE + WIDTH_STEP,
        words,
        cmp,
        rhs,
        bytes,
    );
}

/// Compares at one of the eight widths from `WIDTH_BASE` on.
fn compare_eight<W: FastLanes, S: Storage<W>, F: Fn(W, W) -> bool, const WIDTH_BASE: usize>(
    width: usize,
    words: &[S::Unit],
    cmp: &F,
    rhs: W,
    bytes: &mut [u8; 128],
)
    requires first { WIDTH_BASE ≤ width }
    requires below { width < WIDTH_BASE + 8 }
    requires width { width ≤ W.T }
    requires block { S.count (length words.now) ≡ width * W.LANES }
    requires callable { F.IsAlwaysCallable cmp.now }
    ensures set { (r l : ℕ) → r < W.T → l < W.LANES → IsAnswer W.pattern (F.post cmp.now) rhs (item_of_row W.T W.LANES width (S.word words.now) r l) (is_bit_set (word_at W.T bytes.new l) r) }
{
    at_eight!(
        width - WIDTH_BASE,
        compare_at,
        [W, S, F, WIDTH_BASE],
        (words, cmp, rhs, bytes)
    )
}

/// Compares at a width below 32 bits.
fn compare_below_32<W: FastLanes, S: Storage<W>, F: Fn(W, W) -> bool>(
    width: usize,
    words: &[S::Unit],
    cmp: &F,
    rhs: W,
    bytes: &mut [u8; 128],
)
    requires below { width < 32 }
    requires width { width < W.T }
    requires block { S.count (length words.now) ≡ width * W.LANES }
    requires callable { F.IsAlwaysCallable cmp.now }
    ensures set { (r l : ℕ) → r < W.T → l < W.LANES → IsAnswer W.pattern (F.post cmp.now) rhs (item_of_row W.T W.LANES width (S.word words.now) r l) (is_bit_set (word_at W.T bytes.new l) r) }
{
    let t = bits::<W>();
    if t == 8 || width < 8 {
        compare_eight::<W, S, F, 0>(width, words, cmp, rhs, bytes);
    } else if t == 16 || width < 16 {
        compare_eight::<W, S, F, 8>(width, words, cmp, rhs, bytes);
    } else if width < 24 {
        compare_eight::<W, S, F, 16>(width, words, cmp, rhs, bytes);
    } else {
        compare_eight::<W, S, F, 24>(width, words, cmp, rhs, bytes);
    }
}

/// Compares at a width of 32 to 63 bits.
fn compare_from_32<W: FastLanes, S: Storage<W>, F: Fn(W, W) -> bool>(
    width: usize,
    words: &[S::Unit],
    cmp: &F,
    rhs: W,
    bytes: &mut [u8; 128],
)
    requires from { 32 ≤ width }
    requires below { width < 64 }
    requires width { width < W.T }
    requires block { S.count (length words.now) ≡ width * W.LANES }
    requires callable { F.IsAlwaysCallable cmp.now }
    ensures set { (r l : ℕ) → r < W.T → l < W.LANES → IsAnswer W.pattern (F.post cmp.now) rhs (item_of_row W.T W.LANES width (S.word words.now) r l) (is_bit_set (word_at W.T bytes.new l) r) }
{
    if width < 40 {
        compare_eight::<W, S, F, 32>(width, words, cmp, rhs, bytes);
    } else if width < 48 {
        compare_eight::<W, S, F, 40>(width, words, cmp, rhs, bytes);
    } else if width < 56 {
        compare_eight::<W, S, F, 48>(width, words, cmp, rhs, bytes);
    } else {
        compare_eight::<W, S, F, 56>(width, words, cmp, rhs, bytes);
    }
}

/// Compares at the width of a whole word.
#[inline(never)]
fn compare_whole<W: FastLanes, S: Storage<W>, F: Fn(W, W) -> bool>(
    words: &[S::Unit],
    cmp: &F,
    rhs: W,
    bytes: &mut [u8; 128],
)
    requires block { S.count (length words.now) ≡ W.T * W.LANES }
    requires callable { F.IsAlwaysCallable cmp.now }
    ensures set { (r l : ℕ) → r < W.T → l < W.LANES → IsAnswer W.pattern (F.post cmp.now) rhs (item_of_row W.T W.LANES W.T (S.word words.now) r l) (is_bit_set (word_at W.T bytes.new l) r) }
{
    compare_groups::<W, S, F, 64, 0>(bits::<W>(), words, cmp, rhs, bytes);
}

/// Compares at any width.
fn compare_block<W: FastLanes, S: Storage<W>, F: Fn(W, W) -> bool>(
    width: usize,
    words: &[S::Unit],
    cmp: &F,
    rhs: W,
    bytes: &mut [u8; 128],
)
    requires width { width ≤ W.T }
    requires block { S.count (length words.now) ≡ width * W.LANES }
    requires callable { F.IsAlwaysCallable cmp.now }
    ensures set { (r l : ℕ) → r < W.T → l < W.LANES → IsAnswer W.pattern (F.post cmp.now) rhs (item_of_row W.T W.LANES width (S.word words.now) r l) (is_bit_set (word_at W.T bytes.new l) r) }
{
    let t = bits::<W>();
    if width == t {
        compare_whole::<W, S, F>(words, cmp, rhs, bytes);
    } else if t <= 32 || width < 32 {
        compare_below_32::<W, S, F>(width, words, cmp, rhs, bytes);
    } else {
        compare_from_32::<W, S, F>(width, words, cmp, rhs, bytes);
    }
}

/// The bytes as words of 64 bits, the low byte first.
#[inline(always)]
pub(crate) fn words_of_bytes(bytes: &[u8; 128], words: &mut [u64; 16])
    ensures words { (k : ℕ) → k < 16 → slice_index words.new k ≡ word_at 64 bytes.now k }
    ensures whole { length words.new ≡ 16 }
{
    for k in 0..16usize {
        words[k] = u64::word(bytes, k);
    }
}

/// Compares each item of a packed block with `rhs`: bit `l * T + r` of the output is the answer of `cmp` for the item at row `r` of lane `l`.
///
/// `transpose_bits` moves the bits into the order of the items.
pub fn unpack_cmp<W: FastLanes, F: Fn(W, W) -> bool + Drop>(
    width: usize,
    words: &[W],
    bits: &mut [u64; 16],
    cmp: F,
    rhs: W,
    work: &mut Work,
)
    requires width { width ≤ W.T }
    requires block { length words.now ≡ width * W.LANES }
    requires callable { F.IsAlwaysCallable cmp }
    ensures bits { (r l : ℕ) → r < W.T → l < W.LANES → IsAnswer W.pattern (F.post cmp) rhs (item_of_row W.T W.LANES width (pattern_at W.pattern words.now) r l) (has_bit bits.new (l * W.T + r)) }
    ensures whole { length bits.new ≡ 16 }
    ensures blocks { work.new.blocks ≡ min (work.old.blocks + 1) u64.MAX }
    ensures words { work.new.words ≡ work.old.words }
{
    work.add_block();
    let mut bytes = [0u8; 128];
    compare_block::<W, AsWords, F>(width, words, &cmp, rhs, &mut bytes);
    prove_bytes_fit(&bytes);
    words_of_bytes(&bytes, bits);
}

/// The same for a block that is stored as its `128 * width` bytes.
pub fn unpack_cmp_bytes<W: FastLanes, F: Fn(W, W) -> bool + Drop>(
    width: usize,
    packed: &[u8],
    bits: &mut [u64; 16],
    cmp: F,
    rhs: W,
    work: &mut Work,
)
    requires width { width ≤ W.T }
    requires block { length packed.now ≡ 128 * width }
    requires callable { F.IsAlwaysCallable cmp }
    ensures bits { (r l : ℕ) → r < W.T → l < W.LANES → IsAnswer W.pattern (F.post cmp) rhs (item_of_row W.T W.LANES width (word_at W.T packed.now) r l) (has_bit bits.new (l * W.T + r)) }
    ensures whole { length bits.new ≡ 16 }
    ensures blocks { work.new.blocks ≡ min (work.old.blocks + 1) u64.MAX }
    ensures words { work.new.words ≡ work.old.words }
{
    work.add_block();
    let mut bytes = [0u8; 128];
    compare_block::<W, AsBytes, F>(width, packed, &cmp, rhs, &mut bytes);
    prove_bytes_fit(&bytes);
    words_of_bytes(&bytes, bits);
}
