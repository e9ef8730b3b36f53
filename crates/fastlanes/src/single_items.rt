//! Reading single items of a packed block.
#![tactic(auto)]

ghost use Rattle.std.specs.Prelude.{◌≡◌, ℕ, ◌+◌, ◌*◌, ◌/◌, ◌%◌, ◌^◌, ◌<◌, ◌≤◌, min, length, slice_index};
ghost use Rattle.fastlanes.specs.Layout.{place, row_of, lane_of, Packed, word_at, pattern_at, unpacked_item, words_of_item};
ghost use Rattle.fastlanes.specs.SingleItems.{words_at, words_of_items};

use crate::counts::Work;
use crate::laws::word_is_in_range;
use crate::layout::row;
use crate::proof_support::prove_count_fits;
use crate::widths::{bits, lanes, row_start};
use crate::words::FastLanes;

/// The row and the lane of position `index`.
#[inline(always)]
#[tactic(auto, using(crate::proofs::Bijection::position_placed))]
fn row_and_lane<W: FastLanes>(index: usize) -> (usize, usize)
    requires { index < 1024 }
    ensures row { result.0 < W.T }
    ensures lane { result.1 < W.LANES }
    ensures place { place result.0 result.1 ≡ index }
    ensures value { (result.0 ≡ row_of W.LANES index) × (result.1 ≡ lane_of W.LANES index) }
{
    (row(index, W::LANES), index % W::LANES)
}

/// Reads word `k` of lane `l` of a block's bytes, and counts it.
#[inline(always)]
#[tactic(auto, using(crate::proofs::Streams::word_fits))]
fn word_of_bytes<W: FastLanes>(width: usize, bytes: &[u8], k: usize, l: usize, work: &mut Work) -> W
    requires width { width ≤ W.T }
    requires block { length bytes.now ≡ 128 * width }
    requires word { k < width }
    requires lane { l < W.LANES }
    ensures word { W.pattern result ≡ word_at W.T bytes.now (k * W.LANES + l) }
    ensures small { W.pattern result < 2 ^ W.T }
    ensures words { work.new.words ≡ min (work.old.words + 1) u64.MAX }
    ensures blocks { work.new.blocks ≡ work.old.blocks }
{
    work.add_word();
    let word = W::word(bytes, k * lanes::<W>() + l);
    word_is_in_range(word);
    word
}

/// The item at `index` of a packed block of `128 * width` bytes, read by itself.
///
/// It reads each word that holds a bit of the item once: at most two, and none at width 0.
pub fn unpack_single<W: FastLanes>(width: usize, bytes: &[u8], index: usize, work: &mut Work) -> W
    requires width { width ≤ W.T }
    requires block { length bytes.now ≡ 128 * width }
    requires index { index < 1024 }
    // The item that the bits make, and so the low bits of whatever item was packed there.
    ensures bits { W.pattern result ≡ unpacked_item W.T W.LANES width (word_at W.T bytes.now) index }
    ensures item { (item : ℕ → ℕ) → Packed W.T W.LANES width item (word_at W.T bytes.now) → W.pattern result ≡ item index % 2 ^ width }

    ensures no_word { width ≡ 0 → work.new.words ≡ work.old.words }
    ensures words { 0 < width → work.new.words ≡ min (work.old.words + words_of_item W.T width (row_of W.LANES index)) u64.MAX }
    ensures few { work.new.words ≤ work.old.words + 2 }
    ensures blocks { work.new.blocks ≡ work.old.blocks }
{
    if width == 0 {
        return W::zero();
    }
    let (r, l) = row_and_lane::<W>(index);
    let (k, shift) = row_start::<W>(width, r);
    let low: W = word_of_bytes(width, bytes, k, l, work);
    if shift + width <= bits::<W>() {
        low.bits_from(shift, width)
    } else {
        low.bits_across(word_of_bytes(width, bytes, k + 1, l, work), shift, width)
    }
}

/// Reads word `k` of lane `l` of a block's words, and counts it.
#[inline(always)]
#[tactic(auto, using(crate::proofs::SingleItems::word_inside, crate::proofs::Patterns::pattern_at_read))]
fn word_of_words<W: FastLanes>(width: usize, words: &[W], k: usize, l: usize, work: &mut Work) -> W
    requires width { width ≤ W.T }
    requires block { length words.now ≡ width * W.LANES }
    requires word { k < width }
    requires lane { l < W.LANES }
    ensures word { W.pattern result ≡ pattern_at W.pattern words.now (k * W.LANES + l) }
    ensures small { W.pattern result < 2 ^ W.T }
    ensures words { work.new.words ≡ min (work.old.words + 1) u64.MAX }
    ensures blocks { work.new.blocks ≡ work.old.blocks }
{
    work.add_word();
    let word = words[k * lanes::<W>() + l];
    word_is_in_range(word);
    word
}

/// The item at `index` of a block's words.
#[inline(always)]
fn item_of_words<W: FastLanes>(width: usize, words: &[W], index: usize, work: &mut Work) -> W
    requires width { width ≤ W.T }
    requires block { length words.now ≡ width * W.LANES }
    requires index { index < 1024 }
    ensures item { W.pattern result ≡ unpacked_item W.T W.LANES width (pattern_at W.pattern words.now) index }
    ensures words { work.new.words ≡ min (work.old.words + words_at W.T W.LANES width index) u64.MAX }
    ensures few { work.new.words ≤ work.old.words + 2 }
    ensures blocks { work.new.blocks ≡ work.old.blocks }
{
    prove_count_fits(work);
    if width == 0 {
        return W::zero();
    }
    let (r, l) = row_and_lane::<W>(index);
    let (k, shift) = row_start::<W>(width, r);
    let low = word_of_words(width, words, k, l, work);
    if shift + width <= bits::<W>() {
        low.bits_from(shift, width)
    } else {
        low.bits_across(word_of_words(width, words, k + 1, l, work), shift, width)
    }
}

/// The items at these positions of a packed block. A position may occur more than once.
///
/// For each it reads the words that hold its bits: at most two, and none at width 0.
pub fn unpack_indices<W: FastLanes>(
    width: usize,
    words: &[W],
    indices: &[usize],
    items: &mut [W],
    work: &mut Work,
)
    requires width { width ≤ W.T }
    requires block { length words.now ≡ width * W.LANES }
    requires indices { (n : ℕ) → n < length indices.now → slice_index indices.now n < 1024 }
    requires room { length items.old ≡ length indices.now }
    ensures items { (n : ℕ) → n < length indices.now → pattern_at W.pattern items.new n ≡ unpacked_item W.T W.LANES width (pattern_at W.pattern words.now) (slice_index indices.now n) }
    ensures words { work.new.words ≡ min (work.old.words + words_of_items W.T W.LANES width (slice_index indices.now) (length indices.now)) u64.MAX }
    ensures few { work.new.words ≤ work.old.words + 2 * length indices.now }
    ensures blocks { work.new.blocks ≡ work.old.blocks }
{
    prove_count_fits(work);
    for n in 0..indices.len() {
        items[n] = item_of_words(width, words, indices[n], work);
    }
}
