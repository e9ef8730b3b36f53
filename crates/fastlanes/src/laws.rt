//! Laws of every word type and every block: each is the contract of a small function.
#![tactic(auto)]

pub mod kernels;
pub mod round_trips;

ghost use Rattle.std.specs.Prelude.{◌≡◌, ◌≢◌, ℕ, ◌+◌, ◌-◌, ◌*◌, ◌/◌, ◌%◌, ◌^◌, ◌<◌, ◌≤◌, List, length, slice_index};
ghost use Rattle.fastlanes.specs.Layout.{place, row_of, lane_of, segment, segment_row, segment_lane, Packed, pattern_at, word_at, unpacked_item};

use crate::words::FastLanes;

/// Reading a word that was written returns it, and the other words are unchanged.
pub fn put_then_read<W: FastLanes>(word: W, bytes: &mut [u8], k: usize) -> W
    requires { (k + 1) * (W.T / 8) ≤ length bytes.old }
    ensures read { result ≡ word }
    ensures put { word_at W.T bytes.new k ≡ W.pattern word }
    ensures others { (j : ℕ) → j ≢ k → word_at W.T bytes.new j ≡ word_at W.T bytes.old j }
{
    word.put_word(bytes, k);
    W::word(bytes, k)
}

/// The sum and the difference of two words, which undo each other: a sum of patterns minus the second
/// one, and a difference of patterns plus the second one, is the first one modulo 2 to the number of
/// bits.
pub fn sum_and_difference<W: FastLanes>(x: W, y: W) -> (W, W)
    ensures sum { W.pattern result.0 ≡ (W.pattern x + W.pattern y) % 2 ^ W.T }
    ensures difference { W.pattern result.1 ≡ (W.pattern x + (2 ^ W.T - W.pattern y)) % 2 ^ W.T }
    ensures sum_undone { (p q : ℕ) → p < 2 ^ W.T → q < 2 ^ W.T → ((p + q) % 2 ^ W.T + (2 ^ W.T - q)) % 2 ^ W.T ≡ p }
    ensures difference_undone { (p q : ℕ) → p < 2 ^ W.T → q < 2 ^ W.T → ((p + (2 ^ W.T - q)) % 2 ^ W.T + q) % 2 ^ W.T ≡ p }
{
    (x.wrapping_sum(y), x.wrapping_difference(y))
}

/// The pattern of a word is below 2 to the number of bits.
#[inline(always)]
pub fn word_is_in_range<W: FastLanes>(word: W)
    ensures { W.pattern word < 2 ^ W.T }
{
    let _number = word.to_u64();
}

/// The pattern of each word of a slice is below 2 to the number of bits.
pub fn words_are_in_range<W: FastLanes>(words: &[W])
    ensures { (i : ℕ) → i < length words.now → pattern_at W.pattern words.now i < 2 ^ W.T }
{
    for i in 0..words.len() {
        word_is_in_range(words[i]);
    }
}

/// Rows and lanes map one to one onto the positions of a block.
pub fn places<W: FastLanes>()
    ensures each { (i : ℕ) → i < 1024 → (place (row_of W.LANES i) (lane_of W.LANES i) ≡ i) × (row_of W.LANES i < W.T) × (lane_of W.LANES i < W.LANES) }
    ensures once { (r l : ℕ) → r < W.T → l < W.LANES → (row_of W.LANES (place r l) ≡ r) × (lane_of W.LANES (place r l) ≡ l) × (place r l < 1024) }
{}

/// The lanes' segments contain each position of a block exactly once.
pub fn segments<W: FastLanes>()
    ensures each { (i : ℕ) → i < 1024 → (segment (segment_lane W.T i) + segment_row W.T i ≡ i) × (segment_row W.T i < W.T) × (segment_lane W.T i < W.LANES) }
    ensures once { (r l : ℕ) → r < W.T → l < W.LANES → (segment_row W.T (segment l + r) ≡ r) × (segment_lane W.T (segment l + r) ≡ l) × (segment l + r < 1024) }
{}

/// Any words are the packing of some items.
pub fn items_exist<W: FastLanes>(width: usize)
    requires { width ≤ W.T }
    ensures { (word : ℕ → ℕ) → Packed W.T W.LANES width (unpacked_item W.T W.LANES width word) word }
{}

/// The low bits of the items determine each word of the packed block.
pub fn one_packing<W: FastLanes>(width: usize)
    requires { width ≤ W.T }
    ensures { (item same word other : ℕ → ℕ) → ((i : ℕ) → i < 1024 → item i % 2 ^ width ≡ same i % 2 ^ width)
        → Packed W.T W.LANES width item word → Packed W.T W.LANES width same other
        → ((m : ℕ) → m < width * W.LANES → (word m < 2 ^ W.T) × (other m < 2 ^ W.T)) → (m : ℕ) → m < width * W.LANES → word m ≡ other m }
{}

/// The words of a packed block determine the low bits of its items.
pub fn one_unpacking<W: FastLanes>(width: usize)
    requires { width ≤ W.T }
    ensures { (item word : ℕ → ℕ) → Packed W.T W.LANES width item word
        → (i : ℕ) → i < 1024 → item i % 2 ^ width ≡ unpacked_item W.T W.LANES width word i }
{}

/// Bytes of whole words are determined by the words. So the items of a packed block determine its bytes.
pub fn one_list_of_bytes<W: FastLanes>()
    ensures { (bytes others : List ℕ) (count : ℕ) → length bytes ≡ count * (W.T / 8) → length others ≡ count * (W.T / 8)
        → ((i : ℕ) → (slice_index bytes i < 256) × (slice_index others i < 256))
        → ((m : ℕ) → m < count → word_at W.T bytes m ≡ word_at W.T others m) → bytes ≡ others }
{}
