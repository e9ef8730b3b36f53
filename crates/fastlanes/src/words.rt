//! The words that a block is packed into.

mod narrow;
mod wide;

ghost use Rattle.std.specs.Prelude.{◌≡◌, ◌≢◌, ◌⊎◌, ℕ, ◌+◌, ◌-◌, ◌*◌, ◌/◌, ◌%◌, ◌^◌, ◌<◌, ◌≤◌, length, bit_and, bit_or, nat_eq, nat_le};
ghost use Rattle.std.specs.Mem.{type_size};
ghost use Rattle.fastlanes.specs.Layout.{word_at, pattern_at, bit_value, IsWordWidth};

use std::simd::Simd;

/// An unsigned type whose values are the words of a packed block, with vectors of sixteen of them.
pub trait FastLanes: Copy {
    ghost use Rattle.std.specs.Prelude.{List};

    /// The bits of a word, and the rows of a block.
    const T: usize;

    /// The lanes of a block.
    const LANES: usize;

    ghost T: { ℕ };

    ghost LANES: { ℕ };

    /// The pattern of a word: its number.
    ghost pattern: { Self → ℕ };

    /// Word `k` of these bytes, the low byte first.
    fn word(bytes: &[u8], k: usize) -> Self
        requires { (k + 1) * (T / 8) ≤ length bytes.now }
        ensures { pattern result ≡ word_at T bytes.now k };

    /// Writes word `k` of these bytes.
    fn put_word(self, bytes: &mut [u8], k: usize)
        requires { (k + 1) * (T / 8) ≤ length bytes.old }
        ensures put { word_at T bytes.new k ≡ pattern self }
        ensures others { (j : ℕ) → j ≢ k → word_at T bytes.new j ≡ word_at T bytes.old j };

    /// The word 0.
    fn zero() -> Self
        ensures { pattern result ≡ 0 };

    /// The same word with bit `b` set if `on`, above its other bits.
    fn with_bit(self, b: usize, on: bool) -> Self
        requires below { b < T }
        requires above { pattern self < 2 ^ b }
        ensures { pattern result ≡ pattern self + bit_value on * 2 ^ b };

    /// The sum, modulo 2 to the number of bits.
    fn wrapping_sum(self, other: Self) -> Self
        ensures { pattern result ≡ (pattern self + pattern other) % 2 ^ T };

    /// The difference, modulo 2 to the number of bits.
    fn wrapping_difference(self, other: Self) -> Self
        ensures { pattern result ≡ (pattern self + (2 ^ T - pattern other)) % 2 ^ T };

    /// The `width` bits from bit `shift` of this word on.
    fn bits_from(self, shift: usize, width: usize) -> Self
        requires some { 0 < width }
        requires within { shift + width ≤ T }
        ensures { pattern result ≡ bit_and (pattern self / 2 ^ shift) (2 ^ width - 1) };

    /// The `width` bits from bit `shift` of this word on, continued in the word `next`.
    fn bits_across(self, next: Self, shift: usize, width: usize) -> Self
        requires width { width ≤ T }
        requires shift { shift < T }
        requires across { T < shift + width }
        ensures { pattern result ≡ bit_and (bit_or (pattern self / 2 ^ shift) (pattern next * 2 ^ (T - shift) % 2 ^ T)) (2 ^ width - 1) };

    /// Whether the words are equal.
    fn same(self, other: Self) -> bool
        ensures { result ≡ nat_eq (pattern self) (pattern other) };

    /// Whether the pattern is at most that of the other word.
    fn at_most(self, other: Self) -> bool
        ensures { result ≡ nat_le (pattern self) (pattern other) };

    /// The word's number, which is below 2 to the number of bits.
    fn to_u64(self) -> u64
        ensures number { result ≡ pattern self }
        ensures range { pattern self < 2 ^ T };

    /// The word of a number.
    fn from_u64(number: u64) -> Self
        requires { number < 2 ^ T }
        ensures { pattern result ≡ number };

    /// The patterns of the sixteen words of a vector.
    ghost lane: { List Self → ℕ → ℕ };

    /// The sixteen words from `at` on.
    fn load(words: &[Self], at: usize) -> Simd<Self, 16>
        requires room { at + 16 ≤ length words.now }
        ensures lanes { (j : ℕ) → j < 16 → lane result j ≡ pattern_at pattern words.now (at + j) }
        ensures small { (j : ℕ) → j < 16 → lane result j < 2 ^ T };

    /// Writes the sixteen words from `at` on.
    fn store(vector: Simd<Self, 16>, words: &mut [Self], at: usize)
        requires room { at + 16 ≤ length words.old }
        ensures lanes { (j : ℕ) → j < 16 → pattern_at pattern words.new (at + j) ≡ lane vector j }
        ensures others { (i : ℕ) → (i < at) ⊎ (at + 16 ≤ i) → pattern_at pattern words.new i ≡ pattern_at pattern words.old i };

    /// The sixteen words of a vector.
    fn to_words(vector: Simd<Self, 16>) -> [Self; 16]
        ensures { (j : ℕ) → j < 16 → pattern_at pattern result j ≡ lane vector j };

    /// Writes the sixteen words from `first` on and those from `second` on in turn, to the 32 places from `at` on.
    fn interleave(words: &[Self], first: usize, second: usize, target: &mut [Self], at: usize)
        requires first { first + 16 ≤ length words.now }
        requires second { second + 16 ≤ length words.now }
        requires room { at + 32 ≤ length target.old }
        ensures even { (j : ℕ) → j < 16 → pattern_at pattern target.new (at + 2 * j) ≡ pattern_at pattern words.now (first + j) }
        ensures odd { (j : ℕ) → j < 16 → pattern_at pattern target.new (at + (2 * j + 1)) ≡ pattern_at pattern words.now (second + j) }
        ensures others { (i : ℕ) → (i < at) ⊎ (at + 32 ≤ i) → pattern_at pattern target.new i ≡ pattern_at pattern target.old i };

    /// A vector with this word in each lane.
    fn splat(word: Self) -> Simd<Self, 16>
        ensures lanes { (j : ℕ) → j < 16 → lane result j ≡ pattern word };

    /// Sixteen words whose low `width` bits alone are set.
    fn low_mask(width: usize) -> Simd<Self, 16>
        requires some { 0 < width }
        requires width { width ≤ T }
        ensures lanes { (j : ℕ) → j < 16 → lane result j ≡ 2 ^ width - 1 };

    /// Each word shifted to the right by `by` bits.
    fn shift_right(vector: Simd<Self, 16>, by: usize) -> Simd<Self, 16>
        requires by { by < T }
        ensures lanes { (j : ℕ) → j < 16 → lane result j ≡ lane vector j / 2 ^ by };

    /// Each word shifted to the left by `by` bits, without the bits above a word.
    fn shift_left(vector: Simd<Self, 16>, by: usize) -> Simd<Self, 16>
        requires by { by < T }
        ensures lanes { (j : ℕ) → j < 16 → lane result j ≡ lane vector j * 2 ^ by % 2 ^ T };

    /// The bitwise and of the two words of each lane.
    fn and(vector: Simd<Self, 16>, other: Simd<Self, 16>) -> Simd<Self, 16>
        ensures lanes { (j : ℕ) → j < 16 → lane result j ≡ bit_and (lane vector j) (lane other j) };

    /// The bitwise or of the two words of each lane.
    fn or(vector: Simd<Self, 16>, other: Simd<Self, 16>) -> Simd<Self, 16>
        ensures lanes { (j : ℕ) → j < 16 → lane result j ≡ bit_or (lane vector j) (lane other j) };

    /// The sum of the two words of each lane, modulo 2 to the number of bits.
    fn add(vector: Simd<Self, 16>, other: Simd<Self, 16>) -> Simd<Self, 16>
        ensures lanes { (j : ℕ) → j < 16 → lane result j ≡ (lane vector j + lane other j) % 2 ^ T };

    /// The difference of the two words of each lane, modulo 2 to the number of bits.
    fn sub(vector: Simd<Self, 16>, other: Simd<Self, 16>) -> Simd<Self, 16>
        ensures lanes { (j : ℕ) → j < 16 → lane result j ≡ (lane vector j + (2 ^ T - lane other j)) % 2 ^ T };

    /// A word has 8, 16, 32 or 64 bits, and a block 1024 items.
    ghost shape: { IsWordWidth T LANES };

    ghost few_rows: { T ≤ 64 };

    ghost few_lanes: { LANES ≤ 128 };

    /// A word takes at most eight bytes, so that arrays of words fit in memory.
    ghost few_bytes: { type_size Self.row ≤ 8 };

    /// Words with the same pattern are equal.
    ghost one_word: { (x y : Self) → pattern x ≡ pattern y → x ≡ y };

    /// Each number below 2 to the number of bits is the pattern of a word.
    ghost each_number: { (n : ℕ) → n < 2 ^ T → (x : Self) × (pattern x ≡ n) };
}
