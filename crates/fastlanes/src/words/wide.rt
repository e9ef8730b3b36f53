//! Words of 32 and 64 bits.

ghost use Rattle.std.specs.Prelude.{◌≡◌, ◌⊎◌, ℕ, ◌+◌, ◌-◌, ◌*◌, ◌/◌, ◌%◌, ◌^◌, ◌<◌, ◌≤◌, length, slice_index, bit_and, bit_or};
ghost use Rattle.std.proofs.Common.{lit≤, refl};
ghost use Rattle.fastlanes.specs.Layout.{pattern_at, bits_32, bits_64};

use crate::widths::low_bits;
use crate::words::FastLanes;
use std::simd::{u32x16, u64x16};

impl FastLanes for u32 {
    const T: usize = 32;

    const LANES: usize = 32;

    ghost T = { 32 };

    ghost LANES = { 32 };

    ghost pattern = { λ x. x };

    fn word(bytes: &[u8], k: usize) -> Self {
        let at = 4 * k;
        u32::from_le_bytes([bytes[at], bytes[at + 1], bytes[at + 2], bytes[at + 3]])
    }

    #[tactic(auto, using(crate::proofs::WordBytes::word_of_32_at_halves))]
    fn put_word(self, bytes: &mut [u8], k: usize) {
        let low = (self % 0x1_0000) as u16;
        let high = (self / 0x1_0000) as u16;
        low.put_word(bytes, 2 * k);
        high.put_word(bytes, 2 * k + 1);
    }

    fn zero() -> Self {
        0
    }

    fn with_bit(self, b: usize, on: bool) -> Self {
        if on { self | 1 << b } else { self }
    }

    fn wrapping_sum(self, other: Self) -> Self {
        self.wrapping_add(other)
    }

    fn wrapping_difference(self, other: Self) -> Self {
        self.wrapping_sub(other)
    }

    #[inline(always)]
    #[tactic(auto, using(crate::proofs::Shifts::mask_below))]
    fn bits_from(self, shift: usize, width: usize) -> Self {
        self >> shift & low_bits(width) as u32
    }

    #[inline(always)]
    #[tactic(auto, using(crate::proofs::Shifts::mask_below))]
    fn bits_across(self, next: Self, shift: usize, width: usize) -> Self {
        (self >> shift | next << (32 - shift)) & low_bits(width) as u32
    }

    fn same(self, other: Self) -> bool {
        self == other
    }

    #[inline(always)]
    fn at_most(self, other: Self) -> bool {
        self <= other
    }

    fn to_u64(self) -> u64 {
        self as u64
    }

    fn from_u64(number: u64) -> Self {
        number as u32
    }

    ghost lane = { λ v j. slice_index v j };

    #[inline(always)]
    #[tactic(auto, using(crate::proofs::Sixteen::loaded))]
    fn load(words: &[Self], at: usize) -> u32x16 {
        u32x16::from_slice(&words[at..])
    }

    #[inline(always)]
    #[tactic(auto, using(crate::proofs::Sixteen::stored, crate::proofs::Sixteen::stored_others))]
    fn store(vector: u32x16, words: &mut [Self], at: usize)
        requires room { at + 16 ≤ length words.old }
        ensures lanes { (j : ℕ) → j < 16 → pattern_at (λ x. x) words.new (at + j) ≡ slice_index vector j }
        ensures others { (i : ℕ) → (i < at) ⊎ (at + 16 ≤ i) → pattern_at (λ x. x) words.new i ≡ pattern_at (λ x. x) words.old i }
    {
        vector.copy_to_slice(&mut words[at..]);
    }

    #[inline(always)]
    #[tactic(auto, using(crate::proofs::Vectors::pattern_at_number))]
    fn to_words(vector: u32x16) -> [Self; 16]
        ensures { (j : ℕ) → j < 16 → pattern_at (λ x. x) result j ≡ slice_index vector j }
    {
        vector.to_array()
    }

    #[inline(always)]
    fn interleave(words: &[Self], first: usize, second: usize, target: &mut [Self], at: usize)
        requires first { first + 16 ≤ length words.now }
        requires second { second + 16 ≤ length words.now }
        requires room { at + 32 ≤ length target.old }
        ensures even { (j : ℕ) → j < 16 → pattern_at (λ x. x) target.new (at + 2 * j) ≡ pattern_at (λ x. x) words.now (first + j) }
        ensures odd { (j : ℕ) → j < 16 → pattern_at (λ x. x) target.new (at + (2 * j + 1)) ≡ pattern_at (λ x. x) words.now (second + j) }
        ensures others { (i : ℕ) → (i < at) ⊎ (at + 32 ≤ i) → pattern_at (λ x. x) target.new i ≡ pattern_at (λ x. x) target.old i }
    {
        let other = u32x16::from_slice(&words[second..]);
        let (low, high) = u32x16::from_slice(&words[first..]).interleave(other);
        low.copy_to_slice(&mut target[at..]);
        high.copy_to_slice(&mut target[at + 16..]);
    }

    #[inline(always)]
    #[tactic(auto, using(crate::proofs::Sixteen::splatted))]
    fn splat(word: Self) -> u32x16 {
        u32x16::splat(word)
    }

    #[inline(always)]
    fn low_mask(width: usize) -> u32x16 {
        u32x16::splat(u32::MAX) >> u32x16::splat(32 - width as u32)
    }

    #[inline(always)]
    fn shift_right(vector: u32x16, by: usize) -> u32x16
        requires by { by < 32 }
        ensures lanes { (j : ℕ) → j < 16 → slice_index result j ≡ slice_index vector j / 2 ^ by }
    {
        vector >> u32x16::splat(by as u32)
    }

    #[inline(always)]
    fn shift_left(vector: u32x16, by: usize) -> u32x16
        requires by { by < 32 }
        ensures lanes { (j : ℕ) → j < 16 → slice_index result j ≡ slice_index vector j * 2 ^ by % 2 ^ 32 }
    {
        vector << u32x16::splat(by as u32)
    }

    #[inline(always)]
    fn and(vector: u32x16, other: u32x16) -> u32x16
        ensures lanes { (j : ℕ) → j < 16 → slice_index result j ≡ bit_and (slice_index vector j) (slice_index other j) }
    {
        vector & other
    }

    #[inline(always)]
    fn or(vector: u32x16, other: u32x16) -> u32x16
        ensures lanes { (j : ℕ) → j < 16 → slice_index result j ≡ bit_or (slice_index vector j) (slice_index other j) }
    {
        vector | other
    }

    #[inline(always)]
    fn add(vector: u32x16, other: u32x16) -> u32x16
        ensures lanes { (j : ℕ) → j < 16 → slice_index result j ≡ (slice_index vector j + slice_index other j) % 2 ^ 32 }
    {
        vector + other
    }

    #[inline(always)]
    fn sub(vector: u32x16, other: u32x16) -> u32x16
        ensures lanes { (j : ℕ) → j < 16 → slice_index result j ≡ (slice_index vector j + (2 ^ 32 - slice_index other j)) % 2 ^ 32 }
    {
        vector - other
    }

    ghost shape = { bits_32 };

    ghost few_rows = { lit≤ tt };

    ghost few_lanes = { lit≤ tt };

    ghost few_bytes = { lit≤ tt };

    ghost one_word = { λ x y e. e };

    ghost each_number = { λ n h. (n, refl) };
}

impl FastLanes for u64 {
    const T: usize = 64;

    const LANES: usize = 16;

    ghost T = { 64 };

    ghost LANES = { 16 };

    ghost pattern = { λ x. x };

    fn word(bytes: &[u8], k: usize) -> Self {
        let at = 8 * k;
        u64::from_le_bytes([
            bytes[at],
            bytes[at + 1],
            bytes[at + 2],
            bytes[at + 3],
            bytes[at + 4],
            bytes[at + 5],
            bytes[at + 6],
            bytes[at + 7],
        ])
    }

    #[tactic(auto, using(crate::proofs::WordBytes::word_at_halves))]
    fn put_word(self, bytes: &mut [u8], k: usize) {
        let low = (self % 0x1_0000_0000) as u32;
        let high = (self / 0x1_0000_0000) as u32;
        low.put_word(bytes, 2 * k);
        high.put_word(bytes, 2 * k + 1);
    }

    fn zero() -> Self {
        0
    }

    fn with_bit(self, b: usize, on: bool) -> Self {
        if on { self | 1 << b } else { self }
    }

    fn wrapping_sum(self, other: Self) -> Self {
        self.wrapping_add(other)
    }

    fn wrapping_difference(self, other: Self) -> Self {
        self.wrapping_sub(other)
    }

    #[inline(always)]
    fn bits_from(self, shift: usize, width: usize) -> Self {
        self >> shift & low_bits(width)
    }

    #[inline(always)]
    fn bits_across(self, next: Self, shift: usize, width: usize) -> Self {
        (self >> shift | next << (64 - shift)) & low_bits(width)
    }

    fn same(self, other: Self) -> bool {
        self == other
    }

    #[inline(always)]
    fn at_most(self, other: Self) -> bool {
        self <= other
    }

    fn to_u64(self) -> u64 {
        self
    }

    fn from_u64(number: u64) -> Self {
        number
    }

    ghost lane = { λ v j. slice_index v j };

    #[inline(always)]
    #[tactic(auto, using(crate::proofs::Sixteen::loaded))]
    fn load(words: &[Self], at: usize) -> u64x16 {
        u64x16::from_slice(&words[at..])
    }

    #[inline(always)]
    #[tactic(auto, using(crate::proofs::Sixteen::stored, crate::proofs::Sixteen::stored_others))]
    fn store(vector: u64x16, words: &mut [Self], at: usize)
        requires room { at + 16 ≤ length words.old }
        ensures lanes { (j : ℕ) → j < 16 → pattern_at (λ x. x) words.new (at + j) ≡ slice_index vector j }
        ensures others { (i : ℕ) → (i < at) ⊎ (at + 16 ≤ i) → pattern_at (λ x. x) words.new i ≡ pattern_at (λ x. x) words.old i }
    {
        vector.copy_to_slice(&mut words[at..]);
    }

    #[inline(always)]
    #[tactic(auto, using(crate::proofs::Vectors::pattern_at_number))]
    fn to_words(vector: u64x16) -> [Self; 16]
        ensures { (j : ℕ) → j < 16 → pattern_at (λ x. x) result j ≡ slice_index vector j }
    {
        vector.to_array()
    }

    #[inline(always)]
    fn interleave(words: &[Self], first: usize, second: usize, target: &mut [Self], at: usize)
        requires first { first + 16 ≤ length words.now }
        requires second { second + 16 ≤ length words.now }
        requires room { at + 32 ≤ length target.old }
        ensures even { (j : ℕ) → j < 16 → pattern_at (λ x. x) target.new (at + 2 * j) ≡ pattern_at (λ x. x) words.now (first + j) }
        ensures odd { (j : ℕ) → j < 16 → pattern_at (λ x. x) target.new (at + (2 * j + 1)) ≡ pattern_at (λ x. x) words.now (second + j) }
        ensures others { (i : ℕ) → (i < at) ⊎ (at + 32 ≤ i) → pattern_at (λ x. x) target.new i ≡ pattern_at (λ x. x) target.old i }
    {
        let other = u64x16::from_slice(&words[second..]);
        let (low, high) = u64x16::from_slice(&words[first..]).interleave(other);
        low.copy_to_slice(&mut target[at..]);
        high.copy_to_slice(&mut target[at + 16..]);
    }

    #[inline(always)]
    #[tactic(auto, using(crate::proofs::Sixteen::splatted))]
    fn splat(word: Self) -> u64x16 {
        u64x16::splat(word)
    }

    #[inline(always)]
    fn low_mask(width: usize) -> u64x16 {
        u64x16::splat(u64::MAX) >> u64x16::splat(64 - width as u64)
    }

    #[inline(always)]
    fn shift_right(vector: u64x16, by: usize) -> u64x16
        requires by { by < 64 }
        ensures lanes { (j : ℕ) → j < 16 → slice_index result j ≡ slice_index vector j / 2 ^ by }
    {
        vector >> u64x16::splat(by as u64)
    }

    #[inline(always)]
    fn shift_left(vector: u64x16, by: usize) -> u64x16
        requires by { by < 64 }
        ensures lanes { (j : ℕ) → j < 16 → slice_index result j ≡ slice_index vector j * 2 ^ by % 2 ^ 64 }
    {
        vector << u64x16::splat(by as u64)
    }

    #[inline(always)]
    fn and(vector: u64x16, other: u64x16) -> u64x16
        ensures lanes { (j : ℕ) → j < 16 → slice_index result j ≡ bit_and (slice_index vector j) (slice_index other j) }
    {
        vector & other
    }

    #[inline(always)]
    fn or(vector: u64x16, other: u64x16) -> u64x16
        ensures lanes { (j : ℕ) → j < 16 → slice_index result j ≡ bit_or (slice_index vector j) (slice_index other j) }
    {
        vector | other
    }

    #[inline(always)]
    fn add(vector: u64x16, other: u64x16) -> u64x16
        ensures lanes { (j : ℕ) → j < 16 → slice_index result j ≡ (slice_index vector j + slice_index other j) % 2 ^ 64 }
    {
        vector + other
    }

    #[inline(always)]
    fn sub(vector: u64x16, other: u64x16) -> u64x16
        ensures lanes { (j : ℕ) → j < 16 → slice_index result j ≡ (slice_index vector j + (2 ^ 64 - slice_index other j)) % 2 ^ 64 }
    {
        vector - other
    }

    ghost shape = { bits_64 };

    ghost few_rows = { lit≤ tt };

    ghost few_lanes = { lit≤ tt };

    ghost few_bytes = { lit≤ tt };

    ghost one_word = { λ x y e. e };

    ghost each_number = { λ n h. (n, refl) };
}
