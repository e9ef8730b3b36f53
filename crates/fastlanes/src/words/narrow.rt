//! Words of 8 and 16 bits.

ghost use Rattle.std.specs.Prelude.{◌≡◌, ◌⊎◌, ℕ, ◌+◌, ◌-◌, ◌*◌, ◌/◌, ◌%◌, ◌^◌, ◌<◌, ◌≤◌, length, slice_index, bit_and, bit_or};
ghost use Rattle.std.proofs.Common.{lit≤, refl};
ghost use Rattle.fastlanes.specs.Layout.{pattern_at, bits_8, bits_16};

use crate::widths::low_bits;
use crate::words::FastLanes;
use std::simd::{u8x16, u16x16};

impl FastLanes for u8 {
    const T: usize = 8;

    const LANES: usize = 128;

    ghost T = { 8 };

    ghost LANES = { 128 };

    ghost pattern = { λ x. x };

    fn word(bytes: &[u8], k: usize) -> Self {
        bytes[k]
    }

    fn put_word(self, bytes: &mut [u8], k: usize) {
        bytes[k] = self;
    }

    fn zero() -> Self {
        0
    }

    fn with_bit(self, b: usize, on: bool) -> Self {
        if on { self | 1 << b } else { self }
    }

    fn wrapping_sum(self, other: Self) -> Self {
        self.wrapping_add(other)
    }

    fn wrapping_difference(self, other: Self) -> Self {
        self.wrapping_sub(other)
    }

    #[inline(always)]
    #[tactic(auto, using(crate::proofs::Shifts::mask_below))]
    fn bits_from(self, shift: usize, width: usize) -> Self {
        self >> shift & low_bits(width) as u8
    }

    #[inline(always)]
    #[tactic(auto, using(crate::proofs::Shifts::mask_below))]
    fn bits_across(self, next: Self, shift: usize, width: usize) -> Self {
        (self >> shift | next << (8 - shift)) & low_bits(width) as u8
    }

    fn same(self, other: Self) -> bool {
        self == other
    }

    #[inline(always)]
    fn at_most(self, other: Self) -> bool {
        self <= other
    }

    fn to_u64(self) -> u64 {
        self as u64
    }

    fn from_u64(number: u64) -> Self {
        number as u8
    }

    ghost lane = { λ v j. slice_index v j };

    #[inline(always)]
    #[tactic(auto, using(crate::proofs::Sixteen::loaded))]
    fn load(words: &[Self], at: usize) -> u8x16 {
        u8x16::from_slice(&words[at..])
    }

    #[inline(always)]
    #[tactic(auto, using(crate::proofs::Sixteen::stored, crate::proofs::Sixteen::stored_others))]
    fn store(vector: u8x16, words: &mut [Self], at: usize)
        requires room { at + 16 ≤ length words.old }
        ensures lanes { (j : ℕ) → j < 16 → pattern_at (λ x. x) words.new (at + j) ≡ slice_index vector j }
        ensures others { (i : ℕ) → (i < at) ⊎ (at + 16 ≤ i) → pattern_at (λ x. x) words.new i ≡ pattern_at (λ x. x) words.old i }
    {
        vector.copy_to_slice(&mut words[at..]);
    }

    #[inline(always)]
    #[tactic(auto, using(crate::proofs::Vectors::pattern_at_number))]
    fn to_words(vector: u8x16) -> [Self; 16]
        ensures { (j : ℕ) → j < 16 → pattern_at (λ x. x) result j ≡ slice_index vector j }
    {
        vector.to_array()
    }

    #[inline(always)]
    fn interleave(words: &[Self], first: usize, second: usize, target: &mut [Self], at: usize)
        requires first { first + 16 ≤ length words.now }
        requires second { second + 16 ≤ length words.now }
        requires room { at + 32 ≤ length target.old }
        ensures even { (j : ℕ) → j < 16 → pattern_at (λ x. x) target.new (at + 2 * j) ≡ pattern_at (λ x. x) words.now (first + j) }
        ensures odd { (j : ℕ) → j < 16 → pattern_at (λ x. x) target.new (at + (2 * j + 1)) ≡ pattern_at (λ x. x) words.now (second + j) }
        ensures others { (i : ℕ) → (i < at) ⊎ (at + 32 ≤ i) → pattern_at (λ x. x) target.new i ≡ pattern_at (λ x. x) target.old i }
    {
        let other = u8x16::from_slice(&words[second..]);
        let (low, high) = u8x16::from_slice(&words[first..]).interleave(other);
        low.copy_to_slice(&mut target[at..]);
        high.copy_to_slice(&mut target[at + 16..]);
    }

    #[inline(always)]
    #[tactic(auto, using(crate::proofs::Sixteen::splatted))]
    fn splat(word: Self) -> u8x16 {
        u8x16::splat(word)
    }

    #[inline(always)]
    fn low_mask(width: usize) -> u8x16 {
        u8x16::splat(u8::MAX) >> u8x16::splat(8 - width as u8)
    }

    #[inline(always)]
    fn shift_right(vector: u8x16, by: usize) -> u8x16
        requires by { by < 8 }
        ensures lanes { (j : ℕ) → j < 16 → slice_index result j ≡ slice_index vector j / 2 ^ by }
    {
        vector >> u8x16::splat(by as u8)
    }

    #[inline(always)]
    fn shift_left(vector: u8x16, by: usize) -> u8x16
        requires by { by < 8 }
        ensures lanes { (j : ℕ) → j < 16 → slice_index result j ≡ slice_index vector j * 2 ^ by % 2 ^ 8 }
    {
        vector << u8x16::splat(by as u8)
    }

    #[inline(always)]
    fn and(vector: u8x16, other: u8x16) -> u8x16
        ensures lanes { (j : ℕ) → j < 16 → slice_index result j ≡ bit_and (slice_index vector j) (slice_index other j) }
    {
        vector & other
    }

    #[inline(always)]
    fn or(vector: u8x16, other: u8x16) -> u8x16
        ensures lanes { (j : ℕ) → j < 16 → slice_index result j ≡ bit_or (slice_index vector j) (slice_index other j) }
    {
        vector | other
    }

    #[inline(always)]
    fn add(vector: u8x16, other: u8x16) -> u8x16
        ensures lanes { (j : ℕ) → j < 16 → slice_index result j ≡ (slice_index vector j + slice_index other j) % 2 ^ 8 }
    {
        vector + other
    }

    #[inline(always)]
    fn sub(vector: u8x16, other: u8x16) -> u8x16
        ensures lanes { (j : ℕ) → j < 16 → slice_index result j ≡ (slice_index vector j + (2 ^ 8 - slice_index other j)) % 2 ^ 8 }
    {
        vector - other
    }

    ghost shape = { bits_8 };

    ghost few_rows = { lit≤ tt };

    ghost few_lanes = { lit≤ tt };

    ghost few_bytes = { lit≤ tt };

    ghost one_word = { λ x y e. e };

    ghost each_number = { λ n h. (n, refl) };
}

impl FastLanes for u16 {
    const T: usize = 16;

    const LANES: usize = 64;

    ghost T = { 16 };

    ghost LANES = { 64 };

    ghost pattern = { λ x. x };

    fn word(bytes: &[u8], k: usize) -> Self {
        let at = 2 * k;
        u16::from_le_bytes([bytes[at], bytes[at + 1]])
    }

    fn put_word(self, bytes: &mut [u8], k: usize) {
        let at = 2 * k;
        let low = self.to_le_bytes();
        bytes[at] = low[0];
        bytes[at + 1] = low[1];
    }

    fn zero() -> Self {
        0
    }

    fn with_bit(self, b: usize, on: bool) -> Self {
        if on { self | 1 << b } else { self }
    }

    fn wrapping_sum(self, other: Self) -> Self {
        self.wrapping_add(other)
    }

    fn wrapping_difference(self, other: Self) -> Self {
        self.wrapping_sub(other)
    }

    #[inline(always)]
    #[tactic(auto, using(crate::proofs::Shifts::mask_below))]
    fn bits_from(self, shift: usize, width: usize) -> Self {
        self >> shift & low_bits(width) as u16
    }

    #[inline(always)]
    #[tactic(auto, using(crate::proofs::Shifts::mask_below))]
    fn bits_across(self, next: Self, shift: usize, width: usize) -> Self {
        (self >> shift | next << (16 - shift)) & low_bits(width) as u16
    }

    fn same(self, other: Self) -> bool {
        self == other
    }

    #[inline(always)]
    fn at_most(self, other: Self) -> bool {
        self <= other
    }

    fn to_u64(self) -> u64 {
        self as u64
    }

    fn from_u64(number: u64) -> Self {
        number as u16
    }

    ghost lane = { λ v j. slice_index v j };

    #[inline(always)]
    #[tactic(auto, using(crate::proofs::Sixteen::loaded))]
    fn load(words: &[Self], at: usize) -> u16x16 {
        u16x16::from_slice(&words[at..])
    }

    #[inline(always)]
    #[tactic(auto, using(crate::proofs::Sixteen::stored, crate::proofs::Sixteen::stored_others))]
    fn store(vector: u16x16, words: &mut [Self], at: usize)
        requires room { at + 16 ≤ length words.old }
        ensures lanes { (j : ℕ) → j < 16 → pattern_at (λ x. x) words.new (at + j) ≡ slice_index vector j }
        ensures others { (i : ℕ) → (i < at) ⊎ (at + 16 ≤ i) → pattern_at (λ x. x) words.new i ≡ pattern_at (λ x. x) words.old i }
    {
        vector.copy_to_slice(&mut words[at..]);
    }

    #[inline(always)]
    #[tactic(auto, using(crate::proofs::Vectors::pattern_at_number))]
    fn to_words(vector: u16x16) -> [Self; 16]
        ensures { (j : ℕ) → j < 16 → pattern_at (λ x. x) result j ≡ slice_index vector j }
    {
        vector.to_array()
    }

    #[inline(always)]
    fn interleave(words: &[Self], first: usize, second: usize, target: &mut [Self], at: usize)
        requires first { first + 16 ≤ length words.now }
        requires second { second + 16 ≤ length words.now }
        requires room { at + 32 ≤ length target.old }
        ensures even { (j : ℕ) → j < 16 → pattern_at (λ x. x) target.new (at + 2 * j) ≡ pattern_at (λ x. x) words.now (first + j) }
        ensures odd { (j : ℕ) → j < 16 → pattern_at (λ x. x) target.new (at + (2 * j + 1)) ≡ pattern_at (λ x. x) words.now (second + j) }
        ensures others { (i : ℕ) → (i < at) ⊎ (at + 32 ≤ i) → pattern_at (λ x. x) target.new i ≡ pattern_at (λ x. x) target.old i }
    {
        let other = u16x16::from_slice(&words[second..]);
        let (low, high) = u16x16::from_slice(&words[first..]).interleave(other);
        low.copy_to_slice(&mut target[at..]);
        high.copy_to_slice(&mut target[at + 16..]);
    }

    #[inline(always)]
    #[tactic(auto, using(crate::proofs::Sixteen::splatted))]
    fn splat(word: Self) -> u16x16 {
        u16x16::splat(word)
    }

    #[inline(always)]
    fn low_mask(width: usize) -> u16x16 {
        u16x16::splat(u16::MAX) >> u16x16::splat(16 - width as u16)
    }

    #[inline(always)]
    fn shift_right(vector: u16x16, by: usize) -> u16x16
        requires by { by < 16 }
        ensures lanes { (j : ℕ) → j < 16 → slice_index result j ≡ slice_index vector j / 2 ^ by }
    {
        vector >> u16x16::splat(by as u16)
    }

    #[inline(always)]
    fn shift_left(vector: u16x16, by: usize) -> u16x16
        requires by { by < 16 }
        ensures lanes { (j : ℕ) → j < 16 → slice_index result j ≡ slice_index vector j * 2 ^ by % 2 ^ 16 }
    {
        vector << u16x16::splat(by as u16)
    }

    #[inline(always)]
    fn and(vector: u16x16, other: u16x16) -> u16x16
        ensures lanes { (j : ℕ) → j < 16 → slice_index result j ≡ bit_and (slice_index vector j) (slice_index other j) }
    {
        vector & other
    }

    #[inline(always)]
    fn or(vector: u16x16, other: u16x16) -> u16x16
        ensures lanes { (j : ℕ) → j < 16 → slice_index result j ≡ bit_or (slice_index vector j) (slice_index other j) }
    {
        vector | other
    }

    #[inline(always)]
    fn add(vector: u16x16, other: u16x16) -> u16x16
        ensures lanes { (j : ℕ) → j < 16 → slice_index result j ≡ (slice_index vector j + slice_index other j) % 2 ^ 16 }
    {
        vector + other
    }

    #[inline(always)]
    fn sub(vector: u16x16, other: u16x16) -> u16x16
        ensures lanes { (j : ℕ) → j < 16 → slice_index result j ≡ (slice_index vector j + (2 ^ 16 - slice_index other j)) % 2 ^ 16 }
    {
        vector - other
    }

    ghost shape = { bits_16 };

    ghost few_rows = { lit≤ tt };

    ghost few_lanes = { lit≤ tt };

    ghost few_bytes = { lit≤ tt };

    ghost one_word = { λ x y e. e };

    ghost each_number = { λ n h. (n, refl) };
}
