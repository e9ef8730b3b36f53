//! How the words of a packed block are stored.

ghost use Rattle.std.specs.Prelude.{◌≡◌, ◌⊎◌, ℕ, ◌+◌, ◌/◌, ◌^◌, ◌<◌, ◌≤◌, length};
ghost use Rattle.fastlanes.specs.Layout.{pattern_at, word_at};

use crate::words::FastLanes;
use std::simd::Simd;

/// How the words of a packed block are kept: as words, or as bytes.
pub(crate) trait Storage<W: FastLanes> {
    ghost use Rattle.std.specs.Prelude.{List};

    /// The element of the slice that the words are kept in.
    type Unit;

    /// The number of words in a slice of this length.
    ghost count: { ℕ → ℕ };

    /// The pattern of a word.
    ghost word: { List Self.Unit → ℕ → ℕ };

    /// The sixteen words from word `at` on.
    fn load(units: &[Self::Unit], at: usize) -> Simd<W, 16>
        requires room { at + 16 ≤ count (length units.now) }
        ensures lanes { (j : ℕ) → j < 16 → W.lane result j ≡ word units.now (at + j) }
        ensures small { (j : ℕ) → j < 16 → W.lane result j < 2 ^ W.T };

    /// Writes the sixteen words from word `at` on.
    fn store(vector: Simd<W, 16>, units: &mut [Self::Unit], at: usize)
        requires room { at + 16 ≤ count (length units.old) }
        ensures lanes { (j : ℕ) → j < 16 → word units.new (at + j) ≡ W.lane vector j }
        ensures others { (i : ℕ) → (i < at) ⊎ (at + 16 ≤ i) → word units.new i ≡ word units.old i };
}

/// Words are kept as they are.
pub(crate) struct AsWords;

impl<W: FastLanes> Storage<W> for AsWords {
    type Unit = W;

    ghost count = { λ units. units };

    ghost word = { λ units m. pattern_at W.pattern units m };

    #[inline(always)]
    fn load(units: &[W], at: usize) -> Simd<W, 16> {
        W::load(units, at)
    }

    #[inline(always)]
    fn store(vector: Simd<W, 16>, units: &mut [W], at: usize)
        requires room { at + 16 ≤ length units.old }
        ensures lanes { (j : ℕ) → j < 16 → pattern_at W.pattern units.new (at + j) ≡ W.lane vector j }
        ensures others { (i : ℕ) → (i < at) ⊎ (at + 16 ≤ i) → pattern_at W.pattern units.new i ≡ pattern_at W.pattern units.old i }
    {
        W::store(vector, units, at);
    }
}

/// Words are kept as their bytes, the low one first.
pub(crate) struct AsBytes;

impl<W: FastLanes> Storage<W> for AsBytes {
    type Unit = u8;

    ghost count = { λ units. units / (W.T / 8) };

    ghost word = { λ units m. word_at W.T units m };

    #[inline(always)]
    fn load(units: &[u8], at: usize) -> Simd<W, 16> {
        let mut words = [W::zero(); 16];
        read_sixteen(units, at, &mut words);
        W::load(&words, 0)
    }

    #[inline(always)]
    fn store(vector: Simd<W, 16>, units: &mut [u8], at: usize)
        requires room { at + 16 ≤ length units.old / (W.T / 8) }
        ensures lanes { (j : ℕ) → j < 16 → word_at W.T units.new (at + j) ≡ W.lane vector j }
        ensures others { (i : ℕ) → (i < at) ⊎ (at + 16 ≤ i) → word_at W.T units.new i ≡ word_at W.T units.old i }
    {
        let words = W::to_words(vector);
        for j in 0..16usize {
            words[j].put_word(units, at + j);
        }
    }
}

/// Reads the sixteen words from word `at` of these bytes on.
#[inline(always)]
fn read_sixteen<W: FastLanes>(bytes: &[u8], at: usize, words: &mut [W; 16])
    requires { at + 16 ≤ length bytes.now / (W.T / 8) }
    ensures words { (j : ℕ) → j < 16 → pattern_at W.pattern words.new j ≡ word_at W.T bytes.now (at + j) }
    ensures whole { length words.new ≡ 16 }
{
    for j in 0..16usize {
        words[j] = W::word(bytes, at + j);
    }
}
