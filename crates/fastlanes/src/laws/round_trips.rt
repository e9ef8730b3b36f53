//! Encoding and then decoding returns the input. `laws::kernels` has the underlying laws, about the definitions alone.
#![tactic(auto)]

ghost use Rattle.std.specs.Prelude.{◌≡◌, ℕ, ◌<◌, length, slice_index};
ghost use Rattle.fastlanes.specs.Layout.{pattern_at, place};
ghost use Rattle.fastlanes.specs.Delta.{Transposed, item_delta, summed_item};
ghost use Rattle.fastlanes.specs.Runs.{changes};

use crate::deltas::items::undelta_to_items;
use crate::deltas::{delta, undelta};
use crate::laws::words_are_in_range;
use crate::layout::FL_CHUNK_SIZE;
use crate::runs::{rle_decode, rle_encode};
use crate::transposing::{transpose, untranspose};
use crate::words::FastLanes;

/// `untranspose` undoes `transpose`.
pub fn transpose_and_back<W: FastLanes>(
    items: &[W; FL_CHUNK_SIZE],
    stored: &mut [W; FL_CHUNK_SIZE],
    back: &mut [W; FL_CHUNK_SIZE],
)
    ensures stored { Transposed W.T W.LANES (pattern_at W.pattern items.now) (pattern_at W.pattern stored.new) }
    ensures back { back.new ≡ items.now }
{
    transpose(items, stored);
    untranspose(stored, back);
}

/// `transpose` undoes `untranspose`.
pub fn untranspose_and_back<W: FastLanes>(
    stored: &[W; FL_CHUNK_SIZE],
    items: &mut [W; FL_CHUNK_SIZE],
    back: &mut [W; FL_CHUNK_SIZE],
)
    ensures items { Transposed W.T W.LANES (pattern_at W.pattern items.new) (pattern_at W.pattern stored.now) }
    ensures back { back.new ≡ stored.now }
{
    untranspose(stored, items);
    transpose(items, back);
}

/// `undelta` undoes `delta`, for any bases.
pub fn delta_and_back<W: FastLanes>(
    items: &[W; FL_CHUNK_SIZE],
    bases: &[W],
    deltas: &mut [W; FL_CHUNK_SIZE],
    back: &mut [W; FL_CHUNK_SIZE],
)
    requires { length bases.now ≡ W.LANES }
    ensures deltas { (r l : ℕ) → r < W.T → l < W.LANES → pattern_at W.pattern deltas.new (place r l) ≡ item_delta W.T (pattern_at W.pattern bases.now) (pattern_at W.pattern items.now) r l }
    ensures back { back.new ≡ items.now }
{
    words_are_in_range(items);
    words_are_in_range(bases);
    delta(items, bases, deltas);
    undelta(deltas, bases, back);
}

/// `delta` undoes `undelta`, for any bases.
pub fn undelta_and_back<W: FastLanes>(
    deltas: &[W; FL_CHUNK_SIZE],
    bases: &[W],
    items: &mut [W; FL_CHUNK_SIZE],
    back: &mut [W; FL_CHUNK_SIZE],
)
    requires { length bases.now ≡ W.LANES }
    ensures items { (r l : ℕ) → r < W.T → l < W.LANES → pattern_at W.pattern items.new (place r l) ≡ summed_item W.T (pattern_at W.pattern bases.now) (pattern_at W.pattern deltas.now) r l }
    ensures back { back.new ≡ deltas.now }
{
    words_are_in_range(deltas);
    words_are_in_range(bases);
    undelta(deltas, bases, items);
    delta(items, bases, back);
}

/// `undelta_to_items` undoes `transpose` and then `delta`, for any bases.
pub fn items_and_back<W: FastLanes>(
    items: &[W; FL_CHUNK_SIZE],
    bases: &[W],
    stored: &mut [W; FL_CHUNK_SIZE],
    deltas: &mut [W; FL_CHUNK_SIZE],
    back: &mut [W; FL_CHUNK_SIZE],
)
    requires { length bases.now ≡ W.LANES }
    ensures stored { Transposed W.T W.LANES (pattern_at W.pattern items.now) (pattern_at W.pattern stored.new) }
    ensures deltas { (r l : ℕ) → r < W.T → l < W.LANES → pattern_at W.pattern deltas.new (place r l) ≡ item_delta W.T (pattern_at W.pattern bases.now) (pattern_at W.pattern stored.new) r l }
    ensures back { back.new ≡ items.now }
{
    transpose(items, stored);
    words_are_in_range(stored);
    words_are_in_range(bases);
    delta(stored, bases, deltas);
    undelta_to_items(deltas, bases, back);
}

/// `rle_decode` undoes `rle_encode`.
pub fn runs_and_back<W: FastLanes>(
    items: &[W; FL_CHUNK_SIZE],
    values: &mut [W; FL_CHUNK_SIZE],
    indices: &mut [u16; FL_CHUNK_SIZE],
    back: &mut [W; FL_CHUNK_SIZE],
)
    ensures indices { (q : ℕ) → q < 1024 → slice_index indices.new q ≡ changes (pattern_at W.pattern items.now) q }
    ensures values { (q : ℕ) → q < 1024 → pattern_at W.pattern values.new (changes (pattern_at W.pattern items.now) q) ≡ pattern_at W.pattern items.now q }
    ensures back { back.new ≡ items.now }
{
    let count = rle_encode(items, values, indices);
    rle_decode(&values[..count], indices, back);
}
