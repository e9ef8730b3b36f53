//! The transposition of a delta block, and its inverse.
#![tactic(auto)]

ghost use Rattle.std.specs.Prelude.{◌≡◌, ℕ, ◌+◌, ◌*◌, ◌/◌, ◌%◌, ◌<◌, length};
ghost use Rattle.fastlanes.specs.Layout.{pattern_at};
ghost use Rattle.fastlanes.specs.Delta.{Transposed, gathered_from, moved_from, moved_to};

use crate::layout::{FL_CHUNK_SIZE, pos, seg};
use crate::widths::bits;
use crate::words::FastLanes;
use std::simd::Simd;

/// The item that is stored at `16 * g + a`.
#[tactic(auto, using(crate::proofs::Moves::moved_from_run, crate::proofs::Moves::segment_first, crate::proofs::Patterns::pattern_at_read))]
fn item_of_sixteen<W: FastLanes>(items: &[W; FL_CHUNK_SIZE], g: usize, a: usize) -> W
    requires group { g < 64 }
    requires within { a < 16 }
    ensures { W.pattern result ≡ pattern_at W.pattern items.now (moved_from (16 * g + a)) }
{
    items[64 * a + seg(16 * (g % 8)) + g / 8]
}

/// The stored word that is item `8 * h + c`.
#[tactic(auto, using(crate::proofs::Moves::moved_to_run, crate::proofs::Moves::place_low, crate::proofs::Patterns::pattern_at_read))]
fn stored_of_eight<W: FastLanes>(stored: &[W; FL_CHUNK_SIZE], h: usize, c: usize) -> W
    requires group { h < 128 }
    requires within { c < 8 }
    ensures { W.pattern result ≡ pattern_at W.pattern stored.now (moved_to (8 * h + c)) }
{
    stored[pos(8 * (h % 8) + c, h / 8)]
}

/// Writes the sixteen stored words from `16 * g` on, where those below are written.
#[inline(always)]
fn store_sixteen<W: FastLanes>(
    items: &[W; FL_CHUNK_SIZE],
    g: usize,
    stored: &mut [W; FL_CHUNK_SIZE],
)
    requires group { g < 64 }
    requires below { (i : ℕ) → i < 16 * g → pattern_at W.pattern stored.old i ≡ pattern_at W.pattern items.now (moved_from i) }
    ensures done { (i : ℕ) → i < 16 * g + 16 → pattern_at W.pattern stored.new i ≡ pattern_at W.pattern items.now (moved_from i) }
    ensures whole { length stored.new ≡ 1024 }
{
    for a in 0..16usize {
        stored[16 * g + a] = item_of_sixteen(items, g, a);
    }
}

/// Moves item `seg(l) + r` to `pos(r, l)`.
pub fn transpose<W: FastLanes>(items: &[W; FL_CHUNK_SIZE], stored: &mut [W; FL_CHUNK_SIZE])
    ensures moved { Transposed W.T W.LANES (pattern_at W.pattern items.now) (pattern_at W.pattern stored.new) }
    ensures whole { length stored.new ≡ 1024 }
{
    for k in 0..8usize {
        store_sixteen(items, 8 * k, stored);
        store_sixteen(items, 8 * k + 1, stored);
        store_sixteen(items, 8 * k + 2, stored);
        store_sixteen(items, 8 * k + 3, stored);
        store_sixteen(items, 8 * k + 4, stored);
        store_sixteen(items, 8 * k + 5, stored);
        store_sixteen(items, 8 * k + 6, stored);
        store_sixteen(items, 8 * k + 7, stored);
    }
}

/// Writes the eight items from item `8 * h` on, where the items below are written.
#[inline(always)]
fn restore_eight<W: FastLanes>(
    stored: &[W; FL_CHUNK_SIZE],
    h: usize,
    items: &mut [W; FL_CHUNK_SIZE],
)
    requires group { h < 128 }
    requires below { (i : ℕ) → i < 8 * h → pattern_at W.pattern items.old i ≡ pattern_at W.pattern stored.now (moved_to i) }
    ensures done { (i : ℕ) → i < 8 * h + 8 → pattern_at W.pattern items.new i ≡ pattern_at W.pattern stored.now (moved_to i) }
    ensures whole { length items.new ≡ 1024 }
{
    for c in 0..8usize {
        items[8 * h + c] = stored_of_eight(stored, h, c);
    }
}

/// Moves the items back one by one.
fn restore_all<W: FastLanes>(stored: &[W; FL_CHUNK_SIZE], items: &mut [W; FL_CHUNK_SIZE])
    ensures done { (i : ℕ) → i < 1024 → pattern_at W.pattern items.new i ≡ pattern_at W.pattern stored.now (moved_to i) }
    ensures whole { length items.new ≡ 1024 }
{
    for l in 0..16usize {
        restore_eight(stored, 8 * l, items);
        restore_eight(stored, 8 * l + 1, items);
        restore_eight(stored, 8 * l + 2, items);
        restore_eight(stored, 8 * l + 3, items);
        restore_eight(stored, 8 * l + 4, items);
        restore_eight(stored, 8 * l + 5, items);
        restore_eight(stored, 8 * l + 6, items);
        restore_eight(stored, 8 * l + 7, items);
    }
}

/// Writes the words of the two halves of a block in turn.
#[inline(always)]
fn interleave_halves<W: FastLanes>(words: &[W; FL_CHUNK_SIZE], target: &mut [W; FL_CHUNK_SIZE])
    ensures in_turn { (i : ℕ) → i < 1024 → pattern_at W.pattern target.new i ≡ pattern_at W.pattern words.now (i / 2 + 512 * (i % 2)) }
    ensures whole { length target.new ≡ 1024 }
{
    for k in 0..32usize {
        W::interleave(words, 16 * k, 16 * k + 512, target, 32 * k);
    }
}

/// Writes the stored words so that the eight rows of a lane from a row `8 * q` on are next to each other.
#[inline(always)]
fn gather_rows<W: FastLanes>(
    stored: &[W; FL_CHUNK_SIZE],
    scratch: &mut [W; FL_CHUNK_SIZE],
    gathered: &mut [W; FL_CHUNK_SIZE],
)
    ensures gathered { (i : ℕ) → i < 1024 → pattern_at W.pattern gathered.new i ≡ pattern_at W.pattern stored.now (i / 8 + 128 * (i % 8)) }
    ensures scratch { length scratch.new ≡ 1024 }
    ensures whole { length gathered.new ≡ 1024 }
{
    interleave_halves(stored, gathered);
    interleave_halves(gathered, scratch);
    interleave_halves(scratch, gathered);
}

/// The word of gathered rows that is item `8 * h + c`.
#[tactic(auto, using(crate::proofs::Moves::gathered_run, crate::proofs::Moves::place_low, crate::proofs::Patterns::pattern_at_read))]
fn gathered_of_eight<W: FastLanes>(gathered: &[W; FL_CHUNK_SIZE], h: usize, c: usize) -> W
    requires group { h < 128 }
    requires within { c < 8 }
    ensures { W.pattern result ≡ pattern_at W.pattern gathered.now (gathered_from (8 * h + c)) }
{
    gathered[8 * pos(8 * (h % 8), h / 8) + c]
}

/// Writes the eight items from item `8 * h` on out of gathered rows, where the items below are written.
#[inline(always)]
fn copy_eight<W: FastLanes>(gathered: &[W; FL_CHUNK_SIZE], h: usize, items: &mut [W; FL_CHUNK_SIZE])
    requires group { h < 128 }
    requires below { (i : ℕ) → i < 8 * h → pattern_at W.pattern items.old i ≡ pattern_at W.pattern gathered.now (gathered_from i) }
    ensures done { (i : ℕ) → i < 8 * h + 8 → pattern_at W.pattern items.new i ≡ pattern_at W.pattern gathered.now (gathered_from i) }
    ensures whole { length items.new ≡ 1024 }
{
    for c in 0..8usize {
        items[8 * h + c] = gathered_of_eight(gathered, h, c);
    }
}

/// Moves the items back out of gathered rows.
fn copy_all<W: FastLanes>(gathered: &[W; FL_CHUNK_SIZE], items: &mut [W; FL_CHUNK_SIZE])
    ensures done { (i : ℕ) → i < 1024 → pattern_at W.pattern items.new i ≡ pattern_at W.pattern gathered.now (gathered_from i) }
    ensures whole { length items.new ≡ 1024 }
{
    for l in 0..16usize {
        copy_eight(gathered, 8 * l, items);
        copy_eight(gathered, 8 * l + 1, items);
        copy_eight(gathered, 8 * l + 2, items);
        copy_eight(gathered, 8 * l + 3, items);
        copy_eight(gathered, 8 * l + 4, items);
        copy_eight(gathered, 8 * l + 5, items);
        copy_eight(gathered, 8 * l + 6, items);
        copy_eight(gathered, 8 * l + 7, items);
    }
}

/// Moves the items back by vectors, eight rows at a time.
fn restore_by_rows<W: FastLanes>(stored: &[W; FL_CHUNK_SIZE], items: &mut [W; FL_CHUNK_SIZE])
    ensures done { (i : ℕ) → i < 1024 → pattern_at W.pattern items.new i ≡ pattern_at W.pattern stored.now (moved_to i) }
    ensures whole { length items.new ≡ 1024 }
{
    let mut gathered = [W::zero(); FL_CHUNK_SIZE];
    gather_rows(stored, items, &mut gathered);
    copy_all(&gathered, items);
}

/// Moves the item at `pos(r, l)` back to `seg(l) + r`.
pub fn untranspose<W: FastLanes>(stored: &[W; FL_CHUNK_SIZE], items: &mut [W; FL_CHUNK_SIZE])
    ensures moved { Transposed W.T W.LANES (pattern_at W.pattern items.new) (pattern_at W.pattern stored.now) }
    ensures whole { length items.new ≡ 1024 }
{
    // Vectors of wider words take as long as single words do.
    if bits::<W>() <= 16 {
        restore_by_rows(stored, items);
    } else {
        restore_all(stored, items);
    }
}
