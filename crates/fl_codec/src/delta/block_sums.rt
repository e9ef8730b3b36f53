//! The items of one delta block.

ghost use Rattle.std.specs.Prelude.{◌≡◌, ◌+◌, ◌<◌, ◌≤◌, ℕ, length, map, pos, slice_index_or};
ghost use Rattle.fastlanes.specs.Delta.{delta_item};
ghost use Rattle.fastlanes.specs.Layout.{pattern_at};
ghost use Rattle.fl_types.specs.Integers.{lanes_of_type};
ghost use Rattle.fl_codec.specs.Deltas.{block_integer};

use crate::block_items::{patterns_of, write_values};
use fastlanes::{FL_CHUNK_SIZE, FastLanes, undelta_to_items};
use fl_column::PhysicalPType;

/// Writes the patterns of a block's items by those of its deltas and bases.
fn sum_patterns<W: FastLanes>(deltas: &[W], bases: &[W], block: &mut [W; FL_CHUNK_SIZE])
    requires deltas { length deltas.now ≡ 1024 }
    requires bases { length bases.now ≡ W.LANES }
    ensures items { (q : ℕ) → q < 1024 → pattern_at W.pattern block.new q ≡ delta_item W.T (pattern_at W.pattern bases.now) (pattern_at W.pattern deltas.now) q }
    ensures whole { length block.new ≡ 1024 }
{
    match deltas.first_chunk::<FL_CHUNK_SIZE>() {
        Some(deltas) => undelta_to_items(deltas, bases, block),
        None => unreachable!(),
    }
}

/// Writes the items of a delta block from position `low` on, as many as there are: each is its lane's base and the
/// deltas of the rows up to its own, modulo 2 to the type's bits. There are a base for each lane and 1024 deltas. What
/// is in `row`, `differences` and `block` does not count, before or after. Nothing is allocated.
pub fn sum_block<T: PhysicalPType>(
    bases: &[T],
    deltas: &[T],
    row: &mut [T::Physical; FL_CHUNK_SIZE],
    differences: &mut [T::Physical; FL_CHUNK_SIZE],
    block: &mut [T::Physical; FL_CHUNK_SIZE],
    low: usize,
    items: &mut [T],
)
    requires bases { length bases.now ≡ lanes_of_type T.PTYPE }
    requires deltas { length deltas.now ≡ 1024 }
    requires within { low + length items.old ≤ 1024 }
    ensures { (i : ℕ) → i < length items.old → slice_index_or (map T.value items.new) i (pos 0) ≡ block_integer T.PTYPE (λ k. slice_index_or (map T.value bases.now) k (pos 0)) (λ k. slice_index_or (map T.value deltas.now) k (pos 0)) 0 (low + i) }
{
    let first = patterns_of(bases, row);
    let differences = patterns_of(deltas, differences);
    sum_patterns(differences, first, block);
    let words = &block[..];
    write_values(&words[low..low + items.len()], items);
}
