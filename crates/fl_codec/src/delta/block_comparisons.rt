//! Comparisons of the items of one delta block, which are summed in lanes and not put in their order.

ghost use Rattle.std.specs.Prelude.{◌≡◌, ◌<◌, ℕ, length, map, pos, slice_index_or};
ghost use Rattle.fastlanes.specs.Compared.{IsAnswer, has_bit};
ghost use Rattle.fastlanes.specs.Delta.{delta_item};
ghost use Rattle.fastlanes.specs.Layout.{pattern_at};
ghost use Rattle.fl_types.specs.Integers.{lanes_of_type, pattern_of};
ghost use Rattle.fl_codec.specs.Deltas.{block_integer};

use crate::block_items::patterns_of;
use fastlanes::{FL_CHUNK_SIZE, FastLanes, undelta_cmp};
use fl_column::PhysicalPType;

/// Compares the patterns of a block's items with `rhs` by those of its deltas and bases.
fn compare_patterns<W: FastLanes, F: Fn(W, W) -> bool + Drop>(
    deltas: &[W],
    bases: &[W],
    cmp: F,
    rhs: W,
    bits: &mut [u64; 16],
)
    requires deltas { length deltas.now ≡ 1024 }
    requires bases { length bases.now ≡ W.LANES }
    requires callable { F.IsAlwaysCallable cmp }
    ensures bits { (i : ℕ) → i < 1024 → IsAnswer W.pattern (F.post cmp) rhs (delta_item W.T (pattern_at W.pattern bases.now) (pattern_at W.pattern deltas.now) i) (has_bit bits.new i) }
    ensures whole { length bits.new ≡ 16 }
{
    match deltas.first_chunk::<FL_CHUNK_SIZE>() {
        Some(deltas) => undelta_cmp(deltas, bases, bits, cmp, rhs),
        None => unreachable!(),
    }
}

/// Compares the pattern of each item of a delta block with `rhs`: bit `i` of the output is the answer of `cmp` for item `i`
/// of the block, which is its lane's base and the deltas of the rows up to its own, modulo 2 to the type's bits. There are
/// a base for each lane and 1024 deltas. What is in `row` and `differences` does not count, before or after. Nothing is
/// allocated.
pub fn compare_sums<T: PhysicalPType, F: Fn(T::Physical, T::Physical) -> bool + Drop>(
    bases: &[T],
    deltas: &[T],
    row: &mut [T::Physical; FL_CHUNK_SIZE],
    differences: &mut [T::Physical; FL_CHUNK_SIZE],
    cmp: F,
    rhs: T::Physical,
    bits: &mut [u64; 16],
)
    requires bases { length bases.now ≡ lanes_of_type T.PTYPE }
    requires deltas { length deltas.now ≡ 1024 }
    requires callable { F.IsAlwaysCallable cmp }
    ensures bits { (i : ℕ) → i < 1024 → IsAnswer T.Physical.pattern (F.post cmp) rhs (pattern_of T.PTYPE (block_integer T.PTYPE (λ k. slice_index_or (map T.value bases.now) k (pos 0)) (λ k. slice_index_or (map T.value deltas.now) k (pos 0)) 0 i)) (has_bit bits.new i) }
    ensures whole { length bits.new ≡ 16 }
{
    let first = patterns_of(bases, row);
    let differences = patterns_of(deltas, differences);
    compare_patterns(differences, first, cmp, rhs, bits);
}
