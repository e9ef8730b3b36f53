//! Columns stored as differences along the lanes of blocks of 1024 items.

pub mod block_comparisons;
pub mod block_sums;
pub mod blocks;
pub mod children;

ghost use Rattle.std.specs.Prelude.{◌≡◌, ◌+◌, ◌*◌, ◌<◌, ◌≤◌, ◌++◌, ◌-◌, ℕ, ℤ, List, IfOk, OnOk, Ok, length, map, take};
ghost use Rattle.fastlanes.specs.Layout.{pattern_at, place, segment};
ghost use Rattle.fl_types.specs.Integers.{read_as};
ghost use Rattle.fl_types.specs.Refusals.{Answers};
ghost use Rattle.fl_codec.specs.Deltas.{bases_to, deltas_to, encoded_delta};
ghost use Rattle.fl_codec.specs.ForwardFill.{carried_to};
ghost use Rattle.fl_codec.specs.Parts.{compress_deltas, items_of_primitive};

use crate::chunks::chunk_count;
use crate::fill_forward::fill_chunk;
use crate::plain::non_nullable;
use fastlanes::laws::words_are_in_range;
use fastlanes::{FL_CHUNK_SIZE, FastLanes, delta, transpose};
use fl_column::patterns::push_values;
use fl_column::{PhysicalPType, PrimitiveArray};
use fl_types::{FastLanesError, match_each_integer_ptype};
use std::alloc::{AllocError, Global};

/// The first words of a block, one for each lane.
fn first_row<W: FastLanes>(block: &[W; FL_CHUNK_SIZE]) -> &[W]
    ensures row { result.now ≡ take W.LANES block.now }
    ensures long { length result.now ≡ W.LANES }
{
    let words = &block[..];
    &words[..W::LANES]
}

/// Writes the deltas of a block's items in their place, and one after another the items that its
/// lanes begin with into `stored`.
fn encode_block<W: FastLanes>(block: &mut [W; FL_CHUNK_SIZE], stored: &mut [W; FL_CHUNK_SIZE])
    ensures bases { (l : ℕ) → l < W.LANES → pattern_at W.pattern stored.new l ≡ pattern_at W.pattern block.old (segment l) }
    ensures deltas { (r l : ℕ) → r < W.T → l < W.LANES → pattern_at W.pattern block.new (place r l) ≡ encoded_delta W.T (pattern_at W.pattern block.old) r l }
    ensures stored { length stored.new ≡ 1024 }
    ensures whole { length block.new ≡ 1024 }
{
    words_are_in_range(block);
    transpose(block, stored);
    delta(stored, first_row(stored), block);
}

/// Makes the deltas of chunk `k` in `block`, with the items that its lanes begin with, its bases, after each other at
/// the front of `stored`, and returns the chunk's last item. A chunk begins with the last item of the one before.
pub(crate) fn encode_chunk<T: PhysicalPType>(
    array: &PrimitiveArray,
    k: usize,
    last: T,
    block: &mut [T::Physical; FL_CHUNK_SIZE],
    stored: &mut [T::Physical; FL_CHUNK_SIZE],
) -> T
    requires same { array.now.ptype ≡ T.PTYPE }
    requires chunk { 1024 * k ≤ length array.now.slots }
    requires last { T.value last ≡ carried_to (items_of_primitive array.now) k }
    ensures last { T.value result ≡ carried_to (items_of_primitive array.now) (k + 1) }
    ensures bases { (before : List ℤ) → before ≡ bases_to T.PTYPE (items_of_primitive array.now) k → before ++ map (λ w. read_as T.PTYPE (T.Physical.pattern w)) (take T.Physical.LANES stored.new) ≡ bases_to T.PTYPE (items_of_primitive array.now) (k + 1) }
    ensures deltas { (before : List ℤ) → before ≡ deltas_to T.PTYPE (items_of_primitive array.now) k → before ++ map (λ w. read_as T.PTYPE (T.Physical.pattern w)) block.new ≡ deltas_to T.PTYPE (items_of_primitive array.now) (k + 1) }
    ensures whole { length block.new ≡ 1024 }
{
    let last = fill_chunk(array.as_slice::<T>(), array.validity(), k, last, block);
    encode_block(block, stored);
    last
}

/// Appends the bases of chunk `k`, makes its deltas in `block`, and returns its last item.
pub(crate) fn push_bases<T: PhysicalPType>(
    array: &PrimitiveArray,
    k: usize,
    last: T,
    block: &mut [T::Physical; FL_CHUNK_SIZE],
    stored: &mut [T::Physical; FL_CHUNK_SIZE],
    bases: &mut Vec<T>,
) -> Result<T, AllocError>
    requires same { array.now.ptype ≡ T.PTYPE }
    requires chunk { 1024 * k ≤ length array.now.slots }
    requires last { T.value last ≡ carried_to (items_of_primitive array.now) k }
    requires bases { map T.value bases.old.items ≡ bases_to T.PTYPE (items_of_primitive array.now) k }
    ensures last { IfOk result (λ x. T.value x ≡ carried_to (items_of_primitive array.now) (k + 1)) }
    ensures bases { OnOk result (map T.value bases.new.items ≡ bases_to T.PTYPE (items_of_primitive array.now) (k + 1)) }
    ensures deltas { OnOk result ((before : List ℤ) → before ≡ deltas_to T.PTYPE (items_of_primitive array.now) k → before ++ map (λ w. read_as T.PTYPE (T.Physical.pattern w)) block.new ≡ deltas_to T.PTYPE (items_of_primitive array.now) (k + 1)) }
{
    let last = encode_chunk(array, k, last, block, stored);
    push_values(first_row(stored), bases)?;
    Ok(last)
}

/// Appends the bases and the deltas of chunk `k`, and returns its last item.
fn push_chunk<T: PhysicalPType>(
    array: &PrimitiveArray,
    k: usize,
    last: T,
    block: &mut [T::Physical; FL_CHUNK_SIZE],
    stored: &mut [T::Physical; FL_CHUNK_SIZE],
    bases: &mut Vec<T>,
    deltas: &mut Vec<T>,
) -> Result<T, AllocError>
    requires same { array.now.ptype ≡ T.PTYPE }
    requires chunk { 1024 * k ≤ length array.now.slots }
    requires last { T.value last ≡ carried_to (items_of_primitive array.now) k }
    requires bases { map T.value bases.old.items ≡ bases_to T.PTYPE (items_of_primitive array.now) k }
    requires deltas { map T.value deltas.old.items ≡ deltas_to T.PTYPE (items_of_primitive array.now) k }
    ensures last { IfOk result (λ x. T.value x ≡ carried_to (items_of_primitive array.now) (k + 1)) }
    ensures bases { OnOk result (map T.value bases.new.items ≡ bases_to T.PTYPE (items_of_primitive array.now) (k + 1)) }
    ensures deltas { OnOk result (map T.value deltas.new.items ≡ deltas_to T.PTYPE (items_of_primitive array.now) (k + 1)) }
{
    let last = push_bases(array, k, last, block, stored, bases)?;
    push_values(&block[..], deltas)?;
    Ok(last)
}

fn compress_typed<T: PhysicalPType>(
    alloc: Global,
    array: &PrimitiveArray,
) -> Result<(PrimitiveArray, PrimitiveArray), FastLanesError>
    requires { array.now.ptype ≡ T.PTYPE }
    ensures { Answers (λ parts. parts) result (Ok (compress_deltas array.now)) }
{
    let chunks = chunk_count(array.len());
    let mut bases = Vec::with_capacity(alloc, chunks.saturating_mul(T::Physical::LANES))?;
    let mut deltas = Vec::with_capacity(alloc, chunks.saturating_mul(FL_CHUNK_SIZE))?;
    let mut block = [T::Physical::zero(); FL_CHUNK_SIZE];
    let mut stored = [T::Physical::zero(); FL_CHUNK_SIZE];
    let mut last = T::zero();
    for k in 0..chunks {
        last = push_chunk(
            array,
            k,
            last,
            &mut block,
            &mut stored,
            &mut bases,
            &mut deltas,
        )?;
    }
    Ok((non_nullable(bases), non_nullable(deltas)))
}

/// The bases and the deltas of a column's blocks of 1024 items, none of which may be null: a base
/// for each lane of a block, its first item, and in each place of a lane after it the difference
/// to the item before, modulo 2 to the type's bits. The deltas of row 0 are 0.
///
/// A null counts as the last item before it, in whatever block, or as 0 where there is none. A short
/// last block is padded with its last item.
pub fn delta_compress(
    alloc: Global,
    array: &PrimitiveArray,
) -> Result<(PrimitiveArray, PrimitiveArray), FastLanesError>
    ensures { Answers (λ parts. parts) result (Ok (compress_deltas array.now)) }
{
    match_each_integer_ptype!(array.ptype(), compress_typed(alloc, array))
}
