//! The values of patches at positions.

ghost use Rattle.std.specs.Prelude.{◌≡◌, ◌<◌, ◌+◌, ◌/◌, ℕ, IfSome, IsTrue, length, map, slice_index, slice_set, unwrap_or};
ghost use Rattle.std.specs.Option.{option_copied};
ghost use Rattle.fl_column.specs.Numbers.{numbers, numbers_by};
ghost use Rattle.fl_patches.specs.PatchMaps.{IsChunkRange, IsSearchRange, is_rising, patched, patched_in};
ghost use Rattle.fl_bitpacking.specs.Blocks.{value_at};
ghost use Rattle.fl_bitpacking.specs.Placed.{value_beside};

use crate::patching::write_at;
use fastlanes::FL_CHUNK_SIZE;
use fl_patches::Patches;
use fl_patches::indices::rank_between;
use fl_types::{NativePType, match_each_integer_ptype};

/// Where among the indices of patches those of a chunk's positions are searched: from `start` to below
/// `end`.
#[derive(Clone, Copy)]
struct ChunkRange {
    chunk: usize,
    start: usize,
    end: usize,
}

impl ChunkRange {
    /// The range of the chunk of a position.
    fn of(patches: &Patches, position: usize) -> ChunkRange
        ensures chunk { result.chunk ≡ position / 1024 }
        ensures range { IsChunkRange patches.now result.chunk result.start result.end }
    {
        let (start, end) = patches.search_range(position);
        ChunkRange {
            chunk: position / FL_CHUNK_SIZE,
            start,
            end,
        }
    }

    /// The range of the chunk of another position, which is often the same chunk.
    fn moved_to(self, patches: &Patches, position: usize) -> ChunkRange
        requires { IsChunkRange patches.now self.chunk self.start self.end }
        ensures chunk { result.chunk ≡ position / 1024 }
        ensures range { IsChunkRange patches.now result.chunk result.start result.end }
    {
        if position / FL_CHUNK_SIZE == self.chunk {
            self
        } else {
            ChunkRange::of(patches, position)
        }
    }
}

/// The value beside an index, or what is stored where there is no such index.
fn patched_or<T: NativePType, I: NativePType>(
    indices: &[I],
    values: &[T],
    range: ChunkRange,
    index: u128,
    stored: T,
) -> T
    requires rising { IsTrue (is_rising (numbers_by I.value indices.now)) }
    requires even { length values.now ≡ length indices.now }
    requires range { IsSearchRange index (numbers_by I.value indices.now) range.start range.end }
    ensures { T.value result ≡ unwrap_or (value_beside (numbers_by I.value indices.now) (map T.value values.now) index) (T.value stored) }
{
    match rank_between(indices, range.start, range.end, index) {
        Some(rank) => values[rank],
        None => stored,
    }
}

/// Writes the values of the patches of these positions over what is stored. A chunk's range is
/// looked up once where positions in it follow one another.
fn patch_values<T: NativePType, I: NativePType>(
    patches: &Patches,
    indices: &[I],
    values: &[T],
    positions: &[usize],
    items: &mut [T],
)
    requires indices { numbers patches.now.indices ≡ numbers_by I.value indices.now }
    requires rising { IsTrue (is_rising (numbers_by I.value indices.now)) }
    requires even { length values.now ≡ length indices.now }
    requires long { length items.old ≡ length positions.now }
    ensures { (i : ℕ) → i < length items.old → value_at T.value items.new i ≡ unwrap_or (value_beside (numbers_by I.value indices.now) (map T.value values.now) (patches.now.offset + slice_index positions.now i)) (value_at T.value items.old i) }
{
    let offset = patches.offset();
    let mut range = ChunkRange::of(patches, 0);
    for k in 0..positions.len() {
        let position = positions[k];
        range = range.moved_to(patches, position);
        let index = offset as u128 + position as u128;
        let item = patched_or(indices, values, range, index, items[k]);
        write_at(items, k, item);
    }
}

fn patch_typed<T: NativePType, I: NativePType>(
    patches: &Patches,
    positions: &[usize],
    items: &mut [T],
)
    requires typed { patches.now.indices.ptype ≡ I.PTYPE }
    requires values { patches.now.values.ptype ≡ T.PTYPE }
    requires long { length items.old ≡ length positions.now }
    ensures { (i : ℕ) → i < length items.old → value_at T.value items.new i ≡ unwrap_or (patched patches.now (slice_index positions.now i)) (value_at T.value items.old i) }
{
    let indices = patches.indices().as_slice::<I>();
    let values = patches.values().as_slice::<T>();
    patch_values(patches, indices, values, positions, items);
}

/// Writes the patches of these positions over what is stored.
fn patch_items<T: NativePType>(patches: &Patches, positions: &[usize], items: &mut [T])
    requires values { patches.now.values.ptype ≡ T.PTYPE }
    requires long { length items.old ≡ length positions.now }
    ensures { (i : ℕ) → i < length items.old → value_at T.value items.new i ≡ unwrap_or (patched patches.now (slice_index positions.now i)) (value_at T.value items.old i) }
{
    match_each_integer_ptype!(
        patches.indices().ptype(),
        patch_typed::<T>(patches, positions, items)
    )
}

/// The items at these positions, as they are stored, with the patches of the positions at their indices,
/// if there are patches.
pub(crate) fn with_patches_at<T: NativePType>(
    mut items: Vec<T>,
    patches: Option<&Patches>,
    positions: &[usize],
) -> Vec<T>
    requires values { IfSome (option_copied patches) (λ p. p.values.ptype ≡ T.PTYPE) }
    requires long { length items.items ≡ length positions.now }
    ensures long { length result.items ≡ length items.items }
    ensures items { (i : ℕ) → i < length items.items → value_at T.value result.items i ≡ unwrap_or (patched_in (option_copied patches.entry) (slice_index positions.now i)) (value_at T.value items.items i) }
{
    if let Some(patches) = patches {
        patch_items(patches, positions, &mut items);
    }
    items
}
