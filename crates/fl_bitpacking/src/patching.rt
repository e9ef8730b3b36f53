//! Applying patches to a column.

pub(crate) mod ranges;

ghost use Rattle.std.specs.Prelude.{◌≡◌, ◌<◌, ◌≤◌, ◌+◌, ◌/◌, ◌^◌, ℕ, length, map, option_map, slice_index, slice_set, unwrap_or};
ghost use Rattle.fl_column.specs.Numbers.{numbers_by};
ghost use Rattle.fl_patches.specs.PatchMaps.{patched};
ghost use Rattle.fl_bitpacking.specs.Blocks.{value_at};
ghost use Rattle.fl_bitpacking.specs.BlockSums.{plus_block_reference};
ghost use Rattle.fl_bitpacking.specs.Placed.{ArePlacedIn, value_placed};

use crate::bitpack_decompress::block_decoding::plus_reference;
use fastlanes::FL_CHUNK_SIZE;
use fl_column::number_at;
use fl_patches::Patches;
use fl_types::{NativePType, match_each_integer_ptype};
use num_traits::WrappingAdd;

/// Writes one item.
pub(crate) fn write_at<T: NativePType>(items: &mut [T], at: usize, item: T)
    requires { at < length items.old }
    ensures { items.new ≡ slice_set items.old at item }
{
    items[at] = item;
}

/// The position that an index names.
pub(crate) fn place_of<I: NativePType>(indices: &[I], k: usize, offset: usize) -> usize
    requires range { k < length indices.now }
    requires above { offset ≤ slice_index (numbers_by I.value indices.now) k }
    ensures { offset + result ≡ slice_index (numbers_by I.value indices.now) k }
{
    number_at(indices, k) - offset
}

/// Values with the indices of the places that they are put in.
#[derive(Clone, Copy)]
pub(crate) struct PlacedValues<'a, T, I> {
    /// The indices, which rise.
    pub(crate) indices: &'a [I],
    /// The value beside each index.
    pub(crate) values: &'a [T],
    /// The index of place 0.
    pub(crate) offset: usize,
}

/// The values of all patches, by the items.
pub(crate) fn all_patches<T: NativePType, I: NativePType>(
    patches: &Patches,
) -> PlacedValues<'_, T, I>
    requires typed { patches.now.indices.ptype ≡ I.PTYPE }
    requires values { patches.now.values.ptype ≡ T.PTYPE }
    ensures placed { ArePlacedIn I.value patches.now.array_len result }
    ensures values { (i : ℕ) → value_placed I.value T.value result i ≡ patched patches.now i }
{
    let indices = patches.indices().as_slice::<I>();
    let values = patches.values().as_slice::<T>();
    PlacedValues {
        indices,
        values,
        offset: patches.offset(),
    }
}

/// Writes values, plus the references of their blocks, in their places. Place 0 is at position `first` of the blocks.
pub(crate) fn write_values<T: NativePType + WrappingAdd, I: NativePType>(
    placed: PlacedValues<T, I>,
    references: &[T],
    first: usize,
    items: &mut [T],
)
    requires few { first + length items.old < 2 ^ 64 }
    requires placed { ArePlacedIn I.value (length items.old) placed }
    ensures { (i : ℕ) → i < length items.old → value_at T.value items.new i ≡ unwrap_or (option_map (plus_block_reference T.PTYPE (map T.value references.now) ((first + i) / 1024)) (value_placed I.value T.value placed.entry i)) (value_at T.value items.old i) }
{
    for k in 0..placed.indices.len() {
        let place = place_of(placed.indices, k, placed.offset);
        let j = (first + place) / FL_CHUNK_SIZE;
        let item = plus_reference(references, j, placed.values[k]);
        write_at(items, place, item);
    }
}

fn write_typed<T: NativePType + WrappingAdd, I: NativePType>(
    patches: &Patches,
    references: &[T],
    first: usize,
    items: &mut [T],
)
    requires few { first + length items.old < 2 ^ 64 }
    requires typed { patches.now.indices.ptype ≡ I.PTYPE }
    requires values { patches.now.values.ptype ≡ T.PTYPE }
    requires long { length items.old ≡ patches.now.array_len }
    ensures { (i : ℕ) → i < length items.old → value_at T.value items.new i ≡ unwrap_or (option_map (plus_block_reference T.PTYPE (map T.value references.now) ((first + i) / 1024)) (patched patches.now i)) (value_at T.value items.old i) }
{
    let placed = all_patches::<T, I>(patches);
    write_values(placed, references, first, items);
}

/// Writes the patches' values, plus the references of their blocks, at their indices. Item 0 is at `first` in
/// its block.
pub(crate) fn write_patches<T: NativePType + WrappingAdd>(
    patches: &Patches,
    references: &[T],
    first: usize,
    items: &mut [T],
)
    requires few { first + length items.old < 2 ^ 64 }
    requires values { patches.now.values.ptype ≡ T.PTYPE }
    requires long { length items.old ≡ patches.now.array_len }
    ensures { (i : ℕ) → i < length items.old → value_at T.value items.new i ≡ unwrap_or (option_map (plus_block_reference T.PTYPE (map T.value references.now) ((first + i) / 1024)) (patched patches.now i)) (value_at T.value items.old i) }
{
    match_each_integer_ptype!(
        patches.indices().ptype(),
        write_typed::<T>(patches, references, first, items)
    )
}
