//! Patches of consecutive items.

ghost use Rattle.std.specs.Prelude.{◌≡◌, ◌+◌, ◌/◌, ◌<◌, ◌≤◌, ◌^◌, ℕ, IfSome, IsTrue, length, map, nat_lt, option_map, unsigned_abs, unwrap_or};
ghost use Rattle.std.specs.Option.{option_copied};
ghost use Rattle.fl_types.specs.Bits.{between};
ghost use Rattle.fl_column.specs.Numbers.{numbers_by};
ghost use Rattle.fl_patches.specs.PatchMaps.{count_below, is_rising, patched, patched_in, patches_before};
ghost use Rattle.fl_bitpacking.specs.Blocks.{value_at};
ghost use Rattle.fl_bitpacking.specs.BlockSums.{plus_block_reference};
ghost use Rattle.fl_bitpacking.specs.Placed.{ArePlacedIn, value_placed};

use crate::patching::{PlacedValues, write_values};
use fl_column::number_at;
use fl_patches::Patches;
use fl_types::{NativePType, match_each_integer_ptype};
use num_traits::WrappingAdd;

/// How many of the rising indices are below a limit, found by halving.
fn count_below<I: NativePType>(indices: &[I], limit: u128) -> usize
    requires { IsTrue (is_rising (numbers_by I.value indices.now)) }
    ensures { result ≡ count_below limit (numbers_by I.value indices.now) }
{
    indices.partition_point(
        |index: &I| -> bool
            ensures { result ≡ nat_lt (unsigned_abs (I.value index.now)) limit }
        { (index.unsigned_abs() as u128) < limit },
    )
}

/// How many of the rising indices are below a limit, of which `start` are known to be.
fn count_from<I: NativePType>(indices: &[I], start: usize, limit: u128) -> usize
    requires rising { IsTrue (is_rising (numbers_by I.value indices.now)) }
    requires start { start ≤ count_below limit (numbers_by I.value indices.now) }
    ensures { result ≡ count_below limit (numbers_by I.value indices.now) }
{
    for k in start..indices.len() {
        if number_at(indices, k) as u128 >= limit {
            return k;
        }
    }
    indices.len()
}

/// How many patches are before the item at `from`.
pub(crate) fn count_before<I: NativePType>(patches: &Patches, from: usize) -> usize
    requires { patches.now.indices.ptype ≡ I.PTYPE }
    ensures { result ≡ patches_before from patches.now }
{
    let indices = patches.indices().as_slice::<I>();
    let limit = patches.offset() as u128 + from as u128;
    count_below(indices, limit)
}

/// How many patches are before the item at `to`, of which `before` are before an earlier one at `from`.
pub(crate) fn count_typed<I: NativePType>(
    patches: &Patches,
    from: usize,
    before: usize,
    to: usize,
) -> usize
    requires typed { patches.now.indices.ptype ≡ I.PTYPE }
    requires order { from ≤ to }
    requires before { before ≡ patches_before from patches.now }
    ensures count { result ≡ patches_before to patches.now }
    ensures order { before ≤ result }
    ensures within { result ≤ length patches.now.indices.slots }
{
    let indices = patches.indices().as_slice::<I>();
    let limit = patches.offset() as u128 + to as u128;
    count_from(indices, before, limit)
}

/// The elements from `start` to below `end`.
fn part_of<T: NativePType>(items: &[T], start: usize, end: usize) -> &[T]
    requires order { start ≤ end }
    requires within { end ≤ length items.now }
    ensures { result.now ≡ between start end items.now }
{
    &items[start..end]
}

/// The values of the patches from `before` to below `after`, by the items from `from` on, before which there are `before`.
pub(crate) fn patches_between<T: NativePType, I: NativePType>(
    patches: &Patches,
    from: usize,
    before: usize,
    after: usize,
) -> PlacedValues<'_, T, I>
    requires typed { patches.now.indices.ptype ≡ I.PTYPE }
    requires values { patches.now.values.ptype ≡ T.PTYPE }
    requires before { before ≡ patches_before from patches.now }
    requires order { before ≤ after }
    requires within { after ≤ length patches.now.indices.slots }
    ensures placed { (n : ℕ) → after ≡ patches_before (from + n) patches.now → ArePlacedIn I.value n result }
    ensures values { (n i : ℕ) → after ≡ patches_before (from + n) patches.now → i < n → value_placed I.value T.value result i ≡ patched patches.now (from + i) }
{
    let indices = patches.indices().as_slice::<I>();
    let values = patches.values().as_slice::<T>();
    if before == after {
        return PlacedValues {
            indices: &[],
            values: &[],
            offset: 0,
        };
    }
    // For the proof: an index is below 2 ^ 64, and so is the sum.
    let _index = number_at(indices, before);
    let offset = patches.offset() + from;
    let indices = part_of(indices, before, after);
    let values = part_of(values, before, after);
    PlacedValues {
        indices,
        values,
        offset,
    }
}

fn write_typed<T: NativePType + WrappingAdd, I: NativePType>(
    patches: &Patches,
    from: usize,
    references: &[T],
    first: usize,
    items: &mut [T],
)
    requires typed { patches.now.indices.ptype ≡ I.PTYPE }
    requires values { patches.now.values.ptype ≡ T.PTYPE }
    requires within { from + length items.old ≤ patches.now.array_len }
    requires few { first + length items.old < 2 ^ 64 }
    ensures { (i : ℕ) → i < length items.old → value_at T.value items.new i ≡ unwrap_or (option_map (plus_block_reference T.PTYPE (map T.value references.now) ((first + i) / 1024)) (patched patches.now (from + i))) (value_at T.value items.old i) }
{
    // For the proof: the items end below 2 ^ 64.
    let _len = patches.array_len();
    let before = count_before::<I>(patches, from);
    let after = count_typed::<I>(patches, from, before, from + items.len());
    let placed = patches_between::<T, I>(patches, from, before, after);
    write_values(placed, references, first, items);
}

/// Writes the patches' values, plus the references of their blocks, over items, if there are patches. The first item
/// is the one at `from`, at position `first` of the blocks.
pub(crate) fn write_patches_from<T: NativePType + WrappingAdd>(
    patches: Option<&Patches>,
    from: usize,
    references: &[T],
    first: usize,
    items: &mut [T],
)
    requires patches { IfSome (option_copied patches) (λ p. (from + length items.old ≤ p.array_len) × (p.values.ptype ≡ T.PTYPE)) }
    requires few { first + length items.old < 2 ^ 64 }
    ensures { (i : ℕ) → i < length items.old → value_at T.value items.new i ≡ unwrap_or (option_map (plus_block_reference T.PTYPE (map T.value references.now) ((first + i) / 1024)) (patched_in (option_copied patches.entry) (from + i))) (value_at T.value items.old i) }
{
    let Some(patches) = patches else {
        return;
    };
    match_each_integer_ptype!(
        patches.indices().ptype(),
        write_typed::<T>(patches, from, references, first, items)
    )
}
