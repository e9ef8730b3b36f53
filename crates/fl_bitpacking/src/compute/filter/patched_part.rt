//! Patches of consecutive items, found in step with the items.

ghost use Rattle.std.specs.Prelude.{◌≡◌, ◌+◌, ◌<◌, ◌≤◌, ℕ, IfSome, length, unwrap_or};
ghost use Rattle.std.specs.Option.{option_copied};
ghost use Rattle.fl_patches.specs.PatchMaps.{patched, patched_in, patches_before};
ghost use Rattle.fl_bitpacking.specs.Blocks.{value_at};
ghost use Rattle.fl_bitpacking.specs.Filtered.{count_before};

use crate::patching::ranges::{count_typed, patches_between};
use crate::patching::write_values;
use fl_patches::Patches;
use fl_types::{NativePType, match_each_integer_ptype};
use num_traits::WrappingAdd;

/// How many patches are before the first item: none.
#[tactic(auto, using(crate::proofs::PartPatches::none_first))]
pub(crate) fn patches_before_first(patches: Option<&Patches>) -> usize
    ensures { result ≡ count_before 0 (option_copied patches.entry) }
{
    if let Some(patches) = patches {
        // For the proof: the parts are accepted.
        let _indices = patches.indices();
    }
    0
}

/// How many patches are before the item at `to`, of which `before` are before an earlier one at `from`.
pub(crate) fn patches_to(patches: Option<&Patches>, from: usize, before: usize, to: usize) -> usize
    requires order { from ≤ to }
    requires before { before ≡ count_before from (option_copied patches) }
    ensures { result ≡ count_before to (option_copied patches.entry) }
{
    match patches {
        Some(patches) => {
            match_each_integer_ptype!(
                patches.indices().ptype(),
                count_typed(patches, from, before, to)
            )
        }
        None => 0,
    }
}

fn patch_typed<T: NativePType + WrappingAdd, I: NativePType>(
    patches: &Patches,
    from: usize,
    before: usize,
    after: usize,
    items: &mut [T],
)
    requires typed { patches.now.indices.ptype ≡ I.PTYPE }
    requires values { patches.now.values.ptype ≡ T.PTYPE }
    requires within { from + length items.old ≤ patches.now.array_len }
    requires few { length items.old ≤ 1024 }
    requires before { before ≡ patches_before from patches.now }
    requires after { after ≡ patches_before (from + length items.old) patches.now }
    requires order { before ≤ after }
    ensures { (i : ℕ) → i < length items.old → value_at T.value items.new i ≡ unwrap_or (patched patches.now (from + i)) (value_at T.value items.old i) }
{
    let placed = patches_between::<T, I>(patches, from, before, after);
    write_values(placed, &[], 0, items);
}

/// Writes the patches' values over what is stored. The first item is the one at `from`; there are `before`
/// patches before it, and `after` before the end of the items.
pub(crate) fn patch_part<T: NativePType + WrappingAdd>(
    patches: Option<&Patches>,
    from: usize,
    before: usize,
    after: usize,
    items: &mut [T],
)
    requires patches { IfSome (option_copied patches) (λ p. (from + length items.old ≤ p.array_len) × (p.values.ptype ≡ T.PTYPE)) }
    requires few { length items.old ≤ 1024 }
    requires before { before ≡ count_before from (option_copied patches) }
    requires after { after ≡ count_before (from + length items.old) (option_copied patches) }
    ensures { (i : ℕ) → i < length items.old → value_at T.value items.new i ≡ unwrap_or (patched_in (option_copied patches.entry) (from + i)) (value_at T.value items.old i) }
{
    let Some(patches) = patches else {
        return;
    };
    match_each_integer_ptype!(
        patches.indices().ptype(),
        patch_typed::<T>(patches, from, before, after, items)
    )
}
