//! Laws of histograms, exceptions and patches.

ghost use Rattle.std.specs.Prelude.{◌≡◌, ◌≤◌, ℕ, length, sum};
ghost use Rattle.fl_types.specs.Integers.{bits_of_type};
ghost use Rattle.fl_types.specs.Validities.{items_of};
ghost use Rattle.fl_patches.specs.Costs.{best_width, best_widths, chosen_widths, count_above};
ghost use Rattle.fl_patches.specs.Exceptions.{exception_count, histogram_of, one_width};
ghost use Rattle.fl_patches.specs.PatchParts.{blocked_patches, global_patches, patch_count};

use fl_column::PrimitiveArray;

/// A histogram counts each item once, so at most all items have more bits than a width, and its best
/// width is at most the bits of the type.
pub fn histogram_counts_each(array: &PrimitiveArray)
    ensures once { sum (histogram_of array.now.ptype (items_of array.now.validity array.now.slots)) ≡ length array.now.slots }
    ensures few { (width : ℕ) → count_above width (histogram_of array.now.ptype (items_of array.now.validity array.now.slots)) ≤ length array.now.slots }
    ensures fits { best_width array.now.ptype (histogram_of array.now.ptype (items_of array.now.validity array.now.slots)) ≤ bits_of_type array.now.ptype }
{
    // For the proof: the validity covers the slots.
    let _validity = array.validity();
}

/// The number of patches at a width is the histogram's number of items above it.
pub fn patches_are_counted(_array: &PrimitiveArray)
    ensures { (width : ℕ) → patch_count (global_patches width _array.now) ≡ count_above width (histogram_of _array.now.ptype (items_of _array.now.validity _array.now.slots)) }
{}

/// The number of patches at the best widths of the blocks is the one that is counted with the widths.
pub fn blocked_patches_are_counted(_array: &PrimitiveArray)
    ensures { patch_count (blocked_patches (best_widths _array.now.ptype (items_of _array.now.validity _array.now.slots)) _array.now) ≡ (chosen_widths _array.now.ptype (items_of _array.now.validity _array.now.slots)).exceptions }
{}
