//! The items of a chunk whose nulls and padding are filled.

ghost use Rattle.std.specs.Prelude.{◌≡◌, ◌*◌, ◌<◌, ◌≤◌, ℕ, length, map, pos, slice_index_or};
ghost use Rattle.fastlanes.specs.Layout.{pattern_at};
ghost use Rattle.fl_types.specs.Integers.{read_as};
ghost use Rattle.fl_codec.specs.ForwardFill.{Reset, fill_forward};
ghost use Rattle.fl_codec.specs.Parts.{items_of_primitive};
ghost use Rattle.fl_codec.specs.Dictionaries.{items_in_chunk};

use crate::fill_forward::fill_chunk;
use fastlanes::FL_CHUNK_SIZE;
use fl_column::{PhysicalPType, PrimitiveArray};

/// Writes the values of a block of patterns.
fn read_patterns<T: PhysicalPType>(
    block: &[T::Physical; FL_CHUNK_SIZE],
    items: &mut [T; FL_CHUNK_SIZE],
)
    ensures items { (i : ℕ) → i < 1024 → slice_index_or (map T.value items.new) i (pos 0) ≡ read_as T.PTYPE (pattern_at T.Physical.pattern block.now i) }
    ensures whole { length items.new ≡ 1024 }
{
    for i in 0..FL_CHUNK_SIZE {
        items[i] = T::from_physical(block[i]);
    }
}

/// Writes the items of chunk `k`, each null and each place of the padding as the last item before it in the chunk, or 0.
pub(crate) fn fill_items<T: PhysicalPType>(
    array: &PrimitiveArray,
    k: usize,
    block: &mut [T::Physical; FL_CHUNK_SIZE],
    items: &mut [T; FL_CHUNK_SIZE],
)
    requires same { array.now.ptype ≡ T.PTYPE }
    requires chunk { 1024 * k ≤ length array.now.slots }
    ensures { map T.value items.new ≡ items_in_chunk (fill_forward Reset (items_of_primitive array.now)) k }
{
    fill_chunk(array.as_slice::<T>(), array.validity(), k, T::zero(), block);
    read_patterns::<T>(block, items);
}
