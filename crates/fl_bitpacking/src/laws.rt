//! Laws of every packed column.

ghost use Rattle.std.specs.Prelude.{◌≡◌, ◌<◌, ◌++◌, [], ℕ, ℤ, IsTrue, List, Option, length, slice_index, unwrap_or};
ghost use Rattle.fastlanes.specs.Layout.{word_at};
ghost use Rattle.std.specs.List.{list_all};
ghost use Rattle.fl_types.specs.Integers.{bits_of_type, fits};
ghost use Rattle.fl_types.specs.Validities.{covers};
ghost use Rattle.fl_column.specs.Columns.{PrimitiveParts, column_of_primitive};
ghost use Rattle.fl_column.specs.Chunks.{chunk_count};
ghost use Rattle.fl_patches.specs.PatchMaps.{PatchesParts};
ghost use Rattle.fl_patches.specs.PatchParts.{blocked_patches, global_patches};
ghost use Rattle.fl_bitpacking.specs.Blocks.{ArePacked, AreWords, Blocks, boundary_blocks, boundaries_of, global_blocks, pattern_in};
ghost use Rattle.fl_bitpacking.specs.Refusals.{AreConsistent};
ghost use Rattle.fl_bitpacking.specs.Columns.{column_of_packed};
ghost use Rattle.fl_bitpacking.specs.Readers.{Reader, items_in_parts};
ghost use Rattle.fl_bitpacking.specs.Restored.{AreKept};
ghost use Rattle.fl_bitpacking.specs.WholeBlocks.{WholeBlocks, after_next, block_items_at, next_items, rest_items};
ghost use Rattle.fl_types.specs.declared.dtype.PType.{PType};

use crate::packed_data::PackedData;
use fl_column::PrimitiveArray;
use fl_column::laws::stored_integers_are_in_range;

/// Packed integers decode to their column if each valid one has a patch of its own value, or no patch and
/// no more bits than the width of its block; at one width, and at a width for each block.
pub fn packed_and_back()
    ensures { (p : PrimitiveParts) (patches : Option PatchesParts) (blocks : Blocks) (bytes : List ℕ) → IsTrue (covers p.validity (length p.slots)) → IsTrue (list_all (fits p.ptype) p.slots) → ArePacked p.ptype p.slots blocks bytes → AreKept p patches blocks
        → column_of_packed (record { packed = bytes; ptype = p.ptype; validity = p.validity; patches = patches; offset = 0; len = length p.slots }) blocks ≡ column_of_primitive p }
{}

/// The patches of the exceptions at any width keep the array's integers: each valid one has a patch of its
/// own value, or no patch and no more bits than the width.
pub fn gathered_patches_are_kept(array: &PrimitiveArray)
    ensures { (width : ℕ) → AreKept array.now (global_patches width array.now) (global_blocks width) }
{
    // For the proof: the validity covers the slots.
    let _validity = array.validity();
}

/// The patches of the exceptions at a width for each block keep the array's integers, in blocks between the
/// boundaries of these widths.
pub fn gathered_blocked_patches_are_kept(array: &PrimitiveArray)
    ensures { (widths : List ℕ) → length widths ≡ chunk_count (length array.now.slots) → AreKept array.now (blocked_patches widths array.now) (boundary_blocks (boundaries_of widths)) }
{
    // For the proof: the validity covers the slots.
    let _validity = array.validity();
}

/// An array that is packed at any width, with its exceptions patched, decodes to its column, and so does
/// one that is packed and patched at any width for each block.
pub fn packed_with_patches_and_back(array: &PrimitiveArray)
    ensures even { (width : ℕ) (bytes : List ℕ) → ArePacked array.now.ptype array.now.slots (global_blocks width) bytes
        → column_of_packed (record { packed = bytes; ptype = array.now.ptype; validity = array.now.validity; patches = global_patches width array.now; offset = 0; len = length array.now.slots }) (global_blocks width) ≡ column_of_primitive array.now }
    ensures bounded { (widths : List ℕ) (bytes : List ℕ) → length widths ≡ chunk_count (length array.now.slots) → ArePacked array.now.ptype array.now.slots (boundary_blocks (boundaries_of widths)) bytes
        → column_of_packed (record { packed = bytes; ptype = array.now.ptype; validity = array.now.validity; patches = blocked_patches widths array.now; offset = 0; len = length array.now.slots }) (boundary_blocks (boundaries_of widths)) ≡ column_of_primitive array.now }
{
    // For the proof: the validity covers the slots.
    let _validity = array.validity();
    stored_integers_are_in_range(array);
}

/// Integers packed into words of their own type, at one width, have the same words as in bytes.
pub fn words_as_in_bytes()
    ensures { (ptype : PType) (integers words : List ℤ) (width : ℕ) (bytes : List ℕ) → ((i : ℕ) → slice_index bytes i < 256) → AreWords ptype integers width words → ArePacked ptype integers (global_blocks width) bytes
        → (m : ℕ) → m < length words → pattern_in ptype words m ≡ word_at (bits_of_type ptype) bytes m }
{}

/// The first block, the whole blocks and the last block of a reader, in this order, have each item
/// once.
pub fn parts_in_order()
    ensures { (ptype : PType) (r : Reader) → r.offset < 1024 → items_in_parts ptype r ≡ block_items_at ptype r.bit_width r.packed r.offset r.len }
{}

/// The whole blocks have the items of the next block, and then those of the blocks after it.
pub fn blocks_in_order()
    ensures { (ptype : PType) (b : WholeBlocks) → rest_items ptype b ≡ unwrap_or (next_items ptype b) [] ++ rest_items ptype (after_next b) }
{}

/// The parts of packed data are consistent: the offset and the length, the validity and the patches.
pub fn parts_are_consistent(data: &PackedData)
    ensures { AreConsistent data.now }
{
    let _column = data.column();
}
