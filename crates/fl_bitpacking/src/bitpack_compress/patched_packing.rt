//! Packing columns block by block, with the exceptions of each block beside its bytes.

ghost use Rattle.std.specs.Prelude.{◌≡◌, ◌&&◌, ◌+◌, ◌*◌, ◌<◌, ◌≤◌, ℕ, IfOk, IsTrue, None, Some, length, map, slice_index, if◌then◌else◌};
ghost use Rattle.std.specs.List.{list_any};
ghost use Rattle.fastlanes.specs.Layout.{Packed, word_at};
ghost use Rattle.fl_types.specs.Bits.{between};
ghost use Rattle.fl_types.specs.declared.error.FastLanesError.TheVariants.{NegativeValue};
ghost use Rattle.fl_types.specs.Integers.{bits_of_type, lanes_of_type, smallest_type};
ghost use Rattle.fl_types.specs.Validities.{covers, items_of};
ghost use Rattle.fl_column.specs.Chunks.{chunk_count};
ghost use Rattle.fl_patches.specs.Exceptions.{exceptions_of, is_negative};
ghost use Rattle.fl_patches.specs.PatchParts.{HasBlocks, blocked_patches, exception_patches, global_patches};
ghost use Rattle.fl_patches.specs.Widths.{NamesAll, width_at};
ghost use Rattle.fl_bitpacking.specs.Blocks.{AreJoined, ArePacked, AreWithin, blocks_of, boundaries_of, boundary_array, boundary_blocks, bytes_of_block, global_blocks, pattern_in};
ghost use Rattle.fl_bitpacking.specs.Encoders.{AnswersUnless};

use crate::bit_packed::BitPacked;
use crate::bitpack_compress::push_block;
use crate::boundaries::{boundary_array, packed_size};
use bytes::Bytes;
use fastlanes::FL_CHUNK_SIZE;
use fl_column::{PhysicalPType, PrimitiveArray, chunk_count, chunk_of};
use fl_patches::block_widths::has_negative_in_block;
use fl_patches::{BlockExceptions, Patches, Widths};
use fl_types::{FastLanesError, NativePType, Validity, match_each_integer_ptype};
use std::alloc::Global;

/// Whether an item of a block is negative and not null, where that is refused.
fn is_refused<T: NativePType>(
    items: &[T],
    validity: &Validity,
    block: usize,
    refuses_negative: bool,
) -> bool
    requires covers { IsTrue (covers validity.now (length items.now)) }
    requires begun { 1024 * block < length items.now }
    ensures { result ≡ (refuses_negative && list_any is_negative (between (1024 * block) (1024 * (block + 1)) (items_of validity.now (map T.value items.now)))) }
{
    refuses_negative && has_negative_in_block(items, validity, block)
}

/// The packed blocks of these integers, and their exceptions, of which there are about `hint`. A block is packed and its
/// exceptions are gathered while its integers are in the cache.
///
/// # Errors
/// `NegativeValue` if an item is negative and not null, where that is refused.
fn pack_blocks<T: BitPacked + PhysicalPType>(
    alloc: Global,
    widths: Widths,
    items: &[T],
    validity: &Validity,
    size: usize,
    hint: usize,
    refuses_negative: bool,
) -> Result<(Vec<u8>, BlockExceptions<T>), FastLanesError>
    requires covers { IsTrue (covers validity.now (length items.now)) }
    requires names { NamesAll widths (chunk_count (length items.now)) }
    requires within { AreWithin (bits_of_type T.PTYPE) (chunk_count (length items.now)) size (blocks_of widths) }
    requires joined { AreJoined (chunk_count (length items.now)) size (blocks_of widths) }
    ensures refusal { AnswersUnless (if refuses_negative && list_any is_negative (items_of validity.now (map T.value items.now)) then Some NegativeValue else None) result }
    ensures long { IfOk result (λ r. length r.0.items ≡ size) }
    ensures each { IfOk result (λ r. (j : ℕ) → j < chunk_count (length items.now) → Packed (bits_of_type T.PTYPE) (lanes_of_type T.PTYPE) ((blocks_of widths.entry).width j) (λ q. pattern_in T.PTYPE (map T.value items.now) (1024 * j + q)) (word_at (bits_of_type T.PTYPE) (bytes_of_block (blocks_of widths.entry) r.0.items j))) }
    ensures exceptions { IfOk result (λ r. HasBlocks r.1.found.places.items (map T.value r.1.found.values.items) r.1.offsets.items (exceptions_of T.PTYPE (width_at widths.entry) (items_of validity.now (map T.value items.now))) (chunk_count (length items.now))) }
{
    let blocks = chunk_count(items.len());
    let mut bytes = Vec::with_capacity(alloc, size)?;
    let mut exceptions = BlockExceptions::with_capacity(alloc, hint.min(items.len()), blocks)?;
    for j in 0..blocks {
        if is_refused(items, validity, j, refuses_negative) {
            return Err(FastLanesError::NegativeValue);
        }
        let width = widths.of_block(j);
        push_block(width, chunk_of(items, j), &mut bytes)?;
        exceptions.push_block(items, validity, width, j)?;
    }
    Ok((bytes, exceptions))
}

fn pack_typed<T: BitPacked + PhysicalPType>(
    alloc: Global,
    array: &PrimitiveArray,
    widths: Widths,
    size: usize,
    holds: usize,
    hint: usize,
    refuses_negative: bool,
) -> Result<(Vec<u8>, Option<Patches>), FastLanesError>
    requires typed { array.now.ptype ≡ T.PTYPE }
    requires names { NamesAll widths (chunk_count (length array.now.slots)) }
    requires within { AreWithin (bits_of_type array.now.ptype) (chunk_count (length array.now.slots)) size (blocks_of widths) }
    requires joined { AreJoined (chunk_count (length array.now.slots)) size (blocks_of widths) }
    requires holds { length array.now.slots ≤ holds }
    ensures refusal { AnswersUnless (if refuses_negative && list_any is_negative (items_of array.now.validity array.now.slots) then Some NegativeValue else None) result }
    ensures packed { IfOk result (λ r. ArePacked array.now.ptype array.now.slots (blocks_of widths.entry) r.0.items) }
    ensures patches { IfOk result (λ r. r.1 ≡ exception_patches (smallest_type holds) (width_at widths.entry) array.now) }
{
    let items = array.as_slice::<T>();
    let validity = array.validity();
    let (bytes, exceptions) = pack_blocks(
        alloc,
        widths,
        items,
        validity,
        size,
        hint,
        refuses_negative,
    )?;
    let patches = exceptions.into_patches(alloc, array, holds)?;
    Ok((bytes, patches))
}

/// The same at the type of the array's items.
fn pack_slots(
    alloc: Global,
    array: &PrimitiveArray,
    widths: Widths,
    size: usize,
    holds: usize,
    hint: usize,
    refuses_negative: bool,
) -> Result<(Vec<u8>, Option<Patches>), FastLanesError>
    requires names { NamesAll widths (chunk_count (length array.now.slots)) }
    requires within { AreWithin (bits_of_type array.now.ptype) (chunk_count (length array.now.slots)) size (blocks_of widths) }
    requires joined { AreJoined (chunk_count (length array.now.slots)) size (blocks_of widths) }
    requires holds { length array.now.slots ≤ holds }
    ensures refusal { AnswersUnless (if refuses_negative && list_any is_negative (items_of array.now.validity array.now.slots) then Some NegativeValue else None) result }
    ensures packed { IfOk result (λ r. ArePacked array.now.ptype array.now.slots (blocks_of widths.entry) r.0.items) }
    ensures patches { IfOk result (λ r. r.1 ≡ exception_patches (smallest_type holds) (width_at widths.entry) array.now) }
{
    match_each_integer_ptype!(
        array.ptype(),
        pack_typed(alloc, array, widths, size, holds, hint, refuses_negative)
    )
}

/// The packed low bits of an array's integers, also of those under a null, and patches for the valid items that have
/// more bits than the width of their block. The indices of the patches are of the smallest type that holds a number,
/// which is at least the array's length.
///
/// # Errors
/// `NegativeValue` if a valid item is negative, where that is refused.
fn pack_with_patches(
    alloc: Global,
    array: &PrimitiveArray,
    widths: Widths,
    size: usize,
    holds: usize,
    hint: usize,
    refuses_negative: bool,
) -> Result<(Bytes, Option<Patches>), FastLanesError>
    requires names { NamesAll widths (chunk_count (length array.now.slots)) }
    requires within { AreWithin (bits_of_type array.now.ptype) (chunk_count (length array.now.slots)) size (blocks_of widths) }
    requires joined { AreJoined (chunk_count (length array.now.slots)) size (blocks_of widths) }
    requires holds { length array.now.slots ≤ holds }
    ensures refusal { AnswersUnless (if refuses_negative && list_any is_negative (items_of array.now.validity array.now.slots) then Some NegativeValue else None) result }
    ensures packed { IfOk result (λ r. ArePacked array.now.ptype array.now.slots (blocks_of widths.entry) r.0) }
    ensures patches { IfOk result (λ r. r.1 ≡ exception_patches (smallest_type holds) (width_at widths.entry) array.now) }
{
    let (bytes, patches) = pack_slots(alloc, array, widths, size, holds, hint, refuses_negative)?;
    let packed = Bytes::from_vec(bytes)?;
    Ok((packed, patches))
}

/// The same at one width, which is at most the type's bits.
pub(crate) fn pack_at_width(
    alloc: Global,
    array: &PrimitiveArray,
    width: u8,
    hint: usize,
    refuses_negative: bool,
) -> Result<(Bytes, Option<Patches>), FastLanesError>
    requires { width ≤ bits_of_type array.now.ptype }
    ensures refusal { AnswersUnless (if refuses_negative && list_any is_negative (items_of array.now.validity array.now.slots) then Some NegativeValue else None) result }
    ensures packed { IfOk result (λ r. ArePacked array.now.ptype array.now.slots (global_blocks width) r.0) }
    ensures patches { IfOk result (λ r. r.1 ≡ global_patches width array.now) }
{
    let len = array.len();
    let width = usize::from(width);
    let widths = Widths::Global(width);
    let holds = len.saturating_add(1);
    match (FL_CHUNK_SIZE / 8 * width).checked_mul(chunk_count(len)) {
        Some(size) => {
            pack_with_patches(alloc, array, widths, size, holds, hint, refuses_negative)
        }
        None => Err(FastLanesError::OutOfMemory),
    }
}

/// The same at a width for each block, at most the type's bits, and the boundaries of the blocks. The indices of the
/// patches are of the smallest type that holds the length.
pub(crate) fn pack_at_widths(
    alloc: Global,
    array: &PrimitiveArray,
    widths: &[u8],
    hint: usize,
    refuses_negative: bool,
) -> Result<(Bytes, Option<Patches>, PrimitiveArray), FastLanesError>
    requires count { length widths.now ≡ chunk_count (length array.now.slots) }
    requires narrow { (j : ℕ) → j < length widths.now → slice_index widths.now j ≤ bits_of_type array.now.ptype }
    ensures refusal { AnswersUnless (if refuses_negative && list_any is_negative (items_of array.now.validity array.now.slots) then Some NegativeValue else None) result }
    ensures packed { IfOk result (λ r. ArePacked array.now.ptype array.now.slots (boundary_blocks (boundaries_of widths.now)) r.0) }
    ensures patches { IfOk result (λ r. r.1 ≡ blocked_patches widths.now array.now) }
    ensures boundaries { IfOk result (λ r. r.2 ≡ boundary_array widths.now) }
{
    let len = array.len();
    match packed_size(widths) {
        Some(size) => {
            let boundaries = boundary_array(alloc, widths, size)?;
            let widths = Widths::PerBlock(widths);
            let (packed, patches) = pack_with_patches(
                alloc,
                array,
                widths,
                size,
                len,
                hint,
                refuses_negative,
            )?;
            Ok((packed, patches, boundaries))
        }
        None => Err(FastLanesError::OutOfMemory),
    }
}
