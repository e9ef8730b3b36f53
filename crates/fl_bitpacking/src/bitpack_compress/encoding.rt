//! Packing whole arrays, with patches for the exceptions.

ghost use Rattle.std.specs.Prelude.{◌≡◌, ◌&&◌, ◌≤◌, ◌<◌, ℕ, IfErr, IfOk, None, Some, length, slice_index, if◌then◌else◌};
ghost use Rattle.std.specs.List.{list_any};
ghost use Rattle.fl_types.specs.declared.error.FastLanesError.TheVariants.{NegativeValue, OutOfMemory};
ghost use Rattle.fl_types.specs.Integers.{bits_of_type};
ghost use Rattle.fl_types.specs.Validities.{items_of};
ghost use Rattle.fl_column.specs.Columns.{column_of_primitive};
ghost use Rattle.fl_column.specs.Chunks.{chunk_count};
ghost use Rattle.fl_patches.specs.Costs.{count_above};
ghost use Rattle.fl_patches.specs.Exceptions.{histogram_of, is_negative};
ghost use Rattle.fl_bitpacking.specs.Blocks.{boundary_array, boundaries_of, boundary_blocks, global_blocks};
ghost use Rattle.fl_bitpacking.specs.Columns.{column_of_packed};
ghost use Rattle.fl_bitpacking.specs.Encoders.{AnswersUnless, IsPackedAt, IsPackedInBlocks, best_width_of, best_widths_of, width_refusal, widths_refusal};
ghost use Rattle.fl_bitpacking.specs.Refusals.{blocked_refusal, global_refusal};

use crate::bitpack_compress::bitpack_unchecked;
use crate::bitpack_compress::patched_packing::{pack_at_width, pack_at_widths};
use crate::bitpack_compress::width_refusals::{list_refusal, refusal_unless_negative};
use crate::laws::packed_with_patches_and_back;
use crate::packed_data::PackedData;
use crate::refusals::positions_refusal;
use fl_column::PrimitiveArray;
use fl_patches::laws::{histogram_counts_each, patches_are_counted};
use fl_patches::{
    bit_width_histogram, count_exceptions, counts_negative, find_best_bit_width,
    find_best_bit_widths,
};
use fl_types::FastLanesError;
use std::alloc::Global;

/// The parts of an array packed at a width, as by `pack_global`.
///
/// # Errors
/// `NegativeValue` if a valid item is negative, where that is refused.
fn global_parts(
    alloc: Global,
    array: &PrimitiveArray,
    width: u8,
    hint: usize,
    refuses_negative: bool,
) -> Result<PackedData, FastLanesError>
    requires { width ≤ bits_of_type array.now.ptype }
    ensures refusal { AnswersUnless (if refuses_negative && list_any is_negative (items_of array.now.validity array.now.slots) then Some NegativeValue else None) result }
    ensures parts { IfOk result (IsPackedAt array.now width) }
    ensures global { IfOk result (λ d. global_refusal d width ≡ None) }
    ensures column { IfOk result (λ d. column_of_packed d (global_blocks width) ≡ column_of_primitive array.now) }
{
    packed_with_patches_and_back(array);
    let len = array.len();
    // No array in memory is that long.
    if let Some(_) = positions_refusal(0, len) {
        return Err(FastLanesError::OutOfMemory);
    }
    let (packed, patches) = pack_at_width(alloc, array, width, hint, refuses_negative)?;
    let validity = array.validity().try_clone(alloc)?;
    let data = PackedData::new(packed, array.ptype(), validity, patches, 0, len);
    Ok(data)
}

/// The parts of an array packed at a width, which is at most the type's bits: the low bits of all stored
/// values, also of those under a null, and patches for the valid items that have more bits. `hint` is about
/// how many these are, and does not change the result.
pub fn pack_global(
    alloc: Global,
    array: &PrimitiveArray,
    width: u8,
    hint: usize,
) -> Result<PackedData, FastLanesError>
    requires { width ≤ bits_of_type array.now.ptype }
    ensures parts { IfOk result (IsPackedAt array.now width) }
    ensures global { IfOk result (λ d. global_refusal d width ≡ None) }
    ensures column { IfOk result (λ d. column_of_packed d (global_blocks width) ≡ column_of_primitive array.now) }
    ensures memory { IfErr result (λ e. e ≡ OutOfMemory) }
{
    global_parts(alloc, array, width, hint, false)
}

/// The parts of an array packed at a width, which is at most the type's bits, if no valid item has more bits.
/// It has no patches.
pub fn pack_unpatched(
    alloc: Global,
    array: &PrimitiveArray,
    width: u8,
) -> Result<PackedData, FastLanesError>
    requires width { width ≤ bits_of_type array.now.ptype }
    requires narrow { count_above width (histogram_of array.now.ptype (items_of array.now.validity array.now.slots)) ≡ 0 }
    ensures parts { IfOk result (IsPackedAt array.now width) }
    ensures global { IfOk result (λ d. global_refusal d width ≡ None) }
    ensures column { IfOk result (λ d. column_of_packed d (global_blocks width) ≡ column_of_primitive array.now) }
    ensures memory { IfErr result (λ e. e ≡ OutOfMemory) }
{
    patches_are_counted(array);
    packed_with_patches_and_back(array);
    let len = array.len();
    // No array in memory is that long.
    if let Some(_) = positions_refusal(0, len) {
        return Err(FastLanesError::OutOfMemory);
    }
    let packed = bitpack_unchecked(alloc, array, width)?;
    let validity = array.validity().try_clone(alloc)?;
    let data = PackedData::new(packed, array.ptype(), validity, None, 0, len);
    Ok(data)
}

/// The parts of an array packed at a width for each block, as by `pack_blocked`, and the boundaries between the blocks.
///
/// # Errors
/// `NegativeValue` if a valid item is negative, where that is refused.
fn blocked_parts(
    alloc: Global,
    array: &PrimitiveArray,
    widths: &[u8],
    hint: usize,
    refuses_negative: bool,
) -> Result<(PackedData, PrimitiveArray), FastLanesError>
    requires count { length widths.now ≡ chunk_count (length array.now.slots) }
    requires narrow { (j : ℕ) → j < length widths.now → slice_index widths.now j ≤ bits_of_type array.now.ptype }
    ensures refusal { AnswersUnless (if refuses_negative && list_any is_negative (items_of array.now.validity array.now.slots) then Some NegativeValue else None) result }
    ensures parts { IfOk result (λ r. IsPackedInBlocks array.now widths.now r.0) }
    ensures boundaries { IfOk result (λ r. r.1 ≡ boundary_array widths.now) }
    ensures blocked { IfOk result (λ r. blocked_refusal r.0 (column_of_primitive r.1) ≡ None) }
    ensures column { IfOk result (λ r. column_of_packed r.0 (boundary_blocks (boundaries_of widths.now)) ≡ column_of_primitive array.now) }
{
    packed_with_patches_and_back(array);
    let len = array.len();
    // No array in memory is that long.
    if let Some(_) = positions_refusal(0, len) {
        return Err(FastLanesError::OutOfMemory);
    }
    let (packed, patches, boundaries) = pack_at_widths(
        alloc,
        array,
        widths,
        hint,
        refuses_negative,
    )?;
    let validity = array.validity().try_clone(alloc)?;
    let data = PackedData::new(packed, array.ptype(), validity, patches, 0, len);
    Ok((data, boundaries))
}

/// The parts of an array packed at a width for each block, at most the type's bits, and the boundaries
/// between the blocks: the low bits of all stored values, also of those under a null, and patches for the
/// valid items that have more bits than the width of their block. `hint` is about how many these are, and
/// does not change the result.
pub fn pack_blocked(
    alloc: Global,
    array: &PrimitiveArray,
    widths: &[u8],
    hint: usize,
) -> Result<(PackedData, PrimitiveArray), FastLanesError>
    requires count { length widths.now ≡ chunk_count (length array.now.slots) }
    requires narrow { (j : ℕ) → j < length widths.now → slice_index widths.now j ≤ bits_of_type array.now.ptype }
    ensures parts { IfOk result (λ r. IsPackedInBlocks array.now widths.now r.0) }
    ensures boundaries { IfOk result (λ r. r.1 ≡ boundary_array widths.now) }
    ensures blocked { IfOk result (λ r. blocked_refusal r.0 (column_of_primitive r.1) ≡ None) }
    ensures column { IfOk result (λ r. column_of_packed r.0 (boundary_blocks (boundaries_of widths.now)) ≡ column_of_primitive array.now) }
    ensures memory { IfErr result (λ e. e ≡ OutOfMemory) }
{
    blocked_parts(alloc, array, widths, hint, false)
}

/// The parts of an array packed at a width, as by `pack_global`.
///
/// # Errors
/// `NegativeValue` if a valid item is negative, else `WidthTooLarge` if the width is not below the type's
/// bits.
pub fn encode_global(
    alloc: Global,
    array: &PrimitiveArray,
    width: u8,
    hint: usize,
) -> Result<PackedData, FastLanesError>
    ensures refusal { AnswersUnless (width_refusal array.now width) result }
    ensures parts { IfOk result (IsPackedAt array.now width) }
    ensures global { IfOk result (λ d. global_refusal d width ≡ None) }
    ensures column { IfOk result (λ d. column_of_packed d (global_blocks width) ≡ column_of_primitive array.now) }
{
    let bits = array.ptype().bit_width();
    if usize::from(width) >= bits {
        return Err(refusal_unless_negative(array, FastLanesError::WidthTooLarge));
    }
    global_parts(alloc, array, width, hint, true)
}

/// The width of least cost for an array, and how many items have more bits.
///
/// # Errors
/// `NegativeValue` if a valid item is negative, else `WidthTooLarge` if the width is that of the type's
/// bits.
fn best_width(alloc: Global, array: &PrimitiveArray) -> Result<(u8, usize), FastLanesError>
    ensures refusal { AnswersUnless (width_refusal array.now (best_width_of array.now)) result }
    ensures width { IfOk result (λ r. r.0 ≡ best_width_of array.now) }
{
    histogram_counts_each(array);
    let _len = array.len();
    let histogram = bit_width_histogram(alloc, array)?;
    if counts_negative(array, &histogram) {
        return Err(FastLanesError::NegativeValue);
    }
    let width = find_best_bit_width(array.ptype(), &histogram).unwrap();
    if usize::from(width) >= array.ptype().bit_width() {
        return Err(FastLanesError::WidthTooLarge);
    }
    let exceptions = count_exceptions(width, &histogram);
    Ok((width, exceptions))
}

/// The parts of an array packed at its width of least cost, as by `pack_global`, and the width.
///
/// # Errors
/// `NegativeValue` if a valid item is negative, else `WidthTooLarge` if the width is that of the type's
/// bits.
pub fn encode_at_best_width(
    alloc: Global,
    array: &PrimitiveArray,
) -> Result<(PackedData, u8), FastLanesError>
    ensures refusal { AnswersUnless (width_refusal array.now (best_width_of array.now)) result }
    ensures width { IfOk result (λ r. r.1 ≡ best_width_of array.now) }
    ensures parts { IfOk result (λ r. IsPackedAt array.now r.1 r.0) }
    ensures global { IfOk result (λ r. global_refusal r.0 r.1 ≡ None) }
    ensures column { IfOk result (λ r. column_of_packed r.0 (global_blocks r.1) ≡ column_of_primitive array.now) }
{
    let (width, exceptions) = best_width(alloc, array)?;
    let data = pack_global(alloc, array, width, exceptions)?;
    Ok((data, width))
}

/// The parts of an array packed at a width for each block, as by `pack_blocked`, and the boundaries between
/// the blocks.
///
/// # Errors
/// The first of these that applies: `NegativeValue` if a valid item is negative, `BlockCount` if there is
/// not one width for each block, `WidthTooLarge` if a width is above the type's bits, and `AllBlocksNative`
/// if there are blocks and all of their widths are the type's bits.
pub fn encode_blocked(
    alloc: Global,
    array: &PrimitiveArray,
    widths: &[u8],
    hint: usize,
) -> Result<(PackedData, PrimitiveArray), FastLanesError>
    ensures refusal { AnswersUnless (widths_refusal array.now widths.now) result }
    ensures parts { IfOk result (λ r. IsPackedInBlocks array.now widths.now r.0) }
    ensures boundaries { IfOk result (λ r. r.1 ≡ boundary_array widths.now) }
    ensures blocked { IfOk result (λ r. blocked_refusal r.0 (column_of_primitive r.1) ≡ None) }
    ensures column { IfOk result (λ r. column_of_packed r.0 (boundary_blocks (boundaries_of widths.now)) ≡ column_of_primitive array.now) }
{
    if let Some(refusal) = list_refusal(array, widths) {
        return Err(refusal_unless_negative(array, refusal));
    }
    blocked_parts(alloc, array, widths, hint, true)
}

/// The parts of an array packed at each block's width of least cost, as by `pack_blocked`, and the boundaries
/// between the blocks.
///
/// # Errors
/// `NegativeValue` if a valid item is negative, else `AllBlocksNative` if there are blocks and all of their
/// widths are the type's bits.
pub fn encode_at_best_widths(
    alloc: Global,
    array: &PrimitiveArray,
) -> Result<(PackedData, PrimitiveArray), FastLanesError>
    ensures refusal { AnswersUnless (widths_refusal array.now (best_widths_of array.now)) result }
    ensures parts { IfOk result (λ r. IsPackedInBlocks array.now (best_widths_of array.now) r.0) }
    ensures boundaries { IfOk result (λ r. r.1 ≡ boundary_array (best_widths_of array.now)) }
    ensures blocked { IfOk result (λ r. blocked_refusal r.0 (column_of_primitive r.1) ≡ None) }
    ensures column { IfOk result (λ r. column_of_packed r.0 (boundary_blocks (boundaries_of (best_widths_of array.now))) ≡ column_of_primitive array.now) }
{
    let (widths, exceptions) = find_best_bit_widths(alloc, array)?;
    if let Some(refusal) = list_refusal(array, &widths) {
        return Err(refusal);
    }
    let packed = pack_blocked(alloc, array, &widths, exceptions)?;
    Ok(packed)
}
