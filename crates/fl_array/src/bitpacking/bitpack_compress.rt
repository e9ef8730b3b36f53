//! Bit-packing of primitive arrays.

ghost use Rattle.std.specs.Prelude.{◌≡◌, ◌≤◌, IfErr, IfOk, IfSome};
ghost use Rattle.std.specs.Option.{option_copied};
ghost use Rattle.fl_types.specs.declared.error.FastLanesError.TheVariants.{OutOfMemory};
ghost use Rattle.fl_types.specs.Integers.{bits_of_type};
ghost use Rattle.fl_types.specs.Validities.{items_of};
ghost use Rattle.fl_column.specs.Columns.{column_of_primitive};
ghost use Rattle.fl_patches.specs.Costs.{count_above};
ghost use Rattle.fl_patches.specs.Exceptions.{histogram_of};
ghost use Rattle.fl_bitpacking.specs.Encoders.{AnswersUnless, best_width_of, best_widths_of, width_refusal, widths_refusal};
ghost use Rattle.fl_array.specs.BitPackedArrays.{tree_of_bitpacked};
ghost use Rattle.fl_array.specs.EncodedBitPacked.{IsEncodedAt, IsEncodedInBlocks};
ghost use Rattle.fl_array.specs.Trees.{column};

use crate::array::IntoArray;
use crate::bitpacking::BitPackedArray;
use fl_bitpacking::bitpack_compress::encoding::{
    encode_at_best_width, encode_at_best_widths, encode_blocked, encode_global, pack_unpatched,
};
use fl_column::{FastLanesError, PrimitiveArray};
use fl_patches::count_exceptions;
use fl_patches::laws::histogram_counts_each;
use std::alloc::Global;

/// How many items have more bits than a width by the array's histogram, 0 without one.
fn expected_exceptions(array: &PrimitiveArray, width: u8, histogram: Option<&[usize]>) -> usize
    requires { IfSome (option_copied histogram) (λ h. h ≡ histogram_of array.now.ptype (items_of array.now.validity array.now.slots)) }
{
    histogram_counts_each(array);
    let _len = array.len();
    match histogram {
        Some(histogram) => count_exceptions(width, histogram),
        None => 0,
    }
}

/// The array packed at a width: the low bits of all stored values, also of those under a null, and patches
/// for the valid items that have more bits, with a chunk offset for each chunk of 1024.
///
/// `bit_width_freq` is the array's histogram, as by `bit_width_histogram`, if it is known; it does not
/// change the result.
///
/// # Errors
/// `NegativeValue` if a valid item is negative, else `WidthTooLarge` if the width is not below the type's
/// bits.
pub fn bitpack_encode(
    alloc: Global,
    array: &PrimitiveArray,
    bit_width: u8,
    bit_width_freq: Option<&[usize]>,
) -> Result<BitPackedArray, FastLanesError>
    requires { IfSome (option_copied bit_width_freq) (λ h. h ≡ histogram_of array.now.ptype (items_of array.now.validity array.now.slots)) }
    ensures refusal { AnswersUnless (width_refusal array.now bit_width) result }
    ensures parts { IfOk result (IsEncodedAt array.now bit_width) }
    ensures column { IfOk result (λ a. column (tree_of_bitpacked a) ≡ column_of_primitive array.now) }
{
    let hint = expected_exceptions(array, bit_width, bit_width_freq);
    let packed = encode_global(alloc, array, bit_width, hint)?;
    Ok(BitPackedArray::from_global(packed, bit_width))
}

/// The array packed at a width, if no valid item has more bits by its histogram: the low bits of all stored
/// values, also of those under a null. It has no patches. The width is at most the type's bits; it may be
/// that of the type, and items may be negative.
pub fn bitpack_encode_unchecked(
    alloc: Global,
    array: PrimitiveArray,
    bit_width: u8,
) -> Result<BitPackedArray, FastLanesError>
    requires width { bit_width ≤ bits_of_type array.ptype }
    requires narrow { count_above bit_width (histogram_of array.ptype (items_of array.validity array.slots)) ≡ 0 }
    ensures parts { IfOk result (IsEncodedAt array bit_width) }
    ensures column { IfOk result (λ a. column (tree_of_bitpacked a) ≡ column_of_primitive array) }
    ensures memory { IfErr result (λ e. e ≡ OutOfMemory) }
{
    let packed = pack_unpatched(alloc, &array, bit_width)?;
    Ok(BitPackedArray::from_global(packed, bit_width))
}

/// The array packed at its width of least cost, as by `bitpack_encode`.
///
/// # Errors
/// `NegativeValue` if a valid item is negative, else `WidthTooLarge` if the width is that of the type's
/// bits.
pub fn bitpack_to_best_bit_width(
    alloc: Global,
    array: &PrimitiveArray,
) -> Result<BitPackedArray, FastLanesError>
    ensures refusal { AnswersUnless (width_refusal array.now (best_width_of array.now)) result }
    ensures parts { IfOk result (IsEncodedAt array.now (best_width_of array.now)) }
    ensures column { IfOk result (λ a. column (tree_of_bitpacked a) ≡ column_of_primitive array.now) }
{
    let (packed, bit_width) = encode_at_best_width(alloc, array)?;
    Ok(BitPackedArray::from_global(packed, bit_width))
}

/// The array packed at a width for each block of 1024: the low bits of all stored values, also of those
/// under a null, and patches for the valid items that have more bits than the width of their block. The
/// boundaries are a primitive array of the smallest unsigned type that holds the last one.
/// `num_exceptions` is about how many patches there are, if it is known; it does not change the result.
///
/// # Errors
/// The first of these that applies: `NegativeValue` if a valid item is negative, `BlockCount` if there is
/// not one width for each block, `WidthTooLarge` if a width is above the type's bits, and `AllBlocksNative`
/// if there are blocks and all of their widths are the type's bits.
pub fn bitpack_encode_blocked(
    alloc: Global,
    array: &PrimitiveArray,
    bit_widths: &[u8],
    num_exceptions: Option<usize>,
) -> Result<BitPackedArray, FastLanesError>
    ensures refusal { AnswersUnless (widths_refusal array.now bit_widths.now) result }
    ensures parts { IfOk result (IsEncodedInBlocks array.now bit_widths.now) }
    ensures column { IfOk result (λ a. column (tree_of_bitpacked a) ≡ column_of_primitive array.now) }
{
    let hint = num_exceptions.unwrap_or(0);
    let (packed, boundaries) = encode_blocked(alloc, array, bit_widths, hint)?;
    let encoded = BitPackedArray::from_blocked(alloc, packed, boundaries.into_array())?;
    Ok(encoded)
}

/// The array packed at each block's width of least cost, as by `bitpack_encode_blocked`.
///
/// # Errors
/// `NegativeValue` if a valid item is negative, else `AllBlocksNative` if there are blocks and all of their
/// widths are the type's bits.
pub fn bitpack_blocked_to_best_bit_widths(
    alloc: Global,
    array: &PrimitiveArray,
) -> Result<BitPackedArray, FastLanesError>
    ensures refusal { AnswersUnless (widths_refusal array.now (best_widths_of array.now)) result }
    ensures parts { IfOk result (IsEncodedInBlocks array.now (best_widths_of array.now)) }
    ensures column { IfOk result (λ a. column (tree_of_bitpacked a) ≡ column_of_primitive array.now) }
{
    let (packed, boundaries) = encode_at_best_widths(alloc, array)?;
    let encoded = BitPackedArray::from_blocked(alloc, packed, boundaries.into_array())?;
    Ok(encoded)
}
