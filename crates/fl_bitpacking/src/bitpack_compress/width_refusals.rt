//! The errors of packing an array at a width, or at widths of its blocks.

ghost use Rattle.std.specs.Prelude.{◌≡◌, ◌==◌, nat_lt, if◌then◌else◌};
ghost use Rattle.std.specs.List.{list_all, list_any};
ghost use Rattle.fl_types.specs.declared.error.FastLanesError.TheVariants.{NegativeValue};
ghost use Rattle.fl_types.specs.Validities.{items_of};
ghost use Rattle.fl_patches.specs.Exceptions.{is_negative};
ghost use Rattle.fl_bitpacking.specs.Encoders.{list_refusal};

use fl_column::{PrimitiveArray, chunk_count};
use fl_patches::has_negative;
use fl_types::FastLanesError;

/// Whether a width is above so many bits.
fn has_wider(widths: &[u8], bits: usize) -> bool
    ensures { result ≡ list_any (nat_lt bits) widths.now }
{
    for j in 0..widths.len() {
        if bits < usize::from(widths[j]) {
            return true;
        }
    }
    false
}

/// Whether each width is so many bits.
fn are_native(widths: &[u8], bits: usize) -> bool
    ensures { result ≡ list_all (λ width. width == bits) widths.now }
{
    for j in 0..widths.len() {
        if usize::from(widths[j]) != bits {
            return false;
        }
    }
    true
}

/// An error of packing an array, which comes after `NegativeValue` for a valid item that is negative.
pub(crate) fn refusal_unless_negative(
    array: &PrimitiveArray,
    refusal: FastLanesError,
) -> FastLanesError
    ensures { result ≡ (if list_any is_negative (items_of array.now.validity array.now.slots) then NegativeValue else refusal) }
{
    if has_negative(array) {
        FastLanesError::NegativeValue
    } else {
        refusal
    }
}

/// Why these widths are not those of an array's blocks, if they are not: the first of `BlockCount` if there is not one
/// width for each block, `WidthTooLarge` if a width is above the type's bits, and `AllBlocksNative` if there are blocks,
/// and all of their widths are the type's bits.
pub(crate) fn list_refusal(array: &PrimitiveArray, widths: &[u8]) -> Option<FastLanesError>
    ensures { result ≡ list_refusal array.now widths.now }
{
    if widths.len() != chunk_count(array.len()) {
        return Some(FastLanesError::BlockCount);
    }
    let bits = array.ptype().bit_width();
    if has_wider(widths, bits) {
        return Some(FastLanesError::WidthTooLarge);
    }
    if widths.len() > 0 && are_native(widths, bits) {
        return Some(FastLanesError::AllBlocksNative);
    }
    None
}
