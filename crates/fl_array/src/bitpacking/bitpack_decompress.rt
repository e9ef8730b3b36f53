//! Decoding of bit-packed arrays, and single items by their packed bits.

ghost use Rattle.std.specs.Prelude.{◌≡◌, ◌<◌, IfErr, Ok, false};
ghost use Rattle.fl_types.specs.declared.error.FastLanesError.TheVariants.{NotGlobal};
ghost use Rattle.fl_types.specs.Refusals.{Answers};
ghost use Rattle.fl_types.specs.Values.{scalar_parts};
ghost use Rattle.fl_column.specs.Columns.{column_of_primitive};
ghost use Rattle.fl_bitpacking.specs.SingleItems.{stored_scalar};
ghost use Rattle.fl_array.specs.BitPackedArrays.{blocks_of_widths, if_global, is_global, tree_of_bitpacked};
ghost use Rattle.fl_array.specs.Trees.{column};

use crate::bitpacking::{BitPackedArray, BitWidthsView};
use fastlanes::Work;
use fl_column::{FastLanesError, NativePType, PrimitiveArray, Scalar};
use std::alloc::Global;

/// The column in a primitive array, if all blocks have one width.
///
/// # Errors
/// `NotGlobal` if each block has a width of its own.
pub fn unpack_array(alloc: Global, array: &BitPackedArray) -> Result<PrimitiveArray, FastLanesError>
    ensures { Answers column_of_primitive result (if_global array.now.widths (column (tree_of_bitpacked array.now))) }
{
    match array.bit_widths() {
        BitWidthsView::Global(_) => array.decode(alloc, &mut Work::new()),
        BitWidthsView::Blocked(_) => Err(FastLanesError::NotGlobal),
    }
}

/// The column in a primitive array, if all blocks have one width and the items have this type.
///
/// # Errors
/// `NotGlobal` if each block has a width of its own.
pub fn unpack_primitive_array<T: NativePType>(
    alloc: Global,
    array: &BitPackedArray,
) -> Result<PrimitiveArray, FastLanesError>
    requires { array.now.parts.ptype ≡ T.PTYPE }
    ensures { Answers column_of_primitive result (if_global array.now.widths (column (tree_of_bitpacked array.now))) }
{
    unpack_array(alloc, array)
}

/// Item `i` by its packed bits, if all blocks have one width: without its patch, and also under a null. It
/// reads at most two words of the block, and allocates nothing.
///
/// # Errors
/// `NotGlobal` if each block has a width of its own.
pub fn unpack_single(array: &BitPackedArray, i: usize) -> Result<Scalar, FastLanesError>
    requires { i < array.now.parts.len }
    ensures item { Answers scalar_parts result (if_global array.now.widths (stored_scalar array.now.parts (blocks_of_widths array.now.widths) i)) }
    ensures no_memory { IfErr result (λ e. e ≡ NotGlobal) }
{
    match array.bit_widths() {
        BitWidthsView::Global(width) => {
            let extent = array.extent_at_width(width, i);
            Ok(array.packed_data().stored(extent, i, &mut Work::new()))
        }
        BitWidthsView::Blocked(_) => Err(FastLanesError::NotGlobal),
    }
}

/// The column in a primitive array, if each block has a width of its own.
pub fn unpack_array_blocked(
    alloc: Global,
    array: &BitPackedArray,
) -> Result<PrimitiveArray, FastLanesError>
    requires { is_global array.now.widths ≡ false }
    ensures { Answers column_of_primitive result (Ok (column (tree_of_bitpacked array.now))) }
{
    array.decode(alloc, &mut Work::new())
}

/// Item `i` by its packed bits, if each block has a width of its own: without its patch, and also under a
/// null. It reads three boundaries and at most two words of the block.
pub fn unpack_single_blocked(
    alloc: Global,
    array: &BitPackedArray,
    i: usize,
) -> Result<Scalar, FastLanesError>
    requires blocked { is_global array.now.widths ≡ false }
    requires range { i < array.now.parts.len }
    ensures { Answers scalar_parts result (Ok (stored_scalar array.now.parts (blocks_of_widths array.now.widths) i)) }
{
    let extent = array.extent_of(alloc, i)?;
    Ok(array.packed_data().stored(extent, i, &mut Work::new()))
}
