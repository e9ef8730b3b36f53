//! Whole columns, packed and unpacked again and again, which test the lengths themselves.
#![tactic(auto)]

ghost use Rattle.std.specs.Prelude.{◌≡◌, ◌*◌, ◌≤◌, length};
ghost use Rattle.fl_types.specs.Integers.{bits_of_type};
ghost use Rattle.fl_bitpacking.specs.Columns.{block_count};
ghost use Rattle.fl_bitpacking.specs.Parts.{Fit, parts_of};

use bytes::Bytes;
use fastlanes::{FL_CHUNK_SIZE, Work};
use fl_bitpacking::bitpack_compress::{bitpack_into, bitpack_unchecked};
use fl_bitpacking::bitpack_decompress;
use fl_bitpacking::bitpack_decompress::PackedColumn;
use fl_bitpacking::unpack_iter::{BitPacked, BitPackingStrategy, UnpackedChunks};
use fl_column::{PrimitiveArray, chunk_count};
use fl_patches::Widths;
use fl_types::{FastLanesError, NativePType, Validity};
use std::alloc::Global;

/// Packs an array this many times at a width, and writes the bytes of the last time, as far as there is
/// room.
fn pack_array(
    alloc: Global,
    rounds: usize,
    width: u8,
    array: &PrimitiveArray,
    bytes: &mut [u8],
) -> Result<usize, FastLanesError> {
    if usize::from(width) > array.ptype().bit_width() {
        return Ok(0);
    }
    let mut packed = Bytes::new();
    for _ in 0..rounds {
        packed = bitpack_unchecked(alloc, array, width)?;
    }
    let count = packed.len().min(bytes.len());
    bytes[..count].copy_from_slice(&packed.as_slice()[..count]);
    Ok(count)
}

/// Packs a column this many times at a width, and writes the bytes of the last time, as far as there is
/// room. The answer is how many were written.
pub(crate) fn pack_column<T: BitPacked>(
    alloc: Global,
    rounds: usize,
    width: u8,
    items: &[T],
    bytes: &mut [u8],
) -> Result<usize, FastLanesError> {
    let slots = Vec::from_slice(alloc, items)?;
    let array = PrimitiveArray::new(slots, Validity::NonNullable)?;
    pack_array(alloc, rounds, width, &array, bytes)
}

/// Packs an array this many times at a width into these bytes. The answer is how many they are, 0 where
/// the array takes more or fewer.
fn pack_array_into(rounds: usize, width: u8, array: &PrimitiveArray, bytes: &mut [u8]) -> usize {
    let blocks = chunk_count(array.len());
    if usize::from(width) > array.ptype().bit_width() {
        return 0;
    }
    let size = 128 * usize::from(width);
    if size.checked_mul(blocks) != Some(bytes.len()) {
        return 0;
    }
    for _ in 0..rounds {
        bitpack_into(array, width, bytes);
    }
    bytes.len()
}

/// Packs a column this many times at a width into these bytes. The answer is how many they are, 0 where
/// the column takes more or fewer.
pub(crate) fn pack_column_into<T: BitPacked>(
    alloc: Global,
    rounds: usize,
    width: u8,
    items: &[T],
    bytes: &mut [u8],
) -> Result<usize, FastLanesError> {
    let slots = Vec::from_slice(alloc, items)?;
    let array = PrimitiveArray::new(slots, Validity::NonNullable)?;
    Ok(pack_array_into(rounds, width, &array, bytes))
}

/// Unpacks a column this many times, and writes the items of the last time, as far as there is room.
fn unpack_again<T: BitPacked>(
    alloc: Global,
    rounds: usize,
    width: usize,
    column: &PackedColumn,
    items: &mut [T],
) -> Result<usize, FastLanesError>
    requires typed { column.now.ptype ≡ T.PTYPE }
    requires fit { Fit (parts_of column.now) }
    requires width { width ≤ bits_of_type column.now.ptype }
    requires room { 128 * width * block_count (parts_of column.now) ≤ length column.now.packed.now }
{
    let mut count = 0;
    for _ in 0..rounds {
        let widths = Widths::Global(width);
        let array = bitpack_decompress::unpack_column(alloc, column, widths, &mut Work::new())?;
        let unpacked = array.as_slice::<T>();
        count = unpacked.len().min(items.len());
        items[..count].copy_from_slice(&unpacked[..count]);
    }
    Ok(count)
}

/// Unpacks a column of this many items this many times, and writes the items of the last time, as far as
/// there is room. The answer is how many were written.
pub(crate) fn unpack_column<'a, T: BitPacked>(
    alloc: Global,
    rounds: usize,
    width: u8,
    len: usize,
    packed: &'a [u8],
    validity: &'a Validity,
    items: &mut [T],
) -> Result<usize, FastLanesError> {
    let width = usize::from(width);
    let blocks = chunk_count(len);
    if width > T::PTYPE.bit_width() || !validity.covers(len) {
        return Ok(0);
    }
    if width != 0 && blocks > packed.len() / (128 * width) {
        return Ok(0);
    }
    let column = PackedColumn {
        packed,
        ptype: T::PTYPE,
        validity,
        patches: None,
        offset: 0,
        len,
    };
    unpack_again(alloc, rounds, width, &column, items)
}

/// Decodes a column into these items. The answer is how many there are, 0 where the bytes are not
/// those of this many items.
pub(crate) fn decode_column<T: BitPacked>(width: u8, packed: &[u8], items: &mut [T]) -> usize {
    let width = usize::from(width);
    if width > T::PTYPE.bit_width() {
        return 0;
    }
    let mut scratch = [T::zero(); FL_CHUNK_SIZE];
    let len = items.len();
    let Ok(mut chunks) = UnpackedChunks::try_new_with_strategy(
        BitPackingStrategy,
        packed,
        width,
        0,
        len,
        &mut scratch,
    ) else {
        return 0;
    };
    chunks.decode_into(items);
    len
}
