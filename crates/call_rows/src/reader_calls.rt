//! Calls on the packed words of a bit-packed array, on readers of its blocks, and on single packed items. All but the
//! first take no memory.

ghost use Rattle.std.specs.Prelude.{◌≡◌};

use fastlanes::FL_CHUNK_SIZE;
use fl_array::bitpacking::{BitPackedArray, BitPackedArrayExt, BitPackedData, BitWidthsView};
use fl_bitpacking::bitpack_decompress::unpack_single_primitive;
use fl_bitpacking::unpack_iter::{
    BitPacked, BitPackingStrategy, BitUnpackedChunks, UnpackedChunks, UnpackedItems,
};
use fl_column::{PhysicalPType, PrimitiveArray};
use fl_types::{FastLanesError, NativePType, PType, match_each_integer_ptype};
use row_reader::columns::Made;
use std::alloc::Global;

/// What a call on a reader gives.
type Number = Result<usize, FastLanesError>;

/// The packed bytes as words, by the array and by its data.
pub(crate) fn packed_slice<T: PhysicalPType>(
    alloc: Global,
    array: &BitPackedArray,
    of_data: bool,
) -> Made {
    let words = if of_data {
        let data = BitPackedArrayExt::data(array)?;
        data.packed_slice::<T>(alloc)?
    } else {
        BitPackedArrayExt::packed_slice::<T>(array, alloc)?
    };
    Ok(PrimitiveArray::non_nullable(words))
}

/// An item that is not negative.
fn number_of<T: NativePType>(item: T) -> usize {
    usize::try_from(item.as_i128()).unwrap_or(usize::MAX)
}

/// The sum of items that are not negative.
fn sum_of<T: NativePType>(items: &[T]) -> usize {
    let mut sum = 0usize;
    for item in items {
        sum = sum.saturating_add(number_of(*item));
    }
    sum
}

/// The sum of the items that a reader lends, 0 where it lends none.
fn sum_of_lent<T: BitPacked>(items: &UnpackedItems<'_, T>) -> usize {
    match items.items() {
        Some(items) => sum_of(items),
        None => 0,
    }
}

/// The sum of the items that a reader lends of the first and of the last block.
fn sum_of_ends<T: BitPacked>(chunks: &mut BitUnpackedChunks<'_, T>) -> usize {
    let first = sum_of_lent(&chunks.initial());
    let last = sum_of_lent(&chunks.trailer());
    first.saturating_add(last)
}

/// The sum of what a reader of the array lends.
fn sum_lent<T: BitPacked>(array: &BitPackedArray) -> Number
    requires { array.now.parts.ptype ≡ T.PTYPE }
{
    let mut scratch = [T::zero(); FL_CHUNK_SIZE];
    match BitPackedArrayExt::unpacked_chunks::<T>(array, &mut scratch) {
        Ok(mut chunks) => Ok(sum_of_ends(&mut chunks)),
        Err(refusal) => Err(refusal),
    }
}

/// The sum of the items, at most those of 49 blocks, that a reader of blocks writes.
fn read<T: BitPacked>(bytes: &[u8], width: usize, offset: usize, len: usize) -> Number {
    if width > T::PTYPE.bit_width() || len > 50_176 {
        return Err(FastLanesError::LengthOverflow);
    }
    let (mut scratch, mut room) = ([T::zero(); FL_CHUNK_SIZE], [T::zero(); 50_176]);
    let strategy = BitPackingStrategy;
    match UnpackedChunks::try_new_with_strategy(strategy, bytes, width, offset, len, &mut scratch) {
        Ok(mut chunks) => {
            chunks.decode_into(&mut room[..len]);
            Ok(sum_of(&room))
        }
        Err(refusal) => Err(refusal),
    }
}

/// Reads the blocks of an array.
pub(crate) fn read_blocks(array: &BitPackedArray) -> Number {
    let data = array.packed_data();
    match array.bit_widths() {
        BitWidthsView::Global(width) => {
            let (bytes, width) = (data.packed().as_slice(), usize::from(width));
            match_each_integer_ptype!(data.ptype(), read(bytes, width, data.offset(), data.len()))
        }
        BitWidthsView::Blocked(_) => Err(FastLanesError::NotGlobal),
    }
}

/// An item as it is stored in packed bytes.
fn item<T: PhysicalPType>(bytes: &[u8], width: usize, i: usize) -> Number {
    let fits = 128 * width as u128 * (i as u128 / 1024 + 1) <= bytes.len() as u128;
    if width > T::PTYPE.bit_width() || !fits {
        return Err(FastLanesError::IndexOutOfBounds);
    }
    let item = unpack_single_primitive::<T>(bytes, width, i);
    Ok(number_of(item))
}

/// An item as it is stored in the bytes of an array whose blocks have one width.
pub(crate) fn stored_item(array: &BitPackedArray, i: usize) -> Number {
    let data = array.packed_data();
    match array.bit_widths() {
        BitWidthsView::Global(width) => {
            let (bytes, width) = (data.packed().as_slice(), usize::from(width));
            match_each_integer_ptype!(data.ptype(), item(bytes, width, i))
        }
        BitWidthsView::Blocked(_) => Err(FastLanesError::NotGlobal),
    }
}

/// The offset of data of the array's bytes with another width and offset.
pub(crate) fn data_with(array: &BitPackedArray, width: usize, offset: usize) -> Number {
    let packed = array.packed_data().packed().clone()?;
    let width = u8::try_from(width).unwrap_or(u8::MAX);
    let offset = u16::try_from(offset).unwrap_or(u16::MAX);
    let data = BitPackedData::try_new(packed, array.packed_data().patches(), width, offset)?;
    Ok(usize::from(data.offset()))
}

/// The sum of what a reader of an array lends.
pub(crate) fn lent(array: &BitPackedArray) -> Number {
    let ptype = array.packed_data().ptype();
    match_each_integer_ptype!(ptype, sum_lent(array))
}

/// The sum of the items of whole blocks, at most five, that a reader lends one after another.
fn sum_of_whole(chunks: &mut BitUnpackedChunks<'_, u16>) -> usize {
    let mut sum = 0usize;
    let mut blocks = chunks.full_chunks();
    for _ in 0..5usize {
        if let Some(items) = blocks.next() {
            sum = sum.saturating_add(sum_of(items));
        }
    }
    sum
}

/// The sum of the whole blocks that a reader of an array of `u16` lends.
pub(crate) fn lent_whole(array: &BitPackedArray) -> Number {
    if array.packed_data().ptype() != PType::U16 {
        return Err(FastLanesError::TypeMismatch);
    }
    let mut scratch = [0u16; FL_CHUNK_SIZE];
    match BitPackedArrayExt::unpacked_chunks::<u16>(array, &mut scratch) {
        Ok(mut chunks) => Ok(sum_of_whole(&mut chunks)),
        Err(refusal) => Err(refusal),
    }
}
