//! Calls of encoders, and of what packs integers.

ghost use Rattle.std.specs.Prelude.{◌≡◌, length};

use crate::inputs::Inputs;
use crate::{came, came_array};
use bytes::Bytes;
use fl_array::IntoArray;
use fl_array::bitpacking::bitpack_compress::{
    bitpack_blocked_to_best_bit_widths, bitpack_encode, bitpack_encode_blocked,
    bitpack_to_best_bit_width,
};
use fl_array::bitpacking::{BitPacked, BitPackedArray, BitPackedData};
use fl_array::delta::Delta;
use fl_array::for_::{FoR, FoRData};
use fl_array::rle::{RLE, RLEData};
use fl_bitpacking::bitpack_compress::word_packing::bitpack_primitive;
use fl_bitpacking::bitpack_compress::{bitpack_into, bitpack_unchecked};
use fl_codec::delta::delta_compress;
use fl_column::{PhysicalPType, PrimitiveArray};
use fl_compress::compress;
use fl_types::{FastLanesError, PType, match_each_integer_ptype};
use row_reader::asked::Asked;
use row_reader::columns::{Made, width_of};
use row_reader::names::named;
use row_reader::text::Text;
use std::alloc::Global;

/// Ends a call of an encoder, and adds the array that it gave.
fn encoded<T: IntoArray>(answer: &mut Text, given: Result<T, FastLanesError>) {
    let given = match given {
        Ok(array) => Ok(array.into_array()),
        Err(refusal) => Err(refusal),
    };
    came_array(answer, given);
}

/// The packed bytes.
fn pack(alloc: Global, column: &PrimitiveArray, width: u8) -> Result<Bytes, FastLanesError> {
    if usize::from(width) > column.ptype().bit_width() {
        return Err(FastLanesError::WidthTooLarge);
    }
    bitpack_unchecked(alloc, column, width)
}

/// The sum of the bytes that items are packed into, at most those of 49 blocks at width 1.
fn pack_into(column: &PrimitiveArray, width: u8) -> Result<usize, FastLanesError> {
    let len = column.len();
    if usize::from(width) > column.ptype().bit_width() || len >= 1 << 32 {
        return Err(FastLanesError::WidthTooLarge);
    }
    let mut room = [0u8; 6272];
    let size = 128 * usize::from(width) * len.div_ceil(1024);
    if size > 6272 {
        return Err(FastLanesError::PackedLength);
    }
    bitpack_into(column, width, &mut room[..size]);
    let mut sum = 0usize;
    for i in 0..6272usize {
        sum = sum.saturating_add(usize::from(room[i]));
    }
    Ok(sum)
}

/// The packed words.
fn pack_words<T: PhysicalPType>(alloc: Global, column: &PrimitiveArray, width: u8) -> Made
    requires { column.now.ptype ≡ T.PTYPE }
{
    if usize::from(width) > T::PTYPE.bit_width() {
        return Err(FastLanesError::WidthTooLarge);
    }
    let words = bitpack_primitive::<T>(alloc, column.as_slice::<T>(), width)?;
    Ok(PrimitiveArray::non_nullable(words))
}

/// The packed words, by the column's type.
fn pack_primitive(alloc: Global, column: &PrimitiveArray, width: u8) -> Made {
    match_each_integer_ptype!(column.ptype(), pack_words(alloc, column, width))
}

/// Packs at the widths that another column has: by the column, or by the data of its array.
fn at_widths(
    asked: Asked,
    inputs: &Inputs,
    by_data: bool,
) -> Result<BitPackedArray, FastLanesError> {
    let widths = asked.column(1);
    if widths.ptype() != PType::U8 {
        return Err(FastLanesError::TypeMismatch);
    }
    let widths = widths.as_slice::<u8>();
    if by_data {
        BitPackedData::encode_blocked(asked.alloc, &inputs.array, widths)
    } else {
        bitpack_encode_blocked(asked.alloc, asked.column(0), widths, None)
    }
}

#[derive(Clone, Copy)]
enum Call {
    For,
    ForChunked,
    ForData,
    ForDataChunked,
    Delta,
    DeltaParts,
    Rle,
    RleData,
    Blocked,
    BlockedData,
    Pack,
    PackInto,
    PackPrimitive,
    Encode,
    EncodeBest,
    EncodeBests,
    EncodeArray,
    EncodeData,
    Compress,
}

const CALLS: &[(&str, Call)] = &[
    ("encode_for", Call::For),
    ("encode_for_chunked", Call::ForChunked),
    ("encode_for_data", Call::ForData),
    ("encode_for_data_chunked", Call::ForDataChunked),
    ("encode_delta", Call::Delta),
    ("delta_compress", Call::DeltaParts),
    ("encode_rle", Call::Rle),
    ("encode_rle_data", Call::RleData),
    ("encode_blocked", Call::Blocked),
    ("encode_blocked_data", Call::BlockedData),
    ("pack", Call::Pack),
    ("pack_into", Call::PackInto),
    ("pack_primitive", Call::PackPrimitive),
    ("encode", Call::Encode),
    ("encode_best", Call::EncodeBest),
    ("encode_bests", Call::EncodeBests),
    ("encode_array", Call::EncodeArray),
    ("encode_data", Call::EncodeData),
    ("compress", Call::Compress),
];

pub(crate) fn make(asked: Asked, inputs: &Inputs, answer: &mut Text) -> bool {
    let Some(call) = named(CALLS, asked.word(0)) else {
        return false;
    };
    let (alloc, column, array) = (asked.alloc, asked.column(0), &inputs.array);
    let width = width_of(asked.word(1));
    match call {
        Call::For => encoded(answer, FoR::encode(alloc, column)),
        Call::ForChunked => encoded(answer, FoR::encode_chunked(alloc, column)),
        Call::ForData => encoded(answer, FoRData::encode(alloc, column)),
        Call::ForDataChunked => encoded(answer, FoRData::encode_chunked(alloc, column)),
        Call::Delta => encoded(answer, Delta::try_from_primitive_array(alloc, column)),
        Call::DeltaParts => came(answer, delta_compress(alloc, column)),
        Call::Rle => encoded(answer, RLE::encode(alloc, column)),
        Call::RleData => encoded(answer, RLEData::encode(alloc, column)),
        Call::Blocked => encoded(answer, at_widths(asked, inputs, false)),
        Call::BlockedData => encoded(answer, at_widths(asked, inputs, true)),
        Call::Pack => came(answer, pack(alloc, column, width)),
        Call::PackInto => came(answer, pack_into(column, width)),
        Call::PackPrimitive => came(answer, pack_primitive(alloc, column, width)),
        Call::Encode => encoded(answer, bitpack_encode(alloc, column, width, None)),
        Call::EncodeBest => encoded(answer, bitpack_to_best_bit_width(alloc, column)),
        Call::EncodeBests => encoded(answer, bitpack_blocked_to_best_bit_widths(alloc, column)),
        Call::EncodeArray => encoded(answer, BitPacked::encode(alloc, array, width)),
        Call::EncodeData => encoded(answer, BitPackedData::encode(alloc, array, width)),
        Call::Compress => came_array(answer, compress(alloc, column)),
    }
    true
}
