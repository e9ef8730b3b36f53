//! Arrays of plain ones, by the library's encoders. Every call of one stands here.

use crate::arrays::Built;
use crate::columns::width_of;
use crate::names::named;
use fl_array::IntoArray;
use fl_array::bitpacking::BitPackedData;
use fl_array::bitpacking::bitpack_compress::{
    bitpack_blocked_to_best_bit_widths, bitpack_encode, bitpack_encode_blocked,
    bitpack_to_best_bit_width,
};
use fl_array::delta::Delta;
use fl_array::for_::{FoR, FoRData};
use fl_array::rle::{RLE, RLEData};
use fl_column::PrimitiveArray;
use std::alloc::Global;

/// A column that is packed at a width, or at that of least cost where none is given.
fn bitpacked(alloc: Global, column: &PrimitiveArray, width: &str) -> Built {
    let array = if width.is_empty() {
        bitpack_to_best_bit_width(alloc, column)?
    } else {
        bitpack_encode(alloc, column, width_of(width), None)?
    };
    Ok(array.into_array())
}

/// A column whose blocks are packed at widths, or at those of least cost where none is given; `none` gives no width.
fn blocked(alloc: Global, column: &PrimitiveArray, widths: &str) -> Built {
    let array = if widths.is_empty() {
        bitpack_blocked_to_best_bit_widths(alloc, column)?
    } else {
        let mut given = Vec::new(alloc);
        if widths != "none" {
            for width in widths.split(',') {
                given.push(width_of(width))?;
            }
        }
        bitpack_encode_blocked(alloc, column, &given, None)?
    };
    Ok(array.into_array())
}

/// A column that is packed at a width, by the data of bit-packed arrays.
fn packed_data(alloc: Global, column: &PrimitiveArray, width: u8) -> Built {
    let array = column.try_clone(alloc)?.into_array();
    Ok(BitPackedData::encode(alloc, &array, width)?.into_array())
}

/// The column as it is.
fn plain(alloc: Global, column: &PrimitiveArray) -> Built {
    Ok(column.try_clone(alloc)?.into_array())
}

/// A column as the data of an encoding make an array of it: the encoding's name, and behind a colon the width.
fn encode_by_data(alloc: Global, encoder: &str, column: &PrimitiveArray) -> Built {
    let (name, width) = encoder.split_once(':').unwrap_or((encoder, ""));
    match name {
        "bitpacked" => packed_data(alloc, column, width_of(width)),
        "for" => Ok(FoRData::encode(alloc, column)?.into_array()),
        "rle" => Ok(RLEData::encode(alloc, column)?.into_array()),
        _ => plain(alloc, column),
    }
}

#[derive(Clone, Copy)]
enum Encoder {
    BitPacked,
    Blocked,
    For,
    ForChunked,
    Delta,
    Rle,
    Data,
}

const ENCODERS: &[(&str, Encoder)] = &[
    ("bitpacked", Encoder::BitPacked),
    ("blocked", Encoder::Blocked),
    ("for", Encoder::For),
    ("forc", Encoder::ForChunked),
    ("delta", Encoder::Delta),
    ("rle", Encoder::Rle),
    ("data", Encoder::Data),
];

/// A column as an encoder makes an array of it: its name, and behind a colon the widths.
pub(crate) fn encode(alloc: Global, encoder: &str, column: &PrimitiveArray) -> Built {
    let (name, widths) = encoder.split_once(':').unwrap_or((encoder, ""));
    match named(ENCODERS, name) {
        Some(Encoder::BitPacked) => bitpacked(alloc, column, widths),
        Some(Encoder::Blocked) => blocked(alloc, column, widths),
        Some(Encoder::For) => Ok(FoR::encode(alloc, column)?.into_array()),
        Some(Encoder::ForChunked) => Ok(FoR::encode_chunked(alloc, column)?.into_array()),
        Some(Encoder::Delta) => Ok(Delta::try_from_primitive_array(alloc, column)?.into_array()),
        Some(Encoder::Rle) => Ok(RLE::encode(alloc, column)?.into_array()),
        Some(Encoder::Data) => encode_by_data(alloc, widths, column),
        None => plain(alloc, column),
    }
}
