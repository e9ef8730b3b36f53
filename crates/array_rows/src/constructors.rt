//! Encoded arrays of parts that stand in a row, by the constructors.

use crate::answer_built;
use bytes::Bytes;
use fl_column::PrimitiveArray;
use fl_patches::Patches;
use fl_types::{FastLanesError, PType, Scalar};
use row_reader::arrays::{Built, building, making};
use row_reader::asked::Asked;
use row_reader::column_rows::patches;
use row_reader::columns::{count, width_of};
use row_reader::names::named;
use row_reader::text::Text;
use std::alloc::Global;

/// An offset of text.
fn offset_of(text: &str) -> u16 {
    u16::try_from(count(text)).unwrap_or(u16::MAX)
}

/// How many columns are those of patches: `unpatched` has none, `patches:LEN:OFFSET` its indices and values,
/// `chunked:LEN:OFFSET` its chunk offsets too.
fn patch_columns(word: &str) -> usize {
    match word.split_once(':') {
        Some(("patches", _)) => 2,
        Some(("chunked", _)) => 3,
        _ => 0,
    }
}

/// The patches of columns, if there are any.
fn patches_of(
    alloc: Global,
    word: &str,
    columns: &[PrimitiveArray],
) -> Result<Option<Patches>, FastLanesError> {
    let (_, numbers) = word.split_once(':').unwrap_or((word, ""));
    let (len, offset) = numbers.split_once(':').unwrap_or((numbers, ""));
    let (len, offset) = (count(len), count(offset));
    match columns.get(..patch_columns(word)).unwrap_or(columns) {
        [indices, values] => Ok(Some(patches::make(alloc, len, offset, indices, values, None)?)),
        [indices, values, chunk_offsets] => {
            let patches = patches::make_chunked(
                alloc,
                len,
                offset,
                indices,
                values,
                chunk_offsets,
            )?;
            Ok(Some(patches))
        }
        _ => Ok(None),
    }
}

/// The bytes of a column of `u8`.
fn bytes_of(alloc: Global, column: &PrimitiveArray) -> Result<Bytes, FastLanesError> {
    if column.ptype() != PType::U8 {
        return Err(FastLanesError::TypeMismatch);
    }
    let bytes = Vec::from_slice(alloc, column.as_slice::<u8>())?;
    Ok(Bytes::from_vec(bytes)?)
}

/// The parts of a bit-packed array: the bytes of a column, the type and the validity of another, and patches.
fn packed(
    alloc: Global,
    bytes: &PrimitiveArray,
    typed: &PrimitiveArray,
    patches: Option<Patches>,
    offset: u16,
    len: usize,
) -> Result<making::Packed, FastLanesError> {
    let bytes = bytes_of(alloc, bytes)?;
    let validity = typed.validity().try_clone(alloc)?;
    Ok(making::Packed {
        bytes,
        ptype: typed.ptype(),
        validity,
        patches,
        offset,
        len,
    })
}

/// A bit-packed array of bytes at one width: `new_bitpacked WIDTH OFFSET LEN PATCHES`.
fn new_bitpacked(asked: Asked) -> Built {
    let (offset, len) = (offset_of(asked.word(2)), asked.count(3));
    let patches = patches_of(asked.alloc, asked.word(4), asked.columns_from(2))?;
    let (bytes, typed) = (asked.column(0), asked.column(1));
    let parts = packed(asked.alloc, bytes, typed, patches, offset, len)?;
    making::bitpacked(parts, width_of(asked.word(1)))
}

/// A bit-packed array of bytes between boundaries of a kind: `new_blocked OFFSET LEN KIND PATCHES`.
fn new_blocked(asked: Asked) -> Built {
    let (offset, len) = (offset_of(asked.word(1)), asked.count(2));
    let patches = patches_of(asked.alloc, asked.word(4), asked.columns_from(3))?;
    let boundaries = building::array(asked.alloc, asked.word(3), asked.column(2))?;
    let (bytes, typed) = (asked.column(0), asked.column(1));
    let parts = packed(asked.alloc, bytes, typed, patches, offset, len)?;
    making::blocked(asked.alloc, parts, boundaries)
}

/// The first item of an array of a kind.
fn reference_of(
    alloc: Global,
    kind: &str,
    column: &PrimitiveArray,
) -> Result<Scalar, FastLanesError> {
    let reference = building::array(alloc, kind, column)?;
    if reference.len() == 0 {
        return Err(FastLanesError::ChildCount);
    }
    reference.scalar_at(alloc, 0)
}

/// An array of a kind less the first item of another one: `new_for KIND KIND`.
fn new_for(asked: Asked) -> Built {
    let reference = reference_of(asked.alloc, asked.word(2), asked.column(1))?;
    let encoded = building::array(asked.alloc, asked.word(1), asked.column(0))?;
    making::global_for(asked.alloc, encoded, reference)
}

/// An array of a kind less references of a kind: `new_for_chunked OFFSET KIND KIND`.
fn new_for_chunked(asked: Asked) -> Built {
    let offset = offset_of(asked.word(1));
    let encoded = building::array(asked.alloc, asked.word(2), asked.column(0))?;
    let references = building::array(asked.alloc, asked.word(3), asked.column(1))?;
    making::chunked_for(asked.alloc, encoded, references, offset)
}

/// An array of bases and deltas, with the validity of a third column: `new_delta OFFSET LEN KIND KIND`.
fn new_delta(asked: Asked) -> Built {
    let (offset, len) = (asked.count(1), asked.count(2));
    let bases = building::array(asked.alloc, asked.word(3), asked.column(0))?;
    let deltas = building::array(asked.alloc, asked.word(4), asked.column(1))?;
    let validity = asked.column(2).validity().try_clone(asked.alloc)?;
    making::delta(asked.alloc, bases, deltas, validity, offset, len)
}

/// An array of run values, run indices and run offsets: `new_rle OFFSET LEN KIND KIND KIND`.
fn new_rle(asked: Asked) -> Built {
    let (offset, len) = (asked.count(1), asked.count(2));
    let values = building::array(asked.alloc, asked.word(3), asked.column(0))?;
    let indices = building::array(asked.alloc, asked.word(4), asked.column(1))?;
    let offsets = building::array(asked.alloc, asked.word(5), asked.column(2))?;
    making::rle(asked.alloc, values, indices, offsets, offset, len)
}

#[derive(Clone, Copy)]
enum Constructor {
    BitPacked,
    Blocked,
    For,
    ForChunked,
    Delta,
    Rle,
}

const CONSTRUCTORS: &[(&str, Constructor)] = &[
    ("new_bitpacked", Constructor::BitPacked),
    ("new_blocked", Constructor::Blocked),
    ("new_for", Constructor::For),
    ("new_for_chunked", Constructor::ForChunked),
    ("new_delta", Constructor::Delta),
    ("new_rle", Constructor::Rle),
];

/// What a constructor makes of the first columns.
fn build(asked: Asked, constructor: Constructor) -> Built {
    match constructor {
        Constructor::BitPacked => new_bitpacked(asked),
        Constructor::Blocked => new_blocked(asked),
        Constructor::For => new_for(asked),
        Constructor::ForChunked => new_for_chunked(asked),
        Constructor::Delta => new_delta(asked),
        Constructor::Rle => new_rle(asked),
    }
}

/// How many words a constructor takes, its name among them, and how many columns.
fn taken(asked: Asked, constructor: Constructor) -> (usize, usize) {
    let patches = patch_columns(asked.word(4));
    match constructor {
        Constructor::BitPacked => (5, patches.saturating_add(2)),
        Constructor::Blocked => (5, patches.saturating_add(3)),
        Constructor::For => (3, 2),
        Constructor::ForChunked => (4, 2),
        Constructor::Delta => (5, 3),
        Constructor::Rle => (6, 3),
    }
}

/// Answers words about an array of the first columns, by the constructor that the question names.
pub(crate) fn ask(asked: Asked, answer: &mut Text) -> bool {
    let Some(constructor) = named(CONSTRUCTORS, asked.word(0)) else {
        return false;
    };
    let (words, columns) = taken(asked, constructor);
    answer_built(
        asked.from(words),
        &build(asked, constructor),
        columns,
        answer,
    );
    true
}
