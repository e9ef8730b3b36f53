//! Calls that take their inputs: constructors, and what changes a column's type.

use crate::inputs::Owned;
use crate::{came, came_array, came_patches};
use fl_array::bitpacking::bitpack_compress::bitpack_encode_unchecked;
use fl_array::bitpacking::{BitPacked, BitPackedArray, BitWidths};
use fl_array::{ArrayRef, IntoArray};
use fl_column::{BoolArray, PrimitiveArray};
use fl_patches::{Patches, bit_width_histogram};
use fl_types::{FastLanesError, PType, Validity};
use row_reader::arrays::making::{self, Packed};
use row_reader::asked::Asked;
use row_reader::column_rows::widths;
use row_reader::columns::{Made, width_of};
use row_reader::text::Text;
use std::alloc::Global;

/// The array of the parts of a bit-packed one: over the boundaries, where it has any.
fn packed_again(alloc: Global, array: BitPackedArray) -> Result<ArrayRef, FastLanesError> {
    let ptype = array.packed_data().ptype();
    let parts = BitPacked::into_parts(array);
    let packed = Packed {
        bytes: parts.packed,
        ptype,
        validity: parts.validity,
        patches: parts.patches,
        offset: parts.offset,
        len: parts.len,
    };
    match parts.bit_widths {
        BitWidths::Global(width) => making::bitpacked(packed, width),
        BitWidths::Blocked(boundaries) => making::blocked(alloc, packed, boundaries),
    }
}

/// A column in a type of the same width.
fn reread(alloc: Global, column: PrimitiveArray) -> Made {
    if column.ptype().bit_width() != 16 {
        return Err(FastLanesError::TypeMismatch);
    }
    column.reinterpret_cast(alloc, PType::I16)
}

/// An array less the first item of another one.
fn less_first(
    alloc: Global,
    encoded: ArrayRef,
    reference: &ArrayRef,
) -> Result<ArrayRef, FastLanesError> {
    if reference.len() == 0 {
        return Err(FastLanesError::ReferenceCount);
    }
    let reference = reference.scalar_at(alloc, 0)?;
    making::global_for(alloc, encoded, reference)
}

/// Packs a column at a width that leaves nothing out, which the histogram is made for first.
fn packed_unpatched(
    alloc: Global,
    column: PrimitiveArray,
    width: u8,
) -> Result<ArrayRef, FastLanesError> {
    let histogram = bit_width_histogram(alloc, &column)?;
    if usize::from(width) > column.ptype().bit_width() {
        return Err(FastLanesError::WidthTooLarge);
    }
    match widths::sum_above(width, &histogram) {
        Some(0) => Ok(bitpack_encode_unchecked(alloc, column, width)?.into_array()),
        _ => Err(FastLanesError::WidthTooLarge),
    }
}

/// Makes something of a column.
fn of_column(asked: Asked, column: PrimitiveArray, answer: &mut Text) {
    let alloc = asked.alloc;
    match asked.word(0) {
        "new_type" => came(answer, reread(alloc, column)),
        "new_array" => came_array(answer, Ok(column.into_array())),
        _ => {
            let width = width_of(asked.word(1));
            came_array(answer, packed_unpatched(alloc, column, width));
        }
    }
}

/// Makes something of columns, the first one last.
fn of_columns(asked: Asked, columns: Vec<PrimitiveArray>, answer: &mut Text) {
    let mut columns = columns;
    match (columns.pop(), columns.pop()) {
        (Some(indices), Some(values)) => {
            let (len, offset) = (asked.count(1), asked.count(2));
            let made = Patches::new(len, offset, indices, values, columns.pop());
            came_patches(answer, made.map(Some));
        }
        (Some(column), None) => of_column(asked, column, answer),
        _ => answer.word("no such call"),
    }
}

/// Makes an array of two.
fn of_two(asked: Asked, first: ArrayRef, second: ArrayRef) -> Result<ArrayRef, FastLanesError> {
    let alloc = asked.alloc;
    match asked.word(0) {
        "new_for" => less_first(alloc, first, &second),
        "new_for_chunked" => making::chunked_for(alloc, first, second, 0),
        _ => {
            let len = second.len();
            making::delta(alloc, first, second, Validity::NonNullable, 0, len)
        }
    }
}

/// Makes an array of arrays, the first one last.
fn of_arrays(asked: Asked, arrays: Vec<ArrayRef>) -> Result<ArrayRef, FastLanesError> {
    let mut arrays = arrays;
    match (arrays.pop(), arrays.pop(), arrays.pop()) {
        (Some(values), Some(indices), Some(offsets)) => {
            let len = indices.len();
            making::rle(asked.alloc, values, indices, offsets, 0, len)
        }
        (Some(first), Some(second), None) => of_two(asked, first, second),
        _ => Err(FastLanesError::ChildCount),
    }
}

pub(crate) fn make(asked: Asked, owned: Owned, answer: &mut Text) {
    match owned {
        Owned::Columns(columns) => of_columns(asked, columns, answer),
        Owned::Arrays(arrays) => came_array(answer, of_arrays(asked, arrays)),
        Owned::Packed(packed) => came_array(answer, packed_again(asked.alloc, packed)),
        Owned::Integers(integers, validity) => {
            came(answer, PrimitiveArray::new(integers, validity));
        }
        Owned::Bits(bits, validity) => came(answer, BoolArray::new(bits, validity)),
        Owned::Nothing => answer.word("no such call"),
    }
}
