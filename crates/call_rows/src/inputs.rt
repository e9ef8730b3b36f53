//! What calls borrow and take.

use bytes::Bytes;
use fl_array::bitpacking::BitPackedArray;
use fl_array::bitpacking::bitpack_compress::{
    bitpack_blocked_to_best_bit_widths, bitpack_to_best_bit_width,
};
use fl_array::{ArrayRef, IntoArray};
use fl_column::PrimitiveArray;
use fl_ops::Op;
use fl_serde::serialize;
use fl_serialized::SerializedArray;
use fl_types::{BitList, FastLanesError, PType, Validity};
use flcol_container::write_container;
use row_reader::arrays::{building, operations};
use row_reader::asked::Asked;
use row_reader::column_rows::{bits, plain, widths};
use row_reader::names::named;
use row_reader::shown;
use row_reader::text::Text;
use std::alloc::Global;

/// What calls borrow, made of the columns of a row.
#[derive(Drop)]
pub(crate) struct Inputs {
    /// The first column, as an array of a kind.
    pub(crate) array: ArrayRef,
    pub(crate) columns: Vec<PrimitiveArray>,
    /// The operations that the words name, where the call takes operations.
    pub(crate) ops: Vec<Op>,
    /// The items of the first column, where these are of `u16`.
    pub(crate) items: Vec<Option<u16>>,
    /// The items of the first column as numbers, where these are of `u64`.
    pub(crate) numbers: Vec<usize>,
    /// The node of the array.
    pub(crate) node: SerializedArray,
    /// The container of the node.
    pub(crate) container: Bytes,
}

/// The operations that words name, where the call takes operations.
fn ops_of(asked: Asked) -> Result<Vec<Op>, FastLanesError> {
    if asked.word(0).ends_with("op") {
        operations::read_all(asked.alloc, asked.words_from(1), asked.columns_from(1))
    } else {
        Ok(Vec::new(asked.alloc))
    }
}

fn copies(
    alloc: Global,
    columns: &[PrimitiveArray],
) -> Result<Vec<PrimitiveArray>, FastLanesError> {
    let mut all = Vec::new(alloc);
    for column in columns {
        all.push(column.try_clone(alloc)?)?;
    }
    Ok(all)
}

fn numbers_of(alloc: Global, column: &PrimitiveArray) -> Result<Vec<usize>, FastLanesError> {
    if column.ptype() == PType::U64 {
        widths::entries(alloc, column)
    } else {
        Ok(Vec::new(alloc))
    }
}

/// The container of a node that is small enough to have one.
fn container_of(alloc: Global, node: &SerializedArray) -> Result<Bytes, FastLanesError> {
    match write_container(alloc, node) {
        Ok(bytes) => Ok(Bytes::from_vec(bytes)?),
        Err(_) => Err(FastLanesError::OutOfMemory),
    }
}

/// The container of an array.
fn container_of_array(alloc: Global, array: &ArrayRef) -> Result<Bytes, FastLanesError> {
    container_of(alloc, &serialize(alloc, array)?)
}

impl Inputs {
    pub(crate) fn make(asked: Asked, kind: &str) -> Result<Inputs, FastLanesError> {
        let (alloc, first) = (asked.alloc, asked.column(0));
        let array = building::array(alloc, kind, first)?;
        let node = serialize(alloc, &array)?;
        let container = container_of(alloc, &node)?;
        Ok(Inputs {
            array,
            columns: copies(alloc, asked.columns)?,
            ops: ops_of(asked)?,
            items: plain::typed_items::<u16>(alloc, first)?,
            numbers: numbers_of(alloc, first)?,
            node,
            container,
        })
    }

    /// Each byte that is stored of them: of the array and of the node as containers, of the container, and of the indices
    /// of takes.
    pub(crate) fn stored(&self, alloc: Global) -> Result<Vec<u8>, FastLanesError> {
        let mut bytes = Vec::from_slice(alloc, self.container.as_slice())?;
        bytes.extend_from_slice(container_of(alloc, &self.node)?.as_slice())?;
        bytes.extend_from_slice(container_of_array(alloc, &self.array)?.as_slice())?;
        for op in &self.ops {
            if let Op::Take(indices) = op {
                bytes.extend_from_slice(container_of_array(alloc, indices)?.as_slice())?;
            }
        }
        Ok(bytes)
    }

    /// Adds what can be seen of the columns, with what is stored under nulls, and of the operations.
    pub(crate) fn describe(&self, answer: &mut Text) {
        for column in &self.columns {
            shown::column(answer, column);
            shown::slots(answer, column);
        }
        for op in &self.ops {
            operation(op, answer);
        }
        for item in &self.items {
            answer.item(item.map(i128::from));
        }
        for number in &self.numbers {
            answer.item(Some(*number as i128));
        }
    }
}

/// Adds what an operation holds, but for the indices of a take.
fn operation(op: &Op, answer: &mut Text) {
    match op {
        Op::Slice(range) => {
            answer.count(range.start);
            answer.count(range.end);
        }
        Op::TakeRanges(ranges) => {
            for (start, len) in ranges {
                answer.count(*start);
                answer.count(*len);
            }
        }
        Op::Filter(mask) => answer.debug(mask),
        Op::Cast(target) => shown::dtype(answer, *target),
        Op::Take(_) => {}
    }
}

/// What a call takes, made of the columns of a row.
#[derive(Drop)]
pub(crate) enum Owned {
    /// The call takes nothing.
    Nothing,
    /// The columns, the first one last.
    Columns(Vec<PrimitiveArray>),
    /// The columns as arrays of the kinds that the words name, the first one last.
    Arrays(Vec<ArrayRef>),
    /// The first column, bit-packed.
    Packed(BitPackedArray),
    /// The integers of the first column, and its validity.
    Integers(Vec<u16>, Validity),
    /// A bit for each item of the first column, and its validity.
    Bits(BitList, Validity),
}

/// Columns, the first one last.
fn columns_of(
    alloc: Global,
    columns: &[PrimitiveArray],
) -> Result<Vec<PrimitiveArray>, FastLanesError> {
    let mut all = Vec::new(alloc);
    for i in (0..columns.len()).rev() {
        all.push(columns[i].try_clone(alloc)?)?;
    }
    Ok(all)
}

/// Columns as arrays of kinds, the first one last.
fn arrays_of(
    alloc: Global,
    kinds: &[&str],
    columns: &[PrimitiveArray],
) -> Result<Vec<ArrayRef>, FastLanesError> {
    let mut arrays = Vec::new(alloc);
    for i in (0..columns.len()).rev() {
        let kind = kinds.get(i).copied().unwrap_or("plain");
        arrays.push(building::array(alloc, kind, &columns[i])?)?;
    }
    Ok(arrays)
}

/// A column that is bit-packed: at widths for each block where the kind is of blocks.
fn packed_of(
    alloc: Global,
    kind: &str,
    column: &PrimitiveArray,
) -> Result<BitPackedArray, FastLanesError> {
    if kind.starts_with("blocked") {
        bitpack_blocked_to_best_bit_widths(alloc, column)
    } else {
        bitpack_to_best_bit_width(alloc, column)
    }
}

/// The integers of a column of `u16`.
fn integers_of(alloc: Global, column: &PrimitiveArray) -> Result<Vec<u16>, FastLanesError> {
    if column.ptype() != PType::U16 {
        return Err(FastLanesError::TypeMismatch);
    }
    Ok(Vec::from_slice(alloc, column.as_slice::<u16>())?)
}

/// How a call that takes its inputs has them.
#[derive(Clone, Copy)]
enum Taking {
    Arrays,
    Packed,
    Integers,
    Bits,
    Columns,
}

const TAKINGS: &[(&str, Taking)] = &[
    ("new_for", Taking::Arrays),
    ("new_for_chunked", Taking::Arrays),
    ("new_delta", Taking::Arrays),
    ("new_rle", Taking::Arrays),
    ("new_packed", Taking::Packed),
    ("new_column", Taking::Integers),
    ("new_bools", Taking::Bits),
    ("new_type", Taking::Columns),
    ("new_array", Taking::Columns),
    ("new_unpatched", Taking::Columns),
    ("new_patches", Taking::Columns),
];

/// The integers of a column of `u16`, and its validity.
fn integers_in(alloc: Global, column: &PrimitiveArray) -> Result<Owned, FastLanesError> {
    let validity = column.validity().try_clone(alloc)?;
    Ok(Owned::Integers(integers_of(alloc, column)?, validity))
}

/// A bit for each item of a column, and its validity.
fn bits_in(alloc: Global, column: &PrimitiveArray) -> Result<Owned, FastLanesError> {
    let validity = column.validity().try_clone(alloc)?;
    Ok(Owned::Bits(bits::ones(alloc, column)?, validity))
}

impl Owned {
    pub(crate) fn make(asked: Asked, kind: &str) -> Result<Owned, FastLanesError> {
        let (alloc, column) = (asked.alloc, asked.column(0));
        match named(TAKINGS, asked.word(0)) {
            Some(Taking::Arrays) => {
                let arrays = arrays_of(alloc, asked.words_from(1), asked.columns)?;
                Ok(Owned::Arrays(arrays))
            }
            Some(Taking::Packed) => Ok(Owned::Packed(packed_of(alloc, kind, column)?)),
            Some(Taking::Integers) => integers_in(alloc, column),
            Some(Taking::Bits) => bits_in(alloc, column),
            Some(Taking::Columns) => Ok(Owned::Columns(columns_of(alloc, asked.columns)?)),
            None => Ok(Owned::Nothing),
        }
    }
}
