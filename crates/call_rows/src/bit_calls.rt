//! Calls on lists of bits, masks, validities and boolean arrays.

use crate::came;
use crate::inputs::Inputs;
use fl_column::BoolArray;
use fl_ops::Op;
use fl_types::{BitList, FastLanesError, Mask, Validity};
use row_reader::asked::Asked;
use row_reader::names::named;
use row_reader::text::Text;
use std::alloc::Global;

/// What makes a list of bits.
type Listed = Result<BitList, FastLanesError>;

/// A list of bits, each pushed after the other.
fn pushed(alloc: Global, bits: &BitList) -> Listed {
    let mut list = BitList::new(alloc);
    for i in 0..bits.len() {
        list.push(bits.get(i))?;
    }
    Ok(list)
}

/// The same, each by a function.
fn from_fn(alloc: Global, bits: &BitList) -> Listed {
    BitList::from_fn(alloc, bits.len(), |i| i < bits.len() && bits.get(i))
}

fn slice_bits(alloc: Global, bits: &BitList, start: usize, end: usize) -> Listed {
    if start > end || end > bits.len() {
        return Err(FastLanesError::RangeOutOfBounds);
    }
    bits.slice(alloc, start, end)
}

fn slice_bools(
    alloc: Global,
    bools: &BoolArray,
    start: usize,
    end: usize,
) -> Result<BoolArray, FastLanesError> {
    if start > end || end > bools.len() {
        return Err(FastLanesError::RangeOutOfBounds);
    }
    bools.slice(alloc, start, end)
}

/// A part of the validity of the first column.
fn slice_validity(asked: Asked, start: usize, end: usize) -> Result<Validity, FastLanesError> {
    let (validity, len) = (asked.column(0).validity(), asked.column(0).len());
    if start > end || end > len || !validity.covers(len) {
        return Err(FastLanesError::RangeOutOfBounds);
    }
    validity.slice(asked.alloc, start, end, len)
}

/// Copies the mask of the row's filter.
fn copy_mask(alloc: Global, inputs: &Inputs) -> Result<Mask, FastLanesError> {
    match inputs.ops.first() {
        Some(Op::Filter(mask)) => mask.try_clone(alloc),
        _ => Err(FastLanesError::MaskLength),
    }
}

/// Makes a call on a list of bits: `on_bits slice 1 3`, `copy`, `push` or `from_fn`.
fn on_bits(asked: Asked, bits: &BitList, answer: &mut Text) {
    let alloc = asked.alloc;
    match asked.word(1) {
        "slice" => came(
            answer,
            slice_bits(alloc, bits, asked.count(2), asked.count(3)),
        ),
        "push" => came(answer, pushed(alloc, bits)),
        "from_fn" => came(answer, from_fn(alloc, bits)),
        _ => came(answer, bits.try_clone(alloc)),
    }
}

/// Makes a call on a boolean array: `on_bools slice 1 3` or `copy`.
fn on_bools(asked: Asked, bools: &BoolArray, answer: &mut Text) {
    match asked.word(1) {
        "slice" => came(
            answer,
            slice_bools(asked.alloc, bools, asked.count(2), asked.count(3)),
        ),
        _ => came(answer, bools.try_clone(asked.alloc)),
    }
}

/// Makes a call on the validity of the first column: `on_validity slice 1 3` or `copy`.
fn on_validity(asked: Asked, answer: &mut Text) {
    match asked.word(1) {
        "slice" => came(
            answer,
            slice_validity(asked, asked.count(2), asked.count(3)),
        ),
        _ => came(answer, asked.column(0).validity().try_clone(asked.alloc)),
    }
}

#[derive(Clone, Copy)]
enum Call {
    Bits,
    Bools,
    Validity,
    Mask,
}

const CALLS: &[(&str, Call)] = &[
    ("on_bits", Call::Bits),
    ("on_bools", Call::Bools),
    ("on_validity", Call::Validity),
    ("mask_op", Call::Mask),
];

pub(crate) fn make(asked: Asked, inputs: &Inputs, answer: &mut Text) -> bool {
    let Some(call) = named(CALLS, asked.word(0)) else {
        return false;
    };
    match (call, inputs.array.as_bool()) {
        (Call::Bits, Some(bools)) => on_bits(asked, bools.bits(), answer),
        (Call::Bools, Some(bools)) => on_bools(asked, bools, answer),
        (Call::Validity, _) => on_validity(asked, answer),
        (Call::Mask, _) => came(answer, copy_mask(asked.alloc, inputs)),
        _ => answer.word("no such call"),
    }
    true
}
