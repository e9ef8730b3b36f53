//! Patches: their parts, and the patches of selected items.

use crate::asked::Asked;
use crate::columns::{Made, count};
use crate::names::named;
use crate::shown;
use crate::text::Text;
use fl_column::{PrimitiveArray, index_array};
use fl_patches::Patches;
use fl_types::*;
use std::alloc::Global;

/// What selects patches, or none.
pub type Selected = Result<Option<Patches>, FastLanesError>;

/// Adds patches: how many of how many items, the offset, and their columns.
pub fn parts(answer: &mut Text, patches: &Patches) {
    answer.count(patches.num_patches());
    answer.word("of");
    answer.count(patches.array_len());
    answer.word("from");
    answer.count(patches.offset());
    answer.word("|");
    shown::column(answer, patches.indices());
    answer.word("|");
    shown::column(answer, patches.values());
    if let Some(chunk_offsets) = patches.chunk_offsets() {
        answer.word("|");
        shown::column(answer, chunk_offsets);
    }
}

/// Adds what was selected, `none`, or why nothing was.
pub fn selected(answer: &mut Text, selected: &Selected) {
    match selected {
        Ok(Some(patches)) => parts(answer, patches),
        Ok(None) => answer.word("none"),
        Err(refusal) => answer.refusal(*refusal),
    }
}

/// Adds the value at a position, or `none`.
fn value_at(answer: &mut Text, patches: &Patches, position: &str) {
    match patches.get_patched(count(position)) {
        Some(value) => shown::scalar(answer, Scalar::primitive(value, Nullability::NonNullable)),
        None => answer.word("none"),
    }
}

/// The numbers of a range: `3..10`.
fn range_of(text: &str) -> (usize, usize) {
    let (start, end) = text.split_once("..").unwrap_or((text, ""));
    (count(start), count(end))
}

fn slice(alloc: Global, patches: &Patches, range: &str) -> Selected {
    let (start, end) = range_of(range);
    if start > end || end > patches.array_len() {
        return Err(FastLanesError::RangeOutOfBounds);
    }
    patches.slice(alloc, start..end)
}

/// A mask that keeps the items of a range.
fn mask_of(alloc: Global, len: usize, range: &str) -> Result<Mask, FastLanesError> {
    let (start, end) = range_of(range);
    let mut bits = BitList::new(alloc);
    for i in 0..len {
        bits.push(start <= i && i < end)?;
    }
    Ok(Mask::Values(bits))
}

fn filter_by(alloc: Global, patches: &Patches, mask: &Mask) -> Selected {
    if mask.len() != patches.array_len() {
        return Err(FastLanesError::MaskLength);
    }
    patches.filter(alloc, mask)
}

fn filter(alloc: Global, patches: &Patches, kept: &str) -> Selected {
    let len = patches.array_len();
    match kept {
        "all" => filter_by(alloc, patches, &Mask::AllTrue(len)),
        "none" => filter_by(alloc, patches, &Mask::AllFalse(len)),
        range => filter_by(alloc, patches, &mask_of(alloc, len, range)?),
    }
}

/// What an operation selects: a slice, a filter, a take by a column, and else a copy.
fn select(
    alloc: Global,
    patches: &Patches,
    operation: &str,
    indices: &[PrimitiveArray],
) -> Selected {
    let (name, argument) = operation.split_once(':').unwrap_or((operation, ""));
    match (name, indices) {
        ("slice", _) => slice(alloc, patches, argument),
        ("filter", _) => filter(alloc, patches, argument),
        ("take", [indices]) => patches.take(alloc, indices),
        _ => patches.try_clone(alloc).map(Some),
    }
}

/// What operations select one after the other. Adds the values that they ask for.
fn select_all(
    alloc: Global,
    patches: Patches,
    operations: &[&str],
    indices: &[PrimitiveArray],
    answer: &mut Text,
) -> Selected {
    let mut left = Some(patches);
    for operation in operations {
        if let Some(patches) = left {
            if let Some(position) = operation.strip_prefix("at:") {
                value_at(answer, &patches, position);
                left = Some(patches);
            } else {
                left = select(alloc, &patches, operation, indices)?;
            }
        } else {
            left = None;
        }
    }
    Ok(left)
}

/// Adds what operations select of patches that were made.
pub fn ask_made(
    alloc: Global,
    made: Selected,
    operations: &[&str],
    indices: &[PrimitiveArray],
    answer: &mut Text,
) {
    match made {
        Ok(Some(patches)) => {
            let left = select_all(alloc, patches, operations, indices, answer);
            selected(answer, &left);
        }
        Ok(None) => answer.word("none"),
        Err(refusal) => answer.refusal(refusal),
    }
}

/// Patches of columns, of this many items from an offset on.
pub fn make(
    alloc: Global,
    len: usize,
    offset: usize,
    indices: &PrimitiveArray,
    values: &PrimitiveArray,
    chunk_offsets: Option<PrimitiveArray>,
) -> Result<Patches, FastLanesError> {
    let (indices, values) = (indices.try_clone(alloc)?, values.try_clone(alloc)?);
    Patches::new(len, offset, indices, values, chunk_offsets)
}

/// Patches of columns, of which the last one is their chunk offsets.
pub fn make_chunked(
    alloc: Global,
    len: usize,
    offset: usize,
    indices: &PrimitiveArray,
    values: &PrimitiveArray,
    chunk_offsets: &PrimitiveArray,
) -> Result<Patches, FastLanesError> {
    let chunk_offsets = chunk_offsets.try_clone(alloc)?;
    make(alloc, len, offset, indices, values, Some(chunk_offsets))
}

/// Adds what operations select of patches of columns.
fn ask_patches(asked: Asked, answer: &mut Text) {
    let (alloc, len, offset) = (asked.alloc, asked.count(1), asked.count(2));
    let made = make(alloc, len, offset, asked.column(0), asked.column(1), None);
    let taken = asked.columns_from(2);
    ask_made(alloc, made.map(Some), asked.words_from(3), taken, answer);
}

/// The same with chunk offsets.
fn ask_chunked(asked: Asked, answer: &mut Text) {
    let (alloc, len, offset) = (asked.alloc, asked.count(1), asked.count(2));
    let (indices, values) = (asked.column(0), asked.column(1));
    let made = make_chunked(alloc, len, offset, indices, values, asked.column(2));
    let taken = asked.columns_from(3);
    ask_made(alloc, made.map(Some), asked.words_from(3), taken, answer);
}

/// The places 0 and 5 as indices, where this many are to be named.
fn two_places(alloc: Global, holds: usize) -> Made {
    let places = Vec::from_slice(alloc, &[0u64, 5])?;
    if holds < 6 {
        return Err(FastLanesError::IndexOutOfBounds);
    }
    index_array(alloc, places, holds)
}

#[derive(Clone, Copy)]
enum Question {
    Patches,
    Chunked,
    TwoPlaces,
}

const QUESTIONS: &[(&str, Question)] = &[
    ("patches", Question::Patches),
    ("chunked", Question::Chunked),
    ("two_places", Question::TwoPlaces),
];

pub fn ask(asked: Asked, answer: &mut Text) -> bool {
    let Some(question) = named(QUESTIONS, asked.word(0)) else {
        return false;
    };
    match question {
        Question::Patches => ask_patches(asked, answer),
        Question::Chunked => ask_chunked(asked, answer),
        Question::TwoPlaces => shown::made(answer, two_places(asked.alloc, asked.count(1))),
    }
    true
}
