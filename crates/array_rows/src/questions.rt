//! Questions to arrays.

use crate::{data, nodes, parts, queries, scan};
use fl_array::ArrayRef;
use fl_array::laws::{item_of_decoded, slice_of_slice};
use fl_column::PrimitiveArray;
use fl_serde::laws::round_trip;
use fl_types::FastLanesError;
use row_reader::arrays::{Built, kinds};
use row_reader::asked::Asked;
use row_reader::columns::count;
use row_reader::names::named;
use row_reader::parts::is_same;
use row_reader::shown;
use row_reader::shown::made;
use row_reader::text::Text;
use std::alloc::Global;

/// Adds the item at an index, which is one of those that are there.
fn item(alloc: Global, array: &ArrayRef, i: usize, answer: &mut Text) {
    if i < array.len() {
        match array.scalar_at(alloc, i) {
            Ok(item) => answer.item(shown::integer_in(item)),
            Err(refusal) => answer.refusal(refusal),
        }
    }
}

/// Adds the type and the items of an array, each read alone.
pub(crate) fn column_read(array: &ArrayRef, answer: &mut Text) {
    shown::dtype(answer, array.dtype());
    for i in 0..array.len() {
        item(answer.alloc(), array, i, answer);
    }
}

/// Adds the kind, the type and the items of an array.
fn array_read(array: &ArrayRef, answer: &mut Text) {
    kinds::kind(array, answer);
    column_read(array, answer);
}

fn array_made(made: &Built, answer: &mut Text) {
    match made {
        Ok(array) => array_read(array, answer),
        Err(refusal) => answer.refusal(*refusal),
    }
}

fn item_decoded(alloc: Global, array: &ArrayRef, i: usize, answer: &mut Text) {
    if i < array.len() {
        match item_of_decoded(array, alloc, i) {
            Ok((_, item)) => shown::scalar(answer, item),
            Err(refusal) => answer.refusal(refusal),
        }
    }
}

/// A slice of a slice, where both lie within their arrays.
fn sliced_twice(
    alloc: Global,
    array: &ArrayRef,
    outer: (usize, usize),
    inner: (usize, usize),
) -> Built {
    let within = outer.0 <= outer.1 && outer.1 <= array.len() && inner.0 <= inner.1;
    if !within || inner.1 > outer.1 - outer.0 {
        return Err(FastLanesError::RangeOutOfBounds);
    }
    let (_, part) = slice_of_slice(array, alloc, outer.0..outer.1, inner.0..inner.1)?;
    Ok(part)
}

/// The numbers of a range: `1:3`.
fn range_of(text: &str) -> (usize, usize) {
    let (start, end) = text.split_once(':').unwrap_or((text, ""));
    (count(start), count(end))
}

/// A slice, where it lies within the array.
fn sliced(alloc: Global, array: &ArrayRef, start: usize, end: usize) -> Built {
    if start > end || end > array.len() {
        return Err(FastLanesError::RangeOutOfBounds);
    }
    array.slice(alloc, start..end)
}

/// Adds what a slice that was made keeps, and all its parts.
fn slice_parts(alloc: Global, made: &Built, answer: &mut Text) {
    match made {
        Ok(array) => {
            parts::kept(array, answer);
            parts::parts(alloc, array, answer);
        }
        Err(refusal) => answer.refusal(*refusal),
    }
}

/// Adds what a slice of a slice keeps, and its parts where they are not those of the slice by the composed range.
fn composed(
    alloc: Global,
    array: &ArrayRef,
    outer: (usize, usize),
    inner: (usize, usize),
    answer: &mut Text,
) {
    let twice = sliced_twice(alloc, array, outer, inner);
    let (start, end) = (
        outer.0.saturating_add(inner.0),
        outer.0.saturating_add(inner.1),
    );
    let once = sliced(alloc, array, start, end);
    let (mut left, mut right) = (Text::new(alloc), Text::new(alloc));
    slice_parts(alloc, &twice, &mut left);
    slice_parts(alloc, &once, &mut right);
    if let Ok(array) = &twice {
        parts::kept(array, answer);
    }
    if left.as_str() != right.as_str() {
        answer.word("but");
        answer.word(left.as_str());
        answer.word("for");
        answer.word(right.as_str());
    }
}

/// Adds what slices of a slice keep, one after another.
fn all_composed(asked: Asked, array: &ArrayRef, answer: &mut Text) {
    let outer = range_of(asked.word(1));
    for range in asked.words_from(2) {
        answer.word("|");
        composed(asked.alloc, array, outer, range_of(range), answer);
    }
}

/// Whether an item, read alone, is that of a column.
fn is_item(alloc: Global, array: &ArrayRef, column: &PrimitiveArray, i: usize) -> bool {
    if i < array.len() && i < column.len() {
        match array.scalar_at(alloc, i) {
            Ok(item) => item.as_pvalue() == column.get(i),
            Err(_) => false,
        }
    } else {
        true
    }
}

/// How far apart the items lie that are read alone: all are up to 1024 items, of a longer array some 64.
fn stride(len: usize) -> usize {
    if len <= 1024 { 1 } else { len / 64 + 1 }
}

/// The first item of an array that, read alone, is not that of a column.
fn first_other(alloc: Global, array: &ArrayRef, column: &PrimitiveArray) -> Option<usize> {
    let stride = stride(column.len());
    for k in 0..1024usize {
        let i = k.saturating_mul(stride);
        if !is_item(alloc, array, column, i) {
            return Some(i);
        }
    }
    None
}

/// Adds `back`, and the first item that, read alone, is not that of a column.
fn reads_back(alloc: Global, array: &ArrayRef, column: &PrimitiveArray, answer: &mut Text) {
    answer.word("back");
    if let Some(i) = first_other(alloc, array, column) {
        answer.word("but");
        answer.count(i);
    }
}

/// Adds `back` where an array decodes to a column and has its items, else what it decodes to.
pub(crate) fn back(alloc: Global, array: &ArrayRef, column: &PrimitiveArray, answer: &mut Text) {
    match array.to_primitive(alloc) {
        Ok(decoded) => {
            if is_same(&decoded, column) {
                reads_back(alloc, array, column, answer);
            } else {
                shown::column(answer, &decoded);
            }
        }
        Err(refusal) => answer.refusal(refusal),
    }
}

/// Adds the kind of an array that was read, and what it decodes to.
fn decoded(alloc: Global, made: &Built, answer: &mut Text) {
    match made {
        Ok(array) => {
            kinds::kind(array, answer);
            array_made(&array.decode(alloc), answer);
        }
        Err(refusal) => answer.refusal(*refusal),
    }
}

/// Adds the kind and the column of what is read where an array is written: `same` where they are the array's.
fn stored(alloc: Global, array: &ArrayRef, answer: &mut Text) {
    let (mut before, mut after) = (Text::new(alloc), Text::new(alloc));
    decoded(alloc, &array.try_clone(alloc), &mut before);
    decoded(alloc, &round_trip(alloc, array), &mut after);
    if before.as_str() == after.as_str() {
        answer.word("same");
    } else {
        answer.word(after.as_str());
    }
}

#[derive(Clone, Copy)]
enum Question {
    Kind,
    Column,
    Parts,
    Kept,
    Bytes,
    Slots,
    Back,
    Items,
    Copy,
    Decode,
    Plain,
    Validity,
    Item,
    Slices,
    Composed,
    Serialized,
    Stored,
}

const QUESTIONS: &[(&str, Question)] = &[
    ("kind", Question::Kind),
    ("column", Question::Column),
    ("parts", Question::Parts),
    ("kept", Question::Kept),
    ("bytes", Question::Bytes),
    ("slots", Question::Slots),
    ("back", Question::Back),
    ("items", Question::Items),
    ("copy", Question::Copy),
    ("decode", Question::Decode),
    ("plain", Question::Plain),
    ("validity", Question::Validity),
    ("item", Question::Item),
    ("slices", Question::Slices),
    ("composed", Question::Composed),
    ("serialized", Question::Serialized),
    ("stored", Question::Stored),
];

/// Answers a question that looks at an array's parts, or calls something. The last column is the one that `back`
/// speaks of.
fn answer_asked(asked: Asked, question: Question, array: &ArrayRef, answer: &mut Text) {
    let alloc = asked.alloc;
    match question {
        Question::Kind => kinds::kind(array, answer),
        Question::Column => column_read(array, answer),
        Question::Parts => parts::parts(alloc, array, answer),
        Question::Kept => parts::kept(array, answer),
        Question::Bytes => parts::packed_bytes(array, answer),
        Question::Slots => parts::slots(array, answer),
        Question::Back => back(alloc, array, asked.last_column(), answer),
        Question::Items => array_read(array, answer),
        Question::Copy => array_made(&array.try_clone(alloc), answer),
        Question::Decode => array_made(&array.decode(alloc), answer),
        Question::Plain => made(answer, array.to_primitive(alloc)),
        Question::Validity => made(answer, array.validity(alloc)),
        Question::Item => item_decoded(alloc, array, asked.count(1), answer),
        Question::Slices => {
            let (outer, inner) = (range_of(asked.word(1)), range_of(asked.word(2)));
            array_made(&sliced_twice(alloc, array, outer, inner), answer);
        }
        Question::Composed => all_composed(asked, array, answer),
        Question::Serialized => nodes::serialized(alloc, asked.word(2), array, answer),
        Question::Stored => stored(alloc, array, answer),
    }
}

/// Answers what words ask of an array, or of one inside it.
pub(crate) fn answer(asked: Asked, array: &ArrayRef, answer: &mut Text) {
    let Some((array, words)) = parts::descend(array, asked.words) else {
        answer.word("no such array");
        return;
    };
    let asked = asked.with_words(words);
    match named(QUESTIONS, asked.word(0)) {
        Some(question) => answer_asked(asked, question, array, answer),
        None => {
            if !queries::answer(asked, array, answer) && !scan::answer(asked, array, answer) {
                data::ask(asked, array, answer);
            }
        }
    }
}
