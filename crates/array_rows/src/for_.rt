//! Frames of reference: columns less one reference, or less one for each chunk.

use fl_array::IntoArray;
use fl_array::for_::FoR;
use fl_codec::for_::{self, EncodedFoR, GlobalFoR};
use fl_column::PrimitiveArray;
use fl_types::*;
use row_reader::asked::Asked;
use row_reader::columns::{Made, type_of};
use row_reader::names::named;
use row_reader::parts::{back, part};
use row_reader::shown;
use row_reader::text::Text;
use std::alloc::Global;

/// The column of a child and one reference of its type.
fn with_reference(alloc: Global, child: &PrimitiveArray, reference: Scalar) -> Made {
    let child = child.try_clone(alloc)?.into_array();
    FoR::try_new(alloc, child, reference)?
        .into_array()
        .to_primitive(alloc)
}

/// The column of a child and references of its type, one for each chunk.
fn with_references(
    alloc: Global,
    child: &PrimitiveArray,
    references: &PrimitiveArray,
    offset: usize,
) -> Made {
    let Ok(offset) = u16::try_from(offset) else {
        return Err(FastLanesError::OffsetTooLarge);
    };
    let child = child.try_clone(alloc)?.into_array();
    let references = references.try_clone(alloc)?.into_array();
    FoR::try_new_chunked(alloc, child, references, offset)?
        .into_array()
        .to_primitive(alloc)
}

/// Adds the reference and the child of a FoR, and whether they make a column.
fn show_global(alloc: Global, encode_for: &GlobalFoR, array: &PrimitiveArray, answer: &mut Text) {
    shown::scalar(answer, encode_for.reference);
    part(answer, &encode_for.child);
    answer.word("|");
    let made = with_reference(alloc, &encode_for.child, encode_for.reference);
    back(answer, made, array);
}

/// Adds the references and the child of a FoR, and whether they make a column.
fn show(alloc: Global, encode_for: &EncodedFoR, array: &PrimitiveArray, answer: &mut Text) {
    match encode_for {
        EncodedFoR::Global(encode_for) => {
            answer.word("one");
            show_global(alloc, encode_for, array, answer);
        }
        EncodedFoR::Chunked(child, references) => {
            answer.word("each");
            shown::column(answer, references);
            part(answer, child);
            answer.word("|");
            back(answer, with_references(alloc, child, references, 0), array);
        }
        EncodedFoR::Nulls(child, reference) => {
            answer.word("nulls");
            shown::scalar(answer, *reference);
            answer.word("|");
            back(answer, child.decode(alloc), array);
        }
    }
}

/// Encodes a column by its least item.
fn encode_for(alloc: Global, array: &PrimitiveArray, answer: &mut Text) {
    match for_::encode(alloc, array) {
        Ok(encode_for) => show_global(alloc, &encode_for, array, answer),
        Err(refusal) => answer.refusal(refusal),
    }
}

/// Encodes a column by the least item of each chunk.
fn for_chunks(alloc: Global, array: &PrimitiveArray, answer: &mut Text) {
    match for_::encode_chunked(alloc, array) {
        Ok(encode_for) => show(alloc, &encode_for, array, answer),
        Err(refusal) => answer.refusal(refusal),
    }
}

/// An array, read in a type of the same width.
fn reread(alloc: Global, array: PrimitiveArray, ptype: PType) -> Made {
    if array.ptype().bit_width() != ptype.bit_width() {
        return Err(FastLanesError::TypeMismatch);
    }
    array.reinterpret_cast(alloc, ptype)
}

/// Adds the type and the stored integers of an array.
fn show_slots(answer: &mut Text, made: Made) {
    match made {
        Ok(array) => {
            shown::dtype(answer, array.dtype());
            shown::slots(answer, &array);
        }
        Err(refusal) => answer.refusal(refusal),
    }
}

/// The stored integers of the child, in a type of the same width.
fn child_slots(alloc: Global, array: &PrimitiveArray, ptype: PType, answer: &mut Text) {
    match for_::encode(alloc, array) {
        Ok(encode_for) => show_slots(answer, reread(alloc, encode_for.child, ptype)),
        Err(refusal) => answer.refusal(refusal),
    }
}

/// Adds to a child the first of the references.
fn add(alloc: Global, references: &PrimitiveArray, child: &PrimitiveArray, answer: &mut Text) {
    if references.len() > 0 {
        if let Some(reference) = references.get(0) {
            let reference = Scalar::primitive(reference, Nullability::NonNullable);
            shown::made(answer, with_reference(alloc, child, reference));
        }
    }
}

#[derive(Clone, Copy)]
enum Question {
    Encode,
    EncodeChunked,
    Slots,
    Add,
    AddChunked,
}

const QUESTIONS: &[(&str, Question)] = &[
    ("for", Question::Encode),
    ("for_chunked", Question::EncodeChunked),
    ("for_slots", Question::Slots),
    ("add", Question::Add),
    ("add_chunked", Question::AddChunked),
];

pub fn ask(asked: Asked, answer: &mut Text) -> bool {
    let Some(question) = named(QUESTIONS, asked.word(0)) else {
        return false;
    };
    let (alloc, array, child) = (asked.alloc, asked.column(0), asked.column(1));
    match question {
        Question::Encode => encode_for(alloc, array, answer),
        Question::EncodeChunked => for_chunks(alloc, array, answer),
        Question::Slots => child_slots(alloc, array, type_of(asked.word(1)), answer),
        Question::Add => add(alloc, array, child, answer),
        Question::AddChunked => {
            let made = with_references(alloc, child, array, asked.count(1));
            shown::made(answer, made);
        }
    }
    true
}
