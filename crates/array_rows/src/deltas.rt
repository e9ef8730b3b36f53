//! Deltas: columns as a base for each lane of a block, and the differences along the lanes.

use fl_array::IntoArray;
use fl_array::delta::{Delta, delta_decompress};
use fl_codec::delta::delta_compress;
use fl_column::PrimitiveArray;
use fl_types::*;
use row_reader::asked::Asked;
use row_reader::columns::Made;
use row_reader::names::named;
use row_reader::parts::{back, part};
use row_reader::shown;
use row_reader::text::Text;
use std::alloc::Global;

/// Bases and deltas.
type Parts = (PrimitiveArray, PrimitiveArray);

/// The column of bases and deltas, or why there is none.
fn summed(alloc: Global, parts: &Parts, validity: &Validity, offset: usize, len: usize) -> Made {
    let bases = parts.0.try_clone(alloc)?.into_array();
    let deltas = parts.1.try_clone(alloc)?.into_array();
    let validity = validity.try_clone(alloc)?;
    let array = Delta::try_new(alloc, bases, deltas, validity, offset, len)?;
    delta_decompress(alloc, &array)
}

/// Adds `back` where bases and deltas make a column.
fn deltas_back(alloc: Global, parts: &Parts, array: &PrimitiveArray, answer: &mut Text) {
    let made = summed(alloc, parts, array.validity(), 0, array.len());
    back(answer, made, array);
}

/// Adds bases and deltas, and whether they make a column.
fn show(alloc: Global, parts: &Parts, array: &PrimitiveArray, answer: &mut Text) {
    shown::column(answer, &parts.0);
    part(answer, &parts.1);
    answer.word("|");
    deltas_back(alloc, parts, array, answer);
}

/// This many items from the offset on, which bases and deltas make without a null.
fn part_of(
    alloc: Global,
    parts: &Parts,
    array: &PrimitiveArray,
    offset: usize,
    len: usize,
) -> Made {
    let validity = Validity::from(array.nullability());
    summed(alloc, parts, &validity, offset, len)
}

#[derive(Clone, Copy)]
enum Question {
    Parts,
    Back,
    Part,
}

const QUESTIONS: &[(&str, Question)] = &[
    ("delta", Question::Parts),
    ("delta_back", Question::Back),
    ("delta_part", Question::Part),
];

/// Answers a question about the bases and deltas of a column.
fn ask_parts(asked: Asked, question: Question, parts: &Parts, answer: &mut Text) {
    let (alloc, array) = (asked.alloc, asked.column(0));
    match question {
        Question::Parts => show(alloc, parts, array, answer),
        Question::Back => deltas_back(alloc, parts, array, answer),
        Question::Part => {
            let made = part_of(alloc, parts, array, asked.count(1), asked.count(2));
            shown::made(answer, made);
        }
    }
}

pub fn ask(asked: Asked, answer: &mut Text) -> bool {
    let Some(question) = named(QUESTIONS, asked.word(0)) else {
        return false;
    };
    match delta_compress(asked.alloc, asked.column(0)) {
        Ok(parts) => ask_parts(asked, question, &parts, answer),
        Err(refusal) => answer.refusal(refusal),
    }
    true
}
