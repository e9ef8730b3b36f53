//! Runs: columns as the items of each chunk that differ from the one before, and for each position
//! the number of its run.

use fl_array::IntoArray;
use fl_array::rle::{RLE, rle_decompress};
use fl_codec::rle::{self, Runs};
use fl_column::PrimitiveArray;
use row_reader::asked::Asked;
use row_reader::columns::Made;
use row_reader::names::named;
use row_reader::parts::{back, part};
use row_reader::shown;
use row_reader::text::Text;
use std::alloc::Global;

/// The column of run values, indices and run offsets, or why there is none.
fn unrolled(
    alloc: Global,
    values: &PrimitiveArray,
    indices: &PrimitiveArray,
    offsets: &PrimitiveArray,
    offset: usize,
    len: usize,
) -> Made {
    let values = values.try_clone(alloc)?.into_array();
    let indices = indices.try_clone(alloc)?.into_array();
    let offsets = offsets.try_clone(alloc)?.into_array();
    let array = RLE::try_new(alloc, values, indices, offsets, offset, len)?;
    rle_decompress(alloc, &array)
}

/// This many items from the offset on, which the runs of a column show.
fn part_of(alloc: Global, runs: &Runs, offset: usize, len: usize) -> Made {
    let (values, indices, offsets) = (&runs.values, &runs.indices, &runs.offsets);
    unrolled(alloc, values, indices, offsets, offset, len)
}

/// Adds run values, indices and run offsets, and whether they make a column.
fn show(alloc: Global, runs: &Runs, array: &PrimitiveArray, answer: &mut Text) {
    shown::column(answer, &runs.values);
    part(answer, &runs.indices);
    part(answer, &runs.offsets);
    answer.word("|");
    back(answer, part_of(alloc, runs, 0, array.len()), array);
}

/// Adds the column that was made, or whether it is the one that was wanted.
fn compare(answer: &mut Text, made: Made, wanted: &[PrimitiveArray]) {
    match wanted {
        [column] => back(answer, made, column),
        _ => shown::made(answer, made),
    }
}

/// Unrolls run values, indices and run offsets, which a wanted column may follow.
fn unroll(asked: Asked, answer: &mut Text) {
    let (offset, len) = (asked.count(1), asked.count(2));
    let (values, indices) = (asked.column(0), asked.column(1));
    let made = unrolled(asked.alloc, values, indices, asked.column(2), offset, len);
    compare(answer, made, asked.columns_from(3));
}

#[derive(Clone, Copy)]
enum Question {
    Parts,
    Slots,
    Part,
    Unroll,
}

const QUESTIONS: &[(&str, Question)] = &[
    ("rle", Question::Parts),
    ("rle_slots", Question::Slots),
    ("rle_part", Question::Part),
    ("unroll", Question::Unroll),
];

/// Answers a question about the runs of a column.
fn ask_runs(asked: Asked, question: Question, runs: &Runs, answer: &mut Text) {
    match question {
        Question::Slots => shown::slots(answer, &runs.indices),
        Question::Part => {
            let made = part_of(asked.alloc, runs, asked.count(1), asked.count(2));
            shown::made(answer, made);
        }
        _ => show(asked.alloc, runs, asked.column(0), answer),
    }
}

/// Answers a question about the runs of the first column.
fn ask_column(asked: Asked, question: Question, answer: &mut Text) {
    match rle::encode(asked.alloc, asked.column(0)) {
        Ok(runs) => ask_runs(asked, question, &runs, answer),
        Err(refusal) => answer.refusal(refusal),
    }
}

pub fn ask(asked: Asked, answer: &mut Text) -> bool {
    let Some(question) = named(QUESTIONS, asked.word(0)) else {
        return false;
    };
    match question {
        Question::Unroll => unroll(asked, answer),
        _ => ask_column(asked, question, answer),
    }
    true
}
