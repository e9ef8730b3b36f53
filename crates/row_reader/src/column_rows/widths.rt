//! Histograms of bits, the widths of least cost, and the exceptions above a width.

ghost use Rattle.std.specs.Prelude.{◌≡◌, IfSome};
ghost use Rattle.fl_patches.specs.Costs.{count_above};

use crate::asked::Asked;
use crate::columns::{type_of, width_of};
use crate::names::named;
use crate::shown::made;
use crate::text::Text;
use fl_column::PrimitiveArray;
use fl_patches::{
    bit_width_histogram, count_exceptions, find_best_bit_width, find_best_bit_widths,
};
use fl_types::*;
use std::alloc::Global;

/// The numbers of a column, as entries of a histogram.
pub fn entries(alloc: Global, numbers: &PrimitiveArray) -> Result<Vec<usize>, FastLanesError> {
    if numbers.ptype() != PType::U64 {
        return Err(FastLanesError::TypeMismatch);
    }
    let numbers = numbers.as_slice::<u64>();
    let mut entries = Vec::new(alloc);
    for i in 0..numbers.len() {
        entries.push(numbers[i] as usize)?;
    }
    Ok(entries)
}

/// The sum of the entries above a width, if it is a `usize`.
pub fn sum_above(width: u8, histogram: &[usize]) -> Option<usize>
    ensures { IfSome result (λ total. total ≡ count_above width histogram.now) }
{
    let mut total = 0usize;
    for i in width as usize + 1..histogram.len() {
        total = total.checked_add(histogram[i])?;
    }
    Some(total)
}

fn exceptions(width: u8, histogram: &[usize], answer: &mut Text) {
    if sum_above(width, histogram).is_some() {
        answer.count(count_exceptions(width, histogram));
    }
}

/// Answers with the exceptions above a width, of a histogram whose entries are a column.
fn exceptions_of(asked: Asked, width: u8, answer: &mut Text) {
    match entries(asked.alloc, asked.column(0)) {
        Ok(histogram) => exceptions(width, &histogram, answer),
        Err(refusal) => answer.refusal(refusal),
    }
}

/// The width of least cost, by a histogram whose entries are a column.
fn best_width(asked: Asked, ptype: PType) -> Result<u8, FastLanesError> {
    let histogram = entries(asked.alloc, asked.column(0))?;
    find_best_bit_width(ptype, &histogram)
}

#[derive(Clone, Copy)]
enum Question {
    Histogram,
    BestWidths,
    BestWidth,
    Exceptions,
}

const QUESTIONS: &[(&str, Question)] = &[
    ("histogram", Question::Histogram),
    ("best_widths", Question::BestWidths),
    ("best_width", Question::BestWidth),
    ("exceptions", Question::Exceptions),
];

pub fn ask(asked: Asked, answer: &mut Text) -> bool {
    let Some(question) = named(QUESTIONS, asked.word(0)) else {
        return false;
    };
    let (alloc, array) = (asked.alloc, asked.column(0));
    match question {
        Question::Histogram => made(answer, bit_width_histogram(alloc, array)),
        Question::BestWidths => made(answer, find_best_bit_widths(alloc, array)),
        Question::BestWidth => made(answer, best_width(asked, type_of(asked.word(1)))),
        Question::Exceptions => exceptions_of(asked, width_of(asked.word(1)), answer),
    }
    true
}
