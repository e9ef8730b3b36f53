//! Plain columns: how they are made and stored, and which positions they name.

use crate::asked::Asked;
use crate::column_rows::types;
use crate::columns::{Made, type_of};
use crate::names::named;
use crate::shown::made;
use crate::text::Text;
use fl_column::PrimitiveArray;
use fl_types::*;
use std::alloc::Global;

/// A column's items as options of this type.
pub fn typed_items<T: NativePType>(
    alloc: Global,
    array: &PrimitiveArray,
) -> Result<Vec<Option<T>>, FastLanesError> {
    let mut items = Vec::new(alloc);
    for i in 0..array.len() {
        items.push(types::typed_item::<T>(array.get(i)))?;
    }
    Ok(items)
}

fn typed_options<T: NativePType>(alloc: Global, array: &PrimitiveArray) -> Made {
    match typed_items::<T>(alloc, array) {
        Ok(items) => PrimitiveArray::from_options(alloc, &items),
        Err(refusal) => Err(refusal),
    }
}

/// The column that is made of a column's items as options.
fn of_options(alloc: Global, array: &PrimitiveArray) -> Made {
    match_each_integer_ptype!(array.ptype(), typed_options(alloc, array))
}

/// A column's bits, read as another type of the same width.
fn reread(alloc: Global, array: &PrimitiveArray, ptype: PType) -> Made {
    let copy = array.try_clone(alloc)?;
    if copy.ptype().bit_width() != ptype.bit_width() {
        return Err(FastLanesError::TypeMismatch);
    }
    copy.reinterpret_cast(alloc, ptype)
}

#[derive(Clone, Copy)]
enum Question {
    Options,
    Reread,
    Positions,
}

const QUESTIONS: &[(&str, Question)] = &[
    ("options", Question::Options),
    ("reread", Question::Reread),
    ("positions", Question::Positions),
];

pub fn ask(asked: Asked, answer: &mut Text) -> bool {
    let Some(question) = named(QUESTIONS, asked.word(0)) else {
        return false;
    };
    let (alloc, array) = (asked.alloc, asked.column(0));
    match question {
        Question::Options => made(answer, of_options(alloc, array)),
        Question::Reread => made(answer, reread(alloc, array, type_of(asked.word(1)))),
        Question::Positions => made(answer, array.positions(alloc, asked.count(1))),
    }
    true
}
