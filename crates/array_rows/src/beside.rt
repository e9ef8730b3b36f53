//! Questions of an array that are answered beside a plain column.

use crate::questions::back;
use fl_array::{ArrayRef, IntoArray};
use fl_column::{BoolArray, PrimitiveArray};
use fl_ops::ArrayOps;
use fl_types::{BetweenOptions, DType, FastLanesError};
use row_reader::arrays::queries::{constant, options};
use row_reader::asked::Asked;
use row_reader::columns::dtype_of;
use row_reader::text::Text;
use std::alloc::Global;

/// Adds `back` where an array that is cast to a type has the items of a column that is cast to it, else what it
/// decodes to.
fn cast_back(
    alloc: Global,
    array: &ArrayRef,
    dtype: DType,
    column: &PrimitiveArray,
    answer: &mut Text,
) {
    match array.cast(alloc, dtype) {
        Ok(cast) => match column.cast(alloc, dtype) {
            Ok(column) => back(alloc, &cast, &column, answer),
            Err(refusal) => answer.refusal(refusal),
        },
        Err(refusal) => answer.refusal(refusal),
    }
}

/// Adds each of the types, and whether the array and the row's last column are the same when they are cast to it.
pub(crate) fn casts(asked: Asked, array: &ArrayRef, answer: &mut Text) {
    for name in asked.words_from(1) {
        answer.word(name);
        let dtype = dtype_of(name);
        cast_back(asked.alloc, array, dtype, asked.last_column(), answer);
    }
}

/// Which items lie within bounds.
fn within(
    alloc: Global,
    array: &ArrayRef,
    bounds: (&str, &str),
    options: BetweenOptions,
) -> Result<BoolArray, FastLanesError> {
    let (lower, upper) = (constant(array, bounds.0), constant(array, bounds.1));
    array.between(alloc, &lower, &upper, &options)
}

/// How many blocks are unpacked to tell which items lie within bounds.
fn blocks_read(
    alloc: Global,
    array: &ArrayRef,
    bounds: (&str, &str),
    options: BetweenOptions,
) -> Result<u64, FastLanesError> {
    let (lower, upper) = (constant(array, bounds.0), constant(array, bounds.1));
    let (_, work) = array.between_counted(alloc, &lower, &upper, &options)?;
    Ok(work.blocks())
}

/// How many answers are true, where two have the same type and the same answers.
fn count_same(left: &BoolArray, right: &BoolArray) -> Option<usize> {
    let len = left.len();
    if right.len() != len || right.dtype() != left.dtype() {
        return None;
    }
    let mut ones = 0usize;
    for i in 0..len {
        let bool_answer = left.get(i);
        if right.get(i) != bool_answer {
            return None;
        }
        if bool_answer == Some(true) {
            ones = ones.saturating_add(1);
        }
    }
    Some(ones)
}

/// Adds how many items lie within bounds, or `other` where a plain array answers something else.
fn count_within(
    alloc: Global,
    array: &ArrayRef,
    plain: &ArrayRef,
    bounds: (&str, &str),
    options: BetweenOptions,
    answer: &mut Text,
) -> Result<(), FastLanesError> {
    let answers = within(alloc, array, bounds, options)?;
    let wanted = within(alloc, plain, bounds, options)?;
    match count_same(&answers, &wanted) {
        Some(ones) => answer.item(Some(ones as i128)),
        None => answer.word("other"),
    }
    Ok(())
}

/// How each of two bounds may be meant.
const MEANT: &[(&str, &str)] = &[("gt", "lt"), ("gt", "lte"), ("gte", "lt"), ("gte", "lte")];

/// Adds what the range tests between two bounds, each way that these may be meant, give: how many items, or how many
/// blocks are unpacked where there is no plain array.
fn test_bounds(
    alloc: Global,
    array: &ArrayRef,
    plain: Option<&ArrayRef>,
    bounds: (&str, &str),
    answer: &mut Text,
) -> Result<(), FastLanesError> {
    for (from, to) in MEANT {
        let options = options(from, to);
        match plain {
            Some(plain) => count_within(alloc, array, plain, bounds, options, answer)?,
            None => answer.item(Some(blocks_read(alloc, array, bounds, options)? as i128)),
        }
    }
    Ok(())
}

/// Adds the same of each two of the bounds.
fn test_all(
    alloc: Global,
    array: &ArrayRef,
    plain: Option<&ArrayRef>,
    bounds: &[&str],
    answer: &mut Text,
) {
    for lower in bounds {
        for upper in bounds {
            if let Err(refusal) = test_bounds(alloc, array, plain, (lower, upper), answer) {
                answer.refusal(refusal);
            }
        }
    }
}

/// Adds how many items lie within each two of the bounds, beside those of the row's last column.
pub(crate) fn bounds(asked: Asked, array: &ArrayRef, answer: &mut Text) {
    let (alloc, bounds) = (asked.alloc, asked.words_from(1));
    match asked.last_column().try_clone(alloc) {
        Ok(plain) => test_all(alloc, array, Some(&plain.into_array()), bounds, answer),
        Err(refusal) => answer.refusal(refusal),
    }
}

/// Adds how many blocks are unpacked for each two of the bounds.
pub(crate) fn bounds_read(asked: Asked, array: &ArrayRef, answer: &mut Text) {
    test_all(asked.alloc, array, None, asked.words_from(1), answer);
}
