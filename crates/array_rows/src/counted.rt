//! Calls that count what they read of packed bytes.

use crate::questions::column_read;
use fastlanes::Work;
use fl_array::{ArrayRef, IntoArray};
use fl_column::BoolArray;
use fl_ops::ArrayOps;
use fl_types::FastLanesError;
use row_reader::arrays::queries::{constant, operator, options};
use row_reader::asked::Asked;
use row_reader::shown;
use row_reader::text::Text;

/// Adds how many blocks were unpacked, and how many words were read outside of them: `blocks 1 words 0`.
fn work_done(work: &Work, answer: &mut Text) {
    answer.word("blocks");
    answer.item(Some(i128::from(work.blocks())));
    answer.word("words");
    answer.item(Some(i128::from(work.words())));
}

/// Adds answers, and what was read for them.
fn bools_counted(answer: &mut Text, given: &Result<(BoolArray, Work), FastLanesError>) {
    match given {
        Ok(given) => {
            shown::bools(answer, &given.0);
            work_done(&given.1, answer);
        }
        Err(refusal) => answer.refusal(*refusal),
    }
}

/// Adds the items of an array, and what was read for them.
fn array_counted(answer: &mut Text, given: &Result<(ArrayRef, Work), FastLanesError>) {
    match given {
        Ok(given) => {
            column_read(&given.0, answer);
            work_done(&given.1, answer);
        }
        Err(refusal) => answer.refusal(*refusal),
    }
}

/// Compares with a constant: `compare_counted lt 7`.
pub(crate) fn compare(asked: Asked, array: &ArrayRef, answer: &mut Text) {
    let (operator, constant) = (operator(asked.word(1)), constant(array, asked.word(2)));
    let given = array.compare_counted(asked.alloc, operator, &constant);
    bools_counted(answer, &given);
}

/// Tests a range: `between_counted gte 3 lt 7`.
pub(crate) fn between(asked: Asked, array: &ArrayRef, answer: &mut Text) {
    let (lower, upper) = (
        constant(array, asked.word(2)),
        constant(array, asked.word(4)),
    );
    let options = options(asked.word(1), asked.word(3));
    let given = array.between_counted(asked.alloc, &lower, &upper, &options);
    bools_counted(answer, &given);
}

/// Takes the items that the row's last column names.
pub(crate) fn take(asked: Asked, array: &ArrayRef, answer: &mut Text) {
    match asked.last_column().try_clone(asked.alloc) {
        Ok(indices) => {
            let given = array.take_counted(asked.alloc, &indices.into_array());
            array_counted(answer, &given);
        }
        Err(refusal) => answer.refusal(refusal),
    }
}

/// Adds what a point read counts: how many blocks, and whether the words are at most two.
fn point_read(work: &Work, answer: &mut Text) {
    answer.count(usize::try_from(work.blocks()).unwrap_or(usize::MAX));
    answer.word("blocks");
    answer.word(if work.words() <= 2 {
        "at most 2 words"
    } else {
        "more words"
    });
}

/// Adds an item, and of a bit-packed array what was read for it.
pub(crate) fn item(asked: Asked, array: &ArrayRef, answer: &mut Text) {
    let i = asked.count(1);
    if i < array.len() {
        match array.scalar_at_counted(asked.alloc, i) {
            Ok((item, work)) => {
                shown::scalar(answer, item);
                if array.as_bitpacked().is_some() {
                    point_read(&work, answer);
                }
            }
            Err(refusal) => answer.refusal(refusal),
        }
    }
}
