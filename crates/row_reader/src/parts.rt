//! The parts that a column is kept in, and whether it comes back from them.

use crate::columns::Made;
use crate::shown;
use crate::text::Text;
use fl_column::PrimitiveArray;

/// Adds a part behind another.
pub fn part(answer: &mut Text, column: &PrimitiveArray) {
    answer.word("|");
    shown::column(answer, column);
}

/// Whether the columns have one type and the same items.
pub fn is_same(left: &PrimitiveArray, right: &PrimitiveArray) -> bool {
    let len = left.len();
    if right.len() != len || right.dtype() != left.dtype() {
        return false;
    }
    for i in 0..len {
        if left.get(i) != right.get(i) {
            return false;
        }
    }
    true
}

/// Adds `back` where what was made is this column, else what was made.
pub fn back(answer: &mut Text, made: Made, column: &PrimitiveArray) {
    match made {
        Ok(array) => {
            if is_same(&array, column) {
                answer.word("back");
            } else {
                shown::column(answer, &array);
            }
        }
        Err(refusal) => answer.refusal(refusal),
    }
}
