//! Questions that a scan of an array answers: counts, extremes, sums, the items that pass a test, positions.

ghost use Rattle.std.specs.Prelude.{◌||◌, IsTrue, not};
ghost use Rattle.fl_types.specs.Types.{has_ptype, is_integer};
ghost use Rattle.fl_types.specs.Values.{ptype_of_value, scalar_parts};
ghost use Rattle.fl_array.specs.Trees.{column};
ghost use Rattle.fl_scan.specs.Constants.{is_comparable};

use fl_array::ArrayRef;
use fl_column::{BetweenOptions, CompareOperator, Mask};
use fl_ops::ArrayOps;
use fl_scan::Sum;
use fl_types::{FastLanesError, PValue, Scalar};
use row_reader::arrays::queries::{constant, operator, options};
use row_reader::asked::Asked;
use row_reader::column_rows::types;
use row_reader::names::named;
use row_reader::shown::{integer, made};
use row_reader::text::Text;

/// Adds the least and the greatest item, or `none`.
fn show_extremes(answer: &mut Text, given: Result<Option<(PValue, PValue)>, FastLanesError>) {
    match given {
        Ok(Some(extremes)) => {
            answer.item(Some(integer(extremes.0)));
            answer.item(Some(integer(extremes.1)));
        }
        Ok(None) => answer.word("none"),
        Err(refusal) => answer.refusal(refusal),
    }
}

/// Adds a sum, behind the mark of its type.
fn show_sum(answer: &mut Text, given: Result<Sum, FastLanesError>) {
    match given {
        Ok(Sum::Signed(sum)) => {
            answer.word("i128");
            answer.printed(&sum);
        }
        Ok(Sum::Unsigned(sum)) => {
            answer.word("u128");
            answer.printed(&sum);
        }
        Err(refusal) => answer.refusal(refusal),
    }
}

/// The comparison that words name: `lt 7`.
fn comparison(asked: Asked, array: &ArrayRef) -> (CompareOperator, Scalar)
    ensures { IsTrue (is_comparable (column array.now) (scalar_parts result.1)) }
{
    (operator(asked.word(1)), constant(array, asked.word(2)))
}

/// The range that words name: `gte 3 lt 7`.
fn range(asked: Asked, array: &ArrayRef) -> (Scalar, Scalar, BetweenOptions)
    ensures lower { IsTrue (is_comparable (column array.now) (scalar_parts result.0)) }
    ensures upper { IsTrue (is_comparable (column array.now) (scalar_parts result.1)) }
{
    let lower = constant(array, asked.word(2));
    let upper = constant(array, asked.word(4));
    (lower, upper, options(asked.word(1), asked.word(3)))
}

/// An integer of the array's type.
fn value(array: &ArrayRef, integer: &str) -> PValue
    ensures { IsTrue (not (is_integer (column array.now).dtype) || has_ptype (ptype_of_value result) (column array.now).dtype) }
{
    match array.dtype().ptype() {
        Some(ptype) => types::value_of(ptype, integer),
        None => PValue::U8(0),
    }
}

/// Whether each item is one of three: `is_in 3 5 7`.
fn is_in(asked: Asked, array: &ArrayRef, answer: &mut Text) {
    let list = [
        value(array, asked.word(1)),
        value(array, asked.word(2)),
        value(array, asked.word(3)),
    ];
    made(answer, fl_scan::is_in(asked.alloc, array, &list));
}

/// The first position whose item is not below a value, of an array that is sorted.
fn lower_bound(asked: Asked, array: &ArrayRef, answer: &mut Text) {
    let value = constant(array, asked.word(1));
    match array.is_sorted(asked.alloc, false) {
        Ok(true) => made(answer, fl_scan::lower_bound(asked.alloc, array, &value)),
        Ok(false) => answer.word("not sorted"),
        Err(refusal) => answer.refusal(refusal),
    }
}

#[derive(Clone, Copy)]
enum Question {
    NullCount,
    Count,
    CountBetween,
    MinMax,
    Sum,
    FilterBy,
    FilterBetween,
    IsIn,
    LowerBound,
    CompareUnder,
    BetweenUnder,
    CountUnder,
    MinMaxUnder,
    SumUnder,
}

const QUESTIONS: &[(&str, Question)] = &[
    ("null_count", Question::NullCount),
    ("count", Question::Count),
    ("count_between", Question::CountBetween),
    ("min_max", Question::MinMax),
    ("sum", Question::Sum),
    ("filter_by", Question::FilterBy),
    ("filter_between", Question::FilterBetween),
    ("is_in", Question::IsIn),
    ("lower_bound", Question::LowerBound),
    ("compare_under", Question::CompareUnder),
    ("between_under", Question::BetweenUnder),
    ("count_under", Question::CountUnder),
    ("min_max_under", Question::MinMaxUnder),
    ("sum_under", Question::SumUnder),
];

/// Answers a question about the items that the row's last column keeps.
fn ask_under(asked: Asked, question: Question, array: &ArrayRef, mask: &Mask, answer: &mut Text) {
    let alloc = asked.alloc;
    match question {
        Question::MinMaxUnder => {
            show_extremes(answer, fl_scan::min_max_under(alloc, array, mask));
        }
        Question::SumUnder => show_sum(answer, fl_scan::sum_under(alloc, array, mask)),
        Question::CompareUnder => {
            let (operator, constant) = comparison(asked, array);
            let given = fl_scan::compare_under(alloc, array, mask, operator, &constant);
            made(answer, given);
        }
        Question::BetweenUnder => {
            let (lower, upper, options) = range(asked, array);
            let given = fl_scan::between_under(alloc, array, mask, &lower, &upper, &options);
            made(answer, given);
        }
        _ => {
            let (operator, constant) = comparison(asked, array);
            let given = fl_scan::count_under(alloc, array, mask, operator, &constant);
            made(answer, given);
        }
    }
}

/// Answers a question about all items by a test.
fn ask_tested(asked: Asked, question: Question, array: &ArrayRef, answer: &mut Text) {
    let alloc = asked.alloc;
    match question {
        Question::Count => {
            let (operator, constant) = comparison(asked, array);
            made(answer, fl_scan::count(alloc, array, operator, &constant));
        }
        Question::CountBetween => {
            let (lower, upper, options) = range(asked, array);
            let given = fl_scan::count_between(alloc, array, &lower, &upper, &options);
            made(answer, given);
        }
        Question::FilterBy => {
            let (operator, constant) = comparison(asked, array);
            made(
                answer,
                fl_scan::filter_by(alloc, array, operator, &constant),
            );
        }
        _ => {
            let (lower, upper, options) = range(asked, array);
            let given = fl_scan::filter_between(alloc, array, &lower, &upper, &options);
            made(answer, given);
        }
    }
}

/// Answers a question that a scan answers, if it is one.
pub(crate) fn answer(asked: Asked, array: &ArrayRef, answer: &mut Text) -> bool {
    let Some(question) = named(QUESTIONS, asked.word(0)) else {
        return false;
    };
    let alloc = asked.alloc;
    match question {
        Question::NullCount => made(answer, fl_scan::null_count(alloc, array)),
        Question::MinMax => show_extremes(answer, fl_scan::min_max(alloc, array)),
        Question::Sum => show_sum(answer, fl_scan::sum(alloc, array)),
        Question::IsIn => is_in(asked, array, answer),
        Question::LowerBound => lower_bound(asked, array, answer),
        Question::CompareUnder
        | Question::BetweenUnder
        | Question::CountUnder
        | Question::MinMaxUnder
        | Question::SumUnder => {
            match types::mask_of(alloc, asked.last_column()) {
                Ok(mask) => ask_under(asked, question, array, &mask, answer),
                Err(refusal) => answer.refusal(refusal),
            }
        }
        _ => ask_tested(asked, question, array, answer),
    }
    true
}
