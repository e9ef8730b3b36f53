//! Queries of arrays, which are asked by a call and as a query.

ghost use Rattle.std.specs.Prelude.{IsTrue};
ghost use Rattle.fl_array.specs.Trees.{column};
ghost use Rattle.fl_ops.specs.Queries.{may_ask};

use crate::{beside, counted};
use fl_array::ArrayRef;
use fl_ops::{ArrayOps, Query, ask};
use fl_types::FastLanesError;
use row_reader::arrays::queries::{answered, constant, operator, options};
use row_reader::asked::Asked;
use row_reader::names::named;
use row_reader::shown::{Show, made};
use row_reader::text::Text;
use std::alloc::Global;

/// Adds what a call gave, and what a query answers where that is something else.
fn with_query<T: Show + Drop>(
    array: &ArrayRef,
    called: Result<T, FastLanesError>,
    query: &Query,
    answer: &mut Text,
)
    requires { IsTrue (may_ask (column array.now) query.now) }
{
    made(answer, called);
    let mut again = Text::new(answer.alloc());
    answered(&mut again, &ask(answer.alloc(), array, query));
    answer.unless_same(&mut again);
}

/// Compares with a constant: `compare lt 7`.
fn compare(asked: Asked, array: &ArrayRef, answer: &mut Text) {
    let (operator, constant) = (operator(asked.word(1)), constant(array, asked.word(2)));
    let called = array.compare(asked.alloc, operator, &constant);
    with_query(array, called, &Query::Compare(operator, constant), answer);
}

/// Tests a range by its bounds and by how they are meant: `between gte 3 lt 7`.
fn between(asked: Asked, array: &ArrayRef, answer: &mut Text) {
    let (lower, upper) = (
        constant(array, asked.word(2)),
        constant(array, asked.word(4)),
    );
    let options = options(asked.word(1), asked.word(3));
    let called = array.between(asked.alloc, &lower, &upper, &options);
    with_query(
        array,
        called,
        &Query::Between(lower, upper, options),
        answer,
    );
}

fn sorted(alloc: Global, array: &ArrayRef, strict: bool, answer: &mut Text) {
    let called = array.is_sorted(alloc, strict);
    with_query(array, called, &Query::IsSorted(strict), answer);
}

/// What is asked as a query, beside a plain column, or counted.
#[derive(Clone, Copy)]
enum Question {
    At,
    Constant,
    Sorted,
    Strict,
    Compare,
    Between,
    Counted,
    CompareCounted,
    BetweenCounted,
    TakeCounted,
    Casts,
    Bounds,
    BoundsRead,
}

const QUESTIONS: &[(&str, Question)] = &[
    ("at", Question::At),
    ("constant", Question::Constant),
    ("sorted", Question::Sorted),
    ("strict", Question::Strict),
    ("compare", Question::Compare),
    ("between", Question::Between),
    ("counted", Question::Counted),
    ("compare_counted", Question::CompareCounted),
    ("between_counted", Question::BetweenCounted),
    ("take_counted", Question::TakeCounted),
    ("casts", Question::Casts),
    ("bounds", Question::Bounds),
    ("bounds_read", Question::BoundsRead),
];

/// Answers a query, or a question that is counted or answered beside a plain column.
pub(crate) fn answer(asked: Asked, array: &ArrayRef, answer: &mut Text) -> bool {
    let Some(question) = named(QUESTIONS, asked.word(0)) else {
        return false;
    };
    let alloc = asked.alloc;
    match question {
        Question::At => {
            answered(answer, &ask(alloc, array, &Query::ScalarAt(asked.count(1))));
        }
        Question::Constant => {
            let called = array.is_constant(alloc);
            with_query(array, called, &Query::IsConstant, answer);
        }
        Question::Sorted => sorted(alloc, array, false, answer),
        Question::Strict => sorted(alloc, array, true, answer),
        Question::Compare => compare(asked, array, answer),
        Question::Between => between(asked, array, answer),
        Question::Counted => counted::item(asked, array, answer),
        Question::CompareCounted => counted::compare(asked, array, answer),
        Question::BetweenCounted => counted::between(asked, array, answer),
        Question::TakeCounted => counted::take(asked, array, answer),
        Question::Casts => beside::casts(asked, array, answer),
        Question::Bounds => beside::bounds(asked, array, answer),
        Question::BoundsRead => beside::bounds_read(asked, array, answer),
    }
    true
}
