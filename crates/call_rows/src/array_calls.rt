//! Calls on arrays of every kind.

ghost use Rattle.std.specs.Prelude.{IsTrue};
ghost use Rattle.fl_ops.specs.Queries.{may_ask};
ghost use Rattle.fl_array.specs.Trees.{column};

use crate::inputs::Inputs;
use crate::{came, came_answer, came_array};
use fastlanes::Work;
use fl_array::ArrayRef;
use fl_ops::{ArrayOps, Op, Query, apply_all, ask};
use fl_types::{FastLanesError, Scalar};
use row_reader::arrays::operations;
use row_reader::arrays::queries::{constant, operator, options};
use row_reader::asked::Asked;
use row_reader::names::named;
use row_reader::text::Text;

/// What a call gives beside what it counts.
fn uncounted<T: Drop>(given: Result<(T, Work), FastLanesError>) -> Result<T, FastLanesError> {
    let (value, _) = given?;
    Ok(value)
}

/// Calls the one operation that the words name.
fn op(asked: Asked, inputs: &Inputs, answer: &mut Text) {
    match inputs.ops.first() {
        Some(op) => came_array(answer, operations::call(asked.alloc, &inputs.array, op)),
        None => answer.word("no such call"),
    }
}

/// Calls the take that the words name, which counts what it reads.
fn take_counted(asked: Asked, inputs: &Inputs, answer: &mut Text) {
    match inputs.ops.first() {
        Some(Op::Take(indices)) => {
            let given = inputs.array.take_counted(asked.alloc, indices);
            came_array(answer, uncounted(given));
        }
        _ => answer.word("no such call"),
    }
}

fn item(asked: Asked, array: &ArrayRef, i: usize) -> Result<Scalar, FastLanesError> {
    if i >= array.len() {
        return Err(FastLanesError::IndexOutOfBounds);
    }
    array.scalar_at(asked.alloc, i)
}

fn item_counted(asked: Asked, array: &ArrayRef, i: usize) -> Result<Scalar, FastLanesError> {
    if i >= array.len() {
        return Err(FastLanesError::IndexOutOfBounds);
    }
    uncounted(array.scalar_at_counted(asked.alloc, i))
}

/// Compares with a constant: `compare lt 7`.
fn compare(asked: Asked, array: &ArrayRef, answer: &mut Text) {
    let (operator, constant) = (operator(asked.word(1)), constant(array, asked.word(2)));
    came(answer, array.compare(asked.alloc, operator, &constant));
}

fn compare_counted(asked: Asked, array: &ArrayRef, answer: &mut Text) {
    let (operator, constant) = (operator(asked.word(1)), constant(array, asked.word(2)));
    let given = array.compare_counted(asked.alloc, operator, &constant);
    came(answer, uncounted(given));
}

/// Tests a range: `between gte 3 lt 7`.
fn between(asked: Asked, array: &ArrayRef, answer: &mut Text) {
    let (lower, upper) = (
        constant(array, asked.word(2)),
        constant(array, asked.word(4)),
    );
    let options = options(asked.word(1), asked.word(3));
    came(answer, array.between(asked.alloc, &lower, &upper, &options));
}

fn between_counted(asked: Asked, array: &ArrayRef, answer: &mut Text) {
    let (lower, upper) = (
        constant(array, asked.word(2)),
        constant(array, asked.word(4)),
    );
    let options = options(asked.word(1), asked.word(3));
    let given = array.between_counted(asked.alloc, &lower, &upper, &options);
    came(answer, uncounted(given));
}

#[derive(Clone, Copy)]
enum Asking {
    At,
    Constant,
    Sorted,
    Strict,
    Compare,
    Between,
}

const ASKINGS: &[(&str, Asking)] = &[
    ("at", Asking::At),
    ("constant", Asking::Constant),
    ("sorted", Asking::Sorted),
    ("strict", Asking::Strict),
    ("compare", Asking::Compare),
    ("between", Asking::Between),
];

/// The query that words name: `at 2`, `constant`, `sorted`, `strict`, `compare lt 7` or `between gte 3 lt 7`.
fn query_of(asked: Asked, array: &ArrayRef) -> Query
    ensures { IsTrue (may_ask (column array.now) result) }
{
    match named(ASKINGS, asked.word(1)) {
        Some(Asking::At) => Query::ScalarAt(asked.count(2)),
        Some(Asking::Sorted) => Query::IsSorted(false),
        Some(Asking::Strict) => Query::IsSorted(true),
        Some(Asking::Compare) => {
            Query::Compare(operator(asked.word(2)), constant(array, asked.word(3)))
        }
        Some(Asking::Between) => {
            let (lower, upper) = (
                constant(array, asked.word(3)),
                constant(array, asked.word(5)),
            );
            Query::Between(lower, upper, options(asked.word(2), asked.word(4)))
        }
        Some(Asking::Constant) | None => Query::IsConstant,
    }
}

#[derive(Clone, Copy)]
enum Call {
    Op,
    ListOp,
    CountedOp,
    Decode,
    Plain,
    Copy,
    Validity,
    ToBlocked,
    Item,
    ItemCounted,
    Compare,
    CompareCounted,
    Between,
    BetweenCounted,
    Constant,
    Sorted,
    Strict,
    Query,
}

const CALLS: &[(&str, Call)] = &[
    ("op", Call::Op),
    ("list_op", Call::ListOp),
    ("counted_op", Call::CountedOp),
    ("decode", Call::Decode),
    ("plain", Call::Plain),
    ("copy", Call::Copy),
    ("validity", Call::Validity),
    ("to_blocked", Call::ToBlocked),
    ("item", Call::Item),
    ("item_counted", Call::ItemCounted),
    ("compare", Call::Compare),
    ("compare_counted", Call::CompareCounted),
    ("between", Call::Between),
    ("between_counted", Call::BetweenCounted),
    ("constant", Call::Constant),
    ("sorted", Call::Sorted),
    ("strict", Call::Strict),
    ("query", Call::Query),
];

pub(crate) fn make(asked: Asked, inputs: &Inputs, answer: &mut Text) -> bool {
    let Some(call) = named(CALLS, asked.word(0)) else {
        return false;
    };
    let (alloc, array) = (asked.alloc, &inputs.array);
    match call {
        Call::Op => op(asked, inputs, answer),
        Call::ListOp => came_array(answer, apply_all(alloc, array, &inputs.ops)),
        Call::CountedOp => take_counted(asked, inputs, answer),
        Call::Decode => came_array(answer, array.decode(alloc)),
        Call::Plain => came(answer, array.to_primitive(alloc)),
        Call::Copy => came_array(answer, array.try_clone(alloc)),
        Call::Validity => came(answer, array.validity(alloc)),
        Call::ToBlocked => came_array(answer, array.to_blocked(alloc)),
        Call::Item => came(answer, item(asked, array, asked.count(1))),
        Call::ItemCounted => came(answer, item_counted(asked, array, asked.count(1))),
        Call::Compare => compare(asked, array, answer),
        Call::CompareCounted => compare_counted(asked, array, answer),
        Call::Between => between(asked, array, answer),
        Call::BetweenCounted => between_counted(asked, array, answer),
        Call::Constant => came(answer, array.is_constant(alloc)),
        Call::Sorted => came(answer, array.is_sorted(alloc, false)),
        Call::Strict => came(answer, array.is_sorted(alloc, true)),
        Call::Query => came_answer(answer, ask(alloc, array, &query_of(asked, array))),
    }
    true
}
