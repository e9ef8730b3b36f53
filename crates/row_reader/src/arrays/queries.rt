//! Constants of an array's type and comparisons with them, of text, and the answers of queries as text.

ghost use Rattle.std.specs.Prelude.{IsTrue};
ghost use Rattle.fl_types.specs.Values.{scalar_parts};
ghost use Rattle.fl_array.specs.Trees.{column};
ghost use Rattle.fl_ops.specs.Queries.{is_comparable};

use crate::column_rows::types;
use crate::names::named;
use crate::shown::Show;
use crate::text::Text;
use fl_array::ArrayRef;
use fl_column::{BetweenOptions, CompareOperator, StrictComparison};
use fl_ops::Answer;
use fl_types::{FastLanesError, Nullability, Scalar};

/// An integer of an array's type, whose mark `?` makes its type nullable.
pub fn constant(array: &ArrayRef, integer: &str) -> Scalar
    ensures { IsTrue (is_comparable (column array.now) (scalar_parts result)) }
{
    let (integer, nullability) = match integer.strip_suffix("?") {
        Some(bare) => (bare, Nullability::Nullable),
        None => (integer, Nullability::NonNullable),
    };
    match array.dtype().ptype() {
        Some(ptype) => Scalar::primitive(types::value_of(ptype, integer), nullability),
        None => Scalar::bool(true, nullability),
    }
}

const OPERATORS: &[(&str, CompareOperator)] = &[
    ("eq", CompareOperator::Eq),
    ("ne", CompareOperator::NotEq),
    ("gt", CompareOperator::Gt),
    ("gte", CompareOperator::Gte),
    ("lt", CompareOperator::Lt),
    ("lte", CompareOperator::Lte),
];

/// A comparison by its name.
pub fn operator(name: &str) -> CompareOperator {
    named(OPERATORS, name).unwrap_or(CompareOperator::Eq)
}

/// How a bound is meant, by the comparison with it: `gt`, `gte`, `lt` or `lte`.
fn strictness(name: &str) -> StrictComparison {
    match operator(name) {
        CompareOperator::Gt | CompareOperator::Lt => StrictComparison::Strict,
        _ => StrictComparison::NonStrict,
    }
}

/// How the two bounds of a range are meant.
pub fn options(lower: &str, upper: &str) -> BetweenOptions {
    BetweenOptions {
        lower_strict: strictness(lower),
        upper_strict: strictness(upper),
    }
}

/// Adds what a query answered.
fn show(answer: &mut Text, answered: &Answer) {
    match answered {
        Answer::Scalar(item) => item.show(answer),
        Answer::Bools(tests) => tests.show(answer),
        Answer::Bool(bool_answer) => answer.bool_answer(*bool_answer),
    }
}

/// Adds what a query answered, or its refusal.
pub fn answered(answer: &mut Text, answered: &Result<Answer, FastLanesError>) {
    match answered {
        Ok(answered) => show(answer, answered),
        Err(refusal) => answer.refusal(*refusal),
    }
}
