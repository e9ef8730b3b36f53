//! Queries of arrays.

ghost use Rattle.std.specs.Prelude.{◌≡◌, IfErr, IsTrue};
ghost use Rattle.fl_types.specs.declared.error.FastLanesError.TheVariants.{OutOfMemory};
ghost use Rattle.fl_types.specs.Refusals.{Answers};
ghost use Rattle.fl_types.specs.Values.{scalar_parts};
ghost use Rattle.fl_column.specs.Queries.{scalar_of_column};
ghost use Rattle.fl_array.specs.Kinds.{has_delta, kind};
ghost use Rattle.fl_array.specs.Trees.{column};
ghost use Rattle.fl_ops.specs.Queries.{ask_column, may_ask, may_need_memory, reply_of};

use crate::array_ops::ArrayOps;
use fl_array::ArrayRef;
use fl_column::{BetweenOptions, BoolArray, CompareOperator, FastLanesError, Scalar};
use std::alloc::Global;

/// A query of an array.
#[derive(Drop)]
pub enum Query {
    /// The item at an index.
    ScalarAt(usize),
    /// How each item compares with a constant.
    Compare(CompareOperator, Scalar),
    /// Whether each item is between a lower and an upper bound.
    Between(Scalar, Scalar, BetweenOptions),
    /// Whether all items are equal.
    IsConstant,
    /// Whether no item is greater than the next or, if set, each item is less than the next.
    IsSorted(bool),
}

/// The answer to a query.
#[derive(Drop)]
pub enum Answer {
    /// An item.
    Scalar(Scalar),
    /// A bool or a null for each item.
    Bools(BoolArray),
    /// One bool.
    Bool(bool),
}

/// The item at an index, if there is one.
fn scalar_within(alloc: Global, array: &ArrayRef, i: usize) -> Result<Scalar, FastLanesError>
    ensures item { Answers scalar_parts result (scalar_of_column i (column array.now)) }
    ensures memory { IfErr result (λ e. e ≡ OutOfMemory → IsTrue (has_delta (kind array.now))) }
{
    if i < array.len() {
        array.scalar_at(alloc, i)
    } else {
        Err(FastLanesError::IndexOutOfBounds)
    }
}

/// The answer of an array to a query. The constants that it compares with have the array's type and are not
/// null.
///
/// # Errors
/// `IndexOutOfBounds` for the item at an index that is not below the length; `NotInteger` for every
/// other query of a Bool array; else only `OutOfMemory`. A point read allocates nothing unless the array
/// is or holds a Delta array.
#[tactic(auto, using(crate::proofs::Truths::first_true, crate::proofs::Truths::second_true))]
pub fn ask(alloc: Global, array: &ArrayRef, query: &Query) -> Result<Answer, FastLanesError>
    requires { IsTrue (may_ask (column array.now) query.now) }
    ensures reply { Answers reply_of result (ask_column (column array.now) query.now) }
    ensures memory { IfErr result (λ e. e ≡ OutOfMemory → IsTrue (may_need_memory (kind array.now) query.now)) }
{
    match query {
        Query::ScalarAt(i) => Ok(Answer::Scalar(scalar_within(alloc, array, *i)?)),
        Query::Compare(operator, constant) => {
            Ok(Answer::Bools(array.compare(alloc, *operator, constant)?))
        }
        Query::Between(lower, upper, options) => {
            Ok(Answer::Bools(array.between(alloc, lower, upper, options)?))
        }
        Query::IsConstant => Ok(Answer::Bool(array.is_constant(alloc)?)),
        Query::IsSorted(strict) => Ok(Answer::Bool(array.is_sorted(alloc, *strict)?)),
    }
}
