//! Laws of operations and queries.

ghost use Rattle.std.specs.Prelude.{◌≡◌, ◌≤◌, ℤ, Bool, List, IfOk, IsTrue, Ok, length, map};
ghost use Rattle.fl_types.specs.declared.query.CompareOperator.TheVariants.{Eq};
ghost use Rattle.fl_types.specs.Refusals.{Answers};
ghost use Rattle.fl_types.specs.Values.{scalar_parts};
ghost use Rattle.fl_column.specs.Columns.{Column, column_of_bools, ptype_of_column};
ghost use Rattle.fl_column.specs.Operations.{cast_column, item_named, moved, slice_of, take_column};
ghost use Rattle.fl_column.specs.Queries.{is_sorted_column};
ghost use Rattle.fl_codec.specs.FoRColumns.{global_for};
ghost use Rattle.fl_array.specs.Kinds.{kind};
ghost use Rattle.fl_array.specs.Trees.{Tree, column};
ghost use Rattle.fl_ops.specs.Normalized.{SameShown};
ghost use Rattle.fl_ops.specs.Operations.{Step, and_then, step_column, step_of};
ghost use Rattle.fl_ops.specs.Queries.{compare_scalar, is_comparable, negated};
ghost use Rattle.fl_ops.specs.Results.{IsResult, result_of};
ghost use Rattle.fl_ops.specs.Sums.{sums_fit};

use crate::array_ops::ArrayOps;
use crate::operations::{Op, apply};
use fl_array::ArrayRef;
use fl_column::{BoolArray, CompareOperator, DType, FastLanesError, Scalar};
use std::alloc::Global;
use std::ops::Range;

/// Arrays that are equal up to what is stored under nulls have one column and one kind.
#[tactic(auto, using(crate::proofs::NormalizedLaws::same_columns, crate::proofs::NormalizedLaws::same_kinds))]
pub fn same_shown()
    ensures column { (a b : Tree) → SameShown a b → column a ≡ column b }
    ensures kind { (a b : Tree) → SameShown a b → kind a ≡ kind b }
{}

/// A list of operations determines its result, up to what is stored under nulls.
#[tactic(auto, using(crate::proofs::OneResult::one_result))]
pub fn one_result()
    ensures { (first : Tree) (steps : List Step) (a b : Tree) → IsResult first steps a → IsResult first steps b → SameShown a b }
{}

/// The result of one operation. The array that its contract states has the operation's column and kind.
///
/// # Errors
/// As `apply_all` of the one operation.
#[tactic(auto, using(crate::proofs::NormalizedLaws::made_columns, crate::proofs::NormalizedLaws::made_kinds))]
pub fn stated_result(array: &ArrayRef, alloc: Global, op: &Op) -> Result<ArrayRef, FastLanesError>
    ensures column { Answers column result (step_column (column array.now) (step_of op.now)) }
    ensures stated { IfOk result (λ a. column (result_of (step_of op.now) array.now) ≡ column a) }
    ensures kind { IfOk result (λ a. kind (result_of (step_of op.now) array.now) ≡ kind a) }
{
    apply(alloc, array, op)
}

/// The cast of an array, and the cast of that, whose column is that of the second cast of the array itself.
///
/// # Errors
/// As the first cast, then as the second.
pub fn cast_of_cast(
    array: &ArrayRef,
    alloc: Global,
    first: DType,
    second: DType,
) -> Result<(ArrayRef, ArrayRef), FastLanesError>
    ensures first { IfOk result (λ casts. cast_column first (column array.now) ≡ Ok (column casts.0)) }
    ensures second { Answers (λ casts. column casts.1) result (and_then (cast_column first (column array.now)) (λ once. cast_column second (column array.now))) }
{
    fl_column::laws::cast_of_cast(first, second);
    let once = array.cast(alloc, first)?;
    let twice = once.cast(alloc, second)?;
    Ok((once, twice))
}

/// Whether each item equals a constant, and whether each does not: one is the negation of the other for each
/// valid item.
///
/// # Errors
/// `NotInteger`.
pub fn differing_is_not_equal(
    array: &ArrayRef,
    alloc: Global,
    constant: &Scalar,
) -> Result<(BoolArray, BoolArray), FastLanesError>
    requires { IsTrue (is_comparable (column array.now) (scalar_parts constant.now)) }
    ensures equal { Answers (λ answers. column_of_bools answers.0) result (compare_scalar Eq (scalar_parts constant.now) (column array.now)) }
    ensures differing { IfOk result (λ answers. column_of_bools answers.1 ≡ negated (column_of_bools answers.0)) }
{
    let equal = array.compare(alloc, CompareOperator::Eq, constant)?;
    let differing = array.compare(alloc, CompareOperator::NotEq, constant)?;
    Ok((equal, differing))
}

/// Adding a reference keeps the order of a column's items, if no sum passes the end of the type.
#[tactic(auto, using(crate::proofs::SortedLaws::sums_rise))]
pub fn sums_rise()
    ensures { (strict : Bool) (reference : ℤ) (c : Column) → IsTrue (sums_fit (ptype_of_column c) reference c.items) → is_sorted_column strict (global_for reference c) ≡ is_sorted_column strict c }
{}

/// A slice of an array, and a take from it, which is the take from the array with the slice's start added to
/// the indices.
///
/// # Errors
/// As the take.
#[tactic(auto, using(crate::proofs::NegatedLaws::taken_of_slice))]
pub fn take_of_slice(
    array: &ArrayRef,
    alloc: Global,
    range: Range<usize>,
    indices: &ArrayRef,
) -> Result<(ArrayRef, ArrayRef), FastLanesError>
    requires order { range.start ≤ range.end }
    requires range { range.end ≤ length (column array.now).items }
    ensures part { IfOk result (λ arrays. column arrays.0 ≡ slice_of range.start range.end (column array.now)) }
    ensures taken { Answers (λ arrays. column arrays.1) result (take_column (column indices.now) (slice_of range.start range.end (column array.now))) }
    ensures items { IfOk result (λ arrays. (column arrays.1).items ≡ map (λ index. item_named (column array.now).items (moved range.start index)) (column indices.now).items) }
{
    let (start, end) = (range.start, range.end);
    fl_column::laws::take_of_slice(start, end);
    let part = array.slice(alloc, start..end)?;
    let taken = part.take(alloc, indices)?;
    Ok((part, taken))
}
