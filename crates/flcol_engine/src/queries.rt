//! Queries to columns, and their answers as text.

ghost use Rattle.std.specs.Prelude.{◌≡◌, Err, IfOk, IfSome, IsTrue, None, Ok, Some, if◌then◌else◌, option_map};
ghost use Rattle.fl_types.specs.declared.error.FastLanesError.TheVariants.{IndexOutOfBounds};
ghost use Rattle.fl_types.specs.Integers.{fits};
ghost use Rattle.fl_types.specs.Refusals.{Answers};
ghost use Rattle.fl_types.specs.Values.{integer_of, ptype_of_value, scalar_parts};
ghost use Rattle.fl_column.specs.Columns.{column_of_bools};
ghost use Rattle.fl_column.specs.Queries.{scalar_of_column};
ghost use Rattle.fl_array.specs.Trees.{column};
ghost use Rattle.fl_ops.specs.Queries.{is_comparable, mapped};
ghost use Rattle.flcol_engine.specs.declared.commands.ColumnQuery.TheVariants.{Between, Compare};
ghost use Rattle.flcol_engine.specs.Printing.{column_text, scalar_text};
ghost use Rattle.flcol_engine.specs.Replies.{constant_of_type, reply};

use crate::commands::ColumnQuery;
use crate::printing::{print_bools, print_integers, print_scalar, print_truth};
use fl_array::ArrayRef;
use fl_column::{
    BetweenOptions, CompareOperator, DType, FastLanesError, NativePType, Nullability, PType,
    PValue, Scalar,
};
use fl_ops::ArrayOps;
use fl_types::match_each_integer_ptype;
use std::alloc::Global;

fn typed_value<T: NativePType>(value: i128) -> Option<PValue>
    ensures value { option_map integer_of result ≡ (if fits T.PTYPE value then Some value else None) }
    ensures typed { IfSome result (λ v. ptype_of_value v ≡ T.PTYPE) }
{
    let value = T::from_i128(value)?;
    Some(value.into_pvalue())
}

/// The value of an integer in a type, where the type has it.
fn value_of_type(ptype: PType, value: i128) -> Option<PValue>
    ensures value { option_map integer_of result ≡ (if fits ptype value then Some value else None) }
    ensures typed { IfSome result (λ v. ptype_of_value v ≡ ptype) }
{
    match_each_integer_ptype!(ptype, typed_value(value))
}

/// A constant of a type.
///
/// # Errors
/// `NotInteger` where the type is not of integers, `TypeMismatch` where it doesn't have the constant.
fn constant_of_type(dtype: DType, constant: Option<i128>) -> Result<Scalar, FastLanesError>
    ensures { Answers scalar_parts result (constant_of_type dtype constant) }
{
    let DType::Primitive(ptype, _) = dtype else {
        return Err(FastLanesError::NotInteger);
    };
    let Some(integer) = constant else {
        return Err(FastLanesError::TypeMismatch);
    };
    match value_of_type(ptype, integer) {
        Some(value) => Ok(Scalar::primitive(value, Nullability::NonNullable)),
        None => Err(FastLanesError::TypeMismatch),
    }
}

/// A constant of an array's type, which its items can be compared with.
fn constant_for(array: &ArrayRef, constant: Option<i128>) -> Result<Scalar, FastLanesError>
    ensures constant { Answers scalar_parts result (constant_of_type (column array.now).dtype constant) }
    ensures comparable { IfOk result (λ k. IsTrue (is_comparable (column array.now) (scalar_parts k))) }
{
    constant_of_type(array.dtype(), constant)
}

/// A line for each item.
fn decode(alloc: Global, array: &ArrayRef) -> Result<Vec<u8>, FastLanesError>
    ensures { Answers (λ text. text.items) result (Ok (column_text (column array.now))) }
{
    if let Some(integers) = array.as_primitive() {
        return print_integers(alloc, integers);
    }
    let plain = array.decode(alloc)?;
    if let Some(bools) = plain.as_bool() {
        return print_bools(alloc, bools);
    }
    match plain.as_primitive() {
        Some(integers) => print_integers(alloc, integers),
        None => unreachable!(),
    }
}

/// The line of the item at an index.
///
/// # Errors
/// `IndexOutOfBounds` beyond the length.
fn item_at(alloc: Global, array: &ArrayRef, i: usize) -> Result<Vec<u8>, FastLanesError>
    ensures { Answers (λ text. text.items) result (mapped scalar_text (scalar_of_column i (column array.now))) }
{
    if i < array.len() {
        let scalar = array.scalar_at(alloc, i)?;
        print_scalar(alloc, scalar)
    } else {
        Err(FastLanesError::IndexOutOfBounds)
    }
}

/// A line for each item: how it compares with a constant.
fn compare(
    alloc: Global,
    array: &ArrayRef,
    operator: CompareOperator,
    constant: Option<i128>,
) -> Result<Vec<u8>, FastLanesError>
    ensures { Answers (λ text. text.items) result (reply (Compare operator constant) (column array.now)) }
{
    let constant = constant_for(array, constant)?;
    let bools = array.compare(alloc, operator, &constant)?;
    print_bools(alloc, &bools)
}

/// A line for each item: whether it lies between two bounds.
fn between(
    alloc: Global,
    array: &ArrayRef,
    options: BetweenOptions,
    lower: Option<i128>,
    upper: Option<i128>,
) -> Result<Vec<u8>, FastLanesError>
    ensures { Answers (λ text. text.items) result (reply (Between options lower upper) (column array.now)) }
{
    let lower = constant_for(array, lower)?;
    let upper = constant_for(array, upper)?;
    let bools = array.between(alloc, &lower, &upper, &options)?;
    print_bools(alloc, &bools)
}

/// The answer of an array's column to a query, as text: a line for each item, or one line.
///
/// # Errors
/// `NotInteger` where a column of booleans is compared, or asked for its order or whether it is
/// constant; `TypeMismatch` for a constant that the column's type doesn't have; `IndexOutOfBounds` for
/// an item beyond the length.
pub fn reply(alloc: Global, array: &ArrayRef, query: ColumnQuery) -> Result<Vec<u8>, FastLanesError>
    ensures { Answers (λ text. text.items) result (reply query (column array.now)) }
{
    match query {
        ColumnQuery::Decode => decode(alloc, array),
        ColumnQuery::At(i) => item_at(alloc, array, i),
        ColumnQuery::Compare(operator, constant) => compare(alloc, array, operator, constant),
        ColumnQuery::Between(options, lower, upper) => {
            between(alloc, array, options, lower, upper)
        }
        ColumnQuery::IsConstant => print_truth(alloc, array.is_constant(alloc)?),
        ColumnQuery::IsSorted(strict) => print_truth(alloc, array.is_sorted(alloc, strict)?),
    }
}
