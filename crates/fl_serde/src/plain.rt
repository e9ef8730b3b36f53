//! Children that are decoded when they are read.

ghost use Rattle.std.specs.Prelude.{◌≡◌, ◌<◌, ◌≤◌, IsTrue, Ok, IfOk, length, map, option_map};
ghost use Rattle.std.specs.List.{slice_index_or};
ghost use Rattle.fl_types.specs.Refusals.{Answers};
ghost use Rattle.fl_column.specs.Columns.{column_of_primitive, primitive_of_options};
ghost use Rattle.fl_array.specs.Trees.{column};
ghost use Rattle.fl_serde.specs.Plain.{decoded, plain_of};

use fl_array::ArrayRef;
use fl_column::{FastLanesError, NativePType, Nullability, PrimitiveArray};
use fl_types::match_each_integer_ptype;
use std::alloc::{AllocError, Global};

/// The item at an index, or `None` of a null.
fn item_at<T: NativePType>(array: &PrimitiveArray, i: usize) -> Option<T>
    requires typed { array.now.ptype ≡ T.PTYPE }
    requires range { i < length array.now.slots }
    ensures { option_map T.value result ≡ slice_index_or (column_of_primitive array.now).items i None }
{
    match array.get(i) {
        Some(value) => T::from_pvalue(value),
        None => None,
    }
}

/// The items.
fn items_of<T: NativePType>(
    alloc: Global,
    array: &PrimitiveArray,
) -> Result<Vec<Option<T>>, AllocError>
    requires { array.now.ptype ≡ T.PTYPE }
    ensures { IfOk result (λ v. map (option_map T.value) v.items ≡ (column_of_primitive array.now).items) }
{
    let mut items = Vec::with_capacity(alloc, array.len())?;
    for i in 0..array.len() {
        items.push(item_at(array, i))?;
    }
    Ok(items)
}

/// The array with 0 under a null and a bit for each item, which may be null.
fn plain_typed<T: NativePType>(
    alloc: Global,
    array: &PrimitiveArray,
) -> Result<PrimitiveArray, FastLanesError>
    requires { array.now.ptype ≡ T.PTYPE }
    ensures { Answers (λ a. a) result (Ok (primitive_of_options array.now.ptype (column_of_primitive array.now).items)) }
{
    let items = items_of::<T>(alloc, array)?;
    PrimitiveArray::from_options(alloc, &items)
}

/// The same of an array of any type.
fn plain_of_items(alloc: Global, array: &PrimitiveArray) -> Result<PrimitiveArray, FastLanesError>
    ensures { Answers (λ a. a) result (Ok (primitive_of_options array.now.ptype (column_of_primitive array.now).items)) }
{
    match_each_integer_ptype!(array.ptype(), plain_typed(alloc, array))
}

/// The array with 0 under a null, and a bit for each item where nulls may stand.
#[tactic(auto, using(crate::proofs::PlainLaws::plain_same, crate::proofs::PlainLaws::plain_nulls))]
fn plain(alloc: Global, array: PrimitiveArray) -> Result<PrimitiveArray, FastLanesError>
    ensures { Answers (λ a. a) result (Ok (plain_of (column_of_primitive array))) }
{
    match array.nullability() {
        Nullability::NonNullable => Ok(array),
        Nullability::Nullable => plain_of_items(alloc, &array),
    }
}

/// An array as a plain one. One that is held plain is not copied.
///
/// # Errors
/// `NotInteger` if it is of booleans.
pub fn decoded(alloc: Global, array: ArrayRef) -> Result<PrimitiveArray, FastLanesError>
    ensures { Answers (λ a. a) result (decoded array) }
{
    let array = array.into_primitive(alloc)?;
    plain(alloc, array)
}
