//! Takes that read each item by itself, for a few items of a long array that would else be read by blocks.

ghost use Rattle.std.specs.Prelude.{◌≡◌, ◌&&◌, ◌||◌, ◌++◌, ◌∷◌, [], IfErr, IsTrue, Ok, OnOk, Some, is_none, is_some, length, not, option_map};
ghost use Rattle.std.specs.List.{list_all};
ghost use Rattle.fl_types.specs.Refusals.{Answers};
ghost use Rattle.fl_types.specs.Types.{can_be_null, integer_type, is_nullable};
ghost use Rattle.fl_types.specs.Values.{scalar_parts};
ghost use Rattle.fl_types.specs.declared.dtype.DType.TheVariants.{Primitive};
ghost use Rattle.fl_types.specs.declared.error.FastLanesError.TheVariants.{OutOfMemory};
ghost use Rattle.fl_column.specs.Columns.{column_of_primitive};
ghost use Rattle.fl_column.specs.Operations.{take_column};
ghost use Rattle.fl_column.specs.Selections.{are_below_length, is_below_length, item_at_position, items_at};
ghost use Rattle.fl_array.specs.Trees.{column};

use fl_array::ArrayRef;
use fl_column::{
    DType, FastLanesError, NativePType, Nullability, PType, PrimitiveArray, PrimitiveBuilder,
    Scalar,
};
use fl_types::match_each_integer_ptype;
use std::alloc::Global;

/// The integer of an item, or `None` of a null.
fn integer_of_item<T: NativePType>(item: Scalar) -> Option<T>
    requires { integer_type (scalar_parts item).dtype ≡ Some T.PTYPE }
    ensures value { option_map T.value result ≡ (scalar_parts item).value }
    ensures null { IsTrue (is_nullable (scalar_parts item).dtype || is_some result) }
{
    T::from_pvalue(item.as_pvalue()?)
}

/// Adds the item at a position, null where there is no position.
fn push_item<T: NativePType>(
    taken: &mut PrimitiveBuilder<T>,
    alloc: Global,
    array: &ArrayRef,
    position: Option<usize>,
) -> Result<(), FastLanesError>
    requires typed { integer_type (column array.now).dtype ≡ Some T.PTYPE }
    requires below { IsTrue (is_below_length (length (column array.now).items) position) }
    ensures item { OnOk result (taken.new ≡ taken.old ++ item_at_position (column array.now).items position ∷ []) }
    ensures null { OnOk result (IsTrue (is_nullable (column array.now).dtype || (is_none position || is_some (item_at_position (column array.now).items position)))) }
    ensures memory { IfErr result (λ e. e ≡ OutOfMemory) }
{
    let item = match position {
        Some(i) => integer_of_item(array.scalar_at(alloc, i)?),
        None => None,
    };
    taken.push(alloc, item)
}

/// The items at these positions, null where there is none.
fn items_typed<T: NativePType>(
    alloc: Global,
    array: &ArrayRef,
    positions: &[Option<usize>],
    nullability: Nullability,
) -> Result<PrimitiveArray, FastLanesError>
    requires typed { integer_type (column array.now).dtype ≡ Some T.PTYPE }
    requires below { IsTrue (are_below_length (length (column array.now).items) positions.now) }
    requires nulls { IsTrue (can_be_null nullability || (not (is_nullable (column array.now).dtype) && list_all is_some positions.now)) }
    ensures { Answers column_of_primitive result (Ok (record { dtype = Primitive T.PTYPE nullability; items = items_at (column array.now).items positions.now })) }
{
    let mut taken = PrimitiveBuilder::<T>::with_capacity(alloc, positions.len())?;
    for position in positions {
        push_item(&mut taken, alloc, array, *position)?;
    }
    Ok(taken.finish(nullability))
}

/// The items at these positions of an array of integers, null where there is none.
fn items_at(
    alloc: Global,
    array: &ArrayRef,
    ptype: PType,
    positions: &[Option<usize>],
    nullability: Nullability,
) -> Result<PrimitiveArray, FastLanesError>
    requires typed { integer_type (column array.now).dtype ≡ Some ptype }
    requires below { IsTrue (are_below_length (length (column array.now).items) positions.now) }
    requires nulls { IsTrue (can_be_null nullability || (not (is_nullable (column array.now).dtype) && list_all is_some positions.now)) }
    ensures { Answers column_of_primitive result (Ok (record { dtype = Primitive ptype nullability; items = items_at (column array.now).items positions.now })) }
{
    match_each_integer_ptype!(ptype, items_typed(alloc, array, positions, nullability))
}

/// The items that indices name, each read by itself.
pub(crate) fn take_items(
    alloc: Global,
    array: &ArrayRef,
    indices: &PrimitiveArray,
) -> Result<PrimitiveArray, FastLanesError>
    ensures { Answers column_of_primitive result (take_column (column_of_primitive indices.now) (column array.now)) }
{
    let DType::Primitive(ptype, nullability) = array.dtype() else {
        return Err(FastLanesError::NotInteger);
    };
    let positions = indices.positions(alloc, array.len())?;
    let nullability = nullability.or(indices.nullability());
    items_at(alloc, array, ptype, &positions, nullability)
}
