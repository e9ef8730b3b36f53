//! Laws of every column.

ghost use Rattle.std.specs.Prelude.{◌≡◌, ◌+◌, ◌-◌, ◌<◌, ◌≤◌, ℤ, true, not, length, map, IsTrue, Ok, Err};
ghost use Rattle.std.specs.List.{list_all};
ghost use Rattle.fl_column.specs.Columns.{Column, column_of_primitive, is_column};
ghost use Rattle.fl_column.specs.Operations.{cast_column, is_in_range, item_named, moved, slice_of, take_of};
ghost use Rattle.fl_column.specs.Queries.{scalar_in, holds, scalar_of_column};
ghost use Rattle.fl_types.specs.Integers.{fits};
ghost use Rattle.fl_types.specs.declared.error.FastLanesError.TheVariants.{IndexOutOfBounds};
ghost use Rattle.fl_types.specs.declared.query.CompareOperator.TheVariants.{Eq, NotEq};

use crate::primitive::PrimitiveArray;
use fl_types::laws::integer_is_in_range;
use fl_types::{DType, NativePType, match_each_integer_ptype};

/// A slice of a slice is the slice by the composed range.
#[tactic(auto, using(crate::proofs::ColumnAlgebra::slice_of_slice))]
pub fn slice_of_slice(start: usize, end: usize, from: usize, to: usize)
    requires outer { start ≤ end }
    requires inner { from ≤ to }
    requires within { to ≤ end - start }
    ensures { (c : Column) → slice_of from to (slice_of start end c) ≡ slice_of (start + from) (start + to) c }
{}

/// A take from a slice is a take from the whole, with the slice's start added to the indices.
#[tactic(auto, using(crate::proofs::ColumnAlgebra::take_of_slice))]
pub fn take_of_slice(start: usize, end: usize)
    ensures { (c indices : Column) → list_all (is_in_range (end - start)) indices.items ≡ true → take_of indices (slice_of start end c) ≡ record { dtype = (take_of indices c).dtype; items = map (λ index. item_named c.items (moved start index)) indices.items } }
{}

/// An item of a slice is the item of the whole at its index plus the slice's start.
#[tactic(auto, using(crate::proofs::ColumnAlgebra::item_of_slice))]
pub fn item_of_slice(start: usize, end: usize, i: usize)
    requires { i < end - start }
    ensures { (c : Column) → scalar_in (slice_of start end c) i ≡ scalar_in c (start + i) }
{}

/// A point read is the item; beyond the length there is none.
pub fn point_read(i: usize)
    ensures item { (c : Column) → i < length c.items → scalar_of_column i c ≡ Ok (scalar_in c i) }
    ensures beyond { (c : Column) → length c.items ≤ i → scalar_of_column i c ≡ Err IndexOutOfBounds }
{}

/// A cast of a cast is the second cast alone.
#[tactic(auto, using(crate::proofs::ColumnAlgebra::cast_of_cast))]
pub fn cast_of_cast(first: DType, second: DType)
    ensures { (c d : Column) → cast_column first c ≡ Ok d → cast_column second d ≡ cast_column second c }
{}

/// An item differs from a constant if and only if it does not equal it.
pub fn not_equal_is_not_equal()
    ensures { (constant z : ℤ) → holds NotEq constant z ≡ not (holds Eq constant z) }
{}

#[tactic(auto, using(crate::proofs::ListLaws::all_mapped_more))]
fn typed_is_in_range<T: NativePType>(array: &PrimitiveArray)
    requires { array.now.ptype ≡ T.PTYPE }
    ensures { IsTrue (list_all (fits array.now.ptype) array.now.slots) }
{
    let items = array.as_slice::<T>();
    for item in items {
        integer_is_in_range(*item);
    }
}

/// Each stored integer of a plain array is in the range of its type, so that its items are a column.
#[tactic(auto, using(crate::proofs::SelectionLaws::plain_is_column))]
pub fn stored_integers_are_in_range(array: &PrimitiveArray)
    ensures slots { IsTrue (list_all (fits array.now.ptype) array.now.slots) }
    ensures column { IsTrue (is_column (column_of_primitive array.now)) }
{
    match_each_integer_ptype!(array.ptype(), typed_is_in_range(array))
}
