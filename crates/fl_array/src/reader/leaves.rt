//! Items of plain arrays.

ghost use Rattle.std.specs.Prelude.{◌≡◌, ◌+◌, ◌≤◌, ◌<◌, ℕ, IfSome, IsTrue, length};
ghost use Rattle.fl_types.specs.Types.{has_ptype};
ghost use Rattle.fl_column.specs.Columns.{column_of_constant, column_of_primitive};
ghost use Rattle.fl_bitpacking.specs.Blocks.{value_at};
ghost use Rattle.fl_array.specs.Readers.{AreItemsFrom};

use fl_column::{ConstantArray, NativePType, PrimitiveArray};

/// Copies the integers of a primitive array from an index on.
pub(crate) fn copy_items<T: NativePType>(plain: &PrimitiveArray, start: usize, items: &mut [T])
    requires typed { IsTrue (has_ptype T.PTYPE (column_of_primitive plain.now).dtype) }
    requires range { start + length items.old ≤ length (column_of_primitive plain.now).items }
    ensures { AreItemsFrom start (length items.old) (value_at T.value items.new) (column_of_primitive plain.now) }
{
    let (_len, _validity) = (plain.len(), plain.validity());
    let slots = plain.as_slice::<T>();
    items.copy_from_slice(&slots[start..start + items.len()]);
}

/// The integer of a constant array, or 0 if it is a null.
fn value_of<T: NativePType>(constant: &ConstantArray) -> T
    requires { IsTrue (has_ptype T.PTYPE (column_of_constant constant.now).dtype) }
    ensures { IfSome constant.now.scalar.value (λ z. T.value result ≡ z) }
{
    match constant.value() {
        Some(value) => T::from_pvalue(value).unwrap(),
        None => T::zero(),
    }
}

/// Writes a value at each index.
fn fill<T: NativePType>(items: &mut [T], value: T)
    ensures { (i : ℕ) → i < length items.old → value_at T.value items.new i ≡ T.value value }
{
    for i in 0..items.len() {
        items[i] = value;
    }
}

/// Writes the integer of a constant array at each index, or 0 if it is a null.
pub(crate) fn fill_items<T: NativePType>(constant: &ConstantArray, start: usize, items: &mut [T])
    requires typed { IsTrue (has_ptype T.PTYPE (column_of_constant constant.now).dtype) }
    requires range { start + length items.old ≤ length (column_of_constant constant.now).items }
    ensures { AreItemsFrom start (length items.old) (value_at T.value items.new) (column_of_constant constant.now) }
{
    let _len = constant.len();
    let value = value_of::<T>(constant);
    fill(items, value);
}
