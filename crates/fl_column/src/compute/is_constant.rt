//! Whether all items of a plain array of integers are equal.

ghost use Rattle.std.specs.Prelude.{◌≡◌, IsTrue, length, option_map};
ghost use Rattle.fl_types.specs.Buffers.{integers_of, ptype_of};
ghost use Rattle.fl_column.specs.Columns.{column_of_primitive};
ghost use Rattle.fl_types.specs.Validities.{covers, items_of};
ghost use Rattle.fl_column.specs.Queries.{are_constant, same_item};

use crate::primitive::PrimitiveArray;
use crate::selection::item_at;
use fl_types::{NativePType, PrimitiveBuffer, Validity, is_equal, match_each_integer_ptype};

/// Whether two items are equal; a null equals a null.
pub fn is_same_item<T: NativePType>(x: Option<T>, y: Option<T>) -> bool
    ensures { result ≡ same_item (option_map T.value x) (option_map T.value y) }
{
    match (x, y) {
        (None, None) => true,
        (Some(x), Some(y)) => is_equal(x, y),
        _ => false,
    }
}

/// Whether all items are equal.
fn is_constant_typed<T: NativePType>(slots: &PrimitiveBuffer, validity: &Validity) -> bool
    requires same { ptype_of slots.now ≡ T.PTYPE }
    requires covers { IsTrue (covers validity.now (length (integers_of slots.now))) }
    ensures { result ≡ are_constant (items_of validity.now (integers_of slots.now)) }
{
    let items = T::as_slice(slots);
    for i in 0..items.len() {
        if !is_same_item(item_at(items, validity, 0), item_at(items, validity, i)) {
            return false;
        }
    }
    true
}

fn is_constant_slots(slots: &PrimitiveBuffer, validity: &Validity) -> bool
    requires { IsTrue (covers validity.now (length (integers_of slots.now))) }
    ensures { result ≡ are_constant (items_of validity.now (integers_of slots.now)) }
{
    match_each_integer_ptype!(slots.ptype(), is_constant_typed(slots, validity))
}

impl PrimitiveArray {
    /// Whether all items are equal; a null equals a null. An empty array is constant.
    pub fn is_constant(&self) -> bool
        ensures { result ≡ are_constant (column_of_primitive self.now).items }
    {
        is_constant_slots(self.slots(), self.validity())
    }
}
