//! Whether the items of a plain array of integers are in order.

ghost use Rattle.std.specs.Prelude.{◌≡◌, IsTrue, length, option_map, if◌then◌else◌};
ghost use Rattle.fl_types.specs.Buffers.{integers_of, ptype_of};
ghost use Rattle.fl_column.specs.Columns.{column_of_primitive};
ghost use Rattle.fl_types.specs.Validities.{covers, items_of};
ghost use Rattle.fl_column.specs.Queries.{are_sorted, are_strictly_sorted, each_next, in_order, is_below};

use crate::primitive::PrimitiveArray;
use crate::selection::item_at;
use fl_types::{NativePType, PrimitiveBuffer, Validity, is_less, match_each_integer_ptype};

/// Whether the first item is below the second; a null is below every integer.
fn is_item_below<T: NativePType>(x: Option<T>, y: Option<T>) -> bool
    ensures { result ≡ is_below (option_map T.value x) (option_map T.value y) }
{
    match (x, y) {
        (None, Some(_)) => true,
        (Some(x), Some(y)) => is_less(x, y),
        _ => false,
    }
}

/// Whether an item may stand before the next one: it is not above it or, if `strict`, below it. A null is below every integer.
pub fn is_in_order<T: NativePType>(strict: bool, x: Option<T>, y: Option<T>) -> bool
    ensures { result ≡ in_order strict (option_map T.value x) (option_map T.value y) }
{
    if strict {
        is_item_below(x, y)
    } else {
        !is_item_below(y, x)
    }
}

/// Whether each item may stand before the next one.
fn is_sorted_typed<T: NativePType>(
    slots: &PrimitiveBuffer,
    validity: &Validity,
    strict: bool,
) -> bool
    requires same { ptype_of slots.now ≡ T.PTYPE }
    requires covers { IsTrue (covers validity.now (length (integers_of slots.now))) }
    ensures { result ≡ each_next (in_order strict) (items_of validity.now (integers_of slots.now)) }
{
    let items = T::as_slice(slots);
    for i in 1..items.len() {
        if !is_in_order(
            strict,
            item_at(items, validity, i - 1),
            item_at(items, validity, i),
        ) {
            return false;
        }
    }
    true
}

fn is_sorted_slots(slots: &PrimitiveBuffer, validity: &Validity, strict: bool) -> bool
    requires { IsTrue (covers validity.now (length (integers_of slots.now))) }
    ensures { result ≡ each_next (in_order strict) (items_of validity.now (integers_of slots.now)) }
{
    match_each_integer_ptype!(slots.ptype(), is_sorted_typed(slots, validity, strict))
}

impl PrimitiveArray {
    /// Whether no item is greater than the next or, if `strict`, each item is less than the next; a null is
    /// below every integer.
    pub fn is_sorted(&self, strict: bool) -> bool
        ensures { result ≡ (if strict then are_strictly_sorted (column_of_primitive self.now).items else are_sorted (column_of_primitive self.now).items) }
    {
        is_sorted_slots(self.slots(), self.validity(), strict)
    }
}
