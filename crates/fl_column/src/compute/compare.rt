//! How the items of plain arrays of integers compare with a constant.

ghost use Rattle.std.specs.Prelude.{◌≡◌, ◌<◌, Ok, map, length, pos, slice_index_or};
ghost use Rattle.fl_types.specs.Buffers.{integers_of, ptype_of};
ghost use Rattle.fl_column.specs.Columns.{column_of_bools, column_of_primitive};
ghost use Rattle.fl_column.specs.Queries.{holds, tested};
ghost use Rattle.fl_types.specs.Values.{integer_of, ptype_of_value};
ghost use Rattle.fl_types.specs.Refusals.{Answers};

use crate::bools::BoolArray;
use crate::primitive::PrimitiveArray;
use fl_types::{
    BitList, CompareOperator, FastLanesError, NativePType, PValue, PrimitiveBuffer, is_equal,
    is_less, match_each_integer_ptype,
};
use std::alloc::Global;

/// Whether the slot at an index compares with the constant so.
fn compares_at<T: NativePType>(
    items: &[T],
    i: usize,
    operator: CompareOperator,
    constant: T,
) -> bool
    requires { i < length items.now }
    ensures { result ≡ holds operator (T.value constant) (slice_index_or (map T.value items.now) i (pos 0)) }
{
    let item = items[i];
    match operator {
        CompareOperator::Eq => is_equal(item, constant),
        CompareOperator::NotEq => !is_equal(item, constant),
        CompareOperator::Gt => is_less(constant, item),
        CompareOperator::Gte => !is_less(item, constant),
        CompareOperator::Lt => is_less(item, constant),
        CompareOperator::Lte => !is_less(constant, item),
    }
}

/// Whether each slot compares with the constant so.
fn compare_typed<T: NativePType>(
    slots: &PrimitiveBuffer,
    alloc: Global,
    operator: CompareOperator,
    constant: PValue,
) -> Result<BitList, FastLanesError>
    requires same { ptype_of slots.now ≡ T.PTYPE }
    requires typed { ptype_of_value constant ≡ ptype_of slots.now }
    ensures { Answers (λ b. b) result (Ok (map (holds operator (integer_of constant)) (integers_of slots.now))) }
{
    let items = T::as_slice(slots);
    let constant = T::from_pvalue(constant).unwrap();
    BitList::from_fn(
        alloc,
        items.len(),
        |i| compares_at(items, i, operator, constant),
    )
}

fn compare_slots(
    slots: &PrimitiveBuffer,
    alloc: Global,
    operator: CompareOperator,
    constant: PValue,
) -> Result<BitList, FastLanesError>
    requires { ptype_of_value constant ≡ ptype_of slots.now }
    ensures { Answers (λ b. b) result (Ok (map (holds operator (integer_of constant)) (integers_of slots.now))) }
{
    match_each_integer_ptype!(
        slots.ptype(),
        compare_typed(slots, alloc, operator, constant)
    )
}

impl PrimitiveArray {
    /// How each item compares with a constant of the array's type; a null stays a null.
    #[tactic(auto, using(crate::proofs::QueryLaws::tests))]
    pub fn compare(
        &self,
        alloc: Global,
        operator: CompareOperator,
        constant: PValue,
    ) -> Result<BoolArray, FastLanesError>
        requires { ptype_of_value constant ≡ self.now.ptype }
        ensures { Answers column_of_bools result (Ok (tested (holds operator (integer_of constant)) (column_of_primitive self.now))) }
    {
        let validity = self.validity().try_clone(alloc)?;
        let bits = compare_slots(self.slots(), alloc, operator, constant)?;
        BoolArray::new(bits, validity)
    }
}
