//! Which items of plain arrays of integers are between two bounds.

ghost use Rattle.std.specs.Prelude.{◌≡◌, ◌<◌, Ok, map, length, pos, slice_index_or};
ghost use Rattle.fl_types.specs.Buffers.{integers_of, ptype_of};
ghost use Rattle.fl_column.specs.Columns.{column_of_bools, column_of_primitive};
ghost use Rattle.fl_column.specs.Queries.{is_before, is_between, tested};
ghost use Rattle.fl_types.specs.Values.{integer_of, ptype_of_value};
ghost use Rattle.fl_types.specs.Refusals.{Answers};

use crate::bools::BoolArray;
use crate::primitive::PrimitiveArray;
use fl_types::{
    BetweenOptions, BitList, FastLanesError, NativePType, PValue, PrimitiveBuffer,
    StrictComparison, is_less, match_each_integer_ptype,
};
use std::alloc::Global;

/// Whether the first value is below the second, or at it where that is allowed.
fn is_before<T: NativePType>(strict: StrictComparison, x: T, y: T) -> bool
    ensures { result ≡ is_before strict (T.value x) (T.value y) }
{
    match strict {
        StrictComparison::Strict => is_less(x, y),
        StrictComparison::NonStrict => !is_less(y, x),
    }
}

/// Whether the slot at an index lies between the bounds.
fn lies_between_at<T: NativePType>(
    items: &[T],
    i: usize,
    lower: T,
    upper: T,
    options: BetweenOptions,
) -> bool
    requires { i < length items.now }
    ensures { result ≡ is_between options (T.value lower) (T.value upper) (slice_index_or (map T.value items.now) i (pos 0)) }
{
    let item = items[i];
    is_before(options.lower_strict, lower, item) & is_before(options.upper_strict, item, upper)
}

/// Whether each slot lies between the bounds.
fn between_typed<T: NativePType>(
    slots: &PrimitiveBuffer,
    alloc: Global,
    lower: PValue,
    upper: PValue,
    options: BetweenOptions,
) -> Result<BitList, FastLanesError>
    requires same { ptype_of slots.now ≡ T.PTYPE }
    requires lower { ptype_of_value lower ≡ ptype_of slots.now }
    requires upper { ptype_of_value upper ≡ ptype_of slots.now }
    ensures { Answers (λ b. b) result (Ok (map (is_between options (integer_of lower) (integer_of upper)) (integers_of slots.now))) }
{
    let items = T::as_slice(slots);
    let lower = T::from_pvalue(lower).unwrap();
    let upper = T::from_pvalue(upper).unwrap();
    BitList::from_fn(
        alloc,
        items.len(),
        |i| lies_between_at(items, i, lower, upper, options),
    )
}

fn between_slots(
    slots: &PrimitiveBuffer,
    alloc: Global,
    lower: PValue,
    upper: PValue,
    options: BetweenOptions,
) -> Result<BitList, FastLanesError>
    requires lower { ptype_of_value lower ≡ ptype_of slots.now }
    requires upper { ptype_of_value upper ≡ ptype_of slots.now }
    ensures { Answers (λ b. b) result (Ok (map (is_between options (integer_of lower) (integer_of upper)) (integers_of slots.now))) }
{
    match_each_integer_ptype!(
        slots.ptype(),
        between_typed(slots, alloc, lower, upper, options)
    )
}

impl PrimitiveArray {
    /// Whether each item is between two bounds of the array's type; a null stays a null. Nothing
    /// is between bounds of which the lower is greater than the upper.
    #[tactic(auto, using(crate::proofs::QueryLaws::tests))]
    pub fn between(
        &self,
        alloc: Global,
        lower: PValue,
        upper: PValue,
        options: BetweenOptions,
    ) -> Result<BoolArray, FastLanesError>
        requires lower { ptype_of_value lower ≡ self.now.ptype }
        requires upper { ptype_of_value upper ≡ self.now.ptype }
        ensures { Answers column_of_bools result (Ok (tested (is_between options (integer_of lower) (integer_of upper)) (column_of_primitive self.now))) }
    {
        let validity = self.validity().try_clone(alloc)?;
        let bits = between_slots(self.slots(), alloc, lower, upper, options)?;
        BoolArray::new(bits, validity)
    }
}
