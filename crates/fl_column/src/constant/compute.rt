//! Operations and queries of arrays of one value.

ghost use Rattle.std.specs.Prelude.{◌≡◌, ◌||◌, IsTrue, IfOk, IfSome, Ok, Some, length, map, option_map, option_and_then, is_some, replicate, if◌then◌else◌};
ghost use Rattle.std.specs.List.{list_all};
ghost use Rattle.fl_types.specs.Buffers.{integers_of, ptype_of};
ghost use Rattle.fl_column.specs.Columns.{column_of_bools, column_of_constant, column_of_primitive};
ghost use Rattle.fl_types.specs.Validities.{covers, items_of, nullability_of};
ghost use Rattle.fl_types.specs.declared.dtype.DType.TheVariants.{Primitive};
ghost use Rattle.fl_column.specs.Operations.{cast_column, filter_of, ranges_column, take_column};
ghost use Rattle.fl_types.specs.Masks.{mask_len};
ghost use Rattle.fl_column.specs.Queries.{are_constant, are_sorted, are_strictly_sorted, holds, is_between, tested};
ghost use Rattle.fl_types.specs.Types.{can_be_null, integer_type};
ghost use Rattle.fl_types.specs.Values.{integer_of, ptype_of_value};
ghost use Rattle.fl_types.specs.Refusals.{Answers};

use crate::bools::BoolArray;
use crate::builder::PrimitiveBuilder;
use crate::constant::ConstantArray;
use crate::primitive::PrimitiveArray;
use crate::selection::{positions, ranges_total};
use fl_types::{
    BetweenOptions, CompareOperator, DType, FastLanesError, Mask, NativePType, Nullability, PType,
    PValue, PrimitiveBuffer, Validity, match_each_integer_ptype,
};
use std::alloc::{AllocError, Global};

/// The number 0 of a type.
pub(crate) fn zero_of(ptype: PType) -> PValue
    ensures { ptype_of_value result ≡ ptype }
{
    match_each_integer_ptype!(ptype, zero_typed())
}

fn zero_typed<T: NativePType>() -> PValue
    ensures { ptype_of_value result ≡ T.PTYPE }
{
    T::zero().into_pvalue()
}

/// A value a number of times.
fn repeated(alloc: Global, value: PValue, len: usize) -> Result<PrimitiveBuffer, AllocError>
    ensures typed { IfOk result (λ s. ptype_of s ≡ ptype_of_value value) }
    ensures slots { IfOk result (λ s. integers_of s ≡ replicate len (integer_of value)) }
{
    match_each_integer_ptype!(value.ptype(), repeated_typed(alloc, value, len))
}

#[tactic(auto, using(crate::proofs::ItemLaws::repeats))]
fn repeated_typed<T: NativePType>(
    alloc: Global,
    value: PValue,
    len: usize,
) -> Result<PrimitiveBuffer, AllocError>
    requires { ptype_of_value value ≡ T.PTYPE }
    ensures typed { IfOk result (λ s. ptype_of s ≡ ptype_of_value value) }
    ensures slots { IfOk result (λ s. integers_of s ≡ replicate len (integer_of value)) }
{
    let value = T::from_pvalue(value).unwrap();
    let mut items = Vec::with_capacity(alloc, len)?;
    for _i in 0..len {
        items.push(value)?;
    }
    Ok(T::into_buffer(items))
}

/// The value wherever there is a position, else a null.
fn spread_typed<T: NativePType>(
    alloc: Global,
    value: Option<PValue>,
    positions: &[Option<usize>],
    nullability: Nullability,
) -> Result<PrimitiveArray, FastLanesError>
    requires typed { IfSome value (λ v. ptype_of_value v ≡ T.PTYPE) }
    requires nulls { IsTrue (can_be_null nullability || list_all is_some (map (option_and_then (λ i. option_map integer_of value)) positions.now)) }
    ensures { Answers column_of_primitive result (Ok (record { dtype = Primitive T.PTYPE nullability; items = map (option_and_then (λ i. option_map integer_of value)) positions.now })) }
{
    let value = typed_value::<T>(value);
    let mut taken = PrimitiveBuilder::with_capacity(alloc, positions.len())?;
    for position in positions {
        taken.push(alloc, value_where(value, *position))?;
    }
    Ok(taken.finish(nullability))
}

/// The value as one of its type.
fn typed_value<T: NativePType>(value: Option<PValue>) -> Option<T>
    requires { IfSome value (λ v. ptype_of_value v ≡ T.PTYPE) }
    ensures { option_map T.value result ≡ option_map integer_of value }
{
    match value {
        Some(value) => Some(T::from_pvalue(value).unwrap()),
        None => None,
    }
}

/// The value where there is a position, else a null.
fn value_where<T: NativePType>(value: Option<T>, position: Option<usize>) -> Option<T>
    ensures { option_map T.value result ≡ option_and_then (λ i. option_map T.value value) position }
{
    match position {
        Some(_) => value,
        None => None,
    }
}

/// The value wherever there is a position, else a null.
fn spread(
    alloc: Global,
    ptype: PType,
    value: Option<PValue>,
    positions: &[Option<usize>],
    nullability: Nullability,
) -> Result<PrimitiveArray, FastLanesError>
    requires typed { IfSome value (λ v. ptype_of_value v ≡ ptype) }
    requires nulls { IsTrue (can_be_null nullability || list_all is_some (map (option_and_then (λ i. option_map integer_of value)) positions.now)) }
    ensures { Answers column_of_primitive result (Ok (record { dtype = Primitive ptype nullability; items = map (option_and_then (λ i. option_map integer_of value)) positions.now })) }
{
    match_each_integer_ptype!(ptype, spread_typed(alloc, value, positions, nullability))
}

/// A value a number of times, under a validity without bits.
pub(crate) fn constant_of(
    alloc: Global,
    value: PValue,
    len: usize,
    validity: Validity,
) -> Result<PrimitiveArray, FastLanesError>
    requires { IsTrue (covers validity len) }
    ensures { Answers column_of_primitive result (Ok (record { dtype = Primitive (ptype_of_value value) (nullability_of validity); items = items_of validity (replicate len (integer_of value)) })) }
{
    let slots = repeated(alloc, value, len)?;
    Ok(PrimitiveArray::from_buffer(slots, validity))
}

impl ConstantArray {
    /// The item wherever an index names one, null where an index is null. The integer under a null
    /// index is never read.
    ///
    /// # Errors
    /// `IndexOutOfBounds` if an index is negative or not below the length.
    pub fn take(
        &self,
        alloc: Global,
        indices: &PrimitiveArray,
    ) -> Result<PrimitiveArray, FastLanesError>
        ensures { Answers column_of_primitive result (take_column (column_of_primitive indices.now) (column_of_constant self.now)) }
    {
        let ptype = self.ptype();
        let positions = positions(alloc, indices, self.len())?;
        let nullability = self.dtype().nullability().or(indices.nullability());
        spread(alloc, ptype, self.value(), &positions, nullability)
    }

    /// The items of the ranges, each a start and a length, one range after another. A range without
    /// items is skipped, wherever it starts.
    ///
    /// # Errors
    /// `RangeOutOfBounds` if a range with items reaches beyond the length, and then
    /// `LengthOverflow` if the lengths' sum is above `usize::MAX`.
    pub fn take_ranges(
        &self,
        alloc: Global,
        ranges: &[(usize, usize)],
    ) -> Result<PrimitiveArray, FastLanesError>
        ensures { Answers column_of_primitive result (ranges_column ranges.now (column_of_constant self.now)) }
    {
        // For the proof: the column is of integers.
        let _ptype = self.ptype();
        let total = ranges_total(ranges, self.len())?;
        self.with_len(total).decode(alloc)
    }

    /// The items whose bit of the mask is true. The mask has the array's length.
    pub fn filter(&self, alloc: Global, mask: &Mask) -> Result<PrimitiveArray, FastLanesError>
        requires { mask_len mask.now ≡ length (column_of_constant self.now).items }
        ensures { Answers column_of_primitive result (Ok (filter_of mask.now (column_of_constant self.now))) }
    {
        // For the proof: there are as many items as the length says.
        let _len = self.len();
        self.with_len(mask.count_true()).decode(alloc)
    }

    /// The same integer in another type.
    ///
    /// # Errors
    /// `NotInteger` if the target is not an integer type, then `CastNull` if the null meets a
    /// target that is not nullable, then `CastOutOfRange` if the target does not have the integer.
    pub fn cast(&self, alloc: Global, target: DType) -> Result<PrimitiveArray, FastLanesError>
        ensures { Answers column_of_primitive result (cast_column target (column_of_constant self.now)) }
    {
        self.decode(alloc)?.cast(alloc, target)
    }

    /// How each item compares with a constant of the array's type; a null stays a null.
    pub fn compare(
        &self,
        alloc: Global,
        operator: CompareOperator,
        constant: PValue,
    ) -> Result<BoolArray, FastLanesError>
        requires { integer_type (column_of_constant self.now).dtype ≡ Some (ptype_of_value constant) }
        ensures { Answers column_of_bools result (Ok (tested (holds operator (integer_of constant)) (column_of_constant self.now))) }
    {
        self.decode(alloc)?.compare(alloc, operator, constant)
    }

    /// Whether each item is between two bounds of the array's type; a null stays a null.
    pub fn between(
        &self,
        alloc: Global,
        lower: PValue,
        upper: PValue,
        options: BetweenOptions,
    ) -> Result<BoolArray, FastLanesError>
        requires lower { integer_type (column_of_constant self.now).dtype ≡ Some (ptype_of_value lower) }
        requires upper { integer_type (column_of_constant self.now).dtype ≡ Some (ptype_of_value upper) }
        ensures { Answers column_of_bools result (Ok (tested (is_between options (integer_of lower) (integer_of upper)) (column_of_constant self.now))) }
    {
        self.decode(alloc)?.between(alloc, lower, upper, options)
    }

    /// Whether all items are equal: they always are.
    #[tactic(auto, using(crate::proofs::ConstantLaws::constant_is_constant))]
    pub fn is_constant(&self) -> bool
        ensures { result ≡ are_constant (column_of_constant self.now).items }
    {
        true
    }

    /// Whether no item is greater than the next, which is always so, or, if `strict`, each item is less than the next.
    #[tactic(auto, using(crate::proofs::ConstantLaws::constant_sorted, crate::proofs::ConstantLaws::constant_strict))]
    pub fn is_sorted(&self, strict: bool) -> bool
        ensures { result ≡ (if strict then are_strictly_sorted (column_of_constant self.now).items else are_sorted (column_of_constant self.now).items) }
    {
        if strict { self.len() < 2 } else { true }
    }
}
