//! Plain arrays in another integer type.

ghost use Rattle.std.specs.Prelude.{◌≡◌, ◌<◌, ◌≤◌, ◌||◌, ◌&&◌, [], not, IsTrue, Ok, is_none, is_some, length, map, nat_lt, None, Some, option_map, vec_capacity, if◌then◌else◌};
ghost use Rattle.std.specs.List.{list_all, list_any};
ghost use Rattle.fl_types.specs.Bits.{true_count};
ghost use Rattle.fl_types.specs.Buffers.{integers_of, ptype_of};
ghost use Rattle.fl_types.specs.Integers.{fits};
ghost use Rattle.fl_column.specs.Casts.{cast_slot, cast_validity};
ghost use Rattle.fl_column.specs.Columns.{column_of_primitive, option_all};
ghost use Rattle.fl_types.specs.Validities.{covers, items_of};
ghost use Rattle.fl_column.specs.Operations.{cast_column, cast_items};
ghost use Rattle.fl_column.specs.Selections.{any_null};
ghost use Rattle.fl_types.specs.Types.{can_be_null};
ghost use Rattle.fl_types.specs.Refusals.{Answers};

use crate::primitive::PrimitiveArray;
use crate::selection::item_at;
use fl_types::{
    BitList, DType, FastLanesError, NativePType, Nullability, PType, PrimitiveBuffer, Validity,
    match_each_integer_ptype,
};
use std::alloc::Global;

/// The value of this type, or `None` where the type doesn't have it.
fn cast_value<T: NativePType>(value: i128) -> Option<T>
    ensures { option_map T.value result ≡ (if fits T.PTYPE value then Some value else None) }
{
    T::from_i128(value)
}

/// Whether the type has the item, as it has a null.
fn item_fits<S: NativePType, T: NativePType>(item: Option<S>) -> bool
    ensures { result ≡ option_all (fits T.PTYPE) (option_map S.value item) }
{
    match item {
        Some(value) => cast_value::<T>(value.as_i128()).is_some(),
        None => true,
    }
}

/// Whether the type has each item.
fn items_fit<S: NativePType, T: NativePType>(items: &[S], validity: &Validity) -> bool
    requires { IsTrue (covers validity.now (length items.now)) }
    ensures { result ≡ list_all (option_all (fits T.PTYPE)) (items_of validity.now (map S.value items.now)) }
{
    for i in 0..items.len() {
        if !item_fits::<S, T>(item_at(items, validity, i)) {
            return false;
        }
    }
    true
}

/// Fills an empty list, in which there is room, with the integers in another type, 0 where the type
/// doesn't have one, and returns whether it has all.
fn write_cast<S: NativePType, T: NativePType>(items: &[S], slots: &mut Vec<T>) -> bool
    requires empty { slots.old.items ≡ [] }
    requires room { length items.now ≤ vec_capacity slots.old }
    ensures slots { map T.value slots.new.items ≡ map (cast_slot T.PTYPE) (map S.value items.now) }
    ensures fit { result ≡ list_all (fits T.PTYPE) (map S.value items.now) }
{
    let mut fit = true;
    for item in items {
        let cast = cast_value::<T>(item.as_i128());
        fit &= cast.is_some();
        slots.push_reserved(cast.unwrap_or(T::zero()));
    }
    fit
}

/// The validity of the same items where nulls may stand or not.
fn cast_validity(
    validity: &Validity,
    alloc: Global,
    len: usize,
    nullability: Nullability,
) -> Result<Validity, FastLanesError>
    requires { IsTrue (covers validity.now len) }
    ensures { Answers (λ v. v) result (Ok (cast_validity nullability len validity.now)) }
{
    match nullability {
        Nullability::NonNullable => Ok(Validity::NonNullable),
        Nullability::Nullable if has_null(validity, len) => validity.try_clone(alloc),
        Nullability::Nullable => Ok(Validity::AllValid),
    }
}

fn cast_typed<S: NativePType, T: NativePType>(
    slots: &PrimitiveBuffer,
    alloc: Global,
    validity: &Validity,
    nullability: Nullability,
) -> Result<PrimitiveArray, FastLanesError>
    requires same { ptype_of slots.now ≡ S.PTYPE }
    requires covers { IsTrue (covers validity.now (length (integers_of slots.now))) }
    requires nulls { IsTrue (can_be_null nullability || list_all is_some (items_of validity.now (integers_of slots.now))) }
    ensures { Answers column_of_primitive result (cast_items T.PTYPE nullability (items_of validity.now (integers_of slots.now))) }
{
    let items = S::as_slice(slots);
    let mut cast = Vec::with_capacity(alloc, items.len())?;
    if !write_cast::<S, T>(items, &mut cast) && !items_fit::<S, T>(items, validity) {
        return Err(FastLanesError::CastOutOfRange);
    }
    let validity = cast_validity(validity, alloc, items.len(), nullability)?;
    Ok(PrimitiveArray::new_unchecked(cast, validity))
}

fn cast_from<S: NativePType>(
    slots: &PrimitiveBuffer,
    alloc: Global,
    validity: &Validity,
    ptype: PType,
    nullability: Nullability,
) -> Result<PrimitiveArray, FastLanesError>
    requires same { ptype_of slots.now ≡ S.PTYPE }
    requires covers { IsTrue (covers validity.now (length (integers_of slots.now))) }
    requires nulls { IsTrue (can_be_null nullability || list_all is_some (items_of validity.now (integers_of slots.now))) }
    ensures { Answers column_of_primitive result (cast_items ptype nullability (items_of validity.now (integers_of slots.now))) }
{
    match_each_integer_ptype!(ptype, cast_typed::<S>(slots, alloc, validity, nullability))
}

/// Whether a bit is not set.
#[tactic(auto, using(crate::proofs::CastLaws::unset_by_test))]
pub(crate) fn has_unset(bits: &BitList) -> bool
    ensures { result ≡ nat_lt (true_count bits.now) (length bits.now) }
{
    !bits.are_all(true)
}

/// Whether any of this many items is null.
fn has_null(validity: &Validity, len: usize) -> bool
    requires { IsTrue (covers validity.now len) }
    ensures { result ≡ any_null validity.now len }
{
    match validity {
        Validity::NonNullable => false,
        Validity::AllValid => false,
        Validity::AllInvalid => len > 0,
        Validity::Array(bits) => has_unset(bits),
    }
}

impl PrimitiveArray {
    /// Whether any item is null.
    pub fn has_null(&self) -> bool
        ensures { result ≡ list_any is_none (column_of_primitive self.now).items }
    {
        has_null(self.validity(), self.len())
    }

    /// Whether an item is null where none may be.
    fn has_null_against(&self, nullability: Nullability) -> bool
        ensures { result ≡ (not (can_be_null nullability) && list_any is_none (column_of_primitive self.now).items) }
    {
        match nullability {
            Nullability::NonNullable => self.has_null(),
            Nullability::Nullable => false,
        }
    }

    /// The same integers in another type.
    ///
    /// # Errors
    /// `NotInteger` if the target is not an integer type, then `CastNull` if an item is null and
    /// the target is not nullable, then `CastOutOfRange` if the target does not have an item.
    #[tactic(auto, using(crate::proofs::CastLaws::may_cast))]
    pub fn cast(&self, alloc: Global, target: DType) -> Result<PrimitiveArray, FastLanesError>
        ensures { Answers column_of_primitive result (cast_column target (column_of_primitive self.now)) }
    {
        let DType::Primitive(ptype, nullability) = target else {
            return Err(FastLanesError::NotInteger);
        };
        if self.has_null_against(nullability) {
            return Err(FastLanesError::CastNull);
        }
        cast_slots(alloc, self, ptype, nullability)
    }
}

/// The same integers in another type, where nulls may stand or there are none.
fn cast_slots(
    alloc: Global,
    array: &PrimitiveArray,
    ptype: PType,
    nullability: Nullability,
) -> Result<PrimitiveArray, FastLanesError>
    requires { IsTrue (can_be_null nullability || list_all is_some (column_of_primitive array.now).items) }
    ensures { Answers column_of_primitive result (cast_items ptype nullability (column_of_primitive array.now).items) }
{
    let (slots, validity) = (array.slots(), array.validity());
    match_each_integer_ptype!(
        slots.ptype(),
        cast_from(slots, alloc, validity, ptype, nullability)
    )
}
