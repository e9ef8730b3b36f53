//! Plain arrays made by encoders.

ghost use Rattle.std.specs.Prelude.{◌≡◌, IsTrue, Ok, length, map};
ghost use Rattle.fl_types.specs.Refusals.{Answers};
ghost use Rattle.fl_types.specs.Validities.{covers};
ghost use Rattle.fl_codec.specs.Parts.{non_nullable, under_validity_of};

use fl_column::PrimitiveArray;
use fl_types::{FastLanesError, NativePType, Validity};
use std::alloc::Global;

/// These stored integers under the validity of an array of as many.
pub(crate) fn under_validity_of<T: NativePType>(
    alloc: Global,
    array: &PrimitiveArray,
    slots: Vec<T>,
) -> Result<PrimitiveArray, FastLanesError>
    requires { length slots.items ≡ length array.now.slots }
    ensures { Answers (λ a. a) result (Ok (under_validity_of array.now T.PTYPE (map T.value slots.items))) }
{
    under_validity(alloc, array.validity(), slots)
}

/// These stored integers, as a non-nullable array.
pub(crate) fn non_nullable<T: NativePType>(slots: Vec<T>) -> PrimitiveArray
    ensures { result ≡ non_nullable T.PTYPE (map T.value slots.items) }
{
    PrimitiveArray::new(slots, Validity::NonNullable).unwrap()
}

/// These stored integers under a validity that has a bit for each.
pub(crate) fn under_validity<T: NativePType>(
    alloc: Global,
    validity: &Validity,
    slots: Vec<T>,
) -> Result<PrimitiveArray, FastLanesError>
    requires { IsTrue (covers validity.now (length slots.items)) }
    ensures { Answers (λ a. a) result (Ok (record { ptype = T.PTYPE; slots = map T.value slots.items; validity = validity.now })) }
{
    let validity = validity.try_clone(alloc)?;
    Ok(with_validity(slots, validity))
}

/// These stored integers under a validity of their own, which has a bit for each.
pub(crate) fn with_validity<T: NativePType>(slots: Vec<T>, validity: Validity) -> PrimitiveArray
    requires { IsTrue (covers validity (length slots.items)) }
    ensures { result ≡ record { ptype = T.PTYPE; slots = map T.value slots.items; validity = validity } }
{
    PrimitiveArray::new(slots, validity).unwrap()
}
