//! Packed columns of the same integers, as a nullable or non-nullable column.

ghost use Rattle.std.specs.Prelude.{◌≡◌, IsTrue, Ok, length, option_map};
ghost use Rattle.std.specs.Option.{option_copied};
ghost use Rattle.fl_types.specs.Refusals.{Answers};
ghost use Rattle.fl_types.specs.Validities.{covers};
ghost use Rattle.fl_column.specs.Selections.{any_null};
ghost use Rattle.fl_bitpacking.specs.Casts.{cast_packed, cast_patches, cast_primitive, cast_validity};

use crate::laws::parts_are_consistent;
use crate::packed_data::PackedData;
use fl_column::{NativePType, PrimitiveArray};
use fl_patches::Patches;
use fl_types::{FastLanesError, Nullability, Validity, match_each_integer_ptype};
use std::alloc::Global;

/// The validity of the same items as a nullable or non-nullable column.
pub fn cast_validity(
    validity: &Validity,
    alloc: Global,
    nullability: Nullability,
) -> Result<Validity, FastLanesError>
    ensures { Answers (λ v. v) result (Ok (cast_validity nullability validity.now)) }
{
    match nullability {
        Nullability::NonNullable => Ok(Validity::NonNullable),
        Nullability::Nullable => match validity {
            Validity::NonNullable => Ok(Validity::AllValid),
            _ => validity.try_clone(alloc),
        },
    }
}

fn cast_typed<T: NativePType>(
    values: &PrimitiveArray,
    alloc: Global,
    nullability: Nullability,
) -> Result<PrimitiveArray, FastLanesError>
    requires { values.now.ptype ≡ T.PTYPE }
    ensures { Answers (λ p. p) result (Ok (cast_primitive nullability values.now)) }
{
    let validity = cast_validity(values.validity(), alloc, nullability)?;
    let items = Vec::from_slice(alloc, values.as_slice::<T>())?;
    Ok(PrimitiveArray::new_unchecked(items, validity))
}

/// The same stored integers as a nullable or non-nullable column.
fn cast_primitive(
    values: &PrimitiveArray,
    alloc: Global,
    nullability: Nullability,
) -> Result<PrimitiveArray, FastLanesError>
    ensures { Answers (λ p. p) result (Ok (cast_primitive nullability values.now)) }
{
    match_each_integer_ptype!(values.ptype(), cast_typed(values, alloc, nullability))
}

/// A copy of chunk offsets, if there are any.
fn clone_chunk_offsets(
    patches: &Patches,
    alloc: Global,
) -> Result<Option<PrimitiveArray>, FastLanesError>
    ensures { Answers (λ o. o) result (Ok patches.now.chunk_offsets) }
{
    match patches.chunk_offsets() {
        Some(offsets) => Ok(Some(offsets.try_clone(alloc)?)),
        None => Ok(None),
    }
}

/// Patches of the same values, of a nullable or non-nullable column.
fn cast_some_patches(
    patches: &Patches,
    alloc: Global,
    nullability: Nullability,
) -> Result<Patches, FastLanesError>
    ensures { Answers (λ p. p) result (Ok (cast_patches nullability patches.now)) }
{
    let indices = patches.indices().try_clone(alloc)?;
    let values = cast_primitive(patches.values(), alloc, nullability)?;
    let chunk_offsets = clone_chunk_offsets(patches, alloc)?;
    let (array_len, offset) = (patches.array_len(), patches.offset());
    Ok(Patches::new_unchecked(array_len, offset, indices, values, chunk_offsets))
}

/// The same where there may be no patches.
fn cast_patches(
    patches: Option<&Patches>,
    alloc: Global,
    nullability: Nullability,
) -> Result<Option<Patches>, FastLanesError>
    ensures { Answers (λ p. p) result (Ok (option_map (cast_patches nullability) (option_copied patches.entry))) }
{
    match patches {
        Some(patches) => Ok(Some(cast_some_patches(patches, alloc, nullability)?)),
        None => Ok(None),
    }
}

impl PackedData {
    /// Whether an item is null.
    pub fn has_null(&self) -> bool
        ensures { result ≡ any_null self.now.validity self.now.len }
    {
        match self.validity() {
            Validity::NonNullable => false,
            Validity::AllValid => false,
            Validity::AllInvalid => self.len() > 0,
            Validity::Array(bits) => bits.count_true() < self.len(),
        }
    }

    /// The same packed bytes, shared, as a nullable or non-nullable column.
    ///
    /// # Errors
    /// Only `OutOfMemory`.
    pub fn cast_in_place(
        &self,
        alloc: Global,
        nullability: Nullability,
    ) -> Result<PackedData, FastLanesError>
        ensures { Answers (λ d. d) result (Ok (cast_packed nullability self.now)) }
    {
        parts_are_consistent(self);
        let packed = self.packed().clone()?;
        let validity = cast_validity(self.validity(), alloc, nullability)?;
        let patches = cast_patches(self.patches(), alloc, nullability)?;
        let (ptype, offset, len) = (self.ptype(), self.offset(), self.len());
        Ok(PackedData::new(packed, ptype, validity, patches, offset, len))
    }
}
