//! Patches of selected items, found one by one.

ghost use Rattle.std.specs.Prelude.{◌≡◌, ◌<◌, ◌^◌, ◌++◌, ◌∷◌, [], ℕ, true, pos, List, Option, IfOk, IfErr, IsTrue, OnOk, Ok, length, map, nat_lt, slice_index_or};
ghost use Rattle.std.specs.List.{list_all};
ghost use Rattle.fl_types.specs.Refusals.{Answers};
ghost use Rattle.fl_types.specs.Validities.{full_validity, nullability_of};
ghost use Rattle.fl_types.specs.declared.error.FastLanesError.TheVariants.{OutOfMemory};
ghost use Rattle.fl_patches.specs.PatchMaps.{AreFound, AreOrdered, patches_at};

use crate::patches::Patches;
use fl_column::{PrimitiveArray, index_array};
use fl_types::{FastLanesError, NativePType, match_each_integer_ptype};
use std::alloc::Global;

/// The patches of selected items, found one by one: the places of the items that have one, and for
/// each the rank of its patch among those that it comes from.
#[derive(Drop)]
pub(crate) struct PatchesBuilder {
    places: Vec<u64>,
    ranks: Vec<usize>,
}

impl PatchesBuilder {
    /// None yet.
    pub(crate) fn new(alloc: Global) -> PatchesBuilder
        ensures { AreFound result.places.items result.ranks.items [] }
    {
        PatchesBuilder {
            places: Vec::new(alloc),
            ranks: Vec::new(alloc),
        }
    }

    /// Adds the item at a place, which has the patch of this rank or none.
    pub(crate) fn push(&mut self, place: usize, rank: Option<usize>) -> Result<(), FastLanesError>
        ensures found { OnOk result ((items : List (Option ℕ)) → length items ≡ place → AreFound self.old.places.items self.old.ranks.items items → AreFound self.new.places.items self.new.ranks.items (items ++ rank ∷ [])) }
        ensures memory { IfErr result (λ e. e ≡ OutOfMemory) }
    {
        if let Some(rank) = rank {
            self.places.push(place as u64)?;
            self.ranks.push(rank)?;
        }
        Ok(())
    }

    /// Patches at these places among `len` items, with the values of these ranks, or `None` where
    /// there is none.
    pub(crate) fn finish(
        self,
        alloc: Global,
        values: &PrimitiveArray,
        len: usize,
    ) -> Result<Option<Patches>, FastLanesError>
        requires { AreOrdered self.places.items self.ranks.items len (length values.now.slots) }
        ensures { Answers (λ o. o) result (Ok (patches_at len values.now.ptype (nullability_of values.now.validity) self.places.items (map (λ rank. slice_index_or values.now.slots rank (pos 0)) self.ranks.items))) }
    {
        let PatchesBuilder { places, ranks } = self;
        if places.len() == 0 {
            return Ok(None);
        }
        let values = values_at(alloc, values, &ranks)?;
        let indices = index_array(alloc, places, len)?;
        Ok(Some(Patches::new_unchecked(len, 0, indices, values, None)))
    }
}

fn values_at_typed<T: NativePType>(
    values: &PrimitiveArray,
    alloc: Global,
    ranks: &[usize],
) -> Result<PrimitiveArray, FastLanesError>
    requires same { values.now.ptype ≡ T.PTYPE }
    requires ranked { IsTrue (list_all (λ rank. nat_lt rank (length values.now.slots)) ranks.now) }
    ensures { Answers (λ a. a) result (Ok (record { ptype = values.now.ptype; slots = map (λ rank. slice_index_or values.now.slots rank (pos 0)) ranks.now; validity = full_validity (nullability_of values.now.validity) })) }
{
    let slots = values.as_slice::<T>();
    let mut picked = Vec::with_capacity(alloc, ranks.len())?;
    for rank in ranks {
        picked.push(slots[*rank])?;
    }
    Ok(PrimitiveArray::without_nulls(picked, values.nullability()))
}

/// The values of these ranks, which are not null.
fn values_at(
    alloc: Global,
    values: &PrimitiveArray,
    ranks: &[usize],
) -> Result<PrimitiveArray, FastLanesError>
    requires { IsTrue (list_all (λ rank. nat_lt rank (length values.now.slots)) ranks.now) }
    ensures { Answers (λ a. a) result (Ok (record { ptype = values.now.ptype; slots = map (λ rank. slice_index_or values.now.slots rank (pos 0)) ranks.now; validity = full_validity (nullability_of values.now.validity) })) }
{
    match_each_integer_ptype!(values.ptype(), values_at_typed(values, alloc, ranks))
}
