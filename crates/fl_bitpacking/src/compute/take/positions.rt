//! The positions that indices name.

ghost use Rattle.std.specs.Prelude.{◌≡◌, ◌+◌, ◌<◌, IfErr, IsTrue, OnOk, Some, SomeIff, length, map, unsigned_abs};
ghost use Rattle.fl_types.specs.Refusals.{Answers, Refuses};
ghost use Rattle.fl_types.specs.Validities.{covers, items_of};
ghost use Rattle.fl_column.specs.Columns.{column_of_primitive};
ghost use Rattle.fl_column.specs.Operations.{is_in_range};
ghost use Rattle.fl_bitpacking.specs.Taken.{AreNamed, named_positions_in};

use fl_column::PrimitiveArray;
use fl_types::{FastLanesError, NativePType, Validity, match_each_integer_ptype};
use std::alloc::Global;

/// The position that an index names among `len` items, if it names one.
fn position_of<I: NativePType>(index: I, len: usize) -> Option<usize>
    ensures { SomeIff result (IsTrue (is_in_range len (Some (I.value index)))) (unsigned_abs (I.value index)) }
{
    let index = index.as_i128();
    if 0 <= index && index < len as i128 {
        Some(index as usize)
    } else {
        None
    }
}

/// Appends the position that an index names, if it is not null.
#[tactic(auto, using(crate::proofs::TakenLaws::position_skipped, crate::proofs::TakenLaws::position_added, crate::proofs::TakenLaws::position_refused))]
fn push_position<I: NativePType>(
    positions: &mut Vec<usize>,
    slots: &[I],
    validity: &Validity,
    k: usize,
    len: usize,
) -> Result<(), FastLanesError>
    requires covers { IsTrue (covers validity.now (length slots.now)) }
    requires range { k < length slots.now }
    requires so_far { AreNamed len (items_of validity.now (map I.value slots.now)) k positions.old.items }
    ensures more { OnOk result (AreNamed len (items_of validity.now (map I.value slots.now)) (k + 1) positions.new.items) }
    ensures refused { IfErr result (λ e. Refuses e (named_positions_in len (items_of validity.now (map I.value slots.now)))) }
{
    if !validity.is_valid(k, slots.len()) {
        return Ok(());
    }
    let Some(position) = position_of(slots[k], len) else {
        return Err(FastLanesError::IndexOutOfBounds);
    };
    positions.push(position)?;
    Ok(())
}

fn positions_typed<I: NativePType>(
    indices: &PrimitiveArray,
    alloc: Global,
    len: usize,
) -> Result<Vec<usize>, FastLanesError>
    requires { indices.now.ptype ≡ I.PTYPE }
    ensures { Answers (λ v. v.items) result (named_positions_in len (column_of_primitive indices.now).items) }
{
    let (slots, validity) = (indices.as_slice::<I>(), indices.validity());
    let mut positions = Vec::with_capacity(alloc, slots.len())?;
    for k in 0..slots.len() {
        push_position(&mut positions, slots, validity, k, len)?;
    }
    Ok(positions)
}

/// The positions that those indices name among `len` items that are not null. The integer under a null
/// index is not read.
///
/// # Errors
/// `IndexOutOfBounds` where an index is negative or not below `len`.
pub(crate) fn named_positions(
    alloc: Global,
    indices: &PrimitiveArray,
    len: usize,
) -> Result<Vec<usize>, FastLanesError>
    ensures { Answers (λ v. v.items) result (named_positions_in len (column_of_primitive indices.now).items) }
{
    match_each_integer_ptype!(indices.ptype(), positions_typed(indices, alloc, len))
}
