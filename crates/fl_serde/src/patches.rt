//! Patches of the arrays that are read for them.

ghost use Rattle.std.specs.Prelude.{◌≡◌, IsTrue, Ok, option_map, pos, take, unsigned_abs, unwrap_or};
ghost use Rattle.std.specs.Option.{option_copied};
ghost use Rattle.fl_types.specs.Refusals.{Answers};
ghost use Rattle.fl_types.specs.Types.{is_integer};
ghost use Rattle.fl_types.specs.Values.{scalar_parts};
ghost use Rattle.fl_column.specs.Columns.{numbers_of};
ghost use Rattle.fl_patches.specs.PatchMaps.{is_rising};
ghost use Rattle.fl_array.specs.Trees.{column};
ghost use Rattle.fl_serde.specs.EarlyRefusals.{are_integers, early_refusal, have_index_types, have_patch_lengths};
ghost use Rattle.fl_serde.specs.Reading.{chunk_offsets_in, decoded_offsets, patches_found, patches_over, plain_patches};

use crate::plain::decoded;
use crate::reading::first_of;
use fl_array::ArrayRef;
use fl_column::{FastLanesError, PType, PrimitiveArray, Scalar, chunk_count};
use fl_metadata::PatchesMetadata;
use fl_patches::Patches;
use std::alloc::Global;

/// Whether indices, values and chunk offsets are integers.
fn are_integers(indices: &ArrayRef, values: &ArrayRef, offsets: Option<&ArrayRef>) -> bool
    ensures { result ≡ are_integers (column indices.now) (column values.now) (option_map column (option_copied offsets.entry)) }
{
    indices.dtype().ptype().is_some()
        && values.dtype().ptype().is_some()
        && match offsets {
            Some(offsets) => offsets.dtype().ptype().is_some(),
            None => true,
        }
}

/// Whether the types of indices and chunk offsets are those of positions.
fn have_index_types(indices: &ArrayRef, offsets: Option<&ArrayRef>) -> bool
    ensures { result ≡ have_index_types (column indices.now) (option_map column (option_copied offsets.entry)) }
{
    indices.dtype().is_index_type()
        && match offsets {
            Some(offsets) => offsets.dtype().is_index_type(),
            None => true,
        }
}

/// Whether there is a patch, a value for each index, and a chunk offset for each chunk.
fn have_patch_lengths(
    len: usize,
    indices: &ArrayRef,
    values: &ArrayRef,
    offsets: Option<&ArrayRef>,
) -> bool
    ensures { result ≡ have_patch_lengths len (column indices.now) (column values.now) (option_map column (option_copied offsets.entry)) }
{
    indices.len() == values.len()
        && indices.len() > 0
        && match offsets {
            Some(offsets) => offsets.len() == chunk_count(len),
            None => true,
        }
}

/// The number of an item without a sign, 0 of a null.
fn number_of(item: Scalar) -> u128
    requires { IsTrue (is_integer (scalar_parts item).dtype) }
    ensures { result ≡ unsigned_abs (unwrap_or (scalar_parts item).value (pos 0)) }
{
    match item.as_pvalue() {
        Some(value) => value.as_i128().unsigned_abs(),
        None => 0,
    }
}

/// Whether the first index is below the second, where there are two.
#[tactic(auto, using(crate::proofs::EarlyLaws::rising_short, crate::proofs::EarlyLaws::rising_pair))]
fn begins_rising(alloc: Global, indices: &ArrayRef) -> Result<bool, FastLanesError>
    requires { IsTrue (is_integer (column indices.now).dtype) }
    ensures { Answers (λ rising. rising) result (Ok (is_rising (take 2 (numbers_of (column indices.now))))) }
{
    if indices.len() < 2 {
        return Ok(true);
    }
    let first = indices.scalar_at(alloc, 0)?;
    let second = indices.scalar_at(alloc, 1)?;
    Ok(number_of(first) < number_of(second))
}

/// Why arrays are no patches of so many items, as far as it shows before they are decoded. So an array of one
/// index, repeated as often as its node says, isn't written out before it is refused.
fn early_refusal(
    alloc: Global,
    len: usize,
    indices: &ArrayRef,
    values: &ArrayRef,
    offsets: Option<&ArrayRef>,
) -> Result<Option<FastLanesError>, FastLanesError>
    ensures { Answers (λ refusal. refusal) result (Ok (early_refusal len (column indices.now) (column values.now) (option_map column (option_copied offsets.entry)))) }
{
    if !are_integers(indices, values, offsets) {
        return Ok(Some(FastLanesError::NotInteger));
    }
    if !have_index_types(indices, offsets) {
        return Ok(Some(FastLanesError::PatchType));
    }
    if !have_patch_lengths(len, indices, values, offsets) {
        return Ok(Some(FastLanesError::PatchLength));
    }
    if !begins_rising(alloc, indices)? {
        return Ok(Some(FastLanesError::PatchContent));
    }
    Ok(None)
}

/// The array of chunk offsets, which is the first one, where patches have them.
fn chunk_offsets_in(
    ptype: Option<PType>,
    mut others: Vec<ArrayRef>,
) -> Result<Option<ArrayRef>, FastLanesError>
    ensures { Answers (λ a. a) result (chunk_offsets_in ptype others.items) }
{
    if ptype.is_none() {
        return Ok(None);
    }
    match first_of(&mut others) {
        None => Err(FastLanesError::ChildCount),
        Some(offsets) => Ok(Some(offsets)),
    }
}

/// Chunk offsets, held plain.
fn decoded_offsets(
    alloc: Global,
    offsets: Option<ArrayRef>,
) -> Result<Option<PrimitiveArray>, FastLanesError>
    ensures { Answers (λ o. o) result (decoded_offsets offsets) }
{
    match offsets {
        None => Ok(None),
        Some(offsets) => {
            let offsets = decoded(alloc, offsets)?;
            Ok(Some(offsets))
        }
    }
}

/// The patches of these arrays, held plain.
fn decoded_patches(
    alloc: Global,
    len: usize,
    offset: usize,
    indices: ArrayRef,
    values: ArrayRef,
    offsets: Option<ArrayRef>,
) -> Result<Patches, FastLanesError>
    ensures { Answers (λ p. p) result (plain_patches len offset indices values offsets) }
{
    let indices = decoded(alloc, indices)?;
    let values = decoded(alloc, values)?;
    let offsets = decoded_offsets(alloc, offsets)?;
    Patches::new(len, offset, indices, values, offsets)
}

/// The patches of these arrays, held plain; what shows before they are decoded is judged before.
#[tactic(auto, using(crate::proofs::EarlyLaws::early_answers))]
fn plain_patches(
    alloc: Global,
    len: usize,
    offset: usize,
    indices: ArrayRef,
    values: ArrayRef,
    offsets: Option<ArrayRef>,
) -> Result<Patches, FastLanesError>
    ensures { Answers (λ p. p) result (plain_patches len offset indices values offsets) }
{
    match early_refusal(alloc, len, &indices, &values, offsets.as_ref())? {
        Some(refusal) => Err(refusal),
        None => decoded_patches(alloc, len, offset, indices, values, offsets),
    }
}

/// The patches of a message over the arrays of its children, held plain.
fn patches_over(
    alloc: Global,
    len: usize,
    metadata: &PatchesMetadata,
    mut trees: Vec<ArrayRef>,
) -> Result<Patches, FastLanesError>
    ensures { Answers (λ p. p) result (patches_over len metadata.now trees.items) }
{
    let (Some(indices), Some(values)) = (first_of(&mut trees), first_of(&mut trees)) else {
        return Err(FastLanesError::ChildCount);
    };
    let offsets = chunk_offsets_in(metadata.chunk_offsets, trees)?;
    plain_patches(
        alloc,
        len,
        metadata.offset as usize,
        indices,
        values,
        offsets,
    )
}

/// The patches of a node over the arrays of its children, where its message names some. Children that are held
/// plain become the patches' own.
pub fn patches_found(
    alloc: Global,
    len: usize,
    metadata: &Option<PatchesMetadata>,
    trees: Vec<ArrayRef>,
) -> Result<Option<Patches>, FastLanesError>
    ensures { Answers (λ p. p) result (patches_found len metadata.now trees.items) }
{
    match metadata {
        None => Ok(None),
        Some(metadata) => {
            let patches = patches_over(alloc, len, metadata, trees)?;
            Ok(Some(patches))
        }
    }
}
