//! Casts of arrays. Where the integer type stays, a bit-packed array of one width is cast in place, and so is a delta
//! array unless only the source's type has nulls; a FoR array is cast over its encoded array's cast. A run-length encoded
//! array is cast over the casts of its run values and run indices, where all that are stored have one. Everything else
//! is cast block by block.

ghost use Rattle.std.specs.Prelude.{◌≡◌, ◌&&◌, is_none, not, true, IfOk, IsTrue, Ok};
ghost use Rattle.std.specs.List.{list_any};
ghost use Rattle.fl_types.specs.declared.error.FastLanesError.TheVariants.{OutOfMemory};
ghost use Rattle.fl_types.specs.Refusals.{Answers};
ghost use Rattle.fl_types.specs.Types.{can_be_null, has_ptype, is_integer, same_type};
ghost use Rattle.fl_types.specs.Values.{scalar_parts};
ghost use Rattle.fl_column.specs.Operations.{cast_column};
ghost use Rattle.fl_array.specs.BitPackedArrays.{GlobalWidth, tree_of_bitpacked};
ghost use Rattle.fl_array.specs.DeltaArrays.{tree_of_delta};
ghost use Rattle.fl_array.specs.DeltaCasts.{drops_nullability};
ghost use Rattle.fl_array.specs.FoRArrays.{ChunkReferences, GlobalReference, offset_of_references, tree_of_for};
ghost use Rattle.fl_array.specs.Ranges.{items_fit};
ghost use Rattle.fl_array.specs.RLEArrays.{tree_of_rle};
ghost use Rattle.fl_array.specs.Trees.{Tree, column};
ghost use Rattle.fl_ops.specs.CastForms.{IsCastForm};
ghost use Rattle.fl_ops.specs.Normalized.{SameShown};
ghost use Rattle.fl_ops.specs.Results.{cast_to, indices_target, plain_cast, values_target};

use crate::plain_ops;
use fl_array::bitpacking::{BitPackedArray, BitWidthsView};
use fl_array::delta::DeltaArray;
use fl_array::for_::{FoRArray, FoRReferences};
use fl_array::laws::{
    bitpacked_items_are_in_range, delta_is_well_formed, delta_items_are_in_range,
    items_are_in_range, rle_is_well_formed,
};
use fl_array::rle::RLEArray;
use fl_array::{ArrayRef, IntoArray};
use fl_column::{DType, FastLanesError, Nullability, Scalar};
use std::alloc::Global;

/// The way in which an array is cast.
#[derive(Clone, Copy)]
enum CastForm<'a> {
    /// The packed bytes of this width stay.
    Packed(&'a BitPackedArray, u8),
    /// The encoded array is cast below the one reference.
    OverEncoded(&'a FoRArray, Scalar),
    /// The encoded array is cast below the references of the chunks.
    OverChunked(&'a FoRArray, &'a ArrayRef),
    /// The bases and the deltas stay.
    Deltas(&'a DeltaArray),
    /// The run values and the run indices are cast, where all have a cast.
    Runs(&'a RLEArray),
    /// The items are cast block by block.
    Decoded,
}

/// Whether two types are of the same integers, or both of booleans.
fn same_type(dtype: DType, other: DType) -> bool
    ensures { result ≡ same_type dtype other }
{
    match (dtype, other) {
        (DType::Primitive(ptype, _), DType::Primitive(other, _)) => ptype == other,
        (DType::Bool(_), DType::Bool(_)) => true,
        _ => false,
    }
}

/// Whether nulls may stand in the source and not in the target.
fn drops_nullability(source: DType, target: DType) -> bool
    ensures { result ≡ drops_nullability source target }
{
    match (source.nullability(), target.nullability()) {
        (Nullability::Nullable, Nullability::NonNullable) => true,
        _ => false,
    }
}

/// The way of a bit-packed array.
fn packed_form(array: &BitPackedArray, target: DType) -> CastForm<'_>
    ensures { IsCastForm result (tree_of_bitpacked array.now) target }
{
    match array.bit_widths() {
        BitWidthsView::Global(width) => {
            if same_type(array.packed_data().dtype(), target) {
                CastForm::Packed(array, width)
            } else {
                CastForm::Decoded
            }
        }
        BitWidthsView::Blocked(_) => CastForm::Decoded,
    }
}

/// The way of a FoR array.
fn for_form(array: &FoRArray, target: DType) -> CastForm<'_>
    ensures { IsCastForm result (tree_of_for array.now) target }
{
    let same = same_type(array.encoded().dtype(), target);
    match array.references() {
        FoRReferences::Global(reference) => {
            if same {
                CastForm::OverEncoded(array, *reference)
            } else {
                CastForm::Decoded
            }
        }
        FoRReferences::Blocked(references) => {
            if same {
                CastForm::OverChunked(array, references)
            } else {
                CastForm::Decoded
            }
        }
    }
}

/// The way of a delta array whose column has this type.
fn delta_form(array: &DeltaArray, dtype: DType, target: DType) -> CastForm<'_>
    requires { dtype ≡ (column (tree_of_delta array.now)).dtype }
    ensures { IsCastForm result (tree_of_delta array.now) target }
{
    if same_type(array.bases().dtype(), target) && !drops_nullability(dtype, target) {
        CastForm::Deltas(array)
    } else {
        CastForm::Decoded
    }
}

/// The way of an array.
fn cast_form(array: &ArrayRef, target: DType) -> CastForm<'_>
    ensures { IsCastForm result array.now target }
{
    if let Some(packed) = array.as_bitpacked() {
        return packed_form(packed, target);
    }
    if let Some(encoded) = array.as_for() {
        return for_form(encoded, target);
    }
    if let Some(deltas) = array.as_delta() {
        return delta_form(deltas, array.dtype(), target);
    }
    match array.as_rle() {
        Some(runs) => CastForm::Runs(runs),
        None => CastForm::Decoded,
    }
}

/// The cast of the items, block by block.
#[tactic(auto, using(crate::proofs::CastedTrees::cast_shown))]
fn cast_decoded(alloc: Global, array: &ArrayRef, target: DType) -> Result<ArrayRef, FastLanesError>
    ensures column { Answers column result (cast_column target (column array.now)) }
    ensures tree { IfOk result (λ a. SameShown a (plain_cast target (column array.now))) }
{
    let cast = plain_ops::cast(alloc, array, target)?;
    Ok(cast.simplify_validity().into_array())
}

/// Whether an item is null where none may be.
fn has_null_against(array: &BitPackedArray, nullability: Nullability) -> bool
    ensures { result ≡ (not (can_be_null nullability) && list_any is_none (column (tree_of_bitpacked array.now)).items) }
{
    match nullability {
        Nullability::NonNullable => array.has_null(),
        Nullability::Nullable => false,
    }
}

/// The cast in place of a bit-packed array whose blocks all have this width.
#[tactic(auto, using(crate::proofs::CastedTrees::null_kept, crate::proofs::CastedTrees::packed_cast_dropped))]
fn cast_packed(
    alloc: Global,
    array: &BitPackedArray,
    width: u8,
    target: DType,
) -> Result<ArrayRef, FastLanesError>
    requires same { GlobalWidth width ≡ array.now.widths }
    requires typed { has_ptype array.now.parts.ptype target ≡ true }
    ensures column { Answers column result (cast_column target (column (tree_of_bitpacked array.now))) }
    ensures tree { IfOk result (λ a. a ≡ cast_to target (tree_of_bitpacked array.now)) }
{
    bitpacked_items_are_in_range(array);
    let nullability = target.nullability();
    let refused = has_null_against(array, nullability);
    if refused {
        return Err(FastLanesError::CastNull);
    }
    let cast = array.cast_in_place(alloc, width, nullability)?;
    Ok(cast.into_array())
}

/// The cast in place of a delta array, in which no more nulls may stand than in the target.
fn cast_deltas(alloc: Global, array: &DeltaArray, target: DType) -> Result<ArrayRef, FastLanesError>
    requires { (same_type (column array.now.bases).dtype target && not (drops_nullability (column (tree_of_delta array.now)).dtype target)) ≡ true }
    ensures column { Answers column result (cast_column target (column (tree_of_delta array.now))) }
    ensures tree { IfOk result (λ a. a ≡ cast_to target (tree_of_delta array.now)) }
{
    delta_is_well_formed(array);
    delta_items_are_in_range(array);
    let cast = array.cast_in_place(alloc, target.nullability())?;
    Ok(cast.into_array())
}

/// The reference over the encoded array's cast.
fn cast_over(
    alloc: Global,
    array: &FoRArray,
    part: ArrayRef,
    reference: Scalar,
    target: DType,
) -> Result<ArrayRef, FastLanesError>
    requires same { GlobalReference (scalar_parts reference) ≡ array.now.references }
    requires typed { same_type (column array.now.encoded).dtype target ≡ true }
    requires fit { IsTrue (items_fit (column array.now.encoded)) }
    requires part { cast_column target (column array.now.encoded) ≡ Ok (column part) }
    requires shown { SameShown part (cast_to target array.now.encoded) }
    ensures column { Answers column result (cast_column target (column (tree_of_for array.now))) }
    ensures tree { IfOk result (λ a. SameShown a (cast_to target (tree_of_for array.now))) }
{
    Ok(array.over(alloc, part, reference)?.into_array())
}

/// The references of the chunks over the encoded array's cast.
fn cast_over_chunked(
    alloc: Global,
    array: &FoRArray,
    part: ArrayRef,
    references: &ArrayRef,
    target: DType,
) -> Result<ArrayRef, FastLanesError>
    requires same { ChunkReferences references.now (offset_of_references array.now.references) ≡ array.now.references }
    requires typed { same_type (column array.now.encoded).dtype target ≡ true }
    requires fit { IsTrue (items_fit (column array.now.encoded)) }
    requires part { cast_column target (column array.now.encoded) ≡ Ok (column part) }
    requires shown { SameShown part (cast_to target array.now.encoded) }
    ensures column { Answers column result (cast_column target (column (tree_of_for array.now))) }
    ensures tree { IfOk result (λ a. SameShown a (cast_to target (tree_of_for array.now))) }
{
    Ok(array.over_chunked(alloc, part, references)?.into_array())
}

/// The type of the run indices in a cast: nulls may stand in them where they may in the target.
#[tactic(auto, using(crate::proofs::CastedTrees::index_integer))]
fn index_type(array: &RLEArray, target: DType) -> DType
    ensures typed { result ≡ indices_target target array.now.indices }
    ensures integer { IsTrue (is_integer result) }
{
    rle_is_well_formed(array);
    array
        .indices()
        .dtype()
        .with_nullability(target.nullability())
}

/// The run offsets over the casts of the run values and of the run indices.
fn cast_over_runs(
    alloc: Global,
    array: &RLEArray,
    values: ArrayRef,
    indices: ArrayRef,
    target: DType,
) -> Result<ArrayRef, FastLanesError>
    requires integer { IsTrue (is_integer target) }
    requires values { cast_column (values_target target) (column array.now.values) ≡ Ok (column values) }
    requires values_shown { SameShown values (cast_to (values_target target) array.now.values) }
    requires indices { cast_column (indices_target target array.now.indices) (column array.now.indices) ≡ Ok (column indices) }
    requires indices_shown { SameShown indices (cast_to (indices_target target array.now.indices) array.now.indices) }
    ensures column { Answers column result (cast_column target (column (tree_of_rle array.now))) }
    ensures tree { IfOk result (λ a. SameShown a (cast_to target (tree_of_rle array.now))) }
{
    rle_is_well_formed(array);
    Ok(array.over(alloc, values, indices)?.into_array())
}

/// The cast of a run-length encoded array of which run values or run indices have none.
fn cast_without_parts(
    alloc: Global,
    array: &ArrayRef,
    refusal: FastLanesError,
    target: DType,
) -> Result<ArrayRef, FastLanesError>
    requires { (refusal ≡ OutOfMemory → ⊥) → cast_to target array.now ≡ plain_cast target (column array.now) }
    ensures column { Answers column result (cast_column target (column array.now)) }
    ensures tree { IfOk result (λ a. SameShown a (cast_to target array.now)) }
{
    match refusal {
        FastLanesError::OutOfMemory => Err(FastLanesError::OutOfMemory),
        _ => cast_decoded(alloc, array, target),
    }
}

/// The same integers in an integer type.
pub(crate) fn cast_to_integers(
    alloc: Global,
    array: &ArrayRef,
    target: DType,
) -> Result<ArrayRef, FastLanesError>
    requires { IsTrue (is_integer target) }
    ensures column { Answers column result (cast_column target (column array.now)) }
    ensures tree { IfOk result (λ a. SameShown a (cast_to target array.now)) }
{
    match cast_form(array, target) {
        CastForm::Packed(packed, width) => cast_packed(alloc, packed, width, target),
        CastForm::OverEncoded(encoded, reference) => {
            let child = encoded.encoded();
            items_are_in_range(child);
            let part = cast_to_integers(alloc, child, target)?;
            cast_over(alloc, encoded, part, reference, target)
        }
        CastForm::OverChunked(encoded, references) => {
            let child = encoded.encoded();
            items_are_in_range(child);
            let part = cast_to_integers(alloc, child, target)?;
            cast_over_chunked(alloc, encoded, part, references, target)
        }
        CastForm::Deltas(deltas) => cast_deltas(alloc, deltas, target),
        CastForm::Runs(runs) => {
            let value_type = target.with_nullability(Nullability::NonNullable);
            let values = match cast_to_integers(alloc, runs.values(), value_type) {
                Ok(values) => values,
                Err(refusal) => return cast_without_parts(alloc, array, refusal, target),
            };
            let index_type = index_type(runs, target);
            let indices = match cast_to_integers(alloc, runs.indices(), index_type) {
                Ok(indices) => indices,
                Err(refusal) => return cast_without_parts(alloc, array, refusal, target),
            };
            cast_over_runs(alloc, runs, values, indices, target)
        }
        CastForm::Decoded => cast_decoded(alloc, array, target),
    }
}

/// The same integers in another type.
pub(crate) fn cast(
    alloc: Global,
    array: &ArrayRef,
    target: DType,
) -> Result<ArrayRef, FastLanesError>
    ensures column { Answers column result (cast_column target (column array.now)) }
    ensures tree { IfOk result (λ a. SameShown a (cast_to target array.now)) }
{
    match target {
        DType::Primitive(_, _) => cast_to_integers(alloc, array, target),
        DType::Bool(_) => Err(FastLanesError::NotInteger),
    }
}
