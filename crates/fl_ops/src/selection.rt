//! Operations that select items of an array: takes, takes of ranges and filters. Those of a FoR array of one
//! reference work on the encoded array.

ghost use Rattle.std.specs.Prelude.{◌≡◌, false, IfNone, IfOk, IfSome, Ok, length};
ghost use Rattle.fl_types.specs.Refusals.{Answers};
ghost use Rattle.fl_types.specs.Values.{scalar_parts};
ghost use Rattle.fl_column.specs.Columns.{column_of_primitive};
ghost use Rattle.fl_array.specs.FoRArrays.{GlobalReference, tree_of_for};
ghost use Rattle.fl_array.specs.Trees.{FoRGlobal, Primitive, column};
ghost use Rattle.fl_ops.specs.Normalized.{SameShown, plain_of};
ghost use Rattle.fl_ops.specs.Results.{picked};
ghost use Rattle.fl_ops.specs.Selections.{IsOfLength, choice_of, is_global_for, selected_column};

use crate::plain_ops;
use fl_array::for_::{FoRArray, FoRReferences};
use fl_array::{ArrayRef, IntoArray};
use fl_column::{FastLanesError, Mask, PrimitiveArray, Scalar};
use std::alloc::Global;

/// What is picked of an array.
#[derive(Clone, Copy)]
pub(crate) enum Selection<'a> {
    /// The items that indices name, null where an index is null.
    Indices(&'a ArrayRef),
    /// The items of ranges, each a start and a length, one range after another.
    Ranges(&'a [(usize, usize)]),
    /// The items whose bit of a mask is true.
    Mask(&'a Mask),
}

/// The FoR array and its reference, where the array is one of one reference.
pub(crate) fn as_global_for(array: &ArrayRef) -> Option<(&FoRArray, Scalar)>
    ensures some { IfSome result (λ f. (GlobalReference (scalar_parts f.1) ≡ f.0.now.references) × (tree_of_for f.0.now ≡ array.now)) }
    ensures none { IfNone result (is_global_for array.now ≡ false) }
{
    let Some(encoded) = array.as_for() else {
        return None;
    };
    match encoded.references() {
        FoRReferences::Global(reference) => Some((encoded, *reference)),
        FoRReferences::Blocked(_) => None,
    }
}

/// The picked items of the decoded column.
fn select_decoded(
    alloc: Global,
    array: &ArrayRef,
    selection: Selection,
) -> Result<PrimitiveArray, FastLanesError>
    requires { IsOfLength selection (length (column array.now).items) }
    ensures { Answers column_of_primitive result (selected_column selection.entry (column array.now)) }
{
    match selection {
        Selection::Indices(indices) => plain_ops::take(alloc, array, indices),
        Selection::Ranges(ranges) => plain_ops::take_ranges(alloc, array, ranges),
        Selection::Mask(mask) => plain_ops::filter(alloc, array, mask),
    }
}

/// The picked items in a plain array.
#[tactic(auto, using(crate::proofs::SelectedLaws::picked_shown))]
fn select_plain(
    alloc: Global,
    array: &ArrayRef,
    selection: Selection,
) -> Result<ArrayRef, FastLanesError>
    requires { IsOfLength selection (length (column array.now).items) }
    ensures column { Answers column result (selected_column selection.entry (column array.now)) }
    ensures tree { IfOk result (λ a. SameShown a (Primitive (plain_of (choice_of selection.entry (column array.now))))) }
{
    let selected = select_decoded(alloc, array, selection)?;
    Ok(selected.simplify_validity().into_array())
}

/// The reference over the picked items of the encoded array.
fn over_selected(
    alloc: Global,
    array: &FoRArray,
    part: ArrayRef,
    reference: Scalar,
    selection: Selection,
) -> Result<ArrayRef, FastLanesError>
    requires same { GlobalReference (scalar_parts reference) ≡ array.now.references }
    requires part { selected_column selection (column array.now.encoded) ≡ Ok (column part) }
    ensures column { Answers column result (selected_column selection.entry (column (tree_of_for array.now))) }
    ensures tree { IfOk result (λ a. a ≡ FoRGlobal part (scalar_parts reference)) }
{
    Ok(array.over(alloc, part, reference)?.into_array())
}

/// The picked items.
pub(crate) fn select(
    alloc: Global,
    array: &ArrayRef,
    selection: Selection,
) -> Result<ArrayRef, FastLanesError>
    requires { IsOfLength selection (length (column array.now).items) }
    ensures column { Answers column result (selected_column selection.entry (column array.now)) }
    ensures tree { IfOk result (λ a. SameShown a (picked (choice_of selection.entry) array.now)) }
{
    match as_global_for(array) {
        Some((array, reference)) => {
            let part = select(alloc, array.encoded(), selection)?;
            over_selected(alloc, array, part, reference, selection)
        }
        None => select_plain(alloc, array, selection),
    }
}
