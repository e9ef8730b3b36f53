//! The plain arrays that arrays are encoded from.

ghost use Rattle.fl_array.specs.Reads.{integer_column};
ghost use Rattle.fl_array.specs.Trees.{column};
ghost use Rattle.flcol_c.specs.Plain.{IsSimplestOf};
ghost use Rattle.flcol_c.specs.Statuses.{Gives, refusal_in};

use crate::fault::Fault;
use fl_array::ArrayRef;
use fl_column::PrimitiveArray;
use std::alloc::Global;

/// The same column in a plain array, with its validity in the simplest form.
///
/// # Errors
/// `NotInteger` of booleans.
#[tactic(auto, using(crate::proofs::PlainLaws::simplest_given, crate::proofs::StatusLaws::refused))]
pub(crate) fn simplest_of(alloc: Global, array: &ArrayRef) -> Result<PrimitiveArray, Fault>
    ensures { Gives (refusal_in (integer_column (column array.now))) (IsSimplestOf (column array.now)) result }
{
    Ok(array.to_primitive(alloc)?.simplify_validity())
}
