//! Lists of operations on arrays.

ghost use Rattle.std.specs.Prelude.{◌≡◌, [], IfOk, Ok, map};
ghost use Rattle.fl_types.specs.Refusals.{Answers};
ghost use Rattle.fl_column.specs.Operations.{filter_column, slice_column};
ghost use Rattle.fl_array.specs.Slices.{slice_tree};
ghost use Rattle.fl_array.specs.Trees.{column};
ghost use Rattle.fl_ops.specs.Operations.{run_columns, step_column, step_of};
ghost use Rattle.fl_ops.specs.Results.{IsFiltered, IsMade, IsResult};

use crate::array_ops::ArrayOps;
use fl_array::ArrayRef;
use fl_column::{DType, FastLanesError, Mask};
use std::alloc::Global;
use std::ops::Range;

/// An operation on an array.
#[derive(Drop)]
pub enum Op {
    /// The items of a range.
    Slice(Range<usize>),
    /// The items that indices name, null where an index is null.
    Take(ArrayRef),
    /// The items of ranges, each a start and a length, one range after another.
    TakeRanges(Vec<(usize, usize)>),
    /// The items whose bit of a mask is true.
    Filter(Mask),
    /// The same integers in another type.
    Cast(DType),
}

/// The items of a range, where it lies in the array.
fn slice_within(
    alloc: Global,
    array: &ArrayRef,
    range: &Range<usize>,
) -> Result<ArrayRef, FastLanesError>
    ensures column { Answers column result (slice_column range.now.start range.now.end (column array.now)) }
    ensures tree { IfOk result (λ a. a ≡ slice_tree range.now.start range.now.end array.now) }
{
    if range.start > range.end || range.end > array.len() {
        return Err(FastLanesError::RangeOutOfBounds);
    }
    array.slice(alloc, range.start..range.end)
}

/// The items that a mask keeps, where it has the array's length.
fn filter_within(alloc: Global, array: &ArrayRef, mask: &Mask) -> Result<ArrayRef, FastLanesError>
    ensures column { Answers column result (filter_column mask.now (column array.now)) }
    ensures tree { IfOk result (λ a. IsFiltered mask.now array.now a) }
{
    if mask.len() != array.len() {
        return Err(FastLanesError::MaskLength);
    }
    array.filter(alloc, mask)
}

/// What an operation makes of an array.
pub(crate) fn apply(alloc: Global, array: &ArrayRef, op: &Op) -> Result<ArrayRef, FastLanesError>
    ensures column { Answers column result (step_column (column array.now) (step_of op.now)) }
    ensures tree { IfOk result (λ a. IsMade (step_of op.now) array.now a) }
{
    match op {
        Op::Slice(range) => slice_within(alloc, array, range),
        Op::Take(indices) => array.take(alloc, indices),
        Op::TakeRanges(ranges) => array.take_ranges(alloc, ranges),
        Op::Filter(mask) => filter_within(alloc, array, mask),
        Op::Cast(target) => array.cast(alloc, *target),
    }
}

/// Applies the operations to an array, one after another. An empty list makes a copy.
///
/// # Errors
/// The error of the first operation that fails: `RangeOutOfBounds` of a slice out of range,
/// `MaskLength` of a filter by a mask of another length, else as of the calls of `ArrayOps`.
#[tactic(auto, using(crate::proofs::Runs::runs))]
pub fn apply_all(alloc: Global, array: &ArrayRef, ops: &[Op]) -> Result<ArrayRef, FastLanesError>
    ensures column { Answers column result (run_columns (column array.now) (map step_of ops.now)) }
    ensures tree { IfOk result (λ a. IsResult array.now (map step_of ops.now) a) }
    ensures copy { ops.now ≡ [] → Answers (λ a. a) result (Ok array.now) }
{
    let Some((first, rest)) = ops.split_first() else {
        return array.try_clone(alloc);
    };
    let mut current = apply(alloc, array, first)?;
    for op in rest {
        current = apply(alloc, &current, op)?;
    }
    Ok(current)
}
