//! Takes and takes of ranges of bit-packed arrays, where the packed items are read run by run.

pub(crate) mod items;

ghost use Rattle.std.specs.Prelude.{◌≡◌, ◌*◌, ◌+◌, ◌-◌, ◌^◌, ◌++◌, ◌<◌, ◌≤◌, IfOk, IfSome, IsTrue, Ok, OnOk, length, nat_lt};
ghost use Rattle.std.specs.List.{list_all, range_with_len};
ghost use Rattle.fl_types.specs.Refusals.{Answers};
ghost use Rattle.fl_column.specs.Columns.{column_of_primitive};
ghost use Rattle.fl_column.specs.Operations.{range_fits, ranges_of, take_column, take_of};
ghost use Rattle.fl_array.specs.BitPackedArrays.{tree_of_bitpacked};
ghost use Rattle.fl_array.specs.Trees.{column};
ghost use Rattle.fl_ops.specs.Normalized.{SameShown};
ghost use Rattle.fl_ops.specs.Results.{picked};
ghost use Rattle.fl_ops.specs.Takes.{at_positions, has_block_widths, range_positions};

use fastlanes::Work;
use fl_array::bitpacking::{BitPackedArray, BitWidthsView};
use fl_array::{ArrayRef, IntoArray};
use fl_column::{DType, FastLanesError, PrimitiveArray};
use std::alloc::{AllocError, Global};

/// The items that indices name, and what was read for them.
fn take_counted(
    alloc: Global,
    array: &BitPackedArray,
    indices: &ArrayRef,
) -> Result<(PrimitiveArray, Work), FastLanesError>
    ensures column { Answers (λ r. column_of_primitive r.0) result (take_column (column indices.now) (column (tree_of_bitpacked array.now))) }
    ensures blocks { IsTrue (has_block_widths (tree_of_bitpacked array.now)) → IfOk result (λ r. 17 * r.1.blocks ≤ length (column indices.now).items) }
    ensures words { IsTrue (has_block_widths (tree_of_bitpacked array.now)) → IfOk result (λ r. r.1.words ≤ 2 * length (column indices.now).items) }
{
    if let Some(indices) = indices.as_primitive() {
        return array.take_counted(alloc, indices);
    }
    let DType::Primitive(_, _) = indices.dtype() else {
        return Err(FastLanesError::NotInteger);
    };
    let indices = indices.to_primitive(alloc)?;
    array.take_counted(alloc, &indices)
}

/// The items that indices name in a plain array, and what was read for them.
#[tactic(auto, using(crate::proofs::TakenShown::taken_shown))]
pub(crate) fn take_packed_counted(
    alloc: Global,
    array: &BitPackedArray,
    indices: &ArrayRef,
) -> Result<(ArrayRef, Work), FastLanesError>
    ensures column { Answers (λ r. column r.0) result (take_column (column indices.now) (column (tree_of_bitpacked array.now))) }
    ensures tree { IfOk result (λ r. SameShown r.0 (picked (take_of (column indices.now)) (tree_of_bitpacked array.now))) }
    ensures blocks { IsTrue (has_block_widths (tree_of_bitpacked array.now)) → IfOk result (λ r. 17 * r.1.blocks ≤ length (column indices.now).items) }
    ensures words { IsTrue (has_block_widths (tree_of_bitpacked array.now)) → IfOk result (λ r. r.1.words ≤ 2 * length (column indices.now).items) }
{
    let (taken, work) = take_counted(alloc, array, indices)?;
    Ok((taken.simplify_validity().into_array(), work))
}

/// The items at these positions.
fn take_positions(
    alloc: Global,
    array: &BitPackedArray,
    positions: Vec<u64>,
) -> Result<PrimitiveArray, FastLanesError>
    requires { IsTrue (list_all (λ i. nat_lt i (length (column (tree_of_bitpacked array.now)).items)) positions.items) }
    ensures { Answers column_of_primitive result (Ok (at_positions positions.items (column (tree_of_bitpacked array.now)))) }
{
    array.take(alloc, &PrimitiveArray::non_nullable(positions))
}

/// Adds the positions from `start` to below `start + count`.
fn push_positions(positions: &mut Vec<u64>, start: usize, count: usize) -> Result<(), AllocError>
    requires { start + count < 2 ^ 64 }
    ensures { OnOk result (positions.new.items ≡ positions.old.items ++ range_with_len start count) }
{
    positions.reserve(count)?;
    for k in 0..count {
        positions.push_reserved((start + k) as u64);
    }
    Ok(())
}

/// The positions in the ranges, one range after another.
fn range_positions(
    alloc: Global,
    ranges: &[(usize, usize)],
    total: usize,
) -> Result<Vec<u64>, AllocError>
    requires { IsTrue (list_all (range_fits (2 ^ 64 - 1)) ranges.now) }
    ensures { IfOk result (λ v. v.items ≡ range_positions ranges.now) }
{
    let mut positions = Vec::with_capacity(alloc, total)?;
    for range in ranges {
        push_positions(&mut positions, range.0, range.1)?;
    }
    Ok(positions)
}

/// The array, where it is bit-packed and ranges of `total` items are read run by run: where these are an eighth of its
/// items at most, or each block has a width of its own.
pub(crate) fn ranges_by_runs(array: &ArrayRef, total: usize) -> Option<&BitPackedArray>
    ensures { IfSome result (λ packed. tree_of_bitpacked packed.now ≡ array.now) }
{
    let packed = array.as_bitpacked()?;
    match packed.bit_widths() {
        BitWidthsView::Global(_) if total > packed.len() / 8 => None,
        _ => Some(packed),
    }
}

/// The items of ranges of a bit-packed array, which lie in it.
pub(crate) fn take_ranges_packed(
    alloc: Global,
    array: &BitPackedArray,
    ranges: &[(usize, usize)],
    total: usize,
) -> Result<PrimitiveArray, FastLanesError>
    requires { IsTrue (list_all (range_fits (length (column (tree_of_bitpacked array.now)).items)) ranges.now) }
    ensures { Answers column_of_primitive result (Ok (ranges_of ranges.now (column (tree_of_bitpacked array.now)))) }
{
    // For the proof: a `usize` holds the length.
    let _len = array.len();
    let positions = range_positions(alloc, ranges, total)?;
    take_positions(alloc, array, positions)
}
