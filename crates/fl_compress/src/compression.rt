//! An array, encoded as small as it gets.

ghost use Rattle.std.specs.Prelude.{◌≡◌, ◌<◌, ◌≤◌, IfErr, IfOk, IsTrue, length, true};
ghost use Rattle.fl_types.specs.declared.error.FastLanesError.TheVariants.{OutOfMemory};
ghost use Rattle.fl_column.specs.Columns.{column_of_primitive};
ghost use Rattle.fl_column.specs.Queries.{are_constant};
ghost use Rattle.fl_array.specs.Trees.{Constant, Primitive, column};
ghost use Rattle.fl_encode.specs.Packings.{constant_of};
ghost use Rattle.fl_serde.specs.ByteCounts.{primitive_bytes, tree_bytes};
ghost use Rattle.fl_compress.specs.Candidates.{candidates, default_limits};
ghost use Rattle.fl_compress.specs.Smallest.{IsSmallest};

use crate::choice::Choice;
use crate::limits::Limits;
use crate::search::choose;
use fl_array::ArrayRef;
use fl_column::{FastLanesError, PrimitiveArray};
use fl_encode::encode;
use std::alloc::Global;

/// The array, encoded by the scheme within the limits by which it takes fewest bytes when it is written, as
/// `nbytes` counts them; of several the first in the order of the candidates. Its column is the array's.
///
/// The candidates are, in this order: plain; constant; bit-packed at the best width, or at the best width for
/// each block; a frame of reference for the whole array, and one for each chunk, over these, and the same with
/// wrapped references; deltas whose deltas are of these, and whose bases are of these or such deltas in turn; runs, and a dictionary for
/// each chunk, whose run values and run indices are of these, and whose run offsets are of those before the deltas. The children of each
/// have one level less.
///
/// So it is never larger than the plain array. An array without items stays plain, and one whose items are all
/// equal becomes constant, where this is allowed.
///
/// # Errors
/// Only `OutOfMemory`.
pub fn compress_within(
    alloc: Global,
    array: &PrimitiveArray,
    limits: &Limits,
) -> Result<ArrayRef, FastLanesError>
    ensures smallest { IfOk result (IsSmallest (candidates limits.now) array.now) }
    ensures column { IfOk result (λ t. column t ≡ column_of_primitive array.now) }
    ensures memory { IfErr result (λ e. e ≡ OutOfMemory) }
    ensures plain { IfOk result (λ t. tree_bytes t ≤ primitive_bytes array.now) }
    ensures empty { length array.now.slots ≡ 0 → IfOk result (λ t. t ≡ Primitive array.now) }
    ensures constant { limits.now.constant ≡ true → 0 < length array.now.slots → are_constant (column_of_primitive array.now).items ≡ true → IfOk result (λ t. t ≡ Constant (constant_of array.now)) }
{
    let _validity = array.validity();
    let Choice { scheme, bytes: _ } = choose(alloc, array, limits)?;
    encode(alloc, array, &scheme)
}

/// The array, encoded as small as `compress_within` makes it with three levels of all encodings.
///
/// # Errors
/// Only `OutOfMemory`.
pub fn compress(alloc: Global, array: &PrimitiveArray) -> Result<ArrayRef, FastLanesError>
    ensures smallest { IfOk result (IsSmallest (candidates default_limits) array.now) }
    ensures column { IfOk result (λ t. column t ≡ column_of_primitive array.now) }
    ensures memory { IfErr result (λ e. e ≡ OutOfMemory) }
    ensures plain { IfOk result (λ t. tree_bytes t ≤ primitive_bytes array.now) }
    ensures empty { length array.now.slots ≡ 0 → IfOk result (λ t. t ≡ Primitive array.now) }
    ensures constant { 0 < length array.now.slots → are_constant (column_of_primitive array.now).items ≡ true → IfOk result (λ t. t ≡ Constant (constant_of array.now)) }
{
    compress_within(alloc, array, &Limits::default())
}
