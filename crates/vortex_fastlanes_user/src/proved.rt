//! What callers can prove from the library's contracts: each function's clause follows from those of its calls.

ghost use Rattle.std.specs.Prelude.{◌≡◌, ◌≤◌, Ok, IfOk, IsTrue, length};
ghost use Rattle.vortex_fastlanes.specs.ArrayQueries.{compare_scalar, is_comparable};
ghost use Rattle.vortex_fastlanes.specs.Columns.{column_of_bools, column_of_primitive};
ghost use Rattle.vortex_fastlanes.specs.Operations.{slice_of};
ghost use Rattle.vortex_fastlanes.specs.Trees.{column};
ghost use Rattle.vortex_fastlanes.specs.Values.{scalar_parts};

use std::alloc::Global;
use vortex_fastlanes::array::*;
use vortex_fastlanes::bitpack_compress::bitpack_to_best_bit_width;
use vortex_fastlanes::encode::*;
use vortex_fastlanes::plugin::*;
use vortex_fastlanes::*;

/// The items of a range, of a column that is encoded as differences from its minimum: what is encoded, sliced and
/// decoded is the column's slice.
///
/// # Errors
/// `NoMinimum` if no item is valid, and `OutOfMemory`.
pub fn sliced_and_decoded(
    alloc: Global,
    array: &PrimitiveArray,
    start: usize,
    end: usize,
) -> Result<PrimitiveArray, FastLanesError>
    requires order { start ≤ end }
    requires range { end ≤ length (column_of_primitive array.now).items }
    ensures { IfOk result (λ a. column_of_primitive a ≡ slice_of start end (column_of_primitive array.now)) }
{
    let encoded = FoR::encode(alloc, array)?.into_array();
    let part = encoded.slice(alloc, start..end)?;
    part.to_primitive(alloc)
}

/// How each item compares with a constant, by the packed column: the answers are the column's.
///
/// # Errors
/// `NegativeValue` if a valid item is negative, `WidthTooLarge` if the items need all bits of their type, and
/// `OutOfMemory`.
pub fn compared_while_packed(
    alloc: Global,
    array: &PrimitiveArray,
    operator: CompareOperator,
    constant: &Scalar,
) -> Result<BoolArray, FastLanesError>
    requires { IsTrue (is_comparable (column_of_primitive array.now) (scalar_parts constant.now)) }
    ensures { IfOk result (λ b. Ok (column_of_bools b) ≡ compare_scalar operator (scalar_parts constant.now) (column_of_primitive array.now)) }
{
    let packed = bitpack_to_best_bit_width(alloc, array)?.into_array();
    packed.compare(alloc, operator, constant)
}

/// Writes an array and reads it again: the result has the same column.
///
/// # Errors
/// Only `OutOfMemory`.
pub fn written_and_read(alloc: Global, array: &ArrayRef) -> Result<ArrayRef, FastLanesError>
    ensures { IfOk result (λ a. column a ≡ column array.now) }
{
    laws::node_has_one_column();
    let node = serialize(alloc, array)?;
    deserialize(alloc, &node)
}

/// The array with its deltas bit-packed.
///
/// # Errors
/// `NegativeValue` if a delta is negative, `WidthTooLarge` if the deltas need all bits of their type, and
/// `OutOfMemory`.
pub fn deltas_packed(alloc: Global, plain: &PrimitiveArray) -> Result<ArrayRef, FastLanesError>
    ensures { IfOk result (λ a. column a ≡ column_of_primitive plain.now) }
{
    let packed = Child::new(alloc, Scheme::BitPacked(Packing::BestWidth))?;
    let scheme = Scheme::Delta {
        bases: Child::plain(),
        deltas: packed,
    };
    encode(alloc, plain, &scheme)
}
