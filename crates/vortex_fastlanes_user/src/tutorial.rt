//! The steps of the tutorial, one function each.

ghost use Rattle.std.specs.Prelude.{◌≡◌, ◌≤◌, IfOk, IsTrue, Ok, Some, length, pos};
ghost use Rattle.vortex_fastlanes.specs.ArrayQueries.{compare_scalar};
ghost use Rattle.vortex_fastlanes.specs.Columns.{column_of_bools, column_of_primitive};
ghost use Rattle.vortex_fastlanes.specs.NodeColumns.{StandsFor};
ghost use Rattle.vortex_fastlanes.specs.Operations.{slice_of};
ghost use Rattle.vortex_fastlanes.specs.Refusals.{Answers};
ghost use Rattle.vortex_fastlanes.specs.Trees.{column};
ghost use Rattle.vortex_fastlanes.specs.Values.{scalar_parts};

use std::alloc::Global;
use vortex_fastlanes::array::*;
use vortex_fastlanes::encode::*;
use vortex_fastlanes::plugin::*;
use vortex_fastlanes::*;

/// Readings of a thermometer in tenths of a degree, one a second: number 99 is missing, and number 499 is wrong.
pub fn readings(alloc: Global) -> Result<PrimitiveArray, FastLanesError> {
    let mut readings = Vec::with_capacity(alloc, 2500)?;
    for i in 0..2500u32 {
        readings.push(match i {
            99 => None,
            499 => Some(950),
            _ => Some(200 + i * 7 % 4),
        })?;
    }
    PrimitiveArray::from_options(alloc, &readings)
}

/// The array as bit-packed differences from its minimum.
///
/// # Errors
/// `NoMinimum` if every item is null, `NegativeValue` if a difference does not fit a signed type, `WidthTooLarge` if
/// packing saves nothing, and `OutOfMemory`.
pub fn encoded(alloc: Global, plain: &PrimitiveArray) -> Result<ArrayRef, FastLanesError>
    ensures { IfOk result (λ a. column a ≡ column_of_primitive plain.now) }
{
    let packed = Child::new(alloc, Scheme::BitPacked(Packing::BestWidth))?;
    let scheme = Scheme::FoR {
        order: ItemOrder::Natural,
        encoded: packed,
    };
    encode(alloc, plain, &scheme)
}

/// The items of `start..end`, in the same encodings.
///
/// # Errors
/// Only `OutOfMemory`.
pub fn part(
    alloc: Global,
    array: &ArrayRef,
    start: usize,
    end: usize,
) -> Result<ArrayRef, FastLanesError>
    requires order { start ≤ end }
    requires range { end ≤ length (column array.now).items }
    ensures { Answers column result (Ok (slice_of start end (column array.now))) }
{
    array.slice(alloc, start..end)
}

/// Whether each item is above a limit, null where the item is.
///
/// # Errors
/// `TypeMismatch` if the items are not of type `u32`, and `OutOfMemory`.
pub fn above(alloc: Global, array: &ArrayRef, limit: u32) -> Result<BoolArray, FastLanesError>
    ensures { let constant = Scalar.Integer (PValue.U32 limit) Nullability.NonNullable in IfOk result (λ b. Ok (column_of_bools b) ≡ compare_scalar CompareOperator.Gt (scalar_parts constant) (column array.now)) }
{
    let DType::Primitive(PType::U32, _) = array.dtype() else {
        return Err(FastLanesError::TypeMismatch);
    };
    let constant = Scalar::Integer(PValue::U32(limit), Nullability::NonNullable);
    array.compare(alloc, CompareOperator::Gt, &constant)
}

/// The array as a columnar file stores it: a node with its metadata, its buffers and its children.
///
/// # Errors
/// Only `OutOfMemory`.
pub fn stored(alloc: Global, array: &ArrayRef) -> Result<SerializedArray, FastLanesError>
    ensures { IfOk result (λ node. StandsFor node (column array.now)) }
{
    serialize(alloc, array)
}

/// The array of a node from anywhere.
///
/// # Errors
/// The first fault of the node, and `OutOfMemory`.
pub fn read(alloc: Global, node: &SerializedArray) -> Result<ArrayRef, FastLanesError>
    ensures { IfOk result (λ a. StandsFor node.now (column a)) }
{
    deserialize(alloc, node)
}

/// The items of `start..end` after the array was encoded, stored, read, sliced and decoded: those of the plain array.
///
/// # Errors
/// Those of `encoded`.
pub fn part_of_stored(
    alloc: Global,
    plain: &PrimitiveArray,
    start: usize,
    end: usize,
) -> Result<PrimitiveArray, FastLanesError>
    requires order { start ≤ end }
    requires range { end ≤ length (column_of_primitive plain.now).items }
    ensures { IfOk result (λ p. column_of_primitive p ≡ slice_of start end (column_of_primitive plain.now)) }
{
    laws::node_has_one_column();
    let array = encoded(alloc, plain)?;
    let node = stored(alloc, &array)?;
    let again = read(alloc, &node)?;
    part(alloc, &again, start, end)?.to_primitive(alloc)
}

/// The index of the wrong reading within its minute.
fn above_in_minute(alloc: Global) -> Result<Option<usize>, FastLanesError> {
    let array = encoded(alloc, &readings(alloc)?)?;
    if array.len() < 540 {
        return Ok(None);
    }
    let minute = part(alloc, &array, 480, 540)?;
    let tests = above(alloc, &minute, 500)?;
    Ok((0..tests.len()).find(|&i| tests.get(i) == Some(true)))
}

/// The three readings around the missing one, after they were stored.
fn about_missing(alloc: Global) -> Result<PrimitiveArray, FastLanesError> {
    let plain = readings(alloc)?;
    if plain.len() < 101 {
        return Err(FastLanesError::RangeOutOfBounds);
    }
    part_of_stored(alloc, &plain, 98, 101)
}

/// The items of an array of three.
fn three(array: &PrimitiveArray) -> Option<[Option<PValue>; 3]> {
    if array.len() != 3 {
        return None;
    }
    Some([array.get(0), array.get(1), array.get(2)])
}

#[test]
fn wrong_reading_is_found(rt: HostRuntime) {
    assert!(rt; above_in_minute(rt.alloc()) == Ok(Some(19)));
}

#[test]
fn missing_reading_is_kept(rt: HostRuntime) {
    let found = match about_missing(rt.alloc()) {
        Ok(array) => three(&array),
        Err(_) => None,
    };
    assert!(rt; found == Some([Some(PValue::U32(202)), None, Some(PValue::U32(200))]));
}
