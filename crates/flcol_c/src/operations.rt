//! Arrays made of arrays.

ghost use Rattle.std.specs.Prelude.{◌≡◌, None, Some, length};
ghost use Rattle.fl_array.specs.Slices.{slice_tree};
ghost use Rattle.fl_array.specs.ToBlocked.{to_blocked_tree};
ghost use Rattle.fl_array.specs.Trees.{column};
ghost use Rattle.fl_column.specs.Operations.{ranges_column, slice_column};
ghost use Rattle.flcol_container.specs.ContainerReading.{dtype_numbered, dtype_of_byte};
ghost use Rattle.flcol_c.specs.Bitmaps.{short_fault};
ghost use Rattle.flcol_c.specs.Operations.{AreTaken, IsCast, IsFilteredBy, IsTaken, cast_fault, filter_fault, mask_fault, pairs_of, take_fault, type_fault};
ghost use Rattle.flcol_c.specs.Statuses.{Gives, GivesAfter, refusal_in};

use crate::fault::Fault;
use crate::making::from_values;
use crate::ranges::{ItemRange, pairs_of};
use fl_array::ArrayRef;
use fl_column::bitmaps::{bitmap_len, bits_of};
use fl_ops::ArrayOps;
use fl_types::{DType, FastLanesError, Mask, Nullability, PType};
use std::alloc::Global;

/// The items from `from` to below `to`, in the same encodings.
///
/// # Errors
/// `RangeOutOfBounds` where `from` is above `to`, or `to` above the length.
#[tactic(auto, using(crate::proofs::StatusLaws::refused))]
pub(crate) fn slice(
    alloc: Global,
    array: &ArrayRef,
    from: usize,
    to: usize,
) -> Result<ArrayRef, Fault>
    ensures { GivesAfter (refusal_in (slice_column from to (column array.now))) None (λ u. u ≡ slice_tree from to array.now) result }
{
    if from > to || to > array.len() {
        return Err(Fault::Refused(FastLanesError::RangeOutOfBounds));
    }
    Ok(array.slice(alloc, from..to)?)
}

/// The items at these indices, null where an index is null. An index under a null is not looked at.
///
/// # Errors
/// `ValidityLength` where the bitmap has bytes, but fewer bits than there are indices; `NotInteger`;
/// `IndexOutOfBounds`.
#[tactic(auto, using(crate::proofs::StatusLaws::refused))]
pub(crate) fn take(
    alloc: Global,
    array: &ArrayRef,
    indices: &[u64],
    validity: &[u8],
) -> Result<ArrayRef, Fault>
    ensures { GivesAfter (short_fault validity.now (length indices.now)) (take_fault indices.now validity.now (column array.now)) (λ u. IsTaken indices.now validity.now array.now u) result }
{
    let indices = from_values(alloc, indices, validity)?;
    Ok(array.take(alloc, &indices)?)
}

/// The items of the ranges, one range after another.
///
/// # Errors
/// `NotInteger`, `RangeOutOfBounds`, `LengthOverflow`.
#[tactic(auto, using(crate::proofs::StatusLaws::refused))]
pub(crate) fn take_ranges(
    alloc: Global,
    array: &ArrayRef,
    ranges: &[ItemRange],
) -> Result<ArrayRef, Fault>
    ensures { Gives (refusal_in (ranges_column (pairs_of ranges.now) (column array.now))) (λ u. AreTaken ranges.now array.now u) result }
{
    let pairs = pairs_of(alloc, ranges)?;
    Ok(array.take_ranges(alloc, &pairs)?)
}

/// The items whose bits are set.
///
/// # Errors
/// `MaskLength` where the bytes are not those of a bit for each item, then `NotInteger`.
#[tactic(auto, using(crate::proofs::StatusLaws::refused))]
pub(crate) fn filter(alloc: Global, array: &ArrayRef, mask: &[u8]) -> Result<ArrayRef, Fault>
    ensures { GivesAfter (mask_fault (length mask.now) (column array.now)) (filter_fault mask.now (column array.now)) (λ u. IsFilteredBy mask.now array.now u) result }
{
    let len = array.len();
    if mask.len() != bitmap_len(len) {
        return Err(Fault::Refused(FastLanesError::MaskLength));
    }
    let mask = Mask::Values(bits_of(alloc, mask, len)?);
    Ok(array.filter(alloc, &mask)?)
}

/// The type with this number, if there is one: 0 to 7 are the integer types, 8 that of booleans.
fn dtype_numbered(nullability: Nullability, number: u8) -> Option<DType>
    ensures { result ≡ dtype_numbered nullability number }
{
    let ptype = match number {
        0 => PType::U8,
        1 => PType::U16,
        2 => PType::U32,
        3 => PType::U64,
        4 => PType::I8,
        5 => PType::I16,
        6 => PType::I32,
        7 => PType::I64,
        8 => return Some(DType::Bool(nullability)),
        _ => return None,
    };
    Some(DType::Primitive(ptype, nullability))
}

/// The type that a byte says, if it says one: its number, and 16 more where items may be null.
fn dtype_of(byte: u8) -> Option<DType>
    ensures { result ≡ dtype_of_byte byte }
{
    if byte < 16 {
        dtype_numbered(Nullability::NonNullable, byte)
    } else {
        dtype_numbered(Nullability::Nullable, byte - 16)
    }
}

/// The same integers in the type that a byte says.
///
/// # Errors
/// `UnknownType` where it says none, then `NotInteger`, `CastNull` and `CastOutOfRange`.
#[tactic(auto, using(crate::proofs::StatusLaws::refused))]
pub(crate) fn cast(alloc: Global, array: &ArrayRef, byte: u8) -> Result<ArrayRef, Fault>
    ensures { GivesAfter (type_fault (dtype_of_byte byte)) (cast_fault (dtype_of_byte byte) (column array.now)) (λ u. IsCast (dtype_of_byte byte) array.now u) result }
{
    let Some(target) = dtype_of(byte) else {
        return Err(Fault::Refused(FastLanesError::UnknownType));
    };
    Ok(array.cast(alloc, target)?)
}

/// The same array, with a boundary for each block wherever it is bit-packed at one width.
#[tactic(auto, using(crate::proofs::StatusLaws::refused))]
pub(crate) fn to_blocked(alloc: Global, array: &ArrayRef) -> Result<ArrayRef, Fault>
    ensures { Gives None (λ u. u ≡ to_blocked_tree array.now) result }
{
    Ok(array.to_blocked(alloc)?)
}
