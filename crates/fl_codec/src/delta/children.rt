//! What bases and deltas must be, by their types and lengths.

ghost use Rattle.std.specs.Prelude.{◌≡◌};
ghost use Rattle.fl_types.specs.Types.{same_type};
ghost use Rattle.fl_codec.specs.DeltaRefusals.{delta_children_refusal, lanes_of_dtype};

use fastlanes::FL_CHUNK_SIZE;
use fl_types::{DType, FastLanesError, Nullability};

/// Whether two types are the same, whatever the nullability.
fn is_same_type(left: DType, right: DType) -> bool
    ensures { result ≡ same_type left right }
{
    match (left, right) {
        (DType::Primitive(ptype, _), DType::Primitive(other, _)) => ptype == other,
        (DType::Bool(_), DType::Bool(_)) => true,
        _ => false,
    }
}

/// The lanes of blocks of a type.
pub fn lanes_of_dtype(dtype: DType) -> usize
    ensures { result ≡ lanes_of_dtype dtype }
{
    match dtype {
        DType::Primitive(ptype, _) => FL_CHUNK_SIZE / ptype.bit_width(),
        DType::Bool(_) => 128,
    }
}

/// Why `count` bases and `total` deltas of these types are not those of a column of `len` items from
/// `offset` on, if they are not: the first of `OffsetTooLarge`, `RangeBeyondChild`, `ChildNullable`,
/// `TypeMismatch`, `NotInteger`, `ValidityLength` and `ChildLength`. `covered` says whether the validity
/// has one bit for each item.
pub fn delta_children_refusal(
    bases: DType,
    count: usize,
    deltas: DType,
    total: usize,
    covered: bool,
    offset: usize,
    len: usize,
) -> Option<FastLanesError>
    ensures { result ≡ delta_children_refusal bases count deltas total covered offset len }
{
    if offset >= FL_CHUNK_SIZE {
        return Some(FastLanesError::OffsetTooLarge);
    }
    if total < offset || total - offset < len {
        return Some(FastLanesError::RangeBeyondChild);
    }
    if bases.nullability() == Nullability::Nullable
        || deltas.nullability() == Nullability::Nullable
    {
        return Some(FastLanesError::ChildNullable);
    }
    if !is_same_type(bases, deltas) {
        return Some(FastLanesError::TypeMismatch);
    }
    if bases.ptype().is_none() {
        return Some(FastLanesError::NotInteger);
    }
    if !covered {
        return Some(FastLanesError::ValidityLength);
    }
    if total % FL_CHUNK_SIZE != 0 || count != lanes_of_dtype(bases) * (total / FL_CHUNK_SIZE) {
        return Some(FastLanesError::ChildLength);
    }
    None
}
