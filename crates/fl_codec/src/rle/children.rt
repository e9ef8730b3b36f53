//! What run values, run indices and run offsets must be, by their types and lengths.

ghost use Rattle.std.specs.Prelude.{◌≡◌};
ghost use Rattle.fl_codec.specs.RunRefusals.{is_run_index_dtype, rle_types_refusal};

use fastlanes::FL_CHUNK_SIZE;
use fl_types::{DType, FastLanesError, Nullability, PType};

/// Whether a type is that of run indices.
fn is_run_index_dtype(dtype: DType) -> bool
    ensures { result ≡ is_run_index_dtype dtype }
{
    match dtype {
        DType::Primitive(ptype, _) => matches!(ptype, PType::U8 | PType::U16),
        DType::Bool(_) => false,
    }
}

/// Why run values, `total` run indices and `chunks` run offsets of these types are not those of a column
/// of `len` items from `offset` on, if they are not: the first of `OffsetTooLarge`, `NotInteger`,
/// `ChildNullable`, `RunIndexType`, `BlockOffsetsType`, `ChildLength`, `RangeBeyondChild` and
/// `BlockOffsetsCount`.
pub fn rle_types_refusal(
    values: DType,
    indices: DType,
    offsets: DType,
    total: usize,
    chunks: usize,
    offset: usize,
    len: usize,
) -> Option<FastLanesError>
    ensures { result ≡ rle_types_refusal values indices offsets total chunks offset len }
{
    if offset >= FL_CHUNK_SIZE {
        return Some(FastLanesError::OffsetTooLarge);
    }
    if values.ptype().is_none() {
        return Some(FastLanesError::NotInteger);
    }
    if values.nullability() == Nullability::Nullable {
        return Some(FastLanesError::ChildNullable);
    }
    if !is_run_index_dtype(indices) {
        return Some(FastLanesError::RunIndexType);
    }
    if !offsets.is_index_type() {
        return Some(FastLanesError::BlockOffsetsType);
    }
    if total % FL_CHUNK_SIZE != 0 {
        return Some(FastLanesError::ChildLength);
    }
    if total < offset || total - offset < len {
        return Some(FastLanesError::RangeBeyondChild);
    }
    if chunks != total / FL_CHUNK_SIZE {
        return Some(FastLanesError::BlockOffsetsCount);
    }
    None
}
