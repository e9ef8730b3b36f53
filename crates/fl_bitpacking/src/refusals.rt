//! The errors of the parts of bit-packed arrays, each time the first that applies.

ghost use Rattle.std.specs.Prelude.{◌≡◌, ◌+◌, ◌^◌, ◌<◌, ◌==◌, length};
ghost use Rattle.std.specs.Option.{option_copied};
ghost use Rattle.fl_types.specs.Integers.{same_ptype};
ghost use Rattle.fl_column.specs.Columns.{column_of_constant, column_of_primitive, option_all};
ghost use Rattle.fl_column.specs.Chunks.{chunk_count};
ghost use Rattle.fl_column.specs.Numbers.{numbers};
ghost use Rattle.fl_bitpacking.specs.Columns.{block_count};
ghost use Rattle.fl_bitpacking.specs.Parts.{parts_of};
ghost use Rattle.fl_bitpacking.specs.Refusals.{blocked_refusal, boundaries_refusal, validity_and_patches_refusal, block_offsets_refusal, global_refusal, positions_refusal};

use crate::bitpack_decompress::PackedColumn;
use crate::boundary_checks::{are_blocks, is_span};
use fastlanes::FL_CHUNK_SIZE;
use fl_column::{ConstantArray, PrimitiveArray, chunk_count};
use fl_patches::Patches;
use fl_types::{DType, FastLanesError, PType};

/// The error of `len` items from `offset` on in blocks of 1024, if there is one.
pub fn positions_refusal(offset: usize, len: usize) -> Option<FastLanesError>
    ensures { result ≡ positions_refusal offset len }
{
    if offset >= FL_CHUNK_SIZE {
        return Some(FastLanesError::OffsetTooLarge);
    }
    if len > usize::MAX - (FL_CHUNK_SIZE - 1) - offset {
        return Some(FastLanesError::LengthOverflow);
    }
    None
}

/// Whether patches, if there are any, have values of a type.
fn have_type(patches: Option<&Patches>, ptype: PType) -> bool
    ensures { result ≡ option_all (λ p. same_ptype p.values.ptype ptype) (option_copied patches.entry) }
{
    match patches {
        Some(patches) => patches.values().ptype() == ptype,
        None => true,
    }
}

/// Whether patches, if there are any, are those of this many items.
fn have_len(patches: Option<&Patches>, len: usize) -> bool
    ensures { result ≡ option_all (λ p. p.array_len == len) (option_copied patches.entry) }
{
    match patches {
        Some(patches) => patches.array_len() == len,
        None => true,
    }
}

/// Why validity or patches are not those of the items, if they are not.
fn validity_and_patches_refusal(column: &PackedColumn) -> Option<FastLanesError>
    ensures { result ≡ validity_and_patches_refusal (parts_of column.now) }
{
    if !column.validity.covers(column.len) {
        return Some(FastLanesError::ValidityLength);
    }
    if !have_type(column.patches, column.ptype) {
        return Some(FastLanesError::PatchType);
    }
    if !have_len(column.patches, column.len) {
        return Some(FastLanesError::PatchLength);
    }
    None
}

/// The error of these parts as an array whose blocks have this width, if there is one: the first of
/// `OffsetTooLarge`, `LengthOverflow`, `WidthTooLarge`, `ValidityLength`, `PatchType`, `PatchLength` and
/// `PackedLength`.
pub fn global_refusal(column: &PackedColumn, width: usize) -> Option<FastLanesError>
    ensures { result ≡ global_refusal (parts_of column.now) width }
{
    if let Some(refusal) = positions_refusal(column.offset, column.len) {
        return Some(refusal);
    }
    if width > column.ptype.bit_width() {
        return Some(FastLanesError::WidthTooLarge);
    }
    if let Some(refusal) = validity_and_patches_refusal(column) {
        return Some(refusal);
    }
    let blocks = chunk_count(column.offset + column.len);
    if column.packed.len() as u128 != (FL_CHUNK_SIZE / 8 * width) as u128 * blocks as u128 {
        return Some(FastLanesError::PackedLength);
    }
    None
}

/// The error of `count` boundaries of a type for this many blocks, if there is one.
pub fn block_offsets_refusal(blocks: usize, dtype: DType, count: usize) -> Option<FastLanesError>
    ensures { result ≡ block_offsets_refusal blocks dtype count }
{
    if !dtype.is_index_type() {
        return Some(FastLanesError::BlockOffsetsType);
    }
    if count == 0 || count - 1 != blocks {
        return Some(FastLanesError::BlockOffsetsCount);
    }
    None
}

/// Why boundaries are not those of the bytes, if they are not.
fn boundaries_refusal(column: &PackedColumn, boundaries: &PrimitiveArray) -> Option<FastLanesError>
    requires few { (parts_of column.now).offset + (parts_of column.now).len < 2 ^ 64 }
    requires count { length boundaries.now.slots ≡ block_count (parts_of column.now) + 1 }
    ensures { result ≡ boundaries_refusal (parts_of column.now) (numbers boundaries.now) }
{
    let size = column.packed.len();
    if !are_blocks(boundaries, column.ptype.bit_width(), size) {
        return Some(FastLanesError::BlockBoundary);
    }
    let blocks = chunk_count(column.offset + column.len);
    if !is_span(boundaries, blocks, size) {
        return Some(FastLanesError::BlockSpan);
    }
    None
}

/// The error of these parts as an array whose blocks are between the boundaries, if there is one: the first
/// of `OffsetTooLarge`, `LengthOverflow`, `BlockOffsetsType`, `BlockOffsetsCount`, `BlockBoundary`,
/// `BlockSpan`, `ValidityLength`, `PatchType` and `PatchLength`.
pub fn blocked_refusal(column: &PackedColumn, boundaries: &PrimitiveArray) -> Option<FastLanesError>
    ensures { result ≡ blocked_refusal (parts_of column.now) (column_of_primitive boundaries.now) }
{
    if let Some(refusal) = positions_refusal(column.offset, column.len) {
        return Some(refusal);
    }
    let blocks = chunk_count(column.offset + column.len);
    if let Some(refusal) = block_offsets_refusal(blocks, boundaries.dtype(), boundaries.len()) {
        return Some(refusal);
    }
    if let Some(refusal) = boundaries_refusal(column, boundaries) {
        return Some(refusal);
    }
    validity_and_patches_refusal(column)
}

/// The error of `blocked_refusal` for boundaries that are all equal, if there is one: each block has width 0,
/// so there may be no byte. The boundaries are not written out.
pub fn constant_boundaries_refusal(
    column: &PackedColumn,
    boundaries: &ConstantArray,
) -> Option<FastLanesError>
    ensures { result ≡ blocked_refusal (parts_of column.now) (column_of_constant boundaries.now) }
{
    if let Some(refusal) = positions_refusal(column.offset, column.len) {
        return Some(refusal);
    }
    let blocks = chunk_count(column.offset + column.len);
    if let Some(refusal) = block_offsets_refusal(blocks, boundaries.dtype(), boundaries.len()) {
        return Some(refusal);
    }
    if column.packed.len() != 0 {
        return Some(FastLanesError::BlockSpan);
    }
    validity_and_patches_refusal(column)
}
