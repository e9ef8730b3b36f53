//! The errors of a node before its children are read.

ghost use Rattle.std.specs.Prelude.{◌≡◌, ◌==◌, IfOk, None, length};
ghost use Rattle.fl_column.specs.Columns.{option_all};
ghost use Rattle.fl_serialized.specs.Nodes.{children_of, head_of, listed};
ghost use Rattle.fl_serde.specs.Checks.{IsChecked, bounds_refusal, buffer_count, buffer_size, buffers_refusal, checked, count_refusal, own_bytes};
ghost use Rattle.fl_serde.specs.Leaves.{bits_size, slots_size};

use crate::children::{child_count, has_validity, takes_validity};
use crate::node_info::{NodeInfo, info_of};
use fastlanes::FL_CHUNK_SIZE;
use fl_bitpacking::refusals::positions_refusal;
use fl_column::{FastLanesError, Nullability, PType};
use fl_serialized::SerializedArray;

/// The first buffer of a node, or no bytes if it has none.
pub fn own_bytes(node: &SerializedArray) -> &[u8]
    ensures { result.now ≡ own_bytes (head_of node.now) }
{
    match node.buffers() {
        [] => &[],
        [buffer, ..] => buffer.as_slice(),
    }
}

/// How many buffers a node has.
fn buffer_count(info: &NodeInfo) -> usize
    ensures { result ≡ buffer_count info.now }
{
    match info {
        NodeInfo::Primitive(_) | NodeInfo::Bool => 1,
        NodeInfo::BitPacked(_, _) | NodeInfo::BitPackedBlocked(_, _) => 1,
        _ => 0,
    }
}

/// Whether bytes are as long as this many integers.
fn are_slots(bytes: &[u8], ptype: PType, len: usize) -> bool
    ensures { result ≡ (length bytes.now == slots_size ptype len) }
{
    bytes.len() as u128 == len as u128 * (ptype.bit_width() / 8) as u128
}

/// Whether the buffer of a leaf has the length that its items take; whether there is one, of others.
fn is_sized(node: &SerializedArray, info: &NodeInfo) -> bool
    ensures { result ≡ option_all (λ size. length (own_bytes (head_of node.now)) == size) (buffer_size info.now (head_of node.now).len) }
{
    match info {
        NodeInfo::Primitive(ptype) => are_slots(own_bytes(node), *ptype, node.len()),
        NodeInfo::Bool => own_bytes(node).len() == node.len().div_ceil(8),
        _ => true,
    }
}

/// Why buffers are not those of a node, if they are not.
fn buffers_refusal(node: &SerializedArray, info: &NodeInfo) -> Option<FastLanesError>
    ensures { result ≡ buffers_refusal (head_of node.now) info.now }
{
    if node.buffers().len() != buffer_count(info) {
        return Some(FastLanesError::BufferCount);
    }
    if !is_sized(node, info) {
        return Some(FastLanesError::PackedLength);
    }
    None
}

/// Why a node has not so many children, if it has not.
fn count_refusal(node: &SerializedArray, info: &NodeInfo, count: usize) -> Option<FastLanesError>
    ensures { result ≡ count_refusal (head_of node.now) info.now count }
{
    if count == child_count(node, info) {
        return None;
    }
    let nullable = node.dtype().nullability() == Nullability::Nullable;
    if has_validity(node, info, count) && takes_validity(info) && nullable {
        return None;
    }
    Some(FastLanesError::ChildCount)
}

/// Why the lengths of children can't be said, if they can't.
fn bounds_refusal(node: &SerializedArray, info: &NodeInfo) -> Option<FastLanesError>
    ensures { result ≡ bounds_refusal (head_of node.now) info.now }
{
    match info {
        NodeInfo::BitPackedBlocked(_, metadata) => {
            positions_refusal(metadata.offset as usize, node.len())
        }
        NodeInfo::FoRChunked(_, metadata) => {
            positions_refusal(metadata.offset as usize, node.len())
        }
        NodeInfo::Delta(_, metadata) => {
            if metadata.deltas_len as usize % FL_CHUNK_SIZE == 0 {
                None
            } else {
                Some(FastLanesError::ChildLength)
            }
        }
        _ => None,
    }
}

/// What a node says of its array, or the first error before its children are read.
///
/// # Errors
/// Those of `info_of`; then `BufferCount`; `PackedLength` if the buffer of a primitive or boolean node has
/// another length than its items take; `ChildCount`, also if a non-nullable node has a validity; and for the
/// lengths of the children `OffsetTooLarge`, then `LengthOverflow` (blocked or chunked), and `ChildLength`
/// if the deltas are not whole blocks.
pub fn check(node: &SerializedArray) -> Result<NodeInfo, FastLanesError>
    ensures info { result ≡ checked (head_of node.now) (length (listed (children_of node.now))) }
    ensures sound { IfOk result (λ m. IsChecked (head_of node.now) m (length (listed (children_of node.now)))) }
{
    let info = info_of(node)?;
    if let Some(refusal) = buffers_refusal(node, &info) {
        return Err(refusal);
    }
    if let Some(refusal) = count_refusal(node, &info, node.children().len()) {
        return Err(refusal);
    }
    if let Some(refusal) = bounds_refusal(node, &info) {
        return Err(refusal);
    }
    Ok(info)
}
