//! What has room in a container.

ghost use Rattle.std.specs.Prelude.{◌≡◌, min, ◌-◌, ◌^◌, length, flat_map};
ghost use Rattle.std.specs.Int.{w64};
ghost use Rattle.fl_serialized.specs.Nodes.{children_of, head_of};
ghost use Rattle.flcol_container.specs.Container.{head_bytes, length_prefixed, node_bytes, node_count};
ghost use Rattle.flcol_container.specs.Room.{AreShort, IsInMemory, has_room, head_has_room, level_has_room};

use crate::ascii::is_ascii;
use crate::proof_support::prove_len;
use bytes::Bytes;
use fl_serialized::SerializedArray;

/// The greatest depth of a node in a container; the outermost one has depth 1.
pub const MAX_DEPTH: u8 = 16;

/// Whether what a node says of itself has room.
fn head_has_room(array: &SerializedArray) -> bool
    ensures { result ≡ head_has_room (head_of array.now) }
{
    array.id.len() < 1 << 8
        && is_ascii(array.id.as_bytes())
        && array.metadata.len() < 1 << 32
        && array.buffers.len() < 1 << 8
}

/// How many children a node has.
#[tactic(auto, using(crate::proofs::Sizes::count_listed))]
pub(crate) fn child_count(array: &SerializedArray) -> usize
    ensures { result ≡ node_count (children_of array.now) }
{
    array.children().len()
}

/// Whether a node has room without the nodes in it, where `depth` of them may stand in one another.
fn level_has_room(array: &SerializedArray, depth: u8) -> bool
    ensures { result ≡ level_has_room depth (head_of array.now) (children_of array.now) }
{
    depth > 0 && head_has_room(array) && child_count(array) < 1 << 8
}

/// Whether a node has room with the nodes in it, at most `depth` of them in one another.
pub(crate) fn has_room(array: &SerializedArray, depth: u8) -> bool
    ensures { result ≡ has_room depth array.now }
{
    if !level_has_room(array, depth) {
        return false;
    }
    for child in &array.children {
        if !has_room(child, depth - 1) {
            return false;
        }
    }
    true
}

/// How many bytes buffers take, each behind its length; `usize::MAX` where it is more.
fn buffers_size(buffers: &[Bytes]) -> usize
    ensures size { result ≡ min (length (flat_map (length_prefixed w64) buffers.now)) (2 ^ 64 - 1) }
    ensures short { AreShort buffers.now }
{
    let mut size: usize = 0;
    for buffer in buffers {
        size = size.saturating_add(8).saturating_add(buffer.len());
    }
    size
}

/// How many bytes it takes to say what a node says of itself; `usize::MAX` where it is more.
fn head_size(array: &SerializedArray) -> usize
    ensures size { result ≡ min (length (head_bytes (head_of array.now))) (2 ^ 64 - 1) }
    ensures short { AreShort (head_of array.now).buffers }
{
    // The lengths of the id, of the metadata and of the array, the type and the number of buffers.
    let lengths: usize = 1 + 1 + 8 + 4 + 1;
    lengths
        .saturating_add(array.id.len())
        .saturating_add(array.metadata.len())
        .saturating_add(buffers_size(&array.buffers))
}

/// How many bytes a node takes; `usize::MAX` where it is more.
pub(crate) fn node_size(array: &SerializedArray) -> usize
    ensures size { result ≡ min (length (node_bytes array.now)) (2 ^ 64 - 1) }
    ensures in_memory { IsInMemory array.now }
{
    prove_len(array);
    let mut size = head_size(array).saturating_add(1);
    for child in &array.children {
        size = size.saturating_add(8).saturating_add(node_size(child));
    }
    size
}
