//! The nodes of leaves, validities and patches.

ghost use Rattle.std.specs.Prelude.{◌≡◌, ◌++◌, ◌∷◌, [], Ok, false, replicate, length, unwrap_or, option_map};
ghost use Rattle.std.specs.Option.{option_copied};
ghost use Rattle.fl_types.specs.Refusals.{Answers};
ghost use Rattle.fl_serialized.specs.Nodes.{bool_id, primitive_id};
ghost use Rattle.fl_serde.specs.Writing.{bits_node, chunk_offset_nodes, leaf, numbers_node, packed_nodes, patch_nodes, patches_message, slots_node, validity_nodes};
ghost use Rattle.fl_serde.specs.Kinds.{id_of_kind};

use crate::NodeKind;
use crate::bit_bytes::bytes_of_bits;
use crate::slot_bytes::bytes_of_slots;
use bytes::Bytes;
use fl_bitpacking::packed_data::PackedData;
use fl_column::{BitList, DType, FastLanesError, Nullability, PrimitiveArray, Validity};
use fl_metadata::PatchesMetadata;
use fl_patches::Patches;
use fl_serialized::SerializedArray;
use std::alloc::Global;

/// A node of one buffer, without metadata and children.
fn leaf(
    alloc: Global,
    kind: NodeKind,
    dtype: DType,
    len: usize,
    bytes: Bytes,
) -> Result<SerializedArray, FastLanesError>
    ensures { Answers (λ node. node) result (Ok (leaf (id_of_kind kind) dtype len bytes)) }
{
    let id = String::from_str(alloc, kind.id())?;
    let mut buffers = Vec::new(alloc);
    buffers.push(bytes)?;
    Ok(SerializedArray {
        id,
        dtype,
        len,
        metadata: Vec::new(alloc),
        buffers,
        children: Vec::new(alloc),
    })
}

/// The node of stored integers under a type, whatever may be null among them.
fn slots_node(
    alloc: Global,
    dtype: DType,
    array: &PrimitiveArray,
) -> Result<SerializedArray, FastLanesError>
    ensures { Answers (λ node. node) result (Ok (slots_node dtype array.now)) }
{
    let bytes = bytes_of_slots(alloc, array)?;
    leaf(alloc, NodeKind::Primitive, dtype, array.len(), bytes)
}

/// The node of stored integers under their own type, without nulls.
fn numbers_node(alloc: Global, array: &PrimitiveArray) -> Result<SerializedArray, FastLanesError>
    ensures { Answers (λ node. node) result (Ok (numbers_node array.now)) }
{
    let dtype = DType::Primitive(array.ptype(), Nullability::NonNullable);
    slots_node(alloc, dtype, array)
}

/// The node of booleans.
fn bits_node(alloc: Global, bits: &BitList) -> Result<SerializedArray, FastLanesError>
    ensures { Answers (λ node. node) result (Ok (bits_node bits.now)) }
{
    let bytes = bytes_of_bits(alloc, bits)?;
    let dtype = DType::Bool(Nullability::NonNullable);
    leaf(alloc, NodeKind::Bool, dtype, bits.len(), bytes)
}

/// This many booleans, none of them true.
fn none_true(alloc: Global, len: usize) -> Result<BitList, FastLanesError>
    ensures { Answers (λ bits. bits) result (Ok (replicate len false)) }
{
    BitList::from_fn(alloc, len, |_i| false)
}

/// The one node of a list.
pub fn one_node(
    alloc: Global,
    node: SerializedArray,
) -> Result<Vec<SerializedArray>, FastLanesError>
    ensures { Answers (λ v. v.items) result (Ok (node ∷ [])) }
{
    let mut nodes = Vec::new(alloc);
    nodes.push(node)?;
    Ok(nodes)
}

/// The node of a validity that has nulls by its form.
pub fn validity_nodes(
    alloc: Global,
    validity: &Validity,
    len: usize,
) -> Result<Vec<SerializedArray>, FastLanesError>
    ensures { Answers (λ v. v.items) result (Ok (validity_nodes len validity.now)) }
{
    match validity {
        Validity::NonNullable | Validity::AllValid => Ok(Vec::new(alloc)),
        Validity::AllInvalid => {
            let bits = none_true(alloc, len)?;
            let node = bits_node(alloc, &bits)?;
            one_node(alloc, node)
        }
        Validity::Array(bits) => {
            let node = bits_node(alloc, bits)?;
            one_node(alloc, node)
        }
    }
}

/// The node of chunk offsets, if there are any.
fn chunk_offset_nodes(
    alloc: Global,
    offsets: Option<&PrimitiveArray>,
) -> Result<Vec<SerializedArray>, FastLanesError>
    ensures { Answers (λ v. v.items) result (Ok (chunk_offset_nodes (option_copied offsets.entry))) }
{
    match offsets {
        None => Ok(Vec::new(alloc)),
        Some(offsets) => {
            let node = numbers_node(alloc, offsets)?;
            one_node(alloc, node)
        }
    }
}

/// The nodes of patches of an array of this type: indices, values and chunk offsets.
fn patch_nodes(
    alloc: Global,
    dtype: DType,
    patches: Option<&Patches>,
) -> Result<Vec<SerializedArray>, FastLanesError>
    ensures { Answers (λ v. v.items) result (Ok (patch_nodes dtype (option_copied patches.entry))) }
{
    match patches {
        None => Ok(Vec::new(alloc)),
        Some(patches) => {
            let indices = numbers_node(alloc, patches.indices())?;
            let values = slots_node(alloc, dtype, patches.values())?;
            let mut offsets = chunk_offset_nodes(alloc, patches.chunk_offsets())?;
            let mut nodes = one_node(alloc, indices)?;
            nodes.push(values)?;
            nodes.append(&mut offsets)?;
            Ok(nodes)
        }
    }
}

/// The nodes of packed parts: their patches, and their validity.
pub fn packed_nodes(
    alloc: Global,
    data: &PackedData,
) -> Result<Vec<SerializedArray>, FastLanesError>
    ensures { Answers (λ v. v.items) result (Ok (packed_nodes data.now)) }
{
    let mut nodes = patch_nodes(alloc, data.dtype(), data.patches())?;
    let mut validity = validity_nodes(alloc, data.validity(), data.len())?;
    nodes.append(&mut validity)?;
    Ok(nodes)
}

/// The message of patches.
fn message_of_patches(patches: &Patches) -> PatchesMetadata
    ensures { result ≡ patches_message patches.now }
{
    let (len, offset) = (patches.num_patches() as u64, patches.offset() as u64);
    let indices = patches.indices().ptype();
    match patches.chunk_offsets() {
        None => PatchesMetadata {
            len,
            offset,
            indices,
            chunk_offsets_len: 0,
            chunk_offsets: None,
        },
        Some(offsets) => PatchesMetadata {
            len,
            offset,
            indices,
            chunk_offsets_len: offsets.len() as u64,
            chunk_offsets: Some(offsets.ptype()),
        },
    }
}

/// The message of patches, if there are any.
pub fn patches_message(patches: Option<&Patches>) -> Option<PatchesMetadata>
    ensures { result ≡ option_map patches_message (option_copied patches.entry) }
{
    match patches {
        None => None,
        Some(patches) => Some(message_of_patches(patches)),
    }
}
