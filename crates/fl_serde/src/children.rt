//! What the children of a node must be.

ghost use Rattle.std.specs.Prelude.{◌≡◌, ◌≤◌, ◌+◌, ◌*◌, ◌/◌, [], ◌∷◌, ◌++◌, ◌==◌, ◌&&◌, None, OnOk, Ok, length};
ghost use Rattle.fl_types.specs.Integers.{lanes_of_type};
ghost use Rattle.fl_types.specs.Refusals.{Answers};
ghost use Rattle.fl_types.specs.declared.dtype.DType.TheVariants.{Primitive};
ghost use Rattle.fl_column.specs.Chunks.{chunk_count};
ghost use Rattle.fl_bitpacking.specs.Refusals.{positions_refusal};
ghost use Rattle.fl_serialized.specs.Nodes.{head_of};
ghost use Rattle.fl_serde.specs.Checks.{IsChecked, bounds_refusal};
ghost use Rattle.fl_serde.specs.Children.{back_children, child_count, encoded_child, expected_children, front_children, has_validity, numbers, patch_children, same_dtype, takes_validity, validity_child, validity_children};

use crate::node_info::NodeInfo;
use fastlanes::FL_CHUNK_SIZE;
use fl_column::{DType, FastLanesError, Nullability, PType, chunk_count};
use fl_metadata::{PatchesMetadata, RLEMetadata};
use fl_serialized::SerializedArray;
use std::alloc::{AllocError, Global};

/// The type and the length that a child must have.
#[derive(Clone, Copy, Debug, PartialEq, Eq)]
pub struct ExpectedChild {
    /// The type.
    pub dtype: DType,
    /// The number of items.
    pub len: usize,
}

impl ExpectedChild {
    /// So many integers of a type without nulls.
    fn numbers(ptype: PType, len: usize) -> ExpectedChild
        ensures { result ≡ numbers ptype len }
    {
        ExpectedChild {
            dtype: DType::Primitive(ptype, Nullability::NonNullable),
            len,
        }
    }

    /// As many items of a node's type as it has itself.
    fn encoded(node: &SerializedArray) -> ExpectedChild
        ensures { result ≡ encoded_child (head_of node.now) }
    {
        ExpectedChild {
            dtype: node.dtype(),
            len: node.len(),
        }
    }

    /// The validity of this many items.
    fn validity(len: usize) -> ExpectedChild
        ensures { result ≡ validity_child len }
    {
        ExpectedChild {
            dtype: DType::Bool(Nullability::NonNullable),
            len,
        }
    }

    /// Whether a node has the type and the length.
    pub fn matches(&self, node: &SerializedArray) -> bool
        ensures { result ≡ (same_dtype self.now.dtype (head_of node.now).dtype && (self.now.len == (head_of node.now).len)) }
    {
        self.dtype == node.dtype() && self.len == node.len()
    }
}

/// How many children patches have.
fn patch_count(dtype: DType, patches: &Option<PatchesMetadata>) -> usize
    ensures { result ≡ length (patch_children dtype patches.now) }
{
    match patches {
        None => 0,
        Some(patches) => match patches.chunk_offsets {
            None => 2,
            Some(_) => 3,
        },
    }
}

/// The number of children before a node's validity.
pub fn front_count(node: &SerializedArray, info: &NodeInfo) -> usize
    ensures len { result ≡ length (front_children (head_of node.now) info.now) }
    ensures few { result ≤ 3 }
{
    match info {
        NodeInfo::Primitive(_) | NodeInfo::Constant(_, _) | NodeInfo::Bool => 0,
        NodeInfo::BitPacked(_, metadata) => patch_count(node.dtype(), &metadata.patches),
        NodeInfo::BitPackedBlocked(_, metadata) => patch_count(node.dtype(), &metadata.patches),
        NodeInfo::FoR(_, _) => 1,
        NodeInfo::FoRChunked(_, _) | NodeInfo::Delta(_, _) => 2,
        NodeInfo::RLE(_, _) => 3,
    }
}

/// How many children a node has after its validity.
fn back_count(node: &SerializedArray, info: &NodeInfo) -> usize
    ensures len { result ≡ length (back_children (head_of node.now) info.now) }
    ensures few { result ≤ 1 }
{
    match info {
        NodeInfo::BitPackedBlocked(_, _) => 1,
        _ => 0,
    }
}

/// The number of children besides a node's validity.
pub fn child_count(node: &SerializedArray, info: &NodeInfo) -> usize
    ensures len { result ≡ child_count (head_of node.now) info.now }
    ensures few { result ≤ 4 }
{
    front_count(node, info) + back_count(node, info)
}

/// Whether one of this many children of a node is its validity.
pub fn has_validity(node: &SerializedArray, info: &NodeInfo, count: usize) -> bool
    ensures { result ≡ has_validity (head_of node.now) info.now count }
{
    count == child_count(node, info) + 1
}

/// Whether a node of the kind may have a validity among its children.
pub fn takes_validity(info: &NodeInfo) -> bool
    ensures { result ≡ takes_validity info.now }
{
    match info {
        NodeInfo::Primitive(_) | NodeInfo::Bool => true,
        NodeInfo::BitPacked(_, _) | NodeInfo::BitPackedBlocked(_, _) => true,
        NodeInfo::Delta(_, _) => true,
        _ => false,
    }
}

/// The lanes of a block of a type.
fn lanes_of(ptype: PType) -> usize
    ensures lanes { result ≡ lanes_of_type ptype }
    ensures few { result ≤ 128 }
{
    FL_CHUNK_SIZE / ptype.bit_width()
}

/// What is asked of the children that are patches of items of a type.
fn patch_children(
    alloc: Global,
    dtype: DType,
    patches: &Option<PatchesMetadata>,
) -> Result<Vec<ExpectedChild>, FastLanesError>
    ensures { Answers (λ v. v.items) result (Ok (patch_children dtype patches.now)) }
{
    let Some(patches) = patches else {
        return Ok(Vec::new(alloc));
    };
    let len = patches.len as usize;
    let indices = ExpectedChild::numbers(patches.indices, len);
    let values = ExpectedChild { dtype, len };
    match patches.chunk_offsets {
        None => Ok(Vec::from_slice(alloc, &[indices, values])?),
        Some(ptype) => {
            let offsets = ExpectedChild::numbers(ptype, patches.chunk_offsets_len as usize);
            Ok(Vec::from_slice(alloc, &[indices, values, offsets])?)
        }
    }
}

/// What is asked of the children of a FoR array of references for each chunk.
fn for_chunked_children(
    alloc: Global,
    node: &SerializedArray,
    ptype: PType,
    offset: usize,
) -> Result<Vec<ExpectedChild>, FastLanesError>
    requires { positions_refusal offset (head_of node.now).len ≡ None }
    ensures { Answers (λ v. v.items) result (Ok (encoded_child (head_of node.now) ∷ numbers ptype (chunk_count (offset + (head_of node.now).len)) ∷ [])) }
{
    let references = ExpectedChild::numbers(ptype, chunk_count(offset + node.len()));
    Ok(Vec::from_slice(alloc, &[ExpectedChild::encoded(node), references])?)
}

/// What is asked of the children of a delta array.
fn delta_children(
    alloc: Global,
    ptype: PType,
    len: usize,
) -> Result<Vec<ExpectedChild>, FastLanesError>
    ensures { Answers (λ v. v.items) result (Ok (numbers ptype (lanes_of_type ptype * (len / 1024)) ∷ numbers ptype len ∷ [])) }
{
    let bases = ExpectedChild::numbers(ptype, lanes_of(ptype) * (len / FL_CHUNK_SIZE));
    Ok(Vec::from_slice(alloc, &[bases, ExpectedChild::numbers(ptype, len)])?)
}

/// What is asked of the children of a run-length encoded array.
fn rle_children(
    alloc: Global,
    nullability: Nullability,
    ptype: PType,
    metadata: &RLEMetadata,
) -> Result<Vec<ExpectedChild>, FastLanesError>
    ensures { Answers (λ v. v.items) result (Ok (numbers ptype metadata.now.values_len ∷ record { dtype = Primitive metadata.now.indices nullability; len = metadata.now.indices_len } ∷ numbers metadata.now.values_idx_offsets metadata.now.values_idx_offsets_len ∷ [])) }
{
    let values = ExpectedChild::numbers(ptype, metadata.values_len as usize);
    let indices = ExpectedChild {
        dtype: DType::Primitive(metadata.indices, nullability),
        len: metadata.indices_len as usize,
    };
    let len = metadata.values_idx_offsets_len as usize;
    let offsets = ExpectedChild::numbers(metadata.values_idx_offsets, len);
    Ok(Vec::from_slice(alloc, &[values, indices, offsets])?)
}

/// What is asked of the children in front of a node's validity.
fn front_children(
    alloc: Global,
    node: &SerializedArray,
    info: &NodeInfo,
) -> Result<Vec<ExpectedChild>, FastLanesError>
    requires { bounds_refusal (head_of node.now) info.now ≡ None }
    ensures { Answers (λ v. v.items) result (Ok (front_children (head_of node.now) info.now)) }
{
    match info {
        NodeInfo::Primitive(_) | NodeInfo::Constant(_, _) | NodeInfo::Bool => Ok(Vec::new(alloc)),
        NodeInfo::BitPacked(_, metadata) => patch_children(alloc, node.dtype(), &metadata.patches),
        NodeInfo::BitPackedBlocked(_, metadata) => {
            patch_children(alloc, node.dtype(), &metadata.patches)
        }
        NodeInfo::FoR(_, _) => Ok(Vec::from_slice(alloc, &[ExpectedChild::encoded(node)])?),
        NodeInfo::FoRChunked(ptype, metadata) => {
            for_chunked_children(alloc, node, *ptype, metadata.offset as usize)
        }
        NodeInfo::Delta(ptype, metadata) => {
            delta_children(alloc, *ptype, metadata.deltas_len as usize)
        }
        NodeInfo::RLE(ptype, metadata) => {
            rle_children(alloc, node.dtype().nullability(), *ptype, metadata)
        }
    }
}

/// Adds what is asked of a node's validity, where it is one of this many children.
fn push_validity(
    expected: &mut Vec<ExpectedChild>,
    node: &SerializedArray,
    info: &NodeInfo,
    count: usize,
) -> Result<(), AllocError>
    ensures { OnOk result (expected.new.items ≡ expected.old.items ++ validity_children (head_of node.now) info.now count) }
{
    if has_validity(node, info, count) {
        expected.push(ExpectedChild::validity(node.len()))?;
    }
    Ok(())
}

/// Adds what is asked of the children after a node's validity.
fn push_back(
    expected: &mut Vec<ExpectedChild>,
    node: &SerializedArray,
    info: &NodeInfo,
) -> Result<(), AllocError>
    requires { bounds_refusal (head_of node.now) info.now ≡ None }
    ensures { OnOk result (expected.new.items ≡ expected.old.items ++ back_children (head_of node.now) info.now) }
{
    if let NodeInfo::BitPackedBlocked(_, metadata) = info {
        let blocks = chunk_count(metadata.offset as usize + node.len());
        expected.push(ExpectedChild::numbers(metadata.block_offsets, blocks + 1))?;
    }
    Ok(())
}

/// What each of this many children of a node must be, in order.
pub fn expected_children(
    alloc: Global,
    node: &SerializedArray,
    info: &NodeInfo,
    count: usize,
) -> Result<Vec<ExpectedChild>, FastLanesError>
    requires { IsChecked (head_of node.now) info.now count }
    ensures { Answers (λ v. v.items) result (Ok (expected_children (head_of node.now) info.now count)) }
{
    let mut expected = front_children(alloc, node, info)?;
    push_validity(&mut expected, node, info, count)?;
    push_back(&mut expected, node, info)?;
    Ok(expected)
}
