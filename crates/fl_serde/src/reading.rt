//! The array that a node is read as.

ghost use Rattle.std.specs.Prelude.{◌≡◌, ◌<◌, ◌++◌, [], IfNone, IfOk, IfSome, Ok, Some, length, nat_lt, if◌then◌else◌};
ghost use Rattle.std.specs.Option.{option_to_list};
ghost use Rattle.fl_types.specs.Integers.{FitsIn};
ghost use Rattle.fl_types.specs.Refusals.{Answers};
ghost use Rattle.fl_types.specs.Values.{scalar_parts};
ghost use Rattle.fl_array.specs.BitPackedArrays.{BlockBoundaries, GlobalWidth};
ghost use Rattle.fl_array.specs.Trees.{column};
ghost use Rattle.fl_serialized.specs.Nodes.{head_of};
ghost use Rattle.fl_serde.specs.Leaves.{bits_size, slots_size};
ghost use Rattle.fl_serde.specs.Firsts.{IsFirstTwo};
ghost use Rattle.fl_serde.specs.NodeColumns.{StandsFor};
ghost use Rattle.fl_serde.specs.TypeAndLength.{HasTypeAndLength};
ghost use Rattle.fl_serde.specs.Checks.{IsChecked, own_bytes};
ghost use Rattle.fl_serde.specs.Children.{expected_children, patch_children};
ghost use Rattle.fl_serde.specs.Reading.{beside_validity, bitpacked_over, delta_over, for_chunked_over, for_over, made, patched_blocks, reading, rle_over, scalar_over, validity_of, validity_over};
ghost use Rattle.fl_serde.specs.declared.node_info.NodeInfo.TheVariants as infos;

use crate::bit_bytes::bits_of_bytes;
use crate::checks::own_bytes;
use crate::children::{expected_children, front_count, has_validity};
use crate::patches::patches_found;
use crate::scalars::value_of;
use crate::slot_bytes::array_of_bytes;
use crate::{NodeInfo, check};
use bytes::Bytes;
use fl_array::bitpacking::BitPacked;
use fl_array::delta::Delta;
use fl_array::for_::FoR;
use fl_array::rle::RLE;
use fl_array::{ArrayRef, IntoArray};
use fl_column::{
    BitList, BoolArray, ConstantArray, DType, FastLanesError, Nullability, PType, Scalar, Validity,
};
use fl_metadata::{BitPackedBlockedMetadata, BitPackedMetadata, DeltaMetadata};
use fl_patches::Patches;
use fl_serialized::SerializedArray;
use std::alloc::Global;

/// The validity that a boolean array says, which becomes the validity's own.
fn validity_of(alloc: Global, array: ArrayRef) -> Validity
    ensures { result ≡ validity_of array }
{
    match array.into_bool() {
        Some(bools) => Validity::Array(bools.into_bits()),
        None => Validity::Array(BitList::new(alloc)),
    }
}

/// Takes the validity of a node out of the arrays of its children.
fn take_validity(
    alloc: Global,
    node: &SerializedArray,
    info: &NodeInfo,
    trees: &mut Vec<ArrayRef>,
) -> Validity
    ensures validity { result ≡ validity_over (head_of node.now) info.now trees.old.items }
    ensures others { trees.new.items ≡ beside_validity (head_of node.now) info.now trees.old.items }
{
    if has_validity(node, info, trees.len()) {
        validity_of(alloc, trees.remove(front_count(node, info)))
    } else {
        Validity::from(node.dtype().nullability())
    }
}

/// The first buffer of a node, shared with it.
fn shared_bytes(node: &SerializedArray) -> Result<Bytes, FastLanesError>
    ensures { Answers (λ b. b) result (Ok (own_bytes (head_of node.now))) }
{
    match node.buffers() {
        [] => Ok(Bytes::new()),
        [buffer, ..] => Ok(buffer.clone()?),
    }
}

/// The scalar of a type that an integer is, or a null.
fn scalar_over(ptype: PType, nullability: Nullability, value: Option<i128>) -> Scalar
    requires { IfSome value (FitsIn ptype) }
    ensures { scalar_parts result ≡ scalar_over ptype nullability value }
{
    match value {
        None => Scalar::null(DType::Primitive(ptype, nullability)),
        Some(integer) => Scalar::primitive(value_of(ptype, integer), nullability),
    }
}

/// The array of a primitive node over those of its children.
fn make_primitive(
    alloc: Global,
    node: &SerializedArray,
    ptype: PType,
    mut trees: Vec<ArrayRef>,
) -> Result<ArrayRef, FastLanesError>
    requires { length (own_bytes (head_of node.now)) ≡ slots_size ptype (head_of node.now).len }
    ensures { Answers (λ a. a) result (made (head_of node.now) (infos.Primitive ptype) trees.items) }
{
    let validity = take_validity(alloc, node, &NodeInfo::Primitive(ptype), &mut trees);
    let array = array_of_bytes(alloc, ptype, own_bytes(node), node.len(), validity)?;
    Ok(array.into_array())
}

/// The array of a constant node.
fn make_constant(
    node: &SerializedArray,
    ptype: PType,
    value: Option<i128>,
) -> Result<ArrayRef, FastLanesError>
    requires { IfSome value (FitsIn ptype) }
    ensures { result ≡ made (head_of node.now) (infos.Constant ptype value) [] }
{
    let scalar = scalar_over(ptype, node.dtype().nullability(), value);
    Ok(ConstantArray::new(scalar, node.len())?.into_array())
}

/// The array of a boolean node over those of its children.
fn make_bools(
    alloc: Global,
    node: &SerializedArray,
    mut trees: Vec<ArrayRef>,
) -> Result<ArrayRef, FastLanesError>
    requires { length (own_bytes (head_of node.now)) ≡ bits_size (head_of node.now).len }
    ensures { Answers (λ a. a) result (made (head_of node.now) infos.Bool trees.items) }
{
    let validity = take_validity(alloc, node, &NodeInfo::Bool, &mut trees);
    let bits = bits_of_bytes(alloc, own_bytes(node), node.len())?;
    Ok(BoolArray::new(bits, validity)?.into_array())
}

/// A width, or the greatest byte where it is greater: both are too large.
fn byte_width(width: u32) -> u8
    ensures { result ≡ (if nat_lt width 256 then width else 255) }
{
    if width < 256 { width as u8 } else { u8::MAX }
}

/// An offset, or the greatest number of 16 bits where it is greater: both are too large.
fn short_offset(offset: u32) -> u16
    ensures { result ≡ (if nat_lt offset 65536 then offset else 65535) }
{
    if offset < 65536 {
        offset as u16
    } else {
        u16::MAX
    }
}

/// The bit-packed array of one width of these parts.
fn global_over(
    packed: Bytes,
    ptype: PType,
    validity: Validity,
    patches: Option<Patches>,
    width: u32,
    offset: u32,
    len: usize,
) -> Result<ArrayRef, FastLanesError>
    ensures { result ≡ bitpacked_over (record { packed = packed; ptype = ptype; validity = validity; patches = patches; offset = offset; len = len }) (GlobalWidth width) }
{
    let (width, offset) = (byte_width(width), short_offset(offset));
    let array = BitPacked::try_new(packed, ptype, validity, patches, width, len, offset)?;
    Ok(array.into_array())
}

/// The array of a node of packed blocks of one width over those of its children.
fn make_global(
    alloc: Global,
    node: &SerializedArray,
    ptype: PType,
    metadata: &BitPackedMetadata,
    mut trees: Vec<ArrayRef>,
) -> Result<ArrayRef, FastLanesError>
    ensures { Answers (λ a. a) result (made (head_of node.now) (infos.BitPacked ptype metadata.now) trees.items) }
{
    let info = NodeInfo::BitPacked(ptype, *metadata);
    let validity = take_validity(alloc, node, &info, &mut trees);
    let patches = patches_found(alloc, node.len(), &metadata.patches, trees)?;
    let packed = shared_bytes(node)?;
    let (width, offset) = (metadata.bit_width, metadata.offset);
    global_over(packed, ptype, validity, patches, width, offset, node.len())
}

/// The bit-packed array of these parts between boundaries.
fn blocked_over(
    alloc: Global,
    packed: Bytes,
    ptype: PType,
    validity: Validity,
    patches: Option<Patches>,
    boundaries: ArrayRef,
    offset: u32,
    len: usize,
) -> Result<ArrayRef, FastLanesError>
    ensures { Answers (λ a. a) result (bitpacked_over (record { packed = packed; ptype = ptype; validity = validity; patches = patches; offset = offset; len = len }) (BlockBoundaries boundaries)) }
{
    let offset = short_offset(offset);
    let array = BitPacked::try_new_with_block_offsets(
        alloc, packed, ptype, validity, patches, boundaries, len, offset,
    )?;
    Ok(array.into_array())
}

/// The array of a node of packed blocks between boundaries over those of its patches.
fn patched_blocks(
    alloc: Global,
    node: &SerializedArray,
    ptype: PType,
    metadata: &BitPackedBlockedMetadata,
    validity: Validity,
    trees: Vec<ArrayRef>,
    boundaries: ArrayRef,
) -> Result<ArrayRef, FastLanesError>
    ensures { Answers (λ a. a) result (patched_blocks (head_of node.now) ptype metadata.now validity trees.items (Some boundaries)) }
{
    let patches = patches_found(alloc, node.len(), &metadata.patches, trees)?;
    let packed = shared_bytes(node)?;
    let (offset, len) = (metadata.offset, node.len());
    blocked_over(
        alloc, packed, ptype, validity, patches, boundaries, offset, len,
    )
}

/// The array of a node of packed blocks between boundaries over those of its children. The boundaries are the last
/// one, and more children than the patches'.
fn make_blocked(
    alloc: Global,
    node: &SerializedArray,
    ptype: PType,
    metadata: &BitPackedBlockedMetadata,
    mut trees: Vec<ArrayRef>,
) -> Result<ArrayRef, FastLanesError>
    requires { length (patch_children (head_of node.now).dtype metadata.now.patches) < length trees.items }
    ensures { Answers (λ a. a) result (made (head_of node.now) (infos.BitPackedBlocked ptype metadata.now) trees.items) }
{
    let info = NodeInfo::BitPackedBlocked(ptype, *metadata);
    let validity = take_validity(alloc, node, &info, &mut trees);
    match trees.pop() {
        None => Err(FastLanesError::ChildCount),
        Some(boundaries) => patched_blocks(
            alloc, node, ptype, metadata, validity, trees, boundaries,
        ),
    }
}

/// The FoR array of one reference over its encoded items.
fn for_over(
    alloc: Global,
    reference: Scalar,
    trees: Vec<ArrayRef>,
) -> Result<ArrayRef, FastLanesError>
    ensures { Answers (λ a. a) result (for_over (scalar_parts reference) trees.items) }
{
    let mut trees = trees.into_iter();
    match trees.next() {
        None => Err(FastLanesError::ChildCount),
        Some(encoded) => Ok(FoR::try_new(alloc, encoded, reference)?.into_array()),
    }
}

/// The first two of arrays.
fn first_two(trees: Vec<ArrayRef>) -> Option<(ArrayRef, ArrayRef)>
    ensures { IsFirstTwo result trees.items }
{
    let mut trees = trees.into_iter();
    match (trees.next(), trees.next()) {
        (Some(first), Some(second)) => Some((first, second)),
        _ => None,
    }
}

/// The FoR array over its encoded items and its references.
fn for_chunked_over(
    alloc: Global,
    offset: u32,
    trees: Vec<ArrayRef>,
) -> Result<ArrayRef, FastLanesError>
    ensures { Answers (λ a. a) result (for_chunked_over offset trees.items) }
{
    let Some((encoded, references)) = first_two(trees) else {
        return Err(FastLanesError::ChildCount);
    };
    let offset = short_offset(offset);
    Ok(FoR::try_new_chunked(alloc, encoded, references, offset)?.into_array())
}

/// The delta array over its bases and deltas.
fn delta_over(
    alloc: Global,
    validity: Validity,
    offset: usize,
    len: usize,
    trees: Vec<ArrayRef>,
) -> Result<ArrayRef, FastLanesError>
    ensures { Answers (λ a. a) result (delta_over (record { validity = validity; offset = offset; len = len }) trees.items) }
{
    let Some((bases, deltas)) = first_two(trees) else {
        return Err(FastLanesError::ChildCount);
    };
    Ok(Delta::try_new(alloc, bases, deltas, validity, offset, len)?.into_array())
}

/// The array of a delta node over those of its children.
fn make_delta(
    alloc: Global,
    node: &SerializedArray,
    ptype: PType,
    metadata: &DeltaMetadata,
    mut trees: Vec<ArrayRef>,
) -> Result<ArrayRef, FastLanesError>
    ensures { Answers (λ a. a) result (made (head_of node.now) (infos.Delta ptype metadata.now) trees.items) }
{
    let info = NodeInfo::Delta(ptype, *metadata);
    let validity = take_validity(alloc, node, &info, &mut trees);
    delta_over(alloc, validity, metadata.offset as usize, node.len(), trees)
}

/// Takes the first of arrays.
pub(crate) fn first_of(trees: &mut Vec<ArrayRef>) -> Option<ArrayRef>
    ensures items { trees.old.items ≡ option_to_list result ++ trees.new.items }
    ensures none { IfNone result (trees.old.items ≡ []) }
{
    if trees.is_empty() {
        None
    } else {
        Some(trees.remove(0))
    }
}

/// The run-length encoded array over its run values, run indices and run offsets.
fn rle_over(
    alloc: Global,
    offset: usize,
    len: usize,
    mut trees: Vec<ArrayRef>,
) -> Result<ArrayRef, FastLanesError>
    ensures { Answers (λ a. a) result (rle_over (record { offset = offset; len = len }) trees.items) }
{
    let Some(values) = first_of(&mut trees) else {
        return Err(FastLanesError::ChildCount);
    };
    let Some((indices, offsets)) = first_two(trees) else {
        return Err(FastLanesError::ChildCount);
    };
    Ok(RLE::try_new(alloc, values, indices, offsets, offset, len)?.into_array())
}

/// The array of a node over those of its children.
fn make(
    alloc: Global,
    node: &SerializedArray,
    info: &NodeInfo,
    count: usize,
    trees: Vec<ArrayRef>,
) -> Result<ArrayRef, FastLanesError>
    requires checked { IsChecked (head_of node.now) info.now count }
    requires trees { length trees.items ≡ length (expected_children (head_of node.now) info.now count) }
    ensures { Answers (λ a. a) result (made (head_of node.now) info.now trees.items) }
{
    match info {
        NodeInfo::Primitive(ptype) => make_primitive(alloc, node, *ptype, trees),
        NodeInfo::Constant(ptype, value) => make_constant(node, *ptype, *value),
        NodeInfo::Bool => make_bools(alloc, node, trees),
        NodeInfo::BitPacked(ptype, metadata) => make_global(alloc, node, *ptype, metadata, trees),
        NodeInfo::BitPackedBlocked(ptype, metadata) => {
            make_blocked(alloc, node, *ptype, metadata, trees)
        }
        NodeInfo::FoR(ptype, value) => {
            let reference = scalar_over(*ptype, Nullability::NonNullable, *value);
            for_over(alloc, reference, trees)
        }
        NodeInfo::FoRChunked(_, metadata) => for_chunked_over(alloc, metadata.offset, trees),
        NodeInfo::Delta(ptype, metadata) => make_delta(alloc, node, *ptype, metadata, trees),
        NodeInfo::RLE(_, metadata) => {
            rle_over(alloc, metadata.offset as usize, node.len(), trees)
        }
    }
}

/// The array that a node is read as.
fn read(alloc: Global, node: &SerializedArray) -> Result<ArrayRef, FastLanesError>
    ensures { Answers (λ a. a) result (reading node.now) }
{
    let info = check(node)?;
    let children = node.children();
    let expected = expected_children(alloc, node, &info, children.len())?;
    let mut trees = Vec::new(alloc);
    for i in 0..expected.len() {
        if i >= children.len() {
            return Err(FastLanesError::ChildCount);
        }
        let child = &children[i];
        if !expected[i].matches(child) {
            return Err(FastLanesError::ChildMismatch);
        }
        trees.push(read(alloc, child)?)?;
    }
    make(alloc, node, &info, children.len(), trees)
}

/// Reads a node as an array of the node's type and length, with the column that the node stands for. Patches and
/// validities are decoded, and packed bytes are shared with the node. A length that the node's bytes do not support
/// requests no memory, except for items that the array's kind has to read: patches, boundaries, run offsets and run
/// indices.
///
/// # Errors
/// The first of these that applies: those of `check`; then for each child in order `ChildMismatch`, if its type or its
/// length is not the one that it must have, else its own; then `PatchType`, `PatchLength` and `PatchContent`;
/// then those of the kind's constructor.
#[tactic(auto, using(crate::proofs::TypesRead::answer_typed, crate::proofs::NodesStand::answer_stands))]
pub fn deserialize(alloc: Global, node: &SerializedArray) -> Result<ArrayRef, FastLanesError>
    ensures array { Answers (λ a. a) result (reading node.now) }
    ensures typed { IfOk result (λ a. HasTypeAndLength a (head_of node.now).dtype (head_of node.now).len) }
    ensures column { IfOk result (λ a. StandsFor node.now (column a)) }
{
    read(alloc, node)
}
