//! What nodes say of their arrays, by ids, types and metadata.

ghost use Rattle.std.specs.Prelude.{◌≡◌, IfOk, IfSome, is_some};
ghost use Rattle.fl_types.specs.Integers.{FitsIn};
ghost use Rattle.fl_metadata.specs.Scalars.{scalar_of};
ghost use Rattle.fl_metadata.specs.WireReading.{fields_of};
ghost use Rattle.fl_serialized.specs.Nodes.{head_of};
ghost use Rattle.fl_serde.specs.Checks.{HasFittingValue, bool_info, constant_info, info_of, integer_info, leaf_info};

use crate::kinds::NodeKind;
use fl_column::{DType, FastLanesError, Nullability, PType};
use fl_metadata::{
    BitPackedBlockedMetadata, BitPackedMetadata, DeltaMetadata, FoRChunkedMetadata, RLEMetadata,
    decode_scalar, is_message, row_is_read, scalar_fits,
};
use fl_serialized::SerializedArray;

/// What a node says of its array by its id, its type and its metadata: the kind, the integer type, and the
/// kind's own message.
#[derive(Clone, Copy)]
pub enum NodeInfo {
    /// A primitive array.
    Primitive(PType),
    /// A constant array of an integer or a null.
    Constant(PType, Option<i128>),
    /// A boolean array.
    Bool,
    /// A bit-packed array of one width.
    BitPacked(PType, BitPackedMetadata),
    /// A bit-packed array of a width for each block.
    BitPackedBlocked(PType, BitPackedBlockedMetadata),
    /// A FoR array of one reference, or of a null.
    FoR(PType, Option<i128>),
    /// A FoR array of a reference for each chunk.
    FoRChunked(PType, FoRChunkedMetadata),
    /// A delta array.
    Delta(PType, DeltaMetadata),
    /// A run-length encoded array.
    RLE(PType, RLEMetadata),
}

/// Whether the bytes are a message, whatever it says.
#[tactic(auto, using(crate::proofs::NodeLaws::message_is))]
fn has_fields(metadata: &[u8]) -> bool
    ensures { result ≡ is_some (fields_of metadata.now) }
{
    row_is_read();
    is_message(metadata)
}

/// The info of a leaf, whose metadata may be any message.
fn leaf_info(info: NodeInfo, metadata: &[u8]) -> Result<NodeInfo, FastLanesError>
    ensures info { result ≡ leaf_info info metadata.now }
    ensures same { IfOk result (λ m. m ≡ info) }
{
    if has_fields(metadata) {
        Ok(info)
    } else {
        Err(FastLanesError::BadMetadata)
    }
}

/// The scalar of a type that metadata says.
fn scalar_of(ptype: PType, metadata: &[u8]) -> Result<Option<i128>, FastLanesError>
    ensures value { result ≡ scalar_of ptype metadata.now }
    ensures fits { IfOk result (λ value. IfSome value (FitsIn ptype)) }
{
    scalar_fits();
    decode_scalar(ptype, metadata)
}

/// The info of a constant of a type.
fn constant_info(ptype: PType, node: &SerializedArray) -> Result<NodeInfo, FastLanesError>
    ensures info { result ≡ constant_info ptype (head_of node.now) }
    ensures fits { IfOk result HasFittingValue }
{
    let value = scalar_of(ptype, node.metadata())?;
    if value.is_none() && node.dtype().nullability() == Nullability::NonNullable {
        Err(FastLanesError::BadMetadata)
    } else {
        Ok(NodeInfo::Constant(ptype, value))
    }
}

/// The info of a node of integers.
fn integer_info(
    kind: NodeKind,
    ptype: PType,
    node: &SerializedArray,
) -> Result<NodeInfo, FastLanesError>
    ensures info { result ≡ integer_info kind ptype (head_of node.now) }
    ensures fits { IfOk result HasFittingValue }
{
    let metadata = node.metadata();
    match kind {
        NodeKind::Primitive => leaf_info(NodeInfo::Primitive(ptype), metadata),
        NodeKind::Constant => constant_info(ptype, node),
        NodeKind::Bool => Err(FastLanesError::TypeMismatch),
        NodeKind::BitPacked => Ok(NodeInfo::BitPacked(ptype, BitPackedMetadata::decode(metadata)?)),
        NodeKind::BitPackedBlocked => Ok(NodeInfo::BitPackedBlocked(
            ptype,
            BitPackedBlockedMetadata::decode(metadata)?,
        )),
        NodeKind::FoR => Ok(NodeInfo::FoR(ptype, scalar_of(ptype, metadata)?)),
        NodeKind::FoRChunked => Ok(NodeInfo::FoRChunked(
            ptype,
            FoRChunkedMetadata::decode(metadata)?,
        )),
        NodeKind::Delta => Ok(NodeInfo::Delta(ptype, DeltaMetadata::decode(metadata)?)),
        NodeKind::RLE => Ok(NodeInfo::RLE(ptype, RLEMetadata::decode(metadata)?)),
    }
}

/// The info of a node of booleans.
fn bool_info(kind: NodeKind, node: &SerializedArray) -> Result<NodeInfo, FastLanesError>
    ensures info { result ≡ bool_info kind (head_of node.now) }
    ensures fits { IfOk result HasFittingValue }
{
    match kind {
        NodeKind::Bool => leaf_info(NodeInfo::Bool, node.metadata()),
        _ => Err(FastLanesError::NotInteger),
    }
}

/// What a node says of its array by its id, its type and its metadata.
///
/// # Errors
/// `UnknownId`; then `NotInteger` for booleans under any id but that of boolean arrays, and `TypeMismatch` for
/// integers under that one; then `BadMetadata`, also if the scalar of a non-nullable constant array is null;
/// then `UnknownType`.
pub fn info_of(node: &SerializedArray) -> Result<NodeInfo, FastLanesError>
    ensures info { result ≡ info_of (head_of node.now) }
    ensures fits { IfOk result HasFittingValue }
{
    let Some(kind) = NodeKind::of_id(node.id()) else {
        return Err(FastLanesError::UnknownId);
    };
    match node.dtype() {
        DType::Primitive(ptype, _) => integer_info(kind, ptype, node),
        DType::Bool(_) => bool_info(kind, node),
    }
}
