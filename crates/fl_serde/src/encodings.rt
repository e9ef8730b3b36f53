//! Kinds by themselves: each is written and read under its own ids only.

ghost use Rattle.std.specs.Prelude.{◌≡◌, [], ◌∷◌, ℕ, Bool, IfOk, List, map};
ghost use Rattle.fl_types.specs.Refusals.{Answers};
ghost use Rattle.fl_array.specs.Trees.{column};
ghost use Rattle.fl_serialized.specs.Nodes.{bitpacked_v1_id, bitpacked_v2_id, delta_id, for_v1_id, for_v2_id, rle_id};
ghost use Rattle.fl_serde.specs.declared.kinds.NodeKind.{NodeKind};
ghost use Rattle.fl_serde.specs.NodeColumns.{StandsFor};
ghost use Rattle.fl_serde.specs.Encodings.{is_bitpacked, is_delta, is_for, is_rle, reading_under, written_under};

use crate::NodeKind;
use crate::reading::deserialize;
use crate::writing::{node_kind, serialize};
use fl_array::ArrayRef;
use fl_array::delta::Delta;
use fl_array::rle::RLE;
use fl_column::FastLanesError;
use fl_serialized::SerializedArray;
use fl_serialized::ids::{
    bitpacked_v1_id, bitpacked_v2_id, delta_id, for_v1_id, for_v2_id, rle_id,
};
use std::alloc::Global;

/// The serialized form of bit-packed arrays.
#[derive(Clone, Copy, Debug)]
pub struct BitPackedPlugin;

impl BitPackedPlugin {
    /// The id of blocked bit-packed arrays.
    pub fn id() -> &'static str
        ensures { result.now ≡ bitpacked_v2_id }
    {
        bitpacked_v2_id()
    }

    /// The ids of global and of blocked bit-packed arrays.
    pub fn serialized_ids() -> [&'static str; 2]
        ensures { map (λ id. id.now) result ≡ bitpacked_v1_id ∷ bitpacked_v2_id ∷ [] }
    {
        [bitpacked_v1_id(), bitpacked_v2_id()]
    }

    /// The node of a bit-packed array.
    ///
    /// # Errors
    /// `UnknownId` if the array is of another kind.
    pub fn serialize(alloc: Global, array: &ArrayRef) -> Result<SerializedArray, FastLanesError>
        ensures node { Answers (λ node. node) result (written_under is_bitpacked array.now) }
        ensures column { IfOk result (λ node. StandsFor node (column array.now)) }
    {
        match node_kind(array) {
            NodeKind::BitPacked | NodeKind::BitPackedBlocked => serialize(alloc, array),
            _ => Err(FastLanesError::UnknownId),
        }
    }

    /// The array that a bit-packed node is read as.
    ///
    /// # Errors
    /// `UnknownId` if the node's id is that of another kind, else those of `deserialize`.
    pub fn deserialize(alloc: Global, node: &SerializedArray) -> Result<ArrayRef, FastLanesError>
        ensures array { Answers (λ a. a) result (reading_under is_bitpacked node.now) }
        ensures column { IfOk result (λ a. StandsFor node.now (column a)) }
    {
        match NodeKind::of_id(node.id()) {
            Some(NodeKind::BitPacked | NodeKind::BitPackedBlocked) => deserialize(alloc, node),
            _ => Err(FastLanesError::UnknownId),
        }
    }
}

/// The serialized form of FoR arrays.
#[derive(Clone, Copy, Debug)]
pub struct FoRPlugin;

impl FoRPlugin {
    /// The id of chunked FoR arrays.
    pub fn id() -> &'static str
        ensures { result.now ≡ for_v2_id }
    {
        for_v2_id()
    }

    /// The ids of global and of chunked FoR arrays.
    pub fn serialized_ids() -> [&'static str; 2]
        ensures { map (λ id. id.now) result ≡ for_v1_id ∷ for_v2_id ∷ [] }
    {
        [for_v1_id(), for_v2_id()]
    }

    /// The node of a FoR array.
    ///
    /// # Errors
    /// `UnknownId` if the array is of another kind.
    pub fn serialize(alloc: Global, array: &ArrayRef) -> Result<SerializedArray, FastLanesError>
        ensures node { Answers (λ node. node) result (written_under is_for array.now) }
        ensures column { IfOk result (λ node. StandsFor node (column array.now)) }
    {
        match node_kind(array) {
            NodeKind::FoR | NodeKind::FoRChunked => serialize(alloc, array),
            _ => Err(FastLanesError::UnknownId),
        }
    }

    /// The array that a FoR node is read as.
    ///
    /// # Errors
    /// `UnknownId` if the node's id is that of another kind, else those of `deserialize`.
    pub fn deserialize(alloc: Global, node: &SerializedArray) -> Result<ArrayRef, FastLanesError>
        ensures array { Answers (λ a. a) result (reading_under is_for node.now) }
        ensures column { IfOk result (λ a. StandsFor node.now (column a)) }
    {
        match NodeKind::of_id(node.id()) {
            Some(NodeKind::FoR | NodeKind::FoRChunked) => deserialize(alloc, node),
            _ => Err(FastLanesError::UnknownId),
        }
    }
}

/// An encoding whose arrays have one id.
pub trait ArrayForm {
    /// The id of the encoding's arrays.
    ghost ID: { List ℕ };

    /// Whether the arrays of a kind are the encoding's.
    ghost takes: { NodeKind → Bool };

    /// The id of the encoding's arrays.
    fn id() -> &'static str
        ensures { result.now ≡ ID };

    /// The node of an array of the encoding.
    ///
    /// # Errors
    /// `UnknownId` if the array is of another kind.
    fn serialize(alloc: Global, array: &ArrayRef) -> Result<SerializedArray, FastLanesError>
        ensures node { Answers (λ node. node) result (written_under takes array.now) }
        ensures column { IfOk result (λ node. StandsFor node (column array.now)) };

    /// The array that a node of the encoding is read as.
    ///
    /// # Errors
    /// `UnknownId` if the node's id is of another kind, else those of the function `deserialize`.
    fn deserialize(alloc: Global, node: &SerializedArray) -> Result<ArrayRef, FastLanesError>
        ensures array { Answers (λ a. a) result (reading_under takes node.now) }
        ensures column { IfOk result (λ a. StandsFor node.now (column a)) };
}

impl ArrayForm for Delta {
    ghost ID = { delta_id };

    ghost takes = { is_delta };

    fn id() -> &'static str {
        delta_id()
    }

    fn serialize(alloc: Global, array: &ArrayRef) -> Result<SerializedArray, FastLanesError> {
        match node_kind(array) {
            NodeKind::Delta => serialize(alloc, array),
            _ => Err(FastLanesError::UnknownId),
        }
    }

    fn deserialize(alloc: Global, node: &SerializedArray) -> Result<ArrayRef, FastLanesError> {
        match NodeKind::of_id(node.id()) {
            Some(NodeKind::Delta) => deserialize(alloc, node),
            _ => Err(FastLanesError::UnknownId),
        }
    }
}

impl ArrayForm for RLE {
    ghost ID = { rle_id };

    ghost takes = { is_rle };

    fn id() -> &'static str {
        rle_id()
    }

    fn serialize(alloc: Global, array: &ArrayRef) -> Result<SerializedArray, FastLanesError> {
        match node_kind(array) {
            NodeKind::RLE => serialize(alloc, array),
            _ => Err(FastLanesError::UnknownId),
        }
    }

    fn deserialize(alloc: Global, node: &SerializedArray) -> Result<ArrayRef, FastLanesError> {
        match NodeKind::of_id(node.id()) {
            Some(NodeKind::RLE) => deserialize(alloc, node),
            _ => Err(FastLanesError::UnknownId),
        }
    }
}
