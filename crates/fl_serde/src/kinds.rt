//! The kinds of nodes, and the ids that name them.

ghost use Rattle.std.specs.Prelude.{◌≡◌};
ghost use Rattle.fl_serde.specs.Kinds.{id_of_kind, kind_of_id};

use fl_serialized::ids::{
    bitpacked_v1_id, bitpacked_v2_id, bool_id, constant_id, delta_id, for_v1_id, for_v2_id,
    primitive_id, rle_id,
};

/// The kind of a node's array, by the node's id.
#[derive(Clone, Copy, Debug, PartialEq, Eq)]
pub enum NodeKind {
    /// A primitive array.
    Primitive,
    /// A constant array.
    Constant,
    /// A boolean array.
    Bool,
    /// A bit-packed array of one width.
    BitPacked,
    /// A bit-packed array of a width for each block.
    BitPackedBlocked,
    /// A FoR array of one reference.
    FoR,
    /// A FoR array of a reference for each chunk.
    FoRChunked,
    /// A delta array.
    Delta,
    /// A run-length encoded array.
    RLE,
}

impl NodeKind {
    /// The id of the kind.
    pub fn id(self) -> &'static str
        ensures { result.now ≡ id_of_kind self }
    {
        match self {
            NodeKind::Primitive => primitive_id(),
            NodeKind::Constant => constant_id(),
            NodeKind::Bool => bool_id(),
            NodeKind::BitPacked => bitpacked_v1_id(),
            NodeKind::BitPackedBlocked => bitpacked_v2_id(),
            NodeKind::FoR => for_v1_id(),
            NodeKind::FoRChunked => for_v2_id(),
            NodeKind::Delta => delta_id(),
            NodeKind::RLE => rle_id(),
        }
    }

    /// The kind that an id names, or `None` for any other text.
    pub fn of_id(id: &str) -> Option<NodeKind>
        ensures { result ≡ kind_of_id id.now }
    {
        if id == primitive_id() {
            Some(NodeKind::Primitive)
        } else if id == constant_id() {
            Some(NodeKind::Constant)
        } else if id == bool_id() {
            Some(NodeKind::Bool)
        } else if id == bitpacked_v1_id() {
            Some(NodeKind::BitPacked)
        } else if id == bitpacked_v2_id() {
            Some(NodeKind::BitPackedBlocked)
        } else if id == for_v1_id() {
            Some(NodeKind::FoR)
        } else if id == for_v2_id() {
            Some(NodeKind::FoRChunked)
        } else if id == delta_id() {
            Some(NodeKind::Delta)
        } else if id == rle_id() {
            Some(NodeKind::RLE)
        } else {
            None
        }
    }
}
