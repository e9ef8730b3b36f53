//! Nodes of arrays: what writes and reads them, all kinds or one alone.

use crate::names::named;
use fl_array::ArrayRef;
use fl_array::delta::Delta;
use fl_array::rle::RLE;
use fl_serde::{ArrayForm, BitPackedPlugin, FoRPlugin, deserialize, serialize};
use fl_serialized::SerializedArray;
use fl_types::FastLanesError;
use std::alloc::Global;

/// What writes an array.
pub type Written = Result<SerializedArray, FastLanesError>;

/// What reads a node.
pub type Read = Result<ArrayRef, FastLanesError>;

/// A kind whose own calls write arrays and read nodes.
#[derive(Clone, Copy)]
enum Kind {
    BitPacked,
    For,
    Delta,
    Rle,
}

const KINDS: &[(&str, Kind)] = &[
    ("bitpacked", Kind::BitPacked),
    ("for", Kind::For),
    ("delta", Kind::Delta),
    ("rle", Kind::Rle),
];

/// The node that an array is written as: by one kind alone, where one is named.
pub fn written(alloc: Global, kind: &str, array: &ArrayRef) -> Written {
    match named(KINDS, kind) {
        Some(Kind::BitPacked) => BitPackedPlugin::serialize(alloc, array),
        Some(Kind::For) => FoRPlugin::serialize(alloc, array),
        Some(Kind::Delta) => Delta::serialize(alloc, array),
        Some(Kind::Rle) => RLE::serialize(alloc, array),
        None => serialize(alloc, array),
    }
}

/// What a node is read as: by one kind alone, where one is named.
pub fn read(alloc: Global, kind: &str, node: &SerializedArray) -> Read {
    match named(KINDS, kind) {
        Some(Kind::BitPacked) => BitPackedPlugin::deserialize(alloc, node),
        Some(Kind::For) => FoRPlugin::deserialize(alloc, node),
        Some(Kind::Delta) => Delta::deserialize(alloc, node),
        Some(Kind::Rle) => RLE::deserialize(alloc, node),
        None => deserialize(alloc, node),
    }
}
