//! Calls on serialized arrays, their messages and their containers.

use crate::inputs::Inputs;
use crate::{array_made, came, came_array, came_node};
use bytes::Bytes;
use fl_metadata::{
    BitPackedBlockedMetadata, BitPackedMetadata, DeltaMetadata, FoRChunkedMetadata,
    PatchesMetadata, RLEMetadata,
};
use fl_serde::deserialize;
use fl_serde::laws::round_trip;
use fl_serialized::SerializedArray;
use fl_types::{FastLanesError, PType};
use flcol_container::{ContainerError, read_container, write_container};
use row_reader::arrays::calls::mark;
use row_reader::arrays::nodes;
use row_reader::asked::Asked;
use row_reader::names::named;
use row_reader::text::Text;
use std::alloc::Global;

/// The bytes of a container.
#[derive(Drop)]
struct Container {
    bytes: Vec<u8>,
}

/// The node that a container holds.
fn node_in(alloc: Global, container: &Container) -> Result<SerializedArray, FastLanesError> {
    let bytes = Bytes::from_vec(Vec::from_slice(alloc, &container.bytes)?)?;
    read(alloc, &bytes)
}

/// Ends a call, and adds the array that is read of the container that it gave.
fn came_container(answer: &mut Text, given: Result<Container, FastLanesError>) {
    mark(answer.alloc());
    match &given {
        Ok(container) => {
            let alloc = answer.alloc();
            match node_in(alloc, container) {
                Ok(node) => array_made(answer, &deserialize(alloc, &node)),
                Err(refusal) => answer.refusal(refusal),
            }
        }
        Err(refusal) => answer.refusal(*refusal),
    }
}

/// The refusal of a container that is sound: no memory.
fn refused(refusal: ContainerError) -> FastLanesError {
    match refusal {
        ContainerError::BadContainer => FastLanesError::BadMetadata,
        ContainerError::OutOfMemory => FastLanesError::OutOfMemory,
    }
}

fn read(alloc: Global, bytes: &Bytes) -> Result<SerializedArray, FastLanesError> {
    match read_container(alloc, bytes) {
        Ok(node) => Ok(node),
        Err(refusal) => Err(refused(refusal)),
    }
}

fn write(alloc: Global, node: &SerializedArray) -> Result<Container, FastLanesError> {
    match write_container(alloc, node) {
        Ok(bytes) => Ok(Container { bytes }),
        Err(refusal) => Err(refused(refusal)),
    }
}

/// What writes a message.
type Written = Result<Vec<u8>, FastLanesError>;

fn bitpacked(alloc: Global, text: &[u8]) -> Written {
    BitPackedMetadata::decode(text)?.encode(alloc)
}

fn blocked(alloc: Global, text: &[u8]) -> Written {
    BitPackedBlockedMetadata::decode(text)?.encode(alloc)
}

fn patches(alloc: Global, text: &[u8]) -> Written {
    PatchesMetadata::decode(text)?.encode(alloc)
}

fn for_chunked(alloc: Global, text: &[u8]) -> Written {
    FoRChunkedMetadata::decode(text)?.encode(alloc)
}

fn delta(alloc: Global, text: &[u8]) -> Written {
    DeltaMetadata::decode(text)?.encode(alloc)
}

fn rle(alloc: Global, text: &[u8]) -> Written {
    RLEMetadata::decode(text)?.encode(alloc)
}

/// A call that writes the message that the first column's bytes say.
#[derive(Clone, Copy)]
enum Message {
    BitPacked,
    Blocked,
    Patches,
    ForChunked,
    Delta,
    Rle,
}

const MESSAGES: &[(&str, Message)] = &[
    ("bitpacked_message", Message::BitPacked),
    ("blocked_message", Message::Blocked),
    ("patches_message", Message::Patches),
    ("for_message", Message::ForChunked),
    ("delta_message", Message::Delta),
    ("rle_message", Message::Rle),
];

fn on_message(asked: Asked, message: Message) -> Written {
    let column = asked.column(0);
    if column.ptype() != PType::U8 {
        return Err(FastLanesError::TypeMismatch);
    }
    let (alloc, text) = (asked.alloc, column.as_slice::<u8>());
    match message {
        Message::BitPacked => bitpacked(alloc, text),
        Message::Blocked => blocked(alloc, text),
        Message::Patches => patches(alloc, text),
        Message::ForChunked => for_chunked(alloc, text),
        Message::Delta => delta(alloc, text),
        Message::Rle => rle(alloc, text),
    }
}

#[derive(Clone, Copy)]
enum Call {
    Serialize,
    Deserialize,
    RoundTrip,
    NodeCopy,
    WriteContainer,
    ReadContainer,
}

const CALLS: &[(&str, Call)] = &[
    ("serialize", Call::Serialize),
    ("deserialize", Call::Deserialize),
    ("round_trip", Call::RoundTrip),
    ("node_copy", Call::NodeCopy),
    ("write_container", Call::WriteContainer),
    ("read_container", Call::ReadContainer),
];

/// Makes a call on the array, its node or its container.
fn on_node(asked: Asked, call: Call, inputs: &Inputs, answer: &mut Text) {
    let (alloc, kind) = (asked.alloc, asked.word(1));
    match call {
        Call::Serialize => came_node(answer, nodes::written(alloc, kind, &inputs.array)),
        Call::Deserialize => came_array(answer, nodes::read(alloc, kind, &inputs.node)),
        Call::RoundTrip => came_array(answer, round_trip(alloc, &inputs.array)),
        Call::NodeCopy => came_node(answer, inputs.node.try_clone(alloc)),
        Call::WriteContainer => came_container(answer, write(alloc, &inputs.node)),
        Call::ReadContainer => came_node(answer, read(alloc, &inputs.container)),
    }
}

pub(crate) fn make(asked: Asked, inputs: &Inputs, answer: &mut Text) -> bool {
    if let Some(message) = named(MESSAGES, asked.word(0)) {
        came(answer, on_message(asked, message));
        return true;
    }
    match named(CALLS, asked.word(0)) {
        Some(call) => on_node(asked, call, inputs, answer),
        None => return false,
    }
    true
}
