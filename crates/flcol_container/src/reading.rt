//! Reading a container.

ghost use Rattle.std.specs.Prelude.{◌≡◌, suc, None, Some, if◌then◌else◌, nat_lt, string_bytes};
ghost use Rattle.std.specs.List.{list_all};
ghost use Rattle.std.specs.Option.{option_copied};
ghost use Rattle.std.specs.Int.{w32, w64};
ghost use Rattle.fl_serialized.specs.Nodes.{Of, nodes_of};
ghost use Rattle.flcol_container.specs.ContainerReading.{buffers_at, byte_at, container_of, dtype_at, dtype_numbered, dtype_of_byte, front_at, head_at, id_at, node_in, nodes_at, number_at, prefixed_at};
ghost use Rattle.flcol_container.specs.Outcomes.{Finds, IsReading, Takes};
ghost use Rattle.flcol_container.specs.Heads.{seen_head};

use crate::ascii::is_ascii;
use crate::error::ContainerError;
use crate::limits::MAX_DEPTH;
use crate::proof_support::prove_bytes;
use bytes::{Buf, Bytes};
use fl_metadata::type_of_number;
use fl_serialized::SerializedArray;
use fl_types::{DType, Nullability};
use std::alloc::Global;

/// Reads a container. The buffers of the array are parts of these bytes, and are not copied.
///
/// # Errors
/// `BadContainer` where the bytes are no container; `OutOfMemory`.
pub fn read_container(alloc: Global, bytes: &Bytes) -> Result<SerializedArray, ContainerError>
    ensures { IsReading bytes.now result }
{
    prove_bytes(bytes.as_slice());
    read_beginning(alloc, bytes)
}

/// The node behind the beginning of a container.
fn read_beginning(alloc: Global, bytes: &Bytes) -> Result<SerializedArray, ContainerError>
    ensures { Finds (λ a. a) result (container_of bytes.now) }
{
    let mut rest = bytes.clone()?;
    let beginning = read_front(&mut rest, 4)?;
    if beginning.as_slice() != b"FLC1".as_slice() {
        return Err(ContainerError::BadContainer);
    }
    read_node(alloc, MAX_DEPTH, rest)
}

/// A byte.
fn read_u8(rest: &mut Bytes) -> Result<u8, ContainerError>
    ensures { Takes (λ n. n) result rest.new (byte_at rest.old) }
{
    Ok(rest.try_get_u8()?)
}

/// A number of four bytes.
fn read_u32(rest: &mut Bytes) -> Result<u32, ContainerError>
    ensures { Takes (λ n. n) result rest.new (number_at w32 rest.old) }
{
    Ok(rest.try_get_u32_le()?)
}

/// A number of eight bytes.
fn read_u64(rest: &mut Bytes) -> Result<u64, ContainerError>
    ensures { Takes (λ n. n) result rest.new (number_at w64 rest.old) }
{
    Ok(rest.try_get_u64_le()?)
}

/// So many bytes, shared with the others.
fn read_front(rest: &mut Bytes, len: u64) -> Result<Bytes, ContainerError>
    ensures { Takes (λ b. b) result rest.new (front_at len rest.old) }
{
    if (rest.len() as u64) < len {
        return Err(ContainerError::BadContainer);
    }
    Ok(rest.split_to(len as usize)?)
}

/// Bytes behind their length of eight bytes, shared with the others.
fn read_prefixed(rest: &mut Bytes) -> Result<Bytes, ContainerError>
    ensures { Takes (λ b. b) result rest.new (prefixed_at w64 rest.old) }
{
    let len = read_u64(rest)?;
    read_front(rest, len)
}

/// The type that a number from 0 to 8 stands for.
fn dtype_numbered(nullability: Nullability, number: u8) -> Option<DType>
    ensures { result ≡ dtype_numbered nullability number }
{
    if number == 8 {
        return Some(DType::Bool(nullability));
    }
    match type_of_number(u64::from(number)) {
        Ok(ptype) => Some(DType::Primitive(ptype, nullability)),
        Err(_) => None,
    }
}

/// The type that a byte stands for.
fn dtype_of_byte(byte: u8) -> Option<DType>
    ensures { result ≡ dtype_of_byte byte }
{
    if byte < 16 {
        dtype_numbered(Nullability::NonNullable, byte)
    } else {
        dtype_numbered(Nullability::Nullable, byte - 16)
    }
}

/// A type.
#[tactic(auto, unfolding(crate::specs::ContainerReading::dtype_at))]
fn read_dtype(rest: &mut Bytes) -> Result<DType, ContainerError>
    ensures { Takes (λ d. d) result rest.new (dtype_at rest.old) }
{
    let byte = read_u8(rest)?;
    match dtype_of_byte(byte) {
        Some(dtype) => Ok(dtype),
        None => Err(ContainerError::BadContainer),
    }
}

/// The text that the bytes are, if they are ASCII.
fn ascii_text(bytes: &[u8]) -> Option<&str>
    ensures { option_copied result ≡ (if list_all (λ b. nat_lt b 128) bytes.now then Some bytes.now else None) }
{
    if !is_ascii(bytes) {
        return None;
    }
    match str::from_utf8(bytes) {
        Ok(text) => Some(text),
        Err(_) => None,
    }
}

/// ASCII behind a byte for its length.
#[tactic(auto, unfolding(crate::specs::ContainerReading::id_at))]
fn read_id(alloc: Global, rest: &mut Bytes) -> Result<String, ContainerError>
    ensures { Takes (λ t. string_bytes t) result rest.new (id_at rest.old) }
{
    let len = read_u8(rest)?;
    let id = read_front(rest, u64::from(len))?;
    match ascii_text(&id) {
        Some(text) => Ok(String::from_str(alloc, text)?),
        None => Err(ContainerError::BadContainer),
    }
}

/// Bytes behind their length of four bytes, copied.
fn read_metadata(alloc: Global, rest: &mut Bytes) -> Result<Vec<u8>, ContainerError>
    ensures { Takes (λ v. v.items) result rest.new (prefixed_at w32 rest.old) }
{
    let len = read_u32(rest)?;
    let metadata = read_front(rest, u64::from(len))?;
    Ok(Vec::from_slice(alloc, &metadata)?)
}

/// So many buffers, shared with the other bytes.
fn read_buffers(alloc: Global, rest: &mut Bytes, count: u8) -> Result<Vec<Bytes>, ContainerError>
    ensures { Takes (λ v. v.items) result rest.new (buffers_at count rest.old) }
{
    let mut buffers = Vec::new(alloc);
    for _ in 0..count {
        buffers.push(read_prefixed(rest)?)?;
    }
    Ok(buffers)
}

/// What a node says of itself.
struct NodeHead {
    id: String,
    dtype: DType,
    len: usize,
    metadata: Vec<u8>,
    buffers: Vec<Bytes>,
}

impl Drop for NodeHead {
    fn drop(self) {
        let NodeHead {
            id: _,
            dtype: _,
            len: _,
            metadata: _,
            buffers: _,
        } = self;
    }
}

impl NodeHead {
    /// The array with these children.
    fn with_children(self, children: Vec<SerializedArray>) -> SerializedArray
        ensures { result ≡ Of (seen_head self) (nodes_of children.items) }
    {
        let NodeHead {
            id,
            dtype,
            len,
            metadata,
            buffers,
        } = self;
        SerializedArray {
            id,
            dtype,
            len,
            metadata,
            buffers,
            children,
        }
    }
}

/// What a node says of itself.
#[tactic(auto, unfolding(crate::specs::ContainerReading::head_at))]
fn read_head(alloc: Global, rest: &mut Bytes) -> Result<NodeHead, ContainerError>
    ensures { Takes seen_head result rest.new (head_at rest.old) }
{
    let id = read_id(alloc, rest)?;
    let dtype = read_dtype(rest)?;
    let len = read_u64(rest)? as usize;
    let metadata = read_metadata(alloc, rest)?;
    let count = read_u8(rest)?;
    let buffers = read_buffers(alloc, rest, count)?;
    Ok(NodeHead {
        id,
        dtype,
        len,
        metadata,
        buffers,
    })
}

/// So many nodes, each at most so many nodes deep.
#[cycle(nodes)]
fn read_children(
    alloc: Global,
    depth: u8,
    rest: &mut Bytes,
    count: u8,
) -> Result<Vec<SerializedArray>, ContainerError>
    ensures { Takes (λ v. nodes_of v.items) result rest.new (nodes_at (node_in depth) count rest.old) }
{
    let mut children = Vec::new(alloc);
    for _ in 0..count {
        let child = read_prefixed(rest)?;
        children.push(read_node(alloc, depth, child)?)?;
    }
    Ok(children)
}

/// The node that all of the bytes are, at most so many nodes deep.
#[cycle(nodes)]
#[tactic(auto, using(crate::proofs::Steps::one_deeper, crate::proofs::Steps::none_deep))]
fn read_node(alloc: Global, depth: u8, bytes: Bytes) -> Result<SerializedArray, ContainerError>
    ensures { Finds (λ a. a) result (node_in depth bytes) }
{
    if depth == 0 {
        Err(ContainerError::BadContainer)
    } else {
        read_level(alloc, depth - 1, bytes)
    }
}

/// The node that all of the bytes are, its children at most so many nodes deep.
#[cycle(nodes)]
#[tactic(auto, unfolding(crate::specs::ContainerReading::node_in))]
fn read_level(alloc: Global, below: u8, bytes: Bytes) -> Result<SerializedArray, ContainerError>
    ensures { Finds (λ a. a) result (node_in (suc below) bytes) }
{
    let mut rest = bytes;
    let head = read_head(alloc, &mut rest)?;
    let count = read_u8(&mut rest)?;
    let children = read_children(alloc, below, &mut rest, count)?;
    if !rest.is_empty() {
        return Err(ContainerError::BadContainer);
    }
    Ok(head.with_children(children))
}
