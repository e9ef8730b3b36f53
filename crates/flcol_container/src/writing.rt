//! Writing a container.

ghost use Rattle.std.specs.Prelude.{◌≡◌, ◌∷◌, [], ◌+◌, ◌-◌, ◌++◌, ◌<◌, ◌≤◌, ◌^◌, OnOk, drop, flat_map, length, take};
ghost use Rattle.std.specs.Int.{to_le_bytes, w32, w64};
ghost use Rattle.fl_serialized.specs.Nodes.{head_of};
ghost use Rattle.flcol_container.specs.Container.{HeadFits, NodeFits, dtype_byte, head_bytes, length_prefixed, node_bytes};
ghost use Rattle.flcol_container.specs.Outcomes.{IsMeasuring, IsWriting};

use crate::error::ContainerError;
use crate::limits::{MAX_DEPTH, child_count, has_room, node_size};
use bytes::Bytes;
use fl_metadata::type_number;
use fl_serialized::SerializedArray;
use fl_types::{DType, Nullability};
use std::alloc::{AllocError, Global};

/// The container of an array.
///
/// # Errors
/// `BadContainer` where it has none: where more than sixteen nodes stand in one another, an id is not
/// ASCII or longer than 255 bytes, metadata have 2^32 bytes or more, or a node has more than 255
/// buffers or children; `OutOfMemory`.
pub fn write_container(alloc: Global, array: &SerializedArray) -> Result<Vec<u8>, ContainerError>
    ensures { IsWriting (λ v. v.items) array.now result }
{
    let mut out = Vec::with_capacity(alloc, container_len(array)?)?;
    out.extend_from_slice(b"FLC1")?;
    push_node(&mut out, array)?;
    Ok(out)
}

/// How many bytes the container of an array has. Nothing is written, and no memory is requested.
///
/// # Errors
/// `BadContainer` where it has none; `OutOfMemory` where it has 2^63 bytes or more.
pub fn container_len(array: &SerializedArray) -> Result<usize, ContainerError>
    ensures { IsMeasuring array.now result }
{
    if !has_room(array, MAX_DEPTH) {
        return Err(ContainerError::BadContainer);
    }
    let size = node_size(array);
    if size >= usize::MAX / 2 {
        return Err(ContainerError::OutOfMemory);
    }
    Ok(size + 4)
}

/// The byte of a type.
fn dtype_byte(dtype: DType) -> u8
    ensures { result ≡ dtype_byte dtype }
{
    let kind = match dtype {
        DType::Primitive(ptype, _) => type_number(ptype) as u8,
        DType::Bool(_) => 8,
    };
    match dtype.nullability() {
        Nullability::NonNullable => kind,
        Nullability::Nullable => kind + 16,
    }
}

/// Adds the id, the type and the length.
fn push_start(out: &mut Vec<u8>, id: &str, dtype: DType, len: usize) -> Result<(), AllocError>
    requires { length id.now < 2 ^ 8 }
    ensures { OnOk result (out.new.items ≡ out.old.items ++ (length id.now ∷ id.now ++ dtype_byte dtype ∷ to_le_bytes w64 len)) }
{
    out.push(id.len() as u8)?;
    out.extend_from_slice(id.as_bytes())?;
    out.push(dtype_byte(dtype))?;
    out.extend_from_slice(&(len as u64).to_le_bytes())?;
    Ok(())
}

/// Adds metadata behind their length.
fn push_metadata(out: &mut Vec<u8>, metadata: &[u8]) -> Result<(), AllocError>
    requires { length metadata.now < 2 ^ 32 }
    ensures { OnOk result (out.new.items ≡ out.old.items ++ length_prefixed w32 metadata.now) }
{
    out.extend_from_slice(&(metadata.len() as u32).to_le_bytes())?;
    out.extend_from_slice(metadata)?;
    Ok(())
}

/// Adds the length of what follows.
fn push_length(out: &mut Vec<u8>, len: usize) -> Result<(), AllocError>
    ensures { OnOk result (out.new.items ≡ out.old.items ++ to_le_bytes w64 len) }
{
    out.extend_from_slice(&(len as u64).to_le_bytes())?;
    Ok(())
}

/// Adds buffers, each behind its length.
fn push_buffers(out: &mut Vec<u8>, buffers: &[Bytes]) -> Result<(), AllocError>
    ensures { OnOk result (out.new.items ≡ out.old.items ++ flat_map (length_prefixed w64) buffers.now) }
{
    for buffer in buffers {
        push_length(out, buffer.len())?;
        out.extend_from_slice(buffer)?;
    }
    Ok(())
}

/// Adds what a node says of itself.
fn push_head(out: &mut Vec<u8>, array: &SerializedArray) -> Result<(), AllocError>
    requires { HeadFits (head_of array.now) }
    ensures { OnOk result (out.new.items ≡ out.old.items ++ head_bytes (head_of array.now)) }
{
    push_start(out, array.id(), array.dtype(), array.len())?;
    push_metadata(out, array.metadata())?;
    out.push(array.buffers().len() as u8)?;
    push_buffers(out, array.buffers())
}

/// Writes over the eight bytes from an index on how many bytes there are behind them.
fn put_length(out: &mut Vec<u8>, at: usize)
    requires { at + 8 ≤ length out.now.items }
    ensures { out.new.items ≡ take at out.old.items ++ (to_le_bytes w64 (length out.old.items - (at + 8)) ++ drop (at + 8) out.old.items) }
{
    let len = (out.len() - (at + 8)) as u64;
    out[at..at + 8].copy_from_slice(&len.to_le_bytes());
}

/// Adds a node. The length of each child is written once the child is there.
fn push_node(out: &mut Vec<u8>, array: &SerializedArray) -> Result<(), AllocError>
    requires { NodeFits array.now }
    ensures { OnOk result (out.new.items ≡ out.old.items ++ node_bytes array.now) }
{
    push_head(out, array)?;
    out.push(child_count(array) as u8)?;
    for child in &array.children {
        let at = out.as_slice().len();
        push_length(out, 0)?;
        push_node(out, child)?;
        put_length(out, at);
    }
    Ok(())
}
