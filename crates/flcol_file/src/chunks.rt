//! Arrays as chunks of a file.

ghost use Rattle.std.specs.Prelude.{false};
ghost use Rattle.fl_metadata.specs.WrittenText.{AreBytes};
ghost use Rattle.flcol_file.specs.Chunks.{GivesChunk, array_of};
ghost use Rattle.flcol_file.specs.Outcomes.{AnswersFrom};

use crate::error::ColumnFileError;
use bytes::Bytes;
use fl_array::ArrayRef;
use fl_serde::{deserialize, serialize};
use flcol_container::{read_container, write_container};
use std::alloc::Global;

/// The bytes of a chunk: the container of an array.
///
/// # Errors
/// `BadContainer` where the array has none, since more than sixteen arrays stand in one another; else only `OutOfMemory`.
pub fn write_chunk(alloc: Global, array: &ArrayRef) -> Result<Vec<u8>, ColumnFileError>
    ensures { GivesChunk (λ v. v.items) array.now result }
{
    let node = serialize(alloc, array)?;
    Ok(write_container(alloc, &node)?)
}

/// The array of a chunk. Its buffers are parts of the chunk's bytes.
///
/// # Errors
/// `BadContainer` where the bytes are no container, else those of the container's array. Of the bytes that `write_chunk` gave
/// only `OutOfMemory`.
pub fn read_chunk(alloc: Global, bytes: &Bytes) -> Result<ArrayRef, ColumnFileError>
    ensures { AnswersFrom false (λ a. a) result (array_of bytes.now) }
{
    prove_bytes(bytes.as_slice());
    let node = read_container(alloc, bytes)?;
    Ok(deserialize(alloc, &node)?)
}

/// Each is a number below 256.
fn prove_bytes(bytes: &[u8])
    ensures { AreBytes bytes.now }
{
    let _ = bytes.len();
}
