//! Containers that arrays come from and are written as.

ghost use Rattle.std.specs.Prelude.{◌≡◌};
ghost use Rattle.flcol_c.specs.Containers.{GivesArray, GivesContainer, GivesContainerLen, of_container};

use crate::fault::Fault;
use bytes::Bytes;
use fl_array::ArrayRef;
use fl_serde::{deserialize, serialize};
use fl_types::FastLanesError;
use flcol_container::{ContainerError, container_len, read_container, write_container};
use std::alloc::Global;

impl From<ContainerError> for Fault {
    ghost from_gives = { λ error fault. fault ≡ of_container error };

    fn from(error: ContainerError) -> Fault {
        match error {
            ContainerError::OutOfMemory => Fault::Refused(FastLanesError::OutOfMemory),
            ContainerError::BadContainer => Fault::BadContainer,
        }
    }
}

/// The array of a container's bytes, which are copied.
///
/// # Errors
/// `BadContainer` where the bytes are none, else those of the container's array.
#[tactic(auto, using(crate::proofs::ContainerLaws::array_given, crate::proofs::ContainerLaws::node_refused, crate::proofs::ContainerLaws::no_container))]
pub(crate) fn from_container(alloc: Global, bytes: &[u8]) -> Result<ArrayRef, Fault>
    ensures { GivesArray bytes.now result }
{
    let bytes = Bytes::from_vec(Vec::from_slice(alloc, bytes)?)?;
    let node = read_container(alloc, &bytes)?;
    Ok(deserialize(alloc, &node)?)
}

/// The bytes of an array's container.
///
/// # Errors
/// `BadContainer` where it has none.
pub(crate) fn container_of(alloc: Global, array: &ArrayRef) -> Result<Vec<u8>, Fault>
    ensures { GivesContainer (λ v. v.items) array.now result }
{
    let node = serialize(alloc, array)?;
    match write_container(alloc, &node) {
        Ok(bytes) => Ok(bytes),
        Err(ContainerError::OutOfMemory) => Err(Fault::Refused(FastLanesError::OutOfMemory)),
        Err(ContainerError::BadContainer) => Err(Fault::BadContainer),
    }
}

/// How many bytes an array's container has. No container is made.
///
/// # Errors
/// `BadContainer` where it has none.
#[tactic(auto, using(crate::proofs::ContainerLaws::len_given))]
pub(crate) fn container_len_of(alloc: Global, array: &ArrayRef) -> Result<usize, Fault>
    ensures { GivesContainerLen array.now result }
{
    let node = serialize(alloc, array)?;
    match container_len(&node) {
        Ok(len) => Ok(len),
        Err(ContainerError::OutOfMemory) => Err(Fault::Refused(FastLanesError::OutOfMemory)),
        Err(ContainerError::BadContainer) => Err(Fault::BadContainer),
    }
}
