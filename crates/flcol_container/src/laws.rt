//! What holds of every container.

ghost use Rattle.std.specs.Prelude.{◌≡◌, IfErr, IfOk};
ghost use Rattle.flcol_container.specs.Container.{ContainerHasOneNode, HasNoContainer, IsNoContainer};
ghost use Rattle.flcol_container.specs.ContainerReading.{ContainerIsRead};
ghost use Rattle.flcol_container.specs.declared.error.ContainerError.TheVariants as errors;

use crate::error::ContainerError;
use crate::reading::read_container;
use crate::writing::write_container;
use bytes::Bytes;
use fl_serialized::SerializedArray;
use std::alloc::Global;

/// Bytes are the container of one array at most.
#[tactic(auto, using(crate::proofs::Again::one_node_at_most))]
pub fn container_has_one_node()
    ensures { ContainerHasOneNode }
{}

/// What is read from the front is the node whose container the bytes are.
pub fn container_is_read()
    ensures { ContainerIsRead }
{}

/// What is written of an array is read as the same array.
pub fn written_and_read(
    alloc: Global,
    array: &SerializedArray,
) -> Result<SerializedArray, ContainerError>
    ensures same { IfOk result (λ again. again ≡ array.now) }
    ensures refused { IfErr result (λ e. e ≡ errors.BadContainer → HasNoContainer array.now) }
{
    let bytes = Bytes::from_vec(write_container(alloc, array)?)?;
    read_container(alloc, &bytes)
}

/// What is read of a container is written as the same bytes.
pub fn read_and_written(alloc: Global, bytes: &Bytes) -> Result<Vec<u8>, ContainerError>
    ensures same { IfOk result (λ again. again.items ≡ bytes.now) }
    ensures refused { IfErr result (λ e. e ≡ errors.BadContainer → IsNoContainer bytes.now) }
{
    let array = read_container(alloc, bytes)?;
    write_container(alloc, &array)
}
