//! The calls that read and write containers.

ghost use Rattle.std.specs.Prelude.{◌≡◌, ◌≢◌, length, pos};
ghost use Rattle.flcol_c.specs.Containers.{HasContainerLen, Holds, IsArrayOf, IsContainerStatus, IsReadStatus, IsWriteStatus, IsWrittenOver};
ghost use Rattle.flcol_c.specs.Held.{IsKept};

use crate::containers::{container_len_of, container_of, from_container};
use crate::fault::{DONE, Fault};
use crate::handle::ArrayHandle;
use crate::kept::keep;
use std::alloc::Global;

/// Makes the array of a container's bytes, which are copied.
#[unsafe(no_mangle)]
pub extern "C" fn flcol_deserialize(alloc: Global, bytes: &[u8], out: &mut ArrayHandle) -> i32
    ensures status { IsReadStatus bytes.now result }
    ensures made { result ≡ pos 0 → Holds (IsArrayOf bytes.now) out.new.tree }
    ensures unmade { result ≢ pos 0 → out.new ≡ out.old }
{
    keep(out, alloc, from_container(alloc, bytes))
}

/// Writes how many bytes the array's container has. None is made for it.
#[unsafe(no_mangle)]
pub extern "C" fn flcol_serialized_len(
    alloc: Global,
    array: &mut ArrayHandle,
    len: &mut usize,
) -> i32
    ensures kept { IsKept array.old array.new }
    ensures status { IsContainerStatus array.old.tree result }
    ensures found { result ≡ pos 0 → Holds (HasContainerLen len.new) array.old.tree }
    ensures unfound { result ≢ pos 0 → len.new ≡ len.old }
{
    let Some(source) = array.array() else {
        return Fault::NoArray.status();
    };
    match container_len_of(alloc, source) {
        Ok(found) => {
            *len = found;
            DONE
        }
        Err(fault) => fault.status(),
    }
}

/// Writes the array's container over the first of the bytes, and how many it has. The bytes behind it stay as they are.
#[unsafe(no_mangle)]
pub extern "C" fn flcol_serialize(
    alloc: Global,
    array: &mut ArrayHandle,
    bytes: &mut [u8],
    len: &mut usize,
) -> i32
    ensures kept { IsKept array.old array.new }
    ensures status { IsWriteStatus (length bytes.old) array.old.tree result }
    ensures written { result ≡ pos 0 → Holds (IsWrittenOver bytes.old bytes.new len.new) array.old.tree }
    ensures unwritten { result ≢ pos 0 → (bytes.new ≡ bytes.old) × (len.new ≡ len.old) }
{
    let Some(source) = array.array() else {
        return Fault::NoArray.status();
    };
    let container = match container_of(alloc, source) {
        Ok(container) => container,
        Err(fault) => return fault.status(),
    };
    if bytes.len() < container.len() {
        return Fault::WrongLength.status();
    }
    bytes[..container.len()].copy_from_slice(&container);
    *len = container.len();
    DONE
}
