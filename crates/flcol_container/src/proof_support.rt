//! Facts that the types carry, stated where a proof needs them. They have no effect.

ghost use Rattle.std.specs.Prelude.{◌<◌, ◌^◌};
ghost use Rattle.fl_metadata.specs.WrittenText.{AreBytes};
ghost use Rattle.fl_serialized.specs.Nodes.{head_of};

use fl_serialized::SerializedArray;

/// Each is a number below 256.
pub(crate) fn prove_bytes(bytes: &[u8])
    ensures { AreBytes bytes.now }
{
    let _ = bytes.len();
}

/// A machine's word holds the array's length.
pub(crate) fn prove_len(array: &SerializedArray)
    ensures { (head_of array.now).len < 2 ^ 64 }
{
    let _ = array.len();
}
