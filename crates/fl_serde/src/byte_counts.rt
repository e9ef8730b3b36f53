//! How many bytes arrays take when they are written.

ghost use Rattle.std.specs.Prelude.{◌≡◌, ◌-◌, ◌*◌, ◌/◌, ◌<◌, ◌≤◌, ◌^◌, length, min};
ghost use Rattle.std.specs.Option.{option_copied};
ghost use Rattle.fl_types.specs.Integers.{bits_of_type};
ghost use Rattle.fl_serde.specs.ByteCounts.{bool_bytes, bytes_of_patches, offsets_bytes, packed_bytes, patches_bytes, primitive_bytes, slots_bytes, tree_bytes, validity_bytes};
ghost use Rattle.fl_serde.specs.Leaves.{bits_size, slots_size};

use fl_array::bitpacking::BitWidthsView;
use fl_array::for_::FoRReferences;
use fl_array::{ArrayRef, Node};
use fl_bitpacking::packed_data::PackedData;
use fl_column::{BoolArray, PType, PrimitiveArray, Validity};
use fl_patches::Patches;

/// The bytes of this many booleans.
fn bits_size(len: usize) -> u128
    ensures value { result ≡ bits_size len }
    ensures few { result < 2 ^ 64 }
{
    len.div_ceil(8) as u128
}

/// The bytes of this many integers of a type.
pub fn slots_size(ptype: PType, len: usize) -> u128
    ensures value { result ≡ slots_size ptype len }
    ensures few { result < 2 ^ 67 }
{
    len as u128 * (ptype.bit_width() as u128 / 8)
}

/// The bytes of the validity of `len` items: a bit for each where nulls may stand by its form.
pub fn validity_bytes(validity: &Validity, len: usize) -> u128
    ensures value { result ≡ validity_bytes len validity.now }
    ensures few { result < 2 ^ 64 }
{
    match validity {
        Validity::NonNullable | Validity::AllValid => 0,
        Validity::AllInvalid => bits_size(len),
        Validity::Array(bits) => bits_size(bits.len()),
    }
}

/// The bytes of an array's stored integers.
fn slots_bytes(array: &PrimitiveArray) -> u128
    ensures value { result ≡ slots_bytes array.now }
    ensures few { result < 2 ^ 67 }
{
    slots_size(array.ptype(), array.len())
}

/// The bytes of a plain array.
pub fn primitive_bytes(array: &PrimitiveArray) -> u128
    ensures value { result ≡ primitive_bytes array.now }
    ensures few { result < 2 ^ 68 }
{
    slots_bytes(array) + validity_bytes(array.validity(), array.len())
}

/// The bytes of chunk offsets, if there are any.
fn offsets_bytes(offsets: Option<&PrimitiveArray>) -> u128
    ensures value { result ≡ offsets_bytes (option_copied offsets.entry) }
    ensures few { result < 2 ^ 67 }
{
    match offsets {
        None => 0,
        Some(offsets) => slots_bytes(offsets),
    }
}

/// The bytes of patches.
fn bytes_of_patches(patches: &Patches) -> u128
    ensures value { result ≡ bytes_of_patches patches.now }
    ensures few { result < 2 ^ 69 }
{
    let offsets = offsets_bytes(patches.chunk_offsets());
    slots_bytes(patches.indices()) + slots_bytes(patches.values()) + offsets
}

/// The bytes of patches, if there are any.
fn patches_bytes(patches: Option<&Patches>) -> u128
    ensures value { result ≡ patches_bytes (option_copied patches.entry) }
    ensures few { result < 2 ^ 69 }
{
    match patches {
        None => 0,
        Some(patches) => bytes_of_patches(patches),
    }
}

/// The bytes of packed parts.
fn packed_bytes(parts: &PackedData) -> u128
    ensures value { result ≡ packed_bytes parts.now }
    ensures few { result < 2 ^ 70 }
{
    let patches = patches_bytes(parts.patches());
    parts.packed().len() as u128 + patches + validity_bytes(parts.validity(), parts.len())
}

/// The bytes of booleans.
fn bool_bytes(array: &BoolArray) -> u128
    ensures value { result ≡ bool_bytes array.now }
    ensures few { result < 2 ^ 65 }
{
    bits_size(array.bits().len()) + validity_bytes(array.validity(), array.len())
}

/// A number, `u64::MAX` for one above it.
fn capped(bytes: u128) -> u64
    ensures { result ≡ min bytes (2 ^ 64 - 1) }
{
    bytes.min(u64::MAX as u128) as u64
}

/// How many bytes the array takes when it is written: those of all buffers of its node and of the nodes in it,
/// which `serialize` makes. `u64::MAX` where there are more, as only a null that is repeated can have it.
pub fn nbytes(array: &ArrayRef) -> u64
    ensures { result ≡ min (tree_bytes array.now) (2 ^ 64 - 1) }
{
    match array.node() {
        Node::Primitive(a) => capped(primitive_bytes(a)),
        Node::Constant(_) => 0,
        Node::Bool(a) => capped(bool_bytes(a)),
        Node::BitPacked(a) => {
            let packed = capped(packed_bytes(a.packed_data()));
            match a.bit_widths() {
                BitWidthsView::Global(_) => packed,
                BitWidthsView::Blocked(boundaries) => packed.saturating_add(nbytes(boundaries)),
            }
        }
        Node::FoR(a) => {
            let encoded = nbytes(a.encoded());
            match a.references() {
                FoRReferences::Global(_) => encoded,
                FoRReferences::Blocked(references) => encoded.saturating_add(nbytes(references)),
            }
        }
        Node::Delta(a) => {
            let blocks = nbytes(a.bases()).saturating_add(nbytes(a.deltas()));
            blocks.saturating_add(capped(validity_bytes(a.validity(), a.len())))
        }
        Node::RLE(a) => {
            let runs = nbytes(a.values()).saturating_add(nbytes(a.indices()));
            runs.saturating_add(nbytes(a.offsets()))
        }
    }
}
