//! The node that an array is written as.

ghost use Rattle.std.specs.Prelude.{◌≡◌, ◌<◌, ◌++◌, ◌∷◌, [], IfOk, IsTrue, None, Ok, length, unwrap_or};
ghost use Rattle.fl_types.specs.Refusals.{Answers};
ghost use Rattle.fl_types.specs.Types.{integer_type, is_integer};
ghost use Rattle.fl_types.specs.Values.{scalar_parts};
ghost use Rattle.fl_types.specs.declared.dtype.PType.TheVariants.{U8};
ghost use Rattle.fl_column.specs.Columns.{ptype_of_column};
ghost use Rattle.fl_array.specs.Trees.{column};
ghost use Rattle.fl_array.specs.Trees as tree;
ghost use Rattle.fl_array.specs.BitPackedArrays.{tree_of_bitpacked};
ghost use Rattle.fl_array.specs.FoRArrays.{tree_of_for};
ghost use Rattle.fl_array.specs.DeltaArrays.{tree_of_delta};
ghost use Rattle.fl_array.specs.RLEArrays.{tree_of_rle};
ghost use Rattle.fl_serde.specs.NodeColumns.{StandsFor};
ghost use Rattle.fl_serde.specs.RoundTrip.{IsReadBack};
ghost use Rattle.fl_serde.specs.Writing.{buffers_of, head_written, metadata_of, node_kind, node_over, packed_nodes, scalar_bytes, validity_nodes, written};

use crate::NodeKind;
use crate::bit_bytes::bytes_of_bits;
use crate::nodes::{one_node, packed_nodes, patches_message, validity_nodes};
use crate::proof_support::{prove_in_range, prove_read_back};
use crate::slot_bytes::bytes_of_slots;
use bytes::Bytes;
use fl_array::bitpacking::{BitPackedArray, BitWidthsView};
use fl_array::delta::DeltaArray;
use fl_array::for_::{FoRArray, FoRReferences};
use fl_array::laws::{delta_is_well_formed, for_is_well_formed};
use fl_array::rle::RLEArray;
use fl_array::{ArrayRef, Node};
use fl_bitpacking::laws::parts_are_consistent;
use fl_bitpacking::packed_data::PackedData;
use fl_column::{ConstantArray, DType, FastLanesError, PType, Scalar, Validity};
use fl_metadata::{
    BitPackedBlockedMetadata, BitPackedMetadata, DeltaMetadata, FoRChunkedMetadata, RLEMetadata,
    encode_scalar,
};
use fl_serialized::SerializedArray;
use std::alloc::Global;

/// The kind of the node of an array.
pub fn node_kind(array: &ArrayRef) -> NodeKind
    ensures { result ≡ node_kind array.now }
{
    match array.node() {
        Node::Primitive(_) => NodeKind::Primitive,
        Node::Constant(_) => NodeKind::Constant,
        Node::Bool(_) => NodeKind::Bool,
        Node::BitPacked(a) => match a.bit_widths() {
            BitWidthsView::Global(_) => NodeKind::BitPacked,
            BitWidthsView::Blocked(_) => NodeKind::BitPackedBlocked,
        },
        Node::FoR(a) => match a.references() {
            FoRReferences::Global(_) => NodeKind::FoR,
            FoRReferences::Blocked(_) => NodeKind::FoRChunked,
        },
        Node::Delta(_) => NodeKind::Delta,
        Node::RLE(_) => NodeKind::RLE,
    }
}

/// The integer type, or `U8` of booleans.
fn ptype_or_u8(dtype: DType) -> PType
    ensures { result ≡ unwrap_or (integer_type dtype) U8 }
{
    dtype.ptype().unwrap_or(PType::U8)
}

/// The bytes of a scalar of an integer type.
fn scalar_bytes(alloc: Global, scalar: Scalar) -> Result<Vec<u8>, FastLanesError>
    requires { IsTrue (is_integer (scalar_parts scalar).dtype) }
    ensures { Answers (λ v. v.items) result (Ok (scalar_bytes (scalar_parts scalar))) }
{
    match scalar {
        Scalar::Integer(value, _) => {
            prove_in_range(value);
            encode_scalar(alloc, value.ptype(), Some(value.as_i128()))
        }
        Scalar::NullInteger(ptype) => encode_scalar(alloc, ptype, None),
        _ => unreachable!(),
    }
}

/// The metadata of a constant array.
fn constant_metadata(alloc: Global, array: &ConstantArray) -> Result<Vec<u8>, FastLanesError>
    ensures { Answers (λ v. v.items) result (Ok (metadata_of (tree.Constant array.now))) }
{
    let _ptype = array.ptype();
    scalar_bytes(alloc, array.scalar())
}

/// The metadata of a bit-packed array of one width.
fn global_metadata(alloc: Global, data: &PackedData, width: u8) -> Result<Vec<u8>, FastLanesError>
    ensures { Answers (λ v. v.items) result (Ok (metadata_of (tree.BitPackedGlobal data.now width))) }
{
    parts_are_consistent(data);
    let metadata = BitPackedMetadata {
        bit_width: u32::from(width),
        offset: data.offset() as u32,
        patches: patches_message(data.patches()),
    };
    metadata.encode(alloc)
}

/// The metadata of a bit-packed array between boundaries.
fn blocked_metadata(
    alloc: Global,
    data: &PackedData,
    boundaries: &ArrayRef,
) -> Result<Vec<u8>, FastLanesError>
    ensures { Answers (λ v. v.items) result (Ok (metadata_of (tree.BitPackedBlocked data.now boundaries.now))) }
{
    parts_are_consistent(data);
    let metadata = BitPackedBlockedMetadata {
        offset: data.offset() as u32,
        block_offsets: ptype_or_u8(boundaries.dtype()),
        patches: patches_message(data.patches()),
    };
    metadata.encode(alloc)
}

/// The metadata of a bit-packed array.
fn bitpacked_metadata(alloc: Global, array: &BitPackedArray) -> Result<Vec<u8>, FastLanesError>
    ensures { Answers (λ v. v.items) result (Ok (metadata_of (tree_of_bitpacked array.now))) }
{
    match array.bit_widths() {
        BitWidthsView::Global(width) => global_metadata(alloc, array.packed_data(), width),
        BitWidthsView::Blocked(boundaries) => blocked_metadata(
            alloc,
            array.packed_data(),
            boundaries,
        ),
    }
}

/// The metadata of a FoR array.
fn for_metadata(alloc: Global, array: &FoRArray) -> Result<Vec<u8>, FastLanesError>
    ensures { Answers (λ v. v.items) result (Ok (metadata_of (tree_of_for array.now))) }
{
    for_is_well_formed(array);
    match array.references() {
        FoRReferences::Global(reference) => scalar_bytes(alloc, *reference),
        FoRReferences::Blocked(_) => {
            let metadata = FoRChunkedMetadata {
                offset: array.offset() as u32,
            };
            metadata.encode(alloc)
        }
    }
}

/// The metadata of a delta array.
fn delta_metadata(alloc: Global, array: &DeltaArray) -> Result<Vec<u8>, FastLanesError>
    ensures { Answers (λ v. v.items) result (Ok (metadata_of (tree_of_delta array.now))) }
{
    delta_is_well_formed(array);
    let metadata = DeltaMetadata {
        deltas_len: array.deltas().len() as u64,
        offset: array.offset() as u32,
    };
    metadata.encode(alloc)
}

/// The metadata of a run-length encoded array.
fn rle_metadata(alloc: Global, array: &RLEArray) -> Result<Vec<u8>, FastLanesError>
    ensures { Answers (λ v. v.items) result (Ok (metadata_of (tree_of_rle array.now))) }
{
    let (indices, offsets) = (array.indices(), array.offsets());
    let metadata = RLEMetadata {
        values_len: array.values().len() as u64,
        indices_len: indices.len() as u64,
        indices: ptype_or_u8(indices.dtype()),
        values_idx_offsets_len: offsets.len() as u64,
        values_idx_offsets: ptype_or_u8(offsets.dtype()),
        offset: array.offset() as u64,
    };
    metadata.encode(alloc)
}

/// The metadata of an array.
fn metadata_of(alloc: Global, array: &ArrayRef) -> Result<Vec<u8>, FastLanesError>
    ensures { Answers (λ v. v.items) result (Ok (metadata_of array.now)) }
{
    match array.node() {
        Node::Primitive(_) | Node::Bool(_) => Ok(Vec::new(alloc)),
        Node::Constant(a) => constant_metadata(alloc, a),
        Node::BitPacked(a) => bitpacked_metadata(alloc, a),
        Node::FoR(a) => for_metadata(alloc, a),
        Node::Delta(a) => delta_metadata(alloc, a),
        Node::RLE(a) => rle_metadata(alloc, a),
    }
}

/// The one buffer of a list.
fn one_buffer(alloc: Global, bytes: Bytes) -> Result<Vec<Bytes>, FastLanesError>
    ensures { Answers (λ v. v.items) result (Ok (bytes ∷ [])) }
{
    let mut buffers = Vec::new(alloc);
    buffers.push(bytes)?;
    Ok(buffers)
}

/// The packed bytes of a bit-packed array, shared with it.
fn packed_buffer(alloc: Global, array: &BitPackedArray) -> Result<Vec<Bytes>, FastLanesError>
    ensures { Answers (λ v. v.items) result (Ok (buffers_of (tree_of_bitpacked array.now))) }
{
    let packed = array.packed_data().packed().clone()?;
    let buffers = one_buffer(alloc, packed)?;
    match array.bit_widths() {
        BitWidthsView::Global(_) => Ok(buffers),
        BitWidthsView::Blocked(_) => Ok(buffers),
    }
}

/// The buffers of an array. Packed bytes are shared with it.
fn buffers_of(alloc: Global, array: &ArrayRef) -> Result<Vec<Bytes>, FastLanesError>
    ensures { Answers (λ v. v.items) result (Ok (buffers_of array.now)) }
{
    match array.node() {
        Node::Primitive(a) => {
            let bytes = bytes_of_slots(alloc, a)?;
            one_buffer(alloc, bytes)
        }
        Node::Bool(a) => {
            let bytes = bytes_of_bits(alloc, a.bits())?;
            one_buffer(alloc, bytes)
        }
        Node::BitPacked(a) => packed_buffer(alloc, a),
        Node::FoR(a) => match a.references() {
            FoRReferences::Global(_) => Ok(Vec::new(alloc)),
            FoRReferences::Blocked(_) => Ok(Vec::new(alloc)),
        },
        Node::Constant(_) | Node::Delta(_) | Node::RLE(_) => Ok(Vec::new(alloc)),
    }
}

/// The node of an array over a list of children.
fn node_over(
    alloc: Global,
    array: &ArrayRef,
    children: Vec<SerializedArray>,
) -> Result<SerializedArray, FastLanesError>
    requires { written array.now ≡ node_over array.now children.items }
    ensures { Answers (λ node. node) result (Ok (written array.now)) }
{
    let id = String::from_str(alloc, node_kind(array).id())?;
    let metadata = metadata_of(alloc, array)?;
    let buffers = buffers_of(alloc, array)?;
    Ok(SerializedArray {
        id,
        dtype: array.dtype(),
        len: array.len(),
        metadata,
        buffers,
        children,
    })
}

/// The node of an array over its validity.
fn over_validity(
    alloc: Global,
    array: &ArrayRef,
    validity: &Validity,
    len: usize,
) -> Result<SerializedArray, FastLanesError>
    requires { written array.now ≡ node_over array.now (validity_nodes len validity.now) }
    ensures { Answers (λ node. node) result (Ok (written array.now)) }
{
    let children = validity_nodes(alloc, validity, len)?;
    node_over(alloc, array, children)
}

/// The node of a bit-packed array of one width.
fn over_packed(
    alloc: Global,
    array: &ArrayRef,
    data: &PackedData,
) -> Result<SerializedArray, FastLanesError>
    requires { written array.now ≡ node_over array.now (packed_nodes data.now) }
    ensures { Answers (λ node. node) result (Ok (written array.now)) }
{
    let children = packed_nodes(alloc, data)?;
    node_over(alloc, array, children)
}

/// The node of a bit-packed array over that of its boundaries.
fn over_boundaries(
    alloc: Global,
    array: &ArrayRef,
    data: &PackedData,
    boundaries: SerializedArray,
) -> Result<SerializedArray, FastLanesError>
    requires { written array.now ≡ node_over array.now (packed_nodes data.now ++ boundaries ∷ []) }
    ensures { Answers (λ node. node) result (Ok (written array.now)) }
{
    let mut children = packed_nodes(alloc, data)?;
    children.push(boundaries)?;
    node_over(alloc, array, children)
}

/// The node of an array over these children.
fn with_children<const N: usize>(
    alloc: Global,
    array: &ArrayRef,
    children: [SerializedArray; N],
) -> Result<SerializedArray, FastLanesError>
    requires { written array.now ≡ node_over array.now children }
    ensures { Answers (λ node. node) result (Ok (written array.now)) }
{
    let children = Vec::from_array(alloc, children)?;
    node_over(alloc, array, children)
}

/// The node of a delta array over its bases, its deltas and its validity.
fn over_deltas(
    alloc: Global,
    array: &ArrayRef,
    a: &DeltaArray,
    bases: SerializedArray,
    deltas: SerializedArray,
) -> Result<SerializedArray, FastLanesError>
    requires { written array.now ≡ node_over array.now (bases ∷ deltas ∷ validity_nodes a.now.parts.len a.now.parts.validity) }
    ensures { Answers (λ node. node) result (Ok (written array.now)) }
{
    let mut validity = validity_nodes(alloc, a.validity(), a.len())?;
    let mut children = one_node(alloc, bases)?;
    children.push(deltas)?;
    children.append(&mut validity)?;
    node_over(alloc, array, children)
}

/// The node of an array.
fn write(alloc: Global, array: &ArrayRef) -> Result<SerializedArray, FastLanesError>
    ensures { Answers (λ node. node) result (Ok (written array.now)) }
{
    match array.node() {
        Node::Primitive(a) => over_validity(alloc, array, a.validity(), a.len()),
        Node::Constant(_) => node_over(alloc, array, Vec::new(alloc)),
        Node::Bool(a) => over_validity(alloc, array, a.validity(), a.len()),
        Node::BitPacked(a) => match a.bit_widths() {
            BitWidthsView::Global(_) => over_packed(alloc, array, a.packed_data()),
            BitWidthsView::Blocked(boundaries) => {
                let boundaries = write(alloc, boundaries)?;
                over_boundaries(alloc, array, a.packed_data(), boundaries)
            }
        },
        Node::FoR(a) => {
            let encoded = write(alloc, a.encoded())?;
            match a.references() {
                FoRReferences::Global(_) => with_children(alloc, array, [encoded]),
                FoRReferences::Blocked(references) => {
                    let references = write(alloc, references)?;
                    with_children(alloc, array, [encoded, references])
                }
            }
        }
        Node::Delta(a) => {
            let bases = write(alloc, a.bases())?;
            let deltas = write(alloc, a.deltas())?;
            over_deltas(alloc, array, a, bases, deltas)
        }
        Node::RLE(a) => {
            let values = write(alloc, a.values())?;
            let indices = write(alloc, a.indices())?;
            let offsets = write(alloc, a.offsets())?;
            with_children(alloc, array, [values, indices, offsets])
        }
    }
}

/// The node of an array: its id, its type and its length, its own parts as buffers, the messages of its kind in
/// their canonical encoding, and the nodes of the arrays in it. It stands for the array's column. Packed bytes are
/// shared with the array. It is read as the same array, the form of validities aside.
///
/// # Errors
/// Only `OutOfMemory`.
#[tactic(auto, using(crate::proofs::Meanings::answer_written))]
pub fn serialize(alloc: Global, array: &ArrayRef) -> Result<SerializedArray, FastLanesError>
    ensures node { Answers (λ node. node) result (Ok (written array.now)) }
    ensures column { IfOk result (λ node. StandsFor node (column array.now)) }
    ensures read_back { IsReadBack array.now }
{
    prove_read_back(array);
    write(alloc, array)
}
