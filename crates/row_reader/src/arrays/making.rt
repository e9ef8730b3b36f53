//! Encoded arrays of their parts. Every call that makes one stands here.

use crate::arrays::Built;
use bytes::Bytes;
use fl_array::bitpacking::BitPacked;
use fl_array::delta::Delta;
use fl_array::for_::FoR;
use fl_array::rle::RLE;
use fl_array::{ArrayRef, IntoArray};
use fl_patches::Patches;
use fl_types::{PType, Scalar, Validity};
use std::alloc::Global;

/// The parts of a bit-packed array, without the widths of its blocks.
#[derive(Drop)]
pub struct Packed {
    pub bytes: Bytes,
    pub ptype: PType,
    pub validity: Validity,
    pub patches: Option<Patches>,
    pub offset: u16,
    pub len: usize,
}

/// A bit-packed array, whose blocks all have one width.
pub fn bitpacked(parts: Packed, width: u8) -> Built {
    let Packed {
        bytes,
        ptype,
        validity,
        patches,
        offset,
        len,
    } = parts;
    let array = BitPacked::try_new(bytes, ptype, validity, patches, width, len, offset)?;
    Ok(array.into_array())
}

/// A bit-packed array, whose blocks lie between boundaries.
pub fn blocked(alloc: Global, parts: Packed, boundaries: ArrayRef) -> Built {
    let Packed {
        bytes,
        ptype,
        validity,
        patches,
        offset,
        len,
    } = parts;
    let array = BitPacked::try_new_with_block_offsets(
        alloc, bytes, ptype, validity, patches, boundaries, len, offset,
    )?;
    Ok(array.into_array())
}

/// An array less one reference.
pub fn global_for(alloc: Global, encoded: ArrayRef, reference: Scalar) -> Built {
    Ok(FoR::try_new(alloc, encoded, reference)?.into_array())
}

/// An array less a reference for each chunk.
pub fn chunked_for(alloc: Global, encoded: ArrayRef, references: ArrayRef, offset: u16) -> Built {
    Ok(FoR::try_new_chunked(alloc, encoded, references, offset)?.into_array())
}

/// An array of bases and deltas.
pub fn delta(
    alloc: Global,
    bases: ArrayRef,
    deltas: ArrayRef,
    validity: Validity,
    offset: usize,
    len: usize,
) -> Built {
    Ok(Delta::try_new(alloc, bases, deltas, validity, offset, len)?.into_array())
}

/// An array of run values, run indices and run offsets.
pub fn rle(
    alloc: Global,
    values: ArrayRef,
    indices: ArrayRef,
    offsets: ArrayRef,
    offset: usize,
    len: usize,
) -> Built {
    Ok(RLE::try_new(alloc, values, indices, offsets, offset, len)?.into_array())
}
