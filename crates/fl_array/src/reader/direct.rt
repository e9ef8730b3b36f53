//! A reader of an array of any kind but run-length encoding.

ghost use Rattle.std.specs.Prelude.{◌≡◌, ◌+◌, ◌≤◌, ◌<◌, ◌^◌, IsTrue, length};
ghost use Rattle.fl_types.specs.Types.{has_ptype};
ghost use Rattle.fl_bitpacking.specs.Blocks.{value_at};
ghost use Rattle.fl_array.specs.Readers.{AreItemsFrom, Prepared};

use crate::array::primitive_cow::PrimitiveCow;
use crate::delta::DeltaArray;
use crate::reader::deltas::{offset_of_deltas, read_deltas};
use crate::reader::leaves::{copy_items, fill_items};
use crate::reader::packed::{PackedSums, len_of_sums, offset_of_sums, read_packed};
use crate::reader::references::{add_reference, add_references};
use fastlanes::Work;
use fl_bitpacking::unpack_iter::BitPacked;
use fl_column::{ConstantArray, PValue, PhysicalPType, PrimitiveArray};
use num_traits::WrappingAdd;
use std::marker::Model;

/// A reader of an array of any kind but run-length encoding: what its encodings need beside the stored items is decoded,
/// once. Run-length encoded arrays in it are decoded whole. Contracts see the column, the position of its first item in
/// its block, and how deep the reader is.
#[cycle(reader)]
pub(crate) struct DirectReader<'a> {
    pub(crate) part: Part<'a>,
}

#[cycle(reader)]
#[derive(Drop)]
pub(crate) enum Part<'a> {
    /// Integers, one by one.
    Primitive(&'a PrimitiveArray),
    /// One integer or null, repeated.
    Constant(&'a ConstantArray),
    /// Integers in packed blocks, with or without references.
    Packed(PackedSums<'a>),
    /// The items of a reader, each plus one reference.
    FoR(PValue, Box<DirectReader<'a>>),
    /// The items of a reader, each plus the reference of its chunk, where the first one is at an offset in its chunk.
    FoRChunked(PrimitiveCow<'a>, usize, Box<DirectReader<'a>>),
    /// The bases of a delta array, and the reader of its deltas.
    Delta(&'a DeltaArray, PrimitiveCow<'a>, Box<DirectReader<'a>>),
    /// Integers that were decoded when the reader was made.
    Decoded(PrimitiveArray),
}

// Written out, so that letting one go is one call in each function that owns one.
impl Drop for DirectReader<'_> {
    #[cycle(reader)]
    fn drop(self) {
        let DirectReader { part: _ } = self;
    }
}

impl<'a> Model for DirectReader<'a> {
    ghost use Rattle.std.proofs.Common.{arith};
    ghost use Rattle.fl_array.specs.Readers.{Prepared};

    ghost Value = { Prepared };

    ghost use Rattle.fl_array.specs.ReaderParts.{IsPart, prepared};

    ghost view = { λ r. prepared r.part };

    ghost invariant = { λ r. IsPart r.part };

    ghost size = { λ p. p.depth };

    ghost size_decreases = { λ r h. Prim.grind arith };
}

impl DirectReader<'_> {
    /// The number of items.
    #[tactic(auto, using(crate::proofs::ReadLaws::chunked_len))]
    pub(crate) fn len(&self) -> usize
        ensures { result ≡ length self.now.column.items }
    {
        match &self.part {
            Part::Primitive(plain) => plain.len(),
            Part::Constant(constant) => constant.len(),
            Part::Packed(packed) => len_of_sums(packed),
            Part::FoR(_, encoded) => encoded.len(),
            Part::FoRChunked(_, _, encoded) => encoded.len(),
            Part::Delta(array, _, _) => array.len(),
            Part::Decoded(plain) => plain.len(),
        }
    }

    /// The position of the first item in its block of 1024.
    #[tactic(auto, using(crate::proofs::ReadLaws::chunked_len))]
    pub(crate) fn offset(&self) -> usize
        ensures offset { result ≡ self.now.offset }
        ensures low { result < 1024 }
        ensures few { result + length self.now.column.items < 2 ^ 64 }
    {
        // For the proof: there are fewer than 2 ^ 64 items.
        let _len = self.len();
        match &self.part {
            Part::Packed(packed) => offset_of_sums(packed),
            Part::FoR(_, encoded) => encoded.offset(),
            Part::FoRChunked(_, _, encoded) => encoded.offset(),
            Part::Delta(array, _, _) => offset_of_deltas(array),
            _ => 0,
        }
    }

    /// Writes the items from an index on, as many as the slice has.
    #[tactic(auto, using(crate::proofs::ReadLaws::chunked_len))]
    #[cycle(reads)]
    pub(crate) fn read_items<T: BitPacked + PhysicalPType + WrappingAdd>(
        &self,
        start: usize,
        items: &mut [T],
        work: &mut Work,
    )
        requires typed { IsTrue (has_ptype T.PTYPE self.now.column.dtype) }
        requires range { start + length items.old ≤ length self.now.column.items }
        ensures { AreItemsFrom start (length items.old) (value_at T.value items.new) self.now.column }
    {
        match &self.part {
            Part::Primitive(plain) => copy_items(plain, start, items),
            Part::Constant(constant) => fill_items(constant, start, items),
            Part::Packed(packed) => read_packed(packed, start, items, work),
            Part::FoR(reference, encoded) => {
                encoded.read_items(start, items, work);
                add_reference(encoded, *reference, start, items)
            }
            Part::FoRChunked(references, offset, encoded) => {
                encoded.read_items(start, items, work);
                add_references(encoded, references.array(), *offset, start, items)
            }
            Part::Delta(array, bases, deltas) => {
                read_deltas(array, bases.array(), deltas, start, items, work)
            }
            Part::Decoded(plain) => copy_items(plain, start, items),
        }
    }
}
