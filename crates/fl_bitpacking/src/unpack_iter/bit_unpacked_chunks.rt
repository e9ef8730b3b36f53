//! Reading packed columns with the kernels of the layout.

ghost use Rattle.std.specs.Prelude.{◌≡◌, ◌≤◌};
ghost use Rattle.fl_types.specs.Integers.{bits_of_type};

use crate::bit_packed::{BitCount, BitPacked};
use crate::bitpack_decompress::block_decoding::AsStored;
use crate::blocks::PackedBlocks;
use crate::packed_reader::PackedReader;
use crate::unpack_iter::bit_unpack_iterator::BitUnpackIterator;
use crate::unpack_iter::cut_blocks::{
    end_of_whole_blocks, first_whole_block, lends_first, lends_last, unpack_at,
};
use crate::unpack_iter::unpacked_block::UnpackedBlock;
use crate::unpack_iter::unpacked_items::{Span, UnpackedItems};
use crate::unpack_iter::{BitPackingStrategy, PackedSource, UnpackedChunks};
use fastlanes::{FL_CHUNK_SIZE, Work};
use fl_patches::Widths;
use fl_types::FastLanesError;
use std::marker::Model;

/// Reads a packed column block by block with the kernels of the layout: the items of a first block that is
/// cut or the only one, the whole blocks, the items of a last block that is cut, and all items at once. Its
/// only state is its `Work`.
#[derive(Drop)]
pub struct BitUnpackedChunks<'a, T: BitCount> {
    packed: &'a [u8],
    bit_width: usize,
    offset: usize,
    len: usize,
    scratch: &'a mut [T; FL_CHUNK_SIZE],
    work: Work,
}

impl<'a, T: BitCount> Model for BitUnpackedChunks<'a, T> {
    ghost use Rattle.fl_bitpacking.specs.Readers.{Reader, IsReader};

    ghost Value = { Reader };

    ghost view = { λ c. record { packed = c.packed.now; bit_width = c.bit_width; offset = c.offset; len = c.len; work = c.work } };

    ghost invariant = { λ c. IsReader T.TYPE_BITS c.packed.now c.bit_width c.offset c.len };
}

impl<'a, T: BitPacked> BitUnpackedChunks<'a, T> {
    ghost use Rattle.std.specs.Prelude.{◌≡◌, ◌+◌, ◌-◌, ◌*◌, ◌<◌, ◌≤◌, ℕ, IfSome, None, Some, length, min};
    ghost use Rattle.std.specs.Borrow.{sem};
    ghost use Rattle.fl_types.specs.Integers.{bits_of_type};
    ghost use Rattle.fl_bitpacking.specs.Blocks.{global_blocks, item_of_blocks, value_at};
    ghost use Rattle.fl_bitpacking.specs.BlockLends.{blocks_left};
    ghost use Rattle.fl_bitpacking.specs.Readers.{Reader, after_initial, after_trailer, blocks_read, initial_items, trailer_items, unpacked_one, whole_blocks};
    ghost use Rattle.fl_bitpacking.specs.WholeBlocks.{block_items_at};
    ghost use Rattle.fl_bitpacking.specs.ChunksLending.{lends_chunk_items, lends_count};
    ghost use Rattle.fl_bitpacking.specs.Lent.{integers_lent};
    ghost use Rattle.fl_bitpacking.specs.Sources.{reader_at};

    /// A reader of this many items of packed blocks of one width, which is at most the type's bits. The scratch
    /// block is space that it writes.
    ///
    /// # Errors
    /// `NotGlobal` if each block has a width of its own. Then `OffsetTooLarge` if the offset is 1024 or
    /// more, `LengthOverflow` if offset and length together, rounded up to whole blocks, are above
    /// `usize::MAX`, and `PackedLength` if the bytes are not those of the blocks.
    pub fn try_new<D: PackedSource>(
        data: &'a D,
        len: usize,
        scratch: &'a mut [T; FL_CHUNK_SIZE],
    ) -> Result<Self, FastLanesError>
        requires { IfSome (D.width data.now) (λ width. width ≤ bits_of_type T.PTYPE) }
        ensures { result ≡ reader_at (D.bytes data.now) (D.width data.now) (D.first data.now) len }
    {
        let Some(width) = data.global_width() else {
            return Err(FastLanesError::NotGlobal);
        };
        let by = BitPackingStrategy;
        let (packed, first) = (data.packed_bytes(), data.first_position());
        let width = usize::from(width);
        match UnpackedChunks::try_new_with_strategy(by, packed, width, first, len, scratch) {
            Ok(chunks) => Ok(BitUnpackedChunks::of(chunks)),
            Err(refusal) => Err(refusal),
        }
    }

    /// A reader of the same blocks, with the same counts.
    fn of(chunks: UnpackedChunks<'a, T, BitPackingStrategy>) -> Self
        ensures { result ≡ chunks.entry }
    {
        let UnpackedChunks {
            strategy: _,
            packed,
            bit_width,
            offset,
            len,
            scratch,
            work,
        } = chunks;
        BitUnpackedChunks {
            packed,
            bit_width,
            offset,
            len,
            scratch,
            work,
        }
    }

    /// The number of blocks unpacked so far.
    pub fn work(&self) -> &Work
        ensures { result.now ≡ self.now.work }
    {
        &self.work
    }

    /// Unpacks a block, and lends its items at these positions.
    fn lend_block(&mut self, j: usize, span: Span) -> UnpackedItems<'_, T>
        requires block { j < blocks_read self.old }
        requires order { span.from ≤ span.to }
        requires within { span.to ≤ 1024 }
        ensures* after { sem 𝓛 (lends_chunk_items T.row T.BitCount self.entry (unpacked_one self.old) result) }
        ensures items { integers_lent T.value result ≡ Some (block_items_at T.PTYPE self.old.bit_width self.old.packed (1024 * j + span.from) (span.to - span.from)) }
    {
        let (by, packed, bit_width) = (BitPackingStrategy, self.packed, self.bit_width);
        unpack_at(&by, packed, bit_width, j, self.scratch, &mut self.work);
        UnpackedItems {
            block: &mut *self.scratch,
            span: Some(span),
        }
    }

    /// Lends no items.
    fn lend_none(&mut self) -> UnpackedItems<'_, T>
        ensures* after { sem 𝓛 (lends_chunk_items T.row T.BitCount self.entry self.old result) }
        ensures items { integers_lent T.value result ≡ None }
    {
        UnpackedItems {
            block: &mut *self.scratch,
            span: None,
        }
    }

    /// The items of the first block if it is cut or the only one, else none. They are lent until the reader
    /// is used again, and are the same at every call.
    pub fn initial(&mut self) -> UnpackedItems<'_, T>
        ensures* after { sem 𝓛 (lends_chunk_items T.row T.BitCount self.entry (after_initial self.old) result) }
        ensures items { integers_lent T.value result ≡ initial_items T.PTYPE self.old }
    {
        if !lends_first(self.offset, self.len) {
            return self.lend_none();
        }
        let end = self.offset + self.len;
        let span = Span::new(self.offset, end.min(FL_CHUNK_SIZE));
        self.lend_block(0, span)
    }

    /// The blocks that neither `initial` nor `trailer` lends, the same at every call. The reader's `Work`
    /// counts those that are unpacked.
    pub fn full_chunks(&mut self) -> BitUnpackIterator<'_, T>
        ensures* after { sem 𝓛 (lends_count T.row T.BitCount self.entry result) }
        ensures blocks { blocks_left result ≡ whole_blocks self.old }
    {
        let (offset, len) = (self.offset, self.len);
        BitUnpackIterator {
            packed: self.packed,
            block: UnpackedBlock::new([T::zero(); FL_CHUNK_SIZE], self.bit_width),
            next: first_whole_block(offset, len),
            num_chunks: end_of_whole_blocks(offset, len),
            work: &mut self.work,
        }
    }

    /// The items of the last block if it is cut and not the only one, else none. They are lent until the
    /// reader is used again, and are the same at every call.
    pub fn trailer(&mut self) -> UnpackedItems<'_, T>
        ensures* after { sem 𝓛 (lends_chunk_items T.row T.BitCount self.entry (after_trailer self.old) result) }
        ensures items { integers_lent T.value result ≡ trailer_items T.PTYPE self.old }
    {
        if !lends_last(self.offset, self.len) {
            return self.lend_none();
        }
        let end = self.offset + self.len;
        let span = Span::new(0, end % FL_CHUNK_SIZE);
        self.lend_block(end / FL_CHUNK_SIZE, span)
    }

    /// Writes all items. Each block is unpacked once, a whole one directly into the output.
    #[tactic(auto, unfolding(crate::specs::BlockSums::decoded_item))]
    pub fn decode_into(&mut self, output: &mut [T])
        requires { length output.old ≡ self.old.len }
        ensures items { (i : ℕ) → i < length output.old → value_at T.value output.new i ≡ item_of_blocks T.PTYPE (global_blocks self.old.bit_width) self.old.packed (self.old.offset + i) }
        ensures blocks { self.new.work.blocks ≡ min (self.old.work.blocks + blocks_read self.old) u64.MAX }
        ensures words { self.new.work.words ≡ self.old.work.words }
        ensures same { self.new ≡ record self.old { work = self.new.work } }
    {
        let blocks = PackedBlocks {
            widths: Widths::Global(self.bit_width),
            offset: self.offset,
            len: self.len,
        };
        let decoder = AsStored {
            strategy: &BitPackingStrategy,
        };
        let mut reader = PackedReader::over(self.packed, &mut self.work);
        blocks.decode_into(&decoder, output, self.scratch, &mut reader);
        self.work = reader.finish();
    }
}
