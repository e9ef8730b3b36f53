//! Reading packed columns block by block.

mod bit_unpack_iterator;
mod bit_unpacked_chunks;
mod cut_blocks;
mod unpacked_block;
mod unpacked_items;

ghost use Rattle.std.specs.Prelude.{◌≡◌, ◌+◌, ◌*◌, ◌<◌, ◌≤◌, ℕ, List, Option, length, min};
ghost use Rattle.fl_types.specs.Integers.{bits_of_type};
ghost use Rattle.fl_bitpacking.specs.Blocks.{block_item, value_at};

pub use crate::bit_packed::{BitCount, BitPacked};
use crate::bitpack_decompress::block_decoding::AsStored;
use crate::blocks::PackedBlocks;
use crate::packed_reader::PackedReader;
pub use crate::unpack_iter::bit_unpack_iterator::BitUnpackIterator;
pub use crate::unpack_iter::bit_unpacked_chunks::BitUnpackedChunks;
use crate::unpack_iter::cut_blocks::{lends_first, lends_last, unpack_at, whole_blocks};
use crate::unpack_iter::unpacked_items::Span;
pub use crate::unpack_iter::unpacked_items::UnpackedItems;
use fastlanes::{FL_CHUNK_SIZE, Work};
use fl_patches::Widths;
use fl_types::{FastLanesError, NativePType};
use std::marker::Model;

/// A way to unpack a block of integers of a type. The contract is the layout's; a strategy may do more, for
/// instance record what it read.
pub trait UnpackStrategy<T: NativePType> {
    /// Unpacks a block of `128 * bit_width` bytes. The bits of an item from `bit_width` on are 0, and
    /// its pattern is read as the type.
    fn unpack_chunk(
        &self,
        bit_width: usize,
        chunk: &[u8],
        dst: &mut [T; FL_CHUNK_SIZE],
        work: &mut Work,
    )
        requires width { bit_width ≤ bits_of_type T.PTYPE }
        requires block { length chunk.now ≡ 128 * bit_width }
        ensures items { (i : ℕ) → i < 1024 → value_at T.value dst.new i ≡ block_item T.PTYPE bit_width chunk.now i }
        ensures whole { length dst.new ≡ 1024 }
        ensures blocks { work.new.blocks ≡ min (work.old.blocks + 1) u64.MAX }
        ensures words { work.new.words ≡ work.old.words };
}

/// Unpacks with the kernels of the layout.
#[derive(Clone, Copy)]
pub struct BitPackingStrategy;

impl<T: BitPacked> UnpackStrategy<T> for BitPackingStrategy {
    fn unpack_chunk(
        &self,
        bit_width: usize,
        chunk: &[u8],
        dst: &mut [T; FL_CHUNK_SIZE],
        work: &mut Work,
    ) {
        T::unpack_block(bit_width, chunk, dst, work);
    }
}

/// Packed blocks that a reader can read.
pub trait PackedSource {
    /// The bytes of the blocks.
    ghost bytes: { Self → List ℕ };

    /// The width of all blocks, if they have one.
    ghost width: { Self → Option ℕ };

    /// The position of the first item in the first block.
    ghost first: { Self → ℕ };

    /// The bytes of the blocks.
    fn packed_bytes(&self) -> &[u8]
        ensures { result.now ≡ bytes self.now };

    /// The width of all blocks, or `None` if each has its own.
    fn global_width(&self) -> Option<u8>
        ensures { result ≡ width self.now };

    /// The position of the first item in the first block.
    fn first_position(&self) -> usize
        ensures { result ≡ first self.now };
}

/// Reads a packed column block by block: the items of a first block that is cut or the only one, the items
/// of a last block that is cut, and all items at once. Its only state is its `Work`.
#[derive(Drop)]
pub struct UnpackedChunks<'a, T: BitCount, S> {
    pub(crate) strategy: S,
    pub(crate) packed: &'a [u8],
    pub(crate) bit_width: usize,
    pub(crate) offset: usize,
    pub(crate) len: usize,
    pub(crate) scratch: &'a mut [T; FL_CHUNK_SIZE],
    pub(crate) work: Work,
}

impl<'a, T: BitCount, S> Model for UnpackedChunks<'a, T, S> {
    ghost use Rattle.fl_bitpacking.specs.Readers.{Reader, IsReader};

    ghost Value = { Reader };

    ghost view = { λ c. record { packed = c.packed.now; bit_width = c.bit_width; offset = c.offset; len = c.len; work = c.work } };

    ghost invariant = { λ c. IsReader T.TYPE_BITS c.packed.now c.bit_width c.offset c.len };
}

impl<'a, T: BitPacked, S: UnpackStrategy<T> + Drop> UnpackedChunks<'a, T, S> {
    ghost use Rattle.std.specs.Prelude.{◌≡◌, ◌+◌, ◌-◌, ◌*◌, ◌<◌, ◌≤◌, ℕ, None, Some, length, min};
    ghost use Rattle.std.specs.Borrow.{sem};
    ghost use Rattle.fl_types.specs.Integers.{bits_of_type};
    ghost use Rattle.fl_bitpacking.specs.Blocks.{global_blocks, item_of_blocks, value_at};
    ghost use Rattle.fl_bitpacking.specs.Readers.{Reader, after_initial, after_trailer, blocks_read, initial_items, new_reader, trailer_items, unpacked_one};
    ghost use Rattle.fl_bitpacking.specs.WholeBlocks.{block_items_at};
    ghost use Rattle.fl_bitpacking.specs.Lending.{lends_items};
    ghost use Rattle.fl_bitpacking.specs.Lent.{integers_lent};

    /// Unpacks a block, and lends its items at these positions.
    fn lend_block(&mut self, j: usize, span: Span) -> UnpackedItems<'_, T>
        requires block { j < blocks_read self.old }
        requires order { span.from ≤ span.to }
        requires within { span.to ≤ 1024 }
        ensures* after { sem 𝓛 (lends_items T.row S.row T.BitCount self.entry (unpacked_one self.old) result) }
        ensures items { integers_lent T.value result ≡ Some (block_items_at T.PTYPE self.old.bit_width self.old.packed (1024 * j + span.from) (span.to - span.from)) }
    {
        let (packed, bit_width) = (self.packed, self.bit_width);
        unpack_at(
            &self.strategy,
            packed,
            bit_width,
            j,
            self.scratch,
            &mut self.work,
        );
        UnpackedItems {
            block: &mut *self.scratch,
            span: Some(span),
        }
    }

    /// Lends no items.
    fn lend_none(&mut self) -> UnpackedItems<'_, T>
        ensures* after { sem 𝓛 (lends_items T.row S.row T.BitCount self.entry self.old result) }
        ensures items { integers_lent T.value result ≡ None }
    {
        UnpackedItems {
            block: &mut *self.scratch,
            span: None,
        }
    }

    /// The items of the first block if it is cut or the only one, else none. They are lent until the reader
    /// is used again, and are the same at every call.
    pub fn initial(&mut self) -> UnpackedItems<'_, T>
        ensures* after { sem 𝓛 (lends_items T.row S.row T.BitCount self.entry (after_initial self.old) result) }
        ensures items { integers_lent T.value result ≡ initial_items T.PTYPE self.old }
    {
        if !lends_first(self.offset, self.len) {
            return self.lend_none();
        }
        let end = self.offset + self.len;
        let span = Span::new(self.offset, end.min(FL_CHUNK_SIZE));
        self.lend_block(0, span)
    }

    /// The items of the last block if it is cut and not the only one, else none. They are lent until the
    /// reader is used again, and are the same at every call.
    pub fn trailer(&mut self) -> UnpackedItems<'_, T>
        ensures* after { sem 𝓛 (lends_items T.row S.row T.BitCount self.entry (after_trailer self.old) result) }
        ensures items { integers_lent T.value result ≡ trailer_items T.PTYPE self.old }
    {
        if !lends_last(self.offset, self.len) {
            return self.lend_none();
        }
        let end = self.offset + self.len;
        let span = Span::new(0, end % FL_CHUNK_SIZE);
        self.lend_block(end / FL_CHUNK_SIZE, span)
    }

    /// A reader of a column of this many items from the offset on, whose blocks have one width, at most
    /// the type's bits. The strategy unpacks the blocks; the scratch block is space that it writes.
    ///
    /// # Errors
    /// `OffsetTooLarge` if the offset is 1024 or more. Then `LengthOverflow` if offset and length
    /// together, rounded up to whole blocks, are above `usize::MAX`. Then `PackedLength` if the bytes
    /// are not those of the blocks.
    pub fn try_new_with_strategy(
        strategy: S,
        packed: &'a [u8],
        bit_width: usize,
        offset: usize,
        len: usize,
        scratch: &'a mut [T; FL_CHUNK_SIZE],
    ) -> Result<Self, FastLanesError>
        requires { bit_width ≤ bits_of_type T.PTYPE }
        ensures { result ≡ new_reader packed.now bit_width offset len }
    {
        if offset >= FL_CHUNK_SIZE {
            return Err(FastLanesError::OffsetTooLarge);
        }
        let Some(blocks) = whole_blocks(offset, len) else {
            return Err(FastLanesError::LengthOverflow);
        };
        if packed.len() as u128 != (FL_CHUNK_SIZE / 8 * bit_width) as u128 * blocks as u128 {
            return Err(FastLanesError::PackedLength);
        }
        Ok(UnpackedChunks {
            strategy,
            packed,
            bit_width,
            offset,
            len,
            scratch,
            work: Work::new(),
        })
    }

    /// The number of blocks unpacked so far.
    pub fn work(&self) -> &Work
        ensures { result.now ≡ self.now.work }
    {
        &self.work
    }

    /// Writes all items. Each block is unpacked once, a whole one directly into the output.
    #[tactic(auto, unfolding(crate::specs::BlockSums::decoded_item))]
    pub fn decode_into(&mut self, output: &mut [T])
        requires { length output.old ≡ self.old.len }
        ensures items { (i : ℕ) → i < length output.old → value_at T.value output.new i ≡ item_of_blocks T.PTYPE (global_blocks self.old.bit_width) self.old.packed (self.old.offset + i) }
        ensures blocks { self.new.work.blocks ≡ min (self.old.work.blocks + blocks_read self.old) u64.MAX }
        ensures words { self.new.work.words ≡ self.old.work.words }
        ensures same { self.new ≡ record self.old { work = self.new.work } }
    {
        let blocks = PackedBlocks {
            widths: Widths::Global(self.bit_width),
            offset: self.offset,
            len: self.len,
        };
        let decoder = AsStored {
            strategy: &self.strategy,
        };
        let mut reader = PackedReader::over(self.packed, &mut self.work);
        blocks.decode_into(&decoder, output, self.scratch, &mut reader);
        self.work = reader.finish();
    }
}
