//! The one way to the items of packed bytes: each read is counted.

ghost use Rattle.std.specs.Prelude.{◌≡◌, ◌+◌, ◌*◌, ◌<◌, ◌≤◌, ◌+ℤ◌, ℕ, length};
ghost use Rattle.fastlanes.specs.Compared.{IsAnswer, has_bit};
ghost use Rattle.fastlanes.specs.Layout.{word_at};
ghost use Rattle.fastlanes.specs.Rows.{item_of_row};
ghost use Rattle.fastlanes.specs.SingleItems.{words_at};
ghost use Rattle.fl_types.specs.Integers.{bits_of_type, lanes_of_type, wrap};
ghost use Rattle.fl_bitpacking.specs.Blocks.{block_item, value_at};
ghost use Rattle.fl_bitpacking.specs.Readings.{AreFewWords, bytes_at, more_blocks, more_words};

use crate::bit_packed::BitPacked;
use crate::bitpack_decompress::unpack_block_item;
use crate::blocks::block_at;
use crate::packed_data::BlockExtent;
use crate::unpack_iter::UnpackStrategy;
use fastlanes::{FL_CHUNK_SIZE, FastLanes, Work, unpack_cmp_bytes};
use fl_column::PhysicalPType;
use fl_types::NativePType;
use std::marker::Model;

/// The packed bytes of a column, and the counts of what was read of them.
///
/// Nothing lends the bytes, and nothing makes a count smaller: whoever is lent a reader alone reads only what is counted.
#[derive(Drop)]
pub(crate) struct PackedReader<'a> {
    bytes: &'a [u8],
    work: Work,
}

impl<'a> Model for PackedReader<'a> {
    ghost use Rattle.fl_bitpacking.specs.Readings.{Reading};

    ghost Value = { Reading };

    ghost view = { λ r. record { bytes = r.bytes.now; blocks = r.work.blocks; words = r.work.words } };
}

impl<'a> PackedReader<'a> {
    /// A reader of these bytes that goes on with these counts. They are 0 until they are given back.
    #[inline(always)]
    pub(crate) fn over(bytes: &'a [u8], work: &mut Work) -> Self
        ensures { result ≡ record { bytes = bytes.now; blocks = work.old.blocks; words = work.old.words } }
    {
        PackedReader {
            bytes,
            work: std::mem::replace(work, Work::new()),
        }
    }

    /// The counts, at the end of all reading.
    #[inline(always)]
    pub(crate) fn finish(self) -> Work
        ensures blocks { result.blocks ≡ self.entry.blocks }
        ensures words { result.words ≡ self.entry.words }
    {
        let PackedReader { bytes: _, work } = self;
        work
    }

    /// The number of bytes.
    pub(crate) fn size(&self) -> usize
        ensures { result ≡ length self.now.bytes }
    {
        self.bytes.len()
    }

    /// The number of blocks that were unpacked.
    pub(crate) fn blocks(&self) -> u64
        ensures { result ≡ self.now.blocks }
    {
        self.work.blocks()
    }

    /// Unpacks the block of this extent.
    pub(crate) fn unpack_block<T: BitPacked>(
        &mut self,
        extent: BlockExtent,
        items: &mut [T; FL_CHUNK_SIZE],
    )
        requires width { extent.width ≤ bits_of_type T.PTYPE }
        requires room { extent.start + 128 * extent.width ≤ length self.old.bytes }
        ensures items { (i : ℕ) → i < 1024 → value_at T.value items.new i ≡ block_item T.PTYPE extent.width (bytes_at extent self.old.bytes) i }
        ensures whole { length items.new ≡ 1024 }
        ensures counted { self.new ≡ more_blocks 1 self.old }
    {
        let block = block_at(self.bytes, extent.start, extent.width);
        T::unpack_block(extent.width, block, items, &mut self.work);
    }

    /// The same by a strategy.
    pub(crate) fn unpack_block_by<T: NativePType, S: UnpackStrategy<T>>(
        &mut self,
        strategy: &S,
        extent: BlockExtent,
        items: &mut [T; FL_CHUNK_SIZE],
    )
        requires width { extent.width ≤ bits_of_type T.PTYPE }
        requires room { extent.start + 128 * extent.width ≤ length self.old.bytes }
        ensures items { (i : ℕ) → i < 1024 → value_at T.value items.new i ≡ block_item T.PTYPE extent.width (bytes_at extent self.old.bytes) i }
        ensures whole { length items.new ≡ 1024 }
        ensures counted { self.new ≡ more_blocks 1 self.old }
    {
        let block = block_at(self.bytes, extent.start, extent.width);
        strategy.unpack_chunk(extent.width, block, items, &mut self.work);
    }

    /// Unpacks the block of this extent, and adds a reference to each item, modulo 2 to the type's bits.
    pub(crate) fn unfor_block<T: BitPacked>(
        &mut self,
        extent: BlockExtent,
        reference: T,
        items: &mut [T; FL_CHUNK_SIZE],
    )
        requires width { extent.width ≤ bits_of_type T.PTYPE }
        requires room { extent.start + 128 * extent.width ≤ length self.old.bytes }
        ensures items { (i : ℕ) → i < 1024 → value_at T.value items.new i ≡ wrap T.PTYPE (block_item T.PTYPE extent.width (bytes_at extent self.old.bytes) i +ℤ T.value reference) }
        ensures whole { length items.new ≡ 1024 }
        ensures counted { self.new ≡ more_blocks 1 self.old }
    {
        let block = block_at(self.bytes, extent.start, extent.width);
        T::unfor_block(extent.width, block, reference, items, &mut self.work);
    }

    /// The item at `index` of the block of this extent, read by itself. Each word that holds a bit of the item is read once: at
    /// most two, and none at width 0.
    #[inline(always)]
    pub(crate) fn item<T: PhysicalPType>(&mut self, extent: BlockExtent, index: usize) -> T
        requires width { extent.width ≤ bits_of_type T.PTYPE }
        requires room { extent.start + 128 * extent.width ≤ length self.old.bytes }
        requires index { index < 1024 }
        ensures item { T.value result ≡ block_item T.PTYPE extent.width (bytes_at extent self.old.bytes) index }
        ensures counted { self.new ≡ more_words (words_at (bits_of_type T.PTYPE) (lanes_of_type T.PTYPE) extent.width index) self.old }
        ensures few { AreFewWords 2 self.old self.new }
    {
        let block = block_at(self.bytes, extent.start, extent.width);
        // For the proof: the count is a `u64`.
        let _words = self.work.words();
        unpack_block_item(extent.width, block, index, &mut self.work)
    }

    /// Sets bit `l * T + r` where the closure answers so for the item at row `r` of lane `l` of the block of this extent and `rhs`,
    /// and no other bit.
    pub(crate) fn compare_block<W: FastLanes, F: Fn(W, W) -> bool + Drop>(
        &mut self,
        extent: BlockExtent,
        bits: &mut [u64; 16],
        cmp: F,
        rhs: W,
    )
        requires width { extent.width ≤ W.T }
        requires room { extent.start + 128 * extent.width ≤ length self.old.bytes }
        requires callable { F.IsAlwaysCallable cmp }
        ensures bits { (r l : ℕ) → r < W.T → l < W.LANES → IsAnswer W.pattern (F.post cmp) rhs (item_of_row W.T W.LANES extent.width (word_at W.T (bytes_at extent self.old.bytes)) r l) (has_bit bits.new (l * W.T + r)) }
        ensures whole { length bits.new ≡ 16 }
        ensures counted { self.new ≡ more_blocks 1 self.old }
    {
        let block = block_at(self.bytes, extent.start, extent.width);
        unpack_cmp_bytes(extent.width, block, bits, cmp, rhs, &mut self.work);
    }
}
