//! The blocks of a packed column: where their bytes are, and their items.

ghost use Rattle.std.specs.Prelude.{◌≡◌, ◌+◌, ◌-◌, ◌*◌, ◌/◌, ◌<◌, ◌≤◌, ◌^◌, ℕ, length, min};
ghost use Rattle.fl_types.specs.Bits.{between};
ghost use Rattle.fl_types.specs.Integers.{bits_of_type};
ghost use Rattle.fl_column.specs.Chunks.{chunk_count};
ghost use Rattle.fl_bitpacking.specs.BlockSums.{decoded_item};
ghost use Rattle.fl_bitpacking.specs.Blocks.{block_item, blocks_of, bytes_of_block, global_blocks, value_at};
ghost use Rattle.fl_bitpacking.specs.Parts.{AreReadable, blocks_in};
ghost use Rattle.fl_bitpacking.specs.Readings.{bytes_at, more_blocks};
ghost use Rattle.fl_bitpacking.specs.Taken.{HasStarts};

use crate::bit_packed::BitPacked;
use crate::bitpack_decompress::block_decoding::BlockDecoder;
use crate::compute::take::runs::block_start;
use crate::packed_data::BlockExtent;
use crate::packed_reader::PackedReader;
use crate::places::places_from;
use fastlanes::FL_CHUNK_SIZE;
use fl_column::chunk_count;
use fl_patches::Widths;
use fl_types::NativePType;

/// The bytes of the block that starts there.
pub(crate) fn block_at(packed: &[u8], start: usize, width: usize) -> &[u8]
    requires { start + 128 * width ≤ length packed.now }
    ensures bytes { result.now ≡ between start (start + 128 * width) packed.now }
    ensures long { length result.now ≡ 128 * width }
{
    let size = FL_CHUNK_SIZE / 8 * width;
    &packed[start..start + size]
}

/// The bytes of block `j`, where all blocks have one width.
pub(crate) fn global_block(packed: &[u8], width: usize, j: usize) -> &[u8]
    requires { 128 * width * (j + 1) ≤ length packed.now }
    ensures bytes { result.now ≡ bytes_of_block (global_blocks width) packed.now j }
    ensures long { length result.now ≡ 128 * width }
{
    block_at(packed, FL_CHUNK_SIZE / 8 * width * j, width)
}

/// Writes the items of block `j` from position `low` on. A whole block is decoded straight into its
/// place, another one by way of the scratch block.
fn decode_part<T: NativePType, D: BlockDecoder<T>>(
    decoder: &D,
    j: usize,
    extent: BlockExtent,
    low: usize,
    items: &mut [T],
    scratch: &mut [T; FL_CHUNK_SIZE],
    reader: &mut PackedReader,
)
    requires width { extent.width ≤ bits_of_type T.PTYPE }
    requires room { extent.start + 128 * extent.width ≤ length reader.old.bytes }
    requires within { low + length items.old ≤ 1024 }
    ensures items { (i : ℕ) → i < length items.old → value_at T.value items.new i ≡ D.item decoder.now j (block_item T.PTYPE extent.width (bytes_at extent reader.old.bytes) (low + i)) }
    ensures counted { reader.new ≡ more_blocks 1 reader.old }
{
    match items.as_mut_array::<FL_CHUNK_SIZE>() {
        Some(whole) => decoder.decode_block(j, extent, whole, reader),
        None => {
            decoder.decode_block(j, extent, scratch, reader);
            let decoded = &scratch[..];
            items.copy_from_slice(&decoded[low..low + items.len()]);
        }
    }
}

/// Writes the items of block `j` from position `low` on. Only where not all of them are written there is a scratch
/// block.
fn read_part<T: BitPacked, D: BlockDecoder<T>>(
    decoder: &D,
    j: usize,
    extent: BlockExtent,
    low: usize,
    items: &mut [T],
    reader: &mut PackedReader,
)
    requires width { extent.width ≤ bits_of_type T.PTYPE }
    requires room { extent.start + 128 * extent.width ≤ length reader.old.bytes }
    requires within { low + length items.old ≤ 1024 }
    ensures items { (i : ℕ) → i < length items.old → value_at T.value items.new i ≡ D.item decoder.now j (block_item T.PTYPE extent.width (bytes_at extent reader.old.bytes) (low + i)) }
    ensures counted { reader.new ≡ more_blocks 1 reader.old }
{
    match items.as_mut_array::<FL_CHUNK_SIZE>() {
        Some(whole) => decoder.decode_block(j, extent, whole, reader),
        None => {
            let mut scratch = [T::zero(); FL_CHUNK_SIZE];
            decode_part(decoder, j, extent, low, items, &mut scratch, reader)
        }
    }
}

/// Packed blocks, and which of their items are read.
#[derive(Clone, Copy)]
pub(crate) struct PackedBlocks<'a> {
    /// The widths of the blocks.
    pub(crate) widths: Widths<'a>,
    /// The position of the first item in the first block, below 1024.
    pub(crate) offset: usize,
    /// The number of items.
    pub(crate) len: usize,
}

impl PackedBlocks<'_> {
    /// How many blocks hold the items. The first and the last one may be cut.
    pub(crate) fn count(self) -> usize
        requires { self.offset + self.len < 2 ^ 64 }
        ensures { result ≡ blocks_in self.entry }
    {
        chunk_count(self.offset + self.len)
    }

    /// Where the items of block `j` begin and end among all items.
    pub(crate) fn places(self, j: usize) -> (usize, usize)
        requires offset { self.offset < 1024 }
        requires few { self.offset + self.len < 2 ^ 64 }
        requires some { j < blocks_in self }
        ensures from { result.0 ≡ 1024 * j - self.entry.offset }
        ensures to { result.1 ≡ min (1024 * (j + 1)) (self.entry.offset + self.entry.len) - self.entry.offset }
        ensures order { result.0 ≤ result.1 }
        ensures room { result.1 ≤ self.entry.len }
    {
        places_from(self.offset, self.len, j)
    }

    /// Writes the items of block `j`, whose bytes start at `start`, and returns where those of the next
    /// block start.
    pub(crate) fn decode_block<T: NativePType, D: BlockDecoder<T>>(
        self,
        decoder: &D,
        j: usize,
        start: usize,
        items: &mut [T],
        scratch: &mut [T; FL_CHUNK_SIZE],
        reader: &mut PackedReader,
    ) -> usize
        requires readable { AreReadable (bits_of_type T.PTYPE) reader.old.bytes self }
        requires block { j < blocks_in self }
        requires start { start ≡ (blocks_of self.widths).start j }
        requires room { 1024 * j - self.offset + length items.old ≤ 1024 * (j + 1) - self.offset }
        ensures items { (i : ℕ) → i < length items.old → value_at T.value items.new i ≡ decoded_item (D.item decoder.now) T.PTYPE (blocks_of self.entry.widths) reader.old.bytes (self.entry.offset + (1024 * j - self.entry.offset + i)) }
        ensures next { result ≡ (blocks_of self.entry.widths).start (j + 1) }
        ensures counted { reader.new ≡ more_blocks 1 reader.old }
    {
        // For the proof: the block ends below 2 ^ 64.
        let _size = reader.size();
        let width = self.widths.of_block(j);
        let low = self.offset.saturating_sub(FL_CHUNK_SIZE * j);
        let extent = BlockExtent { start, width };
        decode_part(decoder, j, extent, low, items, scratch, reader);
        start + FL_CHUNK_SIZE / 8 * width
    }

    /// Writes all items, unpacking each block once.
    pub(crate) fn decode_into<T: NativePType, D: BlockDecoder<T>>(
        self,
        decoder: &D,
        items: &mut [T],
        scratch: &mut [T; FL_CHUNK_SIZE],
        reader: &mut PackedReader,
    )
        requires readable { AreReadable (bits_of_type T.PTYPE) reader.old.bytes self }
        requires long { length items.old ≡ self.len }
        ensures items { (i : ℕ) → i < length items.old → value_at T.value items.new i ≡ decoded_item (D.item decoder.now) T.PTYPE (blocks_of self.entry.widths) reader.old.bytes (self.entry.offset + i) }
        ensures counted { reader.new ≡ more_blocks (blocks_in self.entry) reader.old }
    {
        // For the proof: the count is a `u64`.
        let _blocks = reader.blocks();
        let mut start = 0;
        for j in 0..self.count() {
            let (from, to) = self.places(j);
            let part = &mut items[from..to];
            start = self.decode_block(decoder, j, start, part, scratch, reader);
        }
    }

    /// Writes the items of block `j` from position `low` on.
    fn read_block<T: BitPacked, D: BlockDecoder<T>>(
        self,
        decoder: &D,
        j: usize,
        low: usize,
        items: &mut [T],
        reader: &mut PackedReader,
    )
        requires readable { AreReadable (bits_of_type T.PTYPE) reader.old.bytes self }
        requires starts { HasStarts self.widths }
        requires block { j < blocks_in self }
        requires low { low < 1024 }
        requires within { low + length items.old ≤ 1024 }
        ensures items { (i : ℕ) → i < length items.old → value_at T.value items.new i ≡ decoded_item (D.item decoder.now) T.PTYPE (blocks_of self.entry.widths) reader.old.bytes (1024 * j + low + i) }
        ensures counted { reader.new ≡ more_blocks 1 reader.old }
    {
        let width = self.widths.of_block(j);
        // For the proof: the block ends below 2 ^ 64.
        let _size = reader.size();
        let start = block_start(self.widths, j);
        let extent = BlockExtent { start, width };
        read_part(decoder, j, extent, low, items, reader);
    }

    /// Writes the items from index `start` on, as many as the slice has. Each block that has one of them is unpacked
    /// once, a whole one straight into its place, and no other block is read.
    pub(crate) fn read_into<T: BitPacked, D: BlockDecoder<T>>(
        self,
        decoder: &D,
        start: usize,
        items: &mut [T],
        reader: &mut PackedReader,
    )
        requires readable { AreReadable (bits_of_type T.PTYPE) reader.old.bytes self }
        requires starts { HasStarts self.widths }
        requires range { start + length items.old ≤ self.len }
        ensures items { (i : ℕ) → i < length items.old → value_at T.value items.new i ≡ decoded_item (D.item decoder.now) T.PTYPE (blocks_of self.entry.widths) reader.old.bytes (self.entry.offset + (start + i)) }
        ensures counted { reader.new ≡ more_blocks (chunk_count (self.entry.offset + start + length items.old) - (self.entry.offset + start) / 1024) reader.old }
    {
        // For the proof: the count is a `u64`.
        let _blocks = reader.blocks();
        let (first, len) = (self.offset + start, items.len());
        for j in first / FL_CHUNK_SIZE..chunk_count(first + len) {
            let (from, to) = places_from(first, len, j);
            let low = first.saturating_sub(FL_CHUNK_SIZE * j);
            self.read_block(decoder, j, low, &mut items[from..to], reader);
        }
    }
}
