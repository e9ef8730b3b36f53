//! Readers of packed columns, block by block.

ghost use Rattle.std.specs.Prelude.{◌≡◌, ◌≤◌, IfSome, IsTrue, Some, length};
ghost use Rattle.fl_types.specs.Integers.{bits_of_type};

use bytes::Bytes;
use fastlanes::{FL_CHUNK_SIZE, Work};
use fl_array::bitpacking::BitPackedData;
use fl_bitpacking::unpack_iter::{
    BitPacked, BitPackingStrategy, BitUnpackedChunks, PackedSource, UnpackStrategy, UnpackedChunks,
    UnpackedItems,
};
use fl_types::*;
use row_reader::asked::Asked;
use row_reader::columns::type_of;
use row_reader::shown;
use row_reader::text::Text;
use std::alloc::Global;
use std::cell::Cell;

/// Adds all items that a reader writes, for which there is room, and how many blocks it unpacked.
fn write<T: BitPacked>(
    chunks: &mut UnpackedChunks<'_, T, BitPackingStrategy>,
    items: &mut [T],
    answer: &mut Text,
)
    requires { length items.old ≡ chunks.old.len }
{
    chunks.decode_into(items);
    shown::integers(answer, items);
    answer.word("in");
    answer.item(Some(chunks.work().blocks() as i128));
    answer.word("blocks");
}

/// Adds all items of a packed column, at most 1024 of them.
fn read<T: BitPacked>(bytes: &[u8], width: usize, offset: usize, len: usize, answer: &mut Text) {
    if width > T::PTYPE.bit_width() {
        return;
    }
    let mut scratch = [T::zero(); FL_CHUNK_SIZE];
    let mut room = [T::zero(); 1024];
    let strategy = BitPackingStrategy;
    match UnpackedChunks::try_new_with_strategy(strategy, bytes, width, offset, len, &mut scratch) {
        Ok(mut chunks) => {
            if len <= 1024 {
                write(&mut chunks, &mut room[..len], answer);
            }
        }
        Err(refusal) => answer.refusal(refusal),
    }
}

/// Adds the items that a reader lends, or `none`.
fn lent<T: BitPacked>(items: &UnpackedItems<'_, T>, answer: &mut Text) {
    match items.items() {
        Some(items) => shown::integers(answer, items),
        None => answer.word("none"),
    }
}

/// Types of which a reader's whole blocks are asked. Each is asked by itself, since the prover doesn't know how much
/// memory an iterator over blocks of any type takes.
pub(crate) trait WholeBlocks: BitPacked {
    /// Adds the items of whole blocks, at most five.
    fn whole(chunks: &mut BitUnpackedChunks<'_, Self>, answer: &mut Text);
}

macro_rules! add_whole {
    ($chunks:ident, $answer:ident) => {{
        let mut blocks = $chunks.full_chunks();
        for _ in 0..5usize {
            if let Some(items) = blocks.next() {
                shown::integers($answer, items);
            }
        }
    }};
}

impl WholeBlocks for u8 {
    fn whole(chunks: &mut BitUnpackedChunks<'_, u8>, answer: &mut Text) {
        add_whole!(chunks, answer)
    }
}

impl WholeBlocks for u16 {
    fn whole(chunks: &mut BitUnpackedChunks<'_, u16>, answer: &mut Text) {
        add_whole!(chunks, answer)
    }
}

impl WholeBlocks for u32 {
    fn whole(chunks: &mut BitUnpackedChunks<'_, u32>, answer: &mut Text) {
        add_whole!(chunks, answer)
    }
}

impl WholeBlocks for u64 {
    fn whole(chunks: &mut BitUnpackedChunks<'_, u64>, answer: &mut Text) {
        add_whole!(chunks, answer)
    }
}

impl WholeBlocks for i8 {
    fn whole(chunks: &mut BitUnpackedChunks<'_, i8>, answer: &mut Text) {
        add_whole!(chunks, answer)
    }
}

impl WholeBlocks for i16 {
    fn whole(chunks: &mut BitUnpackedChunks<'_, i16>, answer: &mut Text) {
        add_whole!(chunks, answer)
    }
}

impl WholeBlocks for i32 {
    fn whole(chunks: &mut BitUnpackedChunks<'_, i32>, answer: &mut Text) {
        add_whole!(chunks, answer)
    }
}

impl WholeBlocks for i64 {
    fn whole(chunks: &mut BitUnpackedChunks<'_, i64>, answer: &mut Text) {
        add_whole!(chunks, answer)
    }
}

/// Adds the items of the first block, of the last one, and of whole blocks.
fn parts<T: WholeBlocks>(chunks: &mut BitUnpackedChunks<'_, T>, answer: &mut Text) {
    answer.word("first");
    lent(&chunks.initial(), answer);
    answer.word("last");
    lent(&chunks.trailer(), answer);
    answer.word("whole");
    T::whole(chunks, answer);
}

/// Adds the parts that a reader lends, and those that it lends at a second call.
pub(crate) fn lend_twice<T: WholeBlocks>(chunks: &mut BitUnpackedChunks<'_, T>, answer: &mut Text) {
    parts(chunks, answer);
    answer.word("again");
    parts(chunks, answer);
}

/// Whether the width of the blocks, if they have one, is at most a type's bits.
pub(crate) fn fits<T: BitPacked>(data: &BitPackedData) -> bool
    ensures { IsTrue result → IfSome data.now.bit_width (λ width. width ≤ bits_of_type T.PTYPE) }
{
    match data.bit_width() {
        Some(width) => usize::from(width) <= T::PTYPE.bit_width(),
        None => true,
    }
}

/// Adds the parts that a reader of this many items lends.
pub(crate) fn lend<T: WholeBlocks>(data: &BitPackedData, len: usize, answer: &mut Text) {
    if fits::<T>(data) {
        let mut scratch = [T::zero(); FL_CHUNK_SIZE];
        match BitUnpackedChunks::try_new(data, len, &mut scratch) {
            Ok(mut chunks) => lend_twice(&mut chunks, answer),
            Err(refusal) => answer.refusal(refusal),
        }
    }
}

/// The data of packed bytes.
fn data_of(
    alloc: Global,
    bytes: &[u8],
    width: usize,
    offset: usize,
) -> Result<BitPackedData, FastLanesError> {
    let bytes = Bytes::from_vec(Vec::from_slice(alloc, bytes)?)?;
    let width = u8::try_from(width).unwrap_or(u8::MAX);
    let offset = u16::try_from(offset).unwrap_or(u16::MAX);
    BitPackedData::try_new(bytes, None, width, offset)
}

/// Adds the parts that a reader of bytes lends, by the name of the items' type.
pub(crate) fn lend_of(asked: Asked, bytes: &[u8], answer: &mut Text) {
    let len = asked.count(4);
    match data_of(asked.alloc, bytes, asked.count(2), asked.count(3)) {
        Ok(data) => match_each_integer_ptype!(type_of(asked.word(1)), lend(&data, len, answer)),
        Err(refusal) => answer.refusal(refusal),
    }
}

/// Bytes of blocks of one width, from a position on.
#[derive(Clone, Copy)]
struct Blocks<'a> {
    bytes: &'a [u8],
    width: u8,
    first: usize,
}

impl<'a> PackedSource for Blocks<'a> {
    ghost bytes = { λ b. b.bytes.now };

    ghost width = { λ b. Some b.width };

    ghost first = { λ b. b.first };

    fn packed_bytes(&self) -> &[u8] {
        self.bytes
    }

    fn global_width(&self) -> Option<u8> {
        Some(self.width)
    }

    fn first_position(&self) -> usize {
        self.first
    }
}

/// Has a reader lend its parts, and answers how many blocks it has unpacked.
fn lend_parts(chunks: &mut BitUnpackedChunks<'_, u8>) -> u64 {
    let _ = chunks.initial();
    let _ = chunks.trailer();
    let mut blocks = chunks.full_chunks();
    for _ in 0..5usize {
        let _ = blocks.next();
    }
    chunks.work().blocks()
}

/// Adds how many blocks a reader has unpacked when it has lent its parts, and when it has lent them again.
pub(crate) fn counted(asked: Asked, bytes: &[u8], answer: &mut Text) {
    let (width, first, len) = (asked.count(1), asked.count(2), asked.count(3));
    if width > 8 {
        return;
    }
    let mut scratch = [0u8; FL_CHUNK_SIZE];
    let width = width as u8;
    let blocks = Blocks {
        bytes,
        width,
        first,
    };
    match BitUnpackedChunks::try_new(&blocks, len, &mut scratch) {
        Ok(mut chunks) => {
            answer.item(Some(lend_parts(&mut chunks) as i128));
            answer.item(Some(lend_parts(&mut chunks) as i128));
        }
        Err(refusal) => answer.refusal(refusal),
    }
}

/// Adds what a reader answers whose scratch block is all sevens, and what its scratch block then has; for
/// either reader.
pub(crate) fn scratch(asked: Asked, bytes: &[u8], answer: &mut Text) {
    let (width, first, len) = (asked.count(1), asked.count(2), asked.count(3));
    if width > 8 {
        return;
    }
    let (mut scratch, by) = ([7u8; FL_CHUNK_SIZE], BitPackingStrategy);
    match UnpackedChunks::try_new_with_strategy(by, bytes, width, first, len, &mut scratch) {
        Ok(_) => answer.word("made"),
        Err(refusal) => answer.refusal(refusal),
    }
    shown::integers(answer, &scratch);
    let width = width as u8;
    let blocks = Blocks {
        bytes,
        width,
        first,
    };
    match BitUnpackedChunks::try_new(&blocks, len, &mut scratch) {
        Ok(_) => answer.word("made"),
        Err(refusal) => answer.refusal(refusal),
    }
    shown::integers(answer, &scratch);
}

/// Unpacks by the layout, and counts its calls.
#[derive(Clone, Copy)]
struct CountingStrategy<'c> {
    calls: &'c Cell<usize>,
}

impl UnpackStrategy<u8> for CountingStrategy<'_> {
    fn unpack_chunk(
        &self,
        bit_width: usize,
        chunk: &[u8],
        dst: &mut [u8; FL_CHUNK_SIZE],
        work: &mut Work,
    ) {
        self.calls.set(self.calls.get().saturating_add(1));
        BitPackingStrategy.unpack_chunk(bit_width, chunk, dst, work);
    }
}

/// A reader that counts the calls of its strategy.
type CountedChunks<'a, 'c> = UnpackedChunks<'a, u8, CountingStrategy<'c>>;

/// Adds how often a reader has called its strategy: before it lends items, and after the items of the
/// first block and of the last one.
fn lend_counted(chunks: &mut CountedChunks<'_, '_>, calls: &Cell<usize>, answer: &mut Text) {
    answer.count(calls.get());
    lent(&chunks.initial(), answer);
    answer.count(calls.get());
    lent(&chunks.trailer(), answer);
    answer.count(calls.get());
}

/// Adds how often a reader has called its strategy when it has written all items, at most 1024, and
/// when it lends them.
pub(crate) fn calls(asked: Asked, bytes: &[u8], answer: &mut Text) {
    let (width, offset, len) = (asked.count(1), asked.count(2), asked.count(3));
    if width > 8 || len > 1024 {
        return;
    }
    let calls = Cell::new(0);
    let (mut scratch, mut room) = ([0u8; FL_CHUNK_SIZE], [0u8; 1024]);
    let strategy = CountingStrategy { calls: &calls };
    match UnpackedChunks::try_new_with_strategy(strategy, bytes, width, offset, len, &mut scratch) {
        Ok(mut chunks) => {
            chunks.decode_into(&mut room[..len]);
            lend_counted(&mut chunks, &calls, answer);
        }
        Err(refusal) => answer.refusal(refusal),
    }
}

/// Adds all items that are read from bytes, by the name of their type.
pub(crate) fn read_of(asked: Asked, bytes: &[u8], answer: &mut Text) {
    let (name, width, offset) = (asked.word(1), asked.count(2), asked.count(3));
    let len = asked.count(4);
    answer.word(name);
    match_each_integer_ptype!(type_of(name), read(bytes, width, offset, len, answer));
}
