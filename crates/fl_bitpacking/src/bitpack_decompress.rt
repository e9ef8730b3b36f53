//! Columns read back from their packed blocks.

pub(crate) mod block_decoding;
pub mod read_into;

ghost use Rattle.std.specs.Prelude.{◌≡◌, ◌+◌, ◌-◌, ◌*◌, ◌/◌, ◌<◌, ◌≤◌, ◌^◌, ℕ, IfOk, IfSome, Ok, OnOk, length, map, min, option_map, unwrap_or};
ghost use Rattle.std.specs.Option.{option_copied};
ghost use Rattle.fastlanes.specs.Layout.{row_of, words_of_item};
ghost use Rattle.fl_types.specs.Integers.{bits_of_type, lanes_of_type, read_as};
ghost use Rattle.fl_types.specs.Refusals.{Answers};
ghost use Rattle.fl_column.specs.Columns.{column_of_primitive};
ghost use Rattle.fl_patches.specs.PatchMaps.{patched_in};
ghost use Rattle.fl_bitpacking.specs.Blocks.{block_item, blocks_of, global_blocks, item_of_blocks, value_at};
ghost use Rattle.fl_bitpacking.specs.Columns.{block_count, column_of_packed};
ghost use Rattle.fl_bitpacking.specs.Parts.{AreReadable, Fit, blocks_in, blocks_to_read, parts_of};
ghost use Rattle.fl_bitpacking.specs.ReadWidths.{AreWidthsOf};
ghost use Rattle.fl_bitpacking.specs.Readings.{AreFewBlocks, more_blocks};

use crate::bit_packed::BitPacked;
use crate::bitpack_decompress::block_decoding::PlusReferences;
use crate::blocks::{PackedBlocks, global_block};
use crate::packed_reader::PackedReader;
use crate::patching::write_patches;
use fastlanes::{FL_CHUNK_SIZE, FastLanes, Work, unpack_single};
use fl_column::{PhysicalPType, PrimitiveArray};
use fl_patches::{Patches, Widths};
use fl_types::{FastLanesError, NativePType, PType, Validity, match_each_integer_ptype};
use num_traits::WrappingAdd;
use std::alloc::{AllocError, Global};

/// The parts of a bit-packed column, without the widths of its blocks.
#[derive(Clone, Copy)]
pub struct PackedColumn<'a> {
    /// The bytes of the blocks.
    pub packed: &'a [u8],
    /// The integer type.
    pub ptype: PType,
    /// Which items are not null.
    pub validity: &'a Validity,
    /// The values that replace packed bits.
    pub patches: Option<&'a Patches>,
    /// The position of the first item in the first block, below 1024.
    pub offset: usize,
    /// The number of items.
    pub len: usize,
}

/// The item at `index` of a packed block of `128 * width` bytes, read by itself. It reads each word that
/// holds a bit of the item once: at most two, and none at width 0.
pub fn unpack_block_item<T: PhysicalPType>(
    width: usize,
    block: &[u8],
    index: usize,
    work: &mut Work,
) -> T
    requires width { width ≤ bits_of_type T.PTYPE }
    requires block { length block.now ≡ 128 * width }
    requires index { index < 1024 }
    ensures item { T.value result ≡ block_item T.PTYPE width block.now index }
    ensures no_word { width ≡ 0 → work.new.words ≡ work.old.words }
    ensures words { 0 < width → work.new.words ≡ min (work.old.words + words_of_item (bits_of_type T.PTYPE) width (row_of (lanes_of_type T.PTYPE) index)) u64.MAX }
    ensures few { work.new.words ≤ work.old.words + 2 }
    ensures blocks { work.new.blocks ≡ work.old.blocks }
{
    T::from_physical(unpack_single(width, block, index, work))
}

/// Item `i` of a column packed at one width, without patches.
///
/// The width is at most the type's bits, and the bytes hold the block of the item.
pub fn unpack_single_primitive<T: PhysicalPType>(packed: &[u8], width: usize, i: usize) -> T
    requires width { width ≤ bits_of_type T.PTYPE }
    requires room { 128 * width * (i / 1024 + 1) ≤ length packed.now }
    ensures { T.value result ≡ item_of_blocks T.PTYPE (global_blocks width) packed.now i }
{
    let block = global_block(packed, width, i / FL_CHUNK_SIZE);
    let mut work = Work::new();
    unpack_block_item(width, block, i % FL_CHUNK_SIZE, &mut work)
}

/// Appends the items of block `j`, whose bytes start at `start`, and returns where those of the next block
/// start. The list grows by these items alone, so that they are filled with 0 and decoded while they
/// lie in the first-level cache.
fn push_block<T: BitPacked>(
    blocks: PackedBlocks,
    j: usize,
    start: usize,
    items: &mut Vec<T>,
    scratch: &mut [T; FL_CHUNK_SIZE],
    reader: &mut PackedReader,
) -> Result<usize, AllocError>
    requires readable { AreReadable (bits_of_type T.PTYPE) reader.old.bytes blocks }
    requires block { j < blocks_in blocks }
    requires start { start ≡ (blocks_of blocks.widths).start j }
    requires begun { length items.old.items ≡ 1024 * j - blocks.offset }
    ensures long { OnOk result (length items.new.items ≡ min (1024 * (j + 1)) (blocks.entry.offset + blocks.entry.len) - blocks.entry.offset) }
    ensures before { OnOk result ((i : ℕ) → i < length items.old.items → value_at T.value items.new.items i ≡ value_at T.value items.old.items i) }
    ensures part { OnOk result ((i : ℕ) → length items.old.items + i < length items.new.items → value_at T.value items.new.items (length items.old.items + i) ≡ item_of_blocks T.PTYPE (blocks_of blocks.entry.widths) reader.old.bytes (blocks.entry.offset + (length items.old.items + i))) }
    ensures next { IfOk result (λ next. next ≡ (blocks_of blocks.entry.widths).start (j + 1)) }
    ensures counted { OnOk result (reader.new ≡ more_blocks 1 reader.old) }
    ensures most { AreFewBlocks 1 reader.old reader.new }
{
    let (from, to) = blocks.places(j);
    items.resize(to, T::zero())?;
    let part = &mut items[from..];
    let decoder = PlusReferences { references: &[] };
    Ok(blocks.decode_block(&decoder, j, start, part, scratch, reader))
}

/// The items of packed blocks; each block is unpacked once.
fn decode_blocks<T: BitPacked>(
    alloc: Global,
    blocks: PackedBlocks,
    reader: &mut PackedReader,
) -> Result<Vec<T>, AllocError>
    requires { AreReadable (bits_of_type T.PTYPE) reader.old.bytes blocks }
    ensures long { IfOk result (λ v. length v.items ≡ blocks.entry.len) }
    ensures items { IfOk result (λ v. (i : ℕ) → i < blocks.entry.len → value_at T.value v.items i ≡ item_of_blocks T.PTYPE (blocks_of blocks.entry.widths) reader.old.bytes (blocks.entry.offset + i)) }
    ensures counted { OnOk result (reader.new ≡ more_blocks (blocks_in blocks.entry) reader.old) }
    ensures most { AreFewBlocks (blocks_in blocks.entry) reader.old reader.new }
{
    // For the proof: the count is a `u64`.
    let _blocks = reader.blocks();
    let mut items = Vec::with_capacity(alloc, blocks.len)?;
    let mut scratch = [T::zero(); FL_CHUNK_SIZE];
    let mut start = 0;
    for j in 0..blocks.count() {
        start = push_block(blocks, j, start, &mut items, &mut scratch, reader)?;
    }
    Ok(items)
}

/// This many zeros: what stands in blocks at width 0.
pub(crate) fn zeros<T: NativePType>(alloc: Global, len: usize) -> Result<Vec<T>, AllocError>
    ensures long { IfOk result (λ v. length v.items ≡ len) }
    ensures items { IfOk result (λ v. (i : ℕ) → i < len → value_at T.value v.items i ≡ read_as T.PTYPE 0) }
{
    let mut items = Vec::new(alloc);
    items.resize(len, T::zero())?;
    Ok(items)
}

/// The items of packed blocks. None is unpacked where all are known to have width 0.
pub(crate) fn unpack_values<T: BitPacked>(
    alloc: Global,
    blocks: PackedBlocks,
    reader: &mut PackedReader,
) -> Result<Vec<T>, AllocError>
    requires { AreReadable (bits_of_type T.PTYPE) reader.old.bytes blocks }
    ensures long { IfOk result (λ v. length v.items ≡ blocks.entry.len) }
    ensures items { IfOk result (λ v. (i : ℕ) → i < blocks.entry.len → value_at T.value v.items i ≡ item_of_blocks T.PTYPE (blocks_of blocks.entry.widths) reader.old.bytes (blocks.entry.offset + i)) }
    ensures most { AreFewBlocks (blocks_in blocks.entry) reader.old reader.new }
{
    match blocks.widths {
        Widths::Global(width) if width == 0 => {
            let items = zeros(alloc, blocks.len)?;
            Ok(items)
        }
        _ => decode_blocks(alloc, blocks, reader),
    }
}

/// These items, with the patches' values at their indices, if there are patches.
pub(crate) fn with_values<T: NativePType + WrappingAdd>(
    mut items: Vec<T>,
    patches: Option<&Patches>,
) -> Vec<T>
    requires { IfSome (option_copied patches) (λ p. (p.array_len ≡ length items.items) × (p.values.ptype ≡ T.PTYPE)) }
    ensures long { length result.items ≡ length items.items }
    ensures items { (i : ℕ) → i < length items.items → value_at T.value result.items i ≡ unwrap_or (patched_in (option_copied patches.entry) i) (value_at T.value items.items i) }
{
    let _len = items.len();
    if let Some(patches) = patches {
        write_patches(patches, &[], 0, &mut items);
    }
    items
}

fn unpack_typed<T: BitPacked + WrappingAdd>(
    alloc: Global,
    column: &PackedColumn,
    widths: Widths,
    work: &mut Work,
) -> Result<PrimitiveArray, FastLanesError>
    requires typed { column.now.ptype ≡ T.PTYPE }
    requires fit { Fit (parts_of column.now) }
    requires readable { AreReadable (bits_of_type column.now.ptype) column.now.packed.now (blocks_to_read column.now widths) }
    ensures column { Answers column_of_primitive result (Ok (column_of_packed (parts_of column.now) (blocks_of widths.entry))) }
    ensures blocks { work.new.blocks ≤ work.old.blocks + blocks_in (blocks_to_read column.now widths.entry) }
    ensures words { work.new.words ≡ work.old.words }
{
    let blocks = PackedBlocks {
        widths,
        offset: column.offset,
        len: column.len,
    };
    let mut reader = PackedReader::over(column.packed, work);
    let values = unpack_values::<T>(alloc, blocks, &mut reader);
    *work = reader.finish();
    let items = with_values(values?, column.patches);
    let validity = column.validity.try_clone(alloc)?;
    PrimitiveArray::new(items, validity)
}

/// The column of these parts, whose blocks have these widths: an item is null if the validity says so, else its
/// patch, else its bits, read as the type. Each block is unpacked at most once.
///
/// One width is at most the type's bits, and the bytes hold the blocks. Of boundaries there is one more than blocks,
/// and each two neighbours enclose a block within the bytes, of at most the type's bits.
#[tactic(auto, using(crate::proofs::ReadWidths::readable))]
pub fn unpack_column(
    alloc: Global,
    column: &PackedColumn,
    widths: Widths,
    work: &mut Work,
) -> Result<PrimitiveArray, FastLanesError>
    requires fit { Fit (parts_of column.now) }
    requires widths { AreWidthsOf (parts_of column.now) widths }
    ensures column { Answers column_of_primitive result (Ok (column_of_packed (parts_of column.now) (blocks_of widths.entry))) }
    ensures blocks { work.new.blocks ≤ work.old.blocks + block_count (parts_of column.now) }
    ensures words { work.new.words ≡ work.old.words }
{
    match_each_integer_ptype!(column.ptype, unpack_typed(alloc, column, widths, work))
}
