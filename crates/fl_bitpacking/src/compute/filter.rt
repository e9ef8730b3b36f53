//! Items of packed columns that a mask keeps, block by block: a block without one is skipped, of a block with a
//! few each is read by itself, and any other block is unpacked.

pub mod kept_items;
mod patched_part;

ghost use Rattle.std.specs.Prelude.{◌≡◌, ◌+◌, ◌-◌, ◌*◌, ◌/◌, ◌<◌, ◌≤◌, ◌^◌, ℕ, IfOk, IfSome, Ok, OnOk, drop, false, length, map, min, slice_index_or, true, unwrap_or};
ghost use Rattle.std.specs.Option.{option_copied};
ghost use Rattle.fl_types.specs.declared.mask.Mask.TheVariants.{Values};
ghost use Rattle.fl_types.specs.Bits.{bit_of_word};
ghost use Rattle.fl_types.specs.Integers.{bits_of_type};
ghost use Rattle.fl_types.specs.Refusals.{Answers};
ghost use Rattle.fl_column.specs.Columns.{column_of_primitive};
ghost use Rattle.fl_column.specs.Operations.{filter_of, kept};
ghost use Rattle.fl_patches.specs.PatchMaps.{patched_in};
ghost use Rattle.fl_bitpacking.specs.Blocks.{block_item, blocks_of, item_of_blocks, value_at};
ghost use Rattle.fl_bitpacking.specs.Columns.{block_count, column_of_packed};
ghost use Rattle.fl_bitpacking.specs.Filtered.{AreKept, count_before, items_before, slots_of};
ghost use Rattle.fl_bitpacking.specs.Parts.{AreReadable, Fit, blocks_in, blocks_to_read, parts_of};
ghost use Rattle.fl_bitpacking.specs.ReadWidths.{AreWidthsOf};
ghost use Rattle.fl_bitpacking.specs.Readings.{AreFewReads, bytes_at};
ghost use Rattle.fl_bitpacking.specs.Taken.{HasStarts};

use crate::bit_packed::BitPacked;
use crate::bitpack_decompress::PackedColumn;
use crate::bitpack_decompress::block_decoding::PlusReferences;
use crate::blocks::PackedBlocks;
use crate::compute::filter::kept_items::{count_between, push_kept};
use crate::compute::filter::patched_part::{patch_part, patches_before_first, patches_to};
use crate::compute::take::runs::{block_start, unpack_threshold};
use crate::packed_data::{BlockExtent, PackedData};
use crate::packed_reader::PackedReader;
use crate::patching::write_at;
use fastlanes::{FL_CHUNK_SIZE, Work};
use fl_column::{BitList, FastLanesError, PhysicalPType, PrimitiveArray, filter_validity};
use fl_patches::{Patches, Widths};
use fl_types::{NativePType, match_each_integer_ptype};
use num_traits::WrappingAdd;
use std::alloc::{AllocError, Global};

/// The blocks and the patches of a column, and a boolean for each item that says whether the item is kept.
#[derive(Clone, Copy)]
struct Filtering<'a> {
    blocks: PackedBlocks<'a>,
    patches: Option<&'a Patches>,
    bits: &'a BitList,
}

/// Reads the items of a block at the set bits of a word, each by itself. The first item is at position `first`.
fn read_set<T: PhysicalPType>(
    reader: &mut PackedReader,
    extent: BlockExtent,
    first: usize,
    word: u64,
    items: &mut [T],
)
    requires width { extent.width ≤ bits_of_type T.PTYPE }
    requires room { extent.start + 128 * extent.width ≤ length reader.old.bytes }
    requires within { first + length items.old ≤ 1024 }
    requires set { (j : ℕ) → bit_of_word word j ≡ true → j < length items.old }
    ensures items { (j : ℕ) → bit_of_word word j ≡ true → value_at T.value items.new j ≡ block_item T.PTYPE extent.width (bytes_at extent reader.old.bytes) (first + j) }
    ensures read { AreFewReads 0 reader.old reader.new }
{
    let mut rest = word;
    while rest != 0 {
        let j = rest.trailing_zeros() as usize;
        write_at(items, j, reader.item(extent, first + j));
        rest &= rest - 1;
    }
}

impl Filtering<'_> {
    /// Reads the items of block `j` that are kept, each by itself. The first item of the block is the one at `from`.
    fn read_items<T: PhysicalPType>(
        self,
        j: usize,
        from: usize,
        start: usize,
        items: &mut [T],
        reader: &mut PackedReader,
    )
        requires readable { AreReadable (bits_of_type T.PTYPE) reader.old.bytes self.blocks }
        requires long { length self.bits.now ≡ self.blocks.len }
        requires block { j < blocks_in self.blocks }
        requires start { start ≡ (blocks_of self.blocks.widths).start j }
        requires first { 1024 * j ≤ self.blocks.offset + from }
        requires last { self.blocks.offset + from + length items.old ≤ 1024 * (j + 1) }
        requires within { from + length items.old ≤ self.blocks.len }
        ensures items { (i : ℕ) → i < length items.old → slice_index_or self.entry.bits.now (from + i) false ≡ true → value_at T.value items.new i ≡ item_of_blocks T.PTYPE (blocks_of self.entry.blocks.widths) reader.old.bytes (self.entry.blocks.offset + (from + i)) }
        ensures read { AreFewReads 0 reader.old reader.new }
    {
        let width = self.blocks.widths.of_block(j);
        let extent = BlockExtent { start, width };
        for k in 0..items.len().div_ceil(64) {
            let at = 64 * k;
            let count = (items.len() - at).min(64);
            let word = self.bits.word_from(from + at, count);
            let first = (self.blocks.offset + from + at) % FL_CHUNK_SIZE;
            read_set(reader, extent, first, word, &mut items[at..at + count]);
        }
    }

    /// Reads the items of block `j` that are kept, of which there are `count`.
    fn read_block<T: BitPacked + PhysicalPType>(
        self,
        j: usize,
        from: usize,
        count: usize,
        items: &mut [T],
        scratch: &mut [T; FL_CHUNK_SIZE],
        reader: &mut PackedReader,
    )
        requires readable { AreReadable (bits_of_type T.PTYPE) reader.old.bytes self.blocks }
        requires starts { HasStarts self.blocks.widths }
        requires long { length self.bits.now ≡ self.blocks.len }
        requires block { j < blocks_in self.blocks }
        requires from { from ≡ 1024 * j - self.blocks.offset }
        requires last { self.blocks.offset + from + length items.old ≤ 1024 * (j + 1) }
        requires within { from + length items.old ≤ self.blocks.len }
        ensures items { (i : ℕ) → i < length items.old → slice_index_or self.entry.bits.now (from + i) false ≡ true → value_at T.value items.new i ≡ item_of_blocks T.PTYPE (blocks_of self.entry.blocks.widths) reader.old.bytes (self.entry.blocks.offset + (from + i)) }
        ensures read { AreFewReads 1 reader.old reader.new }
    {
        // For the proof: the block ends below 2 ^ 64.
        let _size = reader.size();
        let start = block_start(self.blocks.widths, j);
        if count <= unpack_threshold(T::PTYPE.bit_width()) {
            self.read_items(j, from, start, items, reader);
        } else {
            let decoder = PlusReferences { references: &[] };
            self.blocks
                .decode_block(&decoder, j, start, items, scratch, reader);
        }
    }

    /// Appends the items of block `j` that are kept, of which there are `count`. The first item of the block is the one at
    /// `from`; there are `before` patches before it, and `after` before the end of the block.
    fn push_part<T: BitPacked + PhysicalPType + WrappingAdd>(
        self,
        j: usize,
        from: usize,
        count: usize,
        patches: (usize, usize),
        taken: &mut Vec<T>,
        items: &mut [T],
        scratch: &mut [T; FL_CHUNK_SIZE],
        reader: &mut PackedReader,
    ) -> Result<(), AllocError>
        requires patches { IfSome (option_copied self.patches) (λ p. (p.array_len ≡ self.blocks.len) × (p.values.ptype ≡ T.PTYPE)) }
        requires readable { AreReadable (bits_of_type T.PTYPE) reader.old.bytes self.blocks }
        requires starts { HasStarts self.blocks.widths }
        requires long { length self.bits.now ≡ self.blocks.len }
        requires block { j < blocks_in self.blocks }
        requires from { from ≡ 1024 * j - self.blocks.offset }
        requires last { self.blocks.offset + from + length items.old ≤ 1024 * (j + 1) }
        requires within { from + length items.old ≤ self.blocks.len }
        requires before { patches.0 ≡ count_before from (option_copied self.patches) }
        requires after { patches.1 ≡ count_before (from + length items.old) (option_copied self.patches) }
        requires begun { AreKept T.value T.PTYPE reader.old.bytes self from taken.old.items }
        ensures kept { OnOk result (AreKept T.value T.PTYPE reader.old.bytes self.entry (from + length items.old) taken.new.items) }
        ensures read { AreFewReads 1 reader.old reader.new }
    {
        self.read_block(j, from, count, items, scratch, reader);
        patch_part(self.patches, from, patches.0, patches.1, items);
        push_kept(taken, items, self.bits, from)?;
        Ok(())
    }

    /// Appends the items of block `j` that are kept, and returns how many patches are before the next block.
    fn push_block<T: BitPacked + PhysicalPType + WrappingAdd>(
        self,
        j: usize,
        before: usize,
        taken: &mut Vec<T>,
        items: &mut [T],
        scratch: &mut [T; FL_CHUNK_SIZE],
        reader: &mut PackedReader,
    ) -> Result<usize, AllocError>
        requires patches { IfSome (option_copied self.patches) (λ p. (p.array_len ≡ self.blocks.len) × (p.values.ptype ≡ T.PTYPE)) }
        requires readable { AreReadable (bits_of_type T.PTYPE) reader.old.bytes self.blocks }
        requires starts { HasStarts self.blocks.widths }
        requires long { length self.bits.now ≡ self.blocks.len }
        requires block { j < blocks_in self.blocks }
        requires room { length items.old ≡ 1024 }
        requires before { before ≡ count_before (items_before self j) (option_copied self.patches) }
        requires begun { AreKept T.value T.PTYPE reader.old.bytes self (items_before self j) taken.old.items }
        ensures kept { OnOk result (AreKept T.value T.PTYPE reader.old.bytes self.entry (items_before self.entry (j + 1)) taken.new.items) }
        ensures after { IfOk result (λ after. after ≡ count_before (items_before self.entry (j + 1)) (option_copied self.entry.patches)) }
        ensures read { AreFewReads 1 reader.old reader.new }
    {
        let (from, to) = self.blocks.places(j);
        let after = patches_to(self.patches, from, before, to);
        let count = count_between(self.bits, from, to - from);
        if count == 0 {
            return Ok(after);
        }
        let part = &mut items[..to - from];
        self.push_part(
            j,
            from,
            count,
            (before, after),
            taken,
            part,
            scratch,
            reader,
        )?;
        Ok(after)
    }

    /// What is stored at the items that are kept, also under a null.
    fn kept_slots<T: BitPacked + PhysicalPType + WrappingAdd>(
        self,
        alloc: Global,
        reader: &mut PackedReader,
    ) -> Result<Vec<T>, AllocError>
        requires patches { IfSome (option_copied self.patches) (λ p. (p.array_len ≡ self.blocks.len) × (p.values.ptype ≡ T.PTYPE)) }
        requires readable { AreReadable (bits_of_type T.PTYPE) reader.old.bytes self.blocks }
        requires starts { HasStarts self.blocks.widths }
        requires long { length self.bits.now ≡ self.blocks.len }
        ensures slots { IfOk result (λ v. map T.value v.items ≡ kept self.entry.bits.now (slots_of T.PTYPE reader.old.bytes self.entry)) }
        ensures read { AreFewReads (blocks_in self.entry.blocks) reader.old reader.new }
    {
        let mut taken = Vec::with_capacity(alloc, self.bits.count_true())?;
        let mut items = [T::zero(); FL_CHUNK_SIZE];
        let mut scratch = [T::zero(); FL_CHUNK_SIZE];
        let mut before = patches_before_first(self.patches);
        for j in 0..self.blocks.count() {
            before = self.push_block(j, before, &mut taken, &mut items, &mut scratch, reader)?;
        }
        Ok(taken)
    }
}

fn filter_typed<T: BitPacked + PhysicalPType + WrappingAdd>(
    alloc: Global,
    column: &PackedColumn,
    widths: Widths,
    bits: &BitList,
    work: &mut Work,
) -> Result<PrimitiveArray, FastLanesError>
    requires typed { column.now.ptype ≡ T.PTYPE }
    requires fit { Fit (parts_of column.now) }
    requires readable { AreReadable (bits_of_type column.now.ptype) column.now.packed.now (blocks_to_read column.now widths) }
    requires starts { HasStarts widths }
    requires long { length bits.now ≡ column.now.len }
    ensures column { Answers column_of_primitive result (Ok (filter_of (Values bits.now) (column_of_packed (parts_of column.now) (blocks_of widths.entry)))) }
    ensures blocks { work.new.blocks ≤ work.old.blocks + blocks_in (blocks_to_read column.now widths.entry) }
{
    let blocks = PackedBlocks {
        widths,
        offset: column.offset,
        len: column.len,
    };
    let filtering = Filtering {
        blocks,
        patches: column.patches,
        bits,
    };
    let mut reader = PackedReader::over(column.packed, work);
    let slots = filtering.kept_slots::<T>(alloc, &mut reader);
    *work = reader.finish();
    let slots = slots?;
    let validity = filter_validity(column.validity, alloc, bits)?;
    Ok(PrimitiveArray::new_unchecked(slots, validity))
}

/// The items of these parts whose booleans are true, where the blocks have these widths.
#[tactic(auto, using(crate::proofs::ReadWidths::readable, crate::proofs::ReadWidths::starts))]
fn filter_column(
    alloc: Global,
    column: &PackedColumn,
    widths: Widths,
    bits: &BitList,
    work: &mut Work,
) -> Result<PrimitiveArray, FastLanesError>
    requires fit { Fit (parts_of column.now) }
    requires widths { AreWidthsOf (parts_of column.now) widths }
    requires long { length bits.now ≡ column.now.len }
    ensures column { Answers column_of_primitive result (Ok (filter_of (Values bits.now) (column_of_packed (parts_of column.now) (blocks_of widths.entry)))) }
    ensures blocks { work.new.blocks ≤ work.old.blocks + block_count (parts_of column.now) }
{
    match_each_integer_ptype!(
        column.ptype,
        filter_typed(alloc, column, widths, bits, work)
    )
}

impl PackedData {
    /// The items whose booleans are true, whose blocks have these widths. A block is unpacked at most once, and only
    /// for more than sixteen of its items.
    pub fn filter(
        &self,
        alloc: Global,
        widths: Widths,
        bits: &BitList,
        work: &mut Work,
    ) -> Result<PrimitiveArray, FastLanesError>
        requires widths { AreWidthsOf self.now widths }
        requires long { length bits.now ≡ self.now.len }
        ensures column { Answers column_of_primitive result (Ok (filter_of (Values bits.now) (column_of_packed self.now (blocks_of widths.entry)))) }
        ensures blocks { work.new.blocks ≤ work.old.blocks + block_count self.now }
    {
        filter_column(alloc, &self.column(), widths, bits, work)
    }
}
