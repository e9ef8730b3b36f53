//! Items of a packed column from an index on, which are written into a slice of the caller. Nothing is allocated, so
//! no call fails.

ghost use Rattle.std.specs.Prelude.{◌≡◌, ◌+◌, ◌-◌, ◌/◌, ◌≤◌, length, map, min};
ghost use Rattle.fl_types.specs.Integers.{bits_of_type};
ghost use Rattle.fl_column.specs.Chunks.{chunk_count};
ghost use Rattle.fl_bitpacking.specs.Blocks.{blocks_of, value_at};
ghost use Rattle.fl_bitpacking.specs.BlockSums.{decoded_column, plus_block_reference};
ghost use Rattle.fl_bitpacking.specs.Columns.{block_count, column_of_packed};
ghost use Rattle.fl_bitpacking.specs.ItemsFrom.{AreItemsFrom};
ghost use Rattle.fl_bitpacking.specs.Parts.{AreReadable, Fit, blocks_to_read, parts_of};
ghost use Rattle.fl_bitpacking.specs.ReadWidths.{AreWidthsOf};
ghost use Rattle.fl_bitpacking.specs.References.{AreReferencesOf, plus_references};
ghost use Rattle.fl_bitpacking.specs.Taken.{HasStarts};

use crate::bit_packed::BitPacked;
use crate::bitpack_decompress::PackedColumn;
use crate::bitpack_decompress::block_decoding::PlusReferences;
use crate::blocks::PackedBlocks;
use crate::packed_data::PackedData;
use crate::packed_reader::PackedReader;
use crate::patching::ranges::write_patches_from;
use crate::references::References;
use fastlanes::Work;
use fl_patches::Widths;
use num_traits::WrappingAdd;

/// Writes items, each plus the reference of its block.
fn read_items<'a, T: BitPacked + WrappingAdd>(
    column: &PackedColumn<'a>,
    widths: Widths<'a>,
    references: &[T],
    start: usize,
    items: &mut [T],
    work: &mut Work,
)
    requires typed { column.now.ptype ≡ T.PTYPE }
    requires fit { Fit (parts_of column.now) }
    requires readable { AreReadable (bits_of_type column.now.ptype) column.now.packed.now (blocks_to_read column.now widths) }
    requires starts { HasStarts widths }
    requires range { start + length items.old ≤ column.now.len }
    ensures items { AreItemsFrom start (length items.old) (value_at T.value items.new) (decoded_column (plus_block_reference T.PTYPE (map T.value references.now)) (parts_of column.now) (blocks_of widths.entry)) }
    ensures blocks { work.new.blocks ≡ min (work.old.blocks + (chunk_count (column.now.offset + start + length items.old) - (column.now.offset + start) / 1024)) u64.MAX }
    ensures words { work.new.words ≡ work.old.words }
{
    let blocks = PackedBlocks {
        widths,
        offset: column.offset,
        len: column.len,
    };
    let decoder = PlusReferences { references };
    let mut reader = PackedReader::over(column.packed, work);
    blocks.read_into(&decoder, start, items, &mut reader);
    *work = reader.finish();
    let first = column.offset + start;
    write_patches_from(column.patches, start, references, first, items);
}

/// Writes items plus the references: one for all items, or one for those of each block, or none.
#[tactic(auto, using(crate::proofs::ReadWidths::readable, crate::proofs::ReadWidths::starts))]
fn read_column<'a, T: BitPacked + WrappingAdd>(
    column: &PackedColumn<'a>,
    widths: Widths<'a>,
    references: References,
    start: usize,
    items: &mut [T],
    work: &mut Work,
)
    requires typed { column.now.ptype ≡ T.PTYPE }
    requires references { AreReferencesOf column.now.ptype (block_count (parts_of column.now)) references }
    requires fit { Fit (parts_of column.now) }
    requires widths { AreWidthsOf (parts_of column.now) widths }
    requires range { start + length items.old ≤ column.now.len }
    ensures items { AreItemsFrom start (length items.old) (value_at T.value items.new) (plus_references references.entry column.now.offset (column_of_packed (parts_of column.now) (blocks_of widths.entry))) }
    ensures blocks { work.new.blocks ≡ min (work.old.blocks + (chunk_count (column.now.offset + start + length items.old) - (column.now.offset + start) / 1024)) u64.MAX }
    ensures words { work.new.words ≡ work.old.words }
{
    match references {
        References::None => read_items(column, widths, &[], start, items, work),
        References::Global(reference) => {
            let reference = T::from_pvalue(reference).unwrap();
            read_items(column, widths, &[reference], start, items, work)
        }
        References::PerBlock(references) => {
            let references = references.as_slice::<T>();
            read_items(column, widths, references, start, items, work)
        }
    }
}

impl PackedData {
    /// Writes the items from index `start` on, as many as the slice has, plus the references, if there are any: for
    /// each item that is not null its value, for a null any value. Each block that has one of these items is unpacked
    /// once, and no other one.
    pub fn read_into<'a, T: BitPacked + WrappingAdd>(
        &'a self,
        widths: Widths<'a>,
        references: References,
        start: usize,
        items: &mut [T],
        work: &mut Work,
    )
        requires typed { self.now.ptype ≡ T.PTYPE }
        requires references { AreReferencesOf self.now.ptype (block_count self.now) references }
        requires widths { AreWidthsOf self.now widths }
        requires range { start + length items.old ≤ self.now.len }
        ensures items { AreItemsFrom start (length items.old) (value_at T.value items.new) (plus_references references.entry self.now.offset (column_of_packed self.now (blocks_of widths.entry))) }
        ensures blocks { work.new.blocks ≡ min (work.old.blocks + (chunk_count (self.now.offset + start + length items.old) - (self.now.offset + start) / 1024)) u64.MAX }
        ensures words { work.new.words ≡ work.old.words }
    {
        read_column(&self.column(), widths, references, start, items, work);
    }
}
