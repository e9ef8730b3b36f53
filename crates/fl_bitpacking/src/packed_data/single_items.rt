//! Single items of packed columns: as scalars, in their type, and as their bits are stored.

ghost use Rattle.std.specs.Prelude.{◌≡◌, ◌+◌, ◌-◌, ◌*◌, ◌/◌, ◌<◌, ◌≤◌, IfSome, None, length, option_map, slice_index_or, unwrap_or};
ghost use Rattle.fl_types.specs.Integers.{bits_of_type};
ghost use Rattle.fl_types.specs.Values.{integer_of, ptype_of_value, scalar_parts};
ghost use Rattle.fl_column.specs.Queries.{scalar_in};
ghost use Rattle.fl_patches.specs.PatchMaps.{patched_in};
ghost use Rattle.fl_bitpacking.specs.Blocks.{Blocks, block_item, global_blocks};
ghost use Rattle.fl_bitpacking.specs.Columns.{block_count, column_of_packed};
ghost use Rattle.fl_bitpacking.specs.Readings.{AreFewWords, bytes_at};
ghost use Rattle.fl_bitpacking.specs.Refusals.{global_refusal};
ghost use Rattle.fl_bitpacking.specs.SingleItems.{IsBlockIn, IsBlockOf, stored_in_block, stored_scalar};

use crate::packed_data::PackedData;
use crate::packed_reader::PackedReader;
use fastlanes::{FL_CHUNK_SIZE, Work};
use fl_column::PhysicalPType;
use fl_types::{NativePType, PType, PValue, Scalar, match_each_integer_ptype};

/// Where a block of 1024 items lies in the packed bytes.
#[derive(Clone, Copy)]
pub struct BlockExtent {
    /// The byte at which it starts.
    pub start: usize,
    /// How many bits of each item are packed.
    pub width: usize,
}

impl BlockExtent {
    /// The block between the boundaries `start` and `end`, of boundaries that begin with `first`.
    pub fn between(first: usize, start: usize, end: usize) -> BlockExtent
        requires first { first ≤ start }
        requires order { start ≤ end }
        ensures { result ≡ record { start = start - first; width = (end - start) / 128 } }
    {
        BlockExtent {
            start: start - first,
            width: (end - start) / (FL_CHUNK_SIZE / 8),
        }
    }
}

#[inline(always)]
fn item_typed<T: PhysicalPType>(
    reader: &mut PackedReader,
    extent: BlockExtent,
    index: usize,
) -> PValue
    requires width { extent.width ≤ bits_of_type T.PTYPE }
    requires room { extent.start + 128 * extent.width ≤ length reader.old.bytes }
    requires index { index < 1024 }
    ensures value { integer_of result ≡ block_item T.PTYPE extent.width (bytes_at extent reader.old.bytes) index }
    ensures typed { ptype_of_value result ≡ T.PTYPE }
    ensures few { AreFewWords 2 reader.old reader.new }
{
    reader.item::<T>(extent, index).into_pvalue()
}

/// The integer of this type at `index` of a block, as its bits are stored.
#[inline(always)]
fn item_of(reader: &mut PackedReader, ptype: PType, extent: BlockExtent, index: usize) -> PValue
    requires width { extent.width ≤ bits_of_type ptype }
    requires room { extent.start + 128 * extent.width ≤ length reader.old.bytes }
    requires index { index < 1024 }
    ensures value { integer_of result ≡ block_item ptype extent.width (bytes_at extent reader.old.bytes) index }
    ensures typed { ptype_of_value result ≡ ptype }
    ensures few { AreFewWords 2 reader.old reader.new }
{
    match_each_integer_ptype!(ptype, item_typed(reader, extent, index))
}

impl PackedData {
    /// The block of item `i`.
    pub fn block_of(&self, i: usize) -> usize
        requires { i < self.now.len }
        ensures block { result ≡ (self.now.offset + i) / 1024 }
        ensures range { result < block_count self.now }
    {
        (self.offset + i) / FL_CHUNK_SIZE
    }

    /// Where the block of item `i` lies, if all blocks have one width.
    #[inline(always)]
    pub fn extent_at_width(&self, width: usize, i: usize) -> BlockExtent
        requires global { global_refusal self.now width ≡ None }
        requires range { i < self.now.len }
        ensures block { IsBlockOf self.now (global_blocks width) i result }
    {
        let _size = self.packed.len();
        let start = FL_CHUNK_SIZE / 8 * width * self.block_of(i);
        BlockExtent { start, width }
    }

    /// Item `i`, whose block lies there.
    #[inline(always)]
    pub fn item(&self, extent: BlockExtent, i: usize, work: &mut Work) -> Scalar
        requires range { i < self.now.len }
        requires block { IsBlockIn self.now extent }
        ensures item { (blocks : Blocks) → IsBlockOf self.now blocks i extent → scalar_parts result ≡ scalar_in (column_of_packed self.now blocks) i }
        ensures few { work.new.words ≤ work.old.words + 2 }
        ensures blocks { work.new.blocks ≡ work.old.blocks }
    {
        if !self.validity.is_valid(i, self.len) {
            return Scalar::null(self.dtype());
        }
        let value = self.value(extent, i, work);
        Scalar::primitive(value, self.validity.nullability())
    }

    /// Item `i`, or `None` of a null, whose block lies there.
    #[inline(always)]
    pub fn get<T: PhysicalPType>(&self, extent: BlockExtent, i: usize, work: &mut Work) -> Option<T>
        requires typed { self.now.ptype ≡ T.PTYPE }
        requires range { i < self.now.len }
        requires block { IsBlockIn self.now extent }
        ensures item { (blocks : Blocks) → IsBlockOf self.now blocks i extent → option_map T.value result ≡ slice_index_or (column_of_packed self.now blocks).items i None }
        ensures few { work.new.words ≤ work.old.words + 2 }
        ensures blocks { work.new.blocks ≡ work.old.blocks }
    {
        if !self.validity.is_valid(i, self.len) {
            return None;
        }
        Some(self.value_as(extent, i, work))
    }

    /// Item `i` by its packed bits, whose block lies there: without its patch, and also under a null.
    pub fn stored(&self, extent: BlockExtent, i: usize, work: &mut Work) -> Scalar
        requires range { i < self.now.len }
        requires block { IsBlockIn self.now extent }
        ensures item { (blocks : Blocks) → IsBlockOf self.now blocks i extent → scalar_parts result ≡ stored_scalar self.now blocks i }
        ensures few { work.new.words ≤ work.old.words + 2 }
        ensures blocks { work.new.blocks ≡ work.old.blocks }
    {
        let value = self.stored_value(extent, i, work);
        Scalar::primitive(value, self.validity.nullability())
    }

    /// The integer of item `i` as its bits are stored.
    #[inline(always)]
    fn stored_value(&self, extent: BlockExtent, i: usize, work: &mut Work) -> PValue
        requires range { i < self.now.len }
        requires block { IsBlockIn self.now extent }
        ensures value { integer_of result ≡ stored_in_block self.now extent i }
        ensures typed { ptype_of_value result ≡ self.now.ptype }
        ensures few { work.new.words ≤ work.old.words + 2 }
        ensures blocks { work.new.blocks ≡ work.old.blocks }
    {
        let index = (self.offset + i) % FL_CHUNK_SIZE;
        let mut reader = PackedReader::over(self.packed.as_slice(), work);
        let value = item_of(&mut reader, self.ptype, extent, index);
        *work = reader.finish();
        value
    }

    /// The patch of item `i`, if there is one.
    #[inline(always)]
    fn patch(&self, i: usize) -> Option<PValue>
        ensures value { option_map integer_of result ≡ patched_in self.now.patches i }
        ensures typed { IfSome result (λ v. ptype_of_value v ≡ self.now.ptype) }
    {
        self.patches.as_ref()?.get_patched(i)
    }

    /// The integer of item `i`: its patch, if there is one, else what is stored. It is read under a null too.
    #[inline(always)]
    fn value(&self, extent: BlockExtent, i: usize, work: &mut Work) -> PValue
        requires range { i < self.now.len }
        requires block { IsBlockIn self.now extent }
        ensures value { integer_of result ≡ unwrap_or (patched_in self.now.patches i) (stored_in_block self.now extent i) }
        ensures typed { ptype_of_value result ≡ self.now.ptype }
        ensures few { work.new.words ≤ work.old.words + 2 }
        ensures blocks { work.new.blocks ≡ work.old.blocks }
    {
        match self.patch(i) {
            Some(value) => value,
            None => self.stored_value(extent, i, work),
        }
    }

    /// The patch of item `i`, if there is one.
    #[inline(always)]
    fn patch_of<T: NativePType>(&self, i: usize) -> Option<T>
        requires { self.now.ptype ≡ T.PTYPE }
        ensures { option_map T.value result ≡ patched_in self.now.patches i }
    {
        match &self.patches {
            Some(patches) => T::from_pvalue(patches.get_patched(i)?),
            None => None,
        }
    }

    /// Item `i` as its bits are stored, in its type.
    #[inline(always)]
    fn stored_as<T: PhysicalPType>(&self, extent: BlockExtent, i: usize, work: &mut Work) -> T
        requires typed { self.now.ptype ≡ T.PTYPE }
        requires range { i < self.now.len }
        requires block { IsBlockIn self.now extent }
        ensures value { T.value result ≡ stored_in_block self.now extent i }
        ensures few { work.new.words ≤ work.old.words + 2 }
        ensures blocks { work.new.blocks ≡ work.old.blocks }
    {
        let mut reader = PackedReader::over(self.packed.as_slice(), work);
        let item = reader.item(extent, (self.offset + i) % FL_CHUNK_SIZE);
        *work = reader.finish();
        item
    }

    /// Item `i` in its type: its patch, if there is one, else what is stored. It is read under a null too.
    #[inline(always)]
    fn value_as<T: PhysicalPType>(&self, extent: BlockExtent, i: usize, work: &mut Work) -> T
        requires typed { self.now.ptype ≡ T.PTYPE }
        requires range { i < self.now.len }
        requires block { IsBlockIn self.now extent }
        ensures value { T.value result ≡ unwrap_or (patched_in self.now.patches i) (stored_in_block self.now extent i) }
        ensures few { work.new.words ≤ work.old.words + 2 }
        ensures blocks { work.new.blocks ≡ work.old.blocks }
    {
        match self.patch_of(i) {
            Some(value) => value,
            None => self.stored_as(extent, i, work),
        }
    }
}
