//! Single items of bit-packed arrays: as scalars and in their type, by where their block lies.

ghost use Rattle.std.specs.Prelude.{◌≡◌, ◌+◌, ◌/◌, ◌^◌, ◌<◌, ◌≤◌, IfErr, IfOk, IsTrue, None, Ok, length, option_map, slice_index_or};
ghost use Rattle.fl_types.specs.declared.error.FastLanesError.TheVariants.{OutOfMemory};
ghost use Rattle.fl_types.specs.Refusals.{Answers};
ghost use Rattle.fl_types.specs.Types.{has_ptype};
ghost use Rattle.fl_types.specs.Values.{scalar_parts};
ghost use Rattle.fl_column.specs.Columns.{column_of_primitive};
ghost use Rattle.fl_column.specs.Queries.{scalar_in};
ghost use Rattle.fl_bitpacking.specs.SingleItems.{IsBlockOf};
ghost use Rattle.fl_array.specs.BitPackedArrays.{BlockBoundaries, GlobalWidth, blocks_of_widths, tree_of_bitpacked};
ghost use Rattle.fl_array.specs.Kinds.{has_delta, kind};
ghost use Rattle.fl_array.specs.Trees.{column};

use crate::array::ArrayRef;
use crate::bitpacking::{BitPackedArray, BitWidthsView};
use crate::numbers::number_of_scalar;
use fastlanes::Work;
use fl_bitpacking::packed_data::BlockExtent;
use fl_column::{FastLanesError, PhysicalPType, PrimitiveArray, Scalar};
use std::alloc::Global;

impl BitPackedArray {
    /// Where the block of an item lies, where all blocks have this width.
    #[inline(always)]
    pub(crate) fn extent_at_width(&self, width: u8, i: usize) -> BlockExtent
        requires same { GlobalWidth width ≡ self.now.widths }
        requires range { i < self.now.parts.len }
        ensures { IsBlockOf self.now.parts (blocks_of_widths self.now.widths) i result }
    {
        self.prove_well_formed();
        self.packed_data().extent_at_width(usize::from(width), i)
    }

    /// The block of an item, where the blocks lie between these boundaries.
    fn block_of(&self, boundaries: &ArrayRef, i: usize) -> usize
        requires same { BlockBoundaries boundaries.now ≡ self.now.widths }
        requires range { i < self.now.parts.len }
        ensures block { result ≡ (self.now.parts.offset + i) / 1024 }
        ensures within { result + 1 < length (column boundaries.now).items }
        ensures few { result + 1 < 2 ^ 64 }
    {
        self.prove_well_formed();
        self.packed_data().block_of(i)
    }

    /// Where the block of an item lies, by the first boundary and the two of the block.
    fn extent_by_items(
        &self,
        boundaries: &ArrayRef,
        first: Scalar,
        start: Scalar,
        end: Scalar,
        i: usize,
    ) -> BlockExtent
        requires same { BlockBoundaries boundaries.now ≡ self.now.widths }
        requires first { scalar_parts first ≡ scalar_in (column boundaries.now) 0 }
        requires start { scalar_parts start ≡ scalar_in (column boundaries.now) ((self.now.parts.offset + i) / 1024) }
        requires end { scalar_parts end ≡ scalar_in (column boundaries.now) ((self.now.parts.offset + i) / 1024 + 1) }
        requires range { i < self.now.parts.len }
        ensures { IsBlockOf self.now.parts (blocks_of_widths self.now.widths) i result }
    {
        self.prove_well_formed();
        let (first, start, end) = (
            number_of_scalar(first),
            number_of_scalar(start),
            number_of_scalar(end),
        );
        BlockExtent::between(first, start, end)
    }

    /// Where the block of an item lies, where the boundaries are a primitive array.
    fn extent_by_plain(
        &self,
        boundaries: &ArrayRef,
        plain: &PrimitiveArray,
        i: usize,
    ) -> BlockExtent
        requires same { BlockBoundaries boundaries.now ≡ self.now.widths }
        requires plain { column boundaries.now ≡ column_of_primitive plain.now }
        requires range { i < self.now.parts.len }
        ensures { IsBlockOf self.now.parts (blocks_of_widths self.now.widths) i result }
    {
        self.prove_well_formed();
        let _count = plain.len();
        let j = self.block_of(boundaries, i);
        let first = plain.number_at(0);
        let (start, end) = (plain.number_at(j), plain.number_at(j + 1));
        BlockExtent::between(first, start, end)
    }

    /// Where the block of an item lies, where the blocks lie between these boundaries: three of them are read.
    #[cycle(reading)]
    #[inline(never)]
    fn extent_between(
        &self,
        alloc: Global,
        boundaries: &ArrayRef,
        i: usize,
    ) -> Result<BlockExtent, FastLanesError>
        requires same { BlockBoundaries boundaries.now ≡ self.now.widths }
        requires range { i < self.now.parts.len }
        ensures extent { IfOk result (λ e. IsBlockOf self.now.parts (blocks_of_widths self.now.widths) i e) }
        ensures memory { IfErr result (λ e. e ≡ OutOfMemory) }
        ensures no_memory { IfErr result (λ e. IsTrue (has_delta (kind (tree_of_bitpacked self.now)))) }
    {
        if let Some(plain) = boundaries.as_primitive() {
            return Ok(self.extent_by_plain(boundaries, plain, i));
        }
        let j = self.block_of(boundaries, i);
        let first = boundaries.scalar_at(alloc, 0)?;
        let start = boundaries.scalar_at(alloc, j)?;
        let end = boundaries.scalar_at(alloc, j + 1)?;
        Ok(self.extent_by_items(boundaries, first, start, end, i))
    }

    /// Where the block of an item lies in the packed bytes.
    #[cycle(reading)]
    #[inline(always)]
    pub(crate) fn extent_of(&self, alloc: Global, i: usize) -> Result<BlockExtent, FastLanesError>
        requires range { i < self.now.parts.len }
        ensures extent { IfOk result (λ e. IsBlockOf self.now.parts (blocks_of_widths self.now.widths) i e) }
        ensures memory { IfErr result (λ e. e ≡ OutOfMemory) }
        ensures no_memory { IfErr result (λ e. IsTrue (has_delta (kind (tree_of_bitpacked self.now)))) }
    {
        match self.bit_widths() {
            BitWidthsView::Global(width) => Ok(self.extent_at_width(width, i)),
            BitWidthsView::Blocked(boundaries) => self.extent_between(alloc, boundaries, i),
        }
    }

    /// The item at an index, with the column's type. No block is unpacked, and at most two words are read.
    #[cycle(reading)]
    #[inline(always)]
    pub(crate) fn scalar_at(
        &self,
        alloc: Global,
        i: usize,
        work: &mut Work,
    ) -> Result<Scalar, FastLanesError>
        requires { i < length (column (tree_of_bitpacked self.now)).items }
        ensures item { Answers scalar_parts result (Ok (scalar_in (column (tree_of_bitpacked self.now)) i)) }
        ensures blocks { work.new.blocks ≡ work.old.blocks }
        ensures words { work.new.words ≤ work.old.words + 2 }
        ensures memory { IfErr result (λ e. IsTrue (has_delta (kind (tree_of_bitpacked self.now)))) }
    {
        let _len = self.len();
        let extent = self.extent_of(alloc, i)?;
        Ok(self.packed_data().item(extent, i, work))
    }

    /// The item at an index, or `None` of a null. No block is unpacked, and at most two words are read.
    #[inline(always)]
    pub(crate) fn get<T: PhysicalPType>(
        &self,
        alloc: Global,
        i: usize,
        work: &mut Work,
    ) -> Result<Option<T>, FastLanesError>
        requires typed { IsTrue (has_ptype T.PTYPE (column (tree_of_bitpacked self.now)).dtype) }
        requires range { i < length (column (tree_of_bitpacked self.now)).items }
        ensures item { Answers (option_map T.value) result (Ok (slice_index_or (column (tree_of_bitpacked self.now)).items i None)) }
        ensures blocks { work.new.blocks ≡ work.old.blocks }
        ensures words { work.new.words ≤ work.old.words + 2 }
        ensures memory { IfErr result (λ e. IsTrue (has_delta (kind (tree_of_bitpacked self.now)))) }
    {
        self.prove_typed::<T>();
        let _len = self.len();
        let extent = self.extent_of(alloc, i)?;
        Ok(self.packed_data().get(extent, i, work))
    }
}
