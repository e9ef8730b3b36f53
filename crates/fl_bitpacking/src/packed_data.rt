//! The parts of a bit-packed array, without the widths of its blocks: decoding, single items and slices.

mod single_items;

ghost use Rattle.std.specs.Prelude.{◌≡◌, ◌+◌, ◌-◌, ◌*◌, ◌/◌, ◌%◌, ◌<◌, ◌≤◌, ℕ, IfOk, IfSome, None, Ok, OnOk, length, min, option_and_then, option_map};
ghost use Rattle.std.specs.Option.{option_copied};
ghost use Rattle.fl_types.specs.declared.dtype.DType.TheVariants.{Primitive};
ghost use Rattle.fl_types.specs.Bits.{between};
ghost use Rattle.fl_types.specs.Integers.{bits_of_type};
ghost use Rattle.fl_types.specs.Refusals.{Answers};
ghost use Rattle.fl_types.specs.Validities.{nullability_of};
ghost use Rattle.fl_column.specs.Columns.{Column, column_of_primitive, numbers_of};
ghost use Rattle.fl_column.specs.Operations.{slice_of};
ghost use Rattle.fl_patches.specs.PatchMaps.{patched_in, slice_patches};
ghost use Rattle.fl_bitpacking.specs.Blocks.{block_item, blocks_of, boundary_array, boundary_blocks, global_blocks};
ghost use Rattle.fl_bitpacking.specs.BlockedWidths.{width_per_block};
ghost use Rattle.fl_bitpacking.specs.Columns.{block_count, column_of_packed};
ghost use Rattle.fl_bitpacking.specs.Parts.{parts_of};
ghost use Rattle.fl_bitpacking.specs.ReadWidths.{AreWidthsOf};
ghost use Rattle.fl_bitpacking.specs.References.{AreReferencesOf, plus_references};
ghost use Rattle.fl_bitpacking.specs.Refusals.{AreConsistent, blocked_refusal, global_refusal};
ghost use Rattle.fl_bitpacking.specs.SlicedParts.{HasEnds, IsBlockedSlice, end_block, first_block, sliced_parts};

use crate::bitpack_decompress::{PackedColumn, unpack_column};
use crate::boundaries::global_boundary_array;
use crate::laws::parts_are_consistent;
pub use crate::packed_data::single_items::BlockExtent;
use bytes::Bytes;
use fastlanes::{FL_CHUNK_SIZE, Work};
use fl_column::{PrimitiveArray, chunk_count};
use fl_patches::{Patches, Widths};
use fl_types::{DType, FastLanesError, PType, Validity};
use std::alloc::Global;
use std::marker::Model;

/// The packed bytes of a column's blocks with its type, validity and patches, and the range of their
/// positions that it covers.
pub struct PackedData {
    packed: Bytes,
    ptype: PType,
    validity: Validity,
    patches: Option<Patches>,
    offset: usize,
    len: usize,
}

// Written out, so that letting one go is one call in each function that owns one.
impl Drop for PackedData {
    fn drop(self) {
        let PackedData {
            packed: _,
            ptype: _,
            validity: _,
            patches: _,
            offset: _,
            len: _,
        } = self;
    }
}

impl Model for PackedData {
    ghost use Rattle.fl_bitpacking.specs.Columns.{BitPackedParts};
    ghost use Rattle.fl_bitpacking.specs.Refusals.{AreConsistent};

    ghost Value = { BitPackedParts };

    ghost view = { λ d. record { packed = d.packed; ptype = d.ptype; validity = d.validity; patches = d.patches; offset = d.offset; len = d.len } };

    ghost invariant = { λ d. AreConsistent (record { packed = d.packed; ptype = d.ptype; validity = d.validity; patches = d.patches; offset = d.offset; len = d.len }) };
}

/// A copy of patches, if there are any.
fn clone_patches(
    patches: &Option<Patches>,
    alloc: Global,
) -> Result<Option<Patches>, FastLanesError>
    ensures { Answers (λ p. p) result (Ok patches.now) }
{
    match patches {
        Some(patches) => Ok(Some(patches.try_clone(alloc)?)),
        None => Ok(None),
    }
}

/// The patches of the items from `start` to below `end`, if there are any.
fn slice_patches(
    patches: &Option<Patches>,
    alloc: Global,
    start: usize,
    end: usize,
) -> Result<Option<Patches>, FastLanesError>
    requires order { start ≤ end }
    requires range { IfSome patches.now (λ p. end ≤ p.array_len) }
    ensures parts { Answers (λ p. p) result (Ok (option_and_then (slice_patches start end) patches.now)) }
    ensures map { IfOk result (λ p. (i : ℕ) → i < end - start → patched_in p i ≡ patched_in patches.now (start + i)) }
{
    match patches {
        Some(patches) => patches.slice(alloc, start..end),
        None => Ok(None),
    }
}

/// The bytes from `from` to below `to`, shared with the others.
fn slice_bytes(packed: &Bytes, from: usize, to: usize) -> Result<Bytes, FastLanesError>
    requires order { from ≤ to }
    requires range { to ≤ length packed.now }
    ensures { Answers (λ b. b) result (Ok (between from to packed.now)) }
{
    Ok(packed.slice(from..to)?)
}

impl PackedData {
    /// The data of these parts, which are consistent.
    pub fn new(
        packed: Bytes,
        ptype: PType,
        validity: Validity,
        patches: Option<Patches>,
        offset: usize,
        len: usize,
    ) -> PackedData
        requires { AreConsistent (record { packed = packed; ptype = ptype; validity = validity; patches = patches; offset = offset; len = len }) }
        ensures { result ≡ record { packed = packed; ptype = ptype; validity = validity; patches = patches; offset = offset; len = len } }
    {
        PackedData {
            packed,
            ptype,
            validity,
            patches,
            offset,
            len,
        }
    }

    /// The bytes of the blocks.
    pub fn packed(&self) -> &Bytes
        ensures { result.now ≡ self.now.packed }
    {
        &self.packed
    }

    /// The integer type.
    pub fn ptype(&self) -> PType
        ensures { result ≡ self.now.ptype }
    {
        self.ptype
    }

    /// Which items are null.
    pub fn validity(&self) -> &Validity
        ensures { result.now ≡ self.now.validity }
    {
        &self.validity
    }

    /// The values that replace packed bits.
    pub fn patches(&self) -> Option<&Patches>
        ensures { option_copied result ≡ self.now.patches }
    {
        self.patches.as_ref()
    }

    /// The position of the first item in the first block, below 1024.
    pub fn offset(&self) -> usize
        ensures { result ≡ self.now.offset }
    {
        self.offset
    }

    /// The number of items.
    pub fn len(&self) -> usize
        ensures { result ≡ self.now.len }
    {
        self.len
    }

    /// The type of the column.
    pub fn dtype(&self) -> DType
        ensures { result ≡ Primitive self.now.ptype (nullability_of self.now.validity) }
    {
        DType::Primitive(self.ptype, self.validity.nullability())
    }

    /// The number of blocks.
    pub fn block_count(&self) -> usize
        ensures { result ≡ block_count self.now }
    {
        chunk_count(self.offset + self.len)
    }

    /// The parts as they are read.
    pub(crate) fn column(&self) -> PackedColumn<'_>
        ensures parts { parts_of result ≡ self.now }
        ensures consistent { AreConsistent self.now }
    {
        PackedColumn {
            packed: self.packed.as_slice(),
            ptype: self.ptype,
            validity: &self.validity,
            patches: self.patches.as_ref(),
            offset: self.offset,
            len: self.len,
        }
    }

    /// The column of the items, whose blocks have these widths. Each block is unpacked at most once.
    pub fn decode(
        &self,
        alloc: Global,
        widths: Widths,
        work: &mut Work,
    ) -> Result<PrimitiveArray, FastLanesError>
        requires { AreWidthsOf self.now widths }
        ensures column { Answers column_of_primitive result (Ok (column_of_packed self.now (blocks_of widths.entry))) }
        ensures blocks { work.new.blocks ≤ work.old.blocks + block_count self.now }
        ensures words { work.new.words ≡ work.old.words }
    {
        unpack_column(alloc, &self.column(), widths, work)
    }

    /// The parts of the items of `start..end`, whose blocks are the bytes of `from..to`.
    pub fn slice(
        &self,
        alloc: Global,
        from: usize,
        to: usize,
        start: usize,
        end: usize,
    ) -> Result<PackedData, FastLanesError>
        requires bytes { from ≤ to }
        requires room { to ≤ length self.now.packed }
        requires order { start ≤ end }
        requires range { end ≤ self.now.len }
        ensures parts { Answers (λ p. p) result (Ok (sliced_parts from to start end self.now)) }
        ensures patches { IfOk result (λ p. (i : ℕ) → i < end - start → patched_in p.patches i ≡ patched_in self.now.patches (start + i)) }
    {
        let packed = slice_bytes(&self.packed, from, to)?;
        let validity = self.validity.slice(alloc, start, end, self.len)?;
        let patches = slice_patches(&self.patches, alloc, start, end)?;
        Ok(PackedData {
            packed,
            ptype: self.ptype,
            validity,
            patches,
            offset: (self.offset + start) % FL_CHUNK_SIZE,
            len: end - start,
        })
    }

    /// The parts of the items of `start..end`, if all blocks have one width: the blocks from the first one that
    /// holds such an item to the last one.
    pub fn slice_global(
        &self,
        alloc: Global,
        width: usize,
        start: usize,
        end: usize,
    ) -> Result<PackedData, FastLanesError>
        requires global { global_refusal self.now width ≡ None }
        requires order { start ≤ end }
        requires range { end ≤ self.now.len }
        ensures parts { Answers (λ p. p) result (Ok (sliced_parts (128 * width * first_block self.now.offset start) (128 * width * end_block self.now.offset end) start end self.now)) }
        ensures global { IfOk result (λ p. global_refusal p width ≡ None) }
        ensures column { Answers (λ p. column_of_packed p (global_blocks width)) result (Ok (slice_of start end (column_of_packed self.now (global_blocks width)))) }
    {
        let _size = self.packed.len();
        let from = FL_CHUNK_SIZE / 8 * width * self.first_block(start);
        let to = FL_CHUNK_SIZE / 8 * width * self.end_block(end);
        let sliced = self.slice(alloc, from, to, start, end)?;
        parts_are_consistent(&sliced);
        Ok(sliced)
    }

    /// The parts of the items of `start..end`, if the blocks are between boundaries: `first` is the first of
    /// all, `from` that before the first block that holds such an item, and `to` that after the last.
    pub fn slice_blocked(
        &self,
        alloc: Global,
        first: usize,
        from: usize,
        to: usize,
        start: usize,
        end: usize,
    ) -> Result<PackedData, FastLanesError>
        requires first { first ≤ from }
        requires bytes { from ≤ to }
        requires room { to - first ≤ length self.now.packed }
        requires order { start ≤ end }
        requires range { end ≤ self.now.len }
        ensures parts { Answers (λ p. p) result (Ok (sliced_parts (from - first) (to - first) start end self.now)) }
        ensures blocked { IfOk result (λ p. (c : Column) → HasEnds c self.now.offset start end first from to → blocked_refusal self.now c ≡ None → IsBlockedSlice c self.now start end p) }
    {
        let sliced = self.slice(alloc, from - first, to - first, start, end)?;
        parts_are_consistent(&sliced);
        Ok(sliced)
    }

    /// The block that holds the first item from `start` on.
    pub fn first_block(&self, start: usize) -> usize
        requires { start ≤ self.now.len }
        ensures { result ≡ first_block self.now.offset start }
    {
        (self.offset + start) / FL_CHUNK_SIZE
    }

    /// The block after the last one that holds an item below `end`.
    pub fn end_block(&self, end: usize) -> usize
        requires { end ≤ self.now.len }
        ensures { result ≡ end_block self.now.offset end }
    {
        chunk_count(self.offset + end)
    }

    /// The boundaries of the blocks, which have one width, as an array of the smallest unsigned type that holds
    /// the last one. They take one allocation.
    pub fn global_boundaries(
        &self,
        alloc: Global,
        width: u8,
    ) -> Result<PrimitiveArray, FastLanesError>
        requires { global_refusal self.now width ≡ None }
        ensures boundaries { Answers (λ b. b) result (Ok (boundary_array (width_per_block self.now width))) }
        ensures blocked { blocked_refusal self.now (column_of_primitive (boundary_array (width_per_block self.now width))) ≡ None }
        ensures column { column_of_packed self.now (boundary_blocks (numbers_of (column_of_primitive (boundary_array (width_per_block self.now width))))) ≡ column_of_packed self.now (global_blocks width) }
    {
        let _size = self.packed.len();
        global_boundary_array(alloc, width, self.block_count())
    }

    /// The packed bytes, the validity and the patches.
    pub fn into_owned(self) -> (Bytes, Validity, Option<Patches>)
        ensures packed { result.0 ≡ self.packed }
        ensures validity { result.1 ≡ self.validity }
        ensures patches { result.2 ≡ self.patches }
    {
        let PackedData {
            packed,
            ptype: _,
            validity,
            patches,
            offset: _,
            len: _,
        } = self;
        (packed, validity, patches)
    }

    /// A copy.
    pub fn try_clone(&self, alloc: Global) -> Result<PackedData, FastLanesError>
        ensures { Answers (λ p. p) result (Ok self.now) }
    {
        let packed = self.packed.clone()?;
        let validity = self.validity.try_clone(alloc)?;
        let patches = clone_patches(&self.patches, alloc)?;
        Ok(PackedData {
            packed,
            ptype: self.ptype,
            validity,
            patches,
            offset: self.offset,
            len: self.len,
        })
    }
}
