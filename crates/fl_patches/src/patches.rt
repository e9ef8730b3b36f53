//! Patches: a finite map from positions of an array to values.

ghost use Rattle.std.specs.Prelude.{◌≡◌, ◌≤◌, ◌<◌, ◌-◌, ◌+◌, ◌/◌, ◌^◌, false, pos, is_none, IfOk, IfSome, Ok, Some, None, length, option_map, option_and_then, map, slice_index_or};
ghost use Rattle.std.specs.List.{list_any};
ghost use Rattle.std.specs.Option.{option_copied};
ghost use Rattle.fl_types.specs.Masks.{mask_len};
ghost use Rattle.fl_types.specs.Refusals.{Answers};
ghost use Rattle.fl_types.specs.Values.{integer_of, ptype_of_value};
ghost use Rattle.fl_column.specs.Columns.{column_of_primitive, slice_primitive};
ghost use Rattle.fl_column.specs.Numbers.{numbers, numbers_by};
ghost use Rattle.fl_patches.specs.PatchMaps.{ArePatches, IsChunkRange, chunk_places, new_patches, patched, refusal_of, slice_patches};

use crate::checks::first_refusal;
use crate::indices::{count_in, rank_in};
use fl_column::{PrimitiveArray, number_at};
use fl_types::{DType, FastLanesError, NativePType, PValue, match_each_integer_ptype};
use std::alloc::Global;
use std::marker::Model;
use std::ops::Range;

/// Patches of an array: values at some of its positions. The patch at position `i` has the index
/// `offset + i`, so that a slice can keep the indices of the array that it is a slice of. Contracts
/// see the parts, and the map from positions to values as `patched`.
#[derive(Debug)]
pub struct Patches {
    array_len: usize,
    offset: usize,
    indices: PrimitiveArray,
    values: PrimitiveArray,
    chunk_offsets: Option<PrimitiveArray>,
}

// Written out, so that letting one go is one call in each function that owns one.
impl Drop for Patches {
    fn drop(self) {
        let Patches {
            array_len: _,
            offset: _,
            indices: _,
            values: _,
            chunk_offsets: _,
        } = self;
    }
}

impl Model for Patches {
    ghost use Rattle.std.specs.Prelude.{◌≡◌, None};
    ghost use Rattle.fl_patches.specs.PatchMaps.{PatchesParts, refusal_of};

    ghost Value = { PatchesParts };

    ghost view = { λ p. record { array_len = p.array_len; offset = p.offset; indices = p.indices; values = p.values; chunk_offsets = p.chunk_offsets } };

    ghost invariant = { λ p. refusal_of (record { array_len = p.array_len; offset = p.offset; indices = p.indices; values = p.values; chunk_offsets = p.chunk_offsets }) ≡ None };
}

/// The value at a place of an array without nulls.
fn value_in(values: &PrimitiveArray, i: usize) -> Option<PValue>
    requires range { i < length values.now.slots }
    requires valued { list_any is_none (column_of_primitive values.now).items ≡ false }
    ensures value { option_map integer_of result ≡ Some (slice_index_or values.now.slots i (pos 0)) }
    ensures typed { IfSome result (λ v. ptype_of_value v ≡ values.now.ptype) }
{
    // For the proof: the validity covers the values.
    let _validity = values.validity();
    values.get(i)
}

/// The chunk offset of a chunk, which for a chunk after the last one is the number of patches.
fn chunk_offset_at<C: NativePType>(chunk_offsets: &[C], chunk: usize, num_patches: usize) -> usize
    ensures { result ≡ slice_index_or (numbers_by C.value chunk_offsets.now) chunk num_patches }
{
    if chunk < chunk_offsets.len() {
        number_at(chunk_offsets, chunk)
    } else {
        num_patches
    }
}

fn offsets_typed<C: NativePType>(
    chunk_offsets: &PrimitiveArray,
    chunk: usize,
    num_patches: usize,
) -> (usize, usize)
    requires same { chunk_offsets.now.ptype ≡ C.PTYPE }
    requires few { chunk + 1 < 2 ^ 64 }
    ensures start { result.0 ≡ slice_index_or (numbers chunk_offsets.now) chunk num_patches }
    ensures end { result.1 ≡ slice_index_or (numbers chunk_offsets.now) (chunk + 1) num_patches }
{
    let chunk_offsets = chunk_offsets.as_slice::<C>();
    let start = chunk_offset_at(chunk_offsets, chunk, num_patches);
    let end = chunk_offset_at(chunk_offsets, chunk + 1, num_patches);
    (start, end)
}

/// The chunk offsets of a chunk and of the next one.
fn offsets_of_chunk(
    chunk_offsets: &PrimitiveArray,
    chunk: usize,
    num_patches: usize,
) -> (usize, usize)
    requires { chunk + 1 < 2 ^ 64 }
    ensures start { result.0 ≡ slice_index_or (numbers chunk_offsets.now) chunk num_patches }
    ensures end { result.1 ≡ slice_index_or (numbers chunk_offsets.now) (chunk + 1) num_patches }
{
    match_each_integer_ptype!(
        chunk_offsets.ptype(),
        offsets_typed(chunk_offsets, chunk, num_patches)
    )
}

/// The items from `start` to below `end`.
fn slice_of(
    array: &PrimitiveArray,
    alloc: Global,
    start: usize,
    end: usize,
) -> Result<PrimitiveArray, FastLanesError>
    requires order { start ≤ end }
    requires range { end ≤ length array.now.slots }
    ensures { Answers (λ a. a) result (Ok (slice_primitive start end array.now)) }
{
    // For the proof: there are as many items as slots.
    let _len = array.len();
    array.slice(alloc, start, end)
}

impl Patches {
    /// Patches of these parts: the value of the position `indices[k] - offset` among `array_len`
    /// items is `values[k]`. Chunk offset `k`, if there are chunk offsets, is the number of
    /// indices below `1024 * k`.
    ///
    /// # Errors
    /// `PatchType` if the type of the indices or chunk offsets is signed or nullable. Then
    /// `PatchLength` if there is no patch, not one value for each index, or not one chunk offset
    /// for each 1024 items, rounded up. Then `PatchContent` if the indices do not rise, an index is
    /// not in `offset .. offset + array_len`, a value is null, or there are chunk offsets and the
    /// offset is not 0 or one of them is wrong.
    pub fn new(
        array_len: usize,
        offset: usize,
        indices: PrimitiveArray,
        values: PrimitiveArray,
        chunk_offsets: Option<PrimitiveArray>,
    ) -> Result<Patches, FastLanesError>
        ensures { result ≡ new_patches array_len offset indices values chunk_offsets }
    {
        match first_refusal(array_len, offset, &indices, &values, &chunk_offsets) {
            Some(refusal) => Err(refusal),
            None => Ok(Patches::new_unchecked(array_len, offset, indices, values, chunk_offsets)),
        }
    }

    /// Patches of these parts, which `new` accepts.
    pub fn new_unchecked(
        array_len: usize,
        offset: usize,
        indices: PrimitiveArray,
        values: PrimitiveArray,
        chunk_offsets: Option<PrimitiveArray>,
    ) -> Patches
        requires { refusal_of (record { array_len = array_len; offset = offset; indices = indices; values = values; chunk_offsets = chunk_offsets }) ≡ None }
        ensures { result ≡ record { array_len = array_len; offset = offset; indices = indices; values = values; chunk_offsets = chunk_offsets } }
    {
        Patches {
            array_len,
            offset,
            indices,
            values,
            chunk_offsets,
        }
    }

    /// The number of items of the patched array.
    pub fn array_len(&self) -> usize
        ensures { result ≡ self.now.array_len }
    {
        self.array_len
    }

    /// The index of the array's first item.
    pub fn offset(&self) -> usize
        ensures { result ≡ self.now.offset }
    {
        self.offset
    }

    /// The number of patches, at least 1.
    pub fn num_patches(&self) -> usize
        ensures { result ≡ length self.now.indices.slots }
    {
        self.indices.len()
    }

    /// The type of the values.
    pub fn dtype(&self) -> DType
        ensures { result ≡ (column_of_primitive self.now.values).dtype }
    {
        self.values.dtype()
    }

    /// The indices, rising. Together with the other parts they are what `new` accepts.
    pub fn indices(&self) -> &PrimitiveArray
        ensures indices { result.now ≡ self.now.indices }
        ensures accepted { refusal_of self.now ≡ None }
    {
        &self.indices
    }

    /// The value for each index.
    pub fn values(&self) -> &PrimitiveArray
        ensures { result.now ≡ self.now.values }
    {
        &self.values
    }

    /// For each chunk of 1024 items, the number of patches before it.
    pub fn chunk_offsets(&self) -> Option<&PrimitiveArray>
        ensures { option_copied result ≡ self.now.chunk_offsets }
    {
        self.chunk_offsets.as_ref()
    }

    /// The range of the indices among which the index of a position is to be searched: with chunk
    /// offsets that of the patches of the position's chunk of 1024 items, without chunk offsets that of
    /// all patches. It is the same for each position of the chunk.
    pub fn search_range(&self, i: usize) -> (usize, usize)
        ensures range { IsChunkRange self.now (i / 1024) result.0 result.1 }
        ensures narrow { IfSome self.now.chunk_offsets (λ _. result ≡ chunk_places (numbers self.now.indices) (i / 1024)) }
    {
        let num_patches = self.indices.len();
        match &self.chunk_offsets {
            Some(chunk_offsets) => offsets_of_chunk(chunk_offsets, i / 1024, num_patches),
            None => (0, num_patches),
        }
    }

    /// The value at a position, if it is patched.
    pub fn get_patched(&self, i: usize) -> Option<PValue>
        ensures value { option_map integer_of result ≡ patched self.now i }
        ensures typed { IfSome result (λ v. ptype_of_value v ≡ self.now.values.ptype) }
    {
        let (start, end) = self.search_range(i);
        let rank = rank_in(&self.indices, start, end, self.offset as u128 + i as u128)?;
        value_in(&self.values, rank)
    }

    /// The patches of the items of a range, or `None` if there are none. The indices stay the same, the
    /// range's start is added to the offset, and there are no chunk offsets.
    pub fn slice(
        &self,
        alloc: Global,
        range: Range<usize>,
    ) -> Result<Option<Patches>, FastLanesError>
        requires order { range.start ≤ range.end }
        requires range { range.end ≤ self.now.array_len }
        ensures parts { Answers (λ o. o) result (Ok (slice_patches range.start range.end self.now)) }
        ensures map { IfOk result (λ o. ArePatches o (range.end - range.start) (λ i. patched self.now (range.start + i))) }
    {
        let (start, end) = (range.start, range.end);
        let first = count_in(&self.indices, self.offset as u128 + start as u128);
        let last = count_in(&self.indices, self.offset as u128 + end as u128);
        if first == last {
            return Ok(None);
        }
        // For the proof: an index is below 2 ^ 64, and so is the sum.
        let _index = self.indices.number_at(first);
        let slice_offset = self.offset + start;
        Ok(Some(Patches {
            array_len: end - start,
            offset: slice_offset,
            indices: slice_of(&self.indices, alloc, first, last)?,
            values: slice_of(&self.values, alloc, first, last)?,
            chunk_offsets: None,
        }))
    }

    /// A copy.
    pub fn try_clone(&self, alloc: Global) -> Result<Patches, FastLanesError>
        ensures { Answers (λ p. p) result (Ok self.now) }
    {
        let indices = self.indices.try_clone(alloc)?;
        let values = self.values.try_clone(alloc)?;
        let chunk_offsets = match &self.chunk_offsets {
            Some(offsets) => Some(offsets.try_clone(alloc)?),
            None => None,
        };
        Ok(Patches {
            array_len: self.array_len,
            offset: self.offset,
            indices,
            values,
            chunk_offsets,
        })
    }
}
