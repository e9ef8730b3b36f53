//! The patches of the exceptions at a width.

ghost use Rattle.std.specs.Prelude.{◌≡◌, ◌+◌, ◌*◌, ◌/◌, ◌%◌, ◌<◌, ◌≤◌, ◌≢◌, ◌^◌, ◌++◌, ◌&&◌, ◌∷◌, [], ℕ, ℤ, pos, true, false, List, Option, IfOk, IsTrue, OnOk, None, Ok, Some, length, map, min, nat_lt, slice_index, slice_index_or, if◌then◌else◌};
ghost use Rattle.fl_types.specs.Bits.{between, bit_of_word, tabulate};
ghost use Rattle.fl_types.specs.Integers.{pattern_of, smallest_type};
ghost use Rattle.fl_types.specs.Refusals.{Answers};
ghost use Rattle.fl_types.specs.Validities.{covers, full_validity, items_of, nullability_of};
ghost use Rattle.fl_column.specs.Chunks.{chunk_count};
ghost use Rattle.fl_patches.specs.PatchMaps.{ArePatches, places_from};
ghost use Rattle.fl_patches.specs.Exceptions.{bit_count, exception, exceptions_of, one_width, width_of_block};
ghost use Rattle.fl_patches.specs.PatchParts.{AreChunked, AreGathered, HasBlocks, blocked_patches, exception_at, exception_patches, global_patches, patches_with};
ghost use Rattle.fl_patches.specs.Widths.{NamesAll, width_at};

use crate::Patches;
use crate::patterns::bit_count;
use crate::widths::Widths;
use fastlanes::FastLanes;
use fl_column::{PhysicalPType, PrimitiveArray, chunk_bounds, chunk_count, index_array};
use fl_types::{FastLanesError, NativePType, Validity, match_each_integer_ptype};
use std::alloc::{AllocError, Global};

/// How many items are marked in a word.
const GROUP: usize = 64;

/// Exceptions that are found one by one.
#[derive(Drop)]
pub struct Exceptions<T> {
    /// Their places, rising.
    pub places: Vec<u64>,
    /// Beside each place the value of its item.
    pub values: Vec<T>,
}

impl<T: NativePType> Exceptions<T> {
    /// None yet, with room for this many.
    fn with_capacity(alloc: Global, count: usize) -> Result<Exceptions<T>, AllocError>
        ensures { IfOk result (λ f. AreGathered f.places.items (map T.value f.values.items) []) }
    {
        Ok(Exceptions {
            places: Vec::with_capacity(alloc, count)?,
            values: Vec::with_capacity(alloc, count)?,
        })
    }

    /// Adds the value of an exception at a place.
    fn push(&mut self, place: usize, value: T) -> Result<(), AllocError>
        ensures { OnOk result ((before : List (Option ℤ)) → length before ≡ place → AreGathered self.old.places.items (map T.value self.old.values.items) before → AreGathered self.new.places.items (map T.value self.new.values.items) (before ++ Some (T.value value) ∷ [])) }
    {
        self.places.push(place as u64)?;
        self.values.push(value)?;
        Ok(())
    }
}

impl<T: PhysicalPType> Exceptions<T> {
    /// Appends the items at the set bits of a word, of which bit `j` is that of item `start + j`.
    fn push_marked(&mut self, items: &[T], marks: u64, start: usize) -> Result<(), AllocError>
        requires { (j : ℕ) → bit_of_word marks j ≡ true → start + j < length items.now }
        ensures { OnOk result ((before part : List (Option ℤ)) → length before ≡ start → length part ≤ 64 → ((j : ℕ) → bit_of_word marks j ≡ true → j < length part) → ((j : ℕ) → j < length part → slice_index_or part j None ≡ (if bit_of_word marks j then Some (slice_index_or (map T.value items.now) (start + j) (pos 0)) else None)) → AreGathered self.old.places.items (map T.value self.old.values.items) before → AreGathered self.new.places.items (map T.value self.new.values.items) (before ++ part)) }
    {
        let mut rest = marks;
        while rest != 0 {
            let place = start + rest.trailing_zeros() as usize;
            self.push(place, items[place])?;
            rest &= rest - 1;
        }
        Ok(())
    }

    /// Adds the exceptions at a width among the items of a word, those from `start` to below `end`.
    fn push_group(
        &mut self,
        items: &[T],
        validity: &Validity,
        width: usize,
        start: usize,
        end: usize,
    ) -> Result<(), AllocError>
        requires covers { IsTrue (covers validity.now (length items.now)) }
        requires aligned { start % 64 ≡ 0 }
        requires order { start < end }
        requires few { end ≤ start + 64 }
        requires range { end ≤ length items.now }
        ensures { OnOk result ((before : List (Option ℤ)) → length before ≡ start → AreGathered self.old.places.items (map T.value self.old.values.items) before → AreGathered self.new.places.items (map T.value self.new.values.items) (before ++ map (exception T.PTYPE width) (between start end (items_of validity.now (map T.value items.now))))) }
    {
        let marks = marks_of(&items[start..end], width);
        match validity {
            Validity::NonNullable | Validity::AllValid => self.push_marked(items, marks, start),
            Validity::AllInvalid => Ok(()),
            Validity::Array(bits) => {
                self.push_marked(items, both(marks, bits.word(start / GROUP)), start)
            }
        }
    }

    /// Adds the exceptions at a width among the items from `start` to below `end`. One test tells whether there may be
    /// any.
    fn push_part(
        &mut self,
        items: &[T],
        validity: &Validity,
        width: usize,
        start: usize,
        end: usize,
    ) -> Result<(), AllocError>
        requires covers { IsTrue (covers validity.now (length items.now)) }
        requires aligned { start % 64 ≡ 0 }
        requires order { start ≤ end }
        requires range { end ≤ length items.now }
        ensures { OnOk result ((before : List (Option ℤ)) → length before ≡ start → AreGathered self.old.places.items (map T.value self.old.values.items) before → AreGathered self.new.places.items (map T.value self.new.values.items) (before ++ map (exception T.PTYPE width) (between start end (items_of validity.now (map T.value items.now))))) }
    {
        if bit_count(greatest_of(&items[start..end])) <= width {
            return Ok(());
        }
        for k in 0..(end - start).div_ceil(GROUP) {
            let from = start + GROUP * k;
            let to = from + (end - from).min(GROUP);
            self.push_group(items, validity, width, from, to)?;
        }
        Ok(())
    }
}

/// The exceptions of the first blocks of a column.
#[derive(Drop)]
pub struct BlockExceptions<T> {
    /// The exceptions of all these blocks.
    pub found: Exceptions<T>,
    /// For each block how many exceptions stand before it.
    pub offsets: Vec<u64>,
}

impl<T: PhysicalPType> BlockExceptions<T> {
    /// Those of no block, with room for so many exceptions of so many blocks.
    pub fn with_capacity(
        alloc: Global,
        count: usize,
        blocks: usize,
    ) -> Result<BlockExceptions<T>, AllocError>
        ensures { IfOk result (λ f. (items : List (Option ℤ)) → HasBlocks f.found.places.items (map T.value f.found.values.items) f.offsets.items items 0) }
    {
        Ok(BlockExceptions {
            found: Exceptions::with_capacity(alloc, count)?,
            offsets: Vec::with_capacity(alloc, blocks)?,
        })
    }

    /// Adds those at a width among the items of the next block.
    pub fn push_block(
        &mut self,
        items: &[T],
        validity: &Validity,
        width: usize,
        block: usize,
    ) -> Result<(), AllocError>
        requires covers { IsTrue (covers validity.now (length items.now)) }
        requires begun { 1024 * block < length items.now }
        ensures { OnOk result ((width_at : ℕ → ℕ) → ((i : ℕ) → 1024 * block ≤ i → i < 1024 * (block + 1) → width_at i ≡ width) → HasBlocks self.old.found.places.items (map T.value self.old.found.values.items) self.old.offsets.items (exceptions_of T.PTYPE width_at (items_of validity.now (map T.value items.now))) block → HasBlocks self.new.found.places.items (map T.value self.new.found.values.items) self.new.offsets.items (exceptions_of T.PTYPE width_at (items_of validity.now (map T.value items.now))) (block + 1)) }
    {
        self.offsets.push(self.found.places.len() as u64)?;
        let (start, end) = chunk_bounds(block, items.len());
        self.found.push_part(items, validity, width, start, end)
    }

    /// The patches of these exceptions, which are those of all blocks of an array, or `None` where there is none. The
    /// indices are of the smallest type that holds a number, which is at least the array's length.
    pub fn into_patches(
        self,
        alloc: Global,
        array: &PrimitiveArray,
        holds: usize,
    ) -> Result<Option<Patches>, FastLanesError>
        requires same { array.now.ptype ≡ T.PTYPE }
        requires chunked { AreChunked self.found.places.items (map T.value self.found.values.items) self.offsets.items (length array.now.slots) }
        requires holds { length array.now.slots ≤ holds }
        ensures parts { (width : ℕ → ℕ) → HasBlocks self.found.places.items (map T.value self.found.values.items) self.offsets.items (exceptions_of T.PTYPE width (items_of array.now.validity array.now.slots)) (chunk_count (length array.now.slots)) → Answers (λ o. o) result (Ok (exception_patches (smallest_type holds) width array.now)) }
        ensures map { (width : ℕ → ℕ) → HasBlocks self.found.places.items (map T.value self.found.values.items) self.offsets.items (exceptions_of T.PTYPE width (items_of array.now.validity array.now.slots)) (chunk_count (length array.now.slots)) → IfOk result (λ o. ArePatches o (length array.now.slots) (exception_at width array.now)) }
    {
        let _validity = array.validity();
        patches_of(alloc, array, self, holds)
    }
}

/// The greater of two patterns.
fn greater<W: FastLanes>(x: W, y: W) -> W
    ensures first { W.pattern x ≤ W.pattern result }
    ensures second { W.pattern y ≤ W.pattern result }
{
    if x.at_most(y) { y } else { x }
}

/// The largest pattern of the items, 0 of none.
fn greatest_of<T: PhysicalPType>(items: &[T]) -> u64
    ensures { (i : ℕ) → i < length items.now → pattern_of T.PTYPE (slice_index_or (map T.value items.now) i (pos 0)) ≤ result }
{
    let mut greatest = T::Physical::zero();
    for item in items {
        greatest = greater(greatest, item.to_physical());
    }
    greatest.to_u64()
}

/// The largest pattern that has no more bits than a width.
fn most_of(width: usize) -> u64
    ensures { (p : ℕ) → p < 2 ^ 64 → nat_lt result p ≡ nat_lt width (bit_count p) }
{
    if width < 64 {
        (1 << width) - 1
    } else {
        u64::MAX
    }
}

/// The word with bit `at`, which is not set, as `on` says.
#[tactic(auto, using(fl_types::proofs::BitLists::set_bits))]
fn with_bit(word: u64, at: usize, on: bool) -> u64
    requires within { at < 64 }
    requires clear { bit_of_word word at ≡ false }
    ensures bit { bit_of_word result at ≡ on }
    ensures others { (j : ℕ) → j ≢ at → bit_of_word result j ≡ bit_of_word word j }
{
    if on { word | 1 << at } else { word }
}

/// The bits that two words have.
fn both(x: u64, y: u64) -> u64
    ensures { (j : ℕ) → bit_of_word result j ≡ (bit_of_word x j && bit_of_word y j) }
{
    x & y
}

/// Marks the items that have more bits than a width: bit `j` is that of item `j`.
fn marks_of<T: PhysicalPType>(items: &[T], width: usize) -> u64
    requires { length items.now ≤ 64 }
    ensures marks { (j : ℕ) → j < length items.now → bit_of_word result j ≡ nat_lt width (bit_count (pattern_of T.PTYPE (slice_index_or (map T.value items.now) j (pos 0)))) }
    ensures inside { (j : ℕ) → length items.now ≤ j → bit_of_word result j ≡ false }
{
    let most = most_of(width);
    let mut marks = 0;
    for j in 0..items.len() {
        marks = with_bit(marks, j, items[j].pattern() > most);
    }
    marks
}

/// The exceptions at the widths of the blocks.
fn find<T: PhysicalPType>(
    alloc: Global,
    items: &[T],
    validity: &Validity,
    widths: Widths,
    hint: usize,
) -> Result<BlockExceptions<T>, AllocError>
    requires covers { IsTrue (covers validity.now (length items.now)) }
    requires names { NamesAll widths (chunk_count (length items.now)) }
    ensures { IfOk result (λ f. HasBlocks f.found.places.items (map T.value f.found.values.items) f.offsets.items (exceptions_of T.PTYPE (width_at widths.entry) (items_of validity.now (map T.value items.now))) (chunk_count (length items.now))) }
{
    let blocks = chunk_count(items.len());
    let mut found = BlockExceptions::with_capacity(alloc, hint.min(items.len()), blocks)?;
    for block in 0..blocks {
        found.push_block(items, validity, widths.of_block(block), block)?;
    }
    Ok(found)
}

/// The patches of an array's exceptions, or `None` where there is none. The indices are of the smallest type that holds
/// a number.
fn patches_of<T: PhysicalPType>(
    alloc: Global,
    array: &PrimitiveArray,
    exceptions: BlockExceptions<T>,
    holds: usize,
) -> Result<Option<Patches>, FastLanesError>
    requires same { array.now.ptype ≡ T.PTYPE }
    requires chunked { AreChunked exceptions.found.places.items (map T.value exceptions.found.values.items) exceptions.offsets.items (length array.now.slots) }
    requires holds { length array.now.slots ≤ holds }
    ensures { Answers (λ o. o) result (Ok (patches_with (smallest_type holds) (length array.now.slots) array.now.ptype (nullability_of array.now.validity) exceptions.found.places.items (map T.value exceptions.found.values.items))) }
{
    let BlockExceptions { found, offsets } = exceptions;
    let Exceptions { places, values } = found;
    if places.len() == 0 {
        return Ok(None);
    }
    let indices = index_array(alloc, places, holds)?;
    let values = PrimitiveArray::without_nulls(values, array.nullability());
    let offsets = Some(PrimitiveArray::non_nullable(offsets));
    let patches = Patches::new_unchecked(array.len(), 0, indices, values, offsets);
    Ok(Some(patches))
}

/// The patches at the widths of the blocks. The indices are of the smallest type that holds a number.
fn gather_typed<T: PhysicalPType>(
    alloc: Global,
    array: &PrimitiveArray,
    widths: Widths,
    holds: usize,
    hint: usize,
) -> Result<Option<Patches>, FastLanesError>
    requires same { array.now.ptype ≡ T.PTYPE }
    requires names { NamesAll widths (chunk_count (length array.now.slots)) }
    requires holds { length array.now.slots ≤ holds }
    ensures parts { Answers (λ o. o) result (Ok (exception_patches (smallest_type holds) (width_at widths.entry) array.now)) }
    ensures map { IfOk result (λ o. ArePatches o (length array.now.slots) (exception_at (width_at widths.entry) array.now)) }
{
    let items = array.as_slice::<T>();
    let found = find(alloc, items, array.validity(), widths, hint)?;
    found.into_patches(alloc, array, holds)
}

/// The same at the type of the array's items.
fn gather(
    alloc: Global,
    array: &PrimitiveArray,
    widths: Widths,
    holds: usize,
    hint: usize,
) -> Result<Option<Patches>, FastLanesError>
    requires names { NamesAll widths (chunk_count (length array.now.slots)) }
    requires holds { length array.now.slots ≤ holds }
    ensures parts { Answers (λ o. o) result (Ok (exception_patches (smallest_type holds) (width_at widths.entry) array.now)) }
    ensures map { IfOk result (λ o. ArePatches o (length array.now.slots) (exception_at (width_at widths.entry) array.now)) }
{
    match_each_integer_ptype!(
        array.ptype(),
        gather_typed(alloc, array, widths, holds, hint)
    )
}

/// The patches of an array's items that are valid and have more bits than a width, or `None` if
/// there is none. The indices are `U8` for a length below 255, `U16` below 65535, `U32` below
/// 4294967295, else `U64`. The values are nullable if the array is, and none is null. Each chunk of
/// 1024 items has a chunk offset, as `U64`. `hint` is about how many patches there are, and does not
/// change the result.
pub fn gather_patches(
    alloc: Global,
    array: &PrimitiveArray,
    width: u8,
    hint: usize,
) -> Result<Option<Patches>, FastLanesError>
    ensures parts { Answers (λ o. o) result (Ok (global_patches width array.now)) }
    ensures map { IfOk result (λ o. ArePatches o (length array.now.slots) (exception_at (one_width width) array.now)) }
{
    let holds = array.len().saturating_add(1);
    gather(alloc, array, Widths::Global(width as usize), holds, hint)
}

/// The same at a width for each block of 1024 items, a short last one included. The indices have the
/// smallest unsigned type that holds the length.
pub fn gather_blocked_patches(
    alloc: Global,
    array: &PrimitiveArray,
    widths: &[u8],
    hint: usize,
) -> Result<Option<Patches>, FastLanesError>
    requires { length widths.now ≡ chunk_count (length array.now.slots) }
    ensures parts { Answers (λ o. o) result (Ok (blocked_patches widths.now array.now)) }
    ensures map { IfOk result (λ o. ArePatches o (length array.now.slots) (exception_at (width_of_block widths.now) array.now)) }
{
    gather(alloc, array, Widths::PerBlock(widths), array.len(), hint)
}
