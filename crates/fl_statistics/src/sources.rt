//! Sources of blocks: items that are made 1024 at a time, of which only one block is kept.

ghost use Rattle.std.specs.Prelude.{◌≡◌, ◌+◌, ◌-◌, ◌*◌, ◌<◌, ◌≤◌, ◌^◌, ℕ, ℤ, IsTrue, false, length, map, min, not, pos, slice_index_or, take, true, if◌then◌else◌};
ghost use Rattle.fl_types.specs.Integers.{read_as};
ghost use Rattle.fl_types.specs.Validities.{covers, is_valid_at};
ghost use Rattle.fl_column.specs.Columns.{PrimitiveParts};
ghost use Rattle.fl_codec.specs.Chunks.{chunk};
ghost use Rattle.fl_codec.specs.Parts.{items_of_primitive};
ghost use Rattle.fl_statistics.specs.Differences.{difference, less_references, read_words, slot_of};

use fastlanes::{FL_CHUNK_SIZE, FastLanes};
use fl_column::{PhysicalPType, chunk_bounds};
use fl_types::NativePType;
use num_traits::WrappingSub;

/// What is subtracted from the items of each block: the reference that the list has for it, or `one`.
#[derive(Clone, Copy)]
pub(crate) struct References<'a, T> {
    pub(crate) one: T,
    pub(crate) list: &'a [T],
}

/// Items that are made block by block. A block may need what the one before it returned; the first needs 0.
pub(crate) trait BlockSource<T: PhysicalPType> {
    /// Whether the items are of the type.
    ghost typed: { Self → Type 0 };

    /// The items.
    ghost parts: { Self → PrimitiveParts };

    /// What a block needs.
    ghost carried: { Self → ℕ → ℤ };

    /// How many items there are.
    fn len(&self) -> usize
        requires typed { Self.typed self.now }
        ensures count { result ≡ length (Self.parts self.now).slots }
        ensures few { length (Self.parts self.now).slots ≤ 2 ^ 63 }
        ensures covered { IsTrue (covers (Self.parts self.now).validity (length (Self.parts self.now).slots)) };

    /// Writes the words of a block's items, whatever they are under nulls, and returns what the next block needs.
    fn write_block(&self, block: usize, last: T, room: &mut [T::Physical; FL_CHUNK_SIZE]) -> T
        requires typed { Self.typed self.now }
        requires begun { 1024 * block < length (Self.parts self.now).slots }
        requires last { T.value last ≡ Self.carried self.now block }
        ensures last { T.value result ≡ Self.carried self.now (block + 1) }
        ensures slots { (q : ℕ) → q < 1024 → 1024 * block + q < length (Self.parts self.now).slots → slice_index_or (read_words T.Physical.pattern T.PTYPE room.new) q (pos 0) ≡ slice_index_or (Self.parts self.now).slots (1024 * block + q) (pos 0) };

    /// Whether an item is null.
    fn is_null(&self, i: usize) -> bool
        requires typed { Self.typed self.now }
        requires range { i < length (Self.parts self.now).slots }
        ensures { result ≡ not (is_valid_at (Self.parts self.now).validity i) };

    /// Whether an item may be null.
    fn has_nulls(&self) -> bool
        ensures { (i : ℕ) → result ≡ false → is_valid_at (Self.parts self.now).validity i ≡ true };

    // The first block needs 0.
    ghost carried_law: { (source : Self) → Self.carried source 0 ≡ pos 0 };
}

/// The reference of a block, `one` where the list has none for it.
fn reference_of<T: NativePType>(one: T, references: &[T], block: usize) -> T
    ensures { T.value result ≡ slice_index_or (map T.value references.now) block (T.value one) }
{
    if block < references.len() {
        references[block]
    } else {
        one
    }
}

/// An integer minus a reference, modulo 2 to the type's bits.
fn minus<T: NativePType + WrappingSub>(item: T, reference: T) -> T
    ensures { T.value result ≡ difference T.PTYPE (T.value reference) (T.value item) }
{
    item.wrapping_sub(&reference)
}

/// The word of an item minus a reference, by the item's word.
fn word_of_difference<T: PhysicalPType + WrappingSub>(
    word: T::Physical,
    reference: T,
) -> T::Physical
    ensures { read_as T.PTYPE (T.Physical.pattern result) ≡ difference T.PTYPE (T.value reference) (read_as T.PTYPE (T.Physical.pattern word)) }
{
    minus(T::from_physical(word), reference).to_physical()
}

/// The word of an item, 0 of a null.
fn word_unless_null<T: PhysicalPType>(word: T::Physical, is_null: bool) -> T::Physical
    ensures { read_as T.PTYPE (T.Physical.pattern result) ≡ (if is_null then pos 0 else read_as T.PTYPE (T.Physical.pattern word)) }
{
    if is_null { T::Physical::zero() } else { word }
}

/// Subtracts a reference from each word.
fn subtract<T: PhysicalPType + WrappingSub>(words: &mut [T::Physical; FL_CHUNK_SIZE], reference: T)
    ensures { (q : ℕ) → q < 1024 → slice_index_or (read_words T.Physical.pattern T.PTYPE words.new) q (pos 0) ≡ difference T.PTYPE (T.value reference) (slice_index_or (read_words T.Physical.pattern T.PTYPE words.old) q (pos 0)) }
{
    for q in 0..FL_CHUNK_SIZE {
        words[q] = word_of_difference(words[q], reference);
    }
}

/// Makes the words of nulls 0.
fn clear_nulls<T: PhysicalPType, S: BlockSource<T>>(
    source: &S,
    block: usize,
    count: usize,
    words: &mut [T::Physical; FL_CHUNK_SIZE],
)
    requires typed { S.typed source.now }
    requires few { count ≤ 1024 }
    requires range { 1024 * block + count ≤ length (S.parts source.now).slots }
    requires fit { length (S.parts source.now).slots ≤ 2 ^ 63 }
    ensures whole { length words.new ≡ 1024 }
    ensures slots { (q : ℕ) → q < count → slice_index_or (read_words T.Physical.pattern T.PTYPE words.new) q (pos 0) ≡ (if is_valid_at (S.parts source.now).validity (1024 * block + q) then slice_index_or (read_words T.Physical.pattern T.PTYPE words.old) q (pos 0) else pos 0) }
{
    if !source.has_nulls() {
        return;
    }
    for q in 0..count {
        let is_null = source.is_null(FL_CHUNK_SIZE * block + q);
        words[q] = word_unless_null::<T>(words[q], is_null);
    }
}

/// Writes the words of a block's items minus the block's reference, 0 in the place of a null, and returns how many they are and
/// what the next block needs.
pub(crate) fn write_differences<T: PhysicalPType + WrappingSub, S: BlockSource<T>>(
    source: &S,
    references: &References<T>,
    block: usize,
    last: T,
    room: &mut [T::Physical; FL_CHUNK_SIZE],
) -> (usize, T)
    requires typed { S.typed source.now }
    requires begun { 1024 * block < length (S.parts source.now).slots }
    requires last { T.value last ≡ S.carried source.now block }
    ensures last { T.value result.1 ≡ S.carried source.now (block + 1) }
    ensures few { result.0 ≤ 1024 }
    ensures slots { read_words T.Physical.pattern T.PTYPE (take result.0 room.new) ≡ map slot_of (chunk block (less_references T.PTYPE (T.value references.now.one) (map T.value references.now.list.now) (items_of_primitive (S.parts source.now)))) }
{
    let (start, end) = chunk_bounds(block, source.len());
    let next = source.write_block(block, last, room);
    subtract(room, reference_of(references.one, references.list, block));
    clear_nulls(source, block, end - start, room);
    (end - start, next)
}
