//! Tests of a range on packed blocks: a block is compared in the order of its lanes, and not unpacked where its width decides.

mod block_tests;
pub mod blocks;
mod packed_data;
pub mod primitive;
mod single_block;
pub mod values;

ghost use Rattle.std.specs.Prelude.{◌≡◌, ◌==◌, ◌+◌, ◌*◌, ◌/◌, ◌<◌, ◌≤◌, ◌^◌, ℕ, IfOk, IfSome, OnOk, Ok, false, length, map, min, not, option_map, pos, slice_index_or, slice_set, unwrap_or, if◌then◌else◌};
ghost use Rattle.std.specs.Option.{option_copied};
ghost use Rattle.fastlanes.specs.Compared.{has_bit, is_bit_set};
ghost use Rattle.fastlanes.specs.Layout.{unpacked_item, word_at};
ghost use Rattle.fl_types.specs.Bits.{is_set};
ghost use Rattle.fl_types.specs.Integers.{bits_of_type};
ghost use Rattle.fl_types.specs.Refusals.{Answers};
ghost use Rattle.fl_column.specs.Chunks.{chunk_count};
ghost use Rattle.fl_column.specs.Columns.{column_of_bools};
ghost use Rattle.fl_column.specs.Queries.{tested};
ghost use Rattle.fl_patches.specs.PatchMaps.{patched, patched_in};
ghost use Rattle.fl_bitpacking.specs.Blocks.{block_item, blocks_of, item_of_blocks};
ghost use Rattle.fl_bitpacking.specs.Columns.{block_count, column_of_packed};
ghost use Rattle.fl_bitpacking.specs.Compared.{AreBlockTests, IsPackedTest, answer_at, passes_in};
ghost use Rattle.fl_bitpacking.specs.Decided.{is_decided, undecided_below, undecided_by_block};
ghost use Rattle.fl_bitpacking.specs.Parts.{AreReadable, Fit, blocks_in, parts_of};
ghost use Rattle.fl_bitpacking.specs.ReadWidths.{AreWidthsOf};
ghost use Rattle.fl_bitpacking.specs.Readings.{AreFewBlocks, bytes_at, more_blocks};
ghost use Rattle.fl_bitpacking.specs.Placed.{ArePlacedIn, value_placed};
ghost use Rattle.fl_bitpacking.specs.RangeTests.{IsTestOf, answer_of, in_range, passes};
ghost use Rattle.fl_bitpacking.specs.References.{AreReferencesOf, of_sums, plus_references};

use crate::bitpack_decompress::PackedColumn;
use crate::blocks::PackedBlocks;
use crate::compute::compare::block_tests::BlockTests;
use crate::compute::range_test::{PatternTest, RangeTest};
use crate::packed_data::BlockExtent;
use crate::packed_reader::PackedReader;
use crate::patching::{PlacedValues, all_patches, place_of};
use crate::references::References;
use fastlanes::{FL_CHUNK_SIZE, FastLanes, Work, transpose_bits};
use fl_column::{BoolArray, PhysicalPType};
use fl_patches::{Patches, Widths};
use fl_types::laws::integer_is_in_range;
use fl_types::{BitList, FastLanesError, NativePType, PType, match_each_integer_ptype};
use std::alloc::{AllocError, Global};

/// A test of packed items of a type.
#[derive(Clone, Copy)]
struct PackedTest {
    /// The test.
    range: RangeTest,
    /// The integer type.
    ptype: PType,
    /// The same test, of the items' patterns.
    patterns: PatternTest,
}

impl PackedTest {
    /// The test of packed items of a type.
    fn new(range: RangeTest, ptype: PType) -> PackedTest
        requires { IsTestOf ptype range }
        ensures range { result.range ≡ range }
        ensures typed { result.ptype ≡ ptype }
        ensures same { IsPackedTest result }
    {
        PackedTest {
            range,
            ptype,
            patterns: range.on_patterns(ptype),
        }
    }

    /// Whether a width decides the test: all items of a block of this width that are not patches have one answer. The type's own
    /// width decides nothing.
    fn is_decided(self, width: usize) -> bool
        requires test { IsPackedTest self }
        requires width { width ≤ bits_of_type self.ptype }
        ensures { result ≡ is_decided self.ptype width (passes self.range) }
    {
        if width >= self.ptype.bit_width() {
            return false;
        }
        let count: u64 = 1 << width;
        self.patterns.has_one_answer(count - 1)
    }

    /// Whether an item stored as 0 passes.
    fn is_passed_by_zero(self) -> bool
        requires { IsPackedTest self }
        ensures { result ≡ passes self.range (pos 0) }
    {
        self.patterns.is_passed_by(0)
    }

    /// Whether an item of the type passes.
    fn is_passed_by<T: PhysicalPType>(self, item: T) -> bool
        requires test { IsPackedTest self }
        requires typed { self.ptype ≡ T.PTYPE }
        ensures { result ≡ passes self.range (T.value item) }
    {
        integer_is_in_range(item);
        self.patterns.is_passed_by(item.pattern())
    }
}

/// Whether a word minus `low`, modulo 2 to its bits, is at most `span`.
#[inline(always)]
#[tactic(auto, unfolding(crate::specs::RangeTests::in_range))]
fn is_in_range<W: FastLanes>(word: W, low: W, span: W) -> bool
    ensures { result ≡ in_range W.T (W.pattern low) (W.pattern span) (W.pattern word) }
{
    word.wrapping_difference(low).at_most(span)
}

/// Sets bit `i` where the pattern of item `i` of a packed block minus `low`, modulo 2 to its bits, is at most `span`, and no
/// other bit.
fn compare_block<W: FastLanes>(
    reader: &mut PackedReader,
    extent: BlockExtent,
    low: W,
    span: W,
    bits: &mut [u64; 16],
)
    requires width { extent.width ≤ W.T }
    requires room { extent.start + 128 * extent.width ≤ length reader.old.bytes }
    ensures bits { (i : ℕ) → i < 1024 → has_bit bits.new i ≡ in_range W.T (W.pattern low) (W.pattern span) (unpacked_item W.T W.LANES extent.width (word_at W.T (bytes_at extent reader.old.bytes)) i) }
    ensures whole { length bits.new ≡ 16 }
    ensures counted { reader.new ≡ more_blocks 1 reader.old }
{
    let mut lanes = [0u64; 16];
    reader.compare_block(
        extent,
        &mut lanes,
        |item, low| is_in_range(item, low, span),
        low,
    );
    transpose_bits::<W>(&lanes, bits);
}

/// The word of which each bit is inverted.
fn flipped(word: u64) -> u64
    ensures { (j : ℕ) → j < 64 → is_bit_set result j ≡ not (is_bit_set word j) }
{
    !word
}

/// Inverts each bit.
fn negate(bits: &mut [u64; 16])
    ensures bits { (i : ℕ) → i < 1024 → has_bit bits.new i ≡ not (has_bit bits.old i) }
    ensures whole { length bits.new ≡ 16 }
{
    for k in 0..16usize {
        bits[k] = flipped(bits[k]);
    }
}

/// The word whose bits are all `on`.
fn uniform_word(on: bool) -> u64
    ensures { (j : ℕ) → j < 64 → is_bit_set result j ≡ on }
{
    if on { u64::MAX } else { 0 }
}

/// Sets all bits, or none.
pub fn fill(bits: &mut [u64; 16], on: bool)
    ensures bits { (i : ℕ) → i < 1024 → has_bit bits.new i ≡ on }
    ensures whole { length bits.new ≡ 16 }
{
    let word = uniform_word(on);
    for k in 0..16usize {
        bits[k] = word;
    }
}

/// Sets bit `i` where item `i` of a packed block passes the test, and no other bit.
fn compare_patterns<W: FastLanes>(
    reader: &mut PackedReader,
    extent: BlockExtent,
    test: PatternTest,
    bits: &mut [u64; 16],
)
    requires low { test.low < 2 ^ W.T }
    requires span { test.span < 2 ^ W.T }
    requires width { extent.width ≤ W.T }
    requires room { extent.start + 128 * extent.width ≤ length reader.old.bytes }
    ensures bits { (i : ℕ) → i < 1024 → has_bit bits.new i ≡ answer_of test.negated (in_range W.T test.low test.span (unpacked_item W.T W.LANES extent.width (word_at W.T (bytes_at extent reader.old.bytes)) i)) }
    ensures whole { length bits.new ≡ 16 }
    ensures counted { reader.new ≡ more_blocks 1 reader.old }
{
    let (low, span) = (W::from_u64(test.low), W::from_u64(test.span));
    compare_block(reader, extent, low, span, bits);
    if test.negated {
        negate(bits);
    }
}

/// Sets bit `i` where item `i` of a packed block passes the test, and no other bit. Nothing is unpacked where the block's width
/// decides the test.
fn test_block<W: FastLanes>(
    reader: &mut PackedReader,
    extent: BlockExtent,
    test: PackedTest,
    bits: &mut [u64; 16],
)
    requires test { IsPackedTest test }
    requires word { W.T ≡ bits_of_type test.ptype }
    requires width { extent.width ≤ bits_of_type test.ptype }
    requires room { extent.start + 128 * extent.width ≤ length reader.old.bytes }
    ensures bits { (i : ℕ) → i < 1024 → has_bit bits.new i ≡ passes test.range (block_item test.ptype extent.width (bytes_at extent reader.old.bytes) i) }
    ensures whole { length bits.new ≡ 16 }
    ensures counted { reader.new ≡ more_blocks (if is_decided test.ptype extent.width (passes test.range) then 0 else 1) reader.old }
{
    // For the proof: the count is a `u64`.
    let _blocks = reader.blocks();
    if test.is_decided(extent.width) {
        fill(bits, test.is_passed_by_zero());
    } else {
        compare_patterns::<W>(reader, extent, test.patterns, bits);
    }
}

impl PackedBlocks<'_> {
    /// Appends the answers of the tests for the items of block `j`, whose bytes start at `start`, and returns where those of the
    /// next block start.
    fn push_answers<W: FastLanes>(
        self,
        tests: BlockTests,
        j: usize,
        start: usize,
        words: &mut Vec<u64>,
        reader: &mut PackedReader,
    ) -> Result<usize, AllocError>
        requires tests { AreBlockTests (blocks_in self) tests }
        requires word { W.T ≡ bits_of_type tests.test.ptype }
        requires readable { AreReadable (bits_of_type tests.test.ptype) reader.old.bytes self }
        requires block { j < blocks_in self }
        requires start { start ≡ (blocks_of self.widths).start j }
        requires begun { length words.old.items ≡ 16 * j }
        ensures long { OnOk result (length words.new.items ≡ 16 * (j + 1)) }
        ensures before { OnOk result ((p : ℕ) → p < 1024 * j → is_set words.new.items p ≡ is_set words.old.items p) }
        ensures part { OnOk result ((p : ℕ) → 1024 * j ≤ p → p < 1024 * (j + 1) → is_set words.new.items p ≡ answer_at tests.entry (blocks_of self.entry.widths) reader.old.bytes p) }
        ensures next { IfOk result (λ next. next ≡ (blocks_of self.entry.widths).start (j + 1)) }
        ensures counted { reader.new ≡ more_blocks (if is_decided tests.entry.test.ptype ((blocks_of self.entry.widths).width j) (passes_in tests.entry j) then 0 else 1) reader.old }
    {
        // For the proof: the block ends below 2 ^ 64.
        let _size = reader.size();
        let width = self.widths.of_block(j);
        let extent = BlockExtent { start, width };
        let mut bits = [0u64; 16];
        let test = tests.of_block(j);
        test_block::<W>(reader, extent, test, &mut bits);
        words.extend_from_slice(&bits)?;
        Ok(start + FL_CHUNK_SIZE / 8 * width)
    }
}

/// The answers of the tests for all items of packed blocks, also of those that are cut off: bit `i` for the item at position `i`.
fn test_blocks<W: FastLanes>(
    alloc: Global,
    blocks: PackedBlocks,
    tests: BlockTests,
    reader: &mut PackedReader,
) -> Result<Vec<u64>, AllocError>
    requires tests { AreBlockTests (blocks_in blocks) tests }
    requires word { W.T ≡ bits_of_type tests.test.ptype }
    requires readable { AreReadable (bits_of_type tests.test.ptype) reader.old.bytes blocks }
    ensures long { IfOk result (λ v. length v.items ≡ 16 * blocks_in blocks.entry) }
    ensures bits { IfOk result (λ v. (p : ℕ) → p < 1024 * blocks_in blocks.entry → is_set v.items p ≡ answer_at tests.entry (blocks_of blocks.entry.widths) reader.old.bytes p) }
    ensures counted { OnOk result (reader.new ≡ more_blocks (undecided_below tests.entry.test.ptype (blocks_of blocks.entry.widths) (passes_in tests.entry) (blocks_in blocks.entry)) reader.old) }
    ensures most { AreFewBlocks (undecided_below tests.entry.test.ptype (blocks_of blocks.entry.widths) (passes_in tests.entry) (blocks_in blocks.entry)) reader.old reader.new }
{
    // For the proof: the count is a `u64`.
    let _blocks = reader.blocks();
    let mut words = Vec::with_capacity(alloc, 16 * blocks.count())?;
    let mut start = 0;
    for j in 0..blocks.count() {
        start = blocks.push_answers::<W>(tests, j, start, &mut words, reader)?;
    }
    Ok(words)
}

/// The same, by words of the type's bits.
fn test_words(
    alloc: Global,
    blocks: PackedBlocks,
    tests: BlockTests,
    reader: &mut PackedReader,
) -> Result<Vec<u64>, AllocError>
    requires tests { AreBlockTests (blocks_in blocks) tests }
    requires readable { AreReadable (bits_of_type tests.test.ptype) reader.old.bytes blocks }
    ensures long { IfOk result (λ v. length v.items ≡ 16 * blocks_in blocks.entry) }
    ensures bits { IfOk result (λ v. (p : ℕ) → p < 1024 * blocks_in blocks.entry → is_set v.items p ≡ answer_at tests.entry (blocks_of blocks.entry.widths) reader.old.bytes p) }
    ensures counted { OnOk result (reader.new ≡ more_blocks (undecided_below tests.entry.test.ptype (blocks_of blocks.entry.widths) (passes_in tests.entry) (blocks_in blocks.entry)) reader.old) }
    ensures most { AreFewBlocks (undecided_below tests.entry.test.ptype (blocks_of blocks.entry.widths) (passes_in tests.entry) (blocks_in blocks.entry)) reader.old reader.new }
{
    match tests.test.ptype {
        PType::U8 | PType::I8 => test_blocks::<u8>(alloc, blocks, tests, reader),
        PType::U16 | PType::I16 => test_blocks::<u16>(alloc, blocks, tests, reader),
        PType::U32 | PType::I32 => test_blocks::<u32>(alloc, blocks, tests, reader),
        PType::U64 | PType::I64 => test_blocks::<u64>(alloc, blocks, tests, reader),
    }
}

/// The answers of the tests for the items of packed blocks. Where there is no item, nothing is unpacked.
fn test_items(
    alloc: Global,
    blocks: PackedBlocks,
    tests: BlockTests,
    reader: &mut PackedReader,
) -> Result<BitList, AllocError>
    requires tests { AreBlockTests (blocks_in blocks) tests }
    requires readable { AreReadable (bits_of_type tests.test.ptype) reader.old.bytes blocks }
    ensures long { IfOk result (λ b. length b ≡ blocks.entry.len) }
    ensures bits { IfOk result (λ b. (i : ℕ) → i < blocks.entry.len → slice_index_or b i false ≡ answer_at tests.entry (blocks_of blocks.entry.widths) reader.old.bytes (blocks.entry.offset + i)) }
    ensures counted { OnOk result (reader.new ≡ more_blocks (if blocks.entry.len == 0 then 0 else undecided_below tests.entry.test.ptype (blocks_of blocks.entry.widths) (passes_in tests.entry) (blocks_in blocks.entry)) reader.old) }
    ensures most { AreFewBlocks (if blocks.entry.len == 0 then 0 else undecided_below tests.entry.test.ptype (blocks_of blocks.entry.widths) (passes_in tests.entry) (blocks_in blocks.entry)) reader.old reader.new }
{
    // For the proof: the count is a `u64`.
    let _blocks = reader.blocks();
    if blocks.len == 0 {
        return Ok(BitList::new(alloc));
    }
    let words = test_words(alloc, blocks, tests, reader)?;
    Ok(BitList::from_words(words, blocks.offset, blocks.len))
}

/// The answer of a test for a value.
fn passes_at<T: PhysicalPType>(test: PackedTest, values: &[T], k: usize) -> bool
    requires test { IsPackedTest test }
    requires typed { test.ptype ≡ T.PTYPE }
    requires inside { k < length values.now }
    ensures { result ≡ passes test.range (slice_index_or (map T.value values.now) k (pos 0)) }
{
    let value = values[k];
    test.is_passed_by(value)
}

/// Writes the answers for values in their places. Item 0 is at position `first` of the blocks.
fn write_answers<T: PhysicalPType, I: NativePType>(
    tests: BlockTests,
    placed: PlacedValues<T, I>,
    first: usize,
    bits: &mut BitList,
)
    requires tests { AreBlockTests (chunk_count (first + length bits.old)) tests }
    requires typed { tests.test.ptype ≡ T.PTYPE }
    requires few { first + length bits.old < 2 ^ 64 }
    requires placed { ArePlacedIn I.value (length bits.old) placed }
    ensures long { length bits.new ≡ length bits.old }
    ensures bits { (i : ℕ) → i < length bits.old → slice_index_or bits.new i false ≡ unwrap_or (option_map (passes_in tests.entry ((first + i) / 1024)) (value_placed I.value T.value placed.entry i)) (slice_index_or bits.old i false) }
{
    for k in 0..placed.indices.len() {
        let place = place_of(placed.indices, k, placed.offset);
        let test = tests.of_block((first + place) / FL_CHUNK_SIZE);
        let answer = passes_at(test, placed.values, k);
        bits.set(place, answer);
    }
}

fn write_typed<T: PhysicalPType, I: NativePType>(
    tests: BlockTests,
    patches: &Patches,
    first: usize,
    bits: &mut BitList,
)
    requires tests { AreBlockTests (chunk_count (first + length bits.old)) tests }
    requires typed { tests.test.ptype ≡ T.PTYPE }
    requires few { first + length bits.old < 2 ^ 64 }
    requires indices { patches.now.indices.ptype ≡ I.PTYPE }
    requires values { patches.now.values.ptype ≡ T.PTYPE }
    requires long { length bits.old ≡ patches.now.array_len }
    ensures long { length bits.new ≡ length bits.old }
    ensures bits { (i : ℕ) → i < length bits.old → slice_index_or bits.new i false ≡ unwrap_or (option_map (passes_in tests.entry ((first + i) / 1024)) (patched patches.now i)) (slice_index_or bits.old i false) }
{
    let placed = all_patches::<T, I>(patches);
    write_answers(tests, placed, first, bits);
}

fn test_patches_typed<T: PhysicalPType>(
    tests: BlockTests,
    patches: &Patches,
    first: usize,
    bits: &mut BitList,
)
    requires tests { AreBlockTests (chunk_count (first + length bits.old)) tests }
    requires typed { tests.test.ptype ≡ T.PTYPE }
    requires few { first + length bits.old < 2 ^ 64 }
    requires values { patches.now.values.ptype ≡ T.PTYPE }
    requires long { length bits.old ≡ patches.now.array_len }
    ensures long { length bits.new ≡ length bits.old }
    ensures bits { (i : ℕ) → i < length bits.old → slice_index_or bits.new i false ≡ unwrap_or (option_map (passes_in tests.entry ((first + i) / 1024)) (patched patches.now i)) (slice_index_or bits.old i false) }
{
    match_each_integer_ptype!(
        patches.indices().ptype(),
        write_typed::<T>(tests, patches, first, bits)
    )
}

/// Writes the answers for the patches' values at their indices. Item 0 is at position `first` of the blocks.
fn test_patches(tests: BlockTests, patches: &Patches, first: usize, bits: &mut BitList)
    requires tests { AreBlockTests (chunk_count (first + length bits.old)) tests }
    requires typed { patches.now.values.ptype ≡ tests.test.ptype }
    requires few { first + length bits.old < 2 ^ 64 }
    requires long { length bits.old ≡ patches.now.array_len }
    ensures long { length bits.new ≡ length bits.old }
    ensures bits { (i : ℕ) → i < length bits.old → slice_index_or bits.new i false ≡ unwrap_or (option_map (passes_in tests.entry ((first + i) / 1024)) (patched patches.now i)) (slice_index_or bits.old i false) }
{
    match_each_integer_ptype!(
        patches.values().ptype(),
        test_patches_typed(tests, patches, first, bits)
    )
}

/// These answers, with those for the patches at their indices, if there are patches. Item 0 is at position `first` of the blocks.
fn with_patches(
    tests: BlockTests,
    mut bits: BitList,
    patches: Option<&Patches>,
    first: usize,
) -> BitList
    requires tests { AreBlockTests (chunk_count (first + length bits)) tests }
    requires patches { IfSome (option_copied patches) (λ p. (p.array_len ≡ length bits) × (p.values.ptype ≡ tests.test.ptype)) }
    requires few { first + length bits < 2 ^ 64 }
    ensures long { length result ≡ length bits }
    ensures bits { (i : ℕ) → i < length bits → slice_index_or result i false ≡ unwrap_or (option_map (passes_in tests.entry ((first + i) / 1024)) (patched_in (option_copied patches.entry) i)) (slice_index_or bits i false) }
{
    if let Some(patches) = patches {
        test_patches(tests, patches, first, &mut bits);
    }
    bits
}

/// The answers of a test for the items of these parts, whose blocks have these widths, or for the sums of the items and the
/// references, if there are any; nulls stay null.
fn test_column(
    alloc: Global,
    column: &PackedColumn,
    widths: Widths,
    references: References,
    range: RangeTest,
    work: &mut Work,
) -> Result<BoolArray, FastLanesError>
    requires test { IsTestOf column.now.ptype range }
    requires references { AreReferencesOf column.now.ptype (block_count (parts_of column.now)) references }
    requires fit { Fit (parts_of column.now) }
    requires widths { AreWidthsOf (parts_of column.now) widths }
    ensures column { Answers column_of_bools result (Ok (tested (passes range) (plus_references references.entry column.now.offset (column_of_packed (parts_of column.now) (blocks_of widths.entry))))) }
    ensures blocks { OnOk result (work.new.blocks ≡ min (work.old.blocks + undecided_by_block (parts_of column.now) (blocks_of widths.entry) (of_sums column.now.ptype references.entry (passes range))) u64.MAX) }
    ensures most { work.new.blocks ≤ work.old.blocks + undecided_by_block (parts_of column.now) (blocks_of widths.entry) (of_sums column.now.ptype references.entry (passes range)) }
    ensures words { work.new.words ≡ work.old.words }
{
    let blocks = PackedBlocks {
        widths,
        offset: column.offset,
        len: column.len,
    };
    let test = PackedTest::new(range, column.ptype);
    let tests = BlockTests { test, references };
    let mut reader = PackedReader::over(column.packed, work);
    let stored = test_items(alloc, blocks, tests, &mut reader);
    *work = reader.finish();
    let bits = with_patches(tests, stored?, column.patches, column.offset);
    let validity = column.validity.try_clone(alloc)?;
    BoolArray::new(bits, validity)
}
