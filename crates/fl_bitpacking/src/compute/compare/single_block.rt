//! Tests of a range on one packed block with its patches, which is not unpacked in the order of the items.

ghost use Rattle.std.specs.Prelude.{◌≡◌, ◌+◌, ◌*◌, ◌/◌, ◌%◌, ◌<◌, ◌≤◌, ◌≢◌, ℕ, length, map, min, option_map, unwrap_or, if◌then◌else◌};
ghost use Rattle.fastlanes.specs.Compared.{has_bit, is_bit_set};
ghost use Rattle.fl_types.specs.Integers.{bits_of_type};
ghost use Rattle.fl_patches.specs.PatchMaps.{patched, patched_in};
ghost use Rattle.fl_bitpacking.specs.BlockAnswers.{AreBlockAnswers};
ghost use Rattle.fl_bitpacking.specs.Blocks.{blocks_of, item_of_blocks};
ghost use Rattle.fl_bitpacking.specs.Columns.{block_count, column_of_packed};
ghost use Rattle.fl_bitpacking.specs.Compared.{IsPackedTest};
ghost use Rattle.fl_bitpacking.specs.Decided.{is_decided};
ghost use Rattle.fl_bitpacking.specs.Parts.{AreReadable, Fit, blocks_to_read, parts_of};
ghost use Rattle.fl_bitpacking.specs.Placed.{ArePlacedIn, value_placed};
ghost use Rattle.fl_bitpacking.specs.RangeTests.{IsTestOf, passes};
ghost use Rattle.fl_bitpacking.specs.ReadWidths.{AreWidthsOf};
ghost use Rattle.fl_bitpacking.specs.Taken.{HasStarts};

use crate::bitpack_decompress::PackedColumn;
use crate::compute::compare::{PackedTest, passes_at, test_block};
use crate::compute::range_test::RangeTest;
use crate::compute::take::runs::block_start;
use crate::packed_data::{BlockExtent, PackedData};
use crate::packed_reader::PackedReader;
use crate::patching::ranges::{count_before, count_typed, patches_between};
use crate::patching::{PlacedValues, place_of};
use crate::places::places_from;
use fastlanes::{FL_CHUNK_SIZE, FastLanes, Work};
use fl_column::PhysicalPType;
use fl_patches::{Patches, Widths};
use fl_types::{NativePType, match_each_integer_ptype};

/// Items of one block.
#[derive(Clone, Copy)]
struct BlockPart {
    /// The index of the first one.
    from: usize,
    /// The position of the first one in the block.
    low: usize,
    /// How many there are.
    len: usize,
}

/// The word with bit `at` as `on` says.
fn with_bit(word: u64, at: usize, on: bool) -> u64
    requires { at < 64 }
    ensures here { is_bit_set result at ≡ on }
    ensures others { (j : ℕ) → j < 64 → j ≢ at → is_bit_set result j ≡ is_bit_set word j }
{
    let cleared = word & !(1 << at);
    if on { cleared | 1 << at } else { cleared }
}

/// Sets bit `i`, or clears it.
fn put_bit(bits: &mut [u64; 16], i: usize, on: bool)
    requires { i < 1024 }
    ensures here { has_bit bits.new i ≡ on }
    ensures others { (j : ℕ) → j ≢ i → has_bit bits.new j ≡ has_bit bits.old j }
    ensures whole { length bits.new ≡ 16 }
{
    let k = i / 64;
    bits[k] = with_bit(bits[k], i % 64, on);
}

/// Writes the answers for values in their places among the items of a part.
fn put_answers<T: PhysicalPType, I: NativePType>(
    test: PackedTest,
    placed: PlacedValues<T, I>,
    part: BlockPart,
    bits: &mut [u64; 16],
)
    requires test { IsPackedTest test }
    requires typed { test.ptype ≡ T.PTYPE }
    requires block { part.low + part.len ≤ 1024 }
    requires placed { ArePlacedIn I.value part.len placed }
    ensures bits { (i : ℕ) → i < part.len → has_bit bits.new (part.low + i) ≡ unwrap_or (option_map (passes test.range) (value_placed I.value T.value placed.entry i)) (has_bit bits.old (part.low + i)) }
    ensures whole { length bits.new ≡ 16 }
{
    for k in 0..placed.indices.len() {
        let place = place_of(placed.indices, k, placed.offset);
        let answer = passes_at(test, placed.values, k);
        put_bit(bits, part.low + place, answer);
    }
}

fn put_typed<T: PhysicalPType, I: NativePType>(
    test: PackedTest,
    patches: &Patches,
    part: BlockPart,
    bits: &mut [u64; 16],
)
    requires test { IsPackedTest test }
    requires typed { test.ptype ≡ T.PTYPE }
    requires indices { patches.now.indices.ptype ≡ I.PTYPE }
    requires values { patches.now.values.ptype ≡ T.PTYPE }
    requires block { part.low + part.len ≤ 1024 }
    requires within { part.from + part.len ≤ patches.now.array_len }
    ensures bits { (i : ℕ) → i < part.len → has_bit bits.new (part.low + i) ≡ unwrap_or (option_map (passes test.range) (patched patches.now (part.from + i))) (has_bit bits.old (part.low + i)) }
    ensures whole { length bits.new ≡ 16 }
{
    // For the proof: the items end below 2 ^ 64.
    let _len = patches.array_len();
    let before = count_before::<I>(patches, part.from);
    let after = count_typed::<I>(patches, part.from, before, part.from + part.len);
    let placed = patches_between::<T, I>(patches, part.from, before, after);
    put_answers(test, placed, part, bits);
}

/// Writes the answers for the patches of a part.
fn put_patches<T: PhysicalPType>(
    test: PackedTest,
    patches: &Patches,
    part: BlockPart,
    bits: &mut [u64; 16],
)
    requires test { IsPackedTest test }
    requires typed { test.ptype ≡ T.PTYPE }
    requires values { patches.now.values.ptype ≡ T.PTYPE }
    requires block { part.low + part.len ≤ 1024 }
    requires within { part.from + part.len ≤ patches.now.array_len }
    ensures bits { (i : ℕ) → i < part.len → has_bit bits.new (part.low + i) ≡ unwrap_or (option_map (passes test.range) (patched patches.now (part.from + i))) (has_bit bits.old (part.low + i)) }
    ensures whole { length bits.new ≡ 16 }
{
    match_each_integer_ptype!(
        patches.indices().ptype(),
        put_typed::<T>(test, patches, part, bits)
    )
}

/// Sets bit `q` where the integer at position `q` of block `j` passes a test, and no other bit.
fn test_stored<W: FastLanes>(
    column: &PackedColumn,
    widths: Widths,
    j: usize,
    test: PackedTest,
    bits: &mut [u64; 16],
    work: &mut Work,
)
    requires test { IsPackedTest test }
    requires word { W.T ≡ bits_of_type test.ptype }
    requires typed { test.ptype ≡ column.now.ptype }
    requires readable { AreReadable (bits_of_type test.ptype) column.now.packed.now (blocks_to_read column.now widths) }
    requires starts { HasStarts widths }
    requires block { j < block_count (parts_of column.now) }
    ensures bits { (q : ℕ) → q < 1024 → has_bit bits.new q ≡ passes test.range (item_of_blocks test.ptype (blocks_of widths.entry) column.now.packed.now (1024 * j + q)) }
    ensures whole { length bits.new ≡ 16 }
    ensures blocks { work.new.blocks ≡ min (work.old.blocks + (if is_decided test.ptype ((blocks_of widths.entry).width j) (passes test.range) then 0 else 1)) u64.MAX }
    ensures words { work.new.words ≡ work.old.words }
{
    // For the proof: the block ends below 2 ^ 64.
    let _size = column.packed.len();
    let extent = BlockExtent {
        start: block_start(widths, j),
        width: widths.of_block(j),
    };
    let mut reader = PackedReader::over(column.packed, work);
    test_block::<W>(&mut reader, extent, test, bits);
    *work = reader.finish();
}

/// Writes the answers for the patches of block `j` over those for what is stored.
fn put_patches_of_block<T: PhysicalPType>(
    column: &PackedColumn,
    j: usize,
    test: PackedTest,
    bits: &mut [u64; 16],
)
    requires test { IsPackedTest test }
    requires typed { test.ptype ≡ T.PTYPE }
    requires column_typed { column.now.ptype ≡ T.PTYPE }
    requires fit { Fit (parts_of column.now) }
    requires block { j < block_count (parts_of column.now) }
    ensures bits { (i : ℕ) → i < column.now.len → (column.now.offset + i) / 1024 ≡ j → has_bit bits.new ((column.now.offset + i) % 1024) ≡ unwrap_or (option_map (passes test.range) (patched_in (parts_of column.now).patches i)) (has_bit bits.old ((column.now.offset + i) % 1024)) }
    ensures whole { length bits.new ≡ 16 }
{
    let Some(patches) = column.patches else {
        return;
    };
    let (from, to) = places_from(column.offset, column.len, j);
    let part = BlockPart {
        from,
        low: column.offset.saturating_sub(FL_CHUNK_SIZE * j),
        len: to - from,
    };
    put_patches::<T>(test, patches, part, bits);
}

impl PackedData {
    /// Sets bit `q` where the item at position `q` of block `j` passes a test, and no bit of another item: at the position of a
    /// null, and where the block has no item of these, any bit may be set. The block is not unpacked where its own width decides
    /// the test, else in the order of its lanes.
    #[tactic(auto, using(crate::proofs::ReadWidths::readable, crate::proofs::ReadWidths::starts))]
    pub fn test_block<'a, T: PhysicalPType>(
        &'a self,
        widths: Widths<'a>,
        j: usize,
        range: RangeTest,
        bits: &mut [u64; 16],
        work: &mut Work,
    )
        requires typed { self.now.ptype ≡ T.PTYPE }
        requires test { IsTestOf T.PTYPE range }
        requires widths { AreWidthsOf self.now widths }
        requires block { j < block_count self.now }
        ensures answers { AreBlockAnswers (passes range) bits.new j self.now.offset (column_of_packed self.now (blocks_of widths.entry)) }
        ensures whole { length bits.new ≡ 16 }
        ensures blocks { work.new.blocks ≡ min (work.old.blocks + (if is_decided self.now.ptype ((blocks_of widths.entry).width j) (passes range) then 0 else 1)) u64.MAX }
        ensures words { work.new.words ≡ work.old.words }
    {
        let column = self.column();
        let test = PackedTest::new(range, T::PTYPE);
        test_stored::<T::Physical>(&column, widths, j, test, bits, work);
        put_patches_of_block::<T>(&column, j, test, bits);
    }
}
