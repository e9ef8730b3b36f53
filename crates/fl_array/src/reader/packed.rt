//! Items of bit-packed arrays, with references that are added while their blocks are unpacked.

ghost use Rattle.std.specs.Prelude.{◌≡◌, ◌+◌, ◌<◌, ◌≤◌, ◌^◌, ℕ, IsTrue, List, length};
ghost use Rattle.fl_types.specs.declared.dtype.PType.{PType};
ghost use Rattle.fl_types.specs.Types.{has_ptype};
ghost use Rattle.fl_column.specs.Chunks.{chunk_count};
ghost use Rattle.fl_column.specs.Columns.{Column, ptype_of_column};
ghost use Rattle.fl_bitpacking.specs.Blocks.{value_at};
ghost use Rattle.fl_bitpacking.specs.RangeTests.{IsTestOf, passes};
ghost use Rattle.fl_bitpacking.specs.References.{AreReferencesOf, plus_references};
ghost use Rattle.fl_array.specs.BlockAnswers.{AreBlockAnswers};
ghost use Rattle.fl_array.specs.PackedSums.{AreHeldReferences, ArePackedSums, column_of_sums, plus_held};
ghost use Rattle.fl_array.specs.Readers.{AreItemsFrom};

use crate::array::primitive_cow::PrimitiveCow;
use crate::bitpacking::BitPackedArray;
use crate::bitpacking::block_widths::BlockWidths;
use fastlanes::Work;
use fl_bitpacking::RangeTest;
use fl_bitpacking::laws::parts_are_consistent;
use fl_bitpacking::references::References;
use fl_bitpacking::unpack_iter::BitPacked;
use fl_column::{NativePType, PValue, PhysicalPType};
use num_traits::WrappingAdd;

/// References that are added to packed items, if there are any.
#[derive(Drop)]
pub(crate) enum HeldReferences<'a> {
    /// Nothing is added.
    None,
    /// One reference for all items.
    Global(PValue),
    /// A reference for each block.
    PerBlock(PrimitiveCow<'a>),
}

impl HeldReferences<'_> {
    /// The references as they are added to the items of blocks.
    fn view(&self) -> References<'_>
        ensures sums { (offset : ℕ) (c : Column) → plus_references result offset c ≡ plus_held self.now offset c }
        ensures sound { (ptype : PType) (count : ℕ) → AreHeldReferences ptype count self.now → AreReferencesOf ptype count result }
    {
        match self {
            HeldReferences::None => References::None,
            HeldReferences::Global(reference) => References::Global(*reference),
            HeldReferences::PerBlock(references) => References::PerBlock(references.array()),
        }
    }

    /// The test that an item of block `j` passes where its sum with its reference passes one.
    fn test_of_block<T: NativePType>(&self, j: usize, range: RangeTest) -> RangeTest
        requires references { AreHeldReferences T.PTYPE (j + 1) self.now }
        requires test { IsTestOf T.PTYPE range }
        ensures typed { IsTestOf T.PTYPE result }
        ensures sums { (bits : List ℕ) (offset : ℕ) (c : Column) → ptype_of_column c ≡ T.PTYPE → AreBlockAnswers (passes result) bits j offset c → AreBlockAnswers (passes range) bits j offset (plus_held self.now offset c) }
    {
        match self {
            HeldReferences::None => range,
            HeldReferences::Global(reference) => range.of_sums(*reference),
            HeldReferences::PerBlock(references) => {
                let references = references.array().as_slice::<T>();
                range.of_sums(references[j].into_pvalue())
            }
        }
    }
}

/// A bit-packed array with the widths of its blocks, and the references that are added to its items.
#[derive(Drop)]
pub(crate) struct PackedSums<'a> {
    pub(crate) array: &'a BitPackedArray,
    pub(crate) widths: BlockWidths<'a>,
    pub(crate) added: HeldReferences<'a>,
}

/// The number of items.
#[tactic(auto, using(crate::proofs::ReadPacked::sums_len))]
pub(crate) fn len_of_sums(packed: &PackedSums) -> usize
    ensures { result ≡ length (column_of_sums packed.now).items }
{
    packed.array.len()
}

/// The position of the first item in its block.
pub(crate) fn offset_of_sums(packed: &PackedSums) -> usize
    ensures offset { result ≡ packed.now.array.now.parts.offset }
    ensures low { result < 1024 }
    ensures few { result + length (column_of_sums packed.now).items < 2 ^ 64 }
{
    let _len = len_of_sums(packed);
    let data = packed.array.packed_data();
    parts_are_consistent(data);
    data.offset()
}

/// Writes the items from an index on. Each block is unpacked once, and its reference added in the same pass.
pub(crate) fn read_packed<T: BitPacked + WrappingAdd>(
    packed: &PackedSums,
    start: usize,
    items: &mut [T],
    work: &mut Work,
)
    requires typed { IsTrue (has_ptype T.PTYPE (column_of_sums packed.now).dtype) }
    requires sound { ArePackedSums packed.now }
    requires range { start + length items.old ≤ length (column_of_sums packed.now).items }
    ensures { AreItemsFrom start (length items.old) (value_at T.value items.new) (column_of_sums packed.now) }
{
    let _len = len_of_sums(packed);
    let widths = packed.widths.view();
    let added = packed.added.view();
    let data = packed.array.packed_data();
    data.read_into(widths, added, start, items, work);
}

/// The answers of a test for the items of block `j`, whose packed items are not put in the order of the items. They are not
/// unpacked where the block's width decides the test.
pub(crate) fn test_packed<T: PhysicalPType>(
    packed: &PackedSums,
    j: usize,
    range: RangeTest,
    bits: &mut [u64; 16],
    work: &mut Work,
)
    requires typed { IsTrue (has_ptype T.PTYPE (column_of_sums packed.now).dtype) }
    requires sound { ArePackedSums packed.now }
    requires test { IsTestOf T.PTYPE range }
    requires block { j < chunk_count (packed.now.array.now.parts.offset + length (column_of_sums packed.now).items) }
    ensures answers { AreBlockAnswers (passes range) bits.new j packed.now.array.now.parts.offset (column_of_sums packed.now) }
    ensures whole { length bits.new ≡ 16 }
{
    let _len = len_of_sums(packed);
    let widths = packed.widths.view();
    let stored = packed.added.test_of_block::<T>(j, range);
    let data = packed.array.packed_data();
    data.test_block::<T>(widths, j, stored, bits, work);
}
