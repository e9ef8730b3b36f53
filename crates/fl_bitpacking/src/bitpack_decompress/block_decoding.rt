//! How the items of a block are made of its stored integers: they are the items, or a reference is added to
//! each.

ghost use Rattle.std.specs.Prelude.{◌≡◌, ◌+◌, ◌*◌, ◌<◌, ◌≤◌, ◌+ℤ◌, ℕ, ℤ, length, map, option_map};
ghost use Rattle.fl_types.specs.Integers.{bits_of_type, wrap};
ghost use Rattle.fl_bitpacking.specs.Blocks.{block_item, value_at};
ghost use Rattle.fl_bitpacking.specs.BlockSums.{block_reference, plus_block_reference};
ghost use Rattle.fl_bitpacking.specs.Readings.{bytes_at, more_blocks};

use crate::bit_packed::BitPacked;
use crate::packed_data::BlockExtent;
use crate::packed_reader::PackedReader;
use crate::unpack_iter::UnpackStrategy;
use fastlanes::FL_CHUNK_SIZE;
use fl_types::NativePType;
use num_traits::WrappingAdd;

/// A way to make the items of a block of the integers that are stored in it.
pub(crate) trait BlockDecoder<T: NativePType> {
    /// The item of an integer of block `j`.
    ghost item: { Self → ℕ → ℤ → ℤ };

    /// Writes the items of block `j`, of which this is the extent.
    fn decode_block(
        &self,
        j: usize,
        extent: BlockExtent,
        items: &mut [T; FL_CHUNK_SIZE],
        reader: &mut PackedReader,
    )
        requires width { extent.width ≤ bits_of_type T.PTYPE }
        requires room { extent.start + 128 * extent.width ≤ length reader.old.bytes }
        ensures items { (i : ℕ) → i < 1024 → value_at T.value items.new i ≡ item self.now j (block_item T.PTYPE extent.width (bytes_at extent reader.old.bytes) i) }
        ensures whole { length items.new ≡ 1024 }
        ensures counted { reader.new ≡ more_blocks 1 reader.old };
}

/// The integers are the items.
#[derive(Drop)]
pub(crate) struct AsStored<'a, S> {
    /// How they are unpacked.
    pub(crate) strategy: &'a S,
}

impl<'a, T: NativePType, S: UnpackStrategy<T>> BlockDecoder<T> for AsStored<'a, S> {
    ghost item = { λ decoder j z. z };

    fn decode_block(
        &self,
        _j: usize,
        extent: BlockExtent,
        items: &mut [T; FL_CHUNK_SIZE],
        reader: &mut PackedReader,
    ) {
        reader.unpack_block_by(self.strategy, extent, items);
    }
}

/// The reference of block `j`: the last one where there are fewer, so that one alone is that of all blocks;
/// none where there are none.
fn reference_of<T: NativePType>(references: &[T], j: usize) -> Option<T>
    ensures { option_map T.value result ≡ block_reference (map T.value references.now) j }
{
    if references.len() == 0 {
        return None;
    }
    Some(references[j.min(references.len() - 1)])
}

/// The sum of two integers, modulo 2 to the type's bits.
fn plus<T: NativePType + WrappingAdd>(value: T, reference: T) -> T
    ensures { T.value result ≡ wrap T.PTYPE (T.value value +ℤ T.value reference) }
{
    value.wrapping_add(&reference)
}

/// An integer of block `j` plus its reference, modulo 2 to the type's bits; the integer where it has none.
#[tactic(auto, using(crate::proofs::BlockSums::sums))]
pub(crate) fn plus_reference<T: NativePType + WrappingAdd>(
    references: &[T],
    j: usize,
    value: T,
) -> T
    ensures { T.value result ≡ plus_block_reference T.PTYPE (map T.value references.now) j (T.value value) }
{
    match reference_of(references, j) {
        Some(reference) => plus(value, reference),
        None => value,
    }
}

/// To each integer the reference of its block is added, modulo 2 to the type's bits, if it has one.
#[derive(Clone, Copy)]
pub(crate) struct PlusReferences<'a, T> {
    /// The references of the blocks: one for each, or one for all, or none.
    pub(crate) references: &'a [T],
}

impl<'a, T: BitPacked> BlockDecoder<T> for PlusReferences<'a, T> {
    ghost item = { λ decoder j z. plus_block_reference T.PTYPE (map T.value decoder.references.now) j z };

    #[tactic(auto, using(crate::proofs::BlockSums::sums))]
    fn decode_block(
        &self,
        j: usize,
        extent: BlockExtent,
        items: &mut [T; FL_CHUNK_SIZE],
        reader: &mut PackedReader,
    ) {
        match reference_of(self.references, j) {
            Some(reference) => reader.unfor_block(extent, reference, items),
            None => reader.unpack_block(extent, items),
        }
    }
}
