//! Items of packed blocks at positions, run by run: consecutive positions that fall into one block.

ghost use Rattle.std.specs.Prelude.{◌≡◌, ◌+◌, ◌-◌, ◌*◌, ◌/◌, ◌%◌, ◌<◌, ◌≤◌, ◌^◌, ℕ, IfOk, OnOk, length, slice_index};
ghost use Rattle.fl_types.specs.Integers.{bits_of_type};
ghost use Rattle.fl_patches.specs.Widths.{Names};
ghost use Rattle.fl_bitpacking.specs.Blocks.{blocks_of};
ghost use Rattle.fl_bitpacking.specs.Parts.{AreReadable};
ghost use Rattle.fl_bitpacking.specs.Readings.{AreFewWords, more_blocks};
ghost use Rattle.fl_bitpacking.specs.Taken.{AreBelow, AreTaken, HasStarts, IsRun, unpack_threshold};

use crate::bit_packed::BitPacked;
use crate::blocks::PackedBlocks;
use crate::packed_data::BlockExtent;
use crate::packed_reader::PackedReader;
use crate::patching::write_at;
use fastlanes::FL_CHUNK_SIZE;
use fl_column::PhysicalPType;
use fl_patches::Widths;
use std::alloc::{AllocError, Global};

/// The most positions of one block that are read one by one, in a type of this many bits. Of more, the
/// block is unpacked whole.
pub(crate) fn unpack_threshold(bits: usize) -> usize
    ensures { result ≡ unpack_threshold bits }
{
    match bits {
        8 => 16,
        16 => 32,
        32 => 64,
        _ => 160,
    }
}

/// Where the run that begins at `from` ends: the positions before that lie in one block.
#[inline(always)]
fn run_end(offset: usize, positions: &[usize], from: usize) -> usize
    requires some { from < length positions.now }
    requires few { (i : ℕ) → i < length positions.now → offset + slice_index positions.now i < 2 ^ 64 }
    ensures later { from < result }
    ensures within { result ≤ length positions.now }
    ensures same { (i : ℕ) → from ≤ i → i < result → (offset + slice_index positions.now i) / 1024 ≡ (offset + slice_index positions.now from) / 1024 }
{
    let block = (offset + positions[from]) / FL_CHUNK_SIZE;
    for k in from + 1..positions.len() {
        if (offset + positions[k]) / FL_CHUNK_SIZE != block {
            return k;
        }
    }
    positions.len()
}

/// The byte at which block `j` starts, which lies in memory.
#[inline(always)]
pub(crate) fn block_start(widths: Widths, j: usize) -> usize
    requires starts { HasStarts widths }
    requires named { Names widths j }
    requires few { (blocks_of widths).start j + 128 * (blocks_of widths).width j < 2 ^ 64 }
    ensures { result ≡ (blocks_of widths.entry).start j }
{
    match widths {
        Widths::Global(width) => FL_CHUNK_SIZE / 8 * width * j,
        Widths::Boundaries(boundaries) => {
            let (first, start) = (boundaries.number_at(0), boundaries.number_at(j));
            start.saturating_sub(first)
        }
        Widths::PerBlock(_) => unreachable!(),
    }
}

/// Consecutive positions that lie in one block.
#[derive(Clone, Copy)]
struct Run {
    /// The index of the first one in the list of positions.
    from: usize,
    /// The index after the last one.
    to: usize,
    /// Where the block lies.
    extent: BlockExtent,
}

/// The run that begins at `from`, of blocks whose items have this many bits.
#[inline(always)]
fn run_from(
    blocks: PackedBlocks,
    positions: &[usize],
    from: usize,
    bits: usize,
    reader: &PackedReader,
) -> Run
    requires readable { AreReadable bits reader.now.bytes blocks }
    requires starts { HasStarts blocks.widths }
    requires below { AreBelow blocks.len positions.now }
    requires some { from < length positions.now }
    ensures run { IsRun bits reader.now.bytes blocks.entry positions.now result }
    ensures first { result.from ≡ from }
{
    let j = (blocks.offset + positions[from]) / FL_CHUNK_SIZE;
    let width = blocks.widths.of_block(j);
    // For the proof: the block ends below 2 ^ 64.
    let _size = reader.size();
    let start = block_start(blocks.widths, j);
    Run {
        from,
        to: run_end(blocks.offset, positions, from),
        extent: BlockExtent { start, width },
    }
}

/// Writes the items of a run out of its block, which is unpacked whole.
fn pick_run<T: BitPacked>(
    blocks: PackedBlocks,
    run: Run,
    positions: &[usize],
    items: &mut [T],
    scratch: &mut [T; FL_CHUNK_SIZE],
    reader: &mut PackedReader,
)
    requires run { IsRun (bits_of_type T.PTYPE) reader.old.bytes blocks positions.now run }
    requires below { AreBelow blocks.len positions.now }
    requires few { blocks.offset + blocks.len < 2 ^ 64 }
    requires long { length items.old ≡ length positions.now }
    requires begun { AreTaken T.value T.PTYPE reader.old.bytes blocks positions.now run.from items.old }
    ensures taken { AreTaken T.value T.PTYPE reader.old.bytes blocks.entry positions.now run.to items.new }
    ensures counted { reader.new ≡ more_blocks 1 reader.old }
{
    reader.unpack_block(run.extent, scratch);
    for k in run.from..run.to {
        write_at(
            items,
            k,
            scratch[(blocks.offset + positions[k]) % FL_CHUNK_SIZE],
        );
    }
}

/// Writes the items of a run, each read without its neighbours.
#[inline(always)]
fn read_run<T: PhysicalPType>(
    blocks: PackedBlocks,
    run: Run,
    positions: &[usize],
    items: &mut [T],
    reader: &mut PackedReader,
)
    requires run { IsRun (bits_of_type T.PTYPE) reader.old.bytes blocks positions.now run }
    requires below { AreBelow blocks.len positions.now }
    requires few { blocks.offset + blocks.len < 2 ^ 64 }
    requires long { length items.old ≡ length positions.now }
    requires begun { AreTaken T.value T.PTYPE reader.old.bytes blocks positions.now run.from items.old }
    ensures taken { AreTaken T.value T.PTYPE reader.old.bytes blocks.entry positions.now run.to items.new }
    ensures few { AreFewWords (2 * (run.to - run.from)) reader.old reader.new }
{
    for k in run.from..run.to {
        let index = (blocks.offset + positions[k]) % FL_CHUNK_SIZE;
        write_at(items, k, reader.item(run.extent, index));
    }
}

/// Writes the items of the run that begins at `from`, and returns where it ends.
fn take_run<T: BitPacked + PhysicalPType>(
    blocks: PackedBlocks,
    positions: &[usize],
    from: usize,
    items: &mut [T],
    scratch: &mut [T; FL_CHUNK_SIZE],
    reader: &mut PackedReader,
) -> usize
    requires readable { AreReadable (bits_of_type T.PTYPE) reader.old.bytes blocks }
    requires starts { HasStarts blocks.widths }
    requires below { AreBelow blocks.len positions.now }
    requires long { length items.old ≡ length positions.now }
    requires more { from < length positions.now }
    requires begun { AreTaken T.value T.PTYPE reader.old.bytes blocks positions.now from items.old }
    ensures taken { AreTaken T.value T.PTYPE reader.old.bytes blocks.entry positions.now result items.new }
    ensures later { from < result }
    ensures within { result ≤ length positions.now }
    ensures bytes { reader.new.bytes ≡ reader.old.bytes }
    ensures blocks { 17 * reader.new.blocks + from ≤ 17 * reader.old.blocks + result }
    ensures words { reader.new.words + 2 * from ≤ reader.old.words + 2 * result }
{
    let bits = T::PTYPE.bit_width();
    let run = run_from(blocks, positions, from, bits, reader);
    if run.to - run.from > unpack_threshold(bits) {
        pick_run(blocks, run, positions, items, scratch, reader);
    } else {
        read_run(blocks, run, positions, items, reader);
    }
    run.to
}

/// The items at these positions as their bits are stored. A block is unpacked for a run of more than
/// 16 positions of it, or more by the type; of any other two words are read for each position at most.
pub(crate) fn take_stored<T: BitPacked + PhysicalPType>(
    alloc: Global,
    blocks: PackedBlocks,
    positions: &[usize],
    reader: &mut PackedReader,
) -> Result<Vec<T>, AllocError>
    requires readable { AreReadable (bits_of_type T.PTYPE) reader.old.bytes blocks }
    requires starts { HasStarts blocks.widths }
    requires below { AreBelow blocks.len positions.now }
    ensures long { IfOk result (λ v. length v.items ≡ length positions.now) }
    ensures taken { IfOk result (λ v. AreTaken T.value T.PTYPE reader.old.bytes blocks.entry positions.now (length positions.now) v.items) }
    ensures bytes { reader.new.bytes ≡ reader.old.bytes }
    ensures blocks { 17 * reader.new.blocks ≤ 17 * reader.old.blocks + length positions.now }
    ensures words { reader.new.words ≤ reader.old.words + 2 * length positions.now }
{
    let mut items = Vec::new(alloc);
    items.resize(positions.len(), T::zero())?;
    let mut scratch = [T::zero(); FL_CHUNK_SIZE];
    let mut from = 0;
    while from < positions.len() {
        from = take_run(blocks, positions, from, &mut items, &mut scratch, reader);
    }
    Ok(items)
}
