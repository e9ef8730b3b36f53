//! The whole blocks of a packed column, one after another.

ghost use Rattle.std.specs.Prelude.{◌≡◌, ◌*◌, ◌/◌, ◌<◌, ◌≤◌, length, map, option_map, if◌then◌else◌, nat_lt};
ghost use Rattle.std.specs.Borrow.{sem};
ghost use Rattle.fl_types.specs.Integers.{bits_of_type};

use crate::bit_packed::{BitCount, BitPacked};
use crate::unpack_iter::unpacked_block::UnpackedBlock;
use fastlanes::{FL_CHUNK_SIZE, Work};

/// Iterates over whole blocks of a packed column of one width: unpacks and lends them one after another,
/// and counts them in the `Work` of its reader.
#[derive(Drop)]
pub struct BitUnpackIterator<'a, T: BitCount> {
    pub(crate) packed: &'a [u8],
    pub(crate) block: UnpackedBlock<T>,
    pub(crate) next: usize,
    pub(crate) num_chunks: usize,
    pub(crate) work: &'a mut Work,
}

impl<'a, T: BitPacked> BitUnpackIterator<'a, T> {
    ghost use Rattle.std.specs.Prelude.{◌≡◌, ◌*◌, ◌/◌, ◌<◌, ◌≤◌, length, map, option_map, if◌then◌else◌, nat_lt};
    ghost use Rattle.std.specs.Borrow.{sem};
    ghost use Rattle.fl_types.specs.Integers.{bits_of_type};
    ghost use Rattle.fl_bitpacking.specs.WholeBlocks.{block_items_at, next_items};
    ghost use Rattle.fl_bitpacking.specs.BlockLends.{blocks_left, lends_block, lends_next};

    /// The blocks from the first one on, or from the second one if the first one is sliced, up to
    /// `num_chunks`. They are unpacked into the buffer, and counted in this `Work`.
    ///
    /// The width is at most the type's bits, `elems_per_chunk` words of the type are the `128 *
    /// bit_width` bytes of a block, and the bytes hold the blocks.
    pub fn new(
        packed: &'a [u8],
        buffer: [T; FL_CHUNK_SIZE],
        bit_width: usize,
        elems_per_chunk: usize,
        num_chunks: usize,
        first_chunk_is_sliced: bool,
        work: &'a mut Work,
    ) -> Self
        requires narrow { bit_width ≤ bits_of_type T.PTYPE }
        requires chunk { elems_per_chunk * (bits_of_type T.PTYPE / 8) ≡ 128 * bit_width }
        requires within { 128 * bit_width * num_chunks ≤ length packed.now }
        ensures blocks { blocks_left result ≡ record { packed = packed.now; bit_width = bit_width; next = if first_chunk_is_sliced then 1 else 0; end = num_chunks; work = work.old } }
        ensures counter { result.work.ghost_name ≡ work.entry.ghost_name }
    {
        BitUnpackIterator {
            packed,
            block: UnpackedBlock::new(buffer, bit_width),
            next: usize::from(first_chunk_is_sliced),
            num_chunks,
            work,
        }
    }

    /// The number of blocks unpacked so far, including those counted before.
    pub fn work(&self) -> &Work
        ensures { result.now ≡ (blocks_left self.now).work }
    {
        self.work
    }

    /// Unpacks the next block and lends its items, or `None` after the last block.
    pub fn next(&mut self) -> Option<&mut [T; FL_CHUNK_SIZE]>
        ensures* after { sem 𝓛 (lends_next T.row T.BitCount self.entry result) }
        ensures items { option_map (λ b. map T.value b.now) result ≡ next_items T.PTYPE (blocks_left self.old) }
    {
        if self.has_next() {
            Some(self.unpack_block())
        } else {
            None
        }
    }

    /// Whether there is a next block in the bytes.
    fn has_next(&self) -> bool
        ensures { result ≡ nat_lt (blocks_left self.now).next (blocks_left self.now).end }
    {
        let size = (FL_CHUNK_SIZE / 8 * self.block.bit_width()) as u128 * self.num_chunks as u128;
        self.next < self.num_chunks && size <= self.packed.len() as u128
    }

    /// Unpacks the next block.
    fn unpack_block(&mut self) -> &mut [T; FL_CHUNK_SIZE]
        requires { (blocks_left self.old).next < (blocks_left self.old).end }
        ensures* after { sem 𝓛 (lends_block T.row T.BitCount self.entry result) }
        ensures items { map T.value result.now ≡ block_items_at T.PTYPE (blocks_left self.old).bit_width (blocks_left self.old).packed (1024 * (blocks_left self.old).next) 1024 }
    {
        self.block.unpack(self.packed, self.next, self.work);
        self.next += 1;
        self.block.items()
    }
}
