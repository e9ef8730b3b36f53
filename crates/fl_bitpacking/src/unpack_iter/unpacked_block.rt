//! A block's items, unpacked at one width.

ghost use Rattle.std.specs.Prelude.{◌≡◌, ◌+◌, ◌*◌, ◌≤◌, length, map, min};
ghost use Rattle.std.specs.Borrow.{sem};
ghost use Rattle.fl_types.specs.Integers.{bits_of_type};

use crate::bit_packed::{BitCount, BitPacked};
use crate::unpack_iter::BitPackingStrategy;
use crate::unpack_iter::cut_blocks::unpack_at;
use fastlanes::{FL_CHUNK_SIZE, Work};
use std::marker::Model;

/// A block's items, and the width at which blocks are unpacked.
#[derive(Drop)]
pub struct UnpackedBlock<T: BitCount> {
    items: [T; FL_CHUNK_SIZE],
    bit_width: usize,
}

impl<T: BitCount> Model for UnpackedBlock<T> {
    ghost use Rattle.std.specs.Prelude.{◌≤◌};
    ghost use Rattle.fl_bitpacking.specs.UnpackedBlocks.{BlockItems};

    ghost Value = { BlockItems T };

    ghost view = { λ b. record { items = b.items; bit_width = b.bit_width } };

    ghost invariant = { λ b. b.bit_width ≤ T.TYPE_BITS };
}

impl<T: BitPacked> UnpackedBlock<T> {
    ghost use Rattle.std.specs.Prelude.{◌≡◌, ◌+◌, ◌*◌, ◌≤◌, length, map, min};
    ghost use Rattle.std.specs.Borrow.{sem};
    ghost use Rattle.fl_types.specs.Integers.{bits_of_type};
    ghost use Rattle.fl_bitpacking.specs.WholeBlocks.{block_items_at};
    ghost use Rattle.fl_bitpacking.specs.RoomLends.{lends_room};

    /// These items, and a width, which is at most the type's bits.
    pub(crate) fn new(items: [T; FL_CHUNK_SIZE], bit_width: usize) -> Self
        requires { bit_width ≤ bits_of_type T.PTYPE }
        ensures { result ≡ record { items = items; bit_width = bit_width } }
    {
        UnpackedBlock { items, bit_width }
    }

    /// The width of the blocks.
    pub(crate) fn bit_width(&self) -> usize
        ensures width { result ≡ self.now.bit_width }
        ensures narrow { result ≤ bits_of_type T.PTYPE }
    {
        self.bit_width
    }

    /// Unpacks block `j` of packed bytes.
    pub(crate) fn unpack(&mut self, packed: &[u8], j: usize, work: &mut Work)
        requires { 128 * self.old.bit_width * (j + 1) ≤ length packed.now }
        ensures items { map T.value self.new.items ≡ block_items_at T.PTYPE self.old.bit_width packed.now (1024 * j) 1024 }
        ensures width { self.new.bit_width ≡ self.old.bit_width }
        ensures blocks { work.new.blocks ≡ min (work.old.blocks + 1) u64.MAX }
        ensures words { work.new.words ≡ work.old.words }
    {
        let (by, bit_width) = (BitPackingStrategy, self.bit_width);
        unpack_at(&by, packed, bit_width, j, &mut self.items, work);
    }

    /// Lends the items.
    pub(crate) fn items(&mut self) -> &mut [T; FL_CHUNK_SIZE]
        ensures* after { sem 𝓛 (lends_room T.row T.BitCount self.entry result) }
        ensures items { result.now ≡ self.old.items }
    {
        &mut self.items
    }
}
