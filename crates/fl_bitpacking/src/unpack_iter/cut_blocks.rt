//! What the readers of packed columns share: which of their blocks are cut, and how one is unpacked.

ghost use Rattle.std.specs.Prelude.{◌≡◌, ◌+◌, ◌-◌, ◌*◌, ◌<◌, ◌≤◌, ◌^◌, ℕ, SomeIff, length, min, if◌then◌else◌};
ghost use Rattle.fl_types.specs.Integers.{bits_of_type};
ghost use Rattle.fl_column.specs.Chunks.{chunk_count};
ghost use Rattle.fl_bitpacking.specs.Blocks.{global_blocks, item_of_blocks, value_at};
ghost use Rattle.fl_bitpacking.specs.Readers.{lends_first, lends_last};

use crate::bit_packed::BitPacked;
use crate::blocks::global_block;
use crate::unpack_iter::UnpackStrategy;
use fastlanes::{FL_CHUNK_SIZE, Work};
use fl_column::chunk_count;

/// Whether the first block lends its items by itself: it is cut in front, or the only one.
pub(crate) fn lends_first(offset: usize, len: usize) -> bool
    requires { offset + len < 2 ^ 64 }
    ensures { result ≡ lends_first offset len }
{
    offset != 0 || chunk_count(offset + len) == 1
}

/// Whether the last block lends its items by itself: it is cut at its end, and not the only one.
pub(crate) fn lends_last(offset: usize, len: usize) -> bool
    requires { offset + len < 2 ^ 64 }
    ensures { result ≡ lends_last offset len }
{
    let end = offset + len;
    chunk_count(end) > 1 && end % FL_CHUNK_SIZE != 0
}

/// The first of the blocks that neither the first nor the last one lends by itself.
pub(crate) fn first_whole_block(offset: usize, len: usize) -> usize
    requires { offset + len < 2 ^ 64 }
    ensures { result ≡ (if lends_first offset len then 1 else 0) }
{
    usize::from(lends_first(offset, len))
}

/// Where the blocks end that neither the first nor the last one lends by itself.
pub(crate) fn end_of_whole_blocks(offset: usize, len: usize) -> usize
    requires { offset + len < 2 ^ 64 }
    ensures { result ≡ chunk_count (offset + len) - (if lends_last offset len then 1 else 0) }
{
    chunk_count(offset + len) - usize::from(lends_last(offset, len))
}

/// How many whole blocks hold this many items from the offset on, unless their positions are more than
/// `usize::MAX`.
pub(crate) fn whole_blocks(offset: usize, len: usize) -> Option<usize>
    ensures { SomeIff result (1024 * chunk_count (offset + len) < 2 ^ 64) (chunk_count (offset + len)) }
{
    let end = offset.checked_add(len)?;
    let blocks = chunk_count(end);
    if blocks > usize::MAX / FL_CHUNK_SIZE {
        return None;
    }
    Some(blocks)
}

/// Unpacks block `j` of packed bytes whose blocks have one width.
pub(crate) fn unpack_at<T: BitPacked, S: UnpackStrategy<T>>(
    strategy: &S,
    packed: &[u8],
    bit_width: usize,
    j: usize,
    items: &mut [T; FL_CHUNK_SIZE],
    work: &mut Work,
)
    requires width { bit_width ≤ bits_of_type T.PTYPE }
    requires block { 128 * bit_width * (j + 1) ≤ length packed.now }
    ensures items { (i : ℕ) → i < 1024 → value_at T.value items.new i ≡ item_of_blocks T.PTYPE (global_blocks bit_width) packed.now (1024 * j + i) }
    ensures whole { length items.new ≡ 1024 }
    ensures blocks { work.new.blocks ≡ min (work.old.blocks + 1) u64.MAX }
    ensures words { work.new.words ≡ work.old.words }
{
    let block = global_block(packed, bit_width, j);
    strategy.unpack_chunk(bit_width, block, items, work);
}
