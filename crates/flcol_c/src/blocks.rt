//! Whole blocks of 1024 items that C packs and unpacks, for each word type.

ghost use Rattle.std.specs.Prelude.{◌≡◌, ◌≢◌, length, pos};
ghost use Rattle.fl_blocks.specs.Blocks.{AreDeltas, ArePacked, AreSums, AreTransposed, AreUnpacked, AreUnpackedFrom, delta_error, moved_error, packed_error, unless};
ghost use Rattle.flcol_c.specs.Blocks.{blocks_status, of_blocks};

use crate::fault::{DONE, Fault};
use fastlanes::{FL_CHUNK_SIZE, FastLanes, Work};
use fl_blocks::{
    BlocksError, delta_blocks, pack_blocks, transpose_blocks, undelta_blocks, unfor_pack_blocks,
    unpack_blocks, untranspose_blocks,
};
use fl_types::FastLanesError;

impl From<BlocksError> for Fault {
    ghost from_gives = { λ error fault. fault ≡ of_blocks error };

    fn from(error: BlocksError) -> Fault {
        match error {
            BlocksError::WidthTooLarge => Fault::Refused(FastLanesError::WidthTooLarge),
            BlocksError::WrongLength => Fault::WrongLength,
        }
    }
}

/// The status of what was answered on blocks.
fn status_of_blocks(answer: Result<(), BlocksError>) -> i32
    ensures { result ≡ blocks_status answer }
{
    match answer {
        Ok(()) => DONE,
        Err(error) => Fault::from(error).status(),
    }
}

/// Packs the low `width` bits of the items of each block.
pub(crate) fn pack<W: FastLanes>(
    width: usize,
    items: &[[W; FL_CHUNK_SIZE]],
    packed: &mut [W],
) -> i32
    ensures status { result ≡ blocks_status (unless (packed_error W.T W.LANES width (length items.now) (length packed.old))) }
    ensures packed { result ≡ pos 0 → ArePacked W.pattern W.T W.LANES width items.now packed.new }
    ensures unpacked { result ≢ pos 0 → packed.new ≡ packed.old }
{
    status_of_blocks(pack_blocks(width, items, packed))
}

/// Writes the items of packed blocks.
pub(crate) fn unpack<W: FastLanes>(
    width: usize,
    packed: &[W],
    items: &mut [[W; FL_CHUNK_SIZE]],
) -> i32
    ensures status { result ≡ blocks_status (unless (packed_error W.T W.LANES width (length items.old) (length packed.now))) }
    ensures items { result ≡ pos 0 → AreUnpacked W.pattern W.T W.LANES width packed.now items.new }
    ensures unwritten { result ≢ pos 0 → items.new ≡ items.old }
{
    status_of_blocks(unpack_blocks(width, packed, items, &mut Work::new()))
}

/// Writes the items of packed blocks plus a reference.
pub(crate) fn unfor_pack<W: FastLanes>(
    width: usize,
    packed: &[W],
    reference: W,
    items: &mut [[W; FL_CHUNK_SIZE]],
) -> i32
    ensures status { result ≡ blocks_status (unless (packed_error W.T W.LANES width (length items.old) (length packed.now))) }
    ensures items { result ≡ pos 0 → AreUnpackedFrom (W.pattern reference) W.pattern W.T W.LANES width packed.now items.new }
    ensures unwritten { result ≢ pos 0 → items.new ≡ items.old }
{
    status_of_blocks(unfor_pack_blocks(width, packed, reference, items, &mut Work::new()))
}

/// Writes the deltas of each block.
pub(crate) fn delta<W: FastLanes>(
    items: &[[W; FL_CHUNK_SIZE]],
    bases: &[W],
    deltas: &mut [[W; FL_CHUNK_SIZE]],
) -> i32
    ensures status { result ≡ blocks_status (unless (delta_error W.LANES (length items.now) (length bases.now) (length deltas.old))) }
    ensures deltas { result ≡ pos 0 → AreDeltas W.pattern W.T W.LANES bases.now items.now deltas.new }
    ensures unwritten { result ≢ pos 0 → deltas.new ≡ deltas.old }
{
    status_of_blocks(delta_blocks(items, bases, deltas))
}

/// Writes the items of each block's deltas.
pub(crate) fn undelta<W: FastLanes>(
    deltas: &[[W; FL_CHUNK_SIZE]],
    bases: &[W],
    items: &mut [[W; FL_CHUNK_SIZE]],
) -> i32
    ensures status { result ≡ blocks_status (unless (delta_error W.LANES (length deltas.now) (length bases.now) (length items.old))) }
    ensures items { result ≡ pos 0 → AreSums W.pattern W.T W.LANES bases.now deltas.now items.new }
    ensures unwritten { result ≢ pos 0 → items.new ≡ items.old }
{
    status_of_blocks(undelta_blocks(deltas, bases, items))
}

/// Moves the items of each block to their rows.
pub(crate) fn transpose<W: FastLanes>(
    items: &[[W; FL_CHUNK_SIZE]],
    stored: &mut [[W; FL_CHUNK_SIZE]],
) -> i32
    ensures status { result ≡ blocks_status (unless (moved_error (length items.now) (length stored.old))) }
    ensures moved { result ≡ pos 0 → AreTransposed W.pattern W.T W.LANES items.now stored.new }
    ensures unwritten { result ≢ pos 0 → stored.new ≡ stored.old }
{
    status_of_blocks(transpose_blocks(items, stored))
}

/// Moves the items of each block back from their rows.
pub(crate) fn untranspose<W: FastLanes>(
    stored: &[[W; FL_CHUNK_SIZE]],
    items: &mut [[W; FL_CHUNK_SIZE]],
) -> i32
    ensures status { result ≡ blocks_status (unless (moved_error (length stored.now) (length items.old))) }
    ensures moved { result ≡ pos 0 → AreTransposed W.pattern W.T W.LANES items.new stored.now }
    ensures unwritten { result ≢ pos 0 → items.new ≡ items.old }
{
    status_of_blocks(untranspose_blocks(stored, items))
}
