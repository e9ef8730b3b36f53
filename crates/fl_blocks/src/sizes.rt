//! How many words blocks have.

ghost use Rattle.std.specs.Prelude.{◌≡◌, ◌==◌, ◌*◌};
ghost use Rattle.fl_blocks.specs.Blocks.{delta_error, moved_error, packed_error, unless};

use crate::error::BlocksError;
use fastlanes::FastLanes;

/// The lanes of a block.
pub(crate) fn lanes<W: FastLanes>() -> usize
    ensures { result ≡ W.LANES }
{
    W::LANES
}

/// Whether this many words are so many times as many as a block has.
fn are_of_blocks(words: usize, blocks: usize, size: usize) -> bool
    ensures { result ≡ (words == blocks * size) }
{
    match blocks.checked_mul(size) {
        Some(all) => words == all,
        None => false,
    }
}

/// Whether so many words are those of so many blocks that are packed at a width.
pub(crate) fn check_packed<W: FastLanes>(
    width: usize,
    blocks: usize,
    words: usize,
) -> Result<(), BlocksError>
    ensures { result ≡ unless (packed_error W.T W.LANES width blocks words) }
{
    if width > W::T {
        return Err(BlocksError::WidthTooLarge);
    }
    if !are_of_blocks(words, blocks, width * lanes::<W>()) {
        return Err(BlocksError::WrongLength);
    }
    Ok(())
}

/// Whether there is room for a block each.
pub(crate) fn check_moved(blocks: usize, room: usize) -> Result<(), BlocksError>
    ensures { result ≡ unless (moved_error blocks room) }
{
    if room != blocks {
        return Err(BlocksError::WrongLength);
    }
    Ok(())
}

/// Whether there are bases for each block, and room for a block each.
pub(crate) fn check_deltas<W: FastLanes>(
    blocks: usize,
    bases: usize,
    room: usize,
) -> Result<(), BlocksError>
    ensures { result ≡ unless (delta_error W.LANES blocks bases room) }
{
    if !are_of_blocks(bases, blocks, lanes::<W>()) {
        return Err(BlocksError::WrongLength);
    }
    check_moved(blocks, room)
}
