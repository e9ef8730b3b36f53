//! Moving items to the rows at which delta blocks keep them, and back.

ghost use Rattle.std.specs.Prelude.{◌≡◌, OnErr, OnOk, length};
ghost use Rattle.fl_blocks.specs.Blocks.{AreTransposed, moved_error, unless};

use crate::error::BlocksError;
use crate::sizes::check_moved;
use fastlanes::{FL_CHUNK_SIZE, FastLanes, transpose, untranspose};

fn transpose_each<W: FastLanes>(blocks: &[[W; FL_CHUNK_SIZE]], stored: &mut [[W; FL_CHUNK_SIZE]])
    requires { length stored.old ≡ length blocks.now }
    ensures { AreTransposed W.pattern W.T W.LANES blocks.now stored.new }
{
    for k in 0..blocks.len() {
        transpose(&blocks[k], &mut stored[k]);
    }
}

/// Moves the items of each block to their rows: those of a lane's segment, which follow each other, to that lane's
/// rows from 0 on.
///
/// # Errors
/// `WrongLength` where there is not room for a block each.
pub fn transpose_blocks<W: FastLanes>(
    blocks: &[[W; FL_CHUNK_SIZE]],
    stored: &mut [[W; FL_CHUNK_SIZE]],
) -> Result<(), BlocksError>
    ensures answer { result ≡ unless (moved_error (length blocks.now) (length stored.old)) }
    ensures moved { OnOk result (AreTransposed W.pattern W.T W.LANES blocks.now stored.new) }
    ensures unwritten { OnErr result (stored.new ≡ stored.old) }
{
    check_moved(blocks.len(), stored.len())?;
    transpose_each(blocks, stored);
    Ok(())
}

fn untranspose_each<W: FastLanes>(stored: &[[W; FL_CHUNK_SIZE]], blocks: &mut [[W; FL_CHUNK_SIZE]])
    requires { length blocks.old ≡ length stored.now }
    ensures { AreTransposed W.pattern W.T W.LANES blocks.new stored.now }
{
    for k in 0..stored.len() {
        untranspose(&stored[k], &mut blocks[k]);
    }
}

/// Moves the items of each block back from their rows.
///
/// # Errors
/// `WrongLength` where there is not room for a block each.
pub fn untranspose_blocks<W: FastLanes>(
    stored: &[[W; FL_CHUNK_SIZE]],
    blocks: &mut [[W; FL_CHUNK_SIZE]],
) -> Result<(), BlocksError>
    ensures answer { result ≡ unless (moved_error (length stored.now) (length blocks.old)) }
    ensures moved { OnOk result (AreTransposed W.pattern W.T W.LANES blocks.new stored.now) }
    ensures unwritten { OnErr result (blocks.new ≡ blocks.old) }
{
    check_moved(stored.len(), blocks.len())?;
    untranspose_each(stored, blocks);
    Ok(())
}
