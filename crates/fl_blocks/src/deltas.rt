//! Differences along the lanes of blocks, and their sums.

ghost use Rattle.std.specs.Prelude.{◌≡◌, ◌*◌, OnErr, OnOk, length};
ghost use Rattle.fl_blocks.specs.Blocks.{AreDeltas, AreSums, delta_error, unless};

use crate::error::BlocksError;
use crate::sizes::{check_deltas, lanes};
use fastlanes::{FL_CHUNK_SIZE, FastLanes, delta, undelta};

fn delta_each<W: FastLanes>(
    blocks: &[[W; FL_CHUNK_SIZE]],
    bases: &[W],
    deltas: &mut [[W; FL_CHUNK_SIZE]],
)
    requires bases { length bases.now ≡ length blocks.now * W.LANES }
    requires room { length deltas.old ≡ length blocks.now }
    ensures { AreDeltas W.pattern W.T W.LANES bases.now blocks.now deltas.new }
{
    let lanes = lanes::<W>();
    for k in 0..blocks.len() {
        let start = k * lanes;
        delta(&blocks[k], &bases[start..start + lanes], &mut deltas[k]);
    }
}

/// Writes the deltas of each block: each item less the one at the row before in its lane, modulo 2 to the bits of the
/// type, and at row 0 less the lane's base.
///
/// # Errors
/// `WrongLength` where there are more or fewer bases than `LANES` for each block, or not room for a block each.
pub fn delta_blocks<W: FastLanes>(
    blocks: &[[W; FL_CHUNK_SIZE]],
    bases: &[W],
    deltas: &mut [[W; FL_CHUNK_SIZE]],
) -> Result<(), BlocksError>
    ensures answer { result ≡ unless (delta_error W.LANES (length blocks.now) (length bases.now) (length deltas.old)) }
    ensures deltas { OnOk result (AreDeltas W.pattern W.T W.LANES bases.now blocks.now deltas.new) }
    ensures unwritten { OnErr result (deltas.new ≡ deltas.old) }
{
    check_deltas::<W>(blocks.len(), bases.len(), deltas.len())?;
    delta_each(blocks, bases, deltas);
    Ok(())
}

fn undelta_each<W: FastLanes>(
    deltas: &[[W; FL_CHUNK_SIZE]],
    bases: &[W],
    blocks: &mut [[W; FL_CHUNK_SIZE]],
)
    requires bases { length bases.now ≡ length deltas.now * W.LANES }
    requires room { length blocks.old ≡ length deltas.now }
    ensures { AreSums W.pattern W.T W.LANES bases.now deltas.now blocks.new }
{
    let lanes = lanes::<W>();
    for k in 0..deltas.len() {
        let start = k * lanes;
        undelta(&deltas[k], &bases[start..start + lanes], &mut blocks[k]);
    }
}

/// Writes the items of each block's deltas: at each row the lane's base and the deltas up to it, modulo 2 to the bits
/// of the type.
///
/// # Errors
/// `WrongLength` where there are more or fewer bases than `LANES` for each block, or not room for a block each.
pub fn undelta_blocks<W: FastLanes>(
    deltas: &[[W; FL_CHUNK_SIZE]],
    bases: &[W],
    blocks: &mut [[W; FL_CHUNK_SIZE]],
) -> Result<(), BlocksError>
    ensures answer { result ≡ unless (delta_error W.LANES (length deltas.now) (length bases.now) (length blocks.old)) }
    ensures items { OnOk result (AreSums W.pattern W.T W.LANES bases.now deltas.now blocks.new) }
    ensures unwritten { OnErr result (blocks.new ≡ blocks.old) }
{
    check_deltas::<W>(deltas.len(), bases.len(), blocks.len())?;
    undelta_each(deltas, bases, blocks);
    Ok(())
}
