//! Packing and unpacking.

ghost use Rattle.std.specs.Prelude.{◌≡◌, ◌+◌, ◌*◌, ◌≤◌, ℕ, OnErr, OnOk, drop, length, min, take};
ghost use Rattle.fastlanes.specs.Layout.{Packed, pattern_at};
ghost use Rattle.fl_blocks.specs.Blocks.{ArePacked, AreUnpacked, AreUnpackedFrom, packed_error, unless};

use crate::error::BlocksError;
use crate::sizes::{check_packed, lanes};
use fastlanes::{FL_CHUNK_SIZE, FastLanes, Work, pack, unfor_pack, unpack};

/// Packs a block into its words, which start at a word.
fn pack_at<W: FastLanes>(
    width: usize,
    items: &[W; FL_CHUNK_SIZE],
    start: usize,
    size: usize,
    packed: &mut [W],
)
    requires width { width ≤ W.T }
    requires size { size ≡ width * W.LANES }
    requires within { start + size ≤ length packed.old }
    ensures packed { Packed W.T W.LANES width (pattern_at W.pattern items.now) (pattern_at W.pattern (take size (drop start packed.new))) }
    ensures before { (from n : ℕ) → from + n ≤ start → take n (drop from packed.new) ≡ take n (drop from packed.old) }
{
    pack(width, items, &mut packed[start..start + size]);
}

fn pack_each<W: FastLanes>(width: usize, blocks: &[[W; FL_CHUNK_SIZE]], packed: &mut [W])
    requires width { width ≤ W.T }
    requires room { length packed.old ≡ length blocks.now * (width * W.LANES) }
    ensures { ArePacked W.pattern W.T W.LANES width blocks.now packed.new }
{
    let size = width * lanes::<W>();
    for k in 0..blocks.len() {
        pack_at(width, &blocks[k], k * size, size, packed);
    }
}

/// Packs the low `width` bits of the items of each block, block after block.
///
/// # Errors
/// `WidthTooLarge` where the width is above the bits of the type; `WrongLength` where there are more or fewer words
/// than `width * LANES` for each block.
pub fn pack_blocks<W: FastLanes>(
    width: usize,
    blocks: &[[W; FL_CHUNK_SIZE]],
    packed: &mut [W],
) -> Result<(), BlocksError>
    ensures answer { result ≡ unless (packed_error W.T W.LANES width (length blocks.now) (length packed.old)) }
    ensures packed { OnOk result (ArePacked W.pattern W.T W.LANES width blocks.now packed.new) }
    ensures unwritten { OnErr result (packed.new ≡ packed.old) }
{
    check_packed::<W>(width, blocks.len(), packed.len())?;
    pack_each(width, blocks, packed);
    Ok(())
}

fn unpack_each<W: FastLanes>(
    width: usize,
    packed: &[W],
    blocks: &mut [[W; FL_CHUNK_SIZE]],
    work: &mut Work,
)
    requires width { width ≤ W.T }
    requires room { length packed.now ≡ length blocks.old * (width * W.LANES) }
    ensures items { AreUnpacked W.pattern W.T W.LANES width packed.now blocks.new }
    ensures count { work.new.blocks ≡ min (work.old.blocks + length blocks.old) u64.MAX }
    ensures words { work.new.words ≡ work.old.words }
{
    let size = width * lanes::<W>();
    let _counted = work.blocks();
    for k in 0..blocks.len() {
        let start = k * size;
        unpack(width, &packed[start..start + size], &mut blocks[k], work);
    }
}

/// Writes the items of packed blocks, block after block, with their bits from `width` on 0. `work` counts the blocks.
///
/// # Errors
/// `WidthTooLarge` where the width is above the bits of the type; `WrongLength` where there are more or fewer words
/// than `width * LANES` for each block.
pub fn unpack_blocks<W: FastLanes>(
    width: usize,
    packed: &[W],
    blocks: &mut [[W; FL_CHUNK_SIZE]],
    work: &mut Work,
) -> Result<(), BlocksError>
    ensures answer { result ≡ unless (packed_error W.T W.LANES width (length blocks.old) (length packed.now)) }
    ensures items { OnOk result (AreUnpacked W.pattern W.T W.LANES width packed.now blocks.new) }
    ensures unwritten { OnErr result ((blocks.new ≡ blocks.old) × (work.new ≡ work.old)) }
    ensures count { OnOk result (work.new.blocks ≡ min (work.old.blocks + length blocks.old) u64.MAX) }
    ensures words { work.new.words ≡ work.old.words }
{
    check_packed::<W>(width, blocks.len(), packed.len())?;
    unpack_each(width, packed, blocks, work);
    Ok(())
}

fn unfor_pack_each<W: FastLanes>(
    width: usize,
    packed: &[W],
    reference: W,
    blocks: &mut [[W; FL_CHUNK_SIZE]],
    work: &mut Work,
)
    requires width { width ≤ W.T }
    requires room { length packed.now ≡ length blocks.old * (width * W.LANES) }
    ensures items { AreUnpackedFrom (W.pattern reference) W.pattern W.T W.LANES width packed.now blocks.new }
    ensures count { work.new.blocks ≡ min (work.old.blocks + length blocks.old) u64.MAX }
    ensures words { work.new.words ≡ work.old.words }
{
    let size = width * lanes::<W>();
    let _counted = work.blocks();
    for k in 0..blocks.len() {
        let start = k * size;
        unfor_pack(
            width,
            &packed[start..start + size],
            reference,
            &mut blocks[k],
            work,
        );
    }
}

/// Writes the items of packed blocks plus a reference, block after block, modulo 2 to the bits of the type. `work`
/// counts the blocks.
///
/// # Errors
/// Those of `unpack_blocks`.
pub fn unfor_pack_blocks<W: FastLanes>(
    width: usize,
    packed: &[W],
    reference: W,
    blocks: &mut [[W; FL_CHUNK_SIZE]],
    work: &mut Work,
) -> Result<(), BlocksError>
    ensures answer { result ≡ unless (packed_error W.T W.LANES width (length blocks.old) (length packed.now)) }
    ensures items { OnOk result (AreUnpackedFrom (W.pattern reference) W.pattern W.T W.LANES width packed.now blocks.new) }
    ensures unwritten { OnErr result ((blocks.new ≡ blocks.old) × (work.new ≡ work.old)) }
    ensures count { OnOk result (work.new.blocks ≡ min (work.old.blocks + length blocks.old) u64.MAX) }
    ensures words { work.new.words ≡ work.old.words }
{
    check_packed::<W>(width, blocks.len(), packed.len())?;
    unfor_pack_each(width, packed, reference, blocks, work);
    Ok(())
}
