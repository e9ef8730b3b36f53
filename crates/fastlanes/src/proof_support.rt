//! Facts for the proofs of callers. These functions have no effect: the contract of each states a fact
//! about its arguments, and a call brings that fact into the caller's proof.
#![tactic(auto)]

ghost use Rattle.std.specs.Prelude.{◌≡◌, ℕ, ◌<◌, ◌≤◌, length, slice_index};

use crate::counts::Work;
use crate::layout::FL_CHUNK_SIZE;

/// A block has 1024 items.
#[inline(always)]
pub(crate) fn prove_whole_block<W: Copy>(block: &[W; FL_CHUNK_SIZE])
    ensures { length block.now ≡ 1024 }
{
    let _count = block.len();
}

/// A byte is below 256.
#[inline(always)]
pub(crate) fn prove_bytes_fit(bytes: &[u8])
    ensures { (i : ℕ) → slice_index bytes.now i < 256 }
{
    let _count = bytes.len();
}

/// A count of words is at most `u64::MAX`.
#[inline(always)]
pub(crate) fn prove_count_fits(work: &Work)
    ensures { work.now.words ≤ u64.MAX }
{
    let _words = work.words();
}
