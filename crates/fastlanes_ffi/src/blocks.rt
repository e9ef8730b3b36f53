//! Kernels over any number of whole blocks, which test the lengths themselves.
#![tactic(auto)]

ghost use Rattle.std.specs.Prelude.{◌≤◌, ◌<◌, ℕ, slice_index};

use fastlanes::{
    FL_CHUNK_SIZE, FastLanes, Work, delta, pack, rle_decode, transpose, transpose_bits, undelta,
    unfor_pack, unpack, unpack_cmp, unpack_single, untranspose,
};

/// Packs block after block, as far as there is room for the words.
pub(crate) fn pack_all<W: FastLanes>(width: usize, blocks: &[[W; FL_CHUNK_SIZE]], packed: &mut [W])
    requires { width ≤ W.T }
{
    let size = width * W::LANES;
    let mut rest = packed;
    for block in blocks {
        if rest.len() < size {
            return;
        }
        let (first, others) = rest.split_at_mut(size);
        pack(width, block, first);
        rest = others;
    }
}

/// Unpacks block after block, as far as there are words.
pub(crate) fn unpack_all<W: FastLanes>(
    width: usize,
    packed: &[W],
    blocks: &mut [[W; FL_CHUNK_SIZE]],
)
    requires { width ≤ W.T }
{
    let size = width * W::LANES;
    let mut work = Work::new();
    let mut rest = packed;
    for block in blocks {
        if rest.len() < size {
            return;
        }
        let (first, others) = rest.split_at(size);
        unpack(width, first, block, &mut work);
        rest = others;
    }
}

/// Unpacks block after block and adds the reference, as far as there are words.
pub(crate) fn unfor_pack_all<W: FastLanes>(
    width: usize,
    packed: &[W],
    reference: W,
    blocks: &mut [[W; FL_CHUNK_SIZE]],
)
    requires { width ≤ W.T }
{
    let size = width * W::LANES;
    let mut work = Work::new();
    let mut rest = packed;
    for block in blocks {
        if rest.len() < size {
            return;
        }
        let (first, others) = rest.split_at(size);
        unfor_pack(width, first, reference, block, &mut work);
        rest = others;
    }
}

/// Compares block after block, as far as there are words: bit `i` of a block's sixteen words is whether item `i` is less than `rhs`.
pub(crate) fn compare_lt_all<W: FastLanes + PartialOrd>(
    width: usize,
    packed: &[W],
    rhs: W,
    blocks: &mut [[u64; 16]],
)
    requires { width ≤ W.T }
{
    let size = width * W::LANES;
    let mut work = Work::new();
    let mut in_lanes = [0u64; 16];
    let mut rest = packed;
    for bits in blocks {
        if rest.len() < size {
            return;
        }
        let (first, others) = rest.split_at(size);
        unpack_cmp(
            width,
            first,
            &mut in_lanes,
            |item, other| item < other,
            rhs,
            &mut work,
        );
        transpose_bits::<W>(&in_lanes, bits);
        rest = others;
    }
}

/// The item at `index` of a block's bytes, or 0 where these are not a block's or have no such item.
pub(crate) fn single<W: FastLanes>(width: usize, bytes: &[u8], index: usize) -> W
    requires { width ≤ W.T }
{
    if bytes.len() != 128 * width || index >= FL_CHUNK_SIZE {
        return W::zero();
    }
    unpack_single(width, bytes, index, &mut Work::new())
}

/// Moves the items of each block to their rows.
pub(crate) fn transpose_all<W: FastLanes>(
    input: &[[W; FL_CHUNK_SIZE]],
    output: &mut [[W; FL_CHUNK_SIZE]],
) {
    for (from, to) in input.iter().zip(output.iter_mut()) {
        transpose(from, to);
    }
}

/// Moves the items of each block back from their rows.
pub(crate) fn untranspose_all<W: FastLanes>(
    input: &[[W; FL_CHUNK_SIZE]],
    output: &mut [[W; FL_CHUNK_SIZE]],
) {
    for (from, to) in input.iter().zip(output.iter_mut()) {
        untranspose(from, to);
    }
}

/// The deltas of each block, as far as there are bases.
pub(crate) fn delta_all<W: FastLanes>(
    input: &[[W; FL_CHUNK_SIZE]],
    bases: &[W],
    output: &mut [[W; FL_CHUNK_SIZE]],
) {
    let mut rest = bases;
    for (from, to) in input.iter().zip(output.iter_mut()) {
        if rest.len() < W::LANES {
            return;
        }
        let (first, others) = rest.split_at(W::LANES);
        delta(from, first, to);
        rest = others;
    }
}

/// The items of each block's deltas, as far as there are bases.
pub(crate) fn undelta_all<W: FastLanes>(
    input: &[[W; FL_CHUNK_SIZE]],
    bases: &[W],
    output: &mut [[W; FL_CHUNK_SIZE]],
) {
    let mut rest = bases;
    for (from, to) in input.iter().zip(output.iter_mut()) {
        if rest.len() < W::LANES {
            return;
        }
        let (first, others) = rest.split_at(W::LANES);
        undelta(from, first, to);
        rest = others;
    }
}

/// The greatest of a block's indices.
fn greatest(indices: &[u16; FL_CHUNK_SIZE]) -> u16
    ensures { (q : ℕ) → q < 1024 → slice_index indices.now q ≤ result }
{
    let mut most = 0u16;
    for q in 0..FL_CHUNK_SIZE {
        most = most.max(indices[q]);
    }
    most
}

/// The items of each block's indices, as far as the indices are below the number of values.
pub(crate) fn rle_decode_all<W: FastLanes>(
    values: &[W],
    indices: &[[u16; FL_CHUNK_SIZE]],
    output: &mut [[W; FL_CHUNK_SIZE]],
) {
    for (from, to) in indices.iter().zip(output.iter_mut()) {
        if greatest(from) as usize >= values.len() {
            return;
        }
        rle_decode(values, from, to);
    }
}
