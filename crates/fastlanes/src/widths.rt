//! Where a row's bits are, and a kernel for each width.
#![tactic(auto)]

ghost use Rattle.std.specs.Prelude.{◌≡◌, ◌+◌, ◌-◌, ◌*◌, ◌/◌, ◌%◌, ◌^◌, ◌<◌, ◌≤◌};

use crate::words::FastLanes;

/// The bits of a word.
#[inline(always)]
pub(crate) fn bits<W: FastLanes>() -> usize
    ensures { result ≡ W.T }
{
    W::T
}

/// The lanes of a block.
#[inline(always)]
pub(crate) fn lanes<W: FastLanes>() -> usize
    ensures { result ≡ W.LANES }
{
    W::LANES
}

/// The word of a lane's stream in which row `r` begins, and the bit of this word.
#[inline(always)]
#[tactic(auto, using(crate::proofs::Streams::row_times_width, crate::proofs::Steps::begins))]
pub(crate) fn row_start<W: FastLanes>(width: usize, r: usize) -> (usize, usize)
    requires some { 0 < width }
    requires width { width ≤ W.T }
    requires row { r < W.T }
    ensures word { result.0 ≡ r * width / W.T }
    ensures bit { result.1 ≡ r * width % W.T }
    ensures below { result.0 < width }
    ensures within { result.1 < W.T }
{
    let at = r * width;
    let t = bits::<W>();
    (at / t, at % t)
}

/// The numbers whose low bits alone are set: no bit, one bit, and so on up to 64.
static LOW_BITS: [u64; 65] = [
    0x0,
    0x1,
    0x3,
    0x7,
    0xf,
    0x1f,
    0x3f,
    0x7f,
    0xff,
    0x1ff,
    0x3ff,
    0x7ff,
    0xfff,
    0x1fff,
    0x3fff,
    0x7fff,
    0xffff,
    0x1ffff,
    0x3ffff,
    0x7ffff,
    0xfffff,
    0x1fffff,
    0x3fffff,
    0x7fffff,
    0xffffff,
    0x1ffffff,
    0x3ffffff,
    0x7ffffff,
    0xfffffff,
    0x1fffffff,
    0x3fffffff,
    0x7fffffff,
    0xffffffff,
    0x1ffffffff,
    0x3ffffffff,
    0x7ffffffff,
    0xfffffffff,
    0x1fffffffff,
    0x3fffffffff,
    0x7fffffffff,
    0xffffffffff,
    0x1ffffffffff,
    0x3ffffffffff,
    0x7ffffffffff,
    0xfffffffffff,
    0x1fffffffffff,
    0x3fffffffffff,
    0x7fffffffffff,
    0xffffffffffff,
    0x1ffffffffffff,
    0x3ffffffffffff,
    0x7ffffffffffff,
    0xfffffffffffff,
    0x1fffffffffffff,
    0x3fffffffffffff,
    0x7fffffffffffff,
    0xffffffffffffff,
    0x1ffffffffffffff,
    0x3ffffffffffffff,
    0x7ffffffffffffff,
    0xfffffffffffffff,
    0x1fffffffffffffff,
    0x3fffffffffffffff,
    0x7fffffffffffffff,
    0xffffffffffffffff,
];

/// The number whose low `width` bits alone are set.
///
/// It is a table because a load takes less than a shift by a variable.
#[inline(always)]
pub(crate) fn low_bits(width: usize) -> u64
    requires { width ≤ 64 }
    ensures { result ≡ 2 ^ width - 1 }
{
    LOW_BITS[width]
}

/// The index of word `k` of the first lane of group `g`, which those of its other lanes follow.
#[inline(always)]
#[tactic(auto, using(crate::proofs::Steps::group_fits))]
pub(crate) fn group_start<W: FastLanes>(width: usize, k: usize, g: usize) -> usize
    requires width { width ≤ W.T }
    requires word { k < width }
    requires group { 16 * g + 16 ≤ W.LANES }
    ensures place { result ≡ k * W.LANES + 16 * g }
    ensures room { result + 16 ≤ width * W.LANES }
{
    k * lanes::<W>() + 16 * g
}

/// Calls a kernel with its width as a constant: the first of eight widths, and how far the width is above it.
macro_rules! at_eight {
    ($more:expr, $kernel:ident, [$($given:ident),*], $args:tt) => {
        match $more {
            0 => $kernel::<$($given,)* 0> $args,
            1 => $kernel::<$($given,)* 1> $args,
            2 => $kernel::<$($given,)* 2> $args,
            3 => $kernel::<$($given,)* 3> $args,
            4 => $kernel::<$($given,)* 4> $args,
            5 => $kernel::<$($given,)* 5> $args,
            6 => $kernel::<$($given,)* 6> $args,
            _ => $kernel::<$($given,)* 7> $args,
        }
    };
}

pub(crate) use at_eight;
