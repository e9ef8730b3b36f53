//! The bits of a comparison, moved from the order of the lanes into the order of the items.
#![tactic(auto)]

ghost use Rattle.std.specs.Prelude.{◌≡◌, ℕ, ◌+◌, ◌*◌, ◌/◌, ◌%◌, ◌<◌, ◌≤◌, ◌⊎◌, nat_le, length, slice_index};
ghost use Rattle.fastlanes.specs.Layout.{place, row_of, lane_of};
ghost use Rattle.fastlanes.specs.Compared.{is_bit_set, has_bit};
ghost use Rattle.fastlanes.specs.Deinterleaved.{deinterleaved};

use crate::proof_support::prove_bytes_fit;
use crate::widths::bits;
use crate::words::FastLanes;
use std::simd::{u8x16, u8x64};

/// The words as bytes, the low byte first.
fn bytes_of_words(words: &[u64; 16], bytes: &mut [u8; 128])
    ensures bits { (i : ℕ) → i < 1024 → has_bit words.now i ≡ is_bit_set (slice_index bytes.new (i / 8)) (i % 8) }
    ensures whole { length bytes.new ≡ 128 }
{
    for k in 0..16usize {
        words[k].put_word(bytes, k);
    }
    prove_bytes_fit(bytes);
}

/// The bytes at even places among the 32 bytes from `from` on, and those at odd places.
#[inline(always)]
fn evens_and_odds(source: &[u8], from: usize) -> (u8x16, u8x16)
    requires { from + 32 ≤ length source.now }
    ensures evens { (j : ℕ) → j < 16 → slice_index result.0 j ≡ slice_index source.now (from + 2 * j) }
    ensures odds { (j : ℕ) → j < 16 → slice_index result.1 j ≡ slice_index source.now (from + 2 * j + 1) }
    ensures whole_evens { length result.0 ≡ 16 }
    ensures whole_odds { length result.1 ≡ 16 }
{
    let first = u8x16::from_slice(&source[from..]);
    let second = u8x16::from_slice(&source[from + 16..]);
    first.deinterleave(second)
}

/// Writes the bytes at even places among the 32 bytes from `from` on to `even`, and those at odd places to `odd`.
#[inline(always)]
fn deinterleave_bytes(source: &[u8], from: usize, bytes: &mut [u8], even: usize, odd: usize)
    requires from { from + 32 ≤ length source.now }
    requires apart { even + 16 ≤ odd }
    requires room { odd + 16 ≤ length bytes.old }
    ensures evens { (j : ℕ) → j < 16 → slice_index bytes.new (even + j) ≡ slice_index source.now (from + 2 * j) }
    ensures odds { (j : ℕ) → j < 16 → slice_index bytes.new (odd + j) ≡ slice_index source.now (from + 2 * j + 1) }
    ensures others { (i : ℕ) → (i < even) ⊎ (even + 16 ≤ i) → (i < odd) ⊎ (odd + 16 ≤ i) → slice_index bytes.new i ≡ slice_index bytes.old i }
    ensures whole { length bytes.new ≡ length bytes.old }
{
    let (evens, odds) = evens_and_odds(source, from);
    evens.copy_to_slice(&mut bytes[even..]);
    odds.copy_to_slice(&mut bytes[odd..]);
}

/// The bytes with each part of `size` bytes deinterleaved: its bytes at even places before those at odd places.
#[inline(always)]
fn deinterleave(source: &[u8; 128], size: usize) -> [u8; 128]
    requires { size ≡ 128 ⊎ size ≡ 64 ⊎ size ≡ 32 }
    ensures moved { (n : ℕ) → n < 128 → slice_index result (deinterleaved size n) ≡ slice_index source.now n }
    ensures whole { length result ≡ 128 }
{
    let mut bytes = [0; 128];
    for k in 0..4usize {
        let even = 32 * k / size * size + 32 * k % size / 2;
        deinterleave_bytes(source, 32 * k, &mut bytes, even, even + size / 2);
    }
    bytes
}

/// Moves the byte that holds eight rows of a lane to the position of the first of these rows.
#[inline(always)]
fn gather_bytes<W: FastLanes>(source: &[u8; 128]) -> [u8; 128]
    ensures moved { (m : ℕ) → m < 128 → slice_index result m ≡ slice_index source.now (lane_of W.LANES m * (W.T / 8) + row_of W.LANES m / 8) }
    ensures whole { length result ≡ 128 }
{
    match bits::<W>() {
        8 => *source,
        16 => deinterleave(source, 128),
        32 => deinterleave(&deinterleave(source, 128), 64),
        _ => deinterleave(&deinterleave(&deinterleave(source, 128), 64), 32),
    }
}

/// The top bits of 64 bytes, the first byte's in the lowest bit.
#[inline(always)]
fn top_bits(vector: u8x64) -> u64
    requires { length vector ≡ 64 }
    ensures { (m : ℕ) → m < 64 → is_bit_set result m ≡ nat_le 128 (slice_index vector m) }
{
    vector.simd_ge(u8x64::splat(128)).to_bitmask()
}

/// Writes each bit of the bytes: two words for bit 0, then two for bit 1, and so on.
#[inline(always)]
fn write_bits(bytes: &[u8], output: &mut [u64; 16])
    requires { length bytes.now ≡ 128 }
    ensures bits { (j m : ℕ) → j < 16 → m < 64 → is_bit_set (slice_index output.new j) m ≡ is_bit_set (slice_index bytes.now (64 * (j % 2) + m)) (j / 2) }
    ensures whole { length output.new ≡ 16 }
{
    let mut low = u8x64::from_slice(&bytes[0..]);
    let mut high = u8x64::from_slice(&bytes[64..]);
    for s in 0..8usize {
        output[2 * (7 - s)] = top_bits(low);
        output[2 * (7 - s) + 1] = top_bits(high);
        low = low + low;
        high = high + high;
    }
}

/// Moves the bits that `unpack_cmp` writes into the order of the items.
///
/// Bit `pos(r, l)` of the output is bit `l * T + r` of the input.
pub fn transpose_bits<W: FastLanes>(input: &[u64; 16], output: &mut [u64; 16])
    ensures bits { (r l : ℕ) → r < W.T → l < W.LANES → has_bit output.new (place r l) ≡ has_bit input.now (l * W.T + r) }
    ensures whole { length output.new ≡ 16 }
{
    let mut source = [0u8; 128];
    bytes_of_words(input, &mut source);
    let bytes = gather_bytes::<W>(&source);
    write_bits(&bytes, output);
}
