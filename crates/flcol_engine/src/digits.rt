//! Numbers of up to fifteen digits, sixteen bytes at a time.

ghost use Rattle.std.specs.Prelude.{◌≡◌, ◌<◌, ◌≤◌, ◌^◌, ℕ, List, IfSome, length, map, not, take};
ghost use Rattle.std.specs.Char.{is_ascii_digit};
ghost use Rattle.std.specs.List.{AllByRecursion, prefix_len};
ghost use Rattle.std.specs.Simd.Lanes.{mask_l, number_l};
ghost use Rattle.std.specs.Str.Parse.{digits_value};
ghost use Rattle.flcol_engine.specs.Digits.{BeginsWithNumber, IsDigitByte, number_in_halves};

use std::simd::prelude::*;

/// A bit for each byte that isn't a decimal digit.
#[inline(always)]
fn other_bytes(bytes: u8x16) -> u64
    ensures { result ≡ mask_l (map (λ b. not (is_ascii_digit b)) bytes) }
{
    (bytes - u8x16::splat(b'0'))
        .simd_ge(u8x16::splat(10))
        .to_bitmask()
}

/// How many decimal digits stand first.
#[inline(always)]
fn leading_digits(bytes: &[u8; 16]) -> usize
    ensures { result ≡ prefix_len is_ascii_digit bytes.now }
{
    let others = other_bytes(u8x16::from_array(*bytes));
    if others == 0 {
        16
    } else {
        others.trailing_zeros() as usize
    }
}

/// The number of eight decimal digits, each in the lower half of a byte, the first in the lowest byte.
#[inline(always)]
fn eight_digits(word: u64) -> u64
    ensures number { (bytes : List ℕ) → length bytes ≡ 8 → AllByRecursion IsDigitByte bytes → word ≡ number_l 256 bytes → result ≡ number_in_halves bytes }
    ensures bound { result < 2 ^ 32 }
{
    let ones = word & 0x0f0f_0f0f_0f0f_0f0f;
    let twos = ones.wrapping_mul(10).wrapping_add(ones >> 8) & 0x00ff_00ff_00ff_00ff;
    let fours = twos.wrapping_mul(100).wrapping_add(twos >> 16) & 0x0000_ffff_0000_ffff;
    fours.wrapping_mul(10_000).wrapping_add(fours >> 32) & 0xffff_ffff
}

/// The number that the first `count` bytes write.
#[inline(always)]
fn leading_number(bytes: &[u8; 16], count: usize) -> u64
    requires some { 0 < count }
    requires digits { count ≤ prefix_len is_ascii_digit bytes.now }
    ensures { result ≡ digits_value 10 (take count bytes.now) }
{
    let word = u128::from_le_bytes(*bytes) << (128 - 8 * count);
    let first = (word & u128::from(u64::MAX)) as u64;
    let second = (word >> 64) as u64;
    eight_digits(first) * 100_000_000 + eight_digits(second)
}

/// The number that the first line writes, and in how many digits. `None` where sixteen bytes don't
/// hold digits and the line feed behind them.
#[inline]
pub(crate) fn short_number(text: &[u8]) -> Option<(u64, usize)>
    ensures { IfSome result (λ r. BeginsWithNumber text.now r.0 r.1) }
{
    let bytes = text.first_chunk::<16>()?;
    let count = leading_digits(bytes);
    if count == 0 || count == 16 || bytes[count] != b'\n' {
        return None;
    }
    Some((leading_number(bytes, count), count))
}
