//! Bitmaps as Arrow has them: bit `i` is in byte `i / 8`, the lowest bit first. They are read and written by words of 64 bits.

ghost use Rattle.std.specs.Prelude.{◌≡◌, ◌<◌, ◌≤◌, ◌*◌, ℕ, IfOk, Ok, false, length, slice_index_or};
ghost use Rattle.fl_types.specs.Bits.{is_set};
ghost use Rattle.fl_types.specs.Refusals.{Answers};
ghost use Rattle.fl_column.specs.Bitmaps.{bit_in, bitmap_len, bits_in};

use fastlanes::FastLanes;
use fl_types::{BitList, FastLanesError};
use std::alloc::{AllocError, Global};

/// How many bytes hold this many bits.
pub fn bitmap_len(len: usize) -> usize
    ensures { result ≡ bitmap_len len }
{
    len / 8 + usize::from(len % 8 != 0)
}

/// Bit `i`.
#[tactic(auto, unfolding(crate::specs::Bitmaps::bit_in, fl_types::specs::Bits::bit_of_word))]
fn bit_at(bitmap: &[u8], i: usize) -> bool
    requires { i < 8 * length bitmap.now }
    ensures { result ≡ bit_in bitmap.now i }
{
    bitmap[i / 8] >> (i % 8) & 1 == 1
}

/// The first `count` words of 64 bits, with room for one more.
fn words_of(alloc: Global, bitmap: &[u8], count: usize) -> Result<Vec<u64>, AllocError>
    requires { 8 * count ≤ length bitmap.now }
    ensures count { IfOk result (λ v. length v.items ≡ count) }
    ensures bits { IfOk result (λ v. (i : ℕ) → i < 64 * count → is_set v.items i ≡ bit_in bitmap.now i) }
{
    let mut words = Vec::with_capacity(alloc, count + 1)?;
    for k in 0..count {
        words.push(u64::word(bitmap, k))?;
    }
    Ok(words)
}

/// The first `len` bits of a bitmap.
pub fn bits_of(alloc: Global, bitmap: &[u8], len: usize) -> Result<BitList, FastLanesError>
    requires { len ≤ 8 * length bitmap.now }
    ensures { Answers (λ b. b) result (Ok (bits_in bitmap.now len)) }
{
    let whole = len - len % 64;
    let words = words_of(alloc, bitmap, len / 64)?;
    let mut bits = BitList::from_words(words, 0, whole);
    for i in whole..len {
        bits.push(bit_at(bitmap, i))?;
    }
    Ok(bits)
}

/// Writes the bits to a bitmap of as many bytes as hold them. Bits after the last one are not set.
pub fn write_bits(bitmap: &mut [u8], bits: &BitList)
    requires { length bitmap.old ≡ bitmap_len (length bits.now) }
    ensures { (i : ℕ) → bit_in bitmap.new i ≡ slice_index_or bits.now i false }
{
    let whole = bits.len() / 64;
    for k in 0..whole {
        bits.word(k).put_word(bitmap, k);
    }
    for at in 8 * whole..bitmap.len() {
        bitmap[at] = ((bits.word(whole) >> (8 * (at - 8 * whole))) % 256) as u8;
    }
}
