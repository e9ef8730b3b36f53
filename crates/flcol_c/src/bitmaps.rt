//! Bitmaps of valid items as Arrow has them, and bitmaps whose bits are all the same.

ghost use Rattle.std.specs.Prelude.{◌≡◌, ◌<◌, ◌≤◌, ℕ, Ok, false, length, slice_index};
ghost use Rattle.fl_types.specs.Refusals.{Answers};
ghost use Rattle.fl_column.specs.Bitmaps.{bit_in, bitmap_len};
ghost use Rattle.fl_bitmaps.specs.Bitmaps.{IsClearFrom, validity_in};
ghost use Rattle.flcol_c.specs.Bitmaps.{is_short, short_fault};

use crate::fault::Fault;
use fl_column::bitmaps::{bitmap_len, bits_of};
use fl_types::{FastLanesError, Validity};
use std::alloc::Global;

/// Why a bitmap says not which of `len` items are valid, if it says it not: it has bytes, but fewer bits.
pub(crate) fn short_fault(bitmap: &[u8], len: usize) -> Option<Fault>
    ensures { result ≡ short_fault bitmap.now len }
{
    if bitmap.is_empty() || bitmap.len() >= bitmap_len(len) {
        return None;
    }
    Some(Fault::Refused(FastLanesError::ValidityLength))
}

/// Which of `len` items are valid. No item may be null where there is no byte.
///
/// # Errors
/// Only `OutOfMemory`.
pub(crate) fn validity_of(
    alloc: Global,
    bitmap: &[u8],
    len: usize,
) -> Result<Validity, FastLanesError>
    requires { is_short bitmap.now len ≡ false }
    ensures { Answers (λ v. v) result (Ok (validity_in bitmap.now len)) }
{
    if bitmap.is_empty() {
        return Ok(Validity::NonNullable);
    }
    Ok(Validity::Array(bits_of(alloc, bitmap, len)?))
}

/// Writes a byte at each index.
fn fill(bytes: &mut [u8], byte: u8)
    ensures { (k : ℕ) → k < length bytes.old → slice_index bytes.new k ≡ byte }
{
    for place in bytes.iter_mut() {
        *place = byte;
    }
}

/// Writes `len` bits that are all `on` to a bitmap of as many bytes as hold them. Bits after them are not set.
pub(crate) fn write_run(bitmap: &mut [u8], len: usize, on: bool)
    requires { length bitmap.old ≡ bitmap_len len }
    ensures bits { (i : ℕ) → i < len → bit_in bitmap.new i ≡ on }
    ensures clear { IsClearFrom len bitmap.new }
{
    if !on {
        fill(bitmap, 0);
        return;
    }
    fill(bitmap, u8::MAX);
    if len % 8 != 0 {
        bitmap[len / 8] = (1 << (len % 8)) - 1;
    }
}
