//! Which items are null, written for C.

ghost use Rattle.std.specs.Prelude.{◌≡◌, ◌<◌, ℕ, IsTrue, None, length};
ghost use Rattle.fl_types.specs.Validities.{covers, is_valid_at};
ghost use Rattle.fl_column.specs.Bitmaps.{bit_in, bitmap_len};
ghost use Rattle.fl_bitmaps.specs.Bitmaps.{IsClearFrom, validity_in};
ghost use Rattle.flcol_c.specs.Bitmaps.{null_total, room_fault};

use crate::bitmaps::write_run;
use crate::fault::Fault;
use fl_column::bitmaps::{bitmap_len, write_bits};
use fl_types::{FastLanesError, Validity};

/// How many of `len` items are null.
#[tactic(auto, using(crate::proofs::ValidityLaws::few_are_true))]
pub(crate) fn null_count(validity: &Validity, len: usize) -> usize
    requires { IsTrue (covers validity.now len) }
    ensures { result ≡ null_total validity.now len }
{
    match validity {
        Validity::NonNullable | Validity::AllValid => 0,
        Validity::AllInvalid => len,
        Validity::Array(bits) => bits.len() - bits.count_true(),
    }
}

/// Why so many bytes are no room for the bitmap of the valid ones of `len` items, if they are none.
pub(crate) fn room_fault(bytes: usize, validity: &Validity, len: usize) -> Option<Fault>
    requires { IsTrue (covers validity.now len) }
    ensures { result ≡ room_fault bytes len (null_total validity.now len) }
{
    if bytes == bitmap_len(len) {
        return None;
    }
    if bytes != 0 {
        return Some(Fault::WrongLength);
    }
    if null_count(validity, len) == 0 {
        return None;
    }
    Some(Fault::Refused(FastLanesError::ValidityLength))
}

/// Writes which of `len` items are valid, a bit each. Bits after theirs are not set.
fn write_bitmap(bitmap: &mut [u8], validity: &Validity, len: usize)
    requires covers { IsTrue (covers validity.now len) }
    requires room { length bitmap.old ≡ bitmap_len len }
    ensures valid { (i : ℕ) → i < len → bit_in bitmap.new i ≡ is_valid_at validity.now i }
    ensures clear { IsClearFrom len bitmap.new }
{
    match validity {
        Validity::NonNullable | Validity::AllValid => write_run(bitmap, len, true),
        Validity::AllInvalid => write_run(bitmap, len, false),
        Validity::Array(bits) => write_bits(bitmap, bits),
    }
}

/// Writes which of `len` items are valid, or nothing where there is no byte. Bits after theirs are not set.
pub(crate) fn write_validity(bitmap: &mut [u8], validity: &Validity, len: usize)
    requires covers { IsTrue (covers validity.now len) }
    requires room { room_fault (length bitmap.old) len (null_total validity.now len) ≡ None }
    ensures valid { (i : ℕ) → i < len → is_valid_at (validity_in bitmap.new len) i ≡ is_valid_at validity.now i }
    ensures clear { IsClearFrom len bitmap.new }
{
    if bitmap.is_empty() {
        return;
    }
    write_bitmap(bitmap, validity, len);
}
