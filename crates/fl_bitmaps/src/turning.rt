//! Answers that are turned.

ghost use Rattle.std.specs.Prelude.{◌≡◌, ◌<◌, ◌≤◌, ◌*◌, ℕ, List, OnErr, OnOk, length, map, not, slice_index};
ghost use Rattle.fl_types.specs.Bits.{bit_of_word};
ghost use Rattle.fl_column.specs.Bitmaps.{bit_in, bitmap_len};
ghost use Rattle.fl_bitmaps.specs.Answers.{answers_in, not_of};
ghost use Rattle.fl_bitmaps.specs.Bitmaps.{IsClearFrom};
ghost use Rattle.fl_bitmaps.specs.Errors.{turned_error, unless};

use crate::error::BitmapError;
use fl_column::bitmaps::bitmap_len;

/// The byte with each bit turned.
fn turned(byte: u8) -> u8
    ensures { (j : ℕ) → j < 8 → bit_of_word result j ≡ not (bit_of_word byte j) }
{
    !byte
}

/// Turns each bit.
fn turn(bits: &mut [u8])
    ensures { (i : ℕ) → i < 8 * length bits.old → bit_in bits.new i ≡ not (bit_in bits.old i) }
{
    for k in 0..bits.len() {
        bits[k] = turned(bits[k]);
    }
}

/// Clears the bits from `len` on of a bitmap of as many bytes as hold `len` bits.
fn clear_from(bits: &mut [u8], len: usize)
    requires { length bits.old ≡ bitmap_len len }
    ensures kept { (i : ℕ) → i < len → bit_in bits.new i ≡ bit_in bits.old i }
    ensures clear { IsClearFrom len bits.new }
{
    if len % 8 != 0 {
        bits[len / 8] &= (1 << (len % 8)) - 1;
    }
}

/// Turns the first `len` answers: true where they are false. Which of them are known stays. The bits behind them are 0.
///
/// # Errors
/// `WrongLength` where there are more or fewer bytes than hold them. Nothing is written then.
pub fn not(bits: &mut [u8], len: usize) -> Result<(), BitmapError>
    ensures answer { result ≡ unless (turned_error len (length bits.old)) tt }
    ensures turned { OnOk result ((validity : List ℕ) → answers_in len bits.new validity ≡ map not_of (answers_in len bits.old validity)) }
    ensures clear { OnOk result (IsClearFrom len bits.new) }
    ensures unwritten { OnErr result (bits.new ≡ bits.old) }
{
    if bits.len() != bitmap_len(len) {
        return Err(BitmapError::WrongLength);
    }
    turn(bits);
    clear_from(bits, len);
    Ok(())
}
