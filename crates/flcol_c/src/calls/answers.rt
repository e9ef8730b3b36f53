//! The calls that join, turn and count answers.

ghost use Rattle.std.specs.Prelude.{◌≡◌, ◌≢◌, ℕ, List, count_by, length, map, pos};
ghost use Rattle.fl_bitmaps.specs.Answers.{AreJoined, and_of, answers_in, is_true, not_of, or_of, xor_of};
ghost use Rattle.fl_bitmaps.specs.Bitmaps.{IsClearFrom};
ghost use Rattle.fl_bitmaps.specs.Errors.{counted_error, joined_error, turned_error};
ghost use Rattle.flcol_c.specs.Logic.{bitmaps_status};

use crate::fault::{DONE, Fault};
use crate::logic::status_of_bitmaps;
use fl_bitmaps::{and, count, not, or, xor};

/// Writes over the answers whether both they and the others are true: false where either is false, else null where either is.
#[unsafe(no_mangle)]
pub extern "C" fn flcol_and(
    bits: &mut [u8],
    validity: &mut [u8],
    other: &[u8],
    other_validity: &[u8],
) -> i32
    ensures status { result ≡ bitmaps_status (joined_error (length bits.old) (length validity.old) (length other.now) (length other_validity.now)) }
    ensures joined { result ≡ pos 0 → AreJoined and_of (bits.old, validity.old) (other.now, other_validity.now) (bits.new, validity.new) }
    ensures unwritten { result ≢ pos 0 → (bits.new ≡ bits.old) × (validity.new ≡ validity.old) }
{
    status_of_bitmaps(and(bits, validity, other, other_validity))
}

/// Writes over the answers whether they or the others are true: true where either is true, else null where either is.
#[unsafe(no_mangle)]
pub extern "C" fn flcol_or(
    bits: &mut [u8],
    validity: &mut [u8],
    other: &[u8],
    other_validity: &[u8],
) -> i32
    ensures status { result ≡ bitmaps_status (joined_error (length bits.old) (length validity.old) (length other.now) (length other_validity.now)) }
    ensures joined { result ≡ pos 0 → AreJoined or_of (bits.old, validity.old) (other.now, other_validity.now) (bits.new, validity.new) }
    ensures unwritten { result ≢ pos 0 → (bits.new ≡ bits.old) × (validity.new ≡ validity.old) }
{
    status_of_bitmaps(or(bits, validity, other, other_validity))
}

/// Writes over the answers whether they differ from the others: null where either is.
#[unsafe(no_mangle)]
pub extern "C" fn flcol_xor(
    bits: &mut [u8],
    validity: &mut [u8],
    other: &[u8],
    other_validity: &[u8],
) -> i32
    ensures status { result ≡ bitmaps_status (joined_error (length bits.old) (length validity.old) (length other.now) (length other_validity.now)) }
    ensures joined { result ≡ pos 0 → AreJoined xor_of (bits.old, validity.old) (other.now, other_validity.now) (bits.new, validity.new) }
    ensures unwritten { result ≢ pos 0 → (bits.new ≡ bits.old) × (validity.new ≡ validity.old) }
{
    status_of_bitmaps(xor(bits, validity, other, other_validity))
}

/// Turns the first `len` answers. The bits behind them are 0.
#[unsafe(no_mangle)]
pub extern "C" fn flcol_not(bits: &mut [u8], len: usize) -> i32
    ensures status { result ≡ bitmaps_status (turned_error len (length bits.old)) }
    ensures turned { result ≡ pos 0 → (validity : List ℕ) → answers_in len bits.new validity ≡ map not_of (answers_in len bits.old validity) }
    ensures clear { result ≡ pos 0 → IsClearFrom len bits.new }
    ensures unwritten { result ≢ pos 0 → bits.new ≡ bits.old }
{
    status_of_bitmaps(not(bits, len))
}

/// Writes how many of the first `len` answers are true.
#[unsafe(no_mangle)]
pub extern "C" fn flcol_count_bits(
    bits: &[u8],
    validity: &[u8],
    len: usize,
    total: &mut usize,
) -> i32
    ensures status { result ≡ bitmaps_status (counted_error len (length bits.now) (length validity.now)) }
    ensures found { result ≡ pos 0 → total.new ≡ count_by is_true (answers_in len bits.now validity.now) }
    ensures unfound { result ≢ pos 0 → total.new ≡ total.old }
{
    match count(bits, validity, len) {
        Ok(answers) => {
            *total = answers;
            DONE
        }
        Err(error) => Fault::from(error).status(),
    }
}
