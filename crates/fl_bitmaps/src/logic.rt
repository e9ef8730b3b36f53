//! The answers of two bitmaps joined by SQL's logic, written over the first.

ghost use Rattle.std.specs.Prelude.{◌≡◌, OnErr, OnOk, length};
ghost use Rattle.fl_bitmaps.specs.Answers.{AreJoined, and_of, or_of, xor_of};
ghost use Rattle.fl_bitmaps.specs.Errors.{is_validity_len, joined_error, unless};

use crate::error::BitmapError;
use crate::joining::{join_each, join_known, join_with_known};
use crate::operators::{And, Operator, Or, Xor};

/// Whether so many bytes are a bitmap of the known ones of the answers in so many bytes.
pub(crate) fn is_validity_len(bytes: usize, bits: usize) -> bool
    ensures { result ≡ is_validity_len bytes bits }
{
    bytes == bits || bytes == 0
}

fn check_joined(
    bits: usize,
    validity: usize,
    other: usize,
    other_validity: usize,
) -> Result<(), BitmapError>
    ensures { result ≡ unless (joined_error bits validity other other_validity) tt }
{
    let fit = is_validity_len(validity, bits) && is_validity_len(other_validity, bits);
    if other != bits || !fit {
        return Err(BitmapError::WrongLength);
    }
    if validity == 0 && other_validity != 0 {
        return Err(BitmapError::ValidityLength);
    }
    Ok(())
}

fn join<O: Operator>(
    bits: &mut [u8],
    validity: &mut [u8],
    other: &[u8],
    other_validity: &[u8],
) -> Result<(), BitmapError>
    ensures answer { result ≡ unless (joined_error (length bits.old) (length validity.old) (length other.now) (length other_validity.now)) tt }
    ensures joined { OnOk result (AreJoined O.of (bits.old, validity.old) (other.now, other_validity.now) (bits.new, validity.new)) }
    ensures unwritten { OnErr result ((bits.new ≡ bits.old) × (validity.new ≡ validity.old)) }
{
    check_joined(
        bits.len(),
        validity.len(),
        other.len(),
        other_validity.len(),
    )?;
    if validity.is_empty() {
        join_known::<O>(bits, other);
    } else if other_validity.is_empty() {
        join_with_known::<O>(bits, validity, other);
    } else {
        join_each::<O>(bits, validity, other, other_validity);
    }
    Ok(())
}

/// Writes whether both answers are true: false where either is false, else not known where either is not. A bitmap of
/// validity has a byte for each byte of answers, or none where all are known.
///
/// # Errors
/// `WrongLength` where `other` has more or fewer bytes than `bits`, or a validity another number than these and none;
/// then `ValidityLength` where `other` alone has a validity. Nothing is written then.
pub fn and(
    bits: &mut [u8],
    validity: &mut [u8],
    other: &[u8],
    other_validity: &[u8],
) -> Result<(), BitmapError>
    ensures answer { result ≡ unless (joined_error (length bits.old) (length validity.old) (length other.now) (length other_validity.now)) tt }
    ensures joined { OnOk result (AreJoined and_of (bits.old, validity.old) (other.now, other_validity.now) (bits.new, validity.new)) }
    ensures unwritten { OnErr result ((bits.new ≡ bits.old) × (validity.new ≡ validity.old)) }
{
    join::<And>(bits, validity, other, other_validity)
}

/// Writes whether either answer is true: true where either is true, else not known where either is not.
///
/// # Errors
/// As of `and`.
pub fn or(
    bits: &mut [u8],
    validity: &mut [u8],
    other: &[u8],
    other_validity: &[u8],
) -> Result<(), BitmapError>
    ensures answer { result ≡ unless (joined_error (length bits.old) (length validity.old) (length other.now) (length other_validity.now)) tt }
    ensures joined { OnOk result (AreJoined or_of (bits.old, validity.old) (other.now, other_validity.now) (bits.new, validity.new)) }
    ensures unwritten { OnErr result ((bits.new ≡ bits.old) × (validity.new ≡ validity.old)) }
{
    join::<Or>(bits, validity, other, other_validity)
}

/// Writes whether the answers differ: not known where either is not.
///
/// # Errors
/// As of `and`.
pub fn xor(
    bits: &mut [u8],
    validity: &mut [u8],
    other: &[u8],
    other_validity: &[u8],
) -> Result<(), BitmapError>
    ensures answer { result ≡ unless (joined_error (length bits.old) (length validity.old) (length other.now) (length other_validity.now)) tt }
    ensures joined { OnOk result (AreJoined xor_of (bits.old, validity.old) (other.now, other_validity.now) (bits.new, validity.new)) }
    ensures unwritten { OnErr result ((bits.new ≡ bits.old) × (validity.new ≡ validity.old)) }
{
    join::<Xor>(bits, validity, other, other_validity)
}
