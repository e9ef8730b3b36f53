//! Answers that are counted.

ghost use Rattle.std.specs.Prelude.{◌≡◌, ◌&&◌, ◌<◌, ◌≤◌, ◌*◌, ℕ, count_by, length};
ghost use Rattle.fl_types.specs.Bits.{tabulate, true_count};
ghost use Rattle.fl_column.specs.Bitmaps.{bit_in, bitmap_len};
ghost use Rattle.fl_bitmaps.specs.Answers.{answers_in, is_true};
ghost use Rattle.fl_bitmaps.specs.Errors.{counted_error, unless};

use crate::error::BitmapError;
use crate::logic::is_validity_len;
use fastlanes::FastLanes;
use fl_column::bitmaps::bitmap_len;

/// Whether bit `i` is set.
#[tactic(auto, unfolding(fl_column::specs::Bitmaps::bit_in, fl_types::specs::Bits::bit_of_word))]
fn bit_at(bitmap: &[u8], i: usize) -> bool
    requires { i < 8 * length bitmap.now }
    ensures { result ≡ bit_in bitmap.now i }
{
    bitmap[i / 8] >> (i % 8) & 1 == 1
}

/// Whether bit `i` is set in both bitmaps.
fn both_at(left: &[u8], right: &[u8], i: usize) -> bool
    requires left { i < 8 * length left.now }
    requires right { i < 8 * length right.now }
    ensures { result ≡ (bit_in left.now i && bit_in right.now i) }
{
    bit_at(left, i) && bit_at(right, i)
}

/// How many of the first `len` bits are set in both bitmaps.
fn count_both(left: &[u8], right: &[u8], len: usize) -> usize
    requires left { len ≤ 8 * length left.now }
    requires right { len ≤ 8 * length right.now }
    ensures { result ≡ true_count (tabulate (λ i. bit_in left.now i && bit_in right.now i) len) }
{
    let mut count = 0;
    for k in 0..len / 64 {
        count += (u64::word(left, k) & u64::word(right, k)).count_ones() as usize;
    }
    for i in len - len % 64..len {
        if both_at(left, right, i) {
            count += 1;
        }
    }
    count
}

fn check_counted(len: usize, bits: usize, validity: usize) -> Result<(), BitmapError>
    ensures { result ≡ unless (counted_error len bits validity) tt }
{
    if bits == bitmap_len(len) && is_validity_len(validity, bits) {
        Ok(())
    } else {
        Err(BitmapError::WrongLength)
    }
}

/// How many of the first `len` answers are true.
///
/// # Errors
/// `WrongLength` where there are more or fewer bytes than hold them, or the validity has another number than these
/// and none.
pub fn count(bits: &[u8], validity: &[u8], len: usize) -> Result<usize, BitmapError>
    ensures { result ≡ unless (counted_error len (length bits.now) (length validity.now)) (count_by is_true (answers_in len bits.now validity.now)) }
{
    check_counted(len, bits.len(), validity.len())?;
    if validity.is_empty() {
        Ok(count_both(bits, bits, len))
    } else {
        Ok(count_both(bits, validity, len))
    }
}
