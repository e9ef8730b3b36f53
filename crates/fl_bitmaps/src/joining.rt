//! Bitmaps of answers that are joined byte by byte.

ghost use Rattle.std.specs.Prelude.{◌≡◌, ◌≢◌, ◌<◌, ℕ, [], length};
ghost use Rattle.fl_bitmaps.specs.Operators.{IsJoin, answers_at};

use crate::operators::{ALL_KNOWN, Answers, Operator};

/// Joins answers that are all known.
pub(crate) fn join_known<O: Operator>(bits: &mut [u8], other: &[u8])
    requires { length other.now ≡ length bits.old }
    ensures { (k : ℕ) → k < length bits.old → IsJoin O.of (answers_at bits.old [] k) (answers_at other.now [] k) (answers_at bits.new [] k) }
{
    for k in 0..bits.len() {
        let left = Answers {
            bits: bits[k],
            known: ALL_KNOWN,
        };
        let right = Answers {
            bits: other[k],
            known: ALL_KNOWN,
        };
        bits[k] = O::join(left, right).bits;
    }
}

/// Joins the answers at byte `k` with others.
fn join_at<O: Operator>(bits: &mut [u8], validity: &mut [u8], k: usize, right: Answers)
    requires within { k < length bits.old }
    requires long { length validity.old ≡ length bits.old }
    ensures here { IsJoin O.of (answers_at bits.old validity.old k) right (answers_at bits.new validity.new k) }
    ensures others { (i : ℕ) → i ≢ k → answers_at bits.new validity.new i ≡ answers_at bits.old validity.old i }
{
    let left = Answers {
        bits: bits[k],
        known: validity[k],
    };
    let joined = O::join(left, right);
    bits[k] = joined.bits;
    validity[k] = joined.known;
}

/// Joins answers with others that are all known.
pub(crate) fn join_with_known<O: Operator>(bits: &mut [u8], validity: &mut [u8], other: &[u8])
    requires validity { length validity.old ≡ length bits.old }
    requires other { length other.now ≡ length bits.old }
    ensures { (k : ℕ) → k < length bits.old → IsJoin O.of (answers_at bits.old validity.old k) (answers_at other.now [] k) (answers_at bits.new validity.new k) }
{
    for k in 0..bits.len() {
        let right = Answers {
            bits: other[k],
            known: ALL_KNOWN,
        };
        join_at::<O>(bits, validity, k, right);
    }
}

/// Joins answers with others.
pub(crate) fn join_each<O: Operator>(
    bits: &mut [u8],
    validity: &mut [u8],
    other: &[u8],
    other_validity: &[u8],
)
    requires validity { length validity.old ≡ length bits.old }
    requires other { length other.now ≡ length bits.old }
    requires other_validity { length other_validity.now ≡ length bits.old }
    ensures { (k : ℕ) → k < length bits.old → IsJoin O.of (answers_at bits.old validity.old k) (answers_at other.now other_validity.now k) (answers_at bits.new validity.new k) }
{
    for k in 0..bits.len() {
        let right = Answers {
            bits: other[k],
            known: other_validity[k],
        };
        join_at::<O>(bits, validity, k, right);
    }
}
