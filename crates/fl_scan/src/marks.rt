//! Marks of the items that a mask keeps and that are not null.

ghost use Rattle.std.specs.Prelude.{◌≡◌, ◌&&◌, ◌<◌, ℕ, IfErr, IfOk, IsTrue, false, length, slice_index_or};
ghost use Rattle.fl_types.specs.declared.error.FastLanesError.TheVariants.{OutOfMemory};
ghost use Rattle.fl_types.specs.Masks.{mask_bits, mask_len};
ghost use Rattle.fl_types.specs.Validities.{covers, is_valid_at};

use fl_column::{BitList, FastLanesError, Mask, Validity};
use std::alloc::Global;

/// Whether both booleans are true, at each index.
fn both_true(alloc: Global, first: &BitList, second: &BitList) -> Result<BitList, FastLanesError>
    requires { length first.now ≡ length second.now }
    ensures len { IfOk result (λ both. length both ≡ length first.now) }
    ensures bits { IfOk result (λ both. (i : ℕ) → i < length first.now → slice_index_or both i false ≡ (slice_index_or first.now i false && slice_index_or second.now i false)) }
    ensures memory { IfErr result (λ e. e ≡ OutOfMemory) }
{
    let len = first.len();
    let mut both = BitList::with_capacity(alloc, len)?;
    for k in 0..len.div_ceil(64) {
        let count = (len - 64 * k).min(64);
        let left = first.word(k);
        let right = second.word(k);
        both.push_word(left & right, count)?;
    }
    Ok(both)
}

/// The marks of the items whose bits are set and that are not null.
fn marks_among(
    alloc: Global,
    bits: &BitList,
    validity: &Validity,
) -> Result<Validity, FastLanesError>
    requires { IsTrue (covers validity.now (length bits.now)) }
    ensures covers { IfOk result (λ marks. IsTrue (covers marks (length bits.now))) }
    ensures marks { IfOk result (λ marks. (i : ℕ) → i < length bits.now → is_valid_at marks i ≡ (slice_index_or bits.now i false && is_valid_at validity.now i)) }
    ensures memory { IfErr result (λ e. e ≡ OutOfMemory) }
{
    match validity {
        Validity::NonNullable | Validity::AllValid => Ok(Validity::Array(bits.try_clone(alloc)?)),
        Validity::AllInvalid => Ok(Validity::AllInvalid),
        Validity::Array(valid) => Ok(Validity::Array(both_true(alloc, bits, valid)?)),
    }
}

/// The marks of the items that a mask keeps and that are not null.
pub(crate) fn marks_of(
    alloc: Global,
    mask: &Mask,
    validity: Validity,
) -> Result<Validity, FastLanesError>
    requires { IsTrue (covers validity (mask_len mask.now)) }
    ensures covers { IfOk result (λ marks. IsTrue (covers marks (mask_len mask.now))) }
    ensures marks { IfOk result (λ marks. (i : ℕ) → i < mask_len mask.now → is_valid_at marks i ≡ (slice_index_or (mask_bits mask.now) i false && is_valid_at validity i)) }
    ensures memory { IfErr result (λ e. e ≡ OutOfMemory) }
{
    match mask {
        Mask::AllTrue(_) => Ok(validity),
        Mask::AllFalse(_) => Ok(Validity::AllInvalid),
        Mask::Values(bits) => marks_among(alloc, bits, &validity),
    }
}
