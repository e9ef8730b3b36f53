//! Which of the items that a mask keeps pass a test, as a mask for other arrays.

ghost use Rattle.std.specs.Prelude.{◌≡◌, ◌≢◌, IfOk, IfSome, IsTrue, None, Ok, OnErr, OnOk, length, pos};
ghost use Rattle.fl_types.specs.Masks.{mask_bits, mask_len};
ghost use Rattle.fl_types.specs.Refusals.{Answers};
ghost use Rattle.fl_types.specs.Types.{has_ptype};
ghost use Rattle.fl_array.specs.Trees.{column};
ghost use Rattle.fl_bitmaps.specs.Bitmaps.{IsClearFrom};
ghost use Rattle.fl_column.specs.Bitmaps.{bitmap_len, bits_in};
ghost use Rattle.fl_column.specs.Queries.{holds, is_between};
ghost use Rattle.fl_scan.specs.Selections.{passed_under};
ghost use Rattle.flcol_c.specs.Answering.{operator_of, options_of};
ghost use Rattle.flcol_c.specs.Held.{IsKept, IsStatusOn};
ghost use Rattle.flcol_c.specs.Selections.{AreThosePassed, kept_compare_fault, kept_test_fault};
ghost use Rattle.flcol_c.specs.Statuses.{GivesAfter};

use crate::aggregates::scalar_of;
use crate::answering::{operator_of, options_of};
use crate::bitmaps::write_run;
use crate::fault::{Fault, status_of};
use crate::handle::ArrayHandle;
use crate::reading::is_of;
use crate::selections::mask_for;
use fl_array::ArrayRef;
use fl_column::bitmaps::{bitmap_len, write_bits};
use fl_column::{BetweenOptions, CompareOperator, NativePType};
use fl_types::{FastLanesError, Mask};
use std::alloc::Global;

/// Writes a mask to a bitmap. Bits after its last one are not set.
fn write_mask(mask: &Mask, bitmap: &mut [u8])
    requires { length bitmap.old ≡ bitmap_len (mask_len mask.now) }
    ensures bits { bits_in bitmap.new (mask_len mask.now) ≡ mask_bits mask.now }
    ensures clear { IsClearFrom (mask_len mask.now) bitmap.new }
{
    match mask {
        Mask::AllTrue(len) => write_run(bitmap, *len, true),
        Mask::AllFalse(len) => write_run(bitmap, *len, false),
        Mask::Values(bits) => write_bits(bitmap, bits),
    }
}

/// Which of the items that a mask keeps are valid and compare so with a constant.
///
/// # Errors
/// Only `OutOfMemory`.
fn compared<T: NativePType>(
    alloc: Global,
    array: &ArrayRef,
    mask: &Mask,
    operator: CompareOperator,
    constant: T,
) -> Result<Mask, FastLanesError>
    requires typed { IsTrue (has_ptype T.PTYPE (column array.now).dtype) }
    requires long { mask_len mask.now ≡ length (column array.now).items }
    ensures passed { Answers mask_bits result (Ok (passed_under mask.now (holds operator (T.value constant)) (column array.now))) }
    ensures long { IfOk result (λ m. mask_len m ≡ length (column array.now).items) }
{
    fl_scan::compare_under(alloc, array, mask, operator, &scalar_of(constant))
}

/// Which of the items that a mask keeps are valid and lie between two bounds.
///
/// # Errors
/// Only `OutOfMemory`.
fn in_range<T: NativePType>(
    alloc: Global,
    array: &ArrayRef,
    mask: &Mask,
    bounds: (T, T),
    options: BetweenOptions,
) -> Result<Mask, FastLanesError>
    requires typed { IsTrue (has_ptype T.PTYPE (column array.now).dtype) }
    requires long { mask_len mask.now ≡ length (column array.now).items }
    ensures passed { Answers mask_bits result (Ok (passed_under mask.now (is_between options (T.value bounds.0) (T.value bounds.1)) (column array.now))) }
    ensures long { IfOk result (λ m. mask_len m ≡ length (column array.now).items) }
{
    let (lower, upper) = (scalar_of(bounds.0), scalar_of(bounds.1));
    fl_scan::between_under(alloc, array, mask, &lower, &upper, &options)
}

/// Writes which of the items that a mask keeps are valid and compare so with a constant.
///
/// # Errors
/// `BadOperator`; `WrongType` where the array is not of integers of this type; `WrongLength` where the bytes of the
/// answers are not those of a bitmap; `MaskLength` where those of the mask are not.
fn write_compared<T: NativePType>(
    alloc: Global,
    array: &ArrayRef,
    mask: &[u8],
    operator: u8,
    constant: T,
    bits: &mut [u8],
) -> Result<(), Fault>
    ensures passed { GivesAfter (kept_compare_fault T.PTYPE operator (length mask.now) (length bits.old) (column array.now)) None (λ _. IfSome (operator_of operator) (λ op. AreThosePassed (holds op (T.value constant)) mask.now (column array.now) bits.new)) result }
    ensures clear { OnOk result (IsClearFrom (length (column array.now).items) bits.new) }
    ensures unwritten { OnErr result (bits.new ≡ bits.old) }
{
    let Some(operator) = operator_of(operator) else {
        return Err(Fault::BadOperator);
    };
    if !is_of::<T>(array) {
        return Err(Fault::WrongType);
    }
    if bits.len() != bitmap_len(array.len()) {
        return Err(Fault::WrongLength);
    }
    let mask = mask_for(alloc, array, mask)?;
    let passed = compared(alloc, array, &mask, operator, constant)?;
    write_mask(&passed, bits);
    Ok(())
}

/// Writes which of the items that a mask keeps are valid and lie between two bounds, each left out where its number is
/// not 0.
///
/// # Errors
/// As of `write_compared`, but for the operator.
fn write_in_range<T: NativePType>(
    alloc: Global,
    array: &ArrayRef,
    mask: &[u8],
    bounds: (T, T),
    strict: (u8, u8),
    bits: &mut [u8],
) -> Result<(), Fault>
    ensures passed { GivesAfter (kept_test_fault T.PTYPE (length mask.now) (length bits.old) (column array.now)) None (λ _. AreThosePassed (is_between (options_of strict.0 strict.1) (T.value bounds.0) (T.value bounds.1)) mask.now (column array.now) bits.new) result }
    ensures clear { OnOk result (IsClearFrom (length (column array.now).items) bits.new) }
    ensures unwritten { OnErr result (bits.new ≡ bits.old) }
{
    if !is_of::<T>(array) {
        return Err(Fault::WrongType);
    }
    if bits.len() != bitmap_len(array.len()) {
        return Err(Fault::WrongLength);
    }
    let mask = mask_for(alloc, array, mask)?;
    let options = options_of(strict.0, strict.1);
    let passed = in_range(alloc, array, &mask, bounds, options)?;
    write_mask(&passed, bits);
    Ok(())
}

/// Writes which of the items that a mask keeps are valid and compare so with a constant.
pub(crate) fn compare_under<T: NativePType>(
    alloc: Global,
    array: &mut ArrayHandle,
    mask: &[u8],
    operator: u8,
    constant: T,
    bits: &mut [u8],
) -> i32
    ensures kept { IsKept array.old array.new }
    ensures status { IsStatusOn (λ t. kept_compare_fault T.PTYPE operator (length mask.now) (length bits.old) (column t)) (λ t. None) array.old.tree result }
    ensures passed { result ≡ pos 0 → IfSome array.old.tree (λ t. IfSome (operator_of operator) (λ op. AreThosePassed (holds op (T.value constant)) mask.now (column t) bits.new)) }
    ensures clear { result ≡ pos 0 → IfSome array.old.tree (λ t. IsClearFrom (length (column t).items) bits.new) }
    ensures unwritten { result ≢ pos 0 → bits.new ≡ bits.old }
{
    let Some(source) = array.array() else {
        return Fault::NoArray.status();
    };
    status_of(write_compared(alloc, source, mask, operator, constant, bits))
}

/// Writes which of the items that a mask keeps are valid and lie between two bounds, a bound itself left out where its
/// number is not 0.
pub(crate) fn between_under<T: NativePType>(
    alloc: Global,
    array: &mut ArrayHandle,
    mask: &[u8],
    bounds: (T, T),
    strict: (u8, u8),
    bits: &mut [u8],
) -> i32
    ensures kept { IsKept array.old array.new }
    ensures status { IsStatusOn (λ t. kept_test_fault T.PTYPE (length mask.now) (length bits.old) (column t)) (λ t. None) array.old.tree result }
    ensures passed { result ≡ pos 0 → IfSome array.old.tree (λ t. AreThosePassed (is_between (options_of strict.0 strict.1) (T.value bounds.0) (T.value bounds.1)) mask.now (column t) bits.new) }
    ensures clear { result ≡ pos 0 → IfSome array.old.tree (λ t. IsClearFrom (length (column t).items) bits.new) }
    ensures unwritten { result ≢ pos 0 → bits.new ≡ bits.old }
{
    let Some(source) = array.array() else {
        return Fault::NoArray.status();
    };
    status_of(write_in_range(alloc, source, mask, bounds, strict, bits))
}
