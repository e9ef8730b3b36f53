//! What is gathered of the items that a mask keeps, and where a value stands in a sorted array.

ghost use Rattle.std.specs.Prelude.{◌≡◌, ◌≢◌, ◌+◌, ◌*◌, ◌^◌, ◌+ℤ◌, ◌*ℤ◌, IfOk, IfSome, IsTrue, None, Ok, Some, false, length, map, option_map, pos, true};
ghost use Rattle.fl_types.specs.declared.dtype.PType.TheVariants.{U64};
ghost use Rattle.fl_types.specs.Masks.{mask_len};
ghost use Rattle.fl_types.specs.Refusals.{Answers};
ghost use Rattle.fl_array.specs.Trees.{Primitive, column};
ghost use Rattle.fl_column.specs.Bitmaps.{bitmap_len, bits_in};
ghost use Rattle.fl_column.specs.Columns.{non_nullable};
ghost use Rattle.fl_column.specs.Queries.{are_sorted, holds};
ghost use Rattle.fl_scan.specs.Bounds.{lower_bound_of};
ghost use Rattle.fl_scan.specs.Indices.{positions_of};
ghost use Rattle.fl_scan.specs.Totals.{count_of, greatest_item, least_item, sum_of};
ghost use Rattle.flcol_c.specs.Aggregates.{AreExtremes, type_fault};
ghost use Rattle.flcol_c.specs.Answering.{operator_of};
ghost use Rattle.flcol_c.specs.Held.{IsKept, IsStatusOn};
ghost use Rattle.flcol_c.specs.Operations.{mask_fault, mask_in};
ghost use Rattle.flcol_c.specs.Selections.{bitmap_fault, kept_by, kept_count_fault, kept_fault, kept_sum_fault};
ghost use Rattle.flcol_c.specs.Statuses.{GivesAfter, IsStatusAfter};

use crate::aggregates::{scalar_of, words_of_signed, words_of_unsigned};
use crate::answering::operator_of;
use crate::fault::{DONE, Fault};
use crate::handle::ArrayHandle;
use crate::kept::keep;
use crate::reading::is_of;
use fl_array::{ArrayRef, IntoArray};
use fl_column::bitmaps::{bitmap_len, bits_of};
use fl_column::{DType, NativePType};
use fl_scan::Sum;
use fl_types::{FastLanesError, Mask};
use std::alloc::Global;

/// The mask of a bitmap that has a bit for each of so many items.
///
/// # Errors
/// Only `OutOfMemory`.
fn mask_of(alloc: Global, bitmap: &[u8], len: usize) -> Result<Mask, FastLanesError>
    requires { length bitmap.now ≡ bitmap_len len }
    ensures mask { Answers (λ m. m) result (Ok (mask_in bitmap.now len)) }
    ensures long { IfOk result (λ m. mask_len m ≡ len) }
{
    Ok(Mask::Values(bits_of(alloc, bitmap, len)?))
}

/// The mask of a bitmap for the items of an array.
///
/// # Errors
/// `MaskLength` where the bytes are not those of a bit for each item.
#[tactic(auto, using(crate::proofs::StatusLaws::refused))]
pub(crate) fn mask_for(alloc: Global, array: &ArrayRef, bitmap: &[u8]) -> Result<Mask, Fault>
    ensures mask { GivesAfter (mask_fault (length bitmap.now) (column array.now)) None (λ m. m ≡ mask_in bitmap.now (length (column array.now).items)) result }
    ensures long { IfOk result (λ m. mask_len m ≡ length (column array.now).items) }
{
    let len = array.len();
    if bitmap.len() != bitmap_len(len) {
        return Err(Fault::Refused(FastLanesError::MaskLength));
    }
    Ok(mask_of(alloc, bitmap, len)?)
}

/// How many of the items that a mask keeps are valid and compare so with a constant.
///
/// # Errors
/// `BadOperator`; `WrongType` where the array is not of integers of this type; `MaskLength`.
#[tactic(auto, using(crate::proofs::StatusLaws::refused))]
fn count_kept<T: NativePType>(
    alloc: Global,
    array: &ArrayRef,
    mask: &[u8],
    operator: u8,
    constant: T,
) -> Result<usize, Fault>
    ensures { GivesAfter (kept_count_fault T.PTYPE operator (length mask.now) (column array.now)) None (λ n. IfSome (operator_of operator) (λ op. n ≡ count_of (holds op (T.value constant)) (kept_by mask.now (column array.now)))) result }
{
    let Some(operator) = operator_of(operator) else {
        return Err(Fault::BadOperator);
    };
    if !is_of::<T>(array) {
        return Err(Fault::WrongType);
    }
    let mask = mask_for(alloc, array, mask)?;
    let constant = scalar_of(constant);
    Ok(fl_scan::count_under(alloc, array, &mask, operator, &constant)?)
}

/// The least and the greatest valid item that a mask keeps, if it keeps one.
///
/// # Errors
/// `WrongType` where the array is not of integers of this type; `MaskLength`.
#[tactic(auto, using(crate::proofs::StatusLaws::refused))]
fn extremes_kept<T: NativePType>(
    alloc: Global,
    array: &ArrayRef,
    mask: &[u8],
) -> Result<Option<(T, T)>, Fault>
    ensures { GivesAfter (kept_fault T.PTYPE (length mask.now) (column array.now)) None (λ o. (option_map (λ p. T.value p.0) o ≡ least_item (kept_by mask.now (column array.now))) × (option_map (λ p. T.value p.1) o ≡ greatest_item (kept_by mask.now (column array.now)))) result }
{
    if !is_of::<T>(array) {
        return Err(Fault::WrongType);
    }
    let mask = mask_for(alloc, array, mask)?;
    match fl_scan::min_max_under(alloc, array, &mask)? {
        Some((least, greatest)) => Ok(Some((
            T::from_pvalue(least).unwrap(),
            T::from_pvalue(greatest).unwrap(),
        ))),
        None => Ok(None),
    }
}

/// The sum of the valid items that a mask keeps of integers without a sign.
///
/// # Errors
/// `WrongType` where the array is of others; `MaskLength`.
#[tactic(auto, using(crate::proofs::StatusLaws::refused))]
fn unsigned_sum_kept(alloc: Global, array: &ArrayRef, mask: &[u8]) -> Result<u128, Fault>
    ensures { GivesAfter (kept_sum_fault true (length mask.now) (column array.now)) None (λ n. pos n ≡ sum_of (kept_by mask.now (column array.now))) result }
{
    match array.dtype() {
        DType::Primitive(ptype, _) if ptype.is_unsigned() => (),
        _ => return Err(Fault::WrongType),
    }
    let mask = mask_for(alloc, array, mask)?;
    match fl_scan::sum_under(alloc, array, &mask)? {
        Sum::Unsigned(sum) => Ok(sum),
        Sum::Signed(_) => unreachable!(),
    }
}

/// The sum of the valid items that a mask keeps of integers with a sign.
///
/// # Errors
/// `WrongType` where the array is of others; `MaskLength`.
#[tactic(auto, using(crate::proofs::StatusLaws::refused))]
fn signed_sum_kept(alloc: Global, array: &ArrayRef, mask: &[u8]) -> Result<i128, Fault>
    ensures { GivesAfter (kept_sum_fault false (length mask.now) (column array.now)) None (λ z. z ≡ sum_of (kept_by mask.now (column array.now))) result }
{
    match array.dtype() {
        DType::Primitive(ptype, _) if !ptype.is_unsigned() => (),
        _ => return Err(Fault::WrongType),
    }
    let mask = mask_for(alloc, array, mask)?;
    match fl_scan::sum_under(alloc, array, &mask)? {
        Sum::Signed(sum) => Ok(sum),
        Sum::Unsigned(_) => unreachable!(),
    }
}

/// Writes how many of the items that a mask keeps are valid and compare so with a constant.
pub(crate) fn count_under<T: NativePType>(
    alloc: Global,
    array: &mut ArrayHandle,
    mask: &[u8],
    operator: u8,
    constant: T,
    count: &mut usize,
) -> i32
    ensures kept { IsKept array.old array.new }
    ensures status { IsStatusOn (λ t. kept_count_fault T.PTYPE operator (length mask.now) (column t)) (λ t. None) array.old.tree result }
    ensures counted { result ≡ pos 0 → IfSome array.old.tree (λ t. IfSome (operator_of operator) (λ op. count.new ≡ count_of (holds op (T.value constant)) (kept_by mask.now (column t)))) }
    ensures uncounted { result ≢ pos 0 → count.new ≡ count.old }
{
    let Some(source) = array.array() else {
        return Fault::NoArray.status();
    };
    match count_kept(alloc, source, mask, operator, constant) {
        Ok(items) => {
            *count = items;
            DONE
        }
        Err(fault) => fault.status(),
    }
}

/// Writes the least and the greatest valid item that a mask keeps and 0, or two zeros and 1 where it keeps none.
pub(crate) fn min_max_under<T: NativePType>(
    alloc: Global,
    array: &mut ArrayHandle,
    mask: &[u8],
    least: &mut T,
    greatest: &mut T,
    is_none: &mut u8,
) -> i32
    ensures kept { IsKept array.old array.new }
    ensures status { IsStatusOn (λ t. kept_fault T.PTYPE (length mask.now) (column t)) (λ t. None) array.old.tree result }
    ensures found { result ≡ pos 0 → IfSome array.old.tree (λ t. AreExtremes (kept_by mask.now (column t)) (T.value least.new) (T.value greatest.new) is_none.new) }
    ensures unfound { result ≢ pos 0 → (least.new ≡ least.old) × (greatest.new ≡ greatest.old) × (is_none.new ≡ is_none.old) }
{
    let Some(source) = array.array() else {
        return Fault::NoArray.status();
    };
    match extremes_kept::<T>(alloc, source, mask) {
        Ok(found) => {
            *is_none = u8::from(found.is_none());
            let (first, last) = found.unwrap_or((T::zero(), T::zero()));
            *least = first;
            *greatest = last;
            DONE
        }
        Err(fault) => fault.status(),
    }
}

/// Writes the sum of the valid items that a mask keeps of integers without a sign, by its two words.
pub(crate) fn sum_under_unsigned(
    alloc: Global,
    array: &mut ArrayHandle,
    mask: &[u8],
    high: &mut u64,
    low: &mut u64,
) -> i32
    ensures kept { IsKept array.old array.new }
    ensures status { IsStatusOn (λ t. kept_sum_fault true (length mask.now) (column t)) (λ t. None) array.old.tree result }
    ensures summed { result ≡ pos 0 → IfSome array.old.tree (λ t. pos (high.new * 2 ^ 64 + low.new) ≡ sum_of (kept_by mask.now (column t))) }
    ensures unsummed { result ≢ pos 0 → (high.new ≡ high.old) × (low.new ≡ low.old) }
{
    let Some(source) = array.array() else {
        return Fault::NoArray.status();
    };
    match unsigned_sum_kept(alloc, source, mask) {
        Ok(sum) => {
            (*high, *low) = words_of_unsigned(sum);
            DONE
        }
        Err(fault) => fault.status(),
    }
}

/// Writes the sum of the valid items that a mask keeps of integers with a sign, by its two words.
pub(crate) fn sum_under_signed(
    alloc: Global,
    array: &mut ArrayHandle,
    mask: &[u8],
    high: &mut i64,
    low: &mut u64,
) -> i32
    ensures kept { IsKept array.old array.new }
    ensures status { IsStatusOn (λ t. kept_sum_fault false (length mask.now) (column t)) (λ t. None) array.old.tree result }
    ensures summed { result ≡ pos 0 → IfSome array.old.tree (λ t. high.new *ℤ pos (2 ^ 64) +ℤ pos low.new ≡ sum_of (kept_by mask.now (column t))) }
    ensures unsummed { result ≢ pos 0 → (high.new ≡ high.old) × (low.new ≡ low.old) }
{
    let Some(source) = array.array() else {
        return Fault::NoArray.status();
    };
    match signed_sum_kept(alloc, source, mask) {
        Ok(sum) => {
            (*high, *low) = words_of_signed(sum);
            DONE
        }
        Err(fault) => fault.status(),
    }
}

/// The first position whose item is not below a value, of a sorted array.
///
/// # Errors
/// `WrongType` where the array is not of integers of this type.
#[tactic(auto, using(crate::proofs::StatusLaws::refused))]
fn position_of<T: NativePType>(alloc: Global, array: &ArrayRef, value: T) -> Result<usize, Fault>
    requires { IsTrue (are_sorted (column array.now).items) }
    ensures { GivesAfter (type_fault T.PTYPE (column array.now)) None (λ n. n ≡ lower_bound_of (T.value value) (column array.now)) result }
{
    if !is_of::<T>(array) {
        return Err(Fault::WrongType);
    }
    Ok(fl_scan::lower_bound(alloc, array, &scalar_of(value))?)
}

/// Writes the first position whose item is not below a value, of a sorted array.
pub(crate) fn lower_bound<T: NativePType>(
    alloc: Global,
    array: &mut ArrayHandle,
    value: T,
    position: &mut usize,
) -> i32
    requires sorted { IfSome array.old.tree (λ t. IsTrue (are_sorted (column t).items)) }
    ensures kept { IsKept array.old array.new }
    ensures status { IsStatusOn (λ t. type_fault T.PTYPE (column t)) (λ t. None) array.old.tree result }
    ensures found { result ≡ pos 0 → IfSome array.old.tree (λ t. position.new ≡ lower_bound_of (T.value value) (column t)) }
    ensures unfound { result ≢ pos 0 → position.new ≡ position.old }
{
    let Some(source) = array.array() else {
        return Fault::NoArray.status();
    };
    match position_of(alloc, source, value) {
        Ok(first) => {
            *position = first;
            DONE
        }
        Err(fault) => fault.status(),
    }
}

/// The positions of the set bits of the first `len`, as a plain array of `u64`.
///
/// # Errors
/// `WrongLength` where the bytes are not those of so many bits.
#[tactic(auto, using(crate::proofs::StatusLaws::refused))]
fn positions(alloc: Global, bits: &[u8], len: usize) -> Result<ArrayRef, Fault>
    ensures { GivesAfter (bitmap_fault (length bits.now) len) None (λ t. t ≡ Primitive (non_nullable U64 (map pos (positions_of (bits_in bits.now len))))) result }
{
    if bits.len() != bitmap_len(len) {
        return Err(Fault::WrongLength);
    }
    let bits = bits_of(alloc, bits, len)?;
    Ok(fl_scan::indices_of(alloc, &bits)?.into_array())
}

/// Makes a plain array of `u64` of the positions of the set bits of the first `len`.
pub(crate) fn indices_of(alloc: Global, bits: &[u8], len: usize, out: &mut ArrayHandle) -> i32
    ensures status { IsStatusAfter (bitmap_fault (length bits.now) len) None result }
    ensures made { result ≡ pos 0 → out.new.tree ≡ Some (Primitive (non_nullable U64 (map pos (positions_of (bits_in bits.now len))))) }
    ensures unmade { result ≢ pos 0 → out.new ≡ out.old }
{
    keep(out, alloc, positions(alloc, bits, len))
}
