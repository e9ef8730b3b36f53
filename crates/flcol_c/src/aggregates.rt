//! What is gathered of items: how many meet a test, the least and the greatest, the sum, and those that meet a test.

ghost use Rattle.std.specs.Prelude.{◌≡◌, ◌≢◌, ◌+◌, ◌*◌, ◌^◌, ◌+ℤ◌, ◌*ℤ◌, IfSome, None, Some, false, option_map, pos, true};
ghost use Rattle.fl_types.specs.declared.dtype.DType.TheVariants.{Primitive};
ghost use Rattle.fl_types.specs.declared.dtype.Nullability.TheVariants.{NonNullable};
ghost use Rattle.fl_types.specs.Values.{scalar_parts};
ghost use Rattle.fl_array.specs.Trees.{column};
ghost use Rattle.fl_column.specs.Queries.{holds, is_between};
ghost use Rattle.fl_scan.specs.Totals.{count_of, greatest_item, least_item, sum_of};
ghost use Rattle.flcol_c.specs.Aggregates.{AreExtremes, AreThosePassing, count_fault, sum_fault, type_fault};
ghost use Rattle.flcol_c.specs.Answering.{operator_of, options_of};
ghost use Rattle.flcol_c.specs.Held.{HoldsFrom, IsKept, IsStatusOn};
ghost use Rattle.flcol_c.specs.Statuses.{GivesAfter};

use crate::answering::{operator_of, options_of};
use crate::fault::{DONE, Fault};
use crate::handle::ArrayHandle;
use crate::kept::keep;
use crate::reading::is_of;
use fl_array::{ArrayRef, IntoArray};
use fl_column::{DType, NativePType, Nullability, Scalar};
use fl_scan::Sum;
use std::alloc::Global;

/// How many words of 64 bits there are.
const WORDS: u128 = 18_446_744_073_709_551_616;

/// A value as the scalar of its type.
pub(crate) fn scalar_of<T: NativePType>(value: T) -> Scalar
    ensures { scalar_parts result ≡ record { dtype = Primitive T.PTYPE NonNullable; value = Some (T.value value) } }
{
    Scalar::primitive(value.into_pvalue(), Nullability::NonNullable)
}

/// How many items are valid and compare so with a constant.
///
/// # Errors
/// `BadOperator`; `WrongType` where the array is not of integers of this type.
#[tactic(auto, using(crate::proofs::StatusLaws::refused))]
fn count_items<T: NativePType>(
    alloc: Global,
    array: &ArrayRef,
    operator: u8,
    constant: T,
) -> Result<usize, Fault>
    ensures { GivesAfter (count_fault T.PTYPE operator (column array.now)) None (λ n. IfSome (operator_of operator) (λ op. n ≡ count_of (holds op (T.value constant)) (column array.now))) result }
{
    let Some(operator) = operator_of(operator) else {
        return Err(Fault::BadOperator);
    };
    if !is_of::<T>(array) {
        return Err(Fault::WrongType);
    }
    Ok(fl_scan::count(alloc, array, operator, &scalar_of(constant))?)
}

/// How many items are valid and lie between two bounds, each left out where its number is not 0.
///
/// # Errors
/// `WrongType` where the array is not of integers of this type.
#[tactic(auto, using(crate::proofs::StatusLaws::refused))]
fn count_items_between<T: NativePType>(
    alloc: Global,
    array: &ArrayRef,
    bounds: (T, T),
    strict: (u8, u8),
) -> Result<usize, Fault>
    ensures { GivesAfter (type_fault T.PTYPE (column array.now)) None (λ n. n ≡ count_of (is_between (options_of strict.0 strict.1) (T.value bounds.0) (T.value bounds.1)) (column array.now)) result }
{
    if !is_of::<T>(array) {
        return Err(Fault::WrongType);
    }
    let (lower, upper) = (scalar_of(bounds.0), scalar_of(bounds.1));
    let options = options_of(strict.0, strict.1);
    Ok(fl_scan::count_between(alloc, array, &lower, &upper, &options)?)
}

/// The least and the greatest valid item, if one is valid.
///
/// # Errors
/// `WrongType` where the array is not of integers of this type.
#[tactic(auto, using(crate::proofs::StatusLaws::refused))]
fn extremes<T: NativePType>(alloc: Global, array: &ArrayRef) -> Result<Option<(T, T)>, Fault>
    ensures { GivesAfter (type_fault T.PTYPE (column array.now)) None (λ o. (option_map (λ p. T.value p.0) o ≡ least_item (column array.now)) × (option_map (λ p. T.value p.1) o ≡ greatest_item (column array.now))) result }
{
    if !is_of::<T>(array) {
        return Err(Fault::WrongType);
    }
    match fl_scan::min_max(alloc, array)? {
        Some((least, greatest)) => Ok(Some((
            T::from_pvalue(least).unwrap(),
            T::from_pvalue(greatest).unwrap(),
        ))),
        None => Ok(None),
    }
}

/// Writes how many items are valid and compare so with a constant.
pub(crate) fn count<T: NativePType>(
    alloc: Global,
    array: &mut ArrayHandle,
    operator: u8,
    constant: T,
    count: &mut usize,
) -> i32
    ensures kept { IsKept array.old array.new }
    ensures status { IsStatusOn (λ t. count_fault T.PTYPE operator (column t)) (λ t. None) array.old.tree result }
    ensures counted { result ≡ pos 0 → IfSome array.old.tree (λ t. IfSome (operator_of operator) (λ op. count.new ≡ count_of (holds op (T.value constant)) (column t))) }
    ensures uncounted { result ≢ pos 0 → count.new ≡ count.old }
{
    let Some(source) = array.array() else {
        return Fault::NoArray.status();
    };
    match count_items(alloc, source, operator, constant) {
        Ok(items) => {
            *count = items;
            DONE
        }
        Err(fault) => fault.status(),
    }
}

/// Writes how many items are valid and lie between two bounds, each left out where its number is not 0.
pub(crate) fn count_between<T: NativePType>(
    alloc: Global,
    array: &mut ArrayHandle,
    bounds: (T, T),
    strict: (u8, u8),
    count: &mut usize,
) -> i32
    ensures kept { IsKept array.old array.new }
    ensures status { IsStatusOn (λ t. type_fault T.PTYPE (column t)) (λ t. None) array.old.tree result }
    ensures counted { result ≡ pos 0 → IfSome array.old.tree (λ t. count.new ≡ count_of (is_between (options_of strict.0 strict.1) (T.value bounds.0) (T.value bounds.1)) (column t)) }
    ensures uncounted { result ≢ pos 0 → count.new ≡ count.old }
{
    let Some(source) = array.array() else {
        return Fault::NoArray.status();
    };
    match count_items_between(alloc, source, bounds, strict) {
        Ok(items) => {
            *count = items;
            DONE
        }
        Err(fault) => fault.status(),
    }
}

/// Writes the least and the greatest valid item and 0, or two zeros and 1 where no item is valid.
pub(crate) fn min_max<T: NativePType>(
    alloc: Global,
    array: &mut ArrayHandle,
    least: &mut T,
    greatest: &mut T,
    is_none: &mut u8,
) -> i32
    ensures kept { IsKept array.old array.new }
    ensures status { IsStatusOn (λ t. type_fault T.PTYPE (column t)) (λ t. None) array.old.tree result }
    ensures found { result ≡ pos 0 → IfSome array.old.tree (λ t. AreExtremes (column t) (T.value least.new) (T.value greatest.new) is_none.new) }
    ensures unfound { result ≢ pos 0 → (least.new ≡ least.old) × (greatest.new ≡ greatest.old) × (is_none.new ≡ is_none.old) }
{
    let Some(source) = array.array() else {
        return Fault::NoArray.status();
    };
    match extremes::<T>(alloc, source) {
        Ok(found) => {
            *is_none = u8::from(found.is_none());
            let (first, last) = found.unwrap_or((T::zero(), T::zero()));
            *least = first;
            *greatest = last;
            DONE
        }
        Err(fault) => fault.status(),
    }
}

/// The valid items that compare so with a constant.
///
/// # Errors
/// `BadOperator`; `WrongType` where the array is not of integers of this type.
#[tactic(auto, using(crate::proofs::StatusLaws::refused))]
fn items_by<T: NativePType>(
    alloc: Global,
    array: &ArrayRef,
    operator: u8,
    constant: T,
) -> Result<ArrayRef, Fault>
    ensures { GivesAfter (count_fault T.PTYPE operator (column array.now)) None (λ t. IfSome (operator_of operator) (λ op. AreThosePassing (holds op (T.value constant)) array.now t)) result }
{
    let Some(operator) = operator_of(operator) else {
        return Err(Fault::BadOperator);
    };
    if !is_of::<T>(array) {
        return Err(Fault::WrongType);
    }
    let constant = scalar_of(constant);
    Ok(fl_scan::filter_by(alloc, array, operator, &constant)?.into_array())
}

/// The valid items that lie between two bounds, each left out where its number is not 0.
///
/// # Errors
/// `WrongType` where the array is not of integers of this type.
#[tactic(auto, using(crate::proofs::StatusLaws::refused))]
fn items_between<T: NativePType>(
    alloc: Global,
    array: &ArrayRef,
    bounds: (T, T),
    strict: (u8, u8),
) -> Result<ArrayRef, Fault>
    ensures { GivesAfter (type_fault T.PTYPE (column array.now)) None (λ t. AreThosePassing (is_between (options_of strict.0 strict.1) (T.value bounds.0) (T.value bounds.1)) array.now t) result }
{
    if !is_of::<T>(array) {
        return Err(Fault::WrongType);
    }
    let (lower, upper) = (scalar_of(bounds.0), scalar_of(bounds.1));
    let options = options_of(strict.0, strict.1);
    Ok(fl_scan::filter_between(alloc, array, &lower, &upper, &options)?.into_array())
}

/// Makes a plain array of the valid items that compare so with a constant.
pub(crate) fn filter_by<T: NativePType>(
    alloc: Global,
    array: &mut ArrayHandle,
    operator: u8,
    constant: T,
    out: &mut ArrayHandle,
) -> i32
    ensures kept { IsKept array.old array.new }
    ensures status { IsStatusOn (λ t. count_fault T.PTYPE operator (column t)) (λ t. None) array.old.tree result }
    ensures made { result ≡ pos 0 → IfSome (operator_of operator) (λ op. HoldsFrom (AreThosePassing (holds op (T.value constant))) array.old.tree out.new.tree) }
    ensures unmade { result ≢ pos 0 → out.new ≡ out.old }
{
    let Some(source) = array.array() else {
        return Fault::NoArray.status();
    };
    keep(out, alloc, items_by(alloc, source, operator, constant))
}

/// Makes a plain array of the valid items that lie between two bounds, each left out where its number is not 0.
pub(crate) fn filter_between<T: NativePType>(
    alloc: Global,
    array: &mut ArrayHandle,
    bounds: (T, T),
    strict: (u8, u8),
    out: &mut ArrayHandle,
) -> i32
    ensures kept { IsKept array.old array.new }
    ensures status { IsStatusOn (λ t. type_fault T.PTYPE (column t)) (λ t. None) array.old.tree result }
    ensures made { result ≡ pos 0 → HoldsFrom (AreThosePassing (is_between (options_of strict.0 strict.1) (T.value bounds.0) (T.value bounds.1))) array.old.tree out.new.tree }
    ensures unmade { result ≢ pos 0 → out.new ≡ out.old }
{
    let Some(source) = array.array() else {
        return Fault::NoArray.status();
    };
    keep(out, alloc, items_between(alloc, source, bounds, strict))
}

/// The sum of the valid items of integers without a sign.
///
/// # Errors
/// `WrongType` where the array is of others.
#[tactic(auto, using(crate::proofs::StatusLaws::refused))]
fn unsigned_sum(alloc: Global, array: &ArrayRef) -> Result<u128, Fault>
    ensures { GivesAfter (sum_fault true (column array.now)) None (λ n. pos n ≡ sum_of (column array.now)) result }
{
    match array.dtype() {
        DType::Primitive(ptype, _) if ptype.is_unsigned() => (),
        _ => return Err(Fault::WrongType),
    }
    match fl_scan::sum(alloc, array)? {
        Sum::Unsigned(sum) => Ok(sum),
        Sum::Signed(_) => unreachable!(),
    }
}

/// The sum of the valid items of integers with a sign.
///
/// # Errors
/// `WrongType` where the array is of others.
#[tactic(auto, using(crate::proofs::StatusLaws::refused))]
fn signed_sum(alloc: Global, array: &ArrayRef) -> Result<i128, Fault>
    ensures { GivesAfter (sum_fault false (column array.now)) None (λ z. z ≡ sum_of (column array.now)) result }
{
    match array.dtype() {
        DType::Primitive(ptype, _) if !ptype.is_unsigned() => (),
        _ => return Err(Fault::WrongType),
    }
    match fl_scan::sum(alloc, array)? {
        Sum::Signed(sum) => Ok(sum),
        Sum::Unsigned(_) => unreachable!(),
    }
}

/// The two words of 64 bits of an integer, the high one first.
pub(crate) fn words_of_unsigned(sum: u128) -> (u64, u64)
    ensures { result.0 * 2 ^ 64 + result.1 ≡ sum }
{
    ((sum / WORDS) as u64, (sum % WORDS) as u64)
}

/// The same of an integer with a sign: the high one has it.
pub(crate) fn words_of_signed(sum: i128) -> (i64, u64)
    ensures { result.0 *ℤ pos (2 ^ 64) +ℤ pos result.1 ≡ sum }
{
    let words = WORDS as i128;
    (sum.div_euclid(words) as i64, sum.rem_euclid(words) as u64)
}

/// Writes the sum of the valid items of integers without a sign, by its two words.
pub(crate) fn sum_unsigned(
    alloc: Global,
    array: &mut ArrayHandle,
    high: &mut u64,
    low: &mut u64,
) -> i32
    ensures kept { IsKept array.old array.new }
    ensures status { IsStatusOn (λ t. sum_fault true (column t)) (λ t. None) array.old.tree result }
    ensures summed { result ≡ pos 0 → IfSome array.old.tree (λ t. pos (high.new * 2 ^ 64 + low.new) ≡ sum_of (column t)) }
    ensures unsummed { result ≢ pos 0 → (high.new ≡ high.old) × (low.new ≡ low.old) }
{
    let Some(source) = array.array() else {
        return Fault::NoArray.status();
    };
    match unsigned_sum(alloc, source) {
        Ok(sum) => {
            (*high, *low) = words_of_unsigned(sum);
            DONE
        }
        Err(fault) => fault.status(),
    }
}

/// Writes the sum of the valid items of integers with a sign, by its two words.
pub(crate) fn sum_signed(
    alloc: Global,
    array: &mut ArrayHandle,
    high: &mut i64,
    low: &mut u64,
) -> i32
    ensures kept { IsKept array.old array.new }
    ensures status { IsStatusOn (λ t. sum_fault false (column t)) (λ t. None) array.old.tree result }
    ensures summed { result ≡ pos 0 → IfSome array.old.tree (λ t. high.new *ℤ pos (2 ^ 64) +ℤ pos low.new ≡ sum_of (column t)) }
    ensures unsummed { result ≢ pos 0 → (high.new ≡ high.old) × (low.new ≡ low.old) }
{
    let Some(source) = array.array() else {
        return Fault::NoArray.status();
    };
    match signed_sum(alloc, source) {
        Ok(sum) => {
            (*high, *low) = words_of_signed(sum);
            DONE
        }
        Err(fault) => fault.status(),
    }
}
