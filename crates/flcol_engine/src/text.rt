//! A column as text: a line for each item, a number or `null`.

ghost use Rattle.std.specs.Prelude.{◌≡◌, ◌<◌, ◌≢◌, ◌∷◌, ◌++◌, [], ℕ, ℤ, Bool, IfErr, IfOk, IfNone, IfSome, IsTrue, None, if◌then◌else◌, List, OnOk, is_some, Option, Some, not, length, map, ok_or, option_map, replicate};
ghost use Rattle.std.specs.List.{AllByRecursion};
ghost use Rattle.fl_types.specs.declared.dtype.DType.TheVariants.{Primitive};
ghost use Rattle.fl_types.specs.declared.dtype.Nullability.{Nullability};
ghost use Rattle.fl_types.specs.declared.dtype.Nullability.TheVariants.{Nullable};
ghost use Rattle.fl_types.specs.declared.error.FastLanesError.TheVariants.{OutOfMemory};
ghost use Rattle.fl_types.specs.Integers.{fits};
ghost use Rattle.fl_column.specs.Columns.{Column, column_of_primitive, is_column};
ghost use Rattle.flcol_engine.specs.Text.{AreParts, BeginsWithItem, column_in_text, integer_in_text, integer_of_64_bits, integer_of_type, item_in_line, items_in_lines, items_text, lines_of, number_in_digits, number_up_to, primitive_of_column, validity_of_bits};
ghost use Rattle.flcol_engine.specs.Faults.{IsOutcome};

use crate::digits::short_number;
use crate::fault::Fault;
use fl_column::{
    BitList, FastLanesError, NativePType, Nullability, PType, PrimitiveArray, Validity,
};
use fl_types::match_each_integer_ptype;
use std::alloc::Global;

/// The first line, without its line feed, and what comes behind it.
fn first_line(text: &[u8]) -> (&[u8], &[u8])
    requires { 0 < length text.now }
    ensures lines { lines_of text.now ≡ result.0.now ∷ lines_of result.1.now }
    ensures shorter { length result.1.now < length text.now }
{
    for (i, b) in text.iter().enumerate() {
        if *b == b'\n' {
            return (&text[..i], &text[i + 1..]);
        }
    }
    (text, &[])
}

/// The number that decimal digits write, where there are some and it is at most `max`.
pub fn number(digits: &[u8], max: u64) -> Option<u64>
    ensures { result ≡ number_up_to max digits.now }
{
    if digits.is_empty() {
        return None;
    }
    let mut value = 0u64;
    for c in digits {
        if !c.is_ascii_digit() {
            return None;
        }
        if value > max / 10 {
            return None;
        }
        let tens = value * 10;
        let digit = u64::from(*c - b'0');
        if digit > max - tens {
            return None;
        }
        value = tens + digit;
    }
    Some(value)
}

/// Whether a text is one or more decimal digits.
fn are_digits(text: &[u8]) -> bool
    ensures { result ≡ is_some (number_in_digits text.now) }
{
    for c in text {
        if !c.is_ascii_digit() {
            return false;
        }
    }
    !text.is_empty()
}

/// Whether a text is an integer of any size: digits, with a minus before them or not.
pub(crate) fn is_integer(text: &[u8]) -> bool
    ensures { result ≡ is_some (integer_in_text text.now) }
{
    match text {
        [b'-', digits @ ..] => are_digits(digits),
        _ => are_digits(text),
    }
}

/// The integer that digits write, with a minus before them or not, where it lies between -2^64 and 2^64.
pub(crate) fn integer(text: &[u8]) -> Option<i128>
    ensures { result ≡ integer_of_64_bits text.now }
{
    match text {
        [b'-', digits @ ..] => Some(-i128::from(number(digits, u64::MAX)?)),
        _ => Some(i128::from(number(text, u64::MAX)?)),
    }
}

/// An integer as one of the type, where it is one.
fn typed<T: NativePType>(value: i128) -> Option<T>
    ensures { option_map T.value result ≡ (if fits T.PTYPE value then Some value else None) }
{
    T::from_i128(value)
}

/// The same where it is one of the type.
fn typed_integer<T: NativePType>(text: &[u8]) -> Option<T>
    ensures { option_map T.value result ≡ integer_of_type T.PTYPE text.now }
{
    let value = integer(text)?;
    typed(value)
}

/// The item that a line says: a null where one may stand, else an integer of the type.
fn item<T: NativePType>(nullability: Nullability, line: &[u8]) -> Option<Option<T>>
    ensures { option_map (option_map T.value) result ≡ item_in_line T.PTYPE nullability line.now }
{
    if nullability == Nullability::Nullable && line == b"null".as_slice() {
        return Some(None);
    }
    let value = typed_integer(line)?;
    Some(Some(value))
}

/// The validity of `len` items that are all null or all not, and of one more that is not as they are.
fn differing_last(alloc: Global, len: usize, is_valid: bool) -> Result<Validity, FastLanesError>
    ensures validity { IfOk result (λ v. v ≡ validity_of_bits Nullable (replicate len (not is_valid) ++ is_valid ∷ [])) }
    ensures memory { IfErr result (λ e. e ≡ OutOfMemory) }
{
    if len == 0 {
        return match is_valid {
            true => Ok(Validity::AllValid),
            false => Ok(Validity::AllInvalid),
        };
    }
    let mut bits = BitList::from_fn(alloc, len, |_| !is_valid)?;
    bits.push(is_valid)?;
    Ok(Validity::Array(bits))
}

/// Makes the validity of `len` items that of these and one more.
#[inline(never)]
fn extend_bits(
    alloc: Global,
    validity: &mut Validity,
    len: usize,
    is_valid: bool,
) -> Result<(), FastLanesError>
    ensures one_more { OnOk result ((nullability : Nullability) (bits : List Bool) → length bits ≡ len
        → validity.old ≡ validity_of_bits nullability bits → validity.new ≡ validity_of_bits nullability (bits ++ is_valid ∷ [])) }
    ensures memory { IfErr result (λ e. e ≡ OutOfMemory) }
{
    match validity {
        Validity::Array(bits) => bits.push(is_valid)?,
        Validity::AllValid if !is_valid => *validity = differing_last(alloc, len, is_valid)?,
        Validity::AllInvalid if is_valid => *validity = differing_last(alloc, len, is_valid)?,
        _ => {}
    }
    Ok(())
}

/// The same, where mostly no item is null.
fn extend_validity(
    alloc: Global,
    validity: &mut Validity,
    len: usize,
    is_valid: bool,
) -> Result<(), FastLanesError>
    ensures one_more { OnOk result ((nullability : Nullability) (bits : List Bool) → length bits ≡ len
        → validity.old ≡ validity_of_bits nullability bits → validity.new ≡ validity_of_bits nullability (bits ++ is_valid ∷ [])) }
    ensures memory { IfErr result (λ e. e ≡ OutOfMemory) }
{
    match validity {
        Validity::NonNullable | Validity::AllValid if is_valid => Ok(()),
        _ => extend_bits(alloc, validity, len, is_valid),
    }
}

/// Adds an item to the slots and the validity of a plain array.
fn push_item<T: NativePType>(
    alloc: Global,
    slots: &mut Vec<T>,
    validity: &mut Validity,
    item: Option<T>,
) -> Result<(), FastLanesError>
    ensures one_more { OnOk result ((nullability : Nullability) (items : List (Option ℤ)) → AreParts nullability items (map T.value slots.old.items) validity.old
        → AreParts nullability (items ++ option_map T.value item ∷ []) (map T.value slots.new.items) validity.new) }
    ensures memory { IfErr result (λ e. e ≡ OutOfMemory) }
{
    extend_validity(alloc, validity, slots.len(), item.is_some())?;
    slots.push(item.unwrap_or(T::zero()))?;
    Ok(())
}

/// The first line's item, and what comes behind the line, where it is a short number without a sign.
/// `None` says nothing of the text.
#[inline]
fn short_item<T: NativePType>(nullability: Nullability, text: &[u8]) -> Option<(Option<T>, &[u8])>
    ensures { IfSome result (λ r. BeginsWithItem T.PTYPE nullability text.now (option_map T.value r.0) r.1.now) }
{
    let (value, count) = short_number(text)?;
    let item = typed(i128::from(value))?;
    Some((Some(item), &text[count + 1..]))
}

/// The first line's item, and what comes behind the line. `None` where the line says no item.
#[inline]
fn next_item<T: NativePType>(nullability: Nullability, text: &[u8]) -> Option<(Option<T>, &[u8])>
    requires { 0 < length text.now }
    ensures some { IfSome result (λ r. BeginsWithItem T.PTYPE nullability text.now (option_map T.value r.0) r.1.now) }
    ensures none { IfNone result (items_in_lines T.PTYPE nullability (lines_of text.now) ≡ None) }
{
    if let Some(found) = short_item(nullability, text) {
        return Some(found);
    }
    let (line, rest) = first_line(text);
    Some((item::<T>(nullability, line)?, rest))
}

#[inline(never)]
fn parse_typed<T: NativePType>(
    alloc: Global,
    nullability: Nullability,
    text: &[u8],
) -> Result<PrimitiveArray, Fault>
    ensures { IsOutcome (λ c array. array ≡ primitive_of_column c) result (ok_or (column_in_text T.PTYPE nullability text.now) Fault.BadColumn) }
{
    let mut slots = Vec::new(alloc);
    let mut validity = Validity::from(nullability);
    let mut rest = text;
    while !rest.is_empty() {
        let Some((item, next)) = next_item::<T>(nullability, rest) else {
            return Err(Fault::BadColumn);
        };
        push_item(alloc, &mut slots, &mut validity, item)?;
        rest = next;
    }
    Ok(PrimitiveArray::new(slots, validity).unwrap())
}

/// The plain array of the column that a text says: 0 under a null, and validity bits only where some
/// items are null and some are not. Refused with `BadColumn` where the text says no column of the type.
pub fn parse(
    alloc: Global,
    ptype: PType,
    nullability: Nullability,
    text: &[u8],
) -> Result<PrimitiveArray, Fault>
    ensures { IsOutcome (λ c array. array ≡ primitive_of_column c) result (ok_or (column_in_text ptype nullability text.now) Fault.BadColumn) }
{
    match_each_integer_ptype!(ptype, parse_typed(alloc, nullability, text))
}

/// The plain array of the column that a text says, as `parse` makes it; the text is freed.
pub fn parse_owned(
    alloc: Global,
    ptype: PType,
    nullability: Nullability,
    text: Vec<u8>,
) -> Result<PrimitiveArray, Fault>
    ensures { IsOutcome (λ c array. array ≡ primitive_of_column c) result (ok_or (column_in_text ptype nullability text.items) Fault.BadColumn) }
{
    parse(alloc, ptype, nullability, &text)
}

/// A line feed ends a line, and so does the end.
pub fn line_ends()
    ensures inner { (line rest : List ℕ) → AllByRecursion (λ b. b ≢ 10) line → lines_of (line ++ 10 ∷ rest) ≡ line ∷ lines_of rest }
    ensures last { (line : List ℕ) → AllByRecursion (λ b. b ≢ 10) line → 0 < length line → lines_of line ≡ line ∷ [] }
{}

/// A column of integers that is printed, nulls too, is read back from its text.
pub fn printed_is_read(ptype: PType, nullability: Nullability)
    ensures { (items : List (Option ℤ)) → let c : Column = record { dtype = Primitive ptype nullability; items = items } in
        IsTrue (is_column c) → column_in_text ptype nullability (items_text items) ≡ Some c }
{}

/// The plain array that a column of integers is read into has this column.
pub fn read_has_column(ptype: PType, nullability: Nullability)
    ensures { (items : List (Option ℤ)) → let c : Column = record { dtype = Primitive ptype nullability; items = items } in
        IsTrue (is_column c) → column_of_primitive (primitive_of_column c) ≡ c }
{}
