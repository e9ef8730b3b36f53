//! Answers as text: a line for each.

ghost use Rattle.std.specs.Prelude.{◌≡◌, ◌<◌, ◌≤◌, ◌+◌, ◌++◌, IfErr, IfOk, IsTrue, None, Ok, OnOk, codes, drop, length, map, option_map, slice_index_or, vec_len};
ghost use Rattle.std.specs.Fmt.{signed_decimal};
ghost use Rattle.fl_types.specs.declared.dtype.DType.TheVariants.{Bool, Primitive};
ghost use Rattle.fl_types.specs.declared.dtype.Nullability.{Nullability};
ghost use Rattle.fl_types.specs.declared.error.FastLanesError.TheVariants.{OutOfMemory};
ghost use Rattle.fl_types.specs.Refusals.{Answers};
ghost use Rattle.fl_types.specs.Validities.{covers, items_of, nullability_of};
ghost use Rattle.fl_types.specs.Values.{bool_number, integer_of, scalar_parts};
ghost use Rattle.fl_column.specs.Columns.{column_of_bools, column_of_primitive};
ghost use Rattle.flcol_engine.specs.Printing.{column_text, item_line, item_lines, line, scalar_text, text_of_item, truth_text};

use fl_column::{BoolArray, FastLanesError, NativePType, PValue, PrimitiveArray, Scalar, Validity};
use fl_types::{is_less, match_each_integer_ptype};
use itoa::{Buffer, write_digits};
use std::alloc::{AllocError, Global};

const NULL: &[u8] = b"null\n";

/// Zeros.
fn zeros(alloc: Global, len: usize) -> Result<Vec<u8>, AllocError>
    ensures { IfOk result (λ v. vec_len v ≡ len) }
{
    vec![in alloc; 0u8; len]
}

/// Adds an integer in decimal digits, and a line feed.
fn push_integer<T: NativePType>(text: &mut Vec<u8>, x: T) -> Result<(), FastLanesError>
    ensures line { OnOk result (text.new.items ≡ text.old.items ++ line (signed_decimal (T.value x))) }
    ensures memory { IfErr result (λ e. e ≡ OutOfMemory) }
{
    if is_less(x, T::zero()) {
        text.push(b'-')?;
    }
    let mut buffer = Buffer::new();
    text.extend_from_slice(buffer.format(x.unsigned_abs()).as_bytes())?;
    text.push(b'\n')?;
    Ok(())
}

/// How many bytes an integer's line takes.
fn integer_len<T: NativePType>(x: T) -> usize
    ensures { result ≡ length (line (signed_decimal (T.value x))) }
{
    let digits = x.unsigned_abs().max(1).ilog10() as usize + 1;
    if is_less(x, T::zero()) {
        digits + 2
    } else {
        digits + 1
    }
}

/// How many bytes the line of the item at an index takes.
fn item_len<T: NativePType>(validity: &Validity, slots: &[T], i: usize) -> usize
    requires slot { i < length slots.now }
    requires bit { IsTrue (covers validity.now (length slots.now)) }
    ensures { result ≡ length (item_line T.PTYPE validity.now (map T.value slots.now) i) }
{
    if validity.is_valid(i, slots.len()) {
        integer_len(slots[i])
    } else {
        NULL.len()
    }
}

/// How many bytes the lines of all items take.
fn items_len<T: NativePType>(validity: &Validity, slots: &[T]) -> Result<usize, FastLanesError>
    requires { IsTrue (covers validity.now (length slots.now)) }
    ensures len { IfOk result (λ n. n ≡ length (item_lines T.PTYPE validity.now (map T.value slots.now) 0)) }
    ensures memory { IfErr result (λ e. e ≡ OutOfMemory) }
{
    let mut total = 0usize;
    for i in 0..slots.len() {
        total = total
            .checked_add(item_len(validity, slots, i))
            .ok_or(FastLanesError::OutOfMemory)?;
    }
    Ok(total)
}

/// Writes an integer's line so that it ends at `end`, and returns where it starts.
fn put_integer<T: NativePType>(text: &mut [u8], end: usize, x: T) -> usize
    requires room { length (line (signed_decimal (T.value x))) ≤ end }
    requires within { end ≤ length text.old }
    ensures start { result + length (line (signed_decimal (T.value x))) ≡ end }
    ensures written { drop result text.new ≡ line (signed_decimal (T.value x)) ++ drop end text.old }
    ensures len { length text.new ≡ length text.old }
{
    text[end - 1] = b'\n';
    let start = write_digits(x.unsigned_abs(), text, end - 1);
    if is_less(x, T::zero()) {
        text[start - 1] = b'-';
        return start - 1;
    }
    start
}

/// Writes the line of a null so that it ends at `end`, and returns where it starts.
fn put_null(text: &mut [u8], end: usize) -> usize
    requires room { 5 ≤ end }
    requires within { end ≤ length text.old }
    ensures start { result + 5 ≡ end }
    ensures written { drop result text.new ≡ line (codes "null") ++ drop end text.old }
    ensures len { length text.new ≡ length text.old }
{
    let start = end - NULL.len();
    text[start..end].copy_from_slice(NULL);
    start
}

/// Writes the line of the item at an index so that it ends at `end`, and returns where it starts.
fn put_item<T: NativePType>(
    text: &mut [u8],
    end: usize,
    validity: &Validity,
    slots: &[T],
    i: usize,
) -> usize
    requires slot { i < length slots.now }
    requires bit { IsTrue (covers validity.now (length slots.now)) }
    requires room { length (item_line T.PTYPE validity.now (map T.value slots.now) i) ≤ end }
    requires within { end ≤ length text.old }
    ensures start { result + length (item_line T.PTYPE validity.now (map T.value slots.now) i) ≡ end }
    ensures written { drop result text.new ≡ item_line T.PTYPE validity.now (map T.value slots.now) i ++ drop end text.old }
    ensures len { length text.new ≡ length text.old }
{
    if validity.is_valid(i, slots.len()) {
        put_integer(text, end, slots[i])
    } else {
        put_null(text, end)
    }
}

/// Writes the lines of all items into a text of their length.
fn put_items<T: NativePType>(text: &mut [u8], validity: &Validity, slots: &[T])
    requires bit { IsTrue (covers validity.now (length slots.now)) }
    requires room { length text.old ≡ length (item_lines T.PTYPE validity.now (map T.value slots.now) 0) }
    ensures { text.new ≡ item_lines T.PTYPE validity.now (map T.value slots.now) 0 }
{
    let mut end = text.len();
    for i in (0..slots.len()).rev() {
        end = put_item(text, end, validity, slots, i);
    }
}

fn print_typed<T: NativePType>(
    alloc: Global,
    array: &PrimitiveArray,
) -> Result<Vec<u8>, FastLanesError>
    requires { array.now.ptype ≡ T.PTYPE }
    ensures { Answers (λ text. text.items) result (Ok (column_text (column_of_primitive array.now))) }
{
    let validity = array.validity();
    let slots = array.as_slice::<T>();
    let mut text = zeros(alloc, items_len(validity, slots)?)?;
    put_items(&mut text, validity, slots);
    Ok(text)
}

/// A line for each item: a number, or `null`.
pub fn print_integers(alloc: Global, array: &PrimitiveArray) -> Result<Vec<u8>, FastLanesError>
    ensures { Answers (λ text. text.items) result (Ok (column_text (column_of_primitive array.now))) }
{
    match_each_integer_ptype!(array.ptype(), print_typed(alloc, array))
}

/// The line of a truth value.
fn truth_line(truth: bool) -> &'static [u8]
    ensures { result.now ≡ line (truth_text truth) }
{
    match truth {
        true => b"true\n",
        false => b"false\n",
    }
}

/// The line of a truth value, or of a null.
fn bool_line(item: Option<bool>) -> &'static [u8]
    ensures { (nullability : Nullability) → result.now ≡ line (text_of_item (Bool nullability) (option_map bool_number item)) }
{
    match item {
        Some(truth) => truth_line(truth),
        None => b"null\n",
    }
}

/// How many bytes the lines of all truth values take.
fn bools_len(array: &BoolArray) -> Result<usize, FastLanesError>
    ensures len { IfOk result (λ n. n ≡ length (column_text (column_of_bools array.now))) }
    ensures memory { IfErr result (λ e. e ≡ OutOfMemory) }
{
    let mut total = 0usize;
    for i in 0..array.len() {
        total = total
            .checked_add(bool_line(array.get(i)).len())
            .ok_or(FastLanesError::OutOfMemory)?;
    }
    Ok(total)
}

/// A line for each item: `true`, `false` or `null`.
pub fn print_bools(alloc: Global, array: &BoolArray) -> Result<Vec<u8>, FastLanesError>
    ensures { Answers (λ text. text.items) result (Ok (column_text (column_of_bools array.now))) }
{
    let mut text = Vec::with_capacity(alloc, bools_len(array)?)?;
    for i in 0..array.len() {
        text.extend_from_slice(bool_line(array.get(i)))?;
    }
    Ok(text)
}

/// The line of a truth value.
pub fn print_truth(alloc: Global, truth: bool) -> Result<Vec<u8>, FastLanesError>
    ensures { Answers (λ text. text.items) result (Ok (line (truth_text truth))) }
{
    Ok(Vec::from_slice(alloc, truth_line(truth))?)
}

/// The line of a number that stands in a type.
fn print_integer(alloc: Global, value: PValue) -> Result<Vec<u8>, FastLanesError>
    ensures { Answers (λ text. text.items) result (Ok (line (signed_decimal (integer_of value)))) }
{
    let mut text = Vec::new(alloc);
    match value {
        PValue::U8(x) => push_integer(&mut text, x)?,
        PValue::U16(x) => push_integer(&mut text, x)?,
        PValue::U32(x) => push_integer(&mut text, x)?,
        PValue::U64(x) => push_integer(&mut text, x)?,
        PValue::I8(x) => push_integer(&mut text, x)?,
        PValue::I16(x) => push_integer(&mut text, x)?,
        PValue::I32(x) => push_integer(&mut text, x)?,
        PValue::I64(x) => push_integer(&mut text, x)?,
    }
    Ok(text)
}

/// The line of a scalar: a number, `true`, `false` or `null`.
pub fn print_scalar(alloc: Global, scalar: Scalar) -> Result<Vec<u8>, FastLanesError>
    ensures { Answers (λ text. text.items) result (Ok (scalar_text (scalar_parts scalar))) }
{
    match scalar {
        Scalar::Integer(value, _) => print_integer(alloc, value),
        Scalar::Bool(truth, _) => print_truth(alloc, truth),
        Scalar::NullInteger(_) | Scalar::NullBool => Ok(Vec::from_slice(alloc, b"null\n")?),
    }
}

/// One line.
pub fn print_line(alloc: Global, text: &str) -> Result<Vec<u8>, FastLanesError>
    ensures { Answers (λ v. v.items) result (Ok (line text.now)) }
{
    let mut line = Vec::from_slice(alloc, text.as_bytes())?;
    line.push(b'\n')?;
    Ok(line)
}
