//! The operations that words say.

ghost use Rattle.std.specs.Prelude.{◌≡◌, ◌==◌, None, Ok, Some, if◌then◌else◌, is_some, map, option_map, string_bytes};
ghost use Rattle.std.specs.List.{list_all};
ghost use Rattle.fl_types.specs.Refusals.{Answers};
ghost use Rattle.fl_array.specs.Trees as trees;
ghost use Rattle.fl_ops.specs.Operations.{Cast, Filter, Slice, Take, TakeRanges, step_of};
ghost use Rattle.fl_types.specs.declared.dtype.DType.TheVariants.{Primitive};
ghost use Rattle.fl_types.specs.declared.mask.Mask.TheVariants.{Values};
ghost use Rattle.flcol_engine.specs.Words.{bits_in_text, column_type_in_word, each_says, index_in_text, indices_array, is_bit, list_in_text, named_operation, operation_in_word, pair_in_text, range_in_text};

use crate::arg_parts::{list, pair, split_once};
use crate::args::column_type;
use fl_array::{ArrayRef, IntoArray};
use fl_column::{BitList, DType, FastLanesError, Mask, PrimitiveArray};
use fl_ops::Op;
use std::alloc::Global;

/// The indices, where none is null.
fn all_indices(alloc: Global, indices: &[Option<u64>]) -> Result<Option<Vec<u64>>, FastLanesError>
    ensures { Answers (option_map (λ v. map Some v.items)) result (Ok (if list_all is_some indices.now then Some indices.now else None)) }
{
    let mut numbers = Vec::with_capacity(alloc, indices.len())?;
    for index in indices {
        let Some(number) = *index else {
            return Ok(None);
        };
        numbers.push(number)?;
    }
    Ok(Some(numbers))
}

/// The array of indices, where nulls may stand if one is there.
fn indices_array(alloc: Global, indices: &[Option<u64>]) -> Result<ArrayRef, FastLanesError>
    ensures { Answers (λ a. a) result (Ok (trees.Primitive (indices_array indices.now))) }
{
    match all_indices(alloc, indices)? {
        Some(numbers) => Ok(PrimitiveArray::non_nullable(numbers).into_array()),
        None => Ok(PrimitiveArray::from_options(alloc, indices)?.into_array()),
    }
}

/// The operation that takes the items of a range.
fn slice(text: &[u8]) -> Option<Op>
    ensures { option_map step_of result ≡ option_map (λ range. Slice range.0 range.1) (pair_in_text 58 text.now) }
{
    let (start, end) = pair(text, b':')?;
    Some(Op::Slice(start..end))
}

/// The operation that casts to a type.
fn cast(text: &[u8]) -> Option<Op>
    ensures { option_map step_of result ≡ option_map (λ target. Cast (Primitive target.0 target.1)) (column_type_in_word text.now) }
{
    let (ptype, nullability) = column_type(text)?;
    Some(Op::Cast(DType::Primitive(ptype, nullability)))
}

/// The operation that takes the items that indices name.
fn take(alloc: Global, text: &[u8]) -> Result<Option<Op>, FastLanesError>
    ensures { Answers (option_map step_of) result (Ok (option_map (λ indices. Take (trees.Primitive (indices_array indices))) (list_in_text index_in_text text.now))) }
{
    let Some(indices) = list::<Option<u64>>(alloc, text)? else {
        return Ok(None);
    };
    Ok(Some(Op::Take(indices_array(alloc, &indices)?)))
}

/// The operation that takes ranges.
fn take_ranges(alloc: Global, text: &[u8]) -> Result<Option<Op>, FastLanesError>
    ensures { Answers (option_map step_of) result (Ok (option_map (λ ranges. TakeRanges ranges) (list_in_text range_in_text text.now))) }
{
    let Some(ranges) = list::<(usize, usize)>(alloc, text)? else {
        return Ok(None);
    };
    Ok(Some(Op::TakeRanges(ranges)))
}

/// The bit that a digit is.
fn bit(digit: u8) -> Option<bool>
    ensures { result ≡ (if is_bit digit then Some (digit == 49) else None) }
{
    match digit {
        b'0' => Some(false),
        b'1' => Some(true),
        _ => None,
    }
}

/// Bits as digits.
fn bits(alloc: Global, digits: &[u8]) -> Result<Option<BitList>, FastLanesError>
    ensures { Answers (λ bits. bits) result (Ok (bits_in_text digits.now)) }
{
    let mut bits = BitList::new(alloc);
    for digit in digits {
        let Some(bit) = bit(*digit) else {
            return Ok(None);
        };
        bits.push(bit)?;
    }
    Ok(Some(bits))
}

/// The operation that keeps the items whose bits are set.
fn filter(alloc: Global, digits: &[u8]) -> Result<Option<Op>, FastLanesError>
    ensures { Answers (option_map step_of) result (Ok (option_map (λ bits. Filter (Values bits)) (bits_in_text digits.now))) }
{
    let Some(bits) = bits(alloc, digits)? else {
        return Ok(None);
    };
    Ok(Some(Op::Filter(Mask::Values(bits))))
}

/// The operation that a name and the text behind it say.
fn named(alloc: Global, name: &[u8], text: &[u8]) -> Result<Option<Op>, FastLanesError>
    ensures { Answers (option_map step_of) result (Ok (named_operation name.now text.now)) }
{
    if name == b"slice".as_slice() {
        Ok(slice(text))
    } else if name == b"take".as_slice() {
        take(alloc, text)
    } else if name == b"ranges".as_slice() {
        take_ranges(alloc, text)
    } else if name == b"filter".as_slice() {
        filter(alloc, text)
    } else if name == b"cast".as_slice() {
        Ok(cast(text))
    } else {
        Ok(None)
    }
}

/// The operation that a word says: a name, a colon and a text.
fn operation(alloc: Global, word: &[u8]) -> Result<Option<Op>, FastLanesError>
    ensures { Answers (option_map step_of) result (Ok (operation_in_word word.now)) }
{
    match split_once(word, b':') {
        Some((name, text)) => named(alloc, name, text),
        None => Ok(None),
    }
}

/// The operations that words say, where each says one.
pub(crate) fn operations(alloc: Global, words: &[String]) -> Result<Option<Vec<Op>>, FastLanesError>
    ensures { Answers (option_map (λ ops. map step_of ops.items)) result (Ok (each_says operation_in_word (map string_bytes words.now))) }
{
    let mut ops = Vec::new(alloc);
    for word in words {
        let Some(op) = operation(alloc, word.as_bytes())? else {
            return Ok(None);
        };
        ops.push(op)?;
    }
    Ok(Some(ops))
}
