//! Masks, validities, stored integers, scalars and refusals.

ghost use Rattle.std.specs.Prelude.{◌≡◌};
ghost use Rattle.fl_types.specs.Values.{ptype_of_value};

use crate::asked::Asked;
use crate::column_rows::bits;
use crate::columns::{dtype_of, number};
use crate::names::named;
use crate::shown;
use crate::text::Text;
use fl_column::PrimitiveArray;
use fl_types::*;
use std::alloc::Global;
use std::fmt::Debug;

/// The refusals in the order of their numbers, from 1 on.
const REFUSALS: &[FastLanesError] = &[
    FastLanesError::OutOfMemory,
    FastLanesError::NotInteger,
    FastLanesError::NegativeValue,
    FastLanesError::WidthTooLarge,
    FastLanesError::AllBlocksNative,
    FastLanesError::BlockCount,
    FastLanesError::OffsetTooLarge,
    FastLanesError::LengthOverflow,
    FastLanesError::ValidityLength,
    FastLanesError::PatchType,
    FastLanesError::PatchLength,
    FastLanesError::PatchContent,
    FastLanesError::PackedLength,
    FastLanesError::BlockOffsetsType,
    FastLanesError::BlockOffsetsCount,
    FastLanesError::BlockBoundary,
    FastLanesError::BlockSpan,
    FastLanesError::TypeMismatch,
    FastLanesError::NullReference,
    FastLanesError::ReferenceCount,
    FastLanesError::NoMinimum,
    FastLanesError::ChildNullable,
    FastLanesError::ChildLength,
    FastLanesError::RangeBeyondChild,
    FastLanesError::RunIndexType,
    FastLanesError::RunOffsets,
    FastLanesError::RunIndex,
    FastLanesError::TooManyWidths,
    FastLanesError::NotGlobal,
    FastLanesError::IndexOutOfBounds,
    FastLanesError::RangeOutOfBounds,
    FastLanesError::MaskLength,
    FastLanesError::CastNull,
    FastLanesError::CastOutOfRange,
    FastLanesError::UnknownId,
    FastLanesError::BadMetadata,
    FastLanesError::UnknownType,
    FastLanesError::BufferCount,
    FastLanesError::ChildCount,
    FastLanesError::ChildMismatch,
];

/// Answers with the refusal of a number, which begins at 1.
fn refusal(refusals: &[FastLanesError], number: usize, answer: &mut Text) {
    if let Some(refusal) = refusals.get(number.saturating_sub(1)) {
        answer.refusal(*refusal);
    }
}

/// Answers whether two values are equal, or differ, or how the first is shown.
fn compare<T: PartialEq + Debug>(question: &str, left: &T, right: &T, answer: &mut Text) {
    match question {
        "equal" => answer.bool_answer(*left == *right),
        "differ" => answer.bool_answer(*left != *right),
        "debug" => answer.debug(left),
        _ => answer.word("no such question"),
    }
}

/// The same of a value and of another one that was made.
pub fn compare_made<T: PartialEq + Debug + Drop>(
    question: &str,
    left: &T,
    right: Result<T, FastLanesError>,
    answer: &mut Text,
) {
    match right {
        Ok(right) => compare(question, left, &right, answer),
        Err(refusal) => answer.refusal(refusal),
    }
}

/// The mask of a column: of all items of one that is valid throughout, of no item of one that is
/// null throughout, and of the ones of any other.
pub fn mask_of(alloc: Global, column: &PrimitiveArray) -> Result<Mask, FastLanesError> {
    match column.validity() {
        Validity::AllValid => Ok(Mask::AllTrue(column.len())),
        Validity::AllInvalid => Ok(Mask::AllFalse(column.len())),
        _ => Ok(Mask::Values(bits::ones(alloc, column)?)),
    }
}

/// Answers a question of a mask, and of that of a column.
fn ask_mask(alloc: Global, question: &str, mask: &Mask, other: &PrimitiveArray, answer: &mut Text) {
    if question == "copy" {
        compare_made("equal", mask, mask.try_clone(alloc), answer);
    } else {
        compare_made(question, mask, mask_of(alloc, other), answer);
    }
}

/// What is cut from a column's validity.
fn cut(
    alloc: Global,
    column: &PrimitiveArray,
    start: usize,
    end: usize,
) -> Result<Validity, FastLanesError> {
    let (validity, len) = (column.validity(), column.len());
    if start > end || end > len || !validity.covers(len) {
        return Err(FastLanesError::RangeOutOfBounds);
    }
    validity.slice(alloc, start, end, len)
}

/// Answers which of this many items a validity names valid.
fn show_validity(validity: &Validity, len: usize, answer: &mut Text) {
    if validity.covers(len) {
        for i in 0..len {
            answer.item(Some(i128::from(validity.is_valid(i, len))));
        }
    }
}

/// Answers which of this many items a validity that was made names valid.
fn made_validity(made: Result<Validity, FastLanesError>, len: usize, answer: &mut Text) {
    match made {
        Ok(validity) => show_validity(&validity, len, answer),
        Err(refusal) => answer.refusal(refusal),
    }
}

/// The integers of a column, of this type; 0 for a null.
fn typed_slots<T: NativePType>(
    alloc: Global,
    column: &PrimitiveArray,
) -> Result<PrimitiveBuffer, FastLanesError> {
    let mut integers = Vec::new(alloc);
    for i in 0..column.len() {
        integers.push(typed_item(column.get(i)).unwrap_or(T::zero()))?;
    }
    Ok(T::into_buffer(integers))
}

/// The integers of a column, by its type; 0 for a null.
fn slots_of(alloc: Global, column: &PrimitiveArray) -> Result<PrimitiveBuffer, FastLanesError> {
    match_each_integer_ptype!(column.ptype(), typed_slots(alloc, column))
}

/// An item as one of this type.
pub fn typed_item<T: NativePType>(item: Option<PValue>) -> Option<T> {
    match item {
        Some(value) => T::from_pvalue(value),
        None => None,
    }
}

fn typed_value<T: NativePType>(integer: i128) -> PValue
    ensures { ptype_of_value result ≡ T.PTYPE }
{
    T::from_i128(integer).unwrap_or(T::zero()).into_pvalue()
}

/// The value of a type that a text names.
pub fn value_of(ptype: PType, text: &str) -> PValue
    ensures { ptype_of_value result ≡ ptype }
{
    match_each_integer_ptype!(ptype, typed_value(number(text)))
}

/// The scalar of a type's name and of an item: an integer, a boolean as 1 or 0, or `null`.
fn scalar_of(name: &str, item: &str) -> Scalar {
    match dtype_of(name) {
        dtype if item == "null" => Scalar::null(dtype),
        DType::Primitive(ptype, nullability) => {
            Scalar::primitive(value_of(ptype, item), nullability)
        }
        DType::Bool(nullability) => Scalar::bool(number(item) == 1, nullability),
    }
}

/// Adds a value behind its own type, or `null`.
fn show_value(answer: &mut Text, value: Option<PValue>) {
    if let Some(value) = value {
        shown::dtype(
            answer,
            DType::Primitive(value.ptype(), Nullability::NonNullable),
        );
    }
    answer.item(value.map(shown::integer));
}

/// Answers with a scalar's type, its integer, its boolean, and whether it is null.
fn show_scalar(answer: &mut Text, scalar: Scalar) {
    shown::dtype(answer, scalar.dtype());
    show_value(answer, scalar.as_pvalue());
    answer.item(scalar.as_bool().map(i128::from));
    answer.bool_answer(scalar.is_null());
}

/// Answers a question of the validity of a column, or of those of two.
fn ask_validity(asked: Asked, left: &PrimitiveArray, right: &PrimitiveArray, answer: &mut Text) {
    let (alloc, validity) = (asked.alloc, left.validity());
    match asked.word(1) {
        "slice" => {
            let part = cut(alloc, left, asked.count(2), asked.count(3));
            made_validity(part, asked.count(4), answer);
        }
        "copy" => made_validity(validity.try_clone(alloc), asked.count(2), answer),
        question => compare(question, validity, right.validity(), answer),
    }
}

/// Answers a question of the masks of two columns.
fn ask_masks(asked: Asked, left: &PrimitiveArray, right: &PrimitiveArray, answer: &mut Text) {
    match mask_of(asked.alloc, left) {
        Ok(mask) => ask_mask(asked.alloc, asked.word(1), &mask, right, answer),
        Err(refusal) => answer.refusal(refusal),
    }
}

/// Answers with the stored integers of a column, or a question of those of two.
fn ask_slots(asked: Asked, left: &PrimitiveArray, right: &PrimitiveArray, answer: &mut Text) {
    if asked.word(1).is_empty() {
        return shown::slots(answer, left);
    }
    match slots_of(asked.alloc, left) {
        Ok(slots) => {
            compare_made(asked.word(1), &slots, slots_of(asked.alloc, right), answer);
        }
        Err(refusal) => answer.refusal(refusal),
    }
}

#[derive(Clone, Copy)]
enum Question {
    Refusal,
    Scalar,
    Mask,
    Slots,
    Validity,
}

const QUESTIONS: &[(&str, Question)] = &[
    ("refusal", Question::Refusal),
    ("scalar", Question::Scalar),
    ("mask", Question::Mask),
    ("slots", Question::Slots),
    ("validity", Question::Validity),
];

/// Answers a question of values. Where there is one column, it stands for both.
pub fn ask(asked: Asked, answer: &mut Text) -> bool {
    let Some(question) = named(QUESTIONS, asked.word(0)) else {
        return false;
    };
    let (left, right) = (asked.column(0), asked.last_column());
    match question {
        Question::Refusal => refusal(REFUSALS, asked.count(1), answer),
        Question::Scalar => show_scalar(answer, scalar_of(asked.word(1), asked.word(2))),
        Question::Mask => ask_masks(asked, left, right, answer),
        Question::Slots => ask_slots(asked, left, right, answer),
        Question::Validity => ask_validity(asked, left, right, answer),
    }
    true
}
