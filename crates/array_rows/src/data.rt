//! What arrays keep beside the arrays inside them: as it is printed, and of bit-packed ones its words, its integer
//! type, readers of its blocks and items as they are stored.

ghost use Rattle.std.specs.Prelude.{◌≡◌, IfOk};
ghost use Rattle.fl_array.specs.BitPackedFields.{ptype_in};

use crate::readers::{self, WholeBlocks};
use fastlanes::FL_CHUNK_SIZE;
use fl_array::ArrayRef;
use fl_array::bitpacking::bitpack_decompress::unpack_single;
use fl_array::bitpacking::{BitPackedArray, BitPackedArrayExt, BitPackedData};
use fl_array::delta::DeltaArrayExt;
use fl_array::for_::FoRArrayExt;
use fl_array::rle::{RLEArrayExt, RLEData};
use fl_bitpacking::bitpack_compress::word_packing::bitpack_primitive;
use fl_bitpacking::unpack_iter::BitPacked;
use fl_column::{PhysicalPType, PrimitiveArray};
use fl_types::{DType, FastLanesError, Nullability, match_each_integer_ptype};
use row_reader::asked::Asked;
use row_reader::columns::{dtype_of, width_of};
use row_reader::names::named;
use row_reader::shown;
use row_reader::text::Text;
use std::alloc::Global;

/// Adds what an array keeps, as it is printed.
fn printed(array: &ArrayRef, answer: &mut Text) {
    if let Some(array) = array.as_bitpacked() {
        match BitPackedArrayExt::data(array) {
            Ok(data) => answer.printed(&data),
            Err(refusal) => answer.refusal(refusal),
        }
    } else if let Some(array) = array.as_for() {
        answer.printed(&FoRArrayExt::data(array));
    } else if let Some(array) = array.as_delta() {
        answer.printed(&DeltaArrayExt::data(array));
    } else if let Some(array) = array.as_rle() {
        answer.printed(&RLEArrayExt::data(array));
    } else {
        answer.word("no data");
    }
}

/// Adds the data of run-length encoded arrays of an offset: as it is made, and as it is made without a test.
pub(crate) fn of_runs(offset: usize, answer: &mut Text) {
    match RLEData::try_new(offset) {
        Ok(data) => answer.printed(&data),
        Err(refusal) => answer.refusal(refusal),
    }
    if offset < FL_CHUNK_SIZE {
        answer.printed(&RLEData::new_unchecked(offset));
    }
}

/// Adds the integer type of a column of this type.
fn ptype(data: &BitPackedData, dtype: DType, answer: &mut Text) {
    match data.ptype(&dtype) {
        Ok(ptype) => shown::dtype(answer, DType::Primitive(ptype, Nullability::NonNullable)),
        Err(refusal) => answer.refusal(refusal),
    }
}

/// Adds what a reader by the array lends.
fn lend_by_array<T: WholeBlocks>(array: &BitPackedArray, answer: &mut Text)
    requires { array.now.parts.ptype ≡ T.PTYPE }
{
    let mut scratch = [T::zero(); FL_CHUNK_SIZE];
    match BitPackedArrayExt::unpacked_chunks::<T>(array, &mut scratch) {
        Ok(mut chunks) => readers::lend_twice(&mut chunks, answer),
        Err(refusal) => answer.refusal(refusal),
    }
}

/// The type of a column that a reader of this type reads, or that of booleans.
fn read_as<T: BitPacked>(is_bool: bool) -> DType
    ensures { IfOk (ptype_in result) (λ ptype. ptype ≡ T.PTYPE) }
{
    if is_bool {
        DType::Bool(Nullability::NonNullable)
    } else {
        DType::Primitive(T::PTYPE, Nullability::NonNullable)
    }
}

/// Adds what a reader by the data of a column of this type lends.
fn lend_by_data<T: WholeBlocks>(data: &BitPackedData, len: usize, dtype: DType, answer: &mut Text)
    requires { IfOk (ptype_in dtype) (λ ptype. ptype ≡ T.PTYPE) }
{
    if readers::fits::<T>(data) {
        let mut scratch = [T::zero(); FL_CHUNK_SIZE];
        match data.unpacked_chunks::<T>(&dtype, len, &mut scratch) {
            Ok(mut chunks) => readers::lend_twice(&mut chunks, answer),
            Err(refusal) => answer.refusal(refusal),
        }
    }
}

/// Adds what a reader of the array's blocks lends: by its data, by these with a column's type, or by the array.
fn lend<T: WholeBlocks>(array: &BitPackedArray, data: &BitPackedData, by: &str, answer: &mut Text)
    requires { array.now.parts.ptype ≡ T.PTYPE }
{
    match by {
        "array" => lend_by_array::<T>(array, answer),
        "data" => lend_by_data::<T>(data, array.len(), read_as::<T>(false), answer),
        "booleans" => lend_by_data::<T>(data, array.len(), read_as::<T>(true), answer),
        _ => readers::lend::<T>(data, array.len(), answer),
    }
}

/// The words of each block of integers, packed alone.
fn packed_alone<T: PhysicalPType>(
    alloc: Global,
    items: &[T],
    widths: &[&str],
) -> Result<Vec<T>, FastLanesError> {
    let (mut words, mut rest) = (Vec::new(alloc), items);
    for width in widths {
        let (block, behind) = rest.split_at(rest.len().min(FL_CHUNK_SIZE));
        let width = width_of(width);
        if usize::from(width) > T::PTYPE.bit_width() {
            return Err(FastLanesError::WidthTooLarge);
        }
        for word in bitpack_primitive(alloc, block, width)?.iter() {
            words.push(*word)?;
        }
        rest = behind;
    }
    Ok(words)
}

/// Adds whether the packed words are those of each block of a column, packed alone, and how many there are.
fn alone<T: PhysicalPType>(
    alloc: Global,
    array: &BitPackedArray,
    column: &PrimitiveArray,
    widths: &[&str],
) -> Result<(bool, usize), FastLanesError>
    requires { column.now.ptype ≡ T.PTYPE }
{
    let words = BitPackedArrayExt::packed_slice::<T>(array, alloc)?;
    let wanted = packed_alone(alloc, column.as_slice::<T>(), widths)?;
    Ok((words.as_slice() == wanted.as_slice(), words.len()))
}

/// Adds the answer of `alone`.
fn show_alone(made: Result<(bool, usize), FastLanesError>, answer: &mut Text) {
    match made {
        Ok((is_same, len)) => {
            answer.word(if is_same { "same" } else { "other" });
            answer.count(len);
            answer.word("words");
        }
        Err(refusal) => answer.refusal(refusal),
    }
}

/// Adds an item as it is stored.
fn single(array: &BitPackedArray, i: usize, answer: &mut Text) {
    if i < array.len() {
        match unpack_single(array, i) {
            Ok(item) => shown::scalar(answer, item),
            Err(refusal) => answer.refusal(refusal),
        }
    }
}

/// Adds what a reader of the array's blocks lends.
fn lend_of(array: &BitPackedArray, data: &BitPackedData, by: &str, answer: &mut Text) {
    let ptype = array.packed_data().ptype();
    match_each_integer_ptype!(ptype, lend(array, data, by, answer));
}

/// Answers a question of the data of a bit-packed array.
fn ask_data(asked: Asked, array: &BitPackedArray, answer: &mut Text) {
    match BitPackedArrayExt::data(array) {
        Ok(data) => match asked.word(0) {
            "ptype" => ptype(&data, dtype_of(asked.word(1)), answer),
            _ => lend_of(array, &data, asked.word(1), answer),
        },
        Err(refusal) => answer.refusal(refusal),
    }
}

/// Adds whether the packed words are those of each block of the row's last column, packed alone.
fn alone_of(asked: Asked, array: &BitPackedArray, answer: &mut Text) {
    let (column, widths) = (asked.last_column(), asked.words_from(1));
    let made = match_each_integer_ptype!(column.ptype(), alone(asked.alloc, array, column, widths));
    show_alone(made, answer);
}

/// What is asked of a bit-packed array.
#[derive(Clone, Copy)]
enum Question {
    Single,
    Alone,
    PType,
    Lent,
}

const QUESTIONS: &[(&str, Question)] = &[
    ("single", Question::Single),
    ("alone", Question::Alone),
    ("ptype", Question::PType),
    ("lent", Question::Lent),
];

/// Answers a question of a bit-packed array.
fn ask_packed(asked: Asked, question: Question, array: &BitPackedArray, answer: &mut Text) {
    match question {
        Question::Single => single(array, asked.count(1), answer),
        Question::Alone => alone_of(asked, array, answer),
        Question::PType | Question::Lent => ask_data(asked, array, answer),
    }
}

/// Answers `data` of any array, `single 0`, `ptype u8`, `lent by data` and `alone 3 0` of a bit-packed one.
pub(crate) fn ask(asked: Asked, array: &ArrayRef, answer: &mut Text) {
    match (named(QUESTIONS, asked.word(0)), array.as_bitpacked()) {
        (Some(question), Some(packed)) => ask_packed(asked, question, packed, answer),
        (None, _) if asked.word(0) == "data" => printed(array, answer),
        _ => answer.word("no such question"),
    }
}
