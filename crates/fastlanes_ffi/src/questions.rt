//! Arrays asked again and again.
#![tactic(auto)]

ghost use Rattle.std.specs.Prelude.{◌≡◌, IfOk, IsTrue};
ghost use Rattle.fl_types.specs.Types.{has_ptype};
ghost use Rattle.fl_types.specs.Values.{scalar_parts, ptype_of_value};
ghost use Rattle.fl_array.specs.Trees.{column};
ghost use Rattle.fl_ops.specs.Queries.{is_comparable};

use fl_array::bitpacking::BitPackedArray;
use fl_array::bitpacking::bitpack_decompress::unpack_single;
use fl_array::{ArrayRef, IntoArray};
use fl_column::{PhysicalPType, PrimitiveArray};
use fl_ops::ArrayOps;
use fl_serde::{SerializedArray, deserialize, serialize};
use fl_types::{
    BetweenOptions, BitList, CompareOperator, DType, FastLanesError, Mask, NativePType,
    Nullability, PType, PValue, Scalar, StrictComparison, match_each_integer_ptype,
};
use num_traits::WrappingAdd;
use std::alloc::Global;

/// What an array is asked. Its number is its place here, from 0.
#[derive(Drop)]
pub(crate) enum Question<'a> {
    /// The plain array.
    Decode,
    /// The sum of the items at these places.
    Reads(&'a [u64]),
    /// The sum of the stored items at these places, without their patches.
    StoredReads(&'a [u64]),
    /// The items from the first number to below the second.
    Slice(u64, u64),
    /// Which items are below this number.
    Compare(u64),
    /// Which items lie from the first number to below the second.
    Between(u64, u64),
    /// The items at these places.
    Take(ArrayRef),
    /// The items at the set bits.
    Filter(Mask),
    /// The items as `u64`, where nulls may stand.
    Cast,
    IsSorted,
    IsConstant,
    /// The length that the serialized array states.
    Serialize,
    /// The array of this serialized one.
    Deserialize(SerializedArray),
}

/// The number at a place, 0 where there is none.
fn number_at(numbers: &[u64], i: usize) -> u64 {
    match numbers.get(i) {
        Some(number) => *number,
        None => 0,
    }
}

/// The first bits of these words, a bit for each of `len` items.
fn mask_of(alloc: Global, words: &[u64], len: usize) -> Result<Mask, FastLanesError> {
    let bits = BitList::from_fn(alloc, len, |i| match words.get(i / 64) {
        Some(word) => *word >> (i % 64) & 1 == 1,
        None => false,
    })?;
    Ok(Mask::Values(bits))
}

/// These numbers as an array of indices.
fn indices_of(alloc: Global, numbers: &[u64]) -> Result<ArrayRef, FastLanesError> {
    let slots = Vec::from_slice(alloc, numbers)?;
    Ok(PrimitiveArray::non_nullable(slots).into_array())
}

impl<'a> Question<'a> {
    /// The question with this number, asked of an array with these numbers.
    ///
    /// # Errors
    /// `UnknownId` where no question has this number.
    pub(crate) fn new(
        alloc: Global,
        question: usize,
        numbers: &'a [u64],
        array: &ArrayRef,
    ) -> Result<Question<'a>, FastLanesError> {
        let (first, second) = (number_at(numbers, 0), number_at(numbers, 1));
        match question {
            0 => Ok(Question::Decode),
            1 => Ok(Question::Reads(numbers)),
            2 => Ok(Question::StoredReads(numbers)),
            3 => Ok(Question::Slice(first, second)),
            4 => Ok(Question::Compare(first)),
            5 => Ok(Question::Between(first, second)),
            6 => Ok(Question::Take(indices_of(alloc, numbers)?)),
            7 => Ok(Question::Filter(mask_of(alloc, numbers, array.len())?)),
            8 => Ok(Question::Cast),
            9 => Ok(Question::IsSorted),
            10 => Ok(Question::IsConstant),
            11 => Ok(Question::Serialize),
            12 => Ok(Question::Deserialize(serialize(alloc, array)?)),
            _ => Err(FastLanesError::UnknownId),
        }
    }
}

/// What a question is answered with.
#[derive(Drop)]
enum Reply {
    Array(ArrayRef),
    Number(u64),
}

/// An unsigned value, 0 of a signed one.
fn unsigned(value: PValue) -> u64 {
    match value {
        PValue::U8(x) => x as u64,
        PValue::U16(x) => x as u64,
        PValue::U32(x) => x as u64,
        PValue::U64(x) => x,
        _ => 0,
    }
}

/// The number that a scalar is, 0 of a null.
fn number_of(scalar: Scalar) -> u64 {
    match scalar.as_pvalue() {
        Some(value) => unsigned(value),
        None => 0,
    }
}

fn typed_sum_of_reads<T: PhysicalPType + WrappingAdd>(
    alloc: Global,
    array: &ArrayRef,
    places: &[u64],
) -> Result<u64, FastLanesError>
    requires { IsTrue (has_ptype T.PTYPE (column array.now).dtype) }
{
    let mut sum = 0u64;
    for place in places {
        let place = *place as usize;
        if place >= array.len() {
            return Err(FastLanesError::IndexOutOfBounds);
        }
        if let Some(item) = array.get::<T>(alloc, place)? {
            sum = sum.wrapping_add(item.unsigned_abs());
        }
    }
    Ok(sum)
}

/// The sum of the items at these places, which are unsigned, each read in its type.
fn sum_of_reads(alloc: Global, array: &ArrayRef, places: &[u64]) -> Result<u64, FastLanesError> {
    let DType::Primitive(ptype, _) = array.dtype() else {
        return Err(FastLanesError::NotInteger);
    };
    match_each_integer_ptype!(ptype, typed_sum_of_reads(alloc, array, places))
}

fn sum_of_stored_reads(array: &BitPackedArray, places: &[u64]) -> Result<u64, FastLanesError> {
    let mut sum = 0u64;
    for place in places {
        let place = *place as usize;
        if place >= array.len() {
            return Err(FastLanesError::IndexOutOfBounds);
        }
        let item = unpack_single(array, place)?;
        sum = sum.wrapping_add(number_of(item));
    }
    Ok(sum)
}

fn slice(
    alloc: Global,
    array: &ArrayRef,
    start: u64,
    end: u64,
) -> Result<ArrayRef, FastLanesError> {
    let (start, end) = (start as usize, end as usize);
    if start > end || end > array.len() {
        return Err(FastLanesError::RangeOutOfBounds);
    }
    array.slice(alloc, start..end)
}

/// The number in a type, 0 where the type doesn't have it.
fn typed_value<T: NativePType>(number: u64) -> PValue
    ensures { ptype_of_value result ≡ T.PTYPE }
{
    T::from_i128(number as i128)
        .unwrap_or(T::zero())
        .into_pvalue()
}

fn value_of_type(ptype: PType, number: u64) -> PValue
    ensures { ptype_of_value result ≡ ptype }
{
    match_each_integer_ptype!(ptype, typed_value(number))
}

/// A constant that the array's items can be compared with.
fn constant_for(array: &ArrayRef, number: u64) -> Result<Scalar, FastLanesError>
    ensures { IfOk result (λ k. IsTrue (is_comparable (column array.now) (scalar_parts k))) }
{
    let DType::Primitive(ptype, _) = array.dtype() else {
        return Err(FastLanesError::NotInteger);
    };
    Ok(Scalar::primitive(value_of_type(ptype, number), Nullability::NonNullable))
}

fn compare(alloc: Global, array: &ArrayRef, number: u64) -> Result<ArrayRef, FastLanesError> {
    let constant = constant_for(array, number)?;
    let bools = array.compare(alloc, CompareOperator::Lt, &constant)?;
    Ok(bools.into_array())
}

fn between(
    alloc: Global,
    array: &ArrayRef,
    lower: u64,
    upper: u64,
) -> Result<ArrayRef, FastLanesError> {
    let lower = constant_for(array, lower)?;
    let upper = constant_for(array, upper)?;
    let options = BetweenOptions {
        lower_strict: StrictComparison::NonStrict,
        upper_strict: StrictComparison::Strict,
    };
    let bools = array.between(alloc, &lower, &upper, &options)?;
    Ok(bools.into_array())
}

fn filter(alloc: Global, array: &ArrayRef, mask: &Mask) -> Result<ArrayRef, FastLanesError> {
    if mask.len() != array.len() {
        return Err(FastLanesError::MaskLength);
    }
    array.filter(alloc, mask)
}

fn stored_reads(array: &ArrayRef, places: &[u64]) -> Result<u64, FastLanesError> {
    match array.as_bitpacked() {
        Some(packed) => sum_of_stored_reads(packed, places),
        None => Err(FastLanesError::NotGlobal),
    }
}

fn answer(alloc: Global, array: &ArrayRef, question: &Question) -> Result<Reply, FastLanesError> {
    let reply = match question {
        Question::Decode => Reply::Array(array.decode(alloc)?),
        Question::Reads(places) => Reply::Number(sum_of_reads(alloc, array, places)?),
        Question::StoredReads(places) => Reply::Number(stored_reads(array, places)?),
        Question::Slice(start, end) => Reply::Array(slice(alloc, array, *start, *end)?),
        Question::Compare(number) => Reply::Array(compare(alloc, array, *number)?),
        Question::Between(lower, upper) => { Reply::Array(between(alloc, array, *lower, *upper)?) }
        Question::Take(indices) => Reply::Array(array.take(alloc, indices)?),
        Question::Filter(mask) => Reply::Array(filter(alloc, array, mask)?),
        Question::Cast => {
            let target = DType::Primitive(PType::U64, Nullability::Nullable);
            Reply::Array(array.cast(alloc, target)?)
        }
        Question::IsSorted => Reply::Number(array.is_sorted(alloc, false)? as u64),
        Question::IsConstant => Reply::Number(array.is_constant(alloc)? as u64),
        Question::Serialize => Reply::Number(serialize(alloc, array)?.len() as u64),
        Question::Deserialize(serialized) => Reply::Array(deserialize(alloc, serialized)?),
    };
    Ok(reply)
}

/// Writes the items, booleans as 0 and 1 and nulls as `u64::MAX`, as far as there is room. The answer is how
/// many items there are.
fn write_items(
    alloc: Global,
    array: &ArrayRef,
    items: &mut [u64],
) -> Result<usize, FastLanesError> {
    let len = array.len();
    for i in 0..len.min(items.len()) {
        let item = array.scalar_at(alloc, i)?;
        items[i] = match item.as_bool() {
            Some(is_true) => is_true as u64,
            None => match item.as_pvalue() {
                Some(value) => unsigned(value),
                None => u64::MAX,
            },
        };
    }
    Ok(len)
}

/// Asks an array this many times, and writes the items of the last answer, as far as there is room. The result
/// is how many they are, or the last answer itself where it is a number.
///
/// # Errors
/// Those of the calls; `IndexOutOfBounds`, `RangeOutOfBounds` and `MaskLength` where the numbers don't fit the
/// array, `NotGlobal` where stored items are read of an array that isn't bit-packed at one width, and
/// `NotInteger` where an array of booleans is compared.
pub(crate) fn ask(
    alloc: Global,
    rounds: usize,
    array: &ArrayRef,
    question: &Question,
    items: &mut [u64],
) -> Result<usize, FastLanesError> {
    let mut result = 0;
    for _ in 0..rounds {
        result = match answer(alloc, array, question)? {
            Reply::Array(array) => write_items(alloc, &array, items)?,
            Reply::Number(number) => number as usize,
        };
    }
    Ok(result)
}
