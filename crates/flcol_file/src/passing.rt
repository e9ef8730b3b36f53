//! How many items of an array pass a test whose constants may be of no item's type.

ghost use Rattle.std.specs.Prelude.{◌≡◌, ◌&&◌, ℤ, IsTrue, Ok, int_le};
ghost use Rattle.fl_types.specs.Integers.{fits};
ghost use Rattle.fl_types.specs.Refusals.{Answers};
ghost use Rattle.fl_types.specs.Types.{has_ptype};
ghost use Rattle.fl_types.specs.Values.{integer_of, ptype_of_value};
ghost use Rattle.fl_array.specs.Trees.{column};
ghost use Rattle.fl_file.specs.Pruning.{is_in_range, passes};
ghost use Rattle.fl_scan.specs.Totals.{count_of, of_integers};

use fl_array::ArrayRef;
use fl_array::laws::items_are_in_range;
use fl_column::{
    BetweenOptions, DType, FastLanesError, Nullability, PType, PValue, Scalar, StrictComparison,
};
use fl_file::{PassingRange, Test};
use fl_scan::{count_between, null_count};
use std::alloc::Global;

/// Both bounds are items between them.
const INCLUDED: BetweenOptions = BetweenOptions {
    lower_strict: StrictComparison::NonStrict,
    upper_strict: StrictComparison::NonStrict,
};

/// The least and the greatest integer of a type.
fn bounds_of(ptype: PType) -> (i128, i128)
    ensures { (z : ℤ) → fits ptype z ≡ (int_le result.0 z && int_le z result.1) }
{
    match ptype {
        PType::U8 => (0, i128::from(u8::MAX)),
        PType::U16 => (0, i128::from(u16::MAX)),
        PType::U32 => (0, i128::from(u32::MAX)),
        PType::U64 => (0, i128::from(u64::MAX)),
        PType::I8 => (i128::from(i8::MIN), i128::from(i8::MAX)),
        PType::I16 => (i128::from(i16::MIN), i128::from(i16::MAX)),
        PType::I32 => (i128::from(i32::MIN), i128::from(i32::MAX)),
        PType::I64 => (i128::from(i64::MIN), i128::from(i64::MAX)),
    }
}

/// An integer of a type, as a value of it.
fn value_of(ptype: PType, integer: i128) -> PValue
    requires { IsTrue (fits ptype integer) }
    ensures value { integer_of result ≡ integer }
    ensures typed { ptype_of_value result ≡ ptype }
{
    match ptype {
        PType::U8 => PValue::U8(integer as u8),
        PType::U16 => PValue::U16(integer as u16),
        PType::U32 => PValue::U32(integer as u32),
        PType::U64 => PValue::U64(integer as u64),
        PType::I8 => PValue::I8(integer as i8),
        PType::I16 => PValue::I16(integer as i16),
        PType::I32 => PValue::I32(integer as i32),
        PType::I64 => PValue::I64(integer as i64),
    }
}

/// How many items of an array are not null and lie from a first to a last integer, both of which are of the items' type.
fn count_typed(
    alloc: Global,
    array: &ArrayRef,
    ptype: PType,
    first: i128,
    last: i128,
) -> Result<usize, FastLanesError>
    requires typed { IsTrue (has_ptype ptype (column array.now).dtype) }
    requires first { IsTrue (fits ptype first) }
    requires last { IsTrue (fits ptype last) }
    ensures { Answers (λ n. n) result (Ok (count_of (λ z. int_le first z && int_le z last) (column array.now))) }
{
    let lower = Scalar::primitive(value_of(ptype, first), Nullability::NonNullable);
    let upper = Scalar::primitive(value_of(ptype, last), Nullability::NonNullable);
    count_between(alloc, array, &lower, &upper, &INCLUDED)
}

/// How many items of an array are not null and lie from a first to a last integer.
fn count_from_to(
    alloc: Global,
    array: &ArrayRef,
    ptype: PType,
    first: i128,
    last: i128,
) -> Result<usize, FastLanesError>
    requires { IsTrue (has_ptype ptype (column array.now).dtype) }
    ensures { Answers (λ n. n) result (Ok (count_of (λ z. int_le first z && int_le z last) (column array.now))) }
{
    let (least, greatest) = bounds_of(ptype);
    let low = first.max(least);
    let high = last.min(greatest);
    items_are_in_range(array);
    if low > high {
        return Ok(0);
    }
    count_typed(alloc, array, ptype, low, high)
}

/// How many items of an array of integers are in a range and not null.
fn count_in_range(
    alloc: Global,
    array: &ArrayRef,
    ptype: PType,
    range: PassingRange,
) -> Result<usize, FastLanesError>
    requires { IsTrue (has_ptype ptype (column array.now).dtype) }
    ensures { Answers (λ n. n) result (Ok (count_of (is_in_range range) (column array.now))) }
{
    let within = count_from_to(alloc, array, ptype, range.first, range.last)?;
    if !range.is_inverted {
        return Ok(within);
    }
    let valid = array.len() - null_count(alloc, array)?;
    Ok(valid - within)
}

/// How many items of an array are not null and pass a test.
///
/// # Errors
/// `NotInteger`; else only `OutOfMemory`.
pub fn count_passing(alloc: Global, array: &ArrayRef, test: &Test) -> Result<usize, FastLanesError>
    ensures { Answers (λ n. n) result (of_integers (column array.now) (count_of (passes test.now) (column array.now))) }
{
    let DType::Primitive(ptype, _) = array.dtype() else {
        return Err(FastLanesError::NotInteger);
    };
    items_are_in_range(array);
    // For the proof: an integer of the type has at most 64 bits.
    let _bounds = bounds_of(ptype);
    count_in_range(alloc, array, ptype, test.range())
}
