//! Arrays of each plain kind: lists of operations on them, and queries to them.

use std::alloc::Global;
use vortex_fastlanes::array::*;
use vortex_fastlanes::laws::{item_of_decoded, slice_of_slice};
use vortex_fastlanes::*;

/// What makes an array.
type Built = Result<ArrayRef, FastLanesError>;

/// The values 10 and 30, with a null between them.
fn three(alloc: Global) -> Built {
    Ok(PrimitiveArray::from_options(alloc, &[Some(10u8), None, Some(30)])?.into_array())
}

/// Three copies of 7.
fn sevens() -> Built {
    let seven = Scalar::primitive(PValue::U8(7), Nullability::NonNullable);
    Ok(ConstantArray::new(seven, 3)?.into_array())
}

/// True, false and true.
fn bools(alloc: Global) -> Built {
    let bits = BitList::from_fn(alloc, 3, |i| i != 1)?;
    Ok(BoolArray::new(bits, Validity::NonNullable)?.into_array())
}

/// The item at an index, or `None` of a null and past the end.
fn item_at(array: &ArrayRef, alloc: Global, i: usize) -> Option<PValue> {
    if i >= array.len() {
        return None;
    }
    match item_of_decoded(array, alloc, i) {
        Ok((_, item)) => item.as_pvalue(),
        Err(_) => None,
    }
}

/// The first item of what was made, or why there is none.
fn first(made: Built, alloc: Global) -> Result<Option<PValue>, FastLanesError> {
    match made {
        Ok(array) => Ok(item_at(&array, alloc, 0)),
        Err(refusal) => Err(refusal),
    }
}

/// The last item of three and the first, of which the last is kept, in another type.
fn operations(alloc: Global) -> Result<Vec<Op>, FastLanesError> {
    let ranges = Op::TakeRanges(Vec::from_slice(alloc, &[(2, 1), (0, 1)])?);
    let last = Op::Filter(Mask::Values(BitList::from_fn(alloc, 2, |i| i == 1)?));
    let cast = Op::Cast(DType::Primitive(PType::I64, Nullability::NonNullable));
    Ok(Vec::from_array(alloc, [ranges, last, cast])?)
}

/// What the operations make of an array.
fn run(array: Built, alloc: Global) -> Built {
    let (array, ops) = (array?, operations(alloc)?);
    apply_all(alloc, &array, &ops)
}

#[test]
fn runs_operations_in_order(rt: HostRuntime) {
    let alloc = rt.alloc();
    assert!(rt; first(run(three(alloc), alloc), alloc) == Ok(Some(PValue::I64(10))));
    assert!(rt; first(run(sevens(), alloc), alloc) == Ok(Some(PValue::I64(7))));
    assert!(rt; first(run(bools(alloc), alloc), alloc) == Err(FastLanesError::NotInteger));
}

/// The last of the last two items, by a slice of a slice.
fn sliced_twice(array: Built, alloc: Global) -> Built {
    let array = array?;
    if array.len() != 3 {
        return Err(FastLanesError::RangeOutOfBounds);
    }
    let (_, part) = slice_of_slice(&array, alloc, 1..3, 1..2)?;
    Ok(part)
}

#[test]
fn slices_slices(rt: HostRuntime) {
    let alloc = rt.alloc();
    assert!(rt; first(sliced_twice(three(alloc), alloc), alloc) == Ok(Some(PValue::U8(30))));
}

/// The first and the last of three booleans with a null between them.
fn ends(tests: &BoolArray) -> Option<(bool, bool)> {
    if tests.len() != 3 || tests.get(1).is_some() {
        return None;
    }
    Some((tests.get(0)?, tests.get(2)?))
}

/// Which ends of an array of bytes are below 30.
fn compares(array: &ArrayRef, alloc: Global) -> Option<(bool, bool)> {
    let DType::Primitive(PType::U8, _) = array.dtype() else {
        return None;
    };
    let constant = Scalar::primitive(PValue::U8(30), Nullability::NonNullable);
    match array.compare(alloc, CompareOperator::Lt, &constant) {
        Ok(tests) => ends(&tests),
        Err(_) => None,
    }
}

/// Which ends of an array of bytes lie from 10 to below 30, when it is asked for them.
fn asks(array: &ArrayRef, alloc: Global) -> Option<(bool, bool)> {
    let DType::Primitive(PType::U8, _) = array.dtype() else {
        return None;
    };
    let lower = Scalar::primitive(PValue::U8(10), Nullability::NonNullable);
    let upper = Scalar::primitive(PValue::U8(30), Nullability::NonNullable);
    let options = BetweenOptions {
        lower_strict: StrictComparison::NonStrict,
        upper_strict: StrictComparison::Strict,
    };
    match ask(alloc, array, &Query::Between(lower, upper, options)) {
        Ok(Answer::Bools(tests)) => ends(&tests),
        _ => None,
    }
}

/// Whether the first end alone is below 30, asked in both ways.
fn tests_ends(array: Built, alloc: Global) -> bool {
    match array {
        Ok(array) => {
            compares(&array, alloc) == Some((true, false))
                && asks(&array, alloc) == Some((true, false))
        }
        Err(_) => false,
    }
}

#[test]
fn tests_each_item(rt: HostRuntime) {
    assert!(rt; tests_ends(three(rt.alloc()), rt.alloc()));
}

#[test]
fn bools_have_no_constant(rt: HostRuntime) {
    let truth = Scalar::bool(true, Nullability::NonNullable);
    assert!(rt; ConstantArray::new(truth, 1).err() == Some(FastLanesError::NotInteger));
}
