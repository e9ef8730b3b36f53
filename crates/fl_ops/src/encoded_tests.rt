//! Comparisons and range tests. The items of a FoR array are sums, so a test of them is a test of the sums of the encoded items.
//! If there is one reference, or if the chunks of the references are the blocks of a bit-packed child, the encoded array is not
//! decoded for it.

ghost use Rattle.std.specs.Prelude.{◌≡◌, ◌+ℤ◌, ℤ, pos, false, IfErr, IfNone, IfOk, IfSome, IsTrue, None, Ok, unwrap_or};
ghost use Rattle.fastlanes.specs.Counts.{Counts};
ghost use Rattle.fl_types.specs.declared.error.FastLanesError.TheVariants.{OutOfMemory};
ghost use Rattle.fl_types.specs.Integers.{wrap};
ghost use Rattle.fl_types.specs.Refusals.{Answers};
ghost use Rattle.fl_types.specs.Types.{has_ptype, is_integer};
ghost use Rattle.fl_types.specs.Values.{integer_of, ptype_of_value, scalar_parts};
ghost use Rattle.fl_column.specs.Columns.{column_of_bools, ptype_of_column};
ghost use Rattle.fl_column.specs.Queries.{holds, is_between, tested};
ghost use Rattle.fl_bitpacking.specs.RangeTests.{IsTestOf, passes};
ghost use Rattle.fl_array.specs.BitPackedArrays.{bitpacked_in};
ghost use Rattle.fl_array.specs.FoRArrays.{GlobalReference, tree_of_for};
ghost use Rattle.fl_array.specs.Trees.{column};
ghost use Rattle.fl_ops.specs.Selections.{is_global_for};
ghost use Rattle.fl_ops.specs.Unpacked.{IsTestOfArray};

use crate::plain_ops;
use crate::selection::as_global_for;
use fastlanes::Work;
use fl_array::ArrayRef;
use fl_array::for_::{FoRArray, FoRReferences};
use fl_array::laws::for_is_well_formed;
use fl_bitpacking::RangeTest;
use fl_column::{BetweenOptions, BoolArray, CompareOperator, FastLanesError, PValue, Scalar};
use std::alloc::Global;

/// The test of the encoded items of a FoR array that is the given test of its items.
fn test_of_sums(array: &FoRArray, reference: Scalar, range: RangeTest) -> RangeTest
    requires same { GlobalReference (scalar_parts reference) ≡ array.now.references }
    requires test { IsTestOf (ptype_of_column (column array.now.encoded)) range }
    ensures test { (z : ℤ) → passes result z ≡ passes range (wrap (ptype_of_column (column array.now.encoded)) (z +ℤ unwrap_or (scalar_parts reference).value (pos 0))) }
    ensures typed { IsTestOf (ptype_of_column (column array.now.encoded)) result }
{
    for_is_well_formed(array);
    match reference.as_pvalue() {
        Some(reference) => range.of_sums(reference),
        None => unreachable!(),
    }
}

/// The array inside of the FoR arrays of one reference that an array is, and the test of its items that is the given test of
/// the array's; of any other array itself and its test.
fn encoded_test(array: &ArrayRef, range: RangeTest) -> (&ArrayRef, RangeTest)
    requires integers { IsTrue (is_integer (column array.now).dtype) }
    requires test { IsTestOf (ptype_of_column (column array.now)) range }
    ensures integers { IsTrue (is_integer (column result.0.now).dtype) }
    ensures inner { is_global_for result.0.now ≡ false }
    ensures test { IsTestOf (ptype_of_column (column result.0.now)) result.1 }
    ensures answers { tested (passes result.1) (column result.0.now) ≡ tested (passes range) (column array.now) }
    ensures work { (work : Counts) → IsTestOfArray result.0.now (passes result.1) work → IsTestOfArray array.now (passes range) work }
{
    match as_global_for(array) {
        Some((encoded, reference)) => {
            let sums = test_of_sums(encoded, reference, range);
            encoded_test(encoded.encoded(), sums)
        }
        None => (array, range),
    }
}

/// The array inside of the FoR arrays of one reference, and the test of its items that says how the array's items compare with a
/// constant.
pub(crate) fn encoded_comparison(
    array: &ArrayRef,
    operator: CompareOperator,
    constant: PValue,
) -> (&ArrayRef, RangeTest)
    requires { IsTrue (is_integer (column array.now).dtype) }
    ensures integers { IsTrue (is_integer (column result.0.now).dtype) }
    ensures inner { is_global_for result.0.now ≡ false }
    ensures test { IsTestOf (ptype_of_column (column result.0.now)) result.1 }
    ensures answers { tested (passes result.1) (column result.0.now) ≡ tested (holds operator (integer_of constant)) (column array.now) }
    ensures work { (work : Counts) → IsTestOfArray result.0.now (passes result.1) work → IsTestOfArray array.now (holds operator (integer_of constant)) work }
{
    encoded_test(array, RangeTest::comparing(operator, constant))
}

/// The array inside of the FoR arrays of one reference, and the test of its items that says whether the array's items lie between
/// two bounds.
pub(crate) fn encoded_between(
    array: &ArrayRef,
    lower: PValue,
    upper: PValue,
    options: BetweenOptions,
) -> (&ArrayRef, RangeTest)
    requires { IsTrue (is_integer (column array.now).dtype) }
    ensures integers { IsTrue (is_integer (column result.0.now).dtype) }
    ensures inner { is_global_for result.0.now ≡ false }
    ensures test { IsTestOf (ptype_of_column (column result.0.now)) result.1 }
    ensures answers { tested (passes result.1) (column result.0.now) ≡ tested (is_between options (integer_of lower) (integer_of upper)) (column array.now) }
    ensures work { (work : Counts) → IsTestOfArray result.0.now (passes result.1) work → IsTestOfArray array.now (is_between options (integer_of lower) (integer_of upper)) work }
{
    encoded_test(array, RangeTest::between(lower, upper, options))
}

/// The answers of a test for the items of a FoR array whose chunks are the blocks of a bit-packed child, and what was unpacked for
/// it; `None` for any other array.
fn test_packed_chunks(
    alloc: Global,
    array: &ArrayRef,
    range: RangeTest,
) -> Result<Option<(BoolArray, Work)>, FastLanesError>
    requires test { IsTestOf (ptype_of_column (column array.now)) range }
    requires inner { is_global_for array.now ≡ false }
    requires other { bitpacked_in array.now ≡ None }
    ensures refused { IfErr result (λ e. e ≡ OutOfMemory) }
    ensures answers { IfOk result (λ o. IfSome o (λ r. column_of_bools r.0 ≡ tested (passes range) (column array.now))) }
    ensures work { IfOk result (λ o. IfSome o (λ r. IsTestOfArray array.now (passes range) r.1)) }
    ensures none { IfOk result (λ o. IfNone o ((work : Counts) → IsTestOfArray array.now (passes range) work)) }
{
    let Some(sums) = array.as_for() else {
        return Ok(None);
    };
    match sums.references() {
        FoRReferences::Blocked(references) => match sums.packed_in_chunks() {
            Some(packed) => {
                let answers = sums.test_packed_counted(alloc, packed, references, range)?;
                Ok(Some(answers))
            }
            None => Ok(None),
        },
        FoRReferences::Global(_) => Ok(None),
    }
}

/// The answers of a test for the items of a bit-packed array, or of a FoR array whose chunks are the blocks of a bit-packed child,
/// and what was unpacked for it; `None` for any other array.
pub(crate) fn test_packed(
    alloc: Global,
    array: &ArrayRef,
    range: RangeTest,
) -> Result<Option<(BoolArray, Work)>, FastLanesError>
    requires test { IsTestOf (ptype_of_column (column array.now)) range }
    requires inner { is_global_for array.now ≡ false }
    ensures refused { IfErr result (λ e. e ≡ OutOfMemory) }
    ensures answers { IfOk result (λ o. IfSome o (λ r. column_of_bools r.0 ≡ tested (passes range) (column array.now))) }
    ensures work { IfOk result (λ o. IfSome o (λ r. IsTestOfArray array.now (passes range) r.1)) }
    ensures none { IfOk result (λ o. IfNone o ((work : Counts) → IsTestOfArray array.now (passes range) work)) }
{
    let Some(packed) = array.as_bitpacked() else {
        return test_packed_chunks(alloc, array, range);
    };
    let answers = packed.test_counted(alloc, range)?;
    Ok(Some(answers))
}

/// How each item compares with a constant: a plain or constant array compares its own, of any other array the encoded items inside
/// of the FoR arrays of one reference are tested.
pub(crate) fn compare_plain(
    alloc: Global,
    array: &ArrayRef,
    operator: CompareOperator,
    constant: PValue,
) -> Result<BoolArray, FastLanesError>
    requires integers { IsTrue (is_integer (column array.now).dtype) }
    requires typed { IsTrue (has_ptype (ptype_of_value constant) (column array.now).dtype) }
    ensures { Answers column_of_bools result (Ok (tested (holds operator (integer_of constant)) (column array.now))) }
{
    if let Some(plain) = array.as_primitive() {
        return plain.compare(alloc, operator, constant);
    }
    if let Some(constant_array) = array.as_constant() {
        return constant_array.compare(alloc, operator, constant);
    }
    let (encoded, range) = encoded_comparison(array, operator, constant);
    plain_ops::test(alloc, encoded, range)
}

/// Whether each item lies between two bounds, in the ways of `compare_plain`.
pub(crate) fn between_plain(
    alloc: Global,
    array: &ArrayRef,
    lower: PValue,
    upper: PValue,
    options: BetweenOptions,
) -> Result<BoolArray, FastLanesError>
    requires integers { IsTrue (is_integer (column array.now).dtype) }
    requires lower { IsTrue (has_ptype (ptype_of_value lower) (column array.now).dtype) }
    requires upper { IsTrue (has_ptype (ptype_of_value upper) (column array.now).dtype) }
    ensures { Answers column_of_bools result (Ok (tested (is_between options (integer_of lower) (integer_of upper)) (column array.now))) }
{
    if let Some(plain) = array.as_primitive() {
        return plain.between(alloc, lower, upper, options);
    }
    if let Some(constant_array) = array.as_constant() {
        return constant_array.between(alloc, lower, upper, options);
    }
    let (encoded, range) = encoded_between(array, lower, upper, options);
    plain_ops::test(alloc, encoded, range)
}
