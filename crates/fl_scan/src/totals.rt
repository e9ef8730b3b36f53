//! Answers of what is scanned, at its type.

ghost use Rattle.std.specs.Prelude.{◌≡◌, IfErr, IfOk, IfSome, IsTrue, Ok, filter, map, option_map};
ghost use Rattle.std.specs.Int.{int_wrap, w128};
ghost use Rattle.fl_types.specs.declared.error.FastLanesError.TheVariants.{OutOfMemory};
ghost use Rattle.fl_types.specs.Refusals.{Answers};
ghost use Rattle.fl_types.specs.Types.{has_ptype, nullability_in};
ghost use Rattle.fl_types.specs.Values.{integer_of, ptype_of_value};
ghost use Rattle.fl_column.specs.Columns.{column_of_primitive};
ghost use Rattle.fl_column.specs.Queries.{holds, is_between};
ghost use Rattle.fl_scan.specs.Sources.{column_of_source};
ghost use Rattle.fl_scan.specs.Counts.{IsRange};
ghost use Rattle.fl_scan.specs.Totals.{count_of, filtered_by, greatest_item, least_item, sum_of, valid_items};

use crate::counts::{count_constant, count_plain};
use crate::filtering::{filter_constant, filter_plain};
use crate::folds::extremes::Extremes;
use crate::folds::tests::{Between, Comparison, ItemTest};
use crate::folds::total::Total;
use crate::source::Source;
use fl_bitpacking::RangeTest;
use fl_bitpacking::unpack_iter::BitPacked;
use fl_column::{
    BetweenOptions, CompareOperator, FastLanesError, NativePType, Nullability, PValue,
    PhysicalPType, PrimitiveArray,
};
use num_traits::WrappingAdd;
use std::alloc::Global;

/// A comparison with a constant of the type.
pub(crate) fn comparison<T: NativePType>(
    operator: CompareOperator,
    constant: PValue,
) -> Comparison<T>
    requires { ptype_of_value constant ≡ T.PTYPE }
    ensures operator { result.operator ≡ operator }
    ensures constant { T.value result.constant ≡ integer_of constant }
{
    Comparison {
        operator,
        constant: T::from_pvalue(constant).unwrap(),
    }
}

/// A range between bounds of the type.
pub(crate) fn range<T: NativePType>(
    lower: PValue,
    upper: PValue,
    options: BetweenOptions,
) -> Between<T>
    requires lower { ptype_of_value lower ≡ T.PTYPE }
    requires upper { ptype_of_value upper ≡ T.PTYPE }
    ensures lower { T.value result.lower ≡ integer_of lower }
    ensures upper { T.value result.upper ≡ integer_of upper }
    ensures options { result.options ≡ options }
{
    Between {
        lower: T::from_pvalue(lower).unwrap(),
        upper: T::from_pvalue(upper).unwrap(),
        options,
    }
}

/// How many valid items pass a test.
fn count_passing<T: BitPacked + PhysicalPType + WrappingAdd, P: ItemTest<T>>(
    source: &Source,
    test: P,
    range: RangeTest,
) -> usize
    requires typed { IsTrue (has_ptype T.PTYPE (column_of_source source.now).dtype) }
    requires ranged { IsRange T.PTYPE (P.passing test) range }
    ensures { result ≡ count_of (P.passing test) (column_of_source source.now) }
{
    match source {
        Source::Primitive(plain) => count_plain(plain, test),
        Source::Constant(constant) => count_constant(constant, test),
        Source::Blocks(blocks) => blocks.count::<T>(range),
        Source::Kept(kept) => kept.count::<T>(range),
        Source::Decoded(plain) => count_plain(plain, test),
    }
}

/// How many valid items compare so with a constant.
pub(crate) fn count_compared<T: BitPacked + PhysicalPType + WrappingAdd>(
    source: &Source,
    operator: CompareOperator,
    constant: PValue,
) -> usize
    requires typed { IsTrue (has_ptype T.PTYPE (column_of_source source.now).dtype) }
    requires constant { ptype_of_value constant ≡ T.PTYPE }
    ensures { result ≡ count_of (holds operator (integer_of constant)) (column_of_source source.now) }
{
    let test = comparison::<T>(operator, constant);
    let range = RangeTest::comparing(operator, constant);
    count_passing(source, test, range)
}

/// How many valid items lie between two bounds.
pub(crate) fn count_in_range<T: BitPacked + PhysicalPType + WrappingAdd>(
    source: &Source,
    lower: PValue,
    upper: PValue,
    options: BetweenOptions,
) -> usize
    requires typed { IsTrue (has_ptype T.PTYPE (column_of_source source.now).dtype) }
    requires lower { ptype_of_value lower ≡ T.PTYPE }
    requires upper { ptype_of_value upper ≡ T.PTYPE }
    ensures { result ≡ count_of (is_between options (integer_of lower) (integer_of upper)) (column_of_source source.now) }
{
    let test = range::<T>(lower, upper, options);
    let range = RangeTest::between(lower, upper, options);
    count_passing(source, test, range)
}

/// The valid items that pass a test, as a list.
fn items_passing<T: BitPacked + PhysicalPType + WrappingAdd, P: ItemTest<T>>(
    alloc: Global,
    source: &Source,
    test: P,
    range: RangeTest,
) -> Result<Vec<T>, FastLanesError>
    requires typed { IsTrue (has_ptype T.PTYPE (column_of_source source.now).dtype) }
    requires ranged { IsRange T.PTYPE (P.passing test) range }
    ensures items { IfOk result (λ taken. map T.value taken.items ≡ filter (P.passing test) (valid_items (column_of_source source.now))) }
    ensures memory { IfErr result (λ e. e ≡ OutOfMemory) }
{
    match source {
        Source::Primitive(plain) => filter_plain(alloc, plain, test),
        Source::Constant(constant) => filter_constant(alloc, constant, test),
        Source::Blocks(blocks) => blocks.filter(alloc, range),
        Source::Kept(kept) => kept.filter(alloc, range),
        Source::Decoded(plain) => filter_plain(alloc, plain, test),
    }
}

/// The valid items that pass a test.
fn filter_passing<T: BitPacked + PhysicalPType + WrappingAdd, P: ItemTest<T>>(
    alloc: Global,
    source: &Source,
    nullability: Nullability,
    test: P,
    range: RangeTest,
) -> Result<PrimitiveArray, FastLanesError>
    requires typed { IsTrue (has_ptype T.PTYPE (column_of_source source.now).dtype) }
    requires nullability { nullability ≡ nullability_in (column_of_source source.now).dtype }
    requires ranged { IsRange T.PTYPE (P.passing test) range }
    ensures { Answers column_of_primitive result (Ok (filtered_by (P.passing test) (column_of_source source.now))) }
{
    let items = items_passing(alloc, source, test, range)?;
    Ok(PrimitiveArray::without_nulls(items, nullability))
}

/// The valid items that compare so with a constant.
pub(crate) fn filter_compared<T: BitPacked + PhysicalPType + WrappingAdd>(
    alloc: Global,
    source: &Source,
    nullability: Nullability,
    operator: CompareOperator,
    constant: PValue,
) -> Result<PrimitiveArray, FastLanesError>
    requires typed { IsTrue (has_ptype T.PTYPE (column_of_source source.now).dtype) }
    requires nullability { nullability ≡ nullability_in (column_of_source source.now).dtype }
    requires constant { ptype_of_value constant ≡ T.PTYPE }
    ensures { Answers column_of_primitive result (Ok (filtered_by (holds operator (integer_of constant)) (column_of_source source.now))) }
{
    let test = comparison::<T>(operator, constant);
    let range = RangeTest::comparing(operator, constant);
    filter_passing(alloc, source, nullability, test, range)
}

/// The valid items between two bounds, the lower one first.
pub(crate) fn filter_in_range<T: BitPacked + PhysicalPType + WrappingAdd>(
    alloc: Global,
    source: &Source,
    nullability: Nullability,
    bounds: (PValue, PValue),
    options: BetweenOptions,
) -> Result<PrimitiveArray, FastLanesError>
    requires typed { IsTrue (has_ptype T.PTYPE (column_of_source source.now).dtype) }
    requires nullability { nullability ≡ nullability_in (column_of_source source.now).dtype }
    requires lower { ptype_of_value bounds.0 ≡ T.PTYPE }
    requires upper { ptype_of_value bounds.1 ≡ T.PTYPE }
    ensures { Answers column_of_primitive result (Ok (filtered_by (is_between options (integer_of bounds.0) (integer_of bounds.1)) (column_of_source source.now))) }
{
    let (lower, upper) = bounds;
    let test = range::<T>(lower, upper, options);
    let range = RangeTest::between(lower, upper, options);
    filter_passing(alloc, source, nullability, test, range)
}

/// The sum of the valid items, modulo 2 to the power of 128.
pub(crate) fn wrapped_sum<T: BitPacked + PhysicalPType + WrappingAdd>(
    source: &Source,
) -> Result<i128, FastLanesError>
    requires { IsTrue (has_ptype T.PTYPE (column_of_source source.now).dtype) }
    ensures sum { IfOk result (λ sum. int_wrap w128 sum ≡ int_wrap w128 (sum_of (column_of_source source.now))) }
    ensures memory { IfErr result (λ e. e ≡ OutOfMemory) }
{
    let mut fold = Total { total: 0 };
    source.scan::<T, _>(&mut fold)?;
    Ok(fold.total)
}

/// The least and the greatest valid item, if one is valid.
pub(crate) fn extremes<T: BitPacked + PhysicalPType + WrappingAdd>(
    source: &Source,
) -> Result<Option<(PValue, PValue)>, FastLanesError>
    requires { IsTrue (has_ptype T.PTYPE (column_of_source source.now).dtype) }
    ensures least { IfOk result (λ o. option_map (λ p. integer_of p.0) o ≡ least_item (column_of_source source.now)) }
    ensures greatest { IfOk result (λ o. option_map (λ p. integer_of p.1) o ≡ greatest_item (column_of_source source.now)) }
    ensures typed { IfOk result (λ o. IfSome o (λ p. (ptype_of_value p.0 ≡ T.PTYPE) × (ptype_of_value p.1 ≡ T.PTYPE))) }
    ensures memory { IfErr result (λ e. e ≡ OutOfMemory) }
{
    let mut fold = Extremes::<T> { found: None };
    source.scan(&mut fold)?;
    match fold.found {
        Some((least, greatest)) => Ok(Some((least.into_pvalue(), greatest.into_pvalue()))),
        None => Ok(None),
    }
}
