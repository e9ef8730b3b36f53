//! What the statistics of a chunk say of a test of its items.

ghost use Rattle.std.specs.Prelude.{◌≡◌, ◌≤ℤ◌, ◌&&◌, Bool, FitsSigned, IfOk, None, Some, ℤ, int_le, not};
ghost use Rattle.std.specs.Int.{w128};
ghost use Rattle.fl_column.specs.Columns.{Column};
ghost use Rattle.fl_column.specs.Queries.{holds, is_before};
ghost use Rattle.fl_file.specs.declared.pruning.Pruning.TheVariants as prunings;
ghost use Rattle.fl_file.specs.declared.statistics.Extremes.{Extremes};
ghost use Rattle.fl_file.specs.Statistics.{AreStatisticsOf, statistics_of_column, valid_items};
ghost use Rattle.fl_file.specs.Pruning.{IsExact, IsPlanOf, SaysOf, is_from, is_in_range, is_up_to, passes};

use crate::foot::ChunkEntry;
use crate::statistics::{ChunkStatistics, Extremes};
use fl_column::{BetweenOptions, CompareOperator, StrictComparison};
use std::alloc::{AllocError, Global};

/// A test of an item. Constants are compared as integers, also where the type of the items does not have them.
#[derive(Clone, Copy, Debug, PartialEq, Eq)]
pub enum Test {
    /// How the item compares with a constant.
    Compare {
        /// The comparison.
        operator: CompareOperator,
        /// The constant.
        constant: i128,
    },
    /// Whether the item lies between two bounds.
    Between {
        /// The lower bound.
        lower: i128,
        /// The upper bound.
        upper: i128,
        /// Whether the bounds are excluded.
        options: BetweenOptions,
    },
}

/// The integers that pass a test: those from a first to a last one, or all others.
#[derive(Clone, Copy, Debug, PartialEq, Eq)]
pub struct PassingRange {
    /// The first of them.
    pub first: i128,
    /// The last of them, below the first where there are none.
    pub last: i128,
    /// Whether all others pass.
    pub is_inverted: bool,
}

/// Which valid items of a chunk pass a test, as far as its statistics say.
#[derive(Clone, Copy, Debug, PartialEq, Eq)]
pub enum Pruning {
    /// None passes: the chunk need not be read.
    Skip,
    /// Each passes: the items need not be tested.
    All,
    /// Some may pass and some not.
    Some,
}

/// What the statistics of a chunk say of a test of its items. Where no item is valid, the chunk is skipped. Else the least
/// and the greatest item decide: `Skip` where no integer between them passes, `All` where each does.
#[tactic(auto, using(crate::proofs::StatisticsLaws::statistics_are))]
pub fn prune(statistics: &ChunkStatistics, test: &Test) -> Pruning
    ensures sound { (c : Column) → AreStatisticsOf statistics.now c → SaysOf result (passes test.now) (valid_items c) }
    ensures of_column { (c : Column) → statistics.now ≡ statistics_of_column c → SaysOf result (passes test.now) (valid_items c) }
    ensures no_item { statistics.now.extremes ≡ None → result ≡ prunings.Skip }
    ensures exact { (e : Extremes) → statistics.now.extremes ≡ Some e → e.least ≤ℤ e.greatest → IsExact result (passes test.now) e.least e.greatest }
{
    match statistics.extremes {
        None => Pruning::Skip,
        Some(extremes) => prune_extremes(extremes, test),
    }
}

/// What the statistics of each chunk of a file say of a test of its items.
///
/// # Errors
/// Where a growth of memory is refused.
pub fn plan(alloc: Global, chunks: &[ChunkEntry], test: &Test) -> Result<Vec<Pruning>, AllocError>
    ensures { IfOk result (λ plan. IsPlanOf test.now chunks.now plan.items) }
{
    let mut plan = Vec::with_capacity(alloc, chunks.len())?;
    for chunk in chunks {
        plan.push(prune(&chunk.statistics, test))?;
    }
    Ok(plan)
}

/// What the least and the greatest item say of a test.
fn prune_extremes(extremes: Extremes, test: &Test) -> Pruning
    ensures { extremes.least ≤ℤ extremes.greatest → IsExact result (passes test.now) extremes.least extremes.greatest }
{
    prune_range(extremes, test.range())
}

/// What the least and the greatest item say of the test whether an item is in a range.
fn prune_range(extremes: Extremes, range: PassingRange) -> Pruning
    ensures { extremes.least ≤ℤ extremes.greatest → IsExact result (is_in_range range) extremes.least extremes.greatest }
{
    let says = prune_from_to(extremes, range.first, range.last);
    if range.is_inverted {
        says.inverted()
    } else {
        says
    }
}

impl Test {
    /// The integers that pass, of those that an `i128` holds.
    pub fn range(&self) -> PassingRange
        ensures { (z : ℤ) → FitsSigned w128 z → passes self.now z ≡ is_in_range result z }
    {
        match *self {
            Test::Between {
                lower,
                upper,
                options,
            } => from_to(
                first_from(options.lower_strict, lower),
                last_up_to(options.upper_strict, upper),
            ),
            Test::Compare { operator, constant } => range_compared(operator, constant),
        }
    }
}

/// The integers that compare so with a constant.
fn range_compared(operator: CompareOperator, constant: i128) -> PassingRange
    ensures { (z : ℤ) → FitsSigned w128 z → holds operator constant z ≡ is_in_range result z }
{
    match operator {
        CompareOperator::Eq => range_of(constant, constant),
        CompareOperator::NotEq => PassingRange {
            first: constant,
            last: constant,
            is_inverted: true,
        },
        CompareOperator::Gt => from_to(
            first_from(StrictComparison::Strict, constant),
            Some(i128::MAX),
        ),
        CompareOperator::Gte => range_of(constant, i128::MAX),
        CompareOperator::Lt => from_to(
            Some(i128::MIN),
            last_up_to(StrictComparison::Strict, constant),
        ),
        CompareOperator::Lte => range_of(i128::MIN, constant),
    }
}

/// The integers from a first to a last one.
fn range_of(first: i128, last: i128) -> PassingRange
    ensures { (z : ℤ) → is_in_range result z ≡ (int_le first z && int_le z last) }
{
    PassingRange {
        first,
        last,
        is_inverted: false,
    }
}

/// The integers from a first to a last one; none where one of these is `None`.
fn from_to(first: Option<i128>, last: Option<i128>) -> PassingRange
    ensures { (z : ℤ) → is_in_range result z ≡ (is_from first z && is_up_to last z) }
{
    match (first, last) {
        (Some(first), Some(last)) => range_of(first, last),
        _ => range_of(1, 0),
    }
}

/// The first integer behind a lower bound, or the bound where it is included; `None` where an `i128` holds none.
fn first_from(strict: StrictComparison, lower: i128) -> Option<i128>
    ensures { (z : ℤ) → FitsSigned w128 z → is_before strict lower z ≡ is_from result z }
{
    match strict {
        StrictComparison::NonStrict => Some(lower),
        StrictComparison::Strict if lower < i128::MAX => Some(lower + 1),
        StrictComparison::Strict => None,
    }
}

/// The last integer before an upper bound, or the bound where it is included; `None` where an `i128` holds none.
fn last_up_to(strict: StrictComparison, upper: i128) -> Option<i128>
    ensures { (z : ℤ) → FitsSigned w128 z → is_before strict z upper ≡ is_up_to result z }
{
    match strict {
        StrictComparison::NonStrict => Some(upper),
        StrictComparison::Strict if upper > i128::MIN => Some(upper - 1),
        StrictComparison::Strict => None,
    }
}

/// What the least and the greatest item say of the test whether an item is one of `first..=last`.
fn prune_from_to(extremes: Extremes, first: i128, last: i128) -> Pruning
    ensures { extremes.least ≤ℤ extremes.greatest → IsExact result (λ z. int_le first z && int_le z last) extremes.least extremes.greatest }
{
    let low = first.max(extremes.least);
    let high = last.min(extremes.greatest);
    if high < low {
        Pruning::Skip
    } else if first <= extremes.least && extremes.greatest <= last {
        Pruning::All
    } else {
        Pruning::Some
    }
}

impl Pruning {
    /// What is said of the opposite test.
    fn inverted(self) -> Pruning
        ensures { (test : ℤ → Bool) (least greatest : ℤ) → IsExact self test least greatest → IsExact result (λ z. not (test z)) least greatest }
    {
        match self {
            Pruning::Skip => Pruning::All,
            Pruning::All => Pruning::Skip,
            Pruning::Some => Pruning::Some,
        }
    }
}
