//! Tests of integers.

ghost use Rattle.std.specs.Prelude.{◌≡◌, ◌&&◌, ℤ, Bool};
ghost use Rattle.fl_types.specs.declared.query.CompareOperator.{CompareOperator};
ghost use Rattle.fl_column.specs.Queries.{holds, is_before, is_between};

use fl_column::{
    BetweenOptions, CompareOperator, NativePType, StrictComparison, is_equal, is_less,
};

/// A test of integers.
pub(crate) trait ItemTest<T: NativePType>: Copy {
    /// Whether an integer passes.
    ghost passing: { Self → ℤ → Bool };

    /// Whether an integer passes.
    fn passes(&self, item: T) -> bool
        ensures { result ≡ passing self.now (T.value item) };
}

/// A comparison with a constant.
#[derive(Clone, Copy)]
pub(crate) struct Comparison<T> {
    /// How an item is compared.
    pub(crate) operator: CompareOperator,
    /// What it is compared with.
    pub(crate) constant: T,
}

impl<T: NativePType> ItemTest<T> for Comparison<T> {
    ghost passing = { λ s z. holds s.operator (T.value s.constant) z };

    fn passes(&self, item: T) -> bool {
        let constant = self.constant;
        match self.operator {
            CompareOperator::Eq => is_equal(item, constant),
            CompareOperator::NotEq => !is_equal(item, constant),
            CompareOperator::Gt => is_less(constant, item),
            CompareOperator::Gte => !is_less(item, constant),
            CompareOperator::Lt => is_less(item, constant),
            CompareOperator::Lte => !is_less(constant, item),
        }
    }
}

/// A range with its bounds.
#[derive(Clone, Copy)]
pub(crate) struct Between<T> {
    /// The lower bound.
    pub(crate) lower: T,
    /// The upper bound.
    pub(crate) upper: T,
    /// Whether the bounds are excluded.
    pub(crate) options: BetweenOptions,
}

/// Whether the first value is below the second, or at it where that is allowed.
fn is_before<T: NativePType>(strict: StrictComparison, first: T, second: T) -> bool
    ensures { result ≡ is_before strict (T.value first) (T.value second) }
{
    match strict {
        StrictComparison::Strict => is_less(first, second),
        StrictComparison::NonStrict => !is_less(second, first),
    }
}

impl<T: NativePType> ItemTest<T> for Between<T> {
    ghost passing = { λ s z. is_between s.options (T.value s.lower) (T.value s.upper) z };

    fn passes(&self, item: T) -> bool {
        is_before(self.options.lower_strict, self.lower, item)
            && is_before(self.options.upper_strict, item, self.upper)
    }
}
