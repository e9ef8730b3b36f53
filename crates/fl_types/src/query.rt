//! Comparisons and range tests.

/// How an item is compared with a constant.
#[derive(Clone, Copy, Debug, PartialEq, Eq, Hash)]
pub enum CompareOperator {
    /// The item equals the constant.
    Eq,
    /// The item does not equal the constant.
    NotEq,
    /// The item is greater than the constant.
    Gt,
    /// The item is greater than or equal to the constant.
    Gte,
    /// The item is less than the constant.
    Lt,
    /// The item is less than or equal to the constant.
    Lte,
}

/// Whether a range excludes its bound.
#[derive(Clone, Copy, Debug, PartialEq, Eq, Hash)]
pub enum StrictComparison {
    /// The bound is excluded.
    Strict,
    /// The bound is included.
    NonStrict,
}

/// Whether a range excludes its two bounds.
#[derive(Clone, Copy, Debug, PartialEq, Eq, Hash)]
pub struct BetweenOptions {
    /// Whether the lower bound is excluded.
    pub lower_strict: StrictComparison,
    /// Whether the upper bound is excluded.
    pub upper_strict: StrictComparison,
}
