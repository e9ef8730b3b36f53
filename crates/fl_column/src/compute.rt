//! Queries of plain arrays of integers: comparisons, range tests, constancy and order.

mod between;
mod compare;
pub(crate) mod is_constant;
pub(crate) mod is_sorted;
