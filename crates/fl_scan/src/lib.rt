//! What is asked most of a column of integers: how many items meet a test and which ones, the least and the greatest, and the sum.
#![tactic(auto)]

mod arrays;
mod block_tests;
mod blocks;
mod bounds;
mod counting;
mod counts;
mod filtering;
mod folds;
pub mod indices;
mod kept;
pub mod laws;
mod marks;
mod membership;
mod one_of;
mod passing;
mod plain;
mod prepared;
pub mod queries;
pub mod searches;
pub mod selections;
mod source;
pub mod sums;
mod totals;

pub use crate::indices::indices_of;
pub use crate::queries::{
    count, count_between, filter_between, filter_by, min_max, null_count, sum,
};
pub use crate::searches::{is_in, lower_bound};
pub use crate::selections::{between_under, compare_under, count_under, min_max_under, sum_under};
pub use crate::sums::Sum;
