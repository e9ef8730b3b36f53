//! What is asked most of an array: how many items are null or pass a test, the least and the greatest, the sum, and the
//! items that pass, also of those that a mask keeps; which items are one of a list, where a value stands in a sorted
//! array, and the positions of set bits.

pub use fl_scan::{
    Sum, between_under, compare_under, count, count_between, count_under, filter_between,
    filter_by, indices_of, is_in, lower_bound, min_max, min_max_under, null_count, sum, sum_under,
};
