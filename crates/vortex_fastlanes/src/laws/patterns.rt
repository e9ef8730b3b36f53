//! Laws of the bit patterns of integers.

pub use fl_types::laws::{
    integer_is_in_range, integers_have_patterns, patterns_have_integers, value_is_in_range,
};
