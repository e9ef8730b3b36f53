//! Laws of blocks of 1024 items: where their items are, and of the words that are packed.

pub use fastlanes::laws::{
    items_exist, one_packing, one_unpacking, places, put_then_read, segments, sum_and_difference,
    word_is_in_range, words_are_in_range,
};
