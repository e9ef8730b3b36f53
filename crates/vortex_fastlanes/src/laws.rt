//! Laws of every array, and in modules those of what arrays are made of.

pub mod blocks;
pub mod codecs;
pub mod columns;
pub mod messages;
pub mod packing;
pub mod patterns;

pub use fl_array::laws::{
    array_is_well_formed, bitpacked_is_well_formed, bitpacked_items_are_in_range,
    delta_is_well_formed, delta_items_are_in_range, for_is_well_formed, item_of_decoded,
    items_are_in_range, rle_is_well_formed, slice_of_slice, to_blocked_twice,
};
pub use fl_compress::laws::{candidates_have_sizes, encoded_is_shallow};
pub use fl_encode::laws::{
    encoded_shows_scheme, grammar_is_read, printed_is_read, wrong_byte_is_the_first,
};
pub use fl_ops::laws::{
    cast_of_cast, differing_is_not_equal, one_result, same_shown, stated_result, sums_rise,
    take_of_slice,
};
pub use fl_scan::laws::{
    count_is_of_true_answers, extremes_bound_each_item, filter_is_by_true_answers,
    marks_count_what_is_kept, slices_add_up,
};
pub use fl_serde::laws::{
    bytes_are_those_of_buffers, node_has_one_column, round_trip, same_column_and_kind,
    written_blocked,
};
