//! Laws of columns.

pub use fl_column::laws::{
    cast_of_cast, item_of_slice, not_equal_is_not_equal, point_read, slice_of_slice,
    stored_integers_are_in_range, take_of_slice,
};
