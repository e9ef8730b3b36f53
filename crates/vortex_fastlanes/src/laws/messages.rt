//! Laws of the metadata messages.

pub use fl_metadata::{
    row_is_read, row_is_said, scalar_fits, varint_is_shortest, written_is_one_text, written_is_read,
};
