//! Widths of least cost, their exceptions, and packing whole columns.

pub use fl_array::bitpacking::bitpack_compress::{
    bitpack_blocked_to_best_bit_widths, bitpack_encode, bitpack_encode_blocked,
    bitpack_encode_unchecked, bitpack_to_best_bit_width,
};
pub use fl_bitpacking::bitpack_compress::word_packing::bitpack_primitive;
pub use fl_bitpacking::bitpack_compress::{bitpack_into, bitpack_unchecked};
pub use fl_patches::{
    bit_width_histogram, find_best_bit_width, find_best_bit_widths, gather_patches,
};
