//! Reading bit-packed arrays and packed items, and counting exceptions.

pub use fl_array::bitpacking::bitpack_decompress::{
    unpack_array, unpack_array_blocked, unpack_primitive_array, unpack_single,
    unpack_single_blocked,
};
pub use fl_bitpacking::bitpack_decompress::unpack_single_primitive;
pub use fl_patches::count_exceptions;
