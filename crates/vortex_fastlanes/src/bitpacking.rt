//! Bit-packed arrays, at one width or at a width for each block.

pub use fl_array::bitpacking::{
    BitPacked, BitPackedArray, BitPackedArrayExt, BitPackedData, BitPackedDataParts,
    BitPackedSlots, BitWidths, BitWidthsView,
};
