//! Run-length encoded arrays, and the encoder that makes them of dictionaries.

pub use fl_array::rle::{
    Dictionary, RLE, RLEArray, RLEArrayExt, RLEData, RLESlots, RleProbeState, rle_decompress,
};
