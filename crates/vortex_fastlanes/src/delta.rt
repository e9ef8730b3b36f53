//! Delta arrays.

pub use fl_array::delta::{
    Delta, DeltaArray, DeltaArrayExt, DeltaData, DeltaSlots, delta_decompress,
};
pub use fl_codec::delta::delta_compress;
