//! Columns of nullable integers in light encodings over blocks of 1024 items: the crate that users
//! list and import. It re-exports what the crates below have, under the names of the Rust crate.
#![tactic(auto)]

pub mod array;
pub mod bitpack_compress;
pub mod bitpack_decompress;
pub mod bitpacking;
pub mod compress;
pub mod delta;
pub mod encode;
pub mod for_;
pub mod laws;
pub mod plugin;
pub mod rle;
pub mod scan;
pub mod unpack_iter;

pub use crate::bitpacking::{
    BitPacked, BitPackedArray, BitPackedArrayExt, BitPackedData, BitPackedDataParts,
    BitPackedSlots, BitWidths, BitWidthsView,
};
pub use crate::delta::{
    Delta, DeltaArray, DeltaArrayExt, DeltaData, DeltaSlots, delta_compress, delta_decompress,
};
pub use crate::for_::{FoR, FoRArray, FoRArrayExt, FoRData, FoRReferences, FoRSlots};
pub use crate::rle::{
    Dictionary, RLE, RLEArray, RLEArrayExt, RLEData, RLESlots, RleProbeState, rle_decompress,
};
pub use fastlanes::{FL_CHUNK_SIZE, FastLanes, Work};
pub use fl_column::{
    BetweenOptions, BitList, BoolArray, CompareOperator, ConstantArray, DType, FastLanesError,
    Mask, NativePType, Nullability, PType, PValue, PhysicalPType, PrimitiveArray, Scalar,
    StrictComparison, Validity,
};
pub use fl_metadata::PatchesMetadata;
pub use fl_patches::Patches;
pub use fl_serde::{BitPackedPlugin, FoRPlugin};
pub use fl_serialized::ids::{bitpacked_v1_id, bitpacked_v2_id, for_v1_id, for_v2_id};
