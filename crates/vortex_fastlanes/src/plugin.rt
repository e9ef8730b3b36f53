//! Serialized arrays: what a columnar file stores of an array, the messages in it, and a reader of any tree
//! of nodes.

pub use fl_metadata::{BitPackedMetadata, DeltaMetadata, RLEMetadata};
pub use fl_serde::laws::round_trip;
pub use fl_serde::{
    ArrayForm, BitPackedPlugin, FoRPlugin, SerializedArray, bitpacked_v1_id, bitpacked_v2_id,
    deserialize, for_v1_id, for_v2_id, serialize,
};
