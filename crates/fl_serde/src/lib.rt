//! Serialized arrays: what a columnar file stores of an array, and a reader of any tree of nodes.
//!
//! A node is checked by itself first: the bytes of leaves, what it says of its array by its id, its type and its
//! metadata, what its buffers and its children must be, and the errors before these are read.
#![tactic(auto)]

pub mod bit_bytes;
pub mod byte_counts;
pub mod checks;
pub mod children;
pub mod encodings;
pub mod kinds;
pub mod laws;
pub mod node_info;
mod nodes;
mod patches;
mod plain;
mod proof_support;
pub mod reading;
pub mod scalars;
pub mod slot_bytes;
pub mod writing;

pub use crate::byte_counts::nbytes;
pub use crate::checks::check;
pub use crate::children::ExpectedChild;
pub use crate::encodings::{ArrayForm, BitPackedPlugin, FoRPlugin};
pub use crate::kinds::NodeKind;
pub use crate::node_info::NodeInfo;
pub use crate::reading::deserialize;
pub use crate::writing::serialize;
pub use fl_serialized::SerializedArray;
pub use fl_serialized::ids::{bitpacked_v1_id, bitpacked_v2_id, for_v1_id, for_v2_id};
