//! Encodings of whole plain columns: frames of reference (`for_`), deltas (`delta`) and run-length
//! encoding (`rle`).
#![tactic(auto)]

mod block_items;
mod chunks;
pub mod delta;
pub mod fill_forward;
pub mod for_;
pub mod laws;
mod plain;
pub mod rle;
