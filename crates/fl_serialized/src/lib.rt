//! Serialized arrays: what a columnar file stores of an array.
#![tactic(auto)]

pub mod array;
pub mod ids;

pub use crate::array::SerializedArray;
