//! Arrays of nullable integers and of booleans, plain or in one of the encodings.
#![tactic(auto)]

pub mod array;
pub mod bitpacking;
pub mod delta;
pub mod for_;
pub mod laws;
mod numbers;
mod proof_support;
pub mod reader;
pub mod rle;
mod to_blocked;
mod validities;

pub use crate::array::{ArrayRef, IntoArray, Node};
pub use crate::reader::Reader;
