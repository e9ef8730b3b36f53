//! The FastLanes kernels over any number of whole blocks of 1024 items. They test the width and the lengths
//! themselves, and allocate nothing.
#![tactic(auto)]

pub mod deltas;
pub mod error;
pub mod packing;
mod sizes;
pub mod transposing;

pub use crate::deltas::{delta_blocks, undelta_blocks};
pub use crate::error::BlocksError;
pub use crate::packing::{pack_blocks, unfor_pack_blocks, unpack_blocks};
pub use crate::transposing::{transpose_blocks, untranspose_blocks};
