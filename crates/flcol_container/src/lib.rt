//! Containers: serialized arrays as bytes.
#![tactic(auto)]

mod ascii;
pub mod error;
pub mod laws;
pub mod limits;
mod proof_support;
pub mod reading;
pub mod writing;

pub use crate::error::ContainerError;
pub use crate::limits::MAX_DEPTH;
pub use crate::reading::read_container;
pub use crate::writing::{container_len, write_container};
