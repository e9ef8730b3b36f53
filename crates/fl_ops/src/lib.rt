//! Operations and queries of arrays of every kind.
#![tactic(auto)]

pub mod array_ops;
mod by_blocks;
mod casting;
mod constancy;
mod encoded_tests;
pub mod laws;
pub mod operations;
mod plain_ops;
pub mod queries;
mod selection;
mod sorting;
mod takes;

pub use crate::array_ops::ArrayOps;
pub use crate::operations::{Op, apply_all};
pub use crate::queries::{Answer, Query, ask};
