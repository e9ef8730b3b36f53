//! Operations and queries on packed columns that need not unpack them first.

pub mod cast;
pub mod compare;
pub mod filter;
pub(crate) mod range_test;
pub mod take;
