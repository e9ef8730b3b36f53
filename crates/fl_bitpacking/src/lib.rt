//! Columns of integers in packed blocks of 1024 items: packing them into bytes, and reading them
//! back.
#![tactic(auto)]

mod bit_packed;
pub mod bitpack_compress;
pub mod bitpack_decompress;
mod blocks;
mod boundaries;
mod boundary_checks;
pub mod compute;
pub mod laws;
pub mod packed_data;
mod packed_reader;
mod patching;
pub mod places;
pub mod references;
pub mod refusals;
pub mod unpack_iter;
pub mod words;

pub use crate::compute::range_test::RangeTest;
