//! Columns in files of chunks: arrays as chunks, their statistics, and what is asked of a column that is kept so.
#![tactic(auto)]

pub mod chunks;
pub mod column_chunks;
pub mod error;
pub mod files;
pub mod laws;
pub mod one_chunk;
pub mod passing;
pub mod scans;

pub use crate::chunks::{read_chunk, write_chunk};
pub use crate::column_chunks::ColumnChunks;
pub use crate::error::ColumnFileError;
pub use crate::files::{append, verify};
pub use crate::one_chunk::OneChunk;
pub use crate::passing::count_passing;
pub use crate::scans::{
    count_trusting, len_trusting, min_max_trusting, null_count_trusting, sum_trusting,
};

#[cfg(test)]
mod tests;
