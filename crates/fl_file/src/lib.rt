//! Files of chunks: what the foot of a file says of each chunk, and what follows from it for a test of the chunk's items.
#![tactic(auto)]

pub mod checksum;
pub mod ends;
pub mod error;
pub mod foot;
pub mod laws;
pub mod pruning;
pub mod reader;
pub mod reading;
pub mod statistics;
mod summary;
pub mod writer;
pub mod writing;

pub use crate::checksum::{Crc32cHasher, crc32c};
pub use crate::ends::{Append, ReadAt, ReadFault, WriteFault};
pub use crate::error::FileError;
pub use crate::foot::{ChunkEntry, Foot};
pub use crate::pruning::{PassingRange, Pruning, Test, plan, prune};
pub use crate::reader::Reader;
pub use crate::reading::read_foot;
pub use crate::statistics::{ChunkStatistics, Extremes};
pub use crate::writer::Writer;
pub use crate::writing::write_foot;

#[cfg(test)]
mod tests;
