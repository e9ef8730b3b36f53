//! The foot of a file, which says what its chunks are.

use crate::statistics::ChunkStatistics;
use fl_column::{Nullability, PType};

/// What the foot of a file says of a chunk.
#[derive(Clone, Copy, Debug, PartialEq, Eq)]
pub struct ChunkEntry {
    /// Where the chunk begins: how many bytes of the file stand before it, a multiple of 64.
    pub offset: u64,
    /// The number of bytes of the chunk.
    pub size: u64,
    /// The CRC-32C of these bytes.
    pub checksum: u32,
    /// What is known of the items.
    pub statistics: ChunkStatistics,
}

/// The foot of a file: the type of the items, and the chunks in the order of the file.
#[derive(Debug, Drop)]
pub struct Foot {
    /// The type of the items.
    pub ptype: PType,
    /// Whether items may be null.
    pub nullability: Nullability,
    /// The chunks.
    pub chunks: Vec<ChunkEntry>,
}
