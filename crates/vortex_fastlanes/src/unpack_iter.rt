//! Reading packed columns block by block.

pub use fl_bitpacking::unpack_iter::{
    BitCount, BitPacked, BitPackingStrategy, BitUnpackIterator, BitUnpackedChunks, PackedSource,
    UnpackStrategy, UnpackedChunks, UnpackedItems,
};
