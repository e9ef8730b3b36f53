//! The metadata messages of serialized arrays.
//!
//! A message is a row of fields in the wire format of Protocol Buffers.
#![tactic(auto)]

mod any;
mod bit_packed;
mod delta;
mod for_chunked;
mod laws;
mod patches;
mod rle;
mod scalar;
mod schema;
mod types;
mod wire;
mod writing;

pub use crate::any::is_message;
pub use crate::bit_packed::{BitPackedBlockedMetadata, BitPackedMetadata};
pub use crate::delta::DeltaMetadata;
pub use crate::for_chunked::FoRChunkedMetadata;
pub use crate::laws::{
    row_is_read, row_is_said, scalar_fits, varint_is_shortest, written_is_one_text, written_is_read,
};
pub use crate::patches::PatchesMetadata;
pub use crate::rle::RLEMetadata;
pub use crate::scalar::{decode_scalar, encode_scalar};
pub use crate::types::{type_number, type_of_number};
