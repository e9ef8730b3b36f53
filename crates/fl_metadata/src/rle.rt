//! The message of an RLE node.

use super::schema::{Kind, Values};
use super::types::{type_number, type_of_number};
use super::writing::{Slot, write};
use fl_types::{FastLanesError, PType};
use std::alloc::Global;

/// The metadata of an RLE array.
#[derive(Clone, Copy, Debug, PartialEq, Eq)]
pub struct RLEMetadata {
    /// The number of stored run values.
    pub values_len: u64,
    /// The number of stored indices.
    pub indices_len: u64,
    /// The type of the indices.
    pub indices: PType,
    /// The number of stored run offsets.
    pub values_idx_offsets_len: u64,
    /// The type of the run offsets.
    pub values_idx_offsets: PType,
    /// The position in the first chunk at which the array begins.
    pub offset: u64,
}

impl RLEMetadata {
    ghost use Rattle.std.specs.Prelude.{◌≡◌, Ok};
    ghost use Rattle.fl_types.specs.Refusals.{Answers};
    ghost use Rattle.fl_metadata.specs.WrittenText.{message_text};
    ghost use Rattle.fl_metadata.specs.Messages.{rle_of, rle_slots};

    /// Reads the message: `BadMetadata` if the bytes are not this message, else `UnknownType` if a number
    /// is that of no type.
    #[tactic(auto, unfolding(crate::specs::Messages::rle_of))]
    pub fn decode(bytes: &[u8]) -> Result<Self, FastLanesError>
        ensures { result ≡ rle_of bytes.now }
    {
        let number = Kind::Number(u64::MAX);
        let schema = [
            Kind::Unknown,
            number,
            number,
            number,
            number,
            number,
            number,
        ];
        let values = Values::read(&schema, bytes)?;
        let indices = type_of_number(values.number(3))?;
        let values_idx_offsets = type_of_number(values.number(5))?;
        Ok(RLEMetadata {
            values_len: values.number(1),
            indices_len: values.number(2),
            indices,
            values_idx_offsets_len: values.number(4),
            values_idx_offsets,
            offset: values.number(6),
        })
    }

    /// Writes the message.
    pub fn encode(&self, alloc: Global) -> Result<Vec<u8>, FastLanesError>
        ensures { Answers (λ v. v.items) result (Ok (message_text (rle_slots self.now))) }
    {
        write(
            alloc,
            &[
                Slot::number(1, self.values_len),
                Slot::number(2, self.indices_len),
                Slot::number(3, type_number(self.indices)),
                Slot::number(4, self.values_idx_offsets_len),
                Slot::number(5, type_number(self.values_idx_offsets)),
                Slot::number(6, self.offset),
            ],
        )
    }
}
