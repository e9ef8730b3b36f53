//! The messages of bit-packed nodes.

use super::patches::PatchesMetadata;
use super::schema::{Kind, Values};
use super::types::{type_number, type_of_number};
use super::writing::{Slot, write};
use fl_types::{FastLanesError, PType};
use std::alloc::Global;

/// The metadata of a bit-packed array of one width.
#[derive(Clone, Copy, Debug, PartialEq, Eq)]
pub struct BitPackedMetadata {
    /// The number of bits of each packed item.
    pub bit_width: u32,
    /// The position in the first block at which the array begins.
    pub offset: u32,
    /// The patches, if there are any.
    pub patches: Option<PatchesMetadata>,
}

impl BitPackedMetadata {
    ghost use Rattle.std.specs.Prelude.{◌≡◌, Ok};
    ghost use Rattle.fl_types.specs.Refusals.{Answers};
    ghost use Rattle.fl_metadata.specs.WrittenText.{message_text};
    ghost use Rattle.fl_metadata.specs.Messages.{bit_packed_of, bit_packed_slots};

    /// Reads the message: `BadMetadata` if the bytes are not this message, else `UnknownType` if a number
    /// is that of no type.
    #[tactic(auto, unfolding(crate::specs::Messages::bit_packed_of))]
    pub fn decode(bytes: &[u8]) -> Result<Self, FastLanesError>
        ensures { result ≡ bit_packed_of bytes.now }
    {
        let number = Kind::Number(u32::MAX as u64);
        let values = Values::read(&[Kind::Unknown, number, number, Kind::Message], bytes)?;
        let patches = PatchesMetadata::embedded(values.message(3))?;
        Ok(BitPackedMetadata {
            bit_width: values.small_number(1),
            offset: values.small_number(2),
            patches,
        })
    }

    /// Writes the message.
    pub fn encode(&self, alloc: Global) -> Result<Vec<u8>, FastLanesError>
        ensures { Answers (λ v. v.items) result (Ok (message_text (bit_packed_slots self.now))) }
    {
        let patches = PatchesMetadata::embed(alloc, &self.patches)?;
        write(
            alloc,
            &[
                Slot::number(1, u64::from(self.bit_width)),
                Slot::number(2, u64::from(self.offset)),
                Slot::message(3, &patches),
            ],
        )
    }
}

/// The metadata of a bit-packed array with a width for each block.
#[derive(Clone, Copy, Debug, PartialEq, Eq)]
pub struct BitPackedBlockedMetadata {
    /// The position in the first block at which the array begins.
    pub offset: u32,
    /// The type of the blocks' boundaries.
    pub block_offsets: PType,
    /// The patches, if there are any.
    pub patches: Option<PatchesMetadata>,
}

impl BitPackedBlockedMetadata {
    ghost use Rattle.std.specs.Prelude.{◌≡◌, Ok};
    ghost use Rattle.fl_types.specs.Refusals.{Answers};
    ghost use Rattle.fl_metadata.specs.WrittenText.{message_text};
    ghost use Rattle.fl_metadata.specs.Messages.{bit_packed_blocked_of, bit_packed_blocked_slots};

    /// Reads the message: `BadMetadata` if the bytes are not this message, else `UnknownType` if a number
    /// is that of no type.
    #[tactic(auto, unfolding(crate::specs::Messages::bit_packed_blocked_of))]
    pub fn decode(bytes: &[u8]) -> Result<Self, FastLanesError>
        ensures { result ≡ bit_packed_blocked_of bytes.now }
    {
        let offset = Kind::Number(u32::MAX as u64);
        let block_offsets = Kind::Number(u64::MAX);
        let values = Values::read(
            &[Kind::Unknown, offset, block_offsets, Kind::Message],
            bytes,
        )?;
        let patches = PatchesMetadata::embedded(values.message(3))?;
        let block_offsets = type_of_number(values.number(2))?;
        Ok(BitPackedBlockedMetadata {
            offset: values.small_number(1),
            block_offsets,
            patches,
        })
    }

    /// Writes the message.
    pub fn encode(&self, alloc: Global) -> Result<Vec<u8>, FastLanesError>
        ensures { Answers (λ v. v.items) result (Ok (message_text (bit_packed_blocked_slots self.now))) }
    {
        let patches = PatchesMetadata::embed(alloc, &self.patches)?;
        write(
            alloc,
            &[
                Slot::number(1, u64::from(self.offset)),
                Slot::number(2, type_number(self.block_offsets)),
                Slot::message(3, &patches),
            ],
        )
    }
}
