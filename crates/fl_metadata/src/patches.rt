//! The message of patches within that of a bit-packed node.

use super::schema::{Kind, Values};
use super::types::{optional_type_number, optional_type_of_number, type_number, type_of_number};
use super::writing::{Slot, write};
use fl_types::{FastLanesError, PType};
use std::alloc::Global;

/// The metadata of patches.
#[derive(Clone, Copy, Debug, PartialEq, Eq)]
pub struct PatchesMetadata {
    /// The number of patches.
    pub len: u64,
    /// The offset that is subtracted from the indices.
    pub offset: u64,
    /// The type of the indices.
    pub indices: PType,
    /// How many chunk offsets there are.
    pub chunk_offsets_len: u64,
    /// The type of the chunk offsets, if there are any.
    pub chunk_offsets: Option<PType>,
}

impl PatchesMetadata {
    ghost use Rattle.std.specs.Prelude.{◌≡◌, Ok, option_map};
    ghost use Rattle.fl_types.specs.Refusals.{Answers};
    ghost use Rattle.fl_metadata.specs.Schemas.{values_of, seen_values, Gives};
    ghost use Rattle.fl_metadata.specs.Messages.{patches_schema, patches_of, patches_in, patches_text, embedded_of};

    /// Reads the message: `BadMetadata` if the bytes are not this message, else `UnknownType` if a number
    /// is that of no type.
    #[tactic(auto, unfolding(crate::specs::Messages::patches_of))]
    pub fn decode(bytes: &[u8]) -> Result<Self, FastLanesError>
        ensures { result ≡ patches_of bytes.now }
    {
        let values = PatchesMetadata::values(bytes)?;
        PatchesMetadata::of(&values)
    }

    /// The values of the message, before its type numbers are looked at.
    fn values(bytes: &[u8]) -> Result<Values<'_>, FastLanesError>
        ensures { Gives seen_values result (values_of patches_schema bytes.now) }
    {
        let number = Kind::Number(u64::MAX);
        let schema = [Kind::Unknown, number, number, number, number, number];
        Values::read(&schema, bytes)
    }

    /// The patches that values say.
    #[tactic(auto, unfolding(crate::specs::Messages::patches_in))]
    fn of(values: &Values<'_>) -> Result<Self, FastLanesError>
        ensures { result ≡ patches_in (seen_values values.now) }
    {
        let indices = type_of_number(values.number(3))?;
        let chunk_offsets = optional_type_of_number(values.optional_number(5))?;
        Ok(PatchesMetadata {
            len: values.number(1),
            offset: values.number(2),
            indices,
            chunk_offsets_len: values.number(4),
            chunk_offsets,
        })
    }

    /// The patches of an embedded message, if there is one.
    pub(super) fn embedded(text: Option<&[u8]>) -> Result<Option<Self>, FastLanesError>
        ensures { result ≡ embedded_of (option_map (λ held. held.now) text.entry) }
    {
        match text {
            None => Ok(None),
            Some(text) => {
                let values = PatchesMetadata::values(text)?;
                let patches = PatchesMetadata::of(&values)?;
                Ok(Some(patches))
            }
        }
    }

    /// Writes the message.
    pub fn encode(&self, alloc: Global) -> Result<Vec<u8>, FastLanesError>
        ensures { Answers (λ v. v.items) result (Ok (patches_text self.now)) }
    {
        write(
            alloc,
            &[
                Slot::number(1, self.len),
                Slot::number(2, self.offset),
                Slot::number(3, type_number(self.indices)),
                Slot::number(4, self.chunk_offsets_len),
                Slot::stated(5, optional_type_number(self.chunk_offsets)),
            ],
        )
    }

    /// The text of an embedded message, if there is one.
    pub(super) fn embed(
        alloc: Global,
        patches: &Option<PatchesMetadata>,
    ) -> Result<Option<Vec<u8>>, FastLanesError>
        ensures { Answers (λ text. option_map (λ v. v.items) text) result (Ok (option_map patches_text patches.now)) }
    {
        match patches {
            None => Ok(None),
            Some(patches) => {
                let text = patches.encode(alloc)?;
                Ok(Some(text))
            }
        }
    }
}
