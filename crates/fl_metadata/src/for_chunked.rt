//! The message of a FoR node with a reference for each chunk.

use super::schema::{Kind, Values};
use super::writing::{Slot, write};
use fl_types::FastLanesError;
use std::alloc::Global;

/// The metadata of a FoR array with a reference for each chunk.
#[derive(Clone, Copy, Debug, PartialEq, Eq)]
pub struct FoRChunkedMetadata {
    /// The position in the first chunk at which the array begins.
    pub offset: u32,
}

impl FoRChunkedMetadata {
    ghost use Rattle.std.specs.Prelude.{◌≡◌, Ok};
    ghost use Rattle.fl_types.specs.Refusals.{Answers};
    ghost use Rattle.fl_metadata.specs.WrittenText.{message_text};
    ghost use Rattle.fl_metadata.specs.Messages.{for_chunked_of, for_chunked_slots};

    /// Reads the message: `BadMetadata` if the bytes are not this message.
    #[tactic(auto, unfolding(crate::specs::Messages::for_chunked_of))]
    pub fn decode(bytes: &[u8]) -> Result<Self, FastLanesError>
        ensures { result ≡ for_chunked_of bytes.now }
    {
        let schema = [Kind::Unknown, Kind::Number(u32::MAX as u64)];
        let values = Values::read(&schema, bytes)?;
        Ok(FoRChunkedMetadata {
            offset: values.small_number(1),
        })
    }

    /// Writes the message.
    pub fn encode(&self, alloc: Global) -> Result<Vec<u8>, FastLanesError>
        ensures { Answers (λ v. v.items) result (Ok (message_text (for_chunked_slots self.now))) }
    {
        write(alloc, &[Slot::number(1, u64::from(self.offset))])
    }
}
