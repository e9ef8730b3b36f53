//! The message of a Delta node.

use super::schema::{Kind, Values};
use super::writing::{Slot, write};
use fl_types::FastLanesError;
use std::alloc::Global;

/// The metadata of a Delta array.
#[derive(Clone, Copy, Debug, PartialEq, Eq)]
pub struct DeltaMetadata {
    /// The number of stored deltas.
    pub deltas_len: u64,
    /// The position in the first block at which the array begins.
    pub offset: u32,
}

impl DeltaMetadata {
    ghost use Rattle.std.specs.Prelude.{◌≡◌, Ok};
    ghost use Rattle.fl_types.specs.Refusals.{Answers};
    ghost use Rattle.fl_metadata.specs.WrittenText.{message_text};
    ghost use Rattle.fl_metadata.specs.Messages.{delta_metadata_of, delta_slots};

    /// Reads the message: `BadMetadata` if the bytes are not this message.
    #[tactic(auto, unfolding(crate::specs::Messages::delta_metadata_of))]
    pub fn decode(bytes: &[u8]) -> Result<Self, FastLanesError>
        ensures { result ≡ delta_metadata_of bytes.now }
    {
        let schema = [
            Kind::Unknown,
            Kind::Number(u64::MAX),
            Kind::Number(u32::MAX as u64),
        ];
        let values = Values::read(&schema, bytes)?;
        Ok(DeltaMetadata {
            deltas_len: values.number(1),
            offset: values.small_number(2),
        })
    }

    /// Writes the message.
    pub fn encode(&self, alloc: Global) -> Result<Vec<u8>, FastLanesError>
        ensures { Answers (λ v. v.items) result (Ok (message_text (delta_slots self.now))) }
    {
        write(
            alloc,
            &[
                Slot::number(1, self.deltas_len),
                Slot::number(2, u64::from(self.offset)),
            ],
        )
    }
}
