//! Containers of encoded columns of text.

ghost use Rattle.flcol_engine.specs.Outputs.{IsEncodeOutput, Meets};

use crate::commands::Encode;
use crate::fault::Fault;
use crate::query::store;
use crate::{encoding, text};
use std::alloc::Global;

/// The container of the column that a text says, in an encoding.
///
/// # Errors
/// The first that holds: `BadColumn`; the outer encoder's refusal; that of its child's packing.
pub fn encode(alloc: Global, command: Encode, text: Vec<u8>) -> Result<Vec<u8>, Fault>
    ensures { Meets (λ bytes. bytes.items) (IsEncodeOutput command text.items) result }
{
    let array = text::parse_owned(alloc, command.ptype, command.nullability, text)?;
    let array = encoding::encode(alloc, array, command.encoding)?;
    store(alloc, &array)
}
