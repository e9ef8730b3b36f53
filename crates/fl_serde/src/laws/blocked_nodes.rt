//! Arrays that are written with a width for each block of packed items.

ghost use Rattle.std.specs.Prelude.{◌≢◌, IfOk, Ok};
ghost use Rattle.std.specs.List.{All};
ghost use Rattle.fl_types.specs.Refusals.{Answers};
ghost use Rattle.fl_array.specs.ToBlocked.{to_blocked_tree};
ghost use Rattle.fl_serde.specs.NodeIds.{ids_in};
ghost use Rattle.fl_serde.specs.Writing.{written};
ghost use Rattle.fl_serialized.specs.Nodes.{bitpacked_v1_id};

use crate::writing::serialize;
use fl_array::ArrayRef;
use fl_column::FastLanesError;
use fl_serialized::SerializedArray;
use std::alloc::Global;

/// The node of an array after `to_blocked`. Neither it nor any node in it has the id `fastlanes.bitpacked`.
///
/// # Errors
/// Only `OutOfMemory`.
pub fn written_blocked(alloc: Global, array: &ArrayRef) -> Result<SerializedArray, FastLanesError>
    ensures node { Answers (λ node. node) result (Ok (written (to_blocked_tree array.now))) }
    ensures ids { IfOk result (λ node. All (λ id. id ≢ bitpacked_v1_id) (ids_in node)) }
{
    let blocked = array.to_blocked(alloc)?;
    serialize(alloc, &blocked)
}
