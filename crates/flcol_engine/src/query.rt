//! Answers to queries on the arrays of containers.

ghost use Rattle.std.specs.Prelude.{◌≡◌, [], Ok};
ghost use Rattle.fl_types.specs.Refusals.{Answers};
ghost use Rattle.fl_array.specs.ToBlocked.{to_blocked_tree};
ghost use Rattle.fl_serde.specs.Writing.{id_of};
ghost use Rattle.flcol_engine.specs.Command.{parts_of_run};
ghost use Rattle.flcol_engine.specs.Outputs.{IsAnswer, IsArray, IsRunOutput, IsStored, Meets};
ghost use Rattle.flcol_engine.specs.Printing.{line};

use crate::commands::{Query, Run};
use crate::fault::Fault;
use crate::printing::print_line;
use crate::queries::reply;
use bytes::Bytes;
use fl_array::ArrayRef;
use fl_column::FastLanesError;
use fl_ops::apply_all;
use fl_serde::writing::node_kind;
use fl_serde::{deserialize, serialize};
use flcol_container::{read_container, write_container};
use std::alloc::Global;

/// The array of a container; its packed bytes are parts of the container's.
///
/// # Errors
/// `BadContainer` where the bytes are no container, else what the array's node is refused with.
fn read_array(alloc: Global, bytes: Vec<u8>) -> Result<ArrayRef, Fault>
    ensures { Meets (λ a. a) (IsArray bytes.items) result }
{
    let bytes = Bytes::from_vec(bytes)?;
    let node = read_container(alloc, &bytes)?;
    Ok(deserialize(alloc, &node)?)
}

/// The container of an array.
///
/// # Errors
/// `BadContainer` where it has none, since more than sixteen nodes would stand in one another.
#[tactic(auto, using(crate::proofs::RoomLemmas::too_deep))]
pub fn store(alloc: Global, array: &ArrayRef) -> Result<Vec<u8>, Fault>
    ensures { Meets (λ bytes. bytes.items) (IsStored array.now) result }
{
    let node = serialize(alloc, array)?;
    Ok(write_container(alloc, &node)?)
}

/// The container of an array's blocked form: nothing is packed again.
///
/// # Errors
/// `BadContainer` where it has none, since more than sixteen nodes would stand in one another.
fn migrate(alloc: Global, array: &ArrayRef) -> Result<Vec<u8>, Fault>
    ensures { Meets (λ bytes. bytes.items) (IsStored (to_blocked_tree array.now)) result }
{
    let blocked = array.to_blocked(alloc)?;
    store(alloc, &blocked)
}

/// The line of the id of an array's encoding.
fn id_line(alloc: Global, array: &ArrayRef) -> Result<Vec<u8>, FastLanesError>
    ensures { Answers (λ text. text.items) result (Ok (line (id_of array.now))) }
{
    print_line(alloc, node_kind(array).id())
}

/// The answer to a query on an array.
fn answer_to(alloc: Global, array: &ArrayRef, query: Query) -> Result<Vec<u8>, Fault>
    ensures { Meets (λ text. text.items) (IsAnswer query [] array.now) result }
{
    match query {
        Query::Column(query) => Ok(reply(alloc, array, query)?),
        Query::Id => Ok(id_line(alloc, array)?),
        Query::Store => store(alloc, array),
        Query::Migrate => migrate(alloc, array),
    }
}

/// The answer to the query on what the operations make of an array. Without an operation nothing is copied.
#[tactic(auto, using(crate::proofs::RunLemmas::after_operations))]
fn answer(alloc: Global, array: &ArrayRef, run: &Run) -> Result<Vec<u8>, Fault>
    ensures { Meets (λ text. text.items) (IsAnswer (parts_of_run run.now).query (parts_of_run run.now).operations array.now) result }
{
    if run.ops.len() == 0 {
        return answer_to(alloc, array, run.query);
    }
    let last = apply_all(alloc, array, &run.ops)?;
    answer_to(alloc, &last, run.query)
}

/// The answer to the query on what the operations make of a container's array.
///
/// # Errors
/// The first that holds: `BadContainer`; what the array's node is refused with; the first refusal of
/// the operations in order; the query's.
pub fn run(alloc: Global, run: &Run, bytes: Vec<u8>) -> Result<Vec<u8>, Fault>
    ensures { Meets (λ text. text.items) (IsRunOutput (parts_of_run run.now) bytes.items) result }
{
    let array = read_array(alloc, bytes)?;
    answer(alloc, &array, run)
}
