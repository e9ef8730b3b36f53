//! What holds of every array that is written and read.

mod blocked_nodes;

ghost use Rattle.std.specs.Prelude.{◌≡◌, IfOk, Ok};
ghost use Rattle.fl_types.specs.Refusals.{Answers};
ghost use Rattle.fl_column.specs.Columns.{Column};
ghost use Rattle.fl_array.specs.Trees.{Tree, column};
ghost use Rattle.fl_array.specs.Kinds.{kind};
ghost use Rattle.fl_serialized.specs.Nodes as nodes;
ghost use Rattle.fl_serde.specs.ByteCounts.{buffer_bytes, tree_bytes};
ghost use Rattle.fl_serde.specs.NodeColumns.{StandsFor};
ghost use Rattle.fl_serde.specs.RoundTrip.{read_back};
ghost use Rattle.fl_serde.specs.Writing.{written};

pub use crate::laws::blocked_nodes::written_blocked;
use crate::reading::deserialize;
use crate::writing::serialize;
use fl_array::ArrayRef;
use fl_column::FastLanesError;
use std::alloc::Global;

/// The bytes of an array, which `nbytes` counts, are those of the buffers of its node and of the nodes in it.
#[tactic(auto, using(crate::proofs::ByteLaws::bytes_of_written))]
pub fn bytes_are_those_of_buffers()
    ensures { (t : Tree) → buffer_bytes (written t) ≡ tree_bytes t }
{}

/// What is read where an array was written has the array's column and its kind.
pub fn same_column_and_kind()
    ensures column { (t : Tree) → column (read_back t) ≡ column t }
    ensures kind { (t : Tree) → kind (read_back t) ≡ kind t }
{}

/// What is read where an array was written has its kind.
#[tactic(auto, using(crate::proofs::ColumnsAgain::kind_back))]
fn same_kind()
    ensures { (t : Tree) → kind (read_back t) ≡ kind t }
{}

/// A node stands for at most one column.
#[tactic(auto, using(crate::proofs::OneColumn::one_column))]
pub fn node_has_one_column()
    ensures { (node : nodes.Node) → (c d : Column) → StandsFor node c → StandsFor node d → c ≡ d }
{}

/// The array that is read where this one is written: the same column, kinds and parts, the form of validities
/// aside, and whether references and patches may be null. The node that is written stands for the array's column,
/// the array that is read is of the column for which that node stands, and this is one.
///
/// # Errors
/// Only `OutOfMemory`.
#[tactic(auto, using(crate::proofs::Meanings::answer_column))]
pub fn round_trip(alloc: Global, array: &ArrayRef) -> Result<ArrayRef, FastLanesError>
    ensures read { Answers (λ a. a) result (Ok (read_back array.now)) }
    ensures column { Answers column result (Ok (column array.now)) }
    ensures kind { IfOk result (λ a. kind a ≡ kind array.now) }
{
    same_kind();
    node_has_one_column();
    let node = serialize(alloc, array)?;
    deserialize(alloc, &node)
}
