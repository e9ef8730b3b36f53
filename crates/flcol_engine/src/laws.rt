//! What holds of stored arrays.

ghost use Rattle.std.specs.Prelude.{◌≡◌};
ghost use Rattle.fl_array.specs.ToBlocked.{to_blocked_tree};
ghost use Rattle.fl_array.specs.Trees.{Tree};
ghost use Rattle.fl_serialized.specs.Nodes.{depth};
ghost use Rattle.fl_serde.specs.Writing.{written};
ghost use Rattle.fl_ops.specs.Normalized.{SameShown};

/// Arrays that are the same but for slots under nulls stand as many nodes deep, as they are and with a width for each
/// block: so whether `store` and `migrate` refuse what operations made is the operations' and the input's alone.
#[tactic(auto, using(crate::proofs::StoredDepth::as_deep_stored, crate::proofs::StoredDepth::as_deep_migrated))]
pub fn stored_as_deep()
    ensures stored { (a b : Tree) → SameShown a b → depth (written a) ≡ depth (written b) }
    ensures migrated { (a b : Tree) → SameShown a b → depth (written (to_blocked_tree a)) ≡ depth (written (to_blocked_tree b)) }
{}
