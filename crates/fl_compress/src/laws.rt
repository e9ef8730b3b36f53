//! Laws of candidates, and of the depth of what is made.

ghost use Rattle.std.specs.Prelude.{◌≤◌, IsTrue};
ghost use Rattle.std.specs.List.{All};
ghost use Rattle.fl_array.specs.Trees.{Tree};
ghost use Rattle.fl_column.specs.Columns.{PrimitiveParts};
ghost use Rattle.fl_serialized.specs.Nodes.{depth};
ghost use Rattle.fl_serde.specs.Writing.{written};
ghost use Rattle.fl_encode.specs.Encodings.{IsEncodedAs};
ghost use Rattle.fl_encode.specs.Shapes.{Shape, levels, max_levels};
ghost use Rattle.fl_compress.specs.Candidates.{candidates};
ghost use Rattle.fl_compress.specs.Statistics.{is_candidate};

use crate::limits::Limits;

/// Each candidate within limits is one of the schemes whose bytes `size_of` foresees.
pub fn candidates_have_sizes(_limits: &Limits)
    ensures { All (λ s. IsTrue (is_candidate s)) (candidates _limits.now) }
{}

/// What is made by a scheme that has a text is written with at most 16 nodes in one another, as many as a container holds.
#[tactic(auto, using(crate::proofs::DepthLaws::text_low))]
pub fn encoded_is_shallow()
    ensures { (scheme : Shape) → (p : PrimitiveParts) → (t : Tree) → levels scheme ≤ max_levels → IsEncodedAs scheme p t → depth (written t) ≤ 16 }
{}
