//! Point reads of arrays of every kind that count what is read of packed bytes.

ghost use Rattle.std.specs.Prelude.{◌≡◌, ◌≤◌, ◌<◌, length, Ok, IfErr, IfOk, IfSome, IsTrue};
ghost use Rattle.fl_types.specs.Refusals.{Answers};
ghost use Rattle.fl_types.specs.Values.{scalar_parts};
ghost use Rattle.fl_column.specs.Queries.{scalar_in};
ghost use Rattle.fl_array.specs.BitPackedArrays.{bitpacked_in};
ghost use Rattle.fl_array.specs.Kinds.{has_delta, kind};
ghost use Rattle.fl_array.specs.Trees.{column};

use crate::array::{ArrayRef, Node};
use fastlanes::Work;
use fl_column::{FastLanesError, Scalar};
use std::alloc::Global;

impl ArrayRef {
    /// The item at an index, as by `scalar_at`, and what was read of the packed bytes for it if the array is
    /// bit-packed: no block is unpacked, and at most two words are read. For other kinds the count says nothing.
    ///
    /// # Errors
    /// Only `OutOfMemory`, and only if the array is or holds a delta array.
    pub fn scalar_at_counted(
        &self,
        alloc: Global,
        i: usize,
    ) -> Result<(Scalar, Work), FastLanesError>
        requires { i < length (column self.now).items }
        ensures item { Answers (λ r. scalar_parts r.0) result (Ok (scalar_in (column self.now) i)) }
        ensures blocks { IfOk result (λ r. IfSome (bitpacked_in self.now) (λ a. r.1.blocks ≡ 0)) }
        ensures words { IfOk result (λ r. IfSome (bitpacked_in self.now) (λ a. r.1.words ≤ 2)) }
        ensures memory { IfErr result (λ e. IsTrue (has_delta (kind self.now))) }
    {
        let item = match &self.node {
            Node::BitPacked(array) => return array.scalar_at_counted(alloc, i),
            Node::Primitive(array) => array.scalar_at(i),
            Node::Constant(array) => array.scalar_at(i),
            Node::Bool(array) => array.scalar_at(i),
            Node::FoR(array) => array.scalar_at(alloc, i)?,
            Node::Delta(array) => array.scalar_at(alloc, i)?,
            Node::RLE(array) => array.scalar_at(alloc, i)?,
        };
        Ok((item, Work::new()))
    }
}
