//! A serialized array: what a columnar file stores of an array.

ghost use Rattle.std.specs.Prelude.{◌≡◌, ◌<◌, length, Ok, Some};
ghost use Rattle.std.specs.List.{All, slice_get};
ghost use Rattle.fl_types.specs.Refusals.{Answers};
ghost use Rattle.fl_serialized.specs.Nodes.{children_of, depth, head_of, listed};

use bytes::Bytes;
use fl_types::{DType, FastLanesError};
use std::alloc::Global;
use std::marker::Model;

/// What a columnar file stores of an array: a node with its child nodes. Contracts see it as a `Node`.
pub struct SerializedArray {
    /// The text that names the array's kind.
    pub id: String,
    /// The type of the array's column.
    pub dtype: DType,
    /// The number of items of the array.
    pub len: usize,
    /// The message with what the kind needs besides buffers and children.
    pub metadata: Vec<u8>,
    /// The array's own bytes, shared with their other owners.
    pub buffers: Vec<Bytes>,
    /// The child nodes.
    pub children: Vec<SerializedArray>,
}

// Written out, so that letting one go is one call in each function that owns one.
impl Drop for SerializedArray {
    fn drop(self) {
        let SerializedArray {
            id: _,
            dtype: _,
            len: _,
            metadata: _,
            buffers: _,
            children: _,
        } = self;
    }
}

impl Model for SerializedArray {
    ghost use Rattle.std.specs.Prelude.{string_bytes};
    ghost use Rattle.std.proofs.Common.{arith};
    ghost use Rattle.fl_serialized.specs.Nodes.{Node, Of, depth, nodes_of};
    ghost use Rattle.fl_serialized.specs.Codes.{coded_node};
    ghost use Rattle.fl_serialized.specs.Sizes.{most_le-depth_of};

    ghost Value = { Node };

    ghost coded = { coded_node };

    ghost view = { λ a. Of (record { id = string_bytes a.id; dtype = a.dtype; len = a.len; metadata = a.metadata.items; buffers = a.buffers.items }) (nodes_of a.children.items) };

    ghost size = { depth };

    ghost size_decreases = { λ a h. omega (arith, most_le-depth_of a.children.items) };
}

impl SerializedArray {
    /// The text that names the array's kind.
    pub fn id(&self) -> &str
        ensures { result.now ≡ (head_of self.now).id }
    {
        &self.id
    }

    /// The type of the array's column.
    pub fn dtype(&self) -> DType
        ensures { result ≡ (head_of self.now).dtype }
    {
        self.dtype
    }

    /// The number of items of the array.
    pub fn len(&self) -> usize
        ensures { result ≡ (head_of self.now).len }
    {
        self.len
    }

    /// The message with what the kind needs besides buffers and children.
    pub fn metadata(&self) -> &[u8]
        ensures { result.now ≡ (head_of self.now).metadata }
    {
        &self.metadata
    }

    /// The array's own bytes.
    pub fn buffers(&self) -> &[Bytes]
        ensures { result.now ≡ (head_of self.now).buffers }
    {
        &self.buffers
    }

    /// The child nodes.
    pub fn children(&self) -> &[SerializedArray]
        ensures children { result.now ≡ listed (children_of self.now) }
        ensures smaller { All (λ child. depth child < depth self.now) result.now }
    {
        &self.children
    }

    /// The child node at an index.
    pub fn child(&self, i: usize) -> &SerializedArray
        requires { i < length (listed (children_of self.now)) }
        ensures child { slice_get (listed (children_of self.now)) i ≡ Some result.now }
        ensures smaller { depth result.now < depth self.now }
    {
        &self.children()[i]
    }

    /// A copy, which shares the buffers.
    pub fn try_clone(&self, alloc: Global) -> Result<SerializedArray, FastLanesError>
        ensures { Answers (λ a. a) result (Ok self.now) }
    {
        let mut children = Vec::new(alloc);
        for child in &self.children {
            children.push(child.try_clone(alloc)?)?;
        }
        Ok(SerializedArray {
            id: String::from_str(alloc, &self.id)?,
            dtype: self.dtype,
            len: self.len,
            metadata: Vec::from_slice(alloc, &self.metadata)?,
            buffers: cloned_buffers(alloc, &self.buffers)?,
            children,
        })
    }
}

/// The same bytes, shared.
fn cloned_buffers(alloc: Global, buffers: &[Bytes]) -> Result<Vec<Bytes>, FastLanesError>
    ensures { Answers (λ v. v.items) result (Ok buffers.now) }
{
    let mut copies = Vec::new(alloc);
    for buffer in buffers {
        copies.push(buffer.clone()?)?;
    }
    Ok(copies)
}
