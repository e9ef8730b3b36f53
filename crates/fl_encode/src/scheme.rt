//! How an array is to be encoded.

ghost use Rattle.std.specs.Prelude.{◌≡◌, IfOk};
ghost use Rattle.std.specs.Option.{option_map_or};
ghost use Rattle.fl_encode.specs.Shapes.{Plain, is_plain};
ghost use Rattle.fl_encode.specs.SchemeShapes.{shape};

use fl_codec::for_::ItemOrder;
use std::alloc::{AllocError, Global};
use std::marker::Model;

/// How integers are bit-packed.
#[derive(Clone, Copy, Debug, PartialEq, Eq)]
pub enum Packing {
    /// At the smallest width of least cost, which estimates the bytes: those of all bits, and for each item that has more
    /// bits those of its value and 4.
    BestWidth,
    /// At this width, in bits.
    Width(u8),
    /// At a width for each block of 1024 items: the smallest of least cost for that block.
    BestWidths,
}

/// An encoding and its children, in the order of their slots.
#[cycle(scheme)]
#[derive(Debug, PartialEq, Eq, Drop)]
pub enum Scheme {
    /// The integers as they are.
    Primitive,
    /// One integer or null for all items.
    Constant,
    /// Bit-packed.
    BitPacked(Packing),
    /// A frame of reference for the whole array.
    FoR {
        /// The order by which the reference is the least item.
        order: ItemOrder,
        /// The differences.
        encoded: Child,
    },
    /// A frame of reference for each chunk of 1024.
    FoRChunked {
        /// The order by which the references are the least items.
        order: ItemOrder,
        /// The differences.
        encoded: Child,
        /// The reference of each chunk.
        references: Child,
    },
    /// Delta.
    Delta {
        /// The bases of the blocks.
        bases: Child,
        /// The deltas along the lanes.
        deltas: Child,
    },
    /// Run-length encoded: the run values of a chunk are its items that differ from the one before.
    RLE {
        /// The run values.
        values: Child,
        /// The index of each position's run value.
        indices: Child,
        /// The number of run values before each chunk.
        offsets: Child,
    },
    /// A dictionary for each chunk of 1024: a run-length encoded array whose run values in a chunk are its distinct items, in
    /// rising order. An array does not show which run values it has, so that `scheme_of` says `RLE`.
    Dict {
        /// The distinct items of each chunk.
        values: Child,
        /// The index of each position's item among those of its chunk.
        indices: Child,
        /// The number of distinct items before each chunk.
        offsets: Child,
    },
}

/// A child of an encoding: it is plain, which takes no memory, or has a scheme.
#[cycle(scheme)]
#[derive(Debug, Drop)]
pub struct Child {
    scheme: Option<Box<Scheme>>,
}

impl Model for Child {
    ghost use Rattle.std.proofs.Common.{arith};
    ghost use Rattle.fl_encode.specs.Shapes.{Shape, levels};
    ghost use Rattle.fl_encode.specs.ShapeCodes.{coded_shape};

    ghost Value = { Shape };

    ghost coded = { coded_shape };

    ghost use Rattle.fl_encode.specs.SchemeShapes.{child_shape};

    ghost view = { child_shape };

    ghost size = { levels };

    ghost size_decreases = { λ a h. Prim.grind arith };
}

impl Child {
    /// A child that is stored plain.
    pub fn plain() -> Child
        ensures { result ≡ Plain }
    {
        Child { scheme: None }
    }

    /// A child that is encoded by a scheme.
    pub fn new(alloc: Global, scheme: Scheme) -> Result<Child, AllocError>
        ensures { IfOk result (λ child. child ≡ shape scheme) }
    {
        let scheme = Box::new(alloc, scheme)?;
        Ok(Child {
            scheme: Some(scheme),
        })
    }

    /// The scheme by which the child is encoded, none of a plain one.
    pub fn scheme(&self) -> Option<&Scheme>
        ensures { self.now ≡ option_map_or (λ scheme. shape scheme.now) result Plain }
    {
        match &self.scheme {
            Some(scheme) => Some(scheme),
            None => None,
        }
    }

    /// The scheme by which the child is encoded, none of a plain one.
    pub fn into_scheme(self) -> Option<Scheme>
        ensures { self ≡ option_map_or shape result Plain }
    {
        let Child { scheme } = self;
        match scheme {
            Some(scheme) => Some(Box::into_inner(scheme)),
            None => None,
        }
    }

    /// Whether the child is stored plain.
    pub fn is_plain(&self) -> bool
        ensures { result ≡ is_plain self.now }
    {
        self.scheme.is_none()
    }
}

impl PartialEq for Child {
    ghost use Rattle.std.specs.Cmp.{partial_equiv_from_equiv};
    ghost use Rattle.fl_encode.specs.SameShapes.{same_shape, same_shapes};

    ghost eq = { same_shape };

    ghost laws = { partial_equiv_from_equiv same_shapes };

    #[cycle(equal)]
    fn eq(&self, other: &Child) -> bool {
        match (self.scheme(), other.scheme()) {
            (Some(scheme), Some(other)) => scheme == other,
            (None, None) => true,
            _ => false,
        }
    }
}

impl Eq for Child {
    ghost use Rattle.fl_encode.specs.SameShapes.{same_shapes};

    ghost laws = { same_shapes };
}
