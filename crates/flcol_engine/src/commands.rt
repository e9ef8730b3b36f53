//! The commands of the program, as its words say them.

use fl_column::{BetweenOptions, CompareOperator, Nullability, PType};
pub use fl_encode::Packing;
use fl_ops::Op;

/// The command `pack`: the type of the column, and the bits that are kept of each item.
#[derive(Clone, Copy, Debug, PartialEq, Eq)]
pub struct Pack {
    /// The integer type of the column's items.
    pub ptype: PType,
    /// Whether nulls may stand in the column.
    pub nullability: Nullability,
    /// The bits that are kept of each item, as the word says; whether the type has as many is judged
    /// when the column has been read.
    pub width: u8,
}

/// An encoding of a column, and where it has a child that can be packed, how that is packed, if at all.
#[derive(Clone, Copy, Debug, PartialEq, Eq)]
pub enum Encoding {
    /// The integers as they are.
    Primitive,
    /// Bit-packed.
    BitPacked(Packing),
    /// A frame of reference for the column, and its child.
    FoR(Option<Packing>),
    /// A frame of reference for each chunk, and its child.
    ChunkedFoR(Option<Packing>),
    /// Delta, and the deltas.
    Delta(Option<Packing>),
    /// Run-length encoded, and the run indices.
    RLE(Option<Packing>),
}

/// The command `encode`: the type of the column, and its encoding.
#[derive(Clone, Copy, Debug, PartialEq, Eq)]
pub struct Encode {
    /// The integer type of the column's items.
    pub ptype: PType,
    /// Whether nulls may stand in the column.
    pub nullability: Nullability,
    /// How the column is encoded.
    pub encoding: Encoding,
}

/// A query to a column. Compared constants are integers; one that lies outside of every type is
/// `None`.
#[derive(Clone, Copy, Debug, PartialEq, Eq)]
pub enum ColumnQuery {
    /// All items.
    Decode,
    /// The item at an index.
    At(usize),
    /// How each item compares with a constant.
    Compare(CompareOperator, Option<i128>),
    /// Whether each item lies between a lower and an upper bound.
    Between(BetweenOptions, Option<i128>, Option<i128>),
    /// Whether all items are equal.
    IsConstant,
    /// Whether no item is above the next or, where set, each is below the next.
    IsSorted(bool),
}

/// A query to an array.
#[derive(Clone, Copy, Debug, PartialEq, Eq)]
pub enum Query {
    /// One to its column.
    Column(ColumnQuery),
    /// The id of its encoding.
    Id,
    /// The array itself, as a container.
    Store,
    /// The array with a boundary for each block wherever it is bit-packed, as a container.
    Migrate,
}

/// The command `run`: operations, and the query to their result.
#[derive(Drop)]
pub struct Run {
    /// The operations, in order.
    pub ops: Vec<Op>,
    /// The query.
    pub query: Query,
}

/// A command of the program.
#[derive(Drop)]
pub enum Command {
    /// Packs a column of text.
    Pack(Pack),
    /// Encodes a column of text, as a container.
    Encode(Encode),
    /// Answers a query to the column of a container.
    Run(Run),
}
