//! References that are added to the items of packed columns.

use fl_column::PrimitiveArray;
use fl_types::PValue;

/// The references that are added to the items of a column, modulo 2 to the number of bits.
#[derive(Clone, Copy)]
pub enum References<'a> {
    /// Nothing is added.
    None,
    /// One reference for all items.
    Global(PValue),
    /// A reference for each block.
    PerBlock(&'a PrimitiveArray),
}
