//! The scheme of an array that is there.

ghost use Rattle.std.specs.Prelude.{◌≡◌, Err, IfOk, false};
ghost use Rattle.fl_types.specs.Refusals.{Answers};
ghost use Rattle.fl_types.specs.Types.{is_integer};
ghost use Rattle.fl_types.specs.declared.error.FastLanesError.TheVariants.{NotInteger};
ghost use Rattle.fl_array.specs.BitPackedArrays.{tree_of_bitpacked};
ghost use Rattle.fl_array.specs.Trees.{column};
ghost use Rattle.fl_encode.specs.SchemeShapes.{shape};
ghost use Rattle.fl_encode.specs.Shapes.{BitPacked};
ghost use Rattle.fl_encode.specs.TreeShapes.{part_shape, shape_of};

use crate::scheme::{Child, Packing, Scheme};
use fl_array::bitpacking::{BitPackedArray, BitWidthsView};
use fl_array::for_::FoRReferences;
use fl_array::{ArrayRef, Node};
use fl_codec::for_::ItemOrder;
use fl_column::{DType, FastLanesError};
use std::alloc::{AllocError, Global};

/// How the integers of an array are bit-packed.
fn packing_of(array: &BitPackedArray) -> Packing
    ensures { part_shape (tree_of_bitpacked array.now) ≡ BitPacked result }
{
    match array.bit_widths() {
        BitWidthsView::Global(width) => Packing::Width(width),
        BitWidthsView::Blocked(_) => Packing::BestWidths,
    }
}

/// The scheme of an array in another one, a plain child of a plain one.
#[cycle(array_schemes)]
fn child_of(alloc: Global, array: &ArrayRef) -> Result<Child, AllocError>
    ensures { IfOk result (λ child. child ≡ part_shape array.now) }
{
    let order = ItemOrder::Natural;
    let scheme = match array.node() {
        Node::Primitive(_) | Node::Bool(_) => return Ok(Child::plain()),
        Node::Constant(_) => Scheme::Constant,
        Node::BitPacked(array) => Scheme::BitPacked(packing_of(array)),
        Node::FoR(array) => {
            let encoded = child_of(alloc, array.encoded())?;
            match array.references() {
                FoRReferences::Global(_) => Scheme::FoR { order, encoded },
                FoRReferences::Blocked(references) => Scheme::FoRChunked {
                    order,
                    encoded,
                    references: child_of(alloc, references)?,
                },
            }
        }
        Node::Delta(array) => Scheme::Delta {
            bases: child_of(alloc, array.bases())?,
            deltas: child_of(alloc, array.deltas())?,
        },
        Node::RLE(array) => Scheme::RLE {
            values: child_of(alloc, array.values())?,
            indices: child_of(alloc, array.indices())?,
            offsets: child_of(alloc, array.offsets())?,
        },
    };
    Child::new(alloc, scheme)
}

/// The scheme of an array: its encoding and those of the arrays in it, with the width of bit-packed ones. An array that
/// was encoded shows the scheme that it was encoded by as far as `laws::encoded_shows_scheme` says.
///
/// # Errors
/// `NotInteger` of booleans, before memory is asked for.
pub fn scheme_of(alloc: Global, array: &ArrayRef) -> Result<Scheme, FastLanesError>
    ensures shape { Answers shape result (shape_of array.now) }
    ensures booleans { is_integer (column array.now).dtype ≡ false → result ≡ Err NotInteger }
{
    if let DType::Bool(_) = array.dtype() {
        return Err(FastLanesError::NotInteger);
    }
    match child_of(alloc, array)?.into_scheme() {
        Some(scheme) => Ok(scheme),
        None => Ok(Scheme::Primitive),
    }
}
