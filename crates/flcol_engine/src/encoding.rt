//! The encoded arrays that the words of `encode` name.

ghost use Rattle.std.specs.Prelude.{◌≡◌, IfErr, IfOk};
ghost use Rattle.fl_types.specs.declared.error.FastLanesError.TheVariants.{OutOfMemory};
ghost use Rattle.fl_encode.specs.SchemeShapes.{shape};
ghost use Rattle.flcol_engine.specs.Encodings.{EncodesAs, child_of, scheme_of};

use crate::commands::{Encoding, Packing};
use fl_array::{ArrayRef, IntoArray};
use fl_codec::for_::ItemOrder;
use fl_column::{FastLanesError, PrimitiveArray};
use fl_encode::{Child, Scheme};
use std::alloc::Global;

/// A child, which is packed where that is asked for, and else plain.
fn child_of(alloc: Global, packing: Option<Packing>) -> Result<Child, FastLanesError>
    ensures child { IfOk result (λ child. child ≡ child_of packing) }
    ensures memory { IfErr result (λ e. e ≡ OutOfMemory) }
{
    match packing {
        None => Ok(Child::plain()),
        Some(packing) => Ok(Child::new(alloc, Scheme::BitPacked(packing))?),
    }
}

/// The scheme of an encoding.
fn scheme_of(alloc: Global, encoding: Encoding) -> Result<Scheme, FastLanesError>
    ensures scheme { IfOk result (λ scheme. shape scheme ≡ scheme_of encoding) }
    ensures memory { IfErr result (λ e. e ≡ OutOfMemory) }
{
    match encoding {
        Encoding::Primitive => Ok(Scheme::Primitive),
        Encoding::BitPacked(packing) => Ok(Scheme::BitPacked(packing)),
        Encoding::FoR(packing) => Ok(Scheme::FoR {
            order: ItemOrder::Natural,
            encoded: child_of(alloc, packing)?,
        }),
        Encoding::ChunkedFoR(packing) => Ok(Scheme::FoRChunked {
            order: ItemOrder::Natural,
            encoded: child_of(alloc, packing)?,
            references: Child::plain(),
        }),
        Encoding::Delta(packing) => Ok(Scheme::Delta {
            bases: Child::plain(),
            deltas: child_of(alloc, packing)?,
        }),
        Encoding::RLE(packing) => Ok(Scheme::RLE {
            values: Child::plain(),
            indices: child_of(alloc, packing)?,
            offsets: Child::plain(),
        }),
    }
}

/// The array in an encoding.
///
/// # Errors
/// The first refusal: that of the outer encoding, then that of the child's packing.
pub fn encode(
    alloc: Global,
    array: PrimitiveArray,
    encoding: Encoding,
) -> Result<ArrayRef, FastLanesError>
    ensures { EncodesAs encoding array result }
{
    if encoding == Encoding::Primitive {
        return Ok(array.into_array());
    }
    let scheme = scheme_of(alloc, encoding)?;
    fl_encode::encode(alloc, &array, &scheme)
}
