//! A scheme that is chosen for an array, with how many bytes the array takes by it.

ghost use Rattle.std.specs.Prelude.{◌≡◌, ◌+◌, ◌<◌, ◌≤◌, ◌^◌, Ok, Some};
ghost use Rattle.fl_types.specs.Refusals.{Answers};
ghost use Rattle.fl_encode.specs.Shapes as shapes;
ghost use Rattle.fl_encode.specs.SchemeShapes.{shape};
ghost use Rattle.fl_compress.specs.Cheapest.{cheaper, combined};
ghost use Rattle.fl_compress.specs.Choices.{chosen, chosen_in, run_values_of};

use fl_codec::for_::ItemOrder;
use fl_column::FastLanesError;
use fl_encode::{Child, Scheme};
use std::alloc::Global;

/// A scheme, and how many bytes an array takes by it.
#[derive(Drop)]
pub(crate) struct Choice {
    pub(crate) scheme: Scheme,
    pub(crate) bytes: u128,
}

/// Which run values a chunk has.
#[derive(Clone, Copy)]
pub(crate) enum RunValues {
    /// Each item that differs from the one before.
    Runs,
    /// The distinct items in rising order.
    Dictionary,
}

/// A plain array of this many bytes.
pub(crate) fn plain(bytes: u128) -> Choice
    ensures { chosen result ≡ Some (shapes.Primitive, bytes) }
{
    Choice {
        scheme: Scheme::Primitive,
        bytes,
    }
}

/// The choice that takes fewer bytes, the first where both take as many.
pub(crate) fn cheaper(first: Choice, other: Option<Choice>) -> Choice
    ensures choice { chosen result ≡ cheaper (chosen first) (chosen_in other) }
    ensures most { result.bytes ≤ first.bytes }
{
    match other {
        Some(other) => {
            if other.bytes < first.bytes {
                other
            } else {
                first
            }
        }
        None => first,
    }
}

/// One reference by an order over a child.
pub(crate) fn over_one_reference(
    alloc: Global,
    order: ItemOrder,
    child: Choice,
) -> Result<Choice, FastLanesError>
    ensures { Answers chosen result (Ok (Some (shapes.FoR order (shape child.scheme), child.bytes))) }
{
    let Choice { scheme, bytes } = child;
    let encoded = Child::new(alloc, scheme)?;
    let scheme = Scheme::FoR { order, encoded };
    Ok(Choice { scheme, bytes })
}

/// A reference for each chunk by an order over a child.
pub(crate) fn over_chunk_references(
    alloc: Global,
    order: ItemOrder,
    child: Choice,
    others: Choice,
) -> Result<Choice, FastLanesError>
    requires child { child.bytes < 2 ^ 68 }
    requires others { others.bytes < 2 ^ 68 }
    ensures { Answers chosen result (Ok (combined (shapes.FoRChunked order) (chosen child) (chosen others))) }
{
    let bytes = child.bytes + others.bytes;
    let encoded = Child::new(alloc, child.scheme)?;
    let references = Child::new(alloc, others.scheme)?;
    let scheme = Scheme::FoRChunked {
        order,
        encoded,
        references,
    };
    Ok(Choice { scheme, bytes })
}

/// Deltas over bases and deltas, beside so many bytes of their own.
pub(crate) fn over_deltas(
    alloc: Global,
    bases: Choice,
    deltas: Choice,
    own: u128,
) -> Result<Choice, FastLanesError>
    requires bases { bases.bytes < 2 ^ 68 }
    requires deltas { deltas.bytes < 2 ^ 68 }
    requires own { own < 2 ^ 64 }
    ensures { Answers chosen result (Ok (Some (shapes.Delta (shape bases.scheme) (shape deltas.scheme), bases.bytes + (deltas.bytes + own)))) }
{
    let bytes = bases.bytes + (deltas.bytes + own);
    let bases = Child::new(alloc, bases.scheme)?;
    let deltas = Child::new(alloc, deltas.scheme)?;
    let scheme = Scheme::Delta { bases, deltas };
    Ok(Choice { scheme, bytes })
}

/// The scheme of these run values, over these children.
fn scheme_of_runs(which: RunValues, values: Child, indices: Child, offsets: Child) -> Scheme
    ensures { shape result ≡ shapes.RLE (run_values_of which) values indices offsets }
{
    match which {
        RunValues::Runs => Scheme::RLE {
            values,
            indices,
            offsets,
        },
        RunValues::Dictionary => Scheme::Dict {
            values,
            indices,
            offsets,
        },
    }
}

/// Runs or dictionaries over run values, run indices and run offsets.
pub(crate) fn over_runs(
    alloc: Global,
    which: RunValues,
    values: Choice,
    indices: Choice,
    offsets: Choice,
) -> Result<Choice, FastLanesError>
    requires values { values.bytes < 2 ^ 68 }
    requires indices { indices.bytes < 2 ^ 68 }
    requires offsets { offsets.bytes < 2 ^ 68 }
    ensures { Answers chosen result (Ok (Some (shapes.RLE (run_values_of which) (shape values.scheme) (shape indices.scheme) (shape offsets.scheme), values.bytes + (indices.bytes + offsets.bytes)))) }
{
    let bytes = values.bytes + (indices.bytes + offsets.bytes);
    let values = Child::new(alloc, values.scheme)?;
    let indices = Child::new(alloc, indices.scheme)?;
    let offsets = Child::new(alloc, offsets.scheme)?;
    let scheme = scheme_of_runs(which, values, indices, offsets);
    Ok(Choice { scheme, bytes })
}
