//! Arrays of each kind, from columns.
//!
//! A kind is the name of an encoding, with what it needs behind a colon. Behind `+` stands the kind of the long array
//! inside it, which has an entry for each position: the encoded items, the deltas or the run indices. Behind `@` stands
//! that of a small one: the boundaries, the references, the bases or the run values, and behind a second `@` that of
//! the run offsets; in these `/` stands for `+`. So `rle@for/bitpacked:2+bitpacked:1` has bit-packed run indices, and
//! run values that are less a reference and then bit-packed.

ghost use Rattle.std.specs.Prelude.{◌≡◌, ◌<◌, ◌≤◌, ℕ, IfOk, length, slice_index};

use crate::arrays::{Built, encoders, making};
use crate::column_rows::bits;
use crate::columns::{count, width_of};
use crate::names::named;
use bytes::Bytes;
use fl_array::IntoArray;
use fl_bitpacking::bitpack_compress::{bitpack_blocked_unchecked, bitpack_unchecked};
use fl_codec::delta::delta_compress;
use fl_codec::for_::{self, EncodedFoR, GlobalFoR};
use fl_codec::rle::{self, Runs};
use fl_column::{BoolArray, ConstantArray, PrimitiveArray, chunk_count};
use fl_patches::{Patches, gather_blocked_patches, gather_patches};
use fl_types::{FastLanesError, Scalar};
use std::alloc::Global;

/// A column's first item, a null where it has none.
fn first_item(column: &PrimitiveArray) -> Scalar {
    if column.len() > 0 {
        column.scalar_at(0)
    } else {
        Scalar::null(column.dtype())
    }
}

/// This many copies of a column's first item.
fn constant(column: &PrimitiveArray, len: usize) -> Built {
    Ok(ConstantArray::new(first_item(column), len)?.into_array())
}

/// A column's items as booleans.
fn bools(alloc: Global, column: &PrimitiveArray) -> Built {
    let validity = column.validity().try_clone(alloc)?;
    Ok(BoolArray::new(bits::ones(alloc, column)?, validity)?.into_array())
}

/// The column as it is.
fn plain(alloc: Global, column: &PrimitiveArray) -> Built {
    Ok(column.try_clone(alloc)?.into_array())
}

/// A column's packed bytes and patches, with its type and validity.
fn packed(
    alloc: Global,
    column: &PrimitiveArray,
    bytes: Bytes,
    patches: Option<Patches>,
) -> Result<making::Packed, FastLanesError> {
    let validity = column.validity().try_clone(alloc)?;
    Ok(making::Packed {
        bytes,
        ptype: column.ptype(),
        validity,
        patches,
        offset: 0,
        len: column.len(),
    })
}

/// A column that is packed at one width, with its patches.
fn bitpacked(alloc: Global, column: &PrimitiveArray, width: u8) -> Built {
    if usize::from(width) > column.ptype().bit_width() {
        return Err(FastLanesError::WidthTooLarge);
    }
    let bytes = bitpack_unchecked(alloc, column, width)?;
    let patches = gather_patches(alloc, column, width, 0)?;
    making::bitpacked(packed(alloc, column, bytes, patches)?, width)
}

/// The width of a block, by widths in turn.
fn width_in_turn(widths: &[&str], block: usize) -> u8 {
    match widths.get(block % widths.len().max(1)) {
        Some(width) => width_of(width),
        None => 0,
    }
}

/// The widths of this many blocks, by widths in turn: `3,0`.
fn widths_of(
    alloc: Global,
    widths: &str,
    bits: usize,
    blocks: usize,
) -> Result<Vec<u8>, FastLanesError>
    ensures count { IfOk result (λ v. length v.items ≡ blocks) }
    ensures narrow { IfOk result (λ v. (j : ℕ) → j < length v.items → slice_index v.items j ≤ bits) }
{
    let turns: Vec<&str> = widths.split(',').collect(alloc)?;
    let mut all = Vec::new(alloc);
    for block in 0..blocks {
        let width = width_in_turn(&turns, block);
        if usize::from(width) > bits {
            return Err(FastLanesError::WidthTooLarge);
        }
        all.push(width)?;
    }
    Ok(all)
}

/// The kinds of the arrays inside an encoded one: of the long one, and of the small ones; and how many levels of these
/// may follow.
#[derive(Clone, Copy)]
struct Inner<'a> {
    long: &'a str,
    small: &'a str,
    separator: char,
    depth: usize,
}

/// A column that is packed at widths in turn, with its patches.
#[cycle(kinds)]
fn blocked(alloc: Global, column: &PrimitiveArray, widths: &str, inner: Inner) -> Built {
    let bits = column.ptype().bit_width();
    let widths = widths_of(alloc, widths, bits, chunk_count(column.len()))?;
    let (bytes, boundaries) = bitpack_blocked_unchecked(alloc, column, &widths)?;
    let patches = gather_blocked_patches(alloc, column, &widths, 0)?;
    let parts = packed(alloc, column, bytes, patches)?;
    making::blocked(alloc, parts, small_array(alloc, inner, &boundaries)?)
}

/// A small array inside an encoded one.
#[cycle(kinds)]
fn small_array(alloc: Global, inner: Inner, column: &PrimitiveArray) -> Built {
    nested(alloc, inner.small, '/', inner.depth, column)
}

/// The long array inside an encoded one.
#[cycle(kinds)]
fn long_array(alloc: Global, inner: Inner, column: &PrimitiveArray) -> Built {
    nested(alloc, inner.long, inner.separator, inner.depth, column)
}

/// An encoded column less its reference.
#[cycle(kinds)]
fn less_one(alloc: Global, parts: &GlobalFoR, inner: Inner) -> Built {
    making::global_for(
        alloc,
        long_array(alloc, inner, &parts.child)?,
        parts.reference,
    )
}

/// A column less the least item of each chunk.
#[cycle(kinds)]
fn less_each(alloc: Global, parts: &EncodedFoR, inner: Inner) -> Built {
    match parts {
        EncodedFoR::Global(parts) => less_one(alloc, parts, inner),
        EncodedFoR::Chunked(child, references) => {
            let child = long_array(alloc, inner, child)?;
            making::chunked_for(alloc, child, small_array(alloc, inner, references)?, 0)
        }
        EncodedFoR::Nulls(child, reference) => {
            making::global_for(alloc, child.try_clone().into_array(), *reference)
        }
    }
}

/// A column as bases and deltas.
#[cycle(kinds)]
fn delta(alloc: Global, column: &PrimitiveArray, inner: Inner) -> Built {
    let (bases, deltas) = delta_compress(alloc, column)?;
    let bases = small_array(alloc, inner, &bases)?;
    let deltas = long_array(alloc, inner, &deltas)?;
    let validity = column.validity().try_clone(alloc)?;
    making::delta(alloc, bases, deltas, validity, 0, column.len())
}

/// The runs of this many items.
#[cycle(kinds)]
fn runs(alloc: Global, runs: &Runs, len: usize, inner: Inner) -> Built {
    let (values, offsets) = inner.small.split_once('@').unwrap_or((inner.small, ""));
    let values = nested(alloc, values, '/', inner.depth, &runs.values)?;
    let indices = long_array(alloc, inner, &runs.indices)?;
    let offsets = nested(alloc, offsets, '/', inner.depth, &runs.offsets)?;
    making::rle(alloc, values, indices, offsets, 0, len)
}

/// An encoding, or how a column is kept else.
#[derive(Clone, Copy)]
enum Encoding {
    Constant,
    Bools,
    Encoder,
    BitPacked,
    Blocked,
    For,
    ForChunked,
    Delta,
    Rle,
}

const ENCODINGS: &[(&str, Encoding)] = &[
    ("constant", Encoding::Constant),
    ("bools", Encoding::Bools),
    ("encoder", Encoding::Encoder),
    ("bitpacked", Encoding::BitPacked),
    ("blocked", Encoding::Blocked),
    ("for", Encoding::For),
    ("forc", Encoding::ForChunked),
    ("delta", Encoding::Delta),
    ("rle", Encoding::Rle),
];

/// The column's first item, as often as there are items, or as often as a word says.
fn constant_of(column: &PrimitiveArray, needed: &str) -> Built {
    if needed.is_empty() {
        constant(column, column.len())
    } else {
        constant(column, count(needed))
    }
}

/// An array that holds no other one, with what stands behind its name.
fn unnested(
    alloc: Global,
    encoding: Option<Encoding>,
    needed: &str,
    column: &PrimitiveArray,
) -> Built {
    match encoding {
        Some(Encoding::Constant) => constant_of(column, needed),
        Some(Encoding::Bools) => bools(alloc, column),
        Some(Encoding::Encoder) => encoders::encode(alloc, needed, column),
        Some(Encoding::BitPacked) => bitpacked(alloc, column, width_of(needed)),
        _ => plain(alloc, column),
    }
}

/// An array of an encoding, with what stands behind its name.
#[cycle(kinds)]
fn encoded(
    alloc: Global,
    encoding: Option<Encoding>,
    needed: &str,
    inner: Inner,
    column: &PrimitiveArray,
) -> Built {
    match encoding {
        Some(Encoding::Blocked) => blocked(alloc, column, needed, inner),
        Some(Encoding::For) => less_one(alloc, &for_::encode(alloc, column)?, inner),
        Some(Encoding::ForChunked) => less_each(
            alloc,
            &for_::encode_chunked(alloc, column)?,
            inner,
        ),
        Some(Encoding::Delta) => delta(alloc, column, inner),
        Some(Encoding::Rle) => runs(alloc, &rle::encode(alloc, column)?, column.len(), inner),
        _ => unnested(alloc, encoding, needed, column),
    }
}

/// An array of a kind, in which at most this many levels are nested.
#[cycle(kinds)]
fn nested(
    alloc: Global,
    kind: &str,
    separator: char,
    depth: usize,
    column: &PrimitiveArray,
) -> Built {
    if depth == 0 {
        return plain(alloc, column);
    }
    let (outer, long) = kind.split_once(separator).unwrap_or((kind, ""));
    let (outer, small) = outer.split_once('@').unwrap_or((outer, ""));
    let (name, needed) = outer.split_once(':').unwrap_or((outer, ""));
    let inner = Inner {
        long,
        small,
        separator,
        depth: depth - 1,
    };
    encoded(alloc, named(ENCODINGS, name), needed, inner, column)
}

/// An array of a kind.
pub fn array(alloc: Global, kind: &str, column: &PrimitiveArray) -> Built {
    nested(alloc, kind, '+', 8, column)
}
