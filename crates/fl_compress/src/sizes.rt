//! How many bytes an array takes by a scheme, of its statistics.

ghost use Rattle.std.specs.Prelude.{◌≡◌, ◌≢◌, ◌-◌, ◌^◌, ℕ, IsTrue, None, Option, Some, min};
ghost use Rattle.fl_array.specs.Trees.{Tree};
ghost use Rattle.fl_column.specs.Columns.{PrimitiveParts};
ghost use Rattle.fl_encode.specs.Encodings.{IsEncodedAs, encode_refusal};
ghost use Rattle.fl_encode.specs.SchemeShapes.{shape};
ghost use Rattle.fl_serde.specs.ByteCounts.{tree_bytes};
ghost use Rattle.fl_compress.specs.Cheapest.{both};
ghost use Rattle.fl_compress.specs.EncodedBytes.{encoded_bytes};
ghost use Rattle.fl_compress.specs.Statistics.{base_size, by_order, capped, chunk_size, delta_size, framed_size, is_candidate, packed_size, reference_size, run_size, size_in, statistics_of};

use crate::statistics::{
    BaseSizes, ChunkSizes, DeltaSizes, FrameSizes, FramedSizes, PackedSizes, RunSizes, Statistics,
};
use fl_codec::for_::ItemOrder;
use fl_encode::{Child, Packing, Scheme};

/// A number, `u64::MAX` for one above it.
fn capped(bytes: u128) -> u64
    ensures { result ≡ min bytes (2 ^ 64 - 1) }
{
    bytes.min(u64::MAX as u128) as u64
}

/// Two sizes together, if there are both.
fn both(first: Option<u64>, other: Option<u64>) -> Option<u64>
    ensures { (a : Option ℕ) → (b : Option ℕ) → first ≡ capped a → other ≡ capped b → result ≡ capped (both a b) }
{
    match (first, other) {
        (Some(first), Some(other)) => Some(first.saturating_add(other)),
        _ => None,
    }
}

fn packed_size(sizes: &PackedSizes, scheme: &Scheme) -> Option<u64>
    ensures { result ≡ capped (packed_size sizes.now (shape scheme.now)) }
{
    match scheme {
        Scheme::Primitive => Some(capped(sizes.plain)),
        Scheme::Constant if sizes.is_constant => Some(0),
        Scheme::BitPacked(Packing::BestWidth) => Some(capped(sizes.best_width?)),
        Scheme::BitPacked(Packing::BestWidths) => Some(capped(sizes.best_widths?)),
        _ => None,
    }
}

fn packed_child(sizes: &PackedSizes, child: &Child) -> Option<u64>
    ensures { result ≡ capped (packed_size sizes.now child.now) }
{
    match child.scheme() {
        None => Some(capped(sizes.plain)),
        Some(scheme) => packed_size(sizes, scheme),
    }
}

fn reference_size(sizes: &Option<PackedSizes>, encoded: &Child) -> Option<u64>
    ensures { result ≡ capped (reference_size sizes.now encoded.now) }
{
    match sizes {
        None => None,
        Some(sizes) => packed_child(sizes, encoded),
    }
}

fn chunk_size(sizes: &ChunkSizes, encoded: &Child, references: &Child) -> Option<u64>
    ensures { result ≡ capped (chunk_size sizes.now encoded.now references.now) }
{
    match sizes {
        ChunkSizes::Whole(sizes) => packed_child(sizes, encoded),
        ChunkSizes::ByChunk(sizes, others) => both(
            packed_child(sizes, encoded),
            packed_child(others, references),
        ),
        ChunkSizes::Nulls => Some(0),
    }
}

fn by_order(sizes: &FramedSizes, order: ItemOrder) -> &FrameSizes
    ensures { result.now ≡ by_order order sizes.now }
{
    match order {
        ItemOrder::Natural => &sizes.natural,
        ItemOrder::Signed => &sizes.signed,
    }
}

fn framed_size(sizes: &FramedSizes, scheme: &Scheme) -> Option<u64>
    ensures { result ≡ capped (framed_size sizes.now (shape scheme.now)) }
{
    match scheme {
        Scheme::FoR { order, encoded } => reference_size(&by_order(sizes, *order).one, encoded),
        Scheme::FoRChunked {
            order,
            encoded,
            references,
        } => chunk_size(&by_order(sizes, *order).chunks, encoded, references),
        _ => packed_size(&sizes.packed, scheme),
    }
}

fn framed_child(sizes: &FramedSizes, child: &Child) -> Option<u64>
    ensures { result ≡ capped (framed_size sizes.now child.now) }
{
    match child.scheme() {
        None => Some(capped(sizes.packed.plain)),
        Some(scheme) => framed_size(sizes, scheme),
    }
}

fn base_size(sizes: &BaseSizes, scheme: &Scheme) -> Option<u64>
    ensures { result ≡ capped (base_size sizes.now (shape scheme.now)) }
{
    match scheme {
        Scheme::Delta { bases, deltas } => both(
            framed_child(&sizes.bases, bases),
            both(
                framed_child(&sizes.deltas, deltas),
                Some(capped(sizes.validity)),
            ),
        ),
        _ => framed_size(&sizes.framed, scheme),
    }
}

fn base_child(sizes: &BaseSizes, child: &Child) -> Option<u64>
    ensures { result ≡ capped (base_size sizes.now child.now) }
{
    match child.scheme() {
        None => Some(capped(sizes.framed.packed.plain)),
        Some(scheme) => base_size(sizes, scheme),
    }
}

fn delta_size(sizes: &DeltaSizes, scheme: &Scheme) -> Option<u64>
    ensures { result ≡ capped (delta_size sizes.now (shape scheme.now)) }
{
    match scheme {
        Scheme::Delta { bases, deltas } => both(
            base_child(&sizes.bases, bases),
            both(
                framed_child(&sizes.deltas, deltas),
                Some(capped(sizes.validity)),
            ),
        ),
        _ => framed_size(&sizes.framed, scheme),
    }
}

fn delta_child(sizes: &DeltaSizes, child: &Child) -> Option<u64>
    ensures { result ≡ capped (delta_size sizes.now child.now) }
{
    match child.scheme() {
        None => Some(capped(sizes.framed.packed.plain)),
        Some(scheme) => delta_size(sizes, scheme),
    }
}

fn run_size(sizes: &RunSizes, values: &Child, indices: &Child, offsets: &Child) -> Option<u64>
    ensures { result ≡ capped (run_size sizes.now values.now indices.now offsets.now) }
{
    both(
        delta_child(&sizes.values, values),
        both(
            delta_child(&sizes.indices, indices),
            framed_child(&sizes.offsets, offsets),
        ),
    )
}

fn candidate_size(scheme: &Scheme, statistics: &Statistics) -> Option<u64>
    ensures { result ≡ capped (size_in statistics.now (shape scheme.now)) }
{
    match scheme {
        Scheme::RLE {
            values,
            indices,
            offsets,
        } => run_size(&statistics.runs, values, indices, offsets),
        Scheme::Dict {
            values,
            indices,
            offsets,
        } => run_size(&statistics.dictionaries, values, indices, offsets),
        _ => delta_size(&statistics.items, scheme),
    }
}

/// How many bytes an array takes when it is encoded by a scheme of the candidates and written: what `nbytes` says
/// of it. `None` where `encode` refuses it. Of a scheme that is none of them it is `None` too, unless it differs from one of
/// them only in the schemes of children that are not made.
pub fn size_of(scheme: &Scheme, statistics: &Statistics) -> Option<u64>
    ensures size { result ≡ capped (size_in statistics.now (shape scheme.now)) }
    ensures exact { (p : PrimitiveParts) → statistics.now ≡ statistics_of p → IsTrue (is_candidate (shape scheme.now)) → result ≡ capped (encoded_bytes p (shape scheme.now)) }
    ensures refused { (p : PrimitiveParts) → statistics.now ≡ statistics_of p → encode_refusal (shape scheme.now) p ≢ None → result ≡ None }
    ensures encoded { (p : PrimitiveParts) → (t : Tree) → statistics.now ≡ statistics_of p → IsTrue (is_candidate (shape scheme.now)) → encode_refusal (shape scheme.now) p ≡ None → IsEncodedAs (shape scheme.now) p t → result ≡ Some (min (tree_bytes t) (2 ^ 64 - 1)) }
{
    candidate_size(scheme, statistics)
}
