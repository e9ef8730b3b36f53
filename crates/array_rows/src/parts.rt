//! What arrays of each kind are made of. Every call that looks into an encoded one stands here.

use fl_array::ArrayRef;
use fl_array::bitpacking::{BitPackedArray, BitPackedArrayExt, BitWidthsView};
use fl_array::delta::{DeltaArray, DeltaArrayExt};
use fl_array::for_::{FoRArray, FoRArrayExt, FoRReferences};
use fl_array::rle::{RLEArray, RLEArrayExt};
use row_reader::arrays::kinds::inside;
use row_reader::column_rows::patches;
use row_reader::shown;
use row_reader::text::Text;
use std::alloc::Global;

/// The place of a slot among those of its array.
fn slot(name: &str) -> Option<usize> {
    match name {
        "boundaries" | "encoded" | "bases" | "values" => Some(0),
        "references" | "deltas" | "indices" => Some(1),
        "offsets" => Some(2),
        _ => None,
    }
}

/// The array in a slot of an array, if there is one.
fn in_slot<'a>(array: &'a ArrayRef, name: &str) -> Option<&'a ArrayRef> {
    let arrays = inside(array);
    let inner = arrays.get(slot(name)?)?;
    *inner
}

/// The array inside an array that words lead to, as `of encoded of bases`, and the words behind them.
pub(crate) fn descend<'a>(
    array: &'a ArrayRef,
    words: &'a [&'a str],
) -> Option<(&'a ArrayRef, &'a [&'a str])> {
    let (mut inner, mut rest) = (array, words);
    for _ in 0..words.len() {
        match rest {
            ["of", name, behind @ ..] => {
                inner = in_slot(inner, name)?;
                rest = behind;
            }
            _ => return Some((inner, rest)),
        }
    }
    Some((inner, rest))
}

/// Adds the type and the items of an array inside another one.
fn part(alloc: Global, array: &ArrayRef, answer: &mut Text) {
    answer.word("|");
    shown::made(answer, array.to_primitive(alloc));
}

/// Adds the place of the first item in its block, and how many items there are.
fn window(answer: &mut Text, offset: usize, len: usize) {
    answer.word("offset");
    answer.count(offset);
    answer.word("len");
    answer.count(len);
}

/// Adds the width of the blocks, or their boundaries.
fn widths(alloc: Global, array: &BitPackedArray, answer: &mut Text) {
    match array.bit_widths() {
        BitWidthsView::Global(width) => {
            answer.word("| width");
            answer.count(usize::from(width));
        }
        BitWidthsView::Blocked(boundaries) => part(alloc, boundaries, answer),
    }
}

/// Adds the parts of a bit-packed array, its bytes and its validity aside.
fn packed_parts(alloc: Global, array: &BitPackedArray, answer: &mut Text) {
    window(
        answer,
        usize::from(BitPackedArrayExt::offset(array)),
        BitPackedArrayExt::len(array),
    );
    answer.word("bytes");
    answer.count(BitPackedArrayExt::packed(array).len());
    widths(alloc, array, answer);
    answer.word("|");
    match BitPackedArrayExt::patches(array) {
        Some(patches) => patches::parts(answer, patches),
        None => answer.word("unpatched"),
    }
}

/// Adds the parts of an array less references.
fn for_parts(alloc: Global, array: &FoRArray, answer: &mut Text) {
    answer.word("offset");
    answer.count(FoRArrayExt::offset(array));
    answer.word("|");
    match FoRArrayExt::references(array) {
        FoRReferences::Global(reference) => shown::scalar(answer, *reference),
        FoRReferences::Blocked(references) => shown::made(answer, references.to_primitive(alloc)),
    }
    part(alloc, FoRArrayExt::slots(array).encoded, answer);
}

/// Adds the parts of an array of deltas, its validity aside.
fn delta_parts(alloc: Global, array: &DeltaArray, answer: &mut Text) {
    window(
        answer,
        DeltaArrayExt::offset(array),
        DeltaArrayExt::len(array),
    );
    let slots = DeltaArrayExt::slots(array);
    part(alloc, slots.bases, answer);
    part(alloc, slots.deltas, answer);
}

/// Adds the parts of a run-length encoded array.
fn rle_parts(alloc: Global, array: &RLEArray, answer: &mut Text) {
    window(answer, RLEArrayExt::offset(array), RLEArrayExt::len(array));
    let slots = RLEArrayExt::slots(array);
    part(alloc, slots.values, answer);
    part(alloc, slots.indices, answer);
    part(alloc, slots.values_idx_offsets, answer);
}

/// Adds the parts of an encoded array.
pub(crate) fn parts(alloc: Global, array: &ArrayRef, answer: &mut Text) {
    if let Some(array) = array.as_bitpacked() {
        packed_parts(alloc, array, answer);
    } else if let Some(array) = array.as_for() {
        for_parts(alloc, array, answer);
    } else if let Some(array) = array.as_delta() {
        delta_parts(alloc, array, answer);
    } else if let Some(array) = array.as_rle() {
        rle_parts(alloc, array, answer);
    } else {
        answer.word("no parts");
    }
}

/// How many blocks a bit-packed array keeps, by its bytes or its boundaries.
fn packed_blocks(array: &BitPackedArray) -> usize {
    match array.bit_widths() {
        BitWidthsView::Global(0) => array.packed_data().block_count(),
        BitWidthsView::Global(width) => array.packed_data().packed().len()
            / 128
            / usize::from(width),
        BitWidthsView::Blocked(boundaries) => boundaries.len().saturating_sub(1),
    }
}

/// Adds how many blocks an array keeps.
fn kept_blocks(answer: &mut Text, blocks: usize) {
    answer.count(blocks);
    answer.word("blocks");
}

/// Adds how many blocks an encoded array keeps, the place of its first item in the first one, and its length.
pub(crate) fn kept(array: &ArrayRef, answer: &mut Text) {
    let len = array.len();
    if let Some(array) = array.as_bitpacked() {
        kept_blocks(answer, packed_blocks(array));
        window(answer, array.packed_data().offset(), len);
    } else if let Some(array) = array.as_delta() {
        kept_blocks(answer, array.deltas().len() / 1024);
        window(answer, array.offset(), len);
    } else if let Some(array) = array.as_rle() {
        kept_blocks(answer, array.offsets().len());
        window(answer, array.offset(), len);
    } else if let Some(array) = array.as_for() {
        if let FoRReferences::Blocked(references) = array.references() {
            kept_blocks(answer, references.len());
        }
        window(answer, array.offset(), len);
    }
}

/// Adds the packed bytes of a bit-packed array.
pub(crate) fn packed_bytes(array: &ArrayRef, answer: &mut Text) {
    match array.as_bitpacked() {
        Some(array) => shown::bytes(answer, array.packed_data().packed().as_slice()),
        None => answer.word("no bytes"),
    }
}

/// Adds the type and the stored integers of a plain array, those under nulls too.
pub(crate) fn slots(array: &ArrayRef, answer: &mut Text) {
    match array.as_primitive() {
        Some(array) => {
            shown::dtype(answer, array.dtype());
            shown::slots(answer, array);
        }
        None => answer.word("no slots"),
    }
}
