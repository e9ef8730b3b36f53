//! The kind of an array as text, and the arrays inside it.

use crate::text::Text;
use fl_array::ArrayRef;
use fl_array::bitpacking::{BitPackedArrayExt, BitWidthsView};
use fl_array::delta::DeltaArrayExt;
use fl_array::for_::{FoRArrayExt, FoRReferences};
use fl_array::rle::RLEArrayExt;

/// The arrays inside an array, in the order of its slots.
pub fn inside(array: &ArrayRef) -> [Option<&ArrayRef>; 3] {
    if let Some(array) = array.as_bitpacked() {
        match array.bit_widths() {
            BitWidthsView::Global(_) => [None, None, None],
            BitWidthsView::Blocked(boundaries) => [Some(boundaries), None, None],
        }
    } else if let Some(array) = array.as_for() {
        match array.references() {
            FoRReferences::Global(_) => [Some(array.encoded()), None, None],
            FoRReferences::Blocked(references) => [Some(array.encoded()), Some(references), None],
        }
    } else if let Some(array) = array.as_delta() {
        [Some(array.bases()), Some(array.deltas()), None]
    } else if let Some(array) = array.as_rle() {
        [
            Some(array.values()),
            Some(array.indices()),
            Some(array.offsets()),
        ]
    } else {
        [None, None, None]
    }
}

/// The name of a kind of encoded arrays.
fn encoding(array: &ArrayRef) -> &'static str {
    if let Some(array) = array.as_bitpacked() {
        match array.bit_widths() {
            BitWidthsView::Global(_) => "bitpacked",
            BitWidthsView::Blocked(_) => "blocked",
        }
    } else if let Some(array) = array.as_for() {
        if array.references().is_global() {
            "for"
        } else {
            "forc"
        }
    } else if array.as_delta().is_some() {
        "delta"
    } else if array.as_rle().is_some() {
        "rle"
    } else {
        "none"
    }
}

/// The name of a kind.
fn name(array: &ArrayRef) -> &'static str {
    if array.as_primitive().is_some() {
        "plain"
    } else if array.as_constant().is_some() {
        "constant"
    } else if array.as_bool().is_some() {
        "bools"
    } else {
        encoding(array)
    }
}

/// Adds the kinds of the arrays inside an array, in brackets.
#[cycle(kind)]
fn kinds_inside(array: &ArrayRef, depth: usize, answer: &mut Text) {
    let mut is_first = true;
    for inner in inside(array) {
        if let Some(inner) = inner {
            answer.piece(if is_first { "(" } else { "," });
            kind_to(inner, depth, answer);
            is_first = false;
        }
    }
    if !is_first {
        answer.piece(")");
    }
}

/// Adds the kind of an array, and the kinds of at most this many levels inside it.
#[cycle(kind)]
fn kind_to(array: &ArrayRef, depth: usize, answer: &mut Text) {
    answer.piece(name(array));
    if depth > 0 {
        kinds_inside(array, depth - 1, answer);
    }
}

/// Adds the kind of an array, as `for(bitpacked)`.
pub fn kind(array: &ArrayRef, answer: &mut Text) {
    kind_to(array, 8, answer);
    answer.word("");
}
