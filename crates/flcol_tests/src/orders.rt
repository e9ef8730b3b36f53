//! Which of two refusals is the answer, over ends that would fail too.

use crate::faults::container;
use crate::runs::{BAD_COLUMN, READ_FAULT, TOO_LARGE, run};
use std::alloc::Global;

const BAD_CONTAINER: &[u8] = b"error 42 BadContainer\n";

/// A run is refused with this line over a sink that would fail too, and isn't called; the source fails at a call, or not.
fn is_refused_unwritten(
    alloc: Global,
    line: &[&str],
    input: &[u8],
    read: Option<u32>,
    refusal: &[u8],
) -> bool {
    match run(alloc, line, input, 100, [read, Some(0), None]) {
        Some(got) => got.has_ended(1, refusal) && got.sink.bytes.is_empty() && !got.sink.failed,
        None => false,
    }
}

/// The words of a run, its input, the read that fails, and the line that the run is refused with.
type Ordered = (
    &'static [&'static str],
    &'static [u8],
    Option<u32>,
    &'static [u8],
);

/// A failing read comes before what was read, a bad column before the encoder, the outer encoder before the packing, a
/// negative item before the width, and a failing write last.
const ORDERS: &[Ordered] = &[
    (&["run", "decode"], b"x", Some(0), READ_FAULT),
    (&["run", "decode"], b"x", Some(1), READ_FAULT),
    (&["run", "decode"], b"x", None, BAD_CONTAINER),
    (&["encode", "u8", "for"], b"x\n", Some(1), READ_FAULT),
    (&["encode", "u8", "for"], b"x\n", None, BAD_COLUMN),
    (&["encode", "u8", "for"], b"", Some(0), READ_FAULT),
    (&["encode", "u8", "for"], b"", None, NO_MINIMUM),
    (&["encode", "u8", FOR_255], b"-1\n", None, BAD_COLUMN),
    (&["encode", "u8", FOR_255], b"", None, NO_MINIMUM),
    (&["encode", "u8", FOR_255], b"1\n", None, TOO_LARGE),
    (&["encode", "u8", "bitpacked:255"], b"256", None, BAD_COLUMN),
    (&["encode", "u8", "bitpacked:255"], b"255", None, TOO_LARGE),
    (&["encode", "i8", "bitpacked:255"], b"-1", None, NEGATIVE),
    (&["encode", "i8", "blocked"], b"-1\n", None, NEGATIVE),
    (
        &["encode", "i8", "delta+blocked"],
        b"5\n1\n",
        None,
        NEGATIVE,
    ),
    (
        &["encode", "i8", "rle+bitpacked:16"],
        b"-1",
        None,
        TOO_LARGE,
    ),
];

const FOR_255: &str = "for+bitpacked:255";

const NO_MINIMUM: &[u8] = b"error 21 NoMinimum\n";

const NEGATIVE: &[u8] = b"error 3 NegativeValue\n";

#[test]
fn answers_the_first_refusal(rt: HostRuntime) {
    for (line, input, read, refusal) in ORDERS {
        assert!(rt; is_refused_unwritten(rt.alloc(), line, input, *read, refusal));
    }
}

/// What is refused on the container of 1, 2, 3 over a sink that fails.
const UNWRITTEN: &[(&[&str], &[u8])] = &[
    (&["run", "at:3"], b"error 30 IndexOutOfBounds\n"),
    (&["run", "eq:-1"], b"error 18 TypeMismatch\n"),
    (&["run", "filter:1", "id"], b"error 32 MaskLength\n"),
    (
        &["run", "slice:0:4", "store"],
        b"error 31 RangeOutOfBounds\n",
    ),
];

fn refuses_unwritten(alloc: Global) -> bool {
    let Some(bytes) = container(alloc) else {
        return false;
    };
    for (line, refusal) in UNWRITTEN {
        if !is_refused_unwritten(alloc, line, &bytes, None, refusal) {
            return false;
        }
    }
    true
}

#[test]
fn refuses_before_it_writes(rt: HostRuntime) {
    assert!(rt; refuses_unwritten(rt.alloc()));
}
