//! Ends that fail under `encode` and `run`: each read, each write and the flush in turn.

use crate::runs::{READ_FAULT, WRITE_FAULT, run};
use std::alloc::Global;

/// What the container of 1, 2, 3 as `u32`, bit-packed at width 2, begins with: all but the last 257
/// bytes, of which only three are not 0.
const BEGINNING: &[u8] =
    b"FLC1\x13fastlanes.bitpacked\x02\x03\0\0\0\0\0\0\0\x02\0\0\0\x08\x02\x01\0\x01\0\0\0\0\0\0";

/// The container of 1, 2, 3 as `u32`, bit-packed at width 2: 305 bytes, where there is memory for them.
pub(crate) fn container(alloc: Global) -> Option<Vec<u8>> {
    let mut bytes = Vec::from_slice(alloc, BEGINNING).ok()?;
    bytes.extend_from_slice(b"\x01\0\0\0\x02\0\0\0\x03").ok()?;
    for _ in 0..248 {
        bytes.push(0).ok()?;
    }
    Some(bytes)
}

/// The words of a run, its input, and what it writes.
#[derive(Clone, Copy)]
struct Case<'a> {
    line: &'a [&'a str],
    input: &'a [u8],
    output: &'a [u8],
}

/// Where a read fails nothing is written, and the sink, which would fail too, isn't called.
fn read_fails(alloc: Global, case: Case<'_>, nth: u32) -> bool {
    match run(alloc, case.line, case.input, 1, [Some(nth), Some(0), None]) {
        Some(got) => {
            got.has_ended(1, READ_FAULT)
                && got.sink.bytes.is_empty()
                && got.read_failed
                && !got.sink.failed
        }
        None => false,
    }
}

/// Where a write fails a beginning of the output is written.
fn write_fails(alloc: Global, case: Case<'_>, nth: u32) -> bool {
    match run(alloc, case.line, case.input, 1, [None, Some(nth), None]) {
        Some(got) => {
            got.has_ended(1, WRITE_FAULT)
                && case.output.starts_with(&got.sink.bytes)
                && got.sink.failed
                && !got.read_failed
        }
        None => false,
    }
}

/// Where no call fails the whole output is written, also a byte at a time.
fn is_written(alloc: Global, case: Case<'_>, failing: [Option<u32>; 3]) -> bool {
    match run(alloc, case.line, case.input, 1, failing) {
        Some(got) => got.has_ended(0, b"") && got.sink.bytes.as_slice() == case.output,
        None => false,
    }
}

/// A run reads a byte a call, and once more at the end; then it writes a byte a call, and flushes.
fn fails_at_each_call(alloc: Global, case: Case<'_>) -> bool {
    let reads = u32::try_from(case.input.len()).unwrap_or(u32::MAX);
    let writes = u32::try_from(case.output.len()).unwrap_or(u32::MAX);
    for nth in 0..reads.saturating_add(1) {
        if !read_fails(alloc, case, nth) {
            return false;
        }
    }
    for nth in 0..writes.saturating_add(1) {
        if !write_fails(alloc, case, nth) {
            return false;
        }
    }
    let behind = |calls: u32| Some(calls.saturating_add(1));
    is_written(alloc, case, [behind(reads), behind(writes), None])
}

/// A run on the container 1, 2, 3 that writes this.
fn run_fails(alloc: Global, line: &[&str], output: &[u8]) -> bool {
    match container(alloc) {
        Some(container) => fails_at_each_call(
            alloc,
            Case {
                line,
                input: &container,
                output,
            },
        ),
        None => false,
    }
}

/// The container of 1, 2, 3 is encoded and stored as it is.
fn stores_fail(alloc: Global) -> bool {
    match container(alloc) {
        Some(container) => {
            let output = container.as_slice();
            fails_at_each_call(
                alloc,
                Case {
                    line: &["encode", "u32", "bitpacked:2"],
                    input: b"1\n2\n3\n",
                    output,
                },
            ) && fails_at_each_call(
                alloc,
                Case {
                    line: &["run", "store"],
                    input: output,
                    output,
                },
            )
        }
        None => false,
    }
}

#[test]
fn each_call_of_encode_and_store_fails(rt: HostRuntime) {
    assert!(rt; stores_fail(rt.alloc()));
}

#[test]
fn each_call_of_run_fails(rt: HostRuntime) {
    assert!(rt; run_fails(rt.alloc(), &["run", "decode"], b"1\n2\n3\n"));
    assert!(rt; run_fails(rt.alloc(), &["run", "slice:1:3", "ge:3"], b"false\ntrue\n"));
    assert!(rt; run_fails(rt.alloc(), &["run", "take:", "decode"], b""));
}
