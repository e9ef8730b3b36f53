//! Runs of the whole program, over ends in memory and over std's.

ghost use Rattle.std.specs.Prelude.{◌<◌};

use crate::memory::{Broken, ByBytes, FromMemory, ToMemory, Unflushed};
use flcol_engine::fault::Fault;
use flcol_engine::io::{ReadEnd, WriteEnd};
use flcol_engine::start::start;
use std::alloc::Global;
use std::io::{Read, Write};
use vortex_fastlanes::FastLanesError;

pub(crate) const USAGE: &[u8] =
    b"usage: flcol pack TYPE WIDTH | encode TYPE ENCODING | run OP.. QUERY\n";

pub(crate) const READ_FAULT: &[u8] = b"error 43 ReadFault\n";

pub(crate) const WRITE_FAULT: &[u8] = b"error 44 WriteFault\n";

pub(crate) const BAD_COLUMN: &[u8] = b"error 41 BadColumn\n";

pub(crate) const TOO_LARGE: &[u8] = b"error 4 WidthTooLarge\n";

/// The words of a column of bytes at width 1.
const BITS: &[&str] = &["pack", "u8", "1"];

/// These words, where there is memory for them.
fn words(alloc: Global, line: &[&str]) -> Option<Vec<String>> {
    let mut all = Vec::new(alloc);
    for word in line {
        all.push(String::from_str(alloc, word).ok()?).ok()?;
    }
    Some(all)
}

/// What a run of the program gave.
#[derive(Drop)]
pub(crate) struct Outcome {
    pub(crate) status: u8,
    pub(crate) read_failed: bool,
    pub(crate) sink: ToMemory,
    pub(crate) errors: ToMemory,
}

impl Outcome {
    /// The run ended with this status and this line of errors.
    pub(crate) fn has_ended(&self, status: u8, line: &[u8]) -> bool {
        self.status == status && self.errors.bytes.as_slice() == line
    }

    /// It wrote this many bytes, of which all are 0 but these.
    pub(crate) fn has_written(&self, len: usize, others: &[(usize, u8)]) -> bool {
        self.sink.bytes.len() == len && are_zeros_but(&self.sink.bytes, others)
    }

    /// It failed to read, or to write.
    fn has_failed(&self) -> bool {
        self.read_failed || self.sink.failed
    }
}

/// Runs the program on these words and this input, this many bytes a call at most.
///
/// `failing` has the calls that fail, counted from 0: of the source, of the sink, and of the sink for errors.
fn run_words(
    alloc: Global,
    words: &[String],
    input: &[u8],
    piece: usize,
    failing: [Option<u32>; 3],
) -> Outcome
    requires { 0 < piece }
{
    let mut source = FromMemory::new(input, piece, failing[0]);
    let mut sink = ToMemory::new(alloc, piece, failing[1]);
    let mut errors = ToMemory::new(alloc, piece, failing[2]);
    let status = start(alloc, words, &mut source, &mut sink, &mut errors);
    Outcome {
        status,
        read_failed: source.failed,
        sink,
        errors,
    }
}

/// The same on a line of words.
pub(crate) fn run(
    alloc: Global,
    line: &[&str],
    input: &[u8],
    piece: usize,
    failing: [Option<u32>; 3],
) -> Option<Outcome>
    requires { 0 < piece }
{
    match words(alloc, line) {
        Some(words) => Some(run_words(alloc, &words, input, piece, failing)),
        None => None,
    }
}

/// The byte at an index where all are 0 but these.
fn byte_at(index: usize, others: &[(usize, u8)]) -> u8 {
    for (at, byte) in others {
        if *at == index {
            return *byte;
        }
    }
    0
}

/// The bytes are 0 but at these indices.
fn are_zeros_but(bytes: &[u8], others: &[(usize, u8)]) -> bool {
    for i in 0..bytes.len() {
        if bytes[i] != byte_at(i, others) {
            return false;
        }
    }
    true
}

/// These words give no command; no end but that for errors is called.
fn gives_no_command(alloc: Global, line: &[&str]) -> bool {
    match run(alloc, line, b"x", 7, [Some(0), Some(0), None]) {
        Some(got) => got.has_ended(2, USAGE) && got.has_written(0, &[]) && !got.has_failed(),
        None => false,
    }
}

/// No words, words that are empty or have a blank, and others.
const NO_COMMANDS: &[&[&str]] = &[
    &[],
    &["pack"],
    &["pack", "u8", ""],
    &["pack", "u8", " 1"],
    &["pack", "u8 ?", "1"],
    &["pack", "", "1"],
    &["", "u8", "1"],
    &["encode", "u8", ""],
    &["run", ""],
    &["run", "decode", "decode"],
];

#[test]
fn refuses_words(rt: HostRuntime) {
    for line in NO_COMMANDS {
        assert!(rt; gives_no_command(rt.alloc(), line));
    }
}

/// The read with this number fails.
fn read_fails(alloc: Global, nth: u32) -> bool {
    match run(
        alloc,
        &["pack", "u8", "9"],
        b"0\n255\n1x",
        1,
        [Some(nth), Some(0), None],
    ) {
        Some(got) => {
            got.has_ended(1, READ_FAULT)
                && got.has_written(0, &[])
                && got.read_failed
                && !got.sink.failed
        }
        None => false,
    }
}

#[test]
fn each_read_fails(rt: HostRuntime) {
    for nth in 0..9 {
        assert!(rt; read_fails(rt.alloc(), nth));
    }
}

/// A run whose sink fails at a call ends so. It has written a beginning of the packed item 1, and all where it ends well.
fn ends_at(alloc: Global, input: &[u8], nth: u32, status: u8, line: &[u8]) -> bool {
    match run(alloc, BITS, input, 1, [None, Some(nth), None]) {
        Some(got) => {
            let len = got.sink.bytes.len();
            got.has_ended(status, line)
                && (len == 128 || len < 128 && status == 1)
                && got.has_written(len, &[(0, 1)])
        }
        None => false,
    }
}

/// A column of one item packs into 128 bytes, so the call behind 128 writes is the flush, and no other comes.
#[test]
fn each_write_fails(rt: HostRuntime) {
    for nth in 0..129 {
        assert!(rt; ends_at(rt.alloc(), b"1\n", nth, 1, WRITE_FAULT));
    }
    assert!(rt; ends_at(rt.alloc(), b"1\n", 129, 0, b""));
}

#[test]
fn empty_output_is_flushed(rt: HostRuntime) {
    assert!(rt; ends_at(rt.alloc(), b"", 0, 1, WRITE_FAULT));
}

/// The fourth call of the sink for errors fails, and the status is this.
fn keeps_status(alloc: Global, line: &[&str], input: &[u8], status: u8) -> bool {
    match run(alloc, line, input, 1, [None, None, Some(3)]) {
        Some(got) => got.status == status && got.errors.bytes.len() <= 70,
        None => false,
    }
}

#[test]
fn faults_of_errors_change_no_status(rt: HostRuntime) {
    assert!(rt; keeps_status(rt.alloc(), BITS, b"x", 1));
    assert!(rt; keeps_status(rt.alloc(), &["pack", "u8"], b"1", 2));
    assert!(rt; keeps_status(rt.alloc(), BITS, b"1", 0));
}

/// How a run over these ends of std ends, with its line of errors.
fn status_over_std<R: Read + Drop, W: Write + Drop>(
    alloc: Global,
    line: &[&str],
    reader: R,
    writer: W,
    said: &mut Vec<u8>,
) -> u8 {
    match words(alloc, line) {
        Some(words) => start(
            alloc,
            &words,
            &mut ReadEnd::new(reader),
            &mut WriteEnd::new(writer),
            &mut WriteEnd::new(said),
        ),
        None => 1,
    }
}

/// A run over these ends of std ends so.
fn ends_over_std<R: Read + Drop, W: Write + Drop>(
    alloc: Global,
    reader: R,
    writer: W,
    status: u8,
    line: &[u8],
) -> bool {
    let mut said = Vec::new(alloc);
    status_over_std(alloc, BITS, reader, writer, &mut said) == status && said.as_slice() == line
}

/// A run of these words over these ends of std ends well.
pub(crate) fn ends_well_over_std<R: Read + Drop, W: Write + Drop>(
    alloc: Global,
    line: &[&str],
    reader: R,
    writer: W,
) -> bool {
    let mut said = Vec::new(alloc);
    status_over_std(alloc, line, reader, writer, &mut said) == 0 && said.is_empty()
}

#[test]
fn runs_over_std(rt: HostRuntime) {
    let mut bytes = Vec::new(rt.alloc());
    assert!(rt; ends_over_std(rt.alloc(), b"1\n".as_slice(), &mut bytes, 0, b""));
    assert!(rt; bytes.len() == 128 && are_zeros_but(&bytes, &[(0, 1)]));
}

/// A writer that takes no more bytes has failed.
#[test]
fn a_full_writer_has_failed(rt: HostRuntime) {
    let mut room = [0u8; 100];
    assert!(rt; ends_over_std(rt.alloc(), b"1\n".as_slice(), &mut room[..], 1, WRITE_FAULT));
}

/// Whether a reader of the line `1` and a writer, each interrupted at each other call, are read and written whole, and
/// the writer is flushed once.
fn are_outlasted(alloc: Global, mut reader: ByBytes, mut writer: ByBytes) -> bool {
    ends_over_std(alloc, &mut reader, &mut writer, 0, b"")
        && writer.bytes.len() == 128
        && are_zeros_but(&writer.bytes, &[(0, 1)])
        && writer.flushes == 1
}

fn outlasts_interruptions(alloc: Global) -> bool {
    match Vec::from_slice(alloc, b"1\n") {
        Ok(text) => are_outlasted(
            alloc,
            ByBytes::new(text, true),
            ByBytes::new(Vec::new(alloc), true),
        ),
        Err(_) => false,
    }
}

/// An interrupted call is made again, and the writer is flushed once.
#[test]
fn interruptions_are_no_faults(rt: HostRuntime) {
    assert!(rt; outlasts_interruptions(rt.alloc()));
}

/// An error of std's reader or writer is a fault, and so is one of its flush.
#[test]
fn errors_of_std_are_faults(rt: HostRuntime) {
    let alloc = rt.alloc();
    assert!(rt; ends_over_std(alloc, Broken, Vec::new(alloc), 1, READ_FAULT));
    assert!(rt; ends_over_std(alloc, b"1\n".as_slice(), Broken, 1, WRITE_FAULT));
    assert!(rt; ends_over_std(alloc, b"1\n".as_slice(), Unflushed, 1, WRITE_FAULT));
}

/// The line of a fault has its number and its name.
fn is_named(alloc: Global, fault: Fault) -> bool {
    let number = fault.number();
    match format!(in alloc; "error {number} {fault}\n") {
        Ok(line) => line.as_str() == fault.line(),
        Err(_) => false,
    }
}

#[test]
fn faults_are_named(rt: HostRuntime) {
    for fault in [
        Fault::Refused(FastLanesError::OutOfMemory),
        Fault::Refused(FastLanesError::WidthTooLarge),
        Fault::Refused(FastLanesError::ChildMismatch),
        Fault::BadColumn,
        Fault::BadContainer,
        Fault::ReadFault,
        Fault::WriteFault,
    ] {
        assert!(rt; is_named(rt.alloc(), fault));
    }
}
