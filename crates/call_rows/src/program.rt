//! Runs of the program over ends in memory: `flcol WORD.. then WORD..`.
//!
//! The first run reads the lines of the row's first column, behind `in` the container of a node, behind `with` bytes, or
//! behind `framed N` those of a node with N nodes round it; each further one what the one before it has written.

ghost use Rattle.std.specs.Prelude.{◌≡◌, IfOk, Some, false};

use bytes::Bytes;
use fl_column::PrimitiveArray;
use fl_serialized::SerializedArray;
use fl_types::FastLanesError;
use flcol_container::{read_container, write_container};
use flcol_engine::args;
use flcol_engine::io::{ReadFault, Sink, Source, WriteFault};
use flcol_engine::start::start;
use row_reader::asked::Asked;
use row_reader::columns::count;
use row_reader::names::{named, split};
use row_reader::text::Text;
use row_reader::{nodes, shown};
use std::alloc::Global;

/// A source in memory.
#[derive(Drop)]
pub(crate) struct Input<'a> {
    bytes: &'a [u8],
}

impl<'a> Input<'a> {
    pub(crate) fn new(bytes: &'a [u8]) -> Input<'a> {
        Input { bytes }
    }
}

impl Source for Input<'_> {
    ghost left = { λ s. Some s.bytes.now };

    ghost has_failed = { λ _. false };

    fn read(&mut self, buf: &mut [u8]) -> Result<usize, ReadFault> {
        let n = self.bytes.len().min(buf.len());
        let (front, rest) = self.bytes.split_at(n);
        buf[..n].copy_from_slice(front);
        self.bytes = rest;
        Ok(n)
    }
}

/// A sink in memory, with room for small outputs.
#[derive(Drop)]
pub(crate) struct Output {
    pub(crate) bytes: Vec<u8>,
    pub(crate) failed: bool,
    flushed: bool,
}

impl Output {
    pub(crate) fn new(alloc: Global) -> Result<Output, FastLanesError>
        ensures { IfOk result (λ output. output.failed ≡ false) }
    {
        Ok(Output {
            bytes: Vec::with_capacity(alloc, 1 << 15)?,
            failed: false,
            flushed: true,
        })
    }
}

impl Sink for Output {
    ghost written = { λ s. Some s.bytes.items };

    ghost has_failed = { λ s. s.failed };

    ghost is_flushed = { λ s. s.flushed };

    fn write(&mut self, buf: &[u8]) -> Result<usize, WriteFault> {
        self.flushed = false;
        if self.bytes.extend_from_slice(buf).is_err() {
            self.failed = true;
            return Err(WriteFault);
        }
        Ok(buf.len())
    }

    fn flush(&mut self) -> Result<(), WriteFault> {
        self.flushed = true;
        Ok(())
    }
}

/// The words of a line as the program gets them.
pub(crate) fn words_of(alloc: Global, line: &[&str]) -> Result<Vec<String>, FastLanesError> {
    let mut words = Vec::new(alloc);
    for word in line {
        words.push(String::from_str(alloc, word)?)?;
    }
    Ok(words)
}

/// Adds the line of an item.
fn push_line(text: &mut String, item: Option<i128>) -> Result<(), FastLanesError> {
    match item {
        Some(integer) => write!(text, "{integer}\n").map_err(|_| FastLanesError::OutOfMemory),
        None => Ok(text.push_str("null\n")?),
    }
}

/// A column as lines of text.
pub(crate) fn lines(alloc: Global, column: &PrimitiveArray) -> Result<Vec<u8>, FastLanesError> {
    let mut text = String::new(alloc);
    for i in 0..column.len() {
        push_line(&mut text, column.get(i).map(shown::integer))?;
    }
    Ok(text.into_bytes())
}

/// How a run ended, what it has written, and what it has said of errors.
#[derive(Drop)]
struct Ended {
    status: u8,
    written: Vec<u8>,
    said: Vec<u8>,
}

/// Runs the program.
fn run(alloc: Global, line: &[&str], input: &[u8]) -> Result<Ended, FastLanesError> {
    let words = words_of(alloc, line)?;
    let (mut sink, mut errors) = (Output::new(alloc)?, Output::new(alloc)?);
    let status = start(
        alloc,
        &words,
        &mut Input::new(input),
        &mut sink,
        &mut errors,
    );
    let (Output { bytes: written, .. }, Output { bytes: said, .. }) = (sink, errors);
    Ok(Ended {
        status,
        written,
        said,
    })
}

/// Adds what a line says: an integer, a null, or other words.
fn line(text: &str, answer: &mut Text) {
    match text.parse::<i128>() {
        Ok(integer) => answer.item(Some(integer)),
        Err(_) if text == "null" => answer.item(None),
        Err(_) => answer.word(text),
    }
}

/// Adds lines of text, or other bytes.
fn text(bytes: &[u8], answer: &mut Text) {
    match str::from_utf8(bytes) {
        Ok(text) => {
            for each in text.lines() {
                line(each, answer);
            }
        }
        Err(_) => shown::bytes(answer, bytes),
    }
}

/// The node of a container.
fn node_of(alloc: Global, bytes: &[u8]) -> Result<SerializedArray, FastLanesError> {
    let bytes = Bytes::from_vec(Vec::from_slice(alloc, bytes)?)?;
    read_container(alloc, &bytes).map_err(|_| FastLanesError::BadMetadata)
}

/// Whether bytes are the container of a node.
fn is_container_of(alloc: Global, node: &SerializedArray, bytes: &[u8]) -> bool {
    match write_container(alloc, node) {
        Ok(again) => again.as_slice() == bytes,
        Err(_) => false,
    }
}

/// Adds the node of a container.
fn container(bytes: &[u8], answer: &mut Text) {
    match node_of(answer.alloc(), bytes) {
        Ok(node) => {
            nodes::show(&node, answer);
            if !is_container_of(answer.alloc(), &node, bytes) {
                answer.word("but other bytes");
            }
        }
        Err(_) => answer.word("no container"),
    }
}

/// Adds what a run has written: `nothing`, a container's node, packed bytes, or lines.
fn written(name: &str, bytes: &[u8], answer: &mut Text) {
    if bytes.is_empty() {
        answer.word("nothing");
    } else if bytes.starts_with(b"FLC1") {
        container(bytes, answer);
    } else if name == "pack" {
        shown::bytes(answer, bytes);
    } else {
        text(bytes, answer);
    }
}

/// Adds how a run ended that was refused, or whose words are no command; and what it has written all the same.
fn refused(ended: &Ended, answer: &mut Text) {
    if ended.status == 2 && ended.said.as_slice() == args::usage().as_bytes() {
        answer.word("usage");
    } else {
        text(&ended.said, answer);
    }
    if !ended.written.is_empty() {
        answer.word("but written");
        shown::bytes(answer, &ended.written);
    }
}

/// Adds how a run ended.
fn show_run(name: &str, ended: &Ended, answer: &mut Text) {
    if ended.status == 0 {
        written(name, &ended.written, answer);
        text(&ended.said, answer);
    } else {
        refused(ended, answer);
    }
}

/// Whether a run has written its answer alone, or said why it is refused and written nothing.
fn is_answer(ended: &Ended) -> bool {
    match ended.status {
        0 => ended.said.is_empty(),
        1 => ended.written.is_empty() && ended.said.starts_with(b"error "),
        _ => false,
    }
}

/// Whether a run on an input with the byte at a place changed is answered.
fn is_answered(
    alloc: Global,
    line: &[&str],
    input: &[u8],
    place: usize,
    other: u8,
) -> Result<bool, FastLanesError> {
    let mut changed = Vec::from_slice(alloc, input)?;
    if let Some(byte) = changed.get_mut(place) {
        *byte = other;
    }
    Ok(is_answer(&run(alloc, line, &changed)?))
}

/// Adds how many runs are answered, on the input with each byte replaced by 0 and by its complement, and how many
/// there are.
fn changed(
    alloc: Global,
    line: &[&str],
    input: &[u8],
    answer: &mut Text,
) -> Result<(), FastLanesError> {
    let (mut answered, mut runs) = (0usize, 0usize);
    for place in 0..input.len() {
        for other in [0, !input[place]] {
            runs = runs.saturating_add(1);
            if is_answered(alloc, line, input, place, other)? {
                answered = answered.saturating_add(1);
            }
        }
    }
    answer.count(answered);
    answer.word("of");
    answer.count(runs);
    answer.word("answered");
    Ok(())
}

/// Whether bytes stand in others.
fn stand_in(part: &[u8], bytes: &[u8]) -> bool {
    for from in 0..bytes.len() {
        if bytes[from..].starts_with(part) {
            return true;
        }
    }
    false
}

/// Adds how many runs on beginnings of an input are refused, and how many there are.
fn cut(
    alloc: Global,
    line: &[&str],
    input: &[u8],
    answer: &mut Text,
) -> Result<(), FastLanesError> {
    let mut refused = 0usize;
    for len in 0..input.len() {
        let came = run(alloc, line, &input[..len])?;
        if came.status == 1 && is_answer(&came) {
            refused = refused.saturating_add(1);
        }
    }
    answer.count(refused);
    answer.word("of");
    answer.count(input.len());
    answer.word("refused");
    Ok(())
}

/// Adds `back` where text is the lines of a column, else its lines.
fn back(column: &PrimitiveArray, bytes: &[u8], answer: &mut Text) -> Result<(), FastLanesError> {
    if lines(answer.alloc(), column)?.as_slice() == bytes {
        answer.word("back");
    } else {
        text(bytes, answer);
    }
    Ok(())
}

/// What stands last in a line, behind the runs that write its input.
#[derive(Clone, Copy)]
enum Last {
    /// Whether the input is the container of a node.
    Is,
    /// Whether bytes stand in the input.
    Has,
    /// Whether the input is the lines of the row's last column.
    Back,
    /// A run on the input with each byte changed.
    Changed,
    /// A run on each beginning of the input.
    Cut,
}

const LASTS: &[(&str, Last)] = &[
    ("is", Last::Is),
    ("has", Last::Has),
    ("back", Last::Back),
    ("changed", Last::Changed),
    ("cut", Last::Cut),
];

/// Adds what stands last in a line, or what its last run gives.
fn ask_last(asked: Asked, input: &[u8], answer: &mut Text) -> Result<(), FastLanesError> {
    let (alloc, words) = (asked.alloc, asked.words_from(1));
    match named(LASTS, asked.word(0)) {
        Some(Last::Is) => {
            answer.bool_answer(container_of(alloc, words)?.as_slice() == input);
            Ok(())
        }
        Some(Last::Has) => {
            answer.bool_answer(stand_in(&bytes_of(alloc, words)?, input));
            Ok(())
        }
        Some(Last::Back) => back(asked.last_column(), input, answer),
        Some(Last::Changed) => changed(alloc, words, input, answer),
        Some(Last::Cut) => cut(alloc, words, input, answer),
        None => {
            show_run(asked.word(0), &run(alloc, asked.words, input)?, answer);
            Ok(())
        }
    }
}

/// Adds what runs give, each on what the one before it has written.
fn runs(asked: Asked, input: Vec<u8>, answer: &mut Text) -> Result<(), FastLanesError> {
    let (mut input, mut place) = (input, 0usize);
    for _ in 0..asked.words.len() {
        let (first, _) = split(asked.words_from(place), "then");
        if !first.is_empty() {
            let came = run(asked.alloc, first, &input)?;
            if came.status != 0 {
                refused(&came, answer);
                return Ok(());
            }
            let Ended { written, .. } = came;
            input = written;
            place = place.saturating_add(first.len()).saturating_add(1);
        }
    }
    ask_last(asked.from(place), &input, answer)
}

/// The bytes that words name.
fn bytes_of(alloc: Global, words: &[&str]) -> Result<Vec<u8>, FastLanesError> {
    row_reader::column_rows::bytes_of(alloc, words).map_err(|_| FastLanesError::OutOfMemory)
}

/// The container of a node with nodes round it: how many, and its bytes.
fn framed(alloc: Global, words: &[&str]) -> Result<Vec<u8>, FastLanesError> {
    let frames = words.first().map(|word| count(word)).unwrap_or(0);
    let node = words.get(1..).unwrap_or(&[]);
    match row_reader::column_rows::frames_of(alloc, frames, node) {
        Ok(bytes) => Ok(Vec::from_slice(alloc, bytes.as_slice())?),
        Err(_) => Err(FastLanesError::OutOfMemory),
    }
}

/// The container of a node of words.
fn container_of(alloc: Global, words: &[&str]) -> Result<Vec<u8>, FastLanesError> {
    let node = nodes::read(alloc, words)?;
    write_container(alloc, &node).map_err(|_| FastLanesError::OutOfMemory)
}

/// What stands behind the runs of a line, where their input is no column.
#[derive(Clone, Copy)]
enum Behind {
    In,
    With,
    Framed,
}

const BEHIND: &[(&str, Behind)] = &[
    ("in", Behind::In),
    ("with", Behind::With),
    ("framed", Behind::Framed),
];

/// The input that words name.
fn input_of(alloc: Global, behind: Behind, words: &[&str]) -> Result<Vec<u8>, FastLanesError> {
    match behind {
        Behind::In => container_of(alloc, words),
        Behind::With => bytes_of(alloc, words),
        Behind::Framed => framed(alloc, words),
    }
}

/// Adds what runs give on the input that the words name.
fn ask_runs(asked: Asked, answer: &mut Text) -> Result<(), FastLanesError> {
    let alloc = asked.alloc;
    for (name, behind) in BEHIND {
        let (line, words) = split(asked.words, name);
        if !line.is_empty() {
            let input = input_of(alloc, *behind, words)?;
            return runs(asked.with_words(line), input, answer);
        }
    }
    runs(asked, lines(alloc, asked.column(0))?, answer)
}

pub(crate) fn ask(asked: Asked, answer: &mut Text) -> bool {
    if asked.word(0) != "flcol" {
        return false;
    }
    if let Err(refusal) = ask_runs(asked.from(1), answer) {
        answer.refusal(refusal);
    }
    true
}
