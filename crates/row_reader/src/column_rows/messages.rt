//! Metadata messages: what bytes say, and how it is written.

use crate::asked::Asked;
use crate::columns::type_of;
use crate::names::named;
use crate::text::Text;
use fl_metadata::*;
use fl_types::{FastLanesError, PType};
use std::alloc::Global;
use std::fmt::Debug;

const BAD: FastLanesError = FastLanesError::BadMetadata;

/// Adds bytes, in hexadecimal digits.
fn written(text: Result<Vec<u8>, FastLanesError>, answer: &mut Text) {
    match text {
        Ok(bytes) => {
            for byte in &bytes {
                answer.byte(*byte);
            }
        }
        Err(refusal) => answer.refusal(refusal),
    }
}

/// Adds what bytes say, or why they are no message.
fn said<T: Debug>(message: &Result<T, FastLanesError>, answer: &mut Text) {
    match message {
        Ok(message) => answer.debug(message),
        Err(refusal) => answer.refusal(*refusal),
    }
}

fn bit_packed(alloc: Global, bytes: &[u8], answer: &mut Text) {
    let message = BitPackedMetadata::decode(bytes);
    said(&message, answer);
    if let Ok(message) = message {
        written(message.encode(alloc), answer);
    }
}

fn blocked(alloc: Global, bytes: &[u8], answer: &mut Text) {
    let message = BitPackedBlockedMetadata::decode(bytes);
    said(&message, answer);
    if let Ok(message) = message {
        written(message.encode(alloc), answer);
    }
}

fn patches(alloc: Global, bytes: &[u8], answer: &mut Text) {
    let message = PatchesMetadata::decode(bytes);
    said(&message, answer);
    if let Ok(message) = message {
        written(message.encode(alloc), answer);
    }
}

fn for_chunked(alloc: Global, bytes: &[u8], answer: &mut Text) {
    let message = FoRChunkedMetadata::decode(bytes);
    said(&message, answer);
    if let Ok(message) = message {
        written(message.encode(alloc), answer);
    }
}

fn delta(alloc: Global, bytes: &[u8], answer: &mut Text) {
    let message = DeltaMetadata::decode(bytes);
    said(&message, answer);
    if let Ok(message) = message {
        written(message.encode(alloc), answer);
    }
}

fn rle(alloc: Global, bytes: &[u8], answer: &mut Text) {
    let message = RLEMetadata::decode(bytes);
    said(&message, answer);
    if let Ok(message) = message {
        written(message.encode(alloc), answer);
    }
}

fn scalar(alloc: Global, ptype: PType, bytes: &[u8], answer: &mut Text) {
    scalar_fits();
    match decode_scalar(ptype, bytes) {
        Ok(value) => {
            answer.item(value);
            written(encode_scalar(alloc, ptype, value), answer);
        }
        Err(refusal) => answer.refusal(refusal),
    }
}

/// Whether bytes are no message of any kind.
fn is_none(bytes: &[u8]) -> bool {
    BitPackedMetadata::decode(bytes) == Err(BAD)
        && BitPackedBlockedMetadata::decode(bytes) == Err(BAD)
        && PatchesMetadata::decode(bytes) == Err(BAD)
        && FoRChunkedMetadata::decode(bytes) == Err(BAD)
        && DeltaMetadata::decode(bytes) == Err(BAD)
        && RLEMetadata::decode(bytes) == Err(BAD)
        && !is_message(bytes)
}

/// What bytes are asked.
#[derive(Clone, Copy)]
enum Question {
    Any,
    None,
    BitPacked,
    Blocked,
    Patches,
    ForChunked,
    Delta,
    Rle,
}

const QUESTIONS: &[(&str, Question)] = &[
    ("any", Question::Any),
    ("none", Question::None),
    ("bit_packed", Question::BitPacked),
    ("blocked", Question::Blocked),
    ("patches", Question::Patches),
    ("for_chunked", Question::ForChunked),
    ("delta", Question::Delta),
    ("rle", Question::Rle),
];

fn ask_message(alloc: Global, question: Question, bytes: &[u8], answer: &mut Text) {
    match question {
        Question::Any => answer.bool_answer(is_message(bytes)),
        Question::None => answer.bool_answer(is_none(bytes)),
        Question::BitPacked => bit_packed(alloc, bytes, answer),
        Question::Blocked => blocked(alloc, bytes, answer),
        Question::Patches => patches(alloc, bytes, answer),
        Question::ForChunked => for_chunked(alloc, bytes, answer),
        Question::Delta => delta(alloc, bytes, answer),
        Question::Rle => rle(alloc, bytes, answer),
    }
}

/// Answers what bytes say as a message of a kind, or as a scalar of a type.
fn ask_of(alloc: Global, kind: &str, bytes: &[u8], answer: &mut Text) {
    match named(QUESTIONS, kind) {
        Some(question) => ask_message(alloc, question, bytes, answer),
        None => scalar(alloc, type_of(kind), bytes, answer),
    }
}

/// The bytes that words of two hexadecimal digits name.
fn bytes_of(alloc: Global, words: &[&str]) -> Result<Vec<u8>, FastLanesError> {
    let mut bytes = Vec::new(alloc);
    for word in words {
        bytes.push(u8::from_str_radix(word, 16).unwrap_or(0))?;
    }
    Ok(bytes)
}

/// Answers what bytes say as a message of a kind.
pub fn ask(asked: Asked, answer: &mut Text) -> bool {
    if asked.word(0) != "message" {
        return false;
    }
    match bytes_of(asked.alloc, asked.words_from(2)) {
        Ok(bytes) => ask_of(asked.alloc, asked.word(1), &bytes, answer),
        Err(refusal) => answer.refusal(refusal),
    }
    true
}
