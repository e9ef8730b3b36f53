//! Arrays by a scheme, and the text of schemes.

use crate::answer_built;
use fl_encode::text::{SchemeError, parse, print};
use fl_encode::{Scheme, encode};
use fl_types::FastLanesError;
use row_reader::asked::Asked;
use row_reader::text::Text;
use std::alloc::Global;

/// Adds why a text gives no scheme: the position of its first wrong byte, or that memory ran out.
pub(crate) fn show_error(error: SchemeError, answer: &mut Text) {
    match error {
        SchemeError::WrongByte(position) => {
            answer.word("wrong byte");
            answer.count(position);
        }
        SchemeError::OutOfMemory => answer.refusal(FastLanesError::OutOfMemory),
    }
}

/// Adds the text of a scheme.
fn show_scheme(alloc: Global, scheme: &Scheme, answer: &mut Text) {
    match print(alloc, scheme) {
        Ok(bytes) => match String::from_utf8(bytes) {
            Ok(text) => answer.word(text.as_str()),
            Err(_) => answer.word("no text"),
        },
        Err(_) => answer.refusal(FastLanesError::OutOfMemory),
    }
}

/// Answers words about the array that a scheme makes of the first column, or with the scheme's text.
fn ask_scheme(asked: Asked, scheme: &Scheme, answer: &mut Text) {
    if asked.word(2) == "text" {
        return show_scheme(asked.alloc, scheme, answer);
    }
    let encoded = encode(asked.alloc, asked.column(0), scheme);
    answer_built(asked.from(2), &encoded, 0, answer);
}

/// Answers words about the array that a scheme's text makes of the first column, or of the text alone.
pub(crate) fn ask(asked: Asked, answer: &mut Text) -> bool {
    if asked.word(0) != "encode" {
        return false;
    }
    match parse(asked.alloc, asked.word(1).as_bytes()) {
        Ok(scheme) => ask_scheme(asked, &scheme, answer),
        Err(error) => show_error(error, answer),
    }
    true
}
