//! The smallest of all nestings, and what a scheme takes by statistics.

use crate::answer_built;
use crate::schemes::show_error;
use fl_compress::{Limits, compress_within, size_of, statistics_of};
use fl_encode::Scheme;
use fl_encode::text::parse;
use fl_serde::nbytes;
use row_reader::asked::Asked;
use row_reader::columns::width_of;
use row_reader::text::Text;

/// The limits of a depth, without the encodings that these words leave out.
fn limits_of(depth: &str, left_out: &[&str]) -> Limits {
    let mut limits = Limits::default();
    limits.depth = width_of(depth);
    for word in left_out {
        match *word {
            "-constant" => limits.constant = false,
            "-bitpacked" => limits.bitpacked = false,
            "-for" => limits.for_ = false,
            "-delta" => limits.delta = false,
            "-rle" => limits.rle = false,
            "-dict" => limits.dict = false,
            _ => {}
        }
    }
    limits
}

/// Answers the kind of what the first column is compressed to, its bytes, and whether it is back.
fn show(asked: Asked, limits: &Limits, answer: &mut Text) {
    let compressed = compress_within(asked.alloc, asked.column(0), limits);
    answer_built(asked.with_words(&["kind"]), &compressed, 0, answer);
    if let Ok(array) = &compressed {
        answer.count(nbytes(array) as usize);
    }
    answer_built(asked.with_words(&["back"]), &compressed, 0, answer);
}

/// Answers the bytes that the first column takes by a scheme, as its statistics say.
fn show_size(asked: Asked, scheme: &Scheme, answer: &mut Text) {
    match statistics_of(asked.alloc, asked.column(0)) {
        Ok(statistics) => match size_of(scheme, &statistics) {
            Some(bytes) => answer.count(bytes as usize),
            None => answer.word("no size"),
        },
        Err(error) => answer.refusal(error),
    }
}

/// Answers the bytes that the first column takes by the scheme of a text.
fn ask_size(asked: Asked, answer: &mut Text) {
    match parse(asked.alloc, asked.word(1).as_bytes()) {
        Ok(scheme) => show_size(asked, &scheme, answer),
        Err(error) => show_error(error, answer),
    }
}

/// Answers a question about the smallest array that the encodings within limits make of a column, or about the bytes that a
/// scheme takes.
pub(crate) fn ask(asked: Asked, answer: &mut Text) -> bool {
    if asked.word(0) == "size" {
        ask_size(asked, answer);
        return true;
    }
    if asked.word(0) != "compress" {
        return false;
    }
    let limits = limits_of(asked.word(1), asked.words_from(2));
    show(asked, &limits, answer);
    true
}
