//! Calls whose requests for memory are refused in turn (`docs/MEMORY.md`): where one begins and ends, and the kinds of
//! arrays that `each` makes it on.

use crate::asked::Asked;
use crate::text::Text;
use std::alloc::Global;

/// The bytes of a request that stands before each call and behind it, and nowhere else. An allocator that refuses the
/// call's requests knows by it where these begin and end.
const MARK: usize = 77_777;

/// Makes the request that tells where a call begins or ends, and gives its memory back.
pub fn mark(alloc: Global) {
    let _ = Vec::<u8>::with_capacity(alloc, MARK);
}

/// Calls that are made on an array of a kind.
pub trait Calls {
    /// Answers what the call that the words name gives on an array of a kind.
    fn ask_kind(&self, asked: Asked, kind: &str, answer: &mut Text);
}

/// The names that the kind of an array begins with.
const KIND_NAMES: &[&str] = &[
    "plain",
    "constant",
    "bitpacked",
    "blocked",
    "for",
    "forc",
    "delta",
    "rle",
];

/// An answer without the kind that stands before an array's column.
fn without_kind(answer: &str) -> &str {
    let (kind, rest) = answer.split_once(' ').unwrap_or(("", answer));
    let name = kind.split_once('(').unwrap_or((kind, "")).0;
    if KIND_NAMES.contains(&name) {
        rest
    } else {
        answer
    }
}

/// Adds what a call answers on an array of a kind, where it is not what was answered before.
fn ask_again<C: Calls>(calls: &C, asked: Asked, kind: &str, before: &str, answer: &mut Text) {
    let mut again = Text::new(asked.alloc);
    calls.ask_kind(asked, kind, &mut again);
    let after = without_kind(again.as_str());
    if after != before {
        answer.word("but");
        answer.word(kind);
        answer.word(after);
    }
}

/// The kinds that `each` stands for, beside the plain one: each encoding, the one that is decoded in one pass over two, and
/// those whose inner arrays are encoded too.
const KINDS: &[&str] = &[
    "bitpacked:3",
    "blocked:3",
    "for",
    "for+bitpacked:3",
    "forc",
    "delta",
    "rle",
    "blocked:3,2@for/bitpacked:9",
    "forc@bitpacked:3+blocked:2,1",
    "delta@for+bitpacked:4",
    "rle@delta@for+bitpacked:2",
];

/// Answers what a call gives on an array of each kind: once, and again where a kind answers something else.
fn ask_each<C: Calls>(calls: &C, asked: Asked, answer: &mut Text) {
    let mut first = Text::new(asked.alloc);
    calls.ask_kind(asked, "plain", &mut first);
    let before = without_kind(first.as_str());
    answer.word(before);
    for kind in KINDS {
        ask_again(calls, asked, kind, before, answer);
    }
}

/// Answers what a call gives on an array of a kind, or of `each` kind.
pub fn ask<C: Calls>(calls: &C, asked: Asked, kind: &str, answer: &mut Text) {
    if kind == "each" {
        ask_each(calls, asked, answer);
    } else {
        calls.ask_kind(asked, kind, answer);
    }
}
