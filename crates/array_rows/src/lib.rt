//! Arrays of every kind: how they are made, what operations make of them, and what they answer, call by
//! call and in lists.
#![tactic(auto)]

mod beside;
mod compress;
mod constructors;
mod counted;
mod data;
mod deltas;
mod faults;
mod for_;
mod nodes;
mod packing;
mod parts;
mod queries;
mod questions;
mod readers;
mod runs;
mod scan;
mod schemes;

use fl_array::ArrayRef;
use fl_ops::{Op, apply_all};
use row_reader::arrays::{Built, building, operations};
use row_reader::asked::Asked;
use row_reader::names::split;
use row_reader::text::Text;

/// Answers a question of what was made.
fn answer_made(asked: Asked, made: &Built, answer: &mut Text) {
    match made {
        Ok(array) => questions::answer(asked, array, answer),
        Err(refusal) => answer.refusal(*refusal),
    }
}

/// Answers a question behind operations, if there are any, that are called one by one and, where that answers something
/// else, as a list.
fn answer_behind(asked: Asked, array: &ArrayRef, ops: &[Op], answer: &mut Text) {
    let alloc = asked.alloc;
    answer_made(asked, &operations::call_all(alloc, array, ops), answer);
    if ops.len() > 0 {
        let mut listed = Text::new(alloc);
        answer_made(asked, &apply_all(alloc, array, ops), &mut listed);
        answer.unless_same(&mut listed);
    }
}

/// Answers words about an array: a question, behind operations and `then` where there are any. The operations take
/// the row's columns from `first` on.
fn answer_words(asked: Asked, array: &ArrayRef, first: usize, answer: &mut Text) {
    let (ops, question) = split(asked.words, "then");
    match operations::read_all(asked.alloc, ops, asked.columns_from(first)) {
        Ok(ops) => answer_behind(asked.with_words(question), array, &ops, answer),
        Err(refusal) => answer.refusal(refusal),
    }
}

/// Answers words about what was built of the columns before `first`.
pub(crate) fn answer_built(asked: Asked, built: &Built, first: usize, answer: &mut Text) {
    match built {
        Ok(array) => answer_words(asked, array, first, answer),
        Err(refusal) => answer.refusal(*refusal),
    }
}

/// Answers words about an array of a kind, made of the first column.
fn ask_kind(asked: Asked, kind: &str, answer: &mut Text) {
    let built = building::array(asked.alloc, kind, asked.column(0));
    answer_built(asked, &built, 1, answer);
}

/// The kinds that `each` stands for, beside the plain one. A column without a valid item has none that subtracts a
/// least item.
const KINDS: &[&str] = &[
    "bitpacked:0",
    "bitpacked:3",
    "blocked:0,5,2",
    "blocked:1@for/bitpacked:7",
    "for",
    "for+bitpacked:2",
    "for+rle",
    "forc@bitpacked:3+blocked:2,0",
    "delta",
    "delta@bitpacked:7+for",
    "delta@rle+blocked:1,0,8",
    "rle",
    "rle+bitpacked:1",
    "rle@for/bitpacked:2@bitpacked:0+delta",
];

/// Adds what words answer about an array of a kind, where it is not what was answered before.
fn ask_again(asked: Asked, kind: &str, before: &str, answer: &mut Text) {
    let mut again = Text::new(asked.alloc);
    ask_kind(asked, kind, &mut again);
    let after = again.as_str();
    if after != before && after != "error 21 NoMinimum" {
        answer.word("but");
        answer.word(kind);
        answer.word(after);
    }
}

/// Answers words about an array of each kind: once, and again where a kind answers something else.
fn ask_each(asked: Asked, answer: &mut Text) {
    let mut first = Text::new(asked.alloc);
    ask_kind(asked, "plain", &mut first);
    let before = first.as_str();
    answer.word(before);
    for kind in KINDS {
        ask_again(asked, kind, before, answer);
    }
}

/// Answers words about an array of a kind, made of the first column, or about one of parts; operations take the
/// other columns.
fn ask_array(asked: Asked, answer: &mut Text) -> bool {
    match (asked.word(0), asked.word(1)) {
        ("array", "each") => ask_each(asked.from(2), answer),
        ("array", kind) => ask_kind(asked.from(2), kind, answer),
        ("rle_data", _) => data::of_runs(asked.count(1), answer),
        _ => return constructors::ask(asked, answer),
    }
    true
}

/// Answers a question of arrays and of what they are made of, of schemes, of nodes or of packed bytes, if it is one.
pub fn ask(asked: Asked, answer: &mut Text) -> bool {
    ask_array(asked, answer)
        || for_::ask(asked, answer)
        || deltas::ask(asked, answer)
        || runs::ask(asked, answer)
        || schemes::ask(asked, answer)
        || compress::ask(asked, answer)
        || nodes::ask(asked, answer)
        || packing::ask(asked, answer)
}

pub use crate::nodes::ask_faults;
