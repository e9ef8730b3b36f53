//! Serialized arrays: what a node is read as, what an array is written as, and which fault of a node comes first.

use crate::{answer_built, faults};
use fl_array::ArrayRef;
use fl_serde::deserialize;
use fl_serialized::SerializedArray;
use row_reader::arrays::nodes::{Written, read, written};
use row_reader::asked::Asked;
use row_reader::names::split;
use row_reader::nodes as text;
use row_reader::text::Text;
use std::alloc::Global;

/// Adds a node, or why there is none.
fn shown(node: &Written, answer: &mut Text) {
    match node {
        Ok(node) => text::show(node, answer),
        Err(refusal) => answer.refusal(*refusal),
    }
}

/// Adds the node that an array is written as.
pub(crate) fn serialized(alloc: Global, kind: &str, array: &ArrayRef, answer: &mut Text) {
    shown(&written(alloc, kind, array), answer);
}

/// Adds the node that an array is written as: `same` where it is the one that it was read of.
fn written_again(node: &SerializedArray, array: &ArrayRef, answer: &mut Text) {
    let alloc = answer.alloc();
    let (mut before, mut after) = (Text::new(alloc), Text::new(alloc));
    text::show(node, &mut before);
    serialized(alloc, "", array, &mut after);
    if before.as_str() == after.as_str() {
        answer.word("same");
    } else {
        answer.word(after.as_str());
    }
}

/// Adds the node that is written of what a node is read as.
fn again(alloc: Global, node: &SerializedArray, answer: &mut Text) {
    match deserialize(alloc, node) {
        Ok(array) => written_again(node, &array, answer),
        Err(refusal) => answer.refusal(refusal),
    }
}

/// Answers a question of what is read of a node.
fn ask_node(asked: Asked, node: &SerializedArray, answer: &mut Text) {
    match asked.word(0) {
        "again" => again(asked.alloc, node, answer),
        "changed" => faults::count_changes(asked.alloc, node, answer),
        "by" => {
            let made = read(asked.alloc, asked.word(1), node);
            answer_built(asked.from(2), &made, 0, answer);
        }
        _ => answer_built(asked, &read(asked.alloc, "", node), 0, answer),
    }
}

/// Answers what a node is read as.
pub(crate) fn ask(asked: Asked, answer: &mut Text) -> bool {
    if asked.word(0) != "node" {
        return false;
    }
    let (question, node) = split(asked.words_from(1), "in");
    match text::read(asked.alloc, node) {
        Ok(node) => ask_node(asked.with_words(question), &node, answer),
        Err(refusal) => answer.refusal(refusal),
    }
    true
}

/// Answers which of two faults of a node comes first, for each pair of the faults that parts name.
pub fn ask_faults(alloc: Global, node: &[&str], parts: &[&str], answer: &mut Text) {
    match text::read(alloc, node) {
        Ok(node) => faults::ask_pairs(alloc, &node, parts, answer),
        Err(refusal) => answer.refusal(refusal),
    }
}
