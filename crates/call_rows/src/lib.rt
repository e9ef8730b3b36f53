//! Calls among refused requests for memory (`docs/MEMORY.md`): what a call answers, and whether what it borrowed is as
//! before. Runs of the program over ends in memory, and the calls of its engine.
#![tactic(auto)]

mod array_calls;
mod bit_calls;
mod column_calls;
mod encoder_calls;
mod engine_calls;
mod inputs;
mod node_calls;
mod owned_calls;
mod packed_calls;
mod program;
mod reader_calls;

use crate::inputs::{Inputs, Owned};
use fl_array::ArrayRef;
use fl_ops::Answer;
use fl_serde::deserialize;
use fl_types::FastLanesError;
use row_reader::arrays::calls::{self, Calls, mark};
use row_reader::arrays::nodes::Written;
use row_reader::arrays::{Built, kinds, queries};
use row_reader::asked::Asked;
use row_reader::column_rows::patches::{self, Selected};
use row_reader::shown::{self, Show, made};
use row_reader::text::Text;
use std::alloc::Global;

/// Ends a call, and adds what it gave.
fn came<T: Show + Drop>(answer: &mut Text, given: Result<T, FastLanesError>) {
    mark(answer.alloc());
    made(answer, given);
}

/// Adds the kind of an array and its column, decoded.
fn show_array(answer: &mut Text, array: &ArrayRef) {
    kinds::kind(array, answer);
    match array.as_bool() {
        Some(bools) => shown::bools(answer, bools),
        None => made(answer, array.to_primitive(answer.alloc())),
    }
}

/// Adds an array that was made, or why none was.
fn array_made(answer: &mut Text, given: &Built) {
    match given {
        Ok(array) => show_array(answer, array),
        Err(refusal) => answer.refusal(*refusal),
    }
}

/// Ends a call, and adds the array that it gave.
fn came_array(answer: &mut Text, given: Built) {
    mark(answer.alloc());
    array_made(answer, &given);
}

/// Ends a call, and adds what is read of the node that it gave.
fn came_node(answer: &mut Text, given: Written) {
    mark(answer.alloc());
    match &given {
        Ok(node) => array_made(answer, &deserialize(answer.alloc(), node)),
        Err(refusal) => answer.refusal(*refusal),
    }
}

/// Ends a call, and adds the patches that it gave.
fn came_patches(answer: &mut Text, given: Selected) {
    mark(answer.alloc());
    patches::selected(answer, &given);
}

/// Ends a query, and adds its answer.
fn came_answer(answer: &mut Text, given: Result<Answer, FastLanesError>) {
    mark(answer.alloc());
    queries::answered(answer, &given);
}

/// Makes a call by its name, the first word.
fn call(asked: Asked, inputs: &Inputs, owned: Owned, answer: &mut Text) {
    if asked.word(0).starts_with("new_") {
        return owned_calls::make(asked, owned, answer);
    }
    let known = array_calls::make(asked, inputs, answer)
        || packed_calls::make(asked, inputs, answer)
        || column_calls::make(asked, inputs, answer)
        || encoder_calls::make(asked, inputs, answer)
        || bit_calls::make(asked, inputs, answer)
        || node_calls::make(asked, inputs, answer);
    if !known {
        answer.word("no such call");
    }
}

/// Whether both are there, and the same bytes.
fn are_same(old: &Result<Vec<u8>, FastLanesError>, new: &Result<Vec<u8>, FastLanesError>) -> bool {
    match (old, new) {
        (Ok(old), Ok(new)) => old.as_slice() == new.as_slice(),
        _ => false,
    }
}

/// Answers what a call gives, and whether its inputs are what they were.
fn answer_call(asked: Asked, inputs: &Inputs, owned: Owned, answer: &mut Text) {
    let alloc = asked.alloc;
    let (mut old, mut new) = (Text::new(alloc), Text::new(alloc));
    inputs.describe(&mut old);
    let old_bytes = inputs.stored(alloc);
    mark(alloc);
    call(asked.with_columns(&inputs.columns), inputs, owned, answer);
    inputs.describe(&mut new);
    let new_bytes = inputs.stored(alloc);
    if old.as_str() != new.as_str() || !are_same(&old_bytes, &new_bytes) {
        answer.word("but changed");
    }
}

/// Answers what a call gives whose inputs are made of columns. Where these find no memory it isn't made.
fn ask_call(asked: Asked, kind: &str, answer: &mut Text) {
    match (Inputs::make(asked, kind), Owned::make(asked, kind)) {
        (Ok(inputs), Ok(owned)) => answer_call(asked, &inputs, owned, answer),
        (Err(refusal), _) | (_, Err(refusal)) => {
            answer.word("set-up");
            answer.refusal(refusal);
        }
    }
}

/// Calls of the library.
#[derive(Clone, Copy)]
struct LibraryCalls;

impl Calls for LibraryCalls {
    fn ask_kind(&self, asked: Asked, kind: &str, answer: &mut Text) {
        ask_call(asked, kind, answer);
    }
}

/// Answers what a call of the library gives, if the words ask for one.
fn ask_library(asked: Asked, answer: &mut Text) -> bool {
    if asked.word(0) != "memory" {
        return false;
    }
    calls::ask(&LibraryCalls, asked.from(2), asked.word(1), answer);
    true
}

/// Answers a question of calls among refused requests, of the program or of its engine, if it is one.
pub fn ask(asked: Asked, answer: &mut Text) -> bool {
    program::ask(asked, answer) || engine_calls::ask(asked, answer) || ask_library(asked, answer)
}
