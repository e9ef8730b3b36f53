//! Worked rows: each line of the files that are named is a question with its answer, and is asked anew.
//!
//! A row is `NAME: QUESTION | COLUMN | COLUMN = ANSWER` (`docs/ROWS.md`). The rows that hold are
//! counted, any other is printed with the answer that came.
#![tactic(auto)]

use fl_column::PrimitiveArray;
use row_reader::asked::Asked;
use row_reader::rows::{self, Questions};
use row_reader::text::Text;
use row_reader::{column_rows, columns};
use std::alloc::Global;
use std::io;

/// Answers a question.
fn ask(asked: Asked, answer: &mut Text) {
    let is_known = array_rows::ask(asked, answer)
        || call_rows::ask(asked, answer)
        || column_rows::ask(asked, answer);
    if !is_known {
        answer.word("no such question");
    }
}

/// Answers a question of columns.
fn ask_of(alloc: Global, words: &[&str], columns: &[PrimitiveArray], answer: &mut Text) {
    let none = PrimitiveArray::non_nullable(Vec::<u8>::new(alloc));
    let asked = Asked {
        alloc,
        words,
        columns,
        none: &none,
    };
    ask(asked, answer);
}

/// The questions of every subject.
#[derive(Clone, Copy)]
struct Subjects;

impl Questions for Subjects {
    fn answer(&self, alloc: Global, words: &[&str], columns: &[&str], answer: &mut Text) {
        if let ["faults", node @ ..] = words {
            return array_rows::ask_faults(alloc, node, columns, answer);
        }
        match columns::read_all(alloc, columns) {
            Ok(columns) => ask_of(alloc, words, &columns, answer),
            Err(refusal) => answer.refusal(refusal),
        }
    }
}

fn main(rt: HostRuntime) -> io::Result<()> {
    rows::run(&rt, &Subjects)
}
