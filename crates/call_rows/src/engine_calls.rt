//! Calls of the program's engine, over ends in memory.

ghost use Rattle.std.specs.Prelude.{◌≡◌, false};

use crate::program::{Input, Output, lines, words_of};
use fl_column::PrimitiveArray;
use fl_serde::serialize;
use fl_types::FastLanesError;
use flcol_container::write_container;
use flcol_engine::commands::Command;
use flcol_engine::fault::Fault;
use flcol_engine::{args, engine};
use row_reader::arrays::building;
use row_reader::arrays::calls::{self, Calls, mark};
use row_reader::asked::Asked;
use row_reader::shown;
use row_reader::text::Text;
use std::alloc::Global;

/// A command and what it reads.
#[derive(Drop)]
struct Run {
    command: Command,
    input: Vec<u8>,
    output: Output,
}

/// The container of an array of a kind.
fn container(
    alloc: Global,
    kind: &str,
    column: &PrimitiveArray,
) -> Result<Vec<u8>, FastLanesError> {
    let array = building::array(alloc, kind, column)?;
    let node = serialize(alloc, &array)?;
    write_container(alloc, &node).map_err(|_| FastLanesError::OutOfMemory)
}

/// The command that words name.
fn command(alloc: Global, line: &[&str]) -> Result<Command, FastLanesError> {
    let words = words_of(alloc, line)?;
    match args::command(alloc, &words)? {
        Some(command) => Ok(command),
        None => Err(FastLanesError::UnknownId),
    }
}

fn set_up(
    alloc: Global,
    kind: &str,
    line: &[&str],
    column: &PrimitiveArray,
) -> Result<Run, FastLanesError> {
    let command = command(alloc, line)?;
    let input = match &command {
        Command::Run(_) => container(alloc, kind, column)?,
        _ => lines(alloc, column)?,
    };
    let output = Output::new(alloc)?;
    Ok(Run {
        command,
        input,
        output,
    })
}

/// Makes the engine's call.
fn call(
    alloc: Global,
    command: &Command,
    source: &mut Input,
    sink: &mut Output,
) -> Result<(), Fault>
    requires { sink.old.failed ≡ false }
{
    match command {
        Command::Pack(pack) => engine::pack(alloc, *pack, source, sink),
        Command::Encode(encode) => engine::encode(alloc, *encode, source, sink),
        Command::Run(run) => engine::run(alloc, run, source, sink),
    }
}

/// Adds why the engine refused, and what it has written all the same.
fn refused(fault: Fault, written: &[u8], answer: &mut Text) {
    match fault {
        Fault::Refused(refusal) => answer.refusal(refusal),
        other => {
            answer.word("fault");
            answer.count(usize::from(other.number()));
        }
    }
    if !written.is_empty() {
        answer.word("but written");
        shown::bytes(answer, written);
    }
}

/// Answers what the engine writes.
fn answer_run(alloc: Global, made: Run, answer: &mut Text) {
    let Run {
        command,
        input,
        mut output,
    } = made;
    if output.failed {
        return;
    }
    let mut source = Input::new(&input);
    mark(alloc);
    let came = call(alloc, &command, &mut source, &mut output);
    mark(alloc);
    match came {
        Ok(()) => shown::bytes(answer, &output.bytes),
        Err(fault) => refused(fault, &output.bytes, answer),
    }
}

/// Answers whether words are a command.
fn answer_words(alloc: Global, words: &[String], answer: &mut Text) {
    mark(alloc);
    let came = args::command(alloc, words);
    mark(alloc);
    match came {
        Ok(Some(_)) => answer.word("command"),
        Ok(None) => answer.word("usage"),
        Err(refusal) => answer.refusal(refusal),
    }
}

/// Answers whether a line of words is a command.
fn ask_words(alloc: Global, line: &[&str], answer: &mut Text) {
    match words_of(alloc, line) {
        Ok(words) => answer_words(alloc, &words, answer),
        Err(refusal) => {
            answer.word("set-up");
            answer.refusal(refusal);
        }
    }
}

/// Calls of the engine: what it writes for the program's words, of a column's lines or of its container as an array of a
/// kind.
#[derive(Clone, Copy)]
struct EngineCalls;

impl Calls for EngineCalls {
    fn ask_kind(&self, asked: Asked, kind: &str, answer: &mut Text) {
        match set_up(asked.alloc, kind, asked.words_from(1), asked.column(0)) {
            Ok(made) => answer_run(asked.alloc, made, answer),
            Err(refusal) => {
                answer.word("set-up");
                answer.refusal(refusal);
            }
        }
    }
}

/// Answers what a call of the engine gives, or whether words are a command, if the words ask for one.
pub(crate) fn ask(asked: Asked, answer: &mut Text) -> bool {
    match (asked.word(0), asked.word(2)) {
        ("memory", "flcol") => calls::ask(&EngineCalls, asked.from(2), asked.word(1), answer),
        ("memory", "words") => ask_words(asked.alloc, asked.words_from(3), answer),
        _ => return false,
    }
    true
}
