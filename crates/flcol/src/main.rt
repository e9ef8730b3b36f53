//! Columns of integers, packed.
#![tactic(auto)]

use fl_column::FastLanesError;
use flcol_engine::fault::Fault;
use flcol_engine::io::{ReadEnd, WriteEnd};
use flcol_engine::start;
use std::process::ExitCode;
use std::{env, io};

/// Memory ran out.
const OUT_OF_MEMORY: Fault = Fault::Refused(FastLanesError::OutOfMemory);

/// Runs the program over the standard streams. A word that isn't UTF-8 gives no command.
fn status(rt: &HostRuntime) -> u8 {
    let mut errors = WriteEnd::new(rt.stderr());
    let words = match env::args(rt) {
        Ok(words) => words,
        Err(e) => {
            return if e.kind() == io::ErrorKind::OutOfMemory {
                start::refuse(&mut errors, OUT_OF_MEMORY)
            } else {
                start::usage(&mut errors)
            };
        }
    };
    let Ok(words) = words.skip(1).collect::<Vec<String>>(rt.alloc()) else {
        return start::refuse(&mut errors, OUT_OF_MEMORY);
    };
    let mut source = ReadEnd::new(rt.reader());
    let mut sink = WriteEnd::new(rt.stdout());
    start::start(rt.alloc(), &words, &mut source, &mut sink, &mut errors)
}

fn main(rt: HostRuntime) -> ExitCode {
    ExitCode::from(status(&rt))
}
