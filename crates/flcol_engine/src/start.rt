//! The program over any ends: from its words to its status.

ghost use Rattle.std.specs.Prelude.{◌≡◌, false, map, string_bytes, Result, IfSome, OnOk, IfNone, is_ok, OnErr};
ghost use Rattle.flcol_engine.specs.declared.fault.Fault.{Fault};
ghost use Rattle.flcol_engine.specs.Ends.{AppendsUnless};
ghost use Rattle.flcol_engine.specs.Faults.{fault_line};
ghost use Rattle.flcol_engine.specs.Command.{IsRun, IsUsage, command_of, parts_of_command, report_of, status_of, usage_line};

use crate::commands::Command;
use crate::fault::Fault;
use crate::io::{Sink, Source};
use crate::transfer::write_all;
use crate::{args, engine};
use fl_column::FastLanesError;
use std::alloc::Global;

/// Memory ran out.
const OUT_OF_MEMORY: Fault = Fault::Refused(FastLanesError::OutOfMemory);

/// Says how the program is called, and answers status 2.
#[tactic(auto, using(crate::proofs::EndLemmas::said_unless))]
pub fn usage<E: Sink>(errors: &mut E) -> u8
    ensures status { result ≡ 2 }
    ensures said { AppendsUnless (E.has_failed errors.new) (E.written errors.old) (E.written errors.new) usage_line }
{
    let _ = write_all(errors, args::usage().as_bytes());
    2
}

/// Says why the run is refused, and answers status 1.
#[tactic(auto, using(crate::proofs::EndLemmas::said_unless))]
pub fn refuse<E: Sink>(errors: &mut E, fault: Fault) -> u8
    ensures status { result ≡ 1 }
    ensures said { AppendsUnless (E.has_failed errors.new) (E.written errors.old) (E.written errors.new) (fault_line fault) }
{
    let _ = write_all(errors, fault.line().as_bytes());
    1
}

/// Carries out a command.
fn perform<S: Source, K: Sink>(
    alloc: Global,
    command: &Command,
    source: &mut S,
    sink: &mut K,
) -> Result<(), Fault>
    requires source_unmarked { S.has_failed source.old ≡ false }
    requires sink_unmarked { K.has_failed sink.old ≡ false }
    ensures { IsRun (parts_of_command command.now) result (S.left source.old) (S.left source.new) (S.has_failed source.new)
        (K.written sink.old) (K.written sink.new) (K.has_failed sink.new) (K.is_flushed sink.new) }
{
    match command {
        Command::Pack(pack) => engine::pack(alloc, *pack, source, sink),
        Command::Encode(encode) => engine::encode(alloc, *encode, source, sink),
        Command::Run(run) => engine::run(alloc, run, source, sink),
    }
}

/// Runs the program on the words behind its name, and answers its status: 0, or 1 behind a line that says why the run was refused, or 2 behind the usage line.
///
/// The words are read as a whole before the source is. A failure of `errors` changes no status.
pub fn start<S: Source, K: Sink, E: Sink>(
    alloc: Global,
    words: &[String],
    source: &mut S,
    sink: &mut K,
    errors: &mut E,
) -> u8
    // Neither the source nor the sink has failed before.
    requires source_unmarked { S.has_failed source.old ≡ false }
    requires sink_unmarked { K.has_failed sink.old ≡ false }

    // Where the words give no command, nothing is read or written but the usage line; a line of `run` alone may find no
    // memory for its operations.
    ensures usage { IfNone (command_of (map string_bytes words.now))
        ((source.new ≡ source.old) × (sink.new ≡ sink.old)
        × IsUsage (map string_bytes words.now) result (E.has_failed errors.new) (E.written errors.old) (E.written errors.new)) }

    // Else the command is run, and the status and the line of errors tell how the run ended.
    ensures run { IfSome (command_of (map string_bytes words.now)) (λ command. (outcome : Result (Unit {0}) Fault)
        × (result ≡ status_of outcome)
        × AppendsUnless (E.has_failed errors.new) (E.written errors.old) (E.written errors.new) (report_of outcome)
        × IsRun command outcome (S.left source.old) (S.left source.new) (S.has_failed source.new)
        (K.written sink.old) (K.written sink.new) (K.has_failed sink.new) (K.is_flushed sink.new)) }
{
    match args::command(alloc, words) {
        Ok(Some(command)) => match perform(alloc, &command, source, sink) {
            Ok(()) => 0,
            Err(fault) => refuse(errors, fault),
        },
        Ok(None) => usage(errors),
        Err(_) => refuse(errors, OUT_OF_MEMORY),
    }
}
