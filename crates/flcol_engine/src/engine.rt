//! The engine: each command reads a source whole, and writes its output whole.

ghost use Rattle.std.specs.Prelude.{◌≡◌, ◌↔◌, false, true, IfSome, IsErrOf, OnOk, IsTrue};
ghost use Rattle.flcol_engine.specs.Faults.{IsOutcome};
ghost use Rattle.flcol_engine.specs.Engine.{IsPackedColumn, column_to_pack, IsPackOutcome, ReadsAll, IsSilent};
ghost use Rattle.flcol_engine.specs.Command.{parts_of_run};
ghost use Rattle.flcol_engine.specs.Outputs.{IsEncodeOutput, IsOutcomeOf, IsRunOutput};

use crate::commands::{Encode, Pack, Run};
use crate::fault::Fault;
use crate::io::{Sink, Source};
use crate::transfer::{read_all, write_all};
use crate::{encodes, query, text};
use bytes::Bytes;
use fl_bitpacking::bitpack_compress::bitpack_unchecked;
use fl_column::FastLanesError;
use std::alloc::Global;

/// The packed bytes of the column that a text says.
fn packed(alloc: Global, command: Pack, text: Vec<u8>) -> Result<Bytes, Fault>
    ensures { IsOutcome (IsPackedColumn command.width) result (column_to_pack command text.items) }
{
    let array = text::parse_owned(alloc, command.ptype, command.nullability, text)?;
    if usize::from(command.width) > command.ptype.bit_width() {
        return Err(Fault::Refused(FastLanesError::WidthTooLarge));
    }
    Ok(bitpack_unchecked(alloc, &array, command.width)?)
}

/// Reads a column as text to the source's end, packs it, and writes the packed bytes and nothing else.
///
/// Refused in this order: `ReadFault`, `BadColumn`, `WidthTooLarge` for a width above the type's bits, `WriteFault`, and anywhere `OutOfMemory`.
pub fn pack<S: Source, K: Sink>(
    alloc: Global,
    command: Pack,
    source: &mut S,
    sink: &mut K,
) -> Result<(), Fault>
    // Neither end has failed before.
    requires source_unmarked { S.has_failed source.old ≡ false }
    requires sink_unmarked { K.has_failed sink.old ≡ false }

    // The bytes written are the packing of the column that the bytes read spell.
    ensures answer { IfSome (S.left source.old) (λ input.
        IsPackOutcome result command input (K.written sink.old) (K.written sink.new)) }

    // Unless a read failed or memory ran out all is read, and an error other than a write fault writes nothing.
    ensures whole { ReadsAll result (S.left source.new) }
    ensures silent { IsSilent result (K.written sink.old) (K.written sink.new) }
    ensures flushed { OnOk result (K.is_flushed sink.new ≡ true) }

    // A read fault is answered exactly where the source failed, a write fault exactly where the sink did.
    ensures read_fault { IsErrOf result Fault.ReadFault ↔ IsTrue (S.has_failed source.new) }
    ensures write_fault { IsErrOf result Fault.WriteFault ↔ IsTrue (K.has_failed sink.new) }
{
    let input = read_all(alloc, source)?;
    let output = packed(alloc, command, input)?;
    write_all(sink, &output)?;
    Ok(())
}

/// Reads a column as text to the source's end, encodes it, and writes the container of the encoded array and
/// nothing else.
///
/// Refused in this order: `ReadFault`; `BadColumn`; the outer encoder's refusal; that of its child's packing;
/// `WriteFault`; and anywhere `OutOfMemory`.
pub fn encode<S: Source, K: Sink>(
    alloc: Global,
    command: Encode,
    source: &mut S,
    sink: &mut K,
) -> Result<(), Fault>
    // Neither end has failed before.
    requires source_unmarked { S.has_failed source.old ≡ false }
    requires sink_unmarked { K.has_failed sink.old ≡ false }

    // The bytes written are the container of the column that the bytes read spell, in its encoding.
    ensures answer { IfSome (S.left source.old) (λ input.
        IsOutcomeOf (IsEncodeOutput command input) result (K.written sink.old) (K.written sink.new)) }

    // Unless a read failed or memory ran out all is read, and an error other than a write fault writes nothing.
    ensures whole { ReadsAll result (S.left source.new) }
    ensures silent { IsSilent result (K.written sink.old) (K.written sink.new) }
    ensures flushed { OnOk result (K.is_flushed sink.new ≡ true) }

    // A read fault is answered exactly where the source failed, a write fault exactly where the sink did.
    ensures read_fault { IsErrOf result Fault.ReadFault ↔ IsTrue (S.has_failed source.new) }
    ensures write_fault { IsErrOf result Fault.WriteFault ↔ IsTrue (K.has_failed sink.new) }
{
    let input = read_all(alloc, source)?;
    let container = encodes::encode(alloc, command, input)?;
    write_all(sink, &container)?;
    Ok(())
}

/// Reads a container to the source's end, and writes the answer to the query on what the operations
/// make of its array, and nothing else.
///
/// Refused in this order: `ReadFault`; `BadContainer`; what the container's array is refused with; the
/// first refusal of the operations in order; the query's; `WriteFault`; and anywhere `OutOfMemory`.
pub fn run<S: Source, K: Sink>(
    alloc: Global,
    command: &Run,
    source: &mut S,
    sink: &mut K,
) -> Result<(), Fault>
    // Neither end has failed before.
    requires source_unmarked { S.has_failed source.old ≡ false }
    requires sink_unmarked { K.has_failed sink.old ≡ false }

    // The bytes written are the answer to the query on the column, or the array, of the container read.
    ensures answer { IfSome (S.left source.old) (λ input.
        IsOutcomeOf (IsRunOutput (parts_of_run command.now) input) result (K.written sink.old) (K.written sink.new)) }

    // Unless a read failed or memory ran out all is read, and an error other than a write fault writes nothing.
    ensures whole { ReadsAll result (S.left source.new) }
    ensures silent { IsSilent result (K.written sink.old) (K.written sink.new) }
    ensures flushed { OnOk result (K.is_flushed sink.new ≡ true) }

    // A read fault is answered exactly where the source failed, a write fault exactly where the sink did.
    ensures read_fault { IsErrOf result Fault.ReadFault ↔ IsTrue (S.has_failed source.new) }
    ensures write_fault { IsErrOf result Fault.WriteFault ↔ IsTrue (K.has_failed sink.new) }
{
    let input = read_all(alloc, source)?;
    let answer = query::run(alloc, command, input)?;
    write_all(sink, &answer)?;
    Ok(())
}
