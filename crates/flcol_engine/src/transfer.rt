//! All bytes of a source, and all bytes into a sink.

ghost use Rattle.std.specs.Prelude.{◌≡◌, ◌↔◌, false, true, IfOk, OnOk, OnErr, IfSome, IsErrOf, IfErr, ◌⊎◌, vec_len};
ghost use Rattle.std.specs.Io.KnownBytes.{Appends, IsAtEnd};
ghost use Rattle.flcol_engine.specs.Ends.{Marks, AppendsFront, MarksWhere};
ghost use Rattle.flcol_engine.specs.Faults.{out_of_memory};

use crate::fault::Fault;
use crate::io::{Sink, Source, WriteFault};
use std::alloc::{AllocError, Global};

const CHUNK: usize = 65536;

fn zeros(alloc: Global, len: usize) -> Result<Vec<u8>, AllocError>
    ensures { IfOk result (λ v. vec_len v ≡ len) }
{
    vec![in alloc; 0u8; len]
}

/// Reads a source to its end.
pub fn read_all<S: Source>(alloc: Global, source: &mut S) -> Result<Vec<u8>, Fault>
    ensures bytes { IfOk result (λ v. IfSome (S.left source.old) (λ input. v.items ≡ input)) }
    ensures end { OnOk result (IsAtEnd (S.left source.new)) }
    ensures mark { MarksWhere Fault.ReadFault (S.has_failed source.old) (S.has_failed source.new) result }
    ensures causes { IfErr result (λ e. (e ≡ Fault.ReadFault) ⊎ (e ≡ out_of_memory)) }
{
    let mut chunk = zeros(alloc, CHUNK)?;
    let mut all = Vec::new(alloc);
    loop {
        let n = source.read(&mut chunk)?;
        if n == 0 {
            return Ok(all);
        }
        all.extend_from_slice(&chunk[..n])?;
    }
}

/// Writes all of a slice, and flushes.
pub fn write_all<K: Sink>(sink: &mut K, bytes: &[u8]) -> Result<(), WriteFault>
    ensures ok { OnOk result (Appends (K.written sink.old) (K.written sink.new) bytes.now) }
    ensures flushed { OnOk result (K.is_flushed sink.new ≡ true) }
    ensures err { OnErr result (AppendsFront (K.written sink.old) (K.written sink.new) bytes.now) }
    ensures mark { Marks (K.has_failed sink.old) (K.has_failed sink.new) result }
{
    let mut at = 0;
    while at < bytes.len() {
        at += sink.write(&bytes[at..])?;
    }
    sink.flush()
}
