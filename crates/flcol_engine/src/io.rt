//! Where the engine's bytes come from and go to.

ghost use Rattle.std.specs.Prelude.{◌≡◌, ℕ, ◌<◌, ◌≤◌, Bool, true, false, List, take, length, Option, IfOk, OnOk, OnErr, IfSome};
ghost use Rattle.std.specs.Io.KnownBytes.{Appends, Keeps, ReadConsumes, IsAtEnd};
ghost use Rattle.flcol_engine.specs.Ends.{Marks, AppendsFront};

use std::alloc::Global;
use std::io;
use std::io::{Read, Write};

/// A read failed.
#[derive(Clone, Copy, Debug, PartialEq, Eq)]
pub struct ReadFault;

/// A write failed.
#[derive(Clone, Copy, Debug, PartialEq, Eq)]
pub struct WriteFault;

/// What gives bytes.
pub trait Source {
    /// The bytes that reads give from here on, where they are known.
    ghost left: { Self → Option (List ℕ) };

    /// The mark: whether a call has answered a fault.
    ghost has_failed: { Self → Bool };

    /// Reads some bytes. At the end, and only there, a buffer with room gets none.
    fn read(&mut self, buf: &mut [u8]) -> Result<usize, ReadFault>
        ensures bound { IfOk result (λ n. n ≤ length buf.new) }
        ensures bytes { ReadConsumes (left self.old) (left self.new) result buf.new }
        ensures mark { Marks (has_failed self.old) (has_failed self.new) result };
}

/// What takes bytes.
pub trait Sink {
    /// The bytes that were written, where they are known.
    ghost written: { Self → Option (List ℕ) };

    /// The mark: whether a call has answered a fault.
    ghost has_failed: { Self → Bool };

    /// Whether all that was written has been flushed.
    ghost is_flushed: { Self → Bool };

    /// Writes at least one byte of a slice that has one, or answers a fault.
    fn write(&mut self, buf: &[u8]) -> Result<usize, WriteFault>
        ensures bound { IfOk result (λ n. n ≤ length buf.now) }
        ensures some { IfOk result (λ n. 0 < length buf.now → 0 < n) }
        ensures ok { IfOk result (λ n. Appends (written self.old) (written self.new) (take n buf.now)) }
        ensures err { OnErr result (AppendsFront (written self.old) (written self.new) buf.now) }
        ensures unflushed { 0 < length buf.now → is_flushed self.new ≡ false }
        ensures mark { Marks (has_failed self.old) (has_failed self.new) result };

    /// Hands on all that was written.
    fn flush(&mut self) -> Result<(), WriteFault>
        ensures bytes { Keeps (written self.old) (written self.new) }
        ensures flushed { OnOk result (is_flushed self.new ≡ true) }
        ensures mark { Marks (has_failed self.old) (has_failed self.new) result };
}

/// A source over a reader of std.
#[derive(Drop)]
pub struct ReadEnd<R> {
    inner: R,
    failed: bool,
}

impl<R: Read> ReadEnd<R> {
    /// An end over this reader. It gives what the reader gives, and has not failed.
    pub fn new(inner: R) -> ReadEnd<R>
        ensures left { ⟦<ReadEnd<R> as Source>⟧.left result ≡ R.remaining inner }
        ensures unmarked { ⟦<ReadEnd<R> as Source>⟧.has_failed result ≡ false }
    {
        ReadEnd {
            inner,
            failed: false,
        }
    }
}

impl<R: Read> Source for ReadEnd<R> {
    ghost left = { λ s. R.remaining s.inner };

    ghost has_failed = { λ s. s.failed };

    fn read(&mut self, buf: &mut [u8]) -> Result<usize, ReadFault> {
        // A call that a signal interrupted is made again. A count that nobody will reach stands in place
        // of a loop without an end, so that each call returns.
        for _ in 0..u64::MAX {
            match self.inner.read(buf) {
                Ok(n) => return Ok(n),
                Err(e) => {
                    if e.kind() != io::ErrorKind::Interrupted {
                        break;
                    }
                }
            }
        }
        self.failed = true;
        Err(ReadFault)
    }
}

/// A sink over a writer of std.
#[derive(Drop)]
pub struct WriteEnd<W> {
    inner: W,
    failed: bool,
    flushed: bool,
}

impl<W: Write> WriteEnd<W> {
    /// An end over this writer. What the writer has got stands before what the end is given, and nothing waits to be flushed.
    pub fn new(inner: W) -> WriteEnd<W>
        ensures written { ⟦<WriteEnd<W> as Sink>⟧.written result ≡ W.contents inner }
        ensures unmarked { ⟦<WriteEnd<W> as Sink>⟧.has_failed result ≡ false }
        ensures flushed { ⟦<WriteEnd<W> as Sink>⟧.is_flushed result ≡ true }
    {
        WriteEnd {
            inner,
            failed: false,
            flushed: true,
        }
    }
}

impl<W: Write> Sink for WriteEnd<W> {
    ghost written = { λ s. W.contents s.inner };

    ghost has_failed = { λ s. s.failed };

    ghost is_flushed = { λ s. s.flushed };

    fn write(&mut self, buf: &[u8]) -> Result<usize, WriteFault> {
        self.flushed = false;
        // Made again where it was interrupted, up to a count that nobody will reach.
        for _ in 0..u64::MAX {
            match self.inner.write(buf) {
                Ok(n) => {
                    if n == 0 && !buf.is_empty() {
                        break;
                    }
                    return Ok(n);
                }
                Err(e) => {
                    if e.kind() != io::ErrorKind::Interrupted {
                        break;
                    }
                }
            }
        }
        self.failed = true;
        Err(WriteFault)
    }

    fn flush(&mut self) -> Result<(), WriteFault> {
        if self.inner.flush().is_err() {
            self.failed = true;
            return Err(WriteFault);
        }
        self.flushed = true;
        Ok(())
    }
}
