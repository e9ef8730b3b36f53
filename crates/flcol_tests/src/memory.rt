//! Ends in memory, whose Nth call fails, or is interrupted.

ghost use Rattle.std.specs.Prelude.{◌≡◌, ◌<◌, None, Some, false};

use flcol_engine::io::{ReadFault, Sink, Source, WriteFault};
use std::alloc::Global;
use std::io;
use std::io::{Read, Write};

/// A source in memory.
#[derive(Drop)]
pub struct FromMemory<'a> {
    bytes: &'a [u8],
    /// At most this many bytes a call.
    piece: usize,
    /// The call that fails, counted from 0.
    fails_at: Option<u32>,
    pub failed: bool,
    ghost some: { 0 < piece },
}

impl<'a> FromMemory<'a> {
    pub fn new(bytes: &'a [u8], piece: usize, fails_at: Option<u32>) -> FromMemory<'a>
        requires { 0 < piece }
        ensures { result.failed ≡ false }
    {
        FromMemory {
            bytes,
            piece,
            fails_at,
            failed: false,
        }
    }
}

impl Source for FromMemory<'_> {
    ghost left = { λ s. Some s.bytes.now };

    ghost has_failed = { λ s. s.failed };

    fn read(&mut self, buf: &mut [u8]) -> Result<usize, ReadFault> {
        if self.fails_at == Some(0) {
            self.failed = true;
            return Err(ReadFault);
        }
        self.fails_at = self.fails_at.map(|n| n.saturating_sub(1));
        let n = self.bytes.len().min(buf.len()).min(self.piece);
        let (front, rest) = self.bytes.split_at(n);
        buf[..n].copy_from_slice(front);
        self.bytes = rest;
        Ok(n)
    }
}

/// A sink in memory. The call that fails takes half of its slice.
#[derive(Drop)]
pub struct ToMemory {
    pub bytes: Vec<u8>,
    /// At most this many bytes a call.
    piece: usize,
    /// The call that fails, counted from 0.
    fails_at: Option<u32>,
    pub failed: bool,
    flushed: bool,
    ghost some: { 0 < piece },
}

impl ToMemory {
    pub fn new(alloc: Global, piece: usize, fails_at: Option<u32>) -> ToMemory
        requires { 0 < piece }
        ensures { result.failed ≡ false }
    {
        ToMemory {
            bytes: Vec::new(alloc),
            piece,
            fails_at,
            failed: false,
            flushed: true,
        }
    }
}

impl Sink for ToMemory {
    ghost written = { λ s. Some s.bytes.items };

    ghost has_failed = { λ s. s.failed };

    ghost is_flushed = { λ s. s.flushed };

    fn write(&mut self, buf: &[u8]) -> Result<usize, WriteFault> {
        self.flushed = false;
        let due = self.fails_at == Some(0);
        self.fails_at = self.fails_at.map(|n| n.saturating_sub(1));
        let n = if due {
            buf.len() / 2
        } else {
            buf.len().min(self.piece)
        };
        if self.bytes.extend_from_slice(&buf[..n]).is_err() || due {
            self.failed = true;
            return Err(WriteFault);
        }
        Ok(n)
    }

    fn flush(&mut self) -> Result<(), WriteFault> {
        if self.fails_at == Some(0) {
            self.failed = true;
            return Err(WriteFault);
        }
        self.fails_at = self.fails_at.map(|n| n.saturating_sub(1));
        self.flushed = true;
        Ok(())
    }
}

/// A reader and writer of a byte a call, which may be interrupted at each other one. It counts the calls of `flush`.
#[derive(Drop)]
pub struct ByBytes {
    pub bytes: Vec<u8>,
    at: usize,
    is_interrupted: bool,
    is_due: bool,
    pub flushes: u32,
}

impl ByBytes {
    /// These bytes, of which none has been read. If any call is interrupted, the first one is.
    pub fn new(bytes: Vec<u8>, is_interrupted: bool) -> ByBytes
        ensures bytes { result.bytes ≡ bytes }
        ensures flushes { result.flushes ≡ 0 }
    {
        ByBytes {
            bytes,
            at: 0,
            is_interrupted,
            is_due: true,
            flushes: 0,
        }
    }

    /// Whether this call is interrupted.
    fn turn(&mut self) -> bool {
        let is_due = self.is_due;
        self.is_due = !is_due;
        is_due && self.is_interrupted
    }
}

impl Read for ByBytes {
    ghost remaining = { λ _. None };

    fn read(&mut self, buf: &mut [u8]) -> io::Result<usize> {
        if self.turn() {
            return Err(io::Error::from(io::ErrorKind::Interrupted));
        }
        match (self.bytes.get(self.at), buf.first_mut()) {
            (Some(byte), Some(place)) => {
                *place = *byte;
                self.at = self.at.saturating_add(1);
                Ok(1)
            }
            _ => Ok(0),
        }
    }
}

impl Write for ByBytes {
    ghost contents = { λ _. None };

    fn write(&mut self, buf: &[u8]) -> io::Result<usize> {
        if self.turn() {
            return Err(io::Error::from(io::ErrorKind::Interrupted));
        }
        match buf.first() {
            Some(byte) => {
                self.bytes
                    .push(*byte)
                    .map_err(|_| io::Error::from(io::ErrorKind::OutOfMemory))?;
                Ok(1)
            }
            None => Ok(0),
        }
    }

    fn flush(&mut self) -> io::Result<()> {
        self.flushes = self.flushes.saturating_add(1);
        Ok(())
    }
}

/// A reader and writer that fails at each call.
#[derive(Drop)]
pub struct Broken;

impl Read for Broken {
    ghost remaining = { λ _. None };

    fn read(&mut self, _buf: &mut [u8]) -> io::Result<usize> {
        Err(io::Error::from(io::ErrorKind::BrokenPipe))
    }
}

impl Write for Broken {
    ghost contents = { λ _. None };

    fn write(&mut self, _buf: &[u8]) -> io::Result<usize> {
        Err(io::Error::from(io::ErrorKind::BrokenPipe))
    }

    fn flush(&mut self) -> io::Result<()> {
        Err(io::Error::from(io::ErrorKind::BrokenPipe))
    }
}

/// A writer that takes all bytes, and fails to flush them.
#[derive(Drop)]
pub struct Unflushed;

impl Write for Unflushed {
    ghost contents = { λ _. None };

    fn write(&mut self, buf: &[u8]) -> io::Result<usize> {
        Ok(buf.len())
    }

    fn flush(&mut self) -> io::Result<()> {
        Err(io::Error::from(io::ErrorKind::BrokenPipe))
    }
}
