//! Why a file is not read or written.

ghost use Rattle.std.specs.Prelude.{◌≡◌};
ghost use Rattle.fl_file.specs.declared.error.FileError.TheVariants.{OutOfMemory};
ghost use Rattle.fl_file.specs.declared.error.FileError.TheVariants as errors;

use crate::ends::{ReadFault, WriteFault};
use std::alloc::{AllocError, AllocFailed};
use thiserror::Error;

/// Why a file is not read or written. Where several of those of a foot apply, the first of them in this order is given.
#[derive(Clone, Copy, Debug, PartialEq, Eq, Error)]
pub enum FileError {
    /// A growth of memory was refused.
    #[error("OutOfMemory")]
    OutOfMemory,
    /// The bytes are fewer than a foot has, or more than the file has.
    #[error("TooShort")]
    TooShort,
    /// The last four bytes are not `FLC2`.
    #[error("BadMark")]
    BadMark,
    /// No foot has this length, or the bytes are fewer.
    #[error("BadLength")]
    BadLength,
    /// The checksum is not that of the foot's bytes.
    #[error("BadChecksum")]
    BadChecksum,
    /// A field is out of its range.
    #[error("BadField")]
    BadField,
    /// A chunk does not begin at a multiple of 64 bytes, begins before the end of the one before it, or does not end before
    /// the foot.
    #[error("BadPlace")]
    BadPlace,
    /// The checksum is not that of the chunk's bytes.
    #[error("BadChunk")]
    BadChunk,
    /// The file would have 2^63 bytes.
    #[error("TooLong")]
    TooLong,
    /// A read failed.
    #[error("ReadFault")]
    ReadFault,
    /// A write failed, now or before.
    #[error("WriteFault")]
    WriteFault,
}

impl From<AllocError> for FileError {
    ghost from_gives = { λ _ e. e ≡ OutOfMemory };

    fn from(_e: AllocError) -> FileError {
        FileError::OutOfMemory
    }
}

impl<T: Drop> From<AllocFailed<T>> for FileError {
    ghost from_gives = { λ _ e. e ≡ OutOfMemory };

    fn from(_e: AllocFailed<T>) -> FileError {
        FileError::OutOfMemory
    }
}

impl From<ReadFault> for FileError {
    ghost from_gives = { λ _ e. e ≡ errors.ReadFault };

    fn from(_e: ReadFault) -> FileError {
        FileError::ReadFault
    }
}

impl From<WriteFault> for FileError {
    ghost from_gives = { λ _ e. e ≡ errors.WriteFault };

    fn from(_e: WriteFault) -> FileError {
        FileError::WriteFault
    }
}
