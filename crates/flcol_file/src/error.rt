//! Why a column is not written to a file, or read from one.

ghost use Rattle.std.specs.Prelude.{◌≡◌};
ghost use Rattle.fl_types.specs.declared.error.FastLanesError.TheVariants.{OutOfMemory};
ghost use Rattle.flcol_file.specs.Outcomes.{of_container, of_file};
ghost use Rattle.flcol_file.specs.declared.error.ColumnFileError.TheVariants as errors;

use fl_column::FastLanesError;
use fl_file::FileError;
use flcol_container::ContainerError;
use std::alloc::{AllocError, AllocFailed};

/// Why a column is not written to a file, or read from one.
#[derive(Clone, Copy, Debug, PartialEq, Eq)]
pub enum ColumnFileError {
    /// An array is refused.
    Array(FastLanesError),
    /// The bytes of a chunk are no container, or an array has none.
    BadContainer,
    /// The statistics in the foot of a file are not those of a chunk.
    BadStatistics,
    /// The file is refused, for another reason than memory.
    File(FileError),
}

impl From<FastLanesError> for ColumnFileError {
    ghost from_gives = { λ e error. error ≡ errors.Array e };

    fn from(e: FastLanesError) -> ColumnFileError {
        ColumnFileError::Array(e)
    }
}

impl From<FileError> for ColumnFileError {
    ghost from_gives = { λ e error. error ≡ of_file e };

    fn from(e: FileError) -> ColumnFileError {
        match e {
            FileError::OutOfMemory => ColumnFileError::Array(FastLanesError::OutOfMemory),
            _ => ColumnFileError::File(e),
        }
    }
}

impl From<ContainerError> for ColumnFileError {
    ghost from_gives = { λ e error. error ≡ of_container e };

    fn from(e: ContainerError) -> ColumnFileError {
        match e {
            ContainerError::OutOfMemory => ColumnFileError::Array(FastLanesError::OutOfMemory),
            ContainerError::BadContainer => ColumnFileError::BadContainer,
        }
    }
}

impl From<AllocError> for ColumnFileError {
    ghost from_gives = { λ _ error. error ≡ errors.Array OutOfMemory };

    fn from(_e: AllocError) -> ColumnFileError {
        ColumnFileError::Array(FastLanesError::OutOfMemory)
    }
}

impl<T: Drop> From<AllocFailed<T>> for ColumnFileError {
    ghost from_gives = { λ _ error. error ≡ errors.Array OutOfMemory };

    fn from(_e: AllocFailed<T>) -> ColumnFileError {
        ColumnFileError::Array(FastLanesError::OutOfMemory)
    }
}
