//! Why a container is not read, or a serialized array not written.

ghost use Rattle.std.specs.Prelude.{◌≡◌};
ghost use Rattle.flcol_container.specs.declared.error.ContainerError.TheVariants.{BadContainer, OutOfMemory};

use bytes::buf::TryGetError;
use std::alloc::{AllocError, AllocFailed};
use thiserror::Error;

/// Why a container is not read, or a serialized array not written.
#[derive(Clone, Copy, Debug, PartialEq, Eq, Error)]
pub enum ContainerError {
    /// A growth of memory was refused.
    #[error("OutOfMemory")]
    OutOfMemory,
    /// The bytes are no container, or the array has none.
    #[error("BadContainer")]
    BadContainer,
}

impl From<AllocError> for ContainerError {
    ghost from_gives = { λ _ e. e ≡ OutOfMemory };

    fn from(_e: AllocError) -> ContainerError {
        ContainerError::OutOfMemory
    }
}

impl<T: Drop> From<AllocFailed<T>> for ContainerError {
    ghost from_gives = { λ _ e. e ≡ OutOfMemory };

    fn from(_e: AllocFailed<T>) -> ContainerError {
        ContainerError::OutOfMemory
    }
}

impl From<TryGetError> for ContainerError {
    ghost from_gives = { λ _ e. e ≡ BadContainer };

    fn from(_e: TryGetError) -> ContainerError {
        ContainerError::BadContainer
    }
}
