//! Why a call does nothing.

ghost use Rattle.std.specs.Prelude.{◌≡◌, ◌≢◌, IsOkAnd, pos};
ghost use Rattle.fl_types.specs.declared.error.FastLanesError.TheVariants.{OutOfMemory};
ghost use Rattle.flcol_c.specs.declared.fault.Fault.TheVariants as faults;
ghost use Rattle.flcol_c.specs.Statuses.{status_in, status_of};

use fl_types::FastLanesError;
use std::alloc::{AllocError, AllocFailed};

/// The status of a call that did what it is for.
pub const DONE: i32 = 0;

/// Why a call does nothing.
#[derive(Clone, Copy, Debug, PartialEq, Eq)]
pub enum Fault {
    /// The library refuses it.
    Refused(FastLanesError),
    /// The bytes are no container, or the array has none.
    BadContainer,
    /// A word that is read holds no array.
    NoArray,
    /// The array is not of the integers that the call's name says.
    WrongType,
    /// A buffer has not the length that is needed.
    WrongLength,
    /// The text says no scheme.
    BadScheme,
    /// No operator has the number.
    BadOperator,
    /// A bit stands for no encoding.
    BadEncodings,
    /// The bytes are fewer than a file of chunks has.
    FileTooShort,
    /// The file does not begin and end as one of chunks.
    BadMark,
    /// No foot has the length that the file says.
    BadFootLength,
    /// The checksum is not that of the foot's bytes.
    BadFootChecksum,
    /// What is said of a chunk is out of its range.
    BadField,
    /// A chunk does not lie where it has to.
    BadPlace,
    /// The checksum is not that of the chunk's bytes.
    BadChunk,
    /// The file would have 2^63 bytes.
    FileTooLong,
    /// The statistics of a chunk are not those of its items.
    BadStatistics,
}

impl Fault {
    /// The status that says it.
    pub fn status(self) -> i32
        ensures { result ≡ status_of self }
    {
        match self {
            Fault::Refused(refusal) => i32::from(refusal.number()),
            Fault::BadContainer => 42,
            Fault::NoArray => 100,
            Fault::WrongType => 101,
            Fault::WrongLength => 102,
            Fault::BadScheme => 103,
            Fault::BadOperator => 104,
            Fault::BadEncodings => 106,
            Fault::FileTooShort => 107,
            Fault::BadMark => 108,
            Fault::BadFootLength => 109,
            Fault::BadFootChecksum => 110,
            Fault::BadField => 111,
            Fault::BadPlace => 112,
            Fault::BadChunk => 113,
            Fault::FileTooLong => 114,
            Fault::BadStatistics => 115,
        }
    }
}

/// The status of what a call answered.
pub(crate) fn status_of(answer: Result<(), Fault>) -> i32
    ensures { result ≡ status_in answer }
{
    match answer {
        Ok(()) => DONE,
        Err(fault) => fault.status(),
    }
}

/// Writes what a call answered, and gives its status.
pub(crate) fn write_answer<T: Copy>(answer: Result<T, Fault>, out: &mut T) -> i32
    ensures status { result ≡ status_in answer }
    ensures written { result ≡ pos 0 → IsOkAnd answer (λ found. out.new ≡ found) }
    ensures unwritten { result ≢ pos 0 → out.new ≡ out.old }
{
    match answer {
        Ok(found) => {
            *out = found;
            DONE
        }
        Err(fault) => fault.status(),
    }
}

impl From<FastLanesError> for Fault {
    ghost from_gives = { λ refusal fault. fault ≡ faults.Refused refusal };

    fn from(refusal: FastLanesError) -> Fault {
        Fault::Refused(refusal)
    }
}

impl From<AllocError> for Fault {
    ghost from_gives = { λ _ fault. fault ≡ faults.Refused OutOfMemory };

    fn from(_e: AllocError) -> Fault {
        Fault::Refused(FastLanesError::OutOfMemory)
    }
}

impl<T: Drop> From<AllocFailed<T>> for Fault {
    ghost from_gives = { λ _ fault. fault ≡ faults.Refused OutOfMemory };

    fn from(_e: AllocFailed<T>) -> Fault {
        Fault::Refused(FastLanesError::OutOfMemory)
    }
}
