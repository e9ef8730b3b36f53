//! Why a run is refused.

ghost use Rattle.std.specs.Prelude.{◌≡◌};
ghost use Rattle.fl_types.specs.declared.error.FastLanesError.TheVariants.{OutOfMemory};
ghost use Rattle.flcol_engine.specs.declared.fault.Fault.TheVariants as faults;
ghost use Rattle.flcol_engine.specs.Faults.{fault_line, fault_number, of_container};

use crate::io::{ReadFault, WriteFault};
use fl_column::FastLanesError;
use flcol_container::ContainerError;
use std::alloc::{AllocError, AllocFailed};
use thiserror::Error;

/// What a run can be refused with. Each has a number, and is shown by its name.
#[derive(Clone, Copy, Debug, PartialEq, Eq, Error)]
pub enum Fault {
    /// The library refused it, with this refusal's number and name.
    #[error("{0}")]
    Refused(FastLanesError),
    /// A line says no item of the column's type.
    #[error("BadColumn")]
    BadColumn,
    /// The bytes are no container.
    #[error("BadContainer")]
    BadContainer,
    /// The reader failed.
    #[error("ReadFault")]
    ReadFault,
    /// The writer failed.
    #[error("WriteFault")]
    WriteFault,
}

impl Fault {
    /// The fault's number.
    pub fn number(self) -> u8
        ensures { result ≡ fault_number self }
    {
        match self {
            Fault::Refused(error) => error.number(),
            Fault::BadColumn => 41,
            Fault::BadContainer => 42,
            Fault::ReadFault => 43,
            Fault::WriteFault => 44,
        }
    }

    /// The line that says the fault's number and its name, for which no memory is needed.
    pub fn line(self) -> &'static str
        ensures { result.now ≡ fault_line self }
    {
        match self {
            Fault::Refused(error) => refusal_line(error),
            Fault::BadColumn => "error 41 BadColumn\n",
            Fault::BadContainer => "error 42 BadContainer\n",
            Fault::ReadFault => "error 43 ReadFault\n",
            Fault::WriteFault => "error 44 WriteFault\n",
        }
    }
}

/// The line of each of these refusals, beside its number.
macro_rules! lines {
    ($error:expr; $($number:literal $name:ident)*) => {
        match $error {
            $(FastLanesError::$name => concat!("error ", $number, " ", stringify!($name), "\n"),)*
        }
    };
}

/// The line that says the number and the name of a refusal.
fn refusal_line(error: FastLanesError) -> &'static str
    ensures { result.now ≡ fault_line (faults.Refused error) }
{
    lines!(error;
        1 OutOfMemory 2 NotInteger 3 NegativeValue 4 WidthTooLarge 5 AllBlocksNative
        6 BlockCount 7 OffsetTooLarge 8 LengthOverflow 9 ValidityLength 10 PatchType
        11 PatchLength 12 PatchContent 13 PackedLength 14 BlockOffsetsType 15 BlockOffsetsCount
        16 BlockBoundary 17 BlockSpan 18 TypeMismatch 19 NullReference 20 ReferenceCount
        21 NoMinimum 22 ChildNullable 23 ChildLength 24 RangeBeyondChild 25 RunIndexType
        26 RunOffsets 27 RunIndex 28 TooManyWidths 29 NotGlobal 30 IndexOutOfBounds
        31 RangeOutOfBounds 32 MaskLength 33 CastNull 34 CastOutOfRange 35 UnknownId
        36 BadMetadata 37 UnknownType 38 BufferCount 39 ChildCount 40 ChildMismatch
    )
}

impl From<FastLanesError> for Fault {
    ghost from_gives = { λ error fault. fault ≡ faults.Refused error };

    fn from(error: FastLanesError) -> Fault {
        Fault::Refused(error)
    }
}

impl From<ContainerError> for Fault {
    ghost from_gives = { λ error fault. fault ≡ of_container error };

    fn from(error: ContainerError) -> Fault {
        match error {
            ContainerError::OutOfMemory => Fault::Refused(FastLanesError::OutOfMemory),
            ContainerError::BadContainer => Fault::BadContainer,
        }
    }
}

impl From<AllocError> for Fault {
    ghost from_gives = { λ _ fault. fault ≡ faults.Refused OutOfMemory };

    fn from(_e: AllocError) -> Fault {
        Fault::Refused(FastLanesError::OutOfMemory)
    }
}

impl<T: Drop> From<AllocFailed<T>> for Fault {
    ghost from_gives = { λ _ fault. fault ≡ faults.Refused OutOfMemory };

    fn from(_e: AllocFailed<T>) -> Fault {
        Fault::Refused(FastLanesError::OutOfMemory)
    }
}

impl From<ReadFault> for Fault {
    ghost from_gives = { λ _ fault. fault ≡ faults.ReadFault };

    fn from(_e: ReadFault) -> Fault {
        Fault::ReadFault
    }
}

impl From<WriteFault> for Fault {
    ghost from_gives = { λ _ fault. fault ≡ faults.WriteFault };

    fn from(_e: WriteFault) -> Fault {
        Fault::WriteFault
    }
}
