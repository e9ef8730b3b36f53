//! Errors.

ghost use Rattle.std.specs.Prelude.{◌≡◌, Some};
ghost use Rattle.fl_types.specs.declared.error.FastLanesError.TheVariants.{OutOfMemory};
ghost use Rattle.fl_types.specs.RefusalNames.{refusal_name};
ghost use Rattle.fl_types.specs.Refusals.{number_of};

use std::alloc::{AllocError, AllocFailed};
use std::fmt;
use thiserror::Error;

/// The errors of this library.
#[derive(Clone, Copy, Debug, Error, PartialEq, Eq, Hash)]
pub enum FastLanesError {
    /// A request for memory was refused.
    OutOfMemory = 1,
    /// Booleans, or a type of booleans, in place of integers.
    NotInteger = 2,
    /// A valid item is negative.
    NegativeValue = 3,
    /// A width above the bits of the type.
    WidthTooLarge = 4,
    /// A non-empty list of widths that all are those of the type.
    AllBlocksNative = 5,
    /// There is not one width for each block.
    BlockCount = 6,
    /// An offset of 1024 or more.
    OffsetTooLarge = 7,
    /// A length, rounded up to whole blocks if these are counted, is above `usize::MAX`.
    LengthOverflow = 8,
    /// A validity does not have one bit for each item.
    ValidityLength = 9,
    /// Indices or chunk offsets of patches are not unsigned and non-nullable, or the values have another integer type than the column.
    PatchType = 10,
    /// The parts of patches have lengths that do not fit.
    PatchLength = 11,
    /// Indices of patches do not rise or are out of range, a value is null, or a chunk offset is not the number of patches before its chunk.
    PatchContent = 12,
    /// A buffer does not have the length that its array needs.
    PackedLength = 13,
    /// Block boundaries or run offsets are not unsigned and non-nullable.
    BlockOffsetsType = 14,
    /// There is not one block boundary more than blocks, or not one run offset for each chunk.
    BlockOffsetsCount = 15,
    /// Two neighbouring block boundaries do not enclose a block of any width.
    BlockBoundary = 16,
    /// The last block boundary minus the first is not the length of the packed buffer.
    BlockSpan = 17,
    /// Two integer types differ, or one of two types is boolean.
    TypeMismatch = 18,
    /// A reference is null.
    NullReference = 19,
    /// There is not one reference for each chunk.
    ReferenceCount = 20,
    /// A column without a valid item has no minimum.
    NoMinimum = 21,
    /// A child that must be non-nullable is nullable.
    ChildNullable = 22,
    /// A child's length is not a multiple of 1024, or does not fit that of another child.
    ChildLength = 23,
    /// The items reach beyond the child.
    RangeBeyondChild = 24,
    /// Run indices are neither `u8` nor `u16`.
    RunIndexType = 25,
    /// Run offsets fall, or a chunk has no run or more than 1024.
    RunOffsets = 26,
    /// A valid run index is not below the number of runs of its chunk.
    RunIndex = 27,
    /// A histogram of more than 255 entries.
    TooManyWidths = 28,
    /// The array has a width for each block.
    NotGlobal = 29,
    /// An index is negative, or not below the length.
    IndexOutOfBounds = 30,
    /// A range reaches beyond the length, or starts after its end.
    RangeOutOfBounds = 31,
    /// A mask does not have the length of the array.
    MaskLength = 32,
    /// An item is null, and the target is non-nullable.
    CastNull = 33,
    /// An item does not fit the target.
    CastOutOfRange = 34,
    /// The id of an encoding is unknown.
    UnknownId = 35,
    /// Metadata are not a message of their kind.
    BadMetadata = 36,
    /// The number of a type is unknown.
    UnknownType = 37,
    /// A node does not have the number of buffers of its kind.
    BufferCount = 38,
    /// A node does not have the number of children of its kind.
    ChildCount = 39,
    /// A child does not have the type or the length that its place needs.
    ChildMismatch = 40,
}

/// The name of the error.
impl fmt::Display for FastLanesError {
    ghost output = { λ e. Some (refusal_name e) };

    fn fmt<W: fmt::Write>(&self, f: &mut fmt::Formatter<W>) -> Result<(), fmt::Error> {
        f.write_str(name(*self))
    }
}

/// The names of these errors.
macro_rules! names {
    ($error:expr; $($name:ident)*) => {
        match $error {
            $(FastLanesError::$name => stringify!($name),)*
        }
    };
}

/// The name of an error.
fn name(error: FastLanesError) -> &'static str
    ensures { result.now ≡ refusal_name error }
{
    names!(error;
        OutOfMemory NotInteger NegativeValue WidthTooLarge AllBlocksNative BlockCount
        OffsetTooLarge LengthOverflow ValidityLength PatchType PatchLength PatchContent
        PackedLength BlockOffsetsType BlockOffsetsCount BlockBoundary BlockSpan TypeMismatch
        NullReference ReferenceCount NoMinimum ChildNullable ChildLength RangeBeyondChild
        RunIndexType RunOffsets RunIndex TooManyWidths NotGlobal IndexOutOfBounds RangeOutOfBounds
        MaskLength CastNull CastOutOfRange UnknownId BadMetadata UnknownType BufferCount ChildCount
        ChildMismatch
    )
}

impl FastLanesError {
    /// The number of the error.
    pub fn number(self) -> u8
        ensures { result ≡ number_of self }
    {
        self as u8
    }
}

impl From<AllocError> for FastLanesError {
    ghost from_gives = { λ _ e. e ≡ OutOfMemory };

    fn from(_e: AllocError) -> FastLanesError {
        FastLanesError::OutOfMemory
    }
}

impl<T: Drop> From<AllocFailed<T>> for FastLanesError {
    ghost from_gives = { λ _ e. e ≡ OutOfMemory };

    fn from(_e: AllocFailed<T>) -> FastLanesError {
        FastLanesError::OutOfMemory
    }
}
