//! The data of a delta array besides its children.

ghost use Rattle.std.specs.Prelude.{◌≡◌, ◌<◌, Some};
ghost use Rattle.fl_array.specs.OffsetData.{new_offset, offset_text};

use fastlanes::FL_CHUNK_SIZE;
use fl_column::FastLanesError;
use std::fmt;
use std::marker::Model;

/// The data of a delta array besides its children: the position of its first item in its first block, below
/// 1024.
#[derive(Clone, Copy, Debug, PartialEq, Eq, Hash)]
pub struct DeltaData {
    offset: usize,
}

impl Model for DeltaData {
    ghost use Rattle.std.specs.Prelude.{◌<◌, ℕ};

    ghost Value = { ℕ };

    ghost view = { λ d. d.offset };

    ghost inverse = { λ offset. record { offset = offset } };

    ghost invariant = { λ d. d.offset < 1024 };
}

impl DeltaData {
    /// The data of this offset.
    ///
    /// # Errors
    /// `OffsetTooLarge` if it is 1024 or more.
    pub fn try_new(offset: usize) -> Result<DeltaData, FastLanesError>
        ensures { result ≡ new_offset offset }
    {
        if offset >= FL_CHUNK_SIZE {
            Err(FastLanesError::OffsetTooLarge)
        } else {
            Ok(DeltaData { offset })
        }
    }

    /// The data of this offset, which is below 1024.
    pub(crate) fn new_unchecked(offset: usize) -> DeltaData
        requires { offset < 1024 }
        ensures { result ≡ offset }
    {
        DeltaData { offset }
    }

    /// The position of the first item in the first block, below 1024.
    pub fn offset(&self) -> usize
        ensures offset { result ≡ self.now }
        ensures range { result < 1024 }
    {
        self.offset
    }
}

/// The offset: `offset: 7`.
impl fmt::Display for DeltaData {
    ghost output = { λ offset. Some (offset_text offset) };

    fn fmt<W: fmt::Write>(&self, f: &mut fmt::Formatter<W>) -> fmt::Result {
        let offset = self.offset;
        write!(f, "offset: {offset}")
    }
}
