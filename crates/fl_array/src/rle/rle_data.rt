//! The data of a run-length encoded array besides its children.

ghost use Rattle.std.specs.Prelude.{◌≡◌, ◌<◌, IfOk, Ok, Some};
ghost use Rattle.fl_types.specs.Refusals.{Answers};
ghost use Rattle.fl_column.specs.Columns.{column_of_primitive};
ghost use Rattle.fl_array.specs.RLEArrays.{encoded_rle, tree_of_rle};
ghost use Rattle.fl_array.specs.Trees.{column};
ghost use Rattle.fl_array.specs.OffsetData.{new_offset, offset_text};

use crate::rle::{RLE, RLEArray};
use fastlanes::FL_CHUNK_SIZE;
use fl_column::{FastLanesError, PrimitiveArray};
use std::alloc::Global;
use std::fmt;
use std::marker::Model;

/// The data of a run-length encoded array besides its children: the position of its first item in its first chunk, below
/// 1024.
#[derive(Clone, Copy, Debug, PartialEq, Eq, Hash)]
pub struct RLEData {
    offset: usize,
}

impl Model for RLEData {
    ghost use Rattle.std.specs.Prelude.{◌<◌, ℕ};

    ghost Value = { ℕ };

    ghost view = { λ d. d.offset };

    ghost inverse = { λ offset. record { offset = offset } };

    ghost invariant = { λ d. d.offset < 1024 };
}

impl RLEData {
    /// The data of this offset.
    ///
    /// # Errors
    /// `OffsetTooLarge` if it is 1024 or more.
    pub fn try_new(offset: usize) -> Result<RLEData, FastLanesError>
        ensures { result ≡ new_offset offset }
    {
        if offset >= FL_CHUNK_SIZE {
            Err(FastLanesError::OffsetTooLarge)
        } else {
            Ok(RLEData { offset })
        }
    }

    /// The data of this offset, which is below 1024.
    pub fn new_unchecked(offset: usize) -> RLEData
        requires { offset < 1024 }
        ensures { result ≡ offset }
    {
        RLEData { offset }
    }

    /// The run-length encoded array of a primitive one, as by `RLE::encode`.
    pub fn encode(alloc: Global, array: &PrimitiveArray) -> Result<RLEArray, FastLanesError>
        ensures parts { Answers (λ a. a) result (Ok (encoded_rle array.now)) }
        ensures column { IfOk result (λ a. column (tree_of_rle a) ≡ column_of_primitive array.now) }
    {
        RLE::encode(alloc, array)
    }

    /// The position of the first item in the first chunk, below 1024.
    pub fn offset(&self) -> usize
        ensures offset { result ≡ self.now }
        ensures range { result < 1024 }
    {
        self.offset
    }
}

/// The offset: `offset: 7`.
impl fmt::Display for RLEData {
    ghost output = { λ offset. Some (offset_text offset) };

    fn fmt<W: fmt::Write>(&self, f: &mut fmt::Formatter<W>) -> fmt::Result {
        let offset = self.offset;
        write!(f, "offset: {offset}")
    }
}
