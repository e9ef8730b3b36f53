//! Which items of an array are not null.

ghost use Rattle.std.specs.Prelude.{◌≡◌, ◌<◌, ◌≤◌, IsTrue, Ok};
ghost use Rattle.fl_types.specs.Refusals.{Answers};
ghost use Rattle.fl_types.specs.Validities.{covers, full_validity, is_valid_at, nullability_of, validity_between};

use crate::bits::BitList;
use crate::dtype::Nullability;
use crate::error::FastLanesError;
use std::alloc::Global;

/// Which items of an array are not null, and whether the array may have nulls.
#[derive(Debug, PartialEq, Eq, Drop)]
pub enum Validity {
    /// No item is null, and none may be.
    NonNullable,
    /// Items may be null, and none is.
    AllValid,
    /// Every item is null.
    AllInvalid,
    /// The items whose bits are set are not null.
    Array(BitList),
}

/// The validity of an array without nulls.
impl From<Nullability> for Validity {
    ghost from_gives = { λ nullability validity. validity ≡ full_validity nullability };

    fn from(nullability: Nullability) -> Validity {
        match nullability {
            Nullability::NonNullable => Validity::NonNullable,
            Nullability::Nullable => Validity::AllValid,
        }
    }
}

impl Validity {
    /// Whether items may be null.
    pub fn nullability(&self) -> Nullability
        ensures { result ≡ nullability_of self.now }
    {
        match self {
            Validity::NonNullable => Nullability::NonNullable,
            _ => Nullability::Nullable,
        }
    }

    /// A copy.
    pub fn try_clone(&self, alloc: Global) -> Result<Validity, FastLanesError>
        ensures { Answers (λ v. v) result (Ok self.now) }
    {
        match self {
            Validity::NonNullable => Ok(Validity::NonNullable),
            Validity::AllValid => Ok(Validity::AllValid),
            Validity::AllInvalid => Ok(Validity::AllInvalid),
            Validity::Array(bits) => Ok(Validity::Array(bits.try_clone(alloc)?)),
        }
    }

    /// Whether it fits this many items: a list has one bit for each, the other forms fit any number.
    pub fn covers(&self, len: usize) -> bool
        ensures { result ≡ covers self.now len }
    {
        match self {
            Validity::Array(bits) => bits.len() == len,
            _ => true,
        }
    }

    /// Whether the item at an index is not null.
    pub fn is_valid(&self, i: usize, len: usize) -> bool
        requires covers { IsTrue (covers self.now len) }
        requires range { i < len }
        ensures { result ≡ is_valid_at self.now i }
    {
        match self {
            Validity::NonNullable => true,
            Validity::AllValid => true,
            Validity::AllInvalid => false,
            Validity::Array(bits) => bits.get(i),
        }
    }

    /// The validity of the items of `start..end`.
    pub fn slice(
        &self,
        alloc: Global,
        start: usize,
        end: usize,
        len: usize,
    ) -> Result<Validity, FastLanesError>
        requires order { start ≤ end }
        requires range { end ≤ len }
        requires covers { IsTrue (covers self.now len) }
        ensures { Answers (λ v. v) result (Ok (validity_between start end self.now)) }
    {
        match self {
            Validity::NonNullable => Ok(Validity::NonNullable),
            Validity::AllValid => Ok(Validity::AllValid),
            Validity::AllInvalid => Ok(Validity::AllInvalid),
            Validity::Array(bits) => Ok(Validity::Array(bits.slice(alloc, start, end)?)),
        }
    }
}
