//! Plain arrays of booleans.

ghost use Rattle.std.specs.Prelude.{◌≡◌, ◌≤◌, ◌<◌, IsTrue, length, slice_index_or, None, Ok};
ghost use Rattle.fl_types.specs.declared.dtype.DType.TheVariants.{Bool};
ghost use Rattle.fl_types.specs.declared.dtype.Nullability.TheVariants.{Nullable};
ghost use Rattle.fl_types.specs.Validities.{covers};
ghost use Rattle.fl_types.specs.Values.{scalar_parts};
ghost use Rattle.fl_column.specs.Columns.{column_of_bools, new_bools, slice_bools, bools};
ghost use Rattle.fl_column.specs.Operations.{slice_of};
ghost use Rattle.fl_column.specs.Queries.{scalar_in};
ghost use Rattle.fl_types.specs.Refusals.{Answers};

use fl_types::{BitList, DType, FastLanesError, Scalar, Validity};
use std::alloc::Global;
use std::marker::Model;

/// A plain array of booleans: a boolean for each item, also under a null, and which of them are
/// valid.
#[derive(Debug)]
pub struct BoolArray {
    bits: BitList,
    validity: Validity,
}

// Written out, so that letting one go is one call in each function that owns one.
impl Drop for BoolArray {
    fn drop(self) {
        let BoolArray {
            bits: _,
            validity: _,
        } = self;
    }
}

impl Model for BoolArray {
    ghost use Rattle.std.specs.Prelude.{IsTrue, length};
    ghost use Rattle.fl_column.specs.Columns.{BoolParts};
    ghost use Rattle.fl_types.specs.Validities.{covers, covers};

    ghost Value = { BoolParts };

    ghost view = { λ a. record { bits = a.bits; validity = a.validity } };

    ghost invariant = { λ a. IsTrue (covers a.validity (length a.bits)) };
}

impl BoolArray {
    /// An array of these parts.
    ///
    /// # Errors
    /// `ValidityLength` if the validity does not have one bit for each boolean.
    pub fn new(bits: BitList, validity: Validity) -> Result<BoolArray, FastLanesError>
        ensures { result ≡ new_bools bits validity }
    {
        if validity.covers(bits.len()) {
            Ok(BoolArray { bits, validity })
        } else {
            Err(FastLanesError::ValidityLength)
        }
    }

    /// The number of items.
    #[tactic(auto, using(crate::proofs::ItemLaws::lengths, crate::proofs::ItemLaws::mapped))]
    pub fn len(&self) -> usize
        ensures bits { result ≡ length self.now.bits }
        ensures items { result ≡ length (column_of_bools self.now).items }
    {
        // For the proof: the validity covers the booleans.
        let _ = &self.validity;
        self.bits.len()
    }

    /// The type of the column.
    pub fn dtype(&self) -> DType
        ensures { result ≡ (column_of_bools self.now).dtype }
    {
        DType::Bool(self.validity.nullability())
    }

    /// Which items are valid.
    pub fn validity(&self) -> &Validity
        ensures value { result.now ≡ self.now.validity }
        ensures covers { IsTrue (covers self.now.validity (length self.now.bits)) }
    {
        // For the proof: the validity covers the booleans.
        let _ = &self.bits;
        &self.validity
    }

    /// The booleans, also those under a null.
    pub fn bits(&self) -> &BitList
        ensures { result.now ≡ self.now.bits }
    {
        &self.bits
    }

    /// The booleans as the caller's own, also those under a null.
    pub fn into_bits(self) -> BitList
        ensures { result ≡ self.bits }
    {
        let BoolArray { bits, validity: _ } = self;
        bits
    }

    /// The item at an index, or `None` for a null.
    pub fn get(&self, i: usize) -> Option<bool>
        requires { i < length self.now.bits }
        ensures { result ≡ slice_index_or (bools self.now) i None }
    {
        if self.validity.is_valid(i, self.bits.len()) {
            Some(self.bits.get(i))
        } else {
            None
        }
    }

    /// The item at an index, with the array's type.
    pub fn scalar_at(&self, i: usize) -> Scalar
        requires { i < length (column_of_bools self.now).items }
        ensures { scalar_parts result ≡ scalar_in (column_of_bools self.now) i }
    {
        let len = self.len();
        prove!(i < len);
        match self.get(i) {
            None => Scalar::null(self.dtype()),
            Some(value) => Scalar::bool(value, self.validity.nullability()),
        }
    }

    /// The items of `start..end`.
    #[tactic(auto, using(crate::proofs::ItemLaws::slices, crate::proofs::ItemLaws::mapped))]
    pub fn slice(
        &self,
        alloc: Global,
        start: usize,
        end: usize,
    ) -> Result<BoolArray, FastLanesError>
        requires order { start ≤ end }
        requires range { end ≤ length (column_of_bools self.now).items }
        ensures plain { Answers (λ a. a) result (Ok (slice_bools start end self.now)) }
        ensures column { Answers column_of_bools result (Ok (slice_of start end (column_of_bools self.now))) }
    {
        let len = self.len();
        prove!(end <= len);
        let validity = self.validity.slice(alloc, start, end, len)?;
        let bits = self.bits.slice(alloc, start, end)?;
        Ok(BoolArray { bits, validity })
    }

    /// The same items in a nullable array.
    pub fn into_nullable(self) -> BoolArray
        ensures bits { result.bits ≡ self.bits }
        ensures column { column_of_bools result ≡ record { dtype = Bool Nullable; items = (column_of_bools self).items } }
    {
        let BoolArray { bits, validity } = self;
        let validity = match validity {
            Validity::NonNullable => Validity::AllValid,
            Validity::AllValid => Validity::AllValid,
            Validity::AllInvalid => Validity::AllInvalid,
            Validity::Array(valid) => Validity::Array(valid),
        };
        BoolArray { bits, validity }
    }

    /// A copy.
    pub fn try_clone(&self, alloc: Global) -> Result<BoolArray, FastLanesError>
        ensures { Answers (λ a. a) result (Ok self.now) }
    {
        let validity = self.validity.try_clone(alloc)?;
        let bits = self.bits.try_clone(alloc)?;
        Ok(BoolArray { bits, validity })
    }
}
