//! Arrays of one value.

mod compute;

ghost use Rattle.std.specs.Prelude.{◌≡◌, ◌-◌, ◌≤◌, ◌<◌, length, Some, Ok, IfSome, IfNone, option_map};
ghost use Rattle.fl_types.specs.Types.{integer_type, nullability_in};
ghost use Rattle.fl_types.specs.Values.{scalar_parts, integer_of, ptype_of_value};
ghost use Rattle.fl_types.specs.declared.dtype.Nullability.TheVariants.{Nullable};
ghost use Rattle.fl_column.specs.Columns.{column_of_constant, column_of_primitive, new_constant, validity_of_constant};
ghost use Rattle.fl_column.specs.Operations.{slice_of};
ghost use Rattle.fl_column.specs.Queries.{scalar_in};
ghost use Rattle.fl_types.specs.Refusals.{Answers};

use crate::constant::compute::{constant_of, zero_of};
use crate::primitive::PrimitiveArray;
use fl_types::{DType, FastLanesError, PType, PValue, Scalar, Validity};
use std::alloc::Global;
use std::marker::Model;

/// A constant array: an integer or a null, repeated.
#[derive(Clone, Debug, Drop)]
pub struct ConstantArray {
    scalar: Scalar,
    len: usize,
}

impl Model for ConstantArray {
    ghost use Rattle.std.specs.Prelude.{IsTrue};
    ghost use Rattle.fl_types.specs.Types.{is_integer};
    ghost use Rattle.fl_types.specs.Values.{scalar_parts};
    ghost use Rattle.fl_column.specs.Columns.{ConstantParts};

    ghost Value = { ConstantParts };

    ghost view = { λ a. record { scalar = scalar_parts a.scalar; len = a.len } };

    ghost invariant = { λ a. IsTrue (is_integer (scalar_parts a.scalar).dtype) };
}

impl ConstantArray {
    /// A scalar, `len` times.
    ///
    /// # Errors
    /// `NotInteger` if the scalar is a boolean or the null of the boolean type.
    pub fn new(scalar: Scalar, len: usize) -> Result<ConstantArray, FastLanesError>
        ensures { result ≡ new_constant (scalar_parts scalar) len }
    {
        match scalar.dtype() {
            DType::Primitive(_, _) => Ok(ConstantArray { scalar, len }),
            DType::Bool(_) => Err(FastLanesError::NotInteger),
        }
    }

    /// The number of items.
    #[tactic(auto, using(crate::proofs::ItemLaws::parts_of_constant))]
    pub fn len(&self) -> usize
        ensures constant_items { result ≡ self.now.len }
        ensures items { result ≡ length (column_of_constant self.now).items }
    {
        self.len
    }

    /// The scalar.
    pub fn scalar(&self) -> Scalar
        ensures { scalar_parts result ≡ self.now.scalar }
    {
        self.scalar
    }

    /// The type of the column.
    pub fn dtype(&self) -> DType
        ensures { result ≡ (column_of_constant self.now).dtype }
    {
        self.scalar.dtype()
    }

    /// The integer type.
    pub fn ptype(&self) -> PType
        ensures { integer_type (column_of_constant self.now).dtype ≡ Some result }
    {
        match self.scalar {
            Scalar::Integer(value, _) => value.ptype(),
            Scalar::NullInteger(ptype) => ptype,
            _ => unreachable!(),
        }
    }

    /// The integer, or `None` for a null.
    pub fn value(&self) -> Option<PValue>
        ensures value { option_map integer_of result ≡ self.now.scalar.value }
        ensures typed { IfSome result (λ v. integer_type self.now.scalar.dtype ≡ Some (ptype_of_value v)) }
        ensures null { IfNone result (nullability_in self.now.scalar.dtype ≡ Nullable) }
    {
        match self.scalar {
            Scalar::Integer(value, _) => Some(value),
            Scalar::NullInteger(_) => None,
            _ => unreachable!(),
        }
    }

    /// Which items are valid: all, or none.
    pub fn validity(&self) -> Validity
        ensures { result ≡ validity_of_constant self.now.scalar }
    {
        if self.scalar.is_null() {
            return Validity::AllInvalid;
        }
        Validity::from(self.scalar.dtype().nullability())
    }

    /// The item at an index, with the array's type.
    pub fn scalar_at(&self, i: usize) -> Scalar
        requires { i < length (column_of_constant self.now).items }
        ensures { scalar_parts result ≡ scalar_in (column_of_constant self.now) i }
    {
        self.scalar
    }

    /// The items of `start..end`.
    #[tactic(auto, using(crate::proofs::ItemLaws::parts_of_constant))]
    pub fn slice(&self, start: usize, end: usize) -> ConstantArray
        requires order { start ≤ end }
        requires range { end ≤ length (column_of_constant self.now).items }
        ensures constant_items { result ≡ record { scalar = self.now.scalar; len = end - start } }
        ensures column { column_of_constant result ≡ slice_of start end (column_of_constant self.now) }
    {
        ConstantArray {
            scalar: self.scalar,
            len: end - start,
        }
    }

    /// The items in a primitive array.
    #[tactic(auto, using(crate::proofs::ItemLaws::constant_items))]
    pub fn decode(&self, alloc: Global) -> Result<PrimitiveArray, FastLanesError>
        ensures { Answers column_of_primitive result (Ok (column_of_constant self.now)) }
    {
        let len = self.len;
        match self.scalar {
            Scalar::Integer(value, nullability) => {
                constant_of(alloc, value, len, Validity::from(nullability))
            }
            Scalar::NullInteger(ptype) => {
                constant_of(alloc, zero_of(ptype), len, Validity::AllInvalid)
            }
            _ => unreachable!(),
        }
    }

    /// The same scalar, `len` times.
    pub(crate) fn with_len(&self, len: usize) -> ConstantArray
        ensures { result ≡ record { scalar = self.now.scalar; len = len } }
    {
        ConstantArray {
            scalar: self.scalar,
            len,
        }
    }

    /// A copy, which allocates nothing.
    pub fn try_clone(&self) -> ConstantArray
        ensures { result ≡ self.now }
    {
        self.with_len(self.len)
    }
}
