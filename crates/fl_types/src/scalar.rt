//! Single values.

ghost use Rattle.std.specs.Prelude.{◌≡◌, ◌↔◌, IsTrue, IsSome, None, Some, option_map, IfSome, is_none};
ghost use Rattle.fl_types.specs.declared.dtype.DType.TheVariants.{Primitive, Bool};
ghost use Rattle.fl_types.specs.declared.dtype.Nullability.TheVariants.{Nullable};
ghost use Rattle.fl_types.specs.Types.{integer_type, with_nullability};
ghost use Rattle.fl_types.specs.Values.{scalar_parts, integer_of, ptype_of_value, bool_number};

use crate::dtype::{DType, Nullability, PType};

/// An integer of one of the types.
#[derive(Clone, Copy, Debug, PartialEq, Eq, Hash)]
pub enum PValue {
    /// Of 8 bits, unsigned.
    U8(u8),
    /// Of 16 bits, unsigned.
    U16(u16),
    /// Of 32 bits, unsigned.
    U32(u32),
    /// Of 64 bits, unsigned.
    U64(u64),
    /// Of 8 bits, signed.
    I8(i8),
    /// Of 16 bits, signed.
    I16(i16),
    /// Of 32 bits, signed.
    I32(i32),
    /// Of 64 bits, signed.
    I64(i64),
}

impl PValue {
    /// The type of the value.
    pub fn ptype(self) -> PType
        ensures { result ≡ ptype_of_value self }
    {
        match self {
            PValue::U8(_) => PType::U8,
            PValue::U16(_) => PType::U16,
            PValue::U32(_) => PType::U32,
            PValue::U64(_) => PType::U64,
            PValue::I8(_) => PType::I8,
            PValue::I16(_) => PType::I16,
            PValue::I32(_) => PType::I32,
            PValue::I64(_) => PType::I64,
        }
    }

    /// The integer, as an `i128`, which holds those of the eight types.
    pub fn as_i128(self) -> i128
        ensures { result ≡ integer_of self }
    {
        match self {
            PValue::U8(x) => x as i128,
            PValue::U16(x) => x as i128,
            PValue::U32(x) => x as i128,
            PValue::U64(x) => x as i128,
            PValue::I8(x) => x as i128,
            PValue::I16(x) => x as i128,
            PValue::I32(x) => x as i128,
            PValue::I64(x) => x as i128,
        }
    }
}

/// A value of a type, or a null. The type of a null is nullable.
#[derive(Clone, Copy, Debug, PartialEq, Eq, Hash)]
pub enum Scalar {
    /// An integer, and whether its type is nullable.
    Integer(PValue, Nullability),
    /// A boolean, and whether its type is nullable.
    Bool(bool, Nullability),
    /// A null of this integer type.
    NullInteger(PType),
    /// A null of the boolean type.
    NullBool,
}

impl Scalar {
    /// An integer.
    pub fn primitive(value: PValue, nullability: Nullability) -> Scalar
        ensures { scalar_parts result ≡ record { dtype = Primitive (ptype_of_value value) nullability; value = Some (integer_of value) } }
    {
        Scalar::Integer(value, nullability)
    }

    /// A boolean.
    pub fn bool(value: bool, nullability: Nullability) -> Scalar
        ensures { scalar_parts result ≡ record { dtype = Bool nullability; value = Some (bool_number value) } }
    {
        Scalar::Bool(value, nullability)
    }

    /// A null of this type, made nullable.
    pub fn null(dtype: DType) -> Scalar
        ensures { scalar_parts result ≡ record { dtype = with_nullability Nullable dtype; value = None } }
    {
        match dtype {
            DType::Primitive(ptype, _) => Scalar::NullInteger(ptype),
            DType::Bool(_) => Scalar::NullBool,
        }
    }

    /// The type.
    pub fn dtype(self) -> DType
        ensures { result ≡ (scalar_parts self).dtype }
    {
        match self {
            Scalar::Integer(value, nullability) => DType::Primitive(value.ptype(), nullability),
            Scalar::Bool(_, nullability) => DType::Bool(nullability),
            Scalar::NullInteger(ptype) => DType::Primitive(ptype, Nullability::Nullable),
            Scalar::NullBool => DType::Bool(Nullability::Nullable),
        }
    }

    /// Whether it is a null.
    pub fn is_null(self) -> bool
        ensures { result ≡ is_none (scalar_parts self).value }
    {
        matches!(self, Scalar::NullInteger(_) | Scalar::NullBool)
    }

    /// The integer, or `None` for a null or a boolean.
    pub fn as_pvalue(self) -> Option<PValue>
        ensures value { IfSome result (λ v. (scalar_parts self).value ≡ Some (integer_of v)) }
        ensures typed { IfSome result (λ v. integer_type (scalar_parts self).dtype ≡ Some (ptype_of_value v)) }
        ensures found { IsSome result ↔ (IsSome (integer_type (scalar_parts self).dtype) × IsSome (scalar_parts self).value) }
    {
        match self {
            Scalar::Integer(value, _) => Some(value),
            _ => None,
        }
    }

    /// The boolean, or `None` for a null or an integer.
    pub fn as_bool(self) -> Option<bool>
        ensures value { IfSome result (λ b. (scalar_parts self).value ≡ Some (bool_number b)) }
        ensures found { IsSome result ↔ ((integer_type (scalar_parts self).dtype ≡ None) × IsSome (scalar_parts self).value) }
    {
        match self {
            Scalar::Bool(value, _) => Some(value),
            _ => None,
        }
    }
}
