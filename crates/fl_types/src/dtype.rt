//! Types of columns.

ghost use Rattle.std.specs.Prelude.{◌≡◌};
ghost use Rattle.fl_types.specs.Integers.{bits_of_type, is_unsigned, smallest_type};
ghost use Rattle.fl_types.specs.Types.{either_nullable, is_index_type, nullability_in, integer_type, with_nullability};

/// An integer type.
#[derive(Clone, Copy, Debug, PartialEq, Eq, Hash)]
pub enum PType {
    /// 8 bits, unsigned.
    U8,
    /// 16 bits, unsigned.
    U16,
    /// 32 bits, unsigned.
    U32,
    /// 64 bits, unsigned.
    U64,
    /// 8 bits, signed.
    I8,
    /// 16 bits, signed.
    I16,
    /// 32 bits, signed.
    I32,
    /// 64 bits, signed.
    I64,
}

impl PType {
    /// The number of bits of a value.
    pub fn bit_width(self) -> usize
        ensures { result ≡ bits_of_type self }
    {
        match self {
            PType::U8 | PType::I8 => 8,
            PType::U16 | PType::I16 => 16,
            PType::U32 | PType::I32 => 32,
            PType::U64 | PType::I64 => 64,
        }
    }

    /// The smallest unsigned type that holds a value.
    pub fn min_unsigned_ptype_for_value(value: u64) -> PType
        ensures { result ≡ smallest_type value }
    {
        if value < 1 << 8 {
            PType::U8
        } else if value < 1 << 16 {
            PType::U16
        } else if value < 1 << 32 {
            PType::U32
        } else {
            PType::U64
        }
    }

    /// Whether no value is negative.
    pub fn is_unsigned(self) -> bool
        ensures { result ≡ is_unsigned self }
    {
        matches!(self, PType::U8 | PType::U16 | PType::U32 | PType::U64)
    }
}

/// Whether items of a column may be null.
#[derive(Clone, Copy, Debug, PartialEq, Eq, Hash)]
pub enum Nullability {
    /// No item is null.
    NonNullable,
    /// Items may be null.
    Nullable,
}

impl Nullability {
    /// Nullable if one of the two is.
    pub fn or(self, other: Nullability) -> Nullability
        ensures { result ≡ either_nullable self other }
    {
        match self {
            Nullability::NonNullable => other,
            Nullability::Nullable => Nullability::Nullable,
        }
    }
}

/// The type of a column.
#[derive(Clone, Copy, Debug, PartialEq, Eq, Hash)]
pub enum DType {
    /// Integers of a type.
    Primitive(PType, Nullability),
    /// Booleans.
    Bool(Nullability),
}

impl DType {
    /// Whether items may be null.
    pub fn nullability(self) -> Nullability
        ensures { result ≡ nullability_in self }
    {
        match self {
            DType::Primitive(_, nullability) => nullability,
            DType::Bool(nullability) => nullability,
        }
    }

    /// The integer type, or `None` for booleans.
    pub fn ptype(self) -> Option<PType>
        ensures { result ≡ integer_type self }
    {
        match self {
            DType::Primitive(ptype, _) => Some(ptype),
            DType::Bool(_) => None,
        }
    }

    /// The same type with this nullability.
    pub fn with_nullability(self, nullability: Nullability) -> DType
        ensures { result ≡ with_nullability nullability self }
    {
        match self {
            DType::Primitive(ptype, _) => DType::Primitive(ptype, nullability),
            DType::Bool(_) => DType::Bool(nullability),
        }
    }

    /// Whether it is a non-nullable unsigned integer type, as that of positions and lengths.
    pub fn is_index_type(self) -> bool
        ensures { result ≡ is_index_type self }
    {
        match self {
            DType::Primitive(ptype, Nullability::NonNullable) => ptype.is_unsigned(),
            _ => false,
        }
    }
}
