//! The values of integer types in nodes.

ghost use Rattle.std.specs.Prelude.{◌≡◌};
ghost use Rattle.fl_types.specs.Integers.{FitsIn};
ghost use Rattle.fl_types.specs.Values.{integer_of, ptype_of_value};

use fl_column::{PType, PValue};

/// An integer as a value of a type.
pub fn value_of(ptype: PType, integer: i128) -> PValue
    requires { FitsIn ptype integer }
    ensures value { integer_of result ≡ integer }
    ensures typed { ptype_of_value result ≡ ptype }
{
    match ptype {
        PType::U8 => PValue::U8(integer as u8),
        PType::U16 => PValue::U16(integer as u16),
        PType::U32 => PValue::U32(integer as u32),
        PType::U64 => PValue::U64(integer as u64),
        PType::I8 => PValue::I8(integer as i8),
        PType::I16 => PValue::I16(integer as i16),
        PType::I32 => PValue::I32(integer as i32),
        PType::I64 => PValue::I64(integer as i64),
    }
}
