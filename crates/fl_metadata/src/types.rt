//! The numbers of integer types.

ghost use Rattle.std.specs.Prelude.{◌≡◌, option_map};
ghost use Rattle.fl_types.specs.Integers.{code_of};
ghost use Rattle.fl_metadata.specs.Messages.{type_numbered, optional_type_of};

use fl_types::{FastLanesError, PType};

/// The number of a type: U8 to U64 are 0 to 3, I8 to I64 are 4 to 7.
pub fn type_number(ptype: PType) -> u64
    ensures { result ≡ code_of ptype }
{
    match ptype {
        PType::U8 => 0,
        PType::U16 => 1,
        PType::U32 => 2,
        PType::U64 => 3,
        PType::I8 => 4,
        PType::I16 => 5,
        PType::I32 => 6,
        PType::I64 => 7,
    }
}

/// The type of a number: `UnknownType` above 7.
pub fn type_of_number(number: u64) -> Result<PType, FastLanesError>
    ensures { result ≡ type_numbered number }
{
    match number {
        0 => Ok(PType::U8),
        1 => Ok(PType::U16),
        2 => Ok(PType::U32),
        3 => Ok(PType::U64),
        4 => Ok(PType::I8),
        5 => Ok(PType::I16),
        6 => Ok(PType::I32),
        7 => Ok(PType::I64),
        _ => Err(FastLanesError::UnknownType),
    }
}

/// The type that a number stands for, if there is one.
pub(super) fn optional_type_of_number(number: Option<u64>) -> Result<Option<PType>, FastLanesError>
    ensures { result ≡ optional_type_of number }
{
    match number {
        None => Ok(None),
        Some(number) => Ok(Some(type_of_number(number)?)),
    }
}

/// The number of a type, if there is one.
pub(super) fn optional_type_number(ptype: Option<PType>) -> Option<u64>
    ensures { result ≡ option_map code_of ptype }
{
    match ptype {
        None => None,
        Some(ptype) => Some(type_number(ptype)),
    }
}
