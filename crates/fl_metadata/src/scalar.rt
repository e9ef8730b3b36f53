//! The bytes of a scalar.

ghost use Rattle.std.specs.Prelude.{◌≡◌, ◌<◌, ◌≤◌, ◌^◌, Option, option_map, IfOk, IfSome, Ok};
ghost use Rattle.std.specs.Option.{ForSome};
ghost use Rattle.fl_types.specs.Refusals.{Answers};
ghost use Rattle.fl_types.specs.Integers.{FitsIn};
ghost use Rattle.fl_metadata.specs.Schemas.{values_of, seen_values, Gives};
ghost use Rattle.fl_metadata.specs.WrittenText.{message_text};
ghost use Rattle.fl_metadata.specs.Scalars.{zigzag as zigzag_of, unzigzag as unzigzag_of, scalar_tag as tag_of, scalar_limit as limit_of, scalar_number as number_of, scalar_value as value_of, scalar_schema, scalar_of, scalar_slots};

use super::schema::{Kind, Values};
use super::writing::{Slot, write};
use fl_types::{FastLanesError, PType};
use std::alloc::Global;

/// The zigzag number of a signed number.
fn zigzag(value: i64) -> u64
    ensures { result ≡ zigzag_of value }
{
    if value < 0 {
        2 * !value as u64 + 1
    } else {
        2 * value as u64
    }
}

/// The signed number of a zigzag number.
fn unzigzag(number: u64) -> i64
    ensures { result ≡ unzigzag_of number }
{
    let half = (number / 2) as i64;
    if number % 2 == 0 { half } else { !half }
}

/// The greatest number that is written of a type's value.
fn scalar_limit(ptype: PType) -> u64
    ensures { result ≡ limit_of ptype }
{
    match ptype {
        PType::U8 | PType::I8 => 0xff,
        PType::U16 | PType::I16 => 0xffff,
        PType::U32 | PType::I32 => 0xffff_ffff,
        PType::U64 | PType::I64 => u64::MAX,
    }
}

/// The tag under which a type's value is written.
fn scalar_tag(ptype: PType) -> u32
    ensures { result ≡ tag_of ptype }
{
    if ptype.is_unsigned() { 4 } else { 3 }
}

/// The number that is written of a type's value.
fn scalar_number(ptype: PType, value: i128) -> u64
    requires { FitsIn ptype value }
    ensures { result ≡ number_of ptype value }
{
    if ptype.is_unsigned() {
        value as u64
    } else {
        zigzag(value as i64)
    }
}

/// The value of a type that a number says.
fn scalar_value(ptype: PType, number: u64) -> i128
    ensures { result ≡ value_of ptype number }
{
    if ptype.is_unsigned() {
        i128::from(number)
    } else {
        i128::from(unzigzag(number))
    }
}

/// The values of a scalar's bytes.
fn scalar_values(ptype: PType, bytes: &[u8]) -> Result<Values<'_>, FastLanesError>
    ensures { Gives seen_values result (values_of (scalar_schema ptype) bytes.now) }
{
    let number = Kind::Number(scalar_limit(ptype));
    let unknown = Kind::Unknown;
    if ptype.is_unsigned() {
        Values::read(&[unknown, unknown, unknown, unknown, number], bytes)
    } else {
        Values::read(&[unknown, unknown, unknown, number], bytes)
    }
}

/// Reads a scalar of a type; `None` is null. `BadMetadata` if the bytes are no message, and where the
/// number does not fit the type.
#[tactic(auto, unfolding(crate::specs::Scalars::scalar_of))]
pub fn decode_scalar(ptype: PType, bytes: &[u8]) -> Result<Option<i128>, FastLanesError>
    ensures { result ≡ scalar_of ptype bytes.now }
{
    let values = scalar_values(ptype, bytes)?;
    match values.optional_number(scalar_tag(ptype) as usize) {
        None => Ok(None),
        Some(number) => Ok(Some(scalar_value(ptype, number))),
    }
}

/// Writes a scalar of a type; `None` is null, which takes no bytes.
pub fn encode_scalar(
    alloc: Global,
    ptype: PType,
    value: Option<i128>,
) -> Result<Vec<u8>, FastLanesError>
    requires { ForSome value (FitsIn ptype) }
    ensures { Answers (λ v. v.items) result (Ok (message_text (scalar_slots ptype value))) }
{
    let number = match value {
        None => None,
        Some(value) => Some(scalar_number(ptype, value)),
    };
    write(alloc, &[Slot::stated(scalar_tag(ptype), number)])
}
