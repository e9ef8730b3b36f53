//! Writing the fields of a row.

ghost use Rattle.std.specs.Prelude.{◌≡◌, ◌<◌, ◌*◌, ◌+◌, ◌++◌, length, map, option_map, OnOk, Ok};
ghost use Rattle.fl_types.specs.Refusals.{Answers};
ghost use Rattle.fl_metadata.specs.WireReading.{seen};
ghost use Rattle.fl_metadata.specs.WrittenText.{wire_of, varint_text, field_text, payload_text, payload_text_at, message_text, number as number_slot, stated as stated_slot, message as message_slot, seen_slot};

use super::wire::Value;
use fl_types::FastLanesError;
use std::alloc::{AllocError, Global};

/// A tag, and what is written under it, if anything.
#[derive(Clone, Copy)]
pub struct Slot<'a> {
    tag: u32,
    value: Option<Value<'a>>,
}

impl<'a> Slot<'a> {
    /// A number, which is written unless it is 0.
    pub fn number(tag: u32, number: u64) -> Slot<'a>
        ensures { seen_slot result ≡ number_slot tag number }
    {
        let value = if number == 0 {
            None
        } else {
            Some(Value::Number(number))
        };
        Slot { tag, value }
    }

    /// A number that is written if it is present, even if it is 0.
    pub fn stated(tag: u32, number: Option<u64>) -> Slot<'a>
        ensures { seen_slot result ≡ stated_slot tag number }
    {
        let value = match number {
            None => None,
            Some(number) => Some(Value::Number(number)),
        };
        Slot { tag, value }
    }

    /// A message that is written if it is present.
    pub fn message(tag: u32, text: &'a Option<Vec<u8>>) -> Slot<'a>
        ensures { seen_slot result ≡ message_slot tag (option_map (λ held. held.items) text.now) }
    {
        let value = match text {
            None => None,
            Some(held) => Some(Value::Bytes(held)),
        };
        Slot { tag, value }
    }
}

/// Adds the shortest varint of a number.
fn push_varint(out: &mut Vec<u8>, number: u64) -> Result<(), AllocError>
    ensures { OnOk result (out.new.items ≡ out.old.items ++ varint_text number) }
{
    let mut left = number;
    for _ in 0..10u32 {
        if left < 128 {
            out.push(left as u8)?;
            return Ok(());
        }
        out.push((left % 128) as u8 + 128)?;
        left /= 128;
    }
    Ok(())
}

/// The wire type that the key of a value names.
fn wire(value: Value<'_>) -> u64
    ensures { result ≡ wire_of (seen value.entry) }
{
    match value {
        Value::Number(_) => 0,
        Value::Eight(_) => 1,
        Value::Bytes(_) => 2,
        Value::Four(_) => 5,
    }
}

/// Adds a value, as it stands behind its key.
fn push_value(out: &mut Vec<u8>, value: Value<'_>) -> Result<(), AllocError>
    ensures { OnOk result (out.new.items ≡ out.old.items ++ payload_text (seen value.entry)) }
{
    match value {
        Value::Number(number) => push_varint(out, number),
        Value::Eight(held) | Value::Four(held) => out.extend_from_slice(held),
        Value::Bytes(held) => {
            push_varint(out, held.len() as u64)?;
            out.extend_from_slice(held)
        }
    }
}

/// Adds a field: its key, and its value.
#[tactic(auto, unfolding(crate::specs::WrittenText::field_text))]
fn push_field(out: &mut Vec<u8>, tag: u32, value: Value<'_>) -> Result<(), AllocError>
    ensures { OnOk result (out.new.items ≡ out.old.items ++ field_text tag (seen value.entry)) }
{
    push_varint(out, u64::from(tag) * 8 + wire(value))?;
    push_value(out, value)
}

/// Adds what is written under a tag.
fn push_slot(out: &mut Vec<u8>, slot: &Slot<'_>) -> Result<(), AllocError>
    ensures { OnOk result (out.new.items ≡ out.old.items ++ payload_text_at slot.now.tag (option_map seen slot.now.value)) }
{
    match slot.value {
        None => Ok(()),
        Some(value) => push_field(out, slot.tag, value),
    }
}

/// Writes a message, slot by slot.
pub fn write(alloc: Global, slots: &[Slot<'_>]) -> Result<Vec<u8>, FastLanesError>
    ensures { Answers (λ v. v.items) result (Ok (message_text (map seen_slot slots.now))) }
{
    let mut out = Vec::new(alloc);
    for slot in slots {
        push_slot(&mut out, slot)?;
    }
    Ok(out)
}
