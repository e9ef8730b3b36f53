//! Reading the values of a message by its schema.

ghost use Rattle.std.specs.Prelude.{◌≡◌, ◌<◌, ◌≤◌, ◌^◌, ℕ, List, [], ◌∷◌, length, map, Option, IfOk, option_map};
ghost use Rattle.std.specs.List.{slice_index_or};
ghost use Rattle.fl_metadata.specs.WireReading.{seen};
ghost use Rattle.fl_metadata.specs.Schemas.{kind_at, is_of_kind, is_within, are_within, values_of, seen_values, number_at, optional_number_at, message_at, Gives, KeepsLimits};

use super::wire::{Value, first_field};
use fl_types::FastLanesError;

/// The kind of value that a message has under a tag. A schema is a list of kinds, by tag; tag 0 is never written.
#[derive(Clone, Copy)]
pub enum Kind {
    /// Nothing: a field is skipped.
    Unknown,
    /// A number with its maximum.
    Number(u64),
    /// Bytes, which are a message.
    Message,
}

impl Kind {
    /// The kind of a tag.
    fn of(schema: &[Kind], tag: usize) -> Kind
        ensures { result ≡ kind_at schema.now tag }
    {
        if tag < schema.len() {
            schema[tag]
        } else {
            Kind::Unknown
        }
    }

    /// Whether a value is of the kind, however large its number.
    fn takes(self, value: &Value<'_>) -> bool
        ensures { result ≡ is_of_kind self (seen value.now) }
    {
        match (self, value) {
            (Kind::Unknown, _) => true,
            (Kind::Number(_), Value::Number(_)) => true,
            (Kind::Message, Value::Bytes(_)) => true,
            _ => false,
        }
    }

    /// Whether the last value of a tag passes no limit.
    fn allows(self, last: &Option<Value<'_>>) -> bool
        ensures { result ≡ is_within self (option_map seen last.now) }
    {
        match (self, last) {
            (Kind::Number(limit), Some(Value::Number(number))) => *number <= limit,
            _ => true,
        }
    }
}

/// One more than the greatest tag that a message here has.
const TAGS: usize = 7;

/// The last value of each tag of a message.
#[derive(Clone, Copy)]
pub struct Values<'a> {
    last: [Option<Value<'a>>; TAGS],
}

impl<'a> Values<'a> {
    /// Reads the values of a message in one pass: `BadMetadata` if the bytes are not a row of fields,
    /// if a field does not have its tag's kind, or if a last value is above its maximum.
    pub fn read(schema: &[Kind], bytes: &'a [u8]) -> Result<Values<'a>, FastLanesError>
        ensures is { Gives seen_values result (values_of schema.now bytes.now) }
        ensures within { IfOk result (λ values. KeepsLimits schema.now (seen_values values)) }
    {
        let mut last = [None; TAGS];
        let mut rest = bytes;
        while !rest.is_empty() {
            let Some((field, after)) = first_field(rest) else {
                return Err(FastLanesError::BadMetadata);
            };
            let tag = field.tag as usize;
            if !Kind::of(schema, tag).takes(&field.value) {
                return Err(FastLanesError::BadMetadata);
            }
            if tag < TAGS {
                last[tag] = Some(field.value);
            }
            rest = after;
        }
        let values = Values { last };
        if values.are_allowed(schema) {
            Ok(values)
        } else {
            Err(FastLanesError::BadMetadata)
        }
    }

    /// Whether no value passes its limit.
    fn are_allowed(&self, schema: &[Kind]) -> bool
        ensures { result ≡ are_within schema.now (seen_values self.now) }
    {
        for tag in 0..TAGS {
            if !Kind::of(schema, tag).allows(&self.last[tag]) {
                return false;
            }
        }
        true
    }

    /// The last value of a tag.
    fn last_of(&self, tag: usize) -> Option<Value<'a>>
        requires { tag < TAGS }
        ensures { option_map seen result ≡ slice_index_or (seen_values self.now) tag None }
    {
        self.last[tag]
    }

    /// The last number of a tag, if it is there.
    #[tactic(auto, unfolding(crate::specs::Schemas::optional_number_at))]
    pub fn optional_number(&self, tag: usize) -> Option<u64>
        requires { tag < TAGS }
        ensures { result ≡ optional_number_at tag (seen_values self.now) }
    {
        match self.last_of(tag) {
            Some(Value::Number(number)) => Some(number),
            _ => None,
        }
    }

    /// The last number of a tag, or 0.
    #[tactic(auto, unfolding(crate::specs::Schemas::number_at))]
    pub fn number(&self, tag: usize) -> u64
        requires { tag < TAGS }
        ensures { result ≡ number_at tag (seen_values self.now) }
    {
        self.optional_number(tag).unwrap_or(0)
    }

    /// The last number of a tag, of at most 32 bits, or 0.
    pub fn small_number(&self, tag: usize) -> u32
        requires known { tag < TAGS }
        requires small { number_at tag (seen_values self.now) < 2 ^ 32 }
        ensures { result ≡ number_at tag (seen_values self.now) }
    {
        self.number(tag) as u32
    }

    /// The last message of a tag, if it is there.
    #[tactic(auto, unfolding(crate::specs::Schemas::message_at))]
    pub fn message(&self, tag: usize) -> Option<&'a [u8]>
        requires { tag < TAGS }
        ensures { option_map (λ text. text.now) result ≡ message_at tag (seen_values self.now) }
    {
        match self.last_of(tag) {
            Some(Value::Bytes(text)) => Some(text),
            _ => None,
        }
    }
}
