//! Reading the fields of a row, from the front.

ghost use Rattle.std.specs.Prelude.{◌≡◌, ◌<◌, ◌≤◌, length, IfSome};
ghost use Rattle.fl_metadata.specs.WireReading.{groups_at, varint_at, front_at, payload_at, field_at, seen, seen_field, Sees};

/// The value of a field, after its key.
#[derive(Clone, Copy)]
pub enum Value<'a> {
    /// A varint.
    Number(u64),
    /// Eight bytes.
    Eight(&'a [u8]),
    /// Bytes after their length.
    Bytes(&'a [u8]),
    /// Four bytes.
    Four(&'a [u8]),
}

/// A field: a tag, and the value under it.
#[derive(Clone, Copy)]
pub struct Field<'a> {
    pub tag: u64,
    pub value: Value<'a>,
}

/// The number of the groups at the front, and the bytes behind them. This many more bytes than one may
/// belong to it.
#[tactic(auto, unfolding(crate::specs::WireReading::groups_at))]
fn groups(more: u8, bytes: &[u8]) -> Option<(u64, &[u8])>
    ensures is { Sees (λ x. (x.0, x.1.now)) result (groups_at more bytes.now) }
    ensures shorter { IfSome result (λ x. length x.1.now < length bytes.now) }
{
    let (byte, rest) = bytes.split_first()?;
    if *byte < 128 {
        return Some((u64::from(*byte), rest));
    }
    if more == 0 {
        return None;
    }
    let (high, rest) = groups(more - 1, rest)?;
    let number = u128::from(*byte - 128) + 128 * u128::from(high);
    if number < 1 << 64 {
        Some((number as u64, rest))
    } else {
        None
    }
}

/// The varint at the front, of at most ten bytes, and the bytes behind it.
fn varint(bytes: &[u8]) -> Option<(u64, &[u8])>
    ensures is { Sees (λ x. (x.0, x.1.now)) result (varint_at bytes.now) }
    ensures shorter { IfSome result (λ x. length x.1.now < length bytes.now) }
{
    groups(9, bytes)
}

/// This many bytes from the front, and those behind them.
fn front(len: u64, bytes: &[u8]) -> Option<(&[u8], &[u8])>
    ensures is { Sees (λ x. (x.0.now, x.1.now)) result (front_at len bytes.now) }
    ensures shorter { IfSome result (λ x. length x.1.now ≤ length bytes.now) }
{
    if (bytes.len() as u64) < len {
        return None;
    }
    Some(bytes.split_at(len as usize))
}

/// The value of a wire type at the front, and the bytes behind it.
#[tactic(auto, unfolding(crate::specs::WireReading::payload_at))]
fn payload(wire: u8, bytes: &[u8]) -> Option<(Value<'_>, &[u8])>
    ensures is { Sees (λ x. (seen x.0, x.1.now)) result (payload_at wire bytes.now) }
    ensures shorter { IfSome result (λ x. length x.1.now ≤ length bytes.now) }
{
    match wire {
        0 => {
            let (number, rest) = varint(bytes)?;
            Some((Value::Number(number), rest))
        }
        1 => {
            let (held, rest) = front(8, bytes)?;
            Some((Value::Eight(held), rest))
        }
        2 => {
            let (len, rest) = varint(bytes)?;
            let (held, rest) = front(len, rest)?;
            Some((Value::Bytes(held), rest))
        }
        5 => {
            let (held, rest) = front(4, bytes)?;
            Some((Value::Four(held), rest))
        }
        _ => None,
    }
}

/// The first field, and the bytes after it.
#[tactic(auto, unfolding(crate::specs::WireReading::field_at))]
pub fn first_field(bytes: &[u8]) -> Option<(Field<'_>, &[u8])>
    ensures is { Sees (λ x. (seen_field x.0, x.1.now)) result (field_at bytes.now) }
    ensures shorter { IfSome result (λ x. length x.1.now < length bytes.now) }
{
    let (key, rest) = varint(bytes)?;
    let tag = key / 8;
    if tag < 1 {
        return None;
    }
    if tag < 1 << 29 {
        let (value, rest) = payload((key % 8) as u8, rest)?;
        Some((Field { tag, value }, rest))
    } else {
        None
    }
}
