//! Reading the foot of a file.

ghost use Rattle.std.specs.Prelude.{◌≡◌, ◌≤◌, ◌<◌, ◌+◌, ◌*◌, ◌%◌, ◌^◌, ◌∷◌, ℕ, List, IfOk, length};
ghost use Rattle.fl_types.specs.Integers.{fits};
ghost use Rattle.fl_file.specs.declared.foot.ChunkEntry.{ChunkEntry};
ghost use Rattle.fl_file.specs.Foot.{foot_parts};
ghost use Rattle.fl_file.specs.FootReading.{Finds, Gives, body_of, entries_at, entry_at, extremes_of, foot_len_of, foot_of, foot_with_len, integer_at, len_at_end, lie_between, lies_from, order_of_word, placed, ptype_numbered, statistics_at, statistics_of, type_of_word, word_at};

use crate::checksum::crc32c;
use crate::error::FileError;
use crate::foot::{ChunkEntry, Foot};
use crate::statistics::{ChunkStatistics, Extremes};
use fl_column::{NativePType, Nullability, PType};
use fl_types::match_each_integer_ptype;
use std::alloc::Global;

/// Reads the foot of a file from the file's last bytes, of which there may be more than those of the foot.
///
/// # Errors
/// The first of these: `TooShort` where the bytes are fewer than 28 or more than `file_len`, `BadMark` where the last four are
/// not `FLC2`, `BadLength` where no foot has the length that stands before the mark, or the bytes are fewer, `BadChecksum`
/// where the checksum is not that of the bytes before it, `BadField` where a field is out of its range, `BadPlace` where a
/// chunk does not begin at a multiple of 64 bytes, begins before the end of the one before it, or does not end before the
/// foot. `OutOfMemory` at any time.
#[tactic(auto, using(crate::proofs::FootSteps::refused))]
pub fn read_foot(alloc: Global, bytes: &[u8], file_len: u64) -> Result<Foot, FileError>
    ensures { Gives foot_parts result (foot_of bytes.now file_len) }
{
    let size = foot_len(bytes, file_len)?;
    foot_with_len(alloc, bytes, file_len, size)
}

/// How many bytes the body and its checksum are.
fn foot_len(bytes: &[u8], file_len: u64) -> Result<usize, FileError>
    ensures exact { result ≡ foot_len_of bytes.now file_len }
    ensures range { IfOk result (λ size. (16 ≤ size) × (size % 96 ≡ 16) × (size + 12 ≤ length bytes.now) × (length bytes.now ≤ file_len)) }
{
    let len = bytes.len();
    if len < 28 || file_len < len as u64 {
        return Err(FileError::TooShort);
    }
    len_at_end(&bytes[len - 28..], len)
}

/// How many bytes the body and its checksum are, in a file of whose bytes the last 28 are given.
#[tactic(auto, unfolding(crate::specs::FootReading::len_at_end))]
pub(crate) fn len_at_end(end: &[u8], file_len: usize) -> Result<usize, FileError>
    requires end { length end.now ≡ 28 }
    requires file { 28 ≤ file_len }
    ensures exact { result ≡ len_at_end end.now file_len }
    ensures range { IfOk result (λ size. (16 ≤ size) × (size % 96 ≡ 16) × (size + 12 ≤ file_len)) }
{
    let (_, mark) = end.split_at(24);
    if mark != b"FLC2".as_slice() {
        return Err(FileError::BadMark);
    }
    let size = word_at(end, 16) as usize;
    if size % 96 == 16 && size <= file_len - 12 {
        Ok(size)
    } else {
        Err(FileError::BadLength)
    }
}

/// The foot whose body and checksum are so many bytes before the last twelve.
pub(crate) fn foot_with_len(
    alloc: Global,
    bytes: &[u8],
    file_len: u64,
    size: usize,
) -> Result<Foot, FileError>
    requires form { (16 ≤ size) × (size % 96 ≡ 16) }
    requires range { size + 12 ≤ length bytes.now }
    requires file { length bytes.now ≤ file_len }
    ensures { Gives foot_parts result (foot_with_len bytes.now file_len size) }
{
    let len = bytes.len();
    let body = &bytes[len - 12 - size..len - 20];
    if word_at(bytes, len - 20) == u64::from(crc32c(body)) {
        placed_foot(alloc, file_len - 12 - size as u64, body)
    } else {
        Err(FileError::BadChecksum)
    }
}

/// The foot of a body, whose chunks have to lie before `end`.
#[tactic(auto, using(crate::proofs::FootSteps::placed_missing))]
fn placed_foot(alloc: Global, end: u64, body: &[u8]) -> Result<Foot, FileError>
    requires { (8 ≤ length body.now) × (length body.now % 96 ≡ 8) }
    ensures { Gives foot_parts result (placed end (body_of body.now)) }
{
    let foot = read_body(alloc, body)?;
    if lie_between(4, end, &foot.chunks) {
        Ok(foot)
    } else {
        Err(FileError::BadPlace)
    }
}

/// Whether the chunks lie one after another from `start` to `end`, each at a multiple of 64.
#[tactic(auto, using(crate::proofs::FootSteps::next_place))]
pub fn lie_between(start: u64, end: u64, chunks: &[ChunkEntry]) -> bool
    ensures { result ≡ lie_between start end chunks.now }
{
    let mut place = start;
    for chunk in chunks {
        match place_after(place, chunk) {
            Some(next) => place = next,
            None => return false,
        }
    }
    place <= end
}

/// Where a chunk ends; `None` where it does not begin at a multiple of 64, begins before a place, or does not end below 2^64.
#[tactic(auto, using(crate::proofs::FootSteps::not_multiple, crate::proofs::FootSteps::too_early, crate::proofs::FootSteps::too_far, crate::proofs::FootSteps::goes_on))]
fn place_after(place: u64, chunk: &ChunkEntry) -> Option<u64>
    ensures { (end : ℕ) (rest : List ChunkEntry) → end < 2 ^ 64 → lie_between place end (chunk.now ∷ rest) ≡ lies_from result end rest }
{
    if chunk.offset % 64 != 0 {
        return None;
    }
    if chunk.offset < place {
        return None;
    }
    if chunk.size > u64::MAX - chunk.offset {
        return None;
    }
    Some(chunk.offset + chunk.size)
}

/// The word whose bytes begin at this one.
fn word_at(bytes: &[u8], at: usize) -> u64
    requires { at + 8 ≤ length bytes.now }
    ensures { result ≡ word_at at bytes.now }
{
    let (word, _) = bytes[at..].split_at(8);
    u64::from_le_bytes([
        word[0], word[1], word[2], word[3], word[4], word[5], word[6], word[7],
    ])
}

/// The integer whose two words begin at this byte.
fn integer_at(bytes: &[u8], at: usize) -> i128
    requires { at + 16 ≤ length bytes.now }
    ensures { result ≡ integer_at at bytes.now }
{
    let low = u128::from(word_at(bytes, at));
    let high = u128::from(word_at(bytes, at + 8));
    (high * (1 << 64) + low).cast_signed()
}

/// The type that a number stands for.
fn ptype_numbered(number: u64) -> Option<PType>
    ensures { result ≡ ptype_numbered number }
{
    match number {
        0 => Some(PType::U8),
        1 => Some(PType::U16),
        2 => Some(PType::U32),
        3 => Some(PType::U64),
        4 => Some(PType::I8),
        5 => Some(PType::I16),
        6 => Some(PType::I32),
        7 => Some(PType::I64),
        _ => None,
    }
}

/// The type that a word stands for, and whether nulls may stand.
pub fn type_of_word(word: u64) -> Option<(PType, Nullability)>
    ensures { result ≡ type_of_word word }
{
    if word < 16 {
        Some((ptype_numbered(word)?, Nullability::NonNullable))
    } else {
        Some((ptype_numbered(word - 16)?, Nullability::Nullable))
    }
}

/// What the type and the entries of a body say.
#[tactic(auto, unfolding(crate::specs::FootReading::body_of))]
fn read_body(alloc: Global, bytes: &[u8]) -> Result<Foot, FileError>
    requires { (8 ≤ length bytes.now) × (length bytes.now % 96 ≡ 8) }
    ensures { Finds foot_parts result (body_of bytes.now) }
{
    let Some((ptype, nullability)) = type_of_word(word_at(bytes, 0)) else {
        return Err(FileError::BadField);
    };
    let chunks = read_entries(alloc, ptype, bytes.len() / 96, &bytes[8..])?;
    Ok(Foot {
        ptype,
        nullability,
        chunks,
    })
}

/// So many entries, one after another.
fn read_entries(
    alloc: Global,
    ptype: PType,
    count: usize,
    bytes: &[u8],
) -> Result<Vec<ChunkEntry>, FileError>
    requires { 96 * count ≤ length bytes.now }
    ensures { Finds (λ v. v.items) result (entries_at ptype count bytes.now) }
{
    let mut entries = Vec::with_capacity(alloc, count)?;
    let mut rest = bytes;
    for _ in 0..count {
        let (front, after) = rest.split_at(96);
        entries.push(read_entry(ptype, front)?)?;
        rest = after;
    }
    Ok(entries)
}

/// What is said of a chunk.
fn read_entry(ptype: PType, bytes: &[u8]) -> Result<ChunkEntry, FileError>
    requires { length bytes.now ≡ 96 }
    ensures { Finds (λ e. e) result (entry_at ptype bytes.now) }
{
    match entry_at(ptype, bytes) {
        Some(entry) => Ok(entry),
        None => Err(FileError::BadField),
    }
}

/// What is said of a chunk, where no field is out of its range.
#[tactic(auto, unfolding(crate::specs::FootReading::entry_at))]
fn entry_at(ptype: PType, bytes: &[u8]) -> Option<ChunkEntry>
    requires { length bytes.now ≡ 96 }
    ensures { result ≡ entry_at ptype bytes.now }
{
    let statistics = statistics_at(ptype, bytes)?;
    let checksum = word_at(bytes, 16);
    if checksum < 1 << 32 {
        Some(ChunkEntry {
            offset: word_at(bytes, 0),
            size: word_at(bytes, 8),
            checksum: checksum as u32,
            statistics,
        })
    } else {
        None
    }
}

/// What an entry says of the items, where no field is out of its range.
fn statistics_at(ptype: PType, bytes: &[u8]) -> Option<ChunkStatistics>
    requires { length bytes.now ≡ 96 }
    ensures { result ≡ statistics_at ptype bytes.now }
{
    statistics_of(
        ptype,
        word_at(bytes, 24),
        word_at(bytes, 32),
        word_at(bytes, 40),
        integer_at(bytes, 48),
        integer_at(bytes, 64),
        integer_at(bytes, 80),
    )
}

/// What is known of items by these fields, where none is out of its range.
#[tactic(auto, unfolding(crate::specs::FootReading::statistics_of))]
pub fn statistics_of(
    ptype: PType,
    len: u64,
    null_count: u64,
    order: u64,
    least: i128,
    greatest: i128,
    sum: i128,
) -> Option<ChunkStatistics>
    ensures { result ≡ statistics_of ptype len null_count order least greatest sum }
{
    if len >= 1 << 63 || null_count > len {
        return None;
    }
    let is_sorted = order_of_word(order)?;
    let extremes = extremes_of(ptype, null_count < len, least, greatest)?;
    Some(ChunkStatistics {
        len,
        null_count,
        extremes,
        is_sorted,
        sum,
    })
}

/// What a word says of an order.
fn order_of_word(word: u64) -> Option<bool>
    ensures { result ≡ order_of_word word }
{
    match word {
        0 => Some(false),
        1 => Some(true),
        _ => None,
    }
}

/// The least and the greatest item, where one is valid; else both fields are 0.
fn extremes_of(
    ptype: PType,
    has_valid: bool,
    least: i128,
    greatest: i128,
) -> Option<Option<Extremes>>
    ensures { result ≡ extremes_of ptype has_valid least greatest }
{
    if has_valid {
        if has_value(ptype, least) && has_value(ptype, greatest) && least <= greatest {
            Some(Some(Extremes { least, greatest }))
        } else {
            None
        }
    } else if least == 0 && greatest == 0 {
        Some(None)
    } else {
        None
    }
}

/// Whether a type has a value.
fn has_value(ptype: PType, value: i128) -> bool
    ensures { result ≡ fits ptype value }
{
    match_each_integer_ptype!(ptype, is_value(value))
}

/// Whether a type has a value.
fn is_value<T: NativePType>(value: i128) -> bool
    ensures { result ≡ fits T.PTYPE value }
{
    T::from_i128(value).is_some()
}
