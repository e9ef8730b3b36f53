//! What the foot of a file says of a chunk, as C has it.

ghost use Rattle.std.specs.Prelude.{◌≡◌, Some, length, map};
ghost use Rattle.fl_file.specs.Foot.{greatest_of, least_of};
ghost use Rattle.fl_file.specs.FootReading.{statistics_of};
ghost use Rattle.flcol_c.specs.Records.{entries_said, entry_said, field_fault, fields_in, fields_of, value_of};
ghost use Rattle.flcol_c.specs.Statuses.{Gives};

use crate::aggregates::words_of_signed;
use crate::fault::Fault;
use fl_column::PType;
use fl_file::reading::statistics_of;
use fl_file::{ChunkEntry, ChunkStatistics, Extremes};
use std::alloc::Global;

/// An integer of 128 bits, two's complement: `flcol_integer` of the header.
#[repr(C)]
#[derive(Clone, Copy)]
pub struct Integer {
    pub low: u64,
    pub high: i64,
}

/// What the foot of a file says of a chunk: `flcol_chunk` of the header.
#[repr(C)]
#[derive(Clone, Copy)]
pub struct ChunkRecord {
    pub offset: u64,
    pub size: u64,
    pub checksum: u64,
    pub len: u64,
    pub null_count: u64,
    pub is_sorted: u64,
    pub least: Integer,
    pub greatest: Integer,
    pub sum: Integer,
}

/// An integer as two words.
pub(crate) fn integer_of(value: i128) -> Integer
    ensures { value_of result ≡ value }
{
    let (high, low) = words_of_signed(value);
    Integer { low, high }
}

/// The integer of two words.
pub(crate) fn value_of(integer: &Integer) -> i128
    ensures { result ≡ value_of integer.now }
{
    i128::from(integer.high) * 18_446_744_073_709_551_616 + i128::from(integer.low)
}

/// The least item; 0 where no item is valid.
fn least_of(extremes: Option<Extremes>) -> i128
    ensures { result ≡ least_of extremes }
{
    match extremes {
        Some(extremes) => extremes.least,
        None => 0,
    }
}

/// The greatest item; 0 where no item is valid.
fn greatest_of(extremes: Option<Extremes>) -> i128
    ensures { result ≡ greatest_of extremes }
{
    match extremes {
        Some(extremes) => extremes.greatest,
        None => 0,
    }
}

/// What is known of a chunk, as C has it.
pub(crate) fn record_of(entry: &ChunkEntry) -> ChunkRecord
    ensures { fields_in result ≡ fields_of entry.now }
{
    let statistics = &entry.statistics;
    ChunkRecord {
        offset: entry.offset,
        size: entry.size,
        checksum: u64::from(entry.checksum),
        len: statistics.len,
        null_count: statistics.null_count,
        is_sorted: u64::from(statistics.is_sorted),
        least: integer_of(least_of(statistics.extremes)),
        greatest: integer_of(greatest_of(statistics.extremes)),
        sum: integer_of(statistics.sum),
    }
}

/// Writes what is known of each chunk.
pub(crate) fn write_records(entries: &[ChunkEntry], records: &mut [ChunkRecord])
    requires { length records.old ≡ length entries.now }
    ensures { map fields_in records.new ≡ map fields_of entries.now }
{
    for i in 0..entries.len() {
        records[i] = record_of(&entries[i]);
    }
}

/// What a record says of the items, where no field is out of its range.
fn statistics_said(ptype: PType, record: &ChunkRecord) -> Option<ChunkStatistics>
    ensures { result ≡ statistics_of ptype record.now.len record.now.null_count record.now.is_sorted (value_of record.now.least) (value_of record.now.greatest) (value_of record.now.sum) }
{
    statistics_of(
        ptype,
        record.len,
        record.null_count,
        record.is_sorted,
        value_of(&record.least),
        value_of(&record.greatest),
        value_of(&record.sum),
    )
}

/// The chunk that a record says, where no field is out of its range.
fn entry_said(ptype: PType, record: &ChunkRecord) -> Option<ChunkEntry>
    ensures { result ≡ entry_said ptype (fields_in record.now) }
{
    let statistics = statistics_said(ptype, record)?;
    if record.checksum < 1 << 32 {
        Some(ChunkEntry {
            offset: record.offset,
            size: record.size,
            checksum: record.checksum as u32,
            statistics,
        })
    } else {
        None
    }
}

/// The chunks that records say.
///
/// # Errors
/// `BadField` where a field is out of its range.
pub(crate) fn entries_said(
    alloc: Global,
    ptype: PType,
    records: &[ChunkRecord],
) -> Result<Vec<ChunkEntry>, Fault>
    ensures { Gives (field_fault (entries_said ptype records.now)) (λ v. entries_said ptype records.now ≡ Some v.items) result }
{
    let mut entries = Vec::with_capacity(alloc, records.len())?;
    for record in records {
        match entry_said(ptype, record) {
            Some(entry) => entries.push(entry)?,
            None => return Err(Fault::BadField),
        }
    }
    Ok(entries)
}
