//! What the foot of a file of chunks says, whose bytes C hands in.

ghost use Rattle.std.specs.Prelude.{◌≡◌, ◌≤◌, IfOk, None, Ok, OnErr, Some, is_ok, length, map};
ghost use Rattle.fl_file.specs.FileReading.{IsReaderOf, begun, foot_before, foot_of_file, foot_of_reader, last_foot_of_file};
ghost use Rattle.fl_file.specs.Foot.{foot_parts};
ghost use Rattle.flcol_c.specs.Feet.{GivesBytesSaid, IsLastEnd, IsPlanIn, chunks_fault, file_fault, of_file, pruning_number, test_between, test_said, word_fault};
ghost use Rattle.flcol_c.specs.Records.{fields_in, fields_of};
ghost use Rattle.flcol_c.specs.Statuses.{Gives, fault_in};

use crate::answering::{operator_of, options_of};
use crate::fault::Fault;
use crate::records::{ChunkRecord, write_records};
use fl_file::{FileError, Foot, Pruning, Reader, Test, crc32c, plan, read_foot};
use fl_types::FastLanesError;
use std::alloc::Global;

impl From<FileError> for Fault {
    ghost from_gives = { λ error fault. fault ≡ of_file error };

    fn from(error: FileError) -> Fault {
        match error {
            FileError::OutOfMemory | FileError::WriteFault => {
                Fault::Refused(FastLanesError::OutOfMemory)
            }
            FileError::TooShort | FileError::ReadFault => Fault::FileTooShort,
            FileError::BadMark => Fault::BadMark,
            FileError::BadLength => Fault::BadFootLength,
            FileError::BadChecksum => Fault::BadFootChecksum,
            FileError::BadField => Fault::BadField,
            FileError::BadPlace => Fault::BadPlace,
            FileError::BadChunk => Fault::BadChunk,
            FileError::TooLong => Fault::FileTooLong,
        }
    }
}

/// A reader of a file.
///
/// # Errors
/// Those of `Reader::open`.
pub(crate) fn open<'a>(alloc: Global, bytes: &'a [u8]) -> Result<Reader<&'a [u8]>, Fault>
    ensures { Gives (file_fault (foot_of_file bytes.entry.now)) (λ r. (foot_of_file bytes.entry.now ≡ Ok (foot_of_reader r)) × IsReaderOf (λ s. Some s.now) r bytes.entry.now) result }
{
    Ok(Reader::open(alloc, bytes)?)
}

/// The foot of a file.
///
/// # Errors
/// Those of `Reader::open`.
pub(crate) fn foot_of(alloc: Global, bytes: &[u8]) -> Result<Foot, Fault>
    ensures { Gives (file_fault (foot_of_file bytes.now)) (λ foot. foot_of_file bytes.now ≡ Ok (foot_parts foot)) result }
{
    Ok(open(alloc, bytes)?.into_foot())
}

/// Writes what the foot of a file says of each chunk.
///
/// # Errors
/// Those of `foot_of`; `WrongLength` where the records are not as many as chunks.
pub(crate) fn write_chunks(
    alloc: Global,
    bytes: &[u8],
    records: &mut [ChunkRecord],
) -> Result<(), Fault>
    ensures written { Gives (chunks_fault (length records.old) (foot_of_file bytes.now)) (λ _. IfOk (foot_of_file bytes.now) (λ foot. map fields_in records.new ≡ map fields_of foot.chunks)) result }
    ensures unwritten { OnErr result (records.new ≡ records.old) }
{
    let foot = foot_of(alloc, bytes)?;
    if records.len() != foot.chunks.len() {
        return Err(Fault::WrongLength);
    }
    write_records(&foot.chunks, records);
    Ok(())
}

/// The bytes of a file that a record says.
///
/// # Errors
/// `BadPlace` where they don't lie in the file, `BadChunk` where they are not those that the checksum is of.
pub(crate) fn bytes_said<'a>(bytes: &'a [u8], record: &ChunkRecord) -> Result<&'a [u8], Fault>
    ensures { GivesBytesSaid (λ s. s.now) bytes.entry.now record.now result }
{
    let len = bytes.len() as u64;
    if record.offset > len || record.size > len - record.offset {
        return Err(Fault::BadPlace);
    }
    let from = record.offset as usize;
    let chunk = &bytes[from..from + record.size as usize];
    if u64::from(crc32c(chunk)) == record.checksum {
        Ok(chunk)
    } else {
        Err(Fault::BadChunk)
    }
}

/// That a file begins as one of chunks.
///
/// # Errors
/// `FileTooShort` where it has fewer than 28 bytes, `BadMark` where it does not begin with `FLC2`.
fn check_begun(bytes: &[u8]) -> Result<(), Fault>
    ensures { fault_in result ≡ file_fault (begun bytes.now) }
{
    if bytes.len() < 28 {
        return Err(Fault::FileTooShort);
    }
    let (mark, _) = bytes.split_at(4);
    if mark == b"FLC2".as_slice() {
        Ok(())
    } else {
        Err(Fault::BadMark)
    }
}

/// Whether a file's first bytes end with a foot.
///
/// # Errors
/// Only `OutOfMemory`.
fn ends_with_foot(alloc: Global, bytes: &[u8], end: usize) -> Result<bool, Fault>
    requires { end ≤ length bytes.now }
    ensures { Gives None (λ found. found ≡ is_ok (foot_before bytes.now end)) result }
{
    match read_foot(alloc, &bytes[..end], end as u64) {
        Ok(_) => Ok(true),
        Err(FileError::OutOfMemory) => Err(Fault::Refused(FastLanesError::OutOfMemory)),
        Err(_) => Ok(false),
    }
}

/// The length of the longest beginning of a file that has a foot and ends at a multiple of 64.
///
/// # Errors
/// `FileTooShort` where the file has fewer than 28 bytes, `BadMark` where it does not begin with `FLC2`, or no such beginning
/// has a foot.
pub(crate) fn last_end(alloc: Global, bytes: &[u8]) -> Result<usize, Fault>
    ensures { Gives (file_fault (last_foot_of_file bytes.now)) (IsLastEnd bytes.now) result }
{
    check_begun(bytes)?;
    let count = bytes.len() / 64;
    for i in 0..count {
        let end = 64 * (count - i);
        if ends_with_foot(alloc, bytes, end)? {
            return Ok(end);
        }
    }
    Err(Fault::BadMark)
}

/// A number of 64 bits.
///
/// # Errors
/// `LengthOverflow` where it has more.
pub(crate) fn word_of(number: u128) -> Result<u64, Fault>
    ensures { Gives (word_fault number) (λ n. n ≡ number) result }
{
    match u64::try_from(number) {
        Ok(number) => Ok(number),
        Err(_) => Err(Fault::Refused(FastLanesError::LengthOverflow)),
    }
}

/// The test that the number of an operator and a constant say.
///
/// # Errors
/// `BadOperator` where no operator has the number.
pub(crate) fn test_said(operator: u8, constant: i128) -> Result<Test, Fault>
    ensures { result ≡ test_said operator constant }
{
    match operator_of(operator) {
        Some(operator) => Ok(Test::Compare { operator, constant }),
        None => Err(Fault::BadOperator),
    }
}

/// The test whether an item lies between two bounds, each left out where its number is not 0.
pub(crate) fn test_between(bounds: (i128, i128), strict: (u8, u8)) -> Test
    ensures { result ≡ test_between bounds strict }
{
    Test::Between {
        lower: bounds.0,
        upper: bounds.1,
        options: options_of(strict.0, strict.1),
    }
}

/// The number of what is said of a chunk.
fn pruning_number(pruning: Pruning) -> u8
    ensures { result ≡ pruning_number pruning }
{
    match pruning {
        Pruning::Skip => 0,
        Pruning::Some => 1,
        Pruning::All => 2,
    }
}

/// Writes the number of what is said of each chunk.
fn write_plan(plan: &[Pruning], numbers: &mut [u8])
    requires { length numbers.old ≡ length plan.now }
    ensures { numbers.new ≡ map pruning_number plan.now }
{
    for i in 0..plan.len() {
        numbers[i] = pruning_number(plan[i]);
    }
}

/// Writes what the foot of a file says of a test of each chunk.
///
/// # Errors
/// Those of `foot_of`; `WrongLength` where the numbers are not as many as chunks.
pub(crate) fn plan_into(
    alloc: Global,
    bytes: &[u8],
    test: &Test,
    numbers: &mut [u8],
) -> Result<(), Fault>
    ensures planned { Gives (chunks_fault (length numbers.old) (foot_of_file bytes.now)) (λ _. IfOk (foot_of_file bytes.now) (λ foot. IsPlanIn test.now foot.chunks numbers.new)) result }
    ensures unwritten { OnErr result (numbers.new ≡ numbers.old) }
{
    let foot = foot_of(alloc, bytes)?;
    if numbers.len() != foot.chunks.len() {
        return Err(Fault::WrongLength);
    }
    let plan = plan(alloc, &foot.chunks, test)?;
    write_plan(&plan, numbers);
    Ok(())
}
