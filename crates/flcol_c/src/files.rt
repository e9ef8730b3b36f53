//! Columns in files of chunks whose bytes C hands in, and arrays that are added to files.

ghost use Rattle.std.specs.Prelude.{◌≡◌, ◌≢◌, IfErr, IfOk, List, None, Ok, OnErr, length, count_by, is_none};
ghost use Rattle.fl_types.specs.declared.error.FastLanesError.TheVariants.{OutOfMemory};
ghost use Rattle.fl_column.specs.Columns.{Column};
ghost use Rattle.fl_file.specs.Pruning.{passes};
ghost use Rattle.fl_file.specs.FileReading.{foot_of_file};
ghost use Rattle.fl_file.specs.Foot.{FootParts};
ghost use Rattle.fl_file.specs.Statistics.{extremes_among};
ghost use Rattle.flcol_file.specs.Chunked.{items_in, valid_in};
ghost use Rattle.flcol_c.specs.declared.fault.Fault.TheVariants.{Refused};
ghost use Rattle.flcol_c.specs.Feet.{GivesFootFault, word_fault};
ghost use Rattle.flcol_c.specs.Files.{FileHolds, GivesArraySaid, GivesSum, GivesVerdict, IsAppendFault, IsAppended, of_column_file};
ghost use Rattle.flcol_c.specs.Statuses.{Gives};

use crate::containers::from_container;
use crate::fault::Fault;
use crate::feet::{bytes_said, open, word_of};
use crate::finishing::add_padded;
use crate::plain::simplest_of;
use crate::records::{ChunkRecord, record_of};
use fl_array::ArrayRef;
use fl_file::writer::gap_behind;
use fl_file::{ChunkEntry, ChunkStatistics, Extremes, Test, crc32c};
use flcol_file::{ColumnFileError, write_chunk};
use std::alloc::Global;

impl From<ColumnFileError> for Fault {
    ghost from_gives = { λ error fault. fault ≡ of_column_file error };

    fn from(error: ColumnFileError) -> Fault {
        match error {
            ColumnFileError::Array(refusal) => Fault::Refused(refusal),
            ColumnFileError::BadContainer => Fault::BadContainer,
            ColumnFileError::BadStatistics => Fault::BadStatistics,
            ColumnFileError::File(error) => Fault::from(error),
        }
    }
}

/// The array of a chunk that a record says.
///
/// # Errors
/// `BadPlace` where it does not lie in the file, `BadChunk` where its bytes are not those that the checksum is of,
/// `BadContainer` where they are no container; else those of the container's array.
pub(crate) fn array_said(
    alloc: Global,
    bytes: &[u8],
    record: &ChunkRecord,
) -> Result<ArrayRef, Fault>
    ensures { GivesArraySaid bytes.now record.now result }
{
    let chunk = bytes_said(bytes, record)?;
    from_container(alloc, chunk)
}

/// How many items a file has, as its foot says.
///
/// # Errors
/// Those of `foot_of`; `LengthOverflow` where there are 2^64 or more.
pub(crate) fn len_trusting(alloc: Global, bytes: &[u8]) -> Result<u64, Fault>
    ensures foot { GivesFootFault bytes.now result }
    ensures len { (columns : List Column) → FileHolds bytes.now columns → Gives (word_fault (length (items_in columns))) (λ n. n ≡ length (items_in columns)) result }
{
    let reader = open(alloc, bytes)?;
    word_of(flcol_file::len_trusting(&reader))
}

/// How many items of a file are null, as its foot says.
///
/// # Errors
/// As of `len_trusting`.
pub(crate) fn null_count_trusting(alloc: Global, bytes: &[u8]) -> Result<u64, Fault>
    ensures foot { GivesFootFault bytes.now result }
    ensures count { (columns : List Column) → FileHolds bytes.now columns → Gives (word_fault (count_by is_none (items_in columns))) (λ n. n ≡ count_by is_none (items_in columns)) result }
{
    let reader = open(alloc, bytes)?;
    word_of(flcol_file::null_count_trusting(&reader))
}

/// The sum of the valid items of a file, as its foot says.
///
/// # Errors
/// Those of `foot_of`; `LengthOverflow` where the sum of the items of the first chunks has more than 128 bits.
pub(crate) fn sum_trusting(alloc: Global, bytes: &[u8]) -> Result<i128, Fault>
    ensures foot { GivesFootFault bytes.now result }
    ensures sum { (columns : List Column) → FileHolds bytes.now columns → GivesSum columns result }
{
    let reader = open(alloc, bytes)?;
    let sum = flcol_file::sum_trusting(&reader)?;
    Ok(sum)
}

/// The least and the greatest valid item of a file, as its foot says; `None` where no item is valid.
///
/// # Errors
/// Those of `foot_of`.
pub(crate) fn min_max_trusting(alloc: Global, bytes: &[u8]) -> Result<Option<Extremes>, Fault>
    ensures foot { GivesFootFault bytes.now result }
    ensures extremes { (columns : List Column) → FileHolds bytes.now columns → Gives None (λ found. found ≡ extremes_among (valid_in columns)) result }
{
    let reader = open(alloc, bytes)?;
    Ok(flcol_file::min_max_trusting(&reader))
}

/// How many valid items of a file pass a test. Only the chunks are read of which the foot leaves that open.
///
/// # Errors
/// Those of `foot_of` and of the chunks that are read; `LengthOverflow` where there are 2^64 or more.
pub(crate) fn count_trusting(alloc: Global, bytes: &[u8], test: &Test) -> Result<u64, Fault>
    ensures foot { GivesFootFault bytes.now result }
    ensures counted { (columns : List Column) → FileHolds bytes.now columns → Gives (word_fault (count_by (passes test.now) (valid_in columns))) (λ n. n ≡ count_by (passes test.now) (valid_in columns)) result }
{
    let mut reader = open(alloc, bytes)?;
    let count = flcol_file::count_trusting(alloc, &mut reader, test)?;
    word_of(count)
}

/// That the chunks of a file are of its type, and their statistics those that its foot says.
///
/// # Errors
/// Those of `foot_of`; then those of the first chunk that is refused.
pub(crate) fn verify(alloc: Global, bytes: &[u8]) -> Result<(), Fault>
    ensures foot { GivesFootFault bytes.now result }
    ensures verdict { (foot : FootParts) → foot_of_file bytes.now ≡ Ok foot → GivesVerdict bytes.now foot result }
{
    let mut reader = open(alloc, bytes)?;
    flcol_file::verify(alloc, &mut reader)?;
    Ok(())
}

/// Writes the chunk of an array that is to be added to a file of `place` bytes over the first bytes, and gives what is known of it
/// and how many bytes these are.
///
/// # Errors
/// `NotInteger` of booleans; `BadContainer` where the array has no container; `FileTooLong` where the file would have 2^63
/// bytes; `WrongLength` where there is no room for them.
pub(crate) fn append(
    alloc: Global,
    array: &ArrayRef,
    place: u64,
    room: &mut [u8],
) -> Result<(ChunkRecord, usize), Fault>
    ensures appended { IfOk result (λ made. IsAppended place room.old room.new made.1 made.0 array.now) }
    ensures refused { IfErr result (λ fault. fault ≢ Refused OutOfMemory → IsAppendFault place (length room.old) array.now fault) }
    ensures unwritten { OnErr result (room.new ≡ room.old) }
{
    let plain = simplest_of(alloc, array)?;
    let statistics = ChunkStatistics::of(&plain);
    let chunk = write_chunk(alloc, array)?;
    let bytes = chunk.as_slice();
    let gap = gap_behind(place);
    let len = add_padded(place, gap, bytes, room)?;
    let checksum = crc32c(bytes);
    let entry = ChunkEntry {
        offset: place + gap as u64,
        size: bytes.len() as u64,
        checksum,
        statistics,
    };
    Ok((record_of(&entry), len))
}
