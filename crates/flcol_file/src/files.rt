//! Columns in files of chunks.

ghost use Rattle.std.specs.Prelude.{◌≡◌, ◌≢◌, ◌<◌, ◌∷◌, [], ℕ, List, Err, Some, IfErr, IfOk, OnOk, length, slice_get};
ghost use Rattle.fl_types.specs.declared.dtype.DType.TheVariants.{Primitive};
ghost use Rattle.fl_types.specs.declared.error.FastLanesError.TheVariants.{TypeMismatch};
ghost use Rattle.fl_column.specs.Columns.{Column, column_of_primitive};
ghost use Rattle.fl_file.specs.Files.{FileSoFar, HasWritten, SinkCanFail};
ghost use Rattle.fl_file.specs.declared.foot.ChunkEntry.{ChunkEntry};
ghost use Rattle.fl_file.specs.FileReading.{IsReaderOf, foot_of_reader, reads_of_source, source_can_fail};
ghost use Rattle.fl_file.specs.declared.statistics.ChunkStatistics.{ChunkStatistics};
ghost use Rattle.fl_array.specs.Trees.{column};
ghost use Rattle.flcol_file.specs.Chunked.{HasRead};
ghost use Rattle.flcol_file.specs.Files.{GivesArray, HasAppended, HoldsColumns, IsLeftAfter, IsNotAppended, IsChunkVerdict, IsMisfitting, IsVerdict, array_at, facts_of_reader};
ghost use Rattle.flcol_file.specs.Outcomes.{AnswersFrom};
ghost use Rattle.flcol_file.specs.declared.error.ColumnFileError.TheVariants.{Array};

use crate::chunks::{read_chunk, write_chunk};
use crate::column_chunks::ColumnChunks;
use crate::error::ColumnFileError;
use bytes::Bytes;
use fl_array::ArrayRef;
use fl_column::{DType, FastLanesError, Nullability, PType, PrimitiveArray};
use fl_compress::compress;
use fl_file::{Append, ChunkStatistics, ReadAt, Reader, Writer};
use std::alloc::Global;

/// Adds a chunk to a file: the array, encoded by the scheme that takes the fewest bytes, with its statistics.
///
/// # Errors
/// `TypeMismatch` where the file is of another type; then those of `write_chunk` and of `Writer::append`. After `WriteFault` the
/// writer writes no more; after any other the file is as it was.
pub fn append<S: Append + Drop>(
    alloc: Global,
    writer: &mut Writer<S>,
    array: &PrimitiveArray,
) -> Result<(), ColumnFileError>
    ensures appended { (s : FileSoFar) → HasWritten S.written writer.old s → OnOk result (HasAppended S.written writer.new s (column_of_primitive array.now)) }
    ensures typed { (s : FileSoFar) → HasWritten S.written writer.old s → (column_of_primitive array.now).dtype ≢ Primitive s.ptype s.nullability → result ≡ Err (Array TypeMismatch) }
    ensures refused { (s : FileSoFar) → HasWritten S.written writer.old s → IfErr result (λ e. IsNotAppended (SinkCanFail S.can_fail writer.old) s (column_of_primitive array.now) e) }
    ensures left { (s : FileSoFar) → HasWritten S.written writer.old s → IfErr result (λ e. IsLeftAfter e S.written writer.new s (column_of_primitive array.now)) }
{
    if writer.ptype() != array.ptype() || writer.nullability() != array.nullability() {
        return Err(ColumnFileError::Array(FastLanesError::TypeMismatch));
    }
    let encoded = compress(alloc, array)?;
    let chunk = write_chunk(alloc, &encoded)?;
    writer.append(chunk.as_slice(), ChunkStatistics::of(array))?;
    Ok(())
}

/// The array of chunk `k`, whatever the foot says of it.
fn stored_array<R: ReadAt + Drop>(
    alloc: Global,
    reader: &mut Reader<R>,
    k: usize,
) -> Result<ArrayRef, ColumnFileError>
    requires { k < length (foot_of_reader reader.old).chunks }
    ensures array { (bytes : List ℕ) (e : ChunkEntry) → IsReaderOf R.contents reader.old bytes → slice_get (foot_of_reader reader.old).chunks k ≡ Some e → AnswersFrom (source_can_fail R.can_fail reader.old) (λ a. a) result (array_at bytes e) }
    ensures reader { (bytes : List ℕ) → IsReaderOf R.contents reader.old bytes → IsReaderOf R.contents reader.new bytes }
    ensures facts { facts_of_reader R.can_fail reader.new ≡ facts_of_reader R.can_fail reader.old }
    ensures foot { foot_of_reader reader.new ≡ foot_of_reader reader.old }
    ensures read { HasRead result (facts_of_reader R.can_fail reader.old) (reads_of_source R.reads reader.old) (reads_of_source R.reads reader.new) (k ∷ []) }
{
    let bytes = reader.chunk(alloc, k)?;
    read_chunk(alloc, &Bytes::from_vec(bytes)?)
}

/// An array, where it is of a file's type and has as many items as the foot says.
pub(crate) fn fitting(array: ArrayRef, dtype: DType, len: u64) -> Result<ArrayRef, ColumnFileError>
    ensures same { IfOk result (λ a. (a ≡ array) × ((column array).dtype ≡ dtype) × (length (column array).items ≡ len)) }
    ensures refused { IfErr result (λ e. IsMisfitting dtype len (column array) e) }
{
    if array.dtype() != dtype {
        return Err(ColumnFileError::Array(FastLanesError::TypeMismatch));
    }
    if array.len() as u64 != len {
        return Err(ColumnFileError::BadStatistics);
    }
    Ok(array)
}

/// The array of chunk `k`, where it is of the file's type and has as many items as the foot says.
fn fitting_array<R: ReadAt + Drop>(
    alloc: Global,
    reader: &mut Reader<R>,
    k: usize,
) -> Result<ArrayRef, ColumnFileError>
    requires { k < length (foot_of_reader reader.old).chunks }
    ensures array { (bytes : List ℕ) (e : ChunkEntry) → IsReaderOf R.contents reader.old bytes → slice_get (foot_of_reader reader.old).chunks k ≡ Some e → GivesArray (source_can_fail R.can_fail reader.old) bytes (foot_of_reader reader.old) e result }
    ensures typed { IfOk result (λ a. (column a).dtype ≡ Primitive (foot_of_reader reader.old).ptype (foot_of_reader reader.old).nullability) }
    ensures counted { (s : ChunkStatistics) → slice_get (facts_of_reader R.can_fail reader.old).statistics k ≡ Some s → IfOk result (λ a. length (column a).items ≡ s.len) }
    ensures reader { (bytes : List ℕ) → IsReaderOf R.contents reader.old bytes → IsReaderOf R.contents reader.new bytes }
    ensures facts { facts_of_reader R.can_fail reader.new ≡ facts_of_reader R.can_fail reader.old }
    ensures foot { foot_of_reader reader.new ≡ foot_of_reader reader.old }
    ensures read { HasRead result (facts_of_reader R.can_fail reader.old) (reads_of_source R.reads reader.old) (reads_of_source R.reads reader.new) (k ∷ []) }
{
    let dtype = DType::Primitive(reader.ptype(), reader.nullability());
    let len = reader.chunks()[k].statistics.len;
    fitting(stored_array(alloc, reader, k)?, dtype, len)
}

/// Whether chunk `k` holds a column whose type and statistics the foot says.
fn verify_chunk<R: ReadAt + Drop>(
    alloc: Global,
    reader: &mut Reader<R>,
    k: usize,
) -> Result<(), ColumnFileError>
    requires { k < length (foot_of_reader reader.old).chunks }
    ensures verdict { (bytes : List ℕ) (e : ChunkEntry) → IsReaderOf R.contents reader.old bytes → slice_get (foot_of_reader reader.old).chunks k ≡ Some e → IsChunkVerdict (source_can_fail R.can_fail reader.old) bytes (foot_of_reader reader.old) e result }
    ensures reader { (bytes : List ℕ) → IsReaderOf R.contents reader.old bytes → IsReaderOf R.contents reader.new bytes }
    ensures facts { facts_of_reader R.can_fail reader.new ≡ facts_of_reader R.can_fail reader.old }
    ensures foot { foot_of_reader reader.new ≡ foot_of_reader reader.old }
{
    let statistics = reader.chunks()[k].statistics;
    let array = fitting_array(alloc, reader, k)?;
    let plain = array.to_primitive(alloc)?;
    if ChunkStatistics::of(&plain) == statistics {
        Ok(())
    } else {
        Err(ColumnFileError::BadStatistics)
    }
}

/// Reads each chunk of a file, and compares its type and its statistics with what the foot says. Where nothing is refused, the
/// answers of all scans of the file are those of its columns.
///
/// # Errors
/// Those of the first chunk that is refused: `BadChunk`, `BadContainer`, those of the container's array, `TypeMismatch` where it
/// is of another type than the file, `BadStatistics` where a statistic is not that of its items. `ReadFault` where a read fails,
/// and `OutOfMemory` where a growth of memory is refused, at any time.
pub fn verify<R: ReadAt + Drop>(
    alloc: Global,
    reader: &mut Reader<R>,
) -> Result<(), ColumnFileError>
    ensures verdict { (bytes : List ℕ) → IsReaderOf R.contents reader.old bytes → IsVerdict (source_can_fail R.can_fail reader.old) bytes (foot_of_reader reader.old) result }
    ensures holds { (bytes : List ℕ) → IsReaderOf R.contents reader.old bytes → OnOk result ((columns : List Column) × HoldsColumns R.contents reader.new columns) }
    ensures reader { (bytes : List ℕ) → IsReaderOf R.contents reader.old bytes → IsReaderOf R.contents reader.new bytes }
    ensures facts { facts_of_reader R.can_fail reader.new ≡ facts_of_reader R.can_fail reader.old }
    ensures foot { foot_of_reader reader.new ≡ foot_of_reader reader.old }
{
    for k in 0..reader.chunks().len() {
        verify_chunk(alloc, reader, k)?;
    }
    Ok(())
}

/// A column in a file whose statistics are those of its chunks, as `append` writes them and `verify` finds them.
impl<R: ReadAt + Drop> ColumnChunks for Reader<R> {
    ghost use Rattle.flcol_file.specs.Facts.{facts_hold};

    ghost facts = { λ r. facts_of_reader R.can_fail r };

    ghost holds = { λ r columns. HoldsColumns R.contents r columns };

    ghost reads = { λ r. reads_of_source R.reads r };

    ghost facts_hold = { λ r columns h. facts_hold R.contents R.can_fail r columns h };

    fn ptype(&self) -> PType {
        self.ptype()
    }

    fn nullability(&self) -> Nullability {
        self.nullability()
    }

    fn chunk_count(&self) -> usize {
        self.chunks().len()
    }

    fn statistics(&self, k: usize) -> ChunkStatistics {
        self.chunks()[k].statistics
    }

    fn array(&mut self, alloc: Global, k: usize) -> Result<ArrayRef, ColumnFileError> {
        fitting_array(alloc, self, k)
    }
}
