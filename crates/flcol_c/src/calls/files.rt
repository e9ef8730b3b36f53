//! The calls that read and write files of chunks.

ghost use Rattle.std.specs.Prelude.{◌≡◌, ◌≢◌, IfOk, List, None, Some, length, map, count_by, is_none, pos};
ghost use Rattle.fl_types.specs.declared.dtype.DType.TheVariants.{Primitive};
ghost use Rattle.fl_column.specs.Columns.{Column};
ghost use Rattle.fl_file.specs.FileReading.{foot_of_file, last_foot_of_file};
ghost use Rattle.fl_file.specs.Files.{padded_foot};
ghost use Rattle.fl_file.specs.Foot.{foot_bytes};
ghost use Rattle.fl_file.specs.Pruning.{passes};
ghost use Rattle.fl_file.specs.Statistics.{extremes_among, total};
ghost use Rattle.flcol_container.specs.Container.{dtype_byte};
ghost use Rattle.flcol_file.specs.Chunked.{items_in, valid_in};
ghost use Rattle.flcol_c.specs.declared.fault.Fault.{Fault};
ghost use Rattle.flcol_c.specs.Containers.{Holds, IsArrayOf};
ghost use Rattle.flcol_c.specs.Feet.{AreExtremesSaid, IsFootStatus, IsLastEnd, IsPlanIn, IsPutOver, bytes_said, chunks_fault, file_fault, finish_fault, foot_said, test_between, test_said, word_fault};
ghost use Rattle.flcol_c.specs.Files.{FileHolds, IsAppendStatus, IsAppended, IsChunkStatus, IsSumStatus, IsVerdictStatus};
ghost use Rattle.flcol_c.specs.Held.{IsKept};
ghost use Rattle.flcol_c.specs.Records.{fields_in, fields_of, value_of};
ghost use Rattle.flcol_c.specs.Statuses.{IsStatusAfter, IsStatusOf, fault_in, status_of};

use crate::fault::{DONE, Fault, status_of, write_answer};
use crate::feet::{foot_of, last_end, plan_into, test_between, test_said, write_chunks};
use crate::handle::ArrayHandle;
use crate::kept::keep;
use crate::looks::dtype_byte;
use crate::records::{ChunkRecord, Integer, integer_of, value_of};
use crate::{files, finishing};
use fl_file::Extremes;
use fl_types::DType;
use std::alloc::Global;

/// Writes the byte of the type of a file's items, and how many chunks it has.
#[unsafe(no_mangle)]
pub extern "C" fn flcol_file_look(
    alloc: Global,
    bytes: &[u8],
    dtype: &mut u8,
    count: &mut usize,
) -> i32
    ensures status { IsStatusOf (file_fault (foot_of_file bytes.now)) result }
    ensures found { result ≡ pos 0 → IfOk (foot_of_file bytes.now) (λ foot. (dtype.new ≡ dtype_byte (Primitive foot.ptype foot.nullability)) × (count.new ≡ length foot.chunks)) }
    ensures unfound { result ≢ pos 0 → (dtype.new ≡ dtype.old) × (count.new ≡ count.old) }
{
    match foot_of(alloc, bytes) {
        Ok(foot) => {
            *dtype = dtype_byte(DType::Primitive(foot.ptype, foot.nullability));
            *count = foot.chunks.len();
            DONE
        }
        Err(fault) => fault.status(),
    }
}

/// Writes what the foot of a file says of each chunk.
#[unsafe(no_mangle)]
pub extern "C" fn flcol_file_chunks(alloc: Global, bytes: &[u8], chunks: &mut [ChunkRecord]) -> i32
    ensures status { IsStatusOf (chunks_fault (length chunks.old) (foot_of_file bytes.now)) result }
    ensures written { result ≡ pos 0 → IfOk (foot_of_file bytes.now) (λ foot. map fields_in chunks.new ≡ map fields_of foot.chunks) }
    ensures unwritten { result ≢ pos 0 → chunks.new ≡ chunks.old }
{
    status_of(write_chunks(alloc, bytes, chunks))
}

/// Writes the length of the longest beginning of a file that has a foot and ends at a multiple of 64.
#[unsafe(no_mangle)]
pub extern "C" fn flcol_file_recover(alloc: Global, bytes: &[u8], end: &mut usize) -> i32
    ensures status { IsStatusOf (file_fault (last_foot_of_file bytes.now)) result }
    ensures found { result ≡ pos 0 → IsLastEnd bytes.now end.new }
    ensures unfound { result ≢ pos 0 → end.new ≡ end.old }
{
    write_answer(last_end(alloc, bytes), end)
}

/// Writes of each chunk of a file what its statistics say of how its items compare with a constant.
#[unsafe(no_mangle)]
pub extern "C" fn flcol_file_plan(
    alloc: Global,
    bytes: &[u8],
    operator: u8,
    constant: &Integer,
    plan: &mut [u8],
) -> i32
    ensures status { IsStatusAfter (fault_in (test_said operator (value_of constant.now))) (chunks_fault (length plan.old) (foot_of_file bytes.now)) result }
    ensures planned { result ≡ pos 0 → IfOk (test_said operator (value_of constant.now)) (λ test. IfOk (foot_of_file bytes.now) (λ foot. IsPlanIn test foot.chunks plan.new)) }
    ensures unwritten { result ≢ pos 0 → plan.new ≡ plan.old }
{
    match test_said(operator, value_of(constant)) {
        Ok(test) => status_of(plan_into(alloc, bytes, &test, plan)),
        Err(fault) => fault.status(),
    }
}

/// Writes of each chunk of a file what its statistics say of whether its items lie between two bounds, without a bound itself
/// if its `strict` is not 0.
#[unsafe(no_mangle)]
pub extern "C" fn flcol_file_plan_between(
    alloc: Global,
    bytes: &[u8],
    lower: &Integer,
    upper: &Integer,
    lower_strict: u8,
    upper_strict: u8,
    plan: &mut [u8],
) -> i32
    ensures status { IsStatusOf (chunks_fault (length plan.old) (foot_of_file bytes.now)) result }
    ensures planned { result ≡ pos 0 → IfOk (foot_of_file bytes.now) (λ foot. IsPlanIn (test_between (value_of lower.now, value_of upper.now) (lower_strict, upper_strict)) foot.chunks plan.new) }
    ensures unwritten { result ≢ pos 0 → plan.new ≡ plan.old }
{
    let bounds = (value_of(lower), value_of(upper));
    let test = test_between(bounds, (lower_strict, upper_strict));
    status_of(plan_into(alloc, bytes, &test, plan))
}

/// Writes the bytes that end a file of `place` bytes, zeros and a foot that says its type and its chunks, and how many these are.
/// The bytes behind them stay as they are.
#[unsafe(no_mangle)]
pub extern "C" fn flcol_file_finish(
    alloc: Global,
    dtype: u8,
    chunks: &[ChunkRecord],
    place: u64,
    bytes: &mut [u8],
    written: &mut usize,
) -> i32
    ensures status { IsStatusOf (finish_fault place (length bytes.old) (foot_said dtype chunks.now place)) result }
    ensures written { result ≡ pos 0 → IfOk (foot_said dtype chunks.now place) (λ foot. IsPutOver bytes.old bytes.new written.new (padded_foot place (foot_bytes foot))) }
    ensures unwritten { result ≢ pos 0 → (bytes.new ≡ bytes.old) × (written.new ≡ written.old) }
{
    write_answer(
        finishing::finish(alloc, dtype, chunks, place, bytes),
        written,
    )
}

/// Makes the array of a chunk, whose bytes are copied. No foot is read.
#[unsafe(no_mangle)]
pub extern "C" fn flcol_file_chunk(
    alloc: Global,
    bytes: &[u8],
    chunk: &ChunkRecord,
    out: &mut ArrayHandle,
) -> i32
    ensures status { IsChunkStatus bytes.now chunk.now result }
    ensures made { result ≡ pos 0 → Holds (IsArrayOf (bytes_said bytes.now chunk.now)) out.new.tree }
    ensures unmade { result ≢ pos 0 → out.new ≡ out.old }
{
    keep(out, alloc, files::array_said(alloc, bytes, chunk))
}

/// Reads each chunk of a file, and compares it with what the foot says.
#[unsafe(no_mangle)]
pub extern "C" fn flcol_file_verify(alloc: Global, bytes: &[u8]) -> i32
    ensures foot { IsFootStatus bytes.now result }
    ensures status { IsVerdictStatus bytes.now result }
    ensures verified { result ≡ pos 0 → (columns : List Column) × FileHolds bytes.now columns }
{
    match files::verify(alloc, bytes) {
        Ok(()) => DONE,
        Err(fault) => fault.status(),
    }
}

/// Writes how many items a file has, as its foot says.
#[unsafe(no_mangle)]
pub extern "C" fn flcol_file_len_trusting(alloc: Global, bytes: &[u8], items: &mut u64) -> i32
    ensures foot { IsFootStatus bytes.now result }
    ensures status { (columns : List Column) → FileHolds bytes.now columns → IsStatusOf (word_fault (length (items_in columns))) result }
    ensures found { (columns : List Column) → FileHolds bytes.now columns → result ≡ pos 0 → items.new ≡ length (items_in columns) }
    ensures unfound { result ≢ pos 0 → items.new ≡ items.old }
{
    write_answer(files::len_trusting(alloc, bytes), items)
}

/// Writes how many items of a file are null, as its foot says.
#[unsafe(no_mangle)]
pub extern "C" fn flcol_file_null_count_trusting(
    alloc: Global,
    bytes: &[u8],
    nulls: &mut u64,
) -> i32
    ensures foot { IsFootStatus bytes.now result }
    ensures status { (columns : List Column) → FileHolds bytes.now columns → IsStatusOf (word_fault (count_by is_none (items_in columns))) result }
    ensures found { (columns : List Column) → FileHolds bytes.now columns → result ≡ pos 0 → nulls.new ≡ count_by is_none (items_in columns) }
    ensures unfound { result ≢ pos 0 → nulls.new ≡ nulls.old }
{
    write_answer(files::null_count_trusting(alloc, bytes), nulls)
}

/// Writes the sum of the valid items of a file, as its foot says.
#[unsafe(no_mangle)]
pub extern "C" fn flcol_file_sum_trusting(alloc: Global, bytes: &[u8], sum: &mut Integer) -> i32
    ensures foot { IsFootStatus bytes.now result }
    ensures status { (columns : List Column) → FileHolds bytes.now columns → IsSumStatus columns result }
    ensures found { (columns : List Column) → FileHolds bytes.now columns → result ≡ pos 0 → value_of sum.new ≡ total (valid_in columns) }
    ensures unfound { result ≢ pos 0 → sum.new ≡ sum.old }
{
    match files::sum_trusting(alloc, bytes) {
        Ok(total) => {
            *sum = integer_of(total);
            DONE
        }
        Err(fault) => fault.status(),
    }
}

/// Writes the least and the greatest valid item of a file, as its foot says, and 0, or two zeros and 1 if no item is valid.
#[unsafe(no_mangle)]
pub extern "C" fn flcol_file_min_max_trusting(
    alloc: Global,
    bytes: &[u8],
    least: &mut Integer,
    greatest: &mut Integer,
    is_none: &mut u8,
) -> i32
    ensures foot { IsFootStatus bytes.now result }
    ensures status { (columns : List Column) → FileHolds bytes.now columns → IsStatusOf None result }
    ensures found { (columns : List Column) → FileHolds bytes.now columns → result ≡ pos 0 → AreExtremesSaid (extremes_among (valid_in columns)) (value_of least.new) (value_of greatest.new) is_none.new }
    ensures unfound { result ≢ pos 0 → (least.new ≡ least.old) × (greatest.new ≡ greatest.old) × (is_none.new ≡ is_none.old) }
{
    let found = match files::min_max_trusting(alloc, bytes) {
        Ok(found) => found,
        Err(fault) => return fault.status(),
    };
    *is_none = u8::from(found.is_none());
    let extremes = found.unwrap_or(Extremes {
        least: 0,
        greatest: 0,
    });
    *least = integer_of(extremes.least);
    *greatest = integer_of(extremes.greatest);
    DONE
}

/// Writes how many valid items of a file compare so with a constant. Only the chunks are read of which the foot leaves that open.
#[unsafe(no_mangle)]
pub extern "C" fn flcol_file_count_trusting(
    alloc: Global,
    bytes: &[u8],
    operator: u8,
    constant: &Integer,
    passing: &mut u64,
) -> i32
    ensures operator { (fault : Fault) → fault_in (test_said operator (value_of constant.now)) ≡ Some fault → result ≡ status_of fault }
    ensures foot { fault_in (test_said operator (value_of constant.now)) ≡ None → IsFootStatus bytes.now result }
    ensures status { (columns : List Column) → FileHolds bytes.now columns → IfOk (test_said operator (value_of constant.now)) (λ test. IsStatusOf (word_fault (count_by (passes test) (valid_in columns))) result) }
    ensures counted { (columns : List Column) → FileHolds bytes.now columns → result ≡ pos 0 → IfOk (test_said operator (value_of constant.now)) (λ test. passing.new ≡ count_by (passes test) (valid_in columns)) }
    ensures uncounted { result ≢ pos 0 → passing.new ≡ passing.old }
{
    match test_said(operator, value_of(constant)) {
        Ok(test) => write_answer(files::count_trusting(alloc, bytes, &test), passing),
        Err(fault) => fault.status(),
    }
}

/// Writes how many valid items of a file lie between two bounds, without a bound itself if its `strict` is not 0. Only the chunks
/// are read of which the foot leaves that open.
#[unsafe(no_mangle)]
pub extern "C" fn flcol_file_count_between_trusting(
    alloc: Global,
    bytes: &[u8],
    lower: &Integer,
    upper: &Integer,
    lower_strict: u8,
    upper_strict: u8,
    passing: &mut u64,
) -> i32
    ensures foot { IsFootStatus bytes.now result }
    ensures status { (columns : List Column) → FileHolds bytes.now columns → IsStatusOf (word_fault (count_by (passes (test_between (value_of lower.now, value_of upper.now) (lower_strict, upper_strict))) (valid_in columns))) result }
    ensures counted { (columns : List Column) → FileHolds bytes.now columns → result ≡ pos 0 → passing.new ≡ count_by (passes (test_between (value_of lower.now, value_of upper.now) (lower_strict, upper_strict))) (valid_in columns) }
    ensures uncounted { result ≢ pos 0 → passing.new ≡ passing.old }
{
    let bounds = (value_of(lower), value_of(upper));
    let test = test_between(bounds, (lower_strict, upper_strict));
    write_answer(files::count_trusting(alloc, bytes, &test), passing)
}

/// Writes the bytes that are to be added to a file of `place` bytes for an array: zeros up to a multiple of 64, and its container;
/// how many these are; and what is known of the chunk. The bytes behind them stay as they are.
#[unsafe(no_mangle)]
pub extern "C" fn flcol_file_append(
    alloc: Global,
    array: &mut ArrayHandle,
    place: u64,
    bytes: &mut [u8],
    written: &mut usize,
    chunk: &mut ChunkRecord,
) -> i32
    ensures kept { IsKept array.old array.new }
    ensures status { IsAppendStatus place (length bytes.old) array.old.tree result }
    ensures written { result ≡ pos 0 → Holds (IsAppended place bytes.old bytes.new written.new chunk.new) array.old.tree }
    ensures unwritten { result ≢ pos 0 → (bytes.new ≡ bytes.old) × (written.new ≡ written.old) × (chunk.new ≡ chunk.old) }
{
    let Some(source) = array.array() else {
        return Fault::NoArray.status();
    };
    match files::append(alloc, source, place, bytes) {
        Ok((record, len)) => {
            *written = len;
            *chunk = record;
            DONE
        }
        Err(fault) => fault.status(),
    }
}
