//! What is asked of a column in chunks whose statistics are taken as they are: what they say is not read.

ghost use Rattle.std.specs.Prelude.{◌≡◌, ◌<◌, ◌∷◌, [], ℕ, List, Ok, Some, length, slice_get, count_by, is_none};
ghost use Rattle.fl_column.specs.Columns.{Column};
ghost use Rattle.fl_file.specs.declared.pruning.Pruning.{Pruning};
ghost use Rattle.fl_file.specs.Pruning.{IsPruningOf, passes};
ghost use Rattle.fl_file.specs.Statistics.{extremes_among, statistics_of_column, valid_items};
ghost use Rattle.flcol_file.specs.Chunked.{HasRead, IsSumOf, extremes_of_both, items_in, valid_in};
ghost use Rattle.flcol_file.specs.Outcomes.{AnswersFrom};
ghost use Rattle.flcol_file.specs.Plans.{ArePruningsOf, chunks_where, is_open};

use crate::column_chunks::ColumnChunks;
use crate::error::ColumnFileError;
use crate::passing::count_passing;
use fl_column::FastLanesError;
use fl_file::{Extremes, Pruning, Test, prune};
use std::alloc::Global;

/// How many items a column has. No chunk is read.
pub fn len_trusting<C: ColumnChunks>(chunks: &C) -> u128
    ensures { (columns : List Column) → C.holds chunks.now columns → result ≡ length (items_in columns) }
{
    let mut len = 0u128;
    for k in 0..chunks.chunk_count() {
        len += u128::from(chunks.statistics(k).len);
    }
    len
}

/// How many items of a column are null. No chunk is read.
pub fn null_count_trusting<C: ColumnChunks>(chunks: &C) -> u128
    ensures { (columns : List Column) → C.holds chunks.now columns → result ≡ count_by is_none (items_in columns) }
{
    let mut count = 0u128;
    for k in 0..chunks.chunk_count() {
        count += u128::from(chunks.statistics(k).null_count);
    }
    count
}

/// The least and the greatest of two lists.
fn extremes_of_both(a: Option<Extremes>, b: Option<Extremes>) -> Option<Extremes>
    ensures { result ≡ extremes_of_both a b }
{
    match (a, b) {
        (Some(a), Some(b)) => Some(Extremes {
            least: a.least.min(b.least),
            greatest: a.greatest.max(b.greatest),
        }),
        (None, b) => b,
        (a, None) => a,
    }
}

/// The least and the greatest valid item of a column; `None` where no item is valid. No chunk is read.
pub fn min_max_trusting<C: ColumnChunks>(chunks: &C) -> Option<Extremes>
    ensures { (columns : List Column) → C.holds chunks.now columns → result ≡ extremes_among (valid_in columns) }
{
    let mut extremes = None;
    for k in 0..chunks.chunk_count() {
        extremes = extremes_of_both(extremes, chunks.statistics(k).extremes);
    }
    extremes
}

/// The exact sum of the valid items of a column. No chunk is read.
///
/// # Errors
/// `LengthOverflow` where the sum of the items of some first chunks does not fit an `i128`, so that there are 2^63 items or more.
pub fn sum_trusting<C: ColumnChunks>(chunks: &C) -> Result<i128, FastLanesError>
    ensures { (columns : List Column) → C.holds chunks.now columns → IsSumOf columns result }
{
    let mut sum = 0i128;
    for k in 0..chunks.chunk_count() {
        match sum.checked_add(chunks.statistics(k).sum) {
            Some(next) => sum = next,
            None => return Err(FastLanesError::LengthOverflow),
        }
    }
    Ok(sum)
}

/// How many items of chunk `k` are not null and pass a test. The chunk is read only where its statistics leave that open.
fn count_in_chunk<C: ColumnChunks>(
    alloc: Global,
    chunks: &mut C,
    k: usize,
    test: &Test,
) -> Result<u64, ColumnFileError>
    requires { k < length (C.facts chunks.old).statistics }
    ensures count { (columns : List Column) (c : Column) → C.holds chunks.old columns → slice_get columns k ≡ Some c → AnswersFrom (C.facts chunks.old).can_fail (λ n. n) result (Ok (count_by (passes test.now) (valid_items c))) }
    ensures read { (columns : List Column) (c : Column) (p : Pruning) → C.holds chunks.old columns → slice_get columns k ≡ Some c → IsPruningOf test.now (statistics_of_column c) p → HasRead result (C.facts chunks.old) (C.reads chunks.old) (C.reads chunks.new) (chunks_where is_open k (p ∷ [])) }
    ensures facts { C.facts chunks.new ≡ C.facts chunks.old }
    ensures holds { (columns : List Column) → C.holds chunks.old columns → C.holds chunks.new columns }
{
    let statistics = chunks.statistics(k);
    match prune(&statistics, test) {
        Pruning::Skip => Ok(0),
        Pruning::All => Ok(statistics.len.saturating_sub(statistics.null_count)),
        Pruning::Some => {
            let array = chunks.array(alloc, k)?;
            Ok(count_passing(alloc, &array, test)? as u64)
        }
    }
}

/// How many items of a column are not null and pass a test. Only the chunks are read whose statistics leave that open.
///
/// # Errors
/// Those of reading these.
pub fn count_trusting<C: ColumnChunks>(
    alloc: Global,
    chunks: &mut C,
    test: &Test,
) -> Result<u128, ColumnFileError>
    ensures count { (columns : List Column) → C.holds chunks.old columns → AnswersFrom (C.facts chunks.old).can_fail (λ n. n) result (Ok (count_by (passes test.now) (valid_in columns))) }
    ensures read { (columns : List Column) (plan : List Pruning) → C.holds chunks.old columns → ArePruningsOf test.now (C.facts chunks.old).statistics plan → HasRead result (C.facts chunks.old) (C.reads chunks.old) (C.reads chunks.new) (chunks_where is_open 0 plan) }
    ensures facts { C.facts chunks.new ≡ C.facts chunks.old }
    ensures holds { (columns : List Column) → C.holds chunks.old columns → C.holds chunks.new columns }
{
    let mut count = 0u128;
    for k in 0..chunks.chunk_count() {
        count += u128::from(count_in_chunk(alloc, chunks, k, test)?);
    }
    Ok(count)
}
