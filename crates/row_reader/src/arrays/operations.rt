//! Operations on arrays.

use crate::arrays::{Built, building};
use crate::column_rows::types;
use crate::columns::{count, dtype_of};
use fl_array::ArrayRef;
use fl_column::PrimitiveArray;
use fl_ops::{ArrayOps, Op};
use fl_types::{FastLanesError, Mask};
use std::alloc::Global;

/// What reads an operation.
type Read = Result<Op, FastLanesError>;

/// The pairs of numbers that a word names: `2:1,0:2`.
fn pairs_of(alloc: Global, word: &str) -> Result<Vec<(usize, usize)>, FastLanesError> {
    let mut pairs = Vec::new(alloc);
    for pair in word.split(',') {
        let (first, second) = pair.split_once(':').unwrap_or((pair, ""));
        pairs.push((count(first), count(second)))?;
    }
    Ok(pairs)
}

/// The slice between two numbers: `1:3`.
fn slice(rest: &str) -> Op {
    let (start, end) = rest.split_once(':').unwrap_or((rest, ""));
    Op::Slice(count(start)..count(end))
}

/// The operation with a column: a take by its items, of the kind behind `@` where there is one, or a filter by its
/// mask.
fn with_column(alloc: Global, name: &str, column: &PrimitiveArray) -> Read {
    let (name, kind) = name.split_once('@').unwrap_or((name, "plain"));
    match name {
        "take" => Ok(Op::Take(building::array(alloc, kind, column)?)),
        _ => Ok(Op::Filter(types::mask_of(alloc, column)?)),
    }
}

/// The operation that a word names: `slice:1:3`, `ranges:2:1,0:2`, `cast:u8?`, or `filter_none:9`, whose mask keeps none
/// of nine items by its form.
fn without_column(alloc: Global, word: &str) -> Read {
    let (name, rest) = word.split_once(':').unwrap_or((word, ""));
    match name {
        "slice" => Ok(slice(rest)),
        "ranges" => Ok(Op::TakeRanges(pairs_of(alloc, rest)?)),
        "filter_none" => Ok(Op::Filter(Mask::AllFalse(count(rest)))),
        _ => Ok(Op::Cast(dtype_of(rest))),
    }
}

/// Whether an operation takes a column: a word without a colon does, and a take by indices of a kind.
fn takes_column(word: &str) -> bool {
    word.starts_with("take@") || !word.contains(':')
}

/// The operations that words name, of which some take the next of the columns.
pub fn read_all(
    alloc: Global,
    words: &[&str],
    columns: &[PrimitiveArray],
) -> Result<Vec<Op>, FastLanesError> {
    let mut ops = Vec::new(alloc);
    let mut next = 0usize;
    for word in words {
        match columns.get(next) {
            Some(column) if takes_column(word) => {
                next = next.saturating_add(1);
                ops.push(with_column(alloc, word, column)?)?;
            }
            _ => ops.push(without_column(alloc, word)?)?,
        }
    }
    Ok(ops)
}

/// What the call for an operation makes of an array.
pub fn call(alloc: Global, array: &ArrayRef, op: &Op) -> Built {
    match op {
        Op::Slice(range) if range.start <= range.end && range.end <= array.len() => {
            array.slice(alloc, range.start..range.end)
        }
        Op::Slice(_) => Err(FastLanesError::RangeOutOfBounds),
        Op::Take(indices) => array.take(alloc, indices),
        Op::TakeRanges(ranges) => array.take_ranges(alloc, ranges),
        Op::Filter(mask) if mask.len() == array.len() => array.filter(alloc, mask),
        Op::Filter(_) => Err(FastLanesError::MaskLength),
        Op::Cast(target) => array.cast(alloc, *target),
    }
}

/// What calls for operations make of an array, one after another.
pub fn call_all(alloc: Global, array: &ArrayRef, ops: &[Op]) -> Built {
    let mut current = array.try_clone(alloc)?;
    for op in ops {
        current = call(alloc, &current, op)?;
    }
    Ok(current)
}
