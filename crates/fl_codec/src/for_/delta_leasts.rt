//! The least deltas of a column, of which none is kept.

ghost use Rattle.std.specs.Prelude.{◌≡◌, ◌++◌, ◌∷◌, [], IfOk, OnOk, Some, length, map, option_map, pos, unwrap_or};
ghost use Rattle.fl_codec.specs.FoRColumns.{chunk_references, least_by, least_valid, min_valid, reading, turned};
ghost use Rattle.fl_codec.specs.Parts.{compress_deltas, items_of_primitive};

use crate::chunks::chunk_count;
use crate::delta::blocks::write_deltas;
use crate::for_::without_nulls::{least_of, lesser};
use crate::for_::{ItemOrder, origin_of, turned};
use fastlanes::{FL_CHUNK_SIZE, FastLanes};
use fl_column::{PhysicalPType, PrimitiveArray};
use fl_types::NativePType;
use num_traits::WrappingSub;
use std::alloc::{AllocError, Global};

/// Adds the least of these integers, each minus an origin, and returns the lesser of it and the least before. What is added
/// has the origin again.
fn push_least<T: NativePType + WrappingSub>(
    integers: &[T],
    origin: T,
    least: Option<T>,
    references: &mut Vec<T>,
) -> Result<Option<T>, AllocError>
    ensures least { IfOk result (λ x. option_map T.value x ≡ min_valid (option_map T.value least) (least_valid (map (λ z. Some z) (map (λ x. turned T.PTYPE (T.value origin) (T.value x)) integers.now)))) }
    ensures references { OnOk result (map T.value references.new.items ≡ map T.value references.old.items ++ unwrap_or (option_map (turned T.PTYPE (T.value origin)) (least_valid (map (λ z. Some z) (map (λ x. turned T.PTYPE (T.value origin) (T.value x)) integers.now)))) (pos 0) ∷ []) }
{
    let first = least_of(integers, origin);
    references.push(turned(first, origin).unwrap_or(T::zero()))?;
    Ok(lesser(least, first))
}

/// The references of a column's deltas by an order, which are the least of each chunk, and the least of all deltas, if
/// there are any. The deltas are made chunk by chunk, and none is kept.
pub fn delta_leasts<T: PhysicalPType + WrappingSub>(
    alloc: Global,
    array: &PrimitiveArray,
    order: ItemOrder,
) -> Result<(Vec<T>, Option<T>), AllocError>
    requires { array.now.ptype ≡ T.PTYPE }
    ensures references { IfOk result (λ leasts. map T.value leasts.0.items ≡ chunk_references (reading order array.now.ptype) (items_of_primitive (compress_deltas array.now).1)) }
    ensures least { IfOk result (λ leasts. option_map T.value leasts.1 ≡ least_by (reading order array.now.ptype) (items_of_primitive (compress_deltas array.now).1)) }
{
    let chunks = chunk_count(array.len());
    let origin = origin_of(order);
    let mut references = Vec::with_capacity(alloc, chunks)?;
    let mut deltas = Vec::with_capacity(alloc, FL_CHUNK_SIZE)?;
    let mut block = [T::Physical::zero(); FL_CHUNK_SIZE];
    let mut stored = [T::Physical::zero(); FL_CHUNK_SIZE];
    let (mut last, mut least) = (T::zero(), None);
    for k in 0..chunks {
        last = write_deltas(array, k, last, &mut block, &mut stored, &mut deltas)?;
        least = push_least(deltas.as_slice(), origin, least, &mut references)?;
    }
    Ok((references, turned(least, origin)))
}
