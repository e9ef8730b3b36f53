//! Rising indices, and the rank of a number among them.

ghost use Rattle.std.specs.Prelude.{◌≡◌, ◌+◌, ◌≤◌, IsTrue, length, unsigned_abs, nat_lt};
ghost use Rattle.fl_column.specs.Numbers.{numbers, numbers_by};
ghost use Rattle.fl_patches.specs.PatchMaps.{IsSearchRange, count_below, is_rising, rank_of};

use fl_column::{PrimitiveArray, number_at};
use fl_types::{NativePType, match_each_integer_ptype};

/// So many indices are compared one by one; a range of more is halved before.
const COMPARED: usize = 16;

/// How many of the rising indices are below a number.
pub(crate) fn count_below_typed<I: NativePType>(indices: &[I], limit: u128) -> usize
    requires { IsTrue (is_rising (numbers_by I.value indices.now)) }
    ensures { result ≡ count_below limit (numbers_by I.value indices.now) }
{
    indices.partition_point(
        |index: &I| -> bool
            ensures { result ≡ nat_lt (unsigned_abs (I.value index.now)) limit }
        { (index.unsigned_abs() as u128) < limit },
    )
}

/// Whether an index is below a number, of which no more than 64 bits are compared.
#[inline(always)]
fn is_below<I: NativePType>(index: I, limit: u128) -> bool
    ensures { result ≡ nat_lt (unsigned_abs (I.value index)) limit }
{
    let number = index.unsigned_abs();
    limit > u64::MAX as u128 || number < limit as u64
}

/// How many of these indices are below a number, each of them compared.
#[inline(always)]
fn count_each<I: NativePType>(indices: &[I], limit: u128) -> usize
    ensures { result ≡ count_below limit (numbers_by I.value indices.now) }
{
    let mut count = 0;
    for k in 0..indices.len() {
        if is_below(indices[k], limit) {
            count += 1;
        }
    }
    count
}

/// The part of `start..end` where as many of the rising indices end as are below a number, of no more than
/// `COMPARED` indices.
fn narrowed<I: NativePType>(indices: &[I], start: usize, end: usize, limit: u128) -> (usize, usize)
    requires rising { IsTrue (is_rising (numbers_by I.value indices.now)) }
    requires low { start ≤ count_below limit (numbers_by I.value indices.now) }
    requires high { count_below limit (numbers_by I.value indices.now) ≤ end }
    requires within { end ≤ length indices.now }
    ensures low { result.0 ≤ count_below limit (numbers_by I.value indices.now) }
    ensures high { count_below limit (numbers_by I.value indices.now) ≤ result.1 }
    ensures within { result.1 ≤ length indices.now }
    ensures few { result.1 ≤ result.0 + 16 }
{
    let (mut low, mut high) = (start, end);
    while high - low > COMPARED {
        let middle = low + (high - low) / 2;
        if is_below(indices[middle], limit) {
            low = middle + 1;
        } else {
            high = middle;
        }
    }
    (low, high)
}

/// How many of the rising indices are below a number, where that is known to be from `start` to `end`.
/// Halving makes the range short, and then so many indices are compared, whatever is left of it, if there
/// are so many: that takes no jump that the processor has to guess.
fn count_between<I: NativePType>(indices: &[I], start: usize, end: usize, limit: u128) -> usize
    requires rising { IsTrue (is_rising (numbers_by I.value indices.now)) }
    requires low { start ≤ count_below limit (numbers_by I.value indices.now) }
    requires high { count_below limit (numbers_by I.value indices.now) ≤ end }
    requires within { end ≤ length indices.now }
    ensures { result ≡ count_below limit (numbers_by I.value indices.now) }
{
    let (start, end) = narrowed(indices, start, end, limit);
    if indices.len() - start >= COMPARED {
        start + count_each(&indices[start..start + COMPARED], limit)
    } else {
        start + count_each(&indices[start..end], limit)
    }
}

/// The rank of a number among the rising indices, if it is one of them. It is searched in
/// `start..end`.
pub fn rank_between<I: NativePType>(
    indices: &[I],
    start: usize,
    end: usize,
    index: u128,
) -> Option<usize>
    requires rising { IsTrue (is_rising (numbers_by I.value indices.now)) }
    requires range { IsSearchRange index (numbers_by I.value indices.now) start end }
    ensures { result ≡ rank_of index (numbers_by I.value indices.now) }
{
    let rank = count_between(indices, start, end, index);
    if rank < end && number_at(indices, rank) as u128 == index {
        Some(rank)
    } else {
        None
    }
}

/// The rank of a number among the rising indices, if it is one of them.
pub fn rank_typed<I: NativePType>(indices: &[I], index: u128) -> Option<usize>
    requires { IsTrue (is_rising (numbers_by I.value indices.now)) }
    ensures { result ≡ rank_of index (numbers_by I.value indices.now) }
{
    rank_between(indices, 0, indices.len(), index)
}

fn rank_in_typed<I: NativePType>(
    indices: &PrimitiveArray,
    start: usize,
    end: usize,
    index: u128,
) -> Option<usize>
    requires same { indices.now.ptype ≡ I.PTYPE }
    requires rising { IsTrue (is_rising (numbers indices.now)) }
    requires range { IsSearchRange index (numbers indices.now) start end }
    ensures { result ≡ rank_of index (numbers indices.now) }
{
    rank_between(indices.as_slice::<I>(), start, end, index)
}

/// The rank of a number among the rising indices, if it is one of them. It is searched in
/// `start..end`.
pub(crate) fn rank_in(
    indices: &PrimitiveArray,
    start: usize,
    end: usize,
    index: u128,
) -> Option<usize>
    requires rising { IsTrue (is_rising (numbers indices.now)) }
    requires range { IsSearchRange index (numbers indices.now) start end }
    ensures { result ≡ rank_of index (numbers indices.now) }
{
    match_each_integer_ptype!(indices.ptype(), rank_in_typed(indices, start, end, index))
}

fn count_in_typed<I: NativePType>(indices: &PrimitiveArray, limit: u128) -> usize
    requires same { indices.now.ptype ≡ I.PTYPE }
    requires rising { IsTrue (is_rising (numbers indices.now)) }
    ensures { result ≡ count_below limit (numbers indices.now) }
{
    count_below_typed(indices.as_slice::<I>(), limit)
}

/// How many of the rising indices are below a number.
pub(crate) fn count_in(indices: &PrimitiveArray, limit: u128) -> usize
    requires { IsTrue (is_rising (numbers indices.now)) }
    ensures { result ≡ count_below limit (numbers indices.now) }
{
    match_each_integer_ptype!(indices.ptype(), count_in_typed(indices, limit))
}
