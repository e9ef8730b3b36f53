//! The least, the greatest and the sum of integers that lie side by side.

ghost use Rattle.std.specs.Prelude.{◌≡◌, ◌+◌, ◌-◌, ◌<◌, ◌≤◌, ◌^◌, ◌+ℤ◌, Some, fold, length, map, unsigned_abs};
ghost use Rattle.std.specs.Int.{int_max, int_min};
ghost use Rattle.fl_types.specs.Bits.{kept};
ghost use Rattle.fl_column.specs.Queries.{are_sorted};
ghost use Rattle.fl_file.specs.Statistics.{extremes_among, extremes_with, total};

use crate::statistics::Extremes;
use fl_column::{BitList, NativePType, is_less};

/// The least and the greatest of integers, if there is one, and their sum.
#[derive(Clone, Copy)]
pub(crate) struct Summary {
    /// The least and the greatest.
    pub(crate) extremes: Option<Extremes>,
    /// The sum.
    pub(crate) sum: i128,
}

/// A sum with a further integer, which has at most 64 bits.
fn added<T: NativePType>(sum: i128, item: T) -> i128
    requires { unsigned_abs sum ≤ 2 ^ 127 - 2 ^ 64 }
    ensures sum { result ≡ sum +ℤ T.value item }
    ensures bound { unsigned_abs result ≤ unsigned_abs sum + 2 ^ 64 }
{
    // For the proof: an absolute value has 64 bits.
    let _magnitude = item.unsigned_abs();
    sum + item.as_i128()
}

/// The sum of integers.
fn total_of<T: NativePType>(items: &[T]) -> i128
    requires { length items.now < 2 ^ 63 }
    ensures { result ≡ total (map T.value items.now) }
{
    let mut sum = 0i128;
    for item in items {
        sum = added(sum, *item);
    }
    sum
}

/// The lesser of two integers.
fn lesser<T: NativePType>(x: T, y: T) -> T
    ensures { T.value result ≡ int_min (T.value x) (T.value y) }
{
    if is_less(y, x) { y } else { x }
}

/// The greater of two integers.
fn greater<T: NativePType>(x: T, y: T) -> T
    ensures { T.value result ≡ int_max (T.value x) (T.value y) }
{
    if is_less(x, y) { y } else { x }
}

/// The least and the greatest of an integer and these.
fn bounds_with<T: NativePType>(first: T, items: &[T]) -> (T, T)
    ensures least { T.value result.0 ≡ fold int_min (T.value first) (map T.value items.now) }
    ensures greatest { T.value result.1 ≡ fold int_max (T.value first) (map T.value items.now) }
{
    let mut least = first;
    let mut greatest = first;
    for item in items {
        least = lesser(least, *item);
        greatest = greater(greatest, *item);
    }
    (least, greatest)
}

/// The least and the greatest of integers, if there is one.
fn extremes_of<T: NativePType>(items: &[T]) -> Option<Extremes>
    ensures { result ≡ extremes_among (map T.value items.now) }
{
    if items.is_empty() {
        return None;
    }
    let (least, greatest) = bounds_with(items[0], items);
    Some(Extremes {
        least: least.as_i128(),
        greatest: greatest.as_i128(),
    })
}

/// Whether no integer is above the next.
pub(crate) fn rise<T: NativePType>(items: &[T]) -> bool
    ensures { result ≡ are_sorted (map (λ z. Some z) (map T.value items.now)) }
{
    for i in 1..items.len() {
        if is_less(items[i], items[i - 1]) {
            return false;
        }
    }
    true
}

/// What is known of integers.
pub(crate) fn summary_of<T: NativePType>(items: &[T]) -> Summary
    requires { length items.now < 2 ^ 63 }
    ensures extremes { result.extremes ≡ extremes_among (map T.value items.now) }
    ensures sum { result.sum ≡ total (map T.value items.now) }
{
    Summary {
        extremes: extremes_of(items),
        sum: total_of(items),
    }
}

/// The least and the greatest with a further integer.
fn extremes_with(extremes: Option<Extremes>, item: i128) -> Option<Extremes>
    ensures { result ≡ extremes_with extremes item }
{
    match extremes {
        Some(extremes) => Some(Extremes {
            least: extremes.least.min(item),
            greatest: extremes.greatest.max(item),
        }),
        None => Some(Extremes {
            least: item,
            greatest: item,
        }),
    }
}

/// What is known with a further integer.
fn summary_with<T: NativePType>(summary: Summary, item: T) -> Summary
    requires { unsigned_abs summary.sum ≤ 2 ^ 127 - 2 ^ 64 }
    ensures extremes { result.extremes ≡ extremes_with summary.extremes (T.value item) }
    ensures sum { result.sum ≡ summary.sum +ℤ T.value item }
    ensures bound { unsigned_abs result.sum ≤ unsigned_abs summary.sum + 2 ^ 64 }
{
    Summary {
        extremes: extremes_with(summary.extremes, item.as_i128()),
        sum: added(summary.sum, item),
    }
}

/// What is known of the integers whose bits are set.
pub(crate) fn summary_of_valid<T: NativePType>(items: &[T], bits: &BitList) -> Summary
    requires few { length items.now < 2 ^ 63 }
    requires bits { length bits.now ≡ length items.now }
    ensures extremes { result.extremes ≡ extremes_among (kept bits.now (map T.value items.now)) }
    ensures sum { result.sum ≡ total (kept bits.now (map T.value items.now)) }
{
    let mut summary = Summary {
        extremes: None,
        sum: 0,
    };
    for i in 0..items.len() {
        if bits.get(i) {
            summary = summary_with(summary, items[i]);
        }
    }
    summary
}
