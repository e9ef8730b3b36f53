//! Frames of reference of items none of which is null: loops over integers, in which the compiler works on
//! several at once.

ghost use Rattle.std.specs.Prelude.{◌≡◌, ◌<◌, ◌≤◌, ◌+◌, ◌-◌, ◌*◌, ◌^◌, ◌++◌, ◌+ℤ◌, ◌-ℤ◌, Some, IfOk, OnOk, length, map, min, option_map};
ghost use Rattle.fl_types.specs.Integers.{wrap};
ghost use Rattle.fl_codec.specs.FoRColumns.{least_valid, min_valid, turned};

use crate::chunks::{chunk_count, chunk_end};
use fastlanes::FL_CHUNK_SIZE;
use fl_column::chunk_of;
use fl_types::NativePType;
use num_traits::{WrappingAdd, WrappingSub};
use std::alloc::{AllocError, Global};

/// The smaller of two integers.
pub(crate) fn less<T: NativePType>(x: T, y: T) -> T
    ensures { Some (T.value result) ≡ min_valid (Some (T.value x)) (Some (T.value y)) }
{
    if y < x { y } else { x }
}

/// The smaller of two integers, of which each may be missing.
pub(crate) fn lesser<T: NativePType>(x: Option<T>, y: Option<T>) -> Option<T>
    ensures { option_map T.value result ≡ min_valid (option_map T.value x) (option_map T.value y) }
{
    match (x, y) {
        (Some(x), Some(y)) => Some(less(x, y)),
        (None, y) => y,
        (x, None) => x,
    }
}

/// An integer minus a reference, modulo 2 to the type's bits.
pub(crate) fn minus<T: NativePType + WrappingSub>(item: T, reference: T) -> T
    ensures { T.value result ≡ wrap T.PTYPE (T.value item -ℤ T.value reference) }
{
    item.wrapping_sub(&reference)
}

/// The minimum of these integers, each minus an origin, if there is one.
pub(crate) fn least_of<T: NativePType + WrappingSub>(items: &[T], origin: T) -> Option<T>
    ensures { option_map T.value result ≡ least_valid (map (λ z. Some z) (map (λ x. turned T.PTYPE (T.value origin) (T.value x)) items.now)) }
{
    if items.len() == 0 {
        return None;
    }
    let mut least = minus(items[0], origin);
    for i in 1..items.len() {
        let item = minus(items[i], origin);
        least = less(least, item);
    }
    Some(least)
}

/// An integer plus a reference, modulo 2 to the type's bits.
pub(crate) fn plus<T: NativePType + WrappingAdd>(item: T, reference: T) -> T
    ensures { T.value result ≡ wrap T.PTYPE (T.value item +ℤ T.value reference) }
{
    item.wrapping_add(&reference)
}

/// Writes each integer minus a reference.
pub(crate) fn subtract<T: NativePType + WrappingSub>(items: &[T], reference: T, slots: &mut [T])
    requires { length slots.old ≡ length items.now }
    ensures { map T.value slots.new ≡ map (λ z. wrap T.PTYPE (z -ℤ T.value reference)) (map T.value items.now) }
{
    for i in 0..items.len() {
        slots[i] = minus(items[i], reference);
    }
}

/// Appends each integer minus a reference to the slots. They are written while the memory that is made for them is in
/// the cache.
pub(crate) fn push_differences<T: NativePType + WrappingSub>(
    items: &[T],
    reference: T,
    slots: &mut Vec<T>,
) -> Result<(), AllocError>
    requires { length slots.old.items + length items.now < 2 ^ 64 }
    ensures { OnOk result (map T.value slots.new.items ≡ map T.value slots.old.items ++ map (λ z. wrap T.PTYPE (z -ℤ T.value reference)) (map T.value items.now)) }
{
    let start = slots.len();
    let end = start + items.len();
    slots.resize(end, T::zero())?;
    let part = &mut slots[start..end];
    subtract(items, reference, part);
    Ok(())
}

/// Where the items of chunk `k` begin and end among `len` items, of which the first is at `offset`.
pub(crate) fn part_of_chunk(k: usize, offset: usize, len: usize) -> (usize, usize)
    requires few { offset + len < 2 ^ 64 }
    requires chunk { 1024 * k ≤ offset + len }
    ensures start { result.0 ≡ 1024 * k - offset }
    ensures end { result.1 ≡ min (1024 * (k + 1)) (offset + len) - offset }
    ensures order { result.0 ≤ result.1 }
    ensures range { result.1 ≤ len }
{
    let start = (FL_CHUNK_SIZE * k).saturating_sub(offset);
    let end = chunk_end(k, offset + len).saturating_sub(offset);
    (start, end)
}

/// Each integer minus a reference, modulo 2 to the type's bits.
pub(crate) fn differences<T: NativePType + WrappingSub>(
    alloc: Global,
    items: &[T],
    reference: T,
) -> Result<Vec<T>, AllocError>
    ensures { IfOk result (λ v. map T.value v.items ≡ map (λ z. wrap T.PTYPE (z -ℤ T.value reference)) (map T.value items.now)) }
{
    let mut slots = Vec::with_capacity(alloc, items.len())?;
    for k in 0..chunk_count(items.len()) {
        push_differences(chunk_of(items, k), reference, &mut slots)?;
    }
    Ok(slots)
}
