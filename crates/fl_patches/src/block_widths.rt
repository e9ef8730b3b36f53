//! A width for each block of 1024 items.

ghost use Rattle.std.specs.Prelude.{◌≡◌, ◌+◌, ◌*◌, ◌<◌, ◌&&◌, pos, int_lt, Err, IfOk, IsTrue, None, Ok, length, map, nat_le, nat_lt, not, slice_index, slice_index_or, if◌then◌else◌};
ghost use Rattle.std.specs.List.{list_all, list_any};
ghost use Rattle.fl_types.specs.Bits.{between};
ghost use Rattle.fl_types.specs.declared.error.FastLanesError.TheVariants.{NegativeValue};
ghost use Rattle.fl_types.specs.Integers.{bits_of_type, fits, is_unsigned};
ghost use Rattle.fl_types.specs.Refusals.{Answers};
ghost use Rattle.fl_types.specs.Validities.{covers, items_of};
ghost use Rattle.fl_column.specs.Columns.{option_all};
ghost use Rattle.fl_patches.specs.Costs.{CostLeast, best_width, block_histogram, choose_widths, chosen_widths, count_above};
ghost use Rattle.fl_patches.specs.Exceptions.{is_negative};

use crate::best_width::best_of;
use crate::histogram::{clear, count_items, counts_signs};
use crate::patterns::type_bits;
use fastlanes::FL_CHUNK_SIZE;
use fl_column::laws::stored_integers_are_in_range;
use fl_column::{PhysicalPType, PrimitiveArray, chunk_bounds, chunk_count};
use fl_types::{FastLanesError, NativePType, Validity, is_less, match_each_integer_ptype};
use std::alloc::Global;

/// Whether an item is negative and not null.
fn is_negative_at<T: NativePType>(items: &[T], validity: &Validity, i: usize) -> bool
    requires covers { IsTrue (covers validity.now (length items.now)) }
    requires range { i < length items.now }
    ensures { result ≡ is_negative (slice_index_or (items_of validity.now (map T.value items.now)) i None) }
{
    is_less(items[i], T::zero()) && validity.is_valid(i, items.len())
}

/// Whether a value is negative. Several are looked at at once.
fn has_negative_value<T: NativePType>(items: &[T]) -> bool
    ensures { result ≡ list_any (λ z. int_lt z (pos 0)) (map T.value items.now) }
{
    let mut found = false;
    for i in 0..items.len() {
        found |= is_less(items[i], T::zero());
    }
    found
}

/// Whether an item of a block is negative and not null. The items are looked at one by one only where one may be.
pub fn has_negative_in_block<T: NativePType>(items: &[T], validity: &Validity, block: usize) -> bool
    requires covers { IsTrue (covers validity.now (length items.now)) }
    requires begun { 1024 * block < length items.now }
    ensures { result ≡ list_any is_negative (between (1024 * block) (1024 * (block + 1)) (items_of validity.now (map T.value items.now))) }
{
    let (start, end) = chunk_bounds(block, items.len());
    if !has_negative_value(&items[start..end]) {
        return false;
    }
    for i in start..end {
        if is_negative_at(items, validity, i) {
            return true;
        }
    }
    false
}

/// Whether one of these items is negative and not null.
fn has_negative_item<T: NativePType>(items: &[T], validity: &Validity) -> bool
    requires { IsTrue (covers validity.now (length items.now)) }
    ensures { result ≡ list_any is_negative (items_of validity.now (map T.value items.now)) }
{
    for block in 0..chunk_count(items.len()) {
        if has_negative_in_block(items, validity, block) {
            return true;
        }
    }
    false
}

fn has_negative_typed<T: NativePType>(array: &PrimitiveArray) -> bool
    requires { array.now.ptype ≡ T.PTYPE }
    ensures { result ≡ list_any is_negative (items_of array.now.validity array.now.slots) }
{
    let validity = array.validity();
    has_negative_item(array.as_slice::<T>(), validity)
}

/// Whether an item of an array is negative and not null.
pub fn has_negative(array: &PrimitiveArray) -> bool
    ensures { result ≡ list_any is_negative (items_of array.now.validity array.now.slots) }
{
    match_each_integer_ptype!(array.ptype(), has_negative_typed(array))
}

/// Counts the items of a block by their bits, and those after the last item as nulls.
fn count_block<T: PhysicalPType>(
    items: &[T],
    validity: &Validity,
    block: usize,
    entries: &mut [usize],
)
    requires covers { IsTrue (covers validity.now (length items.now)) }
    requires begun { 1024 * block < length items.now }
    requires room { length entries.old ≡ bits_of_type T.PTYPE + 1 }
    ensures { entries.new ≡ block_histogram T.PTYPE (items_of validity.now (map T.value items.now)) block }
{
    clear::<T>(entries);
    let (start, end) = chunk_bounds(block, items.len());
    count_items(items, validity, start, end, entries);
    entries[0] += FL_CHUNK_SIZE - (end - start);
}

/// The best width of a block, and how many exceptions it leaves. The entries become its histogram.
fn choose_width<T: PhysicalPType>(
    items: &[T],
    validity: &Validity,
    block: usize,
    entries: &mut [usize],
) -> (u8, usize)
    requires covers { IsTrue (covers validity.now (length items.now)) }
    requires begun { 1024 * block < length items.now }
    requires room { length entries.old ≡ bits_of_type T.PTYPE + 1 }
    ensures histogram { entries.new ≡ block_histogram T.PTYPE (items_of validity.now (map T.value items.now)) block }
    ensures width { result.0 ≡ best_width T.PTYPE (block_histogram T.PTYPE (items_of validity.now (map T.value items.now)) block) }
    ensures exceptions { result.1 ≡ count_above result.0 (block_histogram T.PTYPE (items_of validity.now (map T.value items.now)) block) }
{
    count_block(items, validity, block, entries);
    best_of(T::PTYPE, entries)
}

/// The best width of each block, and how many exceptions they leave. Negative items are found by the histograms, in
/// which they have all bits of a signed type.
///
/// # Errors
/// `NegativeValue` if an item is negative and not null.
fn widths_of<T: PhysicalPType>(
    alloc: Global,
    items: &[T],
    validity: &Validity,
) -> Result<(Vec<u8>, usize), FastLanesError>
    requires covers { IsTrue (covers validity.now (length items.now)) }
    requires fit { IsTrue (list_all (option_all (fits T.PTYPE)) (items_of validity.now (map T.value items.now))) }
    ensures { Answers (λ r. record { widths = r.0.items; exceptions = r.1 }) result (if list_any is_negative (items_of validity.now (map T.value items.now)) then Err NegativeValue else Ok (chosen_widths T.PTYPE (items_of validity.now (map T.value items.now)))) }
{
    // No type here has more than 64 bits.
    let mut entries = [0; 65];
    let entries = &mut entries[..type_bits::<T>() + 1];
    let blocks = chunk_count(items.len());
    let mut widths = Vec::with_capacity(alloc, blocks)?;
    let mut total = 0;
    for block in 0..blocks {
        let (width, exceptions) = choose_width(items, validity, block, entries);
        if counts_signs(T::PTYPE, entries) {
            return Err(FastLanesError::NegativeValue);
        }
        widths.push(width)?;
        total += exceptions;
    }
    Ok((widths, total))
}

fn choose_widths<T: PhysicalPType>(
    alloc: Global,
    array: &PrimitiveArray,
) -> Result<(Vec<u8>, usize), FastLanesError>
    requires { array.now.ptype ≡ T.PTYPE }
    ensures chosen { Answers (λ r. record { widths = r.0.items; exceptions = r.1 }) result (choose_widths array.now) }
    ensures fit { IfOk result (λ r. IsTrue (list_all (λ width. nat_le width (bits_of_type array.now.ptype)) r.0.items)) }
    ensures least { IfOk result (λ r. CostLeast array.now.ptype (items_of array.now.validity array.now.slots) r.0.items) }
{
    stored_integers_are_in_range(array);
    widths_of(alloc, array.as_slice::<T>(), array.validity())
}

/// The best width of each block of 1024 items, and how many items of the array have more bits than
/// the width of their block. The best width of a block is the smallest one of least cost, as in
/// `find_best_bit_width`; a short last block counts as one of 1024 items, padded with items of no
/// bits. No other list of as many widths costs less.
///
/// # Errors
/// `NegativeValue` if an item is negative and not null.
pub fn find_best_bit_widths(
    alloc: Global,
    array: &PrimitiveArray,
) -> Result<(Vec<u8>, usize), FastLanesError>
    ensures chosen { Answers (λ r. record { widths = r.0.items; exceptions = r.1 }) result (choose_widths array.now) }
    ensures fit { IfOk result (λ r. IsTrue (list_all (λ width. nat_le width (bits_of_type array.now.ptype)) r.0.items)) }
    ensures least { IfOk result (λ r. CostLeast array.now.ptype (items_of array.now.validity array.now.slots) r.0.items) }
{
    match_each_integer_ptype!(array.ptype(), choose_widths(alloc, array))
}
