//! Histograms of the bits of items.

ghost use Rattle.std.specs.Prelude.{◌≡◌, ◌+◌, ◌%◌, ◌≤◌, ◌&&◌, [], ℕ, IfOk, IsTrue, Ok, Some, length, map, nat_lt, not, slice_index};
ghost use Rattle.std.specs.List.{list_any};
ghost use Rattle.fl_types.specs.Bits.{between};
ghost use Rattle.fl_types.specs.Integers.{bits_of_type, is_unsigned, read_as};
ghost use Rattle.fl_types.specs.Refusals.{Answers};
ghost use Rattle.fl_types.specs.Validities.{covers, items_of, masked};
ghost use Rattle.fl_patches.specs.Exceptions.{histogram_of, is_negative};

use crate::counting::{MaskedItems, PresentItems, Words, count_all};
use crate::patterns::type_bits;
use crate::{comparing, masking};
use fl_column::laws::stored_integers_are_in_range;
use fl_column::{PhysicalPType, PrimitiveArray};
use fl_types::{BitList, FastLanesError, PType, Validity, match_each_integer_ptype};
use std::alloc::{AllocError, Global};

/// Makes every entry 0.
#[tactic(auto, using(crate::proofs::Histograms::histogram_none))]
pub(crate) fn clear<T: PhysicalPType>(entries: &mut [usize])
    requires { length entries.old ≡ bits_of_type T.PTYPE + 1 }
    ensures { entries.new ≡ histogram_of T.PTYPE [] }
{
    for entry in entries.iter_mut() {
        *entry = 0;
    }
}

/// Entries for the bits of a type, all 0.
#[tactic(auto, using(crate::proofs::Histograms::histogram_zeros))]
fn no_entries<T: PhysicalPType>(alloc: Global) -> Result<Vec<usize>, AllocError>
    ensures { IfOk result (λ v. v.items ≡ histogram_of T.PTYPE []) }
{
    vec![in alloc; 0usize; type_bits::<T>() + 1]
}

/// Counts the items from `start` to below `end` by their bits, where none is null. All entries are 0 before.
fn count_present<T: PhysicalPType>(items: &[T], start: usize, end: usize, entries: &mut [usize])
    requires order { start ≤ end }
    requires range { end ≤ length items.now }
    requires empty { entries.old ≡ histogram_of T.PTYPE [] }
    ensures { entries.new ≡ histogram_of T.PTYPE (between start end (map (λ z. Some z) (map T.value items.now))) }
{
    if type_bits::<T>() == 8 {
        comparing::count_all(items, start, end, entries);
    } else {
        count_all(&PresentItems { items }, start, end, entries);
    }
}

/// Counts words by their bits: entry `b` becomes how many have `b` bits. Each is read as an item of the type.
pub fn count_words<T: PhysicalPType>(words: &[T::Physical], entries: &mut [usize])
    requires { length entries.old ≡ bits_of_type T.PTYPE + 1 }
    ensures { entries.new ≡ histogram_of T.PTYPE (map (λ z. Some z) (map (λ w. read_as T.PTYPE (T.Physical.pattern w)) words.now)) }
{
    clear::<T>(entries);
    match T::values_of(words) {
        Some(integers) => count_present(integers, 0, integers.len(), entries),
        None => count_all(&Words::<T> { words }, 0, words.len(), entries),
    }
}

/// Counts the items from `start` to below `end` by their bits, of which those are null whose bit isn't set. All entries
/// are 0 before.
fn count_masked<T: PhysicalPType>(
    items: &[T],
    bits: &BitList,
    start: usize,
    end: usize,
    entries: &mut [usize],
)
    requires even { length bits.now ≡ length items.now }
    requires aligned { start % 64 ≡ 0 }
    requires order { start ≤ end }
    requires range { end ≤ length items.now }
    requires empty { entries.old ≡ histogram_of T.PTYPE [] }
    ensures { entries.new ≡ histogram_of T.PTYPE (between start end (masked bits.now (map T.value items.now))) }
{
    if type_bits::<T>() == 8 {
        masking::count_all(items, bits, start, end, entries);
    } else {
        count_all(&MaskedItems { items, bits }, start, end, entries);
    }
}

/// Counts the items from `start` to below `end` by their bits. All entries are 0 before.
pub(crate) fn count_items<T: PhysicalPType>(
    items: &[T],
    validity: &Validity,
    start: usize,
    end: usize,
    entries: &mut [usize],
)
    requires covers { IsTrue (covers validity.now (length items.now)) }
    requires aligned { start % 64 ≡ 0 }
    requires order { start ≤ end }
    requires range { end ≤ length items.now }
    requires empty { entries.old ≡ histogram_of T.PTYPE [] }
    ensures { entries.new ≡ histogram_of T.PTYPE (between start end (items_of validity.now (map T.value items.now))) }
{
    match validity {
        Validity::NonNullable | Validity::AllValid => count_present(items, start, end, entries),
        Validity::AllInvalid => entries[0] += end - start,
        Validity::Array(bits) => count_masked(items, bits, start, end, entries),
    }
}

fn histogram_typed<T: PhysicalPType>(
    alloc: Global,
    array: &PrimitiveArray,
) -> Result<Vec<usize>, FastLanesError>
    requires { array.now.ptype ≡ T.PTYPE }
    ensures counts { Answers (λ v. v.items) result (Ok (histogram_of array.now.ptype (items_of array.now.validity array.now.slots))) }
    ensures long { IfOk result (λ v. length v.items ≡ bits_of_type array.now.ptype + 1) }
{
    let items = array.as_slice::<T>();
    let mut entries = no_entries::<T>(alloc)?;
    count_items(items, array.validity(), 0, items.len(), &mut entries);
    Ok(entries)
}

/// The histogram of the bits of an array's items: entry `b`, from 0 to the bits of the type, counts
/// the items whose bit pattern has `b` bits, that is the bits of the type minus its leading zeros.
/// A null has 0 bits, whatever is stored under it.
pub fn bit_width_histogram(
    alloc: Global,
    array: &PrimitiveArray,
) -> Result<Vec<usize>, FastLanesError>
    ensures counts { Answers (λ v. v.items) result (Ok (histogram_of array.now.ptype (items_of array.now.validity array.now.slots))) }
    ensures long { IfOk result (λ v. length v.items ≡ bits_of_type array.now.ptype + 1) }
{
    match_each_integer_ptype!(array.ptype(), histogram_typed(alloc, array))
}

/// Whether a histogram of a type counts items of all its bits where the type is signed: those are the negative ones.
pub fn counts_signs(ptype: PType, histogram: &[usize]) -> bool
    requires { length histogram.now ≡ bits_of_type ptype + 1 }
    ensures { result ≡ (not (is_unsigned ptype) && nat_lt 0 (slice_index histogram.now (bits_of_type ptype))) }
{
    !ptype.is_unsigned() && histogram[ptype.bit_width()] > 0
}

/// Whether an array's histogram counts an item that is negative and not null: it has all bits of a signed type,
/// which no other item has.
pub fn counts_negative(array: &PrimitiveArray, histogram: &[usize]) -> bool
    requires { histogram.now ≡ histogram_of array.now.ptype (items_of array.now.validity array.now.slots) }
    ensures { result ≡ list_any is_negative (items_of array.now.validity array.now.slots) }
{
    stored_integers_are_in_range(array);
    counts_signs(array.ptype(), histogram)
}
