//! The best widths of an array and of its blocks, and what they leave out, in one pass.

ghost use Rattle.std.specs.Prelude.{◌≡◌, ◌+◌, ◌*◌, ◌<◌, ◌≤◌, ◌^◌, ◌==◌, ◌&&◌, ℕ, ℤ, IsTrue, List, Option, length, map, slice_index, true};
ghost use Rattle.std.specs.List.{list_all};
ghost use Rattle.fl_types.specs.Bits.{between};
ghost use Rattle.fl_types.specs.Integers.{bits_of_type, fits};
ghost use Rattle.fl_types.specs.Validities.{items_of};
ghost use Rattle.fl_column.specs.Chunks.{chunk_count};
ghost use Rattle.fl_column.specs.Columns.{option_all};
ghost use Rattle.fl_patches.specs.Costs.{block_histogram, count_above};
ghost use Rattle.fl_patches.specs.Exceptions.{histogram_of};
ghost use Rattle.fl_statistics.specs.BitStatistics.{bit_statistics};
ghost use Rattle.fl_codec.specs.Chunks.{chunk};
ghost use Rattle.fl_codec.specs.Parts.{items_of_primitive};
ghost use Rattle.fl_statistics.specs.Differences.{less_references, read_words, slot_of};
ghost use Rattle.fl_statistics.specs.WidthTotals.{AreWidthTotals};

use crate::items::Items;
use crate::sources::{BlockSource, References, write_differences};
use fastlanes::{FL_CHUNK_SIZE, FastLanes};
use fl_column::laws::stored_integers_are_in_range;
use fl_column::{PhysicalPType, PrimitiveArray, chunk_count};
use fl_patches::{best_of, count_words, counts_signs, type_bits};
use fl_types::{NativePType, PType, match_each_integer_ptype};
use num_traits::WrappingSub;

/// What the histograms of an array's items say of packing it: that of all items, and that of each
/// block of 1024.
#[derive(Clone, Copy)]
pub struct BitStatistics {
    /// Whether an item that is not null is negative.
    pub negative: bool,
    /// The best width of all items, as `find_best_bit_width` chooses it.
    pub width: u8,
    /// How many items have more bits than that.
    pub exceptions: usize,
    /// The sum of the best widths of the blocks, as `find_best_bit_widths` chooses them.
    pub block_widths: usize,
    /// How many items have more bits than the best width of their block.
    pub block_exceptions: usize,
    /// Whether the best width of each block is the type's bits.
    pub all_native: bool,
    /// How many items have all of the type's bits.
    pub widest: usize,
}

/// Adds to each entry the other one at its place.
fn add_entries(entries: &mut [usize], others: &[usize])
    requires even { length others.now ≡ length entries.old }
    requires fit { (k : ℕ) → slice_index entries.old k + slice_index others.now k < 2 ^ 64 }
    ensures long { length entries.new ≡ length entries.old }
    ensures sums { (k : ℕ) → k < length entries.old → slice_index entries.new k ≡ slice_index entries.old k + slice_index others.now k }
{
    for k in 0..entries.len() {
        entries[k] += others[k];
    }
}

/// Counts words that are a block's items by their bits, with nulls after the last one, and adds the items to the histogram of
/// those before.
fn count_block<T: PhysicalPType>(words: &[T::Physical], entries: &mut [usize], all: &mut [usize])
    requires few { length words.now ≤ 1024 }
    requires room { length entries.old ≡ bits_of_type T.PTYPE + 1 }
    requires even { length all.old ≡ bits_of_type T.PTYPE + 1 }
    requires fit { (k : ℕ) → slice_index all.old k ≤ 2 ^ 63 }
    ensures block { (items : List (Option ℤ)) → (block : ℕ) → read_words T.Physical.pattern T.PTYPE words.now ≡ map slot_of (chunk block items) → entries.new ≡ block_histogram T.PTYPE items block }
    ensures all { (items : List (Option ℤ)) → (block : ℕ) → read_words T.Physical.pattern T.PTYPE words.now ≡ map slot_of (chunk block items) → all.old ≡ histogram_of T.PTYPE (between 0 (1024 * block) items) → all.new ≡ histogram_of T.PTYPE (between 0 (1024 * (block + 1)) items) }
{
    count_words::<T>(words, entries);
    add_entries(all, entries);
    entries[0] += FL_CHUNK_SIZE - words.len();
}

/// What the best widths of the first blocks add up to.
#[derive(Clone, Copy)]
pub(crate) struct WidthTotals {
    /// Their sum.
    pub(crate) widths: usize,
    /// How many items have more bits than the width of their block.
    pub(crate) exceptions: usize,
    /// Whether each is the type's bits.
    pub(crate) all_native: bool,
}

/// The totals of no blocks.
fn no_totals() -> WidthTotals
    ensures { result ≡ record { widths = 0; exceptions = 0; all_native = true } }
{
    WidthTotals {
        widths: 0,
        exceptions: 0,
        all_native: true,
    }
}

/// Whether the widths before are the type's bits, and this one is too.
fn are_native<T: PhysicalPType>(before: bool, width: u8) -> bool
    ensures { result ≡ (before && (width == bits_of_type T.PTYPE)) }
{
    before && usize::from(width) == type_bits::<T>()
}

/// Adds the best width of a block by its histogram.
fn add_block<T: PhysicalPType>(entries: &[usize], totals: WidthTotals) -> WidthTotals
    requires room { length entries.now ≡ bits_of_type T.PTYPE + 1 }
    requires few { (width : ℕ) → count_above width entries.now ≤ 1024 }
    requires widths { totals.widths < 2 ^ 63 }
    requires exceptions { totals.exceptions ≤ 2 ^ 63 }
    ensures totals { (items : List (Option ℤ)) → (block : ℕ) → 1024 * block < length items → entries.now ≡ block_histogram T.PTYPE items block → AreWidthTotals T.PTYPE items block totals → AreWidthTotals T.PTYPE items (block + 1) result }
    ensures few { result.widths ≤ totals.widths + 255 }
{
    let (width, exceptions) = best_of(T::PTYPE, entries);
    WidthTotals {
        widths: totals.widths + usize::from(width),
        exceptions: totals.exceptions + exceptions,
        all_native: are_native::<T>(totals.all_native, width),
    }
}

/// The statistics of items by the histogram of all and the totals of their blocks.
fn statistics_by<T: PhysicalPType>(all: &[usize], totals: WidthTotals) -> BitStatistics
    requires room { length all.now ≡ bits_of_type T.PTYPE + 1 }
    requires few { (width : ℕ) → count_above width all.now < 2 ^ 64 }
    ensures { (items : List (Option ℤ)) → IsTrue (list_all (option_all (fits T.PTYPE)) items) → all.now ≡ histogram_of T.PTYPE items → AreWidthTotals T.PTYPE items (chunk_count (length items)) totals → result ≡ bit_statistics T.PTYPE items }
{
    let (width, exceptions) = best_of(T::PTYPE, all);
    BitStatistics {
        negative: counts_signs(T::PTYPE, all),
        width,
        exceptions,
        block_widths: totals.widths,
        block_exceptions: totals.exceptions,
        all_native: totals.all_native,
        widest: all[type_bits::<T>()],
    }
}

/// The statistics of the items of a source minus the references of their blocks. They are made once, and only one block of them
/// is kept.
pub(crate) fn statistics_of<T: PhysicalPType + WrappingSub, S: BlockSource<T>>(
    source: &S,
    references: &References<T>,
) -> BitStatistics
    requires typed { S.typed source.now }
    ensures { result ≡ bit_statistics T.PTYPE (less_references T.PTYPE (T.value references.now.one) (map T.value references.now.list.now) (items_of_primitive (S.parts source.now))) }
{
    // No type here has more than 64 bits.
    let (mut all, mut entries) = ([0; 65], [0; 65]);
    let all = &mut all[..type_bits::<T>() + 1];
    let entries = &mut entries[..type_bits::<T>() + 1];
    let mut room = [T::Physical::zero(); FL_CHUNK_SIZE];
    let (mut last, mut totals) = (T::zero(), no_totals());
    for block in 0..chunk_count(source.len()) {
        let (count, next) = write_differences(source, references, block, last, &mut room);
        count_block::<T>(&room[..count], entries, all);
        totals = add_block::<T>(entries, totals);
        last = next;
    }
    statistics_by::<T>(all, totals)
}

/// The integers of an array lie in memory, so there are fewer than 2 to the 63.
pub(crate) fn prove_few(array: &PrimitiveArray)
    ensures { length array.now.slots < 2 ^ 63 }
{
    let _len = match array.ptype() {
        PType::U8 => array.as_slice::<u8>().len(),
        PType::U16 => array.as_slice::<u16>().len(),
        PType::U32 => array.as_slice::<u32>().len(),
        PType::U64 => array.as_slice::<u64>().len(),
        PType::I8 => array.as_slice::<i8>().len(),
        PType::I16 => array.as_slice::<i16>().len(),
        PType::I32 => array.as_slice::<i32>().len(),
        PType::I64 => array.as_slice::<i64>().len(),
    };
}

/// The best width of an array's items minus the references of their blocks, and the best widths of the blocks, and
/// what they leave out. A block for which the list has no reference takes `one`. The differences are taken modulo
/// 2 to the type's bits and counted block by block: nothing is allocated.
///
/// The references have the array's type.
pub fn bit_statistics_less<T: PhysicalPType + WrappingSub>(
    array: &PrimitiveArray,
    one: T,
    references: &[T],
) -> BitStatistics
    requires { array.now.ptype ≡ T.PTYPE }
    ensures { result ≡ bit_statistics array.now.ptype (less_references array.now.ptype (T.value one) (map T.value references.now) (items_of array.now.validity array.now.slots)) }
{
    let references = References {
        one,
        list: references,
    };
    statistics_of::<T, Items>(&Items { array }, &references)
}

fn statistics_typed<T: PhysicalPType + WrappingSub>(array: &PrimitiveArray) -> BitStatistics
    requires { array.now.ptype ≡ T.PTYPE }
    ensures { result ≡ bit_statistics array.now.ptype (items_of array.now.validity array.now.slots) }
{
    stored_integers_are_in_range(array);
    let _validity = array.validity();
    let none = &array.as_slice::<T>()[..0];
    bit_statistics_less(array, T::zero(), none)
}

/// The best width of an array and the best widths of its blocks, and what they leave out. The items are
/// counted once, block by block, and nothing is allocated.
pub fn bit_statistics(array: &PrimitiveArray) -> BitStatistics
    ensures { result ≡ bit_statistics array.now.ptype (items_of array.now.validity array.now.slots) }
{
    match_each_integer_ptype!(array.ptype(), statistics_typed(array))
}
