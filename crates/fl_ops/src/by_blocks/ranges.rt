//! The items of ranges, each range read straight to its place among them.

ghost use Rattle.std.specs.Prelude.{◌≡◌, ◌+◌, ◌++◌, ◌<◌, ◌≤◌, ◌^◌, ℕ, IfErr, IfOk, IsTrue, Ok, OnOk, Some, length, map};
ghost use Rattle.std.specs.List.{flat_map, list_all};
ghost use Rattle.fl_types.specs.declared.error.FastLanesError.TheVariants.{OutOfMemory};
ghost use Rattle.fl_types.specs.Bits.{between};
ghost use Rattle.fl_types.specs.Refusals.{Answers};
ghost use Rattle.fl_types.specs.Types.{has_ptype};
ghost use Rattle.fl_types.specs.Validities.{covers};
ghost use Rattle.fl_column.specs.Columns.{column_of_primitive};
ghost use Rattle.fl_column.specs.Operations.{range_fits, ranges_of, total_of};
ghost use Rattle.fl_bitpacking.specs.Blocks.{value_at};
ghost use Rattle.fl_array.specs.Readers.{AreItemsFrom};
ghost use Rattle.fl_array.specs.Reads.{IsValidityOf};
ghost use Rattle.fl_array.specs.Trees.{column};
ghost use Rattle.fl_ops.specs.BlockReads.{AreFirst, validity_of_ranges};

use fastlanes::FL_CHUNK_SIZE;
use fl_array::{ArrayRef, Reader};
use fl_bitpacking::unpack_iter::BitPacked;
use fl_column::{BitList, DType, FastLanesError, PType, PhysicalPType, PrimitiveArray, Validity};
use fl_types::match_each_integer_ptype;
use num_traits::WrappingAdd;
use std::alloc::{AllocError, Global};

/// Appends the items of a range, which lies in the column if it has any.
fn push_range<T: BitPacked + PhysicalPType + WrappingAdd>(
    reader: &Reader,
    start: usize,
    count: usize,
    slots: &mut Vec<T>,
) -> Result<(), AllocError>
    requires typed { IsTrue (has_ptype T.PTYPE reader.now.column.dtype) }
    requires range { IsTrue (range_fits (length reader.now.column.items) (start, count)) }
    requires few { length slots.old.items + count < 2 ^ 64 }
    ensures long { OnOk result (length slots.new.items ≡ length slots.old.items + count) }
    ensures before { OnOk result ((i : ℕ) → i < length slots.old.items → value_at T.value slots.new.items i ≡ value_at T.value slots.old.items i) }
    ensures part { OnOk result (AreItemsFrom start count (λ i. value_at T.value slots.new.items (length slots.old.items + i)) reader.now.column) }
{
    if count == 0 {
        return Ok(());
    }
    let from = slots.len();
    slots.resize(from + count, T::zero())?;
    reader.read(start, &mut slots[from..]);
    Ok(())
}

/// The integers of ranges of `total` items, any under a null.
fn items_of_ranges<T: BitPacked + PhysicalPType + WrappingAdd>(
    alloc: Global,
    reader: &Reader,
    ranges: &[(usize, usize)],
    total: usize,
) -> Result<Vec<T>, AllocError>
    requires typed { IsTrue (has_ptype T.PTYPE reader.now.column.dtype) }
    requires ranges { IsTrue (list_all (range_fits (length reader.now.column.items)) ranges.now) }
    requires total { total_of ranges.now ≡ Some total }
    ensures { IfOk result (λ v. AreFirst (map T.value v.items) (length (ranges_of ranges.now reader.now.column).items) (ranges_of ranges.now reader.now.column)) }
{
    let mut slots = Vec::with_capacity(alloc, total)?;
    for range in ranges {
        push_range(reader, range.0, range.1, &mut slots)?;
    }
    Ok(slots)
}

/// Appends the bits of a range, which lies among them if it has any.
fn push_bits(
    valid: &BitList,
    start: usize,
    count: usize,
    bits: &mut BitList,
) -> Result<(), FastLanesError>
    requires { IsTrue (range_fits (length valid.now) (start, count)) }
    ensures bits { OnOk result (bits.new ≡ bits.old ++ between start (start + count) valid.now) }
    ensures memory { IfErr result (λ e. e ≡ OutOfMemory) }
{
    // For the proof: a `usize` holds the length.
    let _len = valid.len();
    for k in 0..count.div_ceil(64) {
        let at = 64 * k;
        let part = (count - at).min(64);
        bits.push_word(valid.word_from(start + at, part), part)?;
    }
    Ok(())
}

/// The bits of ranges of `total` items.
fn bits_of_ranges(
    alloc: Global,
    valid: &BitList,
    ranges: &[(usize, usize)],
    total: usize,
) -> Result<BitList, FastLanesError>
    requires { IsTrue (list_all (range_fits (length valid.now)) ranges.now) }
    ensures { Answers (λ b. b) result (Ok (flat_map (λ range. between range.0 (range.0 + range.1) valid.now) ranges.now)) }
{
    let mut bits = BitList::with_capacity(alloc, total)?;
    for range in ranges {
        push_bits(valid, range.0, range.1, &mut bits)?;
    }
    Ok(bits)
}

/// The validity of the items of ranges of `total` items.
fn validity_of_ranges(
    alloc: Global,
    validity: &Validity,
    len: usize,
    ranges: &[(usize, usize)],
    total: usize,
) -> Result<Validity, FastLanesError>
    requires covers { IsTrue (covers validity.now len) }
    requires ranges { IsTrue (list_all (range_fits len) ranges.now) }
    ensures { Answers (λ v. v) result (Ok (validity_of_ranges ranges.now validity.now)) }
{
    match validity {
        Validity::NonNullable => Ok(Validity::NonNullable),
        Validity::AllValid => Ok(Validity::AllValid),
        Validity::AllInvalid => Ok(Validity::AllInvalid),
        Validity::Array(valid) => {
            Ok(Validity::Array(bits_of_ranges(alloc, valid, ranges, total)?))
        }
    }
}

fn ranges_typed<T: BitPacked + PhysicalPType + WrappingAdd>(
    alloc: Global,
    reader: &Reader,
    validity: &Validity,
    ranges: &[(usize, usize)],
    total: usize,
) -> Result<PrimitiveArray, FastLanesError>
    requires typed { IsTrue (has_ptype T.PTYPE reader.now.column.dtype) }
    requires validity { IsValidityOf validity.now reader.now.column }
    requires ranges { IsTrue (list_all (range_fits (length reader.now.column.items)) ranges.now) }
    requires total { total_of ranges.now ≡ Some total }
    ensures { Answers column_of_primitive result (Ok (ranges_of ranges.now reader.now.column)) }
{
    let slots = items_of_ranges::<T>(alloc, reader, ranges, total)?;
    let validity = validity_of_ranges(alloc, validity, reader.len(), ranges, total)?;
    Ok(PrimitiveArray::new_unchecked(slots, validity))
}

/// The same, by a column's integer type.
fn ranges_read(
    alloc: Global,
    reader: &Reader,
    validity: &Validity,
    ptype: PType,
    ranges: &[(usize, usize)],
    total: usize,
) -> Result<PrimitiveArray, FastLanesError>
    requires typed { IsTrue (has_ptype ptype reader.now.column.dtype) }
    requires validity { IsValidityOf validity.now reader.now.column }
    requires ranges { IsTrue (list_all (range_fits (length reader.now.column.items)) ranges.now) }
    requires total { total_of ranges.now ≡ Some total }
    ensures { Answers column_of_primitive result (Ok (ranges_of ranges.now reader.now.column)) }
{
    match_each_integer_ptype!(ptype, ranges_typed(alloc, reader, validity, ranges, total))
}

/// How many blocks are read for ranges at most.
fn blocks_of_ranges(ranges: &[(usize, usize)]) -> usize {
    let mut blocks = 0usize;
    for range in ranges {
        if range.1 > 0 {
            blocks = blocks.saturating_add(range.1 / FL_CHUNK_SIZE + 2);
        }
    }
    blocks
}

/// Whether reading each range by itself reads at most twice as many blocks as the array has.
pub(crate) fn are_read_singly(array: &ArrayRef, ranges: &[(usize, usize)]) -> bool {
    blocks_of_ranges(ranges) / 2 <= array.len() / FL_CHUNK_SIZE
}

/// The items of ranges of `total` items, which lie in an array of integers.
pub(crate) fn read_ranges(
    alloc: Global,
    array: &ArrayRef,
    ptype: PType,
    ranges: &[(usize, usize)],
    total: usize,
) -> Result<PrimitiveArray, FastLanesError>
    requires typed { IsTrue (has_ptype ptype (column array.now).dtype) }
    requires ranges { IsTrue (list_all (range_fits (length (column array.now).items)) ranges.now) }
    requires total { total_of ranges.now ≡ Some total }
    ensures { Answers column_of_primitive result (Ok (ranges_of ranges.now (column array.now))) }
{
    let validity = array.validity(alloc)?;
    let reader = Reader::try_new(alloc, array)?;
    ranges_read(alloc, &reader, &validity, ptype, ranges, total)
}
