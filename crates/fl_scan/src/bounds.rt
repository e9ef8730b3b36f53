//! Where a value stands in a sorted array: a binary search over the blocks, and one in a block.

ghost use Rattle.std.specs.Prelude.{◌≡◌, ◌+◌, ◌-◌, ◌*◌, ◌<◌, ◌≤◌, IsTrue, None, Some, false, length, option_map, slice_index_or, true};
ghost use Rattle.fl_types.specs.Types.{has_ptype};
ghost use Rattle.fl_column.specs.Chunks.{chunk_count};
ghost use Rattle.fl_column.specs.Queries.{are_sorted, is_below};
ghost use Rattle.fl_array.specs.Reads.{IsValidityOf};
ghost use Rattle.fl_scan.specs.Bounds.{AreRead, block_end, block_start, is_below_at, lower_bound_of};

use fastlanes::FL_CHUNK_SIZE;
use fl_array::Reader;
use fl_bitpacking::unpack_iter::BitPacked;
use fl_column::{NativePType, PhysicalPType, Validity, is_less};
use num_traits::WrappingAdd;

/// Whether item `start + i` is below a value, where items were read from `start` on. A null is below every value.
fn is_item_below<T: NativePType>(
    reader: &Reader,
    validity: &Validity,
    start: usize,
    items: &[T],
    i: usize,
    value: T,
) -> bool
    requires read { AreRead T.value validity.now start items.now reader.now.column }
    requires place { i < length items.now }
    ensures { result ≡ is_below_at (T.value value) reader.now.column (start + i) }
{
    let len = reader.len();
    !validity.is_valid(start + i, len) || is_less(items[i], value)
}

/// Whether block `j` begins with an item that is below a value.
fn is_block_below<T: BitPacked + PhysicalPType + WrappingAdd>(
    reader: &Reader,
    validity: &Validity,
    j: usize,
    value: T,
) -> bool
    requires typed { IsTrue (has_ptype T.PTYPE reader.now.column.dtype) }
    requires validity { IsValidityOf validity.now reader.now.column }
    requires some { 0 < length reader.now.column.items }
    requires block { j < chunk_count (reader.now.offset + length reader.now.column.items) }
    ensures { result ≡ is_below_at (T.value value) reader.now.column (block_start reader.now j) }
{
    let (from, _) = reader.places(j);
    let mut one = [T::zero(); 1];
    reader.read(from, &mut one);
    is_item_below(reader, validity, from, &one, 0, value)
}

/// A number of blocks: the last of them begins with an item that is below a value, and the one behind them does not.
fn blocks_below<T: BitPacked + PhysicalPType + WrappingAdd>(
    reader: &Reader,
    validity: &Validity,
    value: T,
) -> usize
    requires typed { IsTrue (has_ptype T.PTYPE reader.now.column.dtype) }
    requires validity { IsValidityOf validity.now reader.now.column }
    requires some { 0 < length reader.now.column.items }
    ensures few { result ≤ chunk_count (reader.now.offset + length reader.now.column.items) }
    ensures below { 0 < result → is_below_at (T.value value) reader.now.column (block_start reader.now (result - 1)) ≡ true }
    ensures above { result < chunk_count (reader.now.offset + length reader.now.column.items) → is_below_at (T.value value) reader.now.column (block_start reader.now result) ≡ false }
{
    let mut low = 0;
    let mut high = reader.blocks();
    while low < high {
        let middle = low + (high - low) / 2;
        if is_block_below(reader, validity, middle, value) {
            low = middle + 1;
        } else {
            high = middle;
        }
    }
    low
}

/// A number of these items, which were read from `start` on: the last of them is below a value, and the one behind them
/// is not.
fn items_below<T: NativePType>(
    reader: &Reader,
    validity: &Validity,
    start: usize,
    items: &[T],
    value: T,
) -> usize
    requires { AreRead T.value validity.now start items.now reader.now.column }
    ensures few { result ≤ length items.now }
    ensures below { 0 < result → is_below_at (T.value value) reader.now.column (start + result - 1) ≡ true }
    ensures above { result < length items.now → is_below_at (T.value value) reader.now.column (start + result) ≡ false }
{
    let mut low = 0;
    let mut high = items.len();
    while low < high {
        let middle = low + (high - low) / 2;
        if is_item_below(reader, validity, start, items, middle, value) {
            low = middle + 1;
        } else {
            high = middle;
        }
    }
    low
}

/// A number of items of block `j`: the last of them is below a value, and the one behind them in the block is not.
fn below_in_block<T: BitPacked + PhysicalPType + WrappingAdd>(
    reader: &Reader,
    validity: &Validity,
    j: usize,
    value: T,
    scratch: &mut [T; FL_CHUNK_SIZE],
) -> usize
    requires typed { IsTrue (has_ptype T.PTYPE reader.now.column.dtype) }
    requires validity { IsValidityOf validity.now reader.now.column }
    requires block { j < chunk_count (reader.now.offset + length reader.now.column.items) }
    ensures few { result ≤ block_end reader.now j - block_start reader.now j }
    ensures below { 0 < result → is_below_at (T.value value) reader.now.column (block_start reader.now j + result - 1) ≡ true }
    ensures above { result < block_end reader.now j - block_start reader.now j → is_below_at (T.value value) reader.now.column (block_start reader.now j + result) ≡ false }
{
    let (from, to) = reader.places(j);
    let items = &mut scratch[..to - from];
    reader.read(from, items);
    items_below(reader, validity, from, items, value)
}

/// The first position whose item is not below a value, or the number of items.
pub(crate) fn position_of<T: BitPacked + PhysicalPType + WrappingAdd>(
    reader: &Reader,
    validity: &Validity,
    value: T,
) -> usize
    requires typed { IsTrue (has_ptype T.PTYPE reader.now.column.dtype) }
    requires validity { IsValidityOf validity.now reader.now.column }
    requires sorted { IsTrue (are_sorted reader.now.column.items) }
    ensures { result ≡ lower_bound_of (T.value value) reader.now.column }
{
    if reader.len() == 0 {
        return 0;
    }
    let count = blocks_below(reader, validity, value);
    if count == 0 {
        return 0;
    }
    let (from, _) = reader.places(count - 1);
    let mut scratch = [T::zero(); FL_CHUNK_SIZE];
    from + below_in_block(reader, validity, count - 1, value, &mut scratch)
}
