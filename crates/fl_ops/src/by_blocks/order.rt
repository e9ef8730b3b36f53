//! Whether the items of a column rise, block by block: it ends at the first pair that doesn't.

ghost use Rattle.std.specs.Prelude.{◌≡◌, ◌==◌, ◌||◌, ◌+◌, ◌-◌, ◌<◌, IsTrue, None, length, option_map, slice_index_or};
ghost use Rattle.fl_types.specs.Bits.{between};
ghost use Rattle.fl_types.specs.Refusals.{Answers};
ghost use Rattle.fl_types.specs.Types.{has_ptype};
ghost use Rattle.fl_column.specs.Queries.{each_next, in_order, is_sorted_column};
ghost use Rattle.fl_bitpacking.specs.Blocks.{value_at};
ghost use Rattle.fl_array.specs.Reads.{IsValidityOf};
ghost use Rattle.fl_array.specs.Trees.{column};
ghost use Rattle.fl_ops.specs.BlockReads.{AreRead};

use crate::by_blocks::item_of;
use fastlanes::FL_CHUNK_SIZE;
use fl_array::{ArrayRef, Reader};
use fl_bitpacking::unpack_iter::BitPacked;
use fl_column::{DType, FastLanesError, NativePType, PType, PhysicalPType, Validity, is_in_order};
use fl_types::match_each_integer_ptype;
use num_traits::WrappingAdd;
use std::alloc::Global;

/// Whether an item may stand at an index behind the one before it, if there is one.
fn may_follow<T: NativePType>(
    strict: bool,
    before: Option<T>,
    item: Option<T>,
    index: usize,
) -> bool
    ensures { result ≡ (index == 0 || in_order strict (option_map T.value before) (option_map T.value item)) }
{
    index == 0 || is_in_order(strict, before, item)
}

/// Whether each of these items, which were read from `start` on, may follow the one before it. The first follows
/// `before`, if it is not the first of all.
fn is_part_sorted<T: NativePType>(
    reader: &Reader,
    validity: &Validity,
    start: usize,
    items: &[T],
    before: Option<T>,
    strict: bool,
) -> bool
    requires read { AreRead validity.now start (length items.now) (value_at T.value items.now) reader.now.column }
    requires before { 0 < start → option_map T.value before ≡ slice_index_or reader.now.column.items (start - 1) None }
    ensures { result ≡ each_next (in_order strict) (between (start - 1) (start + length items.now) reader.now.column.items) }
{
    // For the proof: a `usize` holds the length.
    let _len = reader.len();
    let mut last = before;
    for i in 0..items.len() {
        let item = item_of(reader, validity, start, items, i);
        if !may_follow(strict, last, item, start + i) {
            return false;
        }
        last = item;
    }
    true
}

/// The last of these items, which were read from `start` on, if there is one.
fn last_of<T: NativePType>(
    reader: &Reader,
    validity: &Validity,
    start: usize,
    items: &[T],
) -> Option<T>
    requires { AreRead validity.now start (length items.now) (value_at T.value items.now) reader.now.column }
    ensures { 0 < length items.now → option_map T.value result ≡ slice_index_or reader.now.column.items (start + length items.now - 1) None }
{
    if items.is_empty() {
        return None;
    }
    item_of(reader, validity, start, items, items.len() - 1)
}

/// Whether each item may stand before the next one.
fn is_sorted_typed<T: BitPacked + PhysicalPType + WrappingAdd>(
    reader: &Reader,
    validity: &Validity,
    strict: bool,
) -> bool
    requires typed { IsTrue (has_ptype T.PTYPE reader.now.column.dtype) }
    requires validity { IsValidityOf validity.now reader.now.column }
    ensures { result ≡ each_next (in_order strict) reader.now.column.items }
{
    let mut scratch = [T::zero(); FL_CHUNK_SIZE];
    let mut last = None;
    for j in 0..reader.blocks() {
        let (from, to) = reader.places(j);
        let items = &mut scratch[..to - from];
        reader.read(from, items);
        if !is_part_sorted(reader, validity, from, items, last, strict) {
            return false;
        }
        last = last_of(reader, validity, from, items);
    }
    true
}

/// The same, by a column's integer type.
fn is_sorted_read(reader: &Reader, validity: &Validity, ptype: PType, strict: bool) -> bool
    requires typed { IsTrue (has_ptype ptype reader.now.column.dtype) }
    requires validity { IsValidityOf validity.now reader.now.column }
    ensures { result ≡ each_next (in_order strict) reader.now.column.items }
{
    match_each_integer_ptype!(ptype, is_sorted_typed(reader, validity, strict))
}

/// Whether no item is above the next or, where `strict`, each is below the next.
pub(crate) fn is_sorted(
    alloc: Global,
    array: &ArrayRef,
    strict: bool,
) -> Result<bool, FastLanesError>
    ensures { Answers (λ b. b) result (is_sorted_column strict (column array.now)) }
{
    let DType::Primitive(ptype, _) = array.dtype() else {
        return Err(FastLanesError::NotInteger);
    };
    let validity = array.validity(alloc)?;
    let reader = Reader::try_new(alloc, array)?;
    Ok(is_sorted_read(&reader, &validity, ptype, strict))
}
