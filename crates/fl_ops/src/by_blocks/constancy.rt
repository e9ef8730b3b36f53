//! Whether the items of a column are equal, block by block: it ends at the first that differs.

ghost use Rattle.std.specs.Prelude.{◌≡◌, ◌+◌, ◌<◌, IsTrue, None, length, option_map, slice_index_or};
ghost use Rattle.std.specs.List.{list_all};
ghost use Rattle.fl_types.specs.Bits.{between};
ghost use Rattle.fl_types.specs.Refusals.{Answers};
ghost use Rattle.fl_types.specs.Types.{has_ptype};
ghost use Rattle.fl_column.specs.Queries.{are_constant, is_constant_column, same_item};
ghost use Rattle.fl_bitpacking.specs.Blocks.{value_at};
ghost use Rattle.fl_array.specs.Reads.{IsValidityOf};
ghost use Rattle.fl_array.specs.Trees.{column};
ghost use Rattle.fl_ops.specs.BlockReads.{AreRead};

use crate::by_blocks::item_of;
use fastlanes::FL_CHUNK_SIZE;
use fl_array::{ArrayRef, Reader};
use fl_bitpacking::unpack_iter::BitPacked;
use fl_column::{DType, FastLanesError, NativePType, PType, PhysicalPType, Validity, is_same_item};
use fl_types::match_each_integer_ptype;
use num_traits::WrappingAdd;
use std::alloc::Global;

/// The item at an index.
fn item_at<T: BitPacked + PhysicalPType + WrappingAdd>(
    reader: &Reader,
    validity: &Validity,
    i: usize,
) -> Option<T>
    requires typed { IsTrue (has_ptype T.PTYPE reader.now.column.dtype) }
    requires validity { IsValidityOf validity.now reader.now.column }
    requires range { i < length reader.now.column.items }
    ensures { option_map T.value result ≡ slice_index_or reader.now.column.items i None }
{
    let mut one = [T::zero(); 1];
    reader.read(i, &mut one);
    item_of(reader, validity, i, &one, 0)
}

/// Whether each of these items, which were read from `start` on, equals the given one; a null equals a null.
fn is_part_constant<T: NativePType>(
    reader: &Reader,
    validity: &Validity,
    start: usize,
    items: &[T],
    first: Option<T>,
) -> bool
    requires { AreRead validity.now start (length items.now) (value_at T.value items.now) reader.now.column }
    ensures { result ≡ list_all (same_item (option_map T.value first)) (between start (start + length items.now) reader.now.column.items) }
{
    for i in 0..items.len() {
        if !is_same_item(first, item_of(reader, validity, start, items, i)) {
            return false;
        }
    }
    true
}

/// Whether all items are equal.
fn is_constant_typed<T: BitPacked + PhysicalPType + WrappingAdd>(
    reader: &Reader,
    validity: &Validity,
) -> bool
    requires typed { IsTrue (has_ptype T.PTYPE reader.now.column.dtype) }
    requires validity { IsValidityOf validity.now reader.now.column }
    ensures { result ≡ are_constant reader.now.column.items }
{
    if reader.len() == 0 {
        return true;
    }
    let first = item_at::<T>(reader, validity, 0);
    let mut scratch = [T::zero(); FL_CHUNK_SIZE];
    for j in 0..reader.blocks() {
        let (from, to) = reader.places(j);
        let items = &mut scratch[..to - from];
        reader.read(from, items);
        if !is_part_constant(reader, validity, from, items, first) {
            return false;
        }
    }
    true
}

/// The same, by a column's integer type.
fn is_constant_read(reader: &Reader, validity: &Validity, ptype: PType) -> bool
    requires typed { IsTrue (has_ptype ptype reader.now.column.dtype) }
    requires validity { IsValidityOf validity.now reader.now.column }
    ensures { result ≡ are_constant reader.now.column.items }
{
    match_each_integer_ptype!(ptype, is_constant_typed(reader, validity))
}

/// Whether all items are equal; a null equals a null.
pub(crate) fn is_constant(alloc: Global, array: &ArrayRef) -> Result<bool, FastLanesError>
    ensures { Answers (λ b. b) result (is_constant_column (column array.now)) }
{
    let DType::Primitive(ptype, _) = array.dtype() else {
        return Err(FastLanesError::NotInteger);
    };
    let validity = array.validity(alloc)?;
    let reader = Reader::try_new(alloc, array)?;
    Ok(is_constant_read(&reader, &validity, ptype))
}
