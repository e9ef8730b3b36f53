//! Columns that are read into new primitive arrays.

ghost use Rattle.std.specs.Prelude.{◌≡◌, ◌+◌, ◌-◌, ◌≤◌, ◌<◌, ℕ, IfOk, IsTrue, Ok, OnOk, length, map};
ghost use Rattle.fl_types.specs.Refusals.{Answers};
ghost use Rattle.fl_types.specs.Types.{has_ptype};
ghost use Rattle.fl_column.specs.Columns.{column_of_primitive};
ghost use Rattle.fl_bitpacking.specs.Blocks.{value_at};
ghost use Rattle.fl_array.specs.Readers.{AreItemsFrom};
ghost use Rattle.fl_array.specs.Reads.{AreItemsOf, IsValidityOf, integer_column};

use crate::reader::Reader;
use fl_bitpacking::unpack_iter::BitPacked;
use fl_column::{DType, FastLanesError, PhysicalPType, PrimitiveArray, Validity};
use fl_types::match_each_integer_ptype;
use num_traits::WrappingAdd;
use std::alloc::{AllocError, Global};

/// How many items are read in one step, 4 blocks. The list grows by these alone, so that they are filled with 0 and
/// read while they lie in the first-level cache.
const ITEMS_A_STEP: usize = 4_096;

/// Appends the items up to an index.
fn push_items<T: BitPacked + PhysicalPType + WrappingAdd>(
    reader: &Reader,
    to: usize,
    items: &mut Vec<T>,
) -> Result<(), AllocError>
    requires typed { IsTrue (has_ptype T.PTYPE reader.now.column.dtype) }
    requires order { length items.old.items ≤ to }
    requires range { to ≤ length reader.now.column.items }
    ensures long { OnOk result (length items.new.items ≡ to) }
    ensures before { OnOk result ((i : ℕ) → i < length items.old.items → value_at T.value items.new.items i ≡ value_at T.value items.old.items i) }
    ensures part { OnOk result (AreItemsFrom (length items.old.items) (to - length items.old.items) (λ i. value_at T.value items.new.items (length items.old.items + i)) reader.now.column) }
{
    let from = items.len();
    items.resize(to, T::zero())?;
    reader.read(from, &mut items[from..]);
    Ok(())
}

/// All items in a list that grows while it is read.
fn collect<T: BitPacked + PhysicalPType + WrappingAdd>(
    alloc: Global,
    reader: &Reader,
) -> Result<Vec<T>, AllocError>
    requires { IsTrue (has_ptype T.PTYPE reader.now.column.dtype) }
    ensures long { IfOk result (λ v. length v.items ≡ length reader.now.column.items) }
    ensures items { IfOk result (λ v. AreItemsOf (map T.value v.items) reader.now.column) }
{
    let (offset, len) = (reader.offset(), reader.len());
    let mut items = Vec::with_capacity(alloc, len)?;
    for k in 0..(offset + len).div_ceil(ITEMS_A_STEP) {
        let to = (ITEMS_A_STEP * k + ITEMS_A_STEP.min(offset + len - ITEMS_A_STEP * k)) - offset;
        push_items(reader, to, &mut items)?;
    }
    Ok(items)
}

fn to_primitive_typed<T: BitPacked + PhysicalPType + WrappingAdd>(
    alloc: Global,
    reader: &Reader,
    validity: Validity,
) -> Result<PrimitiveArray, FastLanesError>
    requires typed { IsTrue (has_ptype T.PTYPE reader.now.column.dtype) }
    requires validity { IsValidityOf validity reader.now.column }
    ensures { Answers column_of_primitive result (Ok reader.now.column) }
{
    let items = collect::<T>(alloc, reader)?;
    Ok(PrimitiveArray::new_unchecked(items, validity))
}

impl Reader<'_> {
    /// The column, which has this type and this validity, in a primitive array.
    ///
    /// # Errors
    /// `NotInteger` if the type is not one of integers.
    // It stays a function, so that what reads is not on the stack of each array that is decoded for another one.
    #[inline(never)]
    pub(crate) fn to_primitive(
        &self,
        alloc: Global,
        dtype: DType,
        validity: Validity,
    ) -> Result<PrimitiveArray, FastLanesError>
        requires dtype { dtype ≡ self.now.column.dtype }
        requires validity { IsValidityOf validity self.now.column }
        ensures { Answers column_of_primitive result (integer_column self.now.column) }
    {
        match dtype {
            DType::Primitive(ptype, _) => {
                match_each_integer_ptype!(ptype, to_primitive_typed(alloc, self, validity))
            }
            DType::Bool(_) => Err(FastLanesError::NotInteger),
        }
    }
}
