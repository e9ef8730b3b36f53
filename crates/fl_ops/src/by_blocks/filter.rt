//! The items of a column that a mask keeps, block by block: a block without one is not read.

ghost use Rattle.std.specs.Prelude.{◌≡◌, ◌+◌, ◌<◌, IfOk, IsTrue, Ok, OnOk, length, map};
ghost use Rattle.fl_types.specs.declared.mask.Mask.TheVariants.{Values};
ghost use Rattle.fl_types.specs.Refusals.{Answers};
ghost use Rattle.fl_types.specs.Types.{has_ptype};
ghost use Rattle.fl_column.specs.Chunks.{chunk_count};
ghost use Rattle.fl_column.specs.Columns.{column_of_primitive};
ghost use Rattle.fl_column.specs.Operations.{filter_column, filter_of};
ghost use Rattle.fl_array.specs.Reads.{IsValidityOf};
ghost use Rattle.fl_array.specs.Trees.{column};
ghost use Rattle.fl_ops.specs.BlockReads.{AreKept, items_before};

use fastlanes::FL_CHUNK_SIZE;
use fl_array::{ArrayRef, Reader};
use fl_bitpacking::compute::filter::kept_items::{count_between, push_kept};
use fl_bitpacking::unpack_iter::BitPacked;
use fl_column::{
    BitList, DType, FastLanesError, PType, PhysicalPType, PrimitiveArray, Validity, filter_validity,
};
use fl_types::match_each_integer_ptype;
use num_traits::WrappingAdd;
use std::alloc::{AllocError, Global};

/// Appends the integers of block `j` whose booleans are true, also under a null. A block without one is not read.
fn push_block<T: BitPacked + PhysicalPType + WrappingAdd>(
    reader: &Reader,
    j: usize,
    bits: &BitList,
    taken: &mut Vec<T>,
    scratch: &mut [T; FL_CHUNK_SIZE],
) -> Result<(), AllocError>
    requires typed { IsTrue (has_ptype T.PTYPE reader.now.column.dtype) }
    requires long { length bits.now ≡ length reader.now.column.items }
    requires block { j < chunk_count (reader.now.offset + length reader.now.column.items) }
    requires begun { AreKept bits.now (map T.value taken.old.items) (items_before reader.now j) reader.now.column }
    ensures { OnOk result (AreKept bits.now (map T.value taken.new.items) (items_before reader.now (j + 1)) reader.now.column) }
{
    let (from, to) = reader.places(j);
    let count = count_between(bits, from, to - from);
    if count == 0 {
        return Ok(());
    }
    let items = &mut scratch[..to - from];
    reader.read(from, items);
    push_kept(taken, items, bits, from)?;
    Ok(())
}

/// The integers whose booleans are true, also under a null. Room for all is asked for at once.
fn kept_items<T: BitPacked + PhysicalPType + WrappingAdd>(
    alloc: Global,
    reader: &Reader,
    bits: &BitList,
) -> Result<Vec<T>, AllocError>
    requires typed { IsTrue (has_ptype T.PTYPE reader.now.column.dtype) }
    requires long { length bits.now ≡ length reader.now.column.items }
    ensures { IfOk result (λ v. AreKept bits.now (map T.value v.items) (length reader.now.column.items) reader.now.column) }
{
    let mut taken = Vec::with_capacity(alloc, bits.count_true())?;
    let mut scratch = [T::zero(); FL_CHUNK_SIZE];
    for j in 0..reader.blocks() {
        push_block(reader, j, bits, &mut taken, &mut scratch)?;
    }
    Ok(taken)
}

fn filter_typed<T: BitPacked + PhysicalPType + WrappingAdd>(
    alloc: Global,
    reader: &Reader,
    validity: &Validity,
    bits: &BitList,
) -> Result<PrimitiveArray, FastLanesError>
    requires typed { IsTrue (has_ptype T.PTYPE reader.now.column.dtype) }
    requires validity { IsValidityOf validity.now reader.now.column }
    requires long { length bits.now ≡ length reader.now.column.items }
    ensures { Answers column_of_primitive result (Ok (filter_of (Values bits.now) reader.now.column)) }
{
    let slots = kept_items::<T>(alloc, reader, bits)?;
    let validity = filter_validity(validity, alloc, bits)?;
    Ok(PrimitiveArray::new_unchecked(slots, validity))
}

/// The same, by a column's integer type.
fn filter_read(
    alloc: Global,
    reader: &Reader,
    validity: &Validity,
    ptype: PType,
    bits: &BitList,
) -> Result<PrimitiveArray, FastLanesError>
    requires typed { IsTrue (has_ptype ptype reader.now.column.dtype) }
    requires validity { IsValidityOf validity.now reader.now.column }
    requires long { length bits.now ≡ length reader.now.column.items }
    ensures { Answers column_of_primitive result (Ok (filter_of (Values bits.now) reader.now.column)) }
{
    match_each_integer_ptype!(ptype, filter_typed(alloc, reader, validity, bits))
}

/// The items of an array whose booleans are true, in order.
pub(crate) fn filter(
    alloc: Global,
    array: &ArrayRef,
    bits: &BitList,
) -> Result<PrimitiveArray, FastLanesError>
    requires { length bits.now ≡ length (column array.now).items }
    ensures { Answers column_of_primitive result (filter_column (Values bits.now) (column array.now)) }
{
    let DType::Primitive(ptype, _) = array.dtype() else {
        return Err(FastLanesError::NotInteger);
    };
    let validity = array.validity(alloc)?;
    let reader = Reader::try_new(alloc, array)?;
    filter_read(alloc, &reader, &validity, ptype, bits)
}
