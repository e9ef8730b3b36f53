//! Tests of the items of a column, block by block.

ghost use Rattle.std.specs.Prelude.{◌≡◌, ◌+◌, ◌<◌, IfErr, IfOk, IsTrue, Ok, OnOk, length};
ghost use Rattle.fl_types.specs.declared.error.FastLanesError.TheVariants.{OutOfMemory};
ghost use Rattle.fl_types.specs.Refusals.{Answers};
ghost use Rattle.fl_types.specs.Types.{has_ptype, is_integer};
ghost use Rattle.fl_column.specs.Chunks.{chunk_count};
ghost use Rattle.fl_column.specs.Columns.{column_of_bools, ptype_of_column};
ghost use Rattle.fl_column.specs.Queries.{tested};
ghost use Rattle.fl_bitpacking.specs.RangeTests.{IsTestOf, passes};
ghost use Rattle.fl_array.specs.Trees.{column};
ghost use Rattle.fl_ops.specs.BlockReads.{AreAnswered, AreAnswers};

use fastlanes::FL_CHUNK_SIZE;
use fl_array::{ArrayRef, Reader};
use fl_bitpacking::RangeTest;
use fl_bitpacking::unpack_iter::BitPacked;
use fl_column::{BitList, BoolArray, DType, FastLanesError, PType, PhysicalPType};
use fl_types::match_each_integer_ptype;
use num_traits::WrappingAdd;
use std::alloc::{AllocError, Global};

/// Appends the answers of a test for the items of block `j`.
fn push_tested<T: BitPacked + PhysicalPType + WrappingAdd>(
    reader: &Reader,
    j: usize,
    range: RangeTest,
    scratch: &mut [T; FL_CHUNK_SIZE],
    words: &mut Vec<u64>,
) -> Result<(), AllocError>
    requires typed { IsTrue (has_ptype T.PTYPE reader.now.column.dtype) }
    requires test { IsTestOf T.PTYPE range }
    requires block { j < chunk_count (reader.now.offset + length reader.now.column.items) }
    requires begun { AreAnswered (passes range) words.old.items j reader.now }
    ensures { OnOk result (AreAnswered (passes range) words.new.items (j + 1) reader.now) }
{
    let mut bits = [0u64; 16];
    reader.test_block(j, range, scratch, &mut bits);
    words.extend_from_slice(&bits)?;
    Ok(())
}

/// The answers of a test for the items: under a null any. Room for all is asked for at once.
fn test_typed<T: BitPacked + PhysicalPType + WrappingAdd>(
    alloc: Global,
    reader: &Reader,
    range: RangeTest,
) -> Result<BitList, FastLanesError>
    requires typed { IsTrue (has_ptype T.PTYPE reader.now.column.dtype) }
    requires test { IsTestOf T.PTYPE range }
    ensures answers { IfOk result (λ bits. AreAnswers (passes range) bits reader.now.column) }
    ensures memory { IfErr result (λ e. e ≡ OutOfMemory) }
{
    let (offset, len) = (reader.offset(), reader.len());
    let mut words = Vec::with_capacity(alloc, 16 * reader.blocks())?;
    let mut scratch = [T::zero(); FL_CHUNK_SIZE];
    for j in 0..reader.blocks() {
        push_tested(reader, j, range, &mut scratch, &mut words)?;
    }
    Ok(BitList::from_words(words, offset, len))
}

/// The same, by a column's integer type.
fn test_read(
    alloc: Global,
    reader: &Reader,
    ptype: PType,
    range: RangeTest,
) -> Result<BitList, FastLanesError>
    requires typed { IsTrue (has_ptype ptype reader.now.column.dtype) }
    requires test { IsTestOf ptype range }
    ensures answers { IfOk result (λ bits. AreAnswers (passes range) bits reader.now.column) }
    ensures memory { IfErr result (λ e. e ≡ OutOfMemory) }
{
    match_each_integer_ptype!(ptype, test_typed(alloc, reader, range))
}

/// The answers of a test for the items of an array; nulls stay null.
pub(crate) fn test(
    alloc: Global,
    array: &ArrayRef,
    range: RangeTest,
) -> Result<BoolArray, FastLanesError>
    requires integers { IsTrue (is_integer (column array.now).dtype) }
    requires test { IsTestOf (ptype_of_column (column array.now)) range }
    ensures { Answers column_of_bools result (Ok (tested (passes range) (column array.now))) }
{
    let DType::Primitive(ptype, _) = array.dtype() else {
        return Err(FastLanesError::NotInteger);
    };
    let validity = array.validity(alloc)?;
    let reader = Reader::try_new(alloc, array)?;
    let bits = test_read(alloc, &reader, ptype, range)?;
    BoolArray::new(bits, validity)
}
