//! The marked items that pass a test, as a list.

ghost use Rattle.std.specs.Prelude.{◌≡◌, ◌+◌, ◌++◌, ◌<◌, IfErr, IfOk, IsTrue, OnOk, filter, length, map, replicate};
ghost use Rattle.fl_types.specs.declared.error.FastLanesError.TheVariants.{OutOfMemory};
ghost use Rattle.fl_types.specs.declared.validity.Validity.TheVariants.{Array};
ghost use Rattle.fl_types.specs.Bits.{kept, tabulate};
ghost use Rattle.fl_types.specs.Types.{has_ptype};
ghost use Rattle.fl_column.specs.Chunks.{chunk_count};
ghost use Rattle.fl_column.specs.Columns.{column_of_constant, column_of_primitive, integers_in};
ghost use Rattle.fl_bitpacking.specs.RangeTests.{IsTestOf, passes};
ghost use Rattle.fl_scan.specs.Blocks.{Marks, marked_items, of_block};
ghost use Rattle.fl_scan.specs.Counts.{Reaches, both, marked_from, passed_in};
ghost use Rattle.fl_scan.specs.Totals.{valid_items};

use crate::counting::marks_from;
use crate::folds::tests::ItemTest;
use crate::passing::keep_passing;
use fastlanes::FL_CHUNK_SIZE;
use fl_array::Reader;
use fl_bitpacking::RangeTest;
use fl_bitpacking::compute::filter::kept_items::{count_between, push_kept};
use fl_bitpacking::unpack_iter::BitPacked;
use fl_column::{
    BitList, ConstantArray, FastLanesError, NativePType, PhysicalPType, PrimitiveArray, Validity,
};
use fl_types::bits::word_of;
use num_traits::WrappingAdd;
use std::alloc::Global;

/// Appends the items of block `j` whose bits are set. A block without one is not read.
fn push_block<T: BitPacked + PhysicalPType + WrappingAdd>(
    taken: &mut Vec<T>,
    reader: &Reader,
    bits: &BitList,
    j: usize,
    scratch: &mut [T; FL_CHUNK_SIZE],
) -> Result<(), FastLanesError>
    requires typed { IsTrue (has_ptype T.PTYPE reader.now.column.dtype) }
    requires marks { Marks (Array bits.now) reader.now.column }
    requires block { j < chunk_count (reader.now.offset + length reader.now.column.items) }
    ensures taken { OnOk result (map T.value taken.new.items ≡ map T.value taken.old.items ++ kept (of_block reader.now j bits.now) (of_block reader.now j (integers_in reader.now.column))) }
    ensures memory { IfErr result (λ e. e ≡ OutOfMemory) }
{
    let (from, to) = reader.places(j);
    if count_between(bits, from, to - from) == 0 {
        return Ok(());
    }
    let items = &mut scratch[..to - from];
    reader.read(from, items);
    push_kept(taken, items, bits, from)?;
    Ok(())
}

/// The items whose bits are set. Room for all is asked for at once.
fn items_at<T: BitPacked + PhysicalPType + WrappingAdd>(
    alloc: Global,
    reader: &Reader,
    bits: &BitList,
) -> Result<Vec<T>, FastLanesError>
    requires typed { IsTrue (has_ptype T.PTYPE reader.now.column.dtype) }
    requires marks { Marks (Array bits.now) reader.now.column }
    ensures items { IfOk result (λ taken. map T.value taken.items ≡ kept bits.now (integers_in reader.now.column)) }
    ensures memory { IfErr result (λ e. e ≡ OutOfMemory) }
{
    let mut taken = Vec::with_capacity(alloc, bits.count_true())?;
    let mut scratch = [T::zero(); FL_CHUNK_SIZE];
    for j in 0..reader.blocks() {
        push_block(&mut taken, reader, bits, j, &mut scratch)?;
    }
    Ok(taken)
}

/// The marked items that pass a test, of an array that is read block by block.
pub(crate) fn filter_marked<T: BitPacked + PhysicalPType + WrappingAdd>(
    alloc: Global,
    reader: &Reader,
    marks: &Validity,
    range: RangeTest,
) -> Result<Vec<T>, FastLanesError>
    requires typed { IsTrue (has_ptype T.PTYPE reader.now.column.dtype) }
    requires test { IsTestOf T.PTYPE range }
    requires marks { Marks marks.now reader.now.column }
    ensures items { IfOk result (λ taken. map T.value taken.items ≡ filter (passes range) (marked_items marks.now reader.now.column)) }
    ensures memory { IfErr result (λ e. e ≡ OutOfMemory) }
{
    let bits = keep_passing::<T, _>(alloc, reader, marks, range)?;
    items_at(alloc, reader, &bits)
}

/// Whether the integer at an index passes a test.
#[tactic(auto, unfolding(crate::specs::Counts::passed_in))]
fn passes_at<T: NativePType, P: ItemTest<T>>(items: &[T], i: usize, test: P) -> bool
    requires { i < length items.now }
    ensures { result ≡ passed_in (P.passing test) (map T.value items.now) i }
{
    test.passes(items[i])
}

/// Which of these integers are marked and pass a test.
fn passing_items<T: NativePType, P: ItemTest<T>>(
    alloc: Global,
    items: &[T],
    marks: &Validity,
    test: P,
) -> Result<BitList, FastLanesError>
    requires { Reaches marks.now (length items.now) }
    ensures marks { IfOk result (λ bits. bits ≡ tabulate (both (marked_from marks.now 0) (passed_in (P.passing test) (map T.value items.now))) (length items.now)) }
    ensures memory { IfErr result (λ e. e ≡ OutOfMemory) }
{
    let mut bits = BitList::with_capacity(alloc, items.len())?;
    let bit = |i| passes_at(items, i, test);
    for k in 0..items.len().div_ceil(64) {
        let from = 64 * k;
        let count = (items.len() - from).min(64);
        let word = marks_from(marks, from, count);
        bits.push_word(word & word_of(from, count, &bit), count)?;
    }
    Ok(bits)
}

/// The valid items of a plain array that pass a test.
pub(crate) fn filter_plain<T: NativePType, P: ItemTest<T>>(
    alloc: Global,
    plain: &PrimitiveArray,
    test: P,
) -> Result<Vec<T>, FastLanesError>
    requires { IsTrue (has_ptype T.PTYPE (column_of_primitive plain.now).dtype) }
    ensures items { IfOk result (λ taken. map T.value taken.items ≡ filter (P.passing test) (valid_items (column_of_primitive plain.now))) }
    ensures memory { IfErr result (λ e. e ≡ OutOfMemory) }
{
    let items = plain.as_slice::<T>();
    let bits = passing_items(alloc, items, plain.validity(), test)?;
    let mut taken = Vec::with_capacity(alloc, bits.count_true())?;
    push_kept(&mut taken, items, &bits, 0)?;
    Ok(taken)
}

/// An integer this many times, if it passes a test.
fn repeated<T: NativePType, P: ItemTest<T>>(
    alloc: Global,
    item: T,
    times: usize,
    test: P,
) -> Result<Vec<T>, FastLanesError>
    ensures items { IfOk result (λ taken. map T.value taken.items ≡ filter (P.passing test) (replicate times (T.value item))) }
    ensures memory { IfErr result (λ e. e ≡ OutOfMemory) }
{
    let mut taken = Vec::new(alloc);
    if !test.passes(item) {
        return Ok(taken);
    }
    taken.resize(times, item)?;
    Ok(taken)
}

/// The valid items of a constant array that pass a test: all or none.
pub(crate) fn filter_constant<T: NativePType, P: ItemTest<T>>(
    alloc: Global,
    constant: &ConstantArray,
    test: P,
) -> Result<Vec<T>, FastLanesError>
    requires { IsTrue (has_ptype T.PTYPE (column_of_constant constant.now).dtype) }
    ensures items { IfOk result (λ taken. map T.value taken.items ≡ filter (P.passing test) (valid_items (column_of_constant constant.now))) }
    ensures memory { IfErr result (λ e. e ≡ OutOfMemory) }
{
    match constant.value() {
        Some(value) => repeated(alloc, T::from_pvalue(value).unwrap(), constant.len(), test),
        None => Ok(Vec::new(alloc)),
    }
}
