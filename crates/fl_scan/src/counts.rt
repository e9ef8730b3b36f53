//! How many marked items pass a test, of an array that is tested block by block.

ghost use Rattle.std.specs.Prelude.{◌≡◌, ◌+◌, ◌-◌, ◌<◌, ◌≤◌, ℕ, IsTrue, count_by, false, length};
ghost use Rattle.fl_types.specs.Types.{has_ptype};
ghost use Rattle.fl_types.specs.Validities.{is_valid_at};
ghost use Rattle.fl_column.specs.Chunks.{chunk_count};
ghost use Rattle.fl_column.specs.Columns.{column_of_constant, column_of_primitive, integers_in};
ghost use Rattle.fl_bitpacking.specs.RangeTests.{IsTestOf, passes};
ghost use Rattle.fl_scan.specs.Blocks.{Marks, items_before, marked_items, of_block};
ghost use Rattle.fl_scan.specs.Counts.{Reaches, both, count_below, marked_from, passed_in};
ghost use Rattle.fl_scan.specs.Totals.{count_of};

use crate::counting::{count_answers, count_items};
use crate::folds::tests::ItemTest;
use fastlanes::FL_CHUNK_SIZE;
use fl_array::Reader;
use fl_bitpacking::RangeTest;
use fl_bitpacking::compute::filter::kept_items::count_between;
use fl_bitpacking::unpack_iter::BitPacked;
use fl_column::{ConstantArray, NativePType, PhysicalPType, PrimitiveArray, Validity};
use num_traits::WrappingAdd;

/// Whether some of the items from `from` on may be marked: `false` where none is.
pub(crate) fn has_marks(marks: &Validity, from: usize, count: usize) -> bool
    requires { Reaches marks.now (from + count) }
    ensures { result ≡ false → (i : ℕ) → i < count → is_valid_at marks.now (from + i) ≡ false }
{
    match marks {
        Validity::NonNullable | Validity::AllValid => true,
        Validity::AllInvalid => false,
        Validity::Array(bits) => count_between(bits, from, count) > 0,
    }
}

/// How many items of block `j` are marked and pass a test. It is not tested if none is marked.
fn count_block<T: BitPacked + PhysicalPType + WrappingAdd>(
    reader: &Reader,
    marks: &Validity,
    range: RangeTest,
    j: usize,
    scratch: &mut [T; FL_CHUNK_SIZE],
) -> usize
    requires typed { IsTrue (has_ptype T.PTYPE reader.now.column.dtype) }
    requires test { IsTestOf T.PTYPE range }
    requires marks { Marks marks.now reader.now.column }
    requires block { j < chunk_count (reader.now.offset + length reader.now.column.items) }
    ensures { result ≡ count_below (both (marked_from marks.now (items_before reader.now j)) (passed_in (passes range) (of_block reader.now j (integers_in reader.now.column)))) (items_before reader.now (j + 1) - items_before reader.now j) }
{
    // For the proof: a `usize` holds the number of items.
    let _len = reader.len();
    let (from, to) = reader.places(j);
    if !has_marks(marks, from, to - from) {
        return 0;
    }
    let mut answers = [0u64; 16];
    reader.test_block(j, range, scratch, &mut answers);
    let at = reader.offset().saturating_sub(FL_CHUNK_SIZE * j);
    count_answers(&answers, at, to - from, marks, from)
}

/// How many items are marked and pass a test.
pub(crate) fn count_marked<T: BitPacked + PhysicalPType + WrappingAdd>(
    reader: &Reader,
    marks: &Validity,
    range: RangeTest,
) -> usize
    requires typed { IsTrue (has_ptype T.PTYPE reader.now.column.dtype) }
    requires test { IsTestOf T.PTYPE range }
    requires marks { Marks marks.now reader.now.column }
    ensures { result ≡ count_by (passes range) (marked_items marks.now reader.now.column) }
{
    // For the proof: a `usize` holds the number of items.
    let _len = reader.len();
    let mut scratch = [T::zero(); FL_CHUNK_SIZE];
    let mut count = 0;
    for j in 0..reader.blocks() {
        count += count_block(reader, marks, range, j, &mut scratch);
    }
    count
}

/// How many valid items of a plain array pass a test.
pub(crate) fn count_plain<T: NativePType, P: ItemTest<T>>(plain: &PrimitiveArray, test: P) -> usize
    requires { IsTrue (has_ptype T.PTYPE (column_of_primitive plain.now).dtype) }
    ensures { result ≡ count_of (P.passing test) (column_of_primitive plain.now) }
{
    // For the proof: a `usize` holds the number of items.
    let _len = plain.len();
    count_items(plain.as_slice::<T>(), test, plain.validity(), 0)
}

/// How many valid items of a constant array pass a test: all or none.
pub(crate) fn count_constant<T: NativePType, P: ItemTest<T>>(
    constant: &ConstantArray,
    test: P,
) -> usize
    requires { IsTrue (has_ptype T.PTYPE (column_of_constant constant.now).dtype) }
    ensures { result ≡ count_of (P.passing test) (column_of_constant constant.now) }
{
    let len = constant.len();
    let Some(value) = constant.value() else {
        return 0;
    };
    let item = T::from_pvalue(value).unwrap();
    if test.passes(item) { len } else { 0 }
}
