//! Tests of a range on plain arrays.

ghost use Rattle.std.specs.Prelude.{◌≡◌, ◌++◌, IfErr, Ok, OnOk, length, map};
ghost use Rattle.fl_types.specs.declared.error.FastLanesError.TheVariants.{OutOfMemory};
ghost use Rattle.fl_types.specs.Refusals.{Answers};
ghost use Rattle.fl_column.specs.Columns.{column_of_bools, column_of_primitive};
ghost use Rattle.fl_column.specs.Queries.{tested};
ghost use Rattle.fl_bitpacking.specs.Compared.{IsPackedTest};
ghost use Rattle.fl_bitpacking.specs.RangeTests.{IsTestOf, passes};

use crate::compute::compare::{PackedTest, passes_at};
use crate::compute::range_test::RangeTest;
use fl_column::{BoolArray, PhysicalPType, PrimitiveArray};
use fl_types::bits::word_of;
use fl_types::{BitList, FastLanesError, match_each_integer_ptype};
use std::alloc::Global;

/// Appends the answers of a test for integers. A reference of the test is an integer of their type.
pub fn push_answers<T: PhysicalPType>(
    range: RangeTest,
    items: &[T],
    answers: &mut BitList,
) -> Result<(), FastLanesError>
    requires { IsTestOf T.PTYPE range }
    ensures answers { OnOk result (answers.new ≡ answers.old ++ map (passes range) (map T.value items.now)) }
    ensures memory { IfErr result (λ e. e ≡ OutOfMemory) }
{
    let test = PackedTest::new(range, T::PTYPE);
    let bit = |i| passes_at(test, items, i);
    for k in 0..items.len().div_ceil(64) {
        let at = 64 * k;
        let count = (items.len() - at).min(64);
        answers.push_word(word_of(at, count, &bit), count)?;
    }
    Ok(())
}

fn test_typed<T: PhysicalPType>(
    array: &PrimitiveArray,
    alloc: Global,
    test: PackedTest,
) -> Result<BitList, FastLanesError>
    requires test { IsPackedTest test }
    requires typed { test.ptype ≡ T.PTYPE }
    requires array { array.now.ptype ≡ T.PTYPE }
    ensures { Answers (λ b. b) result (Ok (map (passes test.range) array.now.slots)) }
{
    let items = array.as_slice::<T>();
    BitList::from_fn(alloc, items.len(), |i| passes_at(test, items, i))
}

fn test_slots(
    array: &PrimitiveArray,
    alloc: Global,
    test: PackedTest,
) -> Result<BitList, FastLanesError>
    requires test { IsPackedTest test }
    requires typed { test.ptype ≡ array.now.ptype }
    ensures { Answers (λ b. b) result (Ok (map (passes test.range) array.now.slots)) }
{
    match_each_integer_ptype!(array.ptype(), test_typed(array, alloc, test))
}

/// The answers of a test for the items of a plain array; nulls stay null. A reference of the test is an integer of the
/// array's type.
#[tactic(auto, using(fl_column::proofs::QueryLaws::tests))]
pub fn test_primitive(
    alloc: Global,
    array: &PrimitiveArray,
    range: RangeTest,
) -> Result<BoolArray, FastLanesError>
    requires { IsTestOf array.now.ptype range }
    ensures { Answers column_of_bools result (Ok (tested (passes range) (column_of_primitive array.now))) }
{
    let test = PackedTest::new(range, array.ptype());
    let validity = array.validity().try_clone(alloc)?;
    let bits = test_slots(array, alloc, test)?;
    BoolArray::new(bits, validity)
}
