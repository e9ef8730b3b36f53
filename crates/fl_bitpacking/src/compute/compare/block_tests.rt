//! The tests of the blocks of a column: one test, or a test for each block if each has a reference.

ghost use Rattle.std.specs.Prelude.{◌≡◌, ◌+◌, ◌+ℤ◌, ◌<◌, ℤ, length, pos, slice_index_or};
ghost use Rattle.fl_types.specs.Integers.{wrap};
ghost use Rattle.fl_types.specs.Values.{integer_of, ptype_of_value};
ghost use Rattle.fl_bitpacking.specs.Compared.{AreBlockTests, IsPackedTest, passes_in};
ghost use Rattle.fl_bitpacking.specs.RangeTests.{passes};

use crate::compute::compare::PackedTest;
use crate::compute::range_test::pattern;
use crate::references::References;
use fl_column::PrimitiveArray;
use fl_types::{NativePType, PValue, match_each_integer_ptype};

/// The tests of the items of packed blocks.
#[derive(Clone, Copy)]
pub(super) struct BlockTests<'a> {
    /// The test of each item, or of its sum with its reference.
    pub(super) test: PackedTest,
    /// What is added to the items before they are tested.
    pub(super) references: References<'a>,
}

fn reference_typed<T: NativePType>(references: &PrimitiveArray, j: usize) -> PValue
    requires typed { references.now.ptype ≡ T.PTYPE }
    requires inside { j < length references.now.slots }
    ensures value { integer_of result ≡ slice_index_or references.now.slots j (pos 0) }
    ensures typed { ptype_of_value result ≡ references.now.ptype }
{
    let references = references.as_slice::<T>();
    references[j].into_pvalue()
}

/// The reference of block `j`.
fn reference_at(references: &PrimitiveArray, j: usize) -> PValue
    requires { j < length references.now.slots }
    ensures value { integer_of result ≡ slice_index_or references.now.slots j (pos 0) }
    ensures typed { ptype_of_value result ≡ references.now.ptype }
{
    match_each_integer_ptype!(references.ptype(), reference_typed(references, j))
}

impl PackedTest {
    /// The same test of the sums of the items and a reference, modulo 2 to the type's bits.
    fn of_sums(self, reference: PValue) -> PackedTest
        requires test { IsPackedTest self }
        requires typed { ptype_of_value reference ≡ self.ptype }
        ensures test { IsPackedTest result }
        ensures typed { result.ptype ≡ self.ptype }
        ensures sums { (z : ℤ) → passes result.range z ≡ passes self.range (wrap self.ptype (z +ℤ integer_of reference)) }
    {
        let range = self.range.of_sums(reference);
        let patterns = self.patterns.of_sums(pattern(reference));
        PackedTest {
            range,
            patterns,
            ..self
        }
    }
}

impl BlockTests<'_> {
    /// The test of the items of block `j`.
    pub(super) fn of_block(self, j: usize) -> PackedTest
        requires { AreBlockTests (j + 1) self }
        ensures test { IsPackedTest result }
        ensures typed { result.ptype ≡ self.entry.test.ptype }
        ensures sums { (z : ℤ) → passes result.range z ≡ passes_in self.entry j z }
    {
        match self.references {
            References::None => self.test,
            References::Global(reference) => self.test.of_sums(reference),
            References::PerBlock(references) => self.test.of_sums(reference_at(references, j)),
        }
    }
}
