//! Statistics of the deltas of an array, of which none is kept.

ghost use Rattle.std.specs.Prelude.{◌≡◌, IfOk, length, map, refl};
ghost use Rattle.fl_column.specs.Queries.{are_constant};
ghost use Rattle.fl_codec.specs.ForwardFill.{carried_to};
ghost use Rattle.fl_codec.specs.Parts.{compress_deltas, items_of_primitive};
ghost use Rattle.fl_statistics.specs.BitStatistics.{bit_statistics};
ghost use Rattle.fl_statistics.specs.Differences.{deltas_of, less_references};

use crate::constants::is_constant;
use crate::sources::{BlockSource, References};
use crate::widths::{BitStatistics, prove_few, statistics_of};
use fastlanes::{FL_CHUNK_SIZE, FastLanes};
use fl_codec::delta::blocks::write_delta_words;
use fl_column::{PhysicalPType, PrimitiveArray, chunk_count};
use fl_types::{NativePType, match_each_integer_ptype};
use num_traits::WrappingSub;
use std::alloc::{AllocError, Global};

/// The deltas of an array.
#[derive(Clone, Copy)]
struct Deltas<'a> {
    array: &'a PrimitiveArray,
}

impl<T: PhysicalPType> BlockSource<T> for Deltas<'_> {
    ghost typed = { λ s. s.array.now.ptype ≡ T.PTYPE };

    ghost parts = { λ s. (compress_deltas s.array.now).1 };

    ghost carried = { λ s block. carried_to (items_of_primitive s.array.now) block };

    ghost carried_law = { λ s. refl };

    fn len(&self) -> usize {
        prove_few(self.array);
        let _len = self.array.len();
        delta_count(self.array)
    }

    fn write_block(&self, block: usize, last: T, room: &mut [T::Physical; FL_CHUNK_SIZE]) -> T {
        let _len = self.array.len();
        let mut stored = [T::Physical::zero(); FL_CHUNK_SIZE];
        write_delta_words(self.array, block, last, room, &mut stored)
    }

    fn is_null(&self, _i: usize) -> bool {
        false
    }

    fn has_nulls(&self) -> bool {
        false
    }
}

/// The best width of an array's deltas minus the references of their blocks, and the best widths of the blocks, and what
/// they leave out. A block for which the list has no reference takes `one`. The differences are taken modulo 2 to the
/// type's bits. The deltas are made and counted block by block: only one block of them is kept.
///
/// The references have the array's type.
pub fn delta_statistics_less<T: PhysicalPType + WrappingSub>(
    _alloc: Global,
    array: &PrimitiveArray,
    one: T,
    references: &[T],
) -> Result<BitStatistics, AllocError>
    requires { array.now.ptype ≡ T.PTYPE }
    ensures { IfOk result (λ statistics. statistics ≡ bit_statistics array.now.ptype (less_references array.now.ptype (T.value one) (map T.value references.now) (deltas_of array.now))) }
{
    let references = References {
        one,
        list: references,
    };
    Ok(statistics_of::<T, Deltas>(&Deltas { array }, &references))
}

fn statistics_typed<T: PhysicalPType + WrappingSub>(
    alloc: Global,
    array: &PrimitiveArray,
) -> Result<BitStatistics, AllocError>
    requires { array.now.ptype ≡ T.PTYPE }
    ensures { IfOk result (λ statistics. statistics ≡ bit_statistics array.now.ptype (deltas_of array.now)) }
{
    let none = &array.as_slice::<T>()[..0];
    delta_statistics_less(alloc, array, T::zero(), none)
}

/// The best width of an array's deltas and the best widths of their blocks, and what they leave out. The deltas are made
/// and counted block by block: only one block of them is kept.
pub fn delta_statistics(alloc: Global, array: &PrimitiveArray) -> Result<BitStatistics, AllocError>
    ensures { IfOk result (λ statistics. statistics ≡ bit_statistics array.now.ptype (deltas_of array.now)) }
{
    match_each_integer_ptype!(array.ptype(), statistics_typed(alloc, array))
}

/// Whether an array's deltas minus the references of their blocks are all equal. A block for which the list has no
/// reference takes `one`. The differences are taken modulo 2 to the type's bits. The deltas are made up to the first that
/// differs, and only one block of them is kept.
///
/// The references have the array's type.
pub fn is_delta_constant_less<T: PhysicalPType + WrappingSub>(
    _alloc: Global,
    array: &PrimitiveArray,
    one: T,
    references: &[T],
) -> Result<bool, AllocError>
    requires { array.now.ptype ≡ T.PTYPE }
    ensures { IfOk result (λ constant. constant ≡ are_constant (less_references array.now.ptype (T.value one) (map T.value references.now) (deltas_of array.now))) }
{
    let references = References {
        one,
        list: references,
    };
    Ok(is_constant::<T, Deltas>(&Deltas { array }, &references))
}

fn is_constant_typed<T: PhysicalPType + WrappingSub>(
    alloc: Global,
    array: &PrimitiveArray,
) -> Result<bool, AllocError>
    requires { array.now.ptype ≡ T.PTYPE }
    ensures { IfOk result (λ constant. constant ≡ are_constant (deltas_of array.now)) }
{
    let none = &array.as_slice::<T>()[..0];
    is_delta_constant_less(alloc, array, T::zero(), none)
}

/// Whether an array's deltas are all equal. They are made up to the first that differs, and only one block of them is
/// kept.
pub fn is_delta_constant(alloc: Global, array: &PrimitiveArray) -> Result<bool, AllocError>
    ensures { IfOk result (λ constant. constant ≡ are_constant (deltas_of array.now)) }
{
    match_each_integer_ptype!(array.ptype(), is_constant_typed(alloc, array))
}

/// How many deltas an array has: 1024 for each block.
pub fn delta_count(array: &PrimitiveArray) -> usize
    ensures { result ≡ length (deltas_of array.now) }
{
    prove_few(array);
    FL_CHUNK_SIZE * chunk_count(array.len())
}
