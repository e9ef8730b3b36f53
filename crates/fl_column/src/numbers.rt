//! The natural numbers that indices, offsets and boundaries are.

ghost use Rattle.std.specs.Prelude.{◌≡◌, ◌<◌, IfOk, IsTrue, Ok, length, map, nat_le, pos, slice_index};
ghost use Rattle.std.specs.List.{list_all};
ghost use Rattle.fl_types.specs.Integers.{fits};
ghost use Rattle.fl_types.specs.Refusals.{Answers};
ghost use Rattle.fl_column.specs.Numbers.{index_array, numbers, numbers_by};

use crate::primitive::PrimitiveArray;
use fl_types::{FastLanesError, NativePType, PType, match_each_integer_ptype};
use num_traits::AsPrimitive;
use std::alloc::{AllocError, Global};

/// The number at an index.
pub fn number_at<I: NativePType>(items: &[I], i: usize) -> usize
    requires { i < length items.now }
    ensures { result ≡ slice_index (numbers_by I.value items.now) i }
{
    items[i].unsigned_abs() as usize
}

fn number_in<I: NativePType>(array: &PrimitiveArray, i: usize) -> usize
    requires same { array.now.ptype ≡ I.PTYPE }
    requires range { i < length array.now.slots }
    ensures { result ≡ slice_index (numbers array.now) i }
{
    number_at(array.as_slice::<I>(), i)
}

impl PrimitiveArray {
    /// The stored number at an index. To read many, use `as_slice` and `number_at` instead, which
    /// look at the type once.
    pub fn number_at(&self, i: usize) -> usize
        requires { i < length self.now.slots }
        ensures { result ≡ slice_index (numbers self.now) i }
    {
        match_each_integer_ptype!(self.ptype(), number_in(self, i))
    }
}

/// These numbers as integers of a type that has each of them.
fn narrow<T: NativePType>(alloc: Global, numbers: &[u64]) -> Result<Vec<T>, AllocError>
where
    u64: AsPrimitive<T>,
    requires { IsTrue (list_all (fits T.PTYPE) (map pos numbers.now)) }
    ensures { IfOk result (λ v. map T.value v.items ≡ map pos numbers.now) }
{
    let mut narrowed = Vec::with_capacity(alloc, numbers.len())?;
    for number in numbers {
        narrowed.push(number.as_())?;
    }
    Ok(narrowed)
}

/// Numbers up to a bound as a non-nullable array of the smallest unsigned type that holds the bound.
pub fn index_array(
    alloc: Global,
    numbers: Vec<u64>,
    bound: usize,
) -> Result<PrimitiveArray, FastLanesError>
    requires { IsTrue (list_all (λ n. nat_le n bound) numbers.items) }
    ensures { Answers (λ a. a) result (Ok (index_array bound numbers.items)) }
{
    match PType::min_unsigned_ptype_for_value(bound as u64) {
        PType::U8 => Ok(PrimitiveArray::non_nullable(narrow::<u8>(alloc, &numbers)?)),
        PType::U16 => Ok(PrimitiveArray::non_nullable(narrow::<u16>(alloc, &numbers)?)),
        PType::U32 => Ok(PrimitiveArray::non_nullable(narrow::<u32>(alloc, &numbers)?)),
        _ => Ok(PrimitiveArray::non_nullable(numbers)),
    }
}
