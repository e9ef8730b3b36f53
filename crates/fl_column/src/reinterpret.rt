//! Plain arrays whose bits are read as another integer type of the same width.

ghost use Rattle.std.specs.Prelude.{◌≡◌, ◌++◌, ◌∷◌, [], map, length, IfOk, Ok};
ghost use Rattle.fl_types.specs.Buffers.{integers_of, ptype_of};
ghost use Rattle.fl_types.specs.Integers.{bits_of_type, other_sign, pattern_of, read_as};
ghost use Rattle.fl_types.specs.Refusals.{Answers};
ghost use Rattle.fl_column.specs.Columns.{reinterpret_primitive};

use crate::laws::stored_integers_are_in_range;
use crate::physical::PhysicalPType;
use crate::primitive::PrimitiveArray;
use fastlanes::FastLanes;
use fl_types::{FastLanesError, PType, PrimitiveBuffer};
use std::alloc::{AllocError, Global};

/// The values whose patterns are those of these values.
fn reinterpret_all<P: FastLanes, S: PhysicalPType<Physical = P>, T: PhysicalPType<Physical = P>>(
    alloc: Global,
    items: &[S],
) -> Result<Vec<T>, AllocError>
    ensures { IfOk result (λ v. map T.value v.items ≡ map (λ z. read_as T.PTYPE (pattern_of S.PTYPE z)) (map S.value items.now)) }
{
    let mut read = Vec::with_capacity(alloc, items.len())?;
    for item in items {
        read.push(T::from_physical(item.to_physical()))?;
    }
    Ok(read)
}

/// The slots of these values' patterns, read as another type.
fn reinterpret_typed<P: FastLanes, S: PhysicalPType<Physical = P>, T: PhysicalPType<Physical = P>>(
    alloc: Global,
    items: &[S],
) -> Result<PrimitiveBuffer, AllocError>
    ensures typed { IfOk result (λ s. ptype_of s ≡ T.PTYPE) }
    ensures slots { IfOk result (λ s. integers_of s ≡ map (λ z. read_as T.PTYPE (pattern_of S.PTYPE z)) (map S.value items.now)) }
{
    Ok(T::into_buffer(reinterpret_all::<P, S, T>(alloc, items)?))
}

/// The slots whose patterns are those of these slots, in the type of the other sign.
fn reinterpret_slots(slots: &PrimitiveBuffer, alloc: Global) -> Result<PrimitiveBuffer, AllocError>
    ensures typed { IfOk result (λ s. ptype_of s ≡ other_sign (ptype_of slots.now)) }
    ensures slots { IfOk result (λ s. integers_of s ≡ map (λ z. read_as (other_sign (ptype_of slots.now)) (pattern_of (ptype_of slots.now) z)) (integers_of slots.now)) }
{
    match slots {
        PrimitiveBuffer::U8(items) => reinterpret_typed::<u8, u8, i8>(alloc, items.as_slice()),
        PrimitiveBuffer::U16(items) => reinterpret_typed::<u16, u16, i16>(alloc, items.as_slice()),
        PrimitiveBuffer::U32(items) => reinterpret_typed::<u32, u32, i32>(alloc, items.as_slice()),
        PrimitiveBuffer::U64(items) => reinterpret_typed::<u64, u64, i64>(alloc, items.as_slice()),
        PrimitiveBuffer::I8(items) => reinterpret_typed::<u8, i8, u8>(alloc, items.as_slice()),
        PrimitiveBuffer::I16(items) => reinterpret_typed::<u16, i16, u16>(alloc, items.as_slice()),
        PrimitiveBuffer::I32(items) => reinterpret_typed::<u32, i32, u32>(alloc, items.as_slice()),
        PrimitiveBuffer::I64(items) => reinterpret_typed::<u64, i64, u64>(alloc, items.as_slice()),
    }
}

impl PrimitiveArray {
    /// The array whose values have the same bits in another type of the same width. The validity is
    /// kept, and so are the values if the type stays.
    #[tactic(auto, using(crate::proofs::ItemLaws::reread_same))]
    pub fn reinterpret_cast(
        self,
        alloc: Global,
        ptype: PType,
    ) -> Result<PrimitiveArray, FastLanesError>
        requires { bits_of_type ptype ≡ bits_of_type self.ptype }
        ensures { Answers (λ a. a) result (Ok (reinterpret_primitive ptype self)) }
    {
        if self.ptype() == ptype {
            stored_integers_are_in_range(&self);
            return Ok(self);
        }
        let (slots, validity) = self.into_parts();
        Ok(PrimitiveArray::from_buffer(reinterpret_slots(&slots, alloc)?, validity))
    }
}
