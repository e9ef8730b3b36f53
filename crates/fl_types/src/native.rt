//! The eight integer types.

ghost use Rattle.std.specs.Prelude.{◌≡◌, ◌<◌, ◌^◌, ℕ, ℤ, pos, List, [], map, refl, IsSome, IsTrue, ◌↔◌, IfSome, int_lt, unsigned_abs};
ghost use Rattle.std.specs.Ordering.{int_eq};
ghost use Rattle.num_traits.specs.Laws.{Checks};
ghost use Rattle.fl_types.specs.declared.dtype.PType.{PType};
ghost use Rattle.fl_types.specs.declared.dtype.PType.TheVariants as types;
ghost use Rattle.fl_types.specs.declared.buffer.PrimitiveBuffer.{PrimitiveBuffer};
ghost use Rattle.fl_types.specs.Buffers.{integers_of, ptype_of};
ghost use Rattle.fl_types.specs.Values.{integer_of, ptype_of_value};
ghost use Rattle.fl_types.specs.Integers.{bits_of_type, fits, pattern_of, pos_injective, read_as, wrap};

use crate::buffer::PrimitiveBuffer;
use crate::dtype::PType;
use crate::scalar::PValue;
use num_traits::Integral;

/// An integer type of columns. Contracts see a value as its integer, `T.value x`.
///
/// It has few supertraits, since each is a parameter of everything that is proved of a function over
/// it. A function that needs more requires it too, as in `T: NativePType + WrappingSub`.
pub trait NativePType: Copy + Integral {
    /// The type's name.
    const PTYPE: PType;

    ghost PTYPE: { PType };

    /// The value 0.
    fn zero() -> Self
        ensures { Self.value result ≡ pos 0 };

    /// The value as an `i128`, which holds every integer of the eight types.
    fn as_i128(self) -> i128
        ensures { result ≡ Self.value self };

    /// The value of this type, or `None` where the type doesn't have it.
    fn from_i128(value: i128) -> Option<Self>
        ensures { Checks Self.value Self.fits value result };

    /// The absolute value, which for an index or an offset is the value itself.
    fn unsigned_abs(self) -> u64
        ensures { result ≡ unsigned_abs (Self.value self) };

    /// The slots, which have this type.
    fn as_slice(slots: &PrimitiveBuffer) -> &[Self]
        requires { ptype_of slots.now ≡ PTYPE }
        ensures { map Self.value result.now ≡ integers_of slots.now };

    /// Slots of this type.
    fn into_buffer(items: Vec<Self>) -> PrimitiveBuffer
        ensures slots { integers_of result ≡ map Self.value items.items }
        ensures typed { ptype_of result ≡ PTYPE };

    /// The value with its type, whose range it is in.
    fn into_pvalue(self) -> PValue
        ensures value { integer_of result ≡ Self.value self }
        ensures typed { ptype_of_value result ≡ PTYPE }
        ensures range { IsTrue (fits PTYPE (Self.value self)) };

    /// The value, where it has this type.
    fn from_pvalue(value: PValue) -> Option<Self>
        ensures typed { IsSome result ↔ (ptype_of_value value ≡ PTYPE) }
        ensures value { IfSome result (λ x. Self.value x ≡ integer_of value) };

    // Sums and differences wrap as the type does.
    ghost wraps_law: { (z : ℤ) → Self.wrap z ≡ wrap PTYPE z };

    // Values of one integer are equal.
    ghost one_value: { (x y : Self) → Self.value x ≡ Self.value y → x ≡ y };
}

/// Whether the two values are equal.
pub fn is_equal<T: NativePType>(x: T, y: T) -> bool
    ensures { result ≡ int_eq (T.value x) (T.value y) }
{
    x == y
}

/// Whether the first value is less than the second.
pub fn is_less<T: NativePType>(x: T, y: T) -> bool
    ensures { result ≡ int_lt (T.value x) (T.value y) }
{
    x < y
}

#[tactic(auto, using(crate::proofs::Maps::maps))]
impl NativePType for u8 {
    const PTYPE: PType = PType::U8;

    ghost PTYPE = { types.U8 };

    ghost wraps_law = { λ z. refl };

    ghost one_value = { pos_injective };

    fn zero() -> u8 {
        0
    }

    fn as_i128(self) -> i128 {
        self as i128
    }

    fn from_i128(value: i128) -> Option<u8> {
        num_traits::cast(value)
    }

    fn unsigned_abs(self) -> u64 {
        self as u64
    }

    fn as_slice(slots: &PrimitiveBuffer) -> &[u8] {
        match slots {
            PrimitiveBuffer::U8(items) => items.as_slice(),
            _ => unreachable!(),
        }
    }

    fn into_buffer(items: Vec<u8>) -> PrimitiveBuffer
        ensures slots { integers_of result ≡ map (λ n. pos n) items.items }
        ensures typed { ptype_of result ≡ types.U8 }
    {
        PrimitiveBuffer::U8(items)
    }

    fn into_pvalue(self) -> PValue {
        PValue::U8(self)
    }

    fn from_pvalue(value: PValue) -> Option<u8> {
        match value {
            PValue::U8(x) => Some(x),
            _ => None,
        }
    }
}

#[tactic(auto, using(crate::proofs::Maps::maps))]
impl NativePType for u16 {
    const PTYPE: PType = PType::U16;

    ghost PTYPE = { types.U16 };

    ghost wraps_law = { λ z. refl };

    ghost one_value = { pos_injective };

    fn zero() -> u16 {
        0
    }

    fn as_i128(self) -> i128 {
        self as i128
    }

    fn from_i128(value: i128) -> Option<u16> {
        num_traits::cast(value)
    }

    fn unsigned_abs(self) -> u64 {
        self as u64
    }

    fn as_slice(slots: &PrimitiveBuffer) -> &[u16] {
        match slots {
            PrimitiveBuffer::U16(items) => items.as_slice(),
            _ => unreachable!(),
        }
    }

    fn into_buffer(items: Vec<u16>) -> PrimitiveBuffer
        ensures slots { integers_of result ≡ map (λ n. pos n) items.items }
        ensures typed { ptype_of result ≡ types.U16 }
    {
        PrimitiveBuffer::U16(items)
    }

    fn into_pvalue(self) -> PValue {
        PValue::U16(self)
    }

    fn from_pvalue(value: PValue) -> Option<u16> {
        match value {
            PValue::U16(x) => Some(x),
            _ => None,
        }
    }
}

#[tactic(auto, using(crate::proofs::Maps::maps))]
impl NativePType for u32 {
    const PTYPE: PType = PType::U32;

    ghost PTYPE = { types.U32 };

    ghost wraps_law = { λ z. refl };

    ghost one_value = { pos_injective };

    fn zero() -> u32 {
        0
    }

    fn as_i128(self) -> i128 {
        self as i128
    }

    fn from_i128(value: i128) -> Option<u32> {
        num_traits::cast(value)
    }

    fn unsigned_abs(self) -> u64 {
        self as u64
    }

    fn as_slice(slots: &PrimitiveBuffer) -> &[u32] {
        match slots {
            PrimitiveBuffer::U32(items) => items.as_slice(),
            _ => unreachable!(),
        }
    }

    fn into_buffer(items: Vec<u32>) -> PrimitiveBuffer
        ensures slots { integers_of result ≡ map (λ n. pos n) items.items }
        ensures typed { ptype_of result ≡ types.U32 }
    {
        PrimitiveBuffer::U32(items)
    }

    fn into_pvalue(self) -> PValue {
        PValue::U32(self)
    }

    fn from_pvalue(value: PValue) -> Option<u32> {
        match value {
            PValue::U32(x) => Some(x),
            _ => None,
        }
    }
}

#[tactic(auto, using(crate::proofs::Maps::maps))]
impl NativePType for u64 {
    const PTYPE: PType = PType::U64;

    ghost PTYPE = { types.U64 };

    ghost wraps_law = { λ z. refl };

    ghost one_value = { pos_injective };

    fn zero() -> u64 {
        0
    }

    fn as_i128(self) -> i128 {
        self as i128
    }

    fn from_i128(value: i128) -> Option<u64> {
        num_traits::cast(value)
    }

    fn unsigned_abs(self) -> u64 {
        self
    }

    fn as_slice(slots: &PrimitiveBuffer) -> &[u64] {
        match slots {
            PrimitiveBuffer::U64(items) => items.as_slice(),
            _ => unreachable!(),
        }
    }

    fn into_buffer(items: Vec<u64>) -> PrimitiveBuffer
        ensures slots { integers_of result ≡ map (λ n. pos n) items.items }
        ensures typed { ptype_of result ≡ types.U64 }
    {
        PrimitiveBuffer::U64(items)
    }

    fn into_pvalue(self) -> PValue {
        PValue::U64(self)
    }

    fn from_pvalue(value: PValue) -> Option<u64> {
        match value {
            PValue::U64(x) => Some(x),
            _ => None,
        }
    }
}

#[tactic(auto, using(crate::proofs::Maps::maps))]
impl NativePType for i8 {
    const PTYPE: PType = PType::I8;

    ghost PTYPE = { types.I8 };

    ghost wraps_law = { λ z. refl };

    ghost one_value = { λ x y e. e };

    fn zero() -> i8 {
        0
    }

    fn as_i128(self) -> i128 {
        self as i128
    }

    fn from_i128(value: i128) -> Option<i8> {
        num_traits::cast(value)
    }

    fn unsigned_abs(self) -> u64 {
        i8::unsigned_abs(self) as u64
    }

    fn as_slice(slots: &PrimitiveBuffer) -> &[i8] {
        match slots {
            PrimitiveBuffer::I8(items) => items.as_slice(),
            _ => unreachable!(),
        }
    }

    fn into_buffer(items: Vec<i8>) -> PrimitiveBuffer
        ensures slots { integers_of result ≡ map (λ z. z) items.items }
        ensures typed { ptype_of result ≡ types.I8 }
    {
        PrimitiveBuffer::I8(items)
    }

    fn into_pvalue(self) -> PValue {
        PValue::I8(self)
    }

    fn from_pvalue(value: PValue) -> Option<i8> {
        match value {
            PValue::I8(x) => Some(x),
            _ => None,
        }
    }
}

#[tactic(auto, using(crate::proofs::Maps::maps))]
impl NativePType for i16 {
    const PTYPE: PType = PType::I16;

    ghost PTYPE = { types.I16 };

    ghost wraps_law = { λ z. refl };

    ghost one_value = { λ x y e. e };

    fn zero() -> i16 {
        0
    }

    fn as_i128(self) -> i128 {
        self as i128
    }

    fn from_i128(value: i128) -> Option<i16> {
        num_traits::cast(value)
    }

    fn unsigned_abs(self) -> u64 {
        i16::unsigned_abs(self) as u64
    }

    fn as_slice(slots: &PrimitiveBuffer) -> &[i16] {
        match slots {
            PrimitiveBuffer::I16(items) => items.as_slice(),
            _ => unreachable!(),
        }
    }

    fn into_buffer(items: Vec<i16>) -> PrimitiveBuffer
        ensures slots { integers_of result ≡ map (λ z. z) items.items }
        ensures typed { ptype_of result ≡ types.I16 }
    {
        PrimitiveBuffer::I16(items)
    }

    fn into_pvalue(self) -> PValue {
        PValue::I16(self)
    }

    fn from_pvalue(value: PValue) -> Option<i16> {
        match value {
            PValue::I16(x) => Some(x),
            _ => None,
        }
    }
}

#[tactic(auto, using(crate::proofs::Maps::maps))]
impl NativePType for i32 {
    const PTYPE: PType = PType::I32;

    ghost PTYPE = { types.I32 };

    ghost wraps_law = { λ z. refl };

    ghost one_value = { λ x y e. e };

    fn zero() -> i32 {
        0
    }

    fn as_i128(self) -> i128 {
        self as i128
    }

    fn from_i128(value: i128) -> Option<i32> {
        num_traits::cast(value)
    }

    fn unsigned_abs(self) -> u64 {
        i32::unsigned_abs(self) as u64
    }

    fn as_slice(slots: &PrimitiveBuffer) -> &[i32] {
        match slots {
            PrimitiveBuffer::I32(items) => items.as_slice(),
            _ => unreachable!(),
        }
    }

    fn into_buffer(items: Vec<i32>) -> PrimitiveBuffer
        ensures slots { integers_of result ≡ map (λ z. z) items.items }
        ensures typed { ptype_of result ≡ types.I32 }
    {
        PrimitiveBuffer::I32(items)
    }

    fn into_pvalue(self) -> PValue {
        PValue::I32(self)
    }

    fn from_pvalue(value: PValue) -> Option<i32> {
        match value {
            PValue::I32(x) => Some(x),
            _ => None,
        }
    }
}

#[tactic(auto, using(crate::proofs::Maps::maps))]
impl NativePType for i64 {
    const PTYPE: PType = PType::I64;

    ghost PTYPE = { types.I64 };

    ghost wraps_law = { λ z. refl };

    ghost one_value = { λ x y e. e };

    fn zero() -> i64 {
        0
    }

    fn as_i128(self) -> i128 {
        self as i128
    }

    fn from_i128(value: i128) -> Option<i64> {
        num_traits::cast(value)
    }

    fn unsigned_abs(self) -> u64 {
        i64::unsigned_abs(self)
    }

    fn as_slice(slots: &PrimitiveBuffer) -> &[i64] {
        match slots {
            PrimitiveBuffer::I64(items) => items.as_slice(),
            _ => unreachable!(),
        }
    }

    fn into_buffer(items: Vec<i64>) -> PrimitiveBuffer
        ensures slots { integers_of result ≡ map (λ z. z) items.items }
        ensures typed { ptype_of result ≡ types.I64 }
    {
        PrimitiveBuffer::I64(items)
    }

    fn into_pvalue(self) -> PValue {
        PValue::I64(self)
    }

    fn from_pvalue(value: PValue) -> Option<i64> {
        match value {
            PValue::I64(x) => Some(x),
            _ => None,
        }
    }
}
