//! The stored integers of a plain array.

ghost use Rattle.std.specs.Prelude.{◌≡◌, length};
ghost use Rattle.fl_types.specs.Buffers.{integers_of, ptype_of};

use crate::dtype::PType;

/// The stored integers of a plain array.
#[derive(Debug, PartialEq, Eq, Drop)]
pub enum PrimitiveBuffer {
    /// Of 8 bits, unsigned.
    U8(Vec<u8>),
    /// Of 16 bits, unsigned.
    U16(Vec<u16>),
    /// Of 32 bits, unsigned.
    U32(Vec<u32>),
    /// Of 64 bits, unsigned.
    U64(Vec<u64>),
    /// Of 8 bits, signed.
    I8(Vec<i8>),
    /// Of 16 bits, signed.
    I16(Vec<i16>),
    /// Of 32 bits, signed.
    I32(Vec<i32>),
    /// Of 64 bits, signed.
    I64(Vec<i64>),
}

impl PrimitiveBuffer {
    /// The integer type.
    pub fn ptype(&self) -> PType
        ensures { result ≡ ptype_of self.now }
    {
        match self {
            PrimitiveBuffer::U8(_) => PType::U8,
            PrimitiveBuffer::U16(_) => PType::U16,
            PrimitiveBuffer::U32(_) => PType::U32,
            PrimitiveBuffer::U64(_) => PType::U64,
            PrimitiveBuffer::I8(_) => PType::I8,
            PrimitiveBuffer::I16(_) => PType::I16,
            PrimitiveBuffer::I32(_) => PType::I32,
            PrimitiveBuffer::I64(_) => PType::I64,
        }
    }

    /// The number of integers.
    #[tactic(auto, using(std::proofs::Common::arith))]
    pub fn len(&self) -> usize
        ensures { result ≡ length (integers_of self.now) }
    {
        match self {
            PrimitiveBuffer::U8(items) => items.len(),
            PrimitiveBuffer::U16(items) => items.len(),
            PrimitiveBuffer::U32(items) => items.len(),
            PrimitiveBuffer::U64(items) => items.len(),
            PrimitiveBuffer::I8(items) => items.len(),
            PrimitiveBuffer::I16(items) => items.len(),
            PrimitiveBuffer::I32(items) => items.len(),
            PrimitiveBuffer::I64(items) => items.len(),
        }
    }
}
