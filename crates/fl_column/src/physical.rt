//! The bit patterns of the eight integer types.

ghost use Rattle.std.specs.Prelude.{◌≡◌, IfSome, map, refl};
ghost use Rattle.fl_types.specs.Integers.{bits_of_type, pattern_of, read_as};

use fastlanes::FastLanes;
use fl_types::NativePType;

/// An integer type with the bit patterns of its values, which the kernels work on.
pub trait PhysicalPType: NativePType {
    /// The unsigned type of the same width, whose values are the bit patterns.
    type Physical: FastLanes;

    /// The bit pattern of the value.
    fn to_physical(self) -> Self::Physical
        ensures { Self.Physical.pattern result ≡ pattern_of Self.PTYPE (Self.value self) };

    /// The value of a bit pattern.
    fn from_physical(pattern: Self::Physical) -> Self
        ensures { Self.value result ≡ read_as Self.PTYPE (Self.Physical.pattern pattern) };

    /// The bit pattern of the value, as a number.
    fn pattern(self) -> u64
        ensures { result ≡ pattern_of Self.PTYPE (Self.value self) };

    /// The values of these patterns, where the type is unsigned and each value is its pattern; else `None`.
    fn values_of(patterns: &[Self::Physical]) -> Option<&[Self]>
        ensures { IfSome result (λ values. map Self.value values.now ≡ map (λ w. read_as Self.PTYPE (Self.Physical.pattern w)) patterns.now) };

    /// The patterns of these values, where the type is unsigned and each pattern is its value; else `None`.
    fn patterns_of(values: &[Self]) -> Option<&[Self::Physical]>
        ensures { IfSome result (λ patterns. map Self.Physical.pattern patterns.now ≡ map (pattern_of Self.PTYPE) (map Self.value values.now)) };

    // The patterns have the type's bits.
    ghost width_law: { Self.Physical.T ≡ bits_of_type Self.PTYPE };
}

#[tactic(auto, using(fl_types::proofs::Patterns::patterns))]
impl PhysicalPType for u8 {
    type Physical = u8;

    ghost width_law = { refl };

    fn to_physical(self) -> u8 {
        self
    }

    fn from_physical(pattern: u8) -> u8 {
        pattern
    }

    fn pattern(self) -> u64 {
        self as u64
    }

    fn values_of(patterns: &[u8]) -> Option<&[u8]> {
        Some(patterns)
    }

    fn patterns_of(values: &[u8]) -> Option<&[u8]> {
        Some(values)
    }
}

#[tactic(auto, using(fl_types::proofs::Patterns::patterns))]
impl PhysicalPType for u16 {
    type Physical = u16;

    ghost width_law = { refl };

    fn to_physical(self) -> u16 {
        self
    }

    fn from_physical(pattern: u16) -> u16 {
        pattern
    }

    fn pattern(self) -> u64 {
        self as u64
    }

    fn values_of(patterns: &[u16]) -> Option<&[u16]> {
        Some(patterns)
    }

    fn patterns_of(values: &[u16]) -> Option<&[u16]> {
        Some(values)
    }
}

#[tactic(auto, using(fl_types::proofs::Patterns::patterns))]
impl PhysicalPType for u32 {
    type Physical = u32;

    ghost width_law = { refl };

    fn to_physical(self) -> u32 {
        self
    }

    fn from_physical(pattern: u32) -> u32 {
        pattern
    }

    fn pattern(self) -> u64 {
        self as u64
    }

    fn values_of(patterns: &[u32]) -> Option<&[u32]> {
        Some(patterns)
    }

    fn patterns_of(values: &[u32]) -> Option<&[u32]> {
        Some(values)
    }
}

#[tactic(auto, using(fl_types::proofs::Patterns::patterns))]
impl PhysicalPType for u64 {
    type Physical = u64;

    ghost width_law = { refl };

    fn to_physical(self) -> u64 {
        self
    }

    fn from_physical(pattern: u64) -> u64 {
        pattern
    }

    fn pattern(self) -> u64 {
        self
    }

    fn values_of(patterns: &[u64]) -> Option<&[u64]> {
        Some(patterns)
    }

    fn patterns_of(values: &[u64]) -> Option<&[u64]> {
        Some(values)
    }
}

#[tactic(auto, using(fl_types::proofs::Patterns::patterns))]
impl PhysicalPType for i8 {
    type Physical = u8;

    ghost width_law = { refl };

    fn to_physical(self) -> u8 {
        self.cast_unsigned()
    }

    fn from_physical(pattern: u8) -> i8 {
        pattern.cast_signed()
    }

    fn pattern(self) -> u64 {
        self.cast_unsigned() as u64
    }

    fn values_of(_patterns: &[u8]) -> Option<&[i8]> {
        None
    }

    fn patterns_of(_values: &[i8]) -> Option<&[u8]> {
        None
    }
}

#[tactic(auto, using(fl_types::proofs::Patterns::patterns))]
impl PhysicalPType for i16 {
    type Physical = u16;

    ghost width_law = { refl };

    fn to_physical(self) -> u16 {
        self.cast_unsigned()
    }

    fn from_physical(pattern: u16) -> i16 {
        pattern.cast_signed()
    }

    fn pattern(self) -> u64 {
        self.cast_unsigned() as u64
    }

    fn values_of(_patterns: &[u16]) -> Option<&[i16]> {
        None
    }

    fn patterns_of(_values: &[i16]) -> Option<&[u16]> {
        None
    }
}

#[tactic(auto, using(fl_types::proofs::Patterns::patterns))]
impl PhysicalPType for i32 {
    type Physical = u32;

    ghost width_law = { refl };

    fn to_physical(self) -> u32 {
        self.cast_unsigned()
    }

    fn from_physical(pattern: u32) -> i32 {
        pattern.cast_signed()
    }

    fn pattern(self) -> u64 {
        self.cast_unsigned() as u64
    }

    fn values_of(_patterns: &[u32]) -> Option<&[i32]> {
        None
    }

    fn patterns_of(_values: &[i32]) -> Option<&[u32]> {
        None
    }
}

#[tactic(auto, using(fl_types::proofs::Patterns::patterns))]
impl PhysicalPType for i64 {
    type Physical = u64;

    ghost width_law = { refl };

    fn to_physical(self) -> u64 {
        self.cast_unsigned()
    }

    fn from_physical(pattern: u64) -> i64 {
        pattern.cast_signed()
    }

    fn pattern(self) -> u64 {
        self.cast_unsigned()
    }

    fn values_of(_patterns: &[u64]) -> Option<&[i64]> {
        None
    }

    fn patterns_of(_values: &[i64]) -> Option<&[u64]> {
        None
    }
}
