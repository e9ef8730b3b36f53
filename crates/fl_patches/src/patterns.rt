//! The number of bits of the patterns of integers.

ghost use Rattle.std.specs.Prelude.{◌≡◌, ◌≤◌};
ghost use Rattle.fl_types.specs.Integers.{bits_of_type, pattern_of};
ghost use Rattle.fl_patches.specs.Exceptions.{bit_count};

use fl_column::PhysicalPType;

/// How many bits a pattern has.
#[tactic(auto, using(crate::proofs::BitCounts::count_by_zeros))]
pub(crate) fn bit_count(pattern: u64) -> usize
    ensures { result ≡ bit_count pattern }
{
    64 - pattern.leading_zeros() as usize
}

/// How many bits the pattern of a value has.
#[tactic(auto, using(crate::proofs::BitCounts::bits_of_pattern))]
pub(crate) fn bits_of<T: PhysicalPType>(item: T) -> usize
    ensures count { result ≡ bit_count (pattern_of T.PTYPE (T.value item)) }
    ensures most { result ≤ bits_of_type T.PTYPE }
{
    bit_count(item.pattern())
}

/// How many bits a value of the type has.
pub fn type_bits<T: PhysicalPType>() -> usize
    ensures { result ≡ bits_of_type T.PTYPE }
{
    T::PTYPE.bit_width()
}
