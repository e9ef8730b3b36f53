//! Which items a filter keeps.

ghost use Rattle.std.specs.Prelude.{◌≡◌, ◌<◌, Ok, false, slice_index_or};
ghost use Rattle.fl_types.specs.Bits.{true_count};
ghost use Rattle.fl_types.specs.Masks.{mask_bits, mask_len};
ghost use Rattle.fl_types.specs.Refusals.{Answers};

use crate::bits::BitList;
use crate::error::FastLanesError;
use std::alloc::Global;

/// Which items a filter keeps.
#[derive(Debug, PartialEq, Eq, Drop)]
pub enum Mask {
    /// Keeps all of this many items.
    AllTrue(usize),
    /// Keeps none of this many items.
    AllFalse(usize),
    /// Keeps the items whose bits are set.
    Values(BitList),
}

impl Mask {
    /// The number of items that it is for.
    pub fn len(&self) -> usize
        ensures { result ≡ mask_len self.now }
    {
        match self {
            Mask::AllTrue(len) => *len,
            Mask::AllFalse(len) => *len,
            Mask::Values(bits) => bits.len(),
        }
    }

    /// Whether it keeps the item at an index.
    pub fn get(&self, i: usize) -> bool
        requires { i < mask_len self.now }
        ensures { result ≡ slice_index_or (mask_bits self.now) i false }
    {
        match self {
            Mask::AllTrue(_) => true,
            Mask::AllFalse(_) => false,
            Mask::Values(bits) => bits.get(i),
        }
    }

    /// A copy.
    pub fn try_clone(&self, alloc: Global) -> Result<Mask, FastLanesError>
        ensures { Answers (λ m. m) result (Ok self.now) }
    {
        match self {
            Mask::AllTrue(len) => Ok(Mask::AllTrue(*len)),
            Mask::AllFalse(len) => Ok(Mask::AllFalse(*len)),
            Mask::Values(bits) => Ok(Mask::Values(bits.try_clone(alloc)?)),
        }
    }

    /// The number of items that it keeps.
    #[tactic(auto, using(crate::proofs::MaskLaws::mask_counts))]
    pub fn count_true(&self) -> usize
        ensures { result ≡ true_count (mask_bits self.now) }
    {
        match self {
            Mask::AllTrue(len) => *len,
            Mask::AllFalse(_) => 0,
            Mask::Values(bits) => bits.count_true(),
        }
    }
}
