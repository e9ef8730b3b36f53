//! What is scanned: the integers of an array where they are, or read of it.

ghost use Rattle.std.specs.Prelude.{◌≡◌, ◌<◌, ◌^◌, IfErr, IsTrue, OnOk, length};
ghost use Rattle.fl_types.specs.declared.error.FastLanesError.TheVariants.{OutOfMemory};
ghost use Rattle.fl_types.specs.Types.{has_ptype};
ghost use Rattle.fl_scan.specs.Sources.{column_of_source};
ghost use Rattle.fl_scan.specs.Totals.{valid_items};

use crate::folds::Fold;
use crate::kept::Kept;
use crate::plain::{add_constant, add_plain};
use crate::prepared::Blocks;
use fl_bitpacking::unpack_iter::BitPacked;
use fl_column::{ConstantArray, FastLanesError, PhysicalPType, PrimitiveArray};
use num_traits::WrappingAdd;

/// What is scanned. Contracts see its column.
#[derive(Drop)]
pub(crate) enum Source<'a> {
    /// Integers, one by one.
    Primitive(&'a PrimitiveArray),
    /// One integer or null, repeated.
    Constant(&'a ConstantArray),
    /// Integers that are read block by block.
    Blocks(Blocks<'a>),
    /// The items that a mask keeps, which are read block by block.
    Kept(Kept<'a>),
    /// Decoded integers.
    Decoded(PrimitiveArray),
}

impl Source<'_> {
    /// There are fewer than 2^64 items.
    pub(crate) fn prove_few(&self)
        ensures { length (column_of_source self.now).items < 2 ^ 64 }
    {
        match self {
            Source::Primitive(plain) => {
                let _len = plain.len();
            }
            Source::Decoded(plain) => {
                let _len = plain.len();
            }
            Source::Constant(constant) => {
                let _len = constant.len();
            }
            Source::Blocks(blocks) => {
                let _len = blocks.len();
            }
            Source::Kept(kept) => kept.prove_few(),
        }
    }

    /// Gathers the valid items.
    pub(crate) fn scan<T: BitPacked + PhysicalPType + WrappingAdd, F: Fold<T>>(
        &self,
        fold: &mut F,
    ) -> Result<(), FastLanesError>
        requires { IsTrue (has_ptype T.PTYPE (column_of_source self.now).dtype) }
        ensures gathered { OnOk result (F.Leads fold.old (valid_items (column_of_source self.now)) fold.new) }
        ensures memory { IfErr result (λ e. e ≡ OutOfMemory) }
    {
        match self {
            Source::Primitive(plain) => add_plain(fold, plain),
            Source::Constant(constant) => add_constant(fold, constant),
            Source::Blocks(blocks) => blocks.add_valid(fold),
            Source::Kept(kept) => kept.add(fold),
            Source::Decoded(plain) => add_plain(fold, plain),
        }
    }
}
