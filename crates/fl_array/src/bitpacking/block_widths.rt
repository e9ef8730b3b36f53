//! The widths of an array's blocks, with boundaries that can be read one by one.

ghost use Rattle.std.specs.Prelude.{◌≡◌, IfErr, IfOk, false};
ghost use Rattle.fl_types.specs.declared.error.FastLanesError.TheVariants.{OutOfMemory};
ghost use Rattle.fl_array.specs.BitPackedArrays.{is_global};
ghost use Rattle.fl_array.specs.BlockWidths.{AreBlockWidths, IsViewOf};

use crate::array::primitive_cow::PrimitiveCow;
use crate::bitpacking::{BitPackedArray, BitWidthsView};
use fl_column::FastLanesError;
use fl_patches::Widths;
use std::alloc::Global;

/// The widths of the blocks: one for all, or those between boundaries, which are borrowed if they are a primitive array and
/// decoded otherwise.
#[derive(Drop)]
pub(crate) enum BlockWidths<'a> {
    Global(usize),
    Boundaries(PrimitiveCow<'a>),
}

impl BlockWidths<'_> {
    /// The widths as the blocks are read by them.
    pub(crate) fn view(&self) -> Widths<'_>
        ensures { IsViewOf self.now result }
    {
        match self {
            BlockWidths::Global(width) => Widths::Global(*width),
            BlockWidths::Boundaries(boundaries) => Widths::Boundaries(boundaries.array()),
        }
    }
}

impl BitPackedArray {
    /// The widths of the blocks. Boundaries that are a constant array are not written out: all blocks have width 0.
    ///
    /// # Errors
    /// Only `OutOfMemory`, and only if each block has a width of its own.
    #[cycle(decoding)]
    pub(crate) fn widths(&self, alloc: Global) -> Result<BlockWidths<'_>, FastLanesError>
        ensures widths { IfOk result (λ widths. AreBlockWidths self.now widths) }
        ensures memory { IfErr result (λ e. e ≡ OutOfMemory) }
        ensures blocked { IfErr result (λ e. is_global self.now.widths ≡ false) }
    {
        self.prove_well_formed();
        match self.bit_widths() {
            BitWidthsView::Global(width) => Ok(BlockWidths::Global(usize::from(width))),
            BitWidthsView::Blocked(boundaries) => match boundaries.as_constant() {
                Some(_) => Ok(BlockWidths::Global(0)),
                None => {
                    self.prove_boundaries_are_integers(boundaries);
                    let plain = boundaries.primitive_cow(alloc)?;
                    Ok(BlockWidths::Boundaries(plain))
                }
            },
        }
    }
}
