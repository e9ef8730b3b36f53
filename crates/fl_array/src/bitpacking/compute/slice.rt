//! Slices of bit-packed arrays: the blocks that hold the range are kept packed.

ghost use Rattle.std.specs.Prelude.{◌≡◌, ◌+◌, ◌^◌, ◌<◌, ◌≤◌, Ok, length};
ghost use Rattle.fl_types.specs.Refusals.{Answers};
ghost use Rattle.fl_types.specs.Values.{scalar_parts};
ghost use Rattle.fl_column.specs.Operations.{slice_of};
ghost use Rattle.fl_column.specs.Queries.{scalar_in};
ghost use Rattle.fl_bitpacking.specs.SlicedParts.{end_block, first_block, sliced_boundaries};
ghost use Rattle.fl_array.specs.BitPackedArrays.{BlockBoundaries, GlobalWidth, tree_of_bitpacked};
ghost use Rattle.fl_array.specs.Slices.{slice_tree};
ghost use Rattle.fl_array.specs.Trees.{column};

use crate::array::ArrayRef;
use crate::bitpacking::{BitPackedArray, BitWidthsView, StoredWidths};
use crate::numbers::number_of_scalar;
use fl_column::{FastLanesError, Scalar};
use std::alloc::Global;

impl BitPackedArray {
    /// The items from `start` to below `end`, where all blocks have this width.
    pub(crate) fn slice_global(
        &self,
        alloc: Global,
        width: u8,
        start: usize,
        end: usize,
    ) -> Result<BitPackedArray, FastLanesError>
        requires same { GlobalWidth width ≡ self.now.widths }
        requires order { start ≤ end }
        requires range { end ≤ length (column (tree_of_bitpacked self.now)).items }
        ensures column { Answers (λ a. column (tree_of_bitpacked a)) result (Ok (slice_of start end (column (tree_of_bitpacked self.now)))) }
        ensures tree { Answers tree_of_bitpacked result (Ok (slice_tree start end (tree_of_bitpacked self.now))) }
    {
        self.prove_well_formed();
        let _len = self.len();
        let parts = self
            .packed_data()
            .slice_global(alloc, usize::from(width), start, end)?;
        Ok(BitPackedArray {
            parts,
            widths: StoredWidths::Global(width),
        })
    }

    /// The items of a range, in an array of the same kind.
    #[cycle(reading)]
    pub(crate) fn slice(
        &self,
        alloc: Global,
        start: usize,
        end: usize,
    ) -> Result<BitPackedArray, FastLanesError>
        requires order { start ≤ end }
        requires range { end ≤ length (column (tree_of_bitpacked self.now)).items }
        ensures column { Answers (λ a. column (tree_of_bitpacked a)) result (Ok (slice_of start end (column (tree_of_bitpacked self.now)))) }
        ensures tree { Answers tree_of_bitpacked result (Ok (slice_tree start end (tree_of_bitpacked self.now))) }
    {
        match self.bit_widths() {
            BitWidthsView::Global(width) => self.slice_global(alloc, width, start, end),
            BitWidthsView::Blocked(boundaries) => {
                let (kept, last) = self.block_range(boundaries, start, end);
                let first = boundaries.scalar_at(alloc, 0)?;
                let from = boundaries.scalar_at(alloc, kept)?;
                let to = boundaries.scalar_at(alloc, last)?;
                let part = boundaries.slice(alloc, kept..last + 1)?;
                self.slice_blocked(alloc, boundaries, part, first, from, to, start, end)
            }
        }
    }

    /// The blocks that a slice keeps, where the blocks lie between these boundaries.
    pub(crate) fn block_range(
        &self,
        boundaries: &ArrayRef,
        start: usize,
        end: usize,
    ) -> (usize, usize)
        requires same { BlockBoundaries boundaries.now ≡ self.now.widths }
        requires order { start ≤ end }
        requires range { end ≤ length (column (tree_of_bitpacked self.now)).items }
        ensures first { result.0 ≡ first_block self.now.parts.offset start }
        ensures last { result.1 ≡ end_block self.now.parts.offset end }
        ensures order { result.0 ≤ result.1 }
        ensures within { result.1 < length (column boundaries.now).items }
        ensures few { result.1 + 1 < 2 ^ 64 }
    {
        self.prove_well_formed();
        let _len = self.len();
        (
            self.packed_data().first_block(start),
            self.packed_data().end_block(end),
        )
    }

    /// The items from `start` to below `end`, over the boundaries that are kept.
    pub(crate) fn slice_blocked(
        &self,
        alloc: Global,
        boundaries: &ArrayRef,
        part: ArrayRef,
        first: Scalar,
        from: Scalar,
        to: Scalar,
        start: usize,
        end: usize,
    ) -> Result<BitPackedArray, FastLanesError>
        requires same { BlockBoundaries boundaries.now ≡ self.now.widths }
        requires part { column part ≡ sliced_boundaries self.now.parts.offset start end (column boundaries.now) }
        requires tree { part ≡ slice_tree (first_block self.now.parts.offset start) (end_block self.now.parts.offset end + 1) boundaries.now }
        requires first { scalar_parts first ≡ scalar_in (column boundaries.now) 0 }
        requires from { scalar_parts from ≡ scalar_in (column boundaries.now) (first_block self.now.parts.offset start) }
        requires to { scalar_parts to ≡ scalar_in (column boundaries.now) (end_block self.now.parts.offset end) }
        requires order { start ≤ end }
        requires range { end ≤ length (column (tree_of_bitpacked self.now)).items }
        ensures column { Answers (λ a. column (tree_of_bitpacked a)) result (Ok (slice_of start end (column (tree_of_bitpacked self.now)))) }
        ensures tree { Answers tree_of_bitpacked result (Ok (slice_tree start end (tree_of_bitpacked self.now))) }
    {
        self.prove_well_formed();
        let _len = self.len();
        let (first, from, to) = (
            number_of_scalar(first),
            number_of_scalar(from),
            number_of_scalar(to),
        );
        let parts = self
            .packed_data()
            .slice_blocked(alloc, first, from, to, start, end)?;
        let boundaries = Box::new(alloc, part)?;
        Ok(BitPackedArray {
            parts,
            widths: StoredWidths::Blocked(boundaries),
        })
    }
}
