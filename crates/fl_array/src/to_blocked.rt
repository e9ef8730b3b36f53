//! Bit-packed arrays of one width made arrays of a width for each block, without packing again.

ghost use Rattle.std.specs.Prelude.{◌≡◌, Ok};
ghost use Rattle.fl_types.specs.Refusals.{Answers};
ghost use Rattle.fl_types.specs.Values.{scalar_parts};
ghost use Rattle.fl_array.specs.BitPackedArrays.{BlockBoundaries, GlobalWidth, tree_of_bitpacked};
ghost use Rattle.fl_array.specs.DeltaArrays.{tree_of_delta};
ghost use Rattle.fl_array.specs.FoRArrays.{ChunkReferences, GlobalReference, offset_of_references, tree_of_for};
ghost use Rattle.fl_array.specs.RLEArrays.{tree_of_rle};
ghost use Rattle.fl_array.specs.ToBlocked.{to_blocked_shallow, to_blocked_tree};
ghost use Rattle.fl_array.specs.Trees.{column};

use crate::array::{ArrayRef, IntoArray};
use crate::bitpacking::{BitPacked, BitPackedArray, BitWidths, BitWidthsView};
use crate::delta::{Delta, DeltaArray};
use crate::for_::FoRArray;
use crate::rle::{RLE, RLEArray};
use fl_column::{FastLanesError, Scalar};
use std::alloc::Global;

/// The same array with a width for each block.
fn blocked(alloc: Global, array: &BitPackedArray) -> Result<BitPackedArray, FastLanesError>
    ensures { Answers (λ a. a) result (Ok (to_blocked_shallow array.now)) }
{
    match array.bit_widths() {
        BitWidthsView::Global(width) => array.between_boundaries(alloc, width),
        BitWidthsView::Blocked(boundaries) => {
            let boundaries = boundaries.try_clone(alloc)?;
            array.clone_with(alloc, BitWidths::Blocked(boundaries))
        }
    }
}

impl BitPacked {
    /// The same array with a width for each block: its packed bytes, offset, length, type, patches and validity
    /// stay. An array that has such widths is copied.
    ///
    /// # Errors
    /// Only `OutOfMemory`.
    #[tactic(auto, using(crate::proofs::ToBlockedLaws::shallow_answers))]
    pub fn to_blocked(
        alloc: Global,
        array: &BitPackedArray,
    ) -> Result<BitPackedArray, FastLanesError>
        ensures parts { Answers (λ a. a) result (Ok (to_blocked_shallow array.now)) }
        ensures column { Answers (λ a. column (tree_of_bitpacked a)) result (Ok (column (tree_of_bitpacked array.now))) }
    {
        blocked(alloc, array)
    }
}

impl BitPackedArray {
    /// The same packed blocks between boundaries, where all blocks have this width.
    pub(crate) fn between_boundaries(
        &self,
        alloc: Global,
        width: u8,
    ) -> Result<BitPackedArray, FastLanesError>
        requires { GlobalWidth width ≡ self.now.widths }
        ensures shallow { Answers (λ a. a) result (Ok (to_blocked_shallow self.now)) }
        ensures tree { Answers tree_of_bitpacked result (Ok (to_blocked_tree (tree_of_bitpacked self.now))) }
    {
        self.prove_well_formed();
        let boundaries = self.packed_data().global_boundaries(alloc, width)?;
        self.with_widths(alloc, BitWidths::Blocked(boundaries.into_array()))
    }

    /// The same packed blocks over the boundaries, made arrays of a width for each block themselves.
    pub(crate) fn over_blocked(
        &self,
        alloc: Global,
        boundaries: &ArrayRef,
        blocked: ArrayRef,
    ) -> Result<BitPackedArray, FastLanesError>
        requires same { BlockBoundaries boundaries.now ≡ self.now.widths }
        requires blocked { blocked ≡ to_blocked_tree boundaries.now }
        ensures { Answers tree_of_bitpacked result (Ok (to_blocked_tree (tree_of_bitpacked self.now))) }
    {
        self.prove_well_formed();
        self.with_widths(alloc, BitWidths::Blocked(blocked))
    }
}

impl FoRArray {
    /// The same reference over the encoded array, made one of a width for each block.
    pub(crate) fn over_blocked(
        &self,
        alloc: Global,
        encoded: ArrayRef,
        reference: Scalar,
    ) -> Result<FoRArray, FastLanesError>
        requires same { GlobalReference (scalar_parts reference) ≡ self.now.references }
        requires encoded { encoded ≡ to_blocked_tree self.now.encoded }
        ensures { Answers tree_of_for result (Ok (to_blocked_tree (tree_of_for self.now))) }
    {
        self.with_encoded(alloc, encoded, reference)
    }

    /// The same over the encoded array and the references, made ones of a width for each block.
    pub(crate) fn over_blocked_chunked(
        &self,
        alloc: Global,
        references: &ArrayRef,
        encoded: ArrayRef,
        blocked: ArrayRef,
    ) -> Result<FoRArray, FastLanesError>
        requires same { ChunkReferences references.now (offset_of_references self.now.references) ≡ self.now.references }
        requires encoded { encoded ≡ to_blocked_tree self.now.encoded }
        requires blocked { blocked ≡ to_blocked_tree references.now }
        ensures { Answers tree_of_for result (Ok (to_blocked_tree (tree_of_for self.now))) }
    {
        self.prove_well_formed();
        self.prove_no_constant();
        FoRArray::from_chunked(alloc, encoded, blocked, self.offset())
    }
}

impl DeltaArray {
    /// The same over the bases and the deltas, made arrays of a width for each block.
    pub(crate) fn over_blocked(
        &self,
        alloc: Global,
        bases: ArrayRef,
        deltas: ArrayRef,
    ) -> Result<DeltaArray, FastLanesError>
        requires bases { bases ≡ to_blocked_tree self.now.bases }
        requires deltas { deltas ≡ to_blocked_tree self.now.deltas }
        ensures { Answers tree_of_delta result (Ok (to_blocked_tree (tree_of_delta self.now))) }
    {
        self.prove_well_formed();
        let validity = self.validity().try_clone(alloc)?;
        Delta::try_new(alloc, bases, deltas, validity, self.offset(), self.len())
    }
}

impl RLEArray {
    /// The same over the run values, run indices and run offsets, made arrays of a width for each block.
    pub(crate) fn over_blocked(
        &self,
        alloc: Global,
        values: ArrayRef,
        indices: ArrayRef,
        offsets: ArrayRef,
    ) -> Result<RLEArray, FastLanesError>
        requires values { values ≡ to_blocked_tree self.now.values }
        requires indices { indices ≡ to_blocked_tree self.now.indices }
        requires offsets { offsets ≡ to_blocked_tree self.now.offsets }
        ensures { Answers tree_of_rle result (Ok (to_blocked_tree (tree_of_rle self.now))) }
    {
        self.prove_well_formed();
        RLE::new_unchecked(alloc, values, indices, offsets, self.offset(), self.len())
    }
}
