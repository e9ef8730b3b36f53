//! Casts of bit-packed arrays in place: the packed bytes stay if the integer type does.

ghost use Rattle.std.specs.Prelude.{◌≡◌, ◌||◌, IfOk, IsTrue, Ok, is_none, not};
ghost use Rattle.std.specs.List.{list_any};
ghost use Rattle.fl_types.specs.declared.dtype.DType.TheVariants.{Primitive};
ghost use Rattle.fl_types.specs.Refusals.{Answers};
ghost use Rattle.fl_types.specs.Types.{can_be_null};
ghost use Rattle.fl_bitpacking.specs.Casts.{cast_packed};
ghost use Rattle.fl_array.specs.BitPackedArrays.{GlobalWidth, tree_of_bitpacked};
ghost use Rattle.fl_array.specs.Trees.{column};

use crate::bitpacking::{BitPackedArray, StoredWidths};
use fl_bitpacking::laws::parts_are_consistent;
use fl_column::{FastLanesError, Nullability};
use std::alloc::Global;

impl BitPackedArray {
    /// Whether an item is null.
    #[tactic(auto, using(crate::proofs::InPlace::bitpacked_null))]
    pub fn has_null(&self) -> bool
        ensures { result ≡ list_any is_none (column (tree_of_bitpacked self.now)).items }
    {
        let data = self.packed_data();
        parts_are_consistent(data);
        data.has_null()
    }

    /// The same integers over the same packed bytes, with another nullability. All blocks have one width.
    ///
    /// # Errors
    /// Only `OutOfMemory`.
    pub fn cast_in_place(
        &self,
        alloc: Global,
        width: u8,
        nullability: Nullability,
    ) -> Result<BitPackedArray, FastLanesError>
        requires same { GlobalWidth width ≡ self.now.widths }
        requires nulls { IsTrue (can_be_null nullability || not (list_any is_none (column (tree_of_bitpacked self.now)).items)) }
        ensures column { Answers (λ a. column (tree_of_bitpacked a)) result (Ok (record { dtype = Primitive self.now.parts.ptype nullability; items = (column (tree_of_bitpacked self.now)).items })) }
        ensures parts { IfOk result (λ a. a ≡ record { parts = cast_packed nullability self.now.parts; widths = GlobalWidth width }) }
    {
        self.prove_well_formed();
        let parts = self.packed_data().cast_in_place(alloc, nullability)?;
        Ok(BitPackedArray {
            parts,
            widths: StoredWidths::Global(width),
        })
    }
}
