//! Casts of delta arrays in place: the bases and the deltas stay if the integer type does.

ghost use Rattle.std.specs.Prelude.{◌≡◌, ◌||◌, IfOk, IsTrue, Ok, not};
ghost use Rattle.fl_types.specs.declared.dtype.DType.TheVariants.{Primitive};
ghost use Rattle.fl_types.specs.Refusals.{Answers};
ghost use Rattle.fl_types.specs.Types.{can_be_null};
ghost use Rattle.fl_types.specs.Validities.{nullability_of};
ghost use Rattle.fl_column.specs.Columns.{ptype_of_column};
ghost use Rattle.fl_array.specs.DeltaArrays.{tree_of_delta};
ghost use Rattle.fl_array.specs.DeltaCasts.{cast_delta};
ghost use Rattle.fl_array.specs.Trees.{column};

use crate::array::ArrayRef;
use crate::delta::DeltaArray;
use fl_bitpacking::compute::cast::cast_validity;
use fl_column::{FastLanesError, Nullability};
use std::alloc::Global;

impl DeltaArray {
    /// The same integers over copies of the bases and the deltas, in a nullable column, or in a
    /// non-nullable one if this one is non-nullable.
    ///
    /// # Errors
    /// Only `OutOfMemory`.
    pub fn cast_in_place(
        &self,
        alloc: Global,
        nullability: Nullability,
    ) -> Result<DeltaArray, FastLanesError>
        requires { IsTrue (can_be_null nullability || not (can_be_null (nullability_of self.now.parts.validity))) }
        ensures column { Answers (λ a. column (tree_of_delta a)) result (Ok (record { dtype = Primitive (ptype_of_column (column self.now.bases)) nullability; items = (column (tree_of_delta self.now)).items })) }
        ensures parts { IfOk result (λ a. a ≡ record { bases = self.now.bases; deltas = self.now.deltas; parts = cast_delta nullability self.now.parts }) }
    {
        let bases = self.bases().try_clone(alloc)?;
        let deltas = self.deltas().try_clone(alloc)?;
        self.cast_with(alloc, bases, deltas, nullability)
    }

    /// The same integers over these copies of the bases and the deltas, where nulls may stand or not.
    fn cast_with(
        &self,
        alloc: Global,
        bases: ArrayRef,
        deltas: ArrayRef,
        nullability: Nullability,
    ) -> Result<DeltaArray, FastLanesError>
        requires bases { bases ≡ self.now.bases }
        requires deltas { deltas ≡ self.now.deltas }
        ensures { Answers (λ a. a) result (Ok (record { bases = self.now.bases; deltas = self.now.deltas; parts = cast_delta nullability self.now.parts })) }
    {
        self.prove_well_formed();
        let validity = cast_validity(self.validity(), alloc, nullability)?;
        let (offset, len) = (self.offset(), self.len());
        let bases = Box::new(alloc, bases)?;
        let deltas = Box::new(alloc, deltas)?;
        Ok(DeltaArray {
            bases,
            deltas,
            validity,
            offset,
            len,
        })
    }
}
