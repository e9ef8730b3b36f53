//! The references of FoR arrays over other encoded items.

ghost use Rattle.std.specs.Prelude.{◌≡◌, Ok, length};
ghost use Rattle.fl_types.specs.Refusals.{Answers};
ghost use Rattle.fl_types.specs.Types.{integer_type};
ghost use Rattle.fl_types.specs.Values.{scalar_parts};
ghost use Rattle.fl_array.specs.Trees.{column};
ghost use Rattle.fl_array.specs.FoRArrays.{ChunkReferences, GlobalReference, offset_of_references};

use crate::array::ArrayRef;
use crate::for_::{FoRArray, StoredReferences};
use fl_column::{FastLanesError, Scalar};
use std::alloc::Global;

impl FoRArray {
    /// The same reference over other encoded items of the same integer type.
    ///
    /// # Errors
    /// Only `OutOfMemory`.
    pub fn over(
        &self,
        alloc: Global,
        encoded: ArrayRef,
        reference: Scalar,
    ) -> Result<FoRArray, FastLanesError>
        requires same { GlobalReference (scalar_parts reference) ≡ self.now.references }
        requires typed { integer_type (column encoded).dtype ≡ integer_type (column self.now.encoded).dtype }
        ensures { Answers (λ a. a) result (Ok (record { encoded = encoded; references = GlobalReference (scalar_parts reference) })) }
    {
        self.prove_well_formed();
        let encoded = Box::new(alloc, encoded)?;
        Ok(FoRArray {
            encoded,
            references: StoredReferences::Global(reference),
        })
    }

    /// Copies of the chunks' references over as many other encoded items of the same integer type.
    ///
    /// # Errors
    /// Only `OutOfMemory`.
    pub fn over_chunked(
        &self,
        alloc: Global,
        encoded: ArrayRef,
        references: &ArrayRef,
    ) -> Result<FoRArray, FastLanesError>
        requires same { ChunkReferences references.now (offset_of_references self.now.references) ≡ self.now.references }
        requires typed { integer_type (column encoded).dtype ≡ integer_type (column self.now.encoded).dtype }
        requires long { length (column encoded).items ≡ length (column self.now.encoded).items }
        ensures { Answers (λ a. a) result (Ok (record { encoded = encoded; references = self.now.references })) }
    {
        self.prove_well_formed();
        self.prove_no_constant();
        let references = references.try_clone(alloc)?;
        FoRArray::from_chunked(alloc, encoded, references, self.offset())
    }
}
