//! Single items of FoR arrays in their type.

ghost use Rattle.std.specs.Prelude.{◌≡◌, ◌+◌, ◌/◌, ◌<◌, IfErr, IsTrue, None, Ok, Some, length, option_map, slice_index_or};
ghost use Rattle.fl_types.specs.Refusals.{Answers};
ghost use Rattle.fl_types.specs.Types.{has_ptype};
ghost use Rattle.fl_types.specs.Values.{scalar_parts};
ghost use Rattle.fl_codec.specs.FoRColumns.{plus_reference};
ghost use Rattle.fl_array.specs.FoRArrays.{ChunkReferences, GlobalReference, offset_of_references, tree_of_for};
ghost use Rattle.fl_array.specs.Kinds.{has_delta, kind};
ghost use Rattle.fl_array.specs.Trees.{column};

use crate::array::ArrayRef;
use crate::for_::{FoRArray, FoRReferences};
use fl_column::{FastLanesError, NativePType, PhysicalPType, Scalar};
use num_traits::WrappingAdd;
use std::alloc::Global;

/// An item plus a reference, modulo 2 to the type's bits. Nulls stay null.
fn plus_reference<T: NativePType + WrappingAdd>(item: Option<T>, reference: T) -> Option<T>
    ensures { option_map T.value result ≡ plus_reference T.PTYPE (T.value reference) (option_map T.value item) }
{
    match item {
        Some(item) => Some(item.wrapping_add(&reference)),
        None => None,
    }
}

impl FoRArray {
    /// The encoded items have the type of the column.
    #[tactic(auto, using(crate::proofs::FoRLaws::for_dtype))]
    fn prove_encoded_typed<T: NativePType>(&self)
        requires { IsTrue (has_ptype T.PTYPE (column (tree_of_for self.now)).dtype) }
        ensures { IsTrue (has_ptype T.PTYPE (column self.now.encoded).dtype) }
    {
        let _ = &self.references;
    }

    /// An item, from the encoded one, if there is one reference.
    fn get_global<T: NativePType + WrappingAdd>(
        &self,
        item: Option<T>,
        reference: &Scalar,
        i: usize,
    ) -> Option<T>
        requires same { GlobalReference (scalar_parts reference.now) ≡ self.now.references }
        requires typed { IsTrue (has_ptype T.PTYPE (column self.now.encoded).dtype) }
        requires range { i < length (column self.now.encoded).items }
        requires item { option_map T.value item ≡ slice_index_or (column self.now.encoded).items i None }
        ensures { option_map T.value result ≡ slice_index_or (column (tree_of_for self.now)).items i None }
    {
        self.prove_well_formed();
        match reference.as_pvalue() {
            Some(reference) => plus_reference(item, T::from_pvalue(reference).unwrap()),
            None => unreachable!(),
        }
    }

    /// An item, from the encoded one and the reference of its chunk, which is not null.
    fn get_chunked<T: NativePType + WrappingAdd>(
        &self,
        references: &ArrayRef,
        item: Option<T>,
        reference: Option<T>,
        i: usize,
    ) -> Option<T>
        requires same { ChunkReferences references.now (offset_of_references self.now.references) ≡ self.now.references }
        requires typed { IsTrue (has_ptype T.PTYPE (column self.now.encoded).dtype) }
        requires range { i < length (column self.now.encoded).items }
        requires item { option_map T.value item ≡ slice_index_or (column self.now.encoded).items i None }
        requires reference { option_map T.value reference ≡ slice_index_or (column references.now).items ((offset_of_references self.now.references + i) / 1024) None }
        ensures { option_map T.value result ≡ slice_index_or (column (tree_of_for self.now)).items i None }
    {
        self.prove_well_formed();
        plus_reference(item, reference.unwrap_or(T::zero()))
    }

    /// The references of the chunks have the type of the column.
    fn prove_references_typed<T: NativePType>(&self, references: &ArrayRef)
        requires same { ChunkReferences references.now (offset_of_references self.now.references) ≡ self.now.references }
        requires typed { IsTrue (has_ptype T.PTYPE (column self.now.encoded).dtype) }
        ensures { IsTrue (has_ptype T.PTYPE (column references.now).dtype) }
    {
        self.prove_well_formed();
    }

    /// The item at an index, or `None` of a null.
    #[cycle(getting)]
    #[inline(never)]
    pub(crate) fn get<T: PhysicalPType + WrappingAdd>(
        &self,
        alloc: Global,
        i: usize,
    ) -> Result<Option<T>, FastLanesError>
        requires typed { IsTrue (has_ptype T.PTYPE (column (tree_of_for self.now)).dtype) }
        requires range { i < length (column (tree_of_for self.now)).items }
        ensures item { Answers (option_map T.value) result (Ok (slice_index_or (column (tree_of_for self.now)).items i None)) }
        ensures memory { IfErr result (λ e. IsTrue (has_delta (kind (tree_of_for self.now)))) }
    {
        self.prove_encoded_typed::<T>();
        let i = self.index_in_encoded(i);
        let item = self.encoded().get::<T>(alloc, i)?;
        match self.references() {
            FoRReferences::Global(reference) => Ok(self.get_global(item, reference, i)),
            FoRReferences::Blocked(references) => {
                self.prove_references_typed::<T>(references);
                let reference = references.get::<T>(alloc, self.chunk_of(references, i))?;
                Ok(self.get_chunked(references, item, reference, i))
            }
        }
    }
}
