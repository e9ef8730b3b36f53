//! FoR arrays (frame of reference): an encoded array, and a reference that is added to its items, one for all
//! of them or one for each chunk of 1024.

mod compute;
mod for_array_ext;
mod for_compare;
mod for_compress;
mod for_data;
mod for_decompress;
mod typed_items;

ghost use Rattle.std.specs.Prelude.{◌≡◌, ◌+◌, ◌*◌, ◌%◌, ◌/◌, ◌<◌, ◌≤◌, IfErr, IfOk, IsTrue, None, Ok, Some, length, option_map};
ghost use Rattle.fl_types.specs.Refusals.{Answers};
ghost use Rattle.fl_types.specs.Values.{scalar_parts};
ghost use Rattle.fl_column.specs.Columns.{column_of_primitive};
ghost use Rattle.fl_column.specs.Operations.{slice_of};
ghost use Rattle.fl_column.specs.Queries.{scalar_in};
ghost use Rattle.fl_codec.specs.ChunkSlices.{end_chunk, first_chunk};
ghost use Rattle.fl_array.specs.Trees.{column, height};
ghost use Rattle.fl_array.specs.FoRArrays.{ChunkReferences, FoRArrayParts, GlobalReference, for_chunked_refusal, new_for, new_for_chunked, offset_of_references, reference_count_refusal, reference_refusal, reference_type_refusal, references_of, refusal_of_for, size_of_references, tree_of_for, for_refusal, has_no_constant};
ghost use Rattle.fl_array.specs.EncodedFoR.{encoded_for, encoded_for_chunked, encoded_for_chunked_wrapped, encoded_for_wrapped};
ghost use Rattle.fl_array.specs.Kinds.{has_delta, kind};
ghost use Rattle.fl_array.specs.Reads.{IsValidityOf, constant_in, integer_column};
ghost use Rattle.fl_array.specs.StoredParts.{stored_references};
ghost use Rattle.fl_array.specs.Slices.{slice_tree};
ghost use Rattle.fl_array.specs.Views.{HasLowerReferences, HasSmallerReferences, references_of_view, is_global};

use crate::array::ArrayRef;
pub use crate::for_::for_array_ext::{FoRArrayExt, FoRSlots};
use crate::for_::for_compress::{for_encode, for_encode_chunked};
pub use crate::for_::for_data::FoRData;
pub use crate::for_::for_decompress::decompress;
use fastlanes::FL_CHUNK_SIZE;
use fl_bitpacking::refusals::positions_refusal;
use fl_codec::for_::ItemOrder;
use fl_codec::for_::single_items::plus_reference;
use fl_column::{
    DType, FastLanesError, Nullability, PrimitiveArray, Scalar, Validity, chunk_count,
};
use std::alloc::Global;
use std::marker::Model;

/// A FoR array: item `i` is the encoded item plus its reference, modulo 2 to the type's bits, and null where
/// the encoded item is.
#[cycle(array)]
#[derive(Drop)]
pub struct FoRArray {
    encoded: Box<ArrayRef>,
    references: StoredReferences,
}

#[cycle(array)]
#[derive(Drop)]
enum StoredReferences {
    Global(Scalar),
    Blocked(Box<ArrayRef>, usize),
}

/// The references of a FoR array.
#[derive(Clone, Copy)]
pub enum FoRReferences<'a> {
    /// All items have this reference.
    Global(&'a Scalar),
    /// Each chunk of 1024 has one of these references.
    Blocked(&'a ArrayRef),
}

impl FoRReferences<'_> {
    /// Whether all items have one reference.
    pub fn is_global(&self) -> bool
        ensures { result ≡ is_global self.now }
    {
        matches!(self, FoRReferences::Global(_))
    }
}

impl Model for FoRArray {
    ghost use Rattle.std.specs.Prelude.{◌≡◌, IsTrue, None};
    ghost use Rattle.std.proofs.Common.{arith};
    ghost use Rattle.fl_array.specs.Trees.{column, height};
    ghost use Rattle.fl_array.specs.FoRArrays.{FoRArrayParts, for_refusal, has_no_constant, size_of_references};
    ghost use Rattle.fl_array.specs.ArrayCodes.{coded_for};

    ghost Value = { FoRArrayParts };

    ghost coded = { coded_for };

    ghost use Rattle.fl_array.specs.StoredParts.{stored_references};

    ghost view = { λ a. record { encoded = a.encoded.value; references = stored_references a.references } };

    ghost invariant = { λ a. (for_refusal (column a.encoded.value) (stored_references a.references) ≡ None) × IsTrue (has_no_constant (stored_references a.references)) };

    ghost size = { λ a. size_of_references (height a.encoded) a.references };

    ghost size_decreases = { λ a h. Prim.grind arith };
}

/// Why a scalar cannot be the reference of items of a type, if it cannot.
fn reference_refusal(dtype: DType, reference: Scalar) -> Option<FastLanesError>
    ensures { result ≡ reference_refusal dtype (scalar_parts reference) }
{
    let Some(ptype) = dtype.ptype() else {
        return Some(FastLanesError::NotInteger);
    };
    if reference.is_null() {
        return Some(FastLanesError::NullReference);
    }
    if reference.dtype().ptype() != Some(ptype) {
        return Some(FastLanesError::TypeMismatch);
    }
    None
}

/// Why this many references are not one for each chunk of `len` items from `offset` on, if they are not.
fn reference_count_refusal(
    offset: usize,
    len: usize,
    dtype: DType,
    count: usize,
) -> Option<FastLanesError>
    ensures { result ≡ reference_count_refusal offset len dtype count }
{
    if let Some(refusal) = positions_refusal(offset, len) {
        return Some(refusal);
    }
    if dtype.ptype().is_none() {
        return Some(FastLanesError::NotInteger);
    }
    if count != chunk_count(offset + len) {
        return Some(FastLanesError::ReferenceCount);
    }
    None
}

/// Why references of a type are not those of items of a type, if they are not.
fn reference_type_refusal(dtype: DType, references: DType) -> Option<FastLanesError>
    ensures { result ≡ reference_type_refusal dtype references }
{
    match (dtype, references) {
        (DType::Primitive(ptype, _), DType::Primitive(other, Nullability::NonNullable)) => {
            if ptype == other {
                None
            } else {
                Some(FastLanesError::TypeMismatch)
            }
        }
        (DType::Bool(_), DType::Bool(Nullability::NonNullable)) => None,
        _ => Some(FastLanesError::TypeMismatch),
    }
}

/// The one reference that a constant array has.
fn one_reference(references: &ArrayRef) -> Option<Scalar>
    ensures { option_map scalar_parts result ≡ option_map (λ constant. constant.scalar) (constant_in references.now) }
{
    match references.as_constant() {
        Some(constant) => Some(constant.scalar()),
        None => None,
    }
}

/// Why items and the references of their chunks do not make an array, if they do not.
#[tactic(auto, using(crate::proofs::FoRSound::references_by_constant))]
fn for_chunked_refusal(
    encoded: &ArrayRef,
    references: &ArrayRef,
    offset: usize,
) -> Option<FastLanesError>
    ensures { result ≡ for_chunked_refusal (column encoded.now) references.now offset }
{
    let (len, count) = (encoded.len(), references.len());
    if let Some(refusal) = reference_count_refusal(offset, len, encoded.dtype(), count) {
        return Some(refusal);
    }
    match one_reference(references) {
        Some(reference) => reference_refusal(encoded.dtype(), reference),
        None => reference_type_refusal(encoded.dtype(), references.dtype()),
    }
}

/// The references as an array stores them: those of a constant array are stored as one.
#[tactic(auto, using(crate::proofs::FoRSound::references_by_constant))]
fn store_references(
    alloc: Global,
    references: ArrayRef,
    offset: usize,
) -> Result<StoredReferences, FastLanesError>
    ensures { Answers stored_references result (Ok (references_of references offset)) }
{
    match one_reference(&references) {
        Some(reference) => Ok(StoredReferences::Global(reference)),
        None => {
            let references = Box::new(alloc, references)?;
            Ok(StoredReferences::Blocked(references, offset))
        }
    }
}

/// The FoR encoding (frame of reference): its constructors.
#[derive(Clone, Copy, Debug)]
pub struct FoR;

impl FoR {
    /// The array with one reference.
    ///
    /// # Errors
    /// The first of `NotInteger`, `NullReference` and `TypeMismatch` that applies.
    pub fn try_new(
        alloc: Global,
        encoded: ArrayRef,
        reference: Scalar,
    ) -> Result<FoRArray, FastLanesError>
        ensures { Answers (λ a. a) result (new_for encoded (scalar_parts reference)) }
    {
        match reference_refusal(encoded.dtype(), reference) {
            Some(refusal) => Err(refusal),
            None => {
                let encoded = Box::new(alloc, encoded)?;
                Ok(FoRArray {
                    encoded,
                    references: StoredReferences::Global(reference),
                })
            }
        }
    }

    /// The array with a reference for each chunk of 1024, where item 0 is at position `offset` of its chunk. Constant
    /// references are one reference for all items.
    ///
    /// # Errors
    /// The first of `OffsetTooLarge`, `LengthOverflow`, `NotInteger` and `ReferenceCount` that applies; then for
    /// constant references `NullReference` or `TypeMismatch`, for any others `TypeMismatch`.
    #[tactic(auto, using(crate::proofs::FoRSound::no_constant_kept))]
    pub fn try_new_chunked(
        alloc: Global,
        encoded: ArrayRef,
        references: ArrayRef,
        offset: u16,
    ) -> Result<FoRArray, FastLanesError>
        ensures { Answers (λ a. a) result (new_for_chunked encoded references offset) }
    {
        let offset = usize::from(offset);
        match for_chunked_refusal(&encoded, &references, offset) {
            Some(refusal) => Err(refusal),
            None => {
                let references = store_references(alloc, references, offset)?;
                let encoded = Box::new(alloc, encoded)?;
                Ok(FoRArray {
                    encoded,
                    references,
                })
            }
        }
    }

    /// The FoR array of a primitive one, with the minimum of its valid items as the one reference: the differences, modulo
    /// 2 to the type's bits and 0 under a null, are a primitive array of the same validity.
    ///
    /// # Errors
    /// `NoMinimum` if no item is valid.
    pub fn encode(alloc: Global, array: &PrimitiveArray) -> Result<FoRArray, FastLanesError>
        ensures parts { Answers (λ a. a) result (encoded_for array.now) }
        ensures column { IfOk result (λ a. column (tree_of_for a) ≡ column_of_primitive array.now) }
    {
        for_encode(alloc, array, ItemOrder::Natural)
    }

    /// As `encode`, but the reference is the minimum of the valid items *read as signed*, so that differences stay small if
    /// the items of an unsigned type are close to 0 from both sides, as 255, 0 and 2 of `u8`: minus 255 they are 0, 1
    /// and 3. For a signed type the result is that of `encode`.
    ///
    /// # Errors
    /// `NoMinimum` if no item is valid.
    pub fn encode_wrapped(alloc: Global, array: &PrimitiveArray) -> Result<FoRArray, FastLanesError>
        ensures parts { Answers (λ a. a) result (encoded_for_wrapped array.now) }
        ensures column { IfOk result (λ a. column (tree_of_for a) ≡ column_of_primitive array.now) }
    {
        for_encode(alloc, array, ItemOrder::Signed)
    }

    /// The FoR array of a primitive one, with the minimum of the valid items of each chunk of 1024 as its
    /// reference. A chunk of nulls repeats the reference before it, and the leading ones take that of the first chunk
    /// that has a valid item.
    ///
    /// If all chunks have the same reference, as in a column of one chunk, it is stored as the one reference, which is 0 in
    /// an empty column. A column that has items, all of them null, becomes a constant array of a null with the
    /// reference 0.
    pub fn encode_chunked(alloc: Global, array: &PrimitiveArray) -> Result<FoRArray, FastLanesError>
        ensures parts { Answers (λ a. a) result (Ok (encoded_for_chunked array.now)) }
        ensures column { IfOk result (λ a. column (tree_of_for a) ≡ column_of_primitive array.now) }
    {
        for_encode_chunked(alloc, array, ItemOrder::Natural)
    }

    /// As `encode_chunked`, but the reference of each chunk is the minimum of its valid items *read as signed*.
    pub fn encode_chunked_wrapped(
        alloc: Global,
        array: &PrimitiveArray,
    ) -> Result<FoRArray, FastLanesError>
        ensures parts { Answers (λ a. a) result (Ok (encoded_for_chunked_wrapped array.now)) }
        ensures column { IfOk result (λ a. column (tree_of_for a) ≡ column_of_primitive array.now) }
    {
        for_encode_chunked(alloc, array, ItemOrder::Signed)
    }
}

impl FoRArray {
    /// The array of these encoded items and their one reference.
    pub(crate) fn from_global(
        alloc: Global,
        encoded: ArrayRef,
        reference: Scalar,
    ) -> Result<FoRArray, FastLanesError>
        requires { for_refusal (column encoded) (GlobalReference (scalar_parts reference)) ≡ None }
        ensures { Answers (λ a. a) result (Ok (record { encoded = encoded; references = GlobalReference (scalar_parts reference) })) }
    {
        let encoded = Box::new(alloc, encoded)?;
        Ok(FoRArray {
            encoded,
            references: StoredReferences::Global(reference),
        })
    }

    /// The array of these encoded items and the references of their chunks.
    pub(crate) fn from_chunked(
        alloc: Global,
        encoded: ArrayRef,
        references: ArrayRef,
        offset: usize,
    ) -> Result<FoRArray, FastLanesError>
        requires sound { for_refusal (column encoded) (ChunkReferences references offset) ≡ None }
        requires chunked { IsTrue (has_no_constant (ChunkReferences references offset)) }
        ensures { Answers (λ a. a) result (Ok (record { encoded = encoded; references = ChunkReferences references offset })) }
    {
        let encoded = Box::new(alloc, encoded)?;
        let references = Box::new(alloc, references)?;
        Ok(FoRArray {
            encoded,
            references: StoredReferences::Blocked(references, offset),
        })
    }

    /// The constructors accept these parts.
    pub(crate) fn prove_well_formed(&self)
        ensures { refusal_of_for self.now ≡ None }
    {
        let _ = &self.references;
    }

    /// References of chunks are not a constant array: the constructors make one reference of it.
    pub(crate) fn prove_no_constant(&self)
        ensures { IsTrue (has_no_constant self.now.references) }
    {
        let _ = &self.references;
    }

    /// The array is smaller than one that holds it.
    #[tactic(auto, using(crate::proofs::Sizes::for_size))]
    pub(crate) fn prove_smaller(&self)
        ensures { size_of_references (height self.now.encoded) self.now.references < 2 * height (tree_of_for self.now) }
    {
        let _ = &self.encoded;
    }

    /// The encoded items, to which the references are added.
    pub fn encoded(&self) -> &ArrayRef
        ensures array { result.now ≡ self.now.encoded }
        ensures depth { height result.now < height (tree_of_for self.now) }
        ensures size { 2 * height result.now < size_of_references (height self.now.encoded) self.now.references }
    {
        &self.encoded
    }

    /// The references.
    pub fn references(&self) -> FoRReferences<'_>
        ensures references { references_of_view result (offset_of_references self.now.references) ≡ self.now.references }
        ensures depth { HasLowerReferences result (height (tree_of_for self.now)) }
        ensures size { HasSmallerReferences result (size_of_references (height self.now.encoded) self.now.references) }
    {
        match &self.references {
            StoredReferences::Global(reference) => FoRReferences::Global(reference),
            StoredReferences::Blocked(references, _) => FoRReferences::Blocked(references),
        }
    }

    /// The position of the first item in its chunk, 0 if there is one reference.
    pub fn offset(&self) -> usize
        ensures { result ≡ offset_of_references self.now.references }
    {
        match &self.references {
            StoredReferences::Global(_) => 0,
            StoredReferences::Blocked(_, offset) => *offset,
        }
    }

    /// The item at an index, with the column's type.
    #[cycle(reading)]
    pub(crate) fn scalar_at(&self, alloc: Global, i: usize) -> Result<Scalar, FastLanesError>
        requires { i < length (column (tree_of_for self.now)).items }
        ensures item { Answers scalar_parts result (Ok (scalar_in (column (tree_of_for self.now)) i)) }
        ensures memory { IfErr result (λ e. IsTrue (has_delta (kind (tree_of_for self.now)))) }
    {
        let i = self.index_in_encoded(i);
        let item = self.encoded().scalar_at(alloc, i)?;
        match self.references() {
            FoRReferences::Global(reference) => Ok(self.item_global(item, reference, i)),
            FoRReferences::Blocked(references) => {
                let reference = references.scalar_at(alloc, self.chunk_of(references, i))?;
                Ok(self.item_chunked(references, item, reference, i))
            }
        }
    }

    /// The items of a range, in an array of the same kind.
    #[cycle(reading)]
    pub(crate) fn slice(
        &self,
        alloc: Global,
        start: usize,
        end: usize,
    ) -> Result<FoRArray, FastLanesError>
        requires order { start ≤ end }
        requires range { end ≤ length (column (tree_of_for self.now)).items }
        ensures column { Answers (λ a. column (tree_of_for a)) result (Ok (slice_of start end (column (tree_of_for self.now)))) }
        ensures tree { Answers tree_of_for result (Ok (slice_tree start end (tree_of_for self.now))) }
    {
        let (start, end) = self.range_in_encoded(start, end);
        let part = self.encoded().slice(alloc, start..end)?;
        match self.references() {
            FoRReferences::Global(reference) => self.slice_global(
                alloc, part, *reference, start, end,
            ),
            FoRReferences::Blocked(references) => {
                let (first, last) = self.chunk_range(references, start, end);
                let kept = references.slice(alloc, first..last)?;
                self.slice_chunked(alloc, references, part, kept, start, end)
            }
        }
    }

    /// The number of items, which is that of the encoded ones.
    #[tactic(auto, using(crate::proofs::FoRLaws::for_len))]
    pub(crate) fn len_from(&self, len: usize) -> usize
        requires { len ≡ length (column self.now.encoded).items }
        ensures { result ≡ length (column (tree_of_for self.now)).items }
    {
        len
    }

    /// The type of the column: that of the encoded items.
    #[tactic(auto, using(crate::proofs::FoRLaws::for_dtype))]
    pub(crate) fn dtype_from(&self, dtype: DType) -> DType
        requires { dtype ≡ (column self.now.encoded).dtype }
        ensures { result ≡ (column (tree_of_for self.now)).dtype }
    {
        dtype
    }

    /// The validity of the column: that of the encoded items.
    #[tactic(auto, using(crate::proofs::FoRLaws::for_validity))]
    pub(crate) fn column_validity(&self, validity: Validity) -> Validity
        requires { IsValidityOf validity (column self.now.encoded) }
        ensures { IsValidityOf result (column (tree_of_for self.now)) }
    {
        validity
    }

    /// The column is of integers.
    #[tactic(auto, using(crate::proofs::FoRSound::for_integers))]
    pub(crate) fn prove_integers(&self)
        ensures { integer_column (column (tree_of_for self.now)) ≡ Ok (column (tree_of_for self.now)) }
    {
        self.prove_well_formed();
    }

    /// The references of the chunks are integers.
    pub(crate) fn prove_references_are_integers(&self, references: &ArrayRef)
        requires { ChunkReferences references.now (offset_of_references self.now.references) ≡ self.now.references }
        ensures { integer_column (column references.now) ≡ Ok (column references.now) }
    {
        self.prove_well_formed();
    }

    /// An index, which is in the range of the encoded array too.
    #[tactic(auto, using(crate::proofs::FoRLaws::for_len))]
    pub(crate) fn index_in_encoded(&self, i: usize) -> usize
        requires { i < length (column (tree_of_for self.now)).items }
        ensures same { result ≡ i }
        ensures range { result < length (column self.now.encoded).items }
    {
        i
    }

    /// A range, which is within the encoded array too.
    #[tactic(auto, using(crate::proofs::FoRLaws::for_len))]
    pub(crate) fn range_in_encoded(&self, start: usize, end: usize) -> (usize, usize)
        requires order { start ≤ end }
        requires range { end ≤ length (column (tree_of_for self.now)).items }
        ensures start { result.0 ≡ start }
        ensures end { result.1 ≡ end }
        ensures order { result.0 ≤ result.1 }
        ensures range { result.1 ≤ length (column self.now.encoded).items }
    {
        (start, end)
    }

    /// An item, from the encoded one, if there is one reference.
    pub(crate) fn item_global(&self, item: Scalar, reference: &Scalar, i: usize) -> Scalar
        requires same { GlobalReference (scalar_parts reference.now) ≡ self.now.references }
        requires range { i < length (column self.now.encoded).items }
        requires item { scalar_parts item ≡ scalar_in (column self.now.encoded) i }
        ensures { scalar_parts result ≡ scalar_in (column (tree_of_for self.now)) i }
    {
        self.prove_well_formed();
        match reference.as_pvalue() {
            Some(reference) => plus_reference(item, reference),
            None => unreachable!(),
        }
    }

    /// The chunk of an item.
    pub(crate) fn chunk_of(&self, references: &ArrayRef, i: usize) -> usize
        requires same { ChunkReferences references.now (offset_of_references self.now.references) ≡ self.now.references }
        requires range { i < length (column self.now.encoded).items }
        ensures chunk { result ≡ (offset_of_references self.now.references + i) / 1024 }
        ensures range { result < length (column references.now).items }
    {
        self.prove_well_formed();
        (self.offset() + i) / FL_CHUNK_SIZE
    }

    /// An item, from the encoded one and the reference of its chunk.
    pub(crate) fn item_chunked(
        &self,
        references: &ArrayRef,
        item: Scalar,
        reference: Scalar,
        i: usize,
    ) -> Scalar
        requires same { ChunkReferences references.now (offset_of_references self.now.references) ≡ self.now.references }
        requires range { i < length (column self.now.encoded).items }
        requires item { scalar_parts item ≡ scalar_in (column self.now.encoded) i }
        requires reference { scalar_parts reference ≡ scalar_in (column references.now) ((offset_of_references self.now.references + i) / 1024) }
        ensures { scalar_parts result ≡ scalar_in (column (tree_of_for self.now)) i }
    {
        self.prove_well_formed();
        match reference.as_pvalue() {
            Some(reference) => plus_reference(item, reference),
            None => unreachable!(),
        }
    }

    /// The same reference over other encoded items of the same type.
    pub(crate) fn with_encoded(
        &self,
        alloc: Global,
        encoded: ArrayRef,
        reference: Scalar,
    ) -> Result<FoRArray, FastLanesError>
        requires same { GlobalReference (scalar_parts reference) ≡ self.now.references }
        requires typed { (column encoded).dtype ≡ (column self.now.encoded).dtype }
        ensures { Answers (λ a. a) result (Ok (record { encoded = encoded; references = self.now.references })) }
    {
        self.prove_well_formed();
        let encoded = Box::new(alloc, encoded)?;
        Ok(FoRArray {
            encoded,
            references: StoredReferences::Global(reference),
        })
    }

    /// A copy over copies of the encoded array and the references.
    pub(crate) fn clone_chunked(
        &self,
        alloc: Global,
        encoded: ArrayRef,
        references: ArrayRef,
    ) -> Result<FoRArray, FastLanesError>
        requires encoded { encoded ≡ self.now.encoded }
        requires references { ChunkReferences references (offset_of_references self.now.references) ≡ self.now.references }
        ensures { Answers (λ a. a) result (Ok self.now) }
    {
        self.prove_well_formed();
        self.prove_no_constant();
        let offset = self.offset();
        let encoded = Box::new(alloc, encoded)?;
        let references = Box::new(alloc, references)?;
        Ok(FoRArray {
            encoded,
            references: StoredReferences::Blocked(references, offset),
        })
    }

    /// The items of `start..end`, over the encoded ones.
    pub(crate) fn slice_global(
        &self,
        alloc: Global,
        part: ArrayRef,
        reference: Scalar,
        start: usize,
        end: usize,
    ) -> Result<FoRArray, FastLanesError>
        requires same { GlobalReference (scalar_parts reference) ≡ self.now.references }
        requires part { column part ≡ slice_of start end (column self.now.encoded) }
        requires tree { part ≡ slice_tree start end self.now.encoded }
        ensures column { Answers (λ a. column (tree_of_for a)) result (Ok (slice_of start end (column (tree_of_for self.now)))) }
        ensures tree { Answers tree_of_for result (Ok (slice_tree start end (tree_of_for self.now))) }
    {
        self.with_encoded(alloc, part, reference)
    }

    /// The first chunk that a slice keeps, and the one after the last.
    pub(crate) fn chunk_range(
        &self,
        references: &ArrayRef,
        start: usize,
        end: usize,
    ) -> (usize, usize)
        requires same { ChunkReferences references.now (offset_of_references self.now.references) ≡ self.now.references }
        requires order { start ≤ end }
        requires range { end ≤ length (column self.now.encoded).items }
        ensures first { result.0 ≡ first_chunk (offset_of_references self.now.references) start }
        ensures last { result.1 ≡ end_chunk (offset_of_references self.now.references) end }
        ensures order { result.0 ≤ result.1 }
        ensures within { result.1 ≤ length (column references.now).items }
    {
        self.prove_well_formed();
        let offset = self.offset();
        ((offset + start) / FL_CHUNK_SIZE, chunk_count(offset + end))
    }

    /// The items of `start..end`, over the encoded ones and the references of their chunks.
    #[tactic(auto, using(crate::proofs::SliceLaws::no_constant_sliced))]
    pub(crate) fn slice_chunked(
        &self,
        alloc: Global,
        references: &ArrayRef,
        part: ArrayRef,
        kept: ArrayRef,
        start: usize,
        end: usize,
    ) -> Result<FoRArray, FastLanesError>
        requires same { ChunkReferences references.now (offset_of_references self.now.references) ≡ self.now.references }
        requires order { start ≤ end }
        requires range { end ≤ length (column self.now.encoded).items }
        requires part { column part ≡ slice_of start end (column self.now.encoded) }
        requires kept { column kept ≡ slice_of (first_chunk (offset_of_references self.now.references) start) (end_chunk (offset_of_references self.now.references) end) (column references.now) }
        requires part_tree { part ≡ slice_tree start end self.now.encoded }
        requires kept_tree { kept ≡ slice_tree (first_chunk (offset_of_references self.now.references) start) (end_chunk (offset_of_references self.now.references) end) references.now }
        ensures column { Answers (λ a. column (tree_of_for a)) result (Ok (slice_of start end (column (tree_of_for self.now)))) }
        ensures tree { Answers tree_of_for result (Ok (slice_tree start end (tree_of_for self.now))) }
    {
        self.prove_well_formed();
        self.prove_no_constant();
        let offset = (self.offset() + start) % FL_CHUNK_SIZE;
        let encoded = Box::new(alloc, part)?;
        let references = Box::new(alloc, kept)?;
        Ok(FoRArray {
            encoded,
            references: StoredReferences::Blocked(references, offset),
        })
    }
}
