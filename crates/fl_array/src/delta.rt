//! Delta arrays: in each block of 1024 items a base for each lane, and the deltas along the lanes.

mod compute;
mod decoding;
mod delta_array_ext;
mod delta_data;

ghost use Rattle.std.specs.Prelude.{◌≡◌, ◌+◌, ◌-◌, ◌*◌, ◌/◌, ◌%◌, ◌<◌, ◌≤◌, IfErr, IfOk, IsTrue, None, Ok, length};
ghost use Rattle.fl_types.specs.declared.error.FastLanesError.TheVariants.{OutOfMemory};
ghost use Rattle.fl_types.specs.Refusals.{Answers};
ghost use Rattle.fl_types.specs.Values.{scalar_parts};
ghost use Rattle.fl_column.specs.Columns.{column_of_primitive};
ghost use Rattle.fl_column.specs.Operations.{slice_of};
ghost use Rattle.fl_column.specs.Queries.{scalar_in};
ghost use Rattle.fl_codec.specs.DeltaRefusals.{delta_refusal, lanes_of_dtype};
ghost use Rattle.fl_codec.specs.ChunkSlices.{end_chunk, first_chunk};
ghost use Rattle.fl_array.specs.Trees.{column, height};
ghost use Rattle.fl_array.specs.DeltaArrays.{DeltaArrayParts, new_delta, refusal_of_delta, tree_of_delta};
ghost use Rattle.fl_array.specs.Kinds.{has_delta, kind};
ghost use Rattle.fl_array.specs.EncodedDelta.{encoded_delta_array};
ghost use Rattle.fl_array.specs.Reads.{IsValidityOf, integer_column};
ghost use Rattle.fl_array.specs.Slices.{slice_tree};

use crate::array::{ArrayRef, IntoArray};
pub use crate::delta::decoding::delta_decompress;
pub use crate::delta::delta_array_ext::{DeltaArrayExt, DeltaSlots};
pub use crate::delta::delta_data::DeltaData;
use fastlanes::FL_CHUNK_SIZE;
use fl_codec::delta::children::{delta_children_refusal, lanes_of_dtype};
use fl_codec::delta::delta_compress;
use fl_codec::laws::deltas_and_back;
use fl_column::{DType, FastLanesError, PrimitiveArray, Scalar, Validity, chunk_count};
use std::alloc::Global;
use std::marker::Model;

/// A delta array: the bases and the deltas of its blocks, which items are null, and the range of the blocks'
/// positions that it covers.
#[cycle(array)]
#[derive(Drop)]
pub struct DeltaArray {
    bases: Box<ArrayRef>,
    deltas: Box<ArrayRef>,
    validity: Validity,
    offset: usize,
    len: usize,
}

impl Model for DeltaArray {
    ghost use Rattle.std.specs.Prelude.{◌≡◌, ◌*◌, ◌+◌, None, max};
    ghost use Rattle.std.proofs.Common.{arith};
    ghost use Rattle.fl_array.specs.Trees.{column, height};
    ghost use Rattle.fl_codec.specs.DeltaRefusals.{delta_refusal};
    ghost use Rattle.fl_array.specs.DeltaArrays.{DeltaArrayParts};
    ghost use Rattle.fl_array.specs.ArrayCodes.{coded_delta};

    ghost Value = { DeltaArrayParts };

    ghost coded = { coded_delta };

    ghost view = { λ a. record { bases = a.bases.value; deltas = a.deltas.value; parts = record { validity = a.validity; offset = a.offset; len = a.len } } };

    ghost invariant = { λ a. delta_refusal (column a.bases.value) (column a.deltas.value) a.validity a.offset a.len ≡ None };

    ghost size = { λ a. 2 * max (height a.bases) (height a.deltas) + 1 };

    ghost size_decreases = { λ a h. Prim.grind arith };
}

/// The delta encoding: its constructor.
#[derive(Clone, Copy, Debug)]
pub struct Delta;

/// The error of these parts as a delta array, if there is one.
fn refusal_of(
    bases: &ArrayRef,
    deltas: &ArrayRef,
    validity: &Validity,
    offset: usize,
    len: usize,
) -> Option<FastLanesError>
    ensures { result ≡ delta_refusal (column bases.now) (column deltas.now) validity.now offset len }
{
    let (count, total) = (bases.len(), deltas.len());
    let covered = validity.covers(len);
    delta_children_refusal(
        bases.dtype(),
        count,
        deltas.dtype(),
        total,
        covered,
        offset,
        len,
    )
}

impl Delta {
    /// The array of these bases and deltas: `len` items from position `offset` of the blocks on.
    ///
    /// # Errors
    /// The first of `OffsetTooLarge`, `RangeBeyondChild`, `ChildNullable`, `TypeMismatch`, `NotInteger`,
    /// `ValidityLength` and `ChildLength` that applies.
    pub fn try_new(
        alloc: Global,
        bases: ArrayRef,
        deltas: ArrayRef,
        validity: Validity,
        offset: usize,
        len: usize,
    ) -> Result<DeltaArray, FastLanesError>
        ensures { Answers (λ a. a) result (new_delta bases deltas (record { validity = validity; offset = offset; len = len })) }
    {
        match refusal_of(&bases, &deltas, &validity, offset, len) {
            Some(refusal) => Err(refusal),
            None => {
                let bases = Box::new(alloc, bases)?;
                let deltas = Box::new(alloc, deltas)?;
                Ok(DeltaArray {
                    bases,
                    deltas,
                    validity,
                    offset,
                    len,
                })
            }
        }
    }

    /// The delta array of a primitive one: its bases and deltas are non-nullable primitive arrays of the same
    /// type, and its validity is the array's. A null counts as the last item before it in the column, or as 0 if
    /// there is none; a short last block is padded with its last item.
    pub fn try_from_primitive_array(
        alloc: Global,
        array: &PrimitiveArray,
    ) -> Result<DeltaArray, FastLanesError>
        ensures parts { Answers (λ a. a) result (Ok (encoded_delta_array array.now)) }
        ensures column { IfOk result (λ a. column (tree_of_delta a) ≡ column_of_primitive array.now) }
    {
        deltas_and_back(array);
        let len = array.len();
        let (bases, deltas) = delta_compress(alloc, array)?;
        let validity = array.validity().try_clone(alloc)?;
        DeltaArray::from_parts(
            alloc,
            bases.into_array(),
            deltas.into_array(),
            validity,
            0,
            len,
        )
    }
}

impl DeltaArray {
    /// The array of these bases and deltas, which the constructor would not refuse.
    pub(crate) fn from_parts(
        alloc: Global,
        bases: ArrayRef,
        deltas: ArrayRef,
        validity: Validity,
        offset: usize,
        len: usize,
    ) -> Result<DeltaArray, FastLanesError>
        requires { delta_refusal (column bases) (column deltas) validity offset len ≡ None }
        ensures { Answers (λ a. a) result (Ok (record { bases = bases; deltas = deltas; parts = record { validity = validity; offset = offset; len = len } })) }
    {
        let bases = Box::new(alloc, bases)?;
        let deltas = Box::new(alloc, deltas)?;
        Ok(DeltaArray {
            bases,
            deltas,
            validity,
            offset,
            len,
        })
    }

    /// The parts pass the checks of the constructor.
    pub(crate) fn prove_well_formed(&self)
        ensures { refusal_of_delta self.now ≡ None }
    {
        let _ = &self.offset;
    }

    /// The bases: one for each lane of each block.
    pub fn bases(&self) -> &ArrayRef
        ensures { result.now ≡ self.now.bases }
    {
        &self.bases
    }

    /// The deltas, at the positions at which blocks store items.
    pub fn deltas(&self) -> &ArrayRef
        ensures { result.now ≡ self.now.deltas }
    {
        &self.deltas
    }

    /// Which items are null.
    pub fn validity(&self) -> &Validity
        ensures { result.now ≡ self.now.parts.validity }
    {
        &self.validity
    }

    /// The position of the first item in the first block, below 1024.
    pub fn offset(&self) -> usize
        ensures { result ≡ self.now.parts.offset }
    {
        self.offset
    }

    /// The offset is below 1024.
    pub(crate) fn prove_low(&self)
        ensures { self.now.parts.offset < 1024 }
    {
        self.prove_well_formed();
    }

    /// The number of items.
    #[tactic(auto, using(crate::proofs::DeltaLaws::delta_len))]
    pub fn len(&self) -> usize
        ensures len { result ≡ self.now.parts.len }
        ensures items { result ≡ length (column (tree_of_delta self.now)).items }
    {
        self.len
    }

    /// The type of the column, by that of the bases.
    pub(crate) fn dtype_from(&self, bases: DType) -> DType
        requires { bases ≡ (column self.now.bases).dtype }
        ensures { result ≡ (column (tree_of_delta self.now)).dtype }
    {
        self.prove_well_formed();
        match bases {
            DType::Primitive(ptype, _) => DType::Primitive(ptype, self.validity().nullability()),
            DType::Bool(_) => unreachable!(),
        }
    }

    /// The validity of the column.
    #[tactic(auto, using(crate::proofs::DeltaLaws::delta_validity))]
    pub(crate) fn column_validity(&self, alloc: Global) -> Result<Validity, FastLanesError>
        ensures validity { IfOk result (λ v. IsValidityOf v (column (tree_of_delta self.now))) }
        ensures memory { IfErr result (λ e. e ≡ OutOfMemory) }
    {
        self.prove_well_formed();
        self.validity().try_clone(alloc)
    }

    /// The column, the bases and the deltas are of integers.
    pub(crate) fn prove_integers(&self)
        ensures items { integer_column (column (tree_of_delta self.now)) ≡ Ok (column (tree_of_delta self.now)) }
        ensures bases { integer_column (column self.now.bases) ≡ Ok (column self.now.bases) }
        ensures deltas { integer_column (column self.now.deltas) ≡ Ok (column self.now.deltas) }
    {
        self.prove_well_formed();
    }

    /// The lanes of a block.
    pub(crate) fn lanes(&self, bases: DType) -> usize
        requires { bases ≡ (column self.now.bases).dtype }
        ensures { result ≡ lanes_of_dtype (column self.now.bases).dtype }
    {
        lanes_of_dtype(bases)
    }

    /// The ranges of the bases and of the deltas of the blocks that hold the items from `start` to below `end`.
    pub(crate) fn block_ranges(&self, lanes: usize, start: usize, end: usize) -> BlockRanges
        requires lanes { lanes ≡ lanes_of_dtype (column self.now.bases).dtype }
        requires order { start ≤ end }
        requires range { end ≤ length (column (tree_of_delta self.now)).items }
        ensures first_base { result.first_base ≡ lanes_of_dtype (column self.now.bases).dtype * first_chunk self.now.parts.offset start }
        ensures last_base { result.last_base ≡ lanes_of_dtype (column self.now.bases).dtype * end_chunk self.now.parts.offset end }
        ensures first_delta { result.first_delta ≡ 1024 * first_chunk self.now.parts.offset start }
        ensures last_delta { result.last_delta ≡ 1024 * end_chunk self.now.parts.offset end }
        ensures base_order { result.first_base ≤ result.last_base }
        ensures base_range { result.last_base ≤ length (column self.now.bases).items }
        ensures delta_order { result.first_delta ≤ result.last_delta }
        ensures delta_range { result.last_delta ≤ length (column self.now.deltas).items }
    {
        self.prove_well_formed();
        let (offset, _len) = (self.offset(), self.len());
        let (_count, _total) = (self.bases().len(), self.deltas().len());
        let first = (offset + start) / FL_CHUNK_SIZE;
        let last = chunk_count(offset + end);
        BlockRanges {
            first_base: lanes * first,
            last_base: lanes * last,
            first_delta: FL_CHUNK_SIZE * first,
            last_delta: FL_CHUNK_SIZE * last,
        }
    }

    /// The item at an index, with the column's type.
    #[cycle(reading)]
    #[inline(never)]
    pub(crate) fn scalar_at(&self, alloc: Global, i: usize) -> Result<Scalar, FastLanesError>
        requires { i < length (column (tree_of_delta self.now)).items }
        ensures item { Answers scalar_parts result (Ok (scalar_in (column (tree_of_delta self.now)) i)) }
        ensures memory { IfErr result (λ e. IsTrue (has_delta (kind (tree_of_delta self.now)))) }
    {
        let _len = self.len();
        let lanes = self.lanes(self.bases().dtype());
        let kept = self.block_ranges(lanes, i, i + 1);
        let bases = self.bases().slice(alloc, kept.first_base..kept.last_base)?;
        let deltas = self
            .deltas()
            .slice(alloc, kept.first_delta..kept.last_delta)?;
        let item = self.slice_blocks(alloc, bases, deltas, i, i + 1)?;
        item.first_item(alloc)
    }

    /// The items of a range, in an array of the same kind.
    #[cycle(reading)]
    pub(crate) fn slice(
        &self,
        alloc: Global,
        start: usize,
        end: usize,
    ) -> Result<DeltaArray, FastLanesError>
        requires order { start ≤ end }
        requires range { end ≤ length (column (tree_of_delta self.now)).items }
        ensures column { Answers (λ a. column (tree_of_delta a)) result (Ok (slice_of start end (column (tree_of_delta self.now)))) }
        ensures tree { Answers tree_of_delta result (Ok (slice_tree start end (tree_of_delta self.now))) }
    {
        let lanes = self.lanes(self.bases().dtype());
        let kept = self.block_ranges(lanes, start, end);
        let bases = self.bases().slice(alloc, kept.first_base..kept.last_base)?;
        let deltas = self
            .deltas()
            .slice(alloc, kept.first_delta..kept.last_delta)?;
        self.slice_blocks(alloc, bases, deltas, start, end)
    }

    /// The items from `start` to below `end`, over the blocks that are kept.
    pub(crate) fn slice_blocks(
        &self,
        alloc: Global,
        bases: ArrayRef,
        deltas: ArrayRef,
        start: usize,
        end: usize,
    ) -> Result<DeltaArray, FastLanesError>
        requires order { start ≤ end }
        requires range { end ≤ length (column (tree_of_delta self.now)).items }
        requires bases { column bases ≡ slice_of (lanes_of_dtype (column self.now.bases).dtype * first_chunk self.now.parts.offset start) (lanes_of_dtype (column self.now.bases).dtype * end_chunk self.now.parts.offset end) (column self.now.bases) }
        requires deltas { column deltas ≡ slice_of (1024 * first_chunk self.now.parts.offset start) (1024 * end_chunk self.now.parts.offset end) (column self.now.deltas) }
        requires bases_tree { bases ≡ slice_tree (lanes_of_dtype (column self.now.bases).dtype * first_chunk self.now.parts.offset start) (lanes_of_dtype (column self.now.bases).dtype * end_chunk self.now.parts.offset end) self.now.bases }
        requires deltas_tree { deltas ≡ slice_tree (1024 * first_chunk self.now.parts.offset start) (1024 * end_chunk self.now.parts.offset end) self.now.deltas }
        ensures column { Answers (λ a. column (tree_of_delta a)) result (Ok (slice_of start end (column (tree_of_delta self.now)))) }
        ensures tree { Answers tree_of_delta result (Ok (slice_tree start end (tree_of_delta self.now))) }
    {
        self.prove_well_formed();
        let (len, _total) = (self.len(), self.deltas().len());
        let offset = (self.offset() + start) % FL_CHUNK_SIZE;
        let validity = self.validity().slice(alloc, start, end, len)?;
        let bases = Box::new(alloc, bases)?;
        let deltas = Box::new(alloc, deltas)?;
        Ok(DeltaArray {
            bases,
            deltas,
            validity,
            offset,
            len: end - start,
        })
    }

    /// The first item, of an array that has one.
    pub(crate) fn first_item(&self, alloc: Global) -> Result<Scalar, FastLanesError>
        requires { 0 < length (column (tree_of_delta self.now)).items }
        ensures { Answers scalar_parts result (Ok (scalar_in (column (tree_of_delta self.now)) 0)) }
    {
        let plain = self.to_primitive(alloc)?;
        Ok(plain.scalar_at(0))
    }

    /// A copy over copies of the bases and the deltas.
    pub(crate) fn clone_with(
        &self,
        alloc: Global,
        bases: ArrayRef,
        deltas: ArrayRef,
    ) -> Result<DeltaArray, FastLanesError>
        requires bases { bases ≡ self.now.bases }
        requires deltas { deltas ≡ self.now.deltas }
        ensures { Answers (λ a. a) result (Ok self.now) }
    {
        self.prove_well_formed();
        let validity = self.validity().try_clone(alloc)?;
        let (offset, len) = (self.offset(), self.len());
        let bases = Box::new(alloc, bases)?;
        let deltas = Box::new(alloc, deltas)?;
        Ok(DeltaArray {
            bases,
            deltas,
            validity,
            offset,
            len,
        })
    }
}

/// The ranges of the bases and of the deltas of some blocks.
#[derive(Clone, Copy)]
pub(crate) struct BlockRanges {
    pub(crate) first_base: usize,
    pub(crate) last_base: usize,
    pub(crate) first_delta: usize,
    pub(crate) last_delta: usize,
}
