//! Run-length encoded arrays: in each chunk of 1024 items the run values, and for each position the index of
//! its run value.

mod compute;
mod decoding;
mod dictionary;
mod rle_array_ext;
mod rle_data;
mod rle_probe;

ghost use Rattle.std.specs.Prelude.{◌≡◌, ◌+◌, ◌-◌, ◌*◌, ◌/◌, ◌%◌, ◌<◌, ◌≤◌, ℕ, IfErr, IfOk, IsTrue, None, Ok, false, length, pos, true, min, unsigned_abs, unwrap_or};
ghost use Rattle.fl_types.specs.declared.error.FastLanesError.TheVariants.{OutOfMemory};
ghost use Rattle.fl_types.specs.Refusals.{Answers};
ghost use Rattle.fl_types.specs.Values.{scalar_parts};
ghost use Rattle.fl_column.specs.Columns.{column_of_primitive, numbers_of};
ghost use Rattle.fl_column.specs.Operations.{slice_of};
ghost use Rattle.fl_column.specs.Queries.{scalar_in};
ghost use Rattle.fl_codec.specs.RunColumns.{are_run_offsets, chunk_start};
ghost use Rattle.fl_bitpacking.specs.Refusals.{accepted};
ghost use Rattle.fl_codec.specs.RunRefusals.{kept_values_end, kept_values_start, rle_refusal, rle_types_refusal};
ghost use Rattle.fl_codec.specs.ChunkSlices.{end_chunk, first_chunk};
ghost use Rattle.fl_array.specs.Trees.{column, height};
ghost use Rattle.fl_array.specs.RLEArrays.{encoded_rle, new_rle, refusal_of_rle, tree_of_rle};
ghost use Rattle.fl_array.specs.Kinds.{has_delta, kind};
ghost use Rattle.fl_array.specs.Reads.{IsValidityOf, integer_column};
ghost use Rattle.fl_array.specs.Slices.{slice_tree};

use crate::array::{ArrayRef, IntoArray};
use crate::numbers::number_of_scalar;
pub use crate::rle::decoding::rle_decompress;
pub use crate::rle::dictionary::Dictionary;
pub use crate::rle::rle_array_ext::{RLEArrayExt, RLESlots};
pub use crate::rle::rle_data::RLEData;
pub use crate::rle::rle_probe::RleProbeState;
use fastlanes::FL_CHUNK_SIZE;
use fl_codec::laws::runs_and_back;
use fl_codec::rle::children::rle_types_refusal;
use fl_codec::rle::refusals::numbers_refusal;
use fl_codec::rle::{Runs, encode};
use fl_column::{DType, FastLanesError, PrimitiveArray, Scalar, Validity, chunk_count};
use std::alloc::Global;
use std::marker::Model;

/// A run-length encoded array: the run values of all chunks, the index of each position into those of its
/// chunk, where the run values of each chunk start, and the range of positions that the array covers.
#[cycle(array)]
#[derive(Drop)]
pub struct RLEArray {
    values: Box<ArrayRef>,
    indices: Box<ArrayRef>,
    offsets: Box<ArrayRef>,
    offset: usize,
    len: usize,
}

impl Model for RLEArray {
    ghost use Rattle.std.specs.Prelude.{◌≡◌, ◌*◌, ◌+◌, None, max};
    ghost use Rattle.std.proofs.Common.{arith};
    ghost use Rattle.fl_array.specs.Trees.{column, height};
    ghost use Rattle.fl_codec.specs.RunRefusals.{rle_refusal};
    ghost use Rattle.fl_array.specs.RLEArrays.{RLEArrayParts};
    ghost use Rattle.fl_array.specs.ArrayCodes.{coded_rle};

    ghost Value = { RLEArrayParts };

    ghost coded = { coded_rle };

    ghost view = { λ a. record { values = a.values.value; indices = a.indices.value; offsets = a.offsets.value; window = record { offset = a.offset; len = a.len } } };

    ghost invariant = { λ a. rle_refusal (column a.values.value) (column a.indices.value) (column a.offsets.value) a.offset a.len ≡ None };

    ghost size = { λ a. 2 * max (height a.values) (max (height a.indices) (height a.offsets)) + 1 };

    ghost size_decreases = { λ a h. Prim.grind arith };
}

/// Run-length encoding: its constructors.
#[derive(Clone, Copy, Debug)]
pub struct RLE;

/// The error of these arrays by their types and lengths, if there is one.
fn refusal_by_types(
    values: &ArrayRef,
    indices: &ArrayRef,
    offsets: &ArrayRef,
    offset: usize,
    len: usize,
) -> Option<FastLanesError>
    ensures { result ≡ rle_types_refusal (column values.now).dtype (column indices.now).dtype (column offsets.now).dtype (length (column indices.now).items) (length (column offsets.now).items) offset len }
{
    let (total, chunks) = (indices.len(), offsets.len());
    rle_types_refusal(
        values.dtype(),
        indices.dtype(),
        offsets.dtype(),
        total,
        chunks,
        offset,
        len,
    )
}

/// Whether the run offsets of two chunks or more are one constant: the first chunk has no run value then.
#[tactic(auto, using(crate::proofs::EmptyChunks::constant_offsets))]
fn has_empty_chunk(offsets: &ArrayRef) -> bool
    ensures { result ≡ true → (count : ℕ) → are_run_offsets (numbers_of (column offsets.now)) count ≡ false }
{
    match offsets.as_constant() {
        Some(constant) => constant.len() > 1,
        None => false,
    }
}

/// Accepts run values, run indices and run offsets, or says why they make no array. The indices and the offsets are
/// decoded for it, each into memory that is asked for by one allocation, unless the run offsets of several chunks are a
/// constant array. Of the run values only their number and type matter.
fn accept_children(
    alloc: Global,
    values: &ArrayRef,
    indices: &ArrayRef,
    offsets: &ArrayRef,
    offset: usize,
    len: usize,
) -> Result<(), FastLanesError>
    ensures { Answers (λ u. u) result (accepted tt (rle_refusal (column values.now) (column indices.now) (column offsets.now) offset len)) }
{
    if let Some(refusal) = refusal_by_types(values, indices, offsets, offset, len) {
        return Err(refusal);
    }
    if has_empty_chunk(offsets) {
        return Err(FastLanesError::RunOffsets);
    }
    let names = indices.to_primitive(alloc)?;
    let starts = offsets.to_primitive(alloc)?;
    let (_names, _starts) = (names.validity(), starts.validity());
    match numbers_refusal(values.len(), &names, &starts) {
        Some(refusal) => Err(refusal),
        None => Ok(()),
    }
}

impl RLE {
    /// The array of these run values, run indices and run offsets, which `try_new` accepts.
    pub fn new_unchecked(
        alloc: Global,
        values: ArrayRef,
        indices: ArrayRef,
        offsets: ArrayRef,
        offset: usize,
        len: usize,
    ) -> Result<RLEArray, FastLanesError>
        requires { rle_refusal (column values) (column indices) (column offsets) offset len ≡ None }
        ensures { Answers (λ a. a) result (Ok (record { values = values; indices = indices; offsets = offsets; window = record { offset = offset; len = len } })) }
    {
        let values = Box::new(alloc, values)?;
        let indices = Box::new(alloc, indices)?;
        let offsets = Box::new(alloc, offsets)?;
        Ok(RLEArray {
            values,
            indices,
            offsets,
            offset,
            len,
        })
    }

    /// The array of these run values, run indices and run offsets: `len` items from position `offset` on.
    ///
    /// # Errors
    /// The first of `OffsetTooLarge`, `NotInteger`, `ChildNullable`, `RunIndexType`, `BlockOffsetsType`,
    /// `ChildLength`, `RangeBeyondChild`, `BlockOffsetsCount`, `RunOffsets` and `RunIndex` that applies.
    pub fn try_new(
        alloc: Global,
        values: ArrayRef,
        indices: ArrayRef,
        offsets: ArrayRef,
        offset: usize,
        len: usize,
    ) -> Result<RLEArray, FastLanesError>
        ensures { Answers (λ a. a) result (new_rle values indices offsets (record { offset = offset; len = len })) }
    {
        accept_children(alloc, &values, &indices, &offsets, offset, len)?;
        let values = Box::new(alloc, values)?;
        let indices = Box::new(alloc, indices)?;
        let offsets = Box::new(alloc, offsets)?;
        Ok(RLEArray {
            values,
            indices,
            offsets,
            offset,
            len,
        })
    }

    /// The run-length encoded array of a primitive one: in each chunk of 1024 the items that differ from the
    /// one before, with `u16` indices and `u64` run offsets. A null counts as the last item before it in its
    /// chunk, or as 0 if there is none; a short last chunk is padded with its last item, and the indices of the
    /// padding are null if the column's validity has a bit for each item or no item is valid.
    pub fn encode(alloc: Global, array: &PrimitiveArray) -> Result<RLEArray, FastLanesError>
        ensures parts { Answers (λ a. a) result (Ok (encoded_rle array.now)) }
        ensures column { IfOk result (λ a. column (tree_of_rle a) ≡ column_of_primitive array.now) }
    {
        runs_and_back(array);
        let (len, _validity) = (array.len(), array.validity());
        let Runs {
            values,
            indices,
            offsets,
        } = encode(alloc, array)?;
        let (_values, _indices, _offsets) = (
            values.validity(),
            indices.validity(),
            offsets.validity(),
        );
        RLE::new_unchecked(
            alloc,
            values.into_array(),
            indices.into_array(),
            offsets.into_array(),
            0,
            len,
        )
    }
}

impl RLEArray {
    /// The parts pass the checks of the constructor.
    pub(crate) fn prove_well_formed(&self)
        ensures { refusal_of_rle self.now ≡ None }
    {
        let _ = &self.offset;
    }

    /// The run values.
    pub fn values(&self) -> &ArrayRef
        ensures { result.now ≡ self.now.values }
    {
        &self.values
    }

    /// The run indices: for each position the index of its run value in its chunk.
    pub fn indices(&self) -> &ArrayRef
        ensures { result.now ≡ self.now.indices }
    {
        &self.indices
    }

    /// The run offsets: where the run values of each chunk start.
    pub fn offsets(&self) -> &ArrayRef
        ensures { result.now ≡ self.now.offsets }
    {
        &self.offsets
    }

    /// The position of the first item in the first chunk, below 1024.
    pub fn offset(&self) -> usize
        ensures { result ≡ self.now.window.offset }
    {
        self.offset
    }

    /// The offset is below 1024.
    pub(crate) fn prove_low(&self)
        ensures { self.now.window.offset < 1024 }
    {
        self.prove_well_formed();
    }

    /// The number of items.
    #[tactic(auto, using(crate::proofs::RLELaws::rle_len))]
    pub fn len(&self) -> usize
        ensures len { result ≡ self.now.window.len }
        ensures items { result ≡ length (column (tree_of_rle self.now)).items }
    {
        self.len
    }

    /// The type of the column, by those of the run values and the run indices.
    pub(crate) fn dtype_from(&self, values: DType, indices: DType) -> DType
        requires values { values ≡ (column self.now.values).dtype }
        requires indices { indices ≡ (column self.now.indices).dtype }
        ensures { result ≡ (column (tree_of_rle self.now)).dtype }
    {
        self.prove_well_formed();
        match values {
            DType::Primitive(ptype, _) => DType::Primitive(ptype, indices.nullability()),
            DType::Bool(_) => unreachable!(),
        }
    }

    /// The validity of the column, from that of all indices.
    pub(crate) fn column_validity(
        &self,
        alloc: Global,
        indices: Validity,
        total: usize,
    ) -> Result<Validity, FastLanesError>
        requires indices { IsValidityOf indices (column self.now.indices) }
        requires total { total ≡ length (column self.now.indices).items }
        ensures validity { IfOk result (λ v. IsValidityOf v (column (tree_of_rle self.now))) }
        ensures memory { IfErr result (λ e. e ≡ OutOfMemory) }
    {
        self.prove_well_formed();
        let (offset, len) = (self.offset(), self.len());
        indices.slice(alloc, offset, offset + len, total)
    }

    /// The column, the run values, the run indices and the run offsets are of integers.
    pub(crate) fn prove_integers(&self)
        ensures items { integer_column (column (tree_of_rle self.now)) ≡ Ok (column (tree_of_rle self.now)) }
        ensures values { integer_column (column self.now.values) ≡ Ok (column self.now.values) }
        ensures indices { integer_column (column self.now.indices) ≡ Ok (column self.now.indices) }
        ensures offsets { integer_column (column self.now.offsets) ≡ Ok (column self.now.offsets) }
    {
        self.prove_well_formed();
    }

    /// The position of an item, and its chunk.
    pub(crate) fn position(&self, i: usize) -> (usize, usize)
        requires { i < length (column (tree_of_rle self.now)).items }
        ensures position { result.0 ≡ self.now.window.offset + i }
        ensures chunk { result.1 ≡ (self.now.window.offset + i) / 1024 }
        ensures range { result.0 < length (column self.now.indices).items }
        ensures chunk_range { result.1 < length (column self.now.offsets).items }
    {
        self.prove_well_formed();
        let (offset, _len, _total) = (self.offset(), self.len(), self.indices().len());
        (offset + i, (offset + i) / FL_CHUNK_SIZE)
    }

    /// The positions of a position's chunk: the first one, and the one after the last.
    pub(crate) fn chunk_positions(&self, position: usize) -> (usize, usize)
        requires { position / 1024 < length (column self.now.offsets).items }
        ensures start { result.0 ≡ 1024 * (position / 1024) }
        ensures end { result.1 ≡ 1024 * (position / 1024) + 1024 }
    {
        self.prove_well_formed();
        let _total = self.indices().len();
        let start = FL_CHUNK_SIZE * (position / FL_CHUNK_SIZE);
        (start, start + FL_CHUNK_SIZE)
    }

    /// Where the run values of a chunk start, by the first run offset and that of the chunk.
    pub(crate) fn start_from(&self, first: Scalar, start: Scalar, chunk: usize) -> usize
        requires range { chunk < length (column self.now.offsets).items }
        requires first { scalar_parts first ≡ scalar_in (column self.now.offsets) 0 }
        requires start { scalar_parts start ≡ scalar_in (column self.now.offsets) chunk }
        ensures { result ≡ chunk_start (numbers_of (column self.now.offsets)) chunk }
    {
        self.prove_well_formed();
        number_of_scalar(start) - number_of_scalar(first)
    }

    /// Where the run values of a chunk start: its run offset, counted from the first one.
    pub(crate) fn start_of_chunk(
        &self,
        alloc: Global,
        chunk: usize,
    ) -> Result<usize, FastLanesError>
        requires { chunk < length (column self.now.offsets).items }
        ensures start { Answers (λ n. n) result (Ok (chunk_start (numbers_of (column self.now.offsets)) chunk)) }
        ensures memory { IfErr result (λ e. IsTrue (has_delta (kind (tree_of_rle self.now)))) }
    {
        let first = self.offsets().scalar_at(alloc, 0)?;
        let own = self.offsets().scalar_at(alloc, chunk)?;
        Ok(self.start_from(first, own, chunk))
    }

    /// The index of an item's run value among all of them, by its run index and where the run values of its chunk
    /// start.
    pub(crate) fn value_place(&self, index: Scalar, start: usize, i: usize) -> usize
        requires range { i < length (column (tree_of_rle self.now)).items }
        requires index { scalar_parts index ≡ scalar_in (column self.now.indices) (self.now.window.offset + i) }
        requires start { start ≡ chunk_start (numbers_of (column self.now.offsets)) ((self.now.window.offset + i) / 1024) }
        ensures place { result ≡ chunk_start (numbers_of (column self.now.offsets)) ((self.now.window.offset + i) / 1024) + unsigned_abs (unwrap_or (scalar_parts index).value (pos 0)) }
        ensures range { result < length (column self.now.values).items }
    {
        self.prove_well_formed();
        let (_len, _count) = (self.len(), self.values().len());
        start + number_of_scalar(index)
    }

    /// The index of an item's run value among all of them, by its run index, the first run offset and that of its
    /// chunk.
    pub(crate) fn value_index(&self, index: Scalar, first: Scalar, start: Scalar, i: usize) -> usize
        requires range { i < length (column (tree_of_rle self.now)).items }
        requires index { scalar_parts index ≡ scalar_in (column self.now.indices) (self.now.window.offset + i) }
        requires first { scalar_parts first ≡ scalar_in (column self.now.offsets) 0 }
        requires start { scalar_parts start ≡ scalar_in (column self.now.offsets) ((self.now.window.offset + i) / 1024) }
        ensures place { result ≡ chunk_start (numbers_of (column self.now.offsets)) ((self.now.window.offset + i) / 1024) + unsigned_abs (unwrap_or (scalar_parts index).value (pos 0)) }
        ensures range { result < length (column self.now.values).items }
    {
        let (_, chunk) = self.position(i);
        self.value_place(index, self.start_from(first, start, chunk), i)
    }

    /// An item, from its run index and its run value.
    pub(crate) fn item_from(&self, index: Scalar, value: Scalar, i: usize) -> Scalar
        requires range { i < length (column (tree_of_rle self.now)).items }
        requires index { scalar_parts index ≡ scalar_in (column self.now.indices) (self.now.window.offset + i) }
        requires value { scalar_parts value ≡ scalar_in (column self.now.values) (chunk_start (numbers_of (column self.now.offsets)) ((self.now.window.offset + i) / 1024) + unsigned_abs (unwrap_or (scalar_parts index).value (pos 0))) }
        ensures { scalar_parts result ≡ scalar_in (column (tree_of_rle self.now)) i }
    {
        self.prove_well_formed();
        let _len = self.len();
        match value.as_pvalue() {
            Some(integer) => {
                if index.is_null() {
                    Scalar::null(value.dtype())
                } else {
                    Scalar::primitive(integer, index.dtype().nullability())
                }
            }
            None => unreachable!(),
        }
    }

    /// The chunks that hold the items from `start` to below `end`, and the range of their run indices.
    pub(crate) fn chunk_ranges(&self, start: usize, end: usize) -> ChunkRanges
        requires order { start ≤ end }
        requires range { end ≤ length (column (tree_of_rle self.now)).items }
        ensures first { result.first ≡ first_chunk self.now.window.offset start }
        ensures last { result.last ≡ end_chunk self.now.window.offset end }
        ensures chunk_order { result.first ≤ result.last }
        ensures chunk_range { result.last ≤ length (column self.now.offsets).items }
        ensures index_first { result.index_first ≡ 1024 * first_chunk self.now.window.offset start }
        ensures index_last { result.index_last ≡ 1024 * end_chunk self.now.window.offset end }
        ensures index_order { result.index_first ≤ result.index_last }
        ensures index_range { result.index_last ≤ length (column self.now.indices).items }
    {
        self.prove_well_formed();
        let (offset, _len, _total) = (self.offset(), self.len(), self.indices().len());
        let first = (offset + start) / FL_CHUNK_SIZE;
        let last = chunk_count(offset + end);
        ChunkRanges {
            first,
            last,
            index_first: FL_CHUNK_SIZE * first,
            index_last: FL_CHUNK_SIZE * last,
        }
    }

    /// Where the run values of the chunks that hold the items from `start` to below `end` start and end, by the first
    /// run offset of all, that of the first of these chunks, and that of the chunk after them or the last one.
    pub(crate) fn kept_values(
        &self,
        least: Scalar,
        from: Scalar,
        to: Scalar,
        start: usize,
        end: usize,
    ) -> (usize, usize)
        requires order { start ≤ end }
        requires range { end ≤ length (column (tree_of_rle self.now)).items }
        requires some { first_chunk self.now.window.offset start < end_chunk self.now.window.offset end }
        requires least { scalar_parts least ≡ scalar_in (column self.now.offsets) 0 }
        requires from { scalar_parts from ≡ scalar_in (column self.now.offsets) (first_chunk self.now.window.offset start) }
        requires to { scalar_parts to ≡ scalar_in (column self.now.offsets) (min (end_chunk self.now.window.offset end) (length (column self.now.offsets).items - 1)) }
        ensures from { result.0 ≡ kept_values_start (numbers_of (column self.now.offsets)) (first_chunk self.now.window.offset start) (end_chunk self.now.window.offset end) }
        ensures to { result.1 ≡ kept_values_end (numbers_of (column self.now.offsets)) (length (column self.now.values).items) (first_chunk self.now.window.offset start) (end_chunk self.now.window.offset end) }
        ensures order { result.0 ≤ result.1 }
        ensures range { result.1 ≤ length (column self.now.values).items }
    {
        self.prove_well_formed();
        let _len = self.len();
        let kept = self.chunk_ranges(start, end);
        let first = self.start_from(least, from, kept.first);
        let last = if kept.last < self.offsets().len() {
            self.start_from(least, to, kept.last)
        } else {
            self.values().len()
        };
        (first, last)
    }

    /// The range of no run values, where no chunk holds an item.
    pub(crate) fn no_values(&self, start: usize, end: usize) -> (usize, usize)
        requires order { start ≤ end }
        requires range { end ≤ length (column (tree_of_rle self.now)).items }
        requires none { end_chunk self.now.window.offset end ≤ first_chunk self.now.window.offset start }
        ensures from { result.0 ≡ kept_values_start (numbers_of (column self.now.offsets)) (first_chunk self.now.window.offset start) (end_chunk self.now.window.offset end) }
        ensures to { result.1 ≡ kept_values_end (numbers_of (column self.now.offsets)) (length (column self.now.values).items) (first_chunk self.now.window.offset start) (end_chunk self.now.window.offset end) }
        ensures order { result.0 ≤ result.1 }
        ensures range { result.1 ≤ length (column self.now.values).items }
    {
        (0, 0)
    }

    /// The item at an index, with the column's type.
    #[cycle(reading)]
    #[inline(never)]
    pub(crate) fn scalar_at(&self, alloc: Global, i: usize) -> Result<Scalar, FastLanesError>
        requires { i < length (column (tree_of_rle self.now)).items }
        ensures item { Answers scalar_parts result (Ok (scalar_in (column (tree_of_rle self.now)) i)) }
        ensures memory { IfErr result (λ e. IsTrue (has_delta (kind (tree_of_rle self.now)))) }
    {
        let (position, chunk) = self.position(i);
        let index = self.indices().scalar_at(alloc, position)?;
        let first = self.offsets().scalar_at(alloc, 0)?;
        let start = self.offsets().scalar_at(alloc, chunk)?;
        let place = self.value_index(index, first, start, i);
        let value = self.values().scalar_at(alloc, place)?;
        Ok(self.item_from(index, value, i))
    }

    /// The items of a range, in an array of the same kind.
    #[cycle(reading)]
    pub(crate) fn slice(
        &self,
        alloc: Global,
        start: usize,
        end: usize,
    ) -> Result<RLEArray, FastLanesError>
        requires order { start ≤ end }
        requires range { end ≤ length (column (tree_of_rle self.now)).items }
        ensures column { Answers (λ a. column (tree_of_rle a)) result (Ok (slice_of start end (column (tree_of_rle self.now)))) }
        ensures tree { Answers tree_of_rle result (Ok (slice_tree start end (tree_of_rle self.now))) }
    {
        self.prove_integers();
        let _total = self.len();
        let kept = self.chunk_ranges(start, end);
        let (from, to) = if kept.first < kept.last {
            let behind = kept.last.min(self.offsets().len() - 1);
            let least = self.offsets().scalar_at(alloc, 0)?;
            let from = self.offsets().scalar_at(alloc, kept.first)?;
            let to = self.offsets().scalar_at(alloc, behind)?;
            self.kept_values(least, from, to, start, end)
        } else {
            self.no_values(start, end)
        };
        let values = self.values().slice(alloc, from..to)?;
        let indices = self
            .indices()
            .slice(alloc, kept.index_first..kept.index_last)?;
        let offsets = self.offsets().slice(alloc, kept.first..kept.last)?;
        self.slice_chunks(alloc, values, indices, offsets, start, end)
    }

    /// The items from `start` to below `end`, over the chunks that are kept.
    pub(crate) fn slice_chunks(
        &self,
        alloc: Global,
        values: ArrayRef,
        indices: ArrayRef,
        offsets: ArrayRef,
        start: usize,
        end: usize,
    ) -> Result<RLEArray, FastLanesError>
        requires order { start ≤ end }
        requires range { end ≤ length (column (tree_of_rle self.now)).items }
        requires values { column values ≡ slice_of (kept_values_start (numbers_of (column self.now.offsets)) (first_chunk self.now.window.offset start) (end_chunk self.now.window.offset end)) (kept_values_end (numbers_of (column self.now.offsets)) (length (column self.now.values).items) (first_chunk self.now.window.offset start) (end_chunk self.now.window.offset end)) (column self.now.values) }
        requires indices { column indices ≡ slice_of (1024 * first_chunk self.now.window.offset start) (1024 * end_chunk self.now.window.offset end) (column self.now.indices) }
        requires offsets { column offsets ≡ slice_of (first_chunk self.now.window.offset start) (end_chunk self.now.window.offset end) (column self.now.offsets) }
        requires values_tree { values ≡ slice_tree (kept_values_start (numbers_of (column self.now.offsets)) (first_chunk self.now.window.offset start) (end_chunk self.now.window.offset end)) (kept_values_end (numbers_of (column self.now.offsets)) (length (column self.now.values).items) (first_chunk self.now.window.offset start) (end_chunk self.now.window.offset end)) self.now.values }
        requires indices_tree { indices ≡ slice_tree (1024 * first_chunk self.now.window.offset start) (1024 * end_chunk self.now.window.offset end) self.now.indices }
        requires offsets_tree { offsets ≡ slice_tree (first_chunk self.now.window.offset start) (end_chunk self.now.window.offset end) self.now.offsets }
        ensures column { Answers (λ a. column (tree_of_rle a)) result (Ok (slice_of start end (column (tree_of_rle self.now)))) }
        ensures tree { Answers tree_of_rle result (Ok (slice_tree start end (tree_of_rle self.now))) }
    {
        self.prove_well_formed();
        let (_len, _total) = (self.len(), self.indices().len());
        let offset = (self.offset() + start) % FL_CHUNK_SIZE;
        let values = Box::new(alloc, values)?;
        let indices = Box::new(alloc, indices)?;
        let offsets = Box::new(alloc, offsets)?;
        Ok(RLEArray {
            values,
            indices,
            offsets,
            offset,
            len: end - start,
        })
    }

    /// A copy over copies of the children.
    pub(crate) fn clone_with(
        &self,
        alloc: Global,
        values: ArrayRef,
        indices: ArrayRef,
        offsets: ArrayRef,
    ) -> Result<RLEArray, FastLanesError>
        requires values { values ≡ self.now.values }
        requires indices { indices ≡ self.now.indices }
        requires offsets { offsets ≡ self.now.offsets }
        ensures { Answers (λ a. a) result (Ok self.now) }
    {
        self.prove_well_formed();
        let (offset, len) = (self.offset(), self.len());
        let values = Box::new(alloc, values)?;
        let indices = Box::new(alloc, indices)?;
        let offsets = Box::new(alloc, offsets)?;
        Ok(RLEArray {
            values,
            indices,
            offsets,
            offset,
            len,
        })
    }
}

/// The ranges of some chunks and of their run indices.
#[derive(Clone, Copy)]
pub(crate) struct ChunkRanges {
    pub(crate) first: usize,
    pub(crate) last: usize,
    pub(crate) index_first: usize,
    pub(crate) index_last: usize,
}
