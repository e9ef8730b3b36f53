//! Items of run-length encoded arrays, chunk by chunk.

ghost use Rattle.std.specs.Prelude.{◌≡◌, ◌+◌, ◌*◌, ◌%◌, ◌≤◌, ◌<◌, ◌^◌, ℕ, IfSome, IsTrue, false, length, map, true};
ghost use Rattle.fl_types.specs.Types.{has_ptype, is_nullable};
ghost use Rattle.fl_column.specs.Columns.{integers_in, numbers_of};
ghost use Rattle.fl_codec.specs.RunColumns.{run_item};
ghost use Rattle.fl_bitpacking.specs.Blocks.{value_at};
ghost use Rattle.fl_array.specs.Readers.{AreItemsFrom};
ghost use Rattle.fl_array.specs.ReaderSources.{AreRunParts, AreRunValues};
ghost use Rattle.fl_array.specs.RLEArrays.{tree_of_rle};
ghost use Rattle.fl_array.specs.Trees.{column};

use crate::array::primitive_cow::PrimitiveCow;
use crate::reader::direct::DirectReader;
use crate::rle::RLEArray;
use fastlanes::{FL_CHUNK_SIZE, Work};
use fl_bitpacking::places::places_from;
use fl_bitpacking::unpack_iter::BitPacked;
use fl_codec::rle::{values_of_chunk, write_run_items};
use fl_column::{DType, NativePType, Nullability, PType, PhysicalPType, chunk_count};
use num_traits::WrappingAdd;

/// A run-length encoded array, with its run values and run offsets decoded, and a reader of its run indices.
#[derive(Drop)]
pub(crate) struct RunReader<'a> {
    pub(crate) array: &'a RLEArray,
    pub(crate) values: PrimitiveCow<'a>,
    pub(crate) offsets: PrimitiveCow<'a>,
    pub(crate) indices: DirectReader<'a>,
    /// The type of the run indices.
    pub(crate) index_type: DType,
}

/// Writes items of one chunk, that at index `at` of the run indices first.
fn read_chunk<T: NativePType, I: BitPacked + PhysicalPType + WrappingAdd>(
    runs: &RunReader,
    all_named: bool,
    at: usize,
    items: &mut [T],
    work: &mut Work,
)
    requires parts { AreRunParts runs.now }
    requires typed { IsTrue (has_ptype T.PTYPE (column (tree_of_rle runs.now.array.now)).dtype) }
    requires index_type { IsTrue (has_ptype I.PTYPE runs.now.indices.column.dtype) }
    requires named { all_named ≡ true → is_nullable runs.now.indices.column.dtype ≡ false }
    requires range { at + length items.old ≤ length runs.now.indices.column.items }
    requires one_chunk { at % 1024 + length items.old ≤ 1024 }
    requires some { 0 < length items.old }
    ensures { (i : ℕ) → i < length items.old → IfSome (run_item (integers_in (column runs.now.array.now.values)) (column runs.now.array.now.indices).items (numbers_of (column runs.now.array.now.offsets)) (at + i)) (λ z. value_at T.value items.new i ≡ z) }
{
    runs.array.prove_well_formed();
    let mut scratch = [I::zero(); FL_CHUNK_SIZE];
    let names = &mut scratch[..items.len()];
    runs.indices.read_items(at, names, work);
    let own = runs.values_of_chunk::<T>(at / FL_CHUNK_SIZE);
    write_run_items(own, names, all_named, items);
}

/// Writes the items from an index on.
fn read_runs<T: NativePType, I: BitPacked + PhysicalPType + WrappingAdd>(
    runs: &RunReader,
    all_named: bool,
    start: usize,
    items: &mut [T],
    work: &mut Work,
)
    requires parts { AreRunParts runs.now }
    requires typed { IsTrue (has_ptype T.PTYPE (column (tree_of_rle runs.now.array.now)).dtype) }
    requires index_type { IsTrue (has_ptype I.PTYPE runs.now.indices.column.dtype) }
    requires named { all_named ≡ true → is_nullable runs.now.indices.column.dtype ≡ false }
    requires range { start + length items.old ≤ length (column (tree_of_rle runs.now.array.now)).items }
    ensures { AreItemsFrom start (length items.old) (value_at T.value items.new) (column (tree_of_rle runs.now.array.now)) }
{
    let (first, len) = (runs.offset() + start, items.len());
    if len == 0 {
        return;
    }
    for k in first / FL_CHUNK_SIZE..chunk_count(first + len) {
        let (from, to) = places_from(first, len, k);
        read_chunk::<T, I>(runs, all_named, first + from, &mut items[from..to], work);
    }
}

impl RunReader<'_> {
    /// The run values of chunk `k`.
    #[tactic(auto, using(crate::proofs::ItemTypes::rle_typed))]
    pub(crate) fn values_of_chunk<T: NativePType>(&self, k: usize) -> &[T]
        requires parts { AreRunParts self.now }
        requires typed { IsTrue (has_ptype T.PTYPE (column (tree_of_rle self.now.array.now)).dtype) }
        requires chunk { 1024 * k < length self.now.indices.column.items }
        ensures { AreRunValues self.now.array.now k (map T.value result.now) }
    {
        self.array.prove_well_formed();
        let stored = self.values.array().as_slice::<T>();
        let starts = self.offsets.array();
        // For the proof: the chunk has a run offset.
        let _count = starts.len();
        values_of_chunk(stored, starts, k)
    }

    /// The number of items.
    pub(crate) fn len(&self) -> usize
        ensures { result ≡ length (column (tree_of_rle self.now.array.now)).items }
    {
        self.array.len()
    }

    /// The position of the first item in its chunk.
    #[tactic(auto, using(crate::proofs::ReadRuns::window_within))]
    pub(crate) fn offset(&self) -> usize
        requires { AreRunParts self.now }
        ensures offset { result ≡ self.now.array.now.window.offset }
        ensures low { result < 1024 }
        ensures few { result + length (column (tree_of_rle self.now.array.now)).items < 2 ^ 64 }
        ensures within { result + length (column (tree_of_rle self.now.array.now)).items ≤ length self.now.indices.column.items }
    {
        self.array.prove_well_formed();
        // For the proof: the items end below 2 ^ 64.
        let _total = self.indices.len();
        self.array.offset()
    }

    /// Writes the items from an index on, as many as the slice has.
    pub(crate) fn read_items<T: NativePType>(&self, start: usize, items: &mut [T], work: &mut Work)
        requires parts { AreRunParts self.now }
        requires typed { IsTrue (has_ptype T.PTYPE (column (tree_of_rle self.now.array.now)).dtype) }
        requires range { start + length items.old ≤ length (column (tree_of_rle self.now.array.now)).items }
        ensures { AreItemsFrom start (length items.old) (value_at T.value items.new) (column (tree_of_rle self.now.array.now)) }
    {
        self.array.prove_well_formed();
        match self.index_type {
            DType::Primitive(PType::U8, Nullability::NonNullable) => {
                read_runs::<T, u8>(self, true, start, items, work)
            }
            DType::Primitive(PType::U8, _) => read_runs::<T, u8>(self, false, start, items, work),
            DType::Primitive(PType::U16, Nullability::NonNullable) => {
                read_runs::<T, u16>(self, true, start, items, work)
            }
            DType::Primitive(PType::U16, _) => read_runs::<T, u16>(self, false, start, items, work),
            _ => unreachable!(),
        }
    }
}
