//! The items that indices name, without a list of the column: a block is read once for each run of indices that name
//! items of it. Where these runs are short and many, the blocks are read once, window by window, and each index is
//! looked at for each window.

ghost use Rattle.std.specs.Prelude.{◌≡◌, ◌&&◌, ◌+◌, ◌-◌, ◌<◌, ◌≤◌, ℕ, ℤ, IfErr, IfOk, IsTrue, None, Ok, OnOk, Some, is_some, length, min, option_map, slice_index_or, unsigned_abs};
ghost use Rattle.std.specs.List.{list_all};
ghost use Rattle.fl_types.specs.declared.error.FastLanesError.TheVariants.{OutOfMemory};
ghost use Rattle.fl_types.specs.Refusals.{Answers};
ghost use Rattle.fl_types.specs.Types.{has_ptype};
ghost use Rattle.fl_column.specs.Columns.{column_of_primitive};
ghost use Rattle.fl_column.specs.Operations.{is_in_range, item_named, take_column, take_of};
ghost use Rattle.fl_column.specs.Selections.{is_full};
ghost use Rattle.fl_bitpacking.specs.Blocks.{value_at};
ghost use Rattle.fl_array.specs.Reads.{IsValidityOf};
ghost use Rattle.fl_array.specs.Trees.{column};
ghost use Rattle.fl_ops.specs.TakenItems.{ArePicked, IsRun};

use crate::by_blocks::indices::{Indices, are_in_range};
use fastlanes::FL_CHUNK_SIZE;
use fl_array::{ArrayRef, Reader};
use fl_bitpacking::unpack_iter::BitPacked;
use fl_column::{
    BitList, DType, FastLanesError, NativePType, PType, PhysicalPType, PrimitiveArray, Validity,
    is_full,
};
use fl_types::match_each_integer_ptype;
use num_traits::WrappingAdd;
use std::alloc::{AllocError, Global};

/// The most items of a window, 64 blocks.
const WINDOW: usize = 65_536;

/// How many indices can be looked at in the time that a block takes to be read, about.
const LOOKS_A_BLOCK: usize = 512;

/// Indices from one on, and where the items begin and end that are read for them.
#[derive(Clone, Copy)]
struct Run {
    /// The first index.
    from: usize,
    /// The one after the last index.
    to: usize,
    /// The first item.
    low: usize,
    /// The one after the last item.
    high: usize,
}

/// Writes the item that an index names to the index's place, if it is one of those that were read from `low` on.
fn pick_one<T: NativePType, I: NativePType>(
    indices: &Indices<I>,
    k: usize,
    low: usize,
    read: &[T],
    picked: &mut [T],
)
    requires range { k < length indices.now.items }
    requires long { length picked.old ≡ length indices.now.items }
    ensures here { (z : ℤ) → slice_index_or indices.now.items k None ≡ Some z → low ≤ unsigned_abs z → unsigned_abs z < low + length read.now → value_at T.value picked.new k ≡ value_at T.value read.now (unsigned_abs z - low) }
    ensures below { (z : ℤ) → slice_index_or indices.now.items k None ≡ Some z → unsigned_abs z < low → picked.new ≡ picked.old }
    ensures before { (i : ℕ) → i < k → value_at T.value picked.new i ≡ value_at T.value picked.old i }
    ensures after { (i : ℕ) → k < i → value_at T.value picked.new i ≡ value_at T.value picked.old i }
{
    if let Some(position) = indices.position(k) {
        if low <= position && position - low < read.len() {
            picked[k] = read[position - low];
        }
    }
}

/// Writes the items that the indices of a run name to the indices' places, if they are among those that were read.
fn pick<T: NativePType, I: NativePType>(
    indices: &Indices<I>,
    run: Run,
    read: &[T],
    picked: &mut [T],
)
    requires order { run.from ≤ run.to }
    requires range { run.to ≤ length indices.now.items }
    requires long { length picked.old ≡ length indices.now.items }
    ensures here { (k : ℕ) → (z : ℤ) → run.from ≤ k → k < run.to → slice_index_or indices.now.items k None ≡ Some z → run.low ≤ unsigned_abs z → unsigned_abs z < run.low + length read.now → value_at T.value picked.new k ≡ value_at T.value read.now (unsigned_abs z - run.low) }
    ensures below { (k : ℕ) → (z : ℤ) → slice_index_or indices.now.items k None ≡ Some z → unsigned_abs z < run.low → value_at T.value picked.new k ≡ value_at T.value picked.old k }
    ensures before { (k : ℕ) → k < run.from → value_at T.value picked.new k ≡ value_at T.value picked.old k }
{
    for k in run.from..run.to {
        pick_one(indices, k, run.low, read, picked);
    }
}

/// The indices from one on that name items of one block, where the first of them names the item at a position.
fn run_from<I: NativePType>(
    reader: &Reader,
    indices: &Indices<I>,
    from: usize,
    position: usize,
) -> Run
    requires from { from < length indices.now.items }
    requires position { position < length reader.now.column.items }
    requires named { option_map unsigned_abs (slice_index_or indices.now.items from None) ≡ Some position }
    ensures run { IsRun indices.now.items result }
    ensures first { result.from ≡ from }
    ensures later { from < result.to }
    ensures within { result.to ≤ length indices.now.items }
    ensures order { result.low ≤ result.high }
    ensures few { result.high ≤ result.low + 1024 }
    ensures range { result.high ≤ length reader.now.column.items }
{
    let (start, end) = reader.places((reader.offset() + position) / FL_CHUNK_SIZE);
    let (mut low, mut high) = (position, position + 1);
    let len = indices.len();
    for k in from + 1..len {
        if let Some(next) = indices.position(k) {
            if next < start || next >= end {
                return Run {
                    from,
                    to: k,
                    low,
                    high,
                };
            }
            low = low.min(next);
            high = high.max(next + 1);
        }
    }
    Run {
        from,
        to: len,
        low,
        high,
    }
}

/// Writes the items that the indices of a run name, which begins with an index, and returns the index after it.
fn take_run<T: BitPacked + PhysicalPType + WrappingAdd, I: NativePType>(
    reader: &Reader,
    indices: &Indices<I>,
    from: usize,
    scratch: &mut [T; FL_CHUNK_SIZE],
    picked: &mut [T],
) -> usize
    requires typed { IsTrue (has_ptype T.PTYPE reader.now.column.dtype) }
    requires range { IsTrue (list_all (is_in_range (length reader.now.column.items)) indices.now.items) }
    requires long { length picked.old ≡ length indices.now.items }
    requires more { from < length indices.now.items }
    requires begun { ArePicked (value_at T.value picked.old) indices.now.items from (length reader.now.column.items) reader.now.column }
    ensures picked { ArePicked (value_at T.value picked.new) indices.now.items result (length reader.now.column.items) reader.now.column }
    ensures later { from < result }
    ensures within { result ≤ length indices.now.items }
{
    let Some(position) = indices.position(from) else {
        return from + 1;
    };
    let run = run_from(reader, indices, from, position);
    let read = &mut scratch[..run.high - run.low];
    reader.read(run.low, read);
    pick(indices, run, read, picked);
    run.to
}

/// Writes the items that the indices name, run by run.
fn take_runs<T: BitPacked + PhysicalPType + WrappingAdd, I: NativePType>(
    reader: &Reader,
    indices: &Indices<I>,
    picked: &mut [T],
)
    requires typed { IsTrue (has_ptype T.PTYPE reader.now.column.dtype) }
    requires range { IsTrue (list_all (is_in_range (length reader.now.column.items)) indices.now.items) }
    requires long { length picked.old ≡ length indices.now.items }
    ensures { ArePicked (value_at T.value picked.new) indices.now.items (length indices.now.items) (length reader.now.column.items) reader.now.column }
{
    let mut scratch = [T::zero(); FL_CHUNK_SIZE];
    let mut from = 0;
    while from < indices.len() {
        from = take_run(reader, indices, from, &mut scratch, picked);
    }
}

/// Writes the items that the indices name in the window that begins with an item, and returns the item after it.
fn take_window<T: BitPacked + PhysicalPType + WrappingAdd, I: NativePType>(
    reader: &Reader,
    indices: &Indices<I>,
    low: usize,
    window: &mut [T],
    picked: &mut [T],
) -> usize
    requires typed { IsTrue (has_ptype T.PTYPE reader.now.column.dtype) }
    requires window { length window.old ≡ min 65536 (length reader.now.column.items) }
    requires long { length picked.old ≡ length indices.now.items }
    requires more { low < length reader.now.column.items }
    requires begun { ArePicked (value_at T.value picked.old) indices.now.items (length indices.now.items) low reader.now.column }
    ensures picked { ArePicked (value_at T.value picked.new) indices.now.items (length indices.now.items) result reader.now.column }
    ensures later { low < result }
    ensures within { result ≤ length reader.now.column.items }
{
    let cut = (reader.offset() + low) % WINDOW;
    let count = (WINDOW - cut).min(reader.len() - low);
    let read = &mut window[..count];
    reader.read(low, read);
    let run = Run {
        from: 0,
        to: indices.len(),
        low,
        high: low + count,
    };
    pick(indices, run, read, picked);
    low + count
}

/// Writes the items that the indices name, window by window.
fn take_windows<T: BitPacked + PhysicalPType + WrappingAdd, I: NativePType>(
    reader: &Reader,
    indices: &Indices<I>,
    window: &mut [T],
    picked: &mut [T],
)
    requires typed { IsTrue (has_ptype T.PTYPE reader.now.column.dtype) }
    requires window { length window.old ≡ min 65536 (length reader.now.column.items) }
    requires long { length picked.old ≡ length indices.now.items }
    ensures { ArePicked (value_at T.value picked.new) indices.now.items (length indices.now.items) (length reader.now.column.items) reader.now.column }
{
    let mut low = 0;
    while low < reader.len() {
        low = take_window(reader, indices, low, window, picked);
    }
}

/// Whether a block for each run of indices is read sooner than each block once, with a look at each index for each
/// window.
fn are_runs_sooner<I: NativePType>(reader: &Reader, indices: &Indices<I>) -> bool {
    let (runs, blocks) = (indices.runs(reader.offset()), reader.blocks());
    let windows = reader.len() / WINDOW + 1;
    let looks = indices.len().saturating_mul(windows);
    runs.saturating_sub(blocks) <= looks / LOOKS_A_BLOCK
}

/// Writes the items that the indices name, in the way that is sooner done.
fn take_all<T: BitPacked + PhysicalPType + WrappingAdd, I: NativePType>(
    alloc: Global,
    reader: &Reader,
    indices: &Indices<I>,
    picked: &mut [T],
) -> Result<(), AllocError>
    requires typed { IsTrue (has_ptype T.PTYPE reader.now.column.dtype) }
    requires range { IsTrue (list_all (is_in_range (length reader.now.column.items)) indices.now.items) }
    requires long { length picked.old ≡ length indices.now.items }
    ensures { OnOk result (ArePicked (value_at T.value picked.new) indices.now.items (length indices.now.items) (length reader.now.column.items) reader.now.column) }
{
    if are_runs_sooner(reader, indices) {
        take_runs(reader, indices, picked);
        return Ok(());
    }
    let mut window = Vec::new(alloc);
    window.resize(WINDOW.min(reader.len()), T::zero())?;
    take_windows(reader, indices, &mut window, picked);
    Ok(())
}

/// The items that the indices name, any integer where the index or the item is null. Room for all is asked for at once.
fn picked_items<T: BitPacked + PhysicalPType + WrappingAdd, I: NativePType>(
    alloc: Global,
    reader: &Reader,
    indices: &Indices<I>,
) -> Result<Vec<T>, AllocError>
    requires typed { IsTrue (has_ptype T.PTYPE reader.now.column.dtype) }
    requires range { IsTrue (list_all (is_in_range (length reader.now.column.items)) indices.now.items) }
    ensures long { IfOk result (λ v. length v.items ≡ length indices.now.items) }
    ensures picked { IfOk result (λ v. ArePicked (value_at T.value v.items) indices.now.items (length indices.now.items) (length reader.now.column.items) reader.now.column) }
{
    let mut picked = Vec::new(alloc);
    picked.resize(indices.len(), T::zero())?;
    take_all(alloc, reader, indices, &mut picked)?;
    Ok(picked)
}

/// Whether index `k` and the item that it names are not null.
fn is_there<I: NativePType>(
    reader: &Reader,
    validity: &Validity,
    indices: &Indices<I>,
    k: usize,
) -> bool
    requires validity { IsValidityOf validity.now reader.now.column }
    requires range { IsTrue (list_all (is_in_range (length reader.now.column.items)) indices.now.items) }
    requires within { k < length indices.now.items }
    ensures { result ≡ is_some (item_named reader.now.column.items (slice_index_or indices.now.items k None)) }
{
    match indices.position(k) {
        Some(position) => validity.is_valid(position, reader.len()),
        None => false,
    }
}

/// Whether no item and no index is null by the form of their validities.
fn are_full(validity: &Validity, nulls: &Validity) -> bool
    ensures { result ≡ (is_full validity.now && is_full nulls.now) }
{
    is_full(validity) && is_full(nulls)
}

/// Which of the items that the indices name are null.
fn named_validity<I: NativePType>(
    alloc: Global,
    reader: &Reader,
    validity: &Validity,
    indices: &Indices<I>,
) -> Result<Validity, FastLanesError>
    requires validity { IsValidityOf validity.now reader.now.column }
    requires range { IsTrue (list_all (is_in_range (length reader.now.column.items)) indices.now.items) }
    ensures validity { IfOk result (λ v. IsValidityOf v (take_of indices.now reader.now.column)) }
    ensures memory { IfErr result (λ e. e ≡ OutOfMemory) }
{
    let nulls = indices.validity();
    if are_full(validity, nulls) {
        let nullability = validity.nullability().or(nulls.nullability());
        return Ok(Validity::from(nullability));
    }
    let bits = BitList::from_fn(alloc, indices.len(), |k| {
        is_there(reader, validity, indices, k)
    })?;
    Ok(Validity::Array(bits))
}

fn take_typed<T: BitPacked + PhysicalPType + WrappingAdd, I: NativePType>(
    indices: &PrimitiveArray,
    alloc: Global,
    reader: &Reader,
    validity: &Validity,
) -> Result<PrimitiveArray, FastLanesError>
    requires typed { IsTrue (has_ptype T.PTYPE reader.now.column.dtype) }
    requires indices { indices.now.ptype ≡ I.PTYPE }
    requires validity { IsValidityOf validity.now reader.now.column }
    requires range { IsTrue (list_all (is_in_range (length reader.now.column.items)) (column_of_primitive indices.now).items) }
    ensures { Answers column_of_primitive result (Ok (take_of (column_of_primitive indices.now) reader.now.column)) }
{
    let indices = Indices::<I>::of(indices);
    let slots = picked_items::<T, I>(alloc, reader, &indices)?;
    let validity = named_validity(alloc, reader, validity, &indices)?;
    Ok(PrimitiveArray::new_unchecked(slots, validity))
}

/// The same, by the indices' integer type.
fn take_from<T: BitPacked + PhysicalPType + WrappingAdd>(
    indices: &PrimitiveArray,
    alloc: Global,
    reader: &Reader,
    validity: &Validity,
) -> Result<PrimitiveArray, FastLanesError>
    requires typed { IsTrue (has_ptype T.PTYPE reader.now.column.dtype) }
    requires validity { IsValidityOf validity.now reader.now.column }
    requires range { IsTrue (list_all (is_in_range (length reader.now.column.items)) (column_of_primitive indices.now).items) }
    ensures { Answers column_of_primitive result (Ok (take_of (column_of_primitive indices.now) reader.now.column)) }
{
    match_each_integer_ptype!(
        indices.ptype(),
        take_typed::<T>(indices, alloc, reader, validity)
    )
}

/// The same, by the column's integer type.
fn take_read(
    indices: &PrimitiveArray,
    alloc: Global,
    reader: &Reader,
    validity: &Validity,
    ptype: PType,
) -> Result<PrimitiveArray, FastLanesError>
    requires typed { IsTrue (has_ptype ptype reader.now.column.dtype) }
    requires validity { IsValidityOf validity.now reader.now.column }
    requires range { IsTrue (list_all (is_in_range (length reader.now.column.items)) (column_of_primitive indices.now).items) }
    ensures { Answers column_of_primitive result (Ok (take_of (column_of_primitive indices.now) reader.now.column)) }
{
    match_each_integer_ptype!(ptype, take_from(indices, alloc, reader, validity))
}

/// The items of an array that indices name, null where an index is null. All indices are tested before anything is read.
pub(crate) fn take(
    alloc: Global,
    array: &ArrayRef,
    indices: &PrimitiveArray,
) -> Result<PrimitiveArray, FastLanesError>
    ensures { Answers column_of_primitive result (take_column (column_of_primitive indices.now) (column array.now)) }
{
    let DType::Primitive(ptype, _) = array.dtype() else {
        return Err(FastLanesError::NotInteger);
    };
    if !are_in_range(indices, array.len()) {
        return Err(FastLanesError::IndexOutOfBounds);
    }
    let validity = array.validity(alloc)?;
    let reader = Reader::try_new(alloc, array)?;
    take_read(indices, alloc, &reader, &validity, ptype)
}
