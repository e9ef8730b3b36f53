//! How many bytes an array takes by each candidate, before it is encoded.

ghost use Rattle.std.specs.Prelude.{◌≡◌, ℤ, List, Ok, map, option_map};
ghost use Rattle.fl_types.specs.Refusals.{Answers};
ghost use Rattle.fl_codec.specs.FoRColumns.{chunk_references, chunked_slots, least_by, reading};
ghost use Rattle.fl_codec.specs.Parts.{items_of_primitive, less_references, run_parts, subtract_reference};
ghost use Rattle.fl_compress.specs.Choices.{HoldDifferences, part_of, with_slots};
ghost use Rattle.fl_compress.specs.Statistics.{base_sizes, chunk_sizes, delta_sizes, frame_sizes, framed_sizes, packed_sizes, run_sizes, statistics_of};

use crate::packing::{at_best_width, at_best_widths};
use crate::parts::{
    Part, count_bits, count_bits_less, is_all_null, is_constant, is_less_constant, leasts,
    plain_bytes, ptype_of,
};
use crate::sorted::dictionaries_of;
use fl_codec::delta::blocks::delta_bases;
use fl_codec::for_::{ItemOrder, common_reference};
use fl_codec::rle::{self, Runs};
use fl_column::{FastLanesError, PhysicalPType, PrimitiveArray};
use fl_serde::byte_counts::validity_bytes;
use fl_types::match_each_integer_ptype;
use num_traits::WrappingSub;
use std::alloc::Global;

/// The bytes of an array by each packed scheme.
#[derive(Clone, Copy)]
pub struct PackedSizes {
    /// As it is.
    pub plain: u128,
    /// Whether all items are equal, so that it may be constant, which takes none.
    pub is_constant: bool,
    /// Bit-packed at the best width, if it may be.
    pub best_width: Option<u128>,
    /// Bit-packed at a best width for each block, if it may be.
    pub best_widths: Option<u128>,
}

/// The bytes of the children of a FoR array with a reference for each chunk.
#[derive(Clone, Copy)]
pub enum ChunkSizes {
    /// All references are equal: those of the differences.
    Whole(PackedSizes),
    /// Those of the differences, and those of the references.
    ByChunk(PackedSizes, PackedSizes),
    /// There are nulls alone, which are a constant.
    Nulls,
}

/// The bytes of the children of FoR arrays.
#[derive(Clone, Copy)]
pub struct FrameSizes {
    /// With one reference, if an item is valid.
    pub one: Option<PackedSizes>,
    /// With a reference for each chunk.
    pub chunks: ChunkSizes,
}

/// The bytes of an array by each packed scheme, and those of the children of its FoR arrays.
#[derive(Clone, Copy)]
pub struct FramedSizes {
    /// As it is.
    pub packed: PackedSizes,
    /// Less references that are least items.
    pub natural: FrameSizes,
    /// Less references that are least items, read as signed.
    pub signed: FrameSizes,
}

/// The same of bases, and those of the parts of their delta array.
#[derive(Clone, Copy)]
pub struct BaseSizes {
    /// As they are.
    pub framed: FramedSizes,
    /// Their bases.
    pub bases: FramedSizes,
    /// Their deltas.
    pub deltas: FramedSizes,
    /// The bytes of the validity.
    pub validity: u128,
}

/// The same of an array, and those of the parts of its delta array.
#[derive(Clone, Copy)]
pub struct DeltaSizes {
    /// As it is.
    pub framed: FramedSizes,
    /// Its bases.
    pub bases: BaseSizes,
    /// Its deltas.
    pub deltas: FramedSizes,
    /// The bytes of its validity.
    pub validity: u128,
}

/// The bytes of the parts of a run-length encoded array.
#[derive(Clone, Copy)]
pub struct RunSizes {
    /// The run values, or the distinct items of each chunk.
    pub values: DeltaSizes,
    /// The index of each item.
    pub indices: DeltaSizes,
    /// The number of values before each chunk.
    pub offsets: FramedSizes,
}

/// Statistics of an array, of which `size_of` computes the bytes of each candidate.
#[derive(Clone, Copy)]
pub struct Statistics {
    /// As it is.
    pub items: DeltaSizes,
    /// Its runs.
    pub runs: RunSizes,
    /// A dictionary for each chunk.
    pub dictionaries: RunSizes,
}

/// The bytes of a part by each packed scheme. Its bits are counted once.
fn packed_sizes(
    alloc: Global,
    array: &PrimitiveArray,
    part: Part,
) -> Result<PackedSizes, FastLanesError>
    ensures { Answers (λ sizes. sizes) result (Ok (packed_sizes (part_of part array.now))) }
{
    let equal = is_constant(alloc, array, part)?;
    let statistics = count_bits(alloc, array, part)?;
    Ok(PackedSizes {
        plain: plain_bytes(array, part),
        is_constant: equal,
        best_width: at_best_width(array, part, &statistics),
        best_widths: at_best_widths(array, part, &statistics),
    })
}

/// The bytes of a part minus the references of its blocks, `one` where the list has none, by each packed scheme. The
/// differences are counted straight from the part.
fn difference_sizes<T: PhysicalPType + WrappingSub>(
    alloc: Global,
    array: &PrimitiveArray,
    part: Part,
    one: T,
    references: &[T],
) -> Result<PackedSizes, FastLanesError>
    requires { (part_of part array.now).ptype ≡ T.PTYPE }
    ensures { (slots : List ℤ) → HoldDifferences slots (part_of part array.now) (T.value one) (map T.value references.now) → Answers (λ sizes. sizes) result (Ok (packed_sizes (with_slots (part_of part array.now) slots))) }
{
    let equal = is_less_constant(alloc, array, part, one, references)?;
    let statistics = count_bits_less(alloc, array, part, one, references)?;
    Ok(PackedSizes {
        plain: plain_bytes(array, part),
        is_constant: equal,
        best_width: at_best_width(array, part, &statistics),
        best_widths: at_best_widths(array, part, &statistics),
    })
}

/// The bytes of the differences from one reference.
fn sizes_less_one<T: PhysicalPType + WrappingSub>(
    alloc: Global,
    array: &PrimitiveArray,
    part: Part,
    reference: T,
) -> Result<PackedSizes, FastLanesError>
    requires { (part_of part array.now).ptype ≡ T.PTYPE }
    ensures { Answers (λ sizes. sizes) result (Ok (packed_sizes (subtract_reference (part_of part array.now) (T.value reference)).child)) }
{
    let _validity = array.validity();
    difference_sizes(alloc, array, part, reference, &[])
}

/// The bytes of the differences from these references, one for each chunk.
fn sizes_less_references<T: PhysicalPType + WrappingSub>(
    alloc: Global,
    array: &PrimitiveArray,
    part: Part,
    references: &[T],
) -> Result<PackedSizes, FastLanesError>
    requires { (part_of part array.now).ptype ≡ T.PTYPE }
    ensures { Answers (λ sizes. sizes) result (Ok (packed_sizes (with_slots (part_of part array.now) (chunked_slots (part_of part array.now).ptype (map T.value references.now) (items_of_primitive (part_of part array.now)))))) }
{
    let _validity = array.validity();
    difference_sizes(alloc, array, part, T::zero(), references)
}

/// The bytes of the differences from one reference, which is the least item, if one is valid.
fn one_reference<T: PhysicalPType + WrappingSub>(
    alloc: Global,
    array: &PrimitiveArray,
    part: Part,
    order: ItemOrder,
    least: Option<T>,
) -> Result<Option<PackedSizes>, FastLanesError>
    requires same { (part_of part array.now).ptype ≡ T.PTYPE }
    requires least { option_map T.value least ≡ least_by (reading order (part_of part array.now).ptype) (items_of_primitive (part_of part array.now)) }
    ensures { Answers (λ sizes. sizes) result (Ok (frame_sizes order (part_of part array.now)).one) }
{
    let _order = order;
    match least {
        Some(reference) => {
            let sizes = sizes_less_one(alloc, array, part, reference)?;
            Ok(Some(sizes))
        }
        None => Ok(None),
    }
}

/// The bytes of the differences from these references, one for each chunk, and of these.
fn by_chunk<T: PhysicalPType + WrappingSub>(
    alloc: Global,
    array: &PrimitiveArray,
    part: Part,
    references: Vec<T>,
) -> Result<ChunkSizes, FastLanesError>
    requires { (part_of part array.now).ptype ≡ T.PTYPE }
    ensures { Answers (λ sizes. sizes) result (Ok (chunk_sizes (less_references (part_of part array.now) (map T.value references.items)))) }
{
    let sizes = sizes_less_references(alloc, array, part, &references)?;
    let others = PrimitiveArray::non_nullable(references);
    let others = packed_sizes(alloc, &others, Part::Items)?;
    Ok(ChunkSizes::ByChunk(sizes, others))
}

/// The bytes of the differences from a reference for each chunk, and of these.
fn of_references<T: PhysicalPType + WrappingSub>(
    alloc: Global,
    array: &PrimitiveArray,
    part: Part,
    order: ItemOrder,
    references: Vec<T>,
) -> Result<ChunkSizes, FastLanesError>
    requires same { (part_of part array.now).ptype ≡ T.PTYPE }
    requires references { map T.value references.items ≡ chunk_references (reading order (part_of part array.now).ptype) (items_of_primitive (part_of part array.now)) }
    ensures { Answers (λ sizes. sizes) result (Ok (frame_sizes order (part_of part array.now)).chunks) }
{
    let _order = order;
    if is_all_null(array, part) {
        return Ok(ChunkSizes::Nulls);
    }
    match common_reference(&references) {
        Some(reference) => {
            let sizes = sizes_less_one(alloc, array, part, reference)?;
            Ok(ChunkSizes::Whole(sizes))
        }
        None => by_chunk(alloc, array, part, references),
    }
}

fn frame_sizes_typed<T: PhysicalPType + WrappingSub>(
    alloc: Global,
    array: &PrimitiveArray,
    part: Part,
    order: ItemOrder,
) -> Result<FrameSizes, FastLanesError>
    requires { (part_of part array.now).ptype ≡ T.PTYPE }
    ensures { Answers (λ sizes. sizes) result (Ok (frame_sizes order (part_of part array.now))) }
{
    let (references, least) = leasts::<T>(alloc, array, part, order)?;
    let one = one_reference(alloc, array, part, order, least)?;
    let chunks = of_references(alloc, array, part, order, references)?;
    Ok(FrameSizes { one, chunks })
}

fn frame_sizes(
    alloc: Global,
    array: &PrimitiveArray,
    part: Part,
    order: ItemOrder,
) -> Result<FrameSizes, FastLanesError>
    ensures { Answers (λ sizes. sizes) result (Ok (frame_sizes order (part_of part array.now))) }
{
    match_each_integer_ptype!(
        ptype_of(array, part),
        frame_sizes_typed(alloc, array, part, order)
    )
}

fn framed_sizes(
    alloc: Global,
    array: &PrimitiveArray,
    part: Part,
) -> Result<FramedSizes, FastLanesError>
    ensures { Answers (λ sizes. sizes) result (Ok (framed_sizes (part_of part array.now))) }
{
    let packed = packed_sizes(alloc, array, part)?;
    let natural = frame_sizes(alloc, array, part, ItemOrder::Natural)?;
    let signed = frame_sizes(alloc, array, part, ItemOrder::Signed)?;
    Ok(FramedSizes {
        packed,
        natural,
        signed,
    })
}

fn base_sizes(alloc: Global, array: &PrimitiveArray) -> Result<BaseSizes, FastLanesError>
    ensures { Answers (λ sizes. sizes) result (Ok (base_sizes array.now)) }
{
    let framed = framed_sizes(alloc, array, Part::Items)?;
    let bases = delta_bases(alloc, array)?;
    let bases = framed_sizes(alloc, &bases, Part::Items)?;
    let deltas = framed_sizes(alloc, array, Part::Deltas)?;
    let validity = validity_bytes(array.validity(), array.len());
    Ok(BaseSizes {
        framed,
        bases,
        deltas,
        validity,
    })
}

fn delta_sizes(alloc: Global, array: &PrimitiveArray) -> Result<DeltaSizes, FastLanesError>
    ensures { Answers (λ sizes. sizes) result (Ok (delta_sizes array.now)) }
{
    let framed = framed_sizes(alloc, array, Part::Items)?;
    let bases = delta_bases(alloc, array)?;
    let bases = base_sizes(alloc, &bases)?;
    let deltas = framed_sizes(alloc, array, Part::Deltas)?;
    let validity = validity_bytes(array.validity(), array.len());
    Ok(DeltaSizes {
        framed,
        bases,
        deltas,
        validity,
    })
}

fn run_sizes(alloc: Global, runs: &Runs) -> Result<RunSizes, FastLanesError>
    ensures { Answers (λ sizes. sizes) result (Ok (run_sizes (run_parts runs.now))) }
{
    let values = delta_sizes(alloc, &runs.values)?;
    let indices = delta_sizes(alloc, &runs.indices)?;
    let offsets = framed_sizes(alloc, &runs.offsets, Part::Items)?;
    Ok(RunSizes {
        values,
        indices,
        offsets,
    })
}

/// The statistics of an array. Deltas and differences are counted chunk by chunk and none is kept; only bases, runs and
/// dictionaries are made.
///
/// # Errors
/// Only `OutOfMemory`.
pub fn statistics_of(alloc: Global, array: &PrimitiveArray) -> Result<Statistics, FastLanesError>
    ensures { Answers (λ statistics. statistics) result (Ok (statistics_of array.now)) }
{
    let items = delta_sizes(alloc, array)?;
    let runs = rle::encode(alloc, array)?;
    let runs = run_sizes(alloc, &runs)?;
    let dictionaries = dictionaries_of(alloc, array)?;
    let dictionaries = run_sizes(alloc, &dictionaries)?;
    Ok(Statistics {
        items,
        runs,
        dictionaries,
    })
}
