//! Frames of reference: columns stored as differences from a reference, the minimum of the column or of
//! each chunk of 1024.

mod by_guess;
pub mod delta_leasts;
pub mod in_place;
pub mod single_items;
mod with_nulls;
mod without_nulls;

ghost use Rattle.std.specs.Prelude.{◌≡◌, ◌<◌, ◌≤◌, ◌+◌, ◌*◌, ◌%◌, ◌&&◌, ℕ, ℤ, min, OnOk, pos, IsTrue, IfOk, Ok, Some, None, length, map, option_map, unwrap_or, slice_index_or, is_none};
ghost use Rattle.std.specs.List.{list_all};
ghost use Rattle.fl_types.specs.Bits.{between, tabulate};
ghost use Rattle.fl_types.specs.Integers.{fits};
ghost use Rattle.fl_types.specs.Refusals.{Answers};
ghost use Rattle.fl_types.specs.Validities.{covers, items_of};
ghost use Rattle.fl_types.specs.Values.{integer_of, ptype_of_value};
ghost use Rattle.fl_codec.specs.Chunks.{chunk, chunks_of};
ghost use Rattle.fl_codec.specs.ForwardFill.{first_some};
ghost use Rattle.fl_codec.specs.FoRColumns.{chunk_leasts, chunk_references, chunked_slots, common_reference, least_by, least_valid, minus_reference, origin_of, reading, turned};
ghost use Rattle.fl_codec.specs.Parts.{Nulls, encode_chunked, encode_chunked_by, encode_global, encode_global_by, for_parts, global_parts, items_of_primitive, less_chunk_leasts, subtract_reference, null_constant, reference_scalar};

use crate::chunks::{chunk_count, chunk_end};
use crate::for_::by_guess::guess_least;
use crate::for_::without_nulls::least_of;
use crate::plain::{non_nullable, under_validity_of};
use fastlanes::FL_CHUNK_SIZE;
use fl_column::laws::stored_integers_are_in_range;
use fl_column::{ConstantArray, PrimitiveArray, chunk_of};
use fl_types::{
    FastLanesError, NativePType, Nullability, PType, PValue, Scalar, Validity, is_equal,
    match_each_integer_ptype,
};
use num_traits::WrappingSub;
use std::alloc::{AllocError, Global};

/// A column minus one reference.
#[derive(Drop)]
pub struct GlobalFoR {
    /// The differences, 0 under a null; the column's validity.
    pub child: PrimitiveArray,
    /// The reference, of a non-nullable type.
    pub reference: Scalar,
}

/// A column minus its references.
#[derive(Drop)]
pub enum EncodedFoR {
    /// All chunks have one reference.
    Global(GlobalFoR),
    /// The differences, 0 under a null, and the reference of each chunk of 1024, none of which may
    /// be null.
    Chunked(PrimitiveArray, PrimitiveArray),
    /// All items are null; the reference is 0.
    Nulls(ConstantArray, Scalar),
}

/// The order by which the minimum, the reference, is chosen.
#[derive(Clone, Copy, Debug, PartialEq, Eq)]
pub enum ItemOrder {
    /// That of the integers.
    Natural,
    /// That of the integers read as signed ones of as many bits: -1, which is the greatest integer of an unsigned
    /// type, stands below 0.
    Signed,
}

/// The sign bit of an unsigned type, 0 of a signed one.
fn sign_bit(ptype: PType) -> PValue
    ensures typed { ptype_of_value result ≡ ptype }
    ensures value { integer_of result ≡ origin_of ItemOrder.Signed ptype }
{
    match ptype {
        PType::U8 => PValue::U8(1 << 7),
        PType::U16 => PValue::U16(1 << 15),
        PType::U32 => PValue::U32(1 << 31),
        PType::U64 => PValue::U64(1 << 63),
        PType::I8 => PValue::I8(0),
        PType::I16 => PValue::I16(0),
        PType::I32 => PValue::I32(0),
        PType::I64 => PValue::I64(0),
    }
}

/// What is subtracted from integers so that their order becomes the natural one.
pub(crate) fn origin_of<T: NativePType>(order: ItemOrder) -> T
    ensures { T.value result ≡ origin_of order T.PTYPE }
{
    match order {
        ItemOrder::Natural => T::zero(),
        ItemOrder::Signed => T::from_pvalue(sign_bit(T::PTYPE)).unwrap(),
    }
}

/// An item minus an origin, modulo 2 to the type's bits. Nulls stay null.
pub(crate) fn turned<T: NativePType + WrappingSub>(item: Option<T>, origin: T) -> Option<T>
    ensures { option_map T.value result ≡ option_map (turned T.PTYPE (T.value origin)) (option_map T.value item) }
{
    match item {
        Some(item) => Some(item.wrapping_sub(&origin)),
        None => None,
    }
}

/// The minimum of the valid items from `start` to below `end`, each minus an origin.
fn least_turned_between<T: NativePType + WrappingSub>(
    items: &[T],
    validity: &Validity,
    start: usize,
    end: usize,
    origin: T,
) -> Option<T>
    requires covers { IsTrue (covers validity.now (length items.now)) }
    requires aligned { start % 64 ≡ 0 }
    requires order { start ≤ end }
    requires range { end ≤ length items.now }
    ensures { option_map T.value result ≡ least_valid (map (option_map (turned T.PTYPE (T.value origin))) (between start end (items_of validity.now (map T.value items.now)))) }
{
    match validity {
        Validity::NonNullable | Validity::AllValid => least_of(&items[start..end], origin),
        _ => with_nulls::least_between(items, validity, start, end, origin),
    }
}

/// The minimum of the valid items from `start` to below `end`.
fn least_between<T: NativePType + WrappingSub>(
    items: &[T],
    validity: &Validity,
    start: usize,
    end: usize,
    order: ItemOrder,
) -> Option<T>
    requires covers { IsTrue (covers validity.now (length items.now)) }
    requires fit { IsTrue (list_all (fits T.PTYPE) (map T.value items.now)) }
    requires aligned { start % 64 ≡ 0 }
    requires ends { start ≤ end }
    requires range { end ≤ length items.now }
    ensures { option_map T.value result ≡ least_by (reading order T.PTYPE) (between start end (items_of validity.now (map T.value items.now))) }
{
    let origin = origin_of(order);
    let least = least_turned_between(items, validity, start, end, origin);
    turned(least, origin)
}

/// The minimum of the valid items of chunk `k`.
fn least_in_chunk<T: NativePType + WrappingSub>(
    items: &[T],
    validity: &Validity,
    k: usize,
    order: ItemOrder,
) -> Option<T>
    requires covers { IsTrue (covers validity.now (length items.now)) }
    requires fit { IsTrue (list_all (fits T.PTYPE) (map T.value items.now)) }
    requires chunk { k < chunks_of (length items.now) }
    ensures { option_map T.value result ≡ least_by (reading order T.PTYPE) (chunk k (items_of validity.now (map T.value items.now))) }
{
    let end = chunk_end(k, items.len());
    least_between(items, validity, FL_CHUNK_SIZE * k, end, order)
}

/// The minimum of the valid items of the first chunk that has one.
fn first_least<T: NativePType + WrappingSub>(
    items: &[T],
    validity: &Validity,
    order: ItemOrder,
) -> Option<T>
    requires covers { IsTrue (covers validity.now (length items.now)) }
    requires fit { IsTrue (list_all (fits T.PTYPE) (map T.value items.now)) }
    ensures { option_map T.value result ≡ first_some (chunk_leasts (reading order T.PTYPE) (items_of validity.now (map T.value items.now))) }
{
    for k in 0..chunk_count(items.len()) {
        if let Some(least) = least_in_chunk(items, validity, k, order) {
            return Some(least);
        }
    }
    None
}

/// The reference of each chunk.
fn chunk_references<T: NativePType + WrappingSub>(
    alloc: Global,
    items: &[T],
    validity: &Validity,
    order: ItemOrder,
) -> Result<Vec<T>, AllocError>
    requires covers { IsTrue (covers validity.now (length items.now)) }
    requires fit { IsTrue (list_all (fits T.PTYPE) (map T.value items.now)) }
    ensures long { IfOk result (λ v. length v.items ≡ chunks_of (length items.now)) }
    ensures references { IfOk result (λ v. map T.value v.items ≡ chunk_references (reading order T.PTYPE) (items_of validity.now (map T.value items.now))) }
{
    let chunks = chunk_count(items.len());
    let mut references = Vec::with_capacity(alloc, chunks)?;
    let mut reference = first_least(items, validity, order).unwrap_or(T::zero());
    for k in 0..chunks {
        reference = least_in_chunk(items, validity, k, order).unwrap_or(reference);
        references.push(reference)?;
    }
    Ok(references)
}

/// The minimum of the valid items of a column by an order, if it has one: the reference of `encode_by`.
pub fn least_item<T: NativePType + WrappingSub>(
    array: &PrimitiveArray,
    order: ItemOrder,
) -> Option<T>
    requires { array.now.ptype ≡ T.PTYPE }
    ensures { option_map T.value result ≡ least_by (reading order array.now.ptype) (items_of_primitive array.now) }
{
    stored_integers_are_in_range(array);
    let items = array.as_slice::<T>();
    least_between(items, array.validity(), 0, items.len(), order)
}

/// The reference of each chunk of a column by an order: the minimum of the chunk's valid items. A chunk of nulls repeats
/// the reference before it, and the leading ones take that of the first chunk that has an item.
pub fn references_of<T: NativePType + WrappingSub>(
    alloc: Global,
    array: &PrimitiveArray,
    order: ItemOrder,
) -> Result<Vec<T>, AllocError>
    requires { array.now.ptype ≡ T.PTYPE }
    ensures { IfOk result (λ v. map T.value v.items ≡ chunk_references (reading order array.now.ptype) (items_of_primitive array.now)) }
{
    stored_integers_are_in_range(array);
    chunk_references(alloc, array.as_slice::<T>(), array.validity(), order)
}

/// The one reference that all of them are, 0 where there is none.
pub fn common_reference<T: NativePType>(references: &[T]) -> Option<T>
    ensures { option_map T.value result ≡ common_reference (map T.value references.now) }
{
    if references.len() == 0 {
        return Some(T::zero());
    }
    let first = references[0];
    for reference in references {
        if !is_equal(first, *reference) {
            return None;
        }
    }
    Some(first)
}

/// The slots of the items minus a reference.
fn differences<T: NativePType + WrappingSub>(
    alloc: Global,
    items: &[T],
    validity: &Validity,
    reference: T,
) -> Result<Vec<T>, AllocError>
    requires { IsTrue (covers validity.now (length items.now)) }
    ensures long { IfOk result (λ v. length v.items ≡ length items.now) }
    ensures slots { IfOk result (λ v. map T.value v.items ≡ map (minus_reference T.PTYPE (T.value reference)) (items_of validity.now (map T.value items.now))) }
{
    match validity {
        Validity::NonNullable | Validity::AllValid => {
            without_nulls::differences(alloc, items, reference)
        }
        _ => with_nulls::differences(alloc, items, validity, reference),
    }
}

/// Appends the slots of chunk `k`, each minus a reference, to those of the chunks before it.
fn push_chunk<T: NativePType + WrappingSub>(
    items: &[T],
    validity: &Validity,
    k: usize,
    reference: T,
    slots: &mut Vec<T>,
) -> Result<(), AllocError>
    requires covers { IsTrue (covers validity.now (length items.now)) }
    requires chunk { k < chunks_of (length items.now) }
    requires start { length slots.old.items ≡ 1024 * k }
    ensures { OnOk result ((slot : ℕ → ℤ) → ((i : ℕ) → 1024 * k ≤ i → i < min (1024 * (k + 1)) (length items.now) → slot i ≡ minus_reference T.PTYPE (T.value reference) (slice_index_or (items_of validity.now (map T.value items.now)) i None)) → map T.value slots.old.items ≡ tabulate slot (1024 * k) → map T.value slots.new.items ≡ tabulate slot (min (1024 * (k + 1)) (length items.now))) }
{
    match validity {
        Validity::NonNullable | Validity::AllValid => {
            without_nulls::push_differences(chunk_of(items, k), reference, slots)
        }
        _ => {
            let end = chunk_end(k, items.len());
            with_nulls::push_differences(items, validity, end, reference, slots)
        }
    }
}

/// The reference of each chunk, and the slots of the items, each minus the reference of its chunk. The slots of a chunk
/// are made while its items are in the cache.
fn less_leasts<T: NativePType + WrappingSub>(
    alloc: Global,
    items: &[T],
    validity: &Validity,
    order: ItemOrder,
) -> Result<(Vec<T>, Vec<T>), AllocError>
    requires covers { IsTrue (covers validity.now (length items.now)) }
    requires fit { IsTrue (list_all (fits T.PTYPE) (map T.value items.now)) }
    ensures references { IfOk result (λ r. map T.value r.0.items ≡ chunk_references (reading order T.PTYPE) (items_of validity.now (map T.value items.now))) }
    ensures slots { IfOk result (λ r. map T.value r.1.items ≡ chunked_slots T.PTYPE (chunk_references (reading order T.PTYPE) (items_of validity.now (map T.value items.now))) (items_of validity.now (map T.value items.now))) }
{
    let chunks = chunk_count(items.len());
    let mut references = Vec::with_capacity(alloc, chunks)?;
    let mut slots = Vec::with_capacity(alloc, items.len())?;
    let mut reference = first_least(items, validity, order).unwrap_or(T::zero());
    for k in 0..chunks {
        reference = least_in_chunk(items, validity, k, order).unwrap_or(reference);
        references.push(reference)?;
        push_chunk(items, validity, k, reference, &mut slots)?;
    }
    Ok((references, slots))
}

/// A column minus one reference, by its differences.
fn over_reference<T: NativePType>(child: PrimitiveArray, reference: T) -> GlobalFoR
    ensures { global_parts result ≡ record { child = child; reference = reference_scalar T.PTYPE (T.value reference) } }
{
    let reference = Scalar::primitive(reference.into_pvalue(), Nullability::NonNullable);
    GlobalFoR { child, reference }
}

/// The array minus one reference, by its differences.
fn over_differences<T: NativePType>(
    alloc: Global,
    array: &PrimitiveArray,
    slots: Vec<T>,
    reference: T,
) -> Result<GlobalFoR, FastLanesError>
    requires typed { array.now.ptype ≡ T.PTYPE }
    requires slots { map T.value slots.items ≡ map (minus_reference T.PTYPE (T.value reference)) (items_of_primitive array.now) }
    ensures { Answers global_parts result (Ok (subtract_reference array.now (T.value reference))) }
{
    let _validity = array.validity();
    let child = under_validity_of(alloc, array, slots)?;
    Ok(over_reference(child, reference))
}

/// The array minus one reference.
fn subtract_reference<T: NativePType + WrappingSub>(
    alloc: Global,
    array: &PrimitiveArray,
    reference: T,
) -> Result<GlobalFoR, FastLanesError>
    requires { array.now.ptype ≡ T.PTYPE }
    ensures { Answers global_parts result (Ok (subtract_reference array.now (T.value reference))) }
{
    let slots = differences(alloc, array.as_slice::<T>(), array.validity(), reference)?;
    over_differences(alloc, array, slots, reference)
}

/// The array minus its minimum by an order, in two passes.
fn encode_by_least<T: NativePType + WrappingSub>(
    alloc: Global,
    array: &PrimitiveArray,
    order: ItemOrder,
) -> Result<GlobalFoR, FastLanesError>
    requires { array.now.ptype ≡ T.PTYPE }
    ensures { Answers global_parts result (encode_global_by order array.now) }
{
    match least_item::<T>(array, order) {
        Some(least) => subtract_reference(alloc, array, least),
        None => Err(FastLanesError::NoMinimum),
    }
}

/// The array minus its minimum by an order, in one pass if that is what is guessed.
fn encode_by_guess<T: NativePType + WrappingSub>(
    alloc: Global,
    array: &PrimitiveArray,
    order: ItemOrder,
    guess: T,
) -> Result<GlobalFoR, FastLanesError>
    requires { array.now.ptype ≡ T.PTYPE }
    ensures { Answers global_parts result (encode_global_by order array.now) }
{
    stored_integers_are_in_range(array);
    let items = array.as_slice::<T>();
    match by_guess::differences(alloc, items, array.validity(), order, guess)? {
        Some(slots) => over_differences(alloc, array, slots, guess),
        None => encode_by_least::<T>(alloc, array, order),
    }
}

fn encode_typed<T: NativePType + WrappingSub>(
    alloc: Global,
    array: &PrimitiveArray,
    order: ItemOrder,
) -> Result<GlobalFoR, FastLanesError>
    requires { array.now.ptype ≡ T.PTYPE }
    ensures { Answers global_parts result (encode_global_by order array.now) }
{
    stored_integers_are_in_range(array);
    match guess_least(array.as_slice::<T>(), array.validity(), order) {
        Some(guess) => encode_by_guess(alloc, array, order, guess),
        None => encode_by_least::<T>(alloc, array, order),
    }
}

/// The column minus its minimum by an order.
///
/// # Errors
/// `NoMinimum` where the column has no valid item.
pub fn encode_by(
    alloc: Global,
    array: &PrimitiveArray,
    order: ItemOrder,
) -> Result<GlobalFoR, FastLanesError>
    ensures { Answers global_parts result (encode_global_by order array.now) }
{
    match_each_integer_ptype!(array.ptype(), encode_typed(alloc, array, order))
}

/// The column minus its minimum.
///
/// # Errors
/// `NoMinimum` where the column has no valid item.
pub fn encode(alloc: Global, array: &PrimitiveArray) -> Result<GlobalFoR, FastLanesError>
    ensures { Answers global_parts result (encode_global array.now) }
{
    encode_by(alloc, array, ItemOrder::Natural)
}

/// Whether every item is null.
pub fn are_nulls(array: &PrimitiveArray) -> bool
    ensures { result ≡ list_all is_none (items_of_primitive array.now) }
{
    let (validity, len) = (array.validity(), array.len());
    for i in 0..len {
        if validity.is_valid(i, len) {
            return false;
        }
    }
    true
}

/// The FoR of this many nulls: a constant null, and the reference 0.
fn nulls_typed<T: NativePType>(len: usize) -> EncodedFoR
    ensures { for_parts result ≡ Nulls (null_constant T.PTYPE len) (reference_scalar T.PTYPE (pos 0)) }
{
    let child = ConstantArray::new(Scalar::NullInteger(T::PTYPE), len).unwrap();
    let reference = Scalar::primitive(T::zero().into_pvalue(), Nullability::NonNullable);
    EncodedFoR::Nulls(child, reference)
}

fn encode_chunks<T: NativePType + WrappingSub>(
    alloc: Global,
    array: &PrimitiveArray,
    order: ItemOrder,
) -> Result<EncodedFoR, FastLanesError>
    requires { array.now.ptype ≡ T.PTYPE }
    ensures { Answers for_parts result (Ok (less_chunk_leasts order array.now)) }
{
    stored_integers_are_in_range(array);
    let items = array.as_slice::<T>();
    let (references, slots) = less_leasts(alloc, items, array.validity(), order)?;
    let child = under_validity_of(alloc, array, slots)?;
    match common_reference(&references) {
        Some(reference) => Ok(EncodedFoR::Global(over_reference(child, reference))),
        None => Ok(EncodedFoR::Chunked(child, non_nullable(references))),
    }
}

fn encode_chunked_typed<T: NativePType + WrappingSub>(
    alloc: Global,
    array: &PrimitiveArray,
    order: ItemOrder,
) -> Result<EncodedFoR, FastLanesError>
    requires { array.now.ptype ≡ T.PTYPE }
    ensures { Answers for_parts result (Ok (encode_chunked_by order array.now)) }
{
    let len = array.len();
    if len > 0 && are_nulls(array) {
        Ok(nulls_typed::<T>(len))
    } else {
        encode_chunks::<T>(alloc, array, order)
    }
}

/// The column minus the minimum of each chunk of 1024, by an order. A chunk of nulls repeats
/// the reference before it, and the leading ones take that of the first chunk that has an item.
///
/// Where all chunks have one reference, as in a column of one chunk, it is global; it is 0 in an
/// empty column. A column that has items, all of them null, becomes a constant null with the
/// reference 0.
pub fn encode_chunked_by(
    alloc: Global,
    array: &PrimitiveArray,
    order: ItemOrder,
) -> Result<EncodedFoR, FastLanesError>
    ensures { Answers for_parts result (Ok (encode_chunked_by order array.now)) }
{
    match_each_integer_ptype!(array.ptype(), encode_chunked_typed(alloc, array, order))
}

/// The column minus the minimum of each chunk of 1024, as `encode_chunked_by` makes it in the
/// natural order.
pub fn encode_chunked(alloc: Global, array: &PrimitiveArray) -> Result<EncodedFoR, FastLanesError>
    ensures { Answers for_parts result (Ok (encode_chunked array.now)) }
{
    encode_chunked_by(alloc, array, ItemOrder::Natural)
}
