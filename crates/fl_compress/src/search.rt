//! The search for the scheme by which an array takes fewest bytes, slot by slot. What takes no bytes ends it.

ghost use Rattle.std.specs.Prelude.{◌≡◌, ◌-◌, ◌<◌, ◌≤◌, ◌^◌, ℤ, List, [], ◌∷◌, IfOk, Ok, Some, map, option_map, true};
ghost use Rattle.fl_types.specs.Refusals.{Answers};
ghost use Rattle.fl_encode.specs.Shapes as shapes;
ghost use Rattle.fl_compress.specs.Candidates.{candidates, delta_schemes, framed_schemes, over_chunk_references, over_one_reference, packed_schemes, run_schemes, where_allowed};
ghost use Rattle.fl_codec.specs.FoRColumns.{chunk_references, chunked_slots, least_by, reading};
ghost use Rattle.fl_codec.specs.Parts.{items_of_primitive, non_nullable, subtract_reference};
ghost use Rattle.fl_serde.specs.ByteCounts.{primitive_bytes};
ghost use Rattle.fl_compress.specs.Cheapest.{cheaper, cheapest, combined};
ghost use Rattle.fl_compress.specs.Choices.{AreAll, CostsNoMore, HoldDifferences, chosen, chosen_in, or_frames, part_of, run_values_of, runs_of, two, with_slots};
ghost use Rattle.fl_compress.specs.EncodedBytes.{encoded_bytes};

use crate::choice::{self, Choice, RunValues, cheaper, plain};
use crate::limits::{Limits, has_level};
use crate::orders::are_orders_one;
use crate::packing::choose_packing;
use crate::parts::{
    Part, count_bits, count_bits_less, has_zero_leasts, is_all_null, is_constant, is_less_constant,
    leasts, plain_bytes, ptype_of,
};
use crate::single_runs::are_runs_single;
use crate::sorted::{are_items_distinct, are_sorted, dictionaries_of};
use fl_codec::delta::blocks::delta_bases;
use fl_codec::for_::{ItemOrder, common_reference};
use fl_codec::rle::{self, Runs};
use fl_column::laws::stored_integers_are_in_range;
use fl_column::{FastLanesError, PhysicalPType, PrimitiveArray};
use fl_encode::Scheme;
use fl_serde::byte_counts::validity_bytes;
use fl_statistics::bit_statistics;
use fl_types::{NativePType, is_equal, match_each_integer_ptype};
use num_traits::WrappingSub;
use std::alloc::Global;

/// A constant array, where one is allowed and all items are equal.
fn choose_constant(
    alloc: Global,
    array: &PrimitiveArray,
    part: Part,
    limits: &Limits,
) -> Result<Option<Choice>, FastLanesError>
    ensures { Answers chosen_in result (Ok (cheapest (encoded_bytes (part_of part array.now)) (where_allowed limits.now.constant (shapes.Constant ∷ [])))) }
{
    if !limits.constant {
        return Ok(None);
    }
    let equal = is_constant(alloc, array, part)?;
    if equal {
        let scheme = Scheme::Constant;
        return Ok(Some(Choice { scheme, bytes: 0 }));
    }
    Ok(None)
}

/// The cheaper of a plain and a constant array.
fn choose_whole(
    alloc: Global,
    array: &PrimitiveArray,
    part: Part,
    limits: &Limits,
) -> Result<Choice, FastLanesError>
    ensures choice { Answers chosen result (Ok (cheaper (Some (shapes.Primitive, primitive_bytes (part_of part array.now))) (cheapest (encoded_bytes (part_of part array.now)) (where_allowed limits.now.constant (shapes.Constant ∷ []))))) }
    ensures few { IfOk result (λ choice. choice.bytes < 2 ^ 68) }
{
    let constant = choose_constant(alloc, array, part, limits)?;
    Ok(cheaper(plain(plain_bytes(array, part)), constant))
}

/// The cheapest of a plain, a constant and a packed array. What takes no bytes needs no statistics, and neither
/// does what may not be packed.
fn choose_packed(
    alloc: Global,
    array: &PrimitiveArray,
    limits: &Limits,
    depth: u8,
) -> Result<Choice, FastLanesError>
    ensures choice { Answers chosen result (Ok (cheapest (encoded_bytes array.now) (packed_schemes limits.now depth))) }
    ensures few { IfOk result (λ choice. choice.bytes < 2 ^ 68) }
{
    let best = choose_whole(alloc, array, Part::Items, limits)?;
    if best.bytes == 0 {
        return Ok(best);
    }
    if !has_level(limits.bitpacked, depth) {
        return Ok(best);
    }
    let statistics = bit_statistics(array);
    let packing = choose_packing(array, Part::Items, &statistics, limits, depth);
    Ok(cheaper(best, packing))
}

/// A constant array of items minus the references of their blocks, where one is allowed and they are all equal.
fn choose_constant_differences<T: PhysicalPType + WrappingSub>(
    alloc: Global,
    array: &PrimitiveArray,
    part: Part,
    one: T,
    references: &[T],
    limits: &Limits,
) -> Result<Option<Choice>, FastLanesError>
    requires { (part_of part array.now).ptype ≡ T.PTYPE }
    ensures { (slots : List ℤ) → HoldDifferences slots (part_of part array.now) (T.value one) (map T.value references.now) → Answers chosen_in result (Ok (cheapest (encoded_bytes (with_slots (part_of part array.now) slots)) (where_allowed limits.now.constant (shapes.Constant ∷ [])))) }
{
    if !limits.constant {
        return Ok(None);
    }
    let equal = is_less_constant(alloc, array, part, one, references)?;
    if equal {
        let scheme = Scheme::Constant;
        return Ok(Some(Choice { scheme, bytes: 0 }));
    }
    Ok(None)
}

/// The cheaper of a plain and a constant array of the same.
fn choose_whole_differences<T: PhysicalPType + WrappingSub>(
    alloc: Global,
    array: &PrimitiveArray,
    part: Part,
    one: T,
    references: &[T],
    limits: &Limits,
) -> Result<Choice, FastLanesError>
    requires { (part_of part array.now).ptype ≡ T.PTYPE }
    ensures choice { (slots : List ℤ) → HoldDifferences slots (part_of part array.now) (T.value one) (map T.value references.now) → Answers chosen result (Ok (cheaper (Some (shapes.Primitive, primitive_bytes (with_slots (part_of part array.now) slots))) (cheapest (encoded_bytes (with_slots (part_of part array.now) slots)) (where_allowed limits.now.constant (shapes.Constant ∷ []))))) }
    ensures few { IfOk result (λ choice. choice.bytes < 2 ^ 68) }
{
    let constant = choose_constant_differences(alloc, array, part, one, references, limits)?;
    Ok(cheaper(plain(plain_bytes(array, part)), constant))
}

/// The cheapest of a plain, a constant and a packed array of items minus the references of their blocks. That array is not
/// made: its bits are counted straight from the array's items, or its deltas block by block.
fn choose_differences<T: PhysicalPType + WrappingSub>(
    alloc: Global,
    array: &PrimitiveArray,
    part: Part,
    one: T,
    references: &[T],
    limits: &Limits,
    depth: u8,
) -> Result<Choice, FastLanesError>
    requires { (part_of part array.now).ptype ≡ T.PTYPE }
    ensures choice { (slots : List ℤ) → HoldDifferences slots (part_of part array.now) (T.value one) (map T.value references.now) → Answers chosen result (Ok (cheapest (encoded_bytes (with_slots (part_of part array.now) slots)) (packed_schemes limits.now depth))) }
    ensures few { IfOk result (λ choice. choice.bytes < 2 ^ 68) }
{
    let best = choose_whole_differences(alloc, array, part, one, references, limits)?;
    if best.bytes == 0 {
        return Ok(best);
    }
    if !has_level(limits.bitpacked, depth) {
        return Ok(best);
    }
    let statistics = count_bits_less(alloc, array, part, one, references)?;
    let packing = choose_packing(array, part, &statistics, limits, depth);
    Ok(cheaper(best, packing))
}

/// The cheapest array of a FoR child over the items minus one reference.
fn choose_less_one<T: PhysicalPType + WrappingSub>(
    alloc: Global,
    array: &PrimitiveArray,
    part: Part,
    reference: T,
    limits: &Limits,
    depth: u8,
) -> Result<Choice, FastLanesError>
    requires { (part_of part array.now).ptype ≡ T.PTYPE }
    ensures choice { Answers chosen result (Ok (cheapest (encoded_bytes (subtract_reference (part_of part array.now) (T.value reference)).child) (packed_schemes limits.now depth))) }
    ensures few { IfOk result (λ choice. choice.bytes < 2 ^ 68) }
{
    let _validity = array.validity();
    let none: &[T] = &[];
    choose_differences(alloc, array, part, reference, none, limits, depth)
}

/// The cheapest array of a FoR child over the items less these references, one for each chunk.
fn choose_less_references<T: PhysicalPType + WrappingSub>(
    alloc: Global,
    array: &PrimitiveArray,
    part: Part,
    references: &[T],
    limits: &Limits,
    depth: u8,
) -> Result<Choice, FastLanesError>
    requires { (part_of part array.now).ptype ≡ T.PTYPE }
    ensures choice { Answers chosen result (Ok (cheapest (encoded_bytes (with_slots (part_of part array.now) (chunked_slots (part_of part array.now).ptype (map T.value references.now) (items_of_primitive (part_of part array.now))))) (packed_schemes limits.now depth))) }
    ensures few { IfOk result (λ choice. choice.bytes < 2 ^ 68) }
{
    let _validity = array.validity();
    choose_differences(alloc, array, part, T::zero(), references, limits, depth)
}

/// The cheaper of another choice, and of the cheapest FoR array of one reference by an order, which is the least item, if
/// one is valid. Less 0 the items are themselves, so nothing is cheaper than the other choice, which is at most a packed
/// array.
fn choose_one_reference<T: PhysicalPType + WrappingSub>(
    alloc: Global,
    array: &PrimitiveArray,
    part: Part,
    order: ItemOrder,
    least: Option<T>,
    limits: &Limits,
    depth: u8,
    first: Choice,
) -> Result<Choice, FastLanesError>
    requires same { (part_of part array.now).ptype ≡ T.PTYPE }
    requires least { option_map T.value least ≡ least_by (reading order (part_of part array.now).ptype) (items_of_primitive (part_of part array.now)) }
    requires first { CostsNoMore first.bytes (cheapest (encoded_bytes (part_of part array.now)) (packed_schemes limits.now depth)) }
    ensures choice { Answers chosen result (Ok (cheaper (chosen first) (cheapest (encoded_bytes (part_of part array.now)) (over_one_reference order (packed_schemes limits.now depth))))) }
    ensures most { IfOk result (λ choice. choice.bytes ≤ first.bytes) }
{
    stored_integers_are_in_range(array);
    let _validity = array.validity();
    match least {
        Some(reference) => {
            if is_equal(reference, T::zero()) {
                return Ok(first);
            }
            let child = choose_less_one(alloc, array, part, reference, limits, depth)?;
            let choice = choice::over_one_reference(alloc, order, child)?;
            Ok(cheaper(first, Some(choice)))
        }
        None => Ok(first),
    }
}

/// The cheapest FoR array over the items less the one reference that all chunks have. No scheme for it is better than
/// the first.
fn choose_common<T: PhysicalPType + WrappingSub>(
    alloc: Global,
    array: &PrimitiveArray,
    part: Part,
    order: ItemOrder,
    reference: T,
    limits: &Limits,
    depth: u8,
) -> Result<Choice, FastLanesError>
    requires { (part_of part array.now).ptype ≡ T.PTYPE }
    ensures { Answers chosen result (Ok (combined (shapes.FoRChunked order) (cheapest (encoded_bytes (subtract_reference (part_of part array.now) (T.value reference)).child) (packed_schemes limits.now depth)) (Some (shapes.Primitive, 0)))) }
{
    let child = choose_less_one(alloc, array, part, reference, limits, depth)?;
    choice::over_chunk_references(alloc, order, child, plain(0))
}

/// The cheapest FoR array over the items less these references, one for each chunk.
fn choose_by_chunk<T: PhysicalPType + WrappingSub>(
    alloc: Global,
    array: &PrimitiveArray,
    part: Part,
    order: ItemOrder,
    references: Vec<T>,
    limits: &Limits,
    depth: u8,
) -> Result<Choice, FastLanesError>
    requires { (part_of part array.now).ptype ≡ T.PTYPE }
    ensures { Answers chosen result (Ok (combined (shapes.FoRChunked order) (cheapest (encoded_bytes (with_slots (part_of part array.now) (chunked_slots (part_of part array.now).ptype (map T.value references.items) (items_of_primitive (part_of part array.now))))) (packed_schemes limits.now depth)) (cheapest (encoded_bytes (non_nullable (part_of part array.now).ptype (map T.value references.items))) (packed_schemes limits.now depth)))) }
{
    let child = choose_less_references(alloc, array, part, &references, limits, depth)?;
    let others = PrimitiveArray::non_nullable(references);
    let others = choose_packed(alloc, &others, limits, depth)?;
    choice::over_chunk_references(alloc, order, child, others)
}

/// The cheapest FoR array of a reference for each chunk by an order. Nulls alone are a constant, which takes no bytes.
fn choose_chunk_references<T: PhysicalPType + WrappingSub>(
    alloc: Global,
    array: &PrimitiveArray,
    part: Part,
    order: ItemOrder,
    references: Vec<T>,
    limits: &Limits,
    depth: u8,
) -> Result<Choice, FastLanesError>
    requires same { (part_of part array.now).ptype ≡ T.PTYPE }
    requires references { map T.value references.items ≡ chunk_references (reading order (part_of part array.now).ptype) (items_of_primitive (part_of part array.now)) }
    ensures { Answers chosen result (Ok (cheapest (encoded_bytes (part_of part array.now)) (over_chunk_references order (packed_schemes limits.now depth)))) }
{
    if is_all_null(array, part) {
        return choice::over_chunk_references(alloc, order, plain(0), plain(0));
    }
    match common_reference(&references) {
        Some(reference) => choose_common(alloc, array, part, order, reference, limits, depth),
        None => choose_by_chunk(alloc, array, part, order, references, limits, depth),
    }
}

/// Whether all references are the least item.
fn are_least<T: NativePType>(references: &[T], least: Option<T>) -> bool
    ensures { result ≡ true → AreAll (map T.value references.now) (option_map T.value least) }
{
    match (common_reference(references), least) {
        (Some(common), Some(least)) => is_equal(common, least),
        _ => false,
    }
}

fn choose_frames_typed<T: PhysicalPType + WrappingSub>(
    alloc: Global,
    array: &PrimitiveArray,
    part: Part,
    order: ItemOrder,
    limits: &Limits,
    depth: u8,
    first: Choice,
) -> Result<Choice, FastLanesError>
    requires same { (part_of part array.now).ptype ≡ T.PTYPE }
    requires first { CostsNoMore first.bytes (cheapest (encoded_bytes (part_of part array.now)) (packed_schemes limits.now depth)) }
    ensures choice { Answers chosen result (Ok (or_frames order (part_of part array.now) (packed_schemes limits.now depth) (chosen first))) }
    ensures most { IfOk result (λ choice. choice.bytes ≤ first.bytes) }
{
    let (references, least) = leasts::<T>(alloc, array, part, order)?;
    let one = choose_one_reference(alloc, array, part, order, least, limits, depth, first)?;
    if are_least(&references, least) {
        return Ok(one);
    }
    let many = choose_chunk_references(alloc, array, part, order, references, limits, depth)?;
    Ok(cheaper(one, Some(many)))
}

/// The cheapest of another choice, which is at most a packed array, and of FoR arrays by an order whose children are
/// packed. Where all chunks have one reference, their references find nothing cheaper than that, and where it is 0, neither
/// does that.
fn choose_frames(
    alloc: Global,
    array: &PrimitiveArray,
    part: Part,
    order: ItemOrder,
    limits: &Limits,
    depth: u8,
    first: Choice,
) -> Result<Choice, FastLanesError>
    requires { CostsNoMore first.bytes (cheapest (encoded_bytes (part_of part array.now)) (packed_schemes limits.now depth)) }
    ensures choice { Answers chosen result (Ok (or_frames order (part_of part array.now) (packed_schemes limits.now depth) (chosen first))) }
    ensures most { IfOk result (λ choice. choice.bytes ≤ first.bytes) }
{
    stored_integers_are_in_range(array);
    let _validity = array.validity();
    if has_zero_leasts(array, part, order) {
        return Ok(first);
    }
    match_each_integer_ptype!(
        ptype_of(array, part),
        choose_frames_typed(alloc, array, part, order, limits, depth, first)
    )
}

/// The cheapest of a packed array, and of FoR arrays whose children are packed. The bits of the items are counted
/// once. Wrapped references are tried where they differ from the least items.
fn choose_framed(
    alloc: Global,
    array: &PrimitiveArray,
    part: Part,
    limits: &Limits,
    depth: u8,
) -> Result<Choice, FastLanesError>
    ensures choice { Answers chosen result (Ok (cheapest (encoded_bytes (part_of part array.now)) (framed_schemes limits.now depth))) }
    ensures few { IfOk result (λ choice. choice.bytes < 2 ^ 68) }
{
    let whole = choose_whole(alloc, array, part, limits)?;
    if whole.bytes == 0 {
        return Ok(whole);
    }
    let statistics = count_bits(alloc, array, part)?;
    let packing = choose_packing(array, part, &statistics, limits, depth);
    let packed = cheaper(whole, packing);
    if packed.bytes == 0 {
        return Ok(packed);
    }
    if !has_level(limits.for_, depth) {
        return Ok(packed);
    }
    let natural = choose_frames(
        alloc,
        array,
        part,
        ItemOrder::Natural,
        limits,
        depth - 1,
        packed,
    )?;
    if are_orders_one(array, part, &statistics) {
        return Ok(natural);
    }
    choose_frames(
        alloc,
        array,
        part,
        ItemOrder::Signed,
        limits,
        depth - 1,
        natural,
    )
}

/// The cheapest of a framed array, and of a delta array whose deltas are framed and whose bases are framed or deltas in turn,
/// `nested` of them in one another. Of the deltas no list is made. Where they already take as many bytes, the bases are not
/// looked at.
fn choose_framed_or_deltas(
    alloc: Global,
    array: &PrimitiveArray,
    nested: u8,
    limits: &Limits,
    depth: u8,
) -> Result<Choice, FastLanesError>
    ensures choice { Answers chosen result (Ok (cheapest (encoded_bytes array.now) (delta_schemes nested limits.now depth))) }
    ensures few { IfOk result (λ choice. choice.bytes < 2 ^ 68) }
{
    let framed = choose_framed(alloc, array, Part::Items, limits, depth)?;
    if framed.bytes == 0 {
        return Ok(framed);
    }
    if nested == 0 {
        return Ok(framed);
    }
    if !has_level(limits.delta, depth) {
        return Ok(framed);
    }
    let own = validity_bytes(array.validity(), array.len());
    let deltas = choose_framed(alloc, array, Part::Deltas, limits, depth - 1)?;
    if framed.bytes <= deltas.bytes + own {
        return Ok(framed);
    }
    let bases = delta_bases(alloc, array)?;
    let chosen_bases = choose_framed_or_deltas(alloc, &bases, nested - 1, limits, depth - 1)?;
    let made = choice::over_deltas(alloc, chosen_bases, deltas, own)?;
    Ok(cheaper(framed, Some(made)))
}

/// The cheaper of another choice, and of the cheapest run-length encoded array over these parts. Where some of them already
/// take as many bytes, the others are not looked at.
fn choose_over_runs(
    alloc: Global,
    which: RunValues,
    runs: &Runs,
    limits: &Limits,
    depth: u8,
    first: Choice,
) -> Result<Choice, FastLanesError>
    ensures choice { Answers chosen result (Ok (cheaper (chosen first) (combined (runs_of (run_values_of which)) (cheapest (encoded_bytes runs.now.values) (delta_schemes 2 limits.now depth)) (combined two (cheapest (encoded_bytes runs.now.indices) (delta_schemes 2 limits.now depth)) (cheapest (encoded_bytes runs.now.offsets) (framed_schemes limits.now depth)))))) }
    ensures most { IfOk result (λ choice. choice.bytes ≤ first.bytes) }
{
    let indices = choose_framed_or_deltas(alloc, &runs.indices, 2, limits, depth)?;
    if first.bytes <= indices.bytes {
        return Ok(first);
    }
    let offsets = choose_framed(alloc, &runs.offsets, Part::Items, limits, depth)?;
    if first.bytes <= indices.bytes + offsets.bytes {
        return Ok(first);
    }
    let values = choose_framed_or_deltas(alloc, &runs.values, 2, limits, depth)?;
    let made = choice::over_runs(alloc, which, values, indices, offsets)?;
    Ok(cheaper(first, Some(made)))
}

/// The cheaper of another choice, which takes no more bytes than framed arrays and deltas of a level less, and of the cheapest
/// run-length encoded array of runs, where they are allowed. Where each item begins a run, the run values are the array
/// itself: runs are not tried then.
fn choose_with_runs(
    alloc: Global,
    array: &PrimitiveArray,
    limits: &Limits,
    first: Choice,
) -> Result<Choice, FastLanesError>
    requires { CostsNoMore first.bytes (cheapest (encoded_bytes array.now) (delta_schemes 2 limits.now (limits.now.depth - 1))) }
    ensures choice { Answers chosen result (Ok (cheaper (chosen first) (cheapest (encoded_bytes array.now) (run_schemes shapes.Runs limits.now.rle limits.now limits.now.depth)))) }
    ensures most { IfOk result (λ choice. choice.bytes ≤ first.bytes) }
{
    if !has_level(limits.rle, limits.depth) {
        return Ok(first);
    }
    if are_runs_single(array) {
        return Ok(first);
    }
    let runs = rle::encode(alloc, array)?;
    choose_over_runs(
        alloc,
        RunValues::Runs,
        &runs,
        limits,
        limits.depth - 1,
        first,
    )
}

/// The cheaper of another choice, which takes no more bytes than framed arrays and deltas of a level less, and no more than runs,
/// and of the cheapest run-length encoded array of dictionaries, where they are allowed. Where the distinct items are the array
/// itself, or the dictionaries are the runs, dictionaries are not tried.
fn choose_with_dictionaries(
    alloc: Global,
    array: &PrimitiveArray,
    limits: &Limits,
    first: Choice,
) -> Result<Choice, FastLanesError>
    requires deltas { CostsNoMore first.bytes (cheapest (encoded_bytes array.now) (delta_schemes 2 limits.now (limits.now.depth - 1))) }
    requires runs { CostsNoMore first.bytes (cheapest (encoded_bytes array.now) (run_schemes shapes.Runs limits.now.rle limits.now limits.now.depth)) }
    ensures { Answers chosen result (Ok (cheaper (chosen first) (cheapest (encoded_bytes array.now) (run_schemes shapes.Dictionary limits.now.dict limits.now limits.now.depth)))) }
{
    if !has_level(limits.dict, limits.depth) {
        return Ok(first);
    }
    if are_items_distinct(array) {
        return Ok(first);
    }
    if limits.rle && are_sorted(array) {
        return Ok(first);
    }
    let runs = dictionaries_of(alloc, array)?;
    choose_over_runs(
        alloc,
        RunValues::Dictionary,
        &runs,
        limits,
        limits.depth - 1,
        first,
    )
}

/// The first scheme of the candidates by which the array takes fewest bytes, and these.
pub(crate) fn choose(
    alloc: Global,
    array: &PrimitiveArray,
    limits: &Limits,
) -> Result<Choice, FastLanesError>
    ensures { Answers chosen result (Ok (cheapest (encoded_bytes array.now) (candidates limits.now))) }
{
    let best = choose_framed_or_deltas(alloc, array, 2, limits, limits.depth)?;
    if best.bytes == 0 {
        return Ok(best);
    }
    let with_runs = choose_with_runs(alloc, array, limits, best)?;
    choose_with_dictionaries(alloc, array, limits, with_runs)
}
