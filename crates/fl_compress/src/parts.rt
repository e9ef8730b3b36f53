//! What is sought a scheme for: the items of an array, or its deltas, of which no list is made. Each query is answered from
//! the array.

ghost use Rattle.std.specs.Prelude.{◌≡◌, ◌<◌, ◌^◌, ◌&&◌, IfErr, IfOk, Ok, is_none, length, map, nat_lt, option_map, true};
ghost use Rattle.std.specs.List.{list_all};
ghost use Rattle.fl_types.specs.declared.error.FastLanesError.TheVariants.{OutOfMemory};
ghost use Rattle.fl_types.specs.Refusals.{Answers};
ghost use Rattle.fl_types.specs.Validities.{items_of};
ghost use Rattle.fl_column.specs.Queries.{are_constant};
ghost use Rattle.fl_statistics.specs.BitStatistics.{bit_statistics};
ghost use Rattle.fl_statistics.specs.Differences.{less_references};
ghost use Rattle.fl_codec.specs.FoRColumns.{chunk_references, least_by, reading};
ghost use Rattle.fl_codec.specs.declared.for_.ItemOrder.TheVariants.{Natural};
ghost use Rattle.fl_codec.specs.Parts.{compress_deltas, items_of_primitive};
ghost use Rattle.fl_serde.specs.ByteCounts.{primitive_bytes, validity_bytes};
ghost use Rattle.fl_compress.specs.Choices.{HasZeroLeasts, part_of};

use fl_codec::for_::delta_leasts::delta_leasts;
use fl_codec::for_::{ItemOrder, are_nulls, least_item, references_of};
use fl_column::{FastLanesError, PType, PhysicalPType, PrimitiveArray};
use fl_serde::byte_counts::{slots_size, validity_bytes};
use fl_statistics::{
    BitStatistics, bit_statistics, bit_statistics_less, delta_count, delta_statistics,
    delta_statistics_less, is_constant_less, is_delta_constant, is_delta_constant_less,
};
use num_traits::WrappingSub;
use std::alloc::Global;

/// What of an array is encoded.
#[derive(Clone, Copy)]
pub(crate) enum Part {
    /// Its items.
    Items,
    /// Its deltas, as `delta_compress` makes them.
    Deltas,
}

/// The type of the items.
pub(crate) fn ptype_of(array: &PrimitiveArray, part: Part) -> PType
    ensures { result ≡ (part_of part array.now).ptype }
{
    match part {
        Part::Items | Part::Deltas => array.ptype(),
    }
}

/// How many items there are.
pub(crate) fn len_of(array: &PrimitiveArray, part: Part) -> usize
    ensures { result ≡ length (part_of part array.now).slots }
{
    match part {
        Part::Items => array.len(),
        Part::Deltas => delta_count(array),
    }
}

/// The bytes of the validity, of which deltas have none.
pub(crate) fn validity_bytes_of(array: &PrimitiveArray, part: Part) -> u128
    ensures value { result ≡ validity_bytes (length (part_of part array.now).slots) (part_of part array.now).validity }
    ensures few { result < 2 ^ 64 }
{
    match part {
        Part::Items => validity_bytes(array.validity(), array.len()),
        Part::Deltas => 0,
    }
}

/// The bytes of a plain array of the items.
pub(crate) fn plain_bytes(array: &PrimitiveArray, part: Part) -> u128
    ensures value { result ≡ primitive_bytes (part_of part array.now) }
    ensures few { result < 2 ^ 68 }
{
    slots_size(ptype_of(array, part), len_of(array, part)) + validity_bytes_of(array, part)
}

/// Whether there are items, and all of them are null.
pub(crate) fn is_all_null(array: &PrimitiveArray, part: Part) -> bool
    ensures { result ≡ (nat_lt 0 (length (part_of part array.now).slots) && list_all is_none (items_of_primitive (part_of part array.now))) }
{
    match part {
        Part::Items => array.len() > 0 && are_nulls(array),
        Part::Deltas => false,
    }
}

/// Whether all items are equal.
pub(crate) fn is_constant(
    alloc: Global,
    array: &PrimitiveArray,
    part: Part,
) -> Result<bool, FastLanesError>
    ensures { Answers (λ b. b) result (Ok (are_constant (items_of_primitive (part_of part array.now)))) }
{
    match part {
        Part::Items => Ok(array.is_constant()),
        Part::Deltas => Ok(is_delta_constant(alloc, array)?),
    }
}

/// What the bits of the items say of packing them.
pub(crate) fn count_bits(
    alloc: Global,
    array: &PrimitiveArray,
    part: Part,
) -> Result<BitStatistics, FastLanesError>
    ensures { Answers (λ s. s) result (Ok (bit_statistics (part_of part array.now).ptype (items_of_primitive (part_of part array.now)))) }
{
    match part {
        Part::Items => Ok(bit_statistics(array)),
        Part::Deltas => Ok(delta_statistics(alloc, array)?),
    }
}

/// Whether the items minus the references of their blocks, `one` where the list has none, are all equal.
pub(crate) fn is_less_constant<T: PhysicalPType + WrappingSub>(
    alloc: Global,
    array: &PrimitiveArray,
    part: Part,
    one: T,
    references: &[T],
) -> Result<bool, FastLanesError>
    requires { (part_of part array.now).ptype ≡ T.PTYPE }
    ensures { Answers (λ b. b) result (Ok (are_constant (less_references (part_of part array.now).ptype (T.value one) (map T.value references.now) (items_of_primitive (part_of part array.now))))) }
{
    match part {
        Part::Items => Ok(is_constant_less(array, one, references)),
        Part::Deltas => Ok(is_delta_constant_less(alloc, array, one, references)?),
    }
}

/// What the bits of the items minus the references of their blocks, `one` where the list has none, say of packing them.
pub(crate) fn count_bits_less<T: PhysicalPType + WrappingSub>(
    alloc: Global,
    array: &PrimitiveArray,
    part: Part,
    one: T,
    references: &[T],
) -> Result<BitStatistics, FastLanesError>
    requires { (part_of part array.now).ptype ≡ T.PTYPE }
    ensures { Answers (λ s. s) result (Ok (bit_statistics (part_of part array.now).ptype (less_references (part_of part array.now).ptype (T.value one) (map T.value references.now) (items_of_primitive (part_of part array.now))))) }
{
    match part {
        Part::Items => Ok(bit_statistics_less(array, one, references)),
        Part::Deltas => Ok(delta_statistics_less(alloc, array, one, references)?),
    }
}

/// The references of the chunks by an order, and the least item, if one is valid.
pub(crate) fn leasts<T: PhysicalPType + WrappingSub>(
    alloc: Global,
    array: &PrimitiveArray,
    part: Part,
    order: ItemOrder,
) -> Result<(Vec<T>, Option<T>), FastLanesError>
    requires { (part_of part array.now).ptype ≡ T.PTYPE }
    ensures memory { IfErr result (λ e. e ≡ OutOfMemory) }
    ensures references { IfOk result (λ leasts. map T.value leasts.0.items ≡ chunk_references (reading order (part_of part array.now).ptype) (items_of_primitive (part_of part array.now))) }
    ensures least { IfOk result (λ leasts. option_map T.value leasts.1 ≡ least_by (reading order (part_of part array.now).ptype) (items_of_primitive (part_of part array.now))) }
{
    match part {
        Part::Items => {
            let references = references_of(alloc, array, order)?;
            Ok((references, least_item(array, order)))
        }
        Part::Deltas => Ok(delta_leasts(alloc, array, order)?),
    }
}

/// Whether each chunk of the deltas begins with 0, and none is below it, as none is in an unsigned type.
fn have_deltas_zero_leasts(array: &PrimitiveArray) -> bool
    ensures { result ≡ true → HasZeroLeasts Natural (compress_deltas array.now).1 }
{
    let _validity = array.validity();
    if array.len() == 0 {
        return false;
    }
    array.ptype().is_unsigned()
}

/// Whether 0 is the least item by an order, and the reference of each chunk, as is known without a look at them. No frame of
/// reference is cheaper then.
pub(crate) fn has_zero_leasts(array: &PrimitiveArray, part: Part, order: ItemOrder) -> bool
    ensures { result ≡ true → HasZeroLeasts order (part_of part array.now) }
{
    match (part, order) {
        (Part::Deltas, ItemOrder::Natural) => have_deltas_zero_leasts(array),
        _ => false,
    }
}
