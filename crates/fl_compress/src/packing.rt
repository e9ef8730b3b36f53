//! How many bytes an array takes when it is bit-packed, by its histograms. The contracts speak of any array of as many
//! slots, of the same type and validity, whose histograms these are: so that of differences need not be made.

ghost use Rattle.std.specs.Prelude.{◌≡◌, ◌*◌, ◌+◌, ◌<◌, ◌≤◌, ◌^◌, ℤ, List, [], ◌∷◌, length};
ghost use Rattle.fl_types.specs.Integers.{smallest_type};
ghost use Rattle.fl_patches.specs.PatchParts.{global_patches, patch_count};
ghost use Rattle.fl_encode.specs.declared.scheme.Packing.TheVariants.{BestWidth, BestWidths};
ghost use Rattle.fl_encode.specs.Shapes as shapes;
ghost use Rattle.fl_serde.specs.Leaves.{slots_size};
ghost use Rattle.fl_compress.specs.Candidates.{has_level, where_allowed};
ghost use Rattle.fl_compress.specs.Cheapest.{cheaper, cheapest};
ghost use Rattle.fl_compress.specs.Choices.{AreStatisticsOf, chosen_in, part_of, with_bytes, with_slots};
ghost use Rattle.fl_compress.specs.EncodedBytes.{bytes_at, bytes_of_count, bytes_packed, encoded_bytes};

use crate::choice::Choice;
use crate::limits::{Limits, has_level};
use crate::parts::{Part, len_of, ptype_of, validity_bytes_of};
use fl_column::{PType, PrimitiveArray, chunk_count};
use fl_encode::{Packing, Scheme};
use fl_serde::byte_counts::slots_size;
use fl_statistics::BitStatistics;

/// The bytes of `count` patches of an array, whose indices are of this type.
fn bytes_of_count(array: &PrimitiveArray, part: Part, index_type: PType, count: usize) -> u128
    ensures value { result ≡ bytes_of_count (part_of part array.now) index_type count }
    ensures few { result < 2 ^ 69 }
{
    if count == 0 {
        return 0;
    }
    let chunks = chunk_count(len_of(array, part));
    let values = slots_size(ptype_of(array, part), count);
    slots_size(index_type, count) + values + slots_size(PType::U64, chunks)
}

/// The bytes of an array at a width that leaves `count` patches.
fn bytes_at(array: &PrimitiveArray, part: Part, width: u8, count: usize) -> u128
    ensures value { (slots : List ℤ) → length slots ≡ length (part_of part array.now).slots → count ≡ patch_count (global_patches width (with_slots (part_of part array.now) slots)) → result ≡ bytes_at width (with_slots (part_of part array.now) slots) }
    ensures few { result < 2 ^ 78 }
{
    let len = len_of(array, part);
    let index_type = PType::min_unsigned_ptype_for_value((len as u64).saturating_add(1));
    let packed = 128 * width as u128 * chunk_count(len) as u128;
    let patches = bytes_of_count(array, part, index_type, count);
    packed + patches + validity_bytes_of(array, part)
}

/// The bytes at the width of least cost, if the array may be packed.
pub(crate) fn at_best_width(
    array: &PrimitiveArray,
    part: Part,
    statistics: &BitStatistics,
) -> Option<u128>
    ensures { (slots : List ℤ) → length slots ≡ length (part_of part array.now).slots → AreStatisticsOf statistics.now (with_slots (part_of part array.now) slots) → result ≡ encoded_bytes (with_slots (part_of part array.now) slots) (shapes.BitPacked BestWidth) }
{
    let width = statistics.width;
    if statistics.negative {
        return None;
    }
    if usize::from(width) >= ptype_of(array, part).bit_width() {
        return None;
    }
    Some(bytes_at(array, part, width, statistics.exceptions))
}

/// The bytes of the boundaries of so many blocks, whose widths have this sum.
fn boundaries_bytes(widths: usize, blocks: usize) -> u128
    requires { blocks < 2 ^ 60 }
    ensures value { result ≡ slots_size (smallest_type (128 * widths)) (blocks + 1) }
    ensures few { result < 2 ^ 67 }
{
    let size = (widths as u64).saturating_mul(128);
    slots_size(PType::min_unsigned_ptype_for_value(size), blocks + 1)
}

/// The bytes of an array whose blocks are packed at their widths of least cost.
fn bytes_of_blocks(array: &PrimitiveArray, part: Part, statistics: &BitStatistics) -> u128
    ensures { (slots : List ℤ) → length slots ≡ length (part_of part array.now).slots → AreStatisticsOf statistics.now (with_slots (part_of part array.now) slots) → result ≡ bytes_packed BestWidths (with_slots (part_of part array.now) slots) }
{
    let len = len_of(array, part);
    let _validity = array.validity();
    let size = 128 * statistics.block_widths as u128;
    let index_type = PType::min_unsigned_ptype_for_value(len as u64);
    let patches = bytes_of_count(array, part, index_type, statistics.block_exceptions);
    let validity = validity_bytes_of(array, part);
    size + patches + validity + boundaries_bytes(statistics.block_widths, chunk_count(len))
}

/// The bytes at a width of least cost for each block, if the array may be packed.
pub(crate) fn at_best_widths(
    array: &PrimitiveArray,
    part: Part,
    statistics: &BitStatistics,
) -> Option<u128>
    ensures { (slots : List ℤ) → length slots ≡ length (part_of part array.now).slots → AreStatisticsOf statistics.now (with_slots (part_of part array.now) slots) → result ≡ encoded_bytes (with_slots (part_of part array.now) slots) (shapes.BitPacked BestWidths) }
{
    let _validity = array.validity();
    if statistics.negative {
        return None;
    }
    if len_of(array, part) > 0 && statistics.all_native {
        return None;
    }
    Some(bytes_of_blocks(array, part, statistics))
}

/// The packing that takes fewer bytes, of those that may be packed: the best width where both take as many.
fn cheaper_packing(global: Option<u128>, blocked: Option<u128>) -> Option<Choice>
    ensures { chosen_in result ≡ cheaper (with_bytes (shapes.BitPacked BestWidth) global) (with_bytes (shapes.BitPacked BestWidths) blocked) }
{
    let (packing, bytes) = match (global, blocked) {
        (Some(global), Some(blocked)) if blocked < global => (Packing::BestWidths, blocked),
        (Some(global), _) => (Packing::BestWidth, global),
        (None, Some(blocked)) => (Packing::BestWidths, blocked),
        (None, None) => return None,
    };
    let scheme = Scheme::BitPacked(packing);
    Some(Choice { scheme, bytes })
}

/// The cheapest packing, if the array may be packed.
pub(crate) fn choose_packing(
    array: &PrimitiveArray,
    part: Part,
    statistics: &BitStatistics,
    limits: &Limits,
    depth: u8,
) -> Option<Choice>
    ensures { (slots : List ℤ) → length slots ≡ length (part_of part array.now).slots → AreStatisticsOf statistics.now (with_slots (part_of part array.now) slots) → chosen_in result ≡ cheapest (encoded_bytes (with_slots (part_of part array.now) slots)) (where_allowed (has_level limits.now.bitpacked depth) (shapes.BitPacked BestWidth ∷ shapes.BitPacked BestWidths ∷ [])) }
{
    if !has_level(limits.bitpacked, depth) {
        return None;
    }
    let global = at_best_width(array, part, statistics);
    let blocked = at_best_widths(array, part, statistics);
    cheaper_packing(global, blocked)
}
