//! Packing integers into words of their own type.

ghost use Rattle.std.specs.Prelude.{◌≡◌, ◌+◌, ◌*◌, ◌<◌, ◌≤◌, ℕ, IfErr, IfOk, OnOk, length, map};
ghost use Rattle.fastlanes.specs.Layout.{Packed};
ghost use Rattle.fl_types.specs.Integers.{bits_of_type};
ghost use Rattle.fl_types.specs.declared.error.FastLanesError.TheVariants.{OutOfMemory};
ghost use Rattle.fl_column.specs.Chunks.{chunk_count};
ghost use Rattle.fl_bitpacking.specs.Blocks.{AreWords, pattern_in};

use crate::bit_packed::write_padded_patterns;
use fastlanes::laws::words_are_in_range;
use fastlanes::{FL_CHUNK_SIZE, FastLanes, pack};
use fl_column::patterns::push_values;
use fl_column::{PhysicalPType, chunk_count, chunk_of};
use fl_types::FastLanesError;
use std::alloc::{AllocError, Global};

/// Packs at most 1024 integers, padded with 0, and adds the block's words. A block is lent for
/// the integers' patterns, and one for the words.
fn push_block<T: PhysicalPType>(
    width: usize,
    items: &[T],
    patterns: &mut [T::Physical; FL_CHUNK_SIZE],
    words: &mut [T::Physical],
    packed: &mut Vec<T>,
) -> Result<(), AllocError>
    requires width { width ≤ T.Physical.T }
    requires few { length items.now ≤ 1024 }
    requires words { length words.old ≡ 1024 }
    ensures long { OnOk result (length packed.new.items ≡ length packed.old.items + width * T.Physical.LANES) }
    ensures before { OnOk result ((m : ℕ) → m < length packed.old.items → pattern_in T.PTYPE (map T.value packed.new.items) m ≡ pattern_in T.PTYPE (map T.value packed.old.items) m) }
    ensures packed { OnOk result (Packed T.Physical.T T.Physical.LANES width (pattern_in T.PTYPE (map T.value items.now)) (λ m. pattern_in T.PTYPE (map T.value packed.new.items) (length packed.old.items + m))) }
{
    write_padded_patterns(items, patterns);
    let lanes = T::Physical::LANES;
    let words = &mut words[..width * lanes];
    pack(width, patterns, words);
    words_are_in_range(words);
    push_values(words, packed)?;
    Ok(())
}

/// The words of the packed low bits of these integers, of which there are `total`.
fn pack_words<T: PhysicalPType>(
    alloc: Global,
    items: &[T],
    width: usize,
    total: usize,
) -> Result<Vec<T>, AllocError>
    requires width { width ≤ T.Physical.T }
    requires total { total ≡ width * T.Physical.LANES * chunk_count (length items.now) }
    ensures { IfOk result (λ v. AreWords T.PTYPE (map T.value items.now) width (map T.value v.items)) }
{
    let mut packed = Vec::with_capacity(alloc, total)?;
    let mut patterns = [T::Physical::zero(); FL_CHUNK_SIZE];
    let mut words = [T::Physical::zero(); FL_CHUNK_SIZE];
    let blocks = chunk_count(items.len());
    for j in 0..blocks {
        let chunk = chunk_of(items, j);
        push_block(width, chunk, &mut patterns, &mut words, &mut packed)?;
    }
    Ok(packed)
}

/// The packed low `width` bits of integers, padded with 0, as words of their own type. The width is at
/// most the type's bits.
///
/// Each block of 1024 integers, a short last one included, has `width` words for each of its lanes, of
/// which there are 1024 divided by the type's bits. Without integers, or at width 0, there are no words.
pub fn bitpack_primitive<T: PhysicalPType>(
    alloc: Global,
    items: &[T],
    width: u8,
) -> Result<Vec<T>, FastLanesError>
    requires { width ≤ bits_of_type T.PTYPE }
    ensures packed { IfOk result (λ v. AreWords T.PTYPE (map T.value items.now) width (map T.value v.items)) }
    ensures memory { IfErr result (λ e. e ≡ OutOfMemory) }
{
    let width = usize::from(width);
    let size = width * T::Physical::LANES;
    match size.checked_mul(chunk_count(items.len())) {
        Some(total) => {
            let packed = pack_words(alloc, items, width, total)?;
            Ok(packed)
        }
        None => Err(FastLanesError::OutOfMemory),
    }
}
