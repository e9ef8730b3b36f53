//! Packing columns into bytes.

pub mod encoding;
mod patched_packing;
mod width_refusals;
pub mod word_packing;

ghost use Rattle.std.specs.Prelude.{◌≡◌, ◌+◌, ◌-◌, ◌*◌, ◌<◌, ◌≤◌, ◌^◌, ℕ, ℤ, IfErr, IfOk, OnOk, drop, length, map, slice_index, sum, take};
ghost use Rattle.fastlanes.specs.Layout.{Packed, word_at};
ghost use Rattle.fl_types.specs.Bits.{between};
ghost use Rattle.fl_types.specs.Integers.{bits_of_type, lanes_of_type};
ghost use Rattle.fl_types.specs.declared.error.FastLanesError.TheVariants.{OutOfMemory};
ghost use Rattle.fl_column.specs.Chunks.{chunk_count};
ghost use Rattle.fl_bitpacking.specs.Blocks.{AreJoined, AreWithin, ArePacked, blocks_of, boundary_array, boundary_blocks, boundaries_of, bytes_of_block, global_blocks, pattern_in};
ghost use Rattle.fl_patches.specs.Widths.{NamesAll};

use crate::bit_packed::BitPacked;
use crate::boundaries::{boundary_array, packed_size};
use bytes::Bytes;
use fastlanes::FL_CHUNK_SIZE;
use fl_column::{PrimitiveArray, chunk_count, chunk_of};
use fl_patches::Widths;
use fl_types::{FastLanesError, NativePType, match_each_integer_ptype};
use std::alloc::{AllocError, Global};

/// Packs at most 1024 integers, padded with 0, into the bytes of the block that starts there.
fn pack_at<T: BitPacked>(width: usize, items: &[T], start: usize, bytes: &mut [u8])
    requires width { width ≤ bits_of_type T.PTYPE }
    requires few { length items.now ≤ 1024 }
    requires within { start + 128 * width ≤ length bytes.old }
    ensures packed { Packed (bits_of_type T.PTYPE) (lanes_of_type T.PTYPE) width (pattern_in T.PTYPE (map T.value items.now)) (word_at (bits_of_type T.PTYPE) (between start (start + 128 * width) bytes.new)) }
    ensures before { (a b : ℕ) → b ≤ start → between a b bytes.new ≡ between a b bytes.old }
{
    let size = FL_CHUNK_SIZE / 8 * width;
    T::pack_block(width, items, &mut bytes[start..start + size]);
}

/// Adds the packed block of at most 1024 integers, padded with 0.
pub(crate) fn push_block<T: BitPacked>(
    width: usize,
    items: &[T],
    bytes: &mut Vec<u8>,
) -> Result<(), AllocError>
    requires width { width ≤ bits_of_type T.PTYPE }
    requires few { length items.now ≤ 1024 }
    requires room { length bytes.old.items + 128 * width < 2 ^ 64 }
    ensures long { OnOk result (length bytes.new.items ≡ length bytes.old.items + 128 * width) }
    ensures packed { OnOk result (Packed (bits_of_type T.PTYPE) (lanes_of_type T.PTYPE) width (pattern_in T.PTYPE (map T.value items.now)) (word_at (bits_of_type T.PTYPE) (between (length bytes.old.items) (length bytes.old.items + 128 * width) bytes.new.items))) }
    ensures before { OnOk result ((a b : ℕ) → b ≤ length bytes.old.items → between a b bytes.new.items ≡ between a b bytes.old.items) }
{
    let start = bytes.len();
    bytes.resize(start + FL_CHUNK_SIZE / 8 * width, 0)?;
    pack_at(width, items, start, bytes);
    Ok(())
}

/// The packed blocks of these integers. A block's bytes are made while they are packed, not all of
/// them before.
fn pack_blocks<T: BitPacked>(
    alloc: Global,
    widths: Widths,
    items: &[T],
    size: usize,
) -> Result<Vec<u8>, AllocError>
    requires names { NamesAll widths (chunk_count (length items.now)) }
    requires within { AreWithin (bits_of_type T.PTYPE) (chunk_count (length items.now)) size (blocks_of widths) }
    requires joined { AreJoined (chunk_count (length items.now)) size (blocks_of widths) }
    ensures long { IfOk result (λ v. length v.items ≡ size) }
    ensures each { IfOk result (λ v. (j : ℕ) → j < chunk_count (length items.now) → Packed (bits_of_type T.PTYPE) (lanes_of_type T.PTYPE) ((blocks_of widths.entry).width j) (λ q. pattern_in T.PTYPE (map T.value items.now) (1024 * j + q)) (word_at (bits_of_type T.PTYPE) (bytes_of_block (blocks_of widths.entry) v.items j))) }
{
    let mut bytes = Vec::with_capacity(alloc, size)?;
    // Blocks at width 0 have no bytes.
    if size == 0 {
        return Ok(bytes);
    }
    for j in 0..chunk_count(items.len()) {
        push_block(widths.of_block(j), chunk_of(items, j), &mut bytes)?;
    }
    Ok(bytes)
}

/// Packs the blocks of these integers into bytes that are there.
fn pack_blocks_into<T: BitPacked>(width: usize, items: &[T], bytes: &mut [u8])
    requires width { width ≤ bits_of_type T.PTYPE }
    requires room { length bytes.old ≡ 128 * width * chunk_count (length items.now) }
    ensures each { (j : ℕ) → j < chunk_count (length items.now) → Packed (bits_of_type T.PTYPE) (lanes_of_type T.PTYPE) width (λ q. pattern_in T.PTYPE (map T.value items.now) (1024 * j + q)) (word_at (bits_of_type T.PTYPE) (bytes_of_block (global_blocks width) bytes.new j)) }
{
    let size = FL_CHUNK_SIZE / 8 * width;
    let blocks = chunk_count(items.len());
    for j in 0..blocks {
        pack_at(width, chunk_of(items, j), size * j, bytes);
    }
}

fn pack_typed_into<T: BitPacked>(array: &PrimitiveArray, width: usize, bytes: &mut [u8])
    requires typed { array.now.ptype ≡ T.PTYPE }
    requires width { width ≤ bits_of_type array.now.ptype }
    requires room { length bytes.old ≡ 128 * width * chunk_count (length array.now.slots) }
    ensures { ArePacked array.now.ptype array.now.slots (global_blocks width) bytes.new }
{
    let items = array.as_slice::<T>();
    pack_blocks_into(width, items, bytes);
}

fn pack_typed<T: BitPacked>(
    alloc: Global,
    array: &PrimitiveArray,
    widths: Widths,
    size: usize,
) -> Result<Vec<u8>, AllocError>
    requires typed { array.now.ptype ≡ T.PTYPE }
    requires names { NamesAll widths (chunk_count (length array.now.slots)) }
    requires within { AreWithin (bits_of_type array.now.ptype) (chunk_count (length array.now.slots)) size (blocks_of widths) }
    requires joined { AreJoined (chunk_count (length array.now.slots)) size (blocks_of widths) }
    ensures { IfOk result (λ v. ArePacked array.now.ptype array.now.slots (blocks_of widths.entry) v.items) }
{
    let items = array.as_slice::<T>();
    let bytes = pack_blocks(alloc, widths, items, size)?;
    Ok(bytes)
}

/// The packed low bits of an array's integers, as bytes of their own.
fn pack_slots(
    alloc: Global,
    array: &PrimitiveArray,
    widths: Widths,
    size: usize,
) -> Result<Vec<u8>, AllocError>
    requires names { NamesAll widths (chunk_count (length array.now.slots)) }
    requires within { AreWithin (bits_of_type array.now.ptype) (chunk_count (length array.now.slots)) size (blocks_of widths) }
    requires joined { AreJoined (chunk_count (length array.now.slots)) size (blocks_of widths) }
    ensures { IfOk result (λ v. ArePacked array.now.ptype array.now.slots (blocks_of widths.entry) v.items) }
{
    match_each_integer_ptype!(array.ptype(), pack_typed(alloc, array, widths, size))
}

/// The packed low bits of an array's integers, also of those under a null.
fn pack_array(
    alloc: Global,
    array: &PrimitiveArray,
    widths: Widths,
    size: usize,
) -> Result<Bytes, FastLanesError>
    requires names { NamesAll widths (chunk_count (length array.now.slots)) }
    requires within { AreWithin (bits_of_type array.now.ptype) (chunk_count (length array.now.slots)) size (blocks_of widths) }
    requires joined { AreJoined (chunk_count (length array.now.slots)) size (blocks_of widths) }
    ensures packed { IfOk result (λ b. ArePacked array.now.ptype array.now.slots (blocks_of widths.entry) b) }
    ensures memory { IfErr result (λ e. e ≡ OutOfMemory) }
{
    let bytes = pack_slots(alloc, array, widths, size)?;
    let packed = Bytes::from_vec(bytes)?;
    Ok(packed)
}

/// Packs the low `width` bits of an array's integers, also of those under a null, padded with 0, into
/// existing bytes: `128 * width` for each block of 1024. The width is at most the type's bits.
pub fn bitpack_into(array: &PrimitiveArray, width: u8, bytes: &mut [u8])
    requires width { width ≤ bits_of_type array.now.ptype }
    requires room { length bytes.old ≡ 128 * width * chunk_count (length array.now.slots) }
    ensures { ArePacked array.now.ptype array.now.slots (global_blocks width) bytes.new }
{
    let width = usize::from(width);
    match_each_integer_ptype!(array.ptype(), pack_typed_into(array, width, bytes));
}

/// The packed low `width` bits of an array's integers, also of those under a null, padded with 0. The
/// width is at most the type's bits.
pub fn bitpack_unchecked(
    alloc: Global,
    array: &PrimitiveArray,
    width: u8,
) -> Result<Bytes, FastLanesError>
    requires { width ≤ bits_of_type array.now.ptype }
    ensures packed { IfOk result (λ b. ArePacked array.now.ptype array.now.slots (global_blocks width) b) }
    ensures memory { IfErr result (λ e. e ≡ OutOfMemory) }
{
    let width = usize::from(width);
    let size = FL_CHUNK_SIZE / 8 * width;
    match size.checked_mul(chunk_count(array.len())) {
        Some(size) => pack_array(alloc, array, Widths::Global(width), size),
        None => Err(FastLanesError::OutOfMemory),
    }
}

/// The packed low bits of an array's integers, also of those under a null, padded with 0, at a width for
/// each block of 1024; and the boundaries of the blocks.
///
/// There is one width for each block, at most the type's bits. The boundaries are the sums of
/// `128 * width` from 0 on, in the smallest unsigned type that holds the last one.
pub fn bitpack_blocked_unchecked(
    alloc: Global,
    array: &PrimitiveArray,
    widths: &[u8],
) -> Result<(Bytes, PrimitiveArray), FastLanesError>
    requires count { length widths.now ≡ chunk_count (length array.now.slots) }
    requires narrow { (j : ℕ) → j < length widths.now → slice_index widths.now j ≤ bits_of_type array.now.ptype }
    ensures packed { IfOk result (λ p. ArePacked array.now.ptype array.now.slots (boundary_blocks (boundaries_of widths.now)) p.0) }
    ensures boundaries { IfOk result (λ p. p.1 ≡ boundary_array widths.now) }
    ensures memory { IfErr result (λ e. e ≡ OutOfMemory) }
{
    match packed_size(widths) {
        Some(size) => {
            let boundaries = boundary_array(alloc, widths, size)?;
            let packed = pack_array(alloc, array, Widths::PerBlock(widths), size)?;
            Ok((packed, boundaries))
        }
        None => Err(FastLanesError::OutOfMemory),
    }
}
