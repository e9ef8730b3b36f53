//! The boundaries of blocks that each have a width.

ghost use Rattle.std.specs.Prelude.{◌≡◌, ◌+◌, ◌*◌, ◌<◌, ◌≤◌, ◌^◌, [], IfOk, Ok, SomeIff, length, replicate, sum, vec_capacity};
ghost use Rattle.fl_types.specs.Bits.{tabulate};
ghost use Rattle.fl_types.specs.Refusals.{Answers};
ghost use Rattle.fl_bitpacking.specs.Blocks.{boundaries_of, boundary_array};

use fastlanes::FL_CHUNK_SIZE;
use fl_column::{PrimitiveArray, index_array};
use fl_types::FastLanesError;
use std::alloc::{AllocError, Global};

/// How many bytes blocks of these widths have, unless they are more than `usize::MAX`.
pub(crate) fn packed_size(widths: &[u8]) -> Option<usize>
    ensures { SomeIff result (128 * sum widths.now < 2 ^ 64) (128 * sum widths.now) }
{
    let mut size = 0usize;
    for width in widths {
        match size.checked_add(FL_CHUNK_SIZE / 8 * usize::from(*width)) {
            Some(more) => size = more,
            None => return None,
        }
    }
    Some(size)
}

/// The sums of `128 * width`, from 0 on.
fn boundary_numbers(alloc: Global, widths: &[u8]) -> Result<Vec<u64>, AllocError>
    requires { 128 * sum widths.now < 2 ^ 64 }
    ensures { IfOk result (λ v. v.items ≡ boundaries_of widths.now) }
{
    let mut boundaries = Vec::with_capacity(alloc, widths.len() + 1)?;
    write_boundaries(widths, &mut boundaries);
    Ok(boundaries)
}

/// Fills an empty list, in which there is room, with the sums of `128 * width`, from 0 on.
fn write_boundaries(widths: &[u8], boundaries: &mut Vec<u64>)
    requires small { 128 * sum widths.now < 2 ^ 64 }
    requires empty { boundaries.old.items ≡ [] }
    requires room { length widths.now < vec_capacity boundaries.old }
    ensures { boundaries.new.items ≡ boundaries_of widths.now }
{
    let mut start = 0u64;
    for width in widths {
        boundaries.push_reserved(start);
        start += 128 * *width as u64;
    }
    boundaries.push_reserved(start);
}

/// The boundaries of blocks of these widths, which have this many bytes, as an array of the smallest
/// type that holds the last of them.
pub(crate) fn boundary_array(
    alloc: Global,
    widths: &[u8],
    size: usize,
) -> Result<PrimitiveArray, FastLanesError>
    requires { size ≡ 128 * sum widths.now }
    ensures { Answers (λ a. a) result (Ok (boundary_array widths.now)) }
{
    let boundaries = boundary_numbers(alloc, widths)?;
    index_array(alloc, boundaries, size)
}

/// The multiples of `step`, from 0 to `count` times.
fn multiples(alloc: Global, step: u64, count: usize) -> Result<Vec<u64>, AllocError>
    requires small { step * count < 2 ^ 64 }
    requires few { count + 1 < 2 ^ 64 }
    ensures { IfOk result (λ v. v.items ≡ tabulate (λ j. step * j) (count + 1)) }
{
    let mut numbers = Vec::with_capacity(alloc, count + 1)?;
    write_multiples(step, count, &mut numbers);
    Ok(numbers)
}

/// Fills an empty list, in which there is room, with the multiples of `step`, from 0 to `count` times.
fn write_multiples(step: u64, count: usize, numbers: &mut Vec<u64>)
    requires small { step * count < 2 ^ 64 }
    requires few { count + 1 < 2 ^ 64 }
    requires empty { numbers.old.items ≡ [] }
    requires room { count < vec_capacity numbers.old }
    ensures { numbers.new.items ≡ tabulate (λ j. step * j) (count + 1) }
{
    for j in 0..count + 1 {
        numbers.push_reserved(step * j as u64);
    }
}

/// The boundaries of this many blocks of one width, as an array of the smallest type that holds the last of
/// them. One allocation makes room for them.
pub(crate) fn global_boundary_array(
    alloc: Global,
    width: u8,
    blocks: usize,
) -> Result<PrimitiveArray, FastLanesError>
    requires small { 128 * width * blocks < 2 ^ 64 }
    requires few { 1024 * blocks < 2 ^ 64 }
    ensures { Answers (λ a. a) result (Ok (boundary_array (replicate blocks width))) }
{
    let step = FL_CHUNK_SIZE / 8 * usize::from(width);
    let boundaries = multiples(alloc, step as u64, blocks)?;
    index_array(alloc, boundaries, step * blocks)
}
