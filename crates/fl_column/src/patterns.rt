//! The bit patterns of integers, as numbers and as the words that the kernels work on.

ghost use Rattle.std.specs.Prelude.{◌≡◌, ◌<◌, ◌≤◌, ◌++◌, ℕ, OnErr, OnOk, length, map, pos, slice_index_or};
ghost use Rattle.fastlanes.specs.Layout.{pattern_at};
ghost use Rattle.fl_types.specs.Integers.{pattern_of, read_as};

use crate::physical::PhysicalPType;
use fastlanes::{FL_CHUNK_SIZE, FastLanes};
use std::alloc::AllocError;

/// Writes the patterns of these values, at most a block of them.
pub fn write_patterns<T: PhysicalPType>(values: &[T], block: &mut [T::Physical; FL_CHUNK_SIZE])
    requires { length values.now ≤ 1024 }
    ensures block { (i : ℕ) → i < length values.now → pattern_at T.Physical.pattern block.new i ≡ pattern_of T.PTYPE (slice_index_or (map T.value values.now) i (pos 0)) }
    ensures whole { length block.new ≡ 1024 }
{
    for i in 0..values.len() {
        block[i] = values[i].to_physical();
    }
}

/// Appends the values of these patterns, converted. If a request for memory is refused, nothing is appended.
fn push_converted<T: PhysicalPType>(
    patterns: &[T::Physical],
    values: &mut Vec<T>,
) -> Result<(), AllocError>
    ensures values { OnOk result (map T.value values.new.items ≡ map T.value values.old.items ++ map (λ w. read_as T.PTYPE (T.Physical.pattern w)) patterns.now) }
    ensures err { OnErr result (values.new.items ≡ values.old.items) }
{
    values.reserve(patterns.len())?;
    for pattern in patterns {
        values.push_reserved(T::from_physical(*pattern));
    }
    Ok(())
}

/// Appends the values of these patterns. If a request for memory is refused, nothing is appended.
pub fn push_values<T: PhysicalPType>(
    patterns: &[T::Physical],
    values: &mut Vec<T>,
) -> Result<(), AllocError>
    ensures values { OnOk result (map T.value values.new.items ≡ map T.value values.old.items ++ map (λ w. read_as T.PTYPE (T.Physical.pattern w)) patterns.now) }
    ensures err { OnErr result (values.new.items ≡ values.old.items) }
{
    match T::values_of(patterns) {
        Some(items) => values.extend_from_slice(items),
        None => push_converted(patterns, values),
    }
}
