//! Items of blocks among those of a column, whose first and last block may be cut.

ghost use Rattle.std.specs.Prelude.{◌≡◌, ◌-◌, ◌<◌, ◌≤◌, ℕ, length, map, pos, slice_index_or};
ghost use Rattle.fastlanes.specs.Layout.{pattern_at};
ghost use Rattle.fl_types.specs.Integers.{pattern_of, read_as};

use fastlanes::FL_CHUNK_SIZE;
use fl_column::PhysicalPType;
use fl_column::patterns::write_patterns;

/// The patterns of at most a block of values: lent where each value is its pattern, else written to `room`.
pub(crate) fn patterns_of<'a, T: PhysicalPType>(
    values: &'a [T],
    room: &'a mut [T::Physical; FL_CHUNK_SIZE],
) -> &'a [T::Physical]
    requires { length values.now ≤ 1024 }
    ensures patterns { (i : ℕ) → i < length values.now → pattern_at T.Physical.pattern result.now i ≡ pattern_of T.PTYPE (slice_index_or (map T.value values.now) i (pos 0)) }
    ensures long { length result.now ≡ length values.now }
{
    match T::patterns_of(values) {
        Some(patterns) => patterns,
        None => {
            write_patterns(values, room);
            &room[..values.len()]
        }
    }
}

/// Writes the values of patterns, converted.
fn convert<T: PhysicalPType>(patterns: &[T::Physical], values: &mut [T])
    requires { length patterns.now ≡ length values.old }
    ensures { (i : ℕ) → i < length values.old → slice_index_or (map T.value values.new) i (pos 0) ≡ read_as T.PTYPE (pattern_at T.Physical.pattern patterns.now i) }
{
    for i in 0..values.len() {
        values[i] = T::from_physical(patterns[i]);
    }
}

/// Writes the values of as many patterns.
pub(crate) fn write_values<T: PhysicalPType>(patterns: &[T::Physical], values: &mut [T])
    requires { length patterns.now ≡ length values.old }
    ensures { (i : ℕ) → i < length values.old → slice_index_or (map T.value values.new) i (pos 0) ≡ read_as T.PTYPE (pattern_at T.Physical.pattern patterns.now i) }
{
    match T::values_of(patterns) {
        Some(items) => values.copy_from_slice(items),
        None => convert(patterns, values),
    }
}
