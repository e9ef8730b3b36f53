//! References that are added to integers where they stand.

ghost use Rattle.std.specs.Prelude.{◌≡◌, ◌+◌, ◌<◌, ◌≤◌, ◌^◌, ◌+ℤ◌, length, map};
ghost use Rattle.fl_types.specs.Integers.{wrap};
ghost use Rattle.fl_codec.specs.Chunks.{chunks_of};
ghost use Rattle.fl_codec.specs.FoRColumns.{chunked_sums};

use crate::chunks::chunk_count;
use crate::for_::without_nulls::{part_of_chunk, plus};
use fl_types::NativePType;
use num_traits::WrappingAdd;

/// Adds a reference to each integer, modulo 2 to the type's bits.
pub fn add_in_place<T: NativePType + WrappingAdd>(values: &mut [T], reference: T)
    ensures { map T.value values.new ≡ map (λ z. wrap T.PTYPE (z +ℤ T.value reference)) (map T.value values.old) }
{
    for i in 0..values.len() {
        values[i] = plus(values[i], reference);
    }
}

/// Adds to each integer the reference of its chunk of 1024, modulo 2 to the type's bits. The first one is at `offset` in
/// its chunk.
pub fn add_references_in_place<T: NativePType + WrappingAdd>(
    values: &mut [T],
    references: &[T],
    offset: usize,
)
    requires few { offset + length values.old < 2 ^ 64 }
    requires references { chunks_of (offset + length values.old) ≤ length references.now }
    ensures { map T.value values.new ≡ chunked_sums T.PTYPE (map T.value references.now) offset (map T.value values.old) }
{
    let len = values.len();
    for k in 0..chunk_count(offset + len) {
        let (start, end) = part_of_chunk(k, offset, len);
        add_in_place(&mut values[start..end], references[k]);
    }
}
