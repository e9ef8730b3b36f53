//! Columns stored by dictionaries in the parts of runs: in each chunk of 1024 items the run values are the distinct items
//! in rising order, and the run index of a position is the number of those below its item.

mod distinct;
mod filled;
mod marks;
pub mod places;

ghost use Rattle.std.specs.Prelude.{◌≡◌, ◌+◌, ◌*◌, ◌<◌, ◌≤◌, [], OnOk, Ok, length, map};
ghost use Rattle.fl_types.specs.Refusals.{Answers};
ghost use Rattle.fl_codec.specs.Chunks.{chunks_of};
ghost use Rattle.fl_codec.specs.ForwardFill.{Reset, fill_forward};
ghost use Rattle.fl_codec.specs.Parts.{items_of_primitive, run_parts};
ghost use Rattle.fl_codec.specs.Dictionaries.{dictionaries_to, dictionary_indices_to, dictionary_offsets_to, encode_dictionaries, items_in_chunk};

use crate::chunks::chunk_count;
use crate::plain::{non_nullable, with_validity};
use crate::rle::dictionary::distinct::{HINT_COUNT, distinct_of, write_ranks};
use crate::rle::dictionary::filled::fill_items;
use crate::rle::{Runs, padded_validity};
use fastlanes::{FL_CHUNK_SIZE, FastLanes};
use fl_column::{PhysicalPType, PrimitiveArray};
use fl_types::{FastLanesError, match_each_integer_ptype};
use std::alloc::{AllocError, Global};

/// The parts of some chunks.
#[derive(Drop)]
struct Parts<T> {
    /// The dictionary of the chunk that is encoded.
    dictionary: Vec<T>,
    /// The dictionaries, one chunk after another.
    values: Vec<T>,
    /// For each position the index of its item in its chunk's dictionary.
    indices: Vec<u16>,
    /// The number of values before each chunk.
    offsets: Vec<u64>,
}

/// Appends the dictionary of chunk `k`, whose items these are, and the index of each position.
fn push_chunk<T: PhysicalPType>(
    array: &PrimitiveArray,
    k: usize,
    items: &[T; FL_CHUNK_SIZE],
    hints: &mut [u16; HINT_COUNT],
    parts: &mut Parts<T>,
) -> Result<(), AllocError>
    requires items { map T.value items.now ≡ items_in_chunk (fill_forward Reset (items_of_primitive array.now)) k }
    requires values { map T.value parts.old.values.items ≡ dictionaries_to (items_of_primitive array.now) k }
    requires indices { parts.old.indices.items ≡ dictionary_indices_to (items_of_primitive array.now) k }
    ensures values { OnOk result (map T.value parts.new.values.items ≡ dictionaries_to (items_of_primitive array.now) (k + 1)) }
    ensures indices { OnOk result (parts.new.indices.items ≡ dictionary_indices_to (items_of_primitive array.now) (k + 1)) }
    ensures offsets { parts.new.offsets ≡ parts.old.offsets }
{
    let mut ranks = [0u16; FL_CHUNK_SIZE];
    parts.dictionary.clear();
    distinct_of(items, hints, &mut parts.dictionary)?;
    write_ranks(items, parts.dictionary.as_slice(), hints, &mut ranks);
    parts.values.extend_from_slice(parts.dictionary.as_slice())?;
    parts.indices.extend_from_slice(&ranks[..])
}

/// Appends the dictionaries, the indices and the offsets of all chunks.
fn push_chunks<T: PhysicalPType>(
    array: &PrimitiveArray,
    items: &mut [T; FL_CHUNK_SIZE],
    parts: &mut Parts<T>,
) -> Result<(), AllocError>
    requires same { array.now.ptype ≡ T.PTYPE }
    requires no_values { parts.old.values.items ≡ [] }
    requires no_indices { parts.old.indices.items ≡ [] }
    requires no_offsets { parts.old.offsets.items ≡ [] }
    ensures values { OnOk result (map T.value parts.new.values.items ≡ dictionaries_to (items_of_primitive array.now) (chunks_of (length array.now.slots))) }
    ensures indices { OnOk result (parts.new.indices.items ≡ dictionary_indices_to (items_of_primitive array.now) (chunks_of (length array.now.slots))) }
    ensures offsets { OnOk result (parts.new.offsets.items ≡ dictionary_offsets_to (items_of_primitive array.now) (chunks_of (length array.now.slots))) }
{
    let mut block = [T::Physical::zero(); FL_CHUNK_SIZE];
    let mut hints = [0u16; HINT_COUNT];
    for k in 0..chunk_count(array.len()) {
        parts.offsets.push(parts.values.len() as u64)?;
        fill_items::<T>(array, k, &mut block, items);
        push_chunk(array, k, items, &mut hints, parts)?;
    }
    Ok(())
}

/// The dictionaries of a column of one type, by way of the items of a chunk.
fn encode_typed<T: PhysicalPType>(
    alloc: Global,
    array: &PrimitiveArray,
    items: &mut [T; FL_CHUNK_SIZE],
) -> Result<Runs, FastLanesError>
    requires { array.now.ptype ≡ T.PTYPE }
    ensures { Answers run_parts result (Ok (encode_dictionaries array.now)) }
{
    let chunks = chunk_count(array.len());
    let mut parts = Parts {
        dictionary: Vec::<T>::with_capacity(alloc, FL_CHUNK_SIZE)?,
        values: Vec::<T>::new(alloc),
        indices: Vec::with_capacity(alloc, chunks.saturating_mul(FL_CHUNK_SIZE))?,
        offsets: Vec::with_capacity(alloc, chunks)?,
    };
    push_chunks(array, items, &mut parts)?;
    let Parts {
        values,
        indices,
        offsets,
        ..
    } = parts;
    let total = indices.as_slice().len();
    let validity = padded_validity(alloc, array.validity(), array.len(), total)?;
    Ok(Runs {
        values: non_nullable(values),
        indices: with_validity(indices, validity),
        offsets: non_nullable(offsets),
    })
}

/// A column by a dictionary for each chunk. A null counts as the last item before it in its chunk, or as 0 where there is
/// none; a short last chunk is padded with its last item.
///
/// # Errors
/// Only `OutOfMemory`.
// It stays a function, so that no caller that calls itself has its blocks on the stack again and again.
#[inline(never)]
pub fn encode(alloc: Global, array: &PrimitiveArray) -> Result<Runs, FastLanesError>
    ensures { Answers run_parts result (Ok (encode_dictionaries array.now)) }
{
    match_each_integer_ptype!(
        array.ptype(),
        encode_typed(alloc, array, &mut [0; FL_CHUNK_SIZE])
    )
}
