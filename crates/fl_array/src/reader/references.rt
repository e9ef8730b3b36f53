//! References that are added to items that were read of an array of any kind.

ghost use Rattle.std.specs.Prelude.{◌≡◌, ◌+◌, ◌/◌, ◌≤◌, ◌<◌, ◌^◌, IsTrue, length};
ghost use Rattle.fl_types.specs.Types.{has_ptype};
ghost use Rattle.fl_types.specs.Values.{integer_of, ptype_of_value};
ghost use Rattle.fl_column.specs.Columns.{Column, ptype_of_column};
ghost use Rattle.fl_codec.specs.FoRColumns.{chunked_for, global_for};
ghost use Rattle.fl_bitpacking.specs.Blocks.{value_at};
ghost use Rattle.fl_array.specs.ReaderParts.{AreReferences};
ghost use Rattle.fl_array.specs.Readers.{AreItemsFrom};

use crate::reader::direct::DirectReader;
use fastlanes::FL_CHUNK_SIZE;
use fl_codec::for_::in_place::{add_in_place, add_references_in_place};
use fl_column::{NativePType, PValue, PrimitiveArray};
use num_traits::WrappingAdd;

/// Adds the reference to items that were read.
pub(crate) fn add_reference<T: NativePType + WrappingAdd>(
    encoded: &DirectReader,
    reference: PValue,
    start: usize,
    items: &mut [T],
)
    requires typed { IsTrue (has_ptype T.PTYPE encoded.now.column.dtype) }
    requires reference { ptype_of_value reference ≡ ptype_of_column encoded.now.column }
    requires items { AreItemsFrom start (length items.old) (value_at T.value items.old) encoded.now.column }
    ensures { AreItemsFrom start (length items.old) (value_at T.value items.new) (global_for (integer_of reference) encoded.now.column) }
{
    let reference = T::from_pvalue(reference).unwrap();
    add_in_place(items, reference);
}

/// Adds to items that were read, from an index on, the references of their chunks.
fn add_chunk_references<T: NativePType + WrappingAdd>(
    references: &PrimitiveArray,
    offset: usize,
    start: usize,
    items: &mut [T],
)
    requires typed { references.now.ptype ≡ T.PTYPE }
    requires few { offset + start + length items.old < 2 ^ 64 }
    requires enough { (offset + start + length items.old + 1023) / 1024 ≤ length references.now.slots }
    ensures { (c : Column) → ptype_of_column c ≡ T.PTYPE → start + length items.old ≤ length c.items → AreItemsFrom start (length items.old) (value_at T.value items.old) c → AreItemsFrom start (length items.old) (value_at T.value items.new) (chunked_for references.now.slots offset c) }
{
    let _count = references.len();
    let first = offset + start;
    let references = references.as_slice::<T>();
    add_references_in_place(
        items,
        &references[first / FL_CHUNK_SIZE..],
        first % FL_CHUNK_SIZE,
    );
}

/// Adds the references of the chunks to items that were read.
#[tactic(auto, using(crate::proofs::ReadLaws::type_of_column))]
pub(crate) fn add_references<T: NativePType + WrappingAdd>(
    encoded: &DirectReader,
    references: &PrimitiveArray,
    offset: usize,
    start: usize,
    items: &mut [T],
)
    requires typed { IsTrue (has_ptype T.PTYPE encoded.now.column.dtype) }
    requires references { AreReferences references.now offset encoded.now.column }
    requires range { start + length items.old ≤ length encoded.now.column.items }
    requires items { AreItemsFrom start (length items.old) (value_at T.value items.old) encoded.now.column }
    ensures { AreItemsFrom start (length items.old) (value_at T.value items.new) (chunked_for references.now.slots offset encoded.now.column) }
{
    add_chunk_references(references, offset, start, items);
}
