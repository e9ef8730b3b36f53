//! Gathering integers that are read block by block into a scratch, so that no list of the column is made.

ghost use Rattle.std.specs.Prelude.{◌≡◌, ◌+◌, ◌<◌, IfErr, IsTrue, OnOk, length};
ghost use Rattle.fl_types.specs.declared.error.FastLanesError.TheVariants.{OutOfMemory};
ghost use Rattle.fl_types.specs.declared.validity.Validity.TheVariants.{AllValid, Array};
ghost use Rattle.fl_types.specs.Bits.{kept};
ghost use Rattle.fl_types.specs.Types.{has_ptype};
ghost use Rattle.fl_column.specs.Chunks.{chunk_count};
ghost use Rattle.fl_column.specs.Columns.{integers_in};
ghost use Rattle.fl_scan.specs.Blocks.{Marks, marked_items, of_block};

use crate::folds::Fold;
use crate::plain::add_valid;
use fastlanes::FL_CHUNK_SIZE;
use fl_array::Reader;
use fl_bitpacking::compute::filter::kept_items::count_between;
use fl_bitpacking::unpack_iter::BitPacked;
use fl_column::{BitList, FastLanesError, PhysicalPType, Validity};
use num_traits::WrappingAdd;

/// The most items of a column that is read block by block, 2^32. A few bytes can claim more, as packed blocks of width 0
/// and constant children do: to read these would take hours, whereas a decode asks for their memory at once and is
/// refused.
pub(crate) const MOST_ITEMS: usize = 4_294_967_296;

/// Gathers the items of block `j` whose bits are set. A block without one is not read.
fn add_block<T: BitPacked + PhysicalPType + WrappingAdd, F: Fold<T>>(
    fold: &mut F,
    reader: &Reader,
    bits: &BitList,
    j: usize,
    scratch: &mut [T; FL_CHUNK_SIZE],
) -> Result<(), FastLanesError>
    requires typed { IsTrue (has_ptype T.PTYPE reader.now.column.dtype) }
    requires marks { Marks (Array bits.now) reader.now.column }
    requires block { j < chunk_count (reader.now.offset + length reader.now.column.items) }
    ensures gathered { OnOk result (F.Leads fold.old (kept (of_block reader.now j bits.now) (of_block reader.now j (integers_in reader.now.column))) fold.new) }
    ensures memory { IfErr result (λ e. e ≡ OutOfMemory) }
{
    let (from, to) = reader.places(j);
    if count_between(bits, from, to - from) == 0 {
        return Ok(());
    }
    let items = &mut scratch[..to - from];
    reader.read(from, items);
    add_valid(fold, items, bits, from)
}

/// Gathers the items whose bits are set.
fn add_set<T: BitPacked + PhysicalPType + WrappingAdd, F: Fold<T>>(
    fold: &mut F,
    reader: &Reader,
    bits: &BitList,
) -> Result<(), FastLanesError>
    requires typed { IsTrue (has_ptype T.PTYPE reader.now.column.dtype) }
    requires marks { Marks (Array bits.now) reader.now.column }
    ensures gathered { OnOk result (F.Leads fold.old (kept bits.now (integers_in reader.now.column)) fold.new) }
    ensures memory { IfErr result (λ e. e ≡ OutOfMemory) }
{
    let mut scratch = [T::zero(); FL_CHUNK_SIZE];
    for j in 0..reader.blocks() {
        add_block(fold, reader, bits, j, &mut scratch)?;
    }
    Ok(())
}

/// Gathers all items, of which none is null.
fn add_each<T: BitPacked + PhysicalPType + WrappingAdd, F: Fold<T>>(
    fold: &mut F,
    reader: &Reader,
) -> Result<(), FastLanesError>
    requires typed { IsTrue (has_ptype T.PTYPE reader.now.column.dtype) }
    requires marks { Marks AllValid reader.now.column }
    ensures gathered { OnOk result (F.Leads fold.old (integers_in reader.now.column) fold.new) }
    ensures memory { IfErr result (λ e. e ≡ OutOfMemory) }
{
    let mut scratch = [T::zero(); FL_CHUNK_SIZE];
    for j in 0..reader.blocks() {
        let (from, to) = reader.places(j);
        let items = &mut scratch[..to - from];
        reader.read(from, items);
        fold.add_all(items)?;
    }
    Ok(())
}

/// Gathers the items that a validity marks, of which none is null. A block without one is not read.
pub(crate) fn add_marked<T: BitPacked + PhysicalPType + WrappingAdd, F: Fold<T>>(
    fold: &mut F,
    reader: &Reader,
    validity: &Validity,
) -> Result<(), FastLanesError>
    requires typed { IsTrue (has_ptype T.PTYPE reader.now.column.dtype) }
    requires marks { Marks validity.now reader.now.column }
    ensures gathered { OnOk result (F.Leads fold.old (marked_items validity.now reader.now.column) fold.new) }
    ensures memory { IfErr result (λ e. e ≡ OutOfMemory) }
{
    match validity {
        Validity::NonNullable | Validity::AllValid => add_each(fold, reader),
        Validity::AllInvalid => Ok(()),
        Validity::Array(bits) => add_set(fold, reader, bits),
    }
}
