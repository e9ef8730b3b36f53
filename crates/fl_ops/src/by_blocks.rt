//! Operations on columns that are read block by block into a scratch, so that no list of the column is made, and queries
//! of them. A run-length encoded array inside of another one is decoded whole when the reader is made.

pub(crate) mod cast;
pub(crate) mod constancy;
pub(crate) mod filter;
mod indices;
pub(crate) mod order;
pub(crate) mod ranges;
pub(crate) mod take;
pub(crate) mod tests;

ghost use Rattle.std.specs.Prelude.{◌≡◌, ◌+◌, ◌<◌, None, length, option_map, slice_index_or};
ghost use Rattle.fl_bitpacking.specs.Blocks.{value_at};
ghost use Rattle.fl_ops.specs.BlockReads.{AreRead};

use fl_array::Reader;
use fl_column::{NativePType, Validity};

/// The most items of a column that is read block by block, 2^32. A few bytes can claim more, as packed blocks of width 0
/// and constant children do: to read these would take hours, whereas a decode asks for their memory at once and is
/// refused.
pub(crate) const MOST_ITEMS: usize = 4_294_967_296;

/// The item at place `i` of those that were read from `start` on, or `None` for a null.
pub(crate) fn item_of<T: NativePType>(
    reader: &Reader,
    validity: &Validity,
    start: usize,
    items: &[T],
    i: usize,
) -> Option<T>
    requires read { AreRead validity.now start (length items.now) (value_at T.value items.now) reader.now.column }
    requires place { i < length items.now }
    ensures { option_map T.value result ≡ slice_index_or reader.now.column.items (start + i) None }
{
    let len = reader.len();
    if validity.is_valid(start + i, len) {
        Some(items[i])
    } else {
        None
    }
}
