//! Whether boundaries are those of blocks in this many bytes.

ghost use Rattle.std.specs.Prelude.{◌≡◌, ◌<◌, ◌-◌, ◌==◌, length, slice_index};
ghost use Rattle.fl_column.specs.Numbers.{numbers};
ghost use Rattle.fl_bitpacking.specs.Blocks.{are_blocks, is_block};

use fl_column::PrimitiveArray;

/// Whether two neighbouring boundaries are those of a block.
fn is_block(bits: usize, size: usize, first: usize, start: usize, end: usize) -> bool
    ensures { result ≡ is_block bits size first start end }
{
    first <= start
        && start <= end
        && end - first <= size
        && (start - first) % 128 == 0
        && (end - start) % 128 == 0
        && (end - start) / 128 <= bits
}

/// Whether each two neighbouring boundaries enclose a block: in order, multiples of 128 bytes after the
/// first one, at a width of at most `bits`, and within `size` bytes of the first one.
pub fn are_blocks(boundaries: &PrimitiveArray, bits: usize, size: usize) -> bool
    requires { 0 < length boundaries.now.slots }
    ensures { result ≡ are_blocks bits size (numbers boundaries.now) }
{
    let first = boundaries.number_at(0);
    for j in 1..boundaries.len() {
        let start = boundaries.number_at(j - 1);
        if !is_block(bits, size, first, start, boundaries.number_at(j)) {
            return false;
        }
    }
    true
}

/// Whether there are `size` bytes from the first boundary to boundary `count`.
pub fn is_span(boundaries: &PrimitiveArray, count: usize, size: usize) -> bool
    requires { count < length boundaries.now.slots }
    ensures { result ≡ (slice_index (numbers boundaries.now) count - slice_index (numbers boundaries.now) 0 == size) }
{
    let last = boundaries.number_at(count);
    last.saturating_sub(boundaries.number_at(0)) == size
}
