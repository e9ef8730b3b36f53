//! The calls that make an array of an array.

ghost use Rattle.std.specs.Prelude.{◌≡◌, ◌≢◌, None, length, pos};
ghost use Rattle.fl_array.specs.Reads.{integer_column};
ghost use Rattle.fl_array.specs.Slices.{slice_tree};
ghost use Rattle.fl_array.specs.ToBlocked.{to_blocked_tree};
ghost use Rattle.fl_array.specs.Trees.{column};
ghost use Rattle.fl_column.specs.Operations.{ranges_column, slice_column};
ghost use Rattle.flcol_container.specs.ContainerReading.{dtype_of_byte};
ghost use Rattle.flcol_c.specs.Bitmaps.{short_fault};
ghost use Rattle.flcol_c.specs.Compressing.{IsCompressionBy, IsCompressionOf, limits_of};
ghost use Rattle.flcol_c.specs.Held.{HoldsFrom, IsKept, IsStatusOn};
ghost use Rattle.flcol_c.specs.Operations.{AreTaken, IsCast, IsFilteredBy, IsTaken, cast_fault, filter_fault, mask_fault, pairs_of, take_fault, type_fault};
ghost use Rattle.flcol_c.specs.Statuses.{fault_in, refusal_in};

use crate::compressing::{compress, compress_within};
use crate::fault::Fault;
use crate::handle::ArrayHandle;
use crate::kept::keep;
use crate::operations;
use crate::ranges::ItemRange;
use std::alloc::Global;

/// Makes an array of the items from `from` to below `to`, in the same encodings.
#[unsafe(no_mangle)]
pub extern "C" fn flcol_slice(
    alloc: Global,
    array: &mut ArrayHandle,
    from: usize,
    to: usize,
    out: &mut ArrayHandle,
) -> i32
    ensures kept { IsKept array.old array.new }
    ensures status { IsStatusOn (λ t. refusal_in (slice_column from to (column t))) (λ t. None) array.old.tree result }
    ensures made { result ≡ pos 0 → HoldsFrom (λ t u. u ≡ slice_tree from to t) array.old.tree out.new.tree }
    ensures unmade { result ≢ pos 0 → out.new ≡ out.old }
{
    let Some(source) = array.array() else {
        return Fault::NoArray.status();
    };
    keep(out, alloc, operations::slice(alloc, source, from, to))
}

/// Makes an array of the items at these indices, null if its index is null.
#[unsafe(no_mangle)]
pub extern "C" fn flcol_take(
    alloc: Global,
    array: &mut ArrayHandle,
    indices: &[u64],
    validity: &[u8],
    out: &mut ArrayHandle,
) -> i32
    ensures kept { IsKept array.old array.new }
    ensures status { IsStatusOn (λ t. short_fault validity.now (length indices.now)) (λ t. take_fault indices.now validity.now (column t)) array.old.tree result }
    ensures made { result ≡ pos 0 → HoldsFrom (IsTaken indices.now validity.now) array.old.tree out.new.tree }
    ensures unmade { result ≢ pos 0 → out.new ≡ out.old }
{
    let Some(source) = array.array() else {
        return Fault::NoArray.status();
    };
    keep(
        out,
        alloc,
        operations::take(alloc, source, indices, validity),
    )
}

/// Makes an array of the items of the ranges, one range after another.
#[unsafe(no_mangle)]
pub extern "C" fn flcol_take_ranges(
    alloc: Global,
    array: &mut ArrayHandle,
    ranges: &[ItemRange],
    out: &mut ArrayHandle,
) -> i32
    ensures kept { IsKept array.old array.new }
    ensures status { IsStatusOn (λ t. None) (λ t. refusal_in (ranges_column (pairs_of ranges.now) (column t))) array.old.tree result }
    ensures made { result ≡ pos 0 → HoldsFrom (AreTaken ranges.now) array.old.tree out.new.tree }
    ensures unmade { result ≢ pos 0 → out.new ≡ out.old }
{
    let Some(source) = array.array() else {
        return Fault::NoArray.status();
    };
    keep(out, alloc, operations::take_ranges(alloc, source, ranges))
}

/// Makes an array of the items whose bits are set.
#[unsafe(no_mangle)]
pub extern "C" fn flcol_filter(
    alloc: Global,
    array: &mut ArrayHandle,
    mask: &[u8],
    out: &mut ArrayHandle,
) -> i32
    ensures kept { IsKept array.old array.new }
    ensures status { IsStatusOn (λ t. mask_fault (length mask.now) (column t)) (λ t. filter_fault mask.now (column t)) array.old.tree result }
    ensures made { result ≡ pos 0 → HoldsFrom (IsFilteredBy mask.now) array.old.tree out.new.tree }
    ensures unmade { result ≢ pos 0 → out.new ≡ out.old }
{
    let Some(source) = array.array() else {
        return Fault::NoArray.status();
    };
    keep(out, alloc, operations::filter(alloc, source, mask))
}

/// Makes an array of the same integers in the type of a byte (`flcol_dtype`).
#[unsafe(no_mangle)]
pub extern "C" fn flcol_cast(
    alloc: Global,
    array: &mut ArrayHandle,
    dtype: u8,
    out: &mut ArrayHandle,
) -> i32
    ensures kept { IsKept array.old array.new }
    ensures status { IsStatusOn (λ t. type_fault (dtype_of_byte dtype)) (λ t. cast_fault (dtype_of_byte dtype) (column t)) array.old.tree result }
    ensures made { result ≡ pos 0 → HoldsFrom (IsCast (dtype_of_byte dtype)) array.old.tree out.new.tree }
    ensures unmade { result ≢ pos 0 → out.new ≡ out.old }
{
    let Some(source) = array.array() else {
        return Fault::NoArray.status();
    };
    keep(out, alloc, operations::cast(alloc, source, dtype))
}

/// Makes the same array with boundaries between the blocks wherever it is bit-packed at one width.
#[unsafe(no_mangle)]
pub extern "C" fn flcol_to_blocked(
    alloc: Global,
    array: &mut ArrayHandle,
    out: &mut ArrayHandle,
) -> i32
    ensures kept { IsKept array.old array.new }
    ensures status { IsStatusOn (λ t. None) (λ t. None) array.old.tree result }
    ensures made { result ≡ pos 0 → HoldsFrom (λ t u. u ≡ to_blocked_tree t) array.old.tree out.new.tree }
    ensures unmade { result ≢ pos 0 → out.new ≡ out.old }
{
    let Some(source) = array.array() else {
        return Fault::NoArray.status();
    };
    keep(out, alloc, operations::to_blocked(alloc, source))
}

/// Makes the array of the same column that takes the fewest bytes of all candidate schemes; of several the first.
#[unsafe(no_mangle)]
pub extern "C" fn flcol_compress(
    alloc: Global,
    array: &mut ArrayHandle,
    out: &mut ArrayHandle,
) -> i32
    ensures kept { IsKept array.old array.new }
    ensures status { IsStatusOn (λ t. None) (λ t. refusal_in (integer_column (column t))) array.old.tree result }
    ensures made { result ≡ pos 0 → HoldsFrom IsCompressionOf array.old.tree out.new.tree }
    ensures unmade { result ≢ pos 0 → out.new ≡ out.old }
{
    let Some(source) = array.array() else {
        return Fault::NoArray.status();
    };
    keep(out, alloc, compress(alloc, source))
}

/// Makes the array of the same column that takes the fewest bytes of the candidate schemes that use no encodings but those
/// whose bits are set, and nest at most so many in one another; of several the first.
#[unsafe(no_mangle)]
pub extern "C" fn flcol_compress_within(
    alloc: Global,
    array: &mut ArrayHandle,
    encodings: u8,
    depth: u8,
    out: &mut ArrayHandle,
) -> i32
    ensures kept { IsKept array.old array.new }
    ensures status { IsStatusOn (λ t. fault_in (limits_of encodings depth)) (λ t. refusal_in (integer_column (column t))) array.old.tree result }
    ensures made { result ≡ pos 0 → HoldsFrom (IsCompressionBy encodings depth) array.old.tree out.new.tree }
    ensures unmade { result ≢ pos 0 → out.new ≡ out.old }
{
    let Some(source) = array.array() else {
        return Fault::NoArray.status();
    };
    keep(out, alloc, compress_within(alloc, source, encodings, depth))
}
