//! Ranges of items, as C hands them in.

ghost use Rattle.std.specs.Prelude.{◌≡◌, IfOk};
ghost use Rattle.flcol_c.specs.Operations.{pairs_of};

use std::alloc::{AllocError, Global};

/// The items from `start` to below `start + len`: `flcol_range` of the header.
#[repr(C)]
#[derive(Clone, Copy)]
pub struct ItemRange {
    pub start: usize,
    pub len: usize,
}

/// Ranges as pairs of a start and a length.
pub(crate) fn pairs_of(
    alloc: Global,
    ranges: &[ItemRange],
) -> Result<Vec<(usize, usize)>, AllocError>
    ensures { IfOk result (λ v. v.items ≡ pairs_of ranges.now) }
{
    let mut pairs = Vec::with_capacity(alloc, ranges.len())?;
    for range in ranges {
        pairs.push((range.start, range.len))?;
    }
    Ok(pairs)
}
