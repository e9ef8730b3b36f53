//! Patches of selected items: by indices, and by a mask.

ghost use Rattle.std.specs.Prelude.{◌≡◌, ◌+◌, ◌≤◌, ◌<◌, ℕ, Bool, false, true, List, Option, Some, None, IfOk, IfErr, IsTrue, Ok, length, map, option_and_then, slice_index_or, unsigned_abs};
ghost use Rattle.std.specs.List.{list_all};
ghost use Rattle.fl_types.specs.Bits.{tabulate, true_count};
ghost use Rattle.fl_types.specs.Masks.{mask_bits, mask_len};
ghost use Rattle.fl_types.specs.declared.mask.Mask.TheVariants.{Values};
ghost use Rattle.fl_types.specs.Refusals.{Answers};
ghost use Rattle.fl_types.specs.declared.error.FastLanesError.TheVariants.{OutOfMemory};
ghost use Rattle.fl_column.specs.Columns.{column_of_primitive};
ghost use Rattle.fl_column.specs.Operations.{kept};
ghost use Rattle.fl_column.specs.Numbers.{numbers, numbers_by};
ghost use Rattle.fl_patches.specs.PatchMaps.{AreFound, AreFoundTo, ArePatches, count_below, filter_patches, is_index_within, is_rising, kept_positions, patched_in_filter, patched_in_take, rank_of, ranks_at, select_patches, take_patches};

use crate::builder::PatchesBuilder;
use crate::indices::rank_typed;
use crate::patches::Patches;
use fl_column::{PrimitiveArray, number_at};
use fl_types::{BitList, FastLanesError, Mask, NativePType, match_each_integer_ptype};
use std::alloc::Global;

/// The rank of the patch at a position, if there is a position and a patch.
fn rank_at<I: NativePType>(indices: &[I], offset: usize, position: Option<usize>) -> Option<usize>
    requires { IsTrue (is_rising (numbers_by I.value indices.now)) }
    ensures { result ≡ option_and_then (λ i. rank_of (offset + i) (numbers_by I.value indices.now)) position }
{
    match position {
        Some(position) => rank_typed(indices, offset as u128 + position as u128),
        None => None,
    }
}

/// The patches at these positions.
fn find_at<I: NativePType>(
    indices: &PrimitiveArray,
    alloc: Global,
    offset: usize,
    positions: &[Option<usize>],
) -> Result<PatchesBuilder, FastLanesError>
    requires same { indices.now.ptype ≡ I.PTYPE }
    requires rising { IsTrue (is_rising (numbers indices.now)) }
    ensures found { IfOk result (λ f. AreFound f.places.items f.ranks.items (ranks_at offset (numbers indices.now) positions.now)) }
    ensures memory { IfErr result (λ e. e ≡ OutOfMemory) }
{
    let indices = indices.as_slice::<I>();
    let mut found = PatchesBuilder::new(alloc);
    for place in 0..positions.len() {
        found.push(place, rank_at(indices, offset, positions[place]))?;
    }
    Ok(found)
}

/// The patches at these positions.
fn find(
    indices: &PrimitiveArray,
    alloc: Global,
    offset: usize,
    positions: &[Option<usize>],
) -> Result<PatchesBuilder, FastLanesError>
    requires { IsTrue (is_rising (numbers indices.now)) }
    ensures found { IfOk result (λ f. AreFound f.places.items f.ranks.items (ranks_at offset (numbers indices.now) positions.now)) }
    ensures memory { IfErr result (λ e. e ≡ OutOfMemory) }
{
    match_each_integer_ptype!(indices.ptype(), find_at(indices, alloc, offset, positions))
}

/// The patches of the items at these positions, or `None` where there are none.
fn select(
    patches: &Patches,
    alloc: Global,
    positions: &[Option<usize>],
) -> Result<Option<Patches>, FastLanesError>
    ensures { Answers (λ o. o) result (Ok (select_patches positions.now patches.now)) }
{
    let found = find(patches.indices(), alloc, patches.offset(), positions)?;
    found.finish(alloc, patches.values(), positions.len())
}

/// The rank of an index that this many of the rising indices are below, and how many are below the
/// next index.
fn step<I: NativePType>(indices: &[I], below: usize, index: u128) -> (Option<usize>, usize)
    requires rising { IsTrue (is_rising (numbers_by I.value indices.now)) }
    requires below { below ≡ count_below index (numbers_by I.value indices.now) }
    ensures rank { result.0 ≡ rank_of index (numbers_by I.value indices.now) }
    ensures next { result.1 ≡ count_below (index + 1) (numbers_by I.value indices.now) }
{
    if below < indices.len() && number_at(indices, below) as u128 == index {
        (Some(below), below + 1)
    } else {
        (None, below)
    }
}

fn find_kept_typed<I: NativePType>(
    indices: &PrimitiveArray,
    alloc: Global,
    offset: usize,
    bits: &BitList,
) -> Result<(PatchesBuilder, usize), FastLanesError>
    requires same { indices.now.ptype ≡ I.PTYPE }
    requires rising { IsTrue (is_rising (numbers indices.now)) }
    requires first { count_below offset (numbers indices.now) ≡ 0 }
    ensures found { IfOk result (λ f. AreFound f.0.places.items f.0.ranks.items (ranks_at offset (numbers indices.now) (map (λ i. Some i) (kept_positions (Values bits.now) (length bits.now))))) }
    ensures len { IfOk result (λ f. f.1 ≡ length (kept_positions (Values bits.now) (length bits.now))) }
    ensures memory { IfErr result (λ e. e ≡ OutOfMemory) }
{
    let indices = indices.as_slice::<I>();
    let mut found = PatchesBuilder::new(alloc);
    let mut len = 0usize;
    let mut below = 0usize;
    for i in 0..bits.len() {
        let (rank, next) = step(indices, below, offset as u128 + i as u128);
        below = next;
        if bits.get(i) {
            found.push(len, rank)?;
            len += 1;
        }
    }
    Ok((found, len))
}

/// The patches at the positions whose bits are set, and how many bits are.
fn find_kept(
    indices: &PrimitiveArray,
    alloc: Global,
    offset: usize,
    bits: &BitList,
) -> Result<(PatchesBuilder, usize), FastLanesError>
    requires rising { IsTrue (is_rising (numbers indices.now)) }
    requires first { count_below offset (numbers indices.now) ≡ 0 }
    ensures found { IfOk result (λ f. AreFound f.0.places.items f.0.ranks.items (ranks_at offset (numbers indices.now) (map (λ i. Some i) (kept_positions (Values bits.now) (length bits.now))))) }
    ensures len { IfOk result (λ f. f.1 ≡ length (kept_positions (Values bits.now) (length bits.now))) }
    ensures memory { IfErr result (λ e. e ≡ OutOfMemory) }
{
    match_each_integer_ptype!(
        indices.ptype(),
        find_kept_typed(indices, alloc, offset, bits)
    )
}

fn find_all_typed<I: NativePType>(
    indices: &PrimitiveArray,
    alloc: Global,
    offset: usize,
) -> Result<PatchesBuilder, FastLanesError>
    requires same { indices.now.ptype ≡ I.PTYPE }
    requires rising { IsTrue (is_rising (numbers indices.now)) }
    requires first { count_below offset (numbers indices.now) ≡ 0 }
    ensures found { IfOk result (λ f. AreFoundTo offset (numbers indices.now) (length (numbers indices.now)) f.places.items f.ranks.items) }
    ensures memory { IfErr result (λ e. e ≡ OutOfMemory) }
{
    let indices = indices.as_slice::<I>();
    let mut found = PatchesBuilder::new(alloc);
    for rank in 0..indices.len() {
        let place = number_at(indices, rank) - offset;
        found.push(place, Some(rank))?;
    }
    Ok(found)
}

/// All patches, each at its position. The positions between them are not looked at.
fn find_all(
    indices: &PrimitiveArray,
    alloc: Global,
    offset: usize,
) -> Result<PatchesBuilder, FastLanesError>
    requires rising { IsTrue (is_rising (numbers indices.now)) }
    requires first { count_below offset (numbers indices.now) ≡ 0 }
    ensures found { IfOk result (λ f. AreFoundTo offset (numbers indices.now) (length (numbers indices.now)) f.places.items f.ranks.items) }
    ensures memory { IfErr result (λ e. e ≡ OutOfMemory) }
{
    match_each_integer_ptype!(indices.ptype(), find_all_typed(indices, alloc, offset))
}

/// The patches at the positions that a mask keeps, and how many positions it keeps. Bits are looked at
/// one by one, but nothing is where the mask keeps all or none.
fn find_by_mask(
    indices: &PrimitiveArray,
    alloc: Global,
    offset: usize,
    mask: &Mask,
) -> Result<(PatchesBuilder, usize), FastLanesError>
    requires rising { IsTrue (is_rising (numbers indices.now)) }
    requires first { count_below offset (numbers indices.now) ≡ 0 }
    requires last { count_below (offset + mask_len mask.now) (numbers indices.now) ≡ length (numbers indices.now) }
    ensures found { IfOk result (λ f. AreFound f.0.places.items f.0.ranks.items (ranks_at offset (numbers indices.now) (map (λ i. Some i) (kept_positions mask.now (mask_len mask.now))))) }
    ensures len { IfOk result (λ f. f.1 ≡ length (kept_positions mask.now (mask_len mask.now))) }
    ensures memory { IfErr result (λ e. e ≡ OutOfMemory) }
{
    match mask {
        Mask::AllTrue(len) => Ok((find_all(indices, alloc, offset)?, *len)),
        Mask::AllFalse(_) => Ok((PatchesBuilder::new(alloc), 0)),
        Mask::Values(bits) => find_kept(indices, alloc, offset, bits),
    }
}

impl Patches {
    /// The patches of the items that the indices name, or `None` if there are none. A null index
    /// names no item, and the integer under it is never read. The offset is 0, the indices are of
    /// the smallest unsigned type that holds the number of items, and there are no chunk offsets.
    ///
    /// # Errors
    /// `IndexOutOfBounds` if an index is negative or not below the length.
    pub fn take(
        &self,
        alloc: Global,
        indices: &PrimitiveArray,
    ) -> Result<Option<Patches>, FastLanesError>
        ensures parts { Answers (λ o. o) result (take_patches (column_of_primitive indices.now).items self.now) }
        ensures map { IfOk result (λ o. ArePatches o (length (column_of_primitive indices.now).items) (patched_in_take (column_of_primitive indices.now).items self.now)) }
    {
        let positions = indices.positions(alloc, self.array_len())?;
        select(self, alloc, &positions)
    }

    /// The patches of the items whose bit of the mask is true, or `None` if there are none. The mask
    /// has the array's length. The offset is 0, the indices are of the smallest unsigned type that
    /// holds the number of items, and there are no chunk offsets.
    pub fn filter(&self, alloc: Global, mask: &Mask) -> Result<Option<Patches>, FastLanesError>
        requires { mask_len mask.now ≡ self.now.array_len }
        ensures parts { Answers (λ o. o) result (Ok (filter_patches mask.now self.now)) }
        ensures map { IfOk result (λ o. ArePatches o (length (kept_positions mask.now self.now.array_len)) (patched_in_filter mask.now self.now)) }
    {
        let (found, len) = find_by_mask(self.indices(), alloc, self.offset(), mask)?;
        found.finish(alloc, self.values(), len)
    }
}
