//! Items of packed columns at positions: those that indices name.

mod patch_values;
mod positions;
pub(crate) mod runs;

ghost use Rattle.std.specs.Prelude.{◌≡◌, ◌||◌, ◌+◌, ◌*◌, ◌<◌, ◌≤◌, ℕ, IfOk, IsTrue, None, Ok, drop, length, not, option_map, slice_index, slice_index_or, true};
ghost use Rattle.fl_types.specs.declared.dtype.DType.TheVariants.{Primitive};
ghost use Rattle.fl_types.specs.declared.dtype.Nullability.TheVariants.{Nullable};
ghost use Rattle.fl_types.specs.Integers.{bits_of_type};
ghost use Rattle.fl_types.specs.Refusals.{Answers};
ghost use Rattle.fl_types.specs.Types.{can_be_null, either_nullable};
ghost use Rattle.fl_types.specs.Validities.{nullability_of};
ghost use Rattle.fl_column.specs.Columns.{column_of_primitive};
ghost use Rattle.fl_column.specs.Operations.{item_named, take_column};
ghost use Rattle.fl_bitpacking.specs.Blocks.{blocks_of, value_at};
ghost use Rattle.fl_bitpacking.specs.Columns.{column_of_packed, packed_item};
ghost use Rattle.fl_bitpacking.specs.Parts.{AreReadable, Fit, blocks_to_read, parts_of};
ghost use Rattle.fl_bitpacking.specs.ReadWidths.{AreWidthsOf, are_read_by_runs};
ghost use Rattle.fl_bitpacking.specs.Taken.{AreBelow, ArePositions, AreSlots, HasStarts, items_named, items_taken, named_positions};

use crate::bit_packed::BitPacked;
use crate::bitpack_decompress::{PackedColumn, unpack_values, with_values, zeros};
use crate::blocks::PackedBlocks;
use crate::compute::take::patch_values::with_patches_at;
use crate::compute::take::positions::named_positions;
use crate::compute::take::runs::take_stored;
use crate::packed_data::PackedData;
use crate::packed_reader::PackedReader;
use fastlanes::Work;
use fl_column::{PhysicalPType, PrimitiveArray, PrimitiveBuilder, is_full};
use fl_patches::Widths;
use fl_types::{FastLanesError, NativePType, Nullability, Validity, match_each_integer_ptype};
use num_traits::WrappingAdd;
use std::alloc::{AllocError, Global};

/// Positions of items of a packed column, in any order.
#[derive(Clone, Copy)]
struct Taking<'a> {
    column: PackedColumn<'a>,
    widths: Widths<'a>,
    positions: &'a [usize],
}

/// One of these items.
fn read<T: NativePType>(items: &[T], i: usize) -> T
    requires { i < length items.now }
    ensures { T.value result ≡ value_at T.value items.now i }
{
    items[i]
}

/// The items at these positions.
fn gather<T: NativePType>(
    alloc: Global,
    items: &[T],
    positions: &[usize],
) -> Result<Vec<T>, AllocError>
    requires { AreBelow (length items.now) positions.now }
    ensures long { IfOk result (λ v. length v.items ≡ length positions.now) }
    ensures items { IfOk result (λ v. (i : ℕ) → i < length positions.now → value_at T.value v.items i ≡ value_at T.value items.now (slice_index positions.now i)) }
{
    let mut taken = Vec::with_capacity(alloc, positions.len())?;
    for k in 0..positions.len() {
        taken.push(read(items, positions[k]))?;
    }
    Ok(taken)
}

impl<'a> Taking<'a> {
    /// The blocks of the column.
    fn blocks(self) -> PackedBlocks<'a>
        ensures { result ≡ blocks_to_read self.entry.column self.entry.widths }
    {
        PackedBlocks {
            widths: self.widths,
            offset: self.column.offset,
            len: self.column.len,
        }
    }

    /// What is stored at the positions, where the blocks are unpacked or read run by run.
    fn slots_by_runs<T: BitPacked + PhysicalPType>(
        self,
        alloc: Global,
        work: &mut Work,
    ) -> Result<Vec<T>, AllocError>
        requires typed { self.column.ptype ≡ T.PTYPE }
        requires fit { Fit (parts_of self.column) }
        requires readable { AreReadable (bits_of_type self.column.ptype) self.column.packed.now (blocks_to_read self.column self.widths) }
        requires starts { HasStarts self.widths }
        requires below { AreBelow self.column.len self.positions.now }
        ensures slots { IfOk result (λ v. AreSlots T.value self.entry v.items) }
        ensures blocks { 17 * work.new.blocks ≤ 17 * work.old.blocks + length self.entry.positions.now }
        ensures words { work.new.words ≤ work.old.words + 2 * length self.entry.positions.now }
    {
        let mut reader = PackedReader::over(self.column.packed, work);
        let items = take_stored(alloc, self.blocks(), self.positions, &mut reader);
        *work = reader.finish();
        Ok(with_patches_at(items?, self.column.patches, self.positions))
    }

    /// What is stored at the positions, where all blocks are unpacked first.
    fn slots_of_all<T: BitPacked + WrappingAdd>(
        self,
        alloc: Global,
        work: &mut Work,
    ) -> Result<Vec<T>, AllocError>
        requires typed { self.column.ptype ≡ T.PTYPE }
        requires fit { Fit (parts_of self.column) }
        requires readable { AreReadable (bits_of_type self.column.ptype) self.column.packed.now (blocks_to_read self.column self.widths) }
        requires below { AreBelow self.column.len self.positions.now }
        ensures slots { IfOk result (λ v. AreSlots T.value self.entry v.items) }
    {
        let mut reader = PackedReader::over(self.column.packed, work);
        let values = unpack_values(alloc, self.blocks(), &mut reader);
        *work = reader.finish();
        let items = with_values(values?, self.column.patches);
        gather(alloc, &items, self.positions)
    }

    /// What is stored at the positions, where all blocks have width 0: no word is read.
    fn slots_of_zeros<T: NativePType>(self, alloc: Global) -> Result<Vec<T>, AllocError>
        requires typed { self.column.ptype ≡ T.PTYPE }
        requires fit { Fit (parts_of self.column) }
        requires zero { (j : ℕ) → (blocks_of self.widths).width j ≡ 0 }
        ensures { IfOk result (λ v. AreSlots T.value self.entry v.items) }
    {
        let stored = zeros(alloc, self.positions.len())?;
        Ok(with_patches_at(stored, self.column.patches, self.positions))
    }

    /// What is stored at the positions. Where all blocks have one width, more than an eighth of the items are taken out
    /// of all, which are unpacked first.
    fn taken_slots<T: BitPacked + PhysicalPType + WrappingAdd>(
        self,
        alloc: Global,
        work: &mut Work,
    ) -> Result<Vec<T>, AllocError>
        requires typed { self.column.ptype ≡ T.PTYPE }
        requires fit { Fit (parts_of self.column) }
        requires readable { AreReadable (bits_of_type self.column.ptype) self.column.packed.now (blocks_to_read self.column self.widths) }
        requires starts { HasStarts self.widths }
        requires below { AreBelow self.column.len self.positions.now }
        ensures slots { IfOk result (λ v. AreSlots T.value self.entry v.items) }
        ensures blocks { are_read_by_runs self.entry.widths ≡ true → 17 * work.new.blocks ≤ 17 * work.old.blocks + length self.entry.positions.now }
        ensures words { are_read_by_runs self.entry.widths ≡ true → work.new.words ≤ work.old.words + 2 * length self.entry.positions.now }
    {
        let Widths::Global(width) = self.widths else {
            return self.slots_by_runs(alloc, work);
        };
        if width == 0 {
            return self.slots_of_zeros(alloc);
        }
        if self.positions.len() > self.column.len / 8 {
            self.slots_of_all(alloc, work)
        } else {
            self.slots_by_runs(alloc, work)
        }
    }

    /// The item at the k-th position, of which `slots` has the stored integer, also under a null.
    fn item<T: NativePType>(self, slots: &[T], k: usize) -> Option<T>
        requires fit { Fit (parts_of self.column) }
        requires below { AreBelow self.column.len self.positions.now }
        requires slots { AreSlots T.value self slots.now }
        requires range { k < length slots.now }
        ensures { option_map T.value result ≡ packed_item (parts_of self.entry.column) (blocks_of self.entry.widths) (slice_index self.entry.positions.now k) }
    {
        if self
            .column
            .validity
            .is_valid(self.positions[k], self.column.len)
        {
            Some(read(slots, k))
        } else {
            None
        }
    }

    /// The items at the positions, some of which may be null.
    fn items_or_nulls<T: NativePType>(
        self,
        alloc: Global,
        slots: &[T],
        nullability: Nullability,
    ) -> Result<PrimitiveArray, FastLanesError>
        requires typed { self.column.ptype ≡ T.PTYPE }
        requires fit { Fit (parts_of self.column) }
        requires below { AreBelow self.column.len self.positions.now }
        requires slots { AreSlots T.value self slots.now }
        requires nulls { IsTrue (can_be_null nullability) }
        ensures { Answers column_of_primitive result (Ok (record { dtype = Primitive self.entry.column.ptype nullability; items = items_taken self.entry })) }
    {
        let mut taken = PrimitiveBuilder::with_capacity(alloc, slots.len())?;
        for k in 0..slots.len() {
            taken.push(alloc, self.item(slots, k))?;
        }
        Ok(taken.finish(nullability))
    }

    /// The items at the positions, in their order.
    fn items<T: NativePType>(
        self,
        alloc: Global,
        slots: Vec<T>,
        nullability: Nullability,
    ) -> Result<PrimitiveArray, FastLanesError>
        requires typed { self.column.ptype ≡ T.PTYPE }
        requires fit { Fit (parts_of self.column) }
        requires below { AreBelow self.column.len self.positions.now }
        requires slots { AreSlots T.value self slots.items }
        requires nulls { IsTrue (can_be_null nullability || not (can_be_null (nullability_of self.column.validity.now))) }
        ensures { Answers column_of_primitive result (Ok (record { dtype = Primitive self.entry.column.ptype nullability; items = items_taken self.entry })) }
    {
        if is_full(self.column.validity) {
            Ok(PrimitiveArray::without_nulls(slots, nullability))
        } else {
            self.items_or_nulls(alloc, &slots, nullability)
        }
    }

    /// The item that the k-th index names, null where the index is null, and the number of positions up to there,
    /// of which `next` come before.
    fn next_item<T: NativePType>(
        self,
        slots: &[T],
        indices: &PrimitiveArray,
        k: usize,
        next: usize,
    ) -> (Option<T>, usize)
        requires fit { Fit (parts_of self.column) }
        requires below { AreBelow self.column.len self.positions.now }
        requires slots { AreSlots T.value self slots.now }
        requires range { k < length indices.now.slots }
        requires few { next ≤ k }
        requires named { named_positions (drop k (column_of_primitive indices.now).items) ≡ drop next self.positions.now }
        ensures item { option_map T.value result.0 ≡ item_named (column_of_packed (parts_of self.entry.column) (blocks_of self.entry.widths)).items (slice_index_or (column_of_primitive indices.now).items k None) }
        ensures few { result.1 ≤ k + 1 }
        ensures named { named_positions (drop (k + 1) (column_of_primitive indices.now).items) ≡ drop result.1 self.entry.positions.now }
    {
        if indices.validity().is_valid(k, indices.len()) {
            (self.item(slots, next), next + 1)
        } else {
            (None, next)
        }
    }

    /// The items at the positions, with a null where an index is null. The positions are those of the other
    /// indices.
    fn items_between_nulls<T: NativePType>(
        self,
        alloc: Global,
        slots: &[T],
        indices: &PrimitiveArray,
    ) -> Result<PrimitiveArray, FastLanesError>
        requires typed { self.column.ptype ≡ T.PTYPE }
        requires fit { Fit (parts_of self.column) }
        requires below { AreBelow self.column.len self.positions.now }
        requires slots { AreSlots T.value self slots.now }
        requires named { self.positions.now ≡ named_positions (column_of_primitive indices.now).items }
        ensures { Answers column_of_primitive result (Ok (record { dtype = Primitive self.entry.column.ptype Nullable; items = items_named self.entry (column_of_primitive indices.now).items })) }
    {
        let mut taken = PrimitiveBuilder::with_capacity(alloc, indices.len())?;
        let mut next = 0;
        for k in 0..indices.len() {
            let (item, after) = self.next_item(slots, indices, k, next);
            taken.push(alloc, item)?;
            next = after;
        }
        Ok(taken.finish(Nullability::Nullable))
    }

    /// Whether the result of a take by these indices may have nulls.
    fn nullability_over(self, indices: &PrimitiveArray) -> Nullability
        ensures { result ≡ either_nullable (nullability_of self.entry.column.validity.now) (nullability_of indices.now.validity) }
    {
        self.column.validity.nullability().or(indices.nullability())
    }

    /// The items that indices name, null where an index is null. The positions are those of the other indices.
    fn named_items<T: NativePType>(
        self,
        alloc: Global,
        slots: Vec<T>,
        indices: &PrimitiveArray,
    ) -> Result<PrimitiveArray, FastLanesError>
        requires typed { self.column.ptype ≡ T.PTYPE }
        requires fit { Fit (parts_of self.column) }
        requires slots { AreSlots T.value self slots.items }
        requires positions { ArePositions self.column.len (column_of_primitive indices.now).items self.positions.now }
        ensures { Answers column_of_primitive result (take_column (column_of_primitive indices.now) (column_of_packed (parts_of self.entry.column) (blocks_of self.entry.widths))) }
    {
        if indices.has_null() {
            return self.items_between_nulls(alloc, &slots, indices);
        }
        let nullability = self.nullability_over(indices);
        self.items(alloc, slots, nullability)
    }
}

fn take_typed<T: BitPacked + PhysicalPType + WrappingAdd>(
    alloc: Global,
    taking: Taking,
    indices: &PrimitiveArray,
    work: &mut Work,
) -> Result<PrimitiveArray, FastLanesError>
    requires typed { taking.column.ptype ≡ T.PTYPE }
    requires fit { Fit (parts_of taking.column) }
    requires readable { AreReadable (bits_of_type taking.column.ptype) taking.column.packed.now (blocks_to_read taking.column taking.widths) }
    requires starts { HasStarts taking.widths }
    requires positions { ArePositions taking.column.len (column_of_primitive indices.now).items taking.positions.now }
    ensures column { Answers column_of_primitive result (take_column (column_of_primitive indices.now) (column_of_packed (parts_of taking.entry.column) (blocks_of taking.entry.widths))) }
    ensures blocks { are_read_by_runs taking.entry.widths ≡ true → 17 * work.new.blocks ≤ 17 * work.old.blocks + length (column_of_primitive indices.now).items }
    ensures words { are_read_by_runs taking.entry.widths ≡ true → work.new.words ≤ work.old.words + 2 * length (column_of_primitive indices.now).items }
{
    let slots = taking.taken_slots::<T>(alloc, work)?;
    taking.named_items(alloc, slots, indices)
}

/// The items that indices name, null where an index is null.
fn take_at(
    alloc: Global,
    taking: Taking,
    indices: &PrimitiveArray,
    work: &mut Work,
) -> Result<PrimitiveArray, FastLanesError>
    requires fit { Fit (parts_of taking.column) }
    requires readable { AreReadable (bits_of_type taking.column.ptype) taking.column.packed.now (blocks_to_read taking.column taking.widths) }
    requires starts { HasStarts taking.widths }
    requires positions { ArePositions taking.column.len (column_of_primitive indices.now).items taking.positions.now }
    ensures column { Answers column_of_primitive result (take_column (column_of_primitive indices.now) (column_of_packed (parts_of taking.entry.column) (blocks_of taking.entry.widths))) }
    ensures blocks { are_read_by_runs taking.entry.widths ≡ true → 17 * work.new.blocks ≤ 17 * work.old.blocks + length (column_of_primitive indices.now).items }
    ensures words { are_read_by_runs taking.entry.widths ≡ true → work.new.words ≤ work.old.words + 2 * length (column_of_primitive indices.now).items }
{
    match_each_integer_ptype!(
        taking.column.ptype,
        take_typed(alloc, taking, indices, work)
    )
}

/// The items of these parts that indices name, null where an index is null, where the blocks have these widths.
#[tactic(auto, using(crate::proofs::ReadWidths::readable, crate::proofs::ReadWidths::starts))]
fn take_column(
    alloc: Global,
    column: &PackedColumn,
    widths: Widths,
    indices: &PrimitiveArray,
    work: &mut Work,
) -> Result<PrimitiveArray, FastLanesError>
    requires fit { Fit (parts_of column.now) }
    requires widths { AreWidthsOf (parts_of column.now) widths }
    ensures column { Answers column_of_primitive result (take_column (column_of_primitive indices.now) (column_of_packed (parts_of column.now) (blocks_of widths.entry))) }
    ensures blocks { are_read_by_runs widths.entry ≡ true → 17 * work.new.blocks ≤ 17 * work.old.blocks + length (column_of_primitive indices.now).items }
    ensures words { are_read_by_runs widths.entry ≡ true → work.new.words ≤ work.old.words + 2 * length (column_of_primitive indices.now).items }
{
    let positions = named_positions(alloc, indices, column.len)?;
    let taking = Taking {
        column: *column,
        widths,
        positions: &positions,
    };
    take_at(alloc, taking, indices, work)
}

impl PackedData {
    /// The items that indices name, null where an index is null, whose blocks have these widths. The integer under a null
    /// index is never looked at. A take of more than an eighth of the items of blocks of one width unpacks all blocks; any
    /// other unpacks a block for more than sixteen indices in a row at least, and reads at most two words for each of the
    /// others.
    ///
    /// # Errors
    /// `IndexOutOfBounds` where an index is negative or not below the length.
    pub fn take(
        &self,
        alloc: Global,
        widths: Widths,
        indices: &PrimitiveArray,
        work: &mut Work,
    ) -> Result<PrimitiveArray, FastLanesError>
        requires { AreWidthsOf self.now widths }
        ensures column { Answers column_of_primitive result (take_column (column_of_primitive indices.now) (column_of_packed self.now (blocks_of widths.entry))) }
        ensures blocks { are_read_by_runs widths.entry ≡ true → 17 * work.new.blocks ≤ 17 * work.old.blocks + length (column_of_primitive indices.now).items }
        ensures words { are_read_by_runs widths.entry ≡ true → work.new.words ≤ work.old.words + 2 * length (column_of_primitive indices.now).items }
    {
        take_column(alloc, &self.column(), widths, indices, work)
    }
}
