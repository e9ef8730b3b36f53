//! The items of an array that a mask keeps.

ghost use Rattle.std.specs.Prelude.{◌≡◌, ◌<◌, ◌^◌, IfErr, IfOk, IsTrue, OnOk, filter, length, map};
ghost use Rattle.fl_types.specs.declared.error.FastLanesError.TheVariants.{OutOfMemory};
ghost use Rattle.fl_types.specs.Masks.{mask_len};
ghost use Rattle.fl_types.specs.Refusals.{Answers};
ghost use Rattle.fl_types.specs.Types.{has_ptype};
ghost use Rattle.fl_column.specs.Operations.{filter_of};
ghost use Rattle.fl_bitpacking.specs.RangeTests.{IsTestOf, passes};
ghost use Rattle.fl_array.specs.Trees.{column};
ghost use Rattle.fl_scan.specs.Totals.{count_of, of_integers, valid_column, valid_items};

use crate::blocks::add_marked;
use crate::counts::count_marked;
use crate::filtering::filter_marked;
use crate::folds::Fold;
use crate::marks::marks_of;
use fl_array::{ArrayRef, Reader};
use fl_bitpacking::RangeTest;
use fl_bitpacking::unpack_iter::BitPacked;
use fl_column::{FastLanesError, Mask, PhysicalPType, Validity};
use num_traits::WrappingAdd;
use std::alloc::Global;
use std::marker::Model;

/// The items of an array that a mask keeps and that are not null, which are read block by block. Contracts see their
/// column.
#[derive(Drop)]
pub(crate) struct Kept<'a> {
    reader: Reader<'a>,
    marks: Validity,
}

impl<'a> Model for Kept<'a> {
    ghost use Rattle.fl_column.specs.Columns.{Column};
    ghost use Rattle.fl_scan.specs.Blocks.{Marks, marked_column};

    ghost Value = { Column };

    ghost view = { λ k. marked_column k.marks k.reader.column };

    ghost invariant = { λ k. Marks k.marks k.reader.column };
}

impl<'a> Kept<'a> {
    /// The items of an array of integers that a mask keeps.
    ///
    /// # Errors
    /// `NotInteger` if the array is of booleans.
    pub(crate) fn try_new(
        alloc: Global,
        array: &'a ArrayRef,
        mask: &Mask,
    ) -> Result<Kept<'a>, FastLanesError>
        requires { mask_len mask.now ≡ length (column array.now).items }
        ensures { Answers (λ k. k) result (of_integers (column array.now) (valid_column (filter_of mask.now (column array.now)))) }
    {
        let validity = array.validity(alloc)?;
        let marks = marks_of(alloc, mask, validity)?;
        let reader = Reader::try_new(alloc, array)?;
        Ok(Kept { reader, marks })
    }
}

impl Kept<'_> {
    /// There are fewer than 2^64 items.
    pub(crate) fn prove_few(&self)
        ensures { length self.now.items < 2 ^ 64 }
    {
        let _len = self.reader.len();
    }

    /// Gathers the items.
    pub(crate) fn add<T: BitPacked + PhysicalPType + WrappingAdd, F: Fold<T>>(
        &self,
        fold: &mut F,
    ) -> Result<(), FastLanesError>
        requires { IsTrue (has_ptype T.PTYPE self.now.dtype) }
        ensures gathered { OnOk result (F.Leads fold.old (valid_items self.now) fold.new) }
        ensures memory { IfErr result (λ e. e ≡ OutOfMemory) }
    {
        add_marked(fold, &self.reader, &self.marks)
    }

    /// How many of the items pass a test.
    pub(crate) fn count<T: BitPacked + PhysicalPType + WrappingAdd>(
        &self,
        range: RangeTest,
    ) -> usize
        requires typed { IsTrue (has_ptype T.PTYPE self.now.dtype) }
        requires test { IsTestOf T.PTYPE range }
        ensures { result ≡ count_of (passes range) self.now }
    {
        count_marked::<T>(&self.reader, &self.marks, range)
    }

    /// The items that pass a test.
    pub(crate) fn filter<T: BitPacked + PhysicalPType + WrappingAdd>(
        &self,
        alloc: Global,
        range: RangeTest,
    ) -> Result<Vec<T>, FastLanesError>
        requires typed { IsTrue (has_ptype T.PTYPE self.now.dtype) }
        requires test { IsTestOf T.PTYPE range }
        ensures items { IfOk result (λ taken. map T.value taken.items ≡ filter (passes range) (valid_items self.now)) }
        ensures memory { IfErr result (λ e. e ≡ OutOfMemory) }
    {
        filter_marked(alloc, &self.reader, &self.marks, range)
    }
}
