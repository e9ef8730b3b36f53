//! An array that is read block by block.

ghost use Rattle.std.specs.Prelude.{◌≡◌, IfErr, IfOk, IsTrue, OnOk, filter, length, map};
ghost use Rattle.fl_types.specs.declared.error.FastLanesError.TheVariants.{OutOfMemory};
ghost use Rattle.fl_types.specs.Refusals.{Answers};
ghost use Rattle.fl_types.specs.Types.{has_ptype};
ghost use Rattle.fl_bitpacking.specs.RangeTests.{IsTestOf, passes};
ghost use Rattle.fl_array.specs.Reads.{integer_column};
ghost use Rattle.fl_array.specs.Trees.{column};
ghost use Rattle.fl_scan.specs.Totals.{count_of, valid_items};

use crate::blocks::add_marked;
use crate::counts::count_marked;
use crate::filtering::filter_marked;
use crate::folds::Fold;
use fl_array::{ArrayRef, Reader};
use fl_bitpacking::RangeTest;
use fl_bitpacking::unpack_iter::BitPacked;
use fl_column::{FastLanesError, PhysicalPType, Validity};
use num_traits::WrappingAdd;
use std::alloc::Global;
use std::marker::Model;

/// An array that is read block by block, and which of its items are null. Contracts see the column.
#[derive(Drop)]
pub(crate) struct Blocks<'a> {
    reader: Reader<'a>,
    validity: Validity,
}

impl<'a> Model for Blocks<'a> {
    ghost use Rattle.fl_column.specs.Columns.{Column};
    ghost use Rattle.fl_array.specs.Reads.{IsValidityOf};

    ghost Value = { Column };

    ghost view = { λ b. b.reader.column };

    ghost invariant = { λ b. IsValidityOf b.validity b.reader.column };
}

impl<'a> Blocks<'a> {
    /// The blocks of an array of integers.
    ///
    /// # Errors
    /// `NotInteger` if the array is of booleans.
    pub(crate) fn try_new(alloc: Global, array: &'a ArrayRef) -> Result<Blocks<'a>, FastLanesError>
        ensures { Answers (λ b. b) result (integer_column (column array.now)) }
    {
        let validity = array.validity(alloc)?;
        let reader = Reader::try_new(alloc, array)?;
        Ok(Blocks { reader, validity })
    }
}

impl Blocks<'_> {
    /// The number of items.
    pub(crate) fn len(&self) -> usize
        ensures { result ≡ length self.now.items }
    {
        self.reader.len()
    }

    /// Gathers the valid items.
    pub(crate) fn add_valid<T: BitPacked + PhysicalPType + WrappingAdd, F: Fold<T>>(
        &self,
        fold: &mut F,
    ) -> Result<(), FastLanesError>
        requires { IsTrue (has_ptype T.PTYPE self.now.dtype) }
        ensures gathered { OnOk result (F.Leads fold.old (valid_items self.now) fold.new) }
        ensures memory { IfErr result (λ e. e ≡ OutOfMemory) }
    {
        add_marked(fold, &self.reader, &self.validity)
    }

    /// How many of the valid items pass a test.
    pub(crate) fn count<T: BitPacked + PhysicalPType + WrappingAdd>(
        &self,
        range: RangeTest,
    ) -> usize
        requires typed { IsTrue (has_ptype T.PTYPE self.now.dtype) }
        requires test { IsTestOf T.PTYPE range }
        ensures { result ≡ count_of (passes range) self.now }
    {
        count_marked::<T>(&self.reader, &self.validity, range)
    }

    /// The valid items that pass a test.
    pub(crate) fn filter<T: BitPacked + PhysicalPType + WrappingAdd>(
        &self,
        alloc: Global,
        range: RangeTest,
    ) -> Result<Vec<T>, FastLanesError>
        requires typed { IsTrue (has_ptype T.PTYPE self.now.dtype) }
        requires test { IsTestOf T.PTYPE range }
        ensures items { IfOk result (λ taken. map T.value taken.items ≡ filter (passes range) (valid_items self.now)) }
        ensures memory { IfErr result (λ e. e ≡ OutOfMemory) }
    {
        filter_marked(alloc, &self.reader, &self.validity, range)
    }
}
