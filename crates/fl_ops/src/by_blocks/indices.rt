//! Indices of any integer type, read one by one.

ghost use Rattle.std.specs.Prelude.{◌≡◌, ◌<◌, IsTrue, None, length, option_map, slice_index_or, unsigned_abs};
ghost use Rattle.std.specs.List.{list_all};
ghost use Rattle.fl_column.specs.Columns.{column_of_primitive};
ghost use Rattle.fl_column.specs.Operations.{is_in_range};
ghost use Rattle.fl_array.specs.Reads.{IsValidityOf};

use fastlanes::FL_CHUNK_SIZE;
use fl_column::{NativePType, PrimitiveArray, Validity, item_at};
use fl_types::match_each_integer_ptype;
use std::marker::Model;

/// Indices of one integer type. Contracts see the column of them.
#[derive(Drop)]
pub(crate) struct Indices<'a, I: NativePType> {
    slots: &'a [I],
    validity: &'a Validity,
}

impl<'a, I: NativePType> Model for Indices<'a, I> {
    ghost use Rattle.std.specs.Prelude.{IsTrue, length, map};
    ghost use Rattle.fl_types.specs.declared.dtype.DType.TheVariants.{Primitive};
    ghost use Rattle.fl_types.specs.Validities.{covers, items_of, nullability_of};
    ghost use Rattle.fl_column.specs.Columns.{Column};

    ghost Value = { Column };

    ghost view = { λ x. record { dtype = Primitive I.PTYPE (nullability_of x.validity.now); items = items_of x.validity.now (map I.value x.slots.now) } };

    ghost invariant = { λ x. IsTrue (covers x.validity.now (length x.slots.now)) };
}

impl<'a, I: NativePType> Indices<'a, I> {
    /// The indices that an array of their type has.
    pub(crate) fn of(array: &'a PrimitiveArray) -> Indices<'a, I>
        requires { array.now.ptype ≡ I.PTYPE }
        ensures { result ≡ column_of_primitive array.now }
    {
        let (slots, validity) = (array.as_slice::<I>(), array.validity());
        Indices { slots, validity }
    }

    /// The number of indices.
    pub(crate) fn len(&self) -> usize
        ensures { result ≡ length self.now.items }
    {
        self.slots.len()
    }

    /// Which indices are null.
    pub(crate) fn validity(&self) -> &Validity
        ensures { IsValidityOf result.now self.now }
    {
        self.validity
    }

    /// The position that index `k` names, or `None` where the index is null.
    pub(crate) fn position(&self, k: usize) -> Option<usize>
        requires { k < length self.now.items }
        ensures { result ≡ option_map unsigned_abs (slice_index_or self.now.items k None) }
    {
        let index = item_at(self.slots, self.validity, k)?;
        Some(index.unsigned_abs() as usize)
    }

    /// Whether index `k` is null or names one of `len` items.
    fn is_in_range(&self, k: usize, len: usize) -> bool
        requires { k < length self.now.items }
        ensures { result ≡ is_in_range len (slice_index_or self.now.items k None) }
    {
        match item_at(self.slots, self.validity, k) {
            Some(index) => {
                let index = index.as_i128();
                0 <= index && index < len as i128
            }
            None => true,
        }
    }

    /// Whether each index is null or names one of `len` items.
    fn are_in_range(&self, len: usize) -> bool
        ensures { result ≡ list_all (is_in_range len) self.now.items }
    {
        for k in 0..self.len() {
            if !self.is_in_range(k, len) {
                return false;
            }
        }
        true
    }

    /// In how many runs the indices name items of one block, where the first item is at an offset in its block.
    pub(crate) fn runs(&self, offset: usize) -> usize {
        let mut runs = 0usize;
        let mut last = None;
        for k in 0..self.len() {
            if let Some(position) = self.position(k) {
                let block = offset.saturating_add(position) / FL_CHUNK_SIZE;
                if last != Some(block) {
                    runs = runs.saturating_add(1);
                    last = Some(block);
                }
            }
        }
        runs
    }
}

fn are_in_range_typed<I: NativePType>(indices: &PrimitiveArray, len: usize) -> bool
    requires { indices.now.ptype ≡ I.PTYPE }
    ensures { result ≡ list_all (is_in_range len) (column_of_primitive indices.now).items }
{
    Indices::<I>::of(indices).are_in_range(len)
}

/// Whether each index is null or names one of `len` items.
pub(crate) fn are_in_range(indices: &PrimitiveArray, len: usize) -> bool
    ensures { result ≡ list_all (is_in_range len) (column_of_primitive indices.now).items }
{
    match_each_integer_ptype!(indices.ptype(), are_in_range_typed(indices, len))
}
