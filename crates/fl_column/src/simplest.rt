//! Plain arrays whose validity has its simplest form.

ghost use Rattle.std.specs.Prelude.{◌≡◌, ℤ, List, IsTrue, length};
ghost use Rattle.fl_types.specs.declared.dtype.Nullability.TheVariants.{Nullable};
ghost use Rattle.fl_types.specs.declared.validity.Validity.TheVariants.{AllInvalid, Array};
ghost use Rattle.fl_types.specs.Validities.{covers, items_of, nullability_of};
ghost use Rattle.fl_column.specs.Columns.{column_of_primitive, item_validity};

use crate::primitive::PrimitiveArray;
use fl_types::{BitList, Validity};

/// The simplest validity of items with these bits.
#[tactic(auto, using(crate::proofs::SimplestLaws::by_tests))]
fn simplest_of_bits(bits: BitList) -> Validity
    ensures value { (items : List ℤ) → length items ≡ length bits → result ≡ item_validity Nullable (items_of (Array bits) items) }
    ensures covers { IsTrue (covers result (length bits)) }
{
    if bits.are_all(true) {
        Validity::AllValid
    } else if bits.are_all(false) {
        Validity::AllInvalid
    } else {
        Validity::Array(bits)
    }
}

/// The simplest validity of `len` nulls.
#[tactic(auto, using(crate::proofs::SimplestLaws::null_simplest, crate::proofs::SimplestLaws::no_simplest))]
fn simplest_of_nulls(len: usize) -> Validity
    ensures value { (items : List ℤ) → length items ≡ len → result ≡ item_validity Nullable (items_of AllInvalid items) }
    ensures covers { IsTrue (covers result len) }
{
    if len > 0 {
        Validity::AllInvalid
    } else {
        Validity::AllValid
    }
}

/// The simplest validity that says the same of `len` items.
#[tactic(auto, using(crate::proofs::SimplestLaws::full_simplest))]
fn simplest(validity: Validity, len: usize) -> Validity
    requires { IsTrue (covers validity len) }
    ensures value { (items : List ℤ) → length items ≡ len → result ≡ item_validity (nullability_of validity) (items_of validity items) }
    ensures covers { IsTrue (covers result len) }
{
    match validity {
        Validity::NonNullable => Validity::NonNullable,
        Validity::AllValid => Validity::AllValid,
        Validity::AllInvalid => simplest_of_nulls(len),
        Validity::Array(bits) => simplest_of_bits(bits),
    }
}

impl PrimitiveArray {
    /// The same items with the simplest form of their validity: `AllValid` if no item is null,
    /// `AllInvalid` if every item is, and else a bit for each item. A non-nullable array stays
    /// `NonNullable`.
    #[tactic(auto, using(crate::proofs::SimplestLaws::simplest_column))]
    pub fn simplify_validity(self) -> PrimitiveArray
        ensures plain { result ≡ record { ptype = self.ptype; slots = self.slots; validity = item_validity (nullability_of self.validity) (column_of_primitive self).items } }
        ensures column { column_of_primitive result ≡ column_of_primitive self }
    {
        let (slots, validity) = self.into_parts();
        let len = slots.len();
        PrimitiveArray::from_buffer(slots, simplest(validity, len))
    }
}
