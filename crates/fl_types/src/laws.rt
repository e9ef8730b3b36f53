//! Laws of the integer types.

ghost use Rattle.std.specs.Prelude.{◌≡◌, ◌<◌, ◌^◌, ℕ, ℤ, IsTrue};
ghost use Rattle.fl_types.specs.Integers.{bits_of_type, fits, pattern_of, read_as};
ghost use Rattle.fl_types.specs.Values.{integer_of, ptype_of_value};

use crate::dtype::PType;
use crate::match_each_integer_ptype;
use crate::native::NativePType;
use crate::scalar::PValue;

/// An integer of the type is read from its pattern.
#[tactic(auto, using(crate::proofs::Patterns::read_pattern))]
pub fn integers_have_patterns(ptype: PType)
    ensures { (z : ℤ) → IsTrue (fits ptype z) → read_as ptype (pattern_of ptype z) ≡ z }
{}

/// A pattern of the type's bits is that of the integer that it is read as.
#[tactic(auto, using(crate::proofs::Patterns::pattern_read))]
pub fn patterns_have_integers(ptype: PType)
    ensures { (p : ℕ) → p < 2 ^ bits_of_type ptype → pattern_of ptype (read_as ptype p) ≡ p }
{}

/// An integer of a type is in the type's range.
#[inline(always)]
pub fn integer_is_in_range<T: NativePType>(x: T)
    ensures { IsTrue (fits T.PTYPE (T.value x)) }
{
    let _value = x.into_pvalue();
}

fn typed_is_in_range<T: NativePType>(value: PValue)
    requires { ptype_of_value value ≡ T.PTYPE }
    ensures { IsTrue (fits (ptype_of_value value) (integer_of value)) }
{
    if let Some(x) = T::from_pvalue(value) {
        integer_is_in_range(x);
    }
}

/// The integer of a value is in the range of the value's type.
pub fn value_is_in_range(value: PValue)
    ensures { IsTrue (fits (ptype_of_value value) (integer_of value)) }
{
    match_each_integer_ptype!(value.ptype(), typed_is_in_range(value))
}
