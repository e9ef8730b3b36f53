//! Single items of columns stored as differences from a reference.

ghost use Rattle.std.specs.Prelude.{◌≡◌, ◌+ℤ◌, Some};
ghost use Rattle.fl_types.specs.Integers.{wrap};
ghost use Rattle.fl_types.specs.Types.{integer_type};
ghost use Rattle.fl_types.specs.Values.{scalar_parts, integer_of, ptype_of_value};
ghost use Rattle.fl_codec.specs.FoRColumns.{plus_reference};

use fl_types::{NativePType, PValue, Scalar, match_each_integer_ptype};
use num_traits::WrappingAdd;

fn sum_typed<T: NativePType + WrappingAdd>(value: PValue, reference: PValue) -> PValue
    requires value { ptype_of_value value ≡ T.PTYPE }
    requires reference { ptype_of_value reference ≡ T.PTYPE }
    ensures sum { integer_of result ≡ wrap T.PTYPE (integer_of value +ℤ integer_of reference) }
    ensures typed { ptype_of_value result ≡ T.PTYPE }
{
    let value = T::from_pvalue(value).unwrap();
    let reference = T::from_pvalue(reference).unwrap();
    value.wrapping_add(&reference).into_pvalue()
}

/// The sum of two values of one type, modulo 2 to the type's bits.
fn sum(value: PValue, reference: PValue) -> PValue
    requires { ptype_of_value value ≡ ptype_of_value reference }
    ensures sum { integer_of result ≡ wrap (ptype_of_value reference) (integer_of value +ℤ integer_of reference) }
    ensures typed { ptype_of_value result ≡ ptype_of_value reference }
{
    match_each_integer_ptype!(reference.ptype(), sum_typed(value, reference))
}

/// An item plus a reference of its type, modulo 2 to the type's bits. Nulls stay null.
pub fn plus_reference(item: Scalar, reference: PValue) -> Scalar
    requires { integer_type (scalar_parts item).dtype ≡ Some (ptype_of_value reference) }
    ensures { scalar_parts result ≡ record { dtype = (scalar_parts item).dtype; value = plus_reference (ptype_of_value reference) (integer_of reference) (scalar_parts item).value } }
{
    match item {
        Scalar::Integer(value, nullability) => {
            Scalar::primitive(sum(value, reference), nullability)
        }
        other => other,
    }
}
