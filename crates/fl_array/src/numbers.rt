//! Natural numbers as scalars: indices, offsets and boundaries.

ghost use Rattle.std.specs.Prelude.{◌≡◌, pos, IsTrue, unsigned_abs, unwrap_or};
ghost use Rattle.fl_types.specs.Types.{is_integer};
ghost use Rattle.fl_types.specs.Values.{scalar_parts, integer_of, ptype_of_value};

use fl_column::{NativePType, PValue, Scalar};
use fl_types::laws::integer_is_in_range;
use fl_types::match_each_integer_ptype;

fn number_typed<T: NativePType>(value: PValue) -> usize
    requires { ptype_of_value value ≡ T.PTYPE }
    ensures { result ≡ unsigned_abs (integer_of value) }
{
    let value = T::from_pvalue(value).unwrap();
    integer_is_in_range(value);
    value.as_i128().unsigned_abs() as usize
}

/// The number of an item without a sign, 0 of a null.
pub(crate) fn number_of_scalar(item: Scalar) -> usize
    requires { IsTrue (is_integer (scalar_parts item).dtype) }
    ensures { result ≡ unsigned_abs (unwrap_or (scalar_parts item).value (pos 0)) }
{
    match item.as_pvalue() {
        Some(value) => match_each_integer_ptype!(value.ptype(), number_typed(value)),
        None => 0,
    }
}
