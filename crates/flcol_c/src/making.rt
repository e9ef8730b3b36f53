//! Arrays made of what C hands in.

ghost use Rattle.std.specs.Prelude.{◌≡◌, None, length, map};
ghost use Rattle.fl_array.specs.Trees.{Constant, Primitive};
ghost use Rattle.flcol_c.specs.Bitmaps.{short_fault};
ghost use Rattle.flcol_c.specs.Operations.{repeated};
ghost use Rattle.flcol_c.specs.Statuses.{Gives, GivesAfter};
ghost use Rattle.flcol_c.specs.Values.{plain_in};

use crate::bitmaps::short_fault;
use crate::fault::Fault;
use crate::values::plain_of;
use fl_array::{ArrayRef, IntoArray};
use fl_column::{ConstantArray, DType, NativePType, Nullability, Scalar};
use std::alloc::Global;

/// The plain array of these values, of which those are valid whose bits are set; of no nullable type where there
/// is no byte.
///
/// # Errors
/// `ValidityLength` where there are bytes, but fewer bits than values.
pub(crate) fn from_values<T: NativePType>(
    alloc: Global,
    values: &[T],
    validity: &[u8],
) -> Result<ArrayRef, Fault>
    ensures { GivesAfter (short_fault validity.now (length values.now)) None (λ t. t ≡ Primitive (plain_in T.PTYPE (map T.value values.now) validity.now)) result }
{
    if let Some(fault) = short_fault(validity, values.len()) {
        return Err(fault);
    }
    Ok(plain_of(alloc, values, validity)?.into_array())
}

/// This many times a value, without nulls, or where the number is not 0 a null.
pub(crate) fn constant<T: NativePType>(value: T, is_null: u8, len: usize) -> Result<ArrayRef, Fault>
    ensures { Gives None (λ t. t ≡ Constant (repeated T.PTYPE (T.value value) is_null len)) result }
{
    let scalar = if is_null == 0 {
        Scalar::primitive(value.into_pvalue(), Nullability::NonNullable)
    } else {
        Scalar::null(DType::Primitive(T::PTYPE, Nullability::Nullable))
    };
    Ok(ConstantArray::new(scalar, len)?.into_array())
}
