//! What an array is.

ghost use Rattle.std.specs.Prelude.{◌≡◌, None};
ghost use Rattle.fl_array.specs.Trees.{column};
ghost use Rattle.fl_column.specs.Queries.{are_constant, is_constant_column, is_sorted_column};
ghost use Rattle.flcol_container.specs.Container.{dtype_byte};
ghost use Rattle.flcol_c.specs.Looks.{are_in_order};
ghost use Rattle.flcol_c.specs.Reading.{nulls_in};
ghost use Rattle.flcol_c.specs.Statuses.{Gives, refusal_in};

use crate::fault::Fault;
use crate::validities::null_count;
use fl_array::ArrayRef;
use fl_ops::ArrayOps;
use fl_types::{DType, Nullability, PType};
use std::alloc::Global;

/// The byte of a type: the number of an integer type, or 8 for booleans, and 16 more where items may be null.
pub(crate) fn dtype_byte(dtype: DType) -> u8
    ensures { result ≡ dtype_byte dtype }
{
    let kind = match dtype {
        DType::Primitive(PType::U8, _) => 0,
        DType::Primitive(PType::U16, _) => 1,
        DType::Primitive(PType::U32, _) => 2,
        DType::Primitive(PType::U64, _) => 3,
        DType::Primitive(PType::I8, _) => 4,
        DType::Primitive(PType::I16, _) => 5,
        DType::Primitive(PType::I32, _) => 6,
        DType::Primitive(PType::I64, _) => 7,
        DType::Bool(_) => 8,
    };
    match dtype.nullability() {
        Nullability::NonNullable => kind,
        Nullability::Nullable => kind + 16,
    }
}

/// How many items are null.
pub(crate) fn nulls(alloc: Global, array: &ArrayRef) -> Result<usize, Fault>
    ensures { Gives None (λ n. n ≡ nulls_in (column array.now)) result }
{
    let validity = array.validity(alloc)?;
    Ok(null_count(&validity, array.len()))
}

/// Whether all items are equal.
///
/// # Errors
/// `NotInteger`.
#[tactic(auto, using(crate::proofs::StatusLaws::refused))]
pub(crate) fn is_constant(alloc: Global, array: &ArrayRef) -> Result<bool, Fault>
    ensures { Gives (refusal_in (is_constant_column (column array.now))) (λ b. b ≡ are_constant (column array.now).items) result }
{
    Ok(array.is_constant(alloc)?)
}

/// Whether no item is above the next or, where `strict`, each is below the next.
///
/// # Errors
/// `NotInteger`.
#[tactic(auto, using(crate::proofs::StatusLaws::refused))]
pub(crate) fn is_sorted(alloc: Global, array: &ArrayRef, strict: bool) -> Result<bool, Fault>
    ensures { Gives (refusal_in (is_sorted_column strict (column array.now))) (λ b. b ≡ are_in_order strict (column array.now).items) result }
{
    Ok(array.is_sorted(alloc, strict)?)
}
