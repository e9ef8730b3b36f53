//! The sum of the items of a column.

ghost use Rattle.std.specs.Prelude.{◌≡◌, IfErr, IfOk, IsTrue, Ok};
ghost use Rattle.std.specs.Int.{int_wrap, w128};
ghost use Rattle.std.specs.List.{list_all};
ghost use Rattle.fl_types.specs.declared.error.FastLanesError.TheVariants.{OutOfMemory};
ghost use Rattle.fl_types.specs.Integers.{fits, is_unsigned};
ghost use Rattle.fl_types.specs.Refusals.{Answers};
ghost use Rattle.fl_types.specs.Types.{has_ptype};
ghost use Rattle.fl_column.specs.Columns.{option_all};
ghost use Rattle.fl_scan.specs.Sources.{column_of_source};
ghost use Rattle.fl_scan.specs.Sums.{integer_of_sum, is_unsigned_sum};
ghost use Rattle.fl_scan.specs.Totals.{sum_of};

use crate::source::Source;
use crate::totals::wrapped_sum;
use fl_column::{FastLanesError, PType};
use fl_types::match_each_integer_ptype;

/// A sum. Fewer than 2^64 items of at most 64 bits have one of at most 128 bits, so none wraps.
#[derive(Clone, Copy, Debug, PartialEq, Eq)]
pub enum Sum {
    /// Of integers of a signed type.
    Signed(i128),
    /// Of integers of an unsigned type.
    Unsigned(u128),
}

/// The sum of the valid items of a type, modulo 2 to the power of 128.
fn wrapped(source: &Source, ptype: PType) -> Result<i128, FastLanesError>
    requires { IsTrue (has_ptype ptype (column_of_source source.now).dtype) }
    ensures sum { IfOk result (λ sum. int_wrap w128 sum ≡ int_wrap w128 (sum_of (column_of_source source.now))) }
    ensures memory { IfErr result (λ e. e ≡ OutOfMemory) }
{
    match_each_integer_ptype!(ptype, wrapped_sum(source))
}

/// The sum of the valid items of a type.
pub(crate) fn sum_typed(source: &Source, ptype: PType) -> Result<Sum, FastLanesError>
    requires typed { IsTrue (has_ptype ptype (column_of_source source.now).dtype) }
    requires fit { IsTrue (list_all (option_all (fits ptype)) (column_of_source source.now).items) }
    ensures sum { Answers integer_of_sum result (Ok (sum_of (column_of_source source.now))) }
    ensures typed { IfOk result (λ sum. is_unsigned_sum sum ≡ is_unsigned ptype) }
{
    source.prove_few();
    let sum = wrapped(source, ptype)?;
    match ptype {
        PType::U8 | PType::U16 | PType::U32 | PType::U64 => Ok(Sum::Unsigned(sum.cast_unsigned())),
        PType::I8 | PType::I16 | PType::I32 | PType::I64 => Ok(Sum::Signed(sum)),
    }
}
