//! What is scanned of an array.

ghost use Rattle.std.specs.Prelude.{◌≡◌, IsTrue};
ghost use Rattle.fl_types.specs.Refusals.{Answers};
ghost use Rattle.fl_types.specs.Types.{is_integer};
ghost use Rattle.fl_column.specs.Columns.{column_of_constant};
ghost use Rattle.fl_array.specs.Reads.{integer_column};
ghost use Rattle.fl_array.specs.Trees.{column};
ghost use Rattle.fl_scan.specs.Sources.{column_of_source};

use crate::blocks::MOST_ITEMS;
use crate::prepared::Blocks;
use crate::source::Source;
use fl_array::ArrayRef;
use fl_column::{ConstantArray, FastLanesError};
use std::alloc::Global;

/// The column of a constant array is of integers.
fn prove_integers(constant: &ConstantArray)
    ensures { IsTrue (is_integer (column_of_constant constant.now).dtype) }
{
    let _ptype = constant.ptype();
}

/// What is scanned of an array: a plain or constant array itself, the blocks of any other one. One of more than 2^32
/// items is decoded.
///
/// # Errors
/// `NotInteger` if the array is of booleans.
pub(crate) fn source_of<'a>(
    alloc: Global,
    array: &'a ArrayRef,
) -> Result<Source<'a>, FastLanesError>
    ensures { Answers column_of_source result (integer_column (column array.now)) }
{
    if let Some(plain) = array.as_primitive() {
        return Ok(Source::Primitive(plain));
    }
    if let Some(constant) = array.as_constant() {
        prove_integers(constant);
        return Ok(Source::Constant(constant));
    }
    if array.len() <= MOST_ITEMS {
        return Ok(Source::Blocks(Blocks::try_new(alloc, array)?));
    }
    Ok(Source::Decoded(array.to_primitive(alloc)?))
}
