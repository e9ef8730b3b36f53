//! The items of an array in a primitive one, which is decoded only where the array is of another kind.

ghost use Rattle.std.specs.Prelude.{◌≡◌};
ghost use Rattle.fl_types.specs.Refusals.{Answers};
ghost use Rattle.fl_column.specs.Columns.{column_of_primitive};
ghost use Rattle.fl_array.specs.PrimitiveCows.{primitive_of_cow};
ghost use Rattle.fl_array.specs.Reads.{integer_column};
ghost use Rattle.fl_array.specs.Trees.{column};

use crate::array::ArrayRef;
use fl_column::{FastLanesError, PrimitiveArray};
use std::alloc::Global;

/// A primitive array that is another array itself, or that was decoded from one.
#[derive(Drop)]
pub(crate) enum PrimitiveCow<'a> {
    Borrowed(&'a PrimitiveArray),
    Owned(PrimitiveArray),
}

impl PrimitiveCow<'_> {
    /// The primitive array.
    pub(crate) fn array(&self) -> &PrimitiveArray
        ensures { result.now ≡ primitive_of_cow self.now }
    {
        match self {
            PrimitiveCow::Borrowed(array) => array,
            PrimitiveCow::Owned(array) => array,
        }
    }
}

impl ArrayRef {
    /// The same column in a primitive array: this one if it is primitive, else decoded.
    ///
    /// # Errors
    /// `NotInteger` if the column is of booleans.
    #[cycle(decoding)]
    pub(crate) fn primitive_cow(&self, alloc: Global) -> Result<PrimitiveCow<'_>, FastLanesError>
        ensures { Answers (λ p. column_of_primitive (primitive_of_cow p)) result (integer_column (column self.now)) }
    {
        match self.as_primitive() {
            Some(array) => Ok(PrimitiveCow::Borrowed(array)),
            None => {
                let array = self.to_primitive(alloc)?;
                Ok(PrimitiveCow::Owned(array))
            }
        }
    }
}
