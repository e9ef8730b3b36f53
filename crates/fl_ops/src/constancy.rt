//! Whether all items are equal. Of a FoR array of one reference the encoded array answers.

ghost use Rattle.std.specs.Prelude.{◌≡◌};
ghost use Rattle.fl_types.specs.Refusals.{Answers};
ghost use Rattle.fl_column.specs.Queries.{is_constant_column};
ghost use Rattle.fl_array.specs.Trees.{column};

use crate::plain_ops;
use crate::selection::as_global_for;
use fl_array::ArrayRef;
use fl_array::laws::items_are_in_range;
use fl_column::FastLanesError;
use std::alloc::Global;

/// Whether all items are equal.
pub(crate) fn is_constant(alloc: Global, array: &ArrayRef) -> Result<bool, FastLanesError>
    ensures { Answers (λ b. b) result (is_constant_column (column array.now)) }
{
    match as_global_for(array) {
        Some((encoded, _)) => {
            let child = encoded.encoded();
            items_are_in_range(child);
            is_constant(alloc, child)
        }
        None => plain_ops::is_constant(alloc, array),
    }
}
