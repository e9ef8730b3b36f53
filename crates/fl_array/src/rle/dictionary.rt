//! Run-length encoded arrays whose run values are the dictionary of each chunk.

ghost use Rattle.std.specs.Prelude.{◌≡◌, IfOk, Ok};
ghost use Rattle.fl_types.specs.Refusals.{Answers};
ghost use Rattle.fl_column.specs.Columns.{column_of_primitive};
ghost use Rattle.fl_array.specs.RLEArrays.{encoded_dictionary, tree_of_rle};
ghost use Rattle.fl_array.specs.Trees.{column};

use crate::array::IntoArray;
use crate::rle::{RLE, RLEArray};
use fl_codec::laws::dictionaries_and_back;
use fl_codec::rle::Runs;
use fl_codec::rle::dictionary::encode;
use fl_column::{FastLanesError, PrimitiveArray};
use std::alloc::Global;

/// Encoding by a dictionary for each chunk: its constructor. The array is run-length encoded, so that whatever reads such
/// arrays reads this one.
#[derive(Clone, Copy, Debug)]
pub struct Dictionary;

impl Dictionary {
    /// The run-length encoded array of a primitive one whose run values are, in each chunk of 1024, the distinct items in
    /// rising order, with `u16` indices, each the number of run values of the chunk below the item, and `u64` run offsets. A
    /// null counts as the last item before it in its chunk, or as 0 if there is none; a short last chunk is padded with its
    /// last item, and the indices of the padding are null if the column's validity has a bit for each item or no item is
    /// valid.
    ///
    /// # Errors
    /// Only `OutOfMemory`.
    pub fn encode(alloc: Global, array: &PrimitiveArray) -> Result<RLEArray, FastLanesError>
        ensures parts { Answers (λ a. a) result (Ok (encoded_dictionary array.now)) }
        ensures column { IfOk result (λ a. column (tree_of_rle a) ≡ column_of_primitive array.now) }
    {
        dictionaries_and_back(array);
        let (len, _validity) = (array.len(), array.validity());
        let Runs {
            values,
            indices,
            offsets,
        } = encode(alloc, array)?;
        let (_values, _indices, _offsets) = (
            values.validity(),
            indices.validity(),
            offsets.validity(),
        );
        RLE::new_unchecked(
            alloc,
            values.into_array(),
            indices.into_array(),
            offsets.into_array(),
            0,
            len,
        )
    }
}
