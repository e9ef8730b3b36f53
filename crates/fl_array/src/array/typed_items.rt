//! Single items of arrays in the type of the column.

ghost use Rattle.std.specs.Prelude.{◌≡◌, ◌<◌, IfErr, IsTrue, None, Ok, length, option_map, slice_index_or};
ghost use Rattle.fl_types.specs.Refusals.{Answers};
ghost use Rattle.fl_types.specs.Types.{has_ptype};
ghost use Rattle.fl_column.specs.Columns.{column_of_primitive};
ghost use Rattle.fl_array.specs.Kinds.{has_delta, kind};
ghost use Rattle.fl_array.specs.Trees.{column};

use crate::array::{ArrayRef, Node};
use fastlanes::Work;
use fl_column::{FastLanesError, NativePType, PhysicalPType, PrimitiveArray};
use num_traits::WrappingAdd;
use std::alloc::Global;

/// An item of a primitive array, or `None` of a null.
fn get_primitive<T: NativePType>(array: &PrimitiveArray, i: usize) -> Option<T>
    requires typed { IsTrue (has_ptype T.PTYPE (column_of_primitive array.now).dtype) }
    requires range { i < length (column_of_primitive array.now).items }
    ensures { option_map T.value result ≡ slice_index_or (column_of_primitive array.now).items i None }
{
    let _len = array.len();
    match array.get(i) {
        Some(value) => T::from_pvalue(value),
        None => None,
    }
}

impl ArrayRef {
    /// The item at an index, or `None` of a null, by way of a scalar.
    #[inline(never)]
    fn get_of_scalar<T: NativePType>(
        &self,
        alloc: Global,
        i: usize,
    ) -> Result<Option<T>, FastLanesError>
        requires typed { IsTrue (has_ptype T.PTYPE (column self.now).dtype) }
        requires range { i < length (column self.now).items }
        ensures item { Answers (option_map T.value) result (Ok (slice_index_or (column self.now).items i None)) }
        ensures memory { IfErr result (λ e. IsTrue (has_delta (kind self.now))) }
    {
        match self.scalar_at(alloc, i)?.as_pvalue() {
            Some(value) => Ok(T::from_pvalue(value)),
            None => Ok(None),
        }
    }

    /// The item at an index, or `None` of a null, in the type of the column. Only deltas are decoded for it, so it
    /// allocates nothing unless the array is or holds a delta array. It is as `scalar_at`, but makes no scalar on
    /// the way through FoR and bit-packed arrays.
    ///
    /// # Errors
    /// Only `OutOfMemory`.
    #[cycle(getting)]
    #[inline(always)]
    pub fn get<T: PhysicalPType + WrappingAdd>(
        &self,
        alloc: Global,
        i: usize,
    ) -> Result<Option<T>, FastLanesError>
        requires typed { IsTrue (has_ptype T.PTYPE (column self.now).dtype) }
        requires range { i < length (column self.now).items }
        ensures item { Answers (option_map T.value) result (Ok (slice_index_or (column self.now).items i None)) }
        ensures memory { IfErr result (λ e. IsTrue (has_delta (kind self.now))) }
    {
        match &self.node {
            Node::Primitive(array) => Ok(get_primitive(array, i)),
            Node::BitPacked(array) => array.get(alloc, i, &mut Work::new()),
            Node::FoR(array) => {
                array.prove_smaller();
                array.get(alloc, i)
            }
            _ => self.get_of_scalar(alloc, i),
        }
    }
}
