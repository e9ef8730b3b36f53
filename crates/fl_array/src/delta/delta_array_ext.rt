//! Accessors of delta arrays.

ghost use Rattle.std.specs.Prelude.{◌≡◌, length};
ghost use Rattle.std.specs.Option.{option_copied};
ghost use Rattle.fl_array.specs.BitPackedFields.{bits_of_validity};
ghost use Rattle.fl_array.specs.DeltaArrays.{DeltaArrayParts, tree_of_delta};
ghost use Rattle.fl_array.specs.Trees.{column};

use crate::array::ArrayRef;
use crate::bitpacking::bit_packed_array_ext::bits_of;
use crate::delta::DeltaArray;
use crate::delta::delta_data::DeltaData;
use fl_column::{BitList, DType};

/// The children of a delta array, and the bits of its validity.
#[derive(Clone, Copy)]
pub struct DeltaSlots<'a> {
    /// The bases: one for each lane of each block.
    pub bases: &'a ArrayRef,
    /// The deltas, at the positions at which blocks store items.
    pub deltas: &'a ArrayRef,
    /// The bits of the validity, if it has one for each item.
    pub validity_child: Option<&'a BitList>,
}

/// Accessors of delta arrays.
pub trait DeltaArrayExt {
    /// The parts of the array.
    ghost parts: { Self → DeltaArrayParts };

    /// The position of the first item in the first block, below 1024.
    fn offset(&self) -> usize
        ensures { result ≡ (parts self.now).parts.offset };

    /// The arrays inside, and the bits of the validity.
    fn slots(&self) -> DeltaSlots<'_>
        ensures bases { result.bases.now ≡ (parts self.now).bases }
        ensures deltas { result.deltas.now ≡ (parts self.now).deltas }
        ensures validity_child { option_copied result.validity_child ≡ bits_of_validity (parts self.now).parts.validity };

    /// What the array keeps beside the arrays inside.
    fn data(&self) -> DeltaData
        ensures { result ≡ (parts self.now).parts.offset };

    /// The number of items.
    fn len(&self) -> usize
        ensures { result ≡ length (column (tree_of_delta (parts self.now))).items };

    /// The type of the column.
    fn dtype(&self) -> DType
        ensures { result ≡ (column (tree_of_delta (parts self.now))).dtype };
}

impl DeltaArrayExt for DeltaArray {
    ghost parts = { λ a. a };

    fn offset(&self) -> usize {
        DeltaArray::offset(self)
    }

    fn slots(&self) -> DeltaSlots<'_> {
        DeltaSlots {
            bases: self.bases(),
            deltas: self.deltas(),
            validity_child: bits_of(self.validity()),
        }
    }

    fn data(&self) -> DeltaData {
        self.prove_low();
        DeltaData::new_unchecked(DeltaArray::offset(self))
    }

    fn len(&self) -> usize {
        DeltaArray::len(self)
    }

    fn dtype(&self) -> DType {
        self.dtype_from(self.bases().dtype())
    }
}
