//! Accessors of FoR arrays.

ghost use Rattle.std.specs.Prelude.{◌≡◌, Some, length, option_map};
ghost use Rattle.std.specs.Option.{option_copied};
ghost use Rattle.fl_types.specs.Types.{integer_type};
ghost use Rattle.fl_types.specs.Values.{scalar_parts};
ghost use Rattle.fl_array.specs.FoRArrays.{FoRArrayParts, chunk_references_in, offset_of_references, tree_of_for};
ghost use Rattle.fl_array.specs.FoRDataParts.{global_reference_in};
ghost use Rattle.fl_array.specs.Trees.{column};
ghost use Rattle.fl_array.specs.Views.{references_of_view};

use crate::array::ArrayRef;
use crate::for_::for_data::FoRData;
use crate::for_::{FoRArray, FoRReferences};
use fl_column::{DType, PType};

/// The arrays inside a FoR array.
#[derive(Clone, Copy)]
pub struct FoRSlots<'a> {
    /// The encoded items, to which the references are added.
    pub encoded: &'a ArrayRef,
    /// The references of the chunks, or `None` if there is one reference.
    pub blocked_references: Option<&'a ArrayRef>,
}

/// Accessors of FoR arrays.
pub trait FoRArrayExt {
    /// The parts of the array.
    ghost parts: { Self → FoRArrayParts };

    /// The references: one for all items, or one for each chunk of 1024.
    fn references(&self) -> FoRReferences<'_>
        ensures { references_of_view result (offset_of_references (parts self.now).references) ≡ (parts self.now).references };

    /// The position of the first item in its chunk, 0 if there is one reference.
    fn offset(&self) -> usize
        ensures { result ≡ offset_of_references (parts self.now).references };

    /// The integer type of the column.
    fn ptype(&self) -> PType
        ensures { Some result ≡ integer_type (column (tree_of_for (parts self.now))).dtype };

    /// The arrays inside.
    fn slots(&self) -> FoRSlots<'_>
        ensures encoded { result.encoded.now ≡ (parts self.now).encoded }
        ensures blocked_references { option_copied result.blocked_references ≡ chunk_references_in (parts self.now).references };

    /// The data of the array besides its children.
    fn data(&self) -> FoRData
        ensures offset { result.offset ≡ offset_of_references (parts self.now).references }
        ensures reference { option_map scalar_parts result.global_reference ≡ global_reference_in (parts self.now).references };

    /// The number of items.
    fn len(&self) -> usize
        ensures { result ≡ length (column (tree_of_for (parts self.now))).items };

    /// The type of the column.
    fn dtype(&self) -> DType
        ensures { result ≡ (column (tree_of_for (parts self.now))).dtype };
}

impl FoRArrayExt for FoRArray {
    ghost parts = { λ a. a };

    fn references(&self) -> FoRReferences<'_> {
        FoRArray::references(self)
    }

    fn offset(&self) -> usize {
        FoRArray::offset(self)
    }

    fn ptype(&self) -> PType {
        self.prove_integers();
        match FoRArrayExt::dtype(self) {
            DType::Primitive(ptype, _) => ptype,
            DType::Bool(_) => unreachable!(),
        }
    }

    fn slots(&self) -> FoRSlots<'_> {
        FoRSlots {
            encoded: self.encoded(),
            blocked_references: match FoRArray::references(self) {
                FoRReferences::Global(_) => None,
                FoRReferences::Blocked(references) => Some(references),
            },
        }
    }

    fn data(&self) -> FoRData {
        let reference = match FoRArray::references(self) {
            FoRReferences::Global(reference) => Some(*reference),
            FoRReferences::Blocked(_) => None,
        };
        FoRData::new(FoRArray::offset(self), reference)
    }

    fn len(&self) -> usize {
        self.len_from(self.encoded().len())
    }

    fn dtype(&self) -> DType {
        self.dtype_from(self.encoded().dtype())
    }
}
