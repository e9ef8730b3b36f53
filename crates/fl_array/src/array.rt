//! Arrays of one of a closed set of kinds.

mod counted;
mod decode_into;
mod no_nulls;
pub(crate) mod primitive_cow;
mod ranges;
mod typed_items;

ghost use Rattle.std.specs.Prelude.{false, ◌≡◌, ◌≤◌, ◌<◌, length, Ok, IfErr, IfOk, IfSome, IsTrue};
ghost use Rattle.std.specs.Option.{option_copied};
ghost use Rattle.fl_types.specs.declared.error.FastLanesError.TheVariants.{OutOfMemory};
ghost use Rattle.fl_types.specs.Refusals.{Answers};
ghost use Rattle.fl_types.specs.Values.{scalar_parts};
ghost use Rattle.fl_column.specs.Columns.{column_of_bools, column_of_constant, column_of_primitive};
ghost use Rattle.fl_column.specs.Operations.{slice_of};
ghost use Rattle.fl_column.specs.Queries.{scalar_in};
ghost use Rattle.fl_array.specs.Trees.{Tree, column};
ghost use Rattle.fl_array.specs.Trees as tree;
ghost use Rattle.fl_array.specs.BitPackedArrays.{bitpacked_in, tree_of_bitpacked};
ghost use Rattle.fl_array.specs.DeltaArrays.{delta_in, tree_of_delta};
ghost use Rattle.fl_array.specs.FoRArrays.{for_in, tree_of_for};
ghost use Rattle.fl_array.specs.RLEArrays.{rle_in, tree_of_rle};
ghost use Rattle.fl_array.specs.Kinds.{has_delta, kind, plain_kind};
ghost use Rattle.fl_array.specs.Reads.{IsValidityOf, bools_in, constant_in, integer_column, primitive_in};
ghost use Rattle.fl_array.specs.StoredParts.{tree_of};
ghost use Rattle.fl_array.specs.Slices.{slice_tree};
ghost use Rattle.fl_array.specs.ToBlocked.{has_global_bitpacked, to_blocked_tree};
ghost use Rattle.fl_array.specs.WellFormed.{is_well_formed};

use crate::bitpacking::{BitPackedArray, BitWidths, BitWidthsView};
use crate::delta::DeltaArray;
use crate::for_::{FoRArray, FoRReferences};
use crate::proof_support::{prove_bools, prove_constant, prove_primitive};
use crate::reader::Reader;
use crate::rle::RLEArray;
use crate::validities::{bool_validity, constant_validity, primitive_validity};
use fastlanes::Work;
use fl_column::{
    BoolArray, ConstantArray, DType, FastLanesError, Nullability, PrimitiveArray, Scalar, Validity,
};
use std::alloc::Global;
use std::marker::Model;
use std::mem::replace;
use std::ops::Range;

/// An array of one of a closed set of kinds. Contracts see its tree of kinds and parts, and as `column`
/// the column that it stands for.
#[cycle(array)]
pub struct ArrayRef {
    node: Node,
}

// Written out, so that letting one go is one call in each function that owns one.
impl Drop for ArrayRef {
    #[cycle(array)]
    fn drop(self) {
        let ArrayRef { node: _ } = self;
    }
}

/// An array by its kind.
#[cycle(array)]
#[derive(Drop)]
pub enum Node {
    /// Integers, one by one.
    Primitive(PrimitiveArray),
    /// One integer or null, repeated.
    Constant(ConstantArray),
    /// Booleans, one by one.
    Bool(BoolArray),
    /// Integers in packed blocks, at one width or at a width for each block, with patches.
    BitPacked(BitPackedArray),
    /// An array of differences from one reference, or from a reference for each chunk.
    FoR(FoRArray),
    /// Bases, and differences between neighbouring items of a lane.
    Delta(DeltaArray),
    /// Run values, and for each item the index of its run value.
    RLE(RLEArray),
}

impl Model for ArrayRef {
    ghost use Rattle.std.specs.Prelude.{◌*◌};
    ghost use Rattle.std.proofs.Common.{arith};
    ghost use Rattle.fl_array.specs.Trees.{Tree, height};
    ghost use Rattle.fl_array.specs.Codes.{coded_tree};

    ghost Value = { Tree };

    ghost coded = { coded_tree };

    ghost use Rattle.fl_array.specs.StoredParts.{tree_of};

    ghost view = { λ a. tree_of a.node };

    ghost size = { λ t. 2 * height t };

    ghost size_decreases = { λ a h. Prim.grind arith };
}

/// An array of some kind, which an `ArrayRef` can hold.
pub trait IntoArray {
    /// The tree of the array.
    ghost tree: { Self → Tree };

    /// The array as an `ArrayRef`. It allocates nothing.
    fn into_array(self) -> ArrayRef
        ensures { result ≡ tree self };
}

impl IntoArray for PrimitiveArray {
    ghost tree = { λ p. tree.Primitive p };

    fn into_array(self) -> ArrayRef {
        ArrayRef {
            node: Node::Primitive(self),
        }
    }
}

impl IntoArray for ConstantArray {
    ghost tree = { λ c. tree.Constant c };

    fn into_array(self) -> ArrayRef {
        ArrayRef {
            node: Node::Constant(self),
        }
    }
}

impl IntoArray for BitPackedArray {
    ghost tree = { λ a. tree_of_bitpacked a };

    fn into_array(self) -> ArrayRef {
        ArrayRef {
            node: Node::BitPacked(self),
        }
    }
}

impl IntoArray for FoRArray {
    ghost tree = { λ a. tree_of_for a };

    fn into_array(self) -> ArrayRef {
        ArrayRef {
            node: Node::FoR(self),
        }
    }
}

impl IntoArray for DeltaArray {
    ghost tree = { λ a. tree_of_delta a };

    fn into_array(self) -> ArrayRef {
        ArrayRef {
            node: Node::Delta(self),
        }
    }
}

impl IntoArray for RLEArray {
    ghost tree = { λ a. tree_of_rle a };

    fn into_array(self) -> ArrayRef {
        ArrayRef {
            node: Node::RLE(self),
        }
    }
}

impl IntoArray for BoolArray {
    ghost tree = { λ b. tree.Bool b };

    fn into_array(self) -> ArrayRef {
        ArrayRef {
            node: Node::Bool(self),
        }
    }
}

impl ArrayRef {
    /// The array by its kind.
    pub fn node(&self) -> &Node
        ensures { tree_of result.now ≡ self.now }
    {
        &self.node
    }

    /// The parts of the array, and of each array in it, pass the checks of its constructor.
    pub(crate) fn prove_well_formed(&self)
        ensures { IsTrue (is_well_formed self.now) }
    {
        match &self.node {
            Node::Primitive(array) => prove_primitive(array),
            Node::Constant(array) => prove_constant(array),
            Node::Bool(array) => prove_bools(array),
            Node::BitPacked(array) => match array.bit_widths() {
                BitWidthsView::Global(width) => array.prove_at_width(width),
                BitWidthsView::Blocked(boundaries) => {
                    boundaries.prove_well_formed();
                    array.prove_between(boundaries)
                }
            },
            Node::FoR(array) => {
                array.encoded().prove_well_formed();
                match array.references() {
                    FoRReferences::Global(reference) => array.prove_over_reference(reference),
                    FoRReferences::Blocked(references) => {
                        references.prove_well_formed();
                        array.prove_over_references(references)
                    }
                }
            }
            Node::Delta(array) => {
                array.bases().prove_well_formed();
                array.deltas().prove_well_formed();
                array.prove_over_blocks()
            }
            Node::RLE(array) => {
                array.values().prove_well_formed();
                array.indices().prove_well_formed();
                array.offsets().prove_well_formed();
                array.prove_over_runs()
            }
        }
    }

    /// The number of items.
    pub fn len(&self) -> usize
        ensures { result ≡ length (column self.now).items }
    {
        match &self.node {
            Node::Primitive(array) => array.len(),
            Node::Constant(array) => array.len(),
            Node::Bool(array) => array.len(),
            Node::BitPacked(array) => array.len(),
            Node::FoR(array) => array.len_from(array.encoded().len()),
            Node::Delta(array) => array.len(),
            Node::RLE(array) => array.len(),
        }
    }

    /// The type of the column.
    pub fn dtype(&self) -> DType
        ensures { result ≡ (column self.now).dtype }
    {
        match &self.node {
            Node::Primitive(array) => array.dtype(),
            Node::Constant(array) => array.dtype(),
            Node::Bool(array) => array.dtype(),
            Node::BitPacked(array) => array.dtype(),
            Node::FoR(array) => array.dtype_from(array.encoded().dtype()),
            Node::Delta(array) => array.dtype_from(array.bases().dtype()),
            Node::RLE(array) => array.dtype_from(array.values().dtype(), array.indices().dtype()),
        }
    }

    /// The primitive array, if this is one.
    pub fn as_primitive(&self) -> Option<&PrimitiveArray>
        ensures parts { option_copied result ≡ primitive_in self.now }
        ensures column { IfSome result (λ p. column self.now ≡ column_of_primitive p.now) }
    {
        match &self.node {
            Node::Primitive(array) => Some(array),
            _ => None,
        }
    }

    /// The constant array, if this is one.
    pub fn as_constant(&self) -> Option<&ConstantArray>
        ensures parts { option_copied result ≡ constant_in self.now }
        ensures column { IfSome result (λ c. column self.now ≡ column_of_constant c.now) }
    {
        match &self.node {
            Node::Constant(array) => Some(array),
            _ => None,
        }
    }

    /// The bit-packed array, if this is one.
    pub fn as_bitpacked(&self) -> Option<&BitPackedArray>
        ensures parts { option_copied result ≡ bitpacked_in self.now }
        ensures tree { IfSome result (λ a. tree_of_bitpacked a.now ≡ self.now) }
    {
        match &self.node {
            Node::BitPacked(array) => Some(array),
            _ => None,
        }
    }

    /// The FoR array, if this is one.
    pub fn as_for(&self) -> Option<&FoRArray>
        ensures parts { option_copied result ≡ for_in self.now }
        ensures tree { IfSome result (λ a. tree_of_for a.now ≡ self.now) }
    {
        match &self.node {
            Node::FoR(array) => Some(array),
            _ => None,
        }
    }

    /// The delta array, if this is one.
    pub fn as_delta(&self) -> Option<&DeltaArray>
        ensures parts { option_copied result ≡ delta_in self.now }
        ensures tree { IfSome result (λ a. tree_of_delta a.now ≡ self.now) }
    {
        match &self.node {
            Node::Delta(array) => Some(array),
            _ => None,
        }
    }

    /// The run-length encoded array, if this is one.
    pub fn as_rle(&self) -> Option<&RLEArray>
        ensures parts { option_copied result ≡ rle_in self.now }
        ensures tree { IfSome result (λ a. tree_of_rle a.now ≡ self.now) }
    {
        match &self.node {
            Node::RLE(array) => Some(array),
            _ => None,
        }
    }

    /// The boolean array, if this is one.
    pub fn as_bool(&self) -> Option<&BoolArray>
        ensures parts { option_copied result ≡ bools_in self.now }
        ensures column { IfSome result (λ b. column self.now ≡ column_of_bools b.now) }
    {
        match &self.node {
            Node::Bool(array) => Some(array),
            _ => None,
        }
    }

    /// The boolean array, if this is one; it is not copied.
    pub fn into_bool(self) -> Option<BoolArray>
        ensures { result ≡ bools_in self }
    {
        let ArrayRef { node } = self;
        match node {
            Node::Bool(array) => Some(array),
            _ => None,
        }
    }

    /// Which items are null, and whether the column is nullable.
    pub fn validity(&self, alloc: Global) -> Result<Validity, FastLanesError>
        ensures validity { IfOk result (λ v. IsValidityOf v (column self.now)) }
        ensures memory { IfErr result (λ e. e ≡ OutOfMemory) }
    {
        match &self.node {
            Node::Primitive(array) => primitive_validity(array, alloc),
            Node::Constant(array) => Ok(constant_validity(array)),
            Node::Bool(array) => bool_validity(array, alloc),
            Node::BitPacked(array) => array.column_validity(alloc),
            Node::FoR(array) => {
                let validity = array.encoded().validity(alloc)?;
                Ok(array.column_validity(validity))
            }
            Node::Delta(array) => array.column_validity(alloc),
            Node::RLE(array) => {
                let validity = array.indices().validity(alloc)?;
                array.column_validity(alloc, validity, array.indices().len())
            }
        }
    }

    /// The same column in a boolean array if it is of booleans, else in a primitive array.
    pub fn decode(&self, alloc: Global) -> Result<ArrayRef, FastLanesError>
        ensures column { Answers column result (Ok (column self.now)) }
        ensures kind { IfOk result (λ a. kind a ≡ plain_kind (kind self.now)) }
    {
        match &self.node {
            Node::Primitive(array) => Ok(array.try_clone(alloc)?.into_array()),
            Node::Constant(array) => Ok(array.decode(alloc)?.into_array()),
            Node::Bool(array) => Ok(array.try_clone(alloc)?.into_array()),
            Node::BitPacked(array) => {
                array.prove_integers();
                Ok(self.to_primitive(alloc)?.into_array())
            }
            Node::FoR(array) => {
                array.prove_integers();
                Ok(self.to_primitive(alloc)?.into_array())
            }
            Node::Delta(array) => {
                array.prove_integers();
                Ok(self.to_primitive(alloc)?.into_array())
            }
            Node::RLE(array) => {
                array.prove_integers();
                Ok(self.to_primitive(alloc)?.into_array())
            }
        }
    }

    /// The same column in a primitive array.
    ///
    /// # Errors
    /// `NotInteger` if the column is of booleans.
    #[cycle(decoding)]
    pub fn to_primitive(&self, alloc: Global) -> Result<PrimitiveArray, FastLanesError>
        ensures { Answers column_of_primitive result (integer_column (column self.now)) }
    {
        match &self.node {
            Node::Primitive(array) => array.try_clone(alloc),
            Node::Constant(array) => array.decode(alloc),
            Node::Bool(_) => Err(FastLanesError::NotInteger),
            _ => {
                let reader = Reader::try_new(alloc, self)?;
                let validity = self.validity(alloc)?;
                reader.to_primitive(alloc, self.dtype(), validity)
            }
        }
    }

    /// The same column in a primitive array; an array that is one is not copied.
    ///
    /// # Errors
    /// `NotInteger` if the column is of booleans.
    pub fn into_primitive(mut self, alloc: Global) -> Result<PrimitiveArray, FastLanesError>
        ensures { Answers column_of_primitive result (integer_column (column self)) }
    {
        if let Node::Primitive(array) = &mut self.node {
            let empty = PrimitiveArray::without_nulls(
                Vec::<u8>::new(alloc),
                Nullability::NonNullable,
            );
            return Ok(replace(array, empty));
        }
        self.to_primitive(alloc)
    }

    /// A copy.
    pub fn try_clone(&self, alloc: Global) -> Result<ArrayRef, FastLanesError>
        ensures { Answers (λ a. a) result (Ok self.now) }
    {
        match &self.node {
            Node::Primitive(array) => Ok(array.try_clone(alloc)?.into_array()),
            Node::Constant(array) => Ok(array.try_clone().into_array()),
            Node::Bool(array) => Ok(array.try_clone(alloc)?.into_array()),
            Node::BitPacked(array) => match array.bit_widths() {
                BitWidthsView::Global(width) => {
                    Ok(
                        array
                            .clone_with(alloc, BitWidths::Global(width))?
                            .into_array(),
                    )
                }
                BitWidthsView::Blocked(boundaries) => {
                    let widths = BitWidths::Blocked(boundaries.try_clone(alloc)?);
                    Ok(array.clone_with(alloc, widths)?.into_array())
                }
            },
            Node::FoR(array) => {
                let encoded = array.encoded().try_clone(alloc)?;
                match array.references() {
                    FoRReferences::Global(reference) => {
                        Ok(array.with_encoded(alloc, encoded, *reference)?.into_array())
                    }
                    FoRReferences::Blocked(references) => {
                        let references = references.try_clone(alloc)?;
                        Ok(
                            array
                                .clone_chunked(alloc, encoded, references)?
                                .into_array(),
                        )
                    }
                }
            }
            Node::Delta(array) => {
                let bases = array.bases().try_clone(alloc)?;
                let deltas = array.deltas().try_clone(alloc)?;
                Ok(array.clone_with(alloc, bases, deltas)?.into_array())
            }
            Node::RLE(array) => {
                let values = array.values().try_clone(alloc)?;
                let indices = array.indices().try_clone(alloc)?;
                let offsets = array.offsets().try_clone(alloc)?;
                Ok(
                    array
                        .clone_with(alloc, values, indices, offsets)?
                        .into_array(),
                )
            }
        }
    }

    /// The same array with a width for each block in each bit-packed array in it, however deep. Nothing is
    /// packed again, and the packed bytes are shared.
    ///
    /// # Errors
    /// Only `OutOfMemory`.
    #[tactic(auto, using(crate::proofs::ToBlockedLaws::to_blocked_keeps_column, crate::proofs::ToBlockedLaws::no_global_bitpacked))]
    pub fn to_blocked(&self, alloc: Global) -> Result<ArrayRef, FastLanesError>
        ensures tree { Answers (λ a. a) result (Ok (to_blocked_tree self.now)) }
        ensures column { Answers column result (Ok (column self.now)) }
        ensures kind { IfOk result (λ a. has_global_bitpacked (kind a) ≡ false) }
    {
        match &self.node {
            Node::Primitive(array) => Ok(array.try_clone(alloc)?.into_array()),
            Node::Constant(array) => Ok(array.try_clone().into_array()),
            Node::Bool(array) => Ok(array.try_clone(alloc)?.into_array()),
            Node::BitPacked(array) => match array.bit_widths() {
                BitWidthsView::Global(width) => {
                    Ok(array.between_boundaries(alloc, width)?.into_array())
                }
                BitWidthsView::Blocked(boundaries) => {
                    let blocked = boundaries.to_blocked(alloc)?;
                    Ok(array.over_blocked(alloc, boundaries, blocked)?.into_array())
                }
            },
            Node::FoR(array) => {
                let encoded = array.encoded().to_blocked(alloc)?;
                match array.references() {
                    FoRReferences::Global(reference) => {
                        Ok(array.over_blocked(alloc, encoded, *reference)?.into_array())
                    }
                    FoRReferences::Blocked(references) => {
                        let blocked = references.to_blocked(alloc)?;
                        Ok(
                            array
                                .over_blocked_chunked(alloc, references, encoded, blocked)?
                                .into_array(),
                        )
                    }
                }
            }
            Node::Delta(array) => {
                let bases = array.bases().to_blocked(alloc)?;
                let deltas = array.deltas().to_blocked(alloc)?;
                Ok(array.over_blocked(alloc, bases, deltas)?.into_array())
            }
            Node::RLE(array) => {
                let values = array.values().to_blocked(alloc)?;
                let indices = array.indices().to_blocked(alloc)?;
                let offsets = array.offsets().to_blocked(alloc)?;
                Ok(
                    array
                        .over_blocked(alloc, values, indices, offsets)?
                        .into_array(),
                )
            }
        }
    }

    /// The item at an index, with the column's type. Only deltas are decoded for it, so it allocates nothing
    /// unless the array is or holds a delta array.
    #[cycle(reading)]
    pub fn scalar_at(&self, alloc: Global, i: usize) -> Result<Scalar, FastLanesError>
        requires { i < length (column self.now).items }
        ensures item { Answers scalar_parts result (Ok (scalar_in (column self.now) i)) }
        ensures memory { IfErr result (λ e. IsTrue (has_delta (kind self.now))) }
    {
        match &self.node {
            Node::Primitive(array) => Ok(array.scalar_at(i)),
            Node::Constant(array) => Ok(array.scalar_at(i)),
            Node::Bool(array) => Ok(array.scalar_at(i)),
            Node::BitPacked(array) => {
                array.prove_smaller();
                array.scalar_at(alloc, i, &mut Work::new())
            }
            Node::FoR(array) => {
                array.prove_smaller();
                array.scalar_at(alloc, i)
            }
            Node::Delta(array) => array.scalar_at(alloc, i),
            Node::RLE(array) => array.scalar_at(alloc, i),
        }
    }

    /// The items of a range, in an array of the same kinds. Nothing is decoded.
    #[cycle(reading)]
    #[tactic(auto, using(crate::proofs::SliceLaws::kind_of_slice))]
    pub fn slice(&self, alloc: Global, range: Range<usize>) -> Result<ArrayRef, FastLanesError>
        requires order { range.start ≤ range.end }
        requires range { range.end ≤ length (column self.now).items }
        ensures tree { Answers (λ a. a) result (Ok (slice_tree range.start range.end self.now)) }
        ensures column { Answers column result (Ok (slice_of range.start range.end (column self.now))) }
        ensures kind { IfOk result (λ a. kind a ≡ kind self.now) }
    {
        match &self.node {
            Node::Primitive(array) => Ok(array.slice(alloc, range.start, range.end)?.into_array()),
            Node::Constant(array) => Ok(array.slice(range.start, range.end).into_array()),
            Node::Bool(array) => Ok(array.slice(alloc, range.start, range.end)?.into_array()),
            Node::BitPacked(array) => {
                array.prove_smaller();
                Ok(array.slice(alloc, range.start, range.end)?.into_array())
            }
            Node::FoR(array) => {
                array.prove_smaller();
                Ok(array.slice(alloc, range.start, range.end)?.into_array())
            }
            Node::Delta(array) => Ok(array.slice(alloc, range.start, range.end)?.into_array()),
            Node::RLE(array) => Ok(array.slice(alloc, range.start, range.end)?.into_array()),
        }
    }
}
