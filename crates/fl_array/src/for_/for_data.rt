//! The data of a FoR array besides its children.

ghost use Rattle.std.specs.Prelude.{◌≡◌, IfOk, Ok, Some};
ghost use Rattle.fl_types.specs.Refusals.{Answers};
ghost use Rattle.fl_column.specs.Columns.{column_of_primitive};
ghost use Rattle.fl_array.specs.EncodedFoR.{encoded_for, encoded_for_chunked};
ghost use Rattle.fl_array.specs.FoRArrays.{tree_of_for};
ghost use Rattle.fl_array.specs.Trees.{column};
ghost use Rattle.fl_array.specs.FoRDataParts.{FoRDataParts, for_data_text, ptype_text, reference_text, scalar_text};

use crate::for_::FoRArray;
use crate::for_::for_compress::{for_encode, for_encode_chunked};
use fl_codec::for_::ItemOrder;
use fl_column::{FastLanesError, PType, PrimitiveArray, Scalar};
use std::alloc::Global;
use std::fmt;
use std::marker::Model;

/// The data of a FoR array besides its children: the position of its first item in its chunk, and the one
/// reference of all items, if there is one.
#[derive(Clone, Copy, Debug, PartialEq, Eq, Hash)]
pub struct FoRData {
    offset: usize,
    global_reference: Option<Scalar>,
}

impl Model for FoRData {
    ghost use Rattle.fl_array.specs.FoRDataParts.{FoRDataParts};

    ghost Value = { FoRDataParts };

    ghost view = { λ d. record { offset = d.offset; global_reference = d.global_reference } };

    ghost inverse = { λ d. record { offset = d.offset; global_reference = d.global_reference } };
}

impl FoRData {
    /// The data of these parts.
    pub(crate) fn new(offset: usize, global_reference: Option<Scalar>) -> FoRData
        ensures { result ≡ record { offset = offset; global_reference = global_reference } }
    {
        FoRData {
            offset,
            global_reference,
        }
    }

    /// The FoR array of a primitive one with one reference, as `FoR::encode` makes it.
    ///
    /// # Errors
    /// `NoMinimum` if no item is valid.
    pub fn encode(alloc: Global, array: &PrimitiveArray) -> Result<FoRArray, FastLanesError>
        ensures parts { Answers (λ a. a) result (encoded_for array.now) }
        ensures column { IfOk result (λ a. column (tree_of_for a) ≡ column_of_primitive array.now) }
    {
        for_encode(alloc, array, ItemOrder::Natural)
    }

    /// The FoR array of a primitive one with a reference for each chunk of 1024, as `FoR::encode_chunked` makes
    /// it.
    pub fn encode_chunked(alloc: Global, array: &PrimitiveArray) -> Result<FoRArray, FastLanesError>
        ensures parts { Answers (λ a. a) result (Ok (encoded_for_chunked array.now)) }
        ensures column { IfOk result (λ a. column (tree_of_for a) ≡ column_of_primitive array.now) }
    {
        for_encode_chunked(alloc, array, ItemOrder::Natural)
    }

    /// The position of the first item in its chunk, 0 if there is one reference.
    pub fn offset(&self) -> usize
        ensures { result ≡ self.now.offset }
    {
        self.offset
    }

    /// The one reference of all items, or `None` if each chunk has its own.
    pub fn global_reference(&self) -> Option<Scalar>
        ensures { result ≡ self.now.global_reference }
    {
        self.global_reference
    }
}

/// A scalar that is printed as its value and the name of its type.
#[derive(Drop)]
struct ScalarText(Scalar);

/// The name of an integer type.
fn ptype_name(ptype: PType) -> &'static str
    ensures { result.now ≡ ptype_text ptype }
{
    match ptype {
        PType::U8 => "u8",
        PType::U16 => "u16",
        PType::U32 => "u32",
        PType::U64 => "u64",
        PType::I8 => "i8",
        PType::I16 => "i16",
        PType::I32 => "i32",
        PType::I64 => "i64",
    }
}

impl fmt::Display for ScalarText {
    ghost output = { λ s. Some (scalar_text s.0) };

    fn fmt<W: fmt::Write>(&self, f: &mut fmt::Formatter<W>) -> fmt::Result {
        match self.0 {
            Scalar::Integer(value, _) => {
                let (number, name) = (value.as_i128(), ptype_name(value.ptype()));
                write!(f, "{number}{name}")
            }
            Scalar::Bool(value, _) => f.write_str(if value { "true" } else { "false" }),
            Scalar::NullInteger(_) | Scalar::NullBool => f.write_str("null"),
        }
    }
}

/// The one reference, if there is one, and a comma.
#[derive(Drop)]
struct ReferenceText(Option<Scalar>);

impl fmt::Display for ReferenceText {
    ghost output = { λ r. Some (reference_text r.0) };

    fn fmt<W: fmt::Write>(&self, f: &mut fmt::Formatter<W>) -> fmt::Result {
        match self.0 {
            Some(reference) => {
                let reference = ScalarText(reference);
                write!(f, "global_reference: {reference}, ")
            }
            None => Ok(()),
        }
    }
}

/// The one reference, if there is one, and the offset: `global_reference: -5i32, offset: 0` or `offset: 7`.
impl fmt::Display for FoRData {
    ghost output = { λ d. Some (for_data_text d) };

    fn fmt<W: fmt::Write>(&self, f: &mut fmt::Formatter<W>) -> fmt::Result {
        let (reference, offset) = (ReferenceText(self.global_reference), self.offset);
        write!(f, "{reference}offset: {offset}")
    }
}
