//! The data of a bit-packed array besides its children.

ghost use Rattle.std.specs.Prelude.{◌≡◌, ◌≤◌, ◌<◌, IfOk, IfSome, None, Ok, Some, map, option_map};
ghost use Rattle.std.specs.Option.{option_copied};
ghost use Rattle.fl_types.specs.Integers.{bits_of_type};
ghost use Rattle.fl_types.specs.Refusals.{Answers};
ghost use Rattle.fl_bitpacking.specs.Encoders.{AnswersUnless};
ghost use Rattle.fl_bitpacking.specs.Words.{words_as};
ghost use Rattle.fl_array.specs.BitPackedArrays.{tree_of_bitpacked};
ghost use Rattle.fl_array.specs.BitPackedFields.{fields_text, new_fields, ptype_in, typed_reader, width_text};
ghost use Rattle.fl_array.specs.EncodedBitPacked.{IsEncodedAt, IsEncodedInBlocks, encode_blocked_refusal, encode_refusal};
ghost use Rattle.fl_array.specs.Reads.{primitive_in};
ghost use Rattle.fl_array.specs.Trees.{column};

use crate::array::ArrayRef;
use crate::bitpacking::BitPackedArray;
use crate::bitpacking::bitpack_compress::{bitpack_encode, bitpack_encode_blocked};
use bytes::Bytes;
use fastlanes::FL_CHUNK_SIZE;
use fl_bitpacking::unpack_iter::{BitPacked, BitUnpackedChunks, PackedSource};
use fl_bitpacking::words::packed_words;
use fl_column::{DType, FastLanesError, PType, PhysicalPType};
use fl_patches::Patches;
use std::alloc::Global;
use std::fmt;
use std::marker::Model;

/// The data of a bit-packed array besides its children: the packed bytes, the position of its first item in
/// the first block, the width of all blocks if they have one, and the offset of its patches if it has some.
#[derive(Debug, PartialEq, Eq, Hash, Drop)]
pub struct BitPackedData {
    packed: Bytes,
    offset: u16,
    bit_width: Option<u8>,
    patches_offset: Option<usize>,
}

impl Model for BitPackedData {
    ghost use Rattle.fl_array.specs.BitPackedFields.{BitPackedFields};

    ghost Value = { BitPackedFields };

    ghost view = { λ d. record { packed = d.packed; offset = d.offset; bit_width = d.bit_width; patches_offset = d.patches_offset } };

    ghost inverse = { λ d. record { packed = d.packed; offset = d.offset; bit_width = d.bit_width; patches_offset = d.patches_offset } };
}

impl BitPackedData {
    /// The data of these packed bytes, whose blocks have one width, with these patches.
    ///
    /// # Errors
    /// `WidthTooLarge` if the width is above 64, else `OffsetTooLarge` if the offset is 1024 or more.
    pub fn try_new(
        packed: Bytes,
        patches: Option<&Patches>,
        bit_width: u8,
        offset: u16,
    ) -> Result<BitPackedData, FastLanesError>
        ensures { result ≡ new_fields packed (option_map (λ p. p.offset) (option_copied patches.entry)) bit_width offset }
    {
        if bit_width > 64 {
            return Err(FastLanesError::WidthTooLarge);
        }
        if usize::from(offset) >= FL_CHUNK_SIZE {
            return Err(FastLanesError::OffsetTooLarge);
        }
        Ok(BitPackedData {
            packed,
            offset,
            bit_width: Some(bit_width),
            patches_offset: offset_of(patches),
        })
    }

    /// The data of an array, of which `bit_width` is the width of all blocks, if they have one.
    pub(crate) fn new(
        packed: Bytes,
        patches: Option<&Patches>,
        bit_width: Option<u8>,
        offset: u16,
    ) -> BitPackedData
        ensures { result ≡ record { packed = packed; offset = offset; bit_width = bit_width; patches_offset = option_map (λ p. p.offset) (option_copied patches.entry) } }
    {
        BitPackedData {
            packed,
            offset,
            bit_width,
            patches_offset: offset_of(patches),
        }
    }

    /// The array packed at a width, as by `bitpack_encode` for a primitive one.
    ///
    /// # Errors
    /// The first of these that applies: `NotInteger` if the array is not primitive, `NegativeValue` if a valid item is negative,
    /// and `WidthTooLarge` if the width is not below the type's bits.
    pub fn encode(
        alloc: Global,
        array: &ArrayRef,
        bit_width: u8,
    ) -> Result<BitPackedArray, FastLanesError>
        ensures refusal { AnswersUnless (encode_refusal array.now bit_width) result }
        ensures parts { IfOk result (λ a. IfSome (primitive_in array.now) (λ p. IsEncodedAt p bit_width a)) }
        ensures column { IfOk result (λ a. column (tree_of_bitpacked a) ≡ column array.now) }
    {
        match array.as_primitive() {
            Some(primitive) => bitpack_encode(alloc, primitive, bit_width, None),
            None => Err(FastLanesError::NotInteger),
        }
    }

    /// The array packed at a width for each block, as by `bitpack_encode_blocked` for a primitive one.
    ///
    /// # Errors
    /// The first of these that applies: `NotInteger` if the array is not primitive, `NegativeValue` if a valid item is negative,
    /// `BlockCount` if there is not one width for each block, `WidthTooLarge` if a width is above the type's
    /// bits, and `AllBlocksNative` if there are blocks and all of their widths are the type's bits.
    pub fn encode_blocked(
        alloc: Global,
        array: &ArrayRef,
        bit_widths: &[u8],
    ) -> Result<BitPackedArray, FastLanesError>
        ensures refusal { AnswersUnless (encode_blocked_refusal array.now bit_widths.now) result }
        ensures parts { IfOk result (λ a. IfSome (primitive_in array.now) (λ p. IsEncodedInBlocks p bit_widths.now a)) }
        ensures column { IfOk result (λ a. column (tree_of_bitpacked a) ≡ column array.now) }
    {
        match array.as_primitive() {
            Some(primitive) => bitpack_encode_blocked(alloc, primitive, bit_widths, None),
            None => Err(FastLanesError::NotInteger),
        }
    }

    /// The integer type of a column of this type.
    ///
    /// # Errors
    /// `NotInteger` if it is of booleans.
    pub fn ptype(&self, dtype: &DType) -> Result<PType, FastLanesError>
        ensures { result ≡ ptype_in dtype.now }
    {
        match *dtype {
            DType::Primitive(ptype, _) => Ok(ptype),
            DType::Bool(_) => Err(FastLanesError::NotInteger),
        }
    }

    /// The bytes of the blocks.
    pub fn packed(&self) -> &Bytes
        ensures { result.now ≡ self.now.packed }
    {
        &self.packed
    }

    /// The bytes of the blocks as whole words of a type, the low byte of each first. Bytes after the last
    /// whole word are dropped.
    pub fn packed_slice<T: PhysicalPType>(&self, alloc: Global) -> Result<Vec<T>, FastLanesError>
        ensures { Answers (λ v. map T.value v.items) result (Ok (words_as T.PTYPE self.now.packed)) }
    {
        packed_words(alloc, self.packed.as_slice())
    }

    /// The position of the first item in the first block, below 1024.
    pub fn offset(&self) -> u16
        ensures { result ≡ self.now.offset }
    {
        self.offset
    }

    /// The width of all blocks, or `None` if each has its own.
    pub fn bit_width(&self) -> Option<u8>
        ensures { result ≡ self.now.bit_width }
    {
        self.bit_width
    }

    /// The offset of the patches, or `None` without patches.
    pub fn patches_offset(&self) -> Option<usize>
        ensures { result ≡ self.now.patches_offset }
    {
        self.patches_offset
    }

    /// A reader of this many items of a column of this type. If it is an integer type, it is `T`, and the width
    /// of the blocks is at most its bits.
    ///
    /// # Errors
    /// `NotInteger` if the column is of booleans, else as `BitUnpackedChunks::try_new`.
    pub fn unpacked_chunks<'a, T: BitPacked>(
        &'a self,
        dtype: &DType,
        len: usize,
        scratch: &'a mut [T; FL_CHUNK_SIZE],
    ) -> Result<BitUnpackedChunks<'a, T>, FastLanesError>
        requires typed { IfOk (ptype_in dtype.now) (λ ptype. ptype ≡ T.PTYPE) }
        requires width { IfOk (ptype_in dtype.now) (λ _. IfSome self.now.bit_width (λ width. width ≤ bits_of_type T.PTYPE)) }
        ensures { result ≡ typed_reader (ptype_in dtype.now) self.now len }
    {
        match self.ptype(dtype) {
            Ok(_) => BitUnpackedChunks::try_new(self, len, scratch),
            Err(refusal) => Err(refusal),
        }
    }
}

impl PackedSource for BitPackedData {
    ghost bytes = { λ d. d.packed };

    ghost width = { λ d. d.bit_width };

    ghost first = { λ d. d.offset };

    fn packed_bytes(&self) -> &[u8] {
        self.packed.as_slice()
    }

    fn global_width(&self) -> Option<u8> {
        self.bit_width
    }

    fn first_position(&self) -> usize {
        usize::from(self.offset)
    }
}

/// The offset of patches, if there are any.
fn offset_of(patches: Option<&Patches>) -> Option<usize>
    ensures { result ≡ option_map (λ p. p.offset) (option_copied patches.entry) }
{
    match patches {
        Some(patches) => Some(patches.offset()),
        None => None,
    }
}

/// The width of all blocks, where they have one, and a comma.
#[derive(Drop)]
struct WidthText(Option<u8>);

impl fmt::Display for WidthText {
    ghost output = { λ w. Some (width_text w.0) };

    fn fmt<W: fmt::Write>(&self, f: &mut fmt::Formatter<W>) -> fmt::Result {
        match self.0 {
            Some(width) => write!(f, "bit_width: {width}, "),
            None => Ok(()),
        }
    }
}

/// The width of all blocks, if they have one, and the offset: `bit_width: 3, offset: 0`.
impl fmt::Display for BitPackedData {
    ghost output = { λ d. Some (fields_text d) };

    fn fmt<W: fmt::Write>(&self, f: &mut fmt::Formatter<W>) -> fmt::Result {
        let (width, offset) = (WidthText(self.bit_width), self.offset);
        write!(f, "{width}offset: {offset}")
    }
}
