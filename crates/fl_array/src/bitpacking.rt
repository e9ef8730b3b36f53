//! Bit-packed arrays, at one width or at a width for each block.

pub(crate) mod bit_packed_array_ext;
pub mod bitpack_compress;
pub mod bitpack_decompress;
pub(crate) mod block_widths;
mod compute;
mod data;
mod single_items;

ghost use Rattle.std.specs.Prelude.{◌≡◌, ◌+◌, ◌*◌, ◌/◌, ◌^◌, ◌<◌, ◌≤◌, IfErr, IfOk, IsTrue, None, Ok, length, IfSome};
ghost use Rattle.fl_types.specs.declared.error.FastLanesError.TheVariants.{OutOfMemory};
ghost use Rattle.fl_types.specs.Refusals.{Answers};
ghost use Rattle.fl_types.specs.Types.{has_ptype};
ghost use Rattle.fl_types.specs.Values.{scalar_parts};
ghost use Rattle.fl_column.specs.Columns.{column_of_primitive};
ghost use Rattle.fl_column.specs.Queries.{scalar_in};
ghost use Rattle.fl_bitpacking.specs.Encoders.{AnswersUnless};
ghost use Rattle.fl_bitpacking.specs.Parts.{parts_of};
ghost use Rattle.fl_bitpacking.specs.Refusals.{accepted, blocked_refusal, global_refusal};
ghost use Rattle.fl_bitpacking.specs.SingleItems.{stored_scalar};
ghost use Rattle.fl_array.specs.Trees.{column, height};
ghost use Rattle.fl_bitpacking.specs.Columns.{block_count};
ghost use Rattle.fl_array.specs.BitPackedArrays.{BlockBoundaries, GlobalWidth, new_bitpacked, bit_widths_refusal, refusal_before_boundaries, refusal_of_bitpacked, size_of_widths, tree_of_bitpacked, blocks_of_widths, is_global};
ghost use Rattle.fl_array.specs.Kinds.{has_delta, kind};
ghost use Rattle.fl_array.specs.Reads.{IsValidityOf, integer_column, primitive_in};
ghost use Rattle.fl_array.specs.EncodedBitPacked.{IsEncodedAt, encode_refusal};
ghost use Rattle.fl_array.specs.OwnedParts.{owned_parts};
ghost use Rattle.fl_array.specs.StoredParts.{stored_widths};
ghost use Rattle.fl_array.specs.Views.{HasLowerBoundaries, HasSmallerBoundaries, widths_of_view, widths_of_owned};

use crate::array::ArrayRef;
pub use crate::bitpacking::bit_packed_array_ext::{BitPackedArrayExt, BitPackedSlots};
use crate::bitpacking::bitpack_compress::bitpack_encode;
pub use crate::bitpacking::data::BitPackedData;
use crate::numbers::number_of_scalar;
use bytes::Bytes;
use fastlanes::Work;
use fl_bitpacking::bitpack_decompress::PackedColumn;
use fl_bitpacking::laws::parts_are_consistent;
use fl_bitpacking::packed_data::PackedData;
use fl_bitpacking::refusals::{
    block_offsets_refusal, blocked_refusal, constant_boundaries_refusal, global_refusal,
    positions_refusal,
};
use fl_column::{
    DType, FastLanesError, NativePType, PType, PrimitiveArray, Scalar, Validity, chunk_count,
};
use fl_patches::Patches;
use std::alloc::Global;
use std::marker::Model;

/// A bit-packed array: the packed blocks of its items, all at one width or each at its own; the patches of
/// the exceptions; and which items are null.
#[cycle(array)]
#[derive(Drop)]
pub struct BitPackedArray {
    parts: PackedData,
    widths: StoredWidths,
}

#[cycle(array)]
#[derive(Drop)]
enum StoredWidths {
    Global(u8),
    Blocked(Box<ArrayRef>),
}

/// The widths of an array's blocks.
#[derive(Clone, Copy)]
pub enum BitWidthsView<'a> {
    /// All blocks have this width.
    Global(u8),
    /// Block `j` is between the boundaries `j` and `j + 1`, in bytes from the first one on.
    Blocked(&'a ArrayRef),
}

impl BitWidthsView<'_> {
    /// Whether all blocks have one width.
    pub fn is_global(&self) -> bool
        ensures { result ≡ is_global (widths_of_view self.now) }
    {
        match self {
            BitWidthsView::Global(_) => true,
            BitWidthsView::Blocked(_) => false,
        }
    }
}

impl Model for BitPackedArray {
    ghost use Rattle.std.specs.Prelude.{◌≡◌, None};
    ghost use Rattle.std.proofs.Common.{arith};
    ghost use Rattle.fl_array.specs.BitPackedArrays.{BitPackedArrayParts, bit_widths_refusal, size_of_widths};
    ghost use Rattle.fl_array.specs.ArrayCodes.{coded_bitpacked};

    ghost Value = { BitPackedArrayParts };

    ghost coded = { coded_bitpacked };

    ghost use Rattle.fl_array.specs.StoredParts.{stored_widths};

    ghost view = { λ a. record { parts = a.parts; widths = stored_widths a.widths } };

    ghost invariant = { λ a. bit_widths_refusal a.parts (stored_widths a.widths) ≡ None };

    ghost size = { λ a. size_of_widths a.widths };

    ghost size_decreases = { λ a h. Prim.grind arith };
}

/// The widths of an array's blocks, owned.
#[derive(Drop)]
pub enum BitWidths {
    /// All blocks have this width.
    Global(u8),
    /// Block `j` is between the boundaries `j` and `j + 1`, in bytes from the first one on.
    Blocked(ArrayRef),
}

impl BitWidths {
    /// The widths as an owned value, with a copy of the boundaries if there are some.
    ///
    /// # Errors
    /// Only `OutOfMemory`.
    pub fn try_from_view(alloc: Global, view: BitWidthsView) -> Result<BitWidths, FastLanesError>
        ensures { Answers widths_of_owned result (Ok (widths_of_view view.entry)) }
    {
        match view {
            BitWidthsView::Global(width) => Ok(BitWidths::Global(width)),
            BitWidthsView::Blocked(boundaries) => {
                Ok(BitWidths::Blocked(boundaries.try_clone(alloc)?))
            }
        }
    }
}

/// The parts of a bit-packed array.
#[derive(Drop)]
pub struct BitPackedDataParts {
    /// The position of the first item in the first block, below 1024.
    pub offset: u16,
    /// The widths of the blocks.
    pub bit_widths: BitWidths,
    /// The number of items.
    pub len: usize,
    /// The bytes of the blocks.
    pub packed: Bytes,
    /// The values that replace packed bits.
    pub patches: Option<Patches>,
    /// Which items are null.
    pub validity: Validity,
}

/// The widths as users own them.
fn owned_widths(widths: StoredWidths) -> BitWidths
    ensures { widths_of_owned result ≡ stored_widths widths }
{
    match widths {
        StoredWidths::Global(width) => BitWidths::Global(width),
        StoredWidths::Blocked(boundaries) => BitWidths::Blocked(Box::into_inner(boundaries)),
    }
}

/// The bit-packed encoding: its constructors.
#[derive(Clone, Copy, Debug)]
pub struct BitPacked;

impl BitPacked {
    /// The parts of an array. It allocates nothing.
    pub fn into_parts(array: BitPackedArray) -> BitPackedDataParts
        ensures parts { owned_parts array.parts.ptype result ≡ array.parts }
        ensures widths { widths_of_owned result.bit_widths ≡ array.widths }
    {
        let BitPackedArray { parts, widths } = array;
        parts_are_consistent(&parts);
        let (offset, len) = (parts.offset() as u16, parts.len());
        let (packed, validity, patches) = parts.into_owned();
        BitPackedDataParts {
            offset,
            bit_widths: owned_widths(widths),
            len,
            packed,
            patches,
            validity,
        }
    }

    /// An array whose blocks have one width. The position of its first item in the first block is `offset`.
    ///
    /// # Errors
    /// The first of `OffsetTooLarge`, `LengthOverflow`, `WidthTooLarge`, `ValidityLength`, `PatchType`,
    /// `PatchLength` and `PackedLength` that applies.
    pub fn try_new(
        packed: Bytes,
        ptype: PType,
        validity: Validity,
        patches: Option<Patches>,
        bit_width: u8,
        len: usize,
        offset: u16,
    ) -> Result<BitPackedArray, FastLanesError>
        ensures { result ≡ new_bitpacked (record { packed = packed; ptype = ptype; validity = validity; patches = patches; offset = offset; len = len }) (GlobalWidth bit_width) }
    {
        let offset = usize::from(offset);
        match refusal_at_width(&packed, ptype, &validity, &patches, offset, len, bit_width) {
            Some(refusal) => Err(refusal),
            None => Ok(BitPackedArray {
                parts: PackedData::new(packed, ptype, validity, patches, offset, len),
                widths: StoredWidths::Global(bit_width),
            }),
        }
    }

    /// An array whose blocks are between boundaries: block `j` from `block_offsets[j]` to
    /// `block_offsets[j + 1]`, in bytes from `block_offsets[0]` on. The boundaries are decoded, with one
    /// allocation, unless they are a constant array.
    ///
    /// # Errors
    /// The first of `OffsetTooLarge`, `LengthOverflow`, `BlockOffsetsType`, `BlockOffsetsCount`,
    /// `BlockBoundary`, `BlockSpan`, `ValidityLength`, `PatchType` and `PatchLength` that applies.
    pub fn try_new_with_block_offsets(
        alloc: Global,
        packed: Bytes,
        ptype: PType,
        validity: Validity,
        patches: Option<Patches>,
        block_offsets: ArrayRef,
        len: usize,
        offset: u16,
    ) -> Result<BitPackedArray, FastLanesError>
        ensures { Answers (λ a. a) result (new_bitpacked (record { packed = packed; ptype = ptype; validity = validity; patches = patches; offset = offset; len = len }) (BlockBoundaries block_offsets)) }
    {
        let offset = usize::from(offset);
        accept_blocked(
            alloc,
            &packed,
            ptype,
            &validity,
            &patches,
            &block_offsets,
            offset,
            len,
        )?;
        let boundaries = Box::new(alloc, block_offsets)?;
        Ok(BitPackedArray {
            parts: PackedData::new(packed, ptype, validity, patches, offset, len),
            widths: StoredWidths::Blocked(boundaries),
        })
    }

    /// The array packed at a width, as by `bitpack_encode` for a primitive one.
    ///
    /// # Errors
    /// The first of these that applies: `NotInteger` if the array is not primitive, `NegativeValue` if a valid item is negative,
    /// and `WidthTooLarge` if the width is not below the type's bits.
    pub fn encode(
        alloc: Global,
        array: &ArrayRef,
        bit_width: u8,
    ) -> Result<BitPackedArray, FastLanesError>
        ensures refusal { AnswersUnless (encode_refusal array.now bit_width) result }
        ensures parts { IfOk result (λ a. IfSome (primitive_in array.now) (λ p. IsEncodedAt p bit_width a)) }
        ensures column { IfOk result (λ a. column (tree_of_bitpacked a) ≡ column array.now) }
    {
        match array.as_primitive() {
            Some(primitive) => bitpack_encode(alloc, primitive, bit_width, None),
            None => Err(FastLanesError::NotInteger),
        }
    }
}

/// The error of these parts as an array of blocks of one width, if there is one.
fn refusal_at_width(
    packed: &Bytes,
    ptype: PType,
    validity: &Validity,
    patches: &Option<Patches>,
    offset: usize,
    len: usize,
    width: u8,
) -> Option<FastLanesError>
    ensures { result ≡ global_refusal (record { packed = packed.now; ptype = ptype; validity = validity.now; patches = patches.now; offset = offset; len = len }) width }
{
    let held = patches.as_ref();
    let parts = PackedColumn {
        packed: packed.as_slice(),
        ptype,
        validity,
        patches: held,
        offset,
        len,
    };
    global_refusal(&parts, usize::from(width))
}

/// Accepts parts whose blocks lie between the boundaries, or says why they make no array.
fn accept_blocked(
    alloc: Global,
    packed: &Bytes,
    ptype: PType,
    validity: &Validity,
    patches: &Option<Patches>,
    boundaries: &ArrayRef,
    offset: usize,
    len: usize,
) -> Result<(), FastLanesError>
    ensures { Answers (λ u. u) result (accepted tt (blocked_refusal (record { packed = packed.now; ptype = ptype; validity = validity.now; patches = patches.now; offset = offset; len = len }) (column boundaries.now))) }
{
    let held = patches.as_ref();
    let parts = PackedColumn {
        packed: packed.as_slice(),
        ptype,
        validity,
        patches: held,
        offset,
        len,
    };
    accept_boundaries(alloc, &parts, boundaries)
}

/// The first error of these parts that does not depend on the boundaries, if there is one.
fn refusal_before_boundaries(parts: &PackedColumn, boundaries: &ArrayRef) -> Option<FastLanesError>
    ensures { result ≡ refusal_before_boundaries (parts_of parts.now) (column boundaries.now) }
{
    if let Some(refusal) = positions_refusal(parts.offset, parts.len) {
        return Some(refusal);
    }
    let blocks = chunk_count(parts.offset + parts.len);
    block_offsets_refusal(blocks, boundaries.dtype(), boundaries.len())
}

/// Accepts parts whose blocks lie between the boundaries, or says why they make no array. The boundaries are
/// decoded at once, into memory that is asked for by one allocation.
fn accept_decoded(
    alloc: Global,
    parts: &PackedColumn,
    boundaries: &ArrayRef,
) -> Result<(), FastLanesError>
    ensures { Answers (λ u. u) result (accepted tt (blocked_refusal (parts_of parts.now) (column boundaries.now))) }
{
    if let Some(refusal) = refusal_before_boundaries(parts, boundaries) {
        return Err(refusal);
    }
    let plain = boundaries.to_primitive(alloc)?;
    match blocked_refusal(parts, &plain) {
        Some(refusal) => Err(refusal),
        None => Ok(()),
    }
}

/// Accepts parts whose blocks lie between the boundaries, or says why they make no array. Those of a constant
/// array are judged as they are, all others are decoded.
fn accept_boundaries(
    alloc: Global,
    parts: &PackedColumn,
    boundaries: &ArrayRef,
) -> Result<(), FastLanesError>
    ensures { Answers (λ u. u) result (accepted tt (blocked_refusal (parts_of parts.now) (column boundaries.now))) }
{
    let Some(constant) = boundaries.as_constant() else {
        return accept_decoded(alloc, parts, boundaries);
    };
    if let Some(refusal) = constant_boundaries_refusal(parts, constant) {
        return Err(refusal);
    }
    Ok(())
}

impl BitPackedArray {
    /// The array of these parts, whose blocks all have this width.
    pub(crate) fn from_global(parts: PackedData, width: u8) -> BitPackedArray
        requires { global_refusal parts width ≡ None }
        ensures { result ≡ record { parts = parts; widths = GlobalWidth width } }
    {
        BitPackedArray {
            parts,
            widths: StoredWidths::Global(width),
        }
    }

    /// The array of these parts, whose blocks lie between these boundaries.
    pub(crate) fn from_blocked(
        alloc: Global,
        parts: PackedData,
        boundaries: ArrayRef,
    ) -> Result<BitPackedArray, FastLanesError>
        requires { blocked_refusal parts (column boundaries) ≡ None }
        ensures { Answers (λ a. a) result (Ok (record { parts = parts; widths = BlockBoundaries boundaries })) }
    {
        let boundaries = Box::new(alloc, boundaries)?;
        Ok(BitPackedArray {
            parts,
            widths: StoredWidths::Blocked(boundaries),
        })
    }

    /// The parts pass the checks of the constructors.
    pub(crate) fn prove_well_formed(&self)
        ensures { refusal_of_bitpacked self.now ≡ None }
    {
        let _ = &self.parts;
    }

    /// The array is smaller than one that holds it.
    #[tactic(auto, using(crate::proofs::Sizes::bitpacked_size))]
    pub(crate) fn prove_smaller(&self)
        ensures { size_of_widths self.now.widths < 2 * height (tree_of_bitpacked self.now) }
    {
        let _ = &self.parts;
    }

    /// The parts, without the widths.
    pub fn packed_data(&self) -> &PackedData
        ensures { result.now ≡ self.now.parts }
    {
        &self.parts
    }

    /// The widths of the blocks.
    pub fn bit_widths(&self) -> BitWidthsView<'_>
        ensures widths { widths_of_view result ≡ self.now.widths }
        ensures depth { HasLowerBoundaries result (height (tree_of_bitpacked self.now)) }
        ensures size { HasSmallerBoundaries result (size_of_widths self.now.widths) }
    {
        match &self.widths {
            StoredWidths::Global(width) => BitWidthsView::Global(*width),
            StoredWidths::Blocked(boundaries) => BitWidthsView::Blocked(boundaries),
        }
    }

    /// The number of items.
    #[tactic(auto, using(crate::proofs::BitPackedLaws::bitpacked_len))]
    pub fn len(&self) -> usize
        ensures len { result ≡ self.now.parts.len }
        ensures items { result ≡ length (column (tree_of_bitpacked self.now)).items }
    {
        self.packed_data().len()
    }

    /// The type of the column.
    #[tactic(auto, using(crate::proofs::BitPackedLaws::bitpacked_dtype))]
    pub fn dtype(&self) -> DType
        ensures { result ≡ (column (tree_of_bitpacked self.now)).dtype }
    {
        self.packed_data().dtype()
    }

    /// The validity of the column.
    #[tactic(auto, using(crate::proofs::BitPackedLaws::bitpacked_validity))]
    pub(crate) fn column_validity(&self, alloc: Global) -> Result<Validity, FastLanesError>
        ensures validity { IfOk result (λ v. IsValidityOf v (column (tree_of_bitpacked self.now))) }
        ensures memory { IfErr result (λ e. e ≡ OutOfMemory) }
    {
        let data = self.packed_data();
        parts_are_consistent(data);
        data.validity().try_clone(alloc)
    }

    /// The column is of integers.
    #[tactic(auto, using(crate::proofs::BitPackedLaws::bitpacked_integers))]
    pub(crate) fn prove_integers(&self)
        ensures { integer_column (column (tree_of_bitpacked self.now)) ≡ Ok (column (tree_of_bitpacked self.now)) }
    {
        let _ = &self.parts;
    }

    /// The boundaries are integers.
    pub(crate) fn prove_boundaries_are_integers(&self, boundaries: &ArrayRef)
        requires { BlockBoundaries boundaries.now ≡ self.now.widths }
        ensures { integer_column (column boundaries.now) ≡ Ok (column boundaries.now) }
    {
        self.prove_well_formed();
    }

    /// The items have this type if the column does.
    #[tactic(auto, using(crate::proofs::ItemTypes::bitpacked_typed))]
    pub(crate) fn prove_typed<T: NativePType>(&self)
        requires { IsTrue (has_ptype T.PTYPE (column (tree_of_bitpacked self.now)).dtype) }
        ensures { self.now.parts.ptype ≡ T.PTYPE }
    {
        let _ = self.packed_data();
    }

    /// The column in a primitive array. Each block is unpacked at most once.
    pub(crate) fn decode(
        &self,
        alloc: Global,
        work: &mut Work,
    ) -> Result<PrimitiveArray, FastLanesError>
        ensures column { Answers column_of_primitive result (Ok (column (tree_of_bitpacked self.now))) }
        ensures blocks { work.new.blocks ≤ work.old.blocks + block_count self.now.parts }
        ensures words { work.new.words ≡ work.old.words }
    {
        let widths = self.widths(alloc)?;
        self.packed_data().decode(alloc, widths.view(), work)
    }

    /// The same packed blocks at these widths, which make an array with them.
    pub(crate) fn with_widths(
        &self,
        alloc: Global,
        widths: BitWidths,
    ) -> Result<BitPackedArray, FastLanesError>
        requires { bit_widths_refusal self.now.parts (widths_of_owned widths) ≡ None }
        ensures { Answers (λ a. a) result (Ok (record { parts = self.now.parts; widths = widths_of_owned widths })) }
    {
        let parts = self.packed_data().try_clone(alloc)?;
        match widths {
            BitWidths::Global(width) => Ok(BitPackedArray::from_global(parts, width)),
            BitWidths::Blocked(boundaries) => {
                BitPackedArray::from_blocked(alloc, parts, boundaries)
            }
        }
    }

    /// A copy, at a copy of the widths.
    pub(crate) fn clone_with(
        &self,
        alloc: Global,
        widths: BitWidths,
    ) -> Result<BitPackedArray, FastLanesError>
        requires { widths_of_owned widths ≡ self.now.widths }
        ensures { Answers (λ a. a) result (Ok self.now) }
    {
        self.prove_well_formed();
        self.with_widths(alloc, widths)
    }
}
