//! Accessors of bit-packed arrays.

ghost use Rattle.std.specs.Prelude.{◌≡◌, Ok, length, map, option_and_then, option_map};
ghost use Rattle.std.specs.Option.{option_copied};
ghost use Rattle.fl_types.specs.Refusals.{Answers};
ghost use Rattle.fl_bitpacking.specs.Words.{words_as};
ghost use Rattle.fl_array.specs.BitPackedArrays.{BitPackedArrayParts, tree_of_bitpacked};
ghost use Rattle.fl_array.specs.BitPackedFields.{bits_of_validity, boundaries_in, fields_of, global_width_in, whole_reader};
ghost use Rattle.fl_array.specs.Trees.{column};
ghost use Rattle.fl_array.specs.Views.{widths_of_view};

use crate::array::ArrayRef;
use crate::bitpacking::data::BitPackedData;
use crate::bitpacking::{BitPackedArray, BitWidthsView};
use bytes::Bytes;
use fastlanes::FL_CHUNK_SIZE;
use fl_bitpacking::laws::parts_are_consistent;
use fl_bitpacking::unpack_iter::{BitPacked, BitUnpackedChunks, PackedSource};
use fl_bitpacking::words::packed_words;
use fl_column::{BitList, DType, FastLanesError, PhysicalPType, PrimitiveArray, Validity};
use fl_patches::Patches;
use std::alloc::Global;

/// The children of a bit-packed array, if it has them.
#[derive(Clone, Copy)]
pub struct BitPackedSlots<'a> {
    /// The indices of the patches, which include the patches' offset.
    pub patch_indices: Option<&'a PrimitiveArray>,
    /// The values of the patches.
    pub patch_values: Option<&'a PrimitiveArray>,
    /// For each chunk of 1024 items the number of patches before it.
    pub patch_chunk_offsets: Option<&'a PrimitiveArray>,
    /// The bits of the validity, if it has one for each item.
    pub validity_child: Option<&'a BitList>,
    /// The boundaries of the blocks, if each has a width of its own.
    pub block_offsets: Option<&'a ArrayRef>,
}

/// Accessors of bit-packed arrays.
pub trait BitPackedArrayExt {
    /// The parts of the array.
    ghost parts: { Self → BitPackedArrayParts };

    /// What the array keeps beside the arrays inside. The packed bytes are shared with it: no memory is requested, and
    /// one more owner of the bytes is counted.
    ///
    /// # Errors
    /// Only `OutOfMemory`, if the bytes have as many owners as can be counted.
    fn data(&self) -> Result<BitPackedData, FastLanesError>
        ensures { Answers (λ d. d) result (Ok (fields_of (parts self.now))) };

    /// The number of items.
    fn len(&self) -> usize
        ensures { result ≡ length (column (tree_of_bitpacked (parts self.now))).items };

    /// The type of the column.
    fn dtype(&self) -> DType
        ensures { result ≡ (column (tree_of_bitpacked (parts self.now))).dtype };

    /// The bytes of the blocks.
    fn packed(&self) -> &Bytes
        ensures { result.now ≡ (parts self.now).parts.packed };

    /// The bytes of the blocks as words of a type, the low byte of each first. Bytes after the last whole word
    /// are dropped.
    ///
    /// # Errors
    /// Only `OutOfMemory`.
    fn packed_slice<T: PhysicalPType>(&self, alloc: Global) -> Result<Vec<T>, FastLanesError>
        ensures { Answers (λ v. map T.value v.items) result (Ok (words_as T.PTYPE (parts self.now).parts.packed)) };

    /// The widths of the blocks.
    fn bit_widths(&self) -> BitWidthsView<'_>
        ensures { widths_of_view result ≡ (parts self.now).widths };

    /// The position of the first item in the first block, below 1024.
    fn offset(&self) -> u16
        ensures { result ≡ (parts self.now).parts.offset };

    /// The values that replace packed bits, if there are some.
    fn patches(&self) -> Option<&Patches>
        ensures { option_copied result ≡ (parts self.now).parts.patches };

    /// Which items are null.
    fn validity(&self) -> &Validity
        ensures { result.now ≡ (parts self.now).parts.validity };

    /// The arrays inside.
    fn slots(&self) -> BitPackedSlots<'_>
        ensures patch_indices { option_copied result.patch_indices ≡ option_map (λ p. p.indices) (parts self.now).parts.patches }
        ensures patch_values { option_copied result.patch_values ≡ option_map (λ p. p.values) (parts self.now).parts.patches }
        ensures patch_chunk_offsets { option_copied result.patch_chunk_offsets ≡ option_and_then (λ p. p.chunk_offsets) (parts self.now).parts.patches }
        ensures validity_child { option_copied result.validity_child ≡ bits_of_validity (parts self.now).parts.validity }
        ensures block_offsets { option_copied result.block_offsets ≡ boundaries_in (parts self.now).widths };

    /// A reader of the items as they are stored, whose type is `T`; the scratch block is scratch space.
    ///
    /// # Errors
    /// `NotGlobal` if each block has a width of its own.
    fn unpacked_chunks<'a, T: BitPacked>(
        &'a self,
        scratch: &'a mut [T; FL_CHUNK_SIZE],
    ) -> Result<BitUnpackedChunks<'a, T>, FastLanesError>
        requires { (parts self.now).parts.ptype ≡ T.PTYPE }
        ensures { result ≡ whole_reader (parts self.now) };
}

impl BitPackedArrayExt for BitPackedArray {
    ghost parts = { λ a. a };

    fn data(&self) -> Result<BitPackedData, FastLanesError> {
        let packed = self.packed_data().packed().clone()?;
        let width = match self.bit_widths() {
            BitWidthsView::Global(width) => Some(width),
            BitWidthsView::Blocked(_) => None,
        };
        let offset = BitPackedArrayExt::offset(self);
        Ok(BitPackedData::new(packed, self.packed_data().patches(), width, offset))
    }

    fn len(&self) -> usize {
        BitPackedArray::len(self)
    }

    fn dtype(&self) -> DType {
        BitPackedArray::dtype(self)
    }

    fn packed(&self) -> &Bytes {
        self.packed_data().packed()
    }

    fn packed_slice<T: PhysicalPType>(&self, alloc: Global) -> Result<Vec<T>, FastLanesError> {
        packed_words(alloc, self.packed_data().packed().as_slice())
    }

    fn bit_widths(&self) -> BitWidthsView<'_> {
        BitPackedArray::bit_widths(self)
    }

    fn offset(&self) -> u16 {
        parts_are_consistent(self.packed_data());
        self.packed_data().offset() as u16
    }

    fn patches(&self) -> Option<&Patches> {
        self.packed_data().patches()
    }

    fn validity(&self) -> &Validity {
        self.packed_data().validity()
    }

    fn slots(&self) -> BitPackedSlots<'_> {
        let patches = self.packed_data().patches();
        BitPackedSlots {
            patch_indices: indices_of(patches),
            patch_values: values_of(patches),
            patch_chunk_offsets: chunk_offsets_of(patches),
            validity_child: bits_of(self.packed_data().validity()),
            block_offsets: boundaries_of(BitPackedArray::bit_widths(self)),
        }
    }

    fn unpacked_chunks<'a, T: BitPacked>(
        &'a self,
        scratch: &'a mut [T; FL_CHUNK_SIZE],
    ) -> Result<BitUnpackedChunks<'a, T>, FastLanesError> {
        self.prove_well_formed();
        let len = self.packed_data().len();
        match BitPackedArray::bit_widths(self) {
            BitWidthsView::Global(_) => BitUnpackedChunks::try_new(self, len, scratch),
            BitWidthsView::Blocked(_) => Err(FastLanesError::NotGlobal),
        }
    }
}

impl PackedSource for BitPackedArray {
    ghost bytes = { λ a. a.parts.packed };

    ghost width = { λ a. global_width_in a.widths };

    ghost first = { λ a. a.parts.offset };

    fn packed_bytes(&self) -> &[u8] {
        self.packed_data().packed().as_slice()
    }

    fn global_width(&self) -> Option<u8> {
        match BitPackedArray::bit_widths(self) {
            BitWidthsView::Global(width) => Some(width),
            BitWidthsView::Blocked(_) => None,
        }
    }

    fn first_position(&self) -> usize {
        self.packed_data().offset()
    }
}

/// The positions of patches, if there are any.
fn indices_of<'a>(patches: Option<&'a Patches>) -> Option<&'a PrimitiveArray>
    ensures { option_copied result ≡ option_map (λ p. p.indices) (option_copied patches.entry) }
{
    match patches {
        Some(patches) => Some(patches.indices()),
        None => None,
    }
}

/// The values of patches, if there are any.
fn values_of<'a>(patches: Option<&'a Patches>) -> Option<&'a PrimitiveArray>
    ensures { option_copied result ≡ option_map (λ p. p.values) (option_copied patches.entry) }
{
    match patches {
        Some(patches) => Some(patches.values()),
        None => None,
    }
}

/// The chunk offsets of patches, if there are any.
fn chunk_offsets_of<'a>(patches: Option<&'a Patches>) -> Option<&'a PrimitiveArray>
    ensures { option_copied result ≡ option_and_then (λ p. p.chunk_offsets) (option_copied patches.entry) }
{
    match patches {
        Some(patches) => patches.chunk_offsets(),
        None => None,
    }
}

/// The bits of a validity, where it has one for each item.
pub(crate) fn bits_of(validity: &Validity) -> Option<&BitList>
    ensures { option_copied result ≡ bits_of_validity validity.now }
{
    match validity {
        Validity::Array(bits) => Some(bits),
        _ => None,
    }
}

/// The boundaries of the blocks, if there are any.
fn boundaries_of<'a>(widths: BitWidthsView<'a>) -> Option<&'a ArrayRef>
    ensures { option_copied result ≡ boundaries_in (widths_of_view widths.entry) }
{
    match widths {
        BitWidthsView::Global(_) => None,
        BitWidthsView::Blocked(boundaries) => Some(boundaries),
    }
}
