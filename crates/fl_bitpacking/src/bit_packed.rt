//! The integer types that are packed in blocks.

ghost use Rattle.std.specs.Prelude.{◌≡◌, ◌+◌, ◌*◌, ◌<◌, ◌≤◌, ◌+ℤ◌, ℕ, length, map, min};
ghost use Rattle.std.specs.Mem.{type_size};
ghost use Rattle.std.proofs.Common.{lit≤, refl};
ghost use Rattle.fastlanes.specs.Layout.{Packed, pattern_at, word_at};
ghost use Rattle.fl_types.specs.Integers.{bits_of_type, lanes_of_type, wrap};
ghost use Rattle.fl_bitpacking.specs.Blocks.{block_item, pattern_in, value_at};

use fastlanes::laws::word_is_in_range;
use fastlanes::{FL_CHUNK_SIZE, FastLanes, Work, pack_bytes, unfor_pack_bytes, unpack_bytes};
use fl_column::PhysicalPType;
use fl_column::patterns::write_patterns;
use fl_types::NativePType;

/// The number of bits of a type's values.
pub trait BitCount {
    /// The bits of a value.
    const TYPE_BITS: usize;

    ghost TYPE_BITS: { ℕ };
}

/// An integer type whose columns are packed in blocks of 1024 items. A signed integer is packed by
/// its pattern.
pub trait BitPacked: NativePType + BitCount {
    /// Unpacks a block of `128 * width` bytes. The bits of an item from `width` on are 0.
    fn unpack_block(width: usize, block: &[u8], items: &mut [Self; FL_CHUNK_SIZE], work: &mut Work)
        requires width { width ≤ bits_of_type Self.PTYPE }
        requires block { length block.now ≡ 128 * width }
        ensures items { (i : ℕ) → i < 1024 → value_at Self.value items.new i ≡ block_item Self.PTYPE width block.now i }
        ensures whole { length items.new ≡ 1024 }
        ensures blocks { work.new.blocks ≡ min (work.old.blocks + 1) u64.MAX }
        ensures words { work.new.words ≡ work.old.words };

    /// Unpacks a block of `128 * width` bytes and adds a reference to each item, modulo 2 to the type's bits.
    fn unfor_block(
        width: usize,
        block: &[u8],
        reference: Self,
        items: &mut [Self; FL_CHUNK_SIZE],
        work: &mut Work,
    )
        requires width { width ≤ bits_of_type Self.PTYPE }
        requires block { length block.now ≡ 128 * width }
        ensures items { (i : ℕ) → i < 1024 → value_at Self.value items.new i ≡ wrap Self.PTYPE (block_item Self.PTYPE width block.now i +ℤ Self.value reference) }
        ensures whole { length items.new ≡ 1024 }
        ensures blocks { work.new.blocks ≡ min (work.old.blocks + 1) u64.MAX }
        ensures words { work.new.words ≡ work.old.words };

    /// Packs the low `width` bits of at most 1024 integers, padded with 0, into the
    /// `128 * width` bytes of a block.
    fn pack_block(width: usize, items: &[Self], block: &mut [u8])
        requires width { width ≤ bits_of_type Self.PTYPE }
        requires few { length items.now ≤ 1024 }
        requires room { length block.old ≡ 128 * width }
        ensures { Packed (bits_of_type Self.PTYPE) (lanes_of_type Self.PTYPE) width (pattern_in Self.PTYPE (map Self.value items.now)) (word_at (bits_of_type Self.PTYPE) block.new) };

    // The bits are those of the type's name.
    ghost bits_law: { Self.TYPE_BITS ≡ bits_of_type Self.PTYPE };

    // An integer takes at most eight bytes, so that blocks of them fit in memory.
    ghost few_bytes: { type_size Self.row ≤ 8 };
}

/// Unpacks a block of patterns, and reads each as the type.
fn unpack_patterns<T: PhysicalPType>(
    width: usize,
    block: &[u8],
    items: &mut [T; FL_CHUNK_SIZE],
    work: &mut Work,
)
    requires width { width ≤ T.Physical.T }
    requires block { length block.now ≡ 128 * width }
    ensures items { (i : ℕ) → i < 1024 → value_at T.value items.new i ≡ block_item T.PTYPE width block.now i }
    ensures whole { length items.new ≡ 1024 }
    ensures blocks { work.new.blocks ≡ min (work.old.blocks + 1) u64.MAX }
    ensures words { work.new.words ≡ work.old.words }
{
    let mut patterns = [T::Physical::zero(); FL_CHUNK_SIZE];
    unpack_bytes(width, block, &mut patterns, work);
    for i in 0..FL_CHUNK_SIZE {
        items[i] = T::from_physical(patterns[i]);
    }
}

/// Unpacks a block of patterns, adds that of the reference to each, and reads the sums as the type.
fn unfor_patterns<T: PhysicalPType>(
    width: usize,
    block: &[u8],
    reference: T,
    items: &mut [T; FL_CHUNK_SIZE],
    work: &mut Work,
)
    requires width { width ≤ T.Physical.T }
    requires block { length block.now ≡ 128 * width }
    ensures items { (i : ℕ) → i < 1024 → value_at T.value items.new i ≡ wrap T.PTYPE (block_item T.PTYPE width block.now i +ℤ T.value reference) }
    ensures whole { length items.new ≡ 1024 }
    ensures blocks { work.new.blocks ≡ min (work.old.blocks + 1) u64.MAX }
    ensures words { work.new.words ≡ work.old.words }
{
    let mut patterns = [T::Physical::zero(); FL_CHUNK_SIZE];
    unfor_pack_bytes(width, block, reference.to_physical(), &mut patterns, work);
    for i in 0..FL_CHUNK_SIZE {
        items[i] = T::from_physical(patterns[i]);
    }
}

/// Writes the patterns of at most 1024 integers, padded with 0.
pub(crate) fn write_padded_patterns<T: PhysicalPType>(
    items: &[T],
    patterns: &mut [T::Physical; FL_CHUNK_SIZE],
)
    requires { length items.now ≤ 1024 }
    ensures patterns { (i : ℕ) → i < 1024 → pattern_at T.Physical.pattern patterns.new i ≡ pattern_in T.PTYPE (map T.value items.now) i }
    ensures whole { length patterns.new ≡ 1024 }
{
    write_patterns(items, patterns);
    for j in items.len()..FL_CHUNK_SIZE {
        patterns[j] = T::Physical::zero();
    }
}

/// Packs the patterns of at most 1024 integers, padded with 0.
fn pack_patterns<T: PhysicalPType>(width: usize, items: &[T], block: &mut [u8])
    requires width { width ≤ T.Physical.T }
    requires few { length items.now ≤ 1024 }
    requires room { length block.old ≡ 128 * width }
    ensures { Packed T.Physical.T T.Physical.LANES width (pattern_in T.PTYPE (map T.value items.now)) (word_at T.Physical.T block.new) }
{
    let mut patterns = [T::Physical::zero(); FL_CHUNK_SIZE];
    write_padded_patterns(items, &mut patterns);
    pack_bytes(width, &patterns, block);
}

impl BitCount for u8 {
    const TYPE_BITS: usize = 8;

    ghost TYPE_BITS = { 8 };
}

impl BitPacked for u8 {
    ghost bits_law = { refl };

    ghost few_bytes = { lit≤ tt };

    fn unpack_block(width: usize, block: &[u8], items: &mut [u8; FL_CHUNK_SIZE], work: &mut Work) {
        unpack_bytes(width, block, items, work);
    }

    fn unfor_block(
        width: usize,
        block: &[u8],
        reference: u8,
        items: &mut [u8; FL_CHUNK_SIZE],
        work: &mut Work,
    ) {
        word_is_in_range(reference);
        unfor_pack_bytes(width, block, reference, items, work);
    }

    fn pack_block(width: usize, items: &[u8], block: &mut [u8]) {
        match items.first_chunk::<FL_CHUNK_SIZE>() {
            Some(whole) => pack_bytes(width, whole, block),
            None => pack_patterns(width, items, block),
        }
    }
}

impl BitCount for u16 {
    const TYPE_BITS: usize = 16;

    ghost TYPE_BITS = { 16 };
}

impl BitPacked for u16 {
    ghost bits_law = { refl };

    ghost few_bytes = { lit≤ tt };

    fn unpack_block(width: usize, block: &[u8], items: &mut [u16; FL_CHUNK_SIZE], work: &mut Work) {
        unpack_bytes(width, block, items, work);
    }

    fn unfor_block(
        width: usize,
        block: &[u8],
        reference: u16,
        items: &mut [u16; FL_CHUNK_SIZE],
        work: &mut Work,
    ) {
        word_is_in_range(reference);
        unfor_pack_bytes(width, block, reference, items, work);
    }

    fn pack_block(width: usize, items: &[u16], block: &mut [u8]) {
        match items.first_chunk::<FL_CHUNK_SIZE>() {
            Some(whole) => pack_bytes(width, whole, block),
            None => pack_patterns(width, items, block),
        }
    }
}

impl BitCount for u32 {
    const TYPE_BITS: usize = 32;

    ghost TYPE_BITS = { 32 };
}

impl BitPacked for u32 {
    ghost bits_law = { refl };

    ghost few_bytes = { lit≤ tt };

    fn unpack_block(width: usize, block: &[u8], items: &mut [u32; FL_CHUNK_SIZE], work: &mut Work) {
        unpack_bytes(width, block, items, work);
    }

    fn unfor_block(
        width: usize,
        block: &[u8],
        reference: u32,
        items: &mut [u32; FL_CHUNK_SIZE],
        work: &mut Work,
    ) {
        word_is_in_range(reference);
        unfor_pack_bytes(width, block, reference, items, work);
    }

    fn pack_block(width: usize, items: &[u32], block: &mut [u8]) {
        match items.first_chunk::<FL_CHUNK_SIZE>() {
            Some(whole) => pack_bytes(width, whole, block),
            None => pack_patterns(width, items, block),
        }
    }
}

impl BitCount for u64 {
    const TYPE_BITS: usize = 64;

    ghost TYPE_BITS = { 64 };
}

impl BitPacked for u64 {
    ghost bits_law = { refl };

    ghost few_bytes = { lit≤ tt };

    fn unpack_block(width: usize, block: &[u8], items: &mut [u64; FL_CHUNK_SIZE], work: &mut Work) {
        unpack_bytes(width, block, items, work);
    }

    fn unfor_block(
        width: usize,
        block: &[u8],
        reference: u64,
        items: &mut [u64; FL_CHUNK_SIZE],
        work: &mut Work,
    ) {
        word_is_in_range(reference);
        unfor_pack_bytes(width, block, reference, items, work);
    }

    fn pack_block(width: usize, items: &[u64], block: &mut [u8]) {
        match items.first_chunk::<FL_CHUNK_SIZE>() {
            Some(whole) => pack_bytes(width, whole, block),
            None => pack_patterns(width, items, block),
        }
    }
}

impl BitCount for i8 {
    const TYPE_BITS: usize = 8;

    ghost TYPE_BITS = { 8 };
}

impl BitPacked for i8 {
    ghost bits_law = { refl };

    ghost few_bytes = { lit≤ tt };

    fn unpack_block(width: usize, block: &[u8], items: &mut [i8; FL_CHUNK_SIZE], work: &mut Work) {
        unpack_patterns(width, block, items, work);
    }

    fn unfor_block(
        width: usize,
        block: &[u8],
        reference: i8,
        items: &mut [i8; FL_CHUNK_SIZE],
        work: &mut Work,
    ) {
        unfor_patterns(width, block, reference, items, work);
    }

    fn pack_block(width: usize, items: &[i8], block: &mut [u8]) {
        pack_patterns(width, items, block);
    }
}

impl BitCount for i16 {
    const TYPE_BITS: usize = 16;

    ghost TYPE_BITS = { 16 };
}

impl BitPacked for i16 {
    ghost bits_law = { refl };

    ghost few_bytes = { lit≤ tt };

    fn unpack_block(width: usize, block: &[u8], items: &mut [i16; FL_CHUNK_SIZE], work: &mut Work) {
        unpack_patterns(width, block, items, work);
    }

    fn unfor_block(
        width: usize,
        block: &[u8],
        reference: i16,
        items: &mut [i16; FL_CHUNK_SIZE],
        work: &mut Work,
    ) {
        unfor_patterns(width, block, reference, items, work);
    }

    fn pack_block(width: usize, items: &[i16], block: &mut [u8]) {
        pack_patterns(width, items, block);
    }
}

impl BitCount for i32 {
    const TYPE_BITS: usize = 32;

    ghost TYPE_BITS = { 32 };
}

impl BitPacked for i32 {
    ghost bits_law = { refl };

    ghost few_bytes = { lit≤ tt };

    fn unpack_block(width: usize, block: &[u8], items: &mut [i32; FL_CHUNK_SIZE], work: &mut Work) {
        unpack_patterns(width, block, items, work);
    }

    fn unfor_block(
        width: usize,
        block: &[u8],
        reference: i32,
        items: &mut [i32; FL_CHUNK_SIZE],
        work: &mut Work,
    ) {
        unfor_patterns(width, block, reference, items, work);
    }

    fn pack_block(width: usize, items: &[i32], block: &mut [u8]) {
        pack_patterns(width, items, block);
    }
}

impl BitCount for i64 {
    const TYPE_BITS: usize = 64;

    ghost TYPE_BITS = { 64 };
}

impl BitPacked for i64 {
    ghost bits_law = { refl };

    ghost few_bytes = { lit≤ tt };

    fn unpack_block(width: usize, block: &[u8], items: &mut [i64; FL_CHUNK_SIZE], work: &mut Work) {
        unpack_patterns(width, block, items, work);
    }

    fn unfor_block(
        width: usize,
        block: &[u8],
        reference: i64,
        items: &mut [i64; FL_CHUNK_SIZE],
        work: &mut Work,
    ) {
        unfor_patterns(width, block, reference, items, work);
    }

    fn pack_block(width: usize, items: &[i64], block: &mut [u8]) {
        pack_patterns(width, items, block);
    }
}
