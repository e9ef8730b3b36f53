//! The calls that pack and unpack whole blocks of 1024 items.

ghost use Rattle.std.specs.Prelude.{◌≡◌, ◌≢◌, length, pos};
ghost use Rattle.fl_blocks.specs.Blocks.{AreDeltas, ArePacked, AreSums, AreTransposed, AreUnpacked, AreUnpackedFrom, delta_error, moved_error, packed_error, unless};
ghost use Rattle.flcol_c.specs.Blocks.{blocks_status};

use crate::blocks;
use fastlanes::FL_CHUNK_SIZE;

/// Packs the low `width` bits of the items of each block of `u8`, block after block.
#[unsafe(no_mangle)]
pub extern "C" fn flcol_pack_u8(
    width: usize,
    items: &[[u8; FL_CHUNK_SIZE]],
    packed: &mut [u8],
) -> i32
    ensures status { result ≡ blocks_status (unless (packed_error 8 128 width (length items.now) (length packed.old))) }
    ensures packed { result ≡ pos 0 → ArePacked (λ x. x) 8 128 width items.now packed.new }
    ensures unpacked { result ≢ pos 0 → packed.new ≡ packed.old }
{
    blocks::pack(width, items, packed)
}

/// Writes the items of packed blocks of `u8`, with their bits from `width` on 0.
#[unsafe(no_mangle)]
pub extern "C" fn flcol_unpack_u8(
    width: usize,
    packed: &[u8],
    items: &mut [[u8; FL_CHUNK_SIZE]],
) -> i32
    ensures status { result ≡ blocks_status (unless (packed_error 8 128 width (length items.old) (length packed.now))) }
    ensures items { result ≡ pos 0 → AreUnpacked (λ x. x) 8 128 width packed.now items.new }
    ensures unwritten { result ≢ pos 0 → items.new ≡ items.old }
{
    blocks::unpack(width, packed, items)
}

/// Writes the items of packed blocks of `u8` plus a reference, modulo 2 to the 8.
#[unsafe(no_mangle)]
pub extern "C" fn flcol_unfor_pack_u8(
    width: usize,
    packed: &[u8],
    reference: u8,
    items: &mut [[u8; FL_CHUNK_SIZE]],
) -> i32
    ensures status { result ≡ blocks_status (unless (packed_error 8 128 width (length items.old) (length packed.now))) }
    ensures items { result ≡ pos 0 → AreUnpackedFrom reference (λ x. x) 8 128 width packed.now items.new }
    ensures unwritten { result ≢ pos 0 → items.new ≡ items.old }
{
    blocks::unfor_pack(width, packed, reference, items)
}

/// Writes the deltas of each block of `u8` along its lanes, modulo 2 to the 8.
#[unsafe(no_mangle)]
pub extern "C" fn flcol_delta_u8(
    items: &[[u8; FL_CHUNK_SIZE]],
    bases: &[u8],
    deltas: &mut [[u8; FL_CHUNK_SIZE]],
) -> i32
    ensures status { result ≡ blocks_status (unless (delta_error 128 (length items.now) (length bases.now) (length deltas.old))) }
    ensures deltas { result ≡ pos 0 → AreDeltas (λ x. x) 8 128 bases.now items.now deltas.new }
    ensures unwritten { result ≢ pos 0 → deltas.new ≡ deltas.old }
{
    blocks::delta(items, bases, deltas)
}

/// Writes the items of each block of deltas of `u8`, modulo 2 to the 8.
#[unsafe(no_mangle)]
pub extern "C" fn flcol_undelta_u8(
    deltas: &[[u8; FL_CHUNK_SIZE]],
    bases: &[u8],
    items: &mut [[u8; FL_CHUNK_SIZE]],
) -> i32
    ensures status { result ≡ blocks_status (unless (delta_error 128 (length deltas.now) (length bases.now) (length items.old))) }
    ensures items { result ≡ pos 0 → AreSums (λ x. x) 8 128 bases.now deltas.now items.new }
    ensures unwritten { result ≢ pos 0 → items.new ≡ items.old }
{
    blocks::undelta(deltas, bases, items)
}

/// Moves the items of each block of `u8` to their rows.
#[unsafe(no_mangle)]
pub extern "C" fn flcol_transpose_u8(
    items: &[[u8; FL_CHUNK_SIZE]],
    stored: &mut [[u8; FL_CHUNK_SIZE]],
) -> i32
    ensures status { result ≡ blocks_status (unless (moved_error (length items.now) (length stored.old))) }
    ensures moved { result ≡ pos 0 → AreTransposed (λ x. x) 8 128 items.now stored.new }
    ensures unwritten { result ≢ pos 0 → stored.new ≡ stored.old }
{
    blocks::transpose(items, stored)
}

/// Moves the items of each block of `u8` back from their rows.
#[unsafe(no_mangle)]
pub extern "C" fn flcol_untranspose_u8(
    stored: &[[u8; FL_CHUNK_SIZE]],
    items: &mut [[u8; FL_CHUNK_SIZE]],
) -> i32
    ensures status { result ≡ blocks_status (unless (moved_error (length stored.now) (length items.old))) }
    ensures moved { result ≡ pos 0 → AreTransposed (λ x. x) 8 128 items.new stored.now }
    ensures unwritten { result ≢ pos 0 → items.new ≡ items.old }
{
    blocks::untranspose(stored, items)
}

/// Packs the low `width` bits of the items of each block of `u16`, block after block.
#[unsafe(no_mangle)]
pub extern "C" fn flcol_pack_u16(
    width: usize,
    items: &[[u16; FL_CHUNK_SIZE]],
    packed: &mut [u16],
) -> i32
    ensures status { result ≡ blocks_status (unless (packed_error 16 64 width (length items.now) (length packed.old))) }
    ensures packed { result ≡ pos 0 → ArePacked (λ x. x) 16 64 width items.now packed.new }
    ensures unpacked { result ≢ pos 0 → packed.new ≡ packed.old }
{
    blocks::pack(width, items, packed)
}

/// Writes the items of packed blocks of `u16`, with their bits from `width` on 0.
#[unsafe(no_mangle)]
pub extern "C" fn flcol_unpack_u16(
    width: usize,
    packed: &[u16],
    items: &mut [[u16; FL_CHUNK_SIZE]],
) -> i32
    ensures status { result ≡ blocks_status (unless (packed_error 16 64 width (length items.old) (length packed.now))) }
    ensures items { result ≡ pos 0 → AreUnpacked (λ x. x) 16 64 width packed.now items.new }
    ensures unwritten { result ≢ pos 0 → items.new ≡ items.old }
{
    blocks::unpack(width, packed, items)
}

/// Writes the items of packed blocks of `u16` plus a reference, modulo 2 to the 16.
#[unsafe(no_mangle)]
pub extern "C" fn flcol_unfor_pack_u16(
    width: usize,
    packed: &[u16],
    reference: u16,
    items: &mut [[u16; FL_CHUNK_SIZE]],
) -> i32
    ensures status { result ≡ blocks_status (unless (packed_error 16 64 width (length items.old) (length packed.now))) }
    ensures items { result ≡ pos 0 → AreUnpackedFrom reference (λ x. x) 16 64 width packed.now items.new }
    ensures unwritten { result ≢ pos 0 → items.new ≡ items.old }
{
    blocks::unfor_pack(width, packed, reference, items)
}

/// Writes the deltas of each block of `u16` along its lanes, modulo 2 to the 16.
#[unsafe(no_mangle)]
pub extern "C" fn flcol_delta_u16(
    items: &[[u16; FL_CHUNK_SIZE]],
    bases: &[u16],
    deltas: &mut [[u16; FL_CHUNK_SIZE]],
) -> i32
    ensures status { result ≡ blocks_status (unless (delta_error 64 (length items.now) (length bases.now) (length deltas.old))) }
    ensures deltas { result ≡ pos 0 → AreDeltas (λ x. x) 16 64 bases.now items.now deltas.new }
    ensures unwritten { result ≢ pos 0 → deltas.new ≡ deltas.old }
{
    blocks::delta(items, bases, deltas)
}

/// Writes the items of each block of deltas of `u16`, modulo 2 to the 16.
#[unsafe(no_mangle)]
pub extern "C" fn flcol_undelta_u16(
    deltas: &[[u16; FL_CHUNK_SIZE]],
    bases: &[u16],
    items: &mut [[u16; FL_CHUNK_SIZE]],
) -> i32
    ensures status { result ≡ blocks_status (unless (delta_error 64 (length deltas.now) (length bases.now) (length items.old))) }
    ensures items { result ≡ pos 0 → AreSums (λ x. x) 16 64 bases.now deltas.now items.new }
    ensures unwritten { result ≢ pos 0 → items.new ≡ items.old }
{
    blocks::undelta(deltas, bases, items)
}

/// Moves the items of each block of `u16` to their rows.
#[unsafe(no_mangle)]
pub extern "C" fn flcol_transpose_u16(
    items: &[[u16; FL_CHUNK_SIZE]],
    stored: &mut [[u16; FL_CHUNK_SIZE]],
) -> i32
    ensures status { result ≡ blocks_status (unless (moved_error (length items.now) (length stored.old))) }
    ensures moved { result ≡ pos 0 → AreTransposed (λ x. x) 16 64 items.now stored.new }
    ensures unwritten { result ≢ pos 0 → stored.new ≡ stored.old }
{
    blocks::transpose(items, stored)
}

/// Moves the items of each block of `u16` back from their rows.
#[unsafe(no_mangle)]
pub extern "C" fn flcol_untranspose_u16(
    stored: &[[u16; FL_CHUNK_SIZE]],
    items: &mut [[u16; FL_CHUNK_SIZE]],
) -> i32
    ensures status { result ≡ blocks_status (unless (moved_error (length stored.now) (length items.old))) }
    ensures moved { result ≡ pos 0 → AreTransposed (λ x. x) 16 64 items.new stored.now }
    ensures unwritten { result ≢ pos 0 → items.new ≡ items.old }
{
    blocks::untranspose(stored, items)
}

/// Packs the low `width` bits of the items of each block of `u32`, block after block.
#[unsafe(no_mangle)]
pub extern "C" fn flcol_pack_u32(
    width: usize,
    items: &[[u32; FL_CHUNK_SIZE]],
    packed: &mut [u32],
) -> i32
    ensures status { result ≡ blocks_status (unless (packed_error 32 32 width (length items.now) (length packed.old))) }
    ensures packed { result ≡ pos 0 → ArePacked (λ x. x) 32 32 width items.now packed.new }
    ensures unpacked { result ≢ pos 0 → packed.new ≡ packed.old }
{
    blocks::pack(width, items, packed)
}

/// Writes the items of packed blocks of `u32`, with their bits from `width` on 0.
#[unsafe(no_mangle)]
pub extern "C" fn flcol_unpack_u32(
    width: usize,
    packed: &[u32],
    items: &mut [[u32; FL_CHUNK_SIZE]],
) -> i32
    ensures status { result ≡ blocks_status (unless (packed_error 32 32 width (length items.old) (length packed.now))) }
    ensures items { result ≡ pos 0 → AreUnpacked (λ x. x) 32 32 width packed.now items.new }
    ensures unwritten { result ≢ pos 0 → items.new ≡ items.old }
{
    blocks::unpack(width, packed, items)
}

/// Writes the items of packed blocks of `u32` plus a reference, modulo 2 to the 32.
#[unsafe(no_mangle)]
pub extern "C" fn flcol_unfor_pack_u32(
    width: usize,
    packed: &[u32],
    reference: u32,
    items: &mut [[u32; FL_CHUNK_SIZE]],
) -> i32
    ensures status { result ≡ blocks_status (unless (packed_error 32 32 width (length items.old) (length packed.now))) }
    ensures items { result ≡ pos 0 → AreUnpackedFrom reference (λ x. x) 32 32 width packed.now items.new }
    ensures unwritten { result ≢ pos 0 → items.new ≡ items.old }
{
    blocks::unfor_pack(width, packed, reference, items)
}

/// Writes the deltas of each block of `u32` along its lanes, modulo 2 to the 32.
#[unsafe(no_mangle)]
pub extern "C" fn flcol_delta_u32(
    items: &[[u32; FL_CHUNK_SIZE]],
    bases: &[u32],
    deltas: &mut [[u32; FL_CHUNK_SIZE]],
) -> i32
    ensures status { result ≡ blocks_status (unless (delta_error 32 (length items.now) (length bases.now) (length deltas.old))) }
    ensures deltas { result ≡ pos 0 → AreDeltas (λ x. x) 32 32 bases.now items.now deltas.new }
    ensures unwritten { result ≢ pos 0 → deltas.new ≡ deltas.old }
{
    blocks::delta(items, bases, deltas)
}

/// Writes the items of each block of deltas of `u32`, modulo 2 to the 32.
#[unsafe(no_mangle)]
pub extern "C" fn flcol_undelta_u32(
    deltas: &[[u32; FL_CHUNK_SIZE]],
    bases: &[u32],
    items: &mut [[u32; FL_CHUNK_SIZE]],
) -> i32
    ensures status { result ≡ blocks_status (unless (delta_error 32 (length deltas.now) (length bases.now) (length items.old))) }
    ensures items { result ≡ pos 0 → AreSums (λ x. x) 32 32 bases.now deltas.now items.new }
    ensures unwritten { result ≢ pos 0 → items.new ≡ items.old }
{
    blocks::undelta(deltas, bases, items)
}

/// Moves the items of each block of `u32` to their rows.
#[unsafe(no_mangle)]
pub extern "C" fn flcol_transpose_u32(
    items: &[[u32; FL_CHUNK_SIZE]],
    stored: &mut [[u32; FL_CHUNK_SIZE]],
) -> i32
    ensures status { result ≡ blocks_status (unless (moved_error (length items.now) (length stored.old))) }
    ensures moved { result ≡ pos 0 → AreTransposed (λ x. x) 32 32 items.now stored.new }
    ensures unwritten { result ≢ pos 0 → stored.new ≡ stored.old }
{
    blocks::transpose(items, stored)
}

/// Moves the items of each block of `u32` back from their rows.
#[unsafe(no_mangle)]
pub extern "C" fn flcol_untranspose_u32(
    stored: &[[u32; FL_CHUNK_SIZE]],
    items: &mut [[u32; FL_CHUNK_SIZE]],
) -> i32
    ensures status { result ≡ blocks_status (unless (moved_error (length stored.now) (length items.old))) }
    ensures moved { result ≡ pos 0 → AreTransposed (λ x. x) 32 32 items.new stored.now }
    ensures unwritten { result ≢ pos 0 → items.new ≡ items.old }
{
    blocks::untranspose(stored, items)
}

/// Packs the low `width` bits of the items of each block of `u64`, block after block.
#[unsafe(no_mangle)]
pub extern "C" fn flcol_pack_u64(
    width: usize,
    items: &[[u64; FL_CHUNK_SIZE]],
    packed: &mut [u64],
) -> i32
    ensures status { result ≡ blocks_status (unless (packed_error 64 16 width (length items.now) (length packed.old))) }
    ensures packed { result ≡ pos 0 → ArePacked (λ x. x) 64 16 width items.now packed.new }
    ensures unpacked { result ≢ pos 0 → packed.new ≡ packed.old }
{
    blocks::pack(width, items, packed)
}

/// Writes the items of packed blocks of `u64`, with their bits from `width` on 0.
#[unsafe(no_mangle)]
pub extern "C" fn flcol_unpack_u64(
    width: usize,
    packed: &[u64],
    items: &mut [[u64; FL_CHUNK_SIZE]],
) -> i32
    ensures status { result ≡ blocks_status (unless (packed_error 64 16 width (length items.old) (length packed.now))) }
    ensures items { result ≡ pos 0 → AreUnpacked (λ x. x) 64 16 width packed.now items.new }
    ensures unwritten { result ≢ pos 0 → items.new ≡ items.old }
{
    blocks::unpack(width, packed, items)
}

/// Writes the items of packed blocks of `u64` plus a reference, modulo 2 to the 64.
#[unsafe(no_mangle)]
pub extern "C" fn flcol_unfor_pack_u64(
    width: usize,
    packed: &[u64],
    reference: u64,
    items: &mut [[u64; FL_CHUNK_SIZE]],
) -> i32
    ensures status { result ≡ blocks_status (unless (packed_error 64 16 width (length items.old) (length packed.now))) }
    ensures items { result ≡ pos 0 → AreUnpackedFrom reference (λ x. x) 64 16 width packed.now items.new }
    ensures unwritten { result ≢ pos 0 → items.new ≡ items.old }
{
    blocks::unfor_pack(width, packed, reference, items)
}

/// Writes the deltas of each block of `u64` along its lanes, modulo 2 to the 64.
#[unsafe(no_mangle)]
pub extern "C" fn flcol_delta_u64(
    items: &[[u64; FL_CHUNK_SIZE]],
    bases: &[u64],
    deltas: &mut [[u64; FL_CHUNK_SIZE]],
) -> i32
    ensures status { result ≡ blocks_status (unless (delta_error 16 (length items.now) (length bases.now) (length deltas.old))) }
    ensures deltas { result ≡ pos 0 → AreDeltas (λ x. x) 64 16 bases.now items.now deltas.new }
    ensures unwritten { result ≢ pos 0 → deltas.new ≡ deltas.old }
{
    blocks::delta(items, bases, deltas)
}

/// Writes the items of each block of deltas of `u64`, modulo 2 to the 64.
#[unsafe(no_mangle)]
pub extern "C" fn flcol_undelta_u64(
    deltas: &[[u64; FL_CHUNK_SIZE]],
    bases: &[u64],
    items: &mut [[u64; FL_CHUNK_SIZE]],
) -> i32
    ensures status { result ≡ blocks_status (unless (delta_error 16 (length deltas.now) (length bases.now) (length items.old))) }
    ensures items { result ≡ pos 0 → AreSums (λ x. x) 64 16 bases.now deltas.now items.new }
    ensures unwritten { result ≢ pos 0 → items.new ≡ items.old }
{
    blocks::undelta(deltas, bases, items)
}

/// Moves the items of each block of `u64` to their rows.
#[unsafe(no_mangle)]
pub extern "C" fn flcol_transpose_u64(
    items: &[[u64; FL_CHUNK_SIZE]],
    stored: &mut [[u64; FL_CHUNK_SIZE]],
) -> i32
    ensures status { result ≡ blocks_status (unless (moved_error (length items.now) (length stored.old))) }
    ensures moved { result ≡ pos 0 → AreTransposed (λ x. x) 64 16 items.now stored.new }
    ensures unwritten { result ≢ pos 0 → stored.new ≡ stored.old }
{
    blocks::transpose(items, stored)
}

/// Moves the items of each block of `u64` back from their rows.
#[unsafe(no_mangle)]
pub extern "C" fn flcol_untranspose_u64(
    stored: &[[u64; FL_CHUNK_SIZE]],
    items: &mut [[u64; FL_CHUNK_SIZE]],
) -> i32
    ensures status { result ≡ blocks_status (unless (moved_error (length stored.now) (length items.old))) }
    ensures moved { result ≡ pos 0 → AreTransposed (λ x. x) 64 16 items.new stored.now }
    ensures unwritten { result ≢ pos 0 → items.new ≡ items.old }
{
    blocks::untranspose(stored, items)
}
