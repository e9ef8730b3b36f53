//! Columns packed at a width for each block of 1024 items.

ghost use Rattle.std.specs.Prelude.{◌≡◌, ◌+◌, IsTrue, length};
ghost use Rattle.fl_types.specs.Integers.{bits_of_type};
ghost use Rattle.fl_column.specs.Chunks.{chunk_count};
ghost use Rattle.fl_column.specs.Numbers.{numbers};
ghost use Rattle.fl_bitpacking.specs.Blocks.{are_blocks};

use crate::asked::Asked;
use crate::columns::width_of;
use crate::names::named;
use crate::shown;
use crate::text::Text;
use fastlanes::Work;
use fl_bitpacking::bitpack_compress::bitpack_blocked_unchecked;
use fl_bitpacking::bitpack_decompress::{PackedColumn, unpack_column};
use fl_column::PrimitiveArray;
use fl_patches::{Patches, Widths, gather_blocked_patches};
use fl_types::*;
use std::alloc::Global;

/// Adds the column that comes back from blocks which lie between boundaries.
fn unpack<'a>(
    alloc: Global,
    array: &'a PrimitiveArray,
    bytes: &'a [u8],
    boundaries: &PrimitiveArray,
    patches: Option<&'a Patches>,
    answer: &mut Text,
)
    requires count { length boundaries.now.slots ≡ chunk_count (length array.now.slots) + 1 }
    requires blocks { IsTrue (are_blocks (bits_of_type array.now.ptype) (length bytes.now) (numbers boundaries.now)) }
{
    if let Some(patches) = patches {
        if patches.array_len() != array.len() || patches.values().ptype() != array.ptype() {
            return;
        }
    }
    let column = PackedColumn {
        packed: bytes,
        ptype: array.ptype(),
        validity: array.validity(),
        patches,
        offset: 0,
        len: array.len(),
    };
    let widths = Widths::Boundaries(boundaries);
    let made = unpack_column(alloc, &column, widths, &mut Work::new());
    shown::made(answer, made);
}

/// Adds blocks: their bytes, their boundaries, and the column that comes back.
fn blocks<'a>(
    alloc: Global,
    array: &'a PrimitiveArray,
    bytes: &'a [u8],
    boundaries: &PrimitiveArray,
    patches: Option<&'a Patches>,
    answer: &mut Text,
)
    requires count { length boundaries.now.slots ≡ chunk_count (length array.now.slots) + 1 }
    requires blocks { IsTrue (are_blocks (bits_of_type array.now.ptype) (length bytes.now) (numbers boundaries.now)) }
{
    shown::bytes(answer, bytes);
    answer.word("|");
    shown::column(answer, boundaries);
    answer.word("|");
    unpack(alloc, array, bytes, boundaries, patches, answer);
}

fn pack_none(alloc: Global, array: &PrimitiveArray, answer: &mut Text) {
    if array.len() != 0 {
        return;
    }
    match bitpack_blocked_unchecked(alloc, array, &[]) {
        Ok(parts) => blocks(alloc, array, parts.0.as_slice(), &parts.1, None, answer),
        Err(refusal) => answer.refusal(refusal),
    }
}

fn pack_one(alloc: Global, array: &PrimitiveArray, width: u8, answer: &mut Text) {
    if array.len() == 0 || array.len() > 1024 || usize::from(width) > array.ptype().bit_width() {
        return;
    }
    match bitpack_blocked_unchecked(alloc, array, &[width]) {
        Ok(parts) => blocks(alloc, array, parts.0.as_slice(), &parts.1, None, answer),
        Err(refusal) => answer.refusal(refusal),
    }
}

/// Packs a block and an item of `u16`, the block at width 2.
fn pack_two(
    alloc: Global,
    array: &PrimitiveArray,
    second: u8,
    patches: Option<&Patches>,
    answer: &mut Text,
) {
    if array.len() != 1025 || array.ptype() != PType::U16 || second > 16 {
        return;
    }
    match bitpack_blocked_unchecked(alloc, array, &[2, second]) {
        Ok(parts) => blocks(alloc, array, parts.0.as_slice(), &parts.1, patches, answer),
        Err(refusal) => answer.refusal(refusal),
    }
}

/// Packs a block and an item at widths 2 and 0, with the patches that these ask for.
fn patch(alloc: Global, array: &PrimitiveArray, answer: &mut Text) {
    if array.len() != 1025 {
        return;
    }
    match gather_blocked_patches(alloc, array, &[2, 0], 1) {
        Ok(patches) => pack_two(alloc, array, 0, patches.as_ref(), answer),
        Err(refusal) => answer.refusal(refusal),
    }
}

/// Packs a column at none, one or two widths, of which the first is 2.
fn pack(asked: Asked, array: &PrimitiveArray, answer: &mut Text) {
    match asked.words.len() {
        1 => pack_none(asked.alloc, array, answer),
        2 => pack_one(asked.alloc, array, width_of(asked.word(1)), answer),
        _ => pack_two(asked.alloc, array, width_of(asked.word(2)), None, answer),
    }
}

#[derive(Clone, Copy)]
enum Question {
    Pack,
    Patch,
}

const QUESTIONS: &[(&str, Question)] = &[
    ("pack_blocked", Question::Pack),
    ("patch_blocked", Question::Patch),
];

pub fn ask(asked: Asked, answer: &mut Text) -> bool {
    let Some(question) = named(QUESTIONS, asked.word(0)) else {
        return false;
    };
    match question {
        Question::Pack => pack(asked, asked.column(0), answer),
        Question::Patch => patch(asked.alloc, asked.column(0), answer),
    }
    true
}
