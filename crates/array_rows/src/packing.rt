//! Columns packed into bytes, and read back from them.

use crate::readers;
use fastlanes::Work;
use fl_bitpacking::bitpack_compress::{bitpack_into, bitpack_unchecked};
use fl_bitpacking::bitpack_decompress::{
    PackedColumn, unpack_block_item, unpack_column, unpack_single_primitive,
};
use fl_bitpacking::unpack_iter::BitPacked;
use fl_column::{PhysicalPType, PrimitiveArray};
use fl_patches::{Patches, Widths, gather_patches};
use fl_types::*;
use row_reader::asked::Asked;
use row_reader::columns::{type_of, width_of};
use row_reader::names::named;
use row_reader::shown;
use row_reader::text::Text;
use std::alloc::Global;

/// The column of these parts at one width, which must fit each other.
fn unpack(
    alloc: Global,
    column: &PackedColumn,
    width: usize,
) -> Result<PrimitiveArray, FastLanesError> {
    let (offset, len) = (column.offset, column.len);
    if offset >= 1024 || len >= 1 << 32 || !column.validity.covers(len) {
        return Err(FastLanesError::ValidityLength);
    }
    if width > column.ptype.bit_width() {
        return Err(FastLanesError::WidthTooLarge);
    }
    if 128 * width * (offset + len).div_ceil(1024) > column.packed.len() {
        return Err(FastLanesError::PackedLength);
    }
    if let Some(patches) = column.patches {
        if patches.array_len() != len || patches.values().ptype() != column.ptype {
            return Err(FastLanesError::PatchLength);
        }
    }
    unpack_column(alloc, column, Widths::Global(width), &mut Work::new())
}

/// Adds an item of a packed column, read alone.
fn item<T: BitPacked + PhysicalPType>(bytes: &[u8], width: usize, index: usize, answer: &mut Text) {
    if width > T::PTYPE.bit_width() || index >= 1 << 32 {
        return;
    }
    if 128 * width * (index / 1024 + 1) > bytes.len() {
        return;
    }
    let item: T = unpack_single_primitive(bytes, width, index);
    answer.item(Some(item.as_i128()));
}

/// Adds an item of a packed block, and how many words were read for it.
fn block_item<T: PhysicalPType>(bytes: &[u8], width: usize, index: usize, answer: &mut Text) {
    if width > T::PTYPE.bit_width() || bytes.len() != 128 * width || index >= 1024 {
        return;
    }
    let mut work = Work::new();
    let item: T = unpack_block_item(width, bytes, index, &mut work);
    answer.item(Some(item.as_i128()));
    answer.word("in");
    answer.item(Some(work.words() as i128));
    answer.word("words");
}

/// Adds the column of packed bytes, under an array's validity and with patches.
fn unpack_like<'a>(
    alloc: Global,
    array: &'a PrimitiveArray,
    bytes: &'a [u8],
    width: usize,
    patches: Option<&'a Patches>,
    answer: &mut Text,
) {
    let column = PackedColumn {
        packed: bytes,
        ptype: array.ptype(),
        validity: array.validity(),
        patches,
        offset: 0,
        len: array.len(),
    };
    shown::made(answer, unpack(alloc, &column, width));
}

/// Adds what comes back from packed bytes, with the patches that the width asks for.
fn come_back(alloc: Global, array: &PrimitiveArray, bytes: &[u8], width: u8, answer: &mut Text) {
    match gather_patches(alloc, array, width, 1) {
        Ok(patches) => {
            let width = usize::from(width);
            unpack_like(alloc, array, bytes, width, patches.as_ref(), answer);
        }
        Err(refusal) => answer.refusal(refusal),
    }
}

/// Adds the bytes of a column that is packed over bytes of something else.
fn pack_into(array: &PrimitiveArray, width: u8, answer: &mut Text) {
    let len = array.len();
    if usize::from(width) > array.ptype().bit_width() || len >= 1 << 32 {
        return;
    }
    let mut room = [7u8; 1024];
    let size = 128 * usize::from(width) * len.div_ceil(1024);
    if size <= 1024 {
        let bytes = &mut room[..size];
        bitpack_into(array, width, bytes);
        shown::bytes(answer, bytes);
    }
}

/// Adds what a question asks of packed bytes and of the first column, which they are made of.
fn ask_packed(asked: Asked, bytes: &[u8], width: u8, answer: &mut Text) {
    match asked.word(0) {
        "" => shown::bytes(answer, bytes),
        "patch" => come_back(asked.alloc, asked.column(0), bytes, width, answer),
        _ => {
            if !ask_bytes(asked, bytes, answer) {
                answer.word("no such question");
            }
        }
    }
}

/// Packs the first column, and asks a question of its bytes.
fn pack(asked: Asked, width: u8, answer: &mut Text) {
    let array = asked.column(0);
    if usize::from(width) > array.ptype().bit_width() {
        return;
    }
    match bitpack_unchecked(asked.alloc, array, width) {
        Ok(bytes) => ask_packed(asked.from(2), bytes.as_slice(), width, answer),
        Err(refusal) => answer.refusal(refusal),
    }
}

/// Adds an item of bytes, by the name of its type.
fn item_of(asked: Asked, bytes: &[u8], answer: &mut Text) {
    let (name, width, index) = (asked.word(1), asked.count(2), asked.count(3));
    answer.word(name);
    match_each_integer_ptype!(type_of(name), item(bytes, width, index, answer));
}

/// Adds an item of a block's bytes, by the name of its type.
fn block_item_of(asked: Asked, bytes: &[u8], answer: &mut Text) {
    let (name, width, index) = (asked.word(1), asked.count(2), asked.count(3));
    answer.word(name);
    match_each_integer_ptype!(type_of(name), block_item(bytes, width, index, answer));
}

/// Adds the column of bytes, by the name of its type, under a validity.
fn unpack_under<'a>(asked: Asked, bytes: &'a [u8], validity: &'a Validity, answer: &mut Text) {
    let column = PackedColumn {
        packed: bytes,
        ptype: type_of(asked.word(1)),
        validity,
        patches: None,
        offset: asked.count(3),
        len: asked.count(4),
    };
    shown::made(answer, unpack(asked.alloc, &column, asked.count(2)));
}

/// Adds the column of bytes without nulls.
fn unpack_of(asked: Asked, bytes: &[u8], answer: &mut Text) {
    unpack_under(asked, bytes, &Validity::NonNullable, answer);
}

/// What may be asked of bytes.
#[derive(Clone, Copy)]
enum Question {
    Item,
    BlockItem,
    Unpack,
    Read,
    Lend,
    Counted,
    Scratch,
    Strategy,
}

const QUESTIONS: &[(&str, Question)] = &[
    ("item", Question::Item),
    ("block_item", Question::BlockItem),
    ("unpack", Question::Unpack),
    ("read", Question::Read),
    ("lend", Question::Lend),
    ("counted", Question::Counted),
    ("scratch", Question::Scratch),
    ("strategy", Question::Strategy),
];

/// Asks a question of bytes.
fn ask_bytes(asked: Asked, bytes: &[u8], answer: &mut Text) -> bool {
    let Some(question) = named(QUESTIONS, asked.word(0)) else {
        return false;
    };
    match question {
        Question::Item => item_of(asked, bytes, answer),
        Question::BlockItem => block_item_of(asked, bytes, answer),
        Question::Unpack => unpack_of(asked, bytes, answer),
        Question::Read => readers::read_of(asked, bytes, answer),
        Question::Lend => readers::lend_of(asked, bytes, answer),
        Question::Counted => readers::counted(asked, bytes, answer),
        Question::Scratch => readers::scratch(asked, bytes, answer),
        Question::Strategy => readers::calls(asked, bytes, answer),
    }
    true
}

pub(crate) fn ask(asked: Asked, answer: &mut Text) -> bool {
    let array = asked.column(0);
    match asked.word(0) {
        "pack" => pack(asked, width_of(asked.word(1)), answer),
        "pack_into" => pack_into(array, width_of(asked.word(1)), answer),
        _ => return array.ptype() == PType::U8 && ask_bytes(asked, array.as_slice::<u8>(), answer),
    }
    true
}
