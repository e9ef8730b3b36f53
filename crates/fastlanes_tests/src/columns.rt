//! Columns packed into words of their own type. They stand beside the kernels' tests, which call the
//! kernels on words of every type: each program that does has a function for each width.

ghost use Rattle.std.specs.Prelude.{◌≤◌};
ghost use Rattle.fl_column.specs.Integers.{bits_of_type};

use crate::kernels::hold;
use fastlanes::{FL_CHUNK_SIZE, pack_bytes};
use fl_bitpacking::bitpack_compress::word_packing::bitpack_primitive;
use fl_column::PhysicalPType;
use std::process::Abort;

/// The words are these first ones, and then another one, as many as there should be.
fn are_first_then_other<T: PhysicalPType>(
    words: &[T],
    first: &[T],
    other: T,
    count: usize,
) -> bool {
    for i in 0..words.len() {
        if words[i] != *first.get(i).unwrap_or(&other) {
            return false;
        }
    }
    words.len() == count
}

/// Packs a column, and tells whether its words are those that are wanted: the first ones, any other, and how many.
fn packs_to<T: PhysicalPType>(
    rt: &HostRuntime,
    items: &[T],
    width: u8,
    wanted: (&[T], T, usize),
) -> bool
    requires { width ≤ bits_of_type T.PTYPE }
{
    match bitpack_primitive(rt.alloc(), items, width) {
        Ok(words) => are_first_then_other(&words, wanted.0, wanted.1, wanted.2),
        Err(_) => false,
    }
}

/// A block of ones at width 1 makes these words, this many of them.
fn ones_fill<T: PhysicalPType>(rt: &HostRuntime, ones: &[T; 1024], full: T, count: usize) -> bool
    requires { 1 ≤ bits_of_type T.PTYPE }
{
    packs_to(rt, ones, 1, (&[], full, count))
}

#[test]
fn ones_fill_unsigned_words(rt: HostRuntime) {
    assert!(rt; ones_fill(&rt, &[1u8; 1024], u8::MAX, 128));
    assert!(rt; ones_fill(&rt, &[1u16; 1024], u16::MAX, 64));
    assert!(rt; ones_fill(&rt, &[1u32; 1024], u32::MAX, 32));
    assert!(rt; ones_fill(&rt, &[1u64; 1024], u64::MAX, 16));
}

#[test]
fn ones_fill_signed_words(rt: HostRuntime) {
    assert!(rt; ones_fill(&rt, &[1i8; 1024], -1, 128));
    assert!(rt; ones_fill(&rt, &[1i16; 1024], -1, 64));
    assert!(rt; ones_fill(&rt, &[1i32; 1024], -1, 32));
    assert!(rt; ones_fill(&rt, &[1i64; 1024], -1, 16));
}

#[test]
fn an_item_lies_in_its_lane(rt: HostRuntime) {
    let items = [1u64, 0, 1, 0, 1, 0, 1];
    assert!(rt; packs_to(&rt, &items, 1, (&items, 0, 16)));
}

#[test]
fn nothing_and_width_0_make_no_words(rt: HostRuntime) {
    assert!(rt; packs_to::<u32>(&rt, &[], 3, (&[], 0, 0)));
    assert!(rt; packs_to(&rt, &[7u8, 8, 9], 0, (&[], 0, 0)));
}

#[test]
fn words_of_full_width_are_the_items(rt: HostRuntime) {
    assert!(rt; packs_to(&rt, &[-1i16; 1024], 16, (&[], -1, 1024)));
    assert!(rt; packs_to(&rt, &[-1i8; 3], 8, (&[-1; 3], 0, 1024)));
}

#[test]
fn a_short_block_follows_a_whole_one(rt: HostRuntime) {
    let mut words = [u64::MAX; 17];
    words[16] = 1;
    assert!(rt; packs_to(&rt, &[1u64; 1025], 1, (&words, 0, 32)));
}

#[test]
fn packs_a_few_bytes(rt: HostRuntime) {
    let items = [5u8, 6, 7];
    assert!(rt; packs_to(&rt, &items, 3, (&items, 0, 384)));
}

/// A column's items of two blocks, `p` at index `p`.
fn counted() -> [u16; 2048] {
    let mut items = [0u16; 2048];
    for p in 0..2048 {
        items[p] = p as u16;
    }
    items
}

/// A block's bytes at width 11.
fn bytes_of(items: &[u16; FL_CHUNK_SIZE]) -> [u8; 1408] {
    let mut bytes = [0u8; 1408];
    pack_bytes(11, items, &mut bytes);
    bytes
}

/// Whether these words, 704 for each of two blocks, are the words of the blocks' bytes.
fn are_words_of(words: &[u16], items: &[u16; 2048]) -> bool {
    if words.len() != 1408 {
        return false;
    }
    let mut block = [0u16; FL_CHUNK_SIZE];
    for j in 0..2 {
        block.copy_from_slice(&items[1024 * j..1024 * j + 1024]);
        if !hold(&bytes_of(&block), &words[704 * j..704 * j + 704]) {
            return false;
        }
    }
    true
}

#[test]
fn words_are_those_of_the_bytes(rt: HostRuntime) {
    let items = counted();
    let held = match bitpack_primitive(rt.alloc(), &items, 11) {
        Ok(words) => are_words_of(&words, &items),
        Err(_) => false,
    };
    assert!(rt; held);
}
