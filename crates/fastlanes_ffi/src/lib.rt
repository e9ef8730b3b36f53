//! Exports for comparisons of speed: each kernel over any number of whole blocks, whole packed columns, and arrays in each encoding. What is too short is left undone.
#![tactic(auto)]

mod arrays;
mod blocks;
mod columns;
mod questions;

use arrays::{ask_again, encode_again};
use blocks::{
    compare_lt_all, delta_all, pack_all, rle_decode_all, single, transpose_all, undelta_all,
    unfor_pack_all, unpack_all, untranspose_all,
};
use columns::{decode_column, pack_column, pack_column_into, unpack_column};
use fl_types::Validity;
use std::alloc::Global;

#[unsafe(no_mangle)]
pub extern "C" fn fl_pack_u8(width: usize, items: &[u8], packed: &mut [u8]) {
    if width <= 8 {
        pack_all(width, items.as_chunks().0, packed);
    }
}

#[unsafe(no_mangle)]
pub extern "C" fn fl_unpack_u8(width: usize, packed: &[u8], items: &mut [u8]) {
    if width <= 8 {
        unpack_all(width, packed, items.as_chunks_mut().0);
    }
}

#[unsafe(no_mangle)]
pub extern "C" fn fl_unfor_pack_u8(width: usize, packed: &[u8], reference: u8, items: &mut [u8]) {
    if width <= 8 {
        unfor_pack_all(width, packed, reference, items.as_chunks_mut().0);
    }
}

#[unsafe(no_mangle)]
pub extern "C" fn fl_compare_lt_u8(width: usize, packed: &[u8], rhs: u8, bits: &mut [u64]) {
    if width <= 8 {
        compare_lt_all(width, packed, rhs, bits.as_chunks_mut().0);
    }
}

#[unsafe(no_mangle)]
pub extern "C" fn fl_unpack_single_u8(width: usize, block_bytes: &[u8], index: usize) -> u8 {
    if width > 8 {
        return 0;
    }
    single(width, block_bytes, index)
}

#[unsafe(no_mangle)]
pub extern "C" fn fl_transpose_u8(input: &[u8], items: &mut [u8]) {
    transpose_all(input.as_chunks().0, items.as_chunks_mut().0);
}

#[unsafe(no_mangle)]
pub extern "C" fn fl_untranspose_u8(input: &[u8], items: &mut [u8]) {
    untranspose_all(input.as_chunks().0, items.as_chunks_mut().0);
}

#[unsafe(no_mangle)]
pub extern "C" fn fl_delta_u8(input: &[u8], bases: &[u8], items: &mut [u8]) {
    delta_all(input.as_chunks().0, bases, items.as_chunks_mut().0);
}

#[unsafe(no_mangle)]
pub extern "C" fn fl_undelta_u8(input: &[u8], bases: &[u8], items: &mut [u8]) {
    undelta_all(input.as_chunks().0, bases, items.as_chunks_mut().0);
}

#[unsafe(no_mangle)]
pub extern "C" fn fl_rle_decode_u8(values: &[u8], indices: &[u16], items: &mut [u8]) {
    rle_decode_all(values, indices.as_chunks().0, items.as_chunks_mut().0);
}

#[unsafe(no_mangle)]
pub extern "C" fn fl_pack_u16(width: usize, items: &[u16], packed: &mut [u16]) {
    if width <= 16 {
        pack_all(width, items.as_chunks().0, packed);
    }
}

#[unsafe(no_mangle)]
pub extern "C" fn fl_unpack_u16(width: usize, packed: &[u16], items: &mut [u16]) {
    if width <= 16 {
        unpack_all(width, packed, items.as_chunks_mut().0);
    }
}

#[unsafe(no_mangle)]
pub extern "C" fn fl_unfor_pack_u16(
    width: usize,
    packed: &[u16],
    reference: u16,
    items: &mut [u16],
) {
    if width <= 16 {
        unfor_pack_all(width, packed, reference, items.as_chunks_mut().0);
    }
}

#[unsafe(no_mangle)]
pub extern "C" fn fl_compare_lt_u16(width: usize, packed: &[u16], rhs: u16, bits: &mut [u64]) {
    if width <= 16 {
        compare_lt_all(width, packed, rhs, bits.as_chunks_mut().0);
    }
}

#[unsafe(no_mangle)]
pub extern "C" fn fl_unpack_single_u16(width: usize, block_bytes: &[u8], index: usize) -> u16 {
    if width > 16 {
        return 0;
    }
    single(width, block_bytes, index)
}

#[unsafe(no_mangle)]
pub extern "C" fn fl_transpose_u16(input: &[u16], items: &mut [u16]) {
    transpose_all(input.as_chunks().0, items.as_chunks_mut().0);
}

#[unsafe(no_mangle)]
pub extern "C" fn fl_untranspose_u16(input: &[u16], items: &mut [u16]) {
    untranspose_all(input.as_chunks().0, items.as_chunks_mut().0);
}

#[unsafe(no_mangle)]
pub extern "C" fn fl_delta_u16(input: &[u16], bases: &[u16], items: &mut [u16]) {
    delta_all(input.as_chunks().0, bases, items.as_chunks_mut().0);
}

#[unsafe(no_mangle)]
pub extern "C" fn fl_undelta_u16(input: &[u16], bases: &[u16], items: &mut [u16]) {
    undelta_all(input.as_chunks().0, bases, items.as_chunks_mut().0);
}

#[unsafe(no_mangle)]
pub extern "C" fn fl_rle_decode_u16(values: &[u16], indices: &[u16], items: &mut [u16]) {
    rle_decode_all(values, indices.as_chunks().0, items.as_chunks_mut().0);
}

#[unsafe(no_mangle)]
pub extern "C" fn fl_pack_u32(width: usize, items: &[u32], packed: &mut [u32]) {
    if width <= 32 {
        pack_all(width, items.as_chunks().0, packed);
    }
}

#[unsafe(no_mangle)]
pub extern "C" fn fl_unpack_u32(width: usize, packed: &[u32], items: &mut [u32]) {
    if width <= 32 {
        unpack_all(width, packed, items.as_chunks_mut().0);
    }
}

#[unsafe(no_mangle)]
pub extern "C" fn fl_unfor_pack_u32(
    width: usize,
    packed: &[u32],
    reference: u32,
    items: &mut [u32],
) {
    if width <= 32 {
        unfor_pack_all(width, packed, reference, items.as_chunks_mut().0);
    }
}

#[unsafe(no_mangle)]
pub extern "C" fn fl_compare_lt_u32(width: usize, packed: &[u32], rhs: u32, bits: &mut [u64]) {
    if width <= 32 {
        compare_lt_all(width, packed, rhs, bits.as_chunks_mut().0);
    }
}

#[unsafe(no_mangle)]
pub extern "C" fn fl_unpack_single_u32(width: usize, block_bytes: &[u8], index: usize) -> u32 {
    if width > 32 {
        return 0;
    }
    single(width, block_bytes, index)
}

#[unsafe(no_mangle)]
pub extern "C" fn fl_transpose_u32(input: &[u32], items: &mut [u32]) {
    transpose_all(input.as_chunks().0, items.as_chunks_mut().0);
}

#[unsafe(no_mangle)]
pub extern "C" fn fl_untranspose_u32(input: &[u32], items: &mut [u32]) {
    untranspose_all(input.as_chunks().0, items.as_chunks_mut().0);
}

#[unsafe(no_mangle)]
pub extern "C" fn fl_delta_u32(input: &[u32], bases: &[u32], items: &mut [u32]) {
    delta_all(input.as_chunks().0, bases, items.as_chunks_mut().0);
}

#[unsafe(no_mangle)]
pub extern "C" fn fl_undelta_u32(input: &[u32], bases: &[u32], items: &mut [u32]) {
    undelta_all(input.as_chunks().0, bases, items.as_chunks_mut().0);
}

#[unsafe(no_mangle)]
pub extern "C" fn fl_rle_decode_u32(values: &[u32], indices: &[u16], items: &mut [u32]) {
    rle_decode_all(values, indices.as_chunks().0, items.as_chunks_mut().0);
}

#[unsafe(no_mangle)]
pub extern "C" fn fl_pack_u64(width: usize, items: &[u64], packed: &mut [u64]) {
    if width <= 64 {
        pack_all(width, items.as_chunks().0, packed);
    }
}

#[unsafe(no_mangle)]
pub extern "C" fn fl_unpack_u64(width: usize, packed: &[u64], items: &mut [u64]) {
    if width <= 64 {
        unpack_all(width, packed, items.as_chunks_mut().0);
    }
}

#[unsafe(no_mangle)]
pub extern "C" fn fl_unfor_pack_u64(
    width: usize,
    packed: &[u64],
    reference: u64,
    items: &mut [u64],
) {
    if width <= 64 {
        unfor_pack_all(width, packed, reference, items.as_chunks_mut().0);
    }
}

#[unsafe(no_mangle)]
pub extern "C" fn fl_compare_lt_u64(width: usize, packed: &[u64], rhs: u64, bits: &mut [u64]) {
    if width <= 64 {
        compare_lt_all(width, packed, rhs, bits.as_chunks_mut().0);
    }
}

#[unsafe(no_mangle)]
pub extern "C" fn fl_unpack_single_u64(width: usize, block_bytes: &[u8], index: usize) -> u64 {
    if width > 64 {
        return 0;
    }
    single(width, block_bytes, index)
}

#[unsafe(no_mangle)]
pub extern "C" fn fl_transpose_u64(input: &[u64], items: &mut [u64]) {
    transpose_all(input.as_chunks().0, items.as_chunks_mut().0);
}

#[unsafe(no_mangle)]
pub extern "C" fn fl_untranspose_u64(input: &[u64], items: &mut [u64]) {
    untranspose_all(input.as_chunks().0, items.as_chunks_mut().0);
}

#[unsafe(no_mangle)]
pub extern "C" fn fl_delta_u64(input: &[u64], bases: &[u64], items: &mut [u64]) {
    delta_all(input.as_chunks().0, bases, items.as_chunks_mut().0);
}

#[unsafe(no_mangle)]
pub extern "C" fn fl_undelta_u64(input: &[u64], bases: &[u64], items: &mut [u64]) {
    undelta_all(input.as_chunks().0, bases, items.as_chunks_mut().0);
}

#[unsafe(no_mangle)]
pub extern "C" fn fl_rle_decode_u64(values: &[u64], indices: &[u16], items: &mut [u64]) {
    rle_decode_all(values, indices.as_chunks().0, items.as_chunks_mut().0);
}

#[unsafe(no_mangle)]
pub extern "C" fn fl_pack_column_u8(
    alloc: Global,
    rounds: usize,
    width: u8,
    items: &[u8],
    bytes: &mut [u8],
) -> usize {
    pack_column(alloc, rounds, width, items, bytes).unwrap_or(0)
}

#[unsafe(no_mangle)]
pub extern "C" fn fl_pack_into_u8(
    alloc: Global,
    rounds: usize,
    width: u8,
    items: &[u8],
    bytes: &mut [u8],
) -> usize {
    pack_column_into(alloc, rounds, width, items, bytes).unwrap_or(0)
}

#[unsafe(no_mangle)]
pub extern "C" fn fl_unpack_column_u8(
    alloc: Global,
    rounds: usize,
    width: u8,
    len: usize,
    packed: &[u8],
    items: &mut [u8],
) -> usize {
    unpack_column(
        alloc,
        rounds,
        width,
        len,
        packed,
        &Validity::NonNullable,
        items,
    )
    .unwrap_or(0)
}

#[unsafe(no_mangle)]
pub extern "C" fn fl_decode_column_u8(width: u8, packed: &[u8], items: &mut [u8]) -> usize {
    decode_column(width, packed, items)
}

#[unsafe(no_mangle)]
pub extern "C" fn fl_pack_column_u16(
    alloc: Global,
    rounds: usize,
    width: u8,
    items: &[u16],
    bytes: &mut [u8],
) -> usize {
    pack_column(alloc, rounds, width, items, bytes).unwrap_or(0)
}

#[unsafe(no_mangle)]
pub extern "C" fn fl_pack_into_u16(
    alloc: Global,
    rounds: usize,
    width: u8,
    items: &[u16],
    bytes: &mut [u8],
) -> usize {
    pack_column_into(alloc, rounds, width, items, bytes).unwrap_or(0)
}

#[unsafe(no_mangle)]
pub extern "C" fn fl_unpack_column_u16(
    alloc: Global,
    rounds: usize,
    width: u8,
    len: usize,
    packed: &[u8],
    items: &mut [u16],
) -> usize {
    unpack_column(
        alloc,
        rounds,
        width,
        len,
        packed,
        &Validity::NonNullable,
        items,
    )
    .unwrap_or(0)
}

#[unsafe(no_mangle)]
pub extern "C" fn fl_decode_column_u16(width: u8, packed: &[u8], items: &mut [u16]) -> usize {
    decode_column(width, packed, items)
}

#[unsafe(no_mangle)]
pub extern "C" fn fl_pack_column_u32(
    alloc: Global,
    rounds: usize,
    width: u8,
    items: &[u32],
    bytes: &mut [u8],
) -> usize {
    pack_column(alloc, rounds, width, items, bytes).unwrap_or(0)
}

#[unsafe(no_mangle)]
pub extern "C" fn fl_pack_into_u32(
    alloc: Global,
    rounds: usize,
    width: u8,
    items: &[u32],
    bytes: &mut [u8],
) -> usize {
    pack_column_into(alloc, rounds, width, items, bytes).unwrap_or(0)
}

#[unsafe(no_mangle)]
pub extern "C" fn fl_unpack_column_u32(
    alloc: Global,
    rounds: usize,
    width: u8,
    len: usize,
    packed: &[u8],
    items: &mut [u32],
) -> usize {
    unpack_column(
        alloc,
        rounds,
        width,
        len,
        packed,
        &Validity::NonNullable,
        items,
    )
    .unwrap_or(0)
}

#[unsafe(no_mangle)]
pub extern "C" fn fl_decode_column_u32(width: u8, packed: &[u8], items: &mut [u32]) -> usize {
    decode_column(width, packed, items)
}

#[unsafe(no_mangle)]
pub extern "C" fn fl_pack_column_u64(
    alloc: Global,
    rounds: usize,
    width: u8,
    items: &[u64],
    bytes: &mut [u8],
) -> usize {
    pack_column(alloc, rounds, width, items, bytes).unwrap_or(0)
}

#[unsafe(no_mangle)]
pub extern "C" fn fl_pack_into_u64(
    alloc: Global,
    rounds: usize,
    width: u8,
    items: &[u64],
    bytes: &mut [u8],
) -> usize {
    pack_column_into(alloc, rounds, width, items, bytes).unwrap_or(0)
}

#[unsafe(no_mangle)]
pub extern "C" fn fl_unpack_column_u64(
    alloc: Global,
    rounds: usize,
    width: u8,
    len: usize,
    packed: &[u8],
    items: &mut [u64],
) -> usize {
    unpack_column(
        alloc,
        rounds,
        width,
        len,
        packed,
        &Validity::NonNullable,
        items,
    )
    .unwrap_or(0)
}

#[unsafe(no_mangle)]
pub extern "C" fn fl_decode_column_u64(width: u8, packed: &[u8], items: &mut [u64]) -> usize {
    decode_column(width, packed, items)
}

#[unsafe(no_mangle)]
pub extern "C" fn fl_encode_array_u8(
    alloc: Global,
    rounds: usize,
    encoding: usize,
    width: u8,
    null_every: usize,
    items: &[u8],
) -> usize {
    encode_again(alloc, rounds, encoding, width, null_every, items).unwrap_or(0)
}

#[unsafe(no_mangle)]
pub extern "C" fn fl_ask_array_u8(
    alloc: Global,
    rounds: usize,
    encoding: usize,
    width: u8,
    null_every: usize,
    items: &[u8],
    question: usize,
    numbers: &[u64],
    answers: &mut [u64],
) -> usize {
    ask_again(
        alloc, rounds, encoding, width, null_every, items, question, numbers, answers,
    )
    .unwrap_or(0)
}

#[unsafe(no_mangle)]
pub extern "C" fn fl_encode_array_u16(
    alloc: Global,
    rounds: usize,
    encoding: usize,
    width: u8,
    null_every: usize,
    items: &[u16],
) -> usize {
    encode_again(alloc, rounds, encoding, width, null_every, items).unwrap_or(0)
}

#[unsafe(no_mangle)]
pub extern "C" fn fl_ask_array_u16(
    alloc: Global,
    rounds: usize,
    encoding: usize,
    width: u8,
    null_every: usize,
    items: &[u16],
    question: usize,
    numbers: &[u64],
    answers: &mut [u64],
) -> usize {
    ask_again(
        alloc, rounds, encoding, width, null_every, items, question, numbers, answers,
    )
    .unwrap_or(0)
}

#[unsafe(no_mangle)]
pub extern "C" fn fl_encode_array_u32(
    alloc: Global,
    rounds: usize,
    encoding: usize,
    width: u8,
    null_every: usize,
    items: &[u32],
) -> usize {
    encode_again(alloc, rounds, encoding, width, null_every, items).unwrap_or(0)
}

#[unsafe(no_mangle)]
pub extern "C" fn fl_ask_array_u32(
    alloc: Global,
    rounds: usize,
    encoding: usize,
    width: u8,
    null_every: usize,
    items: &[u32],
    question: usize,
    numbers: &[u64],
    answers: &mut [u64],
) -> usize {
    ask_again(
        alloc, rounds, encoding, width, null_every, items, question, numbers, answers,
    )
    .unwrap_or(0)
}

#[unsafe(no_mangle)]
pub extern "C" fn fl_encode_array_u64(
    alloc: Global,
    rounds: usize,
    encoding: usize,
    width: u8,
    null_every: usize,
    items: &[u64],
) -> usize {
    encode_again(alloc, rounds, encoding, width, null_every, items).unwrap_or(0)
}

#[unsafe(no_mangle)]
pub extern "C" fn fl_ask_array_u64(
    alloc: Global,
    rounds: usize,
    encoding: usize,
    width: u8,
    null_every: usize,
    items: &[u64],
    question: usize,
    numbers: &[u64],
    answers: &mut [u64],
) -> usize {
    ask_again(
        alloc, rounds, encoding, width, null_every, items, question, numbers, answers,
    )
    .unwrap_or(0)
}
