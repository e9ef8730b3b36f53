//! Packed blocks worked out from the layout.

ghost use Rattle.std.specs.Prelude.{◌≡◌, ◌+◌, ◌*◌, ◌/◌, ◌≤◌, length};

use crate::kernels::{number, word};
use fastlanes::*;
use std::process::Abort;

/// Packs a block into bytes.
fn packed_bytes<W: FastLanes>(
    width: usize,
    items: &[W; FL_CHUNK_SIZE],
    words: &mut [W],
    bytes: &mut [u8],
)
    requires width { width ≤ W.T }
    requires words { length words.old ≡ width * W.LANES }
    requires bytes { length bytes.old ≡ 128 * width }
    ensures { length bytes.new ≡ 128 * width }
{
    pack(width, items, words);
    for m in 0..words.len() {
        words[m].put_word(bytes, m);
    }
}

/// The bytes are 0 but at these indices.
fn are_zeros_but(bytes: &[u8], others: &[(usize, u8)]) -> bool {
    for i in 0..bytes.len() {
        if bytes[i] != byte_at(i, others) {
            return false;
        }
    }
    true
}

/// The byte at an index where all are 0 but these.
fn byte_at(index: usize, others: &[(usize, u8)]) -> u8 {
    for (at, byte) in others {
        if *at == index {
            return *byte;
        }
    }
    0
}

#[test]
fn a_byte_of_one_bit(rt: HostRuntime) {
    let mut items = [0u8; FL_CHUNK_SIZE];
    items[128] = 1;
    let mut bytes = [0u8; 128];
    packed_bytes(1, &items, &mut [0; 128], &mut bytes);
    assert!(rt; are_zeros_but(&bytes, &[(0, 2)]));
}

#[test]
fn lanes_of_wide_words(rt: HostRuntime) {
    let mut items = [0u64; FL_CHUNK_SIZE];
    items[16] = 1;
    let mut bytes = [0u8; 128];
    packed_bytes(1, &items, &mut [0; 16], &mut bytes);
    assert!(rt; are_zeros_but(&bytes, &[(4, 1)]));
    items[16] = 0;
    items[1] = 1;
    packed_bytes(1, &items, &mut [0; 16], &mut bytes);
    assert!(rt; are_zeros_but(&bytes, &[(8, 1)]));
}

#[test]
fn an_item_in_two_words(rt: HostRuntime) {
    let mut items = [0u8; FL_CHUNK_SIZE];
    items[256] = 7;
    let mut bytes = [0u8; 384];
    packed_bytes(3, &items, &mut [0; 384], &mut bytes);
    assert!(rt; are_zeros_but(&bytes, &[(0, 192), (128, 1)]));
    let mut work = Work::new();
    let item: u8 = unpack_single(3, &bytes, 256, &mut work);
    assert!(rt; item == 7 && work.blocks() == 0 && work.words() == 2);
}

#[test]
fn a_word_of_two_bytes(rt: HostRuntime) {
    let mut items = [0u16; FL_CHUNK_SIZE];
    items[64] = 5;
    let mut bytes = [0u8; 384];
    packed_bytes(3, &items, &mut [0; 192], &mut bytes);
    assert!(rt; are_zeros_but(&bytes, &[(129, 5)]));
}

#[test]
fn positions_of_rows_and_lanes(rt: HostRuntime) {
    let rows_of_lane_0 = [pos(1, 0), pos(2, 0), pos(8, 0), pos(24, 0), pos(32, 0)];
    assert!(rt; rows_of_lane_0 == [128, 256, 64, 96, 16]);
    let others = [pos(0, 0), pos(0, 127), pos(7, 5), pos(16, 3), pos(63, 15)];
    assert!(rt; others == [0, 127, 901, 35, 1023]);
}

#[test]
fn segments_of_lanes(rt: HostRuntime) {
    assert!(rt; [seg(0), seg(1), seg(4), seg(15)] == [0, 64, 256, 960]);
    assert!(rt; [seg(16), seg(32), seg(64), seg(127)] == [32, 16, 8, 1016]);
}

/// Item `p` of a block of items that use all their bits.
fn item_of(p: usize) -> u64 {
    (p as u64).wrapping_mul(0x9e37_79b9_7f4a_7c15)
}

/// A block of items that use all their bits.
fn wide_items<W: FastLanes>() -> [W; FL_CHUNK_SIZE] {
    let mut items = [W::zero(); FL_CHUNK_SIZE];
    for p in 0..FL_CHUNK_SIZE {
        items[p] = word(item_of(p));
    }
    items
}

/// The positions that are read one by one.
const READ: [usize; 6] = [0, 1, 127, 128, 500, 1023];

/// Each item read by itself is the one unpacked with its block, and the low bits of what was packed.
fn are_read_alone<W: FastLanes>(
    width: usize,
    mask: u64,
    bytes: &[u8],
    unpacked: &[W; FL_CHUNK_SIZE],
) -> bool
    requires width { width ≤ W.T }
    requires bytes { length bytes.now ≡ 128 * width }
{
    let mut work = Work::new();
    for i in 0..READ.len() {
        let p = READ[i] % FL_CHUNK_SIZE;
        let item: W = unpack_single(width, bytes, p, &mut work);
        if !item.same(unpacked[p]) || number(item) != item_of(p) & mask {
            return false;
        }
    }
    true
}

/// They are packed at a width, and read one by one and all at once.
fn items_are_read<W: FastLanes>(width: usize, mask: u64, words: &mut [W], bytes: &mut [u8]) -> bool
    requires width { width ≤ W.T }
    requires words { length words.old ≡ width * W.LANES }
    requires bytes { length bytes.old ≡ 128 * width }
{
    packed_bytes(width, &wide_items(), words, bytes);
    let mut unpacked = [W::zero(); FL_CHUNK_SIZE];
    unpack(width, words, &mut unpacked, &mut Work::new());
    are_read_alone(width, mask, bytes, &unpacked)
}

#[test]
fn items_of_u8(rt: HostRuntime) {
    assert!(rt; items_are_read::<u8>(5, 0x1f, &mut [0; 640], &mut [0; 640]));
}

#[test]
fn items_of_u16(rt: HostRuntime) {
    assert!(rt; items_are_read::<u16>(16, 0xffff, &mut [0; 1024], &mut [0; 2048]));
}

#[test]
fn items_of_u32(rt: HostRuntime) {
    assert!(rt; items_are_read::<u32>(11, 0x7ff, &mut [0; 352], &mut [0; 1408]));
}

#[test]
fn items_of_u64(rt: HostRuntime) {
    assert!(rt; items_are_read::<u64>(33, 0x1_ffff_ffff, &mut [0; 528], &mut [0; 4224]));
}

#[test]
fn width_0_reads_nothing(rt: HostRuntime) {
    let mut work = Work::new();
    let item: u32 = unpack_single(0, &[], 1023, &mut work);
    assert!(rt; item == 0 && work.blocks() == 0 && work.words() == 0);
    let mut unpacked = [7u32; FL_CHUNK_SIZE];
    unpack(0, &[], &mut unpacked, &mut work);
    assert!(rt; unpacked == [0; FL_CHUNK_SIZE]);
    assert!(rt; work.blocks() == 1 && work.words() == 0);
}

/// A word that was put is read again.
fn is_put<W: FastLanes>(rt: &impl Abort, word: W, bytes: &mut [u8; 16], k: usize)
    requires { (k + 1) * (W.T / 8) ≤ 16 }
{
    assert!(rt; laws::put_then_read(word, bytes, k).same(word));
}

#[test]
fn words_are_put_at_each_type(rt: HostRuntime) {
    let mut bytes = [9u8; 16];
    is_put(&rt, 0x12u8, &mut bytes, 15);
    is_put(&rt, 0x89ab_cdefu32, &mut bytes, 1);
    is_put(&rt, u64::MAX - 1, &mut bytes, 1);
    is_put(&rt, 0x3456u16, &mut bytes, 6);
    assert!(rt; bytes[12] == 0x56 && bytes[13] == 0x34);
}

#[test]
fn sums_and_differences(rt: HostRuntime) {
    assert!(rt; laws::sum_and_difference(200u8, 100) == (44, 100));
    assert!(rt; laws::sum_and_difference(1u64, 2) == (3, u64::MAX));
}
