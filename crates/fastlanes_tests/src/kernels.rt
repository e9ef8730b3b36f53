//! Packing and unpacking beside bodies that go bit by bit, each kernel at each word type, and blocks worked out from the layout.

ghost use Rattle.std.specs.Prelude.{◌≡◌, ◌*◌, ◌≤◌, length};

use fastlanes::laws::round_trips::{delta_and_back, runs_and_back, undelta_and_back};
use fastlanes::*;

/// The number that a word stands for.
pub(crate) fn number<W: FastLanes>(word: W) -> u64 {
    let mut bytes = [0u8; 8];
    word.put_word(&mut bytes, 0);
    u64::from_le_bytes(bytes)
}

/// The word of the low bits of a number.
pub(crate) fn word<W: FastLanes>(number: u64) -> W {
    W::word(&number.to_le_bytes(), 0)
}

/// The words of a packed block.
#[tactic(auto, using(fastlanes::proofs::SingleItems::block_fits))]
fn block_size<W: FastLanes>(width: usize) -> usize
    requires { width ≤ W.T }
    ensures size { result ≡ width * W.LANES }
    ensures fits { result ≤ 1024 }
{
    width * W::LANES
}

/// Word `k` of lane `l`, made bit by bit.
fn word_by_bits<W: FastLanes>(width: usize, items: &[W; FL_CHUNK_SIZE], k: usize, l: usize) -> W {
    let mut made = 0u64;
    for t in 0..W::T {
        let s = k.wrapping_mul(W::T).wrapping_add(t);
        let item = number(items[pos(s / width.max(1) % 64, l % 128) % FL_CHUNK_SIZE]);
        let on = item >> (s % width.max(1) % 64) & 1;
        made |= on << (t % 64);
    }
    word(made)
}

/// Packs bit by bit.
fn pack_by_bits<W: FastLanes>(width: usize, items: &[W; FL_CHUNK_SIZE], packed: &mut [W]) {
    for m in 0..packed.len() {
        packed[m] = word_by_bits(width, items, m / W::LANES, m % W::LANES);
    }
}

/// The item at row `r` of lane `l`, made bit by bit.
fn item_by_bits<W: FastLanes>(width: usize, words: &[W], r: usize, l: usize) -> W {
    let mut made = 0u64;
    for b in 0..width {
        let s = r.wrapping_mul(width).wrapping_add(b);
        let at = (s / W::T).wrapping_mul(W::LANES).wrapping_add(l);
        let on = match words.get(at) {
            Some(held) => number(*held) >> (s % W::T % 64) & 1,
            None => 0,
        };
        made |= on << (b % 64);
    }
    word(made)
}

/// Unpacks bit by bit.
fn unpack_by_bits<W: FastLanes>(width: usize, words: &[W], items: &mut [W; FL_CHUNK_SIZE]) {
    for r in 0..W::T {
        for l in 0..W::LANES {
            items[pos(r % 64, l % 128) % FL_CHUNK_SIZE] = item_by_bits(width, words, r, l);
        }
    }
}

/// Item `p` of a block of zeros, of ones, or of squares.
fn item_of_block(block: usize, p: usize) -> u64 {
    match block {
        0 => 0,
        1 => u64::MAX,
        _ => (p as u64).wrapping_mul(p as u64),
    }
}

/// A block of zeros, of ones, or of squares.
fn block_of<W: FastLanes>(block: usize) -> [W; FL_CHUNK_SIZE] {
    let mut items = [W::zero(); FL_CHUNK_SIZE];
    for p in 0..FL_CHUNK_SIZE {
        items[p] = word(item_of_block(block, p));
    }
    items
}

/// Two lists have the same words.
fn are_same<W: FastLanes>(left: &[W], right: &[W]) -> bool {
    if left.len() != right.len() {
        return false;
    }
    for i in 0..left.len() {
        if !left[i].same(right[i]) {
            return false;
        }
    }
    true
}

/// Packs a block in vectors and bit by bit.
fn packs_as_by_bits<W: FastLanes>(
    width: usize,
    items: &[W; FL_CHUNK_SIZE],
    packed: &mut [W],
) -> bool
    requires width { width ≤ W.T }
    requires size { length packed.old ≡ width * W.LANES }
    requires fits { length packed.old ≤ 1024 }
    ensures { length packed.new ≡ width * W.LANES }
{
    let mut by_bits = [W::zero(); FL_CHUNK_SIZE];
    pack(width, items, packed);
    let by_bits = &mut by_bits[..packed.len()];
    pack_by_bits(width, items, by_bits);
    are_same(packed, by_bits)
}

/// Unpacks a block in vectors and bit by bit.
fn unpacks_as_by_bits<W: FastLanes>(width: usize, packed: &[W]) -> bool
    requires width { width ≤ W.T }
    requires size { length packed.now ≡ width * W.LANES }
{
    let mut unpacked = [W::zero(); FL_CHUNK_SIZE];
    let mut by_bits = [W::zero(); FL_CHUNK_SIZE];
    unpack(width, packed, &mut unpacked, &mut Work::new());
    unpack_by_bits(width, packed, &mut by_bits);
    are_same(&unpacked, &by_bits)
}

/// Packs and unpacks a block at each width, in vectors and bit by bit.
fn agree_at_each_width<W: FastLanes>(items: &[W; FL_CHUNK_SIZE]) -> bool {
    let mut packed = [W::zero(); FL_CHUNK_SIZE];
    for width in 0..W::T + 1 {
        let packed = &mut packed[..block_size::<W>(width)];
        if !packs_as_by_bits(width, items, packed) || !unpacks_as_by_bits(width, packed) {
            return false;
        }
    }
    true
}

/// The same for a block of zeros, of ones, and of squares.
fn old_and_new_agree<W: FastLanes>() -> bool {
    for block in 0..3usize {
        if !agree_at_each_width::<W>(&block_of(block)) {
            return false;
        }
    }
    true
}

#[test]
fn old_and_new_agree_on_bytes(rt: HostRuntime) {
    assert!(rt; old_and_new_agree::<u8>());
}

#[test]
fn old_and_new_agree_on_words_of_16_bits(rt: HostRuntime) {
    assert!(rt; old_and_new_agree::<u16>());
}

#[test]
fn old_and_new_agree_on_words_of_32_bits(rt: HostRuntime) {
    assert!(rt; old_and_new_agree::<u32>());
}

#[test]
fn old_and_new_agree_on_words_of_64_bits(rt: HostRuntime) {
    assert!(rt; old_and_new_agree::<u64>());
}

/// The bytes hold these words, the low byte first.
pub(crate) fn hold<W: FastLanes>(bytes: &[u8], words: &[W]) -> bool {
    for m in 0..words.len() {
        if bytes.len() / (W::T / 8) <= m || !W::word(bytes, m).same(words[m]) {
            return false;
        }
    }
    true
}

/// Packs squares as words and as their bytes.
fn packs_words_as_bytes<W: FastLanes>(width: usize, packed: &mut [W], bytes: &mut [u8]) -> bool
    requires width { width ≤ W.T }
    requires words { length packed.old ≡ width * W.LANES }
    requires bytes { length bytes.old ≡ 128 * width }
    ensures words { length packed.new ≡ width * W.LANES }
    ensures bytes { length bytes.new ≡ 128 * width }
{
    let items = block_of::<W>(2);
    pack(width, &items, packed);
    pack_bytes(width, &items, bytes);
    hold(bytes, packed)
}

/// Unpacks a block from words and from their bytes.
fn unpacks_words_as_bytes<W: FastLanes>(width: usize, packed: &[W], bytes: &[u8]) -> bool
    requires width { width ≤ W.T }
    requires words { length packed.now ≡ width * W.LANES }
    requires bytes { length bytes.now ≡ 128 * width }
{
    let mut unpacked = [W::zero(); FL_CHUNK_SIZE];
    let mut from_bytes = [W::zero(); FL_CHUNK_SIZE];
    let mut work = Work::new();
    unpack(width, packed, &mut unpacked, &mut work);
    unpack_bytes(width, bytes, &mut from_bytes, &mut work);
    are_same(&unpacked, &from_bytes) && work.blocks() == 2
}

/// Packs and unpacks a block at each width, as words and as their bytes.
fn words_and_bytes_agree<W: FastLanes>() -> bool {
    let mut packed = [W::zero(); FL_CHUNK_SIZE];
    let mut bytes = [0u8; 8 * FL_CHUNK_SIZE];
    for width in 0..W::T + 1 {
        let packed = &mut packed[..block_size::<W>(width)];
        let bytes = &mut bytes[..128 * width];
        if !packs_words_as_bytes(width, packed, bytes) {
            return false;
        }
        if !unpacks_words_as_bytes(width, packed, bytes) {
            return false;
        }
    }
    true
}

/// Columns of wider words are packed into bytes and unpacked by the tests of whole columns.
#[test]
fn words_and_bytes_agree_on_narrow_words(rt: HostRuntime) {
    assert!(rt; words_and_bytes_agree::<u8>());
    assert!(rt; words_and_bytes_agree::<u16>());
}

/// Items `p` modulo 7.
fn remainders<W: FastLanes>() -> [W; FL_CHUNK_SIZE] {
    let mut items = [W::zero(); FL_CHUNK_SIZE];
    for p in 0..FL_CHUNK_SIZE {
        items[p] = word((p % 7) as u64);
    }
    items
}

/// Each word is `p` modulo 7, and 10.
fn are_remainders_and_10<W: FastLanes>(words: &[W; FL_CHUNK_SIZE]) -> bool {
    for p in 0..FL_CHUNK_SIZE {
        if number(words[p]) != (p % 7 + 10) as u64 {
            return false;
        }
    }
    true
}

/// The same at width 3, with 10 added.
fn sums_are_read<W: FastLanes>(packed: &[W]) -> bool
    requires width { 3 ≤ W.T }
    requires size { length packed.now ≡ 3 * W.LANES }
{
    let mut summed = [W::zero(); FL_CHUNK_SIZE];
    unfor_pack(3, packed, word(10), &mut summed, &mut Work::new());
    are_remainders_and_10(&summed)
}

/// The same at three positions.
fn indices_are_read<W: FastLanes>(packed: &[W]) -> bool
    requires width { 3 ≤ W.T }
    requires size { length packed.now ≡ 3 * W.LANES }
{
    let mut work = Work::new();
    let mut taken = [W::zero(); 3];
    unpack_indices(3, packed, &[1023, 0, 1023], &mut taken, &mut work);
    number(taken[0]) == 1
        && number(taken[1]) == 0
        && number(taken[2]) == 1
        && work.blocks() == 0
        && work.words() >= 3
        && work.words() <= 6
}

/// Bit `p` is set where `p` modulo 7 is 6.
fn are_sixes(bits: &[u64; 16]) -> bool {
    for p in 0..FL_CHUNK_SIZE {
        let is_set = bits[p / 64] >> (p % 64) & 1 == 1;
        if is_set != (p % 7 == 6) {
            return false;
        }
    }
    true
}

/// The same beside 6.
fn items_are_compared<W: FastLanes>(packed: &[W]) -> bool
    requires width { 3 ≤ W.T }
    requires size { length packed.now ≡ 3 * W.LANES }
{
    let mut work = Work::new();
    let mut lane_bits = [0u64; 16];
    let same = |item: W, rhs: W| item.same(rhs);
    unpack_cmp(3, packed, &mut lane_bits, same, word(6), &mut work);
    let mut bits = [0u64; 16];
    transpose_bits::<W>(&lane_bits, &mut bits);
    are_sixes(&bits) && work.blocks() == 1
}

/// Items `p` modulo 7 at width 3, through each kernel that reads packed words.
fn packed_items_are_read<W: FastLanes>() -> bool
    requires { 3 ≤ W.T }
{
    let mut packed = [W::zero(); FL_CHUNK_SIZE];
    let packed = &mut packed[..block_size::<W>(3)];
    pack(3, &remainders(), packed);
    sums_are_read(packed) && indices_are_read(packed) && items_are_compared(packed)
}

/// Items 1 and 64 are where a transposition brings them.
fn are_moved<W: FastLanes>(stored: &[W; FL_CHUNK_SIZE], items: &[W; FL_CHUNK_SIZE]) -> bool {
    stored[128].same(items[1]) && stored[1].same(items[64])
}

/// The items through the transposition and back.
fn places_come_back<W: FastLanes>(items: &[W; FL_CHUNK_SIZE]) -> bool {
    let mut stored = [W::zero(); FL_CHUNK_SIZE];
    let mut back = [W::zero(); FL_CHUNK_SIZE];
    transpose(items, &mut stored);
    untranspose(&stored, &mut back);
    are_moved(&stored, items) && are_same(&back, items)
}

/// Bases that count up.
fn counted<W: FastLanes>() -> [W; FL_CHUNK_SIZE] {
    let mut bases = [W::zero(); FL_CHUNK_SIZE];
    for l in 0..FL_CHUNK_SIZE {
        bases[l] = word(l as u64);
    }
    bases
}

/// The items through deltas beside bases that count up, and back.
fn deltas_come_back<W: FastLanes>(items: &[W; FL_CHUNK_SIZE]) -> bool
    requires { 1 ≤ W.T }
{
    let bases = counted::<W>();
    let mut deltas = [W::zero(); FL_CHUNK_SIZE];
    let mut back = [W::zero(); FL_CHUNK_SIZE];
    delta_and_back(items, &bases[..block_size::<W>(1)], &mut deltas, &mut back);
    are_same(&back, items)
}

/// The items through sums from bases that count up, and back.
fn sums_come_back<W: FastLanes>(items: &[W; FL_CHUNK_SIZE]) -> bool
    requires { 1 ≤ W.T }
{
    let bases = counted::<W>();
    let mut sums = [W::zero(); FL_CHUNK_SIZE];
    let mut back = [W::zero(); FL_CHUNK_SIZE];
    undelta_and_back(items, &bases[..block_size::<W>(1)], &mut sums, &mut back);
    are_same(&back, items)
}

/// Bit `p` of the answers of a delta block is set where item `p` is the one in the middle.
fn answers_are_in_order<W: FastLanes>(
    deltas: &[W; FL_CHUNK_SIZE],
    bases: &[W],
    items: &[W; FL_CHUNK_SIZE],
) -> bool
    requires { length bases.now ≡ W.LANES }
{
    let wanted = items[FL_CHUNK_SIZE / 2];
    let mut bits = [u64::MAX; 16];
    let same = |item: W, rhs: W| item.same(rhs);
    undelta_cmp(deltas, bases, &mut bits, same, wanted);
    for p in 0..FL_CHUNK_SIZE {
        let is_set = bits[p / 64] >> (p % 64) & 1 == 1;
        if is_set != items[p].same(wanted) {
            return false;
        }
    }
    true
}

/// The items through deltas beside bases that count up, and back in their order in one step.
fn items_come_back_in_order<W: FastLanes>(items: &[W; FL_CHUNK_SIZE]) -> bool
    requires { 1 ≤ W.T }
{
    let bases = counted::<W>();
    let bases = &bases[..block_size::<W>(1)];
    let mut stored = [W::zero(); FL_CHUNK_SIZE];
    let mut deltas = [W::zero(); FL_CHUNK_SIZE];
    let mut back = [W::zero(); FL_CHUNK_SIZE];
    transpose(items, &mut stored);
    delta(&stored, bases, &mut deltas);
    undelta_to_items(&deltas, bases, &mut back);
    are_same(&back, items) && answers_are_in_order(&deltas, bases, items)
}

/// The items through the runs and back.
fn runs_come_back<W: FastLanes>(items: &[W; FL_CHUNK_SIZE]) -> bool {
    let mut values = [W::zero(); FL_CHUNK_SIZE];
    let mut indices = [0u16; FL_CHUNK_SIZE];
    let mut back = [W::zero(); FL_CHUNK_SIZE];
    runs_and_back(items, &mut values, &mut indices, &mut back);
    are_same(&back, items)
}

/// Squares from 1 on, of which three stand in a row.
fn squares<W: FastLanes>() -> [W; FL_CHUNK_SIZE] {
    let mut items = [W::zero(); FL_CHUNK_SIZE];
    for p in 0..FL_CHUNK_SIZE {
        items[p] = word(item_of_block(2, p / 3 + 1));
    }
    items
}

/// The squares through the kernels that undo each other.
fn blocks_come_back<W: FastLanes>() -> bool
    requires { 1 ≤ W.T }
{
    let items = squares::<W>();
    places_come_back(&items)
        && deltas_come_back(&items)
        && sums_come_back(&items)
        && items_come_back_in_order(&items)
        && runs_come_back(&items)
}

#[test]
fn packed_items_at_each_type(rt: HostRuntime) {
    assert!(rt; packed_items_are_read::<u8>() && packed_items_are_read::<u16>());
    assert!(rt; packed_items_are_read::<u32>() && packed_items_are_read::<u64>());
}

#[test]
fn blocks_at_each_type(rt: HostRuntime) {
    assert!(rt; blocks_come_back::<u8>() && blocks_come_back::<u16>());
    assert!(rt; blocks_come_back::<u32>() && blocks_come_back::<u64>());
}

/// The bases of a block: the first item of each lane.
fn bases_of<W: FastLanes>(items: &[W; FL_CHUNK_SIZE], bases: &mut [W])
    ensures { length bases.new ≡ length bases.old }
{
    for l in 0..bases.len() {
        bases[l] = items[seg(l % 128) % FL_CHUNK_SIZE];
    }
}

/// Each word is this number.
fn all_are<W: FastLanes>(words: &[W], wanted: u64) -> bool {
    for i in 0..words.len() {
        if number(words[i]) != wanted {
            return false;
        }
    }
    true
}

/// The bytes are 128 zeros, and then ones.
fn are_zeros_then_ones(bytes: &[u8; FL_CHUNK_SIZE]) -> bool {
    all_are(&bytes[..128], 0) && all_are(&bytes[128..], 1)
}

#[test]
fn deltas_of_bytes_that_count_up(rt: HostRuntime) {
    let mut items = [0u8; FL_CHUNK_SIZE];
    for p in 0..FL_CHUNK_SIZE {
        items[p] = (p % 256) as u8;
    }
    let mut stored = [0u8; FL_CHUNK_SIZE];
    transpose(&items, &mut stored);
    let mut bases = [0u8; 128];
    bases_of(&items, &mut bases);
    assert!(rt; bases[1] == 64 && bases[4] == 0 && bases[16] == 32);
    let mut deltas = [9u8; FL_CHUNK_SIZE];
    delta(&stored, &bases, &mut deltas);
    assert!(rt; are_zeros_then_ones(&deltas));
    let mut back = [9u8; FL_CHUNK_SIZE];
    undelta(&deltas, &bases, &mut back);
    assert!(rt; back == stored);
}

#[test]
fn deltas_of_three_wide_items(rt: HostRuntime) {
    let mut items = [3u64; FL_CHUNK_SIZE];
    items[0] = 1;
    items[1] = 2;
    let mut stored = [0u64; FL_CHUNK_SIZE];
    transpose(&items, &mut stored);
    let mut bases = [0u64; 16];
    bases_of(&items, &mut bases);
    assert!(rt; bases[0] == 1 && all_are(&bases[1..], 3));
    let mut deltas = [9u64; FL_CHUNK_SIZE];
    delta(&stored, &bases, &mut deltas);
    assert!(rt; deltas[128] == 1 && deltas[256] == 1);
    deltas[128] = 0;
    deltas[256] = 0;
    assert!(rt; all_are(&deltas, 0));
}

#[test]
fn one_run(rt: HostRuntime) {
    let mut values = [9u8; FL_CHUNK_SIZE];
    let mut indices = [9u16; FL_CHUNK_SIZE];
    let runs = rle_encode(&[4u8; FL_CHUNK_SIZE], &mut values, &mut indices);
    assert!(rt; runs == 1 && values[0] == 4);
    assert!(rt; all_are(&indices, 0));
}

#[test]
fn runs_of_a_block(rt: HostRuntime) {
    let mut items = [7u8; FL_CHUNK_SIZE];
    items[0] = 5;
    items[1] = 5;
    items[3] = 0;
    let mut values = [9u8; FL_CHUNK_SIZE];
    let mut indices = [9u16; FL_CHUNK_SIZE];
    let runs = rle_encode(&items, &mut values, &mut indices);
    assert_eq!(rt; runs, 4);
    assert!(rt; values[..4] == [5, 7, 0, 7]);
    assert!(rt; indices[..4] == [0, 0, 1, 2]);
    assert!(rt; all_are(&indices[4..], 3));
}
