//! Lists of booleans.

ghost use Rattle.std.specs.Prelude.{◌≡◌, ◌≢◌, ◌&&◌, not, ◌<◌, ◌≤◌, ◌+◌, ◌^◌, ◌*◌, ◌/◌, ◌%◌, ℕ, Bool, [], ◌∷◌, ◌++◌, length, slice_get, slice_index, slice_index_or, slice_set, false, Some, IfOk, IfErr, OnOk, OnErr, Ok, count_ones};
ghost use Rattle.std.specs.Bool.{beq};
ghost use Rattle.std.specs.Cmp.{bool_eq_equiv, partial_equiv_from_equiv};
ghost use Rattle.std.specs.Cmp.Lexicographic.{lists_equiv, lists_per, pointwise};
ghost use Rattle.std.specs.Int.{bit_at};
ghost use Rattle.std.specs.List.{list_all};
ghost use Rattle.fl_types.specs.Bits.{between, bit_of_word, bits_from, bits_of_word, first_bits, is_set, kept, tabulate, true_count};
ghost use Rattle.fl_types.specs.Refusals.{Answers};
ghost use Rattle.fl_types.specs.declared.error.FastLanesError.TheVariants.{OutOfMemory};

use crate::error::FastLanesError;
use std::alloc::{AllocError, Global};
use std::marker::Model;

/// A list of booleans, stored 64 to a word. Contracts see the list.
#[derive(Debug, Drop)]
pub struct BitList {
    words: Vec<u64>,
    len: usize,
}

impl Model for BitList {
    ghost use Rattle.std.specs.Prelude.{◌≡◌, ◌+◌, ◌/◌, List, Bool, length};
    ghost use Rattle.fl_types.specs.Bits.{first_bits};

    ghost Value = { List Bool };

    ghost view = { λ a. first_bits a.words.items a.len };

    ghost invariant = { λ a. length a.words.items ≡ (a.len + 63) / 64 };
}

impl BitList {
    /// An empty list, which grows with this allocator.
    #[tactic(auto, unfolding(crate::specs::Bits::first_bits))]
    pub fn new(alloc: Global) -> BitList
        ensures { result ≡ [] }
    {
        BitList {
            words: Vec::new(alloc),
            len: 0,
        }
    }

    /// An empty list with room for this many booleans, which grows with this allocator.
    #[tactic(auto, unfolding(crate::specs::Bits::first_bits))]
    pub fn with_capacity(alloc: Global, len: usize) -> Result<BitList, FastLanesError>
        ensures { Answers (λ b. b) result (Ok []) }
    {
        let words = Vec::with_capacity(alloc, word_count(len))?;
        Ok(BitList { words, len: 0 })
    }

    /// The number of booleans.
    #[tactic(auto, using(crate::proofs::BitLists::length_first_bits))]
    pub fn len(&self) -> usize
        ensures { result ≡ length self.now }
    {
        self.len
    }

    /// The `len` bits of these words from bit `start` on, the lowest bit of each word first. It allocates nothing.
    pub fn from_words(mut words: Vec<u64>, start: usize, len: usize) -> BitList
        requires room { start + len ≤ 64 * length words.items }
        requires few { start + len < 2 ^ 64 }
        ensures { result ≡ bits_from words.items start len }
    {
        shift_words(&mut words, start, len);
        words.truncate(word_count(len));
        BitList { words, len }
    }

    /// The boolean at an index.
    #[tactic(auto, using(crate::proofs::BitLists::length_first_bits, crate::proofs::BitLists::get_first_bits))]
    pub fn get(&self, i: usize) -> bool
        requires { i < length self.now }
        ensures { slice_get self.now i ≡ Some result }
    {
        bit_of(self.words.as_slice(), i)
    }

    /// The booleans from `64 * k` on as a word, the first in its lowest bit. Bits behind the last boolean are not
    /// set.
    pub fn word(&self, k: usize) -> u64
        requires { 64 * k < length self.now }
        ensures { (j : ℕ) → j < 64 → bit_of_word result j ≡ slice_index_or self.now (64 * k + j) false }
    {
        low_bits(self.words[k], self.len - 64 * k)
    }

    /// The `count` booleans from `start` on as a word, the first in its lowest bit. No other bit is set.
    pub fn word_from(&self, start: usize, count: usize) -> u64
        requires some { 0 < count }
        requires few { count ≤ 64 }
        requires within { start + count ≤ length self.now }
        ensures bits { (j : ℕ) → j < count → bit_of_word result j ≡ slice_index_or self.now (start + j) false }
        ensures clear { (j : ℕ) → count ≤ j → bit_of_word result j ≡ false }
    {
        low_bits(word_from(self.words.as_slice(), start), count)
    }

    /// The answers of `bit` at 0 to `len - 1`. Each word is made of 64 answers at once.
    pub fn from_fn<F: Fn(usize) -> bool>(
        alloc: Global,
        len: usize,
        bit: F,
    ) -> Result<BitList, FastLanesError>
        requires { (i : ℕ) → i < len → F.pre bit i }
        ensures len { IfOk result (λ b. length b ≡ len) }
        ensures bits { IfOk result (λ b. (i : ℕ) → i < len → F.post bit i (slice_index_or b i false)) }
        ensures memory { IfErr result (λ e. e ≡ OutOfMemory) }
    {
        let mut words = Vec::with_capacity(alloc, len / 64 + 1)?;
        for k in 0..len / 64 {
            words.push(word_of(64 * k, 64, &bit))?;
        }
        match len % 64 {
            0 => Ok(BitList { words, len }),
            rest => {
                words.push(word_of(len - rest, rest, &bit))?;
                Ok(BitList { words, len })
            }
        }
    }

    /// Appends a boolean. A list of `usize::MAX` cannot grow.
    pub fn push(&mut self, bit: bool) -> Result<(), FastLanesError>
        ensures ok { OnOk result (self.new ≡ self.old ++ bit ∷ []) }
        ensures err { OnErr result (self.new ≡ self.old) }
        ensures memory { IfErr result (λ e. e ≡ OutOfMemory) }
    {
        if self.len == usize::MAX {
            return Err(FastLanesError::OutOfMemory);
        }
        push_bit(&mut self.words, self.len, bit)?;
        self.len += 1;
        Ok(())
    }

    /// Appends the lowest `count` bits of a word, the lowest first. A list cannot grow beyond `usize::MAX`.
    pub fn push_word(&mut self, word: u64, count: usize) -> Result<(), FastLanesError>
        requires { count ≤ 64 }
        ensures ok { OnOk result (self.new ≡ self.old ++ tabulate (bit_of_word word) count) }
        ensures err { OnErr result (self.new ≡ self.old) }
        ensures memory { IfErr result (λ e. e ≡ OutOfMemory) }
    {
        let Some(len) = self.len.checked_add(count) else {
            return Err(FastLanesError::OutOfMemory);
        };
        push_bits(&mut self.words, self.len, word, count)?;
        self.len = len;
        Ok(())
    }

    /// Sets the boolean at an index.
    pub fn set(&mut self, i: usize, bit: bool)
        requires { i < length self.old }
        ensures { self.new ≡ slice_set self.old i bit }
    {
        set_bit(&mut self.words, i, bit);
    }

    /// The booleans of `start..end`.
    pub fn slice(&self, alloc: Global, start: usize, end: usize) -> Result<BitList, FastLanesError>
        requires order { start ≤ end }
        requires range { end ≤ length self.now }
        ensures { Answers (λ b. b) result (Ok (between start end self.now)) }
    {
        let len = end - start;
        let words = words_from(alloc, self.words.as_slice(), start, len)?;
        Ok(BitList { words, len })
    }

    /// The booleans at the set bits of a mask as long as the list, in order.
    pub fn filter(&self, alloc: Global, mask: &BitList) -> Result<BitList, FastLanesError>
        requires { length mask.now ≡ length self.now }
        ensures { Answers (λ b. b) result (Ok (kept mask.now self.now)) }
    {
        let mut taken = BitList::with_capacity(alloc, mask.count_true())?;
        for k in 0..word_count(self.len()) {
            let word = mask.word(k);
            taken.push_word(gathered(self.word(k), word), word.count_ones() as usize)?;
        }
        Ok(taken)
    }

    /// A copy.
    pub fn try_clone(&self, alloc: Global) -> Result<BitList, FastLanesError>
        ensures { Answers (λ b. b) result (Ok self.now) }
    {
        Ok(BitList {
            words: Vec::from_slice(alloc, self.words.as_slice())?,
            len: self.len,
        })
    }

    /// Whether each boolean is this one.
    pub fn are_all(&self, bit: bool) -> bool
        ensures { result ≡ list_all (beq bit) self.now }
    {
        let len = self.len();
        for k in 0..word_count(len) {
            if self.word(k) != repeated(bit, len - 64 * k) {
                return false;
            }
        }
        true
    }

    /// The number of booleans that are true.
    pub fn count_true(&self) -> usize
        ensures { result ≡ true_count self.now }
    {
        let full = self.len / 64;
        let count = count_ones(&self.words[..full]);
        match self.len % 64 {
            0 => count,
            rest => count + low_bits(self.words[full], rest).count_ones() as usize,
        }
    }
}

/// Two lists are equal if they have the same length and the same bits.
impl PartialEq for BitList {
    ghost eq = { pointwise beq };

    ghost laws = { lists_per (partial_equiv_from_equiv bool_eq_equiv) };

    fn eq(&self, other: &BitList) -> bool {
        if self.len() != other.len() {
            return false;
        }
        for k in 0..word_count(self.len()) {
            if self.word(k) != other.word(k) {
                return false;
            }
        }
        true
    }
}

impl Eq for BitList {
    ghost laws = { lists_equiv bool_eq_equiv };
}

/// Bit `i` of these words.
#[tactic(auto, unfolding(crate::specs::Bits::is_set, crate::specs::Bits::bit_of_word))]
fn bit_of(words: &[u64], i: usize) -> bool
    requires { i < 64 * length words.now }
    ensures { result ≡ is_set words.now i }
{
    words[i / 64] >> (i % 64) & 1 == 1
}

/// The word with bit `at`, which is not set, as `on` says.
#[tactic(auto, using(crate::proofs::BitLists::set_bits))]
fn with_bit(word: u64, at: usize, on: bool) -> u64
    requires within { at < 64 }
    requires clear { bit_of_word word at ≡ false }
    ensures bit { bit_of_word result at ≡ on }
    ensures others { (j : ℕ) → j ≢ at → bit_of_word result j ≡ bit_of_word word j }
{
    if on { word | 1 << at } else { word }
}

/// The word whose lowest bits are the answers of `bit` at `start` to `start + count - 1`.
pub fn word_of<F: Fn(usize) -> bool>(start: usize, count: usize, bit: &F) -> u64
    requires count { count ≤ 64 }
    requires start { start + count < 2 ^ 64 }
    requires callable { (j : ℕ) → j < count → F.pre bit.now (start + j) }
    ensures { (j : ℕ) → j < count → F.post bit.now (start + j) (bit_of_word result j) }
{
    let mut word = 0;
    for j in 0..count {
        word = with_bit(word, j, bit(start + j));
    }
    word
}

/// Adds a bit after the first `len` of these words.
fn push_bit(words: &mut Vec<u64>, len: usize, bit: bool) -> Result<(), AllocError>
    requires { length words.old.items ≡ (len + 63) / 64 }
    ensures count { OnOk result (length words.new.items ≡ (len + 1 + 63) / 64) }
    ensures bits { OnOk result (first_bits words.new.items (len + 1) ≡ first_bits words.old.items len ++ bit ∷ []) }
    ensures err { OnErr result (words.new.items ≡ words.old.items) }
{
    match len % 64 {
        0 => {
            words.push(with_bit(0, 0, bit))?;
            Ok(())
        }
        at => {
            let word = words[len / 64];
            words[len / 64] = with_bit(word & !(1 << at), at, bit);
            Ok(())
        }
    }
}

/// The word whose lowest `at` bits are those of `low`, and whose others are the lowest ones of `word`.
fn joined(low: u64, at: usize, word: u64) -> u64
    requires { at < 64 }
    ensures low { (j : ℕ) → j < at → bit_of_word result j ≡ bit_of_word low j }
    ensures high { (j : ℕ) → at + j < 64 → bit_of_word result (at + j) ≡ bit_of_word word j }
{
    low_bits(low, at) | word << at
}

/// Adds the lowest `count` bits of a word after the first `len` of these words.
fn push_bits(words: &mut Vec<u64>, len: usize, word: u64, count: usize) -> Result<(), AllocError>
    requires words { length words.old.items ≡ (len + 63) / 64 }
    requires count { count ≤ 64 }
    requires few { len + count < 2 ^ 64 }
    ensures count { OnOk result (length words.new.items ≡ (len + count + 63) / 64) }
    ensures before { OnOk result ((i : ℕ) → i < len → is_set words.new.items i ≡ is_set words.old.items i) }
    ensures added { OnOk result ((j : ℕ) → j < count → is_set words.new.items (len + j) ≡ bit_of_word word j) }
    ensures err { OnErr result (words.new.items ≡ words.old.items) }
{
    let (k, at) = (len / 64, len % 64);
    if at == 0 {
        if count > 0 {
            words.push(word)?;
        }
        return Ok(());
    }
    if at + count > 64 {
        words.push(word >> (64 - at))?;
    }
    words[k] = joined(words[k], at, word);
    Ok(())
}

/// Puts a bit at an index of these words.
fn set_bit(words: &mut Vec<u64>, i: usize, bit: bool)
    requires { i < 64 * length words.old.items }
    ensures whole { length words.new.items ≡ length words.old.items }
    ensures here { is_set words.new.items i ≡ bit }
    ensures others { (j : ℕ) → j ≢ i → is_set words.new.items j ≡ is_set words.old.items j }
{
    let (k, at) = (i / 64, i % 64);
    let word = words[k];
    words[k] = with_bit(word & !(1 << at), at, bit);
}

/// The 64 bits from bit `at` of these words on.
fn word_from(words: &[u64], at: usize) -> u64
    requires { at < 64 * length words.now }
    ensures { (j : ℕ) → j < 64 → at + j < 64 * length words.now → bit_of_word result j ≡ is_set words.now (at + j) }
{
    let (k, shift) = (at / 64, at % 64);
    let low = words[k] >> shift;
    if shift == 0 || k + 1 == words.len() {
        low
    } else {
        low | words[k + 1] << (64 - shift)
    }
}

/// The lowest `count` bits of a word, which is all of it from 64 on.
fn low_bits(word: u64, count: usize) -> u64
    ensures low { (j : ℕ) → j < count → bit_of_word result j ≡ bit_of_word word j }
    ensures clear { (j : ℕ) → count ≤ j → bit_of_word result j ≡ false }
{
    if count < 64 {
        word & ((1 << count) - 1)
    } else {
        word
    }
}

/// The word whose lowest `count` bits are all `bit`, and whose others are not set.
fn repeated(bit: bool, count: usize) -> u64
    ensures low { (j : ℕ) → j < 64 → j < count → bit_of_word result j ≡ bit }
    ensures clear { (j : ℕ) → count ≤ j → bit_of_word result j ≡ false }
{
    if bit { low_bits(u64::MAX, count) } else { 0 }
}

/// The word without bit `at`.
fn without_bit(word: u64, at: usize) -> u64
    requires { at < 64 }
    ensures here { bit_of_word result at ≡ false }
    ensures others { (j : ℕ) → j < 64 → j ≢ at → bit_of_word result j ≡ bit_of_word word j }
{
    word & !(1 << at)
}

/// The word without bit `at` if `on` says so, which no branch asks.
fn without_bit_if(word: u64, at: usize, on: bool) -> u64
    requires { at < 64 }
    ensures here { bit_of_word result at ≡ (bit_of_word word at && not on) }
    ensures others { (j : ℕ) → j < 64 → j ≢ at → bit_of_word result j ≡ bit_of_word word j }
{
    word & !(u64::from(on) << at)
}

/// How many bits of a word below bit `at` are set.
fn ones_below(word: u64, at: usize) -> usize
    requires { at < 64 }
    ensures ones { result ≡ true_count (tabulate (bit_of_word word) at) }
    ensures few { result < 64 }
{
    low_bits(word, at).count_ones() as usize
}

/// The bits of a word at the set bits of a mask, in order, the first in the lowest bit. They are all set, and then those
/// that are not set in the word are cleared one by one, since most bits of a validity are set: two without a branch, which
/// often are all.
fn gathered(word: u64, mask: u64) -> u64
    ensures { tabulate (bit_of_word result) (count_ones mask) ≡ kept (bits_of_word mask) (bits_of_word word) }
{
    let mut gathered = u64::MAX;
    let mut rest = mask & !word;
    for _step in 0..2 {
        let at = ones_below(mask, rest.trailing_zeros().min(63) as usize);
        gathered = without_bit_if(gathered, at, rest != 0);
        rest &= rest.saturating_sub(1);
    }
    while rest != 0 {
        gathered = without_bit(gathered, ones_below(mask, rest.trailing_zeros() as usize));
        rest &= rest - 1;
    }
    gathered
}

/// How many bits of these words are set.
fn count_ones(words: &[u64]) -> usize
    requires { 64 * length words.now < 2 ^ 64 }
    ensures { result ≡ true_count (first_bits words.now (64 * length words.now)) }
{
    let mut count = 0;
    for word in words {
        count += word.count_ones() as usize;
    }
    count
}

/// How many words hold this many bits.
fn word_count(len: usize) -> usize
    ensures { result ≡ (len + 63) / 64 }
{
    len / 64 + usize::from(len % 64 != 0)
}

/// Words of the `len` bits from bit `start` on.
fn words_from(
    alloc: Global,
    words: &[u64],
    start: usize,
    len: usize,
) -> Result<Vec<u64>, AllocError>
    requires room { start + len ≤ 64 * length words.now }
    requires few { start + len < 2 ^ 64 }
    ensures count { IfOk result (λ v. length v.items ≡ (len + 63) / 64) }
    ensures bits { IfOk result (λ v. (i : ℕ) → i < len → is_set v.items i ≡ is_set words.now (start + i)) }
{
    let count = word_count(len);
    let mut moved = Vec::with_capacity(alloc, count)?;
    for k in 0..count {
        moved.push(word_from(words, start + 64 * k))?;
    }
    Ok(moved)
}

/// Moves the `len` bits from bit `start` on to the front of these words.
fn shift_words(words: &mut Vec<u64>, start: usize, len: usize)
    requires room { start + len ≤ 64 * length words.old.items }
    requires few { start + len < 2 ^ 64 }
    ensures whole { length words.new.items ≡ length words.old.items }
    ensures bits { (i : ℕ) → i < len → is_set words.new.items i ≡ is_set words.old.items (start + i) }
{
    if start == 0 {
        return;
    }
    for k in 0..word_count(len) {
        let word = word_from(words.as_slice(), start + 64 * k);
        words[k] = word;
    }
}
