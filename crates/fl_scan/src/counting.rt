//! How many of integers side by side pass a test and are marked, a word of 64 marks at a time.

ghost use Rattle.std.specs.Prelude.{◌≡◌, ◌+◌, ◌<◌, ◌≤◌, ◌^◌, ℕ, false, length, map};
ghost use Rattle.fastlanes.specs.Compared.{has_bit};
ghost use Rattle.fl_types.specs.Bits.{bit_of_word};
ghost use Rattle.fl_types.specs.Validities.{is_valid_at};
ghost use Rattle.fl_scan.specs.Counts.{Reaches, answered_from, both, count_below, marked_from, passed_in};

use crate::folds::selecting::is_set;
use crate::folds::tests::ItemTest;
use fl_column::{NativePType, Validity};

/// Marks of consecutive items as a word, the first one's in the lowest bit. No other bit is set.
pub(crate) fn marks_from(marks: &Validity, start: usize, count: usize) -> u64
    requires some { 0 < count }
    requires few { count ≤ 64 }
    requires within { Reaches marks.now (start + count) }
    ensures bits { (j : ℕ) → j < count → bit_of_word result j ≡ is_valid_at marks.now (start + j) }
    ensures clear { (j : ℕ) → count ≤ j → bit_of_word result j ≡ false }
{
    match marks {
        Validity::NonNullable | Validity::AllValid => u64::MAX >> (64 - count),
        Validity::AllInvalid => 0,
        Validity::Array(bits) => bits.word_from(start, count),
    }
}

/// Answers of a block as a word, that at `at` in the lowest bit.
pub(crate) fn answers_from(answers: &[u64; 16], at: usize) -> u64
    requires { at < 1024 }
    ensures { (j : ℕ) → j < 64 → at + j < 1024 → bit_of_word result j ≡ has_bit answers.now (at + j) }
{
    let (k, shift) = (at / 64, at % 64);
    if shift == 0 {
        return answers[k];
    }
    if k == 15 {
        return answers[k] >> shift;
    }
    answers[k] >> shift | answers[k + 1] << (64 - shift)
}

/// How many of these answers of a block, from `at` on, are true and of marked items, the first of which is at `start`.
pub(crate) fn count_answers(
    answers: &[u64; 16],
    at: usize,
    count: usize,
    marks: &Validity,
    start: usize,
) -> usize
    requires within { Reaches marks.now (start + count) }
    requires few { start + count < 2 ^ 64 }
    requires inside { at + count ≤ 1024 }
    ensures { result ≡ count_below (both (marked_from marks.now start) (answered_from answers.now at)) count }
{
    let mut total = 0;
    for k in 0..count.div_ceil(64) {
        let from = 64 * k;
        let part = (count - from).min(64);
        let word = marks_from(marks, start + from, part);
        total += (word & answers_from(answers, at + from)).count_ones() as usize;
    }
    total
}

/// How many of these integers pass a test.
fn count_each<T: NativePType, P: ItemTest<T>>(items: &[T], test: P) -> usize
    ensures { result ≡ count_below (passed_in (P.passing test) (map T.value items.now)) (length items.now) }
{
    let mut count = 0;
    for item in items {
        count += test.passes(*item) as usize;
    }
    count
}

/// How many of up to 64 integers pass a test and have their bits set in a word.
fn count_word<T: NativePType, P: ItemTest<T>>(items: &[T], word: u64, test: P) -> usize
    requires { length items.now ≤ 64 }
    ensures { result ≡ count_below (both (bit_of_word word) (passed_in (P.passing test) (map T.value items.now))) (length items.now) }
{
    if word == u64::MAX {
        return count_each(items, test);
    }
    let mut count = 0;
    for j in 0..items.len() {
        count += (is_set(word, j) & test.passes(items[j])) as usize;
    }
    count
}

/// How many of these integers pass a test and are marked, the first of them at `start`.
pub(crate) fn count_items<T: NativePType, P: ItemTest<T>>(
    items: &[T],
    test: P,
    marks: &Validity,
    start: usize,
) -> usize
    requires within { Reaches marks.now (start + length items.now) }
    requires few { start + length items.now < 2 ^ 64 }
    ensures { result ≡ count_below (both (marked_from marks.now start) (passed_in (P.passing test) (map T.value items.now))) (length items.now) }
{
    let mut total = 0;
    for k in 0..items.len().div_ceil(64) {
        let from = 64 * k;
        let part = (items.len() - from).min(64);
        let word = marks_from(marks, start + from, part);
        total += count_word(&items[from..from + part], word, test);
    }
    total
}
