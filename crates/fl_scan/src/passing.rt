//! The marked items that pass a test, a word of answers at a time. A block without a marked item is not read.

ghost use Rattle.std.specs.Prelude.{◌≡◌, ◌+◌, ◌-◌, ◌*◌, ◌++◌, ◌<◌, ◌≤◌, ◌^◌, ℕ, IfErr, IfOk, IsTrue, OnOk, length, map};
ghost use Rattle.fl_types.specs.declared.error.FastLanesError.TheVariants.{OutOfMemory};
ghost use Rattle.fl_types.specs.Bits.{tabulate};
ghost use Rattle.fl_types.specs.Types.{has_ptype};
ghost use Rattle.fl_column.specs.Chunks.{chunk_count};
ghost use Rattle.fl_column.specs.Columns.{integers_in};
ghost use Rattle.fl_scan.specs.Blocks.{Marks, items_before, of_block};
ghost use Rattle.fl_scan.specs.Counts.{Reaches, answered_from, both, marked_from, passed_in};
ghost use Rattle.fl_scan.specs.Selections.{passing_marks};

use crate::block_tests::BlockTest;
use crate::counting::{answers_from, marks_from};
use crate::counts::has_marks;
use fastlanes::FL_CHUNK_SIZE;
use fl_array::Reader;
use fl_bitpacking::unpack_iter::BitPacked;
use fl_column::{BitList, FastLanesError, PhysicalPType, Validity};
use num_traits::WrappingAdd;
use std::alloc::Global;

/// Items of one block.
#[derive(Clone, Copy)]
struct BlockPart {
    /// The index of the first one.
    start: usize,
    /// The position of the first one in the block.
    at: usize,
    /// How many there are.
    count: usize,
}

/// The items of block `j`.
fn items_of_block(reader: &Reader, j: usize) -> BlockPart
    requires { j < chunk_count (reader.now.offset + length reader.now.column.items) }
    ensures start { result.start ≡ items_before reader.now j }
    ensures at { result.at ≡ reader.now.offset - 1024 * j }
    ensures end { result.start + result.count ≡ items_before reader.now (j + 1) }
    ensures few { result.start + result.count < 2 ^ 64 }
    ensures inside { result.at + result.count ≤ 1024 }
{
    // For the proof: a `usize` holds the number of items.
    let _len = reader.len();
    let (from, to) = reader.places(j);
    BlockPart {
        start: from,
        at: reader.offset().saturating_sub(FL_CHUNK_SIZE * j),
        count: to - from,
    }
}

/// The answers of a test for the items of block `j`. Where none of them is marked it is not tested, and no bit is set.
fn marked_answers<T: BitPacked + PhysicalPType + WrappingAdd, P: BlockTest<T>>(
    reader: &Reader,
    marks: &Validity,
    test: P,
    j: usize,
    scratch: &mut [T; FL_CHUNK_SIZE],
) -> [u64; 16]
    requires typed { IsTrue (has_ptype T.PTYPE reader.now.column.dtype) }
    requires sound { P.IsSound test }
    requires marks { Marks marks.now reader.now.column }
    requires block { j < chunk_count (reader.now.offset + length reader.now.column.items) }
    ensures whole { length result ≡ 16 }
    ensures answers { (i : ℕ) → items_before reader.now j + i < items_before reader.now (j + 1) → both (marked_from marks.now (items_before reader.now j)) (answered_from result (reader.now.offset - 1024 * j)) i ≡ both (marked_from marks.now (items_before reader.now j)) (passed_in (P.passing test) (of_block reader.now j (integers_in reader.now.column))) i }
{
    let mut answers = [0u64; 16];
    let part = items_of_block(reader, j);
    if !has_marks(marks, part.start, part.count) {
        return answers;
    }
    test.test_block(reader, j, scratch, &mut answers);
    answers
}

/// Appends whether each of these items is marked and the answer for it is true.
fn push_answers(
    bits: &mut BitList,
    answers: &[u64; 16],
    part: BlockPart,
    marks: &Validity,
) -> Result<(), FastLanesError>
    requires within { Reaches marks.now (part.start + part.count) }
    requires few { part.start + part.count < 2 ^ 64 }
    requires inside { part.at + part.count ≤ 1024 }
    ensures pushed { OnOk result (bits.new ≡ bits.old ++ tabulate (both (marked_from marks.now part.start) (answered_from answers.now part.at)) part.count) }
    ensures memory { IfErr result (λ e. e ≡ OutOfMemory) }
{
    for k in 0..part.count.div_ceil(64) {
        let from = 64 * k;
        let count = (part.count - from).min(64);
        let word = marks_from(marks, part.start + from, count);
        bits.push_word(word & answers_from(answers, part.at + from), count)?;
    }
    Ok(())
}

/// The marks of the items that pass a test.
pub(crate) fn keep_passing<T: BitPacked + PhysicalPType + WrappingAdd, P: BlockTest<T>>(
    alloc: Global,
    reader: &Reader,
    marks: &Validity,
    test: P,
) -> Result<BitList, FastLanesError>
    requires typed { IsTrue (has_ptype T.PTYPE reader.now.column.dtype) }
    requires sound { P.IsSound test }
    requires marks { Marks marks.now reader.now.column }
    ensures marks { IfOk result (λ bits. bits ≡ passing_marks (P.passing test) marks.now reader.now.column) }
    ensures memory { IfErr result (λ e. e ≡ OutOfMemory) }
{
    let mut bits = BitList::with_capacity(alloc, reader.len())?;
    let mut scratch = [T::zero(); FL_CHUNK_SIZE];
    for j in 0..reader.blocks() {
        let answers = marked_answers(reader, marks, test, j, &mut scratch);
        push_answers(&mut bits, &answers, items_of_block(reader, j), marks)?;
    }
    Ok(bits)
}
