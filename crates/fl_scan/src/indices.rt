//! The positions of the booleans of a list that are true.

ghost use Rattle.std.specs.Prelude.{◌≡◌, ◌+◌, ◌++◌, ◌^◌, ◌<◌, ℕ, Ok, OnOk, map, pos, true};
ghost use Rattle.std.specs.List.{range_with_len};
ghost use Rattle.fl_types.specs.declared.dtype.PType.TheVariants.{U64};
ghost use Rattle.fl_types.specs.Bits.{bit_of_word, kept, tabulate};
ghost use Rattle.fl_types.specs.Refusals.{Answers};
ghost use Rattle.fl_column.specs.Columns.{non_nullable};
ghost use Rattle.fl_scan.specs.Indices.{positions_of};

use fl_column::{BitList, FastLanesError, PrimitiveArray};
use std::alloc::{AllocError, Global};

/// Appends the positions of the set bits of a word, of which the lowest is at `start`.
fn push_set(positions: &mut Vec<u64>, word: u64, start: usize) -> Result<(), AllocError>
    requires { (j : ℕ) → bit_of_word word j ≡ true → start + j < 2 ^ 64 }
    ensures { OnOk result (positions.new.items ≡ positions.old.items ++ kept (tabulate (bit_of_word word) 64) (range_with_len start 64)) }
{
    let mut rest = word;
    while rest != 0 {
        let position = start + rest.trailing_zeros() as usize;
        positions.push(position as u64)?;
        rest &= rest - 1;
    }
    Ok(())
}

/// The positions of the booleans that are true, in order, as indices for a take.
///
/// # Errors
/// Only `OutOfMemory`.
pub fn indices_of(alloc: Global, bits: &BitList) -> Result<PrimitiveArray, FastLanesError>
    ensures { Answers (λ a. a) result (Ok (non_nullable U64 (map pos (positions_of bits.now)))) }
{
    let mut positions = Vec::with_capacity(alloc, bits.count_true())?;
    for k in 0..bits.len().div_ceil(64) {
        push_set(&mut positions, bits.word(k), 64 * k)?;
    }
    Ok(PrimitiveArray::non_nullable(positions))
}
