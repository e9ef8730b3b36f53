//! Filters by the words of a mask: a run of words whose bits all are set is one copy, a word without a set bit is skipped, and
//! the others are stepped through by their lowest set bits.

ghost use Rattle.std.specs.Prelude.{◌≡◌, ◌<◌, ◌≤◌, ◌+◌, ◌++◌, ℕ, IfOk, IsTrue, Ok, length, true, vec_capacity, vec_len};
ghost use Rattle.fl_types.specs.Bits.{bit_of_word, tabulate};
ghost use Rattle.fl_types.specs.Buffers.{integers_of, ptype_of};
ghost use Rattle.fl_types.specs.Refusals.{Answers};
ghost use Rattle.fl_types.specs.Validities.{covers};
ghost use Rattle.fl_column.specs.Operations.{kept};
ghost use Rattle.fl_column.specs.Selections.{kept_validity};

use crate::selection::with_bits::validity_of;
use fl_types::{
    BitList, FastLanesError, NativePType, PrimitiveBuffer, Validity, match_each_integer_ptype,
};
use std::alloc::Global;

/// Adds the items at the set bits of a word, for which there is room.
fn push_set<T: NativePType>(taken: &mut Vec<T>, items: &[T], word: u64)
    requires items { (j : ℕ) → bit_of_word word j ≡ true → j < length items.now }
    requires room { vec_len taken.old + length (kept (tabulate (bit_of_word word) 64) items.now) ≤ vec_capacity taken.old }
    ensures items { taken.new.items ≡ taken.old.items ++ kept (tabulate (bit_of_word word) 64) items.now }
    ensures capacity { vec_capacity taken.new ≡ vec_capacity taken.old }
{
    let mut rest = word;
    while rest != 0 {
        taken.push_reserved(items[rest.trailing_zeros() as usize]);
        rest &= rest - 1;
    }
}

/// The items at the set bits, in order.
fn items_set<T: NativePType>(
    alloc: Global,
    items: &[T],
    bits: &BitList,
) -> Result<Vec<T>, FastLanesError>
    requires { length bits.now ≡ length items.now }
    ensures { Answers (λ v. v.items) result (Ok (kept bits.now items.now)) }
{
    let len = items.len();
    let mut taken = Vec::with_capacity(alloc, bits.count_true())?;
    // From `run` on, all bits up to the word are set.
    let mut run = 0;
    for k in 0..len.div_ceil(64) {
        let word = bits.word(k);
        if word == u64::MAX {
            continue;
        }
        let end = 64 * k + (len - 64 * k).min(64);
        taken.extend_from_slice(&items[run..64 * k])?;
        push_set(&mut taken, &items[64 * k..end], word);
        run = end;
    }
    taken.extend_from_slice(&items[run..])?;
    Ok(taken)
}

fn filter_typed<T: NativePType>(
    slots: &PrimitiveBuffer,
    alloc: Global,
    bits: &BitList,
) -> Result<PrimitiveBuffer, FastLanesError>
    requires same { ptype_of slots.now ≡ T.PTYPE }
    requires each { length bits.now ≡ length (integers_of slots.now) }
    ensures typed { IfOk result (λ s. ptype_of s ≡ ptype_of slots.now) }
    ensures slots { Answers integers_of result (Ok (kept bits.now (integers_of slots.now))) }
{
    let taken = items_set(alloc, T::as_slice(slots), bits)?;
    Ok(T::into_buffer(taken))
}

/// The slots at the set bits, in order.
pub(crate) fn filter_slots(
    slots: &PrimitiveBuffer,
    alloc: Global,
    bits: &BitList,
) -> Result<PrimitiveBuffer, FastLanesError>
    requires { length bits.now ≡ length (integers_of slots.now) }
    ensures typed { IfOk result (λ s. ptype_of s ≡ ptype_of slots.now) }
    ensures slots { Answers integers_of result (Ok (kept bits.now (integers_of slots.now))) }
{
    match_each_integer_ptype!(slots.ptype(), filter_typed(slots, alloc, bits))
}

/// The validity of the items at the set bits.
pub fn filter_validity(
    validity: &Validity,
    alloc: Global,
    bits: &BitList,
) -> Result<Validity, FastLanesError>
    requires { IsTrue (covers validity.now (length bits.now)) }
    ensures { Answers (λ v. v) result (Ok (kept_validity bits.now validity.now)) }
{
    match validity {
        Validity::NonNullable => Ok(Validity::NonNullable),
        Validity::AllValid => Ok(Validity::AllValid),
        Validity::AllInvalid => Ok(Validity::AllInvalid),
        Validity::Array(valid) => Ok(validity_of(valid.filter(alloc, bits)?)),
    }
}
