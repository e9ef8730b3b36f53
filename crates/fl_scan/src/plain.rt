//! Gathering the valid ones of integers that lie side by side.

ghost use Rattle.std.specs.Prelude.{◌≡◌, ◌+◌, ◌≤◌, IfErr, IsTrue, OnOk, length, map};
ghost use Rattle.fl_types.specs.declared.error.FastLanesError.TheVariants.{OutOfMemory};
ghost use Rattle.fl_types.specs.Bits.{between, bits_of_word, kept};
ghost use Rattle.fl_types.specs.Types.{has_ptype};
ghost use Rattle.fl_column.specs.Columns.{column_of_constant, column_of_primitive};
ghost use Rattle.fl_scan.specs.Selected.{selected};
ghost use Rattle.fl_scan.specs.Totals.{valid_items};

use crate::folds::Fold;
use crate::folds::selecting::{is_set, select};
use fl_column::{BitList, ConstantArray, FastLanesError, NativePType, PrimitiveArray, Validity};

/// Gathers the integers whose bits are set in a word.
fn add_word<T: NativePType, F: Fold<T>>(
    fold: &mut F,
    items: &[T],
    word: u64,
) -> Result<(), FastLanesError>
    requires { length items.now ≤ 64 }
    ensures gathered { OnOk result (F.Leads fold.old (kept (bits_of_word word) (map T.value items.now)) fold.new) }
    ensures memory { IfErr result (λ e. e ≡ OutOfMemory) }
{
    for j in 0..items.len() {
        if is_set(word, j) {
            fold.add(items[j])?;
        }
    }
    Ok(())
}

/// Gathers the integers whose bits are set in a word, all of them at once, with a stand-in for the others.
fn add_selected<T: NativePType, F: Fold<T>>(
    fold: &mut F,
    items: &[T],
    word: u64,
    other: T,
) -> Result<(), FastLanesError>
    requires { length items.now ≡ 64 }
    ensures gathered { OnOk result (F.Leads fold.old (selected (bits_of_word word) (map T.value items.now) (T.value other)) fold.new) }
    ensures memory { IfErr result (λ e. e ≡ OutOfMemory) }
{
    let mut chosen = [other; 64];
    select(items, word, other, &mut chosen);
    fold.add_all(&chosen)
}

/// Gathers up to 64 integers whose bits are set in a word: all of them at once where each bit is, or where there is a
/// stand-in for the others.
fn add_valid_word<T: NativePType, F: Fold<T>>(
    fold: &mut F,
    items: &[T],
    word: u64,
) -> Result<(), FastLanesError>
    requires { length items.now ≤ 64 }
    ensures gathered { OnOk result (F.Leads fold.old (kept (bits_of_word word) (map T.value items.now)) fold.new) }
    ensures memory { IfErr result (λ e. e ≡ OutOfMemory) }
{
    if word == u64::MAX {
        return fold.add_all(items);
    }
    if items.len() == 64
        && let Some(other) = F::stand_in(items, word)
    {
        return add_selected(fold, items, word, other);
    }
    add_word(fold, items, word)
}

/// Gathers the integers whose bits are set in a list, that of the first one at an index.
pub(crate) fn add_valid<T: NativePType, F: Fold<T>>(
    fold: &mut F,
    items: &[T],
    bits: &BitList,
    start: usize,
) -> Result<(), FastLanesError>
    requires { start + length items.now ≤ length bits.now }
    ensures gathered { OnOk result (F.Leads fold.old (kept (between start (start + length items.now) bits.now) (map T.value items.now)) fold.new) }
    ensures memory { IfErr result (λ e. e ≡ OutOfMemory) }
{
    // For the proof: an index of a bit is a `usize`.
    let _len = bits.len();
    for k in 0..items.len().div_ceil(64) {
        let from = 64 * k;
        let count = (items.len() - from).min(64);
        let word = bits.word_from(start + from, count);
        add_valid_word(fold, &items[from..from + count], word)?;
    }
    Ok(())
}

/// Gathers the valid items of a plain array.
pub(crate) fn add_plain<T: NativePType, F: Fold<T>>(
    fold: &mut F,
    plain: &PrimitiveArray,
) -> Result<(), FastLanesError>
    requires { IsTrue (has_ptype T.PTYPE (column_of_primitive plain.now).dtype) }
    ensures gathered { OnOk result (F.Leads fold.old (valid_items (column_of_primitive plain.now)) fold.new) }
    ensures memory { IfErr result (λ e. e ≡ OutOfMemory) }
{
    match plain.validity() {
        Validity::NonNullable | Validity::AllValid => fold.add_all(plain.as_slice::<T>()),
        Validity::AllInvalid => Ok(()),
        Validity::Array(bits) => add_valid(fold, plain.as_slice::<T>(), bits, 0),
    }
}

/// Gathers the items of a constant array, unless they are null.
pub(crate) fn add_constant<T: NativePType, F: Fold<T>>(
    fold: &mut F,
    constant: &ConstantArray,
) -> Result<(), FastLanesError>
    requires { IsTrue (has_ptype T.PTYPE (column_of_constant constant.now).dtype) }
    ensures gathered { OnOk result (F.Leads fold.old (valid_items (column_of_constant constant.now)) fold.new) }
    ensures memory { IfErr result (λ e. e ≡ OutOfMemory) }
{
    match constant.value() {
        Some(value) => fold.add_repeated(T::from_pvalue(value).unwrap(), constant.len()),
        None => Ok(()),
    }
}
