//! What is gathered of integers that come one after another.

pub(crate) mod extremes;
pub(crate) mod selecting;
pub(crate) mod tests;
pub(crate) mod total;

ghost use Rattle.std.specs.Prelude.{◌≡◌, ◌∷◌, ◌++◌, [], ℤ, List, IfErr, IfSome, OnOk, length, map, replicate};
ghost use Rattle.fl_types.specs.Bits.{bits_of_word, kept};
ghost use Rattle.fl_scan.specs.Selected.{selected};
ghost use Rattle.fl_types.specs.declared.error.FastLanesError.TheVariants.{OutOfMemory};

use fl_column::{FastLanesError, NativePType};

/// What is gathered of integers that come one after another. Only a need for memory is an error.
pub(crate) trait Fold<T: NativePType> {
    /// The integers, in this order, lead from the first state to the second one.
    ghost Leads: { Self → List ℤ → Self → Type 0 };

    /// Gathers one integer.
    fn add(&mut self, item: T) -> Result<(), FastLanesError>
        ensures gathered { OnOk result (Leads self.old (T.value item ∷ []) self.new) }
        ensures memory { IfErr result (λ e. e ≡ OutOfMemory) };

    /// Gathers integers.
    fn add_all(&mut self, items: &[T]) -> Result<(), FastLanesError>
        ensures gathered { OnOk result (Leads self.old (map T.value items.now) self.new) }
        ensures memory { IfErr result (λ e. e ≡ OutOfMemory) };

    /// Gathers an integer this many times.
    fn add_repeated(&mut self, item: T, times: usize) -> Result<(), FastLanesError>
        ensures gathered { OnOk result (Leads self.old (replicate times (T.value item)) self.new) }
        ensures memory { IfErr result (λ e. e ≡ OutOfMemory) };

    /// An integer that can be gathered in the place of each of 64 integers whose bit in a word is not set, if there is one.
    fn stand_in(items: &[T], word: u64) -> Option<T>
        requires { length items.now ≡ 64 }
        ensures { IfSome result (λ other. (a b : Self) → Leads a (selected (bits_of_word word) (map T.value items.now) (T.value other)) b → Leads a (kept (bits_of_word word) (map T.value items.now)) b) };

    // No integer changes nothing.
    ghost stays: { (s : Self) → Leads s [] s };

    // What is gathered of two lists one after another is gathered of both as one.
    ghost joined: { (a b c : Self) (xs ys : List ℤ) → Leads a xs b → Leads b ys c → Leads a (xs ++ ys) c };
}
