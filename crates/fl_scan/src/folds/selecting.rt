//! Integers whose bits are set in a word, with a stand-in for the others: no branch is asked for an item.

ghost use Rattle.std.specs.Prelude.{◌≡◌, ◌<◌, ℕ, length, map, pos, slice_index_or, if◌then◌else◌};
ghost use Rattle.fl_types.specs.Bits.{bit_of_word, bits_of_word};
ghost use Rattle.fl_scan.specs.Selected.{selected};

use fl_column::NativePType;

/// Whether a bit of a word is set.
#[tactic(auto, unfolding(fl_types::specs::Bits::bit_of_word))]
pub(crate) fn is_set(word: u64, j: usize) -> bool
    requires { j < 64 }
    ensures { result ≡ bit_of_word word j }
{
    word >> j & 1 == 1
}

/// An item if the bit is set, else the other one.
fn item_or<T: NativePType>(is_set: bool, item: T, other: T) -> T
    ensures { T.value result ≡ (if is_set then T.value item else T.value other) }
{
    if is_set { item } else { other }
}

/// Writes the integers whose bits are set in a word, and another one in the places of the others.
pub(crate) fn select<T: NativePType>(items: &[T], word: u64, other: T, chosen: &mut [T; 64])
    requires { length items.now ≡ 64 }
    ensures { map T.value chosen.new ≡ selected (bits_of_word word) (map T.value items.now) (T.value other) }
{
    for j in 0..64usize {
        let item = items[j];
        chosen[j] = item_or(is_set(word, j), item, other);
    }
}
