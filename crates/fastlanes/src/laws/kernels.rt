//! Laws of delta blocks and of runs: each is the contract of a small function.
#![tactic(auto)]

ghost use Rattle.std.specs.Prelude.{◌≡◌, ℕ, ◌+◌, ◌^◌, ◌<◌, ◌≤◌};
ghost use Rattle.fastlanes.specs.Layout.{place};
ghost use Rattle.fastlanes.specs.Delta.{Transposed, delta_item, item_delta, summed_item};
ghost use Rattle.fastlanes.specs.Runs.{changes};

use crate::words::FastLanes;

/// The stored words of a delta block determine its items, and the items determine the stored words.
pub fn one_transposition<W: FastLanes>()
    ensures items { (item other stored : ℕ → ℕ) → Transposed W.T W.LANES item stored → Transposed W.T W.LANES other stored → (i : ℕ) → i < 1024 → item i ≡ other i }
    ensures stored { (item stored other : ℕ → ℕ) → Transposed W.T W.LANES item stored → Transposed W.T W.LANES item other → (i : ℕ) → i < 1024 → stored i ≡ other i }
{}

/// The deltas of items add up to the items, and the sums of deltas have these deltas, for any bases.
pub fn sums_and_differences<W: FastLanes>()
    ensures sums { (base item delta : ℕ → ℕ) → ((m : ℕ) → m < W.LANES → base m < 2 ^ W.T)
        → ((s m : ℕ) → s < W.T → m < W.LANES → item (place s m) < 2 ^ W.T)
        → ((s m : ℕ) → s < W.T → m < W.LANES → delta (place s m) ≡ item_delta W.T base item s m)
        → (r l : ℕ) → r < W.T → l < W.LANES → summed_item W.T base delta r l ≡ item (place r l) }
    ensures differences { (base item delta : ℕ → ℕ) → ((m : ℕ) → m < W.LANES → base m < 2 ^ W.T)
        → ((s m : ℕ) → s < W.T → m < W.LANES → delta (place s m) < 2 ^ W.T)
        → ((s m : ℕ) → s < W.T → m < W.LANES → item (place s m) ≡ summed_item W.T base delta s m)
        → (r l : ℕ) → r < W.T → l < W.LANES → item_delta W.T base item r l ≡ delta (place r l) }
{}

/// The items of a delta block are the sums of its deltas, put back into their order.
pub fn delta_items_are_sums<W: FastLanes>()
    ensures { (base item stored delta : ℕ → ℕ) → ((r l : ℕ) → r < W.T → l < W.LANES → stored (place r l) ≡ summed_item W.T base delta r l)
        → Transposed W.T W.LANES item stored → (i : ℕ) → i < 1024 → item i ≡ delta_item W.T base delta i }
{}

/// All positions of a run hold one item. The first run is run 0, and a position's run is that of the position before it or the next one.
pub fn runs_hold_one_item()
    ensures same { (item : ℕ → ℕ) (q p : ℕ) → q ≤ p → changes item q ≡ changes item p → item q ≡ item p }
    ensures first { (item : ℕ → ℕ) → changes item 0 ≡ 0 }
    ensures steps { (item : ℕ → ℕ) (q : ℕ) → changes item (q + 1) ≤ changes item q + 1 }
    ensures grows { (item : ℕ → ℕ) (q p : ℕ) → q ≤ p → changes item q ≤ changes item p }
{}

/// If each value is the item of its run and each index names its position's run, the values that
/// the indices name are the items.
pub fn runs_give_items()
    ensures { (item value index decoded : ℕ → ℕ) → ((q : ℕ) → q < 1024 → value (changes item q) ≡ item q)
        → ((q : ℕ) → q < 1024 → index q ≡ changes item q)
        → ((q : ℕ) → q < 1024 → decoded q ≡ value (index q))
        → (q : ℕ) → q < 1024 → decoded q ≡ item q }
{}
