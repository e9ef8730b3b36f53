//! Laws of what is asked of a column.

ghost use Rattle.std.specs.Prelude.{◌≡◌, ◌+◌, ◌+ℤ◌, ◌≤◌, ◌≤ℤ◌, ℤ, Bool, All, Contains, Some, count_by, length, map};
ghost use Rattle.fl_types.specs.declared.mask.Mask.{Mask};
ghost use Rattle.fl_types.specs.declared.mask.Mask.TheVariants.{Values};
ghost use Rattle.fl_types.specs.Bits.{true_count};
ghost use Rattle.fl_types.specs.Masks.{mask_len};
ghost use Rattle.fl_column.specs.Columns.{Column};
ghost use Rattle.fl_column.specs.Operations.{filter_of, slice_of};
ghost use Rattle.fl_column.specs.Queries.{tested};
ghost use Rattle.fl_scan.specs.Selections.{passed_under};
ghost use Rattle.fl_scan.specs.Totals.{count_of, filtered_by, greatest_item, is_true, least_item, sum_of, valid_items};

/// The count of a test is the number of its answers that are true.
#[tactic(auto, using(crate::proofs::LawProofs::counted_answers))]
pub fn count_is_of_true_answers()
    ensures { (test : ℤ → Bool) (c : Column) → count_of test c ≡ count_by is_true (tested test c).items }
{}

/// The items that pass a test are those that a filter keeps by the answers that are true.
#[tactic(auto, using(crate::proofs::LawProofs::filtered_answers))]
pub fn filter_is_by_true_answers()
    ensures { (test : ℤ → Bool) (c : Column) → filtered_by test c ≡ filter_of (Values (map is_true (tested test c).items)) c }
{}

/// The counts of two slices side by side are that of the whole, and so are the sums.
#[tactic(auto, using(crate::proofs::LawProofs::counts_of_slices, crate::proofs::LawProofs::sums_of_slices))]
pub fn slices_add_up(middle: usize)
    ensures count { (test : ℤ → Bool) (c : Column) → middle ≤ length c.items → count_of test (slice_of 0 middle c) + count_of test (slice_of middle (length c.items) c) ≡ count_of test c }
    ensures sum { (c : Column) → middle ≤ length c.items → sum_of (slice_of 0 middle c) +ℤ sum_of (slice_of middle (length c.items) c) ≡ sum_of c }
{}

/// The least item is a valid item, and no valid item is below it; the greatest one is a valid item, and none is above it.
#[tactic(auto, using(crate::proofs::LawProofs::least_bounds, crate::proofs::LawProofs::greatest_bounds))]
pub fn extremes_bound_each_item()
    ensures least { (c : Column) (z : ℤ) → least_item c ≡ Some z → Contains (valid_items c) z × All (λ x. z ≤ℤ x) (valid_items c) }
    ensures greatest { (c : Column) (z : ℤ) → greatest_item c ≡ Some z → Contains (valid_items c) z × All (λ x. x ≤ℤ z) (valid_items c) }
{}

/// The number of marks that a test makes under a mask is the count of the items that the mask keeps and that pass.
#[tactic(auto, using(crate::proofs::LawProofs::counted_under))]
pub fn marks_count_what_is_kept()
    ensures { (mask : Mask) (test : ℤ → Bool) (c : Column) → mask_len mask ≡ length c.items → true_count (passed_under mask test c) ≡ count_of test (filter_of mask c) }
{}
