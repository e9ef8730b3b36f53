//! Each column is what its encoded parts decode to, and what the order of dictionaries tells.

ghost use Rattle.std.specs.Prelude.{◌≡◌, ◌*◌, ◌+◌, ◌<◌, ◌≤◌, ◌<ℤ◌, ◌≤ℤ◌, ◌↔◌, ℕ, ℤ, AllPairs, Contains, List, None, Ok, Option, length};
ghost use Rattle.fl_column.specs.Columns.{column_of_primitive};
ghost use Rattle.fl_codec.specs.Deltas.{delta_column};
ghost use Rattle.fl_codec.specs.Dictionaries.{chunk_dictionary, dictionary_index, encode_dictionaries};
ghost use Rattle.fl_codec.specs.Distinct.{distinct, rank, rank_above};
ghost use Rattle.fl_codec.specs.ForwardFill.{Reset, fill_forward};
ghost use Rattle.fl_codec.specs.FoRValues.{column_of_for, column_of_one_reference};
ghost use Rattle.fl_codec.specs.Parts.{OneReference, compress_deltas, encode_chunked, encode_chunked_by, encode_global, encode_global_by, encode_runs};
ghost use Rattle.fl_codec.specs.RunColumns.{run_column, runs_refusal};

use crate::for_::ItemOrder;
use fl_column::PrimitiveArray;
use fl_column::laws::stored_integers_are_in_range;

/// A column minus its minimum is the column again with that item added.
pub fn global_for_and_back(array: &PrimitiveArray)
    ensures { (parts : OneReference) → encode_global array.now ≡ Ok parts → column_of_one_reference parts ≡ column_of_primitive array.now }
{
    global_for_by_and_back(array, ItemOrder::Natural);
}

/// The same of the least item of an order.
#[tactic(auto, using(crate::proofs::FoRRoundTrips::global_back))]
pub fn global_for_by_and_back(array: &PrimitiveArray, order: ItemOrder)
    ensures { (parts : OneReference) → encode_global_by order array.now ≡ Ok parts → column_of_one_reference parts ≡ column_of_primitive array.now }
{
    stored_integers_are_in_range(array);
    let (_order, _validity) = (order, array.validity());
}

/// A column minus the minimum of its chunks is the column again with those items added.
pub fn chunked_for_and_back(array: &PrimitiveArray)
    ensures { column_of_for (encode_chunked array.now) ≡ column_of_primitive array.now }
{
    chunked_for_by_and_back(array, ItemOrder::Natural);
}

/// The same of the least items of an order.
pub fn chunked_for_by_and_back(array: &PrimitiveArray, order: ItemOrder)
    ensures { column_of_for (encode_chunked_by order array.now) ≡ column_of_primitive array.now }
{
    stored_integers_are_in_range(array);
    let (_order, _validity) = (order, array.validity());
}

/// The bases and the deltas of a column sum to it.
#[tactic(auto, using(crate::proofs::DeltaRoundTrips::delta_back))]
pub fn deltas_and_back(array: &PrimitiveArray)
    ensures { delta_column array.now.ptype (compress_deltas array.now).0.slots (compress_deltas array.now).1.slots array.now.validity 0 (length array.now.slots) ≡ column_of_primitive array.now }
{
    stored_integers_are_in_range(array);
    let _validity = array.validity();
}

/// The runs of a column are well-formed, and decode to it.
#[tactic(auto, using(crate::proofs::RunRoundTrips::runs_back, crate::proofs::RunRoundTrips::runs_well))]
pub fn runs_and_back(array: &PrimitiveArray)
    ensures sound { runs_refusal (encode_runs array.now) 0 (length array.now.slots) ≡ None }
    ensures column { run_column (encode_runs array.now) 0 (length array.now.slots) ≡ column_of_primitive array.now }
{
    let _validity = array.validity();
}

/// The dictionaries of a column and their indices are well-formed runs, and decode to it.
#[tactic(auto, using(crate::proofs::DictionaryLaws::dictionaries_back, crate::proofs::DictionaryLaws::dictionaries_well))]
pub fn dictionaries_and_back(array: &PrimitiveArray)
    ensures sound { runs_refusal (encode_dictionaries array.now) 0 (length array.now.slots) ≡ None }
    ensures column { run_column (encode_dictionaries array.now) 0 (length array.now.slots) ≡ column_of_primitive array.now }
{
    let _validity = array.validity();
}

/// The distinct integers of a list rise, are those of the list, and no other rising list has just these.
#[tactic(auto, using(crate::proofs::Rising::distinct_rises, crate::proofs::DictionaryLaws::distinct_contains, crate::proofs::DictionaryLaws::distinct_only))]
pub fn distinct_integers_rise()
    ensures rising { (zs : List ℤ) → AllPairs (λ x y. x <ℤ y) (distinct zs) }
    ensures same { (zs : List ℤ) (z : ℤ) → Contains (distinct zs) z ↔ Contains zs z }
    ensures only { (zs xs : List ℤ) → AllPairs (λ x y. x <ℤ y) xs → ((z : ℤ) → Contains xs z ↔ Contains zs z) → xs ≡ distinct zs }
{}

/// A filled item is in a range just where its index is in one of ranks, the same for all positions of its chunk.
#[tactic(auto, using(crate::proofs::DictionaryLaws::range_of_ranks))]
pub fn ranges_of_items_are_ranges_of_indices()
    ensures { (items : List (Option ℤ)) (k q : ℕ) (low high : ℤ) → q < 1024 → let item : ℕ → ℤ = fill_forward Reset items in ((low ≤ℤ item (1024 * k + q)) × (item (1024 * k + q) ≤ℤ high)) ↔ ((rank (chunk_dictionary item k) low ≤ dictionary_index item k q) × (dictionary_index item k q < rank_above (chunk_dictionary item k) high)) }
{}
