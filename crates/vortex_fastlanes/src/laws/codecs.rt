//! Laws of the parts that FoR, delta and run-length encoding make of a plain array: they give its column again; and of the
//! order of dictionaries.

pub use fl_codec::laws::{
    chunked_for_and_back, chunked_for_by_and_back, deltas_and_back, dictionaries_and_back,
    distinct_integers_rise, global_for_and_back, global_for_by_and_back,
    ranges_of_items_are_ranges_of_indices, runs_and_back,
};
