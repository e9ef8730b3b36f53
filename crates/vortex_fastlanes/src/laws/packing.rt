//! Laws of packed columns, of the chunks that their readers lend, and of histograms and patches.

pub use fl_bitpacking::laws::{
    blocks_in_order, gathered_blocked_patches_are_kept, gathered_patches_are_kept, packed_and_back,
    packed_with_patches_and_back, parts_are_consistent, parts_in_order, words_as_in_bytes,
};
pub use fl_patches::laws::{
    blocked_patches_are_counted, histogram_counts_each, patches_are_counted,
};
