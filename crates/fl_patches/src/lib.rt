//! Patches: a finite map from positions of an array to values, which replace the packed ones; the
//! widths of least cost for a column's items, and the patches of the exceptions at a width.
#![tactic(auto)]

pub mod best_width;
pub mod block_widths;
mod builder;
mod checks;
mod comparing;
mod counting;
pub mod gathering;
pub mod histogram;
pub mod indices;
pub mod laws;
mod masking;
pub mod patches;
mod patterns;
mod selection;
pub mod widths;

pub use crate::best_width::{best_of, count_exceptions, find_best_bit_width};
pub use crate::block_widths::{find_best_bit_widths, has_negative};
pub use crate::gathering::{BlockExceptions, Exceptions, gather_blocked_patches, gather_patches};
pub use crate::histogram::{bit_width_histogram, count_words, counts_negative, counts_signs};
pub use crate::patches::Patches;
pub use crate::patterns::type_bits;
pub use crate::widths::Widths;
