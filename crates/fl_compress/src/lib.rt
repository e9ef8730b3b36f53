//! The smallest of all nestings of encodings: a scheme is chosen by how many bytes the array takes by it, and
//! then run.
//!
//! The bytes of children add up, so the best scheme has the best child in each slot: it is sought slot by slot,
//! in arrays of the parts that an encoding makes, and no array is encoded but by the scheme that is chosen.
#![tactic(auto)]

mod choice;
pub mod compression;
pub mod laws;
pub mod limits;
mod orders;
mod packing;
mod parts;
mod search;
mod single_runs;
pub mod sizes;
mod sorted;
pub mod statistics;

pub use crate::compression::{compress, compress_within};
pub use crate::limits::Limits;
pub use crate::sizes::size_of;
pub use crate::statistics::{Statistics, statistics_of};
