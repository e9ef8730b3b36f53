//! Statistics of arrays: what the bits of their items say of packing them, without packing anything.
#![tactic(auto)]

pub mod constants;
pub mod deltas;
mod items;
mod sources;
pub mod widths;

pub use crate::constants::is_constant_less;
pub use crate::deltas::{
    delta_count, delta_statistics, delta_statistics_less, is_delta_constant, is_delta_constant_less,
};
pub use crate::widths::{BitStatistics, bit_statistics, bit_statistics_less};
