//! Answers in bitmaps as Arrow has them: joined, turned and counted by SQL's logic, in place. Nothing is allocated.
#![tactic(auto)]

pub mod counting;
pub mod error;
mod joining;
pub mod logic;
mod operators;
pub mod turning;

pub use crate::counting::count;
pub use crate::error::BitmapError;
pub use crate::logic::{and, or, xor};
pub use crate::turning::not;
