//! Columns for C: arrays that C holds by a word, and what can be asked of them. `include/flcol.h` declares the calls.
#![tactic(auto)]

mod aggregates;
mod answering;
mod bitmaps;
mod blocks;
mod booleans;
pub mod calls;
mod compressing;
mod containers;
mod encoding;
mod fault;
mod feet;
mod files;
mod finishing;
pub mod handle;
mod kept;
mod logic;
mod looks;
mod making;
mod operations;
mod passing;
mod plain;
pub mod ranges;
mod reading;
pub mod records;
mod schemes;
mod selections;
mod typed;
pub mod unboxed;
mod validities;
mod values;
