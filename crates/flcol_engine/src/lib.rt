//! The program `flcol` over any ends: from the words and the bytes read to the bytes written and the status.
#![tactic(auto)]

mod arg_parts;
pub mod args;
pub mod commands;
mod digits;
pub mod encodes;
pub mod encoding;
pub mod engine;
pub mod fault;
pub mod io;
pub mod laws;
mod operations;
pub mod printing;
pub mod queries;
pub mod query;
pub mod start;
pub mod text;
mod transfer;
