//! Rows of text: what every subject of rows reads and writes, and the questions of columns.
//!
//! A row is a question with its answer (`docs/TESTING.md`). This crate reads rows, columns, nodes and arrays from text, writes
//! answers, and counts the rows that hold. Its functions have no contracts of their own: each row is a run.
#![tactic(auto)]

pub mod arrays;
pub mod asked;
mod axes;
pub mod column_rows;
pub mod columns;
pub mod names;
pub mod nodes;
pub mod parts;
pub mod rows;
pub mod shown;
pub mod text;
