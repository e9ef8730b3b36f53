//! The library as its users call it, by its public names alone: the README's example, what callers prove, and arrays of each plain kind.
//! What each call makes of them, and packing, row by row, is asked by `worked_rows`.
#![tactic(auto)]

#[cfg(test)]
mod arrays;
#[cfg(test)]
mod encoded;
pub mod hashes;
#[cfg(test)]
mod packing;
pub mod proved;
pub mod readme;
pub mod sizes;
pub mod tutorial;
