//! Tests of the kernels, and of columns packed into words, by their public calls.
#![tactic(auto)]

#[cfg(test)]
mod columns;
#[cfg(test)]
mod kernels;
#[cfg(test)]
mod rows;
