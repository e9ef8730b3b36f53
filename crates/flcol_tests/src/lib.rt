//! Runs of the whole program over ends that fail, and over std's.
#![tactic(auto)]

#[cfg(test)]
mod faults;
#[cfg(test)]
mod long;
#[cfg(test)]
mod memory;
#[cfg(test)]
mod orders;
#[cfg(test)]
mod runs;
