//! Definitions held against worked examples, by computation. All of it stands in `proofs/`: there is no code.
#![tactic(auto)]
