//! Arrays of every kind, with their operations and queries.

pub use fl_array::{ArrayRef, IntoArray, Node};
pub use fl_ops::{Answer, ArrayOps, Op, Query, apply_all, ask};
