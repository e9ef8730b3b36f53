//! Arrays of each kind, operations and constants, from the words of rows, and the kind of an array as text.

pub mod building;
pub mod calls;
mod encoders;
pub mod kinds;
pub mod making;
pub mod nodes;
pub mod operations;
pub mod queries;

use fl_array::ArrayRef;
use fl_types::FastLanesError;

/// What makes an array.
pub type Built = Result<ArrayRef, FastLanesError>;
