//! Rows of columns and their encodings, of messages and of containers.
//!
//! Each subject has a function `ask`, which answers the questions that it knows, and says whether a row's is one.

pub mod bits;
mod blocks;
mod containers;
mod gathering;
mod messages;
pub mod patches;
pub mod plain;
pub mod types;
pub mod widths;

use crate::asked::Asked;
pub use crate::column_rows::containers::{bytes_of, frames_of};
use crate::text::Text;

/// Answers a question of columns or of their encodings, of messages or of containers, if it is one.
pub fn ask(asked: Asked, answer: &mut Text) -> bool {
    bits::ask(asked, answer)
        || types::ask(asked, answer)
        || widths::ask(asked, answer)
        || gathering::ask(asked, answer)
        || patches::ask(asked, answer)
        || blocks::ask(asked, answer)
        || plain::ask(asked, answer)
        || messages::ask(asked, answer)
        || containers::ask(asked, answer)
}
