//! Encoding of primitive arrays by a scheme, which names an encoding and the schemes of its children.
#![tactic(auto)]

mod array_schemes;
pub mod encoding;
pub mod laws;
mod parts;
pub mod scheme;
pub mod text;

pub use crate::array_schemes::scheme_of;
pub use crate::encoding::encode;
pub use crate::scheme::{Child, Packing, Scheme};
