//! The vocabulary of columns: errors, types, values, bits, validities, masks, and the options of
//! queries.
#![tactic(auto)]

pub mod bits;
pub mod buffer;
pub mod dtype;
pub mod error;
pub mod laws;
pub mod macros;
pub mod mask;
pub mod native;
pub mod query;
pub mod scalar;
pub mod validity;

pub use crate::bits::BitList;
pub use crate::buffer::PrimitiveBuffer;
pub use crate::dtype::{DType, Nullability, PType};
pub use crate::error::FastLanesError;
pub use crate::mask::Mask;
pub use crate::native::{NativePType, is_equal, is_less};
pub use crate::query::{BetweenOptions, CompareOperator, StrictComparison};
pub use crate::scalar::{PValue, Scalar};
pub use crate::validity::Validity;
