//! Columns of nullable integers, and the plain arrays that store them as they are. Types, values,
//! validities and errors are re-exported, so that users of columns list this crate alone.
#![tactic(auto)]

pub mod bitmaps;
pub mod bools;
pub mod builder;
mod casting;
pub mod chunks;
mod compute;
pub mod constant;
pub mod laws;
pub mod numbers;
pub mod patterns;
pub mod physical;
pub mod primitive;
mod reinterpret;
mod selection;
mod simplest;

pub use crate::bools::BoolArray;
pub use crate::builder::PrimitiveBuilder;
pub use crate::chunks::{chunk_bounds, chunk_count, chunk_of};
pub use crate::compute::is_constant::is_same_item;
pub use crate::compute::is_sorted::is_in_order;
pub use crate::constant::ConstantArray;
pub use crate::numbers::{index_array, number_at};
pub use crate::physical::PhysicalPType;
pub use crate::primitive::PrimitiveArray;
pub use crate::selection::filtered::filter_validity;
pub use crate::selection::without_nulls::is_full;
pub use crate::selection::{item_at, ranges_total};
pub use fl_types::{
    BetweenOptions, BitList, CompareOperator, DType, FastLanesError, Mask, NativePType,
    Nullability, PType, PValue, PrimitiveBuffer, Scalar, StrictComparison, Validity, is_equal,
    is_less,
};
