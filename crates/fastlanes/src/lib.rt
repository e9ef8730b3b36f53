//! Kernels on blocks of 1024 items in the FastLanes layout. They allocate nothing.
//!
//! `docs/LAYOUT.md` describes the layout.
#![tactic(auto)]

pub mod bit_transpose;
pub mod compare;
pub mod counts;
pub mod deltas;
pub mod laws;
pub mod layout;
pub mod packing;
pub(crate) mod proof_support;
pub mod runs;
pub mod single_items;
pub(crate) mod storage;
pub mod transposing;
pub mod unpacking;
pub(crate) mod widths;
pub mod words;

pub use bit_transpose::transpose_bits;
pub use compare::{unpack_cmp, unpack_cmp_bytes};
pub use counts::Work;
pub use deltas::compare::undelta_cmp;
pub use deltas::items::undelta_to_items;
pub use deltas::{delta, undelta};
pub use layout::{FL_CHUNK_SIZE, pos, seg};
pub use packing::{pack, pack_bytes};
pub use runs::{rle_decode, rle_encode};
pub use single_items::{unpack_indices, unpack_single};
pub use transposing::{transpose, untranspose};
pub use unpacking::{unfor_pack, unfor_pack_bytes, unpack, unpack_bytes};
pub use words::FastLanes;
