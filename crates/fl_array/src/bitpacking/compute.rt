//! Operations and queries of bit-packed arrays that do not decode them first.

mod cast;
mod compare;
mod filter;
mod scalar_at;
mod slice;
mod take;
