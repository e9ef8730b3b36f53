//! Encoding as small as it gets, and how many bytes an array takes when it is written, also before it is encoded.

pub use fl_compress::{Limits, Statistics, compress, compress_within, size_of, statistics_of};
pub use fl_serde::nbytes;
