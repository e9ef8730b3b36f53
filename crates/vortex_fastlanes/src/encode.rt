//! Encoding by a scheme, which names an encoding and the schemes of the children; the scheme that an array shows; and the
//! text of schemes.

pub use fl_codec::for_::ItemOrder;
pub use fl_encode::text::{MAX_LEVELS, SchemeError, parse, print};
pub use fl_encode::{Child, Packing, Scheme, encode, scheme_of};
