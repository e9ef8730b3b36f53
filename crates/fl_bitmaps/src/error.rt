//! Why bitmaps are not worked on.

/// Why bitmaps are not worked on. Nothing was written then.
#[derive(Clone, Copy, Debug, PartialEq, Eq)]
pub enum BitmapError {
    /// A bitmap has more or fewer bytes than the other arguments need.
    WrongLength,
    /// There is no room for the validity of the result.
    ValidityLength,
}
