//! Why blocks are not worked on.

/// Why blocks are not worked on. Nothing was written then.
#[derive(Clone, Copy, Debug, PartialEq, Eq)]
pub enum BlocksError {
    /// The width is above the bits of the type.
    WidthTooLarge,
    /// There are more or fewer words, bases or blocks than the other arguments need.
    WrongLength,
}
