//! The items of a block, lent from the scratch block.

ghost use Rattle.std.specs.Prelude.{◌≡◌, ◌≤◌};
ghost use Rattle.std.specs.Option.{option_copied};
ghost use Rattle.fl_bitpacking.specs.Lent.{items_lent};

use crate::bit_packed::BitPacked;
use fastlanes::FL_CHUNK_SIZE;
use std::marker::Model;

/// Where items stand in a block: from one position up to another.
#[derive(Drop)]
pub(crate) struct Span {
    from: usize,
    to: usize,
}

impl Model for Span {
    ghost use Rattle.std.specs.Prelude.{◌≤◌};
    ghost use Rattle.fl_bitpacking.specs.Spans.{Places};

    ghost Value = { Places };

    ghost view = { λ s. record { from = s.from; to = s.to } };

    ghost invariant = { λ s. (s.from ≤ s.to) × (s.to ≤ 1024) };
}

impl Span {
    /// The positions from one up to another.
    pub(crate) fn new(from: usize, to: usize) -> Self
        requires order { from ≤ to }
        requires within { to ≤ 1024 }
        ensures { result ≡ record { from = from; to = to } }
    {
        Span { from, to }
    }
}

/// The items of an unpacked block that belong to its column, or none. They are in the scratch block, and
/// lent until the reader is used again.
#[derive(Drop)]
pub struct UnpackedItems<'a, T> {
    pub(crate) block: &'a mut [T; FL_CHUNK_SIZE],
    pub(crate) span: Option<Span>,
}

impl<'a, T: BitPacked> UnpackedItems<'a, T> {
    /// The items, or `None` if the reader lends none.
    pub fn items(&self) -> Option<&[T]>
        ensures { option_copied result ≡ items_lent self.now }
    {
        match &self.span {
            Some(span) => {
                let block = &self.block[..];
                Some(&block[span.from..span.to])
            }
            None => None,
        }
    }
}
